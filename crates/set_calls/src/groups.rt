//! Calls that put a task into a process group or a session: `setpgid(2)` and `setsid(2)`, in the model's words
//! over a store.
//!
//! Each costs a search or two in a tree of numbers and a few reads: whether the caller is a task's parent is one
//! look-up, and whether somebody is in a group is asked by the group's key. They take no memory.

ghost use Rattle.std.specs.Prelude.{◌≡◌, ℕ, Some, IsSome, IfOk, IfSome, MatchResult, option_map};
ghost use Rattle.{
  pid_types.specs.declared.reply.Reply.{Reply},
  pid_types.specs.Groups.{set_pgid as set_pgid_of, set_sid as set_sid_of, set_group, target_of},
  pid_types.specs.{Names.{number_or_zero, with_row}, Outcome.{changed, refused}, Short.{reply_of}},
  pid_numbers.specs.Numbering.{id_at},
  task_tree.specs.{declared.Task.{Task}, Tree.{task_at}},
  task_table.specs.{declared.view.Found.{Found}, Found.{IsFound}, View.{name_at, row_of, state_of}},
  task_table.specs.Whole.{IsWhole, HasParents},
  set_calls.specs.{declared.groups.Move.{Move}, Asked.{IsAskedTarget, IsNamed, MayJoin}},
};

use groups_sessions::{GroupAsk, Target};
use pid_types::keys::{IdentKey, Pid, TaskKey};
use pid_types::reply::{Refusal, ShortReply};
use task_table::Tasks;
use task_table::view::{Found, find_live, find_task, laws};

/// Which task goes into which group, both by their keys.
#[derive(Clone, Copy)]
struct Move {
    task: TaskKey,
    group: IdentKey,
}

/// The task that the number names: 0 the caller, and a negative number nobody.
fn find_target(store: &Tasks, caller: &Found, pid: i32) -> Option<Found>
    requires { IsFound store.now caller.now }
    ensures there { IfSome result (λ f. task_at store.now.tree f.key ≡ Some f.task) }
    ensures row { target_of (state_of store.now) (row_of store.now caller.now.key caller.now.task) pid
        ≡ option_map (λ (f : Found). row_of store.now f.key f.task) result }
{
    match u32::try_from(pid) {
        Ok(0) => Some(*caller),
        Ok(number) => find_task(store, caller.space, number),
        Err(_) => None,
    }
}

/// What `setpgid(2)` asks about a task.
fn target(store: &Tasks, caller: IdentKey, found: &Found) -> Target
    requires there { task_at store.now.tree found.now.key ≡ Some found.now.task }
    ensures ident { result.ident ≡ found.now.key }
    ensures told { IsAskedTarget store.now caller found.now.task result }
{
    laws(store);
    Target {
        ident: found.key,
        session: store.members().session(found.key),
        is_child: store.tree().parent(found.key) == Some(caller),
        executed: found.task.executed,
    }
}

/// The same about the task that the number names.
fn named_target(store: &Tasks, caller: &Found, pid: i32) -> Option<Target>
    requires { IsFound store.now caller.now }
    ensures { IsNamed store.now caller.now.key caller.now.task pid result }
{
    let found = find_target(store, caller, pid)?;
    Some(target(store, caller.key, &found))
}

/// Whom `setpgid(2)` puts into which group, or the first refusal.
fn choose(store: &Tasks, caller: Pid, pid: i32, pgid: i32) -> Result<Move, Refusal>
    requires { IsWhole store.now }
    ensures outcome { MatchResult result
        (λ m. set_pgid_of (state_of store.now) caller pid pgid
        ≡ changed (with_row (state_of store.now) (name_at store.now.numbering m.task)
        (set_group (name_at store.now.numbering m.group))) Reply.Done)
        (λ r. set_pgid_of (state_of store.now) caller pid pgid ≡ refused (state_of store.now) r) }
    ensures may { IfOk result (λ m. MayJoin store.now m.task m.group) }
{
    laws(store);
    store.members().laws();
    let Some(found) = find_live(store, caller) else {
        return Err(Refusal::NoCaller);
    };
    let target = named_target(store, &found, pid);
    let session = store.members().session(found.key);
    let ask = GroupAsk {
        caller: found.key,
        session,
        space: found.space,
        pgid,
        target,
    };
    match store.members().may_setpgid(store.numbers(), &ask) {
        Err(refusal) => Err(refusal),
        Ok(group) => {
            let Some(target) = target else {
                unreachable!();
            };
            Ok(Move {
                task: target.ident,
                group,
            })
        }
    }
}

/// `setpgid(2)`: the caller or a child of it goes into a group of the caller's session, or leads a new one.
///
/// The refusals are `NoCaller`, and then: `BadGroup` for a negative group; `NoTask` where the number names
/// nobody; of a child `OtherSession`, and `Executed` where it has executed; `NoTask` for who is neither the
/// caller nor its child; `IsLeader` for the leader of a session; and `NoGroup` where nobody of the caller's
/// session, zombies included, is in the group.
#[inline(never)]
pub fn set_pgid(store: &mut Tasks, caller: Pid, pid: i32, pgid: i32) -> ShortReply
    requires { IsWhole store.old }
    ensures state { state_of store.new ≡ (set_pgid_of (state_of store.old) caller pid pgid).state }
    ensures reply { reply_of result ≡ (set_pgid_of (state_of store.old) caller pid pgid).reply }
    ensures parents { HasParents store.new }
    ensures threads { store.new.threads ≡ store.old.threads }
{
    laws(store);
    match choose(store, caller, pid, pgid) {
        Err(refusal) => ShortReply::Refused(refusal),
        Ok(goes) => {
            store.set_group(goes.task, goes.group);
            laws(store);
            ShortReply::Done
        }
    }
}

/// The number of a task in its own namespace.
fn own_number(store: &Tasks, found: &Found) -> Pid
    requires { IsFound store.now found.now }
    ensures { result ≡ number_or_zero (state_of store.now).spaces (name_at store.now.numbering found.now.key)
        (name_at store.now.numbering found.now.key).space }
{
    laws(store);
    store
        .numbers()
        .number_in(found.key, found.space)
        .unwrap_or(0)
}

/// `setsid(2)`: the caller leads a new session and a new group in it, and its number is answered.
///
/// The refusals are `NoCaller`, and `IsLeader` where somebody, the caller itself or a zombie too, is in a group
/// of the caller's name.
#[tactic(auto, unfolding(pid_types::specs::Groups::set_sid))]
#[inline(never)]
pub fn set_sid(store: &mut Tasks, caller: Pid) -> ShortReply
    requires { IsWhole store.old }
    ensures state { state_of store.new ≡ (set_sid_of (state_of store.old) caller).state }
    ensures reply { reply_of result ≡ (set_sid_of (state_of store.old) caller).reply }
    ensures parents { HasParents store.new }
    ensures threads { store.new.threads ≡ store.old.threads }
{
    laws(store);
    let Some(found) = find_live(store, caller) else {
        return ShortReply::Refused(Refusal::NoCaller);
    };
    match store.members().may_setsid(found.key) {
        Err(is_leader) => ShortReply::Refused(is_leader),
        Ok(()) => {
            let number = own_number(store, &found);
            store.start_session(found.key);
            laws(store);
            ShortReply::Number(number)
        }
    }
}

/// The reply that [`set_pgid`] would get. It changes nothing.
pub fn would_set_pgid(store: &Tasks, caller: Pid, pid: i32, pgid: i32) -> ShortReply
    requires { IsWhole store.now }
    ensures { reply_of result ≡ (set_pgid_of (state_of store.now) caller pid pgid).reply }
{
    match choose(store, caller, pid, pgid) {
        Err(refusal) => ShortReply::Refused(refusal),
        Ok(_) => ShortReply::Done,
    }
}

/// The reply that [`set_sid`] would get. It changes nothing.
#[tactic(auto, unfolding(pid_types::specs::Groups::set_sid))]
pub fn would_set_sid(store: &Tasks, caller: Pid) -> ShortReply
    requires { IsWhole store.now }
    ensures { reply_of result ≡ (set_sid_of (state_of store.now) caller).reply }
{
    laws(store);
    let Some(found) = find_live(store, caller) else {
        return ShortReply::Refused(Refusal::NoCaller);
    };
    match store.members().may_setsid(found.key) {
        Err(refusal) => ShortReply::Refused(refusal),
        Ok(()) => ShortReply::Number(own_number(store, &found)),
    }
}
