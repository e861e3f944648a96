//! The queries, each as the model answers it.
ghost use Rattle.std.specs.{Prelude.{◌≡◌, ℕ, Some, IsSome, IfSome, option_map}, Option.{option_map_or}};
ghost use Rattle.{
  pid_types.specs.{Names.{number_or_zero}, Queries.{get_pid as get_pid_of, get_ppid as get_ppid_of}},
  pid_types.specs.Queries.{get_pgid as get_pgid_of, get_sid as get_sid_of, ns_pid as ns_pid_of, next as next_of},
  pid_types.specs.{Queries.{self_or_task}, Short.{reply_of}, Written.{IsWritten}},
  pid_numbers.specs.Numbering.{id_at, identifier_at},
  task_tree.specs.{declared.Task.{Task}, Tree.{task_at, parent_of}},
  task_table.specs.{declared.view.Found.{Found}, Found.{IsFound}, View.{name_at, row_of, state_of}},
  task_table.specs.Whole.{HasParents, IsWhole},
  thread_view.specs.{Full.{full_state}, Calling.{HasProcesses, IsThere, IsWholeWithThreads}},
  translate.specs.Zeroes.{HasZeroesBehind},
};

use pid_types::call::Kind;
use pid_types::keys::{IdentKey, Pid, SpaceKey, TaskKey};
use pid_types::plain::LEVELS;
use pid_types::reply::{Refusal, ShortReply};
use task_table::Tasks;
use task_table::view::{Found, find_caller, find_task, laws};
use thread_view::{find_calling, find_live, find_process};

/// The number of an identifier in a namespace, 0 where it is not visible there.
#[inline(always)]
pub(crate) fn seen(store: &Tasks, space: SpaceKey, key: IdentKey) -> Pid
    requires { IsSome (identifier_at store.now.numbering key) }
    ensures { (i : ℕ) → id_at store.now.numbering space ≡ Some i
        → result ≡ number_or_zero (state_of store.now).spaces (name_at store.now.numbering key) i }
{
    laws(store);
    store.numbers().number_in(key, space).unwrap_or(0)
}

/// The number of a task in a namespace.
#[inline(always)]
pub(crate) fn seen_task(store: &Tasks, space: SpaceKey, key: IdentKey) -> Pid
    requires { IsSome (task_at store.now.tree key) }
    ensures { (i : ℕ) → id_at store.now.numbering space ≡ Some i
        → result ≡ number_or_zero (state_of store.now).spaces (name_at store.now.numbering key) i }
{
    laws(store);
    seen(store, space, key)
}

/// The number of a task in its own namespace.
#[inline(always)]
fn own_number(store: &Tasks, key: TaskKey) -> Pid
    requires { IsSome (task_at store.now.tree key) }
    ensures { result ≡ number_or_zero (state_of store.now).spaces (name_at store.now.numbering key)
        (name_at store.now.numbering key).space }
{
    laws(store);
    store.numbers().own_number(key)
}

/// The number of a task's group in a namespace.
#[inline(always)]
pub(crate) fn seen_group(store: &Tasks, space: SpaceKey, found: &Found) -> Pid
    requires { task_at store.now.tree found.now.key ≡ Some found.now.task }
    ensures { (i : ℕ) → id_at store.now.numbering space ≡ Some i
        → result ≡ number_or_zero (state_of store.now).spaces (row_of store.now found.now.key found.now.task).group i }
{
    laws(store);
    let group = store.members().group(found.key);
    seen(store, space, group)
}

/// The number of a task's session in a namespace.
#[inline(always)]
pub(crate) fn seen_session(store: &Tasks, space: SpaceKey, found: &Found) -> Pid
    requires { task_at store.now.tree found.now.key ≡ Some found.now.task }
    ensures { (i : ℕ) → id_at store.now.numbering space ≡ Some i
        → result ≡ number_or_zero (state_of store.now).spaces
        (row_of store.now found.now.key found.now.task).session i }
{
    laws(store);
    let session = store.members().session(found.key);
    seen(store, space, session)
}

/// The number of a task's parent in a namespace; 0 for the root init, which has none.
#[inline(always)]
pub(crate) fn seen_parent(store: &Tasks, space: SpaceKey, key: TaskKey) -> Pid
    requires parents { HasParents store.now }
    requires there { IsSome (task_at store.now.tree key) }
    ensures { (i : ℕ) → id_at store.now.numbering space ≡ Some i
        → result ≡ option_map_or (λ parent. number_or_zero (state_of store.now).spaces parent i)
        (option_map (name_at store.now.numbering) (parent_of store.now.tree key)) 0 }
{
    laws(store);
    match store.tree().parent(key) {
        Some(parent) => seen_task(store, space, parent),
        None => 0,
    }
}

/// `getpid(2)`.
#[tactic(auto, unfolding(pid_types::specs::Queries::get_pid))]
#[inline(always)]
pub(crate) fn get_pid(store: &Tasks, caller: Pid) -> ShortReply
    requires { IsWholeWithThreads store.now }
    ensures { reply_of result ≡ get_pid_of (full_state store.now) caller }
{
    let Some(calling) = find_calling(store, caller) else {
        return ShortReply::Refused(Refusal::NoCaller);
    };
    ShortReply::Number(own_number(store, calling.process))
}

/// `getppid(2)`: 0 for a parent that the caller cannot see, and for the root init.
#[tactic(auto, unfolding(pid_types::specs::Queries::get_ppid))]
#[inline(always)]
pub(crate) fn get_ppid(store: &Tasks, caller: Pid) -> ShortReply
    requires { IsWholeWithThreads store.now }
    ensures { reply_of result ≡ get_ppid_of (full_state store.now) caller }
{
    let Some(calling) = find_calling(store, caller) else {
        return ShortReply::Refused(Refusal::NoCaller);
    };
    ShortReply::Number(seen_parent(store, calling.space, calling.process))
}

/// The task with the number in the caller's namespace, where 0 is the caller.
#[inline(always)]
pub(crate) fn self_or_task(store: &Tasks, caller: &Found, pid: Pid) -> Option<Found>
    requires { IsFound store.now caller.now }
    ensures there { IfSome result (λ f. task_at store.now.tree f.key ≡ Some f.task) }
    ensures own { IfSome result (λ f. id_at store.now.numbering f.space
        ≡ Some (name_at store.now.numbering f.key).space) }
    ensures row { option_map (λ (f : Found). row_of store.now f.key f.task) result
        ≡ self_or_task (state_of store.now) (row_of store.now caller.now.key caller.now.task) pid }
{
    if pid == 0 {
        Some(*caller)
    } else {
        find_task(store, caller.space, pid)
    }
}

/// The process that the number names in the caller's namespace, by any of its threads, where 0 is the caller.
#[inline(always)]
fn self_or_process(store: &Tasks, caller: &Found, pid: Pid) -> Option<Found>
    requires found { IsFound store.now caller.now }
    requires processes { HasProcesses store.now }
    ensures there { IfSome result (IsThere store.now) }
    ensures row { option_map (λ (f : Found). row_of store.now f.key f.task) result
        ≡ self_or_task (full_state store.now) (row_of store.now caller.now.key caller.now.task) pid }
{
    if pid == 0 {
        Some(*caller)
    } else {
        find_process(store, caller.space, pid)
    }
}

/// `getpgid(2)`: 0 for a group that the caller cannot see.
#[tactic(auto, unfolding(pid_types::specs::Queries::get_pgid))]
#[inline(always)]
pub(crate) fn get_pgid(store: &Tasks, caller: Pid, pid: Pid) -> ShortReply
    requires { IsWholeWithThreads store.now }
    ensures { reply_of result ≡ get_pgid_of (full_state store.now) caller pid }
{
    let Some(found) = find_live(store, caller) else {
        return ShortReply::Refused(Refusal::NoCaller);
    };
    let Some(task) = self_or_process(store, &found, pid) else {
        return ShortReply::Refused(Refusal::NoTask);
    };
    ShortReply::Number(seen_group(store, found.space, &task))
}

/// `getsid(2)`: 0 for a session that the caller cannot see.
#[tactic(auto, unfolding(pid_types::specs::Queries::get_sid))]
#[inline(always)]
pub(crate) fn get_sid(store: &Tasks, caller: Pid, pid: Pid) -> ShortReply
    requires { IsWholeWithThreads store.now }
    ensures { reply_of result ≡ get_sid_of (full_state store.now) caller pid }
{
    let Some(found) = find_live(store, caller) else {
        return ShortReply::Refused(Refusal::NoCaller);
    };
    let Some(task) = self_or_process(store, &found, pid) else {
        return ShortReply::Refused(Refusal::NoTask);
    };
    ShortReply::Number(seen_session(store, found.space, &task))
}

/// `NSpid` of `proc_pid_status(5)`: writes the target's numbers from the caller's namespace inwards over the first ones
/// of the room. It answers how many, or the refusal. Behind them are zeroes.
#[tactic(auto, unfolding(pid_types::specs::Queries::ns_pid))]
#[inline(always)]
pub(crate) fn ns_pid(
    store: &Tasks,
    caller: Pid,
    target: Pid,
    room: &mut [Pid; LEVELS],
) -> Result<usize, Refusal>
    requires { IsWhole store.now }
    ensures value { IsWritten result room.new (ns_pid_of (state_of store.now) caller target) }
    ensures zeroes { HasZeroesBehind result room.new }
{
    laws(store);
    let Some(found) = find_caller(store, caller) else {
        return Err(Refusal::NoCaller);
    };
    let Some(task) = find_task(store, found.space, target) else {
        return Err(Refusal::NoTask);
    };
    *room = [0; LEVELS];
    Ok(
        store
            .numbers()
            .write_levels_from(task.key, found.space, room),
    )
}

/// The least number from the given one on that is in use as the kind, in the caller's namespace. It costs one
/// search by marks.
#[tactic(auto, unfolding(pid_types::specs::Queries::next))]
#[inline(always)]
pub(crate) fn next(store: &Tasks, caller: Pid, kind: Kind, from: Pid) -> ShortReply
    requires { IsWholeWithThreads store.now }
    ensures { reply_of result ≡ next_of (full_state store.now) caller kind from }
{
    laws(store);
    let Some(calling) = find_calling(store, caller) else {
        return ShortReply::Refused(Refusal::NoCaller);
    };
    match store.numbers().next_used(calling.space, kind, from) {
        Some(number) => ShortReply::Number(number),
        None => ShortReply::End,
    }
}
