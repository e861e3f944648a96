//! Exit over the tasks of a table: `_exit(2)`, the new parent of orphans, and the teardown of a PID namespace whose
//! init has ended (`pid_namespaces(7)`).
#![tactic(auto)]

ghost use Rattle.std.specs.{Prelude.{◌≡◌, ◌==◌, Some, true, false}, Option.{option_eq}};
ghost use Rattle.{
  pid_types.specs.{Outcome.{sweep}, Exit.{exit as exit_of, fall as fall_of, handed_over}, Leave.{leave as leave_of}},
  pid_types.specs.Short.{reply_of},
  pid_numbers.specs.Numbering.{number_of},
  task_tree.specs.Tree.{task_at, lives},
  task_table.specs.{Found.{HasOwnSpace}, View.{row_of}, Whole.{HasParents}},
  thread_view.specs.{Full.{full_state}, Calling.{HasProcesses, IsWholeWithThreads}},
  thread_ends.specs.Ending.{StaysAlone},
  ns_teardown.specs.GoodTasks.{IsNoInit, IsInnerInit},
};

mod ends;
mod heirs;
mod members;
mod teardown;

use pid_types::keys::{Pid, SpaceKey, TaskKey};
use pid_types::reply::{Refusal, ShortReply};
use task_table::Tasks;
use task_table::view::{Found, laws};
pub use teardown::{fall, new_parent};
use thread_ends::leave_beside;
use thread_view::find_live;

/// Whether the task has number 1 in the namespace.
fn is_first(store: &Tasks, space: SpaceKey, key: TaskKey) -> bool
    ensures { result ≡ option_eq ◌==◌ (number_of store.now.numbering key space) (Some 1) }
{
    store.numbers().number_in(key, space) == Some(1)
}

/// Whether a task that is not the root init is the init of its own namespace. Nothing is looked at where that is the
/// root, as most are.
fn is_inner_init(store: &Tasks, space: SpaceKey, key: TaskKey) -> bool
    requires { option_eq ◌==◌ (number_of store.now.numbering key 0) (Some 1) ≡ false }
    ensures { result ≡ option_eq ◌==◌ (number_of store.now.numbering key space) (Some 1) }
{
    space != 0 && is_first(store, space, key)
}

/// A live process that is no init ends with all its threads, and its children have a new parent.
fn end_task(store: &mut Tasks, found: &Found, status: u8)
    requires whole { IsWholeWithThreads store.old }
    requires there { task_at store.old.tree found.now.key ≡ Some found.now.task }
    requires live { lives found.now.task ≡ true }
    requires own { HasOwnSpace store.old found.now }
    requires inner { IsNoInit store.old found.now }
    ensures state { full_state store.new
        ≡ sweep (handed_over (full_state store.old) (row_of store.old found.now.key found.now.task) status) }
    ensures parents { HasParents store.new }
    ensures processes { HasProcesses store.new }
    ensures alone { StaysAlone store.old store.new }
{
    laws(store);
    store.thread_laws();
    teardown::exit(store, found, status);
    laws(store);
    store.thread_laws();
}

/// The live init of a namespace other than the root ends, and the namespace falls.
fn end_init(store: &mut Tasks, init: &Found, status: u8)
    requires whole { IsWholeWithThreads store.old }
    requires there { task_at store.old.tree init.now.key ≡ Some init.now.task }
    requires live { lives init.now.task ≡ true }
    requires own { HasOwnSpace store.old init.now }
    requires top { IsInnerInit store.old init.now }
    ensures state { full_state store.new
        ≡ sweep (fall_of (full_state store.old) (row_of store.old init.now.key init.now.task) status) }
    ensures parents { HasParents store.new }
    ensures processes { HasProcesses store.new }
    ensures alone { StaysAlone store.old store.new }
{
    laws(store);
    store.thread_laws();
    teardown::fall(store, init, status);
    laws(store);
    store.thread_laws();
}

/// `_exit(2)` as the C library has it, which is `exit_group(2)`, by any thread: all threads of the process end, and
/// it is a zombie until its parent waits. Its children go to its nearest ancestor that is a subreaper in its own
/// namespace, or else to the init there (`PR_SET_CHILD_SUBREAPER(2const)`).
/// The exit of a namespace's init ends all its members, and the namespace falls with all inside it
/// (`pid_namespaces(7)`).
///
/// It is refused where no running thread has the caller's number, and to the init of the root namespace. It needs
/// no memory.
///
/// It costs one search for the caller, a few writes for each child, and for each thread beside the first one what its
/// leave does. If there is a child and some task is a subreaper, it also costs a step for each ancestor up to the
/// nearest one, or else up to the first in another namespace. A teardown costs a search for each member and each level
/// of its identifier.
#[tactic(auto, unfolding(pid_types::specs::Exit::exit))]
#[inline(never)]
pub fn exit(store: &mut Tasks, caller: Pid, status: u8) -> ShortReply
    requires { IsWholeWithThreads store.old }
    ensures state { full_state store.new ≡ (exit_of (full_state store.old) caller status).state }
    ensures reply { reply_of result ≡ (exit_of (full_state store.old) caller status).reply }
    ensures full { IsWholeWithThreads store.new }
    ensures alone { StaysAlone store.old store.new }
{
    laws(store);
    let Some(found) = find_live(store, caller) else {
        return ShortReply::Refused(Refusal::NoCaller);
    };
    if is_first(store, 0, found.key) {
        return ShortReply::Refused(Refusal::RootInit);
    }
    if is_inner_init(store, found.space, found.key) {
        end_init(store, &found, status);
    } else {
        end_task(store, &found, status);
    }
    ShortReply::Done
}

/// The reply that [`exit`] would get. It changes nothing.
#[tactic(auto, unfolding(pid_types::specs::Exit::exit))]
pub fn would_exit(store: &Tasks, caller: Pid, status: u8) -> ShortReply
    requires { IsWholeWithThreads store.now }
    ensures { reply_of result ≡ (exit_of (full_state store.now) caller status).reply }
{
    laws(store);
    let Some(found) = find_live(store, caller) else {
        return ShortReply::Refused(Refusal::NoCaller);
    };
    if is_first(store, 0, found.key) {
        return ShortReply::Refused(Refusal::RootInit);
    }
    ShortReply::Done
}

/// `_exit(2)` as the system call: the calling thread leaves, and the last thread of a process that runs ends it with
/// the status, as [`exit`] does. Refused is a caller that is no running thread of a live process, and the last thread
/// of the root init. It needs no memory.
///
/// It costs what [`leave_beside`] does, and for the last thread what `exit` does.
pub fn leave(store: &mut Tasks, caller: Pid, status: u8) -> ShortReply
    requires { IsWholeWithThreads store.old }
    ensures state { full_state store.new ≡ (leave_of (full_state store.old) caller status).state }
    ensures reply { reply_of result ≡ (leave_of (full_state store.old) caller status).reply }
    ensures full { IsWholeWithThreads store.new }
{
    if let Some(reply) = leave_beside(store, caller) {
        return reply;
    }
    exit(store, caller, status)
}
