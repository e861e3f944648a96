//! The leave of a thread while another one of its process runs: `_exit(2)` as a system call, over the tasks of a table.
//!
//! A thread beside the first one is gone at once, with its numbers and its charge. A first thread's process keeps its
//! number, and is charged as one that has ended. The leave of the last thread is an exit, and is not made here.
#![tactic(auto)]

ghost use Rattle.std.specs.Prelude.{◌≡◌, ℕ, ◌<◌, Some, true, false, IsSome, length};
ghost use Rattle.{
  pid_types.specs.{Leave.{without_first, without_thread}, Outcome.{sweep}},
  pid_numbers.specs.Numbering.{number_of},
  process_threads.specs.Threads.{left_at, thread_with},
  task_tree.specs.{declared.Task.{Task}, Tree.{task_at, has_live}},
  task_table.specs.{View.{row_of}, Whole.{HasParents}},
  thread_view.specs.{Full.{full_state}, Calling.{HasProcesses, IsWholeWithThreads}},
  thread_ends.specs.Leaving.{LeavesBeside, TellsBeside},
};

mod others;

use model_laws::soundness::threads_keep_soundness;
pub use others::end_others;
use pid_types::keys::{Pid, TaskKey};
use pid_types::reply::{Refusal, ShortReply};
use task_table::Tasks;
use task_table::view::laws;
use thread_view::{Calling, find_calling};

/// Whether another thread of the process runs than the one that calls. It costs a few reads.
fn runs_beside(store: &Tasks, calling: &Calling) -> bool
    requires { IsWholeWithThreads store.now }
    ensures told { TellsBeside store.now calling.now result }
    ensures room { result ≡ true → calling.now.process < length store.now.threads.left }
{
    laws(store);
    store.thread_laws();
    store.threads().laws();
    if !store.threads().has_left(calling.process) {
        return store.threads().has_thread(calling.process);
    }
    let mut others = store.threads().members(calling.process);
    let _ = others.next();
    others.next().is_some()
}

/// A thread beside the first one is gone, with its numbers and its charge.
fn leave_other(store: &mut Tasks, key: TaskKey)
    requires full { IsWholeWithThreads store.old }
    requires there { IsSome (thread_with store.old.threads key) }
    ensures state { (n : ℕ) → number_of store.old.numbering key 0 ≡ Some n
        → full_state store.new ≡ sweep (without_thread (full_state store.old) n) }
    ensures parents { HasParents store.new }
    ensures processes { HasProcesses store.new }
{
    laws(store);
    store.thread_laws();
    let Some(thread) = store.threads().thread(key) else {
        unreachable!()
    };
    store.end_thread(key, thread);
    laws(store);
    store.thread_laws();
}

/// The first thread of a process leaves, which lives on.
fn leave_first(store: &mut Tasks, process: TaskKey)
    requires full { IsWholeWithThreads store.old }
    requires live { has_live (task_at store.old.tree process) ≡ true }
    requires stays { left_at store.old.threads process ≡ false }
    requires room { process < length store.old.threads.left }
    ensures state { (task : Task) → task_at store.old.tree process ≡ Some task
        → full_state store.new ≡ sweep (without_first (full_state store.old) (row_of store.old process task)) }
    ensures parents { HasParents store.new }
    ensures processes { HasProcesses store.new }
{
    laws(store);
    store.thread_laws();
    let Some(task) = store.tree().task(process) else {
        unreachable!()
    };
    store.leave_first(process, task);
    laws(store);
    store.thread_laws();
}

/// `_exit(2)` as a system call, by a thread beside which another one of its process runs: it leaves, whatever its
/// status is. For the last one the answer is `None`, and nothing has changed: then its leave is an exit. Refused is a
/// caller that is no running thread of a live process (`no-caller`). It takes no memory.
///
/// It costs a step for each level of a thread beside the first one, and for each control group around its home.
pub fn leave_beside(store: &mut Tasks, caller: Pid) -> Option<ShortReply>
    requires { IsWholeWithThreads store.old }
    ensures left { LeavesBeside store.old store.new caller result }
    ensures full { IsWholeWithThreads store.new }
{
    laws(store);
    store.thread_laws();
    threads_keep_soundness();
    let Some(calling) = find_calling(store, caller) else {
        return Some(ShortReply::Refused(Refusal::NoCaller));
    };
    if !runs_beside(store, &calling) {
        return None;
    }
    match calling.thread {
        Some(key) => leave_other(store, key),
        None => leave_first(store, calling.process),
    }
    Some(ShortReply::Done)
}
