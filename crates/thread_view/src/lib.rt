//! The model's state of a table's store with threads, and who is found in it by a number.
//!
//! To Linux each thread has a number of its own, and a call by any thread of a process is its process's
//! (`clone(2)`, `CLONE_THREAD`). So a number leads to a thread, a process's first one or another, and that to its
//! process.
#![tactic(auto)]

ghost use Rattle.std.specs.Prelude.{◌≡◌, ℕ, Some, None, true, IsSome, IfSome, MatchOption, option_map};
ghost use Rattle.{
  pid_types.specs.{Threads.{as_thread, caller_of, process_numbered}, declared.plain.Row.{Row}},
  pids_charge.specs.Charges.{stands},
  pid_numbers.specs.Numbering.{id_at},
  task_tree.specs.Tree.{task_at, lives},
  task_table.specs.{declared.view.Found.{Found}, View.{name_at, row_of}, Found.{HasOwnSpace}, Whole.{IsWhole}},
  thread_view.specs.{Full.{full_state}, Calling.{HasOwnId, HasProcesses, IsCallingBy, IsWholeWithThreads}},
};

use pid_types::keys::{Pid, SpaceKey, TaskKey};
use task_table::Tasks;
use task_table::view::{Found, laws, own_space};
use task_tree::Task;

/// Who calls: a live process, by one of its threads that has not left.
#[derive(Clone, Copy, Debug)]
pub struct Calling {
    /// The key of the process, which is that of its first thread.
    pub process: TaskKey,
    /// The key of the process's own namespace, the innermost in which it has a number.
    pub space: SpaceKey,
    /// The key of the thread that calls, if it is another than the first.
    pub thread: Option<TaskKey>,
}

/// What is whole without threads is so with them; the call does nothing.
pub fn whole_is_full(store: &Tasks)
    requires { IsWhole store.now }
    ensures { IsWholeWithThreads store.now }
{
    let _ = store.threads();
}

/// Who calls with a number of the root namespace: nobody where no running thread of a live process has it. It costs one
/// search in the root's tree of numbers, and three reads for a first thread, five for another.
#[inline(always)]
pub fn find_calling(store: &Tasks, number: Pid) -> Option<Calling>
    requires { HasProcesses store.now }
    ensures { MatchOption result (caller_of (full_state store.now) number ≡ None) (IsCallingBy store.now number) }
{
    laws(store);
    store.thread_laws();
    let Some(key) = store.numbers().find_in_root(number) else {
        return None;
    };
    if store.tree().is_live_at(key) && !store.threads().has_left(key) {
        return Some(Calling {
            process: key,
            space: own_space(store, key),
            thread: None,
        });
    }
    let Some(process) = store.threads().process(key) else {
        return None;
    };
    Some(Calling {
        process,
        space: own_space(store, process),
        thread: Some(key),
    })
}

/// The live process of which the thread with the number in the root namespace runs, as [`find_calling`] has it, with
/// what it is.
pub fn find_live(store: &Tasks, number: Pid) -> Option<Found>
    requires { HasProcesses store.now }
    ensures there { IfSome result (λ f. (task_at store.now.tree f.key ≡ Some f.task) × (lives f.task ≡ true)) }
    ensures own { IfSome result (λ f. HasOwnSpace store.now f) }
    ensures id { IfSome result (HasOwnId store.now) }
    ensures row { caller_of (full_state store.now) number
        ≡ option_map (λ (f : Found). row_of store.now f.key f.task) result }
{
    let calling = find_calling(store, number)?;
    let Some(task) = store.tree().task(calling.process) else {
        unreachable!()
    };
    Some(Found {
        key: calling.process,
        space: calling.space,
        task,
    })
}

/// The process of which the thread with the number in the namespace is one, zombies among them. It costs one search in
/// the namespace's tree of numbers.
pub fn find_process(store: &Tasks, space: SpaceKey, number: Pid) -> Option<Found>
    requires { HasProcesses store.now }
    ensures there { IfSome result (λ f. task_at store.now.tree f.key ≡ Some f.task) }
    ensures own { IfSome result (λ f. HasOwnSpace store.now f) }
    ensures id { IfSome result (λ f. id_at store.now.numbering f.space
        ≡ Some (name_at store.now.numbering f.key).space) }
    ensures row { (i : ℕ) → id_at store.now.numbering space ≡ Some i
        → process_numbered (full_state store.now) i number
        ≡ option_map (λ (f : Found). row_of store.now f.key f.task) result }
{
    laws(store);
    store.thread_laws();
    let Some(key) = store.numbers().find(space, number) else {
        return None;
    };
    let process = store.threads().process(key).unwrap_or(key);
    match store.tree().task(process) {
        Some(task) => Some(Found {
            key: process,
            space: own_space(store, process),
            task,
        }),
        None => None,
    }
}

/// The process that calls, with what is its calling thread's own: the control group, and the namespace that the
/// thread's children go into. It costs a few reads.
pub fn calling_task(store: &Tasks, calling: &Calling) -> Task
    requires { IsSome (task_at store.now.tree calling.now.process) }
    ensures row { (n : ℕ) (row : Row) → IsCallingBy store.now n calling.now
        → caller_of (full_state store.now) n ≡ Some row
        → row_of store.now calling.now.process result ≡ as_thread (full_state store.now) n row }
    ensures home { (n : ℕ) → IsCallingBy store.now n calling.now → stands store.now.charges result.home ≡ true }
{
    laws(store);
    let Some(task) = store.tree().task(calling.process) else {
        unreachable!()
    };
    let Some(key) = calling.thread else {
        return task;
    };
    match store.threads().thread(key) {
        Some(thread) => Task {
            home: thread.home,
            children_space: thread.children_space,
            ..task
        },
        None => task,
    }
}
