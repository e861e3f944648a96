//! The end of the threads that a process has beside its first one.
#![tactic(auto)]

ghost use Rattle.std.specs.Prelude.{◌≡◌, ◌≢◌, ◌==◌, ℕ, Some, MatchOption};
ghost use Rattle.{
  process_threads.specs.Threads.{thread_process, thread_with},
  task_table.specs.Store.{IsLess, IsThread},
  thread_ends.specs.Ending.{KeepsHomes, unless_ends},
};

use pid_types::keys::TaskKey;
use process_threads::Thread;
use task_table::Tasks;
use task_table::view::laws;

/// Some thread of the process beside its first one, with its key. It costs one read where there is none.
#[inline(always)]
fn some_other(store: &Tasks, process: TaskKey) -> Option<(TaskKey, Thread)>
    ensures { MatchOption result ((k : ℕ) → thread_process store.now.threads k ≢ Some process)
        (λ r. IsThread store.now.threads r.0 r.1 × (r.1.process ≡ process)) }
{
    store.threads().laws();
    if !store.threads().has_thread(process) {
        return None;
    }
    let key = store.threads().first(process)?;
    let thread = store.threads().thread(key)?;
    Some((key, thread))
}

/// All threads of a process beside its first one end, and their numbers and charges are free at once (`exit_group(2)`,
/// `execve(2)`). Whether the first one has left stays as it was. It takes no memory.
///
/// It costs one read where there is none, and else for each thread a step for each level of its identifier and for each
/// control group around its home.
pub fn end_others(store: &mut Tasks, process: TaskKey)
    ensures threads { (k : ℕ) → thread_with store.new.threads k
        ≡ unless_ends (λ p. p == process) (thread_with store.old.threads k) }
    ensures left { store.new.threads.left ≡ store.old.threads.left }
    ensures numbers { IsLess store.old.numbering store.new.numbering }
    ensures homes { KeepsHomes store.old.charges store.new.charges }
    ensures rest { (store.new.tree ≡ store.old.tree) × (store.new.members ≡ store.old.members) }
{
    laws(store);
    while let Some((key, thread)) = some_other(store, process) {
        laws(store);
        store.end_thread(key, thread);
    }
}
