//! The model's state that a table's store holds.
//!
//! A store goes by keys; the model has lists of rows, namespaces and control groups, in which everything
//! goes by names, numbers and ids. Here is what the one says of the other, for the calls that are written
//! over the store and told in the model's words.

ghost use Rattle.std.specs.Prelude.{◌≡◌, ◌≢◌, ℕ, Some, None, true, IsSome, IfSome, MatchOption, option_map};
ghost use Rattle.{
  pid_types.specs.{Names.{live_row}, Threads.{process_numbered}},
  pid_numbers.specs.Numbering.{Identifier, id_at, identifier_at, number_of},
  task_tree.specs.{Tree.{task_at, lives}, declared.Task.{Task}},
  task_table.specs.{declared.view.Found.{Found}, View.{name_at, row_of, state_of}, Lawful.{HasLaws, IsLawful}},
  task_table.specs.Found.{HasOwnSpace, IsCalling},
};

use crate::Tasks;
use pid_numbers::Numbers;
use pid_types::keys::{Pid, SpaceKey, TaskKey};
use pid_types::plain::Life;
use task_tree::Task;

/// A task that was found: its key, its own namespace, and what it is.
#[derive(Clone, Copy, Debug)]
pub struct Found {
    /// Its key in the store, which is that of its identifier: below the number of keys there is room for.
    pub key: TaskKey,
    /// The key of its own namespace, the innermost in which it has a number.
    pub space: SpaceKey,
    /// What the store has at the key: its home is a control group's key, and its life says whether it has ended.
    pub task: Task,
}

/// A live task that was found by its number in the root namespace, and is not copied.
#[derive(Clone, Copy, Debug)]
pub struct Caller {
    /// Its key in the store.
    pub key: TaskKey,
    /// The key of its own namespace, the innermost in which it has a number.
    pub space: SpaceKey,
}

/// What is true of the identifiers and namespaces of a store; the call does nothing.
fn number_laws(numbers: &Numbers)
    ensures { HasLaws numbers.now }
{
    numbers.laws();
}

/// What is true of a store at any time; the call does nothing. The parts keep their laws, and agree.
pub fn laws(store: &Tasks)
    ensures { IsLawful store.now }
{
    store.thread_laws();
    number_laws(store.numbers());
    store.laws();
    store.tree().laws();
    store.members().laws();
    store.controls().laws();
}

/// Whether a task has not ended.
pub fn is_live(task: &Task) -> bool
    ensures { result ≡ lives task.now }
{
    match task.life {
        Life::Live => true,
        Life::Zombie(_) => false,
    }
}

/// The key of a task's own namespace, the innermost in which it has a number. It costs one read.
pub fn own_space(store: &Tasks, key: TaskKey) -> SpaceKey
    requires { IsSome (task_at store.now.tree key) }
    ensures own { (u : Identifier) → identifier_at store.now.numbering key ≡ Some u → result ≡ u.space }
    ensures id { id_at store.now.numbering result ≡ Some (name_at store.now.numbering key).space }
{
    laws(store);
    store.numbers().space_at(key)
}

/// The task with the number in the namespace, zombies among them. It costs one search in the namespace's
/// tree of numbers.
pub fn find_task(store: &Tasks, space: SpaceKey, number: Pid) -> Option<Found>
    ensures there { IfSome result (λ f. (task_at store.now.tree f.key ≡ Some f.task)
        × (number_of store.now.numbering f.key space ≡ Some number)) }
    ensures own { IfSome result (λ f. HasOwnSpace store.now f) }
    ensures id { IfSome result (λ f. id_at store.now.numbering f.space
        ≡ Some (name_at store.now.numbering f.key).space) }
    ensures nobody { result ≡ None → (k : ℕ) → (t : Task) → task_at store.now.tree k ≡ Some t
        → number_of store.now.numbering k space ≢ Some number }
    ensures row { (i : ℕ) → id_at store.now.numbering space ≡ Some i
        → process_numbered (state_of store.now) i number
        ≡ option_map (λ (f : Found). row_of store.now f.key f.task) result }
{
    laws(store);
    let Some(key) = store.numbers().find(space, number) else {
        return None;
    };
    match store.tree().task(key) {
        Some(task) => Some(Found {
            key,
            space: own_space(store, key),
            task,
        }),
        None => None,
    }
}

/// Who calls with the number: the live task that has it in the root namespace. It costs one search in the root's tree
/// of numbers, and two reads.
#[inline(always)]
pub fn find_caller(store: &Tasks, number: Pid) -> Option<Caller>
    ensures { MatchOption result (live_row (state_of store.now).rows number ≡ None) (IsCalling store.now number) }
{
    laws(store);
    let Some(key) = store.numbers().find_in_root(number) else {
        return None;
    };
    if !store.tree().is_live_at(key) {
        return None;
    }
    Some(Caller {
        key,
        space: own_space(store, key),
    })
}

/// The live task with the number in the root namespace, as [`find_caller`] has it, with what it is.
pub fn find_live(store: &Tasks, number: Pid) -> Option<Found>
    ensures there { IfSome result (λ f. (task_at store.now.tree f.key ≡ Some f.task) × (lives f.task ≡ true)) }
    ensures own { IfSome result (λ f. HasOwnSpace store.now f) }
    ensures id { IfSome result (λ f. id_at store.now.numbering f.space
        ≡ Some (name_at store.now.numbering f.key).space) }
    ensures row { live_row (state_of store.now).rows number
        ≡ option_map (λ (f : Found). row_of store.now f.key f.task) result }
{
    let Some(Caller { key, space }) = find_caller(store, number) else {
        return None;
    };
    let Some(task) = store.tree().task(key) else {
        unreachable!()
    };
    Some(Found { key, space, task })
}

/// The id of the own namespace of a task that was found. It costs one read.
pub fn own_id(store: &Tasks, found: &Found) -> u64
    requires { id_at store.now.numbering found.now.space ≡ Some (name_at store.now.numbering found.now.key).space }
    ensures { result ≡ (name_at store.now.numbering found.now.key).space }
{
    match store.numbers().id(found.space) {
        Some(id) => id,
        None => unreachable!(),
    }
}
