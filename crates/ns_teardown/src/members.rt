//! The end of the members of a namespace that has fallen (`pid_namespaces(7)`).
ghost use Rattle.std.specs.Prelude.{◌≡◌, ℕ, ◌<◌, ◌==◌, length, Some, IsSome, true, false};
ghost use Rattle.std.specs.Option.{option_map_or};
ghost use Rattle.{
  pid_types.specs.Settings.{HasGoodPidMax},
  pid_numbers.specs.Numbering.{Identifier, identifier_at, number_of},
  task_tree.specs.Tree.{task_at, parent_of, lives},
  task_table.specs.{Store.{IsLess, IsVisibleToParent}, Whole.{HasParents}},
  thread_view.specs.Calling.{HasProcesses},
  thread_ends.specs.Ending.{EndsProcesses, KeepsHomes, Unmarks},
  ns_teardown.specs.Fall.{slot_at, vacant, HasRootGroup, KeepsOthers, is_visible_in, member_after_fall},
  ns_teardown.specs.Fall.{slot_after_fall, parent_falls_at},
};

use crate::ends::finish;
use pid_types::call::Kind;
use pid_types::keys::{SpaceKey, TaskKey};
use pid_types::plain::{Ended, Life};
use task_table::Tasks;
use task_table::view::laws;
use task_tree::Task;
use thread_ends::end_others;

/// Whether the task goes with its parent: that is a member of the namespace, or it has gone.
fn parent_falls(store: &Tasks, space: SpaceKey, key: TaskKey) -> bool
    requires { key < length store.now.tree.tasks }
    ensures { result ≡ parent_falls_at store.now space key }
{
    match store.tree().parent(key) {
        None => false,
        Some(parent) => {
            store.tree().task(parent).is_none()
                || store.numbers().number_in(parent, space).is_some()
        }
    }
}

/// The member goes, whether its first thread has left or not. One that has left is charged as an ended one: it is
/// charged as a live one again, in the root group, before it goes. Its other threads stay.
fn remove(store: &mut Tasks, key: TaskKey, task: Task)
    requires there { task_at store.old.tree key ≡ Some task }
    requires root { HasRootGroup store.old }
    ensures here { slot_at store.new key ≡ vacant }
    ensures others { KeepsOthers key store.old store.new }
    ensures numbers { IsLess store.old.numbering store.new.numbering }
    ensures homes { KeepsHomes store.old.charges store.new.charges }
    ensures threads { Unmarks key store.old.threads store.new.threads }
{
    laws(store);
    if !store.threads().has_left(key) {
        store.remove(key, task);
        return;
    }
    let Some(root) = store.controls().find(0) else {
        unreachable!()
    };
    store.return_first(key, task, root);
    store.remove(key, Task { home: root, ..task });
}

/// The member ends in its place, if it lives: the init by its exit, and another one is killed. Its other threads stay.
fn finish_member(store: &mut Tasks, is_init: bool, status: u8, key: TaskKey, task: Task)
    requires there { task_at store.old.tree key ≡ Some task }
    requires live { is_init ≡ true → lives task ≡ true }
    requires visible { IsVisibleToParent store.old key }
    ensures here { slot_at store.new key ≡ member_after_fall false is_init status (slot_at store.old key) }
    ensures others { KeepsOthers key store.old store.new }
    ensures numbers { store.new.numbering ≡ store.old.numbering }
    ensures homes { KeepsHomes store.old.charges store.new.charges }
    ensures threads { Unmarks key store.old.threads store.new.threads }
{
    if matches!(task.life, Life::Zombie(_)) {
        laws(store);
        return;
    }
    let end = if is_init {
        Ended::Exited(status)
    } else {
        Ended::Killed
    };
    finish(store, key, task, end);
}

/// The member goes with its parent, or ends in its place, with all its threads.
fn end_member(store: &mut Tasks, space: SpaceKey, init: TaskKey, status: u8, key: TaskKey)
    requires there { IsSome (task_at store.old.tree key) }
    requires root { HasRootGroup store.old }
    requires live { key ≡ init → option_map_or lives (task_at store.old.tree key) false ≡ true }
    requires visible { (p : ℕ) → parent_of store.old.tree key ≡ Some p → IsSome (task_at store.old.tree p)
        → (u : Identifier) × (identifier_at store.old.numbering p ≡ Some u)
        × IsSome (number_of store.old.numbering key u.space) }
    ensures here { slot_at store.new key ≡ member_after_fall (parent_falls_at store.old space key) (key == init) status
        (slot_at store.old key) }
    ensures others { KeepsOthers key store.old store.new }
    ensures numbers { IsLess store.old.numbering store.new.numbering }
    ensures homes { KeepsHomes store.old.charges store.new.charges }
    ensures threads { EndsProcesses (λ p. p == key) store.old.threads store.new.threads }
{
    laws(store);
    let Some(task) = store.tree().task(key) else {
        unreachable!()
    };
    if parent_falls(store, space, key) {
        remove(store, key, task);
    } else {
        finish_member(store, key == init, status, key, task);
    }
    laws(store);
    end_others(store, key);
}

/// All members of the namespace end, in the order of their numbers there, with all their threads. Nothing is handed on:
/// a member whose parent has gone already goes too.
pub fn end_members(store: &mut Tasks, space: SpaceKey, init: TaskKey, status: u8)
    requires bound { HasGoodPidMax store.old.numbering.pid_max }
    requires root { HasRootGroup store.old }
    requires live { option_map_or lives (task_at store.old.tree init) false ≡ true }
    requires parents { HasParents store.old }
    requires processes { HasProcesses store.old }
    requires visible { (k p : ℕ) (u : Identifier) → parent_of store.old.tree k ≡ Some p
        → identifier_at store.old.numbering p ≡ Some u → IsSome (number_of store.old.numbering k u.space) }
    ensures slots { (k : ℕ) → slot_at store.new k ≡ slot_after_fall store.old space init status k }
    ensures numbers { IsLess store.old.numbering store.new.numbering }
    ensures homes { KeepsHomes store.old.charges store.new.charges }
    ensures threads { EndsProcesses (is_visible_in store.old.numbering space) store.old.threads store.new.threads }
{
    laws(store);
    let mut from = 0u32;
    while let Some(number) = store.numbers().next_used(space, Kind::Task, from) {
        laws(store);
        let Some(key) = store.numbers().find(space, number) else {
            unreachable!()
        };
        end_member(store, space, init, status, key);
        from = number + 1;
    }
    laws(store);
}
