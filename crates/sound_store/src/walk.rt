//! The tasks of a store by their keys.

ghost use Rattle.std.specs.Prelude.{◌≡◌, Some, None, IfSome};
ghost use Rattle.{
  pid_numbers.specs.Numbering.{number_of},
  task_tree.specs.Tree.{task_at},
  sound_store.specs.Tasks.{IsTask},
};

use pid_types::keys::{Pid, TaskKey};
use task_table::Tasks;
use task_table::view::{Found, laws};

/// The task with the key, and its number in the root namespace.
pub(crate) fn task_with(store: &Tasks, key: TaskKey) -> Option<(Pid, Found)>
    ensures key { IfSome result (λ p. p.1.key ≡ key) }
    ensures task { IfSome result (λ p. IsTask store.now p.1) }
    ensures number { IfSome result (λ p. number_of store.now.numbering p.1.key 0 ≡ Some p.0) }
    ensures none { result ≡ None → task_at store.now.tree key ≡ None }
{
    laws(store);
    let Some(task) = store.tree().task(key) else {
        return None;
    };
    let Some(space) = store.numbers().space_of(key) else {
        unreachable!()
    };
    let Some(number) = store.numbers().number_in(key, 0) else {
        unreachable!()
    };
    Some((number, Found { key, space, task }))
}
