//! Ancestors that are subreapers (`PR_SET_CHILD_SUBREAPER(2const)`).
ghost use Rattle.std.specs.Prelude.{◌≡◌, Some, IsSome, option_map};
ghost use Rattle.{
  pid_numbers.specs.Numbering.{identifier_at},
  task_tree.specs.Tree.{task_at},
  ns_teardown.specs.{GoodTasks.{HasGoodTasks}, Heirs.{nearest_subreaper_key}},
};

use pid_types::keys::{SpaceKey, TaskKey};
use task_table::Tasks;
use task_table::view::laws;

/// The nearest ancestor of a task of the namespace that is a subreaper there. It costs a step for each
/// ancestor up to that one, or else up to the first in another namespace, above which none is in this one.
#[inline(never)]
fn climb_to_subreaper(store: &Tasks, space: SpaceKey, key: TaskKey) -> Option<TaskKey>
    requires good { HasGoodTasks store.now }
    requires there { IsSome (task_at store.now.tree key) }
    requires own { option_map (λ u. u.space) (identifier_at store.now.numbering key) ≡ Some space }
    ensures { result ≡ nearest_subreaper_key store.now space key }
{
    laws(store);
    let mut at = key;
    while let Some(parent) = store.tree().parent(at) {
        if store.numbers().space_at(parent) != space {
            return None;
        }
        if store.tree().is_subreaper_at(parent) {
            return Some(parent);
        }
        at = parent;
    }
    None
}

/// The nearest ancestor of a task of the namespace that is a subreaper there. It costs one read where no task of the
/// table is a subreaper, and else the climb.
pub fn nearest_subreaper(store: &Tasks, space: SpaceKey, key: TaskKey) -> Option<TaskKey>
    requires good { HasGoodTasks store.now }
    requires there { IsSome (task_at store.now.tree key) }
    requires own { option_map (λ u. u.space) (identifier_at store.now.numbering key) ≡ Some space }
    ensures { result ≡ nearest_subreaper_key store.now space key }
{
    if !store.tree().any_subreaper() {
        return None;
    }
    climb_to_subreaper(store, space, key)
}
