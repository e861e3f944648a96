//! The end of a task, the new parent of its children, and the fall of a namespace, by key over what a
//! table of processes holds.
//!
//! A task that ends stays as a zombie until its parent waits for it, and its children go to its nearest
//! ancestor that is a subreaper in its own namespace, or else to the init there. The end of a namespace's
//! init ends the whole namespace (`pid_namespaces(7)`): it falls with all namespaces inside it, its init
//! has ended by its exit, and every other member is gone, but for those whose parent is outside: they are
//! killed, and their parent can still wait for them.
//!
//! No call here needs memory, and none refuses: who calls has seen that the task lives.

ghost use Rattle.std.specs.Prelude.{◌≡◌, ◌≢◌, ◌==◌, ℕ, option_map, Some, true, false, slice_set};
ghost use Rattle.std.specs.Option.{option_map_or};
ghost use Rattle.{
  pid_types.specs.{Settings.{HasGoodPidMax}, declared.plain.Life.{Life}, declared.plain.Ended.{Ended}},
  pid_numbers.specs.Numbering.{Identifier, Numbering, identifier_at, number_of},
  task_tree.specs.Tree.{task_at, parent_of, lives, handed},
  task_table.specs.{Store.{IsLess}, Lawful.{HasLaws}, Whole.{HasParents}, Found.{HasOwnSpace}},
  thread_view.specs.Calling.{HasProcesses},
  thread_ends.specs.Ending.{EndsProcesses, KeepsHomes},
  ns_teardown.specs.{GoodTasks.{HasGoodTasks, IsNoInit, IsInnerInit}, Heirs.{IsHeir}},
  ns_teardown.specs.Fall.{slot_at, is_visible_in, member_after_fall, slot_after_fall, FallsWithin, HasRootGroup},
};

use crate::ends::finish;
use crate::heirs::nearest_subreaper;
use crate::members::end_members;
use pid_types::keys::{SpaceKey, TaskKey};
use pid_types::plain::Ended;
use task_table::Tasks;
use task_table::view::{Found, laws};
use thread_ends::end_others;

/// Who takes the children of a live task when it ends, which is in the namespace: the nearest subreaper of that
/// namespace among its ancestors (`PR_SET_CHILD_SUBREAPER(2const)`), or else the init there. Ancestors in other
/// namespaces take no children. It costs a few reads where no task is a subreaper, or else a step for each ancestor
/// up to the first such subreaper, or up to the first in another namespace.
pub fn new_parent(store: &Tasks, key: TaskKey, space: SpaceKey) -> TaskKey
    requires good { HasGoodTasks store.now }
    requires live { option_map_or lives (task_at store.now.tree key) false ≡ true }
    requires own { (u : Identifier) → identifier_at store.now.numbering key ≡ Some u → space ≡ u.space }
    ensures { IsHeir store.now key result }
{
    laws(store);
    if let Some(ancestor) = nearest_subreaper(store, space, key) {
        return ancestor;
    }
    match store.numbers().find(space, 1) {
        Some(init) => init,
        None => unreachable!(),
    }
}

/// The children of a live task that is no init get their new parent. It costs a few writes for each child,
/// and, if there is one, what [`new_parent`] costs.
fn hand_children(store: &mut Tasks, key: TaskKey, space: SpaceKey)
    requires good { HasGoodTasks store.old }
    requires live { option_map_or lives (task_at store.old.tree key) false ≡ true }
    requires own { (u : Identifier) → identifier_at store.old.numbering key ≡ Some u → space ≡ u.space }
    requires inner { (u : Identifier) → identifier_at store.old.numbering key ≡ Some u
        → number_of store.old.numbering key u.space ≢ Some 1 }
    ensures parents { (heir : ℕ) × IsHeir store.old key heir
        × ((k : ℕ) → parent_of store.new.tree k ≡ option_map (handed key heir) (parent_of store.old.tree k)) }
    ensures tasks { store.new.tree.tasks ≡ store.old.tree.tasks }
    ensures rest { store.new ≡ record store.old { tree = store.new.tree } }
{
    laws(store);
    if store.tree().first_child(key).is_none() {
        return;
    }
    let heir = new_parent(store, key, space);
    store.hand_on(key, heir);
}

/// A live process that is no init of its own namespace ends with all its threads (`_exit(2)`): its children get their
/// new parent, and it waits for its own as a zombie. A process without children needs no new parent.
pub fn exit(store: &mut Tasks, found: &Found, status: u8)
    requires good { HasGoodTasks store.old }
    requires there { task_at store.old.tree found.now.key ≡ Some found.now.task }
    requires live { lives found.now.task ≡ true }
    requires own { HasOwnSpace store.old found.now }
    requires inner { IsNoInit store.old found.now }
    ensures tasks { store.new.tree.tasks ≡ slice_set store.old.tree.tasks found.now.key
        (Some (record found.now.task { life = Life.Zombie (Ended.Exited status) })) }
    ensures parents { (heir : ℕ) × IsHeir store.old found.now.key heir × ((k : ℕ) → parent_of store.new.tree k
        ≡ option_map (handed found.now.key heir) (parent_of store.old.tree k)) }
    ensures numbers { IsLess store.old.numbering store.new.numbering }
    ensures homes { KeepsHomes store.old.charges store.new.charges }
    ensures members { store.new.members ≡ store.old.members }
    ensures threads { EndsProcesses (λ p. p == found.now.key) store.old.threads store.new.threads }
    ensures tree { HasParents store.new }
{
    laws(store);
    hand_children(store, found.key, found.space);
    finish(store, found.key, found.task, Ended::Exited(status));
    laws(store);
    end_others(store, found.key);
}

/// The live init of a namespace other than the root ends, and the namespace falls with all inside it: of
/// its members the init has ended by its exit; another one whose parent is outside is killed, if it lived;
/// and who is the child of a member is gone, zombies too. All threads of members are gone. A namespace that has fallen
/// is dropped when no identifier with a number in it is left.
///
/// It costs a search for each member and each level of its identifier, and a step for each namespace that is inside.
pub fn fall(store: &mut Tasks, init: &Found, status: u8)
    requires good { HasGoodTasks store.old }
    requires processes { HasProcesses store.old }
    requires root { HasRootGroup store.old }
    requires bound { HasGoodPidMax store.old.numbering.pid_max }
    requires live { option_map_or lives (task_at store.old.tree init.now.key) false ≡ true }
    requires own { HasOwnSpace store.old init.now }
    requires top { IsInnerInit store.old init.now }
    ensures slots { (u : Identifier) → identifier_at store.old.numbering init.now.key ≡ Some u → (k : ℕ)
        → slot_at store.new k ≡ slot_after_fall store.old u.space init.now.key status k }
    ensures init { slot_at store.new init.now.key
        ≡ member_after_fall false true status (slot_at store.old init.now.key) }
    ensures numbers { (u : Identifier) → identifier_at store.old.numbering init.now.key ≡ Some u
        → (b : Numbering) × FallsWithin u.space store.old.numbering b × HasLaws b × IsLess b store.new.numbering }
    ensures homes { KeepsHomes store.old.charges store.new.charges }
    ensures tree { HasParents store.new }
    ensures threads { (u : Identifier) → identifier_at store.old.numbering init.now.key ≡ Some u
        → EndsProcesses (is_visible_in store.old.numbering u.space) store.old.threads store.new.threads }
{
    laws(store);
    store.fell(init.space);
    laws(store);
    end_members(store, init.space, init.key, status);
}
