//! What is asked of each task.

ghost use Rattle.std.specs.Prelude.{◌≡◌, ℕ, true, false, IsSome, Some, OnOk, IfErr};
ghost use Rattle.{
  groups_sessions.specs.Membership.{membership_at},
  task_tree.specs.Tree.{task_at, parent_of},
  sound_store.specs.{Flaws.{IsFlaw, IsTaskFlaw}, Tasks.{IsTask, lives_at, is_own_init, is_around, may_be_parent}},
  sound_store.specs.Tasks.{has_good_parent, has_good_children, is_led, may_live, has_home, is_good_task, IsGoodAt},
  sound_store.specs.Tasks.{AllTasksPass},
};

use crate::Flaw;
use crate::walk::task_with;
use pid_types::keys::{Pid, SpaceKey, TaskKey};
use task_table::Tasks;
use task_table::view::{Found, is_live, laws};

/// Whether the key is that of a live task.
fn lives_at(store: &Tasks, key: TaskKey) -> bool
    ensures { result ≡ lives_at store.now key }
{
    match store.tree().task(key) {
        Some(task) => is_live(&task),
        None => false,
    }
}

/// Whether the task is the init of its own namespace.
fn is_init(store: &Tasks, found: &Found) -> bool
    ensures { result ≡ is_own_init store.now found.now }
{
    match store.numbers().number_in(found.key, found.space) {
        Some(number) => number == 1,
        None => false,
    }
}

/// Whether the namespace is the task's own or around it, and not its own if the task is its init.
fn is_around(store: &Tasks, found: &Found, space: SpaceKey) -> bool
    ensures { result ≡ is_around store.now found.now space }
{
    store.numbers().is_within(found.space, space)
        && !(space == found.space && is_init(store, found))
}

/// Whether the task with the key may be the parent of the one that was found.
fn may_be_parent(store: &Tasks, found: &Found, parent: TaskKey) -> bool
    ensures { result ≡ may_be_parent store.now found.now parent }
{
    if !lives_at(store, parent) {
        return false;
    }
    match store.numbers().space_of(parent) {
        Some(space) => is_around(store, found, space),
        None => false,
    }
}

/// Whether the task has a parent that it may have, or needs none.
fn has_good_parent(store: &Tasks, number: Pid, found: &Found) -> bool
    requires { IsTask store.now found.now }
    ensures { result ≡ has_good_parent store.now number found.now }
{
    match store.tree().parent(found.key) {
        Some(parent) => may_be_parent(store, found, parent),
        None => number == 1,
    }
}

/// Whether the namespace that the task's children go into is gone, its own or inside it.
fn has_good_children(store: &Tasks, found: &Found) -> bool
    ensures { result ≡ has_good_children store.now found.now }
{
    laws(store);
    match store.numbers().find_space(found.task.children_space) {
        Some(space) => store.numbers().is_within(space, found.space),
        None => true,
    }
}

/// Whether the task that the group of the one that was found is named after is none, or one of its session.
fn is_led(store: &Tasks, found: &Found) -> bool
    requires { IsTask store.now found.now }
    ensures { result ≡ is_led store.now found.now }
{
    laws(store);
    let group = store.members().group(found.key);
    match store.tree().task(group) {
        Some(_) => store.members().session(group) == store.members().session(found.key),
        None => true,
    }
}

/// Whether the task has ended, or its namespace stands.
fn may_live(store: &Tasks, found: &Found) -> bool
    ensures { result ≡ may_live store.now found.now }
{
    !(is_live(&found.task) && store.numbers().is_fallen(found.space))
}

/// Whether the control group that the task is in is there.
fn has_home(store: &Tasks, found: &Found) -> bool
    requires { IsTask store.now found.now }
    ensures { result ≡ has_home store.now found.now }
{
    laws(store);
    let home = store.controls().home_id(found.task.home);
    store.controls().find(home).is_some()
}

/// Asks one task.
fn check_task(store: &Tasks, number: Pid, found: &Found) -> Result<(), Flaw>
    requires { IsTask store.now found.now }
    ensures ok { OnOk result (is_good_task store.now number found.now ≡ true) }
    ensures told { IfErr result (λ flaw. IsTaskFlaw store.now number found.now flaw) }
{
    if !has_good_parent(store, number, found) {
        return Err(Flaw::Parent(number));
    }
    if !has_good_children(store, found) {
        return Err(Flaw::ChildrenSpace(number));
    }
    if !is_led(store, found) {
        return Err(Flaw::Group(number));
    }
    if !may_live(store, found) {
        return Err(Flaw::Fallen(number));
    }
    if !has_home(store, found) {
        return Err(Flaw::Home(number));
    }
    Ok(())
}

/// Asks the task with the key, if there is one.
fn check_key(store: &Tasks, key: TaskKey) -> Result<(), Flaw>
    ensures ok { OnOk result (IsGoodAt store.now key) }
    ensures told { IfErr result (λ flaw. IsFlaw store.now flaw) }
{
    laws(store);
    let Some((number, found)) = task_with(store, key) else {
        return Ok(());
    };
    check_task(store, number, &found)
}

/// Asks all tasks.
pub(crate) fn check_tasks(store: &Tasks) -> Result<(), Flaw>
    ensures ok { OnOk result (AllTasksPass store.now) }
    ensures told { IfErr result (λ flaw. IsFlaw store.now flaw) }
{
    let tree = store.tree();
    tree.laws();
    for place in 0..tree.keys() {
        check_key(store, place as TaskKey)?;
    }
    Ok(())
}
