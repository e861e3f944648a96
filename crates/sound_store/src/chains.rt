//! Whether the chains of parents end at the root init.

ghost use Rattle.std.specs.Prelude.{◌≡◌, ◌≢◌, ℕ, ◌<◌, length, true, false, Some, OnOk, IfOk, IfErr};
ghost use Rattle.sound_store.specs.{Flaws.{IsWayFlaw}, Spaces.{HasInitTask}};
ghost use Rattle.sound_store.specs.Ways.{LeadsUp, Reaches, AreReached, HasWayAt, HasWays};

use crate::Flaw;
use crate::walk::task_with;
use pid_types::keys::TaskKey;
use std::alloc::{AllocError, Global};
use task_table::Tasks;
use task_table::view::{find_task, laws};

/// Whether the way up from a key comes to a marked one, in as many steps as there are numbers.
fn leads_up(store: &Tasks, known: &[bool], key: TaskKey) -> bool
    requires marked { AreReached store.now known.now }
    requires key { key < length known.now }
    ensures yes { result ≡ true → Reaches store.now key }
    ensures no { result ≡ false → LeadsUp store.now store.now.numbering.pid_max key → ⊥ }
{
    store.tree().laws();
    let mut at = key;
    for _ in 0..store.numbers().pid_max() {
        if known[at as usize] {
            return true;
        }
        match store.tree().parent(at) {
            Some(parent) => at = parent,
            None => return false,
        }
    }
    false
}

/// Marks the way up from a key as far as it is not marked.
fn mark_way(store: &Tasks, known: &mut [bool], key: TaskKey)
    requires marked { AreReached store.now known.old }
    requires key { key < length known.old }
    requires reach { Reaches store.now key }
    ensures { AreReached store.now known.new }
{
    store.tree().laws();
    let mut at = key;
    for _ in 0..store.numbers().pid_max() {
        if known[at as usize] {
            return;
        }
        known[at as usize] = true;
        match store.tree().parent(at) {
            Some(parent) => at = parent,
            None => return,
        }
    }
}

/// Asks for the way of the task with the key, if there is one, and marks it.
fn check_way(store: &Tasks, known: &mut [bool], key: TaskKey) -> Result<(), Flaw>
    requires { AreReached store.now known.old }
    ensures marked { OnOk result (AreReached store.now known.new) }
    ensures ok { OnOk result (HasWayAt store.now key) }
    ensures told { IfErr result (λ flaw. IsWayFlaw store.now flaw) }
{
    let Some((number, found)) = task_with(store, key) else {
        return Ok(());
    };
    if !leads_up(store, known, found.key) {
        return Err(Flaw::Parent(number));
    }
    mark_way(store, known, found.key);
    Ok(())
}

/// Asks for the way of each task.
fn check_ways(store: &Tasks, known: &mut [bool]) -> Result<(), Flaw>
    requires { AreReached store.now known.old }
    ensures ok { OnOk result (HasWays store.now) }
    ensures told { IfErr result (λ flaw. IsWayFlaw store.now flaw) }
{
    let tree = store.tree();
    tree.laws();
    for place in 0..tree.keys() {
        check_way(store, known, place as TaskKey)?;
    }
    Ok(())
}

/// A mark for each key, of which that of the root init is set. The error is want of memory.
fn first_marks(alloc: Global, store: &Tasks) -> Result<Vec<bool>, AllocError>
    requires { HasInitTask store.now 0 }
    ensures { IfOk result (λ known. AreReached store.now known.items) }
{
    laws(store);
    let Some(init) = find_task(store, 0, 1) else {
        unreachable!()
    };
    let mut known = vec![in alloc; false; store.tree().keys()]?;
    known[init.key as usize] = true;
    Ok(known)
}

/// Asks for the chains of all tasks, where the root namespace has an init.
pub(crate) fn check_chains(alloc: Global, store: &Tasks) -> Result<(), Flaw>
    requires { HasInitTask store.now 0 }
    ensures ok { OnOk result (HasWays store.now) }
    ensures told { IfErr result (λ flaw. IsWayFlaw store.now flaw) }
{
    let Ok(mut known) = first_marks(alloc, store) else {
        return Err(Flaw::NoMemory);
    };
    check_ways(store, known.as_mut_slice())
}
