//! What is asked of namespaces.

ghost use Rattle.std.specs.Prelude.{◌≡◌, ◌↔◌, ℕ, ◌<◌, false, Some, OnOk, IfErr, IsTrue};
ghost use Rattle.{
  pid_numbers.specs.Numbering.{id_at, has_fallen_at},
  task_table.specs.View.{parent_id},
  sound_store.specs.{Flaws.{IsFlaw, IsSpaceFlaw}, Spaces.{HasInitTask, IsGoodSpace, HasGoodSpaces}},
};

use crate::Flaw;
use pid_types::keys::SpaceKey;
use task_table::Tasks;
use task_table::view::{find_task, is_live, laws};

/// Whether the root namespace has the id 0 and stands.
fn has_good_root(store: &Tasks) -> bool
    ensures { IsTrue result ↔ ((id_at store.now.numbering 0 ≡ Some 0) × (has_fallen_at store.now.numbering 0 ≡ false)) }
{
    match store.numbers().id(0) {
        Some(id) => id == 0 && !store.numbers().is_fallen(0),
        None => false,
    }
}

/// Whether the namespace has a greater id than the one that it is in.
fn is_younger(store: &Tasks, id: u64, space: SpaceKey) -> bool
    ensures { IsTrue result ↔ ((p : ℕ) → parent_id store.now.numbering space ≡ Some p → p < id) }
{
    let Some(parent) = store.numbers().parent(space) else {
        return true;
    };
    match store.numbers().id(parent) {
        Some(outer) => outer < id,
        None => true,
    }
}

/// Whether a live task of the namespace is number 1 in it.
fn has_init(store: &Tasks, space: SpaceKey) -> bool
    ensures { IsTrue result ↔ HasInitTask store.now space }
{
    laws(store);
    match find_task(store, space, 1) {
        Some(found) => found.space == space && is_live(&found.task),
        None => false,
    }
}

/// Asks one namespace.
fn check_space(store: &Tasks, id: u64, space: SpaceKey) -> Result<(), Flaw>
    ensures ok { OnOk result (IsGoodSpace store.now id space) }
    ensures told { IfErr result (λ flaw. IsSpaceFlaw store.now id space flaw) }
{
    if !is_younger(store, id, space) {
        return Err(Flaw::Space(id));
    }
    if !store.numbers().is_fallen(space) && !has_init(store, space) {
        return Err(Flaw::NoInit(id));
    }
    Ok(())
}

/// Asks all namespaces.
pub(crate) fn check_spaces(store: &Tasks) -> Result<(), Flaw>
    ensures ok { OnOk result (HasGoodSpaces store.now) }
    ensures told { IfErr result (λ flaw. IsFlaw store.now flaw) }
{
    laws(store);
    if !has_good_root(store) {
        return Err(Flaw::Space(0));
    }
    for (id, key) in store.numbers().keys() {
        check_space(store, id, key)?;
    }
    Ok(())
}
