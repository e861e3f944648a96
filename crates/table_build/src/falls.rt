//! The namespaces of a text fall, and their cursors are put.
ghost use Rattle.std.specs.Prelude.{◌≡◌, ◌≢◌, ◌↔◌, ◌≤◌, ◌<◌, ◌^◌, ℕ, true, map, length, slice_get, Some, IsTrue, OnOk};
ghost use Rattle.std.specs.Prelude.{OnErr, IfOk};
ghost use Rattle.{
  pid_types.specs.{Sound.{IsSound}, declared.plain.Space.{Space}},
  pid_numbers.specs.{Numbering.{IsNumberOfThread, IsNumberUsedAs, id_at, number_of, path_at}, Restore.{is_flagged}},
  table_text.specs.Reading.{saved_state},
  task_table.specs.View.{spaces_of, state_of},
  table_build.specs.Bare.{AddsFlag, AreFlagged, HasCursor, MayHaveFall, MayHaveFalls, undrawn, steady},
  table_build.specs.Stages.{ChangesSpaces, MovesCursors, Blames},
};

use crate::fault::BuildFault;
use crate::flags::{has_flag, set_flag};
use crate::lines::space_line;
use pid_types::call::Kind;
use pid_types::keys::SpaceKey;
use pid_types::plain::Space;
use std::alloc::Global;
use table_text::read::Saved;
use task_table::Tasks;
use task_table::view::laws;

/// The namespace gets a flag at its key, if it has fallen by its line.
fn add_flag(
    store: &Tasks,
    flags: &mut Vec<bool>,
    space: &Space,
    line: u64,
) -> Result<(), BuildFault>
    ensures added { OnOk result (AddsFlag store.now.numbering flags.old.items flags.new.items space.now) }
    ensures few { length flags.old.items ≤ 2 ^ 32 → length flags.new.items ≤ 2 ^ 32 }
    ensures refused { Blames result ((s : ℕ) → id_at store.now.numbering s ≢ Some space.now.id) }
{
    let Some(key) = store.numbers().find_space(space.id) else {
        return Err(BuildFault::UnknownNamespace(line));
    };
    if space.fallen {
        set_flag(flags, key)?;
    }
    Ok(())
}

/// At the key of each namespace whether it has fallen by its line.
fn fallen_flags(alloc: Global, store: &Tasks, saved: &Saved) -> Result<Vec<bool>, BuildFault>
    ensures flagged { IfOk result (λ flags. AreFlagged store.now.numbering saved.now.spaces.items
        (length saved.now.spaces.items) flags.items) }
    ensures few { IfOk result (λ flags. length flags.items ≤ 2 ^ 32) }
    ensures refused { Blames result
        (map steady (spaces_of store.now.numbering) ≡ map undrawn saved.now.spaces.items → ⊥) }
{
    laws(store);
    let mut flags = Vec::new(alloc);
    for index in 0..saved.spaces.len() {
        let line = space_line(saved, index);
        add_flag(store, &mut flags, &saved.spaces[index], line)?;
    }
    Ok(flags)
}

/// Whether a number of the namespace is in use as the kind.
fn has_kind(store: &Tasks, key: SpaceKey, kind: Kind) -> bool
    ensures { IsTrue result ↔ ((n : ℕ) × IsNumberUsedAs store.now.numbering kind key n) }
{
    store.numbers().next_used(key, kind, 0).is_some()
}

/// Whether a number of the namespace is a thread's.
fn has_thread(store: &Tasks, key: SpaceKey) -> bool
    ensures { IsTrue result ↔ ((n : ℕ) × IsNumberOfThread store.now.numbering key n) }
{
    store.numbers().next_thread(key, 0).is_some()
}

/// Whether a number of the namespace is in use.
fn has_numbers(store: &Tasks, key: SpaceKey) -> bool
    ensures { IsTrue result ↔ ((i : ℕ) × (n : ℕ) × (number_of store.now.numbering i key ≡ Some n)) }
{
    if has_kind(store, key, Kind::Task) {
        return true;
    }
    if has_kind(store, key, Kind::Group) {
        return true;
    }
    if has_kind(store, key, Kind::Session) {
        return true;
    }
    has_thread(store, key)
}

/// Whether the namespace around the one with the key has a flag.
fn is_in_fallen(store: &Tasks, flags: &[bool], key: SpaceKey) -> bool
    ensures { IsTrue result ↔ ((outer : ℕ) × (slice_get (path_at store.now.numbering key) 1 ≡ Some outer)
        × (is_flagged flags.now outer ≡ true)) }
{
    match store.numbers().parent(key) {
        Some(outer) => has_flag(flags, outer),
        None => false,
    }
}

/// Sees that a namespace which has fallen by its line is not the root and has a number in use, and that one which has
/// not is in none that has.
fn check_fall(store: &Tasks, flags: &[bool], space: &Space, line: u64) -> Result<(), BuildFault>
    ensures may { OnOk result (MayHaveFall store.now.numbering flags.now space.now) }
    ensures refused { OnErr result (MayHaveFall store.now.numbering flags.now space.now → ⊥) }
{
    laws(store);
    let Some(key) = store.numbers().find_space(space.id) else {
        return Err(BuildFault::UnknownNamespace(line));
    };
    let is_wrong = if space.fallen {
        key == 0 || !has_numbers(store, key)
    } else {
        is_in_fallen(store, flags, key)
    };
    if is_wrong {
        return Err(BuildFault::Impossible(line));
    }
    Ok(())
}

/// Sees that all namespaces may have fallen, or stand, by their lines.
fn check_falls(store: &Tasks, flags: &[bool], saved: &Saved) -> Result<(), BuildFault>
    ensures may { OnOk result (MayHaveFalls store.now.numbering flags.now saved.now.spaces.items) }
    ensures refused { OnErr result (MayHaveFalls store.now.numbering flags.now saved.now.spaces.items → ⊥) }
{
    for index in 0..saved.spaces.len() {
        let line = space_line(saved, index);
        check_fall(store, flags, &saved.spaces[index], line)?;
    }
    Ok(())
}

/// The namespaces fall that have fallen by their lines: in each a number is in use, and all in one have fallen too.
pub fn put_falls(alloc: Global, store: &mut Tasks, saved: &Saved) -> Result<(), BuildFault>
    requires listed { map steady (spaces_of store.old.numbering) ≡ map undrawn saved.now.spaces.items }
    ensures listed { OnOk result (map steady (spaces_of store.new.numbering) ≡ map steady saved.now.spaces.items) }
    ensures rows { OnOk result ((state_of store.new).rows ≡ (state_of store.old).rows) }
    ensures rest { ChangesSpaces store.old store.new }
    ensures refused { Blames result (IsSound (saved_state saved.now)
        → (state_of store.old).rows ≡ saved.now.rows → ⊥) }
{
    laws(store);
    let flags = fallen_flags(alloc, store, saved)?;
    check_falls(store, &flags, saved)?;
    store.set_fallen(&flags);
    Ok(())
}

/// The next draw in the namespace begins where its line says.
fn put_cursor(store: &mut Tasks, space: &Space)
    ensures moved { MovesCursors store.old store.new }
    ensures here { HasCursor store.new.numbering space.now }
    ensures others { (x : Space) → (x.id ≡ space.now.id → ⊥) → HasCursor store.old.numbering x
        → HasCursor store.new.numbering x }
{
    laws(store);
    if let Some(key) = store.numbers().find_space(space.id) {
        store.put_cursor(key, space.cursor);
    }
}

/// Each namespace has its cursor again.
pub fn put_cursors(store: &mut Tasks, saved: &Saved)
    requires listed { map steady (spaces_of store.old.numbering) ≡ map steady saved.now.spaces.items }
    ensures put { spaces_of store.new.numbering ≡ saved.now.spaces.items }
    ensures rows { (state_of store.new).rows ≡ (state_of store.old).rows }
    ensures moved { MovesCursors store.old store.new }
{
    laws(store);
    for index in 0..saved.spaces.len() {
        put_cursor(store, &saved.spaces[index]);
    }
    laws(store);
}
