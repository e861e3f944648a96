//! The namespaces of a text, put into a store: all stand, and no number was drawn.
ghost use Rattle.std.specs.Prelude.{◌≡◌, ◌+◌, ◌-◌, ◌<◌, ◌++◌, ◌∷◌, [], map, length, slice_get, take, false, None, Some};
ghost use Rattle.std.specs.Prelude.{IsTrue, OnOk};
ghost use Rattle.{
  pid_types.specs.declared.plain.Space.{Space},
  task_table.specs.View.{spaces_of},
  table_build.specs.{Bare.{undrawn}, Follows.{AreGoodSpaces, AreIdsUpTo, MayStandBehind}},
  table_build.specs.{Ungrouped.{AddsSpaces, IsUngrouped}, Stages.{Blames}},
};

use crate::fault::BuildFault;
use crate::lines::space_line;
use pid_types::plain::{DEEPEST_SPACE, Space};
use table_text::read::Saved;
use task_table::Tasks;
use task_table::view::laws;

/// Whether it is the root namespace, which is there already.
fn is_root(space: &Space) -> bool
    ensures yes { IsTrue result → undrawn space.now ≡ record { id = 0; parent = None; cursor = 0; fallen = false } }
    ensures no { result ≡ false → space.now.id ≡ 0 → space.now.parent ≡ None → space.now.fallen ≡ false → ⊥ }
{
    space.id == 0 && space.parent.is_none() && !space.fallen
}

/// Puts a namespace behind those that are there, whose ids are up to the last one.
fn put_space(store: &mut Tasks, space: &Space, last: u64, line: u64) -> Result<(), BuildFault>
    requires ungrouped { IsUngrouped store.old }
    requires below { AreIdsUpTo last (spaces_of store.old.numbering) }
    ensures put { OnOk result
        (spaces_of store.new.numbering ≡ spaces_of store.old.numbering ++ undrawn space.now ∷ []) }
    ensures above { OnOk result (last < space.now.id) }
    ensures refused { Blames result (MayStandBehind (spaces_of store.old.numbering) last space.now → ⊥) }
    ensures rest { AddsSpaces store.old store.new }
{
    laws(store);
    let Some(around) = space.parent else {
        return Err(BuildFault::UnknownParent(line));
    };
    if space.id <= last {
        return Err(BuildFault::Unsorted(line));
    }
    let Some(parent) = store.numbers().find_space(around) else {
        return Err(BuildFault::UnknownParent(line));
    };
    if store.numbers().level(parent) >= DEEPEST_SPACE {
        return Err(BuildFault::Impossible(line));
    }
    if store.numbers().is_fallen(parent) {
        return Err(BuildFault::Impossible(line));
    }
    store.add_space(parent, space.id)?;
    Ok(())
}

/// Sees that the first line is that of the root namespace.
fn check_root(saved: &Saved) -> Result<(), BuildFault>
    ensures root { OnOk result ((s : Space) → slice_get saved.now.spaces.items 0 ≡ Some s
        → undrawn s ≡ record { id = 0; parent = None; cursor = 0; fallen = false }) }
    ensures some { OnOk result (0 < length saved.now.spaces.items) }
    ensures refused { Blames result (AreGoodSpaces saved.now.spaces.items → ⊥) }
{
    let Some(root) = saved.spaces.first() else {
        return Err(BuildFault::Impossible(space_line(saved, 0)));
    };
    if root.id != 0 {
        return Err(BuildFault::Unsorted(space_line(saved, 0)));
    }
    if !is_root(root) {
        return Err(BuildFault::Impossible(space_line(saved, 0)));
    }
    Ok(())
}

/// Puts the namespace of a line behind those of the lines before.
fn put_next(store: &mut Tasks, saved: &Saved, index: usize) -> Result<(), BuildFault>
    requires ungrouped { IsUngrouped store.old }
    requires put { spaces_of store.old.numbering ≡ map undrawn (take index saved.now.spaces.items) }
    requires below { (s : Space) → slice_get saved.now.spaces.items (index - 1) ≡ Some s
        → AreIdsUpTo s.id (spaces_of store.old.numbering) }
    requires index { (0 < index) × (index < length saved.now.spaces.items) }
    ensures put { OnOk result (spaces_of store.new.numbering ≡ map undrawn (take (index + 1) saved.now.spaces.items)) }
    ensures below { OnOk result ((s : Space) → slice_get saved.now.spaces.items index ≡ Some s
        → AreIdsUpTo s.id (spaces_of store.new.numbering)) }
    ensures rest { AddsSpaces store.old store.new }
    ensures refused { Blames result (AreGoodSpaces saved.now.spaces.items → ⊥) }
{
    let last = saved.spaces[index - 1].id;
    put_space(store, &saved.spaces[index], last, space_line(saved, index))
}

/// Puts all namespaces: the first line is that of the root, and the ids rise.
pub fn put_spaces(store: &mut Tasks, saved: &Saved) -> Result<(), BuildFault>
    requires ungrouped { IsUngrouped store.old }
    requires root { spaces_of store.old.numbering
        ≡ record { id = 0; parent = None; cursor = 0; fallen = false } ∷ [] }
    ensures put { OnOk result (spaces_of store.new.numbering ≡ map undrawn saved.now.spaces.items) }
    ensures rest { AddsSpaces store.old store.new }
    ensures refused { Blames result (AreGoodSpaces saved.now.spaces.items → ⊥) }
{
    check_root(saved)?;
    for index in 1..saved.spaces.len() {
        put_next(store, saved, index)?;
    }
    Ok(())
}
