//! The tasks of a text begin. Each is live, without a parent, and in a group and a session of its own name.
ghost use Rattle.std.specs.Prelude.{◌≡◌, ◌<◌, ℕ, [], length, map, false, OnOk, IfOk, IsSome, IsTrue, option_map};
ghost use Rattle.std.specs.Prelude.{slice_get};
ghost use Rattle.{
  pid_types.specs.{Controls.{control_at}, Names.{root_number}, Sound.{IsRising, IsSound}},
  table_text.specs.Reading.{saved_state},
  table_build.specs.{Parts.{HasParts, IsPart}, Follows.{MayBear}, Lines.{AreLines}, Sorted.{IsNotBelow}},
  table_build.specs.{Ungrouped.{IsUngrouped}, Kept.{AddsTask, HasNobody, KeepsUngrouped}, Stages.{as_begun, Blames}},
};

use crate::fault::BuildFault;
use crate::lines::task_line;
use crate::names::put_name;
use crate::placed::Placed;
use pid_types::keys::TaskKey;
use pid_types::plain::{Life, Row};
use std::alloc::Global;
use table_text::read::Saved;
use task_table::Tasks;
use task_table::view::laws;
use task_tree::Task;
use translate::shown::blank_row;

/// Whether the line's number is below that of the line before.
fn is_unsorted(saved: &Saved, index: usize) -> bool
    requires { index < length saved.now.rows }
    ensures sorted { result ≡ false → IsNotBelow saved.now.rows index }
    ensures unsorted { IsTrue result → IsRising (map (λ row. root_number row.name) saved.now.rows) → ⊥ }
{
    if index == 0 {
        return false;
    }
    let (Some(before), Some(number)) = (saved.rows.number(index - 1), saved.rows.number(index))
    else {
        return false;
    };
    number < before
}

/// The task of a line begins.
fn begin_task(store: &mut Tasks, row: &Row, line: u64) -> Result<TaskKey, BuildFault>
    requires ungrouped { IsUngrouped store.old }
    ensures added { IfOk result (λ key. AddsTask store.old store.new key (as_begun row.now)) }
    ensures refused { Blames result (IsSome (control_at store.old.charges.controls row.now.home)
        → MayBear store.old.numbering row.now.name → ⊥) }
{
    let Some(home) = store.controls().find(row.home) else {
        return Err(BuildFault::UnknownGroup(line));
    };
    let task = Task {
        children_space: row.children_space,
        home,
        executed: row.executed,
        subreaper: row.subreaper,
        life: Life::Live,
    };
    put_name(store, &row.name, task, line)
}

/// The tasks of all lines begin.
pub fn begin_tasks(alloc: Global, store: &mut Tasks, saved: &Saved) -> Result<Placed, BuildFault>
    requires { HasNobody store.old }
    ensures keeps { OnOk result (KeepsUngrouped store.old store.new) }
    ensures lines { IfOk result (λ placed. AreLines store.new placed
        (λ j. option_map as_begun (slice_get saved.now.rows j))) }
    ensures keys { IfOk result (λ placed. length placed.keys.items ≡ length saved.now.rows) }
    ensures groups { IfOk result (λ placed. placed.groups.items ≡ []) }
    ensures nobody { IfOk result (λ placed. placed.placeholders.items ≡ []) }
    ensures sorted { OnOk result ((j : ℕ) → j < length saved.now.rows → IsNotBelow saved.now.rows j) }
    ensures part { HasParts store.old (saved_state saved.now)
        → OnOk result (IsPart store.new (saved_state saved.now)) }
    ensures refused { Blames result (IsSound (saved_state saved.now)
        → HasParts store.old (saved_state saved.now) → ⊥) }
{
    let mut placed = Placed::new(alloc);
    let mut row = blank_row();
    for index in 0..saved.rows.len() {
        if is_unsorted(saved, index) {
            return Err(BuildFault::Unsorted(task_line(index)));
        }
        saved.rows.write_next(index, &mut row);
        laws(store);
        let key = begin_task(store, &row, task_line(index))?;
        placed.add_key(key)?;
    }
    Ok(placed)
}
