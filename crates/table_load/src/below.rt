//! Whether all ids of a text are below its stamp.
ghost use Rattle.std.specs.{Prelude.{◌≡◌, ◌↔◌, IsTrue, nat_lt}, List.{list_all}};
ghost use Rattle.pid_types.specs.{Sound.{IsBelow}, declared.plain.Control.{Control}, declared.plain.Space.{Space}};
ghost use Rattle.table_text.specs.Reading.{saved_state};

use pid_types::plain::{Control, Space};
use table_text::read::Saved;

/// Whether the namespaces' ids are below the stamp.
fn are_spaces_below(spaces: &[Space], stamp: u64) -> bool
    ensures { result ≡ list_all (λ (s : Space). nat_lt s.id stamp) spaces.now }
{
    spaces.iter().all(|space| space.id < stamp)
}

/// Whether the control groups' ids are below the stamp.
fn are_controls_below(controls: &[Control], stamp: u64) -> bool
    ensures { result ≡ list_all (λ (c : Control). nat_lt c.id stamp) controls.now }
{
    controls.iter().all(|control| control.id < stamp)
}

/// Whether all ids of the text are below its stamp.
pub fn is_below(saved: &Saved) -> bool
    ensures { IsTrue result ↔ IsBelow saved.now.stamp (saved_state saved.now) }
{
    if !are_spaces_below(&saved.spaces, saved.stamp) {
        return false;
    }
    if !are_controls_below(&saved.controls, saved.stamp) {
        return false;
    }
    saved.rows.have_children_below(saved.stamp)
}
