//! Snapshots to texts: [`dump_text`] is the table of all lines. Below it stands a function for each
//! part of a line, which appends it; each fails only for want of memory.
ghost use Rattle.std.specs.{Prelude.{◌≡◌, ◌++◌, OnOk, IfOk, map, codes}, List.{flat_map}};
ghost use Rattle.{
  pid_script.specs.Lists.{field},
  table_text.specs.Texts.{name_word, parent_word, names_text, places_text, flags_text, task_text_line},
  table_text.specs.Texts.{control_text_line, bounds_text, head_line, dump_text, end_line, text_of, control_shown},
  table_text.specs.{Texts.{state_shown}, Ranges.{Each}, Reading.{HasNumbers, IsHeldState}},
};

use crate::fits::plain_fits;
use hex::encode;
use pid_script::answer::joined_numbers;
use pid_script::list::{push_field, push_life, push_limit, push_mark, push_parent, push_spaces};
use pid_types::plain::{ControlRow, Name, Plain, Row};
use sha2::{Digest, Sha256};
use std::alloc::{AllocError, Global};

/// Appends the label, and the name in one word.
#[tactic(auto, unfolding(crate::specs::Texts::name_word))]
fn push_name(text: &mut Vec<u8>, label: &[u8], name: &Name) -> Result<(), AllocError>
    ensures { OnOk result (text.new.items ≡ text.old.items ++ label.now ++ name_word name.now) }
{
    text.extend_from_slice(label)?;
    text.extend_from_slice(joined_numbers(&name.numbers, b',').as_slice())?;
    push_field(text, b"@", name.space)
}

/// Appends the name of a task's parent, `-` for none.
fn push_parent_name(text: &mut Vec<u8>, parent: &Option<Name>) -> Result<(), AllocError>
    ensures { OnOk result (text.new.items ≡ text.old.items ++ codes " parent " ++ parent_word parent.now) }
{
    match parent {
        Some(name) => push_name(text, b" parent ", name),
        None => text.extend_from_slice(b" parent -"),
    }
}

/// Appends the names of a task, its parent, its group and its session.
#[tactic(auto, unfolding(crate::specs::Texts::names_text))]
fn push_names(text: &mut Vec<u8>, row: &Row) -> Result<(), AllocError>
    ensures { OnOk result (text.new.items ≡ text.old.items ++ names_text row.now) }
{
    push_name(text, b"task ", &row.name)?;
    push_parent_name(text, &row.parent)?;
    push_name(text, b" group ", &row.group)?;
    push_name(text, b" session ", &row.session)
}

/// Appends a task's control group, and the namespace that its children go into.
#[tactic(auto, unfolding(crate::specs::Texts::places_text))]
fn push_places(text: &mut Vec<u8>, row: &Row) -> Result<(), AllocError>
    ensures { OnOk result (text.new.items ≡ text.old.items ++ places_text row.now) }
{
    push_field(text, b" control ", row.home)?;
    push_field(text, b" children ", row.children_space)
}

/// Appends the state, and the marks that hold.
#[tactic(auto, unfolding(crate::specs::Texts::flags_text))]
fn push_marks(text: &mut Vec<u8>, row: &Row) -> Result<(), AllocError>
    ensures { OnOk result (text.new.items ≡ text.old.items ++ flags_text row.now) }
{
    push_life(text, row.life)?;
    push_mark(text, row.executed, b" executed")?;
    push_mark(text, row.subreaper, b" subreaper")
}

/// Appends a task's line. After an `Err` the text has some of its bytes.
#[tactic(auto, unfolding(crate::specs::Texts::task_text_line))]
pub fn push_task(text: &mut Vec<u8>, row: &Row) -> Result<(), AllocError>
    ensures { OnOk result (text.new.items ≡ text.old.items ++ task_text_line row.now) }
{
    push_names(text, row)?;
    push_places(text, row)?;
    push_marks(text, row)?;
    text.extend_from_slice(b"\n")
}

/// Appends the line of a control group, without its count.
#[tactic(auto, unfolding(crate::specs::Texts::control_text_line))]
fn push_control(text: &mut Vec<u8>, control: &ControlRow) -> Result<(), AllocError>
    ensures { OnOk result (text.new.items ≡ text.old.items ++ control_text_line (control_shown control.now)) }
{
    push_field(text, b"control ", control.id)?;
    push_parent(text, control.parent)?;
    push_limit(text, control.limit)?;
    text.extend_from_slice(b"\n")
}

/// Appends the lines of the tasks.
fn push_tasks(text: &mut Vec<u8>, rows: &[Row]) -> Result<(), AllocError>
    ensures { OnOk result (text.new.items ≡ text.old.items ++ flat_map task_text_line rows.now) }
{
    for row in rows {
        push_task(text, row)?;
    }
    Ok(())
}

/// Appends the lines of the control groups, without their counts. After an `Err` the text has some of their bytes.
pub fn push_controls(text: &mut Vec<u8>, controls: &[ControlRow]) -> Result<(), AllocError>
    ensures { OnOk result
        (text.new.items ≡ text.old.items ++ flat_map control_text_line (map control_shown controls.now)) }
{
    for control in controls {
        push_control(text, control)?;
    }
    Ok(())
}

/// Appends the bound of all numbers, and the stamp of the next call.
#[tactic(auto, unfolding(crate::specs::Texts::bounds_text))]
fn push_settings(text: &mut Vec<u8>, pid_max: u32, stamp: u64) -> Result<(), AllocError>
    ensures { OnOk result (text.new.items ≡ text.old.items ++ bounds_text pid_max stamp) }
{
    push_field(text, b" pid-max ", u64::from(pid_max))?;
    push_field(text, b" stamp ", stamp)
}

/// Appends the first line. After an `Err` the text has some of its bytes.
#[tactic(auto, unfolding(crate::specs::Texts::head_line))]
pub fn push_head(text: &mut Vec<u8>, pid_max: u32, stamp: u64) -> Result<(), AllocError>
    ensures { OnOk result (text.new.items ≡ text.old.items ++ head_line pid_max stamp) }
{
    text.extend_from_slice(b"pidtab table 1")?;
    push_settings(text, pid_max, stamp)?;
    text.extend_from_slice(b"\n")?;
    Ok(())
}

/// Appends all that the text says.
#[tactic(auto, unfolding(crate::specs::Texts::dump_text))]
fn push_said(text: &mut Vec<u8>, plain: &Plain, stamp: u64) -> Result<(), AllocError>
    ensures { OnOk result (text.new.items ≡ text.old.items ++ dump_text stamp (state_shown plain.now)) }
{
    push_head(text, plain.pid_max, stamp)?;
    push_tasks(text, &plain.rows)?;
    push_spaces(text, &plain.spaces)?;
    push_controls(text, &plain.controls)
}

/// The last line of a text: the digest of what it says.
#[tactic(auto, unfolding(crate::specs::Texts::end_line))]
pub fn end_of(alloc: Global, said: &[u8]) -> Result<Vec<u8>, AllocError>
    ensures { IfOk result (λ end. end.items ≡ end_line said.now) }
{
    let digest = encode(alloc, Sha256::digest(said))?;
    let mut end = Vec::new(alloc);
    end.extend_from_slice(b"end sha256 ")?;
    end.extend_from_slice(digest.as_bytes())?;
    end.extend_from_slice(b"\n")?;
    Ok(end)
}

/// The text of a snapshot, with the stamp of the table's next call.
///
/// - `pidtab table 1 pid-max N stamp S`.
/// - `task NAME parent NAME group NAME session NAME control C children J STATE` for each task. A
///   `NAME` is `N1,N2,..@S`, the numbers root first, and the namespace; the root init's parent is
///   `-`. The state is `live`, `exit S` or `killed`. Then, where they hold, ` executed` and
///   ` subreaper`.
/// - `space ID parent P cursor K` for each namespace, as in [`pid_script::list::list_text`].
/// - `control ID parent P limit L` for each control group, without its count.
/// - `end sha256 DIGEST`, of all bytes before this line, in hex of lower case.
///
/// The lines are in the snapshot's order. The only error is want of memory. The cost grows with the
/// text, which is made in one piece.
#[tactic(auto, unfolding(crate::specs::Texts::text_of))]
pub fn dump_text(alloc: Global, plain: &Plain, stamp: u64) -> Result<Vec<u8>, AllocError>
    ensures text { IfOk result (λ text. text.items ≡ text_of stamp (state_shown plain.now)) }
    ensures held { Each HasNumbers plain.now.rows.items → IsHeldState (state_shown plain.now) }
{
    // It does nothing but read the numbers, which are known to fit from then on.
    plain_fits(plain);
    let mut text = Vec::new(alloc);
    push_said(&mut text, plain, stamp)?;
    let end = end_of(alloc, text.as_slice())?;
    text.extend_from_slice(end.as_slice())?;
    Ok(text)
}
