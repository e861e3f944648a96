//! Snapshots to lists: [`list_text`] is the table of all lines. Below it stands a function for each
//! part of a line, which appends it; each fails only for want of memory.
ghost use Rattle.std.specs.{Prelude.{◌≡◌, ◌++◌, ◌∷◌, [], OnOk, IfOk, codes, decimal}, List.{flat_map}};
ghost use Rattle.{
  pid_types.specs.Names.{root_number},
  pid_script.specs.Lists.{field, marked, parent_text, limit_text, life_text, children_text, name_text, relatives_text},
  pid_script.specs.Lists.{marks_text, task_line, space_line, control_line, list_of},
};

use crate::answer::joined_numbers;
use itoa::Buffer;
use pid_types::plain::{ControlRow, Ended, Life, Name, Plain, Row, Space};
use std::alloc::{AllocError, Global};

/// Appends the number in decimal digits.
fn push_number(text: &mut Vec<u8>, number: u64) -> Result<(), AllocError>
    ensures { OnOk result (text.new.items ≡ text.old.items ++ decimal number) }
{
    let mut buffer = Buffer::new();
    text.extend_from_slice(buffer.format(number).as_bytes())
}

/// Appends the label and the number.
pub fn push_field(text: &mut Vec<u8>, label: &[u8], number: u64) -> Result<(), AllocError>
    ensures { OnOk result (text.new.items ≡ text.old.items ++ field label.now number) }
{
    text.extend_from_slice(label)?;
    push_number(text, number)
}

/// Appends the word where the mark holds.
pub fn push_mark(text: &mut Vec<u8>, holds: bool, word: &[u8]) -> Result<(), AllocError>
    ensures { OnOk result (text.new.items ≡ text.old.items ++ marked holds word.now) }
{
    if holds {
        text.extend_from_slice(word)?;
    }
    Ok(())
}

/// Appends the parent of a namespace or a control group, `-` for none.
pub fn push_parent(text: &mut Vec<u8>, parent: Option<u64>) -> Result<(), AllocError>
    ensures { OnOk result (text.new.items ≡ text.old.items ++ codes " parent " ++ parent_text parent) }
{
    match parent {
        Some(id) => push_field(text, b" parent ", id),
        None => text.extend_from_slice(b" parent -"),
    }
}

/// Appends the limit, `max` for none.
pub fn push_limit(text: &mut Vec<u8>, limit: Option<u32>) -> Result<(), AllocError>
    ensures { OnOk result (text.new.items ≡ text.old.items ++ codes " limit " ++ limit_text limit) }
{
    match limit {
        Some(limit) => push_field(text, b" limit ", u64::from(limit)),
        None => text.extend_from_slice(b" limit max"),
    }
}

/// Appends `live`, or how the task ended.
pub fn push_life(text: &mut Vec<u8>, life: Life) -> Result<(), AllocError>
    ensures { OnOk result (text.new.items ≡ text.old.items ++ codes " " ++ life_text life) }
{
    match life {
        Life::Live => text.extend_from_slice(b" live"),
        Life::Zombie(Ended::Exited(status)) => push_field(text, b" exit ", u64::from(status)),
        Life::Zombie(Ended::Killed) => text.extend_from_slice(b" killed"),
    }
}

/// The number in the root namespace, or 0 for a name without numbers.
fn root_number(name: &Name) -> u64
    ensures { result ≡ root_number name.now }
{
    match name.numbers.as_slice() {
        [number, ..] => u64::from(*number),
        [] => 0,
    }
}

/// Appends a task's numbers and its namespace.
#[tactic(auto, unfolding(crate::specs::Lists::name_text))]
fn push_name(text: &mut Vec<u8>, row: &Row) -> Result<(), AllocError>
    ensures { OnOk result (text.new.items ≡ text.old.items ++ name_text row.now) }
{
    text.extend_from_slice(b"task ")?;
    text.extend_from_slice(joined_numbers(&row.name.numbers, b',').as_slice())?;
    push_field(text, b" space ", row.name.space)
}

/// Appends the root numbers of parent, group and session, and the control group.
#[tactic(auto, unfolding(crate::specs::Lists::relatives_text))]
fn push_relatives(text: &mut Vec<u8>, row: &Row) -> Result<(), AllocError>
    ensures { OnOk result (text.new.items ≡ text.old.items ++ relatives_text row.now) }
{
    let parent = match &row.parent {
        Some(parent) => root_number(parent),
        None => 0,
    };
    push_field(text, b" parent ", parent)?;
    push_field(text, b" group ", root_number(&row.group))?;
    push_field(text, b" session ", root_number(&row.session))?;
    push_field(text, b" control ", row.home)
}

/// Appends the namespace that the task's children go into, where it is another than its own.
fn push_children(text: &mut Vec<u8>, row: &Row) -> Result<(), AllocError>
    ensures { OnOk result (text.new.items ≡ text.old.items ++ children_text row.now) }
{
    if row.children_space == row.name.space {
        return Ok(());
    }
    push_field(text, b" children ", row.children_space)
}

/// Appends the state, and the marks that hold.
#[tactic(auto, unfolding(crate::specs::Lists::marks_text))]
fn push_marks(text: &mut Vec<u8>, row: &Row) -> Result<(), AllocError>
    ensures { OnOk result (text.new.items ≡ text.old.items ++ marks_text row.now) }
{
    push_life(text, row.life)?;
    push_mark(text, row.executed, b" executed")?;
    push_children(text, row)?;
    push_mark(text, row.subreaper, b" subreaper")
}

/// Appends a task's line. After an `Err` the text has some of its bytes.
pub fn push_task(text: &mut Vec<u8>, row: &Row) -> Result<(), AllocError>
    ensures { OnOk result (text.new.items ≡ text.old.items ++ task_line row.now) }
{
    push_name(text, row)?;
    push_relatives(text, row)?;
    push_marks(text, row)?;
    text.extend_from_slice(b"\n")
}

/// Appends a namespace's line.
#[tactic(auto, unfolding(crate::specs::Lists::space_line))]
fn push_space(text: &mut Vec<u8>, space: &Space) -> Result<(), AllocError>
    ensures { OnOk result (text.new.items ≡ text.old.items ++ space_line space.now) }
{
    push_field(text, b"space ", space.id)?;
    push_parent(text, space.parent)?;
    push_field(text, b" cursor ", u64::from(space.cursor))?;
    push_mark(text, space.fallen, b" fallen")?;
    text.extend_from_slice(b"\n")
}

/// Appends a control group's line.
#[tactic(auto, unfolding(crate::specs::Lists::control_line))]
fn push_control(text: &mut Vec<u8>, control: &ControlRow) -> Result<(), AllocError>
    ensures { OnOk result (text.new.items ≡ text.old.items ++ control_line control.now) }
{
    push_field(text, b"control ", control.id)?;
    push_parent(text, control.parent)?;
    push_limit(text, control.limit)?;
    push_field(text, b" count ", control.count)?;
    text.extend_from_slice(b"\n")
}

/// Appends the lines of the tasks. After an `Err` the text has some of their bytes.
pub fn push_tasks(text: &mut Vec<u8>, rows: &[Row]) -> Result<(), AllocError>
    ensures { OnOk result (text.new.items ≡ text.old.items ++ flat_map task_line rows.now) }
{
    for row in rows {
        push_task(text, row)?;
    }
    Ok(())
}

/// Appends the lines of the namespaces. After an `Err` the text has some of their bytes.
pub fn push_spaces(text: &mut Vec<u8>, spaces: &[Space]) -> Result<(), AllocError>
    ensures { OnOk result (text.new.items ≡ text.old.items ++ flat_map space_line spaces.now) }
{
    for space in spaces {
        push_space(text, space)?;
    }
    Ok(())
}

/// Appends the lines of the control groups. After an `Err` the text has some of their bytes.
pub fn push_controls(text: &mut Vec<u8>, controls: &[ControlRow]) -> Result<(), AllocError>
    ensures { OnOk result (text.new.items ≡ text.old.items ++ flat_map control_line controls.now) }
{
    for control in controls {
        push_control(text, control)?;
    }
    Ok(())
}

/// The list of a snapshot: one line for each task, then for each namespace, then for each control
/// group, in the snapshot's order, each with its newline.
///
/// - `task NUMBERS space S parent P group G session T control C STATE`, the numbers root first with
///   a comma between, and the root numbers of parent, group and session, 0 where there is none. The
///   state is `live`, `exit S` or `killed`. Then, where they hold, ` executed`, ` children J` for
///   another namespace than its own, and ` subreaper`.
/// - `space ID parent P cursor K`, with `-` for the root's parent, then ` fallen` where it holds.
/// - `control ID parent P limit L count N`, with `-` for the root's parent and `max` for no limit.
///
/// The only error is want of memory.
pub fn list_text(alloc: Global, plain: &Plain) -> Result<Vec<u8>, AllocError>
    ensures { IfOk result (λ text. text.items ≡ list_of plain.now) }
{
    let mut text = Vec::new(alloc);
    push_tasks(&mut text, &plain.rows)?;
    push_spaces(&mut text, &plain.spaces)?;
    push_controls(&mut text, &plain.controls)?;
    Ok(text)
}
