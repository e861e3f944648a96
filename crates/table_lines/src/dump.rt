//! The text that a table is saved in.
ghost use Rattle.std.specs.{Prelude.{◌≡◌, ◌++◌, OnOk, IfOk}, List.{flat_map}};
ghost use Rattle.table_text.specs.{Ranges.{Each}, Reading.{IsHeldRow, IsHeldState}};
ghost use Rattle.table_text.specs.Texts.{task_text_line, dump_text, text_of};

use pid_script::list::push_spaces;
use pid_table::PidTable;
use std::alloc::{AllocError, Global};
use table_text::dump::{end_of, push_controls, push_head, push_task};
use table_text::fits::{controls_fit, row_fits, spaces_fit};
use translate::shown::blank_row;

/// Appends the lines of the tasks. After an `Err` the text has some of their bytes.
fn push_tasks(text: &mut Vec<u8>, table: &PidTable) -> Result<(), AllocError>
    ensures text { OnOk result (text.new.items ≡ text.old.items ++ flat_map task_text_line table.now.rows) }
    ensures held { OnOk result (Each IsHeldRow table.now.rows) }
{
    table.laws();
    let mut row = blank_row();
    let mut from = 0u32;
    while let Some(number) = table.next_row(from, &mut row) {
        row_fits(&row);
        push_task(text, &row)?;
        from = number + 1;
    }
    Ok(())
}

/// Appends all that the text says before its last line.
#[tactic(auto, unfolding(table_text::specs::Texts::dump_text))]
fn push_said(text: &mut Vec<u8>, table: &PidTable, stamp: u64) -> Result<(), AllocError>
    ensures text { OnOk result (text.new.items ≡ text.old.items ++ dump_text stamp table.now) }
    ensures held { OnOk result (IsHeldState table.now) }
{
    table.no_threads();
    push_head(text, table.pid_max(), stamp)?;
    push_tasks(text, table)?;
    let spaces = table.spaces()?;
    spaces_fit(&spaces);
    push_spaces(text, &spaces)?;
    let controls = table.control_rows()?;
    controls_fit(&controls);
    push_controls(text, &controls)?;
    Ok(())
}

/// The text of a table with the stamp of its next call, as [`table_text::dump::dump_text`] writes that of a snapshot.
///
/// It costs two searches and the writing of a line for each task, and a digest of the text, which it holds whole. The
/// only error is want of memory.
#[tactic(auto, unfolding(table_text::specs::Texts::text_of))]
pub fn dump_table(alloc: Global, table: &PidTable, stamp: u64) -> Result<Vec<u8>, AllocError>
    ensures text { IfOk result (λ text. text.items ≡ text_of stamp table.now) }
    ensures held { OnOk result (IsHeldState table.now) }
{
    let mut text = Vec::new(alloc);
    push_said(&mut text, table, stamp)?;
    let end = end_of(alloc, text.as_slice())?;
    text.extend_from_slice(end.as_slice())?;
    Ok(text)
}
