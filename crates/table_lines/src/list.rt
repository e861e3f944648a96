//! The list of a table.
ghost use Rattle.std.specs.{Prelude.{◌≡◌, ◌++◌, OnOk, IfOk}, List.{flat_map}};
ghost use Rattle.pid_script.specs.Lists.{task_line};
ghost use Rattle.table_lines.specs.Listed.{list_of_state};

use pid_script::list::{push_controls, push_spaces, push_task};
use pid_table::PidTable;
use std::alloc::{AllocError, Global};
use translate::shown::blank_row;

/// Appends the lines of the tasks. After an `Err` the text has some of their bytes.
fn push_tasks(text: &mut Vec<u8>, table: &PidTable) -> Result<(), AllocError>
    ensures { OnOk result (text.new.items ≡ text.old.items ++ flat_map task_line table.now.rows) }
{
    let mut row = blank_row();
    let mut from = 0u32;
    while let Some(number) = table.next_row(from, &mut row) {
        push_task(text, &row)?;
        from = number + 1;
    }
    Ok(())
}

/// The list of a table, as [`pid_script::list::list_text`] writes that of a snapshot: one line for each task, then for
/// each namespace, then for each control group.
///
/// It costs two searches and the writing of a line for each task, and holds the text whole. The only error is want of
/// memory.
pub fn list_table(alloc: Global, table: &PidTable) -> Result<Vec<u8>, AllocError>
    ensures { IfOk result (λ text. text.items ≡ list_of_state table.now) }
{
    let mut text = Vec::new(alloc);
    push_tasks(&mut text, table)?;
    push_spaces(&mut text, &table.spaces()?)?;
    push_controls(&mut text, &table.control_rows()?)?;
    Ok(text)
}
