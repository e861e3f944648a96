//! The list of a snapshot by two threads.
ghost use Rattle.std.specs.{Prelude.{◌≡◌, ◌++◌, IfOk}, List.{flat_map}};
ghost use Rattle.pid_script.specs.Lists.{list_of, task_line, space_line, control_line};

use pid_script::list::{push_controls, push_spaces, push_tasks};
use pid_types::plain::{Plain, Row};
use std::alloc::{AllocError, Global};
use std::thread::{Threads, join};

/// The list of a snapshot, as [`pid_script::list::list_text`] writes it, by two threads: one writes the first half of
/// the tasks, and one the rest. If no second thread can be started, the one does both. No contract says that they run
/// at once.
///
/// It copies the text of the second half once. The only error is want of memory.
pub fn list_text_split<R: Threads>(
    rt: &R,
    alloc: Global,
    plain: &Plain,
) -> Result<Vec<u8>, AllocError>
    ensures { IfOk result (λ text. text.items ≡ list_of plain.now) }
{
    let (front, back) = plain.rows.split_at(plain.rows.len() / 2);
    let (first, second) = join(
        rt,
        || -> Result<Vec<u8>, AllocError>
            ensures { IfOk result (λ text. text.items ≡ flat_map task_line front.entry.now) }
        { tasks_text(alloc, front) },
        || -> Result<Vec<u8>, AllocError>
            ensures { IfOk result (λ text. text.items
                ≡ flat_map task_line back.entry.now ++ (flat_map space_line plain.entry.now.spaces.items
                ++ flat_map control_line plain.entry.now.controls.items)) }
        { rest_text(alloc, back, plain) },
    );
    let mut text = first?;
    text.extend_from_slice(second?.as_slice())?;
    Ok(text)
}

/// The lines of the tasks.
fn tasks_text(alloc: Global, rows: &[Row]) -> Result<Vec<u8>, AllocError>
    ensures { IfOk result (λ text. text.items ≡ flat_map task_line rows.now) }
{
    let mut text = Vec::new(alloc);
    push_tasks(&mut text, rows)?;
    Ok(text)
}

/// The lines of the tasks, and then those of the snapshot's namespaces and control groups.
fn rest_text(alloc: Global, rows: &[Row], plain: &Plain) -> Result<Vec<u8>, AllocError>
    ensures { IfOk result (λ text. text.items ≡ flat_map task_line rows.now ++
        (flat_map space_line plain.now.spaces.items ++ flat_map control_line plain.now.controls.items)) }
{
    let mut text = tasks_text(alloc, rows)?;
    push_spaces(&mut text, &plain.spaces)?;
    push_controls(&mut text, &plain.controls)?;
    Ok(text)
}
