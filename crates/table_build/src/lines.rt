//! The lines of a text, counted from 1: the head, then the tasks, the namespaces and the control groups.

use table_text::read::Saved;

/// The line of a task.
pub fn task_line(place: usize) -> u64 {
    (place as u64).saturating_add(2)
}

/// The line of a namespace.
pub fn space_line(saved: &Saved, place: usize) -> u64 {
    task_line(saved.rows.len().saturating_add(place))
}

/// The line of a control group.
pub fn control_line(saved: &Saved, place: usize) -> u64 {
    space_line(saved, saved.spaces.len().saturating_add(place))
}
