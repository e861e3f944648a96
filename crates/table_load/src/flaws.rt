//! The lines of what makes a state unsound.
ghost use Rattle.std.specs.Prelude.{◌≡◌};
ghost use Rattle.table_load.specs.Faults.{IsOfForm};

use crate::fault::RestoreFault;
use pid_types::keys::Pid;
use sound_store::Flaw;
use table_build::lines::{control_line, space_line, task_line};
use table_text::read::Saved;

/// The line of the task with the number in the root namespace.
fn line_of_task(saved: &Saved, number: Pid) -> u64 {
    for index in 0..saved.rows.len() {
        if saved.rows.number(index) == Some(number) {
            return task_line(index);
        }
    }
    task_line(saved.rows.len())
}

/// The line of the namespace with the id.
fn line_of_space(saved: &Saved, id: u64) -> u64 {
    for (index, space) in saved.spaces.iter().enumerate() {
        if space.id == id {
            return space_line(saved, index);
        }
    }
    space_line(saved, saved.spaces.len())
}

/// The line of the control group with the id.
fn line_of_control(saved: &Saved, id: u64) -> u64 {
    for (index, control) in saved.controls.iter().enumerate() {
        if control.id == id {
            return control_line(saved, index);
        }
    }
    control_line(saved, saved.controls.len())
}

/// The fault that a flaw is, with its line.
pub fn fault_of(saved: &Saved, flaw: Flaw) -> RestoreFault
    ensures form { IsOfForm result → ⊥ }
    ensures memory { flaw ≡ Flaw.NoMemory → result ≡ RestoreFault.NoMemory }
{
    match flaw {
        Flaw::NoMemory => RestoreFault::NoMemory,
        Flaw::NoInit(id) => RestoreFault::NoInit(line_of_space(saved, id)),
        Flaw::Space(id) => RestoreFault::Impossible(line_of_space(saved, id)),
        Flaw::Control(id) => RestoreFault::Impossible(line_of_control(saved, id)),
        Flaw::Parent(number)
        | Flaw::ChildrenSpace(number)
        | Flaw::Group(number)
        | Flaw::Fallen(number)
        | Flaw::Home(number) => RestoreFault::Impossible(line_of_task(saved, number)),
    }
}
