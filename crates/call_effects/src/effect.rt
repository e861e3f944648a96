//! The effects of a call, one by one.

use pid_types::keys::Pid;
use pid_types::plain::Ended;

/// What a call did to a task, a process group, a session or a namespace. All numbers are those of the root namespace.
#[derive(Clone, Copy)]
pub enum Effect {
    /// The task lived, and lives no more: so it ended. One that went with its namespace was killed.
    Ended { number: Pid, end: Ended },
    /// The task has another parent.
    Adopted { number: Pid, parent: Pid },
    /// The task is there no more: it was reaped, or went with its namespace.
    Gone { number: Pid },
    /// No task, and no zombie, is in the process group any more.
    GroupGone { number: Pid },
    /// No task, and no zombie, is in the session any more.
    SessionGone { number: Pid },
    /// The namespace has fallen: its init has ended, and no task comes into it any more (`pid_namespaces(7)`).
    SpaceFell { id: u64 },
    /// The namespace is there no more: no identifier has a number in it.
    SpaceGone { id: u64 },
}
