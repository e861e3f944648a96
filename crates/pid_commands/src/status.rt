//! How a command ends: its exit status, and the line that it leaves on standard error.
ghost use Rattle.std.specs.Prelude.{◌≡◌};
ghost use Rattle.pid_commands.specs.{
  Commands.{IsSaid},
  Faults.{fault_line, usage_line},
  declared.status.Status.TheVariants.{Done, Failed, Misused},
};

use crate::fault::{Fault, put, write_fault_line};
use pid_types::device::Sink;

/// How a command ended.
#[derive(Clone, Copy)]
pub enum Status {
    /// It did all that it was asked for.
    Done,
    /// It met a fault, and wrote the fault's line.
    Failed,
    /// Its words ask for nothing, and it wrote the usage line.
    Misused,
}

impl Status {
    /// The exit status: 0, 1 or 2.
    pub fn code(self) -> u8
        ensures done { self ≡ Done → result ≡ 0 }
        ensures failed { self ≡ Failed → result ≡ 1 }
        ensures misused { self ≡ Misused → result ≡ 2 }
    {
        match self {
            Status::Done => 0,
            Status::Failed => 1,
            Status::Misused => 2,
        }
    }
}

/// Writes how the program is called. Where that cannot be written nothing more is done.
pub fn say_usage<E: Sink>(errors: &mut E) -> Status
    ensures status { result ≡ Misused }
    ensures said { IsSaid (E.contents errors.old) (E.contents errors.new) (E.has_failed errors.new)
        (E.is_full errors.new) usage_line }
{
    let _ = put(errors, b"pidtab: usage\n");
    Status::Misused
}

/// Writes the line of the fault. Where that cannot be written nothing more is done.
pub fn say_fault<E: Sink>(errors: &mut E, fault: &Fault) -> Status
    ensures status { result ≡ Failed }
    ensures said { IsSaid (E.contents errors.old) (E.contents errors.new) (E.has_failed errors.new)
        (E.is_full errors.new) (fault_line fault.now) }
{
    let _ = write_fault_line(errors, fault);
    Status::Failed
}
