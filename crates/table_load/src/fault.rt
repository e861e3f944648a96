//! Why no table is loaded from a text.

use std::alloc::AllocError;
use std::fmt;
use table_build::fault::BuildFault;
use table_text::fault::LoadFault;
use thiserror::Error;

/// Why no table is loaded from a text. Each fault but want of memory names a line, counted from 1.
#[derive(Clone, Copy, PartialEq, Eq, Error)]
pub enum RestoreFault {
    /// There was no memory for the table.
    #[error("no memory")]
    NoMemory,
    /// The line is none of those that the form has there.
    #[error("line {0}: bad line")]
    BadLine(u64),
    /// The last line is not that of the text before it.
    #[error("line {0}: wrong digest")]
    WrongDigest(u64),
    /// The bound of all numbers is outside 301 to 4194304, or some id of the text is not below the stamp.
    #[error("line {0}: bad settings")]
    BadSettings(u64),
    /// The line's number or id is not above that of the line before.
    #[error("line {0}: out of order")]
    Unsorted(u64),
    /// No line has the task's parent, or the namespace around the namespace.
    #[error("line {0}: unknown parent")]
    UnknownParent(u64),
    /// No line has the namespace.
    #[error("line {0}: unknown namespace")]
    UnknownNamespace(u64),
    /// No line has the control group.
    #[error("line {0}: unknown control group")]
    UnknownGroup(u64),
    /// A name has too few numbers for its namespace, too many, or one out of range.
    #[error("line {0}: bad name")]
    BadName(u64),
    /// Two names have one number.
    #[error("line {0}: number in use twice")]
    TakenNumber(u64),
    /// No task is the init of the namespace, which has not fallen.
    #[error("line {0}: namespace without an init")]
    NoInit(u64),
    /// In no sound state is this line beside the others.
    #[error("line {0}: impossible line")]
    Impossible(u64),
}

/// The same text as that for users.
impl fmt::Debug for RestoreFault {
    fn fmt<W: fmt::Write>(&self, f: &mut fmt::Formatter<W>) -> fmt::Result {
        fmt::Display::fmt(self, f)
    }
}

impl From<AllocError> for RestoreFault {
    ghost use Rattle.std.specs.Prelude.{◌≡◌};
    ghost use Rattle.table_load.specs.declared.fault.RestoreFault.TheVariants.{NoMemory};

    ghost from_gives = { λ refused given. given ≡ NoMemory };

    fn from(_refused: AllocError) -> RestoreFault {
        RestoreFault::NoMemory
    }
}

impl From<LoadFault> for RestoreFault {
    ghost use Rattle.std.specs.Prelude.{◌≡◌};
    ghost use Rattle.table_load.specs.Faults.{of_load};

    ghost from_gives = { λ fault given. given ≡ of_load fault };

    fn from(fault: LoadFault) -> RestoreFault {
        match fault {
            LoadFault::NoMemory => RestoreFault::NoMemory,
            LoadFault::BadLine(line) => RestoreFault::BadLine(line),
            LoadFault::WrongDigest(line) => RestoreFault::WrongDigest(line),
        }
    }
}

impl From<BuildFault> for RestoreFault {
    ghost use Rattle.std.specs.Prelude.{◌≡◌};
    ghost use Rattle.table_load.specs.Faults.{of_build};

    ghost from_gives = { λ fault given. given ≡ of_build fault };

    fn from(fault: BuildFault) -> RestoreFault {
        match fault {
            BuildFault::NoMemory => RestoreFault::NoMemory,
            BuildFault::BadSettings(line) => RestoreFault::BadSettings(line),
            BuildFault::Unsorted(line) => RestoreFault::Unsorted(line),
            BuildFault::UnknownParent(line) => RestoreFault::UnknownParent(line),
            BuildFault::UnknownNamespace(line) => RestoreFault::UnknownNamespace(line),
            BuildFault::UnknownGroup(line) => RestoreFault::UnknownGroup(line),
            BuildFault::BadName(line) => RestoreFault::BadName(line),
            BuildFault::TakenNumber(line) => RestoreFault::TakenNumber(line),
            BuildFault::Impossible(line) => RestoreFault::Impossible(line),
        }
    }
}
