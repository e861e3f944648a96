//! Why a store cannot be made as a text says.

use std::alloc::AllocError;

/// Why a store cannot be made as a text says. Each fault but want of memory names a line, counted from 1.
#[derive(Clone, Copy)]
pub enum BuildFault {
    /// There was no memory for the store.
    NoMemory,
    /// The bound of all numbers is outside 301 to 4194304.
    BadSettings(u64),
    /// The line's number or id is not above that of the line before.
    Unsorted(u64),
    /// No line has the task's parent, or the namespace around the namespace.
    UnknownParent(u64),
    /// No line has the namespace.
    UnknownNamespace(u64),
    /// No line has the control group.
    UnknownGroup(u64),
    /// A name has too few numbers for its namespace, too many, or one out of range.
    BadName(u64),
    /// Two names have one number.
    TakenNumber(u64),
    /// In no sound state is this line beside the others.
    Impossible(u64),
}

impl From<AllocError> for BuildFault {
    ghost use Rattle.std.specs.Prelude.{◌≡◌};
    ghost use Rattle.table_build.specs.declared.fault.BuildFault.TheVariants.{NoMemory};

    ghost from_gives = { λ refused given. given ≡ NoMemory };

    fn from(_refused: AllocError) -> BuildFault {
        BuildFault::NoMemory
    }
}
