//! Why workers have no result.

use std::alloc::AllocError;
use thiserror::Error;

/// Why a run has no result.
#[derive(Clone, Copy, PartialEq, Eq, Debug, Error)]
pub enum RunFault {
    /// A thread could not be started.
    #[error("cannot start a thread")]
    Start,
    /// There was no memory for the table, the threads or the receipts.
    #[error("no memory")]
    NoMemory,
    /// The receipts of the worker and the history differ at the place.
    #[error("audit {worker} {place}")]
    Audit { worker: usize, place: usize },
}

impl From<AllocError> for RunFault {
    ghost use Rattle.std.specs.Prelude.{◌≡◌};
    ghost use Rattle.worker_jobs.specs.declared.fault.RunFault.TheVariants.{NoMemory};

    ghost from_gives = { λ _ fault. fault ≡ NoMemory };

    fn from(_e: AllocError) -> RunFault {
        RunFault::NoMemory
    }
}
