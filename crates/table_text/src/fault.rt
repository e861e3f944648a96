//! Why a text is not loaded.

use thiserror::Error;

/// Why a text is not loaded.
#[derive(Clone, Copy, Debug, PartialEq, Eq, Error)]
pub enum LoadFault {
    /// There was no memory for what it says.
    #[error("no memory")]
    NoMemory,
    /// The line with the number, counted from 1, is none of those that the form has there.
    #[error("line {0}: bad line")]
    BadLine(u64),
    /// The last line, which has the number, is not that of the text before it.
    #[error("line {0}: wrong digest")]
    WrongDigest(u64),
}
