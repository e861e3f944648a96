//! How a script went.

use thiserror::Error;

/// What a script came to, in numbers.
#[derive(Clone, Copy, Debug, PartialEq, Eq, Default)]
pub struct Tally {
    /// All lines, empty ones too.
    pub lines: u64,
    /// The calls that were recorded.
    pub recorded: u64,
    /// The bad lines.
    pub bad: u64,
    /// The calls that found no memory, and were answered `no memory`.
    pub starved: u64,
}

/// Why a script was not answered to its end. Nothing was read or written after it.
#[derive(Clone, Copy, Debug, PartialEq, Eq, Error)]
pub enum RunScriptFault {
    /// No table could be made. Nothing was read.
    #[error("no memory")]
    NoMemory,
    /// The source failed.
    #[error("read fault")]
    Read,
    /// The sink failed, or took nothing of a write.
    #[error("write fault")]
    Write,
    /// The source did not end within the bound on reads.
    #[error("too many turns")]
    TooManyTurns,
}
