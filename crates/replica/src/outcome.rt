//! What becomes of an entry.

use thiserror::Error;

/// What became of an entry.
#[derive(Clone, Copy, Debug, PartialEq, Eq)]
pub enum Outcome {
    /// Its calls were made.
    Made,
    /// They were made before: its session has had an entry with this number.
    Repeated,
    /// Its session is not open, so they were not made.
    Gone,
    /// The session has had no entry with the number before, so they were not made.
    Gap,
    /// It has no calls.
    Noted,
}

/// What is said of an entry that was applied.
#[derive(Clone, Copy, Debug, PartialEq, Eq)]
pub struct Applied {
    pub outcome: Outcome,
    /// The session of calls; 0 for another entry.
    pub session: u64,
    /// The sequence number of calls in their session; 0 for another entry.
    pub sequence: u64,
}

/// Why an entry is not applied.
#[derive(Clone, Copy, Debug, PartialEq, Eq, Error)]
pub enum ReplicaFault {
    /// Its position is not behind that of the last one.
    #[error("the position does not rise")]
    NotRising,
    /// The bytes are the text of no entry.
    #[error("no entry of a log")]
    NoEntry,
    /// The log does not begin with the settings of this replica, or the entry is one of snapshots in a log of form 1.
    #[error("the entry does not fit the settings")]
    OtherSettings,
    /// Its writer had a digest at a position at which the log has no entry.
    #[error("an entry is missing")]
    Missing,
    /// Its writer had another digest at the same position: it has answered the same calls otherwise.
    #[error("the digest of its writer is another one")]
    Diverged,
    /// There was no memory for it, and nothing has changed.
    #[error("no memory")]
    NoMemory,
    /// There was no memory amid its calls or for its digest, or for those of an entry before. The table is not that of
    /// the log any more.
    #[error("no memory amid calls")]
    Torn,
}
