//! What an entry of a log is.

use thiserror::Error;

/// An entry of a log. What is text in it stands in the bytes that it was read of.
#[derive(Clone, Copy, Debug)]
pub enum Entry<'a> {
    /// The settings, which are the first entry: the form of the log, the bound of all numbers of the table, and the
    /// model by which lines are answered.
    Settings {
        form: u64,
        pid_max: u64,
        model: u64,
    },
    /// A session opens. Its number is the position of this entry.
    Opened,
    /// The session with the number ends.
    Ended {
        session: u64,
    },
    /// Calls of a session.
    Calls {
        session: u64,
        /// The sequence number of this entry in the session, counted from 1.
        sequence: u64,
        /// A position that the writer had reached.
        position: u64,
        /// The first 16 hexadecimal digits of the writer's digest there.
        digest: &'a [u8],
        /// The lines, with a newline between two. An entry that was read has one or more, and none is empty.
        lines: &'a [u8],
    },
    /// A snapshot of what all entries so far have made is asked for.
    Wanted,
    /// A snapshot is announced.
    Announced {
        /// The position of the entry that has asked for it.
        position: u64,
        /// The digest there, as 64 hexadecimal digits.
        digest: &'a [u8],
        /// The bytes of all its pieces.
        size: u64,
        /// The SHA-256 of its text, as 64 hexadecimal digits.
        sum: &'a [u8],
        /// The name of its pieces: 16 hexadecimal digits, `-` and 16 more.
        key: &'a [u8],
    },
}

/// Why bytes are not read.
#[derive(Clone, Copy, Debug, PartialEq, Eq, Error)]
pub enum EntryFault {
    /// They are the text of no entry.
    #[error("no entry of a log")]
    NoEntry,
}
