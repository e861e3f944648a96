//! What is to be done next.

/// What the machine asks for. Places are bytes behind the head of the log that is written.
#[derive(Clone, Copy)]
pub enum Step {
    /// Nothing is to be done.
    Rest,
    /// Nothing may be done until it is tried again.
    Wait,
    /// A sync has failed: nobody is answered any more.
    Lost,
    /// All is on the disk, and the log has ended.
    Ended,
    /// The file is cut back to the place.
    Cut { to: u64 },
    /// So many of the bytes that were taken, which follow those that are written, are written at the place.
    Write { at: u64, size: u64 },
    /// What is written is synced.
    Sync,
    /// So many calls are answered, from the first one on.
    Answer { calls: u64 },
    /// The file is cut behind what is written, and synced.
    Close,
    /// A new log is made, whole and with its name on the disk, whose first call has this ordinal.
    Begin { first: u64 },
    /// The new log, which was not made whole, is taken away, and its name on the disk too.
    Undo,
}
