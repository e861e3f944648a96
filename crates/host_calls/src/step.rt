//! What is to be done next, and what became of what came.

/// What is to be put into the log next.
#[derive(Clone, Copy)]
pub enum PutStep {
    /// Nothing.
    Rest,
    /// The entry that opens a session, for which no session is open.
    Open,
    /// The call with the ticket has its turn: it is taken into the entry that is made up.
    Take { ticket: u64 },
    /// The entry that is made up has all that it will have: it is sealed.
    Seal,
    /// The entry that was sealed last. It is put until the log has it.
    Put { session: u64, sequence: u64 },
}

/// What became of a call that had its turn.
#[derive(Clone, Copy)]
pub enum Taken {
    /// It is not its turn, or none is taken now.
    Refused,
    /// It was over before, and no entry has it.
    Passes,
    /// It begins a new entry.
    Begins,
    /// It is in the entry that is made up, after the others.
    Joins,
    /// It does not fit in, and begins the next one.
    Fills,
}

/// What the log makes of an entry of calls.
#[derive(Clone, Copy)]
pub enum LogOutcome {
    /// Its calls were made.
    Made,
    /// They were made before: the session has had an entry with the number.
    Repeated,
    /// Its session is not open, so they were not made.
    Gone,
    /// The number before it is missing, so they were not made.
    Gap,
}

/// What follows from what was read.
#[derive(Clone, Copy)]
pub enum Reading {
    /// Calls are to be told first.
    Busy,
    /// Nothing.
    Ignores,
    /// The calls of the entry are to be told.
    Tells,
    /// The session has ended: what was not made in it is put in a new one.
    Renews,
    /// The log lacks an entry of this session, or has one that this host has not put.
    Misses,
}

/// What is being told, of the calls from `told` on.
#[derive(Clone, Copy)]
pub enum Telling {
    /// Nothing.
    Nothing,
    /// The answers of an entry.
    Answers,
    /// That a snapshot stands where answers were.
    Losses,
    /// That the host has stopped.
    Stops,
}

/// What a call is told.
#[derive(Clone, Copy)]
pub enum Told {
    /// It is not its turn.
    Refused,
    /// It was over before.
    Passes,
    /// The answers of the entry at its place.
    Answers,
    /// Nobody knows whether it was made.
    Loses,
    /// It was not made.
    Drops,
    /// Nothing: it is not in the entry, and so nothing more is told.
    Ends,
}
