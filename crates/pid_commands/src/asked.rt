//! What the program is asked for. The crate `pid_words` reads it from the words of the command line.
use pid_types::config::Config;
use pid_workers::JobFiles;
use std::alloc::AllocError;

/// What the program is asked for, with the table's configuration.
#[derive(Drop)]
pub enum Command {
    /// The answers to a script.
    Run(Config),
    /// The table that a script leaves.
    List(Config),
    /// What the workers of the job files had, and the table that they leave.
    Work { config: Config, files: JobFiles },
}

/// Why the words ask for nothing.
#[derive(Clone, Copy)]
pub enum WordsFault {
    /// They are no command.
    Usage,
    /// There was no memory to read them.
    NoMemory,
}

impl From<AllocError> for WordsFault {
    fn from(_error: AllocError) -> WordsFault {
        WordsFault::NoMemory
    }
}
