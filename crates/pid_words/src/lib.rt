//! The words of the command line, which ask for one of the commands.
//!
//! [`read_words`] reads them, and opens and runs nothing. It is the only code that uses clap.
#![tactic(auto)]

mod words;

pub use words::read_words;
