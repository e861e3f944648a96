//! The commands of `pidtab`, from what the words of the command line ask for to the exit status.
//!
//! [`run_answer`] does all that the program does with what the crate `pid_words` made of its words, over a
//! source and two sinks of the caller's, so a program that plays commands from memory gets what the
//! program itself writes.
#![tactic(auto)]

mod asked;
mod fault;
mod jobs;
mod patient;
mod serve;
mod show;
mod status;

pub use asked::{Command, WordsFault};
pub use fault::{Fault, write_fault_line};
pub use patient::PatientWriter;
pub use pid_workers::JobFiles;
pub use serve::run_answer;
pub use status::{Status, say_fault, say_usage};
