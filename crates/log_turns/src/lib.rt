//! When the calls of a log are written, synced and answered, and when it goes on in a new file: a machine without
//! files, sockets and clocks.
//!
//! [`Turns`](turns::Turns) is told what comes, and what came of each step, and says which [`Step`](step::Step) is
//! next. [`laws`] has what holds of all its runs, whatever fails, and whenever the power does. [`foreign`] is for the
//! service, which does the steps to its files.
#![tactic(auto)]

pub mod foreign;
pub mod laws;
pub mod numbers;
pub mod step;
pub mod turns;
