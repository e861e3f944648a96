//! Scripts on a table: [`session::run_script`] answers a script line by line, from any source to any sink on any
//! table, and [`job::read_job`] reads one to its end before any call is made. Only jobs take memory. The crate knows no
//! table and starts no thread.
#![tactic(auto)]

pub mod job;
pub mod outbox;
pub mod session;
pub mod tally;
