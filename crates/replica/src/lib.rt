//! A replica of a table that several hosts share by a log: what the entries make of it.
//!
//! `docs/CLUSTER.md` has the log and its rules. [`read::read_entry`] reads an entry, and [`write::write_entry`] writes
//! one: a text is of one entry at most, and what is written is read ([`entry_laws`]). [`replica::Replica`] is what is
//! known of the log, and applies its entries to a table. [`host::Host`] has the last answers besides. What holds of
//! each log is in [`laws`]. [`snapshot`] has the head of a snapshot.
#![tactic(auto)]

mod answer;
pub mod entry;
pub mod entry_laws;
mod head;
pub mod host;
mod kept;
pub mod laws;
mod lines;
pub mod outcome;
pub mod read;
pub mod replica;
mod sessions;
pub mod snapshot;
pub mod snapshot_laws;
mod words;
pub mod write;
