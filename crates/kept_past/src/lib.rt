//! What a record keeps of its past: the kept entries, and the state that they begin in, which moves on by the calls of
//! entries that are cut away.
//!
//! The crate above adds the present state and how many calls of each worker were recorded, and keeps the promise.
#![tactic(auto)]

mod history;
mod opening;
mod ring;

pub use history::History;
