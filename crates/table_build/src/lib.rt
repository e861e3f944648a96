//! Stores from saved texts: [`build::build`] puts all that a text says into an empty store.
//!
//! The parts come one by one: control groups, namespaces, the names of the tasks, the groups and sessions, parents and
//! ends, falls and cursors. No call is made, so nothing has to be sound on the way, and the state at the end need not
//! be sound either.
#![tactic(auto)]

mod begin;
pub mod build;
mod controls;
mod falls;
pub mod fault;
mod flags;
pub mod lines;
mod names;
mod placed;
mod sessions;
mod settle;
mod spaces;
