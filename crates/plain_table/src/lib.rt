//! The process table on plain lists: each call is the model's definition, computed.
//!
//! It is the yardstick for faster tables: clear, right on every state, and as slow as its lists are
//! long. Only [`table::PlainTable::fork`], [`table::PlainTable::thread`],
//! [`table::PlainTable::leave`] and [`table::PlainTable::make_control`] take memory, and a call that
//! finds none has changed nothing.
#![tactic(auto)]

pub mod control_groups;
pub mod edit;
pub mod exit;
pub mod find;
pub mod fork;
pub mod groups;
pub mod leave;
pub mod next;
pub mod place;
pub mod queries;
pub mod step;
pub mod table;
pub mod tasks;
#[cfg(test)]
mod thread_scripts;
pub mod threads;
pub mod wait;
