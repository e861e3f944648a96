//! The data types of the process table, and its model.
//!
//! Below `src/` are the data types that every other crate speaks of: calls and replies, the plain
//! state of the table as rows, namespaces and control groups, the table's configuration, and the
//! devices that scripts are read from and answers written to. Below `specs/` stands the model: what
//! each call does to the plain state, as short definitions that all contracts cite.
#![tactic(auto)]

pub mod call;
pub mod config;
pub mod device;
pub mod entry;
pub mod keys;
pub mod plain;
pub mod refusal;
pub mod reply;
