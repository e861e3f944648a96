//! The text that a table is saved in: a line for each task, namespace and control group, between a
//! head and a digest. `docs/SCRIPT.md` says it for users.
//!
//! [`dump::dump_text`] writes the text of a snapshot. One state has one text, and two states with
//! one text are one ([`laws`]). So a digest of the text is a digest of the state. [`read::read_text`] reads a text
//! back, and answers none but what it says. What is written of a sound state is read back.
#![tactic(auto)]

pub mod dump;
pub mod fault;
pub mod fits;
pub mod laws;
pub mod read;
pub mod rows;
mod scan;
