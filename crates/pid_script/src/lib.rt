//! The language of scripts: lines to calls and back, replies to answers, snapshots to lists.
//! `docs/SCRIPT.md` says it for users.
//!
//! [`line::parse_line`], [`answer::answer_text`] and [`list::list_text`] are its three tables.
//! [`part::PartLine`] is a line that comes in parts. Only lists take memory.
#![tactic(auto)]

pub mod answer;
pub mod bytes;
pub mod call;
pub mod laws;
pub mod line;
pub mod list;
pub mod number;
pub mod part;
