//! What callers of other languages ask of a table: calls and entries as numbers, texts in a room that is given for
//! them, and what a caller holds. Nothing is exported here.
//!
//! A function that answers with a status tests for its statuses in the order in which its comment names them.
#![tactic(auto)]

pub mod ask;
pub mod bare_calls;
pub mod calls;
pub mod effects;
pub mod history;
pub mod inside;
pub mod kept_calls;
pub mod laws;
pub mod many_calls;
pub mod number_calls;
pub mod page;
pub mod read;
pub mod replay;
pub mod replicas;
pub mod residents;
pub mod saved_history;
pub mod saved_table;
pub mod table;
pub mod table_texts;
pub mod texts;
pub mod would;
