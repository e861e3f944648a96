//! The two texts of a table, written row by row: its list, and the form that it is saved in.
//!
//! [`list::list_table`] writes the one and [`dump::dump_table`] the other. Each task is read into one row and written
//! from there. So beside the text they take the room of one row, and of the namespaces and control groups.
#![tactic(auto)]

pub mod dump;
pub mod list;
