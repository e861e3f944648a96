//! Look-ups in the plain lists of the process table, each by a filter or a least element, as the
//! model has them. They are as slow as the lists are long, and need no memory.
//!
//! A [`view::View`] is the lists, and perhaps one namespace that is about to be added. The other
//! modules are its look-ups: names, rows by their numbers, threads and their processes, namespaces
//! and numbers in them, the draw, and control groups. Nothing here changes a table.
#![tactic(auto)]

pub mod controls;
pub mod draw;
pub mod names;
pub mod rows;
pub mod spaces;
pub mod threads;
pub mod view;
