//! The bytes of a saved history, written and read by pieces: the head, and each entry in blocks with a checksum of all
//! up to there.
//!
//! `docs/SAVED.md` has the form. What is written is read back, a torn piece is told from a wrong one, and what is read
//! is what is written of it. Who reads on to the end may give the bytes in pieces. Numbers that this release has no
//! call or reply for are bytes all the same.
#![tactic(auto)]

mod block;
pub mod crc;
pub mod entry;
pub mod head;
mod layout;
pub mod next;
pub mod numbers;
mod read;
pub mod take;

pub use block::BLOCK;
