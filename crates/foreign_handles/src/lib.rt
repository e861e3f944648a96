//! Handles that cross to C: the address of a table, with its history or without, or of a replica on the heap, which the
//! handle owns.
//!
//! What is held is lent in place, so nothing is taken out of a handle but to free it. Each proof about an address is
//! here, by hand.
#![tactic(auto)]

pub mod handle;
pub mod held;
pub mod loose;
pub mod replica_handle;
