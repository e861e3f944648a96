//! Calls that look random, the same in each run, for generated scripts.
#![tactic(auto)]

pub mod draft;
pub mod generator;
mod random;
