//! Calls, replies, tasks and namespaces as numbers, for callers of other languages: each call can be read again from
//! its numbers.
//!
//! Numbers of operations, choices, kinds and statuses stay the same from release to release.
#![tactic(auto)]

pub mod call_numbers;
pub mod choices;
pub mod effects;
pub mod kinds;
pub mod literals;
pub mod numbers;
pub mod operations;
pub mod replicas;
pub mod replies;
pub mod space;
pub mod status;
pub mod task;
pub mod whom;
