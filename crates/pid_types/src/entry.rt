//! What the history keeps of a call, and what its worker is handed.

use crate::call::Call;
use crate::reply::Reply;

/// One recorded call: who made it, what it was and what was answered.
#[derive(Clone, Debug, Drop, PartialEq, Eq)]
pub struct Entry {
    pub worker: usize,
    pub call: Call,
    pub reply: Reply,
}

/// What a worker is handed for a call of its own.
#[derive(Clone, Debug, Drop, PartialEq, Eq)]
pub struct Receipt {
    /// The call's place among all recorded calls, counted from 0.
    pub ordinal: u64,
    pub worker: usize,
    pub call: Call,
    pub reply: Reply,
}
