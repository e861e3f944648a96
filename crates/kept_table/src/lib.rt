//! A process table with its history: the present state, the recorded calls with their replies, and the
//! state that they begin in.
//!
//! The type keeps one promise: the history replays, reply for reply, as one thread's, from the opening to
//! the present state. Workers are numbers, and how many there are is chosen when a table is made. The
//! crate above adds the ledger, of which each worker has a share, and the lock.
#![tactic(auto)]

mod kept;
mod replicas;

pub use kept::Kept;
pub use pid_types::entry::Entry;
pub use replicas::same_calls_same_replies;
