//! Jobs of workers at one shared table: a thread for each job, and the audit of what they were told against what was
//! recorded.
//!
//! [`serve_jobs`] starts a thread for each job and joins them. A worker makes its calls by [`work`], at a [`Desk`], and
//! a [`Gate`] is told before and after each call and may hold it. Where the gate is open, a worker keeps the lock for
//! 64 calls. [`audit`] compares receipts with a record. No other library crate starts threads, and all workers wait for
//! one lock.
#![tactic(auto)]

mod audits;
mod desk;
mod difference;
mod fault;
mod held;
mod jobs;
mod replies;
mod result;
mod serve;

pub use audits::audit;
pub use desk::{Desk, Gate, OpenGate, SeatDesk};
pub use difference::Audit;
pub use fault::RunFault;
pub use jobs::work;
pub use result::Work;
pub use serve::serve_jobs;
