//! What a call does to others: who ended with a namespace, who has another parent, who is gone, and which process
//! groups, sessions and namespaces end with that.
//!
//! A reply tells what the caller asked for. An exit changes more than that: `_exit(2)` hands on the children, and the
//! end of a namespace's init kills all that is in it (`pid_namespaces(7)`). [`Touched::before`] looks at those whom a
//! call may touch, before it is made, and [`Touched::effects`] tells behind it what became of them. The list is exactly
//! the difference of the two states: `specs/Effects.antt` says which.
#![tactic(auto)]

mod asked;
mod belonging;
mod distinct;
pub mod effect;
mod spaces;
mod tasks;
mod touched;
mod whom;

pub use touched::Touched;
