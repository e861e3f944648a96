//! Laws of the process table's model.
//!
//! Each function does nothing, and its contract is a law of the definitions of `pid_types`. The
//! statements stand below `specs/`, their proofs below `proofs/`. Whoever needs a law in a proof
//! calls its function, which costs nothing when it runs. `docs/PROOFS.md` says in which order to
//! read them.
#![tactic(auto)]

pub mod before;
pub mod counts;
pub mod laws;
pub mod meanings;
pub mod scripts;
pub mod sights;
pub mod soundness;
