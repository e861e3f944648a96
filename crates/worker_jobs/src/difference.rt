//! Where receipts and history part.

/// The first place at which a worker's receipts and its kept entries differ.
#[derive(Clone, Copy, Debug, PartialEq, Eq)]
pub struct Audit {
    pub worker: usize,
    /// The place among the worker's kept entries, counted from 0.
    pub place: usize,
}
