//! What comes of a job: receipts, and how many calls had none.

use locked_table::Receipt;

/// What came of a job.
#[derive(Drop, Debug)]
pub struct Work {
    /// The receipts, in the order of the calls.
    pub receipts: Vec<Receipt>,
    /// How many calls were answered `NoMemory` or `Spent`.
    pub refused: u64,
}
