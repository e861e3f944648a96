//! Receipts against the kept history: what a worker was told, and what was recorded of it.
ghost use Rattle.std.specs.Prelude.{◌≡◌, ◌≢◌, true, false, ℕ, ◌<◌, ◌≤◌, length, take, vec_len, slice_index_or};
ghost use Rattle.std.specs.Prelude.{MatchOption, OnOk, IfErr};
ghost use Rattle.worker_jobs.specs.Receipts.{receipt, receipts_kept, owed, DiffersAt, IsAudited, IsFirstFault};

use crate::difference::Audit;
use crate::replies::{is_same_call, is_same_reply};
use crate::result::Work;
use locked_table::{Entry, Receipt, Record};
use std::sync::ledger::Ledger;

/// Skips the receipts of entries that were cut away: the place of the first other one from the
/// given place on, or the end.
fn skip_cut(receipts: &[Receipt], from: usize, first: u64) -> usize
    requires { from ≤ length receipts.now }
    ensures bounds { (from ≤ result) × (result ≤ length receipts.now) }
    ensures none { receipts_kept first (take result receipts.now) ≡ receipts_kept first (take from receipts.now) }
    ensures kept { (d : _) → result < length receipts.now → first ≤ (slice_index_or receipts.now result d).ordinal }
{
    for i in from..receipts.len() {
        if receipts[i].ordinal >= first {
            return i;
        }
    }
    receipts.len()
}

/// Whether the receipt is that of the entry with the ordinal.
fn is_receipt_of(one: &Receipt, ordinal: u64, entry: &Entry) -> bool
    ensures yes { result ≡ true → one.now ≡ receipt ordinal entry.now }
    ensures no { result ≡ false → one.now ≢ receipt ordinal entry.now }
{
    if one.ordinal != ordinal || one.worker != entry.worker {
        return false;
    }
    if !is_same_call(&one.call, &entry.call) {
        return false;
    }
    is_same_reply(&one.reply, &entry.reply)
}

/// The first place at which a worker's receipts differ from its kept entries.
fn first_difference<L: Ledger, const N: usize>(
    kept: &Record<L, N>,
    worker: usize,
    receipts: &[Receipt],
) -> Option<usize>
    ensures { MatchOption result (receipts_kept kept.now.first_kept receipts.now ≡ owed kept.now worker)
        (λ p. DiffersAt p (receipts_kept kept.now.first_kept receipts.now) (owed kept.now worker)) }
{
    let first = kept.first_kept();
    let mut place = 0usize;
    let mut next = 0usize;
    for ordinal in first..kept.total() {
        let Some(by) = kept.worker_of(ordinal) else {
            unreachable!()
        };
        if by != worker {
            continue;
        }
        let Some(entry) = kept.entry(ordinal) else {
            unreachable!()
        };
        next = skip_cut(receipts, next, first);
        if next == receipts.len() {
            return Some(place);
        }
        if !is_receipt_of(&receipts[next], ordinal, &entry) {
            return Some(place);
        }
        next += 1;
        place += 1;
    }
    if skip_cut(receipts, next, first) < receipts.len() {
        return Some(place);
    }
    None
}

/// Compares each worker's receipts from the first kept ordinal on with its kept entries. It answers
/// the least worker and the first place that differ. The cost is that of a walk over the history
/// for each worker.
pub fn audit<L: Ledger, const N: usize>(kept: &Record<L, N>, works: &[Work]) -> Result<(), Audit>
    requires { length works.now ≡ N }
    ensures ok { OnOk result (IsAudited N kept.now works.now) }
    ensures err { IfErr result (λ e. IsFirstFault kept.now works.now e.worker e.place) }
{
    for worker in 0..works.len() {
        if let Some(place) = first_difference(kept, worker, works[worker].receipts.as_slice()) {
            return Err(Audit { worker, place });
        }
    }
    Ok(())
}
