//! Many kept entries of a history at once.
ghost use Rattle.std.specs.Prelude.{◌≡◌, ◌+◌, ◌-◌, ◌<◌, ◌≤◌, ℕ, Some, length, min, slice_get};
ghost use Rattle.kept_table.specs.Chronicle.{total};
ghost use Rattle.foreign_calls.specs.Entries.{TellsEntry};

use foreign_numbers::call_numbers::tell_call;
use foreign_numbers::numbers::tell_reply;
use kept_table::Kept;
pub use saved_form::numbers::EntryNumbers;

/// The kept entry with the ordinal, as numbers.
fn entry_at(held: &Kept, ordinal: u64) -> EntryNumbers
    requires first { held.now.first_kept ≤ ordinal }
    requires last { ordinal < total held.now }
    ensures { TellsEntry held.now ordinal (Some result) }
{
    let Some(entry) = held.entry(ordinal) else {
        unreachable!()
    };
    EntryNumbers {
        worker: entry.worker as u64,
        call: tell_call(&entry.call),
        reply: tell_reply(&entry.reply),
    }
}

/// Writes as many entries from the ordinal on as there are and as there is room for. The result is how many.
pub fn read_on(held: &Kept, from: u64, entries: &mut [EntryNumbers]) -> usize
    requires first { held.now.first_kept ≤ from }
    requires last { from ≤ total held.now }
    ensures count { result ≡ min (length entries.old) (total held.now - from) }
    ensures told { (k : ℕ) → k < result → TellsEntry held.now (from + k) (slice_get entries.new k) }
    ensures behind { (k : ℕ) → result ≤ k → slice_get entries.new k ≡ slice_get entries.old k }
{
    let left = held.total() - from;
    let room = entries.len();
    let count = if left < room as u64 {
        left as usize
    } else {
        room
    };
    for i in 0..count {
        entries[i] = entry_at(held, from + i as u64);
    }
    count
}
