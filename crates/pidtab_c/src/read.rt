//! Many kept entries of a history at once, for C.
ghost use Rattle.std.specs.Prelude.{◌≡◌, ◌≢◌, ◌+◌, ◌-◌, ◌<◌, ◌≤◌, ◌↔◌, ℕ, [], ◌∷◌, length, min, slice_get};
ghost use Rattle.kept_table.specs.Chronicle.{total};
ghost use Rattle.foreign_calls.specs.{Entries.{TellsEntry, IsKeptOrNext}, Held.{history, ReadsHistory}, Records.{Has}};

use foreign_calls::read::{EntryNumbers, read_on};
use foreign_calls::table::Pidtab;
use foreign_handles::held::Held;
use foreign_numbers::status::{CLOSED, DONE, NO_HISTORY, NOT_KEPT};

/// Writes the kept entries from the ordinal `from` on at the front of the room, in order: as many as there are, and as
/// there is room for. `count` is how many. Entries of the room behind them stay as they are.
///
/// `CLOSED` where there is no open table, and `NO_HISTORY` where it keeps none; then `NOT_KEPT` where the entry `from`
/// was cut away, or more than the next one is not reached yet: `from` may be the ordinal of the next call, and then
/// `count` is 0. It costs a copy of each entry.
#[unsafe(no_mangle)]
pub extern "C" fn pidtab_read(
    table: &mut Pidtab,
    from: u64,
    entries: &mut [EntryNumbers],
    count: &mut usize,
) -> u32
    ensures reads { ReadsHistory table.old.handle.held table.new.handle.held result (NOT_KEPT ∷ []) }
    ensures count { result ≡ DONE → Has (history table.old.handle.held) (λ c.
        count.new ≡ min (length entries.old) (total c - from)) }
    ensures told { result ≡ DONE → Has (history table.old.handle.held) (λ c. (k : ℕ) → k < count.new
        → TellsEntry c (from + k) (slice_get entries.new k)) }
    ensures behind { result ≡ DONE → (k : ℕ) → count.new ≤ k → slice_get entries.new k ≡ slice_get entries.old k }
    ensures not_done { result ≢ DONE → (entries.new ≡ entries.old) × (count.new ≡ count.old) }
    ensures not_kept { (result ≡ NOT_KEPT) ↔ Has (history table.old.handle.held) (λ c. IsKeptOrNext from c → ⊥) }
{
    if !table.is_open {
        return CLOSED;
    }
    let Held::Recorded(held) = table.handle.look() else {
        return NO_HISTORY;
    };
    if from < held.first_kept() || held.total() < from {
        return NOT_KEPT;
    }
    *count = read_on(held, from, entries);
    DONE
}
