//! The history of a table, for C: how many calls were recorded, the kept entries, and cutting them away.
ghost use Rattle.std.specs.Prelude.{◌≡◌, ◌≢◌, ◌+◌, ◌≤◌, ◌↔◌, ◌⊎◌, [], ◌∷◌, None, false, IfSome, length};
ghost use Rattle.{
  kept_table.specs.Calls.{to_cut, FewerWait, IsWithoutFirst},
  kept_table.specs.Chronicle.{total, recorded, recorded_by_all, kept_entry},
  kept_table.specs.Promise.{KeepsPromise},
  foreign_calls.specs.{Entries.{IsEntry}, Held.{history, ChangesHistory, ReadsHistory}, Records.{Has, Cuts}},
  foreign_calls.specs.Rooms.{PutsText},
  table_lines.specs.Listed.{list_of_state},
};

use foreign_calls::history::{cut_at, cut_on, opening_text, tell_entry};
use foreign_calls::table::Pidtab;
use foreign_calls::texts::write_text;
use foreign_handles::held::Held;
use foreign_numbers::numbers::{CallNumbers, ReplyNumbers};
use foreign_numbers::status::{
    AGAIN, CLOSED, DONE, NO_HISTORY, NO_MEMORY, NO_ROOM, NOT_KEPT, OUT_OF_RANGE,
};
use std::alloc::Global;

/// Tells the ordinal of the first kept entry, and how many calls were recorded, the cut ones among them: so the kept
/// entries have the ordinals from the first number up to below the second.
///
/// `CLOSED` where there is no open table, and `NO_HISTORY` where it keeps none. It costs nothing. Its contract is the
/// headline: what is true of a table with a history between any two functions, whatever they were.
#[unsafe(no_mangle)]
pub extern "C" fn pidtab_counts(table: &mut Pidtab, first_kept: &mut u64, recorded: &mut u64) -> u32
    ensures reads { ReadsHistory table.old.handle.held table.new.handle.held result [] }
    ensures promise { IfSome (history table.old.handle.held) (λ c. KeepsPromise c) }
    ensures workers { IfSome (history table.old.handle.held) (λ c. total c ≡ recorded_by_all (length c.cut) c) }
    ensures done { result ≡ DONE
        → Has (history table.old.handle.held) (λ c. (recorded.new ≡ total c) × (first_kept.new ≡ c.first_kept)) }
    ensures not_done { result ≢ DONE → (recorded.new ≡ recorded.old) × (first_kept.new ≡ first_kept.old) }
{
    if !table.is_open {
        return CLOSED;
    }
    let Held::Recorded(held) = table.handle.look() else {
        return NO_HISTORY;
    };
    *recorded = held.total();
    *first_kept = held.first_kept();
    DONE
}

/// Tells how many calls of the worker were recorded, the cut ones among them.
///
/// `CLOSED` where there is no open table, and `NO_HISTORY` where it keeps none; then `OUT_OF_RANGE` where there is no
/// such worker. It costs nothing.
#[unsafe(no_mangle)]
pub extern "C" fn pidtab_worker(table: &mut Pidtab, worker: u32, calls: &mut u64) -> u32
    ensures reads { ReadsHistory table.old.handle.held table.new.handle.held result (OUT_OF_RANGE ∷ []) }
    ensures done { result ≡ DONE → Has (history table.old.handle.held) (λ c. calls.new ≡ recorded c worker) }
    ensures not_done { result ≢ DONE → calls.new ≡ calls.old }
    ensures out_of_range { (result ≡ OUT_OF_RANGE)
        ↔ Has (history table.old.handle.held) (λ c. length c.cut ≤ worker) }
{
    if !table.is_open {
        return CLOSED;
    }
    let Held::Recorded(held) = table.handle.look() else {
        return NO_HISTORY;
    };
    let worker = worker as usize;
    if worker >= held.workers() {
        return OUT_OF_RANGE;
    }
    *calls = held.recorded(worker);
    DONE
}

/// Tells the kept entry with the ordinal: whose call it was, the call and its reply, as numbers. What the call does not
/// take is 0.
///
/// `CLOSED` where there is no open table, and `NO_HISTORY` where it keeps none; then `NOT_KEPT` where the entry was
/// cut away, or is not reached yet. It costs the same for each ordinal.
#[unsafe(no_mangle)]
pub extern "C" fn pidtab_entry(
    table: &mut Pidtab,
    ordinal: u64,
    worker: &mut u64,
    call: &mut CallNumbers,
    reply: &mut ReplyNumbers,
) -> u32
    ensures reads { ReadsHistory table.old.handle.held table.new.handle.held result (NOT_KEPT ∷ []) }
    ensures done { result ≡ DONE
        → Has (history table.old.handle.held) (λ c. IsEntry c ordinal worker.new call.new reply.new) }
    ensures not_done { result ≢ DONE
        → (worker.new ≡ worker.old) × (call.new ≡ call.old) × (reply.new ≡ reply.old) }
    ensures not_kept { (result ≡ NOT_KEPT)
        ↔ Has (history table.old.handle.held) (λ c. kept_entry c ordinal ≡ None) }
{
    if !table.is_open {
        return CLOSED;
    }
    let Held::Recorded(held) = table.handle.look() else {
        return NO_HISTORY;
    };
    tell_entry(held, ordinal, worker, call, reply)
}

/// Cuts the history: the present state becomes the opening, and no entry is kept. Stamps and ordinals go on.
///
/// `CLOSED` where there is no open table, and `NO_HISTORY` where it keeps none; `NO_MEMORY`. It costs each kept call
/// once more, on the table of the opening. Where there is no such table it pays for a copy of the whole table, and
/// only there is there want of memory: no function of this library makes one.
#[unsafe(no_mangle)]
pub extern "C" fn pidtab_checkpoint(table: &mut Pidtab) -> u32
    ensures changes { ChangesHistory table.old.handle.held table.new.handle.held result (NO_MEMORY ∷ []) }
    ensures done { result ≡ DONE → Cuts (history table.old.handle.held) (history table.new.handle.held) }
    ensures no_memory { result ≡ NO_MEMORY → Has (history table.old.handle.held) (λ c. c.by_steps ≡ false) }
{
    if !table.is_open {
        return CLOSED;
    }
    let Held::Recorded(held) = table.handle.lend() else {
        return NO_HISTORY;
    };
    cut_on(held)
}

/// Cuts the history as [`pidtab_checkpoint`] does, but only where exactly so many calls were recorded: so no
/// entry is cut that the caller has not seen.
///
/// `CLOSED` where there is no open table, and `NO_HISTORY` where it keeps none; then `AGAIN` where more calls, or
/// fewer, were recorded by now; `NO_MEMORY`.
#[unsafe(no_mangle)]
pub extern "C" fn pidtab_checkpoint_at(table: &mut Pidtab, seen: u64) -> u32
    ensures changes { ChangesHistory table.old.handle.held table.new.handle.held result (AGAIN ∷ NO_MEMORY ∷ []) }
    ensures done { result ≡ DONE → Cuts (history table.old.handle.held) (history table.new.handle.held) }
    ensures seen { result ≡ DONE → Has (history table.old.handle.held) (λ c. total c ≡ seen) }
    ensures again { (result ≡ AGAIN) ↔ Has (history table.old.handle.held) (λ c. total c ≢ seen) }
    ensures no_memory { result ≡ NO_MEMORY → Has (history table.old.handle.held) (λ c. c.by_steps ≡ false) }
{
    if !table.is_open {
        return CLOSED;
    }
    let Held::Recorded(held) = table.handle.lend() else {
        return NO_HISTORY;
    };
    cut_at(held, seen)
}

/// Cuts first entries away where more than so many are kept: two at most, so that no caller waits long. Behind each
/// call it keeps the history bounded; [`crate::calls::pidtab_call_keeping`] has both in one.
///
/// `CLOSED` where there is no open table, and `NO_HISTORY` where it keeps none. It costs the calls that are cut away,
/// once more.
#[unsafe(no_mangle)]
pub extern "C" fn pidtab_keep(table: &mut Pidtab, keep: u64) -> u32
    ensures changes { ChangesHistory table.old.handle.held table.new.handle.held result [] }
    ensures done { result ≡ DONE → Has (history table.old.handle.held) (λ c. Has (history table.new.handle.held) (λ d.
        IsWithoutFirst (to_cut c keep) c d)) }
    ensures bound { result ≡ DONE → Has (history table.old.handle.held) (λ c. Has (history table.new.handle.held) (λ d.
        (length d.entries ≤ keep) ⊎ (length d.entries + 2 ≤ length c.entries))) }
    ensures fewer { result ≡ DONE → Has (history table.old.handle.held) (λ c. Has (history table.new.handle.held) (λ d.
        (d.memory.waits ≡ c.memory.waits) ⊎ FewerWait c.memory.waits d.memory.waits)) }
{
    if !table.is_open {
        return CLOSED;
    }
    let Held::Recorded(held) = table.handle.lend() else {
        return NO_HISTORY;
    };
    held.keep_at_most(keep);
    DONE
}

/// Puts the list of the state that the kept history begins in at the front of the room, as [`pidtab_list`] does
/// with the present state, with the same statuses. It costs a copy of that whole state, and the text. `NO_MEMORY` may
/// come of a cut before, whose calls found none on the table of the opening: later calls make up for it.
#[unsafe(no_mangle)]
pub extern "C" fn pidtab_opening(
    alloc: Global,
    table: &mut Pidtab,
    room: &mut [u8],
    size: &mut usize,
) -> u32
    ensures reads { ReadsHistory table.old.handle.held table.new.handle.held result (NO_ROOM ∷ NO_MEMORY ∷ []) }
    ensures text { PutsText (history table.old.handle.held) (λ c. list_of_state c.opening)
        room.old room.new size.old size.new result }
{
    if !table.is_open {
        return CLOSED;
    }
    let Held::Recorded(held) = table.handle.look() else {
        return NO_HISTORY;
    };
    match opening_text(alloc, held) {
        Ok(text) => write_text(text.as_slice(), room, size),
        Err(_) => NO_MEMORY,
    }
}
