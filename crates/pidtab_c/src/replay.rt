//! Saved entries on a table with its history, for C: their calls are made again, and their replies compared.
ghost use Rattle.std.specs.Prelude.{◌≡◌, ◌≢◌, ◌<◌, ◌↔◌, ◌⊎◌, [], ◌∷◌, None, IfSome, length, slice_get};
ghost use Rattle.{
  kept_table.specs.Chronicle.{next_stamp},
  foreign_calls.specs.{Held.{history, NeedsHistory}, Records.{Has, memoryless}},
  foreign_calls.specs.Replays.{ReplaysSaved, CannotMake, MayNeedMemory, StopsBefore, StopsAt, WaitsAfter},
};

use foreign_calls::read::EntryNumbers;
use foreign_calls::replay::replay_on;
use foreign_calls::table::Pidtab;
use foreign_handles::held::Held;
use foreign_numbers::status::{CLOSED, DIFFERS, DONE, NO_HISTORY, NO_MEMORY, OUT_OF_RANGE, SPENT};

/// Makes the calls of the saved entries, in order, and compares their replies with the saved ones. `place` is then the
/// number of entries.
///
/// `CLOSED` where there is no open table, and `NO_HISTORY` where it keeps none. Else it stops at the first entry whose
/// call cannot be made or has another reply, and `place` is that entry's place among the saved ones, from 0 on:
/// `OUT_OF_RANGE`, `SPENT` and `NO_MEMORY` as [`crate::calls::pidtab_call_by`] has them, and that call was not
/// made; `DIFFERS`, and that call was made and recorded, with the reply that it had. The calls before it stay made;
/// none behind it is made. It costs what the calls cost.
#[unsafe(no_mangle)]
pub extern "C" fn pidtab_replay(
    table: &mut Pidtab,
    saved: &[EntryNumbers],
    place: &mut usize,
) -> u32
    ensures needs_open { NeedsHistory table.old.handle.held result
        (DIFFERS ∷ OUT_OF_RANGE ∷ SPENT ∷ NO_MEMORY ∷ []) }
    ensures done { result ≡ DONE → (place.new ≡ length saved.now) × Has (history table.old.handle.held) (λ c.
        Has (history table.new.handle.held) (λ d. ReplaysSaved (memoryless c) saved.now (memoryless d))) }
    ensures differs { result ≡ DIFFERS → Has (history table.old.handle.held) (λ c.
        Has (history table.new.handle.held) (λ d. StopsAt c saved.now place.new d)) }
    ensures not_made { result ≢ DONE → result ≢ DIFFERS → IfSome (history table.old.handle.held) (λ c.
        Has (history table.new.handle.held) (λ d. StopsBefore c saved.now place.new d)) }
    ensures waits { IfSome (history table.old.handle.held) (λ c.
        Has (history table.new.handle.held) (λ d. WaitsAfter place.new c d)) }
    ensures no_history { history table.old.handle.held ≡ None
        → (table.new.handle.held ≡ table.old.handle.held) × (place.new ≡ place.old) }
    ensures out_of_range { result ≢ DONE → result ≢ DIFFERS → (result ≡ OUT_OF_RANGE)
        ↔ Has (history table.new.handle.held) (λ d. Has (slice_get saved.now place.new) (λ n. CannotMake d n)) }
    ensures spent { result ≢ DONE → result ≢ DIFFERS → result ≢ OUT_OF_RANGE
        → (result ≡ SPENT) ↔ Has (history table.new.handle.held) (λ d. next_stamp d ≡ u64.MAX) }
    ensures no_memory { result ≡ NO_MEMORY → Has (history table.old.handle.held) (λ c. place.new < c.memory.room
        → Has (slice_get saved.now place.new) MayNeedMemory) }
{
    if !table.is_open {
        return CLOSED;
    }
    let Held::Recorded(held) = table.handle.lend() else {
        return NO_HISTORY;
    };
    replay_on(held, saved, place)
}
