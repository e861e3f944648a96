//! Saved entries on a table with its history: their calls are made again, and their replies compared.
ghost use Rattle.std.specs.Prelude.{◌≡◌, ◌≢◌, ◌+◌, ◌<◌, ◌≤◌, ◌↔◌, ◌⊎◌, [], ◌∷◌, IsTrue, length, slice_get};
ghost use Rattle.{
  kept_past.specs.Past.{IsCaughtUp},
  kept_table.specs.Chronicle.{next_stamp},
  foreign_calls.specs.{Held.{IsDoneOr}, Records.{Has, memoryless, roomless}},
  foreign_calls.specs.Replays.{IsSameAgain, IsOtherNow, ReplaysSaved, CannotMake, MayNeedMemory, StopsBefore},
  foreign_calls.specs.Replays.{StopsAt, WaitsAfter},
};

use crate::kept_calls::make_kept;
use crate::read::EntryNumbers;
use foreign_numbers::numbers::{ReplyNumbers, read_call, tell_reply};
use foreign_numbers::status::{DIFFERS, DONE, NO_MEMORY, OUT_OF_RANGE, SPENT};
use kept_table::Kept;

/// Whether the replies are the same.
fn is_same(a: &ReplyNumbers, b: &ReplyNumbers) -> bool
    ensures { IsTrue result ↔ (a.now ≡ b.now) }
{
    a == b
}

/// Makes the call of the saved entry, and compares its reply. The result is the status.
fn replay_one(held: &mut Kept, saved: &EntryNumbers) -> u32
    ensures done { result ≡ DONE → IsSameAgain (memoryless held.old) saved.now (memoryless held.new) }
    ensures differs { result ≡ DIFFERS → IsOtherNow (memoryless held.old) saved.now (memoryless held.new) }
    ensures moved { (result ≡ DONE) ⊎ (result ≡ DIFFERS)
        → IsCaughtUp 2 held.old.memory.waits held.new.memory.waits }
    ensures not_made { result ≢ DONE → result ≢ DIFFERS → roomless held.new ≡ roomless held.old }
    ensures out_of_range { (result ≡ OUT_OF_RANGE) ↔ CannotMake held.old saved.now }
    ensures spent { result ≢ OUT_OF_RANGE → (result ≡ SPENT) ↔ (next_stamp held.old ≡ u64.MAX) }
    ensures no_memory { result ≡ NO_MEMORY → 0 < held.old.memory.room → MayNeedMemory saved.now }
    ensures room { held.old.memory.room ≤ held.new.memory.room + 1 }
    ensures statuses { IsDoneOr result (DIFFERS ∷ OUT_OF_RANGE ∷ SPENT ∷ NO_MEMORY ∷ []) }
{
    let Some(made) = read_call(&saved.call) else {
        return OUT_OF_RANGE;
    };
    let mut ordinal = 0u64;
    let mut told = None;
    let step = make_kept(held, saved.worker as usize, made, &mut told, &mut ordinal);
    if step != DONE {
        return step;
    }
    let Some(last) = held.last_reply() else {
        unreachable!()
    };
    let same = is_same(&tell_reply(&last), &saved.reply);
    if same { DONE } else { DIFFERS }
}

/// Makes the calls of the saved entries until one is not made, or has another reply: `place` is then its place. The
/// result is the status.
pub fn replay_on(held: &mut Kept, saved: &[EntryNumbers], place: &mut usize) -> u32
    ensures done { result ≡ DONE
        → (place.new ≡ length saved.now) × ReplaysSaved (memoryless held.old) saved.now (memoryless held.new) }
    ensures differs { result ≡ DIFFERS → StopsAt held.old saved.now place.new held.new }
    ensures not_made { result ≢ DONE → result ≢ DIFFERS → StopsBefore held.old saved.now place.new held.new }
    ensures out_of_range { result ≢ DONE → result ≢ DIFFERS → (result ≡ OUT_OF_RANGE)
        ↔ Has (slice_get saved.now place.new) (λ n. CannotMake held.new n) }
    ensures spent { result ≢ DONE → result ≢ DIFFERS → result ≢ OUT_OF_RANGE
        → (result ≡ SPENT) ↔ (next_stamp held.new ≡ u64.MAX) }
    ensures waits { WaitsAfter place.new held.old held.new }
    ensures no_memory { result ≡ NO_MEMORY → place.new < held.old.memory.room
        → Has (slice_get saved.now place.new) MayNeedMemory }
    ensures statuses { IsDoneOr result (DIFFERS ∷ OUT_OF_RANGE ∷ SPENT ∷ NO_MEMORY ∷ []) }
{
    for i in 0..saved.len() {
        let status = replay_one(held, &saved[i]);
        if status != DONE {
            *place = i;
            return status;
        }
    }
    *place = saved.len();
    DONE
}
