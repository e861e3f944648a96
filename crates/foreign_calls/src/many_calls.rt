//! Many calls of one worker on a table with its history, in one turn.
ghost use Rattle.std.specs.Prelude.{◌≡◌, ◌≢◌, ◌<◌, ◌≤◌, ◌↔◌, ◌⊎◌, ◌+◌, [], ◌∷◌, All, IsSome, IsTrue, length, drop};
ghost use Rattle.{
  pid_types.specs.Step.{may_grow},
  kept_table.specs.Chronicle.{total, next_stamp},
  foreign_numbers.specs.Numbers.{call_of},
  kept_past.specs.Past.{IsCaughtUp},
  foreign_calls.specs.{Held.{IsDoneOr}, Records.{Has, memoryless, roomless}, Replays.{IsSameAgain}},
  foreign_calls.specs.Turns.{turn, AreMade, CanMakeAll, MayGrowAt},
};

use crate::kept_calls::{make_kept, put_last};
use foreign_numbers::numbers::{CallNumbers, ReplyNumbers, read_call};
use foreign_numbers::status::{DONE, NO_MEMORY, NO_ROOM, OUT_OF_RANGE, SPENT};
use kept_table::Kept;

/// Whether each of them says a call.
fn are_calls(calls: &[CallNumbers]) -> bool
    ensures { IsTrue result ↔ All (λ n. IsSome (call_of n)) calls.now }
{
    calls.iter().all(|n| read_call(n).is_some())
}

/// Makes the worker's call that the numbers say, and tells its reply and its place. The result is the status.
fn turn_on(
    held: &mut Kept,
    worker: usize,
    call: &CallNumbers,
    reply: &mut ReplyNumbers,
    ordinal: &mut u64,
) -> u32
    requires known { worker < length held.old.cut }
    requires read { IsSome (call_of call.now) }
    ensures done { result ≡ DONE
        → IsSameAgain (memoryless held.old) (turn worker call.now reply.new) (memoryless held.new) }
    ensures moved { result ≡ DONE → IsCaughtUp 2 held.old.memory.waits held.new.memory.waits }
    ensures place { result ≡ DONE → ordinal.new + 1 ≡ total held.new }
    ensures not_done { result ≢ DONE
        → (roomless held.new ≡ roomless held.old) × (reply.new ≡ reply.old) × (ordinal.new ≡ ordinal.old) }
    ensures workers { length held.new.cut ≡ length held.old.cut }
    ensures room { held.old.memory.room ≤ held.new.memory.room + 1 }
    ensures no_memory { result ≡ NO_MEMORY → 0 < held.old.memory.room
        → Has (call_of call.now) (λ made. IsTrue (may_grow made)) }
    ensures spent { (result ≡ SPENT) ↔ (next_stamp held.old ≡ u64.MAX) }
    ensures statuses { IsDoneOr result (SPENT ∷ NO_MEMORY ∷ []) }
{
    let Some(made) = read_call(call) else {
        unreachable!()
    };
    let mut told = None;
    let status = make_kept(held, worker, made, &mut told, ordinal);
    if status != DONE {
        return status;
    }
    put_last(held, told, reply);
    DONE
}

/// Makes the worker's calls in their order, up to the first that finds no memory or no stamp: `made` is how many, and
/// `ordinal` the place of the last of them. Each reply is told where its call stands. The result is the status.
pub fn calls_on(
    held: &mut Kept,
    worker: u32,
    calls: &[CallNumbers],
    replies: &mut [ReplyNumbers],
    made: &mut usize,
    ordinal: &mut u64,
) -> u32
    ensures made { AreMade held.old worker calls.now replies.new made.new held.new }
    ensures behind { drop made.new replies.new ≡ drop made.new replies.old }
    ensures all { result ≡ DONE → made.new ≡ length calls.now }
    ensures not_all { (result ≡ SPENT) ⊎ (result ≡ NO_MEMORY) → made.new < length calls.now }
    ensures none { (result ≡ OUT_OF_RANGE) ⊎ (result ≡ NO_ROOM) → made.new ≡ 0 }
    ensures place { 0 < made.new → ordinal.new + 1 ≡ total held.new }
    ensures no_place { made.new ≡ 0 → ordinal.new ≡ ordinal.old }
    ensures out_of_range { (result ≡ OUT_OF_RANGE) ↔ (CanMakeAll held.old worker calls.now → ⊥) }
    ensures no_room { (result ≡ NO_ROOM)
        ↔ CanMakeAll held.old worker calls.now × (length replies.old < length calls.now) }
    ensures spent { (result ≡ SPENT) ⊎ (result ≡ NO_MEMORY)
        → ((result ≡ SPENT) ↔ (next_stamp held.new ≡ u64.MAX)) }
    ensures no_memory { result ≡ NO_MEMORY → made.new < held.old.memory.room → MayGrowAt calls.now made.new }
    ensures statuses { IsDoneOr result (OUT_OF_RANGE ∷ NO_ROOM ∷ SPENT ∷ NO_MEMORY ∷ []) }
{
    *made = 0;
    if worker as usize >= held.workers() || !are_calls(calls) {
        return OUT_OF_RANGE;
    }
    if replies.len() < calls.len() {
        return NO_ROOM;
    }
    for i in 0..calls.len() {
        let status = turn_on(held, worker as usize, &calls[i], &mut replies[i], ordinal);
        if status != DONE {
            *made = i;
            return status;
        }
    }
    *made = calls.len();
    DONE
}
