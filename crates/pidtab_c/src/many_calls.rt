//! Many calls on a table with its history in one turn, for C.
ghost use Rattle.std.specs.Prelude.{◌≡◌, ◌+◌, ◌<◌, ◌↔◌, ◌⊎◌, [], ◌∷◌, None, IfSome, length, drop};
ghost use Rattle.kept_table.specs.Chronicle.{total, next_stamp};
ghost use Rattle.foreign_calls.specs.{Held.{history, NeedsHistory}, Records.{Has}};
ghost use Rattle.foreign_calls.specs.Turns.{AreMade, CanMakeAll, MayGrowAt};

use foreign_calls::many_calls::calls_on;
use foreign_calls::table::Pidtab;
use foreign_handles::held::Held;
use foreign_numbers::numbers::{CallNumbers, ReplyNumbers};
use foreign_numbers::status::{CLOSED, DONE, NO_HISTORY, NO_MEMORY, NO_ROOM, OUT_OF_RANGE, SPENT};

/// Makes the calls of the worker in their order, as so many [`crate::calls::pidtab_call_by`] with nothing
/// between them: each is recorded, and its reply is told where it stands among the calls. `made` is how many were made,
/// and `ordinal` the place of the last of them in the history. Replies from `made` on stay as they are, and so does
/// `ordinal` where none was made.
///
/// `CLOSED` where there is no open table; `NO_HISTORY` where it keeps none; then `OUT_OF_RANGE` where the operation of
/// one of the calls, or what it takes, is outside its range, or there is no such worker; then `NO_ROOM` where there is
/// room for fewer replies than there are calls: of all four, `made` is 0. Then it stops before the first call that
/// cannot be made: `SPENT` where the stamp of the call would be `u64::MAX`; `NO_MEMORY` where there is none for what
/// the call makes or for its entry. No call at all is `DONE`.
///
/// It costs what the calls cost, and a look at each of them before.
#[unsafe(no_mangle)]
pub extern "C" fn pidtab_calls(
    table: &mut Pidtab,
    worker: u32,
    calls: &[CallNumbers],
    replies: &mut [ReplyNumbers],
    made: &mut usize,
    ordinal: &mut u64,
) -> u32
    ensures needs_open { NeedsHistory table.old.handle.held result
        (OUT_OF_RANGE ∷ NO_ROOM ∷ SPENT ∷ NO_MEMORY ∷ []) }
    ensures made { IfSome (history table.old.handle.held) (λ c.
        Has (history table.new.handle.held) (λ d. AreMade c worker calls.now replies.new made.new d)) }
    ensures behind { drop made.new replies.new ≡ drop made.new replies.old }
    ensures all { result ≡ DONE → made.new ≡ length calls.now }
    ensures not_all { (result ≡ SPENT) ⊎ (result ≡ NO_MEMORY) → made.new < length calls.now }
    ensures none { (result ≡ OUT_OF_RANGE) ⊎ (result ≡ NO_ROOM) → made.new ≡ 0 }
    ensures place { 0 < made.new → Has (history table.new.handle.held) (λ d. ordinal.new + 1 ≡ total d) }
    ensures no_place { made.new ≡ 0 → ordinal.new ≡ ordinal.old }
    ensures no_history { history table.old.handle.held ≡ None
        → (table.new.handle.held ≡ table.old.handle.held) × (made.new ≡ 0) }
    ensures out_of_range { (result ≡ OUT_OF_RANGE)
        ↔ Has (history table.old.handle.held) (λ c. CanMakeAll c worker calls.now → ⊥) }
    ensures no_room { (result ≡ NO_ROOM) ↔ Has (history table.old.handle.held) (λ c. CanMakeAll c worker calls.now)
        × (length replies.old < length calls.now) }
    ensures spent { (result ≡ SPENT) ⊎ (result ≡ NO_MEMORY)
        → ((result ≡ SPENT) ↔ Has (history table.new.handle.held) (λ d. next_stamp d ≡ u64.MAX)) }
    ensures no_memory { result ≡ NO_MEMORY
        → Has (history table.old.handle.held) (λ c. made.new < c.memory.room → MayGrowAt calls.now made.new) }
{
    *made = 0;
    if !table.is_open {
        return CLOSED;
    }
    let Held::Recorded(held) = table.handle.lend() else {
        return NO_HISTORY;
    };
    calls_on(held, worker, calls, replies, made, ordinal)
}
