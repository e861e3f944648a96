//! Calls that tell beside the reply what they did to others, for C.
ghost use Rattle.std.specs.Prelude.{◌≡◌, ◌≢◌, ◌<◌, ◌≤◌, ◌↔◌, ◌⊎◌, [], ◌∷◌, None, Some, IsSome, length};
ghost use Rattle.{
  pid_types.specs.declared.call.Call.{Call},
  foreign_handles.specs.Held.{stamped, workers},
  stamped_table.specs.Stamped.{after_call, reply_to},
  foreign_numbers.specs.Numbers.{call_of, numbers_of},
  foreign_calls.specs.{Calls.{visible_held, HasEntryRoom, HasMade}, Effects.{MayWant, PutsEffects, WantsRoom}},
  foreign_calls.specs.{Held.{NeedsOpen}, Made.{IsSpent}, Records.{Has}},
};

use foreign_calls::effects::call_told;
use foreign_calls::table::Pidtab;
use foreign_numbers::effects::EffectNumbers;
use foreign_numbers::numbers::{CallNumbers, ReplyNumbers, read_call};
use foreign_numbers::status::{CLOSED, DONE, NO_MEMORY, NO_ROOM, OUT_OF_RANGE, SPENT};

/// Makes the call as [`crate::calls::pidtab_call_by`] does, and tells beside its reply what it did to tasks: who lives
/// no more, who has another parent, and who is there no more, by root numbers in rising order. Of a task that ended
/// and is gone both are told, in this order. So the exit of a namespace's init tells whom the kernel would kill
/// (`pid_namespaces(7)`), and each other exit to whom the children go. A call that changes nothing of this tells
/// nothing.
///
/// They are written at the front of the room, and what is behind them stays. `count` is how many they are.
///
/// `CLOSED` where there is no open table; then `OUT_OF_RANGE` where the operation, or what it takes, is outside its
/// range, or there is no such worker; then `SPENT` where the stamp of the call would be `u64::MAX`; `NO_MEMORY`, also
/// of an exit, a wait, a setpgid and a setsid; `NO_ROOM` where there is room for fewer than two effects on each task
/// that the call may touch. Then the call was not made, and `count` is how many it takes: no effect is lost.
///
/// It costs what the call costs, and some searches for each task that it touches.
#[unsafe(no_mangle)]
pub extern "C" fn pidtab_call_told_by(
    table: &mut Pidtab,
    worker: u32,
    call: &CallNumbers,
    reply: &mut ReplyNumbers,
    ordinal: &mut u64,
    effects: &mut [EffectNumbers],
    count: &mut u64,
) -> u32
    ensures needs_open { NeedsOpen table.old.handle.held result (OUT_OF_RANGE ∷ SPENT ∷ NO_MEMORY ∷ NO_ROOM ∷ []) }
    ensures done { result ≡ DONE → (made : Call) × (call_of call.now ≡ Some made)
        × Has table.old.handle.held (λ h. Has table.new.handle.held (λ h'.
        HasMade h worker made ordinal.old ordinal.new h')
        × (reply.new ≡ numbers_of (reply_to (stamped h) made))
        × PutsEffects (stamped h).state (after_call (stamped h) made).state effects.old effects.new count.new) }
    ensures not_done_held { result ≢ DONE
        → visible_held table.new.handle.held ≡ visible_held table.old.handle.held }
    ensures not_done { result ≢ DONE
        → (reply.new ≡ reply.old) × (ordinal.new ≡ ordinal.old) × (effects.new ≡ effects.old) }
    ensures not_counted { result ≢ DONE → result ≢ NO_ROOM → count.new ≡ count.old }
    ensures out_of_range { (result ≡ OUT_OF_RANGE)
        ↔ Has table.old.handle.held (λ h. (call_of call.now ≡ None) ⊎ (workers h ≤ worker)) }
    ensures spent { (result ≡ SPENT) ↔ IsSome (call_of call.now)
        × Has table.old.handle.held (λ h. (worker < workers h) × IsSpent (stamped h).stamp) }
    ensures no_memory { result ≡ NO_MEMORY → (made : Call) × (call_of call.now ≡ Some made)
        × Has table.old.handle.held (λ h. HasEntryRoom h → MayWant made) }
    ensures no_room { result ≡ NO_ROOM → (made : Call) × (call_of call.now ≡ Some made)
        × Has table.old.handle.held (λ h.
        WantsRoom (stamped h).state (stamped h).stamp made (length effects.old) count.new) }
{
    if !table.is_open {
        return CLOSED;
    }
    let Some(made) = read_call(call) else {
        return OUT_OF_RANGE;
    };
    call_told(
        table.handle.lend(),
        worker,
        made,
        reply,
        ordinal,
        effects,
        count,
    )
}
