//! Calls, for C: as numbers and as lines.
//!
//! Each is made for a worker. A table without a history has worker 0 alone. A table with one has 1 to 16 workers: who
//! uses which is the caller's affair, and two threads with one number are counted as one worker. Its history grows by
//! 64 bytes with each recorded call, until a checkpoint cuts it. Any status except `DONE` says that all is as it was,
//! except the room that is kept for entries, which nothing shows.
ghost use Rattle.std.specs.Prelude.{◌≡◌, ◌≢◌, ℕ, ◌<◌, ◌≤◌, ◌↔◌, [], ◌∷◌, IsTrue, Some, length, take};
ghost use Rattle.{
  pid_types.specs.{Step.{may_grow}, declared.call.Call.{Call}},
  pid_script.specs.{Answers.{reply_text}, Reading.{parsed}},
  stamped_table.specs.Stamped.{reply_to},
  foreign_handles.specs.Held.{stamped, workers},
  foreign_calls.specs.Calls.{visible_held, HasEntryRoom, HasMade, HasMadeKeeping, IsSaidStatus},
  foreign_calls.specs.{Held.{NeedsOpen}, Lines.{IsCall, RefusesLine}, Made.{IsSpent}, Records.{Has}},
  foreign_calls.specs.Rooms.{KeepsRoom},
  foreign_numbers.specs.Numbers.{call_of, numbers_of},
};
ghost use Rattle.pid_script.specs.declared.line.Line.TheVariants as says;

use foreign_calls::calls::{call_by_operation, call_keeping, call_of_worker_0, line};
use foreign_calls::table::Pidtab;
use foreign_numbers::numbers::{CallNumbers, ReplyNumbers};
use foreign_numbers::status::{
    BAD_LINE, CLOSED, DONE, EMPTY_LINE, NO_MEMORY, NO_ROOM, OUT_OF_RANGE, SPENT, unmade,
};
use pid_script::answer::LONGEST_ANSWER;
use pid_script::line::{Line, parse_line};

/// Makes the call that the numbers say for worker 0, and tells the reply as numbers: [`pidtab_call_by`] for those who
/// need no place, with the same statuses. A table without a history is fastest so.
#[unsafe(no_mangle)]
pub extern "C" fn pidtab_call(
    table: &mut Pidtab,
    call: &CallNumbers,
    reply: &mut ReplyNumbers,
) -> u32
    ensures done { result ≡ DONE → (made : Call) × (call_of call.now ≡ Some made)
        × Has table.old.handle.held (λ h. (reply.new ≡ numbers_of (reply_to (stamped h) made))
        × Has table.new.handle.held (λ h'. (place : ℕ) × HasMade h 0 made 0 place h')) }
    ensures not_done { result ≢ DONE
        → (visible_held table.new.handle.held ≡ visible_held table.old.handle.held) × (reply.new ≡ reply.old) }
    ensures status { IsSaidStatus table.old.handle.held 0 (call_of call.now) result }
{
    if !table.is_open {
        return unmade(CLOSED);
    }
    call_of_worker_0(table.handle.lend(), call, reply)
}

/// Makes the call that the numbers say for the worker, and tells the reply as numbers. Where there is a history it is
/// recorded with its reply, and `ordinal` is its place there, counted from 0; else `ordinal` stays.
///
/// `CLOSED` where there is no open table; then `OUT_OF_RANGE` where the operation, or what it takes, is outside its
/// range, or there is no such worker; then `SPENT` where the stamp of the call would be `u64::MAX`; `NO_MEMORY` where
/// there is none for what the call makes or for its entry. A call that the table refuses is `DONE`, and recorded: its
/// reply says so.
///
/// It costs what the call costs, and an entry of 64 bytes if there is a history; of `NSpid` its numbers too.
#[unsafe(no_mangle)]
pub extern "C" fn pidtab_call_by(
    table: &mut Pidtab,
    worker: u32,
    call: &CallNumbers,
    reply: &mut ReplyNumbers,
    ordinal: &mut u64,
) -> u32
    ensures done { result ≡ DONE → (made : Call) × (call_of call.now ≡ Some made)
        × Has table.old.handle.held (λ h. (reply.new ≡ numbers_of (reply_to (stamped h) made))
        × Has table.new.handle.held (λ h'. HasMade h worker made ordinal.old ordinal.new h')) }
    ensures not_done { result ≢ DONE
        → (visible_held table.new.handle.held ≡ visible_held table.old.handle.held)
        × (reply.new ≡ reply.old) × (ordinal.new ≡ ordinal.old) }
    ensures status { IsSaidStatus table.old.handle.held worker (call_of call.now) result }
{
    if !table.is_open {
        return unmade(CLOSED);
    }
    call_by_operation(table.handle.lend(), worker, call, reply, ordinal)
}

/// Makes the call as [`pidtab_call_by`] does, with the same statuses, and then keeps at most so many entries of the
/// history, the call's among them: it cuts first ones away, two at most. So a bound that was lowered is reached by the
/// next calls. Where there is no history there is nothing to cut.
///
/// It costs what the call costs, and at most that of three others: what is cut away is made once more, on the table of
/// the opening. No call waits for a copy of the table, except where [`crate::history::pidtab_checkpoint`] has one.
/// Where the table of the opening finds no memory, the call's answer is as it was, and later calls make up for it.
#[unsafe(no_mangle)]
pub extern "C" fn pidtab_call_keeping(
    table: &mut Pidtab,
    worker: u32,
    call: &CallNumbers,
    keep: u64,
    reply: &mut ReplyNumbers,
    ordinal: &mut u64,
) -> u32
    ensures done { result ≡ DONE → (made : Call) × (call_of call.now ≡ Some made)
        × Has table.old.handle.held (λ h. (reply.new ≡ numbers_of (reply_to (stamped h) made))
        × Has table.new.handle.held (λ h'. HasMadeKeeping keep h worker made ordinal.old ordinal.new h')) }
    ensures not_done { result ≢ DONE
        → (visible_held table.new.handle.held ≡ visible_held table.old.handle.held)
        × (reply.new ≡ reply.old) × (ordinal.new ≡ ordinal.old) }
    ensures status { IsSaidStatus table.old.handle.held worker (call_of call.now) result }
{
    if !table.is_open {
        return unmade(CLOSED);
    }
    call_keeping(table.handle.lend(), worker, call, keep, reply, ordinal)
}

/// Makes the call that is written on the line for the worker, and puts its answer at the front of the room, without a
/// newline; `size` is the answer's length in bytes. Where there is a history the call is recorded with its reply, and
/// `ordinal` is its place there; else `ordinal` stays. What is behind the answer in the room stays as it is. The line
/// is one of the script language, without its newline.
///
/// `CLOSED` where there is no open table; then `EMPTY_LINE` for a line without bytes, which has no answer in a script
/// either, and `BAD_LINE` for what is no line of the table of calls; then `NO_ROOM` where the room is shorter than the
/// longest answer, 362 bytes, which `size` then is; then `OUT_OF_RANGE` where there is no such worker; then `SPENT` and
/// `NO_MEMORY` as [`pidtab_call_by`] has them. A call that the table refuses is `DONE`, and recorded.
#[unsafe(no_mangle)]
pub extern "C" fn pidtab_line_by(
    table: &mut Pidtab,
    worker: u32,
    text: &[u8],
    answer: &mut [u8],
    size: &mut usize,
    ordinal: &mut u64,
) -> u32
    ensures done { result ≡ DONE → (made : Call) × (parsed text.now ≡ says.Call made)
        × Has table.old.handle.held (λ h. (take size.new answer.new ≡ reply_text (reply_to (stamped h) made))
        × Has table.new.handle.held (λ h'. HasMade h worker made ordinal.old ordinal.new h')) }
    ensures answer { KeepsRoom answer.old answer.new size.new result }
    ensures not_done { result ≢ DONE
        → (visible_held table.new.handle.held ≡ visible_held table.old.handle.held) × (ordinal.new ≡ ordinal.old) }
    ensures line { RefusesLine table.old.handle.held text.now answer.old size.old size.new result }
    ensures out_of_range { (result ≡ OUT_OF_RANGE)
        ↔ IsCall (parsed text.now) × (LONGEST_ANSWER ≤ length answer.old)
        × Has table.old.handle.held (λ h. workers h ≤ worker) }
    ensures spent { (result ≡ SPENT)
        ↔ IsCall (parsed text.now) × (LONGEST_ANSWER ≤ length answer.old)
        × Has table.old.handle.held (λ h. (worker < workers h) × IsSpent (stamped h).stamp) }
    ensures no_memory { result ≡ NO_MEMORY → (made : Call) × (parsed text.now ≡ says.Call made)
        × Has table.old.handle.held (λ h. HasEntryRoom h → IsTrue (may_grow made)) }
    ensures needs_open { NeedsOpen table.old.handle.held result
        (EMPTY_LINE ∷ BAD_LINE ∷ NO_ROOM ∷ OUT_OF_RANGE ∷ SPENT ∷ NO_MEMORY ∷ []) }
{
    if !table.is_open {
        return CLOSED;
    }
    let made = match parse_line(text) {
        Line::Call(call) => call,
        Line::Empty => return EMPTY_LINE,
        Line::Bad => return BAD_LINE,
    };
    if answer.len() < LONGEST_ANSWER {
        *size = LONGEST_ANSWER;
        return NO_ROOM;
    }
    line(table.handle.lend(), worker, made, answer, size, ordinal)
}
