//! Calls on a table with a history or without one, as numbers and as lines.
//!
//! A table without a history has one worker, 0, and tells no ordinal.
ghost use Rattle.std.specs.Prelude.{◌≡◌, ◌≢◌, ◌≤◌, ℕ, Some, length, take};
ghost use Rattle.{
  pid_types.specs.declared.call.Call.{Call},
  pid_script.specs.Answers.{reply_text},
  foreign_handles.specs.{Held.{stamped}, declared.held.Held.TheVariants.{Recorded}},
  foreign_calls.specs.Calls.{visible, HasMadeKeeping, IsSaidStatus, MakesCall, MakesSaid},
  foreign_calls.specs.{Made.{TellsReply}, Rooms.{KeepsRoom}},
  foreign_numbers.specs.Numbers.{call_of, numbers_of},
  stamped_table.specs.Stamped.{reply_to},
};

use crate::bare_calls::{bare_by_operation, call_bare, line_bare, said_bare};
use crate::kept_calls::{call_kept, kept_by_operation, line_kept, said_any_kept};
use foreign_handles::held::Held;
use foreign_numbers::numbers::{CallNumbers, ReplyNumbers, read_call};
use foreign_numbers::status::{DONE, OUT_OF_RANGE, unmade};
use kept_table::Kept;
use pid_script::answer::LONGEST_ANSWER;
use pid_types::call::Call;

/// Makes the worker's call, and tells its reply as numbers, and its place in the history, if there is one. The result
/// is the status.
#[inline(always)]
pub fn call(
    held: &mut Held,
    worker: u32,
    made: Call,
    reply: &mut ReplyNumbers,
    ordinal: &mut u64,
) -> u32
    ensures makes { MakesCall held.old worker made ordinal.old ordinal.new result held.new }
    ensures reply { TellsReply (reply_to (stamped held.old) made) reply.old reply.new result }
{
    match held {
        Held::Bare(_) if worker > 0 => unmade(OUT_OF_RANGE),
        Held::Bare(table) => call_bare(table, made, reply),
        Held::Recorded(kept) => call_kept(kept, worker, made, reply, ordinal),
    }
}

/// Makes the call that the numbers say, and tells its reply and its place. A table without a history has its fast way
/// in [`call_of_worker_0`].
#[inline(always)]
pub fn call_by_operation(
    held: &mut Held,
    worker: u32,
    said: &CallNumbers,
    reply: &mut ReplyNumbers,
    ordinal: &mut u64,
) -> u32
    ensures { MakesSaid held.old worker (call_of said.now) reply.old reply.new ordinal.old ordinal.new
        result held.new }
{
    match held {
        Held::Bare(_) if worker > 0 => unmade(OUT_OF_RANGE),
        Held::Bare(table) => said_bare(table, read_call(said), reply),
        Held::Recorded(kept) => kept_by_operation(kept, worker, said, reply, ordinal),
    }
}

/// Makes the call that the numbers say for worker 0, and tells its reply. It is not inlined, so that a table without a
/// history does not save the registers that a history needs. Its one way serves all operations: a second copy of each
/// would be too much for the compiler to inline the first.
#[inline(never)]
fn kept_of_worker_0(kept: &mut Kept, said: &CallNumbers, reply: &mut ReplyNumbers) -> u32
    ensures { (place : ℕ) × MakesSaid (Recorded kept.old) 0 (call_of said.now) reply.old reply.new 0 place
        result (Recorded kept.new) }
{
    let mut place = 0;
    said_any_kept(kept, 0, read_call(said), reply, &mut place)
}

/// Makes the call that the numbers say for worker 0, and tells its reply.
#[inline(always)]
pub fn call_of_worker_0(held: &mut Held, said: &CallNumbers, reply: &mut ReplyNumbers) -> u32
    ensures { (place : ℕ) × MakesSaid held.old 0 (call_of said.now) reply.old reply.new 0 place result held.new }
{
    match held {
        Held::Bare(table) => bare_by_operation(table, said, reply),
        Held::Recorded(kept) => kept_of_worker_0(kept, said, reply),
    }
}

/// Makes the call that the numbers say, tells its reply and its place, and then cuts first entries of the history away,
/// if more than so many are kept.
pub fn call_keeping(
    held: &mut Held,
    worker: u32,
    said: &CallNumbers,
    keep: u64,
    reply: &mut ReplyNumbers,
    ordinal: &mut u64,
) -> u32
    ensures done { result ≡ DONE → (made : Call) × (call_of said.now ≡ Some made)
        × HasMadeKeeping keep held.old worker made ordinal.old ordinal.new held.new
        × (reply.new ≡ numbers_of (reply_to (stamped held.old) made)) }
    ensures not_done { result ≢ DONE
        → (visible held.new ≡ visible held.old) × (reply.new ≡ reply.old) × (ordinal.new ≡ ordinal.old) }
    ensures status { IsSaidStatus (Some held.old) worker (call_of said.now) result }
{
    match held {
        Held::Bare(_) if worker > 0 => unmade(OUT_OF_RANGE),
        Held::Bare(table) => said_bare(table, read_call(said), reply),
        Held::Recorded(kept) => {
            let status = said_any_kept(kept, worker, read_call(said), reply, ordinal);
            if status == DONE {
                kept.keep_at_most(keep);
            }
            status
        }
    }
}

/// Makes the worker's call, and puts the text of its reply at the front of the room. The result is the status.
pub fn line(
    held: &mut Held,
    worker: u32,
    made: Call,
    answer: &mut [u8],
    size: &mut usize,
    ordinal: &mut u64,
) -> u32
    requires { LONGEST_ANSWER ≤ length answer.old }
    ensures makes { MakesCall held.old worker made ordinal.old ordinal.new result held.new }
    ensures reply { result ≡ DONE → take size.new answer.new ≡ reply_text (reply_to (stamped held.old) made) }
    ensures answer { KeepsRoom answer.old answer.new size.new result }
    ensures same_size { result ≢ DONE → size.new ≡ size.old }
{
    match held {
        Held::Bare(_) if worker > 0 => unmade(OUT_OF_RANGE),
        Held::Bare(table) => line_bare(table, made, answer, size),
        Held::Recorded(kept) => line_kept(kept, worker, made, answer, size, ordinal),
    }
}
