//! Calls on a table with its history, as numbers and as lines.
ghost use Rattle.std.specs.Prelude.{◌≡◌, ◌≢◌, ◌+◌, ◌≤◌, Some, IfSome, IsSome, IsTrue, false, length, take, option_map};
ghost use Rattle.{
  pid_script.specs.Answers.{reply_text},
  pid_types.specs.declared.call.Call.TheVariants.{NsPid},
  model_laws.specs.Refusals.{is_query},
  pid_table.specs.Lists.{answers_list},
  kept_past.specs.Stored.{IsList},
  kept_table.specs.{Calls.{outcome}, Chronicle.{last_reply}},
  foreign_handles.specs.declared.held.Held.TheVariants.{Recorded},
  foreign_calls.specs.{Calls.{MakesCall, MakesSaid}, Made.{TellsReply, IsReplyToLast}, Rooms.{KeepsRoom}},
  foreign_numbers.specs.Numbers.{call_of, numbers_of},
};

use crate::texts::write_reply;
use foreign_numbers::numbers::{
    CallNumbers, ReplyNumbers, put_list, put_short, put_told, read_call,
};
use foreign_numbers::operations;
use foreign_numbers::status::{DONE, OUT_OF_RANGE, status_of, unmade};
use kept_table::Kept;
use pid_script::answer::LONGEST_ANSWER;
use pid_table::is_query;
use pid_types::call::Call;
use pid_types::keys::Pid;
use pid_types::reply::ShortReply;

/// Makes the worker's call, records it, and tells its place in the history, and its reply where that is no list. The
/// result is the status.
#[inline(always)]
pub fn make_kept(
    held: &mut Kept,
    worker: usize,
    made: Call,
    told: &mut Option<ShortReply>,
    ordinal: &mut u64,
) -> u32
    ensures makes { MakesCall (Recorded held.old) worker made ordinal.old ordinal.new result (Recorded held.new) }
    ensures reply { result ≡ DONE → last_reply held.new ≡ Some (outcome held.old made).reply }
    ensures told { result ≡ DONE → IsReplyToLast held.new told.new }
    ensures room { held.old.memory.room ≤ held.new.memory.room + 1 }
{
    if worker >= held.workers() {
        return unmade(OUT_OF_RANGE);
    }
    let place = held.total();
    match held.make_call(worker, made) {
        Ok(short) => *told = short,
        Err(fault) => return status_of(fault),
    }
    *ordinal = place;
    DONE
}

/// Tells the reply to the call that was made last: the short one, or else the list of its entry.
#[inline(always)]
pub fn put_last(held: &Kept, told: Option<ShortReply>, reply: &mut ReplyNumbers)
    requires last { IsSome (last_reply held.now) }
    requires told { IsReplyToLast held.now told }
    ensures { Some reply.new ≡ option_map numbers_of (last_reply held.now) }
{
    if let Some(short) = told {
        put_short(short, reply);
        return;
    }
    put_last_list(held, reply);
}

/// Tells the list of the last entry. It is not inlined, since a call rarely comes here.
#[tactic(auto, unfolding(foreign_numbers::specs::Numbers::numbers_of))]
#[inline(never)]
fn put_last_list(held: &Kept, reply: &mut ReplyNumbers)
    requires last { IsSome (last_reply held.now) }
    requires list { IfSome (last_reply held.now) IsList }
    ensures { Some reply.new ≡ option_map numbers_of (last_reply held.now) }
{
    let Some(list) = held.last_list() else {
        unreachable!()
    };
    put_list(list, reply);
}

/// Makes the call `NSpid` as [`make_kept`] does, and tells its reply as numbers: the list is written where the reply
/// has room for it.
#[inline(never)]
fn list_kept(
    held: &mut Kept,
    worker: u32,
    caller: Pid,
    target: Pid,
    reply: &mut ReplyNumbers,
    ordinal: &mut u64,
) -> u32
    ensures makes { MakesCall (Recorded held.old) worker (NsPid caller target)
        ordinal.old ordinal.new result (Recorded held.new) }
    ensures reply { TellsReply (outcome held.old (NsPid caller target)).reply reply.old reply.new result }
{
    if worker as usize >= held.workers() {
        return unmade(OUT_OF_RANGE);
    }
    let here = held.total();
    match held.make_ns_pid(worker as usize, caller, target, &mut reply.levels) {
        Ok(told) => put_told(told, reply),
        Err(fault) => return status_of(fault),
    }
    *ordinal = here;
    DONE
}

/// Makes a query except `NSpid` as [`make_kept`] does, and tells its reply as numbers. Nothing is done between its
/// answer and the reply except the entry.
#[inline(always)]
fn query_kept(
    held: &mut Kept,
    worker: u32,
    query: Call,
    reply: &mut ReplyNumbers,
    ordinal: &mut u64,
) -> u32
    requires asks { IsTrue (is_query query) }
    requires short { answers_list query ≡ false }
    ensures makes { MakesCall (Recorded held.old) worker query ordinal.old ordinal.new result (Recorded held.new) }
    ensures reply { TellsReply (outcome held.old query).reply reply.old reply.new result }
{
    if worker as usize >= held.workers() {
        return unmade(OUT_OF_RANGE);
    }
    let here = held.total();
    match held.make_query(worker as usize, query) {
        Ok(told) => put_short(told, reply),
        Err(fault) => return status_of(fault),
    }
    *ordinal = here;
    DONE
}

/// Makes the call as [`make_kept`] does, and tells its reply as numbers. It is for changes: a query is made faster by
/// [`query_kept`].
#[inline(always)]
fn change_kept(
    held: &mut Kept,
    worker: u32,
    made: Call,
    reply: &mut ReplyNumbers,
    ordinal: &mut u64,
) -> u32
    ensures makes { MakesCall (Recorded held.old) worker made ordinal.old ordinal.new result (Recorded held.new) }
    ensures reply { TellsReply (outcome held.old made).reply reply.old reply.new result }
{
    let mut told = None;
    let status = make_kept(held, worker as usize, made, &mut told, ordinal);
    if status != DONE {
        return status;
    }
    put_last(held, told, reply);
    DONE
}

/// Makes the call as [`make_kept`] does, and tells its reply as numbers. It is not inlined: each way that comes often
/// has a copy of its own.
#[inline(never)]
pub fn call_kept(
    held: &mut Kept,
    worker: u32,
    made: Call,
    reply: &mut ReplyNumbers,
    ordinal: &mut u64,
) -> u32
    ensures makes { MakesCall (Recorded held.old) worker made ordinal.old ordinal.new result (Recorded held.new) }
    ensures reply { TellsReply (outcome held.old made).reply reply.old reply.new result }
{
    if let Call::NsPid { caller, target } = made {
        return list_kept(held, worker, caller, target, reply, ordinal);
    }
    if is_query(&made) {
        return query_kept(held, worker, made, reply, ordinal);
    }
    change_kept(held, worker, made, reply, ordinal)
}

/// Makes the call that is said as [`call_kept`] does. The status is `OUT_OF_RANGE` too where none is.
#[inline(always)]
fn said_kept(
    held: &mut Kept,
    worker: u32,
    said: Option<Call>,
    reply: &mut ReplyNumbers,
    ordinal: &mut u64,
) -> u32
    ensures { MakesSaid (Recorded held.old) worker said reply.old reply.new ordinal.old ordinal.new
        result (Recorded held.new) }
{
    let Some(made) = said else {
        return unmade(OUT_OF_RANGE);
    };
    call_kept(held, worker, made, reply, ordinal)
}

/// The same, with a copy of the way of a query.
#[inline(always)]
fn said_query_kept(
    held: &mut Kept,
    worker: u32,
    said: Option<Call>,
    reply: &mut ReplyNumbers,
    ordinal: &mut u64,
) -> u32
    ensures { MakesSaid (Recorded held.old) worker said reply.old reply.new ordinal.old ordinal.new
        result (Recorded held.new) }
{
    let Some(made) = said else {
        return unmade(OUT_OF_RANGE);
    };
    if let Call::NsPid { caller, target } = made {
        return list_kept(held, worker, caller, target, reply, ordinal);
    }
    if is_query(&made) {
        return query_kept(held, worker, made, reply, ordinal);
    }
    call_kept(held, worker, made, reply, ordinal)
}

/// The same, with a copy of the way of a change.
#[inline(always)]
fn said_change_kept(
    held: &mut Kept,
    worker: u32,
    said: Option<Call>,
    reply: &mut ReplyNumbers,
    ordinal: &mut u64,
) -> u32
    ensures { MakesSaid (Recorded held.old) worker said reply.old reply.new ordinal.old ordinal.new
        result (Recorded held.new) }
{
    let Some(made) = said else {
        return unmade(OUT_OF_RANGE);
    };
    if is_query(&made) {
        return call_kept(held, worker, made, reply, ordinal);
    }
    change_kept(held, worker, made, reply, ordinal)
}

/// The same by the way of a change, which each call except `NSpid` can take: one copy serves all operations.
#[inline(always)]
pub fn said_any_kept(
    held: &mut Kept,
    worker: u32,
    said: Option<Call>,
    reply: &mut ReplyNumbers,
    ordinal: &mut u64,
) -> u32
    ensures { MakesSaid (Recorded held.old) worker said reply.old reply.new ordinal.old ordinal.new
        result (Recorded held.new) }
{
    let Some(made) = said else {
        return unmade(OUT_OF_RANGE);
    };
    if let Call::NsPid { caller, target } = made {
        return list_kept(held, worker, caller, target, reply, ordinal);
    }
    change_kept(held, worker, made, reply, ordinal)
}

/// Makes the call that the numbers say, and tells its reply and its place. Each operation that comes often has a copy
/// of the whole way: in it the compiler knows the operation, and leaves out what only others need.
#[inline(always)]
pub fn kept_by_operation(
    held: &mut Kept,
    worker: u32,
    n: &CallNumbers,
    reply: &mut ReplyNumbers,
    ordinal: &mut u64,
) -> u32
    ensures { MakesSaid (Recorded held.old) worker (call_of n.now) reply.old reply.new ordinal.old ordinal.new
        result (Recorded held.new) }
{
    match n.operation {
        operations::FORK => said_change_kept(held, worker, read_call(n), reply, ordinal),
        operations::EXEC => said_change_kept(held, worker, read_call(n), reply, ordinal),
        operations::EXIT => said_change_kept(held, worker, read_call(n), reply, ordinal),
        operations::WAIT => said_change_kept(held, worker, read_call(n), reply, ordinal),
        operations::SETPGID => said_change_kept(held, worker, read_call(n), reply, ordinal),
        operations::GETPID => said_query_kept(held, worker, read_call(n), reply, ordinal),
        operations::GETPPID => said_query_kept(held, worker, read_call(n), reply, ordinal),
        operations::GETPGID => said_query_kept(held, worker, read_call(n), reply, ordinal),
        operations::NSPID => said_query_kept(held, worker, read_call(n), reply, ordinal),
        operations::NEXT => said_query_kept(held, worker, read_call(n), reply, ordinal),
        operations::COUNT => said_query_kept(held, worker, read_call(n), reply, ordinal),
        _ => said_kept(held, worker, read_call(n), reply, ordinal),
    }
}

/// Makes the call as [`make_kept`] does, and puts the text of its reply at the front of the room.
pub fn line_kept(
    held: &mut Kept,
    worker: u32,
    made: Call,
    answer: &mut [u8],
    size: &mut usize,
    ordinal: &mut u64,
) -> u32
    requires { LONGEST_ANSWER ≤ length answer.old }
    ensures makes { MakesCall (Recorded held.old) worker made ordinal.old ordinal.new result (Recorded held.new) }
    ensures reply { result ≡ DONE → take size.new answer.new ≡ reply_text (outcome held.old made).reply }
    ensures answer { KeepsRoom answer.old answer.new size.new result }
    ensures same_size { result ≢ DONE → size.new ≡ size.old }
{
    let mut told = None;
    let status = make_kept(held, worker as usize, made, &mut told, ordinal);
    if status != DONE {
        return status;
    }
    let Some(last) = held.last_reply() else {
        unreachable!()
    };
    *size = write_reply(answer, made, last);
    DONE
}
