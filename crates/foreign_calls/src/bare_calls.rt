//! Calls on a table without a history, as numbers and as lines. Its one worker is worker 0, and no place is told.
ghost use Rattle.std.specs.Prelude.{◌≡◌, ◌≢◌, ◌≤◌, IsTrue, false, length, take};
ghost use Rattle.{
  pid_script.specs.Answers.{reply_text},
  pid_types.specs.declared.call.Call.TheVariants.{NsPid},
  model_laws.specs.Refusals.{is_query},
  pid_table.specs.Lists.{answers_list},
  foreign_handles.specs.declared.held.Held.TheVariants.{Bare},
  foreign_calls.specs.{Calls.{MakesCall, MakesSaid}, Made.{TellsReply}, Rooms.{KeepsRoom}},
  foreign_numbers.specs.Numbers.{call_of},
  stamped_table.specs.Stamped.{reply_to},
};

use crate::texts::write_reply;
use foreign_numbers::numbers::{CallNumbers, ReplyNumbers, put_short, put_told, read_call};
use foreign_numbers::operations;
use foreign_numbers::status::{DONE, OUT_OF_RANGE, status_of, unmade};
use pid_script::answer::LONGEST_ANSWER;
use pid_table::is_query;
use pid_types::call::Call;
use pid_types::reply::Reply;
use stamped_table::StampedTable;

/// Makes a query except `NSpid`, and tells its reply as numbers. The result is the status.
#[inline(always)]
fn query_bare(held: &mut StampedTable, query: Call, reply: &mut ReplyNumbers) -> u32
    requires asks { IsTrue (is_query query) }
    requires short { answers_list query ≡ false }
    ensures makes { MakesCall (Bare held.old) 0 query 0 0 result (Bare held.new) }
    ensures reply { TellsReply (reply_to held.old query) reply.old reply.new result }
{
    match held.make_query(query) {
        Ok(told) => {
            put_short(told, reply);
            DONE
        }
        Err(fault) => status_of(fault),
    }
}

/// Makes a call except `NSpid`, and tells its reply as numbers. It is for changes: a query is made faster by
/// [`query_bare`].
#[inline(always)]
fn change_bare(held: &mut StampedTable, made: Call, reply: &mut ReplyNumbers) -> u32
    requires { answers_list made ≡ false }
    ensures makes { MakesCall (Bare held.old) 0 made 0 0 result (Bare held.new) }
    ensures reply { TellsReply (reply_to held.old made) reply.old reply.new result }
{
    match held.make_short(made) {
        Ok(told) => {
            put_short(told, reply);
            DONE
        }
        Err(fault) => status_of(fault),
    }
}

/// Makes the call `NSpid`, and tells its reply as numbers. It is not inlined, since the others need no room for a list.
#[inline(never)]
fn list_bare(held: &mut StampedTable, caller: u32, target: u32, reply: &mut ReplyNumbers) -> u32
    ensures makes { MakesCall (Bare held.old) 0 (NsPid caller target) 0 0 result (Bare held.new) }
    ensures reply { TellsReply (reply_to held.old (NsPid caller target)) reply.old reply.new result }
{
    match held.make_ns_pid(caller, target, &mut reply.levels) {
        Ok(told) => {
            put_told(told, reply);
            DONE
        }
        Err(fault) => status_of(fault),
    }
}

/// Makes the call, and tells its reply as numbers. The result is the status. It is not inlined: each way that comes
/// often has a copy of its own.
#[inline(never)]
pub fn call_bare(held: &mut StampedTable, made: Call, reply: &mut ReplyNumbers) -> u32
    ensures makes { MakesCall (Bare held.old) 0 made 0 0 result (Bare held.new) }
    ensures reply { TellsReply (reply_to held.old made) reply.old reply.new result }
{
    if let Call::NsPid { caller, target } = made {
        return list_bare(held, caller, target, reply);
    }
    if is_query(&made) {
        return query_bare(held, made, reply);
    }
    change_bare(held, made, reply)
}

/// Makes the call that is said as [`call_bare`] does. The status is `OUT_OF_RANGE` too where none is.
#[inline(always)]
pub fn said_bare(held: &mut StampedTable, said: Option<Call>, reply: &mut ReplyNumbers) -> u32
    ensures { MakesSaid (Bare held.old) 0 said reply.old reply.new 0 0 result (Bare held.new) }
{
    let Some(made) = said else {
        return unmade(OUT_OF_RANGE);
    };
    call_bare(held, made, reply)
}

/// The same, with a copy of the way of a query.
#[inline(always)]
fn said_query_bare(held: &mut StampedTable, said: Option<Call>, reply: &mut ReplyNumbers) -> u32
    ensures { MakesSaid (Bare held.old) 0 said reply.old reply.new 0 0 result (Bare held.new) }
{
    let Some(made) = said else {
        return unmade(OUT_OF_RANGE);
    };
    if let Call::NsPid { caller, target } = made {
        return list_bare(held, caller, target, reply);
    }
    if is_query(&made) {
        return query_bare(held, made, reply);
    }
    call_bare(held, made, reply)
}

/// The same, with a copy of the way of a change.
#[inline(always)]
fn said_change_bare(held: &mut StampedTable, said: Option<Call>, reply: &mut ReplyNumbers) -> u32
    ensures { MakesSaid (Bare held.old) 0 said reply.old reply.new 0 0 result (Bare held.new) }
{
    let Some(made) = said else {
        return unmade(OUT_OF_RANGE);
    };
    if is_query(&made) {
        return call_bare(held, made, reply);
    }
    change_bare(held, made, reply)
}

/// Makes the call that the numbers say, and tells its reply. Each operation that comes often has a copy
/// of the whole way: in it the compiler knows the operation, and leaves out what only others need.
#[inline(always)]
pub fn bare_by_operation(held: &mut StampedTable, n: &CallNumbers, reply: &mut ReplyNumbers) -> u32
    ensures { MakesSaid (Bare held.old) 0 (call_of n.now)
        reply.old reply.new 0 0 result (Bare held.new) }
{
    match n.operation {
        operations::FORK => said_change_bare(held, read_call(n), reply),
        operations::EXEC => said_change_bare(held, read_call(n), reply),
        operations::EXIT => said_change_bare(held, read_call(n), reply),
        operations::WAIT => said_change_bare(held, read_call(n), reply),
        operations::SETPGID => said_change_bare(held, read_call(n), reply),
        operations::GETPID => said_query_bare(held, read_call(n), reply),
        operations::GETPPID => said_query_bare(held, read_call(n), reply),
        operations::GETPGID => said_query_bare(held, read_call(n), reply),
        operations::NSPID => said_query_bare(held, read_call(n), reply),
        operations::NEXT => said_query_bare(held, read_call(n), reply),
        operations::COUNT => said_query_bare(held, read_call(n), reply),
        _ => said_bare(held, read_call(n), reply),
    }
}

/// Makes the call, and puts the text of its reply at the front of the room. The result is the status.
pub fn line_bare(held: &mut StampedTable, made: Call, answer: &mut [u8], size: &mut usize) -> u32
    requires { LONGEST_ANSWER ≤ length answer.old }
    ensures makes { MakesCall (Bare held.old) 0 made 0 0 result (Bare held.new) }
    ensures reply { result ≡ DONE → take size.new answer.new ≡ reply_text (reply_to held.old made) }
    ensures answer { KeepsRoom answer.old answer.new size.new result }
    ensures same_size { result ≢ DONE → size.new ≡ size.old }
{
    let mut told = Reply::Done;
    if let Err(fault) = held.make(made, &mut told) {
        return status_of(fault);
    }
    *size = write_reply(answer, made, told);
    DONE
}
