//! Queries: they are answered as calls are, and change nothing.
//!
//! A query is a getpid, getppid, getpgid, getsid, nspid, next or count.
ghost use Rattle.std.specs.Prelude.{◌≡◌, [], ◌∷◌, IsTrue, Some, IfSome};
ghost use Rattle.{
  model_laws.specs.Refusals.{is_query},
  pid_types.specs.declared.call.Call.TheVariants.{NsPid},
  foreign_numbers.specs.Numbers.{numbers_of},
  foreign_handles.specs.Held.{stamped},
  foreign_calls.specs.{Asked.{query_of, TellsAnswer}, Held.{IsDoneOr}},
  stamped_table.specs.Stamped.{reply_to},
};

use foreign_handles::held::Held;
use foreign_numbers::numbers::{CallNumbers, ReplyNumbers, put_short, put_told, read_call};
use foreign_numbers::status::{DONE, OUT_OF_RANGE};
use pid_table::is_query;
use pid_types::call::Call;

/// The query that the numbers say; none where they say no call, or another one.
#[inline(always)]
fn read_query(n: &CallNumbers) -> Option<Call>
    ensures query { result ≡ query_of n.now }
    ensures asks { IfSome result (λ call. IsTrue (is_query call)) }
{
    let call = read_call(n)?;
    if is_query(&call) { Some(call) } else { None }
}

/// Answers `NSpid`. It is not inlined, since the others need no room for a list.
#[inline(never)]
fn ask_for_list(held: &Held, caller: u32, target: u32, reply: &mut ReplyNumbers)
    ensures { reply.new ≡ numbers_of (reply_to (stamped held.now) (NsPid caller target)) }
{
    let told = held.table().ns_pid(caller, target, &mut reply.levels);
    put_told(told, reply);
}

/// Answers the query that the numbers say. The result is the status.
#[inline(always)]
pub fn ask(held: &Held, call: &CallNumbers, reply: &mut ReplyNumbers) -> u32
    ensures answers { TellsAnswer (Some held.now) (λ h. reply_to (stamped h))
        (query_of call.now) reply.old reply.new result }
    ensures statuses { IsDoneOr result (OUT_OF_RANGE ∷ []) }
{
    let Some(asked) = read_query(call) else {
        return OUT_OF_RANGE;
    };
    if let Call::NsPid { caller, target } = asked {
        ask_for_list(held, caller, target, reply);
        return DONE;
    }
    put_short(held.table().ask_short(asked), reply);
    DONE
}
