//! Queries over the tasks of a table: `getpid(2)`, `getppid(2)`, `getpgid(2)`, `getsid(2)`, `NSpid` of
//! `proc_pid_status(5)`, and the next number in use. In `shown` is the plain state as a whole.
//!
//! Each query costs a search or two in a tree of numbers and a few reads, `NSpid` a read for each level. They take no
//! memory and change nothing.
#![tactic(auto)]

ghost use Rattle.std.specs.Prelude.{◌≡◌};
ghost use Rattle.{
  pid_types.specs.Queries.{get_pid as get_pid_of, get_ppid as get_ppid_of, get_pgid as get_pgid_of},
  pid_types.specs.Queries.{get_sid as get_sid_of, ns_pid as ns_pid_of, next as next_of},
  pid_types.specs.{Short.{reply_of}, Written.{IsWritten, told_of}},
  task_table.specs.{View.{state_of}, Whole.{IsWhole}},
  thread_view.specs.{Full.{full_state}, Calling.{IsWholeWithThreads}},
  translate.specs.{Zeroes.{HasZeroesBehind}, Seen.{IsSeenReply}},
};
ghost use Rattle.pid_types.specs.declared.call.Call.TheVariants as calls;

pub mod inside;
pub mod members;
pub mod page;
mod queries;
pub mod relations;
pub mod residents;
pub mod shown;
pub mod space;
pub mod stat;
pub mod threads;

use model_laws::sights::queries_answer_seen;
use pid_types::call::Kind;
use pid_types::keys::Pid;
use pid_types::plain::LEVELS;
use pid_types::reply::{Refusal, ShortReply};
use task_table::Tasks;

/// `getpid(2)`.
#[inline(always)]
pub fn get_pid(store: &Tasks, caller: Pid) -> ShortReply
    requires { IsWholeWithThreads store.now }
    ensures value { reply_of result ≡ get_pid_of (full_state store.now) caller }
    ensures seen { IsSeenReply (full_state store.now) caller calls.GetPid (reply_of result) }
{
    queries_answer_seen();
    queries::get_pid(store, caller)
}

/// `getppid(2)`: 0 for a parent that the caller cannot see, and for the root init.
#[inline(always)]
pub fn get_ppid(store: &Tasks, caller: Pid) -> ShortReply
    requires { IsWholeWithThreads store.now }
    ensures value { reply_of result ≡ get_ppid_of (full_state store.now) caller }
    ensures seen { IsSeenReply (full_state store.now) caller calls.GetPpid (reply_of result) }
{
    queries_answer_seen();
    queries::get_ppid(store, caller)
}

/// `getpgid(2)`: 0 for a group that the caller cannot see.
#[inline(always)]
pub fn get_pgid(store: &Tasks, caller: Pid, pid: Pid) -> ShortReply
    requires { IsWholeWithThreads store.now }
    ensures value { reply_of result ≡ get_pgid_of (full_state store.now) caller pid }
    ensures seen { IsSeenReply (full_state store.now) caller (λ n. calls.GetPgid n pid) (reply_of result) }
{
    queries_answer_seen();
    queries::get_pgid(store, caller, pid)
}

/// `getsid(2)`: 0 for a session that the caller cannot see.
pub fn get_sid(store: &Tasks, caller: Pid, pid: Pid) -> ShortReply
    requires { IsWholeWithThreads store.now }
    ensures value { reply_of result ≡ get_sid_of (full_state store.now) caller pid }
    ensures seen { IsSeenReply (full_state store.now) caller (λ n. calls.GetSid n pid) (reply_of result) }
{
    // It is not inlined: what the way of a query can take in is limited, and the others come more often.
    queries_answer_seen();
    queries::get_sid(store, caller, pid)
}

/// `NSpid` of `proc_pid_status(5)`: writes the target's numbers from the caller's namespace inwards over the first ones
/// of the room. It answers how many, or the refusal. Behind them are zeroes.
#[inline(always)]
pub fn ns_pid(
    store: &Tasks,
    caller: Pid,
    target: Pid,
    room: &mut [Pid; LEVELS],
) -> Result<usize, Refusal>
    requires { IsWhole store.now }
    ensures value { IsWritten result room.new (ns_pid_of (state_of store.now) caller target) }
    ensures zeroes { HasZeroesBehind result room.new }
    ensures seen { IsSeenReply (state_of store.now) caller (λ n. calls.NsPid n target) (told_of result room.new) }
{
    queries_answer_seen();
    queries::ns_pid(store, caller, target, room)
}

/// The least number from the given one on that is in use as the kind, in the caller's namespace. It costs one
/// search by marks.
#[inline(always)]
pub fn next(store: &Tasks, caller: Pid, kind: Kind, from: Pid) -> ShortReply
    requires { IsWholeWithThreads store.now }
    ensures value { reply_of result ≡ next_of (full_state store.now) caller kind from }
    ensures seen { IsSeenReply (full_state store.now) caller (λ n. calls.Next n kind from) (reply_of result) }
{
    queries_answer_seen();
    queries::next(store, caller, kind, from)
}
