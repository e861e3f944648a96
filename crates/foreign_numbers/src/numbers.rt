//! Calls and replies as numbers, for callers who would rather not read text. The numbers stay the same from release to
//! release.
ghost use Rattle.std.specs.Prelude.{◌≡◌, ◌≤◌, length};
ghost use Rattle.{
  pid_types.specs.{Short.{reply_of}, Written.{told_of, written}},
  translate.specs.Zeroes.{HasZeroesBehind},
  foreign_numbers.specs.Numbers.{switch_of, which_of, kind_of, limit_of, status_of, call_of, control_call_of},
  foreign_numbers.specs.Numbers.{later_call_of, blank_reply, with_zeroes, levels_numbers, refusal_numbers, numbers_of},
  foreign_numbers.specs.Numbers.{errno_of, number_or},
};

use crate::status::DONE;
use crate::{choices, kinds, operations};
use arrayvec::ArrayVec;
use pid_types::call::{Call, Kind, Which};
use pid_types::plain::{Ended, LEVELS};
use pid_types::reply::{Refusal, Reply, ShortReply};
pub use saved_form::numbers::{CallNumbers, ReplyNumbers};

/// A switch.
fn read_switch(choice: u32) -> Option<bool>
    ensures { result ≡ switch_of choice }
{
    match choice {
        0 => Some(false),
        1 => Some(true),
        _ => None,
    }
}

/// The children that a wait selects.
fn read_which(choice: u32, number: u32) -> Option<Which>
    ensures { result ≡ which_of choice number }
{
    match choice {
        choices::ANY => Some(Which::Any),
        choices::CHILD => Some(Which::Pid(number)),
        choices::OWN_GROUP => Some(Which::OwnGroup),
        choices::GROUP => Some(Which::Group(number)),
        _ => None,
    }
}

/// What a number is in use as.
pub fn read_kind(choice: u32) -> Option<Kind>
    ensures { result ≡ kind_of choice }
{
    match choice {
        choices::TASKS => Some(Kind::Task),
        choices::GROUPS => Some(Kind::Group),
        choices::SESSIONS => Some(Kind::Session),
        _ => None,
    }
}

/// A limit, or none.
fn read_limit(choice: u32, number: u32) -> Option<Option<u32>>
    ensures { result ≡ limit_of choice number }
{
    match choice {
        0 => Some(None),
        1 => Some(Some(number)),
        _ => None,
    }
}

/// An exit status.
fn read_status(number: u32) -> Option<u8>
    ensures { result ≡ status_of number }
{
    if number < 256 {
        Some(number as u8)
    } else {
        None
    }
}

/// The call that the numbers say; none where the operation, or what it takes, is outside its range.
#[tactic(auto, unfolding(crate::specs::Numbers::call_of))]
#[inline(always)]
pub fn read_call(n: &CallNumbers) -> Option<Call>
    ensures { result ≡ call_of n.now }
{
    let caller = n.caller;
    match n.operation {
        operations::FORK => read_switch(n.choice).map(|new_space| Call::Fork { caller, new_space }),
        operations::GETPID => Some(Call::GetPid { caller }),
        operations::NSPID => Some(Call::NsPid {
            caller,
            target: n.number,
        }),
        operations::EXEC => Some(Call::Exec { caller }),
        operations::EXIT => read_status(n.number).map(|status| Call::Exit { caller, status }),
        operations::WAIT => {
            read_which(n.choice, n.number).map(|which| Call::Wait { caller, which })
        }
        operations::GETPPID => Some(Call::GetPpid { caller }),
        operations::SETPGID => Some(Call::SetPgid {
            caller,
            pid: n.pid,
            pgid: n.pgid,
        }),
        operations::SETSID => Some(Call::SetSid { caller }),
        _ => read_control_call(n),
    }
}

/// The call from operation 9 on.
#[tactic(auto, unfolding(crate::specs::Numbers::control_call_of))]
#[inline(always)]
fn read_control_call(n: &CallNumbers) -> Option<Call>
    ensures { result ≡ control_call_of n.now }
{
    let id = n.id;
    match n.operation {
        operations::MK => Some(Call::MakeControl { parent: id }),
        operations::RM => Some(Call::RemoveControl { id }),
        operations::LIMIT => {
            read_limit(n.choice, n.number).map(|limit| Call::SetLimit { id, limit })
        }
        operations::MOVE => Some(Call::Move { task: n.caller, id }),
        operations::COUNT => Some(Call::Count { id }),
        _ => read_later_call(n),
    }
}

/// The call from operation 14 on.
#[tactic(auto, unfolding(crate::specs::Numbers::later_call_of))]
#[inline(always)]
fn read_later_call(n: &CallNumbers) -> Option<Call>
    ensures { result ≡ later_call_of n.now }
{
    let (caller, number) = (n.caller, n.number);
    match n.operation {
        operations::GETPGID => Some(Call::GetPgid {
            caller,
            pid: number,
        }),
        operations::GETSID => Some(Call::GetSid {
            caller,
            pid: number,
        }),
        operations::NEXT => read_kind(n.choice).map(|kind| Call::Next {
            caller,
            kind,
            from: number,
        }),
        operations::JOIN => Some(Call::Join {
            caller,
            target: number,
        }),
        operations::SUBREAPER => read_switch(n.choice).map(|on| Call::SetSubreaper { caller, on }),
        _ => None,
    }
}

/// Writes a reply of the kind that tells one value or two.
fn put_values(reply: &mut ReplyNumbers, kind: u32, first: u64, second: u64)
    ensures { reply.new ≡ record (blank_reply kind) { first = first; second = second } }
{
    reply.kind = kind;
    reply.errno = 0;
    reply.refusal = 0;
    reply.count = 0;
    reply.first = first;
    reply.second = second;
    reply.levels = [0; LEVELS];
}

/// The numbers, and zeroes behind them.
pub fn padded(numbers: &ArrayVec<u32, LEVELS>) -> [u32; LEVELS]
    ensures { result ≡ with_zeroes numbers.now.items }
{
    let mut levels = [0u32; LEVELS];
    levels[..numbers.len()].copy_from_slice(numbers.as_slice());
    levels
}

/// Writes the reply with a task's numbers.
pub fn put_list(list: &[u32], reply: &mut ReplyNumbers)
    requires { length list.now ≤ LEVELS }
    ensures { reply.new ≡ levels_numbers list.now }
{
    put_values(reply, kinds::LEVELS, 0, 0);
    reply.count = list.len() as u32;
    reply.levels[..list.len()].copy_from_slice(list);
}

/// Writes the reply of a refused call.
fn put_refusal(reply: &mut ReplyNumbers, refusal: Refusal)
    ensures { reply.new ≡ refusal_numbers refusal }
{
    let first = match refusal {
        Refusal::NoNumber(id) | Refusal::PidsLimit(id) => id,
        _ => 0,
    };
    put_values(reply, kinds::REFUSED, first, 0);
    reply.errno = refusal.errno();
    reply.refusal = u32::from(refusal.number());
}

/// Writes the reply as numbers where they go: a reply that is told and then copied would cost twice.
#[tactic(auto, unfolding(crate::specs::Numbers::numbers_of))]
#[inline(always)]
pub fn put_reply(told: &Reply, reply: &mut ReplyNumbers)
    ensures { reply.new ≡ numbers_of told.now }
{
    match told {
        Reply::Forked { child, root } => {
            put_values(reply, kinds::FORKED, u64::from(*child), u64::from(*root))
        }
        Reply::Done => put_values(reply, kinds::OK, 0, 0),
        Reply::Number(number) => put_values(reply, kinds::NUMBER, u64::from(*number), 0),
        Reply::Levels(numbers) => put_list(numbers.as_slice(), reply),
        Reply::Reaped {
            child,
            ended: Ended::Exited(status),
        } => put_values(reply, kinds::REAPED, u64::from(*child), u64::from(*status)),
        Reply::Reaped {
            child,
            ended: Ended::Killed,
        } => put_values(reply, kinds::REAPED, u64::from(*child), kinds::KILLED),
        Reply::NoneYet => put_values(reply, kinds::NONE_YET, 0, 0),
        Reply::Counted(count) => put_values(reply, kinds::COUNTED, *count, 0),
        Reply::Control(id) => put_values(reply, kinds::CONTROL, *id, 0),
        Reply::End => put_values(reply, kinds::END, 0, 0),
        Reply::Refused(refusal) => put_refusal(reply, *refusal),
    }
}

/// Writes a reply that is no list, as [`put_reply`] does.
#[tactic(auto, unfolding(crate::specs::Numbers::numbers_of))]
#[inline(always)]
pub fn put_short(told: ShortReply, reply: &mut ReplyNumbers)
    ensures { reply.new ≡ numbers_of (reply_of told) }
{
    match told {
        ShortReply::Forked { child, root } => {
            put_values(reply, kinds::FORKED, u64::from(child), u64::from(root))
        }
        ShortReply::Done => put_values(reply, kinds::OK, 0, 0),
        ShortReply::Number(number) => put_values(reply, kinds::NUMBER, u64::from(number), 0),
        ShortReply::Reaped {
            child,
            ended: Ended::Exited(status),
        } => put_values(reply, kinds::REAPED, u64::from(child), u64::from(status)),
        ShortReply::Reaped {
            child,
            ended: Ended::Killed,
        } => put_values(reply, kinds::REAPED, u64::from(child), kinds::KILLED),
        ShortReply::NoneYet => put_values(reply, kinds::NONE_YET, 0, 0),
        ShortReply::Counted(count) => put_values(reply, kinds::COUNTED, count, 0),
        ShortReply::Control(id) => put_values(reply, kinds::CONTROL, id, 0),
        ShortReply::End => put_values(reply, kinds::END, 0, 0),
        ShortReply::Refused(refusal) => put_refusal(reply, refusal),
    }
}

/// Writes the number that a reply tells, and answers the error of a refusal, or `DONE`. A `next` that finds none is 0,
/// and what tells no number leaves the one before.
#[inline(always)]
pub fn put_number(told: ShortReply, number: &mut u64) -> u32
    ensures status { result ≡ errno_of (reply_of told) }
    ensures number { number.new ≡ number_or number.old (reply_of told) }
{
    match told {
        ShortReply::Number(value) => *number = u64::from(value),
        ShortReply::Counted(count) => *number = count,
        ShortReply::End => *number = 0,
        ShortReply::Refused(refusal) => return refusal.errno(),
        _ => {}
    }
    DONE
}

/// Writes what is told of an `NSpid` whose numbers are in the reply already, and zeroes behind them.
#[inline(always)]
pub fn put_told(told: Result<usize, Refusal>, reply: &mut ReplyNumbers)
    requires fits { written told ≤ LEVELS }
    requires zeroes { HasZeroesBehind told reply.old.levels }
    ensures { reply.new ≡ numbers_of (told_of told reply.old.levels) }
{
    match told {
        Ok(count) => {
            reply.kind = kinds::LEVELS;
            reply.errno = 0;
            reply.refusal = 0;
            reply.count = count as u32;
            reply.first = 0;
            reply.second = 0;
        }
        Err(refusal) => put_refusal(reply, refusal),
    }
}

/// The reply as numbers.
pub fn tell_reply(told: &Reply) -> ReplyNumbers
    ensures { result ≡ numbers_of told.now }
{
    let mut reply = ReplyNumbers {
        kind: kinds::OK,
        errno: 0,
        refusal: 0,
        count: 0,
        first: 0,
        second: 0,
        levels: [0; LEVELS],
    };
    put_reply(told, &mut reply);
    reply
}
