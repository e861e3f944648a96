//! A call as numbers, from which the call can be read again.
ghost use Rattle.std.specs.Prelude.{◌≡◌, Some};
ghost use Rattle.foreign_numbers.specs.CallNumbers.{call_blank, call_numbers, wait_numbers, limit_numbers};
ghost use Rattle.foreign_numbers.specs.Numbers.{call_of};
ghost use Rattle.pid_types.specs.declared.call.Call.TheVariants as says;

use crate::numbers::CallNumbers;
use crate::{choices, operations};
use pid_types::call::{Call, Kind, Which};

/// A call of the operation that takes nothing.
fn blank_call(operation: u32, caller: u32) -> CallNumbers
    ensures { result ≡ call_blank operation caller }
{
    CallNumbers {
        operation,
        caller,
        id: 0,
        number: 0,
        choice: 0,
        pid: 0,
        pgid: 0,
    }
}

/// A call that takes a number.
fn numbered(operation: u32, caller: u32, choice: u32, number: u32) -> CallNumbers
    ensures { result ≡ record (call_blank operation caller) { choice = choice; number = number } }
{
    CallNumbers {
        choice,
        number,
        ..blank_call(operation, caller)
    }
}

/// A call that takes an id.
fn identified(operation: u32, caller: u32, id: u64) -> CallNumbers
    ensures { result ≡ record (call_blank operation caller) { id = id } }
{
    CallNumbers {
        id,
        ..blank_call(operation, caller)
    }
}

/// A wait as numbers.
#[tactic(auto, unfolding(crate::specs::Numbers::call_of))]
fn tell_wait(caller: u32, which: Which) -> CallNumbers
    ensures told { result ≡ wait_numbers caller which }
    ensures back { call_of result ≡ Some (says.Wait caller which) }
{
    match which {
        Which::Any => blank_call(operations::WAIT, caller),
        Which::Pid(number) => numbered(operations::WAIT, caller, choices::CHILD, number),
        Which::OwnGroup => numbered(operations::WAIT, caller, choices::OWN_GROUP, 0),
        Which::Group(number) => numbered(operations::WAIT, caller, choices::GROUP, number),
    }
}

/// A limit, or none, as numbers.
#[tactic(auto, unfolding(crate::specs::Numbers::call_of, crate::specs::Numbers::control_call_of))]
fn tell_limit(id: u64, limit: Option<u32>) -> CallNumbers
    ensures told { result ≡ limit_numbers id limit }
    ensures back { call_of result ≡ Some (says.SetLimit id limit) }
{
    match limit {
        None => identified(operations::LIMIT, 0, id),
        Some(number) => CallNumbers {
            id,
            ..numbered(operations::LIMIT, 0, 1, number)
        },
    }
}

/// The call as numbers, which say that call.
#[tactic(auto, unfolding(crate::specs::CallNumbers::call_numbers, crate::specs::Numbers::call_of, crate::specs::Numbers::control_call_of, crate::specs::Numbers::later_call_of))]
pub fn tell_call(call: &Call) -> CallNumbers
    ensures told { result ≡ call_numbers call.now }
    ensures back { call_of result ≡ Some call.now }
{
    match *call {
        Call::Fork { caller, new_space } => {
            numbered(operations::FORK, caller, u32::from(new_space), 0)
        }
        Call::GetPid { caller } => blank_call(operations::GETPID, caller),
        Call::NsPid { caller, target } => numbered(operations::NSPID, caller, 0, target),
        Call::Exec { caller } => blank_call(operations::EXEC, caller),
        Call::Exit { caller, status } => numbered(operations::EXIT, caller, 0, u32::from(status)),
        Call::Wait { caller, which } => tell_wait(caller, which),
        Call::GetPpid { caller } => blank_call(operations::GETPPID, caller),
        Call::SetPgid { caller, pid, pgid } => CallNumbers {
            pid,
            pgid,
            ..blank_call(operations::SETPGID, caller)
        },
        Call::SetSid { caller } => blank_call(operations::SETSID, caller),
        Call::MakeControl { parent } => identified(operations::MK, 0, parent),
        Call::RemoveControl { id } => identified(operations::RM, 0, id),
        Call::SetLimit { id, limit } => tell_limit(id, limit),
        Call::Move { task, id } => identified(operations::MOVE, task, id),
        Call::Count { id } => identified(operations::COUNT, 0, id),
        Call::GetPgid { caller, pid } => numbered(operations::GETPGID, caller, 0, pid),
        Call::GetSid { caller, pid } => numbered(operations::GETSID, caller, 0, pid),
        Call::Next { caller, kind, from } => match kind {
            Kind::Task => numbered(operations::NEXT, caller, choices::TASKS, from),
            Kind::Group => numbered(operations::NEXT, caller, choices::GROUPS, from),
            Kind::Session => numbered(operations::NEXT, caller, choices::SESSIONS, from),
        },
        Call::Join { caller, target } => numbered(operations::JOIN, caller, 0, target),
        Call::SetSubreaper { caller, on } => {
            numbered(operations::SUBREAPER, caller, u32::from(on), 0)
        }
    }
}
