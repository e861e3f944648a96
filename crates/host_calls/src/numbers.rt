//! What the machine says, as numbers, for C.
ghost use Rattle.std.specs.Prelude.{◌≡◌};
ghost use Rattle.host_calls.specs.CallNumbers.{put_numbers, outcome_for, call_for, numbers_of_call, host_for};
ghost use Rattle.host_calls.specs.CallNumbers.{numbers_of_host, state_for, state_number, telling_for, telling_number};

use crate::call::{CallState, HostCall};
use crate::host::HostCalls;
use crate::step::{LogOutcome, PutStep, Telling};

pub const REST: u32 = 0;

pub const OPEN: u32 = 1;

pub const TAKE: u32 = 2;

pub const SEAL: u32 = 3;

pub const PUT: u32 = 4;

pub const MADE: u32 = 0;

pub const GONE: u32 = 2;

pub const GAP: u32 = 3;

pub const QUEUED: u32 = 0;

pub const ENTERED: u32 = 1;

pub const ANSWERED: u32 = 2;

pub const NOT_KNOWN: u32 = 3;

pub const NOT_MADE: u32 = 4;

pub const CANCELLED: u32 = 5;

pub const NOTHING: u32 = 0;

pub const ANSWERS: u32 = 1;

pub const LOSSES: u32 = 2;

pub const STOPS: u32 = 3;

/// A [`HostCall`].
#[derive(Clone, Copy)]
#[repr(C)]
pub struct CallNumbers {
    pub ticket: u64,
    pub lines: u64,
    pub size: u64,
    pub deadline: u64,
    pub session: u64,
    pub sequence: u64,
    pub place: u64,
    pub state: u32,
}

/// A [`HostCalls`].
#[derive(Clone, Copy)]
#[repr(C)]
pub struct HostNumbers {
    pub submitted: u64,
    pub taken: u64,
    pub told: u64,
    pub session: u64,
    pub sequence: u64,
    pub made: u64,
    pub lines: u64,
    pub size: u64,
    pub told_session: u64,
    pub told_sequence: u64,
    pub told_to: u64,
    pub telling: u32,
    pub is_filling: bool,
    pub is_full: bool,
    pub is_putting: bool,
    pub is_stopped: bool,
}

/// What is to be put next: its kind, and the ticket of a call that has its turn, or the session and the number of an
/// entry, or zeroes.
#[derive(Clone, Copy)]
#[repr(C)]
pub struct PutNumbers {
    pub kind: u32,
    pub first: u64,
    pub second: u64,
}

/// The numbers of a step.
pub fn to_numbers(step: PutStep) -> PutNumbers
    ensures { result ≡ put_numbers step }
{
    let (kind, first, second) = match step {
        PutStep::Rest => (REST, 0, 0),
        PutStep::Open => (OPEN, 0, 0),
        PutStep::Take { ticket } => (TAKE, ticket, 0),
        PutStep::Seal => (SEAL, 0, 0),
        PutStep::Put { session, sequence } => (PUT, session, sequence),
    };
    PutNumbers {
        kind,
        first,
        second,
    }
}

/// What a number says that the log has made of an entry: one that is none of these says nothing, as a repeat does.
pub fn to_outcome(number: u32) -> LogOutcome
    ensures { result ≡ outcome_for number }
{
    match number {
        MADE => LogOutcome::Made,
        GONE => LogOutcome::Gone,
        GAP => LogOutcome::Gap,
        _ => LogOutcome::Repeated,
    }
}

/// The state of a call, by its number. One that is none of them is that of a call that is over.
fn to_state(number: u32) -> CallState
    ensures { result ≡ state_for number }
{
    match number {
        QUEUED => CallState::Queued,
        ENTERED => CallState::Entered,
        ANSWERED => CallState::Answered,
        NOT_KNOWN => CallState::NotKnown,
        NOT_MADE => CallState::NotMade,
        _ => CallState::Cancelled,
    }
}

/// The number of a state.
fn of_state(state: CallState) -> u32
    ensures { result ≡ state_number state }
{
    match state {
        CallState::Queued => QUEUED,
        CallState::Entered => ENTERED,
        CallState::Answered => ANSWERED,
        CallState::NotKnown => NOT_KNOWN,
        CallState::NotMade => NOT_MADE,
        CallState::Cancelled => CANCELLED,
    }
}

/// What is told, by its number. One that is none of them is that of nothing.
fn to_telling(number: u32) -> Telling
    ensures { result ≡ telling_for number }
{
    match number {
        ANSWERS => Telling::Answers,
        LOSSES => Telling::Losses,
        STOPS => Telling::Stops,
        _ => Telling::Nothing,
    }
}

/// The number of what is told.
fn of_telling(telling: Telling) -> u32
    ensures { result ≡ telling_number telling }
{
    match telling {
        Telling::Nothing => NOTHING,
        Telling::Answers => ANSWERS,
        Telling::Losses => LOSSES,
        Telling::Stops => STOPS,
    }
}

/// The call of these numbers.
pub fn to_call(numbers: &CallNumbers) -> HostCall
    ensures { result ≡ call_for numbers.now }
{
    HostCall {
        ticket: numbers.ticket,
        lines: numbers.lines,
        size: numbers.size,
        deadline: numbers.deadline,
        session: numbers.session,
        sequence: numbers.sequence,
        place: numbers.place,
        state: to_state(numbers.state),
    }
}

/// The numbers of a call.
pub fn of_call(call: &HostCall) -> CallNumbers
    ensures { result ≡ numbers_of_call call.now }
{
    CallNumbers {
        ticket: call.ticket,
        lines: call.lines,
        size: call.size,
        deadline: call.deadline,
        session: call.session,
        sequence: call.sequence,
        place: call.place,
        state: of_state(call.state),
    }
}

/// The host of these numbers.
pub fn to_host(numbers: &HostNumbers) -> HostCalls
    ensures { result ≡ host_for numbers.now }
{
    HostCalls {
        submitted: numbers.submitted,
        taken: numbers.taken,
        told: numbers.told,
        session: numbers.session,
        sequence: numbers.sequence,
        made: numbers.made,
        lines: numbers.lines,
        size: numbers.size,
        told_session: numbers.told_session,
        told_sequence: numbers.told_sequence,
        told_to: numbers.told_to,
        telling: to_telling(numbers.telling),
        is_filling: numbers.is_filling,
        is_full: numbers.is_full,
        is_putting: numbers.is_putting,
        is_stopped: numbers.is_stopped,
    }
}

/// The numbers of a host.
pub fn of_host(host: &HostCalls) -> HostNumbers
    ensures { result ≡ numbers_of_host host.now }
{
    HostNumbers {
        submitted: host.submitted,
        taken: host.taken,
        told: host.told,
        session: host.session,
        sequence: host.sequence,
        made: host.made,
        lines: host.lines,
        size: host.size,
        told_session: host.told_session,
        told_sequence: host.told_sequence,
        told_to: host.told_to,
        telling: of_telling(host.telling),
        is_filling: host.is_filling,
        is_full: host.is_full,
        is_putting: host.is_putting,
        is_stopped: host.is_stopped,
    }
}
