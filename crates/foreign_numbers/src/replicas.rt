//! What is told of a replica and of its log, each in one struct.
ghost use Rattle.std.specs.Prelude.{◌≡◌};
ghost use Rattle.foreign_numbers.specs.Replicas.{applied_numbers, fault_status, head_status, log_numbers};
ghost use Rattle.foreign_numbers.specs.Replicas.{outcome_number};

use crate::choices::{ENTRY_GAP, ENTRY_GONE, ENTRY_MADE, ENTRY_NOTED, ENTRY_REPEATED};
use crate::status::{
    BAD_TEXT, DIVERGED, MISSING, NO_ENTRY, NO_MEMORY, NOT_RECOVERABLE, NOT_RISING, OTHER_SETTINGS,
};
use replica::outcome::{Applied, Outcome, ReplicaFault};
use replica::replica::Replica;
use replica::snapshot::HeadFault;

/// What became of an entry of a log.
///
/// | Field | What it tells |
/// |---|---|
/// | `outcome` | `ENTRY_NOTED` to `ENTRY_GAP` of `choices` |
/// | `session` | the session of its calls; 0 of another entry |
/// | `sequence` | the number of its calls in that session; 0 of another entry |
/// | `size` | how many bytes its answers have |
#[repr(C)]
#[derive(Clone, Copy)]
pub struct AppliedNumbers {
    pub outcome: u32,
    pub session: u64,
    pub sequence: u64,
    pub size: u64,
}

/// What a replica knows of its log.
///
/// | Field | What it tells |
/// |---|---|
/// | `form` | the form of the log's settings, 1 or 2; 0 before the log has begun |
/// | `pid_max` | the bound of all numbers of the table |
/// | `model` | the model by which lines are answered |
/// | `position` | that of the last entry that was applied; 0 before the first |
/// | `calls` | how many lines were made, up to 2^64 - 1 |
/// | `begun` | 1 behind the settings of the log; else 0 |
/// | `lost` | 1 where there was no memory amid an entry; else 0 |
#[repr(C)]
#[derive(Clone, Copy)]
pub struct LogNumbers {
    pub form: u64,
    pub pid_max: u64,
    pub model: u64,
    pub position: u64,
    pub calls: u64,
    pub begun: u32,
    pub lost: u32,
}

/// A digest of 32 bytes.
#[repr(C)]
#[derive(Clone, Copy)]
pub struct DigestBytes {
    pub bytes: [u8; 32],
}

/// The number of an outcome.
fn tell_outcome(outcome: Outcome) -> u32
    ensures { result ≡ outcome_number outcome }
{
    match outcome {
        Outcome::Noted => ENTRY_NOTED,
        Outcome::Made => ENTRY_MADE,
        Outcome::Repeated => ENTRY_REPEATED,
        Outcome::Gone => ENTRY_GONE,
        Outcome::Gap => ENTRY_GAP,
    }
}

/// What is told of an entry that was applied, whose answers have so many bytes.
pub fn tell_applied(applied: &Applied, size: usize) -> AppliedNumbers
    ensures { result ≡ applied_numbers applied.now size }
{
    AppliedNumbers {
        outcome: tell_outcome(applied.outcome),
        session: applied.session,
        sequence: applied.sequence,
        size: size as u64,
    }
}

/// What is told of a log.
pub fn tell_log(replica: &Replica) -> LogNumbers
    ensures { result ≡ log_numbers replica.now }
{
    LogNumbers {
        form: replica.form(),
        pid_max: replica.pid_max(),
        model: replica.model(),
        position: replica.position(),
        calls: replica.calls(),
        begun: u32::from(replica.is_begun()),
        lost: u32::from(replica.is_torn()),
    }
}

/// The status of an entry that is not applied.
pub fn status_of_entry(fault: ReplicaFault) -> u32
    ensures { result ≡ fault_status fault }
{
    match fault {
        ReplicaFault::NotRising => NOT_RISING,
        ReplicaFault::NoEntry => NO_ENTRY,
        ReplicaFault::OtherSettings => OTHER_SETTINGS,
        ReplicaFault::Missing => MISSING,
        ReplicaFault::Diverged => DIVERGED,
        ReplicaFault::NoMemory => NO_MEMORY,
        ReplicaFault::Torn => NOT_RECOVERABLE,
    }
}

/// The status of the head of a snapshot that is not read.
pub fn status_of_head(fault: HeadFault) -> u32
    ensures { result ≡ head_status fault }
{
    match fault {
        HeadFault::NoSnapshot => BAD_TEXT,
        HeadFault::OtherSettings => OTHER_SETTINGS,
        HeadFault::NoMemory => NO_MEMORY,
    }
}
