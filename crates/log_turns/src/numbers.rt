//! A step as numbers, for C.
ghost use Rattle.std.specs.Prelude.{◌≡◌};
ghost use Rattle.log_turns.specs.Numbers.{step_numbers};

use crate::step::Step;

pub const REST: u32 = 0;

pub const WAIT: u32 = 1;

pub const LOST: u32 = 2;

pub const ENDED: u32 = 3;

pub const CUT: u32 = 4;

pub const WRITE: u32 = 5;

pub const SYNC: u32 = 6;

pub const ANSWER: u32 = 7;

pub const CLOSE: u32 = 8;

pub const BEGIN: u32 = 9;

pub const UNDO: u32 = 10;

/// A step: its kind, and its place and its count, or zeroes.
#[derive(Clone, Copy)]
#[repr(C)]
pub struct StepNumbers {
    pub kind: u32,
    pub place: u64,
    pub count: u64,
}

/// The numbers of a step.
pub fn to_numbers(step: Step) -> StepNumbers
    ensures { result ≡ step_numbers step }
{
    let (kind, place, count) = match step {
        Step::Rest => (REST, 0, 0),
        Step::Wait => (WAIT, 0, 0),
        Step::Lost => (LOST, 0, 0),
        Step::Ended => (ENDED, 0, 0),
        Step::Cut { to } => (CUT, to, 0),
        Step::Write { at, size } => (WRITE, at, size),
        Step::Sync => (SYNC, 0, 0),
        Step::Answer { calls } => (ANSWER, 0, calls),
        Step::Close => (CLOSE, 0, 0),
        Step::Begin { first } => (BEGIN, 0, first),
        Step::Undo => (UNDO, 0, 0),
    };
    StepNumbers { kind, place, count }
}
