//! What a call did to others, each in one struct.
ghost use Rattle.std.specs.Prelude.{◌≡◌};
ghost use Rattle.foreign_numbers.specs.Effects.{effect_numbers, end_number};

use crate::choices::{ADOPTED, ENDED, GONE, GROUP_GONE, SESSION_GONE, SPACE_FELL, SPACE_GONE};
use crate::kinds::KILLED;
use call_effects::effect::Effect;
use pid_types::plain::Ended;

/// What a call did to a task, a process group, a session or a namespace.
///
/// | Field | What it tells |
/// |---|---|
/// | `what` | `ENDED` to `SPACE_GONE` of `choices` |
/// | `number` | its root number; 0 of a namespace |
/// | `value` | how a task ended, 0 to 255 or `KILLED`; its new parent's root number; a namespace's id; else 0 |
#[repr(C)]
#[derive(Clone, Copy)]
pub struct EffectNumbers {
    pub what: u32,
    pub number: u32,
    pub value: u64,
}

impl EffectNumbers {
    /// With these numbers.
    fn of(what: u32, number: u32, value: u64) -> EffectNumbers
        ensures { result ≡ record { what = what; number = number; value = value } }
    {
        EffectNumbers {
            what,
            number,
            value,
        }
    }
}

/// How a task ended, as a number.
fn tell_end(end: Ended) -> u64
    ensures { result ≡ end_number end }
{
    match end {
        Ended::Exited(status) => u64::from(status),
        Ended::Killed => KILLED,
    }
}

/// What is told of an effect.
pub fn tell_effect(effect: &Effect) -> EffectNumbers
    ensures { result ≡ effect_numbers effect.now }
{
    match *effect {
        Effect::Ended { number, end } => EffectNumbers::of(ENDED, number, tell_end(end)),
        Effect::Adopted { number, parent } => {
            EffectNumbers::of(ADOPTED, number, u64::from(parent))
        }
        Effect::Gone { number } => EffectNumbers::of(GONE, number, 0),
        Effect::GroupGone { number } => EffectNumbers::of(GROUP_GONE, number, 0),
        Effect::SessionGone { number } => EffectNumbers::of(SESSION_GONE, number, 0),
        Effect::SpaceFell { id } => EffectNumbers::of(SPACE_FELL, 0, id),
        Effect::SpaceGone { id } => EffectNumbers::of(SPACE_GONE, 0, id),
    }
}
