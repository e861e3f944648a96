//! Laws of single calls: numbers, refusals, limits, and that no number is handed out twice.
ghost use Rattle.{
  model_laws.specs.{Draws.{DrawIsLeast}, LimitLaws.{ForkKeepsLimits, RunsKeepLimits, ThreadKeepsLimits}},
  model_laws.specs.NumberLaws.{NamesHaveNumbers, NoNumberNamesTwo, NumberIsAtLevel, NumbersFromLevel},
  model_laws.specs.NumberLaws.{LevelsAreBounded, SoundNeedsNoSweep, SweepKeepsNumbered},
  model_laws.specs.Refusals.{FirstRefusalAnswers, FirstThreadRefusalAnswers, NoneYetChangesNothing},
  model_laws.specs.Refusals.{QueryChangesNothing, RefusalChangesNothing},
  model_laws.specs.ReuseLaws.{NoReuse, ThreadReusesNoNumber},
};

/// A namespace gives the least free number from its cursor on, or else from the restart on.
#[tactic(auto, using(crate::proofs::Draws::draw_is_least))]
pub fn draw_is_least()
    ensures { DrawIsLeast }
{}

/// A name's number in a namespace on its path is its entry at the level of that namespace.
#[tactic(auto, using(crate::proofs::Levels::number_is_at_level))]
pub fn number_is_at_level()
    ensures { NumberIsAtLevel }
{}

/// A name's numbers from a namespace on its path inwards are its entries from the level of that namespace on.
#[tactic(auto, using(crate::proofs::Levels::numbers_are_from_level))]
pub fn numbers_are_from_level()
    ensures { NumbersFromLevel }
{}

/// In a sound state each name in use has one number in each namespace from its own to the root, and
/// no number there names two.
#[tactic(auto, using(crate::proofs::Levels::names_have_numbers))]
pub fn numbers_are_apart()
    ensures each { NamesHaveNumbers }
    ensures apart { NoNumberNamesTwo }
{}

/// In a sound state no path to the root is longer than namespaces and control groups may be deep.
#[tactic(auto, using(crate::proofs::Levels::levels_bounded))]
pub fn levels_are_bounded()
    ensures { LevelsAreBounded }
{}

/// The sweep takes no namespace in which a name in use has a number, and in a sound state nothing.
#[tactic(auto, using(crate::proofs::Levels::sweep_keeps_numbered, crate::proofs::Levels::sound_needs_no_sweep))]
pub fn sweep_keeps_numbered()
    ensures numbered { SweepKeepsNumbered }
    ensures sound { SoundNeedsNoSweep }
{}

/// A call is refused exactly where a refusal applies, by the first one in its order.
#[tactic(auto, using(crate::proofs::Refusals::first_step, crate::proofs::Refusals::first_thread_step))]
pub fn first_refusal_answers()
    ensures call { FirstRefusalAnswers }
    ensures threads { FirstThreadRefusalAnswers }
{}

/// A refused call, a query and a wait that reaps nothing leave the state as it was.
pub fn nothing_changes()
    ensures refusal { RefusalChangesNothing }
    ensures query { QueryChangesNothing }
    ensures none_yet { NoneYetChangesNothing }
{}

/// No fork and no new thread raises a count above its limit, in one call and in every run.
pub fn forks_keep_limits()
    ensures call { ForkKeepsLimits }
    ensures thread { ThreadKeepsLimits }
    ensures run { RunsKeepLimits }
{}

/// While a name is in use, no fork makes a task with one of its numbers in the same namespace.
pub fn no_reuse()
    ensures { NoReuse }
{}

/// In a sound state a new thread shares no number with a name that is in use.
pub fn threads_reuse_no_number()
    ensures { ThreadReusesNoNumber }
{}
