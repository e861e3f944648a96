//! The machine for who is not written in this language. C holds a [`Turns`], and these functions alone change it.
ghost use Rattle.std.specs.Prelude.{◌≡◌, ◌↔◌, true, false, IsTrue, MatchBool};
ghost use Rattle.log_turns.specs.{Numbers.{AreNext}, Turning.{begun_at, TakesCall, took, DoesNext, FailsNext}};
ghost use Rattle.log_turns.specs.Turning.{wants_turn, synced_to, may_drop_of};

use crate::numbers::{StepNumbers, to_numbers};
use crate::turns::Turns;

/// [`Turns::begin`].
#[unsafe(no_mangle)]
pub extern "C" fn log_turns_begin(
    turns: &mut Turns,
    calls: u64,
    size: u64,
    is_always: bool,
    is_named: bool,
)
    ensures { turns.new ≡ begun_at calls size is_always is_named }
{
    *turns = Turns::begin(calls, size, is_always, is_named);
}

/// [`Turns::take`].
#[unsafe(no_mangle)]
pub extern "C" fn log_turns_take(turns: &mut Turns, size: u64) -> bool
    ensures when { IsTrue result ↔ TakesCall size turns.old }
    ensures becomes { MatchBool result (turns.new ≡ took size turns.old) (turns.new ≡ turns.old) }
{
    turns.take(size)
}

/// [`Turns::next`].
#[unsafe(no_mangle)]
pub extern "C" fn log_turns_next(turns: &Turns, step: &mut StepNumbers)
    ensures { AreNext turns.now step.new }
{
    *step = to_numbers(turns.next());
}

/// [`Turns::done`].
#[unsafe(no_mangle)]
pub extern "C" fn log_turns_done(turns: &mut Turns, size: u64)
    ensures { DoesNext size turns.old turns.new }
{
    turns.done(size);
}

/// [`Turns::failed`].
#[unsafe(no_mangle)]
pub extern "C" fn log_turns_failed(turns: &mut Turns)
    ensures { FailsNext turns.old turns.new }
{
    turns.failed();
}

/// [`Turns::retry`].
#[unsafe(no_mangle)]
pub extern "C" fn log_turns_retry(turns: &mut Turns)
    ensures { turns.new ≡ record turns.old { is_stuck = false } }
{
    turns.retry();
}

/// [`Turns::turn`].
#[unsafe(no_mangle)]
pub extern "C" fn log_turns_turn(turns: &mut Turns)
    ensures { turns.new ≡ wants_turn turns.old }
{
    turns.turn();
}

/// [`Turns::stop`].
#[unsafe(no_mangle)]
pub extern "C" fn log_turns_stop(turns: &mut Turns)
    ensures { turns.new ≡ record turns.old { is_stopping = true } }
{
    turns.stop();
}

/// [`Turns::sync_to`].
#[unsafe(no_mangle)]
pub extern "C" fn log_turns_sync_to(turns: &mut Turns, place: u64)
    ensures { turns.new ≡ synced_to place turns.old }
{
    turns.sync_to(place);
}

/// [`Turns::lose`].
#[unsafe(no_mangle)]
pub extern "C" fn log_turns_lose(turns: &mut Turns)
    ensures { turns.new ≡ record turns.old { is_lost = true } }
{
    turns.lose();
}

/// [`Turns::name`].
#[unsafe(no_mangle)]
pub extern "C" fn log_turns_name(turns: &mut Turns)
    ensures { turns.new ≡ record turns.old { is_named = true } }
{
    turns.name();
}

/// [`Turns::compact`].
#[unsafe(no_mangle)]
pub extern "C" fn log_turns_compact(turns: &mut Turns)
    ensures { turns.new ≡ record turns.old { has_snapshot = true } }
{
    turns.compact();
}

/// [`Turns::may_drop`].
#[unsafe(no_mangle)]
pub extern "C" fn log_turns_may_drop(turns: &Turns) -> bool
    ensures { result ≡ may_drop_of turns.now }
{
    turns.may_drop()
}

/// [`Turns::rest`].
#[unsafe(no_mangle)]
pub extern "C" fn log_turns_rest(turns: &mut Turns)
    ensures { turns.new ≡ record turns.old { is_compacting = false } }
{
    turns.rest();
}
