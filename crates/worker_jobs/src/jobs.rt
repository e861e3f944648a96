//! One worker's job: calls made in order, at any desk. [`crate::run_workers`] has each worker's
//! thread call [`work`], or [`work_in_turns`] where the gate is open; a test may call [`work`] at a desk of its own.
ghost use Rattle.std.specs.Prelude.{◌≡◌, ◌+◌, ◌≤◌, ◌<◌, ℕ, List, length, vec_capacity, OnOk, OnErr};
ghost use Rattle.worker_jobs.specs.Job.{Answered, DoesJob, IsServed};

use crate::desk::{Desk, Gate, Turns};
use crate::result::Work;
use locked_table::Receipt;
use pid_types::call::Call;
use std::alloc::{AllocError, Global};
use std::sync::Wait;
use std::time::Clock;

/// As many calls as a worker makes in one turn.
const CALLS_IN_A_TURN: usize = 64;

/// Makes the calls in order, each between the gate's `before` and `after`, adds the receipts, and counts the calls that
/// get none.
pub(crate) fn make_calls<D: Desk, G: Gate, R: Wait + Clock>(
    rt: &R,
    desk: &mut D,
    gate: &G,
    worker: usize,
    calls: &[Call],
    receipts: &mut Vec<Receipt>,
) -> u64
    requires room { length receipts.old.items + length calls.now ≤ vec_capacity receipts.old }
    ensures room { vec_capacity receipts.old ≤ vec_capacity receipts.new }
    ensures made { (answers : List Answered) × D.made desk.old desk.new answers
        × IsServed calls.now answers receipts.old.items receipts.new.items result }
    ensures told { (i : ℕ) → i < length calls.now
        → G.was_before gate.now worker (i + 1) × G.was_after gate.now worker (i + 1) }
    ensures worker { D.worker desk.new ≡ D.worker desk.old }
{
    let mut refused = 0u64;
    for (i, call) in calls.iter().enumerate() {
        let k = i as u64 + 1;
        gate.before(rt, worker, k);
        match desk.call(rt, *call) {
            Ok(receipt) => receipts.push_reserved(receipt),
            Err(_) => refused += 1,
        }
        gate.after(rt, worker, k);
    }
    refused
}

/// Makes the calls in order, each between the gate's `before` and `after`, and counts those that
/// get no receipt. It makes no call if there is no memory for the receipts.
pub fn work<D: Desk, G: Gate, R: Wait + Clock>(
    rt: &R,
    alloc: Global,
    desk: &mut D,
    gate: &G,
    worker: usize,
    calls: &[Call],
) -> Result<Work, AllocError>
    ensures does { DoesJob (D.made desk.old desk.new) (D.worker desk.old) (D.worker desk.new) calls.now result }
    ensures told { OnOk result ((i : ℕ) → i < length calls.now
        → G.was_before gate.now worker (i + 1) × G.was_after gate.now worker (i + 1)) }
    ensures untouched { OnErr result (desk.new ≡ desk.old) }
{
    let mut receipts = Vec::with_capacity(alloc, calls.len())?;
    let refused = make_calls(rt, desk, gate, worker, calls, &mut receipts);
    Ok(Work { receipts, refused })
}

/// Makes the calls in order, as [`work`] does, in turns of 64: so a worker takes the lock once for each 64. It makes no
/// call if there is no memory for the receipts.
pub(crate) fn work_in_turns<D: Turns, R: Wait + Clock>(
    rt: &R,
    alloc: Global,
    desk: &mut D,
    calls: &[Call],
) -> Result<Work, AllocError>
    ensures does { DoesJob (D.Desk.made desk.old desk.new) (D.Desk.worker desk.old) (D.Desk.worker desk.new)
        calls.now result }
    ensures untouched { OnErr result (desk.new ≡ desk.old) }
{
    let mut receipts = Vec::with_capacity(alloc, calls.len())?;
    let mut refused = 0u64;
    for turn in calls.chunks(CALLS_IN_A_TURN) {
        refused += desk.turn(rt, turn, &mut receipts);
    }
    Ok(Work { receipts, refused })
}
