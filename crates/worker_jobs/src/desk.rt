//! Where a worker makes its calls, and what may hold it.
ghost use Rattle.std.specs.Prelude.{◌≡◌, ◌≤◌, ◌+◌, ◌++◌, ◌∷◌, [], ℕ, Bool, false, List, length, vec_capacity, IfOk, ⊤};
ghost use Rattle.worker_jobs.specs.Job.{Answered, IsServed};

use crate::held::HeldDesk;
use crate::jobs::make_calls;
use locked_table::{Receipt, Seat, Shared};
use pid_types::call::Call;
use pid_types::reply::CallFault;
use std::sync::Wait;
use std::sync::ledger::Ledger;
use std::time::Clock;

/// Takes a worker's calls, one at a time.
///
/// From one moment to a later one a desk has a history: the calls that were made at it, in order, each
/// with its answer. What an impl keeps of it is its own choice, but code that is generic over the desk
/// can show a history by making just those calls.
pub trait Desk {
    // Whose calls it takes.
    ghost worker: { Self → ℕ };
    // From the first moment to the second these calls were made, in order, and answered so.
    ghost made: { Self → Self → List Answered → Type 0 };

    /// Makes the call. The receipt holds the call handed in. It may wait.
    fn call<R: Wait>(&mut self, rt: &R, call: Call) -> Result<Receipt, CallFault>
        ensures call { IfOk result (λ r. r.call ≡ call) }
        ensures worker { worker self.new ≡ worker self.old }
        ensures made { made self.old self.new ((call, result) ∷ []) };

    // No call, no change.
    ghost made_none: { (a : Self) → made a a [] };
    // Calls, and then more.
    ghost made_more: { (a b c : Self) (xs ys : List Answered) → made a b xs → made b c ys → made a c (xs ++ ys) };
}

/// A desk that takes several calls in one go, and lets no other worker in between.
pub(crate) trait Turns: Desk {
    /// Makes the calls in order, and adds the receipt of each call that has one. It returns how many have none.
    fn turn<R: Wait + Clock>(&mut self, rt: &R, calls: &[Call], receipts: &mut Vec<Receipt>) -> u64
        requires room { length receipts.old.items + length calls.now ≤ vec_capacity receipts.old }
        ensures room { vec_capacity receipts.old ≤ vec_capacity receipts.new }
        ensures worker { Self.worker self.new ≡ Self.worker self.old }
        ensures made { (answers : List Answered) × Self.made self.old self.new answers
            × IsServed calls.now answers receipts.old.items receipts.new.items result };
}

/// Is told before and after each call of a worker, and may hold the worker there. The calls of a
/// worker are counted from 1.
///
/// The workers share a gate, so no contract can say in which order it was told. It can say that the gate
/// was told, which only code that has told it can show.
pub trait Gate {
    // It was told that the worker's k-th call comes.
    ghost was_before: { Self → ℕ → ℕ → Type 0 } = { λ _ _ _. ⊤ };
    // It was told that the worker's k-th call was answered.
    ghost was_after: { Self → ℕ → ℕ → Type 0 } = { λ _ _ _. ⊤ };

    /// Comes before the k-th call of the worker.
    fn before<R: Wait + Clock>(&self, rt: &R, worker: usize, k: u64)
        ensures { was_before self.now worker k };

    /// Comes when the k-th call of the worker was answered.
    fn after<R: Wait + Clock>(&self, rt: &R, worker: usize, k: u64)
        ensures { was_after self.now worker k };

    // Whether it never holds a worker.
    ghost opens: { Self → Bool } = { λ _. false };

    /// Whether it never holds a worker. Then a thread makes its worker's calls in turns, and tells it of none.
    fn is_open(&self) -> bool
        ensures { result ≡ opens self.now };
}

/// A gate that holds nobody.
#[derive(Clone, Copy, Debug)]
pub struct OpenGate;

impl Gate for OpenGate {
    ghost use Rattle.std.specs.Prelude.{true};

    ghost opens = { λ _. true };

    fn before<R: Wait + Clock>(&self, _rt: &R, _worker: usize, _k: u64) {}

    fn after<R: Wait + Clock>(&self, _rt: &R, _worker: usize, _k: u64) {}

    fn is_open(&self) -> bool {
        true
    }
}

/// A desk at a shared table, by a seat of its own.
#[derive(Drop)]
pub struct SeatDesk<'a, L: Ledger, const N: usize> {
    pub shared: &'a Shared<L, N>,
    pub seat: Seat<L, N>,
}

impl<'a, L: Ledger, const N: usize> Desk for SeatDesk<'a, L, N> {
    ghost use Rattle.worker_jobs.specs.AtSeat.{HasCounted, counted_none, counted_more};

    ghost worker = { λ d. d.seat.worker };

    ghost made = { λ a b answers. HasCounted a.seat b.seat answers };

    ghost made_none = { λ a. counted_none a.seat };

    ghost made_more = { λ a b c xs ys p q. counted_more a.seat b.seat c.seat xs ys p q };

    fn call<R: Wait>(&mut self, rt: &R, call: Call) -> Result<Receipt, CallFault> {
        self.shared.call(rt, &mut self.seat, call)
    }
}

impl<'a, L: Ledger, const N: usize> Turns for SeatDesk<'a, L, N> {
    fn turn<R: Wait + Clock>(
        &mut self,
        rt: &R,
        calls: &[Call],
        receipts: &mut Vec<Receipt>,
    ) -> u64 {
        let worker = self.seat.worker();
        let mut guard = self.shared.lock(rt);
        let mut desk = HeldDesk::new(&mut guard, &mut self.seat);
        make_calls(rt, &mut desk, &OpenGate, worker, calls, receipts)
    }
}
