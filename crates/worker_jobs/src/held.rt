//! A worker's desk at a record that is in hand.
ghost use Rattle.std.specs.Prelude.{◌≡◌};

use crate::desk::Desk;
use locked_table::{Receipt, Record, Seat};
use pid_types::call::Call;
use pid_types::reply::CallFault;
use std::sync::Wait;
use std::sync::ledger::Ledger;

/// A worker's desk at a record that its guard lends: nobody else has the record meanwhile.
#[derive(Drop)]
pub(crate) struct HeldDesk<'a, L: Ledger, const N: usize> {
    record: &'a mut Record<L, N>,
    pub(crate) seat: &'a mut Seat<L, N>,
}

impl<'a, L: Ledger, const N: usize> HeldDesk<'a, L, N> {
    pub(crate) fn new(record: &'a mut Record<L, N>, seat: &'a mut Seat<L, N>) -> HeldDesk<'a, L, N>
        ensures same { result.seat.ghost_name ≡ seat.entry.ghost_name }
        ensures now { result.seat.now ≡ seat.old }
    {
        HeldDesk { record, seat }
    }
}

impl<'a, L: Ledger, const N: usize> Desk for HeldDesk<'a, L, N> {
    ghost use Rattle.std.proofs.Common.{◌∙◌, refl};
    ghost use Rattle.worker_jobs.specs.AtSeat.{HasCounted, counted_none, counted_more};

    ghost worker = { λ d. d.seat.now.worker };

    ghost made = { λ a b answers. (b.seat.ghost_name ≡ a.seat.ghost_name) × HasCounted a.seat.now b.seat.now answers };

    ghost made_none = { λ a. (refl, counted_none a.seat.now) };

    ghost made_more = { λ a b c xs ys p q.
        (q.0 ∙ p.0, counted_more a.seat.now b.seat.now c.seat.now xs ys p.1 q.1) };

    fn call<R: Wait>(&mut self, _rt: &R, call: Call) -> Result<Receipt, CallFault> {
        self.record.act(self.seat, call)
    }
}
