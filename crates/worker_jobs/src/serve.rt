//! A thread for each job, at one shared table: started, and joined.
ghost use Rattle.std.specs.Prelude.{◌≡◌, ℕ, ◌+◌, ◌<◌, length, vec_len, slice_index_or, IfErr, IfOk, OnOk};
ghost use Rattle.locked_table.specs.SeatState.{AreSeats};
ghost use Rattle.worker_jobs.specs.Job.{DoesJob, Fulfils, IsNoAudit, TellsGate};

use crate::desk::{Gate, SeatDesk, Turns};
use crate::fault::RunFault;
use crate::jobs::{work, work_in_turns};
use crate::result::Work;
use locked_table::{Seat, Shared};
use pid_types::call::Call;
use std::alloc::{AllocError, Global};
use std::sync::Wait;
use std::sync::ledger::Ledger;
use std::thread;
use std::thread::{Promise, PromisedHandle, Scope, Threads};
use std::time::Clock;

/// What a worker's thread hands back.
#[derive(Drop)]
pub struct Done<L: Ledger, const N: usize> {
    seat: Seat<L, N>,
    work: Result<Work, AllocError>,
}

/// The promise of a worker's thread.
#[derive(Drop)]
struct DoneOf<'a, G: Gate> {
    worker: usize,
    calls: &'a [Call],
    gate: &'a G,
}

impl<'a, L: Ledger, G: Gate, const N: usize> Promise<Done<L, N>> for DoneOf<'a, G> {
    ghost kept_by = { λ p r. (r.seat.worker ≡ p.worker)
        × IfOk r.work (λ w. Fulfils p.calls.now w.receipts.items w.refused
        × TellsGate (G.opens p.gate.now) (G.was_before p.gate.now) (G.was_after p.gate.now) p.worker p.calls.now) };
}

/// One worker's whole job, at its desk: in turns where the gate is open.
fn serve_at<D: Turns, G: Gate, R: Wait + Clock>(
    rt: &R,
    alloc: Global,
    desk: &mut D,
    gate: &G,
    worker: usize,
    calls: &[Call],
) -> Result<Work, AllocError>
    ensures does { DoesJob (D.Desk.made desk.old desk.new) (D.Desk.worker desk.old) (D.Desk.worker desk.new)
        calls.now result }
    ensures told { OnOk result
        (TellsGate (G.opens gate.now) (G.was_before gate.now) (G.was_after gate.now) worker calls.now) }
{
    if gate.is_open() {
        work_in_turns(rt, alloc, desk, calls)
    } else {
        work(rt, alloc, desk, gate, worker, calls)
    }
}

/// One worker's whole job, at the shared table.
fn serve<L: Ledger, G: Gate, R: Wait + Clock, const N: usize>(
    rt: &R,
    alloc: Global,
    shared: &Shared<L, N>,
    gate: &G,
    seat: Seat<L, N>,
    calls: &[Call],
) -> Done<L, N>
    ensures worker { result.seat.worker ≡ seat.worker }
    ensures work { IfOk result.work (λ w. Fulfils calls.now w.receipts.items w.refused) }
    ensures told { OnOk result.work
        (TellsGate (G.opens gate.now) (G.was_before gate.now) (G.was_after gate.now) seat.worker calls.now) }
    ensures counted { IfOk result.work (λ w. result.seat.calls ≡ seat.calls + length w.receipts.items) }
{
    let worker = seat.worker();
    let mut desk = SeatDesk { shared, seat };
    let work = serve_at(rt, alloc, &mut desk, gate, worker, calls);
    let SeatDesk { shared: _, seat } = desk;
    Done { seat, work }
}

/// Starts a thread of the scope that does the worker's whole job.
fn start<
    's,
    E: 's,
    L: Ledger + Send + Sync,
    G: Gate + Sync,
    R: Wait + Clock + Sync,
    const N: usize,
>(
    scope: &Scope<'s, E>,
    rt: &'s R,
    alloc: Global,
    shared: &'s Shared<L, N>,
    gate: &'s G,
    seat: Seat<L, N>,
    calls: &'s [Call],
) -> Result<PromisedHandle<Done<L, N>, DoneOf<'s, G>>, RunFault>
    ensures worker { IfOk result (λ h. h.promise.worker ≡ seat.worker) }
    ensures calls { IfOk result (λ h. h.promise.calls.now ≡ calls.now) }
    ensures gate { IfOk result (λ h. h.promise.gate.now ≡ gate.now) }
    ensures no_audit { IfErr result IsNoAudit }
{
    let worker = seat.worker();
    let promise = DoneOf {
        worker,
        calls,
        gate,
    };
    let job = move || -> Done<L, N>
        ensures { (result.seat.worker ≡ seat.worker)
            × IfOk result.work (λ w. Fulfils calls.entry.now w.receipts.items w.refused
            × TellsGate (G.opens gate.entry.now) (G.was_before gate.entry.now) (G.was_after gate.entry.now) seat.worker
            calls.entry.now) }
    { serve(rt, alloc, shared, gate, seat, calls) };
    match scope.spawn_with(promise, job) {
        Ok(child) => Ok(child),
        Err(_) => Err(RunFault::Start),
    }
}

/// Starts a thread of the scope for each job, in the order of the workers.
fn start_all<
    's,
    E: 's,
    L: Ledger + Send + Sync,
    G: Gate + Sync,
    R: Wait + Clock + Sync,
    const N: usize,
>(
    scope: &Scope<'s, E>,
    rt: &'s R,
    alloc: Global,
    shared: &'s Shared<L, N>,
    gate: &'s G,
    seats: Vec<Seat<L, N>>,
    jobs: &'s [Vec<Call>],
) -> Result<Vec<PromisedHandle<Done<L, N>, DoneOf<'s, G>>>, RunFault>
    requires seats { AreSeats N seats.items }
    requires jobs { length jobs.now ≡ N }
    ensures len { IfOk result (λ handles. vec_len handles ≡ N) }
    ensures worker { IfOk result (λ handles. (k : ℕ) (d : _) → k < N
        → (slice_index_or handles.items k d).promise.worker ≡ k) }
    ensures calls { IfOk result (λ handles. (k : ℕ) (d : _) (j : _) → k < N
        → (slice_index_or handles.items k d).promise.calls.now ≡ (slice_index_or jobs.now k j).items) }
    ensures gate { IfOk result (λ handles. (k : ℕ) (d : _) → k < N
        → (slice_index_or handles.items k d).promise.gate.now ≡ gate.now) }
    ensures no_audit { IfErr result IsNoAudit }
{
    let mut handles = Vec::with_capacity(alloc, jobs.len())?;
    let mut worker = 0usize;
    for seat in seats {
        let calls = jobs[worker].as_slice();
        let child = start(scope, rt, alloc, shared, gate, seat, calls)?;
        handles.push_reserved(child);
        worker += 1;
    }
    Ok(handles)
}

/// Runs each job in a thread of its own, and joins them all.
fn serve_all<
    L: Ledger + Send + Sync,
    G: Gate + Sync,
    R: Threads + Wait + Clock + Sync,
    const N: usize,
>(
    rt: &R,
    alloc: Global,
    shared: &Shared<L, N>,
    gate: &G,
    seats: Vec<Seat<L, N>>,
    jobs: &[Vec<Call>],
) -> Result<Vec<Done<L, N>>, RunFault>
    requires seats { AreSeats N seats.items }
    requires jobs { length jobs.now ≡ N }
    ensures len { IfOk result (λ dones. vec_len dones ≡ N) }
    ensures each { IfOk result (λ dones. (w : ℕ) (d : _) (j : _) → w < N
        → ((slice_index_or dones.items w d).seat.worker ≡ w)
        × IfOk (slice_index_or dones.items w d).work (λ x. Fulfils
        (slice_index_or jobs.now w j).items x.receipts.items x.refused
        × TellsGate (G.opens gate.now) (G.was_before gate.now) (G.was_after gate.now) w
        (slice_index_or jobs.now w j).items)) }
    ensures no_audit { IfErr result IsNoAudit }
{
    thread::scope(
        thread::scope_env(),
        rt,
        |scope| -> Result<Vec<Done<L, N>>, RunFault>
            requires { AreSeats N seats.items × (length jobs.now ≡ N) }
            ensures { IfOk result (λ dones. (vec_len dones ≡ N)
                × ((w : ℕ) (d : _) (j : _) → w < N
                → ((slice_index_or dones.items w d).seat.worker ≡ w)
                × IfOk (slice_index_or dones.items w d).work
                (λ x. Fulfils (slice_index_or jobs.entry.now w j).items x.receipts.items x.refused
                × TellsGate (G.opens gate.entry.now) (G.was_before gate.entry.now) (G.was_after gate.entry.now) w
                (slice_index_or jobs.entry.now w j).items)))
                × IfErr result IsNoAudit }
        {
            let handles = start_all(scope, rt, alloc, shared, gate, seats, jobs)?;
            match thread::join_promised(rt, handles) {
                Ok(dones) => Ok(dones),
                Err(_) => Err(RunFault::NoMemory),
            }
        },
    )
}

/// Splits the results into seats and works, in the order of the workers. The error comes where
/// there is no memory, here or for some worker's receipts.
fn part<L: Ledger, const N: usize>(
    alloc: Global,
    dones: Vec<Done<L, N>>,
) -> Result<(Vec<Seat<L, N>>, Vec<Work>), AllocError>
    ensures len { IfOk result (λ r. (vec_len r.0 ≡ vec_len dones) × (vec_len r.1 ≡ vec_len dones)) }
    ensures seats { IfOk result (λ r. (w : ℕ) (d : _) (e : _) → w < vec_len dones
        → slice_index_or r.0.items w d ≡ (slice_index_or dones.items w e).seat) }
    ensures works { IfOk result (λ r. (w : ℕ) (d : _) (e : _) → w < vec_len dones
        → (slice_index_or dones.items w e).work ≡ Ok (slice_index_or r.1.items w d)) }
{
    let mut seats = Vec::with_capacity(alloc, dones.len())?;
    let mut works = Vec::with_capacity(alloc, dones.len())?;
    for done in dones {
        let Done { seat, work } = done;
        seats.push_reserved(seat);
        works.push_reserved(work?);
    }
    Ok((seats, works))
}

/// Runs each job in a thread of its own at the shared table, and joins them all. It hands back the seats, and what
/// came of each job, in the order of the workers.
pub fn serve_jobs<
    L: Ledger + Send + Sync,
    G: Gate + Sync,
    R: Threads + Wait + Clock + Sync,
    const N: usize,
>(
    rt: &R,
    alloc: Global,
    shared: &Shared<L, N>,
    gate: &G,
    seats: Vec<Seat<L, N>>,
    jobs: &[Vec<Call>],
) -> Result<(Vec<Seat<L, N>>, Vec<Work>), RunFault>
    requires seats { AreSeats N seats.items }
    requires some { 0 < N }
    requires jobs { length jobs.now ≡ N }
    ensures seats { IfOk result (λ r. AreSeats N r.0.items) }
    ensures works { IfOk result (λ r. vec_len r.1 ≡ N) }
    ensures jobs { IfOk result (λ r. (w : ℕ) (d : _) (j : _) → w < N
        → Fulfils (slice_index_or jobs.now w j).items (slice_index_or r.1.items w d).receipts.items
        (slice_index_or r.1.items w d).refused) }
    ensures told { OnOk result ((w : ℕ) (j : _) → w < N
        → TellsGate (G.opens gate.now) (G.was_before gate.now) (G.was_after gate.now) w
        (slice_index_or jobs.now w j).items) }
    ensures no_audit { IfErr result IsNoAudit }
{
    let dones = serve_all(rt, alloc, shared, gate, seats, jobs)?;
    let (seats, works) = part(alloc, dones)?;
    Ok((seats, works))
}
