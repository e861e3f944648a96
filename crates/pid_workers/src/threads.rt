//! All workers, one thread for each: started, joined, and audited.
//!
//! [`run_workers`] is the one door. It takes the jobs as lists of calls, so what a job makes cannot
//! be named later in it but by luck: ids and numbers depend on which worker comes first.
ghost use Rattle.std.specs.Prelude.{◌≡◌, ◌≢◌, false, ℕ, ◌<◌, length, vec_len, IfErr, IfOk, OnOk};
ghost use Rattle.worker_jobs.specs.{Job.{IsNoAudit}, Receipts.{IsAudited}};
ghost use Rattle.pid_workers.specs.Audits.{AreFulfilled, HasDiscrepancy, TellsAudit, TellsGateOfEach};

use locked_table::{Record, Shared};
use pid_types::call::Call;
use pid_types::config::Config;
use std::alloc::Global;
use std::sync::Wait;
use std::sync::ledger::{Blank, Ledger};
use std::thread::Threads;
use std::time::Clock;
use worker_jobs::{Audit, Gate, RunFault, Work, audit, serve_jobs};

/// The record that the workers leave, and what came of each job, in the order of the jobs.
#[derive(Drop)]
pub struct Finished<L: Ledger, const N: usize> {
    pub kept: Record<L, N>,
    pub works: Vec<Work>,
}

/// Runs each job in a thread of its own, over one table made with the configuration, and joins them
/// all. Nothing is looked at of what they leave. The errors are those of [`run_workers`], but for
/// [`RunFault::Audit`].
fn finish_all<
    L: Ledger + Send + Sync,
    G: Gate + Sync,
    R: Threads + Wait + Clock + Sync,
    const N: usize,
>(
    rt: &R,
    alloc: Global,
    blank: Blank,
    config: &Config,
    jobs: &[Vec<Call>],
    gate: &G,
) -> Result<Finished<L, N>, RunFault>
    requires name { blank.name ≡ L.name }
    requires parts { (blank.parts ≡ L.parts) × (L.parts ≡ N) × (0 < N) }
    requires jobs { length jobs.now ≡ N }
    ensures works { IfOk result (λ f. vec_len f.works ≡ N) }
    ensures jobs { IfOk result (λ f. AreFulfilled jobs.now f.works.items) }
    ensures told { OnOk result (TellsGateOfEach (G.opens gate.now) (G.was_before gate.now) (G.was_after gate.now)
        jobs.now) }
    ensures no_audit { IfErr result IsNoAudit }
{
    let (shared, seats) = Shared::<L, N>::open(alloc, blank, config)?;
    let (seats, works) = serve_jobs(rt, alloc, &shared, gate, seats, jobs)?;
    let kept = shared.close(seats);
    Ok(Finished { kept, works })
}

/// Whether the record began with the configuration's root state, its history is kept from its first call on, and
/// each worker's receipts are its entries there. The error is a [`RunFault::Audit`]: of the least worker and the
/// first place that differ, or of worker 0 and place 0 where the record is not such a one.
fn check_finished<L: Ledger, const N: usize>(
    finished: &Finished<L, N>,
    config: &Config,
) -> Result<(), RunFault>
    requires { vec_len finished.now.works ≡ N }
    ensures config { OnOk result (finished.now.kept.config ≡ config.now) }
    ensures fresh { OnOk result (finished.now.kept.is_resumed ≡ false) }
    ensures kept { OnOk result (finished.now.kept.first_kept ≡ 0) }
    ensures audited { OnOk result (IsAudited N finished.now.kept finished.now.works.items) }
    ensures at_odds { IfErr result (λ fault. (w p : ℕ) → fault ≡ RunFault.Audit w p
        → HasDiscrepancy config.now finished.now.kept finished.now.works.items w p) }
{
    // Never so. But no contract can name what stood behind the lock, and the answer promises all three.
    if finished.kept.config() != *config
        || finished.kept.is_resumed()
        || finished.kept.first_kept() != 0
    {
        return Err(RunFault::Audit {
            worker: 0,
            place: 0,
        });
    }
    match audit(&finished.kept, finished.works.as_slice()) {
        Ok(()) => Ok(()),
        Err(Audit { worker, place }) => Err(RunFault::Audit { worker, place }),
    }
}

/// Runs each job in a thread of its own, over one table made with the configuration, joins them
/// all, and audits what they have. The blank has one part for each job.
///
/// It waits for all workers, so for each call and for the gate. Beside the calls it costs a walk
/// over the whole history for each worker, and there is one lock: more workers are not faster.
///
/// A call that finds no memory is no error here: it is counted in [`Work::refused`]. The errors
/// leave no table and no history behind:
///
/// - [`RunFault::NoMemory`]: none for the table, the seats, the threads' handles, or the receipts
///   of some worker, who has then made no call.
/// - [`RunFault::Start`]: a thread could not be started. The ones that were started work to their
///   end first.
/// - [`RunFault::Audit`]: the receipts of the worker and the history differ at the place. It would
///   be a fault of this program, and no cause of it is known.
pub fn run_workers<
    L: Ledger + Send + Sync,
    G: Gate + Sync,
    R: Threads + Wait + Clock + Sync,
    const N: usize,
>(
    rt: &R,
    alloc: Global,
    blank: Blank,
    config: &Config,
    jobs: &[Vec<Call>],
    gate: &G,
) -> Result<Finished<L, N>, RunFault>
    requires name { blank.name ≡ L.name }
    requires parts { (blank.parts ≡ L.parts) × (L.parts ≡ N) × (0 < N) }
    requires jobs { length jobs.now ≡ N }
    ensures config { IfOk result (λ f. f.kept.config ≡ config.now) }
    ensures fresh { IfOk result (λ f. f.kept.is_resumed ≡ false) }
    ensures kept { IfOk result (λ f. f.kept.first_kept ≡ 0) }
    ensures works { IfOk result (λ f. vec_len f.works ≡ N) }
    ensures jobs { IfOk result (λ f. AreFulfilled jobs.now f.works.items) }
    ensures told { OnOk result (TellsGateOfEach (G.opens gate.now) (G.was_before gate.now) (G.was_after gate.now)
        jobs.now) }
    ensures audit { IfErr result (TellsAudit config.now jobs.now) }
    ensures audited { IfOk result (λ f. IsAudited N f.kept f.works.items) }
{
    let finished = finish_all::<L, G, R, N>(rt, alloc, blank, config, jobs, gate)?;
    check_finished(&finished, config)?;
    Ok(finished)
}
