//! Jobs at one table: two that take turns, and sixteen at once.
ghost use Rattle.std.specs.Prelude.{◌≡◌, ◌<◌, ℕ};

use crate::records::is_state;
use locked_table::Record;
use pid_types::call::Call;
use pid_types::config::Config;
use pid_types::entry::Receipt;
use pid_types::reply::{CallFault, Refusal, Reply};
use pid_workers::{Desk, Finished, Gate, OpenGate, Work, audit, run_workers, work};
use std::alloc::{AllocError, Global};
use std::marker::Brand;
use std::process::Abort;
use std::sync::Wait;
use std::sync::atomic::{AtomicBool, AtomicU64, Ordering};
use std::sync::ledger::{Blank, Ledger};
use std::test::Fail;
use std::thread;
use std::thread::Threads;
use std::time::{Clock, Duration};

const FORK: Call = Call::Fork {
    caller: 1,
    new_space: false,
};

/// Holds calls until others have come or were answered.
#[derive(Drop)]
struct Turns {
    /// How many workers are to be there before any makes its first call.
    meet: u64,
    /// The worker that goes first.
    leader: usize,
    /// How many of its calls are to be answered before the first calls of the others.
    lead: u64,
    /// How many calls of the others are to be answered before its second one.
    follow: u64,
    here: AtomicU64,
    led: AtomicU64,
    followed: AtomicU64,
    gave_up: AtomicBool,
}

impl Turns {
    fn new(meet: u64, leader: usize, lead: u64, follow: u64) -> Turns {
        Turns {
            meet,
            leader,
            lead,
            follow,
            here: AtomicU64::new(0),
            led: AtomicU64::new(0),
            followed: AtomicU64::new(0),
            gave_up: AtomicBool::new(false),
        }
    }

    /// Waits until there are so many, for 5,000 milliseconds at most.
    fn wait_for(&self, clock: &impl Clock, count: &AtomicU64, least: u64) {
        for _ in 0..5000 {
            if count.load(Ordering::SeqCst) >= least {
                return;
            }
            thread::sleep(clock, Duration::from_millis(1));
        }
        self.gave_up.store(true, Ordering::SeqCst);
    }
}

impl Gate for Turns {
    fn before<R: Wait + Clock>(&self, rt: &R, worker: usize, k: u64) {
        if k == 1 {
            self.here.fetch_add(1, Ordering::SeqCst);
            self.wait_for(rt, &self.here, self.meet);
        }
        if k == 1 && worker != self.leader {
            self.wait_for(rt, &self.led, self.lead);
        }
        if k == 2 && worker == self.leader {
            self.wait_for(rt, &self.followed, self.follow);
        }
    }

    fn after<R: Wait + Clock>(&self, _rt: &R, worker: usize, _k: u64) {
        if worker == self.leader {
            self.led.fetch_add(1, Ordering::SeqCst);
        } else {
            self.followed.fetch_add(1, Ordering::SeqCst);
        }
    }

    fn is_open(&self) -> bool {
        false
    }
}

/// What a run leaves.
struct Left {
    /// How many calls of each worker were recorded.
    recorded: &'static [u64],
    total: u64,
    /// How many forks were made.
    forks: usize,
    /// Why the others were refused, and how many.
    refusal: Refusal,
    refused: usize,
    /// How many tasks there are, and in each control group.
    tasks: usize,
    counts: &'static [u64],
}

/// Runs a job for each of two workers.
fn run_two<L: Ledger + Send + Sync, R: Threads + Wait + Clock + Abort + Sync>(
    rt: &R,
    alloc: Global,
    blank: Blank,
    config: &Config,
    jobs: &[Vec<Call>],
    turns: &Turns,
    left: &Left,
) -> Vec<Work>
    requires name { blank.name ≡ L.name }
    requires parts { blank.parts ≡ L.parts }
    requires two { blank.parts ≡ 2 }
{
    assert!(rt; jobs.len() == 2);
    let finished = run_workers::<L, Turns, R, 2>(rt, alloc, blank, config, jobs, turns);
    look_at(rt, alloc, finished.expect(rt, "no run"), turns, left)
}

/// Runs a job for each of sixteen workers.
fn run_sixteen<L: Ledger + Send + Sync, R: Threads + Wait + Clock + Abort + Sync>(
    rt: &R,
    alloc: Global,
    blank: Blank,
    config: &Config,
    jobs: &[Vec<Call>],
    turns: &Turns,
    left: &Left,
)
    requires name { blank.name ≡ L.name }
    requires parts { blank.parts ≡ L.parts }
    requires sixteen { blank.parts ≡ 16 }
{
    assert!(rt; jobs.len() == 16);
    let finished = run_workers::<L, Turns, R, 16>(rt, alloc, blank, config, jobs, turns);
    let _works = look_at(rt, alloc, finished.expect(rt, "no run"), turns, left);
}

/// Runs a job for each of sixteen workers, whom no gate holds.
fn run_unheld<L: Ledger + Send + Sync, R: Threads + Wait + Clock + Abort + Sync>(
    rt: &R,
    alloc: Global,
    blank: Blank,
    config: &Config,
    jobs: &[Vec<Call>],
    left: &Left,
)
    requires name { blank.name ≡ L.name }
    requires parts { blank.parts ≡ L.parts }
    requires sixteen { blank.parts ≡ 16 }
{
    assert!(rt; jobs.len() == 16);
    let finished = run_workers::<L, OpenGate, R, 16>(rt, alloc, blank, config, jobs, &OpenGate);
    let Finished { kept, works } = finished.expect(rt, "no run");
    expect_left(rt, alloc, &kept, works.as_slice(), left);
}

/// The finished run leaves what is said, and no wait gave up.
fn look_at<L: Ledger, const N: usize>(
    rt: &impl Abort,
    alloc: Global,
    finished: Finished<L, N>,
    turns: &Turns,
    left: &Left,
) -> Vec<Work> {
    let Finished { kept, works } = finished;
    assert!(rt; !turns.gave_up.load(Ordering::SeqCst), "a wait gave up");
    expect_left(rt, alloc, &kept, works.as_slice(), left);
    works
}

/// The record, its table and the works are what is said.
fn expect_left<L: Ledger, const N: usize>(
    rt: &impl Abort,
    alloc: Global,
    kept: &Record<L, N>,
    works: &[Work],
    left: &Left,
) {
    assert!(rt; is_audited(kept, works));
    assert!(rt; is_left(kept, left));
    assert!(rt; have_forked(rt, alloc, works, left));
}

/// Whether the audit finds no fault.
fn is_audited<L: Ledger, const N: usize>(kept: &Record<L, N>, works: &[Work]) -> bool {
    works.len() == N && audit(kept, works).is_ok()
}

/// Whether the record and its table are what is said.
fn is_left<L: Ledger, const N: usize>(kept: &Record<L, N>, left: &Left) -> bool {
    if left.recorded.len() != N {
        return false;
    }
    for worker in 0..N {
        if kept.recorded(worker) != left.recorded[worker] {
            return false;
        }
    }
    kept.total() == left.total && is_state(kept.snapshot(), left.tasks, left.counts)
}

/// Whether as many forks were made as is said, with the numbers from 2 on, and the others refused.
fn have_forked(rt: &impl Abort, alloc: Global, works: &[Work], left: &Left) -> bool {
    let mut roots = Vec::new(alloc);
    let mut refused = 0usize;
    let refusal = Reply::Refused(left.refusal);
    for work in works {
        refused = refused.saturating_add(add_roots(rt, &mut roots, work, &refusal));
    }
    roots.sort().expect(rt, "no memory");
    refused == left.refused && roots.len() == left.forks && are_from_2(roots.as_slice())
}

/// Adds the root number of each fork among the receipts. It answers how many have the reply.
fn add_roots(rt: &impl Abort, roots: &mut Vec<u32>, work: &Work, reply: &Reply) -> usize {
    let mut count = 0usize;
    for receipt in work.receipts.as_slice() {
        if let Reply::Forked { root, .. } = receipt.reply {
            roots.push(root).expect(rt, "no memory");
        }
        if receipt.reply == *reply {
            count = count.saturating_add(1);
        }
    }
    count
}

/// Whether the numbers rise one by one from 2 on.
fn are_from_2(roots: &[u32]) -> bool {
    for (place, root) in roots.iter().enumerate() {
        if *root as usize != place + 2 {
            return false;
        }
    }
    true
}

/// Adds a job of these calls.
fn add_job(rt: &impl Abort, alloc: Global, jobs: &mut Vec<Vec<Call>>, calls: &[Call]) {
    let mut job = Vec::new(alloc);
    job.extend_from_slice(calls).expect(rt, "no memory");
    jobs.push(job).expect(rt, "no memory");
}

/// A job of the first calls, and so many of the others.
fn jobs_of(
    rt: &(impl AllocGlobal + Abort),
    first: &[Call],
    count: u32,
    others: &[Call],
) -> Vec<Vec<Call>> {
    let mut jobs = Vec::new(rt.alloc());
    add_job(rt, rt.alloc(), &mut jobs, first);
    for _ in 0..count {
        add_job(rt, rt.alloc(), &mut jobs, others);
    }
    jobs
}

/// A fork of each, and then a look at the parent of its child.
static CROSSED: [[Call; 2]; 2] = [
    [FORK, Call::GetPpid { caller: 3 }],
    [FORK, Call::GetPpid { caller: 2 }],
];

/// Worker 1 goes first.
static TURNS: Left = Left {
    recorded: &[2, 2],
    total: 4,
    forks: 2,
    refusal: Refusal::NoCaller,
    refused: 0,
    tasks: 3,
    counts: &[3],
};

#[test]
fn two_run_at_once(rt: HostRuntime) {
    let jobs = jobs_of(&rt, &CROSSED[0], 1, &CROSSED[1]);
    let config = Config::default_values();
    let blank = Blank::new(2);
    let turns = Turns::new(2, 1, 1, 1);
    let works = run_two::<Brand, _>(&rt, rt.alloc(), blank, &config, &jobs, &turns, &TURNS);
    assert_took_turns(&rt, works.as_slice());
}

/// Asserts that worker 1 went first.
fn assert_took_turns(rt: &impl Abort, works: &[Work]) {
    assert!(rt; works.len() == 2);
    assert!(rt; has_forked(&works[1], 0, 2));
    assert!(rt; has_forked(&works[0], 1, 3));
}

/// Whether the worker made a fork, which has the ordinal, and then saw the parent of the child.
fn has_forked(work: &Work, ordinal: u64, child: u32) -> bool {
    work.refused == 0
        && work.receipts.len() == 2
        && work.receipts[0].ordinal == ordinal
        && work.receipts[0].reply == Reply::Forked { child, root: child }
        && work.receipts[1].reply == Reply::Number(1)
}

/// Each of the 299 numbers was given once, and the other forks were refused.
static NUMBERS: Left = Left {
    recorded: &[20; 16],
    total: 320,
    forks: 299,
    refusal: Refusal::NoNumber(0),
    refused: 21,
    tasks: 300,
    counts: &[300],
};

/// Twenty forks of each of sixteen workers, which begin together.
#[test]
fn sixteen_share_the_numbers(rt: HostRuntime) -> Result<(), Fail> {
    let config = Config::new(301, 1)?;
    let jobs = jobs_of(&rt, &[FORK; 20], 15, &[FORK; 20]);
    let blank = Blank::new(16);
    let turns = Turns::new(16, 0, 0, 0);
    run_sixteen::<Brand, _>(&rt, rt.alloc(), blank, &config, &jobs, &turns, &NUMBERS);
    Ok(())
}

/// Each worker made its 100 forks.
static TURNS_OF_64: Left = Left {
    recorded: &[100; 16],
    total: 1600,
    forks: 1600,
    refusal: Refusal::NoNumber(0),
    refused: 0,
    tasks: 1601,
    counts: &[1601],
};

/// A hundred forks of each of sixteen workers, who keep the lock for a turn.
#[test]
fn sixteen_make_turns(rt: HostRuntime) {
    let config = Config::default_values();
    let jobs = jobs_of(&rt, &[FORK; 100], 15, &[FORK; 100]);
    run_unheld::<Brand, _>(
        &rt,
        rt.alloc(),
        Blank::new(16),
        &config,
        &jobs,
        &TURNS_OF_64,
    );
}

/// A control group with a limit of nine, the root init in it, and a fork.
static BELOW_A_LIMIT: [Call; 4] = [
    Call::MakeControl { parent: 0 },
    Call::SetLimit {
        id: 1,
        limit: Some(9),
    },
    Call::Move { task: 1, id: 1 },
    FORK,
];

/// Eight forks were made, and the other eight refused.
static LIMIT: Left = Left {
    recorded: &[4, 1, 1, 1, 1, 1, 1, 1, 1, 1, 1, 1, 1, 1, 1, 1],
    total: 19,
    forks: 8,
    refusal: Refusal::PidsLimit(1),
    refused: 8,
    tasks: 9,
    counts: &[9, 9],
};

/// The first worker sets the limit before the others begin. Each of sixteen forks once.
#[test]
fn sixteen_share_a_limit(rt: HostRuntime) {
    let jobs = jobs_of(&rt, &BELOW_A_LIMIT, 15, &[FORK]);
    let config = Config::default_values();
    let blank = Blank::new(16);
    let turns = Turns::new(0, 0, 3, 0);
    run_sixteen::<Brand, _>(&rt, rt.alloc(), blank, &config, &jobs, &turns, &LIMIT);
}

/// A desk that answers each call by its place, and the second one with want of memory. It keeps what
/// it answers.
#[derive(Drop)]
struct CountingDesk {
    calls: u64,
    answers: Vec<Receipt>,
}

impl Desk for CountingDesk {
    ghost use Rattle.std.specs.Prelude.{⊤};

    ghost worker = { λ _. 0 };

    ghost made = { λ _ _ _. ⊤ };

    ghost made_none = { λ _. tt };

    ghost made_more = { λ _ _ _ _ _ _ _. tt };

    fn call<R: Wait>(&mut self, _rt: &R, call: Call) -> Result<Receipt, CallFault> {
        let ordinal = self.calls;
        self.calls = self.calls.saturating_add(1);
        if ordinal == 1 {
            return Err(CallFault::NoMemory);
        }
        let answer = Receipt {
            ordinal,
            worker: 0,
            call,
            reply: Reply::Counted(ordinal),
        };
        if self.answers.push(answer.clone()?).is_err() {
            return Err(CallFault::NoMemory);
        }
        Ok(answer)
    }
}

/// What comes of the calls at the desk. The callers know nothing more of it.
fn work_at<D: Desk, R: Wait + Clock>(
    rt: &R,
    alloc: Global,
    desk: &mut D,
    calls: &[Call],
) -> Result<Work, AllocError> {
    work(rt, alloc, desk, &OpenGate, 0, calls)
}

#[test]
fn keeps_answers_in_order(rt: HostRuntime) -> Result<(), Fail> {
    let mut desk = CountingDesk {
        calls: 0,
        answers: Vec::with_capacity(rt.alloc(), 2)?,
    };
    let calls = [FORK, Call::SetSid { caller: 2 }, Call::Exec { caller: 2 }];
    let done = work_at(&rt, rt.alloc(), &mut desk, &calls)?;
    assert!(rt; are_in_order(&desk, &done));
    Ok(())
}

/// Whether the first and the third call were answered, in this order.
fn are_in_order(desk: &CountingDesk, done: &Work) -> bool {
    let receipts = done.receipts.as_slice();
    desk.calls == 3
        && done.refused == 1
        && receipts == desk.answers.as_slice()
        && receipts.len() == 2
        && receipts[0].call == FORK
        && receipts[1].call == Call::Exec { caller: 2 }
}
