//! One record, by its seats: checkpoints, reserved room, kept entries, two seats on a shared table.
ghost use Rattle.std.specs.Prelude.{◌≡◌, ◌<◌, true};
ghost use Rattle.locked_table.specs.SeatState.{AreSeats};

use locked_table::{Receipt, Record, Seat, Shared};
use pid_types::call::Call;
use pid_types::config::{Config, ConfigFault};
use pid_types::plain::{ControlRow, Plain};
use pid_types::reply::{CallFault, Reply, ShortReply};
use std::alloc::{AllocError, Global};
use std::marker::Brand;
use std::process::Abort;
use std::sync::Wait;
use std::sync::ledger::{Blank, Ledger};

/// A step on a record by its seats, or what they show.
pub(crate) enum Step {
    /// A worker's call, and the ordinal and the reply of its receipt. The record keeps all three.
    Act(u64, usize, Call, ShortReply),
    /// Cuts what was recorded away.
    Cut,
    /// Makes room for so many calls.
    Reserve(usize),
    /// Worker 0 finds no stamp for a call.
    Spent,
    /// How many calls each seat has made.
    Calls(&'static [u64]),
    /// The first call that is kept, how many were recorded, and how many of them worker 0 made, and worker 1.
    Recorded([u64; 4]),
    /// The next stamp, the bound of numbers, and whether the record was resumed.
    Begun(Option<u64>, u32, bool),
    /// How many tasks and control groups there are, and how many tasks the control groups 0, 2 and 7 have.
    Tasks([usize; 2], [Option<u64>; 3]),
    /// Whether the entries 2 and 3 are kept, and whether the last one is.
    Keeps([bool; 3]),
    /// The kept history begins in a state with so many tasks, and control groups with these counts.
    Opening(usize, &'static [u64]),
    /// The present state is such a one.
    Present(usize, &'static [u64]),
}

pub(crate) const FORK: Call = Call::Fork {
    caller: 1,
    new_space: false,
};

pub(crate) const MAKE: Call = Call::MakeControl { parent: 0 };

/// What is told of a worker that the record does not have.
pub(crate) const NONE: u64 = u64::MAX;

// Replies to a fork in the root namespace.

pub(crate) const FORKED_2: ShortReply = ShortReply::Forked { child: 2, root: 2 };

pub(crate) const FORKED_3: ShortReply = ShortReply::Forked { child: 3, root: 3 };

pub(crate) const FORKED_4: ShortReply = ShortReply::Forked { child: 4, root: 4 };

/// The receipt of a call that is answered so.
pub(crate) fn want(ordinal: u64, worker: usize, call: Call, told: ShortReply) -> Receipt {
    let mut reply = Reply::Done;
    told.tell(&mut reply);
    Receipt {
        ordinal,
        worker,
        call,
        reply,
    }
}

/// Whether the record keeps the call of the receipt.
fn keeps<L: Ledger, const N: usize>(record: &Record<L, N>, want: &Receipt) -> bool {
    let Some(entry) = record.entry(want.ordinal) else {
        return false;
    };
    entry.worker == want.worker && entry.call == want.call && entry.reply == want.reply
}

/// Whether the worker's call has the receipt, and is kept.
fn acts<L: Ledger, const N: usize>(
    record: &mut Record<L, N>,
    seats: &mut [Seat<L, N>],
    want: &Receipt,
) -> bool {
    let Some(seat) = seats.get_mut(want.worker) else {
        return false;
    };
    let Ok(receipt) = record.act(seat, want.call) else {
        return false;
    };
    receipt == *want && keeps(record, want)
}

/// Whether no stamp is left for a call of worker 0.
fn is_spent<L: Ledger, const N: usize>(
    record: &mut Record<L, N>,
    seats: &mut [Seat<L, N>],
) -> bool {
    let Some(seat) = seats.get_mut(0) else {
        return false;
    };
    record.act(seat, Call::GetPid { caller: 1 }).err() == Some(CallFault::Spent)
}

/// Whether each seat has made as many calls.
fn have_made<L: Ledger, const N: usize>(seats: &[Seat<L, N>], counts: &[u64]) -> bool {
    if seats.len() != counts.len() {
        return false;
    }
    for worker in 0..seats.len() {
        if seats[worker].calls() != counts[worker] {
            return false;
        }
    }
    true
}

/// How many calls of the worker were recorded.
fn recorded_by<L: Ledger, const N: usize>(record: &Record<L, N>, worker: usize) -> u64 {
    if worker < N {
        record.recorded(worker)
    } else {
        NONE
    }
}

/// What [`Step::Recorded`] says.
fn recorded<L: Ledger, const N: usize>(record: &Record<L, N>) -> [u64; 4] {
    [
        record.first_kept(),
        record.total(),
        recorded_by(record, 0),
        recorded_by(record, 1),
    ]
}

/// How many tasks the control groups 0, 2 and 7 have.
fn tasks_of<L: Ledger, const N: usize>(record: &Record<L, N>) -> [Option<u64>; 3] {
    [record.count(0), record.count(2), record.count(7)]
}

/// Whether the entries 2 and 3 are kept, and whether the last one is.
fn has_entries<L: Ledger, const N: usize>(record: &Record<L, N>) -> [bool; 3] {
    let last = record.total().saturating_sub(1);
    [
        record.entry(2).is_some(),
        record.entry(3).is_some(),
        record.entry(last).is_some(),
    ]
}

/// Whether the control groups have these counts.
fn have_counts(controls: &[ControlRow], counts: &[u64]) -> bool {
    if controls.len() != counts.len() {
        return false;
    }
    for place in 0..counts.len() {
        if controls[place].count != counts[place] {
            return false;
        }
    }
    true
}

/// Whether the state has so many tasks, and control groups with these counts.
pub(crate) fn is_state(state: Result<Plain, AllocError>, tasks: usize, counts: &[u64]) -> bool {
    let Ok(state) = state else {
        return false;
    };
    state.rows.len() == tasks && have_counts(state.controls.as_slice(), counts)
}

/// Whether the record shows what the step says.
fn is_shown<L: Ledger, const N: usize>(record: &Record<L, N>, step: &Step) -> bool {
    match step {
        Step::Recorded(told) => recorded(record) == *told,
        Step::Begun(stamp, bound, resumed) => {
            record.next_stamp() == *stamp
                && record.config().pid_max() == *bound
                && record.is_resumed() == *resumed
        }
        Step::Tasks(sizes, told) => {
            [record.tasks(), record.controls()] == *sizes && tasks_of(record) == *told
        }
        Step::Keeps(entries) => has_entries(record) == *entries,
        Step::Opening(tasks, counts) => is_state(record.opening(), *tasks, counts),
        Step::Present(tasks, counts) => is_state(record.snapshot(), *tasks, counts),
        _ => false,
    }
}

/// Whether the record answers what the step says.
fn is_answered<L: Ledger, const N: usize>(
    record: &mut Record<L, N>,
    seats: &mut [Seat<L, N>],
    step: &Step,
) -> bool {
    match step {
        Step::Act(ordinal, worker, call, told) => {
            acts(record, seats, &want(*ordinal, *worker, *call, *told))
        }
        Step::Cut => record.checkpoint().is_ok(),
        Step::Reserve(count) => record.reserve_calls(*count).is_ok(),
        Step::Spent => is_spent(record, seats),
        Step::Calls(counts) => have_made(seats, counts),
        look => is_shown(record, look),
    }
}

/// Makes the steps on the record, and compares what it answers.
pub(crate) fn play<L: Ledger, const N: usize>(
    rt: &impl Abort,
    record: &mut Record<L, N>,
    seats: &mut [Seat<L, N>],
    steps: &[Step],
) {
    for step in steps {
        assert!(rt; is_answered(record, seats, step));
    }
}

/// Whether the worker's call at the shared table has the receipt.
fn calls<L: Ledger, R: Wait, const N: usize>(
    rt: &R,
    shared: &Shared<L, N>,
    seats: &mut [Seat<L, N>],
    want: &Receipt,
) -> bool {
    let Some(seat) = seats.get_mut(want.worker) else {
        return false;
    };
    let Ok(receipt) = shared.call(rt, seat, want.call) else {
        return false;
    };
    receipt == *want
}

/// Whether the shared table answers what the step says. What is no call is asked under the lock.
fn is_shared<L: Ledger, R: Wait, const N: usize>(
    rt: &R,
    shared: &Shared<L, N>,
    seats: &mut [Seat<L, N>],
    step: &Step,
) -> bool {
    match step {
        Step::Act(ordinal, worker, call, told) => {
            calls(rt, shared, seats, &want(*ordinal, *worker, *call, *told))
        }
        other => is_answered(&mut shared.lock(rt), seats, other),
    }
}

/// Makes the steps on the shared table, and compares what it answers.
fn play_shared<L: Ledger, R: Wait + Abort, const N: usize>(
    rt: &R,
    shared: &Shared<L, N>,
    seats: &mut [Seat<L, N>],
    steps: &[Step],
) {
    for step in steps {
        assert!(rt; is_shared(rt, shared, seats, step));
    }
}

/// Whether worker w's seat is at place w.
fn are_in_order<L: Ledger, const N: usize>(seats: &[Seat<L, N>]) -> bool
    ensures { result ≡ true → AreSeats N seats.now }
{
    for (worker, seat) in seats.iter().enumerate() {
        if seat.worker() != worker {
            return false;
        }
    }
    seats.len() == N
}

/// Makes the steps on the shared table and closes it. What the record shows then comes last.
pub(crate) fn share<L: Ledger, R: Wait + Abort, const N: usize>(
    rt: &R,
    shared: Shared<L, N>,
    mut seats: Vec<Seat<L, N>>,
    steps: &[Step],
    last: &[Step],
)
    requires { (L.parts ≡ N) × (0 < N) }
{
    play_shared(rt, &shared, &mut seats, steps);
    assert!(rt; are_in_order(seats.as_slice()));
    show(rt, &shared.close(seats), last);
}

/// Compares what the record shows.
fn show<L: Ledger, const N: usize>(rt: &impl Abort, record: &Record<L, N>, steps: &[Step]) {
    for step in steps {
        assert!(rt; is_shown(record, step));
    }
}

/// Makes the steps on a new table that one worker has.
fn share_by_one<L: Ledger, R: Wait + Abort>(
    rt: &R,
    alloc: Global,
    blank: Blank,
    steps: &[Step],
    last: &[Step],
)
    requires name { blank.name ≡ L.name }
    requires parts { (blank.parts ≡ L.parts) × (L.parts ≡ 1) }
{
    let opened = Shared::<L, 1>::open(alloc, blank, &Config::default_values());
    let (shared, seats) = opened.expect(rt, "no memory");
    share(rt, shared, seats, steps, last);
}

/// Makes the steps on a new table that two workers share.
fn share_by_two<L: Ledger, R: Wait + Abort>(
    rt: &R,
    alloc: Global,
    blank: Blank,
    steps: &[Step],
    last: &[Step],
)
    requires name { blank.name ≡ L.name }
    requires parts { (blank.parts ≡ L.parts) × (L.parts ≡ 2) }
{
    let opened = Shared::<L, 2>::open(alloc, blank, &Config::default_values());
    let (shared, seats) = opened.expect(rt, "no memory");
    share(rt, shared, seats, steps, last);
}

/// Calls around a checkpoint: stamps and ordinals go on behind it.
static CUT_UNDER_THE_LOCK: [Step; 6] = [
    Step::Act(0, 0, FORK, FORKED_2),
    Step::Act(1, 0, MAKE, ShortReply::Control(2)),
    Step::Act(2, 0, Call::GetPid { caller: 2 }, ShortReply::Number(2)),
    Step::Cut,
    Step::Act(3, 0, Call::Count { id: 0 }, ShortReply::Counted(2)),
    Step::Act(4, 0, MAKE, ShortReply::Control(5)),
];

static BEHIND_THE_CUT: [Step; 3] = [
    Step::Recorded([3, 5, 5, NONE]),
    Step::Tasks([2, 3], [Some(2), Some(0), None]),
    Step::Keeps([false, true, true]),
];

#[test]
fn checkpoints_under_the_lock(rt: HostRuntime) {
    let blank = Blank::new(1);
    let last = &BEHIND_THE_CUT;
    share_by_one::<Brand, HostRuntime>(&rt, rt.alloc(), blank, &CUT_UNDER_THE_LOCK, last);
}

/// Two calls by each of two seats.
static BY_BOTH: [Step; 7] = [
    Step::Act(0, 1, FORK, FORKED_2),
    Step::Act(1, 0, FORK, FORKED_3),
    Step::Act(2, 1, Call::GetPpid { caller: 2 }, ShortReply::Number(1)),
    Step::Act(3, 0, Call::GetPpid { caller: 3 }, ShortReply::Number(1)),
    Step::Present(3, &[3]),
    Step::Recorded([0, 4, 2, 2]),
    Step::Calls(&[2, 2]),
];

static OF_BOTH: [Step; 2] = [
    Step::Recorded([0, 4, 2, 2]),
    Step::Tasks([3, 1], [Some(3), None, None]),
];

#[test]
fn two_share_a_table(rt: HostRuntime) {
    let blank = Blank::new(2);
    share_by_two::<Brand, HostRuntime>(&rt, rt.alloc(), blank, &BY_BOTH, &OF_BOTH);
}

/// The last stamp that there is.
const LAST_STAMP: u64 = 18_446_744_073_709_551_614;

/// With which stamp each record begins, and the steps on it.
static PLAYS: [(u64, &[Step]); 4] = [
    // Calls around a checkpoint.
    (
        1,
        &[
            Step::Keeps([false, false, false]),
            Step::Act(0, 0, FORK, FORKED_2),
            Step::Act(1, 0, MAKE, ShortReply::Control(2)),
            Step::Act(2, 0, Call::GetPid { caller: 2 }, ShortReply::Number(2)),
            Step::Opening(1, &[1]),
            Step::Cut,
            Step::Keeps([false, false, false]),
            Step::Recorded([3, 3, 3, NONE]),
            Step::Tasks([2, 2], [Some(2), Some(0), None]),
            Step::Opening(2, &[2, 0]),
            Step::Act(3, 0, Call::Count { id: 0 }, ShortReply::Counted(2)),
            Step::Act(4, 0, MAKE, ShortReply::Control(5)),
            Step::Recorded([3, 5, 5, NONE]),
            Step::Tasks([2, 3], [Some(2), Some(0), None]),
            Step::Keeps([false, true, true]),
            Step::Opening(2, &[2, 0]),
        ],
    ),
    // Calls in reserved room, of which one ends a task that leads a session.
    (
        1,
        &[
            Step::Act(0, 0, FORK, FORKED_2),
            Step::Reserve(2),
            Step::Act(1, 0, Call::SetSid { caller: 2 }, ShortReply::Number(2)),
            Step::Act(
                2,
                0,
                Call::Exit {
                    caller: 2,
                    status: 0,
                },
                ShortReply::Done,
            ),
            Step::Recorded([0, 3, 3, NONE]),
        ],
    ),
    // Calls in reserved room, of which one forks.
    (
        1,
        &[
            Step::Act(0, 0, FORK, FORKED_2),
            Step::Reserve(2),
            Step::Act(1, 0, FORK, FORKED_3),
            Step::Act(2, 0, Call::GetPid { caller: 3 }, ShortReply::Number(3)),
            Step::Recorded([0, 3, 3, NONE]),
        ],
    ),
    // A call at the last stamp, and one more.
    (
        LAST_STAMP,
        &[
            Step::Begun(Some(LAST_STAMP), 32_768, false),
            Step::Act(0, 0, FORK, FORKED_2),
            Step::Begun(None, 32_768, false),
            Step::Spent,
            Step::Recorded([0, 1, 1, NONE]),
        ],
    ),
];

/// Makes the steps on a new record of one worker.
fn play_on_new<L: Ledger>(
    rt: &impl Abort,
    alloc: Global,
    blank: Blank,
    first_stamp: u64,
    steps: &[Step],
)
    requires name { blank.name ≡ L.name }
    requires parts { (blank.parts ≡ L.parts) × (L.parts ≡ 1) }
{
    let config = Config::new(32768, first_stamp).expect(rt, "bad settings");
    let begun = Record::<L, 1>::new(alloc, blank, &config);
    let (mut record, mut seats) = begun.expect(rt, "no memory");
    play(rt, &mut record, &mut seats, steps);
}

#[test]
fn keeps_a_history(rt: HostRuntime) {
    for (first_stamp, steps) in &PLAYS {
        play_on_new::<Brand>(&rt, rt.alloc(), Blank::new(1), *first_stamp, steps);
    }
}

static SETTINGS: [(u32, u64, Option<ConfigFault>); 5] = [
    (300, 0, Some(ConfigFault::BadPidMax)),
    (301, 0, Some(ConfigFault::BadFirst)),
    (301, 1, None),
    (4_194_304, 1, None),
    (4_194_305, 1, Some(ConfigFault::BadPidMax)),
];

#[test]
fn refuses_bad_settings(rt: HostRuntime) {
    for (pid_max, first_stamp, fault) in &SETTINGS {
        assert!(rt; Config::new(*pid_max, *first_stamp).err() == *fault);
    }
}
