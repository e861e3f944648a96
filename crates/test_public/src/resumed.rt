//! A record that goes on from a saved text.
ghost use Rattle.std.specs.Prelude.{◌≡◌};

use crate::records::{FORK, FORKED_4, MAKE, Step, play, share};
use kept_table::Kept;
use locked_table::{Record, Seat, Shared};
use pid_types::call::Call;
use pid_types::reply::ShortReply;
use std::alloc::Global;
use std::marker::Brand;
use std::process::Abort;
use std::sync::Wait;
use std::sync::ledger::{Blank, Ledger};
use table_load::load::load;

/// The text of `docs/SCRIPT.md`, after six calls.
const TEXT: &[u8] = b"pidtab table 1 pid-max 32768 stamp 7
task 1@0 parent - group 1@0 session 1@0 control 0 children 0 live
task 2@0 parent 1@0 group 3,1@2 session 1@0 control 0 children 0 live
space 0 parent - cursor 4
space 2 parent 0 cursor 2 fallen
control 0 parent - limit max
end sha256 43e4b011666adfc0327747421276975e151ed4aaf6d8c75e33dcc6843cccb951
";

/// The record that goes on from the text with these counts, and its seats. The callers know nothing more of them.
fn begin<L: Ledger>(
    rt: &impl Abort,
    alloc: Global,
    blank: Blank,
    counts: &[u64; 2],
) -> (Record<L, 2>, Vec<Seat<L, 2>>)
    requires name { blank.name ≡ L.name }
    requires parts { (blank.parts ≡ L.parts) × (L.parts ≡ 2) }
{
    let loaded = load(alloc, TEXT).expect(rt, "a table");
    assert!(rt; Kept::can_resume(loaded.stamp, counts));
    let resumed = Record::<L, 2>::resume(alloc, blank, loaded.table, loaded.stamp, counts);
    resumed.expect(rt, "no memory")
}

/// The record goes on with the steps.
fn go_on<L: Ledger>(rt: &impl Abort, alloc: Global, blank: Blank, counts: &[u64; 2], steps: &[Step])
    requires name { blank.name ≡ L.name }
    requires parts { (blank.parts ≡ L.parts) × (L.parts ≡ 2) }
{
    let (mut record, mut seats) = begin::<L>(rt, alloc, blank, counts);
    play(rt, &mut record, &mut seats, steps);
}

/// What a caller asks first.
const GROUP: Call = Call::GetPgid { caller: 2, pid: 0 };

/// How many calls of each worker were recorded before, what the record has then, and what is called behind it, by two
/// workers. The stamps go on from 7.
static GOES_ON: [([u64; 2], &[Step]); 2] = [
    (
        [4, 2],
        &[
            Step::Recorded([6, 6, 4, 2]),
            Step::Begun(Some(7), 32_768, true),
            Step::Tasks([2, 1], [Some(2), None, None]),
            Step::Calls(&[4, 2]),
            Step::Act(6, 0, GROUP, ShortReply::Number(3)),
            Step::Act(7, 1, MAKE, ShortReply::Control(8)),
            Step::Act(8, 1, FORK, FORKED_4),
        ],
    ),
    (
        [0, 0],
        &[
            Step::Recorded([0, 0, 0, 0]),
            Step::Begun(Some(7), 32_768, true),
            Step::Tasks([2, 1], [Some(2), None, None]),
            Step::Calls(&[0, 0]),
            Step::Act(0, 0, GROUP, ShortReply::Number(3)),
            Step::Act(1, 1, MAKE, ShortReply::Control(8)),
            Step::Act(2, 1, FORK, FORKED_4),
        ],
    ),
];

#[test]
fn goes_on_with_ordinals(rt: HostRuntime) {
    for (counts, steps) in &GOES_ON {
        go_on::<Brand>(&rt, rt.alloc(), Blank::new(2), counts, steps);
    }
}

/// What the record has at its end.
static AT_ITS_END: [Step; 1] = [Step::Recorded([6, 9, 5, 4])];

/// The table goes on under the lock, and is closed.
fn go_on_under_lock<L: Ledger, R: Wait + Abort>(rt: &R, alloc: Global, blank: Blank)
    requires name { blank.name ≡ L.name }
    requires parts { (blank.parts ≡ L.parts) × (L.parts ≡ 2) }
{
    let (counts, steps) = &GOES_ON[0];
    let (record, seats) = begin::<L>(rt, alloc, blank, counts);
    share(rt, Shared::of(record), seats, steps, &AT_ITS_END);
}

#[test]
fn goes_on_under_the_lock(rt: HostRuntime) {
    go_on_under_lock::<Brand, HostRuntime>(&rt, rt.alloc(), Blank::new(2));
}

/// The stamp, how many calls of each worker were recorded before it, and whether a record goes on from there.
static COUNTS: [(u64, &[u64], bool); 7] = [
    (7, &[6, 0], true),
    (7, &[0, 6], true),
    (7, &[6, 1], false),
    (7, &[7, 0], false),
    (7, &[u64::MAX, u64::MAX], false),
    (0, &[], false),
    (1, &[], true),
];

#[test]
fn refuses_counts_without_a_stamp(rt: HostRuntime) {
    for (stamp, counts, can) in &COUNTS {
        assert!(rt; Kept::can_resume(*stamp, counts) == *can);
    }
}
