//! The audit of receipts of which some are of entries that were cut away.
ghost use Rattle.std.specs.Prelude.{◌≡◌, ℕ};

use crate::records::{FORK, FORKED_2, Step, play, want};
use locked_table::Record;
use pid_types::call::Call;
use pid_types::config::Config;
use pid_types::entry::Receipt;
use pid_types::reply::ShortReply;
use pid_workers::{Audit, Work, audit};
use std::alloc::Global;
use std::marker::Brand;
use std::process::Abort;
use std::sync::ledger::{Blank, Ledger};

const ASK: Call = Call::GetPid { caller: 2 };

/// One call of each worker, and a checkpoint between them.
static CALLS: [Step; 3] = [
    Step::Act(0, 0, FORK, FORKED_2),
    Step::Cut,
    Step::Act(1, 1, ASK, ShortReply::Number(2)),
];

/// The worker's receipt.
fn receipt_of(worker: usize) -> Receipt {
    if worker == 0 {
        want(0, 0, FORK, FORKED_2)
    } else {
        want(1, 1, ASK, ShortReply::Number(2))
    }
}

/// The work of both workers, of which some show their receipts.
fn works(rt: &impl Abort, alloc: Global, shows: &[bool; 2]) -> Vec<Work> {
    let mut works = Vec::new(alloc);
    for worker in 0..2 {
        let mut receipts = Vec::new(alloc);
        if shows[worker] {
            receipts.push(receipt_of(worker)).expect(rt, "no memory");
        }
        let refused = 0;
        works
            .push(Work { receipts, refused })
            .expect(rt, "no memory");
    }
    works
}

/// Whose receipts are shown, and what the audit finds. The first receipt is of an entry that was cut away.
static SHOWN: [([bool; 2], Result<(), Audit>); 3] = [
    ([true, true], Ok(())),
    ([false, true], Ok(())),
    (
        [true, false],
        Err(Audit {
            worker: 1,
            place: 0,
        }),
    ),
];

/// Whether this is what the audit of the works finds.
fn is_found<L: Ledger>(kept: &Record<L, 2>, works: &[Work], found: &Result<(), Audit>) -> bool {
    works.len() == 2 && audit(kept, works) == *found
}

/// Shows some receipts and others not.
fn show_all<L: Ledger>(rt: &impl Abort, alloc: Global, kept: &Record<L, 2>) {
    for (shows, found) in &SHOWN {
        assert!(rt; is_found(kept, works(rt, alloc, shows).as_slice(), found));
    }
}

fn audit_after_checkpoint<L: Ledger>(rt: &impl Abort, alloc: Global, blank: Blank)
    requires name { blank.name ≡ L.name }
    requires parts { blank.parts ≡ L.parts }
    requires two { blank.parts ≡ 2 }
{
    let begun = Record::<L, 2>::new(alloc, blank, &Config::default_values());
    let (mut record, mut seats) = begun.expect(rt, "no memory");
    play(rt, &mut record, &mut seats, &CALLS);
    show_all(rt, alloc, &record);
}

#[test]
fn audits_what_is_kept(rt: HostRuntime) {
    audit_after_checkpoint::<Brand>(&rt, rt.alloc(), Blank::new(2));
}
