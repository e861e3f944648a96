//! What the replies of the generated scripts were.

use pid_types::reply::{Refusal, Reply};
use std::process::Abort;

/// How many refusals there are.
const REFUSALS: usize = 19;

/// How many generated calls two runs have.
const CALLS: u64 = 10_000;

/// More calls than this are to change the table.
const FEW_CHANGES: u64 = 4_000;

/// The calls that were made, those of them that changed the table, and the refusals that were met.
#[derive(Drop)]
pub struct Tally {
    calls: u64,
    changes: u64,
    met: [bool; REFUSALS],
}

impl Tally {
    /// No call was made.
    pub fn new() -> Self {
        Tally {
            calls: 0,
            changes: 0,
            met: [false; REFUSALS],
        }
    }

    /// Counts a call by its reply.
    pub fn count(&mut self, reply: &Reply) {
        self.calls = self.calls.saturating_add(1);
        match reply {
            Reply::Forked { child: _, root: _ }
            | Reply::Done
            | Reply::Reaped { child: _, ended: _ }
            | Reply::Control(_) => self.changes = self.changes.saturating_add(1),
            Reply::Refused(refusal) => self.meet(*refusal),
            _ => {}
        }
    }

    /// A refusal was met.
    pub fn meet(&mut self, refusal: Refusal) {
        let place = place_of(refusal);
        if place < REFUSALS {
            self.met[place] = true;
        }
    }

    /// Whether a refusal was met, with any number.
    fn has_met(&self, refusal: Refusal) -> bool {
        let place = place_of(refusal);
        place < REFUSALS && self.met[place]
    }

    /// There were as many calls and changes as wanted, and each of these refusals was met.
    pub fn check(&self, rt: &impl Abort, wanted: &[Refusal]) {
        for refusal in wanted {
            assert!(rt; self.has_met(*refusal), "{refusal:?} was never met");
        }
        assert!(rt; self.calls == CALLS);
        assert!(rt; self.changes > FEW_CHANGES);
    }
}

/// The place of a refusal. They are numbered from 1.
fn place_of(refusal: Refusal) -> usize {
    usize::from(refusal.number()).saturating_sub(1)
}
