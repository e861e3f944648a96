//! The state of a log: what was taken, written, synced and answered, and what hinders it.
ghost use Rattle.std.specs.Prelude.{◌≡◌, ◌↔◌, true, false, IsTrue, MatchBool};
ghost use Rattle.log_turns.specs.{Next.{IsNextStep}, Turning.{begun_at, TakesCall, took, DoesNext, FailsNext}};
ghost use Rattle.log_turns.specs.Turning.{wants_turn, synced_to, may_drop_of};

use crate::step::Step;

/// So many bytes are written between two syncs at most, where each call is synced before it is answered.
pub const MOST_UNSYNCED: u64 = 1 << 20;

/// A log and its calls. A place is the number of bytes before it, of all calls that the machine has found or taken.
#[derive(Clone, Copy)]
#[repr(C)]
pub struct Turns {
    /// So many calls were taken.
    pub taken: u64,
    /// So many of them are answered.
    pub answered: u64,
    /// Where the log begins that is written.
    pub start: u64,
    /// To there all is known to be on the disk.
    pub synced: u64,
    /// To there all is written.
    pub written: u64,
    /// There the last call ends that was taken.
    pub end: u64,
    /// Whether a call is on the disk before it is answered.
    pub is_always: bool,
    /// A write has failed, and nobody knows what it has left behind what is written.
    pub is_torn: bool,
    /// Something has failed, and is not tried again yet.
    pub is_stuck: bool,
    /// A sync has failed.
    pub is_lost: bool,
    /// The log is to go on in a new file.
    pub is_turning: bool,
    /// A new file could not be made whole, and may be there.
    pub is_undoing: bool,
    /// Nothing is behind what is written, and all is on the disk.
    pub is_closed: bool,
    /// No call is taken any more.
    pub is_stopping: bool,
    /// `current` names the log that is written.
    pub is_named: bool,
    /// The snapshot of what is before the log that is written is not done, or the older logs are being dropped.
    pub is_compacting: bool,
    /// The snapshot of what is before the log that is written is whole.
    pub has_snapshot: bool,
}

impl Turns {
    /// A log that was found, or made, with so many bytes behind its head, all on the disk, and with so many calls up to
    /// its end, those before it among them.
    pub fn begin(calls: u64, size: u64, is_always: bool, is_named: bool) -> Turns
        ensures { result ≡ begun_at calls size is_always is_named }
    {
        Turns {
            taken: calls,
            answered: calls,
            start: 0,
            synced: size,
            written: size,
            end: size,
            is_always,
            is_torn: false,
            is_stuck: false,
            is_lost: false,
            is_turning: false,
            is_undoing: false,
            is_closed: false,
            is_stopping: false,
            is_named,
            is_compacting: false,
            has_snapshot: false,
        }
    }

    /// Takes a call, whose entry has so many bytes. None is taken once the log stops or is lost.
    pub fn take(&mut self, size: u64) -> bool
        ensures when { IsTrue result ↔ TakesCall size self.old }
        ensures becomes { MatchBool result (self.new ≡ took size self.old) (self.new ≡ self.old) }
    {
        let has_room = self.taken < u64::MAX && size <= u64::MAX - self.end;
        if self.is_stopping || self.is_lost || !has_room {
            return false;
        }
        self.taken += 1;
        self.end += size;
        self.is_closed = false;
        true
    }

    /// What is to be done next.
    pub fn next(&self) -> Step
        ensures { IsNextStep self.now result }
    {
        if self.is_lost {
            return Step::Lost;
        }
        if self.is_stuck {
            return Step::Wait;
        }
        if self.is_torn {
            return Step::Cut {
                to: self.written.saturating_sub(self.start),
            };
        }
        if self.is_undoing {
            return Step::Undo;
        }
        let size = self.piece();
        if size > 0 {
            return Step::Write {
                at: self.written.saturating_sub(self.start),
                size,
            };
        }
        if self.is_always && self.synced < self.end {
            return Step::Sync;
        }
        if self.answered < self.taken {
            return Step::Answer { calls: self.taken };
        }
        if (self.is_turning || self.is_stopping) && !self.is_closed {
            return Step::Close;
        }
        if self.is_turning {
            return Step::Begin { first: self.taken };
        }
        if self.is_stopping {
            Step::Ended
        } else {
            Step::Rest
        }
    }

    /// What was to be done next was done; of a write, so many bytes.
    pub fn done(&mut self, size: u64)
        ensures { DoesNext size self.old self.new }
    {
        match self.next() {
            Step::Cut { to: _ } => self.is_torn = false,
            Step::Write { at: _, size: most } => self.written += size.min(most),
            Step::Sync => self.synced = self.written,
            Step::Answer { calls } => self.answered = calls,
            Step::Close => {
                self.synced = self.written;
                self.is_closed = true;
            }
            Step::Begin { first: _ } => {
                self.start = self.end;
                self.is_turning = false;
                self.is_closed = false;
                self.is_named = false;
                self.is_compacting = true;
                self.has_snapshot = false;
            }
            Step::Undo => {
                self.is_undoing = false;
                self.is_turning = false;
                self.is_closed = false;
            }
            Step::Rest | Step::Wait | Step::Lost | Step::Ended => {}
        }
    }

    /// What was to be done next has failed, in part or in whole.
    pub fn failed(&mut self)
        ensures { FailsNext self.old self.new }
    {
        match self.next() {
            Step::Cut { to: _ } | Step::Undo => self.is_stuck = true,
            Step::Write { at: _, size: _ } => {
                self.is_torn = true;
                self.is_stuck = true;
            }
            Step::Sync | Step::Close => self.is_lost = true,
            Step::Begin { first: _ } => self.is_undoing = true,
            Step::Answer { calls: _ } | Step::Rest | Step::Wait | Step::Lost | Step::Ended => {}
        }
    }

    /// There may be room again.
    pub fn retry(&mut self)
        ensures { self.new ≡ record self.old { is_stuck = false } }
    {
        self.is_stuck = false;
    }

    /// Has the log go on in a new file, if it has a call, and no snapshot is in work.
    pub fn turn(&mut self)
        ensures { self.new ≡ wants_turn self.old }
    {
        if self.start < self.end && !self.is_compacting {
            self.is_turning = true;
        }
    }

    /// No call is taken any more, and the log ends.
    pub fn stop(&mut self)
        ensures { self.new ≡ record self.old { is_stopping = true } }
    {
        self.is_stopping = true;
    }

    /// Another thread has synced what was written when the place was the end of it.
    pub fn sync_to(&mut self, place: u64)
        ensures { self.new ≡ synced_to place self.old }
    {
        self.synced = self.synced.max(place.min(self.written));
    }

    /// Another thread could not sync.
    pub fn lose(&mut self)
        ensures { self.new ≡ record self.old { is_lost = true } }
    {
        self.is_lost = true;
    }

    /// `current` names the log that is written, on the disk too.
    pub fn name(&mut self)
        ensures { self.new ≡ record self.old { is_named = true } }
    {
        self.is_named = true;
    }

    /// The snapshot of all that is before the log that is written is whole, on the disk too.
    pub fn compact(&mut self)
        ensures { self.new ≡ record self.old { has_snapshot = true } }
    {
        self.has_snapshot = true;
    }

    /// Whether the older logs may be dropped.
    pub fn may_drop(&self) -> bool
        ensures { result ≡ may_drop_of self.now }
    {
        self.is_named && self.has_snapshot
    }

    /// No snapshot is in work any more, and no older log is being dropped.
    pub fn rest(&mut self)
        ensures { self.new ≡ record self.old { is_compacting = false } }
    {
        self.is_compacting = false;
    }
}

impl Turns {
    ghost use Rattle.std.specs.Prelude.{◌-◌, ◌≡◌, min, true, false};
    ghost use Rattle.log_turns.specs.Next.{IsPiece};

    /// How many bytes may be written now.
    fn piece(&self) -> u64
        ensures { IsPiece self.now result }
    {
        let rest = self.end.saturating_sub(self.written);
        if !self.is_always {
            return rest;
        }
        let unsynced = self.written.saturating_sub(self.synced);
        rest.min(MOST_UNSYNCED.saturating_sub(unsynced))
    }
}
