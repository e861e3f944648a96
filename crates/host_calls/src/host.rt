//! What a host knows of its calls and of its session.
ghost use Rattle.std.specs.Prelude.{◌≡◌, ◌↔◌, true, false, IsTrue, MatchBool};
ghost use Rattle.host_calls.specs.Puts.{begun_host, MaySubmit, submitted_to, submitted_as, IsNextPut, MayOpen};
ghost use Rattle.host_calls.specs.Puts.{IsNextCall, FitsIn, MayTake, took_in, took_call, MaySeal, sealed_of};
ghost use Rattle.host_calls.specs.Puts.{IsPutting, acknowledged};
ghost use Rattle.host_calls.specs.Reads.{is_telling, IsOwnSession, IsSealed, IsNextMade, IsReading, read_as};
ghost use Rattle.host_calls.specs.{Puts.{opened_as}, Reads.{IsLoading, loaded_as}};
ghost use Rattle.host_calls.specs.Tells.{IsNextTold, IsDue, words_for, MayTell, told_as, told_call, stopped_of};

use crate::call::{CallState, HostCall};
use crate::step::{LogOutcome, PutStep, Reading, Taken, Telling, Told};

/// The bytes that the calls of an entry have at most, if there are several.
pub const MOST_BYTES: u64 = 512 * 1024;

/// The calls of one host, in the order in which they were submitted: those that were told, those that are in entries,
/// and those that wait.
#[derive(Clone, Copy)]
pub struct HostCalls {
    /// So many calls were submitted.
    pub submitted: u64,
    /// The calls before this one were in the turn to be taken into entries, the others wait.
    pub taken: u64,
    /// The calls before this one are over.
    pub told: u64,
    /// The session that is open; 0 where none is.
    pub session: u64,
    /// The number of the entry that was begun last in the session.
    pub sequence: u64,
    /// The number of the entry of the session that the log has made last, as far as it was read.
    pub made: u64,
    /// The lines and the bytes of the entry that is made up.
    pub lines: u64,
    pub size: u64,
    /// The session and the number up to which calls are being told, and the call before which that ends.
    pub told_session: u64,
    pub told_sequence: u64,
    pub told_to: u64,
    pub telling: Telling,
    /// The entry that was begun last is being made up.
    pub is_filling: bool,
    /// It takes no more calls.
    pub is_full: bool,
    /// The entry that was begun last is sealed, and is not known to be in the log.
    pub is_putting: bool,
    /// Nothing is put any more.
    pub is_stopped: bool,
}

impl HostCalls {
    /// A host that has no calls, and no session.
    pub fn begin() -> HostCalls
        ensures { result ≡ begun_host }
    {
        HostCalls {
            submitted: 0,
            taken: 0,
            told: 0,
            session: 0,
            sequence: 0,
            made: 0,
            lines: 0,
            size: 0,
            told_session: 0,
            told_sequence: 0,
            told_to: 0,
            telling: Telling::Nothing,
            is_filling: false,
            is_full: false,
            is_putting: false,
            is_stopped: false,
        }
    }

    /// Has a call made: so many lines, at least one, of so many bytes, until the deadline. It gets its ticket. False
    /// once the host has stopped.
    pub fn submit(&mut self, call: &mut HostCall, lines: u64, size: u64, deadline: u64) -> bool
        ensures when { IsTrue result ↔ MaySubmit lines self.old }
        ensures becomes { MatchBool result (self.new ≡ submitted_to self.old) (self.new ≡ self.old) }
        ensures call { MatchBool result (call.new ≡ submitted_as lines size deadline self.old)
            (call.new ≡ call.old) }
    {
        if self.is_stopped || lines == 0 || self.submitted == u64::MAX {
            return false;
        }
        *call = HostCall {
            ticket: self.submitted,
            lines,
            size,
            deadline,
            session: 0,
            sequence: 0,
            place: 0,
            state: CallState::Queued,
        };
        self.submitted += 1;
        true
    }

    /// What is to be put next.
    pub fn next_put(&self) -> PutStep
        ensures { IsNextPut self.now result }
    {
        if self.is_stopped {
            return PutStep::Rest;
        }
        if self.is_putting {
            return PutStep::Put {
                session: self.session,
                sequence: self.sequence,
            };
        }
        if self.is_filling && (self.is_full || self.taken >= self.submitted) {
            return PutStep::Seal;
        }
        if self.taken >= self.submitted {
            return PutStep::Rest;
        }
        if self.session == 0 {
            PutStep::Open
        } else {
            PutStep::Take { ticket: self.taken }
        }
    }

    /// The log has told that the session with this number is open. False where none was to be opened.
    pub fn opened(&mut self, session: u64) -> bool
        ensures when { IsTrue result ↔ MayOpen session self.old }
        ensures becomes { MatchBool result (self.new ≡ opened_as session self.old) (self.new ≡ self.old) }
    {
        if self.is_stopped || self.session != 0 || session == 0 {
            return false;
        }
        self.session = session;
        self.sequence = 0;
        self.made = 0;
        true
    }

    /// Whether the call has its turn.
    fn is_next_call(&self, call: &HostCall) -> bool
        ensures { IsTrue result ↔ IsNextCall self.now call.now }
    {
        let may = !self.is_stopped && !self.is_putting && !self.is_full;
        may && self.session > 0
            && self.sequence < u64::MAX
            && self.taken < self.submitted
            && call.ticket == self.taken
    }

    /// Whether the call fits into the entry that is made up.
    fn has_room(&self, call: &HostCall) -> bool
        ensures { IsTrue result ↔ FitsIn self.now call.now }
    {
        self.size <= MOST_BYTES
            && call.size <= MOST_BYTES - self.size
            && call.lines <= u64::MAX - self.lines
    }

    /// Takes the call that has its turn into the entry that is made up, if it is not over. The entry has the lines of
    /// those that begin it or join, in this order.
    pub fn take(&mut self, call: &mut HostCall) -> Taken
        ensures may { MayTake self.old call.old result }
        ensures becomes { self.new ≡ took_in result self.old call.old }
        ensures call { call.new ≡ took_call result self.old call.old }
    {
        if !self.is_next_call(call) {
            return Taken::Refused;
        }
        let was_over = call.is_over();
        if was_over {
            self.taken += 1;
            return Taken::Passes;
        }
        if !self.is_filling {
            self.begin_entry(call);
            return Taken::Begins;
        }
        if !self.has_room(call) {
            self.is_full = true;
            return Taken::Fills;
        }
        self.join_entry(call);
        Taken::Joins
    }

    /// Begins an entry with the call.
    fn begin_entry(&mut self, call: &mut HostCall)
        requires { IsNextCall self.old call.old }
        ensures becomes { self.new ≡ took_in Taken.Begins self.old call.old }
        ensures call { call.new ≡ took_call Taken.Begins self.old call.old }
    {
        self.sequence += 1;
        self.is_filling = true;
        self.lines = call.lines;
        self.size = call.size;
        self.taken += 1;
        call.state = CallState::Entered;
        call.session = self.session;
        call.sequence = self.sequence;
        call.place = 0;
    }

    /// Puts the call behind those that the entry has.
    fn join_entry(&mut self, call: &mut HostCall)
        requires next { IsNextCall self.old call.old }
        requires room { FitsIn self.old call.old }
        ensures becomes { self.new ≡ took_in Taken.Joins self.old call.old }
        ensures call { call.new ≡ took_call Taken.Joins self.old call.old }
    {
        call.state = CallState::Entered;
        call.session = self.session;
        call.sequence = self.sequence;
        call.place = self.lines;
        self.lines += call.lines;
        self.size += call.size;
        self.taken += 1;
    }

    /// The entry that is made up has all that it will have, and is put from now on, always the same. False where none
    /// is made up.
    pub fn seal(&mut self) -> bool
        ensures when { IsTrue result ↔ MaySeal self.old }
        ensures becomes { MatchBool result (self.new ≡ sealed_of self.old) (self.new ≡ self.old) }
    {
        if self.is_stopped || !self.is_filling {
            return false;
        }
        self.is_filling = false;
        self.is_full = false;
        self.is_putting = true;
        true
    }

    /// The log has answered that it has the entry. False where that is not the one that is put.
    pub fn acknowledge(&mut self, session: u64, sequence: u64) -> bool
        ensures when { IsTrue result ↔ IsPutting session sequence self.old }
        ensures becomes { MatchBool result (self.new ≡ acknowledged self.old) (self.new ≡ self.old) }
    {
        if !self.is_putting || session != self.session || sequence != self.sequence {
            return false;
        }
        self.is_putting = false;
        true
    }

    /// Whether a call is to be told: the one with the ticket `told`.
    pub fn is_telling(&self) -> bool
        ensures { result ≡ is_telling self.now }
    {
        let has_some = match self.telling {
            Telling::Nothing => false,
            Telling::Answers | Telling::Losses | Telling::Stops => true,
        };
        has_some && self.told < self.told_to
    }

    /// Whether it is the session of this host.
    fn is_own(&self, session: u64) -> bool
        ensures { IsTrue result ↔ IsOwnSession session self.now }
    {
        !self.is_stopped && session > 0 && session == self.session
    }

    /// Whether an entry of the session with the number was sealed.
    fn is_sealed(&self, sequence: u64) -> bool
        ensures { IsTrue result ↔ IsSealed sequence self.now }
    {
        if self.is_filling {
            sequence < self.sequence
        } else {
            sequence <= self.sequence
        }
    }

    /// Whether the entry is the next of this host's that the log makes.
    fn is_next_made(&self, session: u64, sequence: u64) -> bool
        ensures { IsTrue result ↔ IsNextMade session sequence self.now }
    {
        self.is_own(session)
            && self.made < sequence
            && sequence - self.made == 1
            && self.is_sealed(sequence)
    }

    /// An entry of calls was read in the log, which has made this of it. Where calls are to be told, that comes first.
    pub fn read(&mut self, outcome: LogOutcome, session: u64, sequence: u64) -> Reading
        ensures may { IsReading outcome session sequence self.old result }
        ensures becomes { self.new ≡ read_as result session sequence self.old }
    {
        if self.is_telling() {
            return Reading::Busy;
        }
        match outcome {
            LogOutcome::Made => {
                if !self.is_next_made(session, sequence) {
                    return Reading::Ignores;
                }
                self.tell_answers(session, sequence);
                Reading::Tells
            }
            LogOutcome::Gone => {
                if !self.is_own(session) {
                    return Reading::Ignores;
                }
                self.renew();
                Reading::Renews
            }
            LogOutcome::Gap => {
                if self.is_own(session) {
                    Reading::Misses
                } else {
                    Reading::Ignores
                }
            }
            LogOutcome::Repeated => Reading::Ignores,
        }
    }

    /// Has the calls of an entry told their answers.
    fn tell_answers(&mut self, session: u64, sequence: u64)
        ensures { self.new ≡ read_as Reading.Tells session sequence self.old }
    {
        self.made = sequence;
        self.telling = Telling::Answers;
        self.told_session = session;
        self.told_sequence = sequence;
        self.told_to = self.taken;
        if sequence == self.sequence {
            self.is_putting = false;
        }
    }

    /// Gives up the session. What it has not made waits again, in its old order.
    fn renew(&mut self)
        ensures { self.new ≡ read_as Reading.Renews 0 0 self.old }
    {
        self.session = 0;
        self.sequence = 0;
        self.made = 0;
        self.taken = self.told;
        self.is_filling = false;
        self.is_full = false;
        self.is_putting = false;
    }

    /// A snapshot was loaded in the place of all entries up to the position. In it this host's session is open, and its
    /// last entry that was made has the number, or it is not open. What was made there has no answer here.
    pub fn load(&mut self, position: u64, is_open: bool, last: u64) -> Reading
        ensures may { IsLoading position is_open last self.old result }
        ensures becomes { self.new ≡ loaded_as result is_open last self.old }
    {
        if self.is_telling() {
            return Reading::Busy;
        }
        if !self.is_own(self.session) || self.session > position {
            return Reading::Ignores;
        }
        if !is_open {
            self.lose_session();
            return Reading::Tells;
        }
        if last <= self.made {
            return Reading::Ignores;
        }
        if !self.is_sealed(last) {
            return Reading::Misses;
        }
        self.lose_to(last);
        Reading::Tells
    }

    /// The calls of the session up to the number have no answers.
    fn lose_to(&mut self, last: u64)
        ensures { self.new ≡ loaded_as Reading.Tells true last self.old }
    {
        self.made = last;
        self.telling = Telling::Losses;
        self.told_session = self.session;
        self.told_sequence = last;
        self.told_to = self.taken;
        if last == self.sequence {
            self.is_putting = false;
        }
    }

    /// No call of the session has an answer, and it has ended.
    fn lose_session(&mut self)
        ensures { self.new ≡ loaded_as Reading.Tells false 0 self.old }
    {
        self.telling = Telling::Losses;
        self.told_session = self.session;
        self.told_sequence = self.sequence;
        self.told_to = self.taken;
        self.session = 0;
        self.sequence = 0;
        self.made = 0;
        self.is_filling = false;
        self.is_full = false;
        self.is_putting = false;
    }

    /// Whether the call is the one that is told next.
    fn is_next_told(&self, call: &HostCall) -> bool
        ensures { IsTrue result ↔ IsNextTold self.now call.now }
    {
        self.is_telling() && self.told < u64::MAX && call.ticket == self.told
    }

    /// Whether what is told is for this call.
    fn is_due(&self, call: &HostCall) -> bool
        ensures { IsTrue result ↔ IsDue self.now call.now }
    {
        match self.telling {
            Telling::Nothing => false,
            Telling::Answers => {
                !call.is_queued()
                    && call.session == self.told_session
                    && call.sequence == self.told_sequence
            }
            Telling::Losses => {
                !call.is_queued()
                    && call.session == self.told_session
                    && call.sequence <= self.told_sequence
            }
            Telling::Stops => true,
        }
    }

    /// What the call that is next is told. Behind the last one that is `Ends`, or no call is left.
    pub fn tell(&mut self, call: &mut HostCall) -> Told
        ensures may { MayTell self.old call.old result }
        ensures becomes { self.new ≡ told_as result self.old }
        ensures call { call.new ≡ told_call result call.old }
    {
        if !self.is_next_told(call) {
            return Told::Refused;
        }
        if call.is_over() {
            self.told += 1;
            return Told::Passes;
        }
        if !self.is_due(call) {
            self.telling = Telling::Nothing;
            return Told::Ends;
        }
        self.told += 1;
        self.say(call)
    }

    /// Tells the call what is told now.
    fn say(&self, call: &mut HostCall) -> Told
        requires { IsDue self.now call.old }
        ensures what { result ≡ words_for self.now.telling call.old.state }
        ensures call { call.new ≡ told_call result call.old }
    {
        match self.telling {
            Telling::Answers => {
                call.state = CallState::Answered;
                Told::Answers
            }
            Telling::Stops if call.is_queued() => {
                call.state = CallState::NotMade;
                Told::Drops
            }
            Telling::Losses | Telling::Stops => {
                call.state = CallState::NotKnown;
                Told::Loses
            }
            Telling::Nothing => unreachable!(),
        }
    }

    /// Nothing is put any more, and each call that is not over is told.
    pub fn stop(&mut self)
        ensures { self.new ≡ stopped_of self.old }
    {
        self.is_stopped = true;
        self.is_filling = false;
        self.is_full = false;
        self.is_putting = false;
        self.taken = self.submitted;
        self.told_to = self.submitted;
        self.telling = Telling::Stops;
    }
}
