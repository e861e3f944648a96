//! A call that was submitted, as its host has it.
ghost use Rattle.std.specs.Prelude.{◌≡◌, ◌↔◌, ◌≤◌, IsTrue, MatchBool};
ghost use Rattle.host_calls.specs.Calls.{is_over, is_queued, cancelled, given_up};

/// Where a call is. From the last four it never goes on.
#[derive(Clone, Copy)]
pub enum CallState {
    /// It waits for its turn, and no entry has it.
    Queued,
    /// It is in the entry with its session and its number. The entry is being made up, or it was put.
    Entered,
    /// The log has made it there, and it has the log's answer.
    Answered,
    /// Nobody knows whether the log has made it, or will.
    NotKnown,
    /// Nobody waits for it any more, and it is never made.
    NotMade,
    /// It was cancelled, and is never made.
    Cancelled,
}

/// A call: lines that go into one entry.
#[derive(Clone, Copy)]
pub struct HostCall {
    /// So many calls were submitted to its host before it.
    pub ticket: u64,
    /// So many lines it has, and so many bytes they take in an entry.
    pub lines: u64,
    pub size: u64,
    /// The time until which its answer is waited for, by the clock of whoever has submitted it.
    pub deadline: u64,
    /// The session and the number of the entry that has it, and how many lines stand before it there.
    pub session: u64,
    pub sequence: u64,
    pub place: u64,
    pub state: CallState,
}

impl HostCall {
    /// Whether it is answered, or its caller was told that it will not be.
    pub fn is_over(&self) -> bool
        ensures { result ≡ is_over self.now.state }
    {
        match self.state {
            CallState::Queued | CallState::Entered => false,
            CallState::Answered | CallState::NotKnown | CallState::NotMade | CallState::Cancelled =>
                true,
        }
    }

    /// Whether no entry has it, and it waits.
    pub fn is_queued(&self) -> bool
        ensures { result ≡ is_queued self.now.state }
    {
        match self.state {
            CallState::Queued => true,
            CallState::Entered
            | CallState::Answered
            | CallState::NotKnown
            | CallState::NotMade
            | CallState::Cancelled => false,
        }
    }

    /// Cancels it, if no entry has it yet: whether that is so. Then it is never made.
    pub fn cancel(&mut self) -> bool
        ensures when { result ≡ is_queued self.old.state }
        ensures becomes { self.new ≡ cancelled self.old }
    {
        match self.state {
            CallState::Queued => {
                self.state = CallState::Cancelled;
                true
            }
            CallState::Entered
            | CallState::Answered
            | CallState::NotKnown
            | CallState::NotMade
            | CallState::Cancelled => false,
        }
    }

    /// Nobody waits for it any more. If no entry has it, it is never made; else nobody knows.
    pub fn give_up(&mut self)
        ensures { self.new ≡ given_up self.old }
    {
        match self.state {
            CallState::Queued => self.state = CallState::NotMade,
            CallState::Entered => self.state = CallState::NotKnown,
            CallState::Answered | CallState::NotKnown | CallState::NotMade | CallState::Cancelled =>
                {}
        }
    }

    /// Gives it up if it is as late as its deadline: whether it is. A time is that of the deadline's clock.
    pub fn expire(&mut self, time: u64) -> bool
        ensures when { IsTrue result ↔ (self.old.deadline ≤ time) }
        ensures becomes { MatchBool result (self.new ≡ given_up self.old) (self.new ≡ self.old) }
    {
        if time < self.deadline {
            return false;
        }
        self.give_up();
        true
    }
}
