//! Answers that wait to be written.
ghost use Rattle.std.specs.Prelude.{◌≡◌, ◌<◌, ◌++◌, [], length, OnOk};
ghost use Rattle.pid_script.specs.{Script.{with_newline}, Answers.{answer_of, lent}};
ghost use Rattle.script_session.specs.Dialogue.{Holds, Writes};

use crate::tally::RunScriptFault;
use arrayvec::ArrayVec;
use pid_script::answer::{LONGEST_ANSWER, push_answer};
use pid_types::device::Sink;
use pid_types::reply::{CallFault, Reply};
use std::marker::Model;

/// How many bytes wait at most.
const ROOM: usize = 8192;

/// Writes all of the bytes.
pub fn write_all<K: Sink>(sink: &mut K, bytes: &[u8]) -> Result<(), RunScriptFault>
    ensures { Writes result (K.did sink.old sink.new) bytes.now (K.has_failed sink.new) (K.is_full sink.new) }
{
    let mut left = bytes;
    while !left.is_empty() {
        let Ok(count) = sink.write(left) else {
            return Err(RunScriptFault::Write);
        };
        if count == 0 {
            return Err(RunScriptFault::Write);
        }
        left = &left[count..];
    }
    Ok(())
}

/// Answers that wait to be written, so that a short answer does not cost a write of its own.
#[derive(Drop)]
pub struct Outbox {
    held: ArrayVec<u8, ROOM>,
}

impl Model for Outbox {
    ghost use Rattle.std.specs.Prelude.{List, ℕ};

    ghost Value = { List ℕ };

    ghost view = { λ a. a.held.items };
}

impl Outbox {
    /// Nothing waits.
    pub fn new() -> Outbox
        ensures { result ≡ [] }
    {
        Outbox {
            held: ArrayVec::new(),
        }
    }

    /// Writes what is held.
    pub fn flush<K: Sink>(&mut self, sink: &mut K) -> Result<(), RunScriptFault>
        ensures written { Writes result (K.did sink.old sink.new) self.old
            (K.has_failed sink.new) (K.is_full sink.new) }
        ensures empty { OnOk result (self.new ≡ []) }
    {
        write_all(sink, self.held.as_slice())?;
        self.held.clear();
        Ok(())
    }

    /// Holds the line and its newline, and makes room for them first.
    #[tactic(auto, using(crate::proofs::Sent::stops))]
    #[inline(always)]
    pub fn push_line<K: Sink>(&mut self, sink: &mut K, line: &[u8]) -> Result<(), RunScriptFault>
        requires { length line.now < 8192 }
        ensures { Holds result (K.did sink.old sink.new) (self.old ++ with_newline line.now) self.new
            (K.has_failed sink.new) (K.is_full sink.new) }
    {
        if self.held.remaining_capacity() <= line.len() {
            self.flush(sink)?;
        }
        self.held.try_extend_from_slice(line).unwrap();
        self.held.push(b'\n');
        Ok(())
    }

    /// Holds the answer and its newline, and makes room for the longest answer first.
    #[tactic(auto, using(crate::proofs::Sent::stops))]
    #[inline(always)]
    pub fn push_answer<K: Sink>(
        &mut self,
        sink: &mut K,
        answer: Result<&Reply, CallFault>,
    ) -> Result<(), RunScriptFault>
        ensures { Holds result (K.did sink.old sink.new)
            (self.old ++ with_newline (answer_of (lent answer.entry))) self.new
            (K.has_failed sink.new) (K.is_full sink.new) }
    {
        if self.held.remaining_capacity() <= LONGEST_ANSWER {
            self.flush(sink)?;
        }
        push_answer(&mut self.held, answer);
        self.held.push(b'\n');
        Ok(())
    }
}
