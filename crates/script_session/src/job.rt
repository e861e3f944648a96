//! Jobs: scripts that are read to their end before any call is made.
ghost use Rattle.std.specs.Prelude.{◌≡◌, Some, ◌+◌, ◌^◌, ◌<◌, ◌≤◌, [], ◌∷◌, length, OnOk, IfOk, IfErr};
ghost use Rattle.pid_script.specs.Script.{said_within, kept_after, last_said};
ghost use Rattle.script_session.specs.Job.{Adds, IsStopped, Yields, MeetsFault};

use crate::session::CHUNK;
use pid_script::bytes::split_line;
use pid_script::line::Line;
use pid_script::part::PartLine;
use pid_types::call::Call;
use pid_types::device::Source;
use std::alloc::Global;
use thiserror::Error;

/// The most bytes of a job.
pub const MOST_JOB_BYTES: usize = 1_048_576;

/// Why a job has no calls: the first fault that was met, reading forwards.
#[derive(Clone, Copy, Debug, PartialEq, Eq, Error)]
pub enum JobFault {
    /// The source failed.
    #[error("read fault")]
    Read,
    /// There are more than [`MOST_JOB_BYTES`] bytes.
    #[error("too long")]
    TooLong,
    /// The line with the number, counted from 1, is bad.
    #[error("line {0}: bad line")]
    BadLine(u64),
    /// There was no memory for the calls.
    #[error("no memory")]
    NoMemory,
}

/// A job on its way: the line that has not ended, the calls of those that have, and their number.
#[derive(Drop)]
struct Job {
    part: PartLine,
    calls: Vec<Call>,
    lines: u64,
}

impl Job {
    /// Nothing has come.
    fn new(alloc: Global) -> Job
        ensures part { result.part ≡ Some [] }
        ensures calls { result.calls.items ≡ [] }
        ensures lines { result.lines ≡ 0 }
    {
        Job {
            part: PartLine::new(),
            calls: Vec::new(alloc),
            lines: 0,
        }
    }

    /// Adds what a line says.
    fn push(&mut self, line: Line) -> Result<(), JobFault>
        requires room { self.old.lines + 1 < 2 ^ 64 }
        ensures ok { OnOk result (Adds self.old.calls.items self.old.lines
            self.new.calls.items self.new.lines (line ∷ [])) }
        ensures err { IfErr result (IsStopped self.old.lines (line ∷ [])) }
        ensures part { self.new.part ≡ self.old.part }
    {
        self.lines += 1;
        match line {
            Line::Empty => Ok(()),
            Line::Call(call) => match self.calls.push(call) {
                Ok(()) => Ok(()),
                Err(_) => Err(JobFault::NoMemory),
            },
            Line::Bad => Err(JobFault::BadLine(self.lines)),
        }
    }

    /// Adds the lines that end within the bytes, and keeps what comes behind them.
    #[tactic(auto, using(crate::proofs::Jobs::pieces))]
    fn push_bytes(&mut self, bytes: &[u8]) -> Result<(), JobFault>
        requires room { self.old.lines + length bytes.now < 2 ^ 64 }
        ensures ok { OnOk result (Adds self.old.calls.items self.old.lines
            self.new.calls.items self.new.lines (said_within self.old.part bytes.now)) }
        ensures err { IfErr result (IsStopped self.old.lines (said_within self.old.part bytes.now)) }
        ensures part { OnOk result (self.new.part ≡ kept_after self.old.part bytes.now) }
        ensures few { OnOk result (self.new.lines ≤ self.old.lines + length bytes.now) }
    {
        let mut rest = bytes;
        while let Some((end, after)) = split_line(rest) {
            let line = self.part.finish(end);
            self.push(line)?;
            rest = after;
        }
        self.part.push(rest);
        Ok(())
    }

    /// Adds the last line, if it has no newline.
    fn push_last(&mut self) -> Result<(), JobFault>
        requires room { self.old.lines + 1 < 2 ^ 64 }
        ensures ok { OnOk result (Adds self.old.calls.items self.old.lines
            self.new.calls.items self.new.lines (last_said self.old.part)) }
        ensures err { IfErr result (IsStopped self.old.lines (last_said self.old.part)) }
    {
        if self.part.is_empty() {
            return Ok(());
        }
        let line = self.part.finish_kept(b"");
        self.push(line)
    }
}

/// Reads a job to its end: the calls of its lines, in order. Lines are those of a script; an empty
/// one counts and says no call.
///
/// A line is judged at its end, so a bad line is met before the byte behind it, and the byte behind
/// the [`MOST_JOB_BYTES`]th is [`JobFault::TooLong`] whatever its line would say. After a fault
/// nothing more is read. The cost is linear in the bytes, and so is the memory, in the calls.
pub fn read_job<S: Source>(alloc: Global, source: &mut S) -> Result<Vec<Call>, JobFault>
    ensures ok { IfOk result (λ calls. Yields (S.remaining source.old) (S.remaining source.new) calls.items) }
    ensures err { IfErr result
        (MeetsFault (S.remaining source.old) (S.remaining source.new) (S.has_failed source.new)) }
{
    let mut job = Job::new(alloc);
    let mut room = MOST_JOB_BYTES;
    let mut chunk = [0_u8; CHUNK];
    // Each read but the last gives a byte or more, so the end, or a byte too many, comes in these.
    for _turn in 0..MOST_JOB_BYTES + 1 {
        let count = match source.read(&mut chunk) {
            Ok(count) => count,
            Err(_) => return Err(JobFault::Read),
        };
        if count == 0 {
            job.push_last()?;
            return Ok(job.calls);
        }
        job.push_bytes(&chunk[..count.min(room)])?;
        if count > room {
            return Err(JobFault::TooLong);
        }
        room -= count;
    }
    unreachable!()
}
