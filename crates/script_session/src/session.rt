//! Scripts answered line by line: [`run_script`], over any [`Table`], source and sink, and [`run_dialogue`], over one
//! device that is both. A session holds one line that has not ended and at most 8,192 bytes of answers; it takes no
//! memory of its own.
ghost use Rattle.std.specs.Prelude.{◌≡◌, ◌≢◌, Some, ◌+◌, ◌^◌, ◌<◌, ◌≤◌, ◌++◌, ◌∷◌, [], List, ℕ, length, OnOk, OnErr};
ghost use Rattle.std.specs.Prelude.{Bool, IfOk, IfErr, Err, Option, IsSome, option_copied, IsTrue, if◌then◌else◌};
ghost use Rattle.std.specs.{Result.{is_ok}, Io.KnownBytes.{ReadConsumes}};
ghost use Rattle.{
  pid_types.specs.{Devices.{DidBoth, reading}, State.{State}, declared.call.Call.{Call}, declared.reply.Reply.{Reply}},
  script_session.specs.declared.tally.RunScriptFault.TheVariants.{NoMemory, Read, Write},
  script_session.specs.{Progress.{at_start, HasStopped}, Dialogue.{Converses, Holds, Responds}},
  script_session.specs.Counts.{CountsLine, CountsPiece, MayCount},
  script_session.specs.Session.{Acts, made_by, is_starved, ended_at, progress_of, IsTallied, Finishes, Leaves},
  pid_script.specs.Script.{with_newline, said_within, kept_after, last_said, said_next},
  pid_script.specs.Answers.{answer_of, lent, replied},
};

use crate::outbox::Outbox;
use crate::tally::{RunScriptFault, Tally};
use pid_script::bytes::split_line;
use pid_script::line::Line;
use pid_script::part::PartLine;
use pid_types::call::Call;
use pid_types::device::{Both, Dialogue, Sink, Source};
use pid_types::reply::{CallFault, Reply};

/// The most bytes that a read asks for.
pub const CHUNK: usize = 4096;

/// A table that answers one call after another.
pub trait Table {
    // Its plain state.
    ghost state: { Self → State };
    // The stamp of the next call.
    ghost stamp: { Self → ℕ };
    // The reply that it holds, if any: that to the last call that was made.
    ghost held: { Self → Option Reply };
    // The calls that it made between two moments, with their replies.
    ghost did: { Self → Self → List (Call × Reply) → Type 0 };
    // Which calls may find no memory.
    ghost may_starve: { Call → Bool };

    /// Makes the call, and holds the reply. After a fault the table is as it was.
    fn act(&mut self, call: Call) -> Result<(), CallFault>
        ensures acts { Acts may_starve (state self.old) (stamp self.old) call (replied result (held self.new))
            (state self.new) (stamp self.new) }
        ensures held { OnOk result (IsSome (held self.new)) }
        ensures did { did self.old self.new (made_by call (replied result (held self.new))) };

    /// Lends the reply that it holds. It costs nothing.
    fn reply(&self) -> Option<&Reply>
        ensures { option_copied result ≡ held self.now };

    ghost nothing: { (a : Self) → did a a [] };

    ghost more: { (a b c : Self) (xs ys : List (Call × Reply)) → did a b xs → did b c ys → did a c (xs ++ ys) };
}

/// A script on its way: the line that has not ended, the answers that are not written, and the
/// counts.
#[derive(Drop)]
pub struct Session {
    pub part: PartLine,
    pub outbox: Outbox,
    pub tally: Tally,
}

/// Reads once, into the front of the chunk.
fn read_chunk<S: Source>(source: &mut S, chunk: &mut [u8]) -> Result<usize, RunScriptFault>
    ensures event { S.did source.old source.new (reading (length chunk.old) result chunk.new ∷ []) }
    ensures bound { IfOk result (λ n. n ≤ length chunk.new) }
    ensures bytes { ReadConsumes (S.remaining source.old) (S.remaining source.new) result chunk.new }
    ensures fails { IfErr result (λ e. (e ≡ Read) × IsTrue (S.has_failed source.new)) }
{
    match source.read(chunk) {
        Ok(count) => Ok(count),
        Err(_) => Err(RunScriptFault::Read),
    }
}

/// Counts a call.
fn count_call(tally: &mut Tally, made: Result<(), CallFault>)
    requires { MayCount tally.old 1 }
    ensures lines { tally.new.lines ≡ tally.old.lines + 1 }
    ensures recorded { tally.new.recorded ≡ (if is_ok made then tally.old.recorded + 1 else tally.old.recorded) }
    ensures starved { tally.new.starved ≡ (if is_starved made then tally.old.starved + 1 else tally.old.starved) }
    ensures bad { tally.new.bad ≡ tally.old.bad }
    ensures counted { IsTallied tally.new }
{
    tally.lines += 1;
    match made {
        Ok(()) => tally.recorded += 1,
        Err(CallFault::NoMemory) => tally.starved += 1,
        Err(CallFault::Spent) => {}
    }
}

/// The answer to the call that was made last: the reply that the table holds.
fn answer_held<T: Table>(table: &T, made: Result<(), CallFault>) -> Result<&Reply, CallFault>
    requires { OnOk made (IsSome (T.held table.now)) }
    ensures { lent result ≡ replied made (T.held table.now) }
{
    made?;
    let Some(reply) = table.reply() else {
        unreachable!()
    };
    Ok(reply)
}

/// Counts a call, and answers it: by the reply that the table holds, if the call was made.
#[inline(always)]
fn tell_answer<T: Table, K: Sink>(
    session: &mut Session,
    table: &T,
    sink: &mut K,
    made: Result<(), CallFault>,
) -> Result<(), RunScriptFault>
    requires held { OnOk made (IsSome (T.held table.now)) }
    requires counted { MayCount session.old.tally 1 }
    ensures told { Holds result (K.did sink.old sink.new)
        (session.old.outbox ++ with_newline (answer_of (replied made (T.held table.now)))) session.new.outbox
        (K.has_failed sink.new) (K.is_full sink.new) }
    ensures counted { CountsLine session.old session.new }
    ensures recorded { session.new.tally.recorded
        ≡ (if is_ok made then session.old.tally.recorded + 1 else session.old.tally.recorded) }
    ensures starved { session.new.tally.starved
        ≡ (if is_starved made then session.old.tally.starved + 1 else session.old.tally.starved) }
    ensures bad { session.new.tally.bad ≡ session.old.tally.bad }
{
    count_call(&mut session.tally, made);
    session.outbox.push_answer(sink, answer_held(table, made))
}

/// Makes a call, and answers it.
#[inline(always)]
fn answer_call<T: Table, K: Sink>(
    session: &mut Session,
    table: &mut T,
    sink: &mut K,
    call: Call,
) -> Result<(), RunScriptFault>
    requires { MayCount session.old.tally 1 }
    ensures told { Responds T.may_starve result
        (progress_of (T.state table.old) (T.stamp table.old) session.old.tally session.old.outbox)
        (progress_of (T.state table.new) (T.stamp table.new) session.new.tally session.new.outbox)
        (K.did sink.old sink.new) (T.did table.old table.new) (Line.Call call ∷ [])
        (K.has_failed sink.new) (K.is_full sink.new) }
    ensures counted { CountsLine session.old session.new }
{
    let made = table.act(call);
    tell_answer(session, table, sink, made)
}

/// Answers a line.
#[inline(always)]
fn answer_line<T: Table, K: Sink>(
    session: &mut Session,
    table: &mut T,
    sink: &mut K,
    line: Line,
) -> Result<(), RunScriptFault>
    requires { MayCount session.old.tally 1 }
    ensures told { Responds T.may_starve result
        (progress_of (T.state table.old) (T.stamp table.old) session.old.tally session.old.outbox)
        (progress_of (T.state table.new) (T.stamp table.new) session.new.tally session.new.outbox)
        (K.did sink.old sink.new) (T.did table.old table.new) (line ∷ [])
        (K.has_failed sink.new) (K.is_full sink.new) }
    ensures counted { CountsLine session.old session.new }
{
    match line {
        Line::Empty => {
            session.tally.lines += 1;
            Ok(())
        }
        Line::Call(call) => answer_call(session, table, sink, call),
        Line::Bad => {
            session.tally.lines += 1;
            session.tally.bad += 1;
            session.outbox.push_line(sink, b"bad line")
        }
    }
}

/// Answers the lines that end within the chunk.
fn answer_chunk<T: Table, K: Sink>(
    session: &mut Session,
    table: &mut T,
    sink: &mut K,
    chunk: &[u8],
) -> Result<(), RunScriptFault>
    requires { MayCount session.old.tally (length chunk.now) }
    ensures told { Responds T.may_starve result
        (progress_of (T.state table.old) (T.stamp table.old) session.old.tally session.old.outbox)
        (progress_of (T.state table.new) (T.stamp table.new) session.new.tally session.new.outbox)
        (K.did sink.old sink.new) (T.did table.old table.new) (said_within session.old.part chunk.now)
        (K.has_failed sink.new) (K.is_full sink.new) }
    ensures part { OnOk result (session.new.part ≡ kept_after session.old.part chunk.now) }
    ensures counted { IsTallied session.new.tally }
    ensures lines { session.new.tally.lines ≤ session.old.tally.lines + length chunk.now }
{
    let mut rest = chunk;
    while let Some((end, after)) = split_line(rest) {
        let line = session.part.finish(end);
        answer_line(session, table, sink, line)?;
        rest = after;
    }
    session.part.push(rest);
    Ok(())
}

/// Answers the last line, if it has no newline.
fn answer_last<T: Table, K: Sink>(
    session: &mut Session,
    table: &mut T,
    sink: &mut K,
) -> Result<(), RunScriptFault>
    requires { MayCount session.old.tally 1 }
    ensures { Responds T.may_starve result
        (progress_of (T.state table.old) (T.stamp table.old) session.old.tally session.old.outbox)
        (progress_of (T.state table.new) (T.stamp table.new) session.new.tally session.new.outbox)
        (K.did sink.old sink.new) (T.did table.old table.new) (last_said session.old.part)
        (K.has_failed sink.new) (K.is_full sink.new) }
{
    if session.part.is_empty() {
        return Ok(());
    }
    let line = session.part.finish_kept(b"");
    answer_line(session, table, sink, line)
}

/// Answers what was read: the lines that end within the piece, or the last line, where nothing was read.
fn answer_read<T: Table, K: Sink>(
    session: &mut Session,
    table: &mut T,
    sink: &mut K,
    piece: &[u8],
) -> Result<(), RunScriptFault>
    requires { MayCount session.old.tally (length piece.now + 1) }
    ensures told { Responds T.may_starve result
        (progress_of (T.state table.old) (T.stamp table.old) session.old.tally session.old.outbox)
        (progress_of (T.state table.new) (T.stamp table.new) session.new.tally session.new.outbox)
        (K.did sink.old sink.new) (T.did table.old table.new) (said_next session.old.part piece.now)
        (K.has_failed sink.new) (K.is_full sink.new) }
    ensures kept { CountsPiece result session.old session.new piece.now }
{
    if piece.is_empty() {
        return answer_last(session, table, sink);
    }
    answer_chunk(session, table, sink, piece)
}

/// Answers what was read, and writes all answers.
fn answer_piece<T: Table, K: Sink>(
    session: &mut Session,
    table: &mut T,
    sink: &mut K,
    piece: &[u8],
) -> Result<(), RunScriptFault>
    requires { MayCount session.old.tally (length piece.now + 1) }
    ensures told { Responds T.may_starve result
        (progress_of (T.state table.old) (T.stamp table.old) session.old.tally session.old.outbox)
        (progress_of (T.state table.new) (T.stamp table.new) session.new.tally session.new.outbox)
        (K.did sink.old sink.new) (T.did table.old table.new) (said_next session.old.part piece.now)
        (K.has_failed sink.new) (K.is_full sink.new) }
    ensures empty { OnOk result (session.new.outbox ≡ []) }
    ensures kept { CountsPiece result session.old session.new piece.now }
{
    answer_read(session, table, sink, piece)?;
    session.outbox.flush(sink)
}

impl Session {
    /// Nothing has come, nothing waits, nothing was counted.
    fn new() -> Session
        ensures part { result.part ≡ Some [] }
        ensures outbox { result.outbox ≡ [] }
        ensures tally { result.tally ≡ record { lines = 0; recorded = 0; bad = 0; starved = 0 } }
    {
        Session {
            part: PartLine::new(),
            outbox: Outbox::new(),
            tally: Tally {
                lines: 0,
                recorded: 0,
                bad: 0,
                starved: 0,
            },
        }
    }
}

/// Reads a script to its end, and writes the answer to each line.
///
/// A line ends at a newline; what follows the last newline is a line if it has a byte. An empty
/// line is answered with nothing, a call with [`pid_script::answer::answer_text`], and each other line,
/// also one of more than [`pid_script::part::LONGEST_LINE`] bytes, with `bad line`. The answers of all lines
/// that have ended are written before the next read, so whoever drives the script by a pipe may wait for
/// them. A read asks for at most 4096 bytes, and there are at most `turns`.
///
/// `Read` comes where the source has failed, `Write` where the sink has failed or took nothing of a
/// write, and `TooManyTurns` where `turns` reads did not find the end of the source; what is
/// written then is the meaning of the lines that had ended, and for `Write` the front of it.
/// Nothing is read or written after a fault. `NoMemory` does not come.
///
/// The order of reads and writes is said by `talk`, in the words of a device that knows it.
pub fn run_dialogue<T: Table, D: Dialogue>(
    table: &mut T,
    devices: &mut D,
    turns: u32,
) -> Result<Tally, RunScriptFault>
    ensures ok { IfOk result (λ tally. (text : List ℕ) × (calls : List (Call × Reply))
        × T.did table.old table.new calls × Finishes T.may_starve (at_start (T.state table.old) (T.stamp table.old))
        (ended_at (T.state table.new) (T.stamp table.new) tally text calls)
        (D.remaining devices.old) (D.remaining devices.new) (D.contents devices.old) (D.contents devices.new)) }
    ensures err { IfErr result (Leaves T.may_starve turns (at_start (T.state table.old) (T.stamp table.old))
        (D.remaining devices.old) (D.remaining devices.new) (D.contents devices.old) (D.contents devices.new)
        (D.Source.has_failed devices.new)) }
    ensures talk { Converses T.may_starve turns (at_start (T.state table.old) (T.stamp table.old))
        (D.Source.did devices.old devices.new) result }
    ensures same { D.is_same devices.old devices.new }
    ensures whole { OnOk result ((D.Source.has_failed devices.new ≡ D.Source.has_failed devices.old)
        × (D.Sink.has_failed devices.new ≡ D.Sink.has_failed devices.old)
        × (D.is_full devices.new ≡ D.is_full devices.old)) }
    ensures made { IfErr result (λ e. e ≢ NoMemory) }
    ensures stopped { result ≡ Err Write → HasStopped (D.Sink.has_failed devices.new) (D.is_full devices.new) }
{
    let mut session = Session::new();
    let mut chunk = [0_u8; CHUNK];
    for _turn in 0..turns {
        let count = read_chunk(devices, &mut chunk)?;
        answer_piece(&mut session, table, devices, &chunk[..count])?;
        if count == 0 {
            return Ok(session.tally);
        }
    }
    Err(RunScriptFault::TooManyTurns)
}

/// Runs a script as [`run_dialogue`] does, over a source and a sink that are two things: the contract tells what each
/// of them did, and that there is one order of it all in which every whole line was answered before the next read.
pub fn run_script<T: Table, S: Source, K: Sink>(
    table: &mut T,
    source: &mut S,
    sink: &mut K,
    turns: u32,
) -> Result<Tally, RunScriptFault>
    ensures ok { IfOk result (λ tally. (text : List ℕ) × (calls : List (Call × Reply))
        × T.did table.old table.new calls × Finishes T.may_starve (at_start (T.state table.old) (T.stamp table.old))
        (ended_at (T.state table.new) (T.stamp table.new) tally text calls)
        (S.remaining source.old) (S.remaining source.new) (K.contents sink.old) (K.contents sink.new)) }
    ensures err { IfErr result (Leaves T.may_starve turns (at_start (T.state table.old) (T.stamp table.old))
        (S.remaining source.old) (S.remaining source.new) (K.contents sink.old) (K.contents sink.new)
        (S.has_failed source.new)) }
    ensures talk { Converses T.may_starve turns (at_start (T.state table.old) (T.stamp table.old))
        (DidBoth (S.did source.old source.new) (K.did sink.old sink.new)) result }
    ensures whole { OnOk result ((S.has_failed source.new ≡ S.has_failed source.old)
        × (K.has_failed sink.new ≡ K.has_failed sink.old) × (K.is_full sink.new ≡ K.is_full sink.old)) }
    ensures made { IfErr result (λ e. e ≢ NoMemory) }
    ensures stopped { result ≡ Err Write → HasStopped (K.has_failed sink.new) (K.is_full sink.new) }
{
    let mut both = Both { source, sink };
    run_dialogue(table, &mut both, turns)
}
