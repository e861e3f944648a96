//! The answer to one line.
ghost use Rattle.std.specs.Prelude.{◌≡◌, codes, IfOk, OnErr, OnOk};
ghost use Rattle.pid_script.specs.{Answers.{answer_of, lent}, Reading.{parsed}};
ghost use Rattle.replica.specs.Replicas.{after_line, answer_to};

use arrayvec::ArrayVec;
use pid_script::answer::{LONGEST_ANSWER, push_answer};
use pid_script::line::{Line, parse_line};
use pid_types::call::Call;
use pid_types::reply::{CallFault, Reply};
use stamped_table::StampedTable;
use std::alloc::AllocError;

/// The text of an answer.
fn text_of(answer: Result<&Reply, CallFault>) -> ArrayVec<u8, LONGEST_ANSWER>
    ensures { result.items ≡ answer_of (lent answer.entry) }
{
    let mut text = ArrayVec::new();
    push_answer(&mut text, answer);
    text
}

/// The answer to a line that is none of the table of calls.
fn bad_line() -> ArrayVec<u8, LONGEST_ANSWER>
    ensures { result.items ≡ codes "bad line" }
{
    let mut text = ArrayVec::new();
    if text.try_extend_from_slice(b"bad line").is_err() {
        unreachable!()
    }
    text
}

/// Makes a call, and answers it. The error is want of memory; the table is as it was then.
fn answer_call(
    table: &mut StampedTable,
    call: Call,
) -> Result<ArrayVec<u8, LONGEST_ANSWER>, AllocError>
    ensures answer { IfOk result (λ text. text.items ≡ answer_to table.old (Line.Call call)) }
    ensures after { OnOk result (table.new ≡ after_line table.old (Line.Call call)) }
    ensures err { OnErr result (table.new ≡ table.old) }
{
    let mut reply = Reply::Done;
    match table.make(call, &mut reply) {
        Ok(()) => Ok(text_of(Ok(&reply))),
        Err(CallFault::Spent) => Ok(text_of(Err(CallFault::Spent))),
        Err(CallFault::NoMemory) => Err(AllocError),
    }
}

/// Answers a line. The error is want of memory; the table is as it was then.
pub(crate) fn answer_line(
    table: &mut StampedTable,
    line: &[u8],
) -> Result<ArrayVec<u8, LONGEST_ANSWER>, AllocError>
    ensures answer { IfOk result (λ text. text.items ≡ answer_to table.old (parsed line.now)) }
    ensures after { OnOk result (table.new ≡ after_line table.old (parsed line.now)) }
    ensures err { OnErr result (table.new ≡ table.old) }
{
    match parse_line(line) {
        Line::Empty => Ok(ArrayVec::new()),
        Line::Bad => Ok(bad_line()),
        Line::Call(call) => answer_call(table, call),
    }
}
