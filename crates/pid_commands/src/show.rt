//! What `work` writes: each worker's receipts in the order of the workers, and then the list.
ghost use Rattle.std.specs.{Prelude.{◌≡◌, ◌++◌, OnOk, IfOk}, List.{flat_map}, Io.KnownBytes.{Appends}};
ghost use Rattle.{
  pid_script.specs.{Answers.{reply_text}, Script.{with_newline}},
  pid_commands.specs.Output.{receipt_line, work_lines, works_text},
  table_lines.specs.Listed.{list_of_state},
};

use locked_table::Record;
use pid_script::answer::answer_text;
use pid_types::entry::Receipt;
use pid_workers::Work;
use std::alloc::{AllocError, Global};
use std::io;
use std::io::Write;
use std::sync::ledger::Ledger;
use table_lines::list::list_table;

/// The text of what the workers had, in their order, and then the list of the table that they leave.
/// It is held whole, beside the list. The only error is want of memory.
pub(crate) fn finished_text<L: Ledger, const N: usize>(
    alloc: Global,
    kept: &Record<L, N>,
    works: Vec<Work>,
) -> Result<Vec<u8>, AllocError>
    ensures { IfOk result (λ text. text.items
        ≡ works_text 0 works.items ++ list_of_state kept.now.present) }
{
    let list = list_table(alloc, kept.present())?;
    let mut text = Vec::new(alloc);
    match write_shown(&mut text, works, list.as_slice()) {
        Ok(()) => Ok(text),
        Err(_) => Err(AllocError),
    }
}

/// Writes the lines of the workers, and then the list.
fn write_shown<W: Write>(writer: &mut W, works: Vec<Work>, list: &[u8]) -> io::Result<()>
    ensures { OnOk result (Appends (W.contents writer.old) (W.contents writer.new)
        (works_text 0 works.items ++ list.now)) }
{
    write_works(writer, works)?;
    writer.write_all(list)
}

/// Writes the lines of each worker, the first of whom is worker 0.
fn write_works<W: Write>(writer: &mut W, works: Vec<Work>) -> io::Result<()>
    ensures { OnOk result (Appends (W.contents writer.old) (W.contents writer.new) (works_text 0 works.items)) }
{
    let mut worker = 0usize;
    for work in works {
        write_work(writer, worker, work)?;
        worker += 1;
    }
    Ok(())
}

/// Writes a line `worker W`, the line of each receipt, and a line `refused K`, where K is how many
/// calls had no receipt.
fn write_work<W: Write>(writer: &mut W, worker: usize, work: Work) -> io::Result<()>
    ensures { OnOk result (Appends (W.contents writer.old) (W.contents writer.new) (work_lines worker work)) }
{
    let Work { receipts, refused } = work;
    writeln!(writer, "worker {worker}")?;
    write_receipts(writer, receipts)?;
    writeln!(writer, "refused {refused}")
}

/// Writes the line of each receipt.
fn write_receipts<W: Write>(writer: &mut W, receipts: Vec<Receipt>) -> io::Result<()>
    ensures { OnOk result (Appends (W.contents writer.old) (W.contents writer.new)
        (flat_map receipt_line receipts.items)) }
{
    for receipt in receipts {
        write_receipt(writer, receipt)?;
    }
    Ok(())
}

/// Writes a line `ORDINAL ANSWER`.
fn write_receipt<W: Write>(writer: &mut W, receipt: Receipt) -> io::Result<()>
    ensures { OnOk result (Appends (W.contents writer.old) (W.contents writer.new) (receipt_line receipt)) }
{
    let ordinal = receipt.ordinal;
    write!(writer, "{ordinal} ")?;
    write_answer(writer, receipt)
}

/// Writes the answer that the receipt has, and a newline.
fn write_answer<W: Write>(writer: &mut W, receipt: Receipt) -> io::Result<()>
    ensures { OnOk result (Appends (W.contents writer.old) (W.contents writer.new)
        (with_newline (reply_text receipt.reply))) }
{
    writer.write_all(answer_text(&Ok(receipt)).as_slice())?;
    writer.write_all(b"\n")
}
