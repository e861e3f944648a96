//! Steps on tables of their own: a job that is read, and scripts that are run.

ghost use Rattle.std.specs.Prelude.{◌≡◌};

use crate::step::{AloneKind, AloneStep};
use crate::tell::{MOST_TRIES, tell, tell_answers, tell_none};
use anyhow::{Result, bail};
use locked_table::Record;
use pid_types::config::Config;
use pid_types::device::{FromReader, ToWriter};
use pid_workers::{Tally, list_text_split, run_limited, run_state};
use script_session::job::{JobFault, read_job};
use std::alloc::{AllocError, Global};
use std::marker::Brand;
use std::sync::ledger::{Blank, Ledger};
use std::thread::Threads;

/// The most bytes that a run of these steps answers.
const MOST_ANSWERS: usize = 4096;

/// The most reads of a run: one for the script, and one that finds its end.
const READS: u32 = 2;

/// Makes a step until there is memory for all of it, and tells what it answers, below the line that tells of the step.
pub fn play<R: Print + Threads + AllocGlobal>(
    rt: &R,
    heading: &[&[u8]],
    config: &Config,
    step: &AloneStep,
) -> Result<()> {
    for _ in 0..MOST_TRIES {
        if play_once(rt, heading, config, step)? {
            return Ok(());
        }
    }
    bail!("no memory after {MOST_TRIES} tries")
}

/// Makes a step, and answers whether there was memory for all of it.
fn play_once<R: Print + Threads + AllocGlobal>(
    rt: &R,
    heading: &[&[u8]],
    config: &Config,
    step: &AloneStep,
) -> Result<bool> {
    let script = step.script.as_bytes();
    match step.kind {
        AloneKind::Job => read(rt, heading, script),
        AloneKind::Run => answer_all(rt, heading, config, script),
        AloneKind::State => {
            answer_and_list::<Brand, R>(rt, Blank::new(1), heading, config, script)
        }
    }
}

/// Reads a job, and tells how many calls it has.
fn read<R: Print + AllocGlobal>(rt: &R, heading: &[&[u8]], script: &[u8]) -> Result<bool> {
    tell(rt, heading)?;
    match read_job(rt.alloc(), &mut FromReader::new(script)) {
        Ok(calls) => {
            tell(rt, &[b"= "])?;
            println!(rt; "{} calls", calls.len())?;
            Ok(true)
        }
        Err(JobFault::NoMemory) => tell_none(rt),
        Err(fault) => bail!("{fault}"),
    }
}

/// Runs a script in few reads.
fn answer_all<R: Print + AllocGlobal>(
    rt: &R,
    heading: &[&[u8]],
    config: &Config,
    script: &[u8],
) -> Result<bool> {
    let mut source = FromReader::new(script);
    let mut text = Vec::with_capacity(rt.alloc(), MOST_ANSWERS)?;
    let mut sink = ToWriter::new(&mut text);
    tell(rt, heading)?;
    let outcome = run_limited(rt.alloc(), &mut source, &mut sink, config, READS);
    tell_answers(rt, text.as_slice(), outcome)
}

/// Runs a script, and lists the table that it leaves.
fn answer_and_list<L: Ledger, R: Print + Threads + AllocGlobal>(
    rt: &R,
    blank: Blank,
    heading: &[&[u8]],
    config: &Config,
    script: &[u8],
) -> Result<bool>
    requires name { blank.name ≡ L.name }
    requires parts { (blank.parts ≡ L.parts) × (L.parts ≡ 1) }
{
    let mut source = FromReader::new(script);
    let mut text = Vec::with_capacity(rt.alloc(), MOST_ANSWERS)?;
    let mut sink = ToWriter::new(&mut text);
    tell(rt, heading)?;
    match run_state::<L, _, _>(rt.alloc(), blank, &mut source, &mut sink, config) {
        Ok((tally, record)) => list_after(rt, text.as_slice(), tally, &record),
        Err(fault) => tell_answers(rt, text.as_slice(), Err(fault)),
    }
}

/// Tells the answers of a run, and the list of the table that it left.
fn list_after<L: Ledger, R: Print + Threads + AllocGlobal>(
    rt: &R,
    text: &[u8],
    tally: Tally,
    record: &Record<L, 1>,
) -> Result<bool> {
    match list_of(rt, rt.alloc(), record) {
        Ok(list) => {
            let is_whole = tell_answers(rt, text, Ok(tally))?;
            tell(rt, &[list.as_slice()])?;
            Ok(is_whole)
        }
        Err(AllocError) => tell_none(rt),
    }
}

/// The list of a record's snapshot, by two threads.
fn list_of<L: Ledger, R: Threads>(
    rt: &R,
    alloc: Global,
    record: &Record<L, 1>,
) -> Result<Vec<u8>, AllocError> {
    list_text_split(rt, alloc, &record.snapshot()?)
}
