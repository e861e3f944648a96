//! Steps on one table: each is made, and made again while there is no memory for it, and the table is
//! compared with what it was.

use crate::arrays::fill;
use crate::step::Step;
use crate::tell::{MOST_TRIES, tell, tell_none};
use anyhow::{Result, bail};
use locked_table::{Record, Seat};
use pid_script::answer::answer_text;
use pid_script::list::{list_text, push_field};
use pid_types::call::Call;
use pid_types::plain::Plain;
use pid_types::reply::CallFault;
use std::alloc::{AllocError, Global};
use std::sync::ledger::Ledger;
use table_lines::dump::dump_table;
use table_lines::list::list_table;

/// A table and its one seat.
#[derive(Drop)]
pub struct Seated<L: Ledger> {
    pub record: Record<L, 1>,
    pub seats: Vec<Seat<L, 1>>,
}

/// How many counts there are.
const COUNTS: usize = 7;

/// What the reading calls answer that take no memory: these counts.
static NAMES: [&[u8]; COUNTS] = [
    b"total ",
    b" kept ",
    b" recorded ",
    b" calls ",
    b" tasks ",
    b" controls ",
    b" pid_max ",
];

impl<L: Ledger> Seated<L> {
    /// Makes a step until there is memory for it, and tells what it answers, below the line that tells of the step.
    pub fn play<R: Print + AllocGlobal>(
        &mut self,
        rt: &R,
        sign: &[u8],
        words: &str,
        step: Step,
    ) -> Result<()> {
        let before = self.picture(rt.alloc())?;
        let heading = [sign, words.as_bytes(), b"\n"];
        self.try_all(rt, &heading, step, before.as_slice())
    }

    /// Makes a step until there is memory for it. While there is none, the table has to stay what it was before.
    fn try_all<R: Print + AllocGlobal>(
        &mut self,
        rt: &R,
        heading: &[&[u8]],
        step: Step,
        before: &[u8],
    ) -> Result<()> {
        for _ in 0..MOST_TRIES {
            tell(rt, heading)?;
            if self.try_once(rt, step)? {
                return Ok(());
            }
            tell_none(rt)?;
            self.expect_same(rt.alloc(), before)?;
        }
        bail!("no memory after {MOST_TRIES} tries")
    }

    /// The table is what it was before.
    fn expect_same(&self, alloc: Global, before: &[u8]) -> Result<()> {
        if self.picture(alloc)?.as_slice() != before {
            bail!("something has changed");
        }
        Ok(())
    }

    /// Makes a step, and tells what it answers. It answers whether there was memory for it.
    fn try_once<R: Print + AllocGlobal>(&mut self, rt: &R, step: Step) -> Result<bool> {
        let alloc = rt.alloc();
        match step {
            Step::Call(call) => self.call(rt, call),
            Step::Reserve(n) => tell_done(rt, self.record.reserve_calls(n)),
            Step::Checkpoint => tell_done(rt, self.record.checkpoint()),
            Step::Opening => tell_plain(rt, self.record.opening()),
            Step::Look => self.look(rt),
            Step::Snapshot => tell_plain(rt, self.record.snapshot()),
            Step::List => tell_text(rt, b"= list\n", list_table(alloc, self.record.present())),
            Step::Dump => tell_text(rt, b"= dump\n", self.dump(alloc)),
            Step::Array => tell_sum(rt, fill(alloc)?),
        }
    }

    /// Makes a call.
    fn call<R: Print>(&mut self, rt: &R, call: Call) -> Result<bool> {
        let Some(seat) = self.seats.get_mut(0) else {
            bail!("no seat");
        };
        match self.record.act(seat, call) {
            Err(CallFault::NoMemory) => Ok(false),
            answer => tell_made(rt, &[b"= ", answer_text(&answer).as_slice(), b"\n"]),
        }
    }

    /// The text that the table is saved in.
    fn dump(&self, alloc: Global) -> Result<Vec<u8>, AllocError> {
        let stamp = self.record.next_stamp().unwrap_or(u64::MAX);
        dump_table(alloc, self.record.present(), stamp)
    }

    /// What the reading calls answer now, in the order of their names.
    fn counts(&self) -> [u64; COUNTS] {
        [
            self.record.total(),
            self.record.first_kept(),
            self.record.recorded(0),
            self.calls(),
            self.record.tasks() as u64,
            self.record.controls() as u64,
            u64::from(self.record.config().pid_max()),
        ]
    }

    /// How many calls the seat has made.
    fn calls(&self) -> u64 {
        self.seats.get(0).map_or(0, |seat| seat.calls())
    }

    /// Tells what the reading calls answer. The calls come first, and take no memory.
    fn look<R: Print + AllocGlobal>(&self, rt: &R) -> Result<bool> {
        let counts = self.counts();
        tell(rt, &[b"= "])?;
        let mut line = Vec::new(rt.alloc());
        push_counts(&mut line, &counts)?;
        tell_made(rt, &[line.as_slice()])
    }

    /// All that can be read of the table now: its list, the counts, and the last entry of its history.
    fn picture(&self, alloc: Global) -> Result<Vec<u8>> {
        let mut picture = list_table(alloc, self.record.present())?;
        push_counts(&mut picture, &self.counts())?;
        self.push_last(alloc, &mut picture)?;
        Ok(picture)
    }

    /// Appends the last entry of the history.
    fn push_last(&self, alloc: Global, picture: &mut Vec<u8>) -> Result<()> {
        let last = self.record.entry(self.record.total().saturating_sub(1));
        picture.extend_from_slice(format!(in alloc; "{last:?}")?.as_bytes())?;
        Ok(())
    }
}

/// Appends the counts as a line.
fn push_counts(line: &mut Vec<u8>, counts: &[u64; COUNTS]) -> Result<(), AllocError> {
    for k in 0..COUNTS {
        push_field(line, NAMES[k], counts[k])?;
    }
    line.push(b'\n')?;
    Ok(())
}

/// Tells what was made. There was memory for it.
fn tell_made<R: Print>(rt: &R, parts: &[&[u8]]) -> Result<bool> {
    tell(rt, parts)?;
    Ok(true)
}

/// Tells that a step was made, where there was memory for it.
fn tell_done<R: Print>(rt: &R, made: Result<(), AllocError>) -> Result<bool> {
    match made {
        Ok(()) => tell_made(rt, &[b"= ok\n"]),
        Err(_) => Ok(false),
    }
}

/// Tells a text below its heading, where there was memory for it.
fn tell_text<R: Print>(rt: &R, heading: &[u8], made: Result<Vec<u8>, AllocError>) -> Result<bool> {
    match made {
        Ok(text) => tell_made(rt, &[heading, text.as_slice()]),
        Err(_) => Ok(false),
    }
}

/// Tells the list of a snapshot, where there was memory for the snapshot.
fn tell_plain<R: Print + AllocGlobal>(rt: &R, made: Result<Plain, AllocError>) -> Result<bool> {
    let Ok(plain) = made else {
        return Ok(false);
    };
    tell(rt, &[b"= snapshot\n"])?;
    tell_made(rt, &[list_text(rt.alloc(), &plain)?.as_slice()])
}

/// Tells the sum over an array, where there was memory for all of it.
fn tell_sum<R: Print>(rt: &R, made: Option<u64>) -> Result<bool> {
    let Some(sum) = made else {
        return Ok(false);
    };
    tell(rt, &[b"= "])?;
    println!(rt; "{sum}")?;
    Ok(true)
}
