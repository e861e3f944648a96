//! What the program writes, each piece by one write, so that a write ends the time in which growths
//! may be refused.

use anyhow::{Result, bail};
use arrayvec::ArrayVec;
use pid_workers::{RunScriptFault, Tally};
use std::io::Write;
use std::{io, str};

/// How often a step is made before it is given up.
pub const MOST_TRIES: u32 = 1000;

/// The most bytes of one piece.
const LONGEST_PIECE: usize = 8192;

/// Writes the parts as one piece. It takes no memory.
pub fn tell<R: Print>(rt: &R, parts: &[&[u8]]) -> Result<()> {
    let mut piece = ArrayVec::<u8, LONGEST_PIECE>::new();
    for part in parts {
        if piece.try_extend_from_slice(part).is_err() {
            bail!("a piece of more than {LONGEST_PIECE} bytes");
        }
    }
    io::writer(rt).write_all(piece.as_slice())?;
    Ok(())
}

/// Tells that there was no memory.
pub fn tell_none<R: Print>(rt: &R) -> Result<bool> {
    tell(rt, &[b"- no memory\n"])?;
    Ok(false)
}

/// Tells the answers of a run, and answers whether there was memory for all of its calls.
pub fn tell_answers<R: Print>(
    rt: &R,
    text: &[u8],
    outcome: Result<Tally, RunScriptFault>,
) -> Result<bool> {
    match outcome {
        Ok(_tally) => {
            let is_whole = !str::from_utf8(text)?.contains("no memory");
            let sign: &[u8] = if is_whole { b"= " } else { b"- " };
            tell(rt, &[sign, b"answers\n", text])?;
            Ok(is_whole)
        }
        Err(RunScriptFault::NoMemory) => tell_none(rt),
        Err(fault) => bail!("{fault}"),
    }
}
