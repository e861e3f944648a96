//! A script: its table, and its steps one after another.

ghost use Rattle.std.specs.Prelude.{◌≡◌};

use crate::alone::play as play_alone;
use crate::seated::Seated;
use crate::step::{parse_alone, parse_step};
use crate::tell::{MOST_TRIES, tell, tell_none};
use anyhow::{Result, bail};
use locked_table::Record;
use pid_types::config::Config;
use std::marker::Brand;
use std::sync::ledger::{Blank, Ledger};
use std::thread::Threads;

/// Plays the lines of a script, in a text of their own.
pub fn play_script<R: Print + Threads + AllocGlobal>(
    rt: &R,
    config: &Config,
    lines: &str,
) -> Result<()> {
    let lines = lines.to_string(rt.alloc())?;
    play_all(rt, config, &lines)
}

/// Opens a table, as often as that takes, and plays the lines on it.
fn play_all<R: Print + Threads + AllocGlobal>(
    rt: &R,
    config: &Config,
    lines: &String,
) -> Result<()> {
    for _ in 0..MOST_TRIES {
        if play_once(rt, config, lines)? {
            return Ok(());
        }
    }
    bail!("no table after {MOST_TRIES} tries")
}

/// Opens a table and plays the lines on it. It answers false where there was no memory for a table.
fn play_once<R: Print + Threads + AllocGlobal>(
    rt: &R,
    config: &Config,
    lines: &String,
) -> Result<bool> {
    play_on_new::<Brand, R>(rt, Blank::new(1), config, lines)
}

fn play_on_new<L: Ledger, R: Print + Threads + AllocGlobal>(
    rt: &R,
    blank: Blank,
    config: &Config,
    lines: &String,
) -> Result<bool>
    requires name { blank.name ≡ L.name }
    requires parts { (blank.parts ≡ L.parts) × (L.parts ≡ 1) }
{
    tell(rt, &[b"? new\n"])?;
    match Record::<L, 1>::new(rt.alloc(), blank, config) {
        Ok((record, seats)) => play_lines(rt, Seated { record, seats }, lines.as_str()),
        Err(_) => tell_none(rt),
    }
}

/// Plays the lines on a table that is open.
fn play_lines<L: Ledger, R: Print + Threads + AllocGlobal>(
    rt: &R,
    mut seated: Seated<L>,
    lines: &str,
) -> Result<bool> {
    tell(rt, &[b"= ok\n"])?;
    for line in lines.lines() {
        play_line(rt, &mut seated, line)?;
    }
    Ok(true)
}

/// Plays the step of a line, on the table or on one of its own.
fn play_line<L: Ledger, R: Print + Threads + AllocGlobal>(
    rt: &R,
    seated: &mut Seated<L>,
    line: &str,
) -> Result<()> {
    let (sign, words): (&[u8], &str) = match line.strip_prefix("! ") {
        Some(words) => (b"! ", words),
        None => (b"? ", line),
    };
    match parse_alone(rt.alloc(), words)? {
        Some(step) => {
            let heading = [sign, words.as_bytes(), b"\n"];
            play_alone(rt, &heading, &seated.record.config(), &step)
        }
        None => seated.play(rt, sign, words, parse_step(words)?),
    }
}
