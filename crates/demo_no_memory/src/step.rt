//! The steps: what a line of a script asks for.

use anyhow::{Result, bail};
use pid_script::line::{Line, parse_line};
use pid_types::call::Call;
use std::alloc::{AllocError, Global};

/// A step on the script's table, or on an array.
#[derive(Clone, Copy)]
pub enum Step {
    /// A call, made and recorded.
    Call(Call),
    /// `reserve N`: room for N more entries.
    Reserve(usize),
    /// `checkpoint`.
    Checkpoint,
    /// `opening`: the state that the kept history begins in.
    Opening,
    /// `look`: what the reading calls answer that take no memory.
    Look,
    /// `snapshot`.
    Snapshot,
    /// `list`: the list of the table.
    List,
    /// `dump`: the text that the table is saved in.
    Dump,
    /// `array`: an array by index is filled.
    Array,
}

/// A step on a table of its own. In a line the script has `;` in the place of a newline.
#[derive(Drop)]
pub struct AloneStep {
    pub kind: AloneKind,
    /// What follows the word, with newlines.
    pub script: String,
}

/// What a step on a table of its own does.
#[derive(Clone, Copy)]
pub enum AloneKind {
    /// `job SCRIPT`: the calls of a job.
    Job,
    /// `run SCRIPT`.
    Run,
    /// `state SCRIPT`: a run that hands back its record, and the record's list.
    State,
}

/// The step on a table of its own, if the line asks for one.
pub fn parse_alone(alloc: Global, line: &str) -> Result<Option<AloneStep>, AllocError> {
    let (word, rest) = line.split_once(' ').unwrap_or((line, ""));
    let kind = match word {
        "job" => AloneKind::Job,
        "run" => AloneKind::Run,
        "state" => AloneKind::State,
        _ => return Ok(None),
    };
    let script = rest.replace(alloc, ";", "\n")?;
    Ok(Some(AloneStep { kind, script }))
}

/// The step of a line.
pub fn parse_step(line: &str) -> Result<Step> {
    let (word, rest) = line.split_once(' ').unwrap_or((line, ""));
    Ok(match word {
        "reserve" => Step::Reserve(rest.parse::<usize>()?),
        "checkpoint" => Step::Checkpoint,
        "opening" => Step::Opening,
        "look" => Step::Look,
        "snapshot" => Step::Snapshot,
        "list" => Step::List,
        "dump" => Step::Dump,
        "array" => Step::Array,
        _ => match parse_line(line.as_bytes()) {
            Line::Call(call) => Step::Call(call),
            _ => bail!("no step: {line}"),
        },
    })
}
