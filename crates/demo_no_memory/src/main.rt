//! Makes the calls that may take memory, and shows that one which finds none changes nothing.
//!
//! Standard input has scripts, each below a line `# NAME PID_MAX` and on a table of its own. Each step
//! is told by a line before it: `? STEP`, or `! STEP`, where no growth is to be needed. Below stands
//! `= ` and what it answered, or `- ` and how want of memory showed; then the step is made once more.
//! A program run as it is has memory, so each step is made once. `hostile/` refuses it growths between
//! a line of the first two kinds and the next write.
#![tactic(auto)]

mod alone;
mod arrays;
mod script;
mod seated;
mod step;
mod tell;

use anyhow::{Context, Result};
use pid_types::config::Config;
use script::play_script;
use std::io;
use std::thread::Threads;
use tell::tell;

fn main(rt: HostRuntime) -> Result<()> {
    let text = io::read_to_string(rt.alloc(), rt.reader())?;
    for script in text.as_str().split("# ").skip(1) {
        play_part(&rt, script)?;
    }
    Ok(())
}

/// Plays a script below its name.
fn play_part<R: Print + Threads + AllocGlobal>(rt: &R, script: &str) -> Result<()> {
    let (head, lines) = script.split_once('\n').context("no script below a name")?;
    tell(rt, &[b"# ", head.as_bytes(), b"\n"])?;
    play_script(rt, &read_config(head)?, lines)
}

/// The configuration with the bound that stands behind the name.
fn read_config(head: &str) -> Result<Config> {
    let word = head.split(' ').nth(1).context("no bound behind a name")?;
    let pid_max = word.parse::<u32>()?;
    Ok(Config::new(pid_max, 1)?)
}
