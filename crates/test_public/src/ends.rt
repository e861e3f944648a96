//! Scripts that come to their last read, and to the last stamp. `make hostile` has the built program run the others:
//! bad lines, long ones, and devices that fail.
ghost use Rattle.std.specs.Prelude.{Some};

use pid_types::config::Config;
use pid_types::device::{DeviceFault, FromReader, Source, ToWriter};
use pid_workers::{RunScriptFault, Tally, run_limited};
use std::alloc::Global;
use std::process::Abort;
use std::test::Fail;

/// A source that gives one byte a read.
#[derive(Drop)]
struct Letters<'a> {
    left: &'a [u8],
}

impl Source for Letters<'_> {
    ghost use Rattle.std.specs.Prelude.{refl, false};
    ghost use Rattle.pid_types.specs.Devices.{Took};
    ghost use Rattle.pid_types.specs.DeviceLaws.{Took-nothing, Took-more};

    ghost remaining = { λ s. Some s.left.now };

    ghost has_failed = { λ s. false };

    ghost did = { λ a b. Took (Some a.left.now) (Some b.left.now) false false };

    ghost nothing = { λ a. Took-nothing _ _ };

    ghost more = { λ a b c xs ys. Took-more _ _ _ _ _ _ xs ys };

    ghost consumed = { λ a b xs took. took.consumed };

    ghost still = { λ a b took. took.still refl };

    ghost kept = { λ a b xs took. took.kept };

    fn read(&mut self, buffer: &mut [u8]) -> Result<usize, DeviceFault> {
        let count = self.left.len().min(buffer.len()).min(1);
        buffer[..count].copy_from_slice(&self.left[..count]);
        self.left = &self.left[count..];
        Ok(count)
    }

    fn failed(&self) -> bool {
        false
    }
}

/// What comes of a script in at most so many reads.
fn run_script(
    alloc: Global,
    script: &[u8],
    config: &Config,
    reads: u32,
    written: &mut Vec<u8>,
) -> Result<Tally, RunScriptFault> {
    let mut reader = FromReader::new(script);
    run_limited(
        alloc,
        &mut reader,
        &mut ToWriter::new(written),
        config,
        reads,
    )
}

/// Runs a script in at most so many reads, and asserts what comes of it and what was written.
fn expect_run(
    rt: &(impl AllocGlobal + Abort),
    script: &[u8],
    config: &Config,
    reads: u32,
    told: Result<Tally, RunScriptFault>,
    text: &[u8],
) {
    let mut written = Vec::new(rt.alloc());
    assert!(rt; run_script(rt.alloc(), script, config, reads, &mut written) == told);
    assert!(rt; written.as_slice() == text);
}

/// Runs the script of one fork, a byte a read, and asserts what comes of it and what was written.
fn expect_letters(
    rt: &(impl AllocGlobal + Abort),
    reads: u32,
    told: Result<Tally, RunScriptFault>,
    text: &[u8],
) {
    let mut written = Vec::new(rt.alloc());
    let mut sink = ToWriter::new(&mut written);
    let mut letters = Letters { left: b"fork 1\n" };
    let usual = Config::default_values();
    assert!(rt; run_limited(rt.alloc(), &mut letters, &mut sink, &usual, reads) == told);
    assert!(rt; written.as_slice() == text);
}

/// The script has seven bytes, so the eighth read finds the end.
#[test]
fn counts_each_read(rt: HostRuntime) {
    let one = Tally {
        lines: 1,
        recorded: 1,
        bad: 0,
        starved: 0,
    };
    let late = Err(RunScriptFault::TooManyTurns);
    expect_letters(&rt, 8, Ok(one), b"child 2 root 2\n");
    expect_letters(&rt, 7, late, b"child 2 root 2\n");
    expect_letters(&rt, 3, late, b"");
    expect_letters(&rt, 0, late, b"");
}

#[test]
fn stops_at_its_last_read(rt: HostRuntime) {
    let one = Tally {
        lines: 1,
        recorded: 1,
        bad: 0,
        starved: 0,
    };
    let late = Err(RunScriptFault::TooManyTurns);
    let answer: &[u8] = b"child 2 root 2\n";
    let usual = Config::default_values();
    // The second read finds the end.
    expect_run(&rt, b"fork 1\n", &usual, 2, Ok(one), answer);
    expect_run(&rt, b"fork 1\n", &usual, 1, late, answer);
    expect_run(&rt, b"fork 1\n", &usual, 0, late, b"");
}

#[test]
fn spends_its_stamps(rt: HostRuntime) -> Result<(), Fail> {
    let last = Config::new(32768, 18_446_744_073_709_551_614)?;
    let told = Tally {
        lines: 2,
        recorded: 1,
        bad: 0,
        starved: 0,
    };
    let text = b"child 2 root 2\nspent\n";
    expect_run(&rt, b"fork 1\ngetpid 1\n", &last, 1000, Ok(told), text);
    Ok(())
}
