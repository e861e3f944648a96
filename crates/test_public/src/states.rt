//! Runs that hand back their record, with its list in two halves, and jobs.
ghost use Rattle.std.specs.Prelude.{◌≡◌};

use pid_script::list::list_text;
use pid_types::config::Config;
use pid_types::device::{FromReader, ToWriter};
use pid_workers::{JobFault, list_text_split, read_job, run_state};
use std::alloc::Global;
use std::marker::Brand;
use std::process::Abort;
use std::sync::ledger::{Blank, Ledger};
use std::thread::Threads;

/// A script, and its answers with the list of the table that it leaves.
static SCRIPTS: [(&[u8], u64, &[u8]); 2] = [
    (
        b"",
        0,
        b"task 1 space 0 parent 0 group 1 session 1 control 0 live
space 0 parent - cursor 2
control 0 parent - limit max count 1
",
    ),
    (
        b"fork 1 new\nfork 2\nnspid 1 3\nnspid 2 2\nnspid 2 3\ngetppid 2\ngetpgid 2 0\ngetsid 1 3\n",
        8,
        b"child 2 root 2
child 2 root 3
3 2
2
ESRCH no-task
0
0
1
task 1 space 0 parent 0 group 1 session 1 control 0 live
task 2,1 space 1 parent 1 group 1 session 1 control 0 live
task 3,2 space 1 parent 2 group 1 session 1 control 0 live
space 0 parent - cursor 4
space 1 parent 0 cursor 3
control 0 parent - limit max count 3
",
    ),
];

/// Runs a script, appends the list of its record to the answers, and asserts what that is and how many calls were
/// recorded.
fn expect_state<L: Ledger, R: Threads + AllocGlobal + Abort>(
    rt: &R,
    blank: Blank,
    script: &[u8],
    calls: u64,
    text: &[u8],
)
    requires name { blank.name ≡ L.name }
    requires parts { (blank.parts ≡ L.parts) × (L.parts ≡ 1) }
{
    let mut written = Vec::new(rt.alloc());
    let mut source = FromReader::new(script);
    let mut sink = ToWriter::new(&mut written);
    let usual = Config::default_values();
    let made = run_state::<L, _, _>(rt.alloc(), blank, &mut source, &mut sink, &usual);
    let (tally, record) = made.expect(rt, "a fault");
    let plain = record.snapshot().expect(rt, "no memory");
    let list = list_text_split(rt, rt.alloc(), &plain).expect(rt, "no memory");
    let whole = list_text(rt.alloc(), &plain).expect(rt, "no memory");
    assert!(rt; list.as_slice() == whole.as_slice());
    written
        .extend_from_slice(list.as_slice())
        .expect(rt, "no memory");
    assert!(rt; written.as_slice() == text);
    assert!(rt; [tally.recorded, record.total()] == [calls, calls]);
}

#[test]
fn hands_back_the_record(rt: HostRuntime) {
    for (script, calls, text) in &SCRIPTS {
        expect_state::<Brand, _>(&rt, Blank::new(1), script, *calls, text);
    }
}

const CONTROLS: &[u8] = b"mk 5
limit 0 5
rm 0
mk 0
limit 4 4194305
limit 4 4194304
limit 4 max
move 9 9
move 1 9
move 1 4
rm 4
limit 4 0
fork 1
";

/// How many calls a job has, or its fault.
fn count_calls(alloc: Global, script: &[u8]) -> Result<usize, JobFault> {
    let calls = read_job(alloc, &mut FromReader::new(script))?;
    Ok(calls.len())
}

#[test]
fn reads_a_job(rt: HostRuntime) {
    assert!(rt; count_calls(rt.alloc(), CONTROLS) == Ok(13));
    assert!(rt; count_calls(rt.alloc(), b"fork\nmk 5\n") == Err(JobFault::BadLine(1)));
}
