//! What the commands say of faults that no run meets. `make hostile` and `stored/commands` have the others.

use pid_commands::{Fault, write_fault_line};
use pid_types::device::ToWriter;
use std::process::Abort;

/// Asserts what the line of the fault is.
fn expect_line(rt: &(impl AllocGlobal + Abort), fault: &Fault, line: &str) {
    let mut text = Vec::new(rt.alloc());
    write_fault_line(&mut ToWriter::new(&mut text), fault).expect(rt, "not written");
    assert!(rt; text.as_slice() == line.as_bytes());
}

const AUDIT: Fault = Fault::Audit {
    worker: 15,
    place: 7,
};

#[test]
fn writes_rare_fault_lines(rt: HostRuntime) {
    expect_line(&rt, &Fault::TooManyTurns, "pidtab: too many turns\n");
    expect_line(&rt, &AUDIT, "pidtab: audit 15 7\n");
}
