//! Which calls lines are, and what the line of a call is. Lines that are no calls are in `stored/`.

use pid_script::call::{LONGEST_CALL, line_text};
use pid_script::line::{Line, parse_line};
use pid_types::call::{Call, Kind, Which};
use std::process::Abort;

/// Whether the line says the call, and is that call's line.
fn is_line_of(line: &[u8], call: &Call) -> bool {
    parse_line(line) == Line::Call(*call) && line_text(call).as_slice() == line
}

/// Each line says its call, and is that call's line.
fn expect_calls(rt: &impl Abort, lines: &[(&[u8], Call)]) {
    for (line, call) in lines {
        assert!(rt; is_line_of(line, call));
    }
}

static OF_PROCESSES: [(&[u8], Call); 12] = [
    (
        b"fork 5",
        Call::Fork {
            caller: 5,
            new_space: false,
        },
    ),
    (
        b"fork 4294967295 new",
        Call::Fork {
            caller: 4_294_967_295,
            new_space: true,
        },
    ),
    (b"exec 0", Call::Exec { caller: 0 }),
    (
        b"exit 2 255",
        Call::Exit {
            caller: 2,
            status: 255,
        },
    ),
    (
        b"wait 1 any",
        Call::Wait {
            caller: 1,
            which: Which::Any,
        },
    ),
    (
        b"wait 1 pid 7",
        Call::Wait {
            caller: 1,
            which: Which::Pid(7),
        },
    ),
    (
        b"wait 1 own",
        Call::Wait {
            caller: 1,
            which: Which::OwnGroup,
        },
    ),
    (
        b"wait 1 group 9",
        Call::Wait {
            caller: 1,
            which: Which::Group(9),
        },
    ),
    (
        b"setpgid 2 99 -1",
        Call::SetPgid {
            caller: 2,
            pid: 99,
            pgid: -1,
        },
    ),
    (
        b"setpgid 2 -2147483648 2147483647",
        Call::SetPgid {
            caller: 2,
            pid: -2_147_483_648,
            pgid: 2_147_483_647,
        },
    ),
    (b"setsid 3", Call::SetSid { caller: 3 }),
    (
        b"subreaper 2 off",
        Call::SetSubreaper {
            caller: 2,
            on: false,
        },
    ),
];

static OF_CONTROL: [(&[u8], Call); 15] = [
    (b"getpid 1", Call::GetPid { caller: 1 }),
    (b"getppid 1", Call::GetPpid { caller: 1 }),
    (b"getpgid 2 4", Call::GetPgid { caller: 2, pid: 4 }),
    (b"getsid 1 3", Call::GetSid { caller: 1, pid: 3 }),
    (
        b"nspid 1 33",
        Call::NsPid {
            caller: 1,
            target: 33,
        },
    ),
    (
        b"next 1 task 2",
        Call::Next {
            caller: 1,
            kind: Kind::Task,
            from: 2,
        },
    ),
    (
        b"next 1 group 2",
        Call::Next {
            caller: 1,
            kind: Kind::Group,
            from: 2,
        },
    ),
    (
        b"next 1 session 2",
        Call::Next {
            caller: 1,
            kind: Kind::Session,
            from: 2,
        },
    ),
    (
        b"join 2 3",
        Call::Join {
            caller: 2,
            target: 3,
        },
    ),
    (
        b"mk 18446744073709551615",
        Call::MakeControl {
            parent: 18_446_744_073_709_551_615,
        },
    ),
    (b"rm 0", Call::RemoveControl { id: 0 }),
    (
        b"limit 4 4194305",
        Call::SetLimit {
            id: 4,
            limit: Some(4_194_305),
        },
    ),
    (b"limit 4 max", Call::SetLimit { id: 4, limit: None }),
    (b"move 9 8", Call::Move { task: 9, id: 8 }),
    (b"count 1", Call::Count { id: 1 }),
];

const LONGEST: &[u8] = b"setpgid 4294967295 -2147483648 -2147483648";

static LONG: [(&[u8], Call); 1] = [(
    LONGEST,
    Call::SetPgid {
        caller: 4_294_967_295,
        pid: -2_147_483_648,
        pgid: -2_147_483_648,
    },
)];

#[test]
fn reads_and_writes_lines(rt: HostRuntime) {
    assert!(rt; parse_line(b"") == Line::Empty);
    expect_calls(&rt, &OF_PROCESSES);
    expect_calls(&rt, &OF_CONTROL);
    assert!(rt; LONGEST.len() == LONGEST_CALL);
    expect_calls(&rt, &LONG);
}
