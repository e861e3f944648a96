//! What a list reads like of a table that no script leaves. Other lists are in `stored/`.

use arrayvec::ArrayVec;
use pid_script::list::list_text;
use pid_types::plain::{ControlRow, Ended, Life, Name, Plain, Row, Space};
use std::process::Abort;

/// A name in the root namespace, with the numbers.
fn name(numbers: &[u32]) -> Name {
    let mut all = ArrayVec::new();
    let _ = all.try_extend_from_slice(numbers);
    Name {
        space: 0,
        numbers: all,
    }
}

/// A zombie with all marks, in a group without numbers.
fn marked_task() -> Row {
    Row {
        name: name(&[2]),
        parent: Some(name(&[1])),
        group: name(&[]),
        session: name(&[1]),
        executed: true,
        life: Life::Zombie(Ended::Exited(7)),
        home: 13,
        children_space: 5,
        subreaper: true,
    }
}

const FALLEN: Space = Space {
    id: 2,
    parent: Some(0),
    cursor: 2,
    fallen: true,
};

const FULL: ControlRow = ControlRow {
    id: 13,
    parent: Some(1),
    limit: Some(2),
    count: 18_446_744_073_709_551_615,
};

fn marked_table(rt: &(impl AllocGlobal + Abort)) -> Plain {
    Plain {
        pid_max: 301,
        rows: vec![in rt.alloc(); marked_task()].expect(rt, "no memory"),
        spaces: vec![in rt.alloc(); FALLEN].expect(rt, "no memory"),
        controls: vec![in rt.alloc(); FULL].expect(rt, "no memory"),
    }
}

const MARKED: &[u8] =
    b"task 2 space 0 parent 1 group 0 session 1 control 13 exit 7 executed children 5 subreaper
space 2 parent 0 cursor 2 fallen
control 13 parent 1 limit 2 count 18446744073709551615
";

#[test]
fn lists_marks(rt: HostRuntime) {
    let text = list_text(rt.alloc(), &marked_table(&rt)).expect(&rt, "no memory");
    assert!(rt; text.as_slice() == MARKED);
}
