//! What texts read like.

use crate::scripts::left_by;
use arrayvec::ArrayVec;
use pid_script::list::list_text;
use pid_types::config::Config;
use pid_types::plain::{Control, ControlRow, Life, Name, Plain, Row};
use std::process::Abort;
use table_text::laws::what_is_written_is_read;
use table_text::read::{Saved, read_text};
use table_text::rows::Rows;

/// The text of the table that the script leaves.
fn text_left_by(rt: &(impl AllocGlobal + Abort), script: &str) -> Vec<u8> {
    left_by(rt, &Config::default_values(), script).text(rt)
}

/// Whether the text is read.
fn is_text(rt: &impl AllocGlobal, text: &[u8]) -> bool {
    read_text(rt.alloc(), text).is_ok()
}

/// The script leaves a table with the text, which is read.
fn expect_text(rt: &(impl AllocGlobal + Abort), script: &str, text: &[u8]) {
    assert!(rt; text_left_by(rt, script).as_slice() == text);
    assert!(rt; is_text(rt, text));
}

/// A name to be written over.
fn no_name() -> Name {
    Name {
        space: 0,
        numbers: ArrayVec::new(),
    }
}

/// A row to be written over.
fn no_row() -> Row {
    Row {
        name: no_name(),
        parent: None,
        group: no_name(),
        session: no_name(),
        executed: false,
        life: Life::Live,
        home: 0,
        children_space: 0,
        subreaper: false,
    }
}

/// Whether the rows that were read are those that are shown.
fn are_rows(read: &Rows, shown: &[Row]) -> bool {
    if read.len() != shown.len() {
        return false;
    }
    let mut row = no_row();
    for index in 0..shown.len() {
        read.write(index, &mut row);
        if row != shown[index] {
            return false;
        }
    }
    true
}

/// Whether this is the control group that is shown.
fn is_control(read: &Control, shown: &ControlRow) -> bool {
    read.id == shown.id && read.parent == shown.parent && read.limit == shown.limit
}

/// Whether these are the control groups that are shown.
fn are_controls(read: &[Control], shown: &[ControlRow]) -> bool {
    if read.len() != shown.len() {
        return false;
    }
    for index in 0..shown.len() {
        if !is_control(&read[index], &shown[index]) {
            return false;
        }
    }
    true
}

/// The state that each table begins in.
const THE_FIRST_STATE: (&str, &str) = (
    "",
    "pidtab table 1 pid-max 32768 stamp 1
task 1@0 parent - group 1@0 session 1@0 control 0 children 0 live
space 0 parent - cursor 2
control 0 parent - limit max
end sha256 11fb73109d1e64dd45c8bed09ef3e19114bc4df6ab4b0fbc8668f547950fb0d8
",
);

/// A namespace inside the root, with two tasks.
const NESTED_NAMESPACES: (&str, &str) = (
    "fork 1 new
fork 2
",
    "pidtab table 1 pid-max 32768 stamp 3
task 1@0 parent - group 1@0 session 1@0 control 0 children 0 live
task 2,1@1 parent 1@0 group 1@0 session 1@0 control 0 children 1 live
task 3,2@1 parent 2,1@1 group 1@0 session 1@0 control 0 children 1 live
space 0 parent - cursor 4
space 1 parent 0 cursor 3
control 0 parent - limit max
end sha256 528d100f87aa7bfc07c2c7d2c32e142d80b3edccc003a1cd144ea99b51976f7d
",
);

/// A group named after a task that was reaped, in a namespace that has fallen.
const A_GROUP_THAT_NO_TASK_BEARS: (&str, &str) = (
    "fork 1
fork 2 new
setpgid 3 0 0
setpgid 2 0 3
exit 3 0
wait 2 any
",
    "pidtab table 1 pid-max 32768 stamp 7
task 1@0 parent - group 1@0 session 1@0 control 0 children 0 live
task 2@0 parent 1@0 group 3,1@2 session 1@0 control 0 children 0 live
space 0 parent - cursor 4
space 2 parent 0 cursor 2 fallen
control 0 parent - limit max
end sha256 43e4b011666adfc0327747421276975e151ed4aaf6d8c75e33dcc6843cccb951
",
);

/// A task whose children go elsewhere, one that exited, and one that was killed with its namespace.
const HOW_TASKS_ENDED: (&str, &str) = (
    "fork 1
fork 2 new
fork 3
join 2 3
fork 2
exit 3 0
",
    "pidtab table 1 pid-max 32768 stamp 7
task 1@0 parent - group 1@0 session 1@0 control 0 children 0 live
task 2@0 parent 1@0 group 1@0 session 1@0 control 0 children 2 live
task 3,1@2 parent 2@0 group 1@0 session 1@0 control 0 children 2 exit 0
task 5,3@2 parent 2@0 group 1@0 session 1@0 control 0 children 2 killed
space 0 parent - cursor 6
space 2 parent 0 cursor 4 fallen
control 0 parent - limit max
end sha256 6486ab68ee85cf84dabec3a4079f9633721da2c3ef61a0adb2c655dd85041ca0
",
);

/// Both marks of a task, which leads a session.
const TASK_MARKS: (&str, &str) = (
    "fork 1
subreaper 2 on
exec 2
setsid 2
mk 0
",
    "pidtab table 1 pid-max 32768 stamp 6
task 1@0 parent - group 1@0 session 1@0 control 0 children 0 live
task 2@0 parent 1@0 group 2@0 session 2@0 control 0 children 0 live executed subreaper
space 0 parent - cursor 3
control 0 parent - limit max
control 5 parent 0 limit max
end sha256 5a791615cfcfc0cbed97e879e87c378eb3ed077bb30f200f7464fcc5d2061b12
",
);

/// A task in a control group with a limit.
const LIMITS: (&str, &str) = (
    "mk 0
limit 1 2
move 1 1
",
    "pidtab table 1 pid-max 32768 stamp 4
task 1@0 parent - group 1@0 session 1@0 control 1 children 0 live
space 0 parent - cursor 2
control 0 parent - limit max
control 1 parent 0 limit 2
end sha256 9e62c9511c0c5f1b1e5724af846eb4e017bfc6d02d8017ea73f0cf3254f76374
",
);

static CASES: [(&str, &str); 6] = [
    THE_FIRST_STATE,
    NESTED_NAMESPACES,
    A_GROUP_THAT_NO_TASK_BEARS,
    HOW_TASKS_ENDED,
    TASK_MARKS,
    LIMITS,
];

#[test]
fn writes_each_part(rt: HostRuntime) {
    for (script, text) in &CASES {
        expect_text(&rt, script, text.as_bytes());
    }
}

/// A task is in a group whose name has other numbers than in the table of the next script.
const FIRST: &str = "fork 1 new
fork 1
exit 3 0
wait 1 pid 3
fork 2
setsid 4
fork 2
exit 5 0
wait 2 pid 3
fork 4
exit 4 0
wait 2 pid 2
";

const SECOND: &str = "fork 1 new
fork 2
exit 3 0
wait 2 pid 2
fork 2
setsid 4
fork 1
exit 5 0
wait 1 pid 5
fork 4
exit 4 0
wait 2 pid 3
";

/// The list of the table that the script leaves.
fn list_left_by(rt: &(impl AllocGlobal + Abort), script: &str) -> Vec<u8> {
    let shown = left_by(rt, &Config::default_values(), script).look(rt);
    list_text(rt.alloc(), &shown).expect(rt, "no memory")
}

/// Two tables with one list.
#[test]
fn tells_tables_with_one_list_apart(rt: HostRuntime) {
    assert!(rt; list_left_by(&rt, FIRST).as_slice() == list_left_by(&rt, SECOND).as_slice());
    assert!(rt; text_left_by(&rt, FIRST).as_slice() != text_left_by(&rt, SECOND).as_slice());
}

const LAW_ENDS: &str = "fork 1
fork 2 new
fork 3
join 2 3
fork 2
setpgid 5 0 0
exit 3 0
fork 1
";

const LAW_MARKS: &str = "mk 0
limit 1 4294967295
mk 1
fork 1
move 2 3
subreaper 2 on
exec 2
setsid 2
exit 2 255
";

/// Whether what was read is what the table shows.
fn is_shown(read: &Saved, shown: &Plain, stamp: u64) -> bool {
    read.stamp == stamp
        && read.pid_max == shown.pid_max
        && are_rows(&read.rows, &shown.rows)
        && read.spaces == shown.spaces
        && are_controls(&read.controls, &shown.controls)
}

/// What a table shows is written with the stamp of its next call and read back as it is.
fn expect_read(rt: &(impl AllocGlobal + Abort), shown: &Plain, stamp: u64) {
    let read = what_is_written_is_read(rt.alloc(), shown, stamp).expect(rt, "a fault");
    assert!(rt; is_shown(&read, shown, stamp));
}

/// What the script leaves is written and read back as it is.
fn expect_read_as_written(rt: &(impl AllocGlobal + Abort), config: &Config, script: &str) {
    let left = left_by(rt, config, script);
    expect_read(rt, &left.look(rt), left.stamp());
}

/// Tables with each part of the form: what the law of the crate answers is what they show.
#[test]
fn reads_what_the_law_says(rt: HostRuntime) {
    let usual = Config::default_values();
    expect_read_as_written(&rt, &usual, "");
    expect_read_as_written(&rt, &usual, LAW_ENDS);
    let last = Config::new(4_194_304, u64::MAX - 9).expect(&rt, "bad settings");
    expect_read_as_written(&rt, &last, LAW_MARKS);
}
