//! Texts that are of no table, and what is wrong with them. Their digests are right.

use hex::encode;
use pid_script::list::push_field;
use sha2::{Digest, Sha256};
use std::process::Abort;
use table_load::fault::RestoreFault;
use table_load::load::load;

/// The bytes joined.
fn joined(rt: &(impl AllocGlobal + Abort), parts: &[&[u8]]) -> Vec<u8> {
    let mut text = Vec::new(rt.alloc());
    for part in parts {
        text.extend_from_slice(part).expect(rt, "no memory");
    }
    text
}

/// The text with its last line.
fn with_end(rt: &(impl AllocGlobal + Abort), said: &[u8]) -> Vec<u8> {
    let digest = encode(rt.alloc(), Sha256::digest(said)).expect(rt, "no memory");
    joined(rt, &[said, b"end sha256 ", digest.as_bytes(), b"\n"])
}

/// The fault of a text.
fn fault_in(rt: &impl AllocGlobal, text: &[u8]) -> Option<RestoreFault> {
    load(rt.alloc(), text).err()
}

/// What a text says has the fault, or none.
fn expect_fault(rt: &(impl AllocGlobal + Abort), said: &[u8], fault: Option<RestoreFault>) {
    assert!(rt; fault_in(rt, with_end(rt, said).as_slice()) == fault);
}

/// What texts say of the root init, where no other text is needed.
const HEAD: &[u8] = b"pidtab table 1 pid-max 301 stamp 9
task 1@0 parent - group 1@0 session 1@0 control 0 children 0 live
";

const TAIL: &[u8] = b"space 0 parent - cursor 2\ncontrol 0 parent - limit max\n";

/// What a text says of the root init and the task of the line.
fn expect_beside_root(rt: &(impl AllocGlobal + Abort), line: &[u8], fault: Option<RestoreFault>) {
    expect_fault(rt, joined(rt, &[HEAD, line, TAIL]).as_slice(), fault);
}

static BAD_TASKS: [(&[u8], RestoreFault); 10] = [
    (
        b"task 2@0 parent 7@0 group 1@0 session 1@0 control 0 children 0 live\n",
        RestoreFault::UnknownParent(3),
    ),
    (
        b"task 2@0 parent - group 1@0 session 1@0 control 0 children 0 live\n",
        RestoreFault::UnknownParent(3),
    ),
    (
        b"task 2@0 parent 2@0 group 1@0 session 1@0 control 0 children 0 live\n",
        RestoreFault::Impossible(3),
    ),
    (
        b"task 2,1@4 parent 1@0 group 1@0 session 1@0 control 0 children 4 live\n",
        RestoreFault::UnknownNamespace(3),
    ),
    (
        b"task 2@0 parent 1@0 group 1@0 session 1@0 control 5 children 0 live\n",
        RestoreFault::UnknownGroup(3),
    ),
    (
        b"task 2,2@0 parent 1@0 group 1@0 session 1@0 control 0 children 0 live\n",
        RestoreFault::BadName(3),
    ),
    (
        b"task 301@0 parent 1@0 group 1@0 session 1@0 control 0 children 0 live\n",
        RestoreFault::BadName(3),
    ),
    (
        b"task 2@0 parent 1@0 group 1@0 session 0@0 control 0 children 0 live\n",
        RestoreFault::BadName(3),
    ),
    (
        b"task 2@0 parent 1@0 group 1@0 session 1@0 control 0 children 9 live\n",
        RestoreFault::BadSettings(1),
    ),
    (
        b"task 1@0 parent - group 1@0 session 1@0 control 0 children 0 live\n",
        RestoreFault::TakenNumber(3),
    ),
];

#[test]
fn refuses_bad_tasks(rt: HostRuntime) {
    expect_beside_root(&rt, b"", None);
    for (line, fault) in &BAD_TASKS {
        expect_beside_root(&rt, line, Some(*fault));
    }
}

static BAD_LISTS: [(&[u8], RestoreFault); 11] = [
    (
        b"pidtab table 1 pid-max 300 stamp 9
task 1@0 parent - group 1@0 session 1@0 control 0 children 0 live
space 0 parent - cursor 2
control 0 parent - limit max
",
        RestoreFault::BadSettings(1),
    ),
    (
        b"pidtab table 1 pid-max 301 stamp 0
task 1@0 parent - group 1@0 session 1@0 control 0 children 0 live
space 0 parent - cursor 2
control 0 parent - limit max
",
        RestoreFault::BadSettings(1),
    ),
    (
        b"pidtab table 1 pid-max 301 stamp 9
space 0 parent - cursor 2
control 0 parent - limit max
",
        RestoreFault::NoInit(2),
    ),
    (
        b"pidtab table 1 pid-max 301 stamp 9
task 1@0 parent - group 1@0 session 1@0 control 0 children 0 live
space 0 parent - cursor 2
space 3 parent 0 cursor 0
control 0 parent - limit max
",
        RestoreFault::NoInit(4),
    ),
    (
        b"pidtab table 1 pid-max 301 stamp 9
task 1@0 parent - group 1@0 session 1@0 control 0 children 0 live
space 0 parent - cursor 2
space 3 parent 0 cursor 0 fallen
control 0 parent - limit max
",
        RestoreFault::Impossible(4),
    ),
    (
        b"pidtab table 1 pid-max 301 stamp 9
task 1@0 parent - group 1@0 session 1@0 control 0 children 0 live
space 0 parent - cursor 2
space 3 parent 2 cursor 0 fallen
control 0 parent - limit max
",
        RestoreFault::UnknownParent(4),
    ),
    (
        b"pidtab table 1 pid-max 301 stamp 9
task 1@0 parent - group 1@0 session 1@0 control 0 children 0 live
space 0 parent - cursor 2
control 0 parent - limit max
control 4 parent 2 limit max
",
        RestoreFault::UnknownGroup(5),
    ),
    (
        b"pidtab table 1 pid-max 301 stamp 9
task 1@0 parent - group 1@0 session 1@0 control 0 children 0 live
task 3@0 parent 1@0 group 1@0 session 1@0 control 0 children 0 live
task 2@0 parent 1@0 group 1@0 session 1@0 control 0 children 0 live
space 0 parent - cursor 2
control 0 parent - limit max
",
        RestoreFault::Unsorted(4),
    ),
    (
        b"pidtab table 1 pid-max 301 stamp 9
task 1@0 parent - group 1@0 session 1@0 control 0 children 0 live
space 0 parent - cursor 2
control 0 parent - limit 7
",
        RestoreFault::Impossible(4),
    ),
    // A number of the second namespace stands twice, below two root numbers.
    (
        b"pidtab table 1 pid-max 301 stamp 9
task 1@0 parent - group 1@0 session 1@0 control 0 children 0 live
task 2,1@1 parent 1@0 group 1@0 session 1@0 control 0 children 1 live
task 3,2@1 parent 2,1@1 group 1@0 session 1@0 control 0 children 1 live
task 4,2@1 parent 2,1@1 group 1@0 session 1@0 control 0 children 1 live
space 0 parent - cursor 5
space 1 parent 0 cursor 3
control 0 parent - limit max
",
        RestoreFault::TakenNumber(5),
    ),
    (
        b"pidtab table 1 pid-max 301 stamp 9
task 1@0 parent - group 1@0 session 1@0 control 0 children 0 live
task 2,1@1 parent 1@0 group 2@0 session 1@0 control 0 children 1 live
space 0 parent - cursor 5
space 1 parent 0 cursor 3
control 0 parent - limit max
",
        RestoreFault::TakenNumber(3),
    ),
];

#[test]
fn refuses_bad_lists(rt: HostRuntime) {
    for (said, fault) in &BAD_LISTS {
        expect_fault(&rt, said, Some(*fault));
    }
}

/// What a text says of 300 tasks, of which the first one's children go into a namespace that has gone.
fn said_of_300(rt: &(impl AllocGlobal + Abort)) -> Vec<u8> {
    let mut said = joined(rt, &[OF_300]);
    for number in 2u64..301 {
        push_field(&mut said, b"task ", number).expect(rt, "no memory");
        said.extend_from_slice(LIKE_ROOT).expect(rt, "no memory");
    }
    said.extend_from_slice(TAIL).expect(rt, "no memory");
    said
}

/// What is said of the root init.
const OF_300: &[u8] = b"pidtab table 1 pid-max 301 stamp 9
task 1@0 parent - group 1@0 session 1@0 control 0 children 7 live
";

/// The line of a child of the root init behind its number.
const LIKE_ROOT: &[u8] = b"@0 parent 1@0 group 1@0 session 1@0 control 0 children 0 live\n";

/// All numbers are in use, and the root's children go into a namespace that has gone.
#[test]
fn takes_a_full_namespace(rt: HostRuntime) {
    expect_fault(&rt, said_of_300(&rt).as_slice(), None);
}

/// The digest is that of another stamp.
const WRONG_DIGEST: &[u8] = b"pidtab table 1 pid-max 301 stamp 8
end sha256 ec4176543ea960797191b8c413b0b04ef6ca231bad6e08925974e8cb0a76485e
";

/// What the other functions of the crate below find wrong is told as it is.
#[test]
fn tells_what_is_no_text(rt: HostRuntime) {
    expect_fault(&rt, b"nothing\n", Some(RestoreFault::BadLine(1)));
    assert!(rt; fault_in(&rt, WRONG_DIGEST) == Some(RestoreFault::WrongDigest(2)));
}

/// Whether the text is refused where the byte at the place is another one, with its digest.
fn is_refused_changed(rt: &(impl AllocGlobal + Abort), said: &[u8], place: usize) -> bool {
    let mut changed = joined(rt, &[said]);
    if let Some(byte) = changed.get_mut(place) {
        *byte = if *byte == b'9' { b'0' } else { *byte ^ 1 };
    }
    fault_in(rt, with_end(rt, changed.as_slice()).as_slice()).is_some()
}

/// A digit is changed in turn, and the digest made anew: each such text is refused, or what is loaded is what it says.
#[test]
fn takes_any_changed_text(rt: HostRuntime) {
    let said: &[u8] = b"pidtab table 1 pid-max 301 stamp 9
task 1@0 parent - group 1@0 session 1@0 control 2 children 0 live
task 2@0 parent 1@0 group 2@0 session 2@0 control 0 children 3 live
task 3,1@3 parent 2@0 group 2@0 session 2@0 control 0 children 3 exit 0
task 5,3@3 parent 2@0 group 4@0 session 2@0 control 0 children 3 killed
space 0 parent - cursor 6
space 3 parent 0 cursor 4 fallen
control 0 parent - limit max
control 2 parent 0 limit 7
";
    expect_fault(&rt, said, None);
    let mut refused = 0u32;
    for place in 0..said.len() {
        if is_refused_changed(&rt, said, place) {
            refused = refused.saturating_add(1);
        }
    }
    assert!(rt; refused > 300);
}
