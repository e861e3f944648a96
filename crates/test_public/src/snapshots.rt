//! The head of a snapshot, written and read. What is expected is what Python writes of the same log.

use pid_script::list::push_field;
use pid_types::config::Config;
use replica::replica::Replica;
use replica::snapshot::HeadFault;
use stamped_table::StampedTable;
use std::alloc::{AllocError, Global};
use std::process::Abort;

/// A table with its replica.
#[derive(Drop)]
struct Host {
    table: StampedTable,
    replica: Replica,
}

/// A host whose log has not begun.
fn new_host(rt: &(impl AllocGlobal + Abort)) -> Host {
    let config = Config::new(4_194_304, 1).expect(rt, "good settings");
    Host {
        table: StampedTable::new(rt.alloc(), &config).expect(rt, "no memory"),
        replica: Replica::new(rt.alloc(), 4_194_304, 1).expect(rt, "no memory"),
    }
}

/// The entry is applied, with these answers.
fn expect_answers(
    rt: &(impl AllocGlobal + Abort),
    host: &mut Host,
    position: u64,
    entry: &[u8],
    answers: &[u8],
) {
    let mut given = Vec::new(rt.alloc());
    let what = host
        .replica
        .apply(&mut host.table, position, entry, &mut given);
    assert!(rt; what.is_ok());
    assert!(rt; given.as_slice() == answers);
}

/// A host that was given a log up to position 6, where two sessions are open.
fn host_at_six(rt: &(impl AllocGlobal + Abort)) -> Host {
    let mut host = new_host(rt);
    expect_answers(
        rt,
        &mut host,
        3,
        b"pidtab-log 2 pid_max 4194304 model 1",
        b"",
    );
    expect_answers(rt, &mut host, 4, b"open", b"");
    expect_answers(rt, &mut host, 5, b"open", b"");
    expect_answers(
        rt,
        &mut host,
        6,
        b"calls 4 1 2 4 a23d48e1e3a92dc8\nfork 1\ngetpid 2",
        b"child 2 root 2\n2\n",
    );
    host
}

static AT_SIX: &[u8] = b"pidtab-snapshot 2 pid_max 4194304 model 1 position 6 \
    digest 15c2fe3e85470d4756d9d4de58a4a1712c47556d65f8e516cc095f5db632dfdc calls 2 sessions 2\n5 0\n4 1\n";

/// A snapshot that another release has written.
static OLD: &[u8] = b"pidtab-snapshot 1 pid_max 4194304 model 1 position 18446744073709551615 \
    digest 15c2fe3e85470d4756d9d4de58a4a1712c47556d65f8e516cc095f5db632dfdc calls 0 sessions 1\n\
    0 18446744073709551615\n";

/// A text, and why no head is read of it.
type Bad = (&'static [u8], HeadFault);

static BAD: [Bad; 14] = [
    (b"", HeadFault::NoSnapshot),
    (b"pidtab table 1", HeadFault::NoSnapshot),
    // Its position has a leading zero.
    (
        b"pidtab-snapshot 2 pid_max 4194304 model 1 position 06 \
          digest 15c2fe3e85470d4756d9d4de58a4a1712c47556d65f8e516cc095f5db632dfdc calls 2 sessions 0\n",
        HeadFault::NoSnapshot,
    ),
    // Its position has more than 64 bits.
    (
        b"pidtab-snapshot 2 pid_max 4194304 model 1 position 18446744073709551616 \
          digest 15c2fe3e85470d4756d9d4de58a4a1712c47556d65f8e516cc095f5db632dfdc calls 2 sessions 0\n",
        HeadFault::NoSnapshot,
    ),
    // Its digest has a capital letter.
    (
        b"pidtab-snapshot 2 pid_max 4194304 model 1 position 6 \
          digest 15C2fe3e85470d4756d9d4de58a4a1712c47556d65f8e516cc095f5db632dfdc calls 2 sessions 0\n",
        HeadFault::NoSnapshot,
    ),
    // Its digest has 62 digits.
    (
        b"pidtab-snapshot 2 pid_max 4194304 model 1 position 6 \
          digest c2fe3e85470d4756d9d4de58a4a1712c47556d65f8e516cc095f5db632dfdc calls 2 sessions 0\n",
        HeadFault::NoSnapshot,
    ),
    // Its first line has no newline.
    (
        b"pidtab-snapshot 2 pid_max 4194304 model 1 position 6 \
          digest 15c2fe3e85470d4756d9d4de58a4a1712c47556d65f8e516cc095f5db632dfdc calls 2 sessions 0",
        HeadFault::NoSnapshot,
    ),
    // It has no line of its second session.
    (
        b"pidtab-snapshot 2 pid_max 4194304 model 1 position 6 \
          digest 15c2fe3e85470d4756d9d4de58a4a1712c47556d65f8e516cc095f5db632dfdc calls 2 sessions 2\n5 0\n",
        HeadFault::NoSnapshot,
    ),
    // The line of its second session has no newline.
    (
        b"pidtab-snapshot 2 pid_max 4194304 model 1 position 6 \
          digest 15c2fe3e85470d4756d9d4de58a4a1712c47556d65f8e516cc095f5db632dfdc calls 2 sessions 2\n5 0\n4 1",
        HeadFault::NoSnapshot,
    ),
    // A session stands twice.
    (
        b"pidtab-snapshot 2 pid_max 4194304 model 1 position 6 \
          digest 15c2fe3e85470d4756d9d4de58a4a1712c47556d65f8e516cc095f5db632dfdc calls 2 sessions 2\n4 0\n4 1\n",
        HeadFault::NoSnapshot,
    ),
    // The last number of a session has more than 64 bits.
    (
        b"pidtab-snapshot 2 pid_max 4194304 model 1 position 6 \
          digest 15c2fe3e85470d4756d9d4de58a4a1712c47556d65f8e516cc095f5db632dfdc calls 2 sessions 1\n\
          4 18446744073709551616\n",
        HeadFault::NoSnapshot,
    ),
    // It is of a form that is not known, of another bound, and of another model.
    (
        b"pidtab-snapshot 3 pid_max 4194304 model 1 position 6 \
          digest 15c2fe3e85470d4756d9d4de58a4a1712c47556d65f8e516cc095f5db632dfdc calls 2 sessions 0\n",
        HeadFault::OtherSettings,
    ),
    (
        b"pidtab-snapshot 2 pid_max 301 model 1 position 6 \
          digest 15c2fe3e85470d4756d9d4de58a4a1712c47556d65f8e516cc095f5db632dfdc calls 2 sessions 0\n",
        HeadFault::OtherSettings,
    ),
    (
        b"pidtab-snapshot 2 pid_max 4194304 model 2 position 6 \
          digest 15c2fe3e85470d4756d9d4de58a4a1712c47556d65f8e516cc095f5db632dfdc calls 2 sessions 0\n",
        HeadFault::OtherSettings,
    ),
];

/// The replica of a head, with whatever stands behind it, and its length.
fn read_whole(
    rt: &(impl AllocGlobal + Abort),
    head: &[u8],
    behind: &[u8],
) -> Result<(Replica, usize), HeadFault> {
    let mut text = Vec::new(rt.alloc());
    text.extend_from_slice(head).expect(rt, "no memory");
    text.extend_from_slice(behind).expect(rt, "no memory");
    Replica::read_head(rt.alloc(), text.as_slice(), 4_194_304, 1)
}

/// The head is read, whatever stands behind it, and written again.
fn expect_head(rt: &(impl AllocGlobal + Abort), head: &[u8], behind: &[u8]) -> Replica {
    let (replica, used) = read_whole(rt, head, behind).expect(rt, "a head");
    assert!(rt; used == head.len());
    let again = replica.write_head(rt.alloc()).expect(rt, "no memory");
    assert!(rt; again.as_slice() == head);
    replica
}

/// The first line of a snapshot with so many sessions, and the lines of those.
fn many_sessions(alloc: Global, count: u64) -> Result<Vec<u8>, AllocError> {
    let mut text = Vec::new(alloc);
    text.extend_from_slice(b"pidtab-snapshot 2 pid_max 4194304 model 1 position 5000 ")?;
    text.extend_from_slice(b"digest 15c2fe3e85470d4756d9d4de58a4a171")?;
    push_field(
        &mut text,
        b"2c47556d65f8e516cc095f5db632dfdc calls 2 sessions ",
        count,
    )?;
    for session in 0..count {
        push_field(&mut text, b"\n", session)?;
        text.extend_from_slice(b" 7")?;
    }
    text.extend_from_slice(b"\n")?;
    Ok(text)
}

/// The fault of a text with no head.
fn fault_of(read: Result<(Replica, usize), HeadFault>) -> Option<HeadFault> {
    match read {
        Ok(_) => None,
        Err(fault) => Some(fault),
    }
}

#[test]
fn head_is_that_of_the_log(rt: HostRuntime) {
    let host = host_at_six(&rt);
    let text = host.replica.write_head(rt.alloc()).expect(&rt, "no memory");
    assert!(rt; text.as_slice() == AT_SIX);
}

#[test]
fn restored_replica_goes_on(rt: HostRuntime) {
    let mut host = host_at_six(&rt);
    let restored = expect_head(&rt, AT_SIX, b"pidtab table 1 pid-max 4194304 stamp 2\n");
    assert!(rt; restored.position() == 6 && restored.calls() == 2);
    assert!(rt; restored.last_of(4) == Some(1) && restored.last_of(5) == Some(0));
    host.replica = restored;
    expect_answers(
        &rt,
        &mut host,
        7,
        b"calls 4 2 1 6 15c2fe3e85470d47\ncount 0",
        b"2\n",
    );
    assert!(rt; host.replica.last_of(4) == Some(2));
}

#[test]
fn heads_are_read_as_they_are_written(rt: HostRuntime) {
    expect_head(&rt, AT_SIX, b"");
    expect_head(&rt, AT_SIX, b"4 1\n");
    expect_head(&rt, OLD, b"\n");
    let most = many_sessions(rt.alloc(), 4096).expect(&rt, "no memory");
    expect_head(&rt, most.as_slice(), b"");
}

#[test]
fn bad_heads_are_refused(rt: HostRuntime) {
    for bad in &BAD {
        assert!(rt; fault_of(read_whole(&rt, bad.0, b"")) == Some(bad.1));
    }
    let more = many_sessions(rt.alloc(), 4097).expect(&rt, "no memory");
    assert!(rt; fault_of(read_whole(&rt, more.as_slice(), b"")) == Some(HeadFault::NoSnapshot));
}
