//! A replica that is given a log, entry by entry. What is expected is what Python's machine said of the same entries,
//! with the answers that the script language has.

use hex::encode;
use pid_types::config::Config;
use replica::host::Host;
use replica::outcome::{Applied, Outcome, ReplicaFault};
use replica::read::read_entry;
use replica::replica::Replica;
use replica::write::write_entry;
use stamped_table::StampedTable;
use std::alloc::Global;
use std::process::Abort;

/// An entry at its position, what becomes of it, its answers, and the first digits of the digest behind it.
type Row = (
    u64,
    &'static [u8],
    Result<Outcome, ReplicaFault>,
    &'static [u8],
    &'static [u8],
);

/// A host with its table.
#[derive(Drop)]
struct Hosted {
    table: StampedTable,
    host: Host,
}

/// A host whose log has not begun.
fn new_host(rt: &(impl AllocGlobal + Abort)) -> Hosted {
    let config = Config::new(4_194_304, 1).expect(rt, "good settings");
    Hosted {
        table: StampedTable::new(rt.alloc(), &config).expect(rt, "no memory"),
        host: Host::new(rt.alloc(), 4_194_304, 1).expect(rt, "no memory"),
    }
}

/// Whether the replica's digest begins so.
fn has_digest(rt: &(impl AllocGlobal + Abort), replica: &Replica, digits: &[u8]) -> bool {
    let text = encode(rt.alloc(), replica.digest()).expect(rt, "no memory");
    text.as_bytes().starts_with(digits)
}

/// What is said of calls, or of an entry without any, with this outcome.
fn is_said(said: &Applied, outcome: Outcome, entry: &[u8]) -> bool {
    said.outcome == outcome && (said.sequence > 0) == entry.starts_with(b"calls")
}

/// Whether the entry has come to what the row says.
fn came_to(what: Result<Applied, ReplicaFault>, row: &Row) -> bool {
    match (what, row.2) {
        (Ok(said), Ok(outcome)) => is_said(&said, outcome, row.1),
        (Err(fault), Err(wanted)) => fault == wanted,
        _ => false,
    }
}

/// Whether the answers are those of the row; where it is refused, as many bytes as before.
fn has_answers(host: &Host, row: &Row, before: usize) -> bool {
    match row.2 {
        Ok(_) => host.answers() == row.3,
        Err(_) => host.answers().len() == before,
    }
}

/// The entry of a row does what the row says.
fn expect_row(rt: &(impl AllocGlobal + Abort), hosted: &mut Hosted, row: &Row) {
    let before = hosted.host.answers().len();
    let what = hosted.host.apply(&mut hosted.table, row.0, row.1);
    assert!(rt; came_to(what, row));
    assert!(rt; has_answers(&hosted.host, row, before));
    assert!(rt; has_digest(rt, hosted.host.replica(), row.4));
}

/// One log after the other does what its rows say.
fn expect_rows(rt: &(impl AllocGlobal + Abort), rows: &[Row]) {
    let mut hosted = new_host(rt);
    for row in rows {
        expect_row(rt, &mut hosted, row);
    }
}

static LOG: [Row; 14] = [
    (
        3,
        b"pidtab-log 2 pid_max 4194304 model 1",
        Ok(Outcome::Noted),
        b"",
        b"a23d48e1e3a92dc8",
    ),
    (4, b"open", Ok(Outcome::Noted), b"", b"a23d48e1e3a92dc8"),
    (
        6,
        b"calls 4 1 2 4 a23d48e1e3a92dc8\nfork 1\ngetpid 2",
        Ok(Outcome::Made),
        b"child 2 root 2\n2\n",
        b"15c2fe3e85470d4756d9d4de58a4a1712c47556d65f8e516cc095f5db632dfdc",
    ),
    (
        7,
        b"calls 4 1 2 4 a23d48e1e3a92dc8\nfork 1\ngetpid 2",
        Ok(Outcome::Repeated),
        b"",
        b"15c2fe3e85470d47",
    ),
    (
        8,
        b"calls 4 2 1 6 25c2fe3e85470d47\nfork 1",
        Err(ReplicaFault::Diverged),
        b"",
        b"15c2fe3e85470d47",
    ),
    (
        8,
        b"calls 4 2 1 5 15c2fe3e85470d47\nfork 1",
        Err(ReplicaFault::Missing),
        b"",
        b"15c2fe3e85470d47",
    ),
    (
        8,
        b"calls 4 3 1 6 15c2fe3e85470d47\nfork 1",
        Ok(Outcome::Gap),
        b"",
        b"15c2fe3e85470d47",
    ),
    (
        9,
        b"calls 5 1 1 6 15c2fe3e85470d47\nfork 1",
        Ok(Outcome::Gone),
        b"",
        b"15c2fe3e85470d47",
    ),
    (
        10,
        b"calls 4 2 3 6 15c2fe3e85470d47\nfork\nexit 2 0\nwait 1 any",
        Ok(Outcome::Made),
        b"bad line\nok\nreaped 2 exit 0\n",
        b"bafbc239d2492ca5c0720e9284b8dc5e87c6b85cb79771ff22900abf3bdb7c2b",
    ),
    (
        10,
        b"end 4",
        Err(ReplicaFault::NotRising),
        b"",
        b"bafbc239d2492ca5",
    ),
    (
        11,
        b"end 4\n",
        Err(ReplicaFault::NoEntry),
        b"",
        b"bafbc239d2492ca5",
    ),
    (11, b"end 4", Ok(Outcome::Noted), b"", b"bafbc239d2492ca5"),
    (
        12,
        b"calls 4 3 1 10 bafbc239d2492ca5\nfork 1",
        Ok(Outcome::Gone),
        b"",
        b"bafbc239d2492ca5",
    ),
    (13, b"snap", Ok(Outcome::Noted), b"", b"bafbc239d2492ca5"),
];

static OTHERS: [Row; 6] = [
    (
        1,
        b"open",
        Err(ReplicaFault::OtherSettings),
        b"",
        b"0000000000000000",
    ),
    (
        1,
        b"pidtab-log 3 pid_max 4194304 model 1",
        Err(ReplicaFault::OtherSettings),
        b"",
        b"00",
    ),
    (
        1,
        b"pidtab-log 2 pid_max 301 model 1",
        Err(ReplicaFault::OtherSettings),
        b"",
        b"00",
    ),
    (
        1,
        b"pidtab-log 1 pid_max 4194304 model 1",
        Ok(Outcome::Noted),
        b"",
        b"",
    ),
    (2, b"snap", Err(ReplicaFault::OtherSettings), b"", b""),
    (
        2,
        b"pidtab-log 2 pid_max 301 model 1",
        Ok(Outcome::Noted),
        b"",
        b"",
    ),
];

/// Opens sessions at the positions from 4 on, below the end.
fn open_sessions(rt: &(impl AllocGlobal + Abort), hosted: &mut Hosted, end: u64) {
    for position in 4..end {
        expect_row(
            rt,
            hosted,
            &(position, b"open", Ok(Outcome::Noted), b"", b""),
        );
    }
}

/// What comes behind 4,096 sessions that have opened: one is used, and one more opens. The digest at 3 is not kept.
static ENDS: [Row; 5] = [
    (
        4100,
        b"calls 4 1 1 3 0000000000000000\ncount 0",
        Ok(Outcome::Made),
        b"1\n",
        b"",
    ),
    (4101, b"open", Ok(Outcome::Noted), b"", b""),
    (
        4102,
        b"calls 5 1 1 3 0000000000000000\ncount 0",
        Ok(Outcome::Gone),
        b"",
        b"",
    ),
    (
        4103,
        b"calls 6 1 1 3 0000000000000000\ncount 0",
        Ok(Outcome::Made),
        b"1\n",
        b"",
    ),
    (
        4104,
        b"calls 4 2 1 3 0000000000000000\ncount 0",
        Ok(Outcome::Made),
        b"1\n",
        b"",
    ),
];

/// Where one session more than 4,096 opens, the one that was used the longest ago ends.
fn expect_ends(rt: &(impl AllocGlobal + Abort)) {
    let mut hosted = new_host(rt);
    expect_row(rt, &mut hosted, &LOG[0]);
    open_sessions(rt, &mut hosted, 4100);
    for row in &ENDS {
        expect_row(rt, &mut hosted, row);
    }
}

/// Whether the text is that of an entry, and is written of it again.
fn is_written_again(alloc: Global, text: &[u8]) -> bool {
    let Ok(entry) = read_entry(text) else {
        return false;
    };
    let Ok(written) = write_entry(alloc, &entry) else {
        return false;
    };
    written.as_slice() == text
}

static TEXTS: [&[u8]; 8] = [
    b"pidtab-log 2 pid_max 4194304 model 1",
    b"open",
    b"end 18446744073709551615",
    b"calls 0 10 1 0 0123456789abcdef\nfork 1",
    b"calls 4 1 3 4 a23d48e1e3a92dc8\nfork 1\n \ngetpid 2",
    b"snap",
    b"snapshot 7 a23d48e1e3a92dc8a23d48e1e3a92dc8a23d48e1e3a92dc8a23d48e1e3a92dc8 90 \
      15c2fe3e85470d4756d9d4de58a4a1712c47556d65f8e516cc095f5db632dfdc 0000000000000007-00000000000000ff",
    b"end 0",
];

static NO_TEXTS: [&[u8]; 14] = [
    b"",
    b"open\n",
    b"open ",
    b"end 04",
    b"end 18446744073709551616",
    b"end",
    b"end 4 ",
    b"calls 4 1 1 4 a23d48e1e3a92dc8",
    b"calls 4 1 1 4 a23d48e1e3a92dc8\n",
    b"calls 4 1 2 4 a23d48e1e3a92dc8\nfork 1\n",
    b"calls 4 1 1 4 a23d48e1e3a92dc8\nfork 1\nfork 1",
    b"calls 4 1 1 4 A23d48e1e3a92dc8\nfork 1",
    b"calls 4 1 1 4 a23d48e1e3a92dc\nfork 1",
    b"pidtab-log 2 pid-max 4194304 model 1",
];

fn expect_texts(rt: &(impl AllocGlobal + Abort), texts: &[&[u8]], are_entries: bool) {
    for text in texts {
        assert!(rt; is_written_again(rt.alloc(), text) == are_entries);
    }
}

#[test]
fn log_is_applied(rt: HostRuntime) {
    expect_rows(&rt, &LOG);
    expect_rows(&rt, &OTHERS);
    expect_ends(&rt);
}

#[test]
fn entries_are_read_as_they_are_written(rt: HostRuntime) {
    expect_texts(&rt, &TEXTS, true);
    expect_texts(&rt, &NO_TEXTS, false);
}
