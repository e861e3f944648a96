//! The worked scripts of threads, made on the plain table. What each call answers is worked out from
//! the man pages that the model cites. A call that finds no memory is made once more, and then has to
//! answer the same.

use crate::table::PlainTable;
use pid_types::call::{Call, Kind, ThreadCall, Which};
use pid_types::config::Config;
use pid_types::plain::Ended;
use pid_types::reply::{Refusal, Reply, ShortReply};
use std::alloc::{AllocError, AllocGlobal};
use std::process::Abort;

/// A call of the table, or one about threads.
#[derive(Clone, Copy)]
enum Asked {
    Table(Call),
    Threads(ThreadCall),
}

/// What it answers: a reply without a list, or the numbers on two levels.
enum Told {
    Short(ShortReply),
    Levels([u32; 2]),
}

/// A thread has numbers of its own, and those of its process.
static THREADS_HAVE_NUMBERS: [(Asked, Told); 14] = [
    (
        Asked::Table(Call::Fork {
            caller: 1,
            new_space: true,
        }),
        Told::Short(ShortReply::Forked { child: 2, root: 2 }),
    ),
    (
        Asked::Threads(ThreadCall::NewThread { caller: 2 }),
        Told::Short(ShortReply::Forked { child: 2, root: 3 }),
    ),
    (
        Asked::Threads(ThreadCall::GetTid { caller: 3 }),
        Told::Short(ShortReply::Number(2)),
    ),
    (
        Asked::Table(Call::GetPid { caller: 3 }),
        Told::Short(ShortReply::Number(1)),
    ),
    (
        Asked::Table(Call::GetPpid { caller: 3 }),
        Told::Short(ShortReply::Number(0)),
    ),
    (
        Asked::Table(Call::NsPid {
            caller: 1,
            target: 3,
        }),
        Told::Levels([3, 2]),
    ),
    (
        Asked::Threads(ThreadCall::GetTgid {
            caller: 1,
            target: 3,
        }),
        Told::Short(ShortReply::Number(2)),
    ),
    (
        Asked::Table(Call::GetPgid { caller: 1, pid: 3 }),
        Told::Short(ShortReply::Number(1)),
    ),
    (
        Asked::Table(Call::Next {
            caller: 1,
            kind: Kind::Task,
            from: 3,
        }),
        Told::Short(ShortReply::End),
    ),
    (
        Asked::Threads(ThreadCall::NextThread { caller: 1, from: 3 }),
        Told::Short(ShortReply::Number(3)),
    ),
    (
        Asked::Table(Call::Fork {
            caller: 3,
            new_space: false,
        }),
        Told::Short(ShortReply::Forked { child: 3, root: 4 }),
    ),
    (
        Asked::Table(Call::GetPpid { caller: 4 }),
        Told::Short(ShortReply::Number(1)),
    ),
    (
        Asked::Table(Call::SetPgid {
            caller: 2,
            pid: 2,
            pgid: 0,
        }),
        Told::Short(ShortReply::Refused(Refusal::BadGroup)),
    ),
    (
        Asked::Table(Call::Wait {
            caller: 1,
            which: Which::Pid(3),
        }),
        Told::Short(ShortReply::Refused(Refusal::NoChild)),
    ),
];

/// The first thread leaves before the other: the process ends with the status of the last.
static LAST_THREAD_ENDS: [(Asked, Told); 12] = [
    (
        Asked::Table(Call::Fork {
            caller: 1,
            new_space: false,
        }),
        Told::Short(ShortReply::Forked { child: 2, root: 2 }),
    ),
    (
        Asked::Threads(ThreadCall::NewThread { caller: 2 }),
        Told::Short(ShortReply::Forked { child: 3, root: 3 }),
    ),
    (
        Asked::Threads(ThreadCall::Leave {
            caller: 2,
            status: 5,
        }),
        Told::Short(ShortReply::Done),
    ),
    (
        Asked::Table(Call::GetPid { caller: 2 }),
        Told::Short(ShortReply::Refused(Refusal::NoCaller)),
    ),
    (
        Asked::Table(Call::Wait {
            caller: 1,
            which: Which::Any,
        }),
        Told::Short(ShortReply::NoneYet),
    ),
    (
        Asked::Threads(ThreadCall::GetTid { caller: 3 }),
        Told::Short(ShortReply::Number(3)),
    ),
    (
        Asked::Table(Call::GetPid { caller: 3 }),
        Told::Short(ShortReply::Number(2)),
    ),
    (
        Asked::Table(Call::Count { id: 0 }),
        Told::Short(ShortReply::Counted(3)),
    ),
    (
        Asked::Threads(ThreadCall::Leave {
            caller: 3,
            status: 9,
        }),
        Told::Short(ShortReply::Done),
    ),
    (
        Asked::Table(Call::Count { id: 0 }),
        Told::Short(ShortReply::Counted(2)),
    ),
    (
        Asked::Table(Call::Wait {
            caller: 1,
            which: Which::Any,
        }),
        Told::Short(ShortReply::Reaped {
            child: 2,
            ended: Ended::Exited(9),
        }),
    ),
    (
        Asked::Threads(ThreadCall::Leave {
            caller: 1,
            status: 0,
        }),
        Told::Short(ShortReply::Refused(Refusal::RootInit)),
    ),
];

/// The other thread leaves first: its number and its charge are free at once.
static FIRST_THREAD_ENDS: [(Asked, Told); 9] = [
    (
        Asked::Table(Call::Fork {
            caller: 1,
            new_space: false,
        }),
        Told::Short(ShortReply::Forked { child: 2, root: 2 }),
    ),
    (
        Asked::Threads(ThreadCall::NewThread { caller: 2 }),
        Told::Short(ShortReply::Forked { child: 3, root: 3 }),
    ),
    (
        Asked::Threads(ThreadCall::GetTgid {
            caller: 1,
            target: 3,
        }),
        Told::Short(ShortReply::Number(2)),
    ),
    (
        Asked::Threads(ThreadCall::Leave {
            caller: 3,
            status: 7,
        }),
        Told::Short(ShortReply::Done),
    ),
    (
        Asked::Threads(ThreadCall::GetTgid {
            caller: 1,
            target: 3,
        }),
        Told::Short(ShortReply::Refused(Refusal::NoTask)),
    ),
    (
        Asked::Table(Call::Count { id: 0 }),
        Told::Short(ShortReply::Counted(2)),
    ),
    (
        Asked::Table(Call::Wait {
            caller: 1,
            which: Which::Any,
        }),
        Told::Short(ShortReply::NoneYet),
    ),
    (
        Asked::Threads(ThreadCall::Leave {
            caller: 2,
            status: 5,
        }),
        Told::Short(ShortReply::Done),
    ),
    (
        Asked::Table(Call::Wait {
            caller: 1,
            which: Which::Any,
        }),
        Told::Short(ShortReply::Reaped {
            child: 2,
            ended: Ended::Exited(5),
        }),
    ),
];

/// An exec goes on in the calling thread, under the process's number.
static EXEC_TAKES_THREADS: [(Asked, Told); 11] = [
    (
        Asked::Table(Call::Fork {
            caller: 1,
            new_space: false,
        }),
        Told::Short(ShortReply::Forked { child: 2, root: 2 }),
    ),
    (
        Asked::Table(Call::Fork {
            caller: 2,
            new_space: true,
        }),
        Told::Short(ShortReply::Forked { child: 3, root: 3 }),
    ),
    (
        Asked::Threads(ThreadCall::NewThread { caller: 2 }),
        Told::Short(ShortReply::Forked { child: 4, root: 4 }),
    ),
    (
        Asked::Table(Call::Join {
            caller: 4,
            target: 3,
        }),
        Told::Short(ShortReply::Done),
    ),
    (
        Asked::Threads(ThreadCall::NewThread { caller: 4 }),
        Told::Short(ShortReply::Refused(Refusal::Elsewhere)),
    ),
    (
        Asked::Threads(ThreadCall::Leave {
            caller: 2,
            status: 0,
        }),
        Told::Short(ShortReply::Done),
    ),
    (
        Asked::Table(Call::Exec { caller: 4 }),
        Told::Short(ShortReply::Done),
    ),
    (
        Asked::Table(Call::GetPid { caller: 4 }),
        Told::Short(ShortReply::Refused(Refusal::NoCaller)),
    ),
    (
        Asked::Threads(ThreadCall::GetTid { caller: 2 }),
        Told::Short(ShortReply::Number(2)),
    ),
    (
        Asked::Table(Call::Fork {
            caller: 2,
            new_space: false,
        }),
        Told::Short(ShortReply::Forked { child: 5, root: 5 }),
    ),
    (
        Asked::Table(Call::NsPid {
            caller: 1,
            target: 5,
        }),
        Told::Levels([5, 2]),
    ),
];

/// Threads are charged, and move with their process; a first one that has left stays behind.
static THREADS_ARE_CHARGED: [(Asked, Told); 19] = [
    (
        Asked::Table(Call::MakeControl { parent: 0 }),
        Told::Short(ShortReply::Control(1)),
    ),
    (
        Asked::Table(Call::MakeControl { parent: 0 }),
        Told::Short(ShortReply::Control(2)),
    ),
    (
        Asked::Table(Call::Fork {
            caller: 1,
            new_space: false,
        }),
        Told::Short(ShortReply::Forked { child: 2, root: 2 }),
    ),
    (
        Asked::Table(Call::Move { task: 2, id: 1 }),
        Told::Short(ShortReply::Done),
    ),
    (
        Asked::Threads(ThreadCall::NewThread { caller: 2 }),
        Told::Short(ShortReply::Forked { child: 3, root: 3 }),
    ),
    (
        Asked::Table(Call::Count { id: 1 }),
        Told::Short(ShortReply::Counted(2)),
    ),
    (
        Asked::Table(Call::SetLimit {
            id: 1,
            limit: Some(2),
        }),
        Told::Short(ShortReply::Done),
    ),
    (
        Asked::Threads(ThreadCall::NewThread { caller: 2 }),
        Told::Short(ShortReply::Refused(Refusal::PidsLimit(1))),
    ),
    (
        Asked::Table(Call::Fork {
            caller: 3,
            new_space: false,
        }),
        Told::Short(ShortReply::Refused(Refusal::PidsLimit(1))),
    ),
    (
        Asked::Threads(ThreadCall::Leave {
            caller: 2,
            status: 0,
        }),
        Told::Short(ShortReply::Done),
    ),
    (
        Asked::Table(Call::Count { id: 1 }),
        Told::Short(ShortReply::Counted(2)),
    ),
    (
        Asked::Table(Call::RemoveControl { id: 1 }),
        Told::Short(ShortReply::Refused(Refusal::ControlBusy)),
    ),
    (
        Asked::Table(Call::Move { task: 3, id: 2 }),
        Told::Short(ShortReply::Done),
    ),
    (
        Asked::Table(Call::Count { id: 1 }),
        Told::Short(ShortReply::Counted(1)),
    ),
    (
        Asked::Table(Call::Count { id: 2 }),
        Told::Short(ShortReply::Counted(1)),
    ),
    (
        Asked::Table(Call::RemoveControl { id: 1 }),
        Told::Short(ShortReply::Done),
    ),
    (
        Asked::Table(Call::Exit {
            caller: 3,
            status: 4,
        }),
        Told::Short(ShortReply::Done),
    ),
    (
        Asked::Table(Call::Count { id: 2 }),
        Told::Short(ShortReply::Counted(0)),
    ),
    (
        Asked::Table(Call::Wait {
            caller: 1,
            which: Which::Any,
        }),
        Told::Short(ShortReply::Reaped {
            child: 2,
            ended: Ended::Exited(4),
        }),
    ),
];

/// The last thread of an init leaves, and its namespace falls.
static LAST_OF_INIT_FALLS: [(Asked, Told); 10] = [
    (
        Asked::Table(Call::Fork {
            caller: 1,
            new_space: true,
        }),
        Told::Short(ShortReply::Forked { child: 2, root: 2 }),
    ),
    (
        Asked::Threads(ThreadCall::NewThread { caller: 2 }),
        Told::Short(ShortReply::Forked { child: 2, root: 3 }),
    ),
    (
        Asked::Table(Call::Fork {
            caller: 3,
            new_space: false,
        }),
        Told::Short(ShortReply::Forked { child: 3, root: 4 }),
    ),
    (
        Asked::Threads(ThreadCall::NewThread { caller: 4 }),
        Told::Short(ShortReply::Forked { child: 4, root: 5 }),
    ),
    (
        Asked::Threads(ThreadCall::Leave {
            caller: 2,
            status: 0,
        }),
        Told::Short(ShortReply::Done),
    ),
    (
        Asked::Table(Call::Fork {
            caller: 3,
            new_space: false,
        }),
        Told::Short(ShortReply::Forked { child: 5, root: 6 }),
    ),
    (
        Asked::Threads(ThreadCall::Leave {
            caller: 3,
            status: 8,
        }),
        Told::Short(ShortReply::Done),
    ),
    (
        Asked::Threads(ThreadCall::GetTid { caller: 5 }),
        Told::Short(ShortReply::Refused(Refusal::NoCaller)),
    ),
    (
        Asked::Threads(ThreadCall::NextThread { caller: 1, from: 2 }),
        Told::Short(ShortReply::End),
    ),
    (
        Asked::Table(Call::Wait {
            caller: 1,
            which: Which::Any,
        }),
        Told::Short(ShortReply::Reaped {
            child: 2,
            ended: Ended::Exited(8),
        }),
    ),
];

fn make(table: &mut PlainTable, stamp: u64, asked: Asked) -> Result<Reply, AllocError> {
    match asked {
        Asked::Table(call) => table.step(stamp, call),
        Asked::Threads(call) => table.thread_step(call),
    }
}

/// Makes the call, and once more where there was no memory.
fn answer(rt: &impl Abort, table: &mut PlainTable, stamp: u64, asked: Asked) -> Reply {
    match make(table, stamp, asked) {
        Ok(reply) => reply,
        Err(_) => make(table, stamp, asked).expect(rt, "no memory twice"),
    }
}

fn is_told(reply: &Reply, told: &Told) -> bool {
    match told {
        Told::Levels(wanted) => has_levels(reply, wanted),
        Told::Short(short) => {
            let mut wanted = Reply::Done;
            short.tell(&mut wanted);
            *reply == wanted
        }
    }
}

fn has_levels(reply: &Reply, wanted: &[u32; 2]) -> bool {
    match reply {
        Reply::Levels(numbers) => numbers.as_slice() == wanted.as_slice(),
        _ => false,
    }
}

fn begin<R: Abort + AllocGlobal>(rt: &R) -> PlainTable {
    let config = Config::new(32768, 1).expect(rt, "a configuration");
    match PlainTable::new(rt.alloc(), &config) {
        Ok(table) => table,
        Err(_) => PlainTable::new(rt.alloc(), &config).expect(rt, "no memory twice"),
    }
}

fn play<R: Abort + AllocGlobal>(rt: &R, lines: &[(Asked, Told)]) {
    let mut table = begin(rt);
    let mut stamp = 0u64;
    for (asked, told) in lines {
        stamp = stamp.saturating_add(1);
        let reply = answer(rt, &mut table, stamp, *asked);
        assert!(rt; is_told(&reply, told));
    }
}

#[test]
fn scripts_of_threads_are_answered(rt: HostRuntime) {
    play(&rt, &THREADS_HAVE_NUMBERS);
    play(&rt, &LAST_THREAD_ENDS);
    play(&rt, &FIRST_THREAD_ENDS);
    play(&rt, &EXEC_TAKES_THREADS);
    play(&rt, &THREADS_ARE_CHARGED);
    play(&rt, &LAST_OF_INIT_FALLS);
}
