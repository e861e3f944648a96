//! The settings, calls, replies and entries as numbers, as callers of other languages have them too. The numbers stay
//! the same from release to release.

use pid_types::plain::LEVELS;

/// The operation of a `setpgid`, whose entry has two signed numbers in place of an id.
pub const SET_PGID: u32 = 7;

/// The kind of a reply with a task's numbers.
pub const LEVELS_KIND: u32 = 3;

/// The settings that a record was opened with.
#[repr(C)]
#[derive(Clone, Copy)]
pub struct Head {
    pub pid_max: u32,
    pub workers: u32,
    pub first_stamp: u64,
}

/// A call: its operation, which is its place in [`pid_types::call::Call`] from 0 on, who makes it, and what else it
/// takes. What a call does not take is not looked at.
///
/// | Operation | Call | Takes |
/// |---|---|---|
/// | 0 | `fork` | `caller`; `choice` 1: into a new namespace |
/// | 1 | `getpid` | `caller` |
/// | 2 | `nspid` | `caller`, `number`: of the task |
/// | 3 | `exec` | `caller` |
/// | 4 | `exit` | `caller`, `number`: the status, 0 to 255 |
/// | 5 | `wait` | `caller`, `number`, `choice`: 0 any, 1 pid, 2 own, 3 group |
/// | 6 | `getppid` | `caller` |
/// | 7 | `setpgid` | `caller`, `pid`, `pgid` |
/// | 8 | `setsid` | `caller` |
/// | 9 | `mk` | `id`: of the parent |
/// | 10 | `rm` | `id` |
/// | 11 | `limit` | `id`; `choice` 1: `number` is the limit, 0: no limit |
/// | 12 | `move` | `caller`: who is moved, `id` |
/// | 13 | `count` | `id` |
/// | 14 | `getpgid` | `caller`, `number`: of the task, 0 for the caller |
/// | 15 | `getsid` | `caller`, `number`: of the task, 0 for the caller |
/// | 16 | `next` | `caller`, `choice`: 0 task, 1 group, 2 session, `number`: where to begin |
/// | 17 | `join` | `caller`, `number`: of the task |
/// | 18 | `subreaper` | `caller`; `choice` 1: on, 0: off |
#[repr(C)]
#[derive(Clone, Copy)]
pub struct CallNumbers {
    pub operation: u32,
    pub caller: u32,
    pub id: u64,
    pub number: u32,
    pub choice: u32,
    pub pid: i32,
    pub pgid: i32,
}

/// A reply: its kind, which is its place in [`pid_types::reply::Reply`] from 0 on, and what it tells; what it does not
/// tell is 0.
///
/// | Kind | Reply | Tells |
/// |---|---|---|
/// | 0 | `Forked` | `first` the child's number to the caller, `second` its root number |
/// | 1 | `Done` | |
/// | 2 | `Number` | `first` |
/// | 3 | `Levels` | the first `count` of `levels` |
/// | 4 | `Reaped` | `first` the child's number, `second` its status, or 256 where it was killed |
/// | 5 | `NoneYet` | |
/// | 6 | `Counted` | `first` |
/// | 7 | `Control` | `first` the id |
/// | 8 | `End` | |
/// | 9 | `Refused` | `errno`, `refusal` its number, `first` the id of what refused |
#[repr(C)]
#[derive(Clone, Copy, PartialEq)]
pub struct ReplyNumbers {
    pub kind: u32,
    pub errno: u32,
    pub refusal: u32,
    pub count: u32,
    pub first: u64,
    pub second: u64,
    pub levels: [u32; LEVELS],
}

/// A kept entry: whose call it was, the call and its reply. What the call does not take, and what the reply does not
/// tell, is 0.
#[repr(C)]
#[derive(Clone, Copy)]
pub struct EntryNumbers {
    pub worker: u64,
    pub call: CallNumbers,
    pub reply: ReplyNumbers,
}
