//! The operations of a call as numbers, by their names.

// Written by tools/interface: operations.
/// `fork` takes `caller`; `choice` 1: into a new namespace.
pub const FORK: u32 = 0;

/// `getpid` takes `caller`; a query.
pub const GETPID: u32 = 1;

/// `nspid` takes `caller`, `number`: of the task; a query.
pub const NSPID: u32 = 2;

/// `exec` takes `caller`.
pub const EXEC: u32 = 3;

/// `exit` takes `caller`, `number`: the status, 0 to 255.
pub const EXIT: u32 = 4;

/// `wait` takes `caller`, `number`, `choice`: whom.
pub const WAIT: u32 = 5;

/// `getppid` takes `caller`; a query.
pub const GETPPID: u32 = 6;

/// `setpgid` takes `caller`, `pid`, `pgid`.
pub const SETPGID: u32 = 7;

/// `setsid` takes `caller`.
pub const SETSID: u32 = 8;

/// `mk` takes `id`: of the parent.
pub const MK: u32 = 9;

/// `rm` takes `id`.
pub const RM: u32 = 10;

/// `limit` takes `id`; `choice` 1: `number` is the limit, 0: no limit.
pub const LIMIT: u32 = 11;

/// `move` takes `caller`: who is moved, `id`.
pub const MOVE: u32 = 12;

/// `count` takes `id`; a query.
pub const COUNT: u32 = 13;

/// `getpgid` takes `caller`, `number`: of the task, 0 for the caller; a query.
pub const GETPGID: u32 = 14;

/// `getsid` takes `caller`, `number`: of the task, 0 for the caller; a query.
pub const GETSID: u32 = 15;

/// `next` takes `caller`, `choice`: as what, `number`: where to begin; a query.
pub const NEXT: u32 = 16;

/// `join` takes `caller`, `number`: of the task.
pub const JOIN: u32 = 17;

/// `subreaper` takes `caller`; `choice` 1: on, 0: off.
pub const SUBREAPER: u32 = 18;
// The end of operations.
