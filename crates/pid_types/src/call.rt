//! What may be asked of the table.

use crate::keys::Pid;

/// The children that a [`Call::Wait`] selects, after `waitpid(2)`.
#[derive(Clone, Copy, Debug, PartialEq, Eq)]
pub enum Which {
    /// Any child (`pid` -1 of `waitpid`).
    Any,
    /// The child with this number in the caller's namespace. 0 matches no child.
    Pid(Pid),
    /// The children in the caller's own process group (`pid` 0 of `waitpid`).
    OwnGroup,
    /// The children in the process group with this number in the caller's namespace. 0 matches no
    /// child.
    Group(Pid),
}

/// What a number may be in use as.
#[derive(Clone, Copy, Debug, PartialEq, Eq)]
pub enum Kind {
    /// As the number of a task, zombies among them.
    Task,
    /// As the number of a process group.
    Group,
    /// As the number of a session.
    Session,
}

/// One call.
///
/// `caller`, and the `task` of [`Call::Move`], are root numbers and must name a live task. All other
/// process numbers are those of the caller's namespace. Namespaces and control groups go by their
/// ids, of which 0 is the root's.
#[derive(Clone, Copy, Debug, PartialEq, Eq)]
pub enum Call {
    /// `fork(2)`; with `new_space`, `clone(2)` with `CLONE_NEWPID`.
    Fork { caller: Pid, new_space: bool },
    /// `getpid(2)`.
    GetPid { caller: Pid },
    /// The target's numbers from the caller's namespace inwards: `NSpid` of `proc_pid_status(5)`.
    /// A `target` of 0 names nobody.
    NsPid { caller: Pid, target: Pid },
    /// `execve(2)`, as far as `setpgid(2)` minds it.
    Exec { caller: Pid },
    /// `_exit(2)`.
    Exit { caller: Pid, status: u8 },
    /// `waitpid(2)` with `WNOHANG`.
    Wait { caller: Pid, which: Which },
    /// `getppid(2)`.
    GetPpid { caller: Pid },
    /// `setpgid(2)`. A `pid` of 0 is the caller, a negative one names nobody; a `pgid` of 0 is the
    /// target.
    SetPgid { caller: Pid, pid: i32, pgid: i32 },
    /// `setsid(2)`.
    SetSid { caller: Pid },
    /// A new control group below `parent`: `mkdir(2)` in a control group file system.
    MakeControl { parent: u64 },
    /// `rmdir(2)` of a control group.
    RemoveControl { id: u64 },
    /// A write to `pids.max`. No limit is `max`.
    SetLimit { id: u64, limit: Option<u32> },
    /// A write of the task to `cgroup.procs`.
    Move { task: Pid, id: u64 },
    /// A read of `pids.current`.
    Count { id: u64 },
    /// `getpgid(2)`. A `pid` of 0 is the caller.
    GetPgid { caller: Pid, pid: Pid },
    /// `getsid(2)`. A `pid` of 0 is the caller.
    GetSid { caller: Pid, pid: Pid },
    /// The least number at or above `from` that is in use as the kind, in the caller's namespace.
    Next { caller: Pid, kind: Kind, from: Pid },
    /// `setns(2)` with `CLONE_NEWPID`: later children go into the target's namespace. A `target` of
    /// 0 names nobody.
    Join { caller: Pid, target: Pid },
    /// `prctl(2)` with `PR_SET_CHILD_SUBREAPER`.
    SetSubreaper { caller: Pid, on: bool },
}

/// One call about threads.
///
/// `caller` is the root number of the thread that makes it, and must name a running thread of a live
/// process. All other numbers are those of its process's namespace.
#[derive(Clone, Copy, Debug, PartialEq, Eq)]
pub enum ThreadCall {
    /// `clone(2)` with `CLONE_THREAD`: one more thread of the caller's process.
    NewThread { caller: Pid },
    /// The end of the calling thread alone: `_exit(2)` as the system call. The status is the
    /// process's where no other thread of it runs.
    Leave { caller: Pid, status: u8 },
    /// `gettid(2)`.
    GetTid { caller: Pid },
    /// The number of the target's process: `Tgid` of `proc_pid_status(5)`. A `target` of 0 names
    /// nobody.
    GetTgid { caller: Pid, target: Pid },
    /// The least number at or above `from` that a thread beside first ones has, in the namespace of
    /// the caller's process.
    NextThread { caller: Pid, from: Pid },
}
