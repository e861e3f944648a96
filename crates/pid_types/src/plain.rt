//! The table as plain lists: what a snapshot shows, and what the model's definitions speak of.

use crate::keys::Pid;
use arrayvec::ArrayVec;

/// The greatest number of levels that an identifier has: a namespace's level is 0 to 32.
pub const LEVELS: usize = 33;

/// The level of the deepest namespaces: `pid_namespaces(7)`, "Nesting PID namespaces".
pub const DEEPEST_SPACE: usize = 32;

/// An identifier: the id of its namespace, and its numbers there and in each namespace around it,
/// the root's first. The kernel's `struct pid` with a `upid` for each level.
#[derive(Clone, Debug, Drop, PartialEq, Eq)]
pub struct Name {
    pub space: u64,
    pub numbers: ArrayVec<Pid, LEVELS>,
}

/// How a task ended.
#[derive(Clone, Copy, Debug, PartialEq, Eq)]
pub enum Ended {
    /// By its own exit, with this status.
    Exited(u8),
    /// By the fall of a namespace that it was visible in.
    Killed,
}

/// Whether a task lives, or has ended and waits to be reaped.
#[derive(Clone, Copy, Debug, PartialEq, Eq)]
pub enum Life {
    Live,
    Zombie(Ended),
}

/// One task.
#[derive(Clone, Debug, Drop, PartialEq, Eq)]
pub struct Row {
    pub name: Name,
    /// None for the root init alone.
    pub parent: Option<Name>,
    pub group: Name,
    pub session: Name,
    /// Whether it has executed, after which its parent can move it to no other group.
    pub executed: bool,
    pub life: Life,
    /// The id of the control group that it is in.
    pub home: u64,
    /// The id of the namespace that its children go into. It may be one that was dropped since.
    pub children_space: u64,
    pub subreaper: bool,
}

/// One thread of a process beside its first one, whose name is the process's: `clone(2)` with
/// `CLONE_THREAD`.
#[derive(Clone, Debug, Drop, PartialEq, Eq)]
pub struct Thread {
    pub name: Name,
    /// The name of its process.
    pub process: Name,
    /// The id of the control group that it is counted in.
    pub home: u64,
    /// The id of the namespace that its children go into. It may be one that was dropped since.
    pub children_space: u64,
}

/// One namespace.
#[derive(Clone, Copy, Debug, PartialEq, Eq)]
pub struct Space {
    pub id: u64,
    /// None for the root alone.
    pub parent: Option<u64>,
    /// The number that the next draw begins at: one above the last number drawn, 0 before the
    /// first.
    pub cursor: Pid,
    /// Whether its init has ended.
    pub fallen: bool,
}

/// One control group.
#[derive(Clone, Copy, Debug, PartialEq, Eq)]
pub struct Control {
    pub id: u64,
    /// None for the root alone.
    pub parent: Option<u64>,
    /// `pids.max`: a fork that would raise the subtree's count above this is refused.
    pub limit: Option<u32>,
}

/// One control group with its count.
#[derive(Clone, Copy, Debug, PartialEq, Eq)]
pub struct ControlRow {
    pub id: u64,
    pub parent: Option<u64>,
    pub limit: Option<u32>,
    /// How many tasks it and those below it have, zombies among them: `pids.current`.
    pub count: u64,
}

/// A snapshot of the table.
#[derive(Debug, Drop)]
pub struct Plain {
    /// One above the greatest number that a namespace gives.
    pub pid_max: u32,
    /// The tasks, by their root numbers.
    pub rows: Vec<Row>,
    /// The namespaces, by their ids.
    pub spaces: Vec<Space>,
    /// The control groups, by their ids.
    pub controls: Vec<ControlRow>,
}
