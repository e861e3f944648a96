//! Names for the numbers that a table goes by.
//!
//! A key is a place in the table's own memory, below 2^30. It names one thing while that is there, and may name
//! another one later; no caller of the table sees it. A number in a namespace is what callers see.

/// A task's number in one namespace, as `pid_t`: at least 1, and below the table's `pid_max`. In a call 0 may have a
/// meaning of its own.
pub type Pid = u32;

/// The key of an identifier, which names a task, a process group or a session: the kernel's `struct pid`.
pub type IdentKey = u32;

/// The key of a task, which is the key of its identifier.
pub type TaskKey = IdentKey;

/// The key of a PID namespace. The root namespace has key 0.
pub type SpaceKey = u32;

/// The key of a control group.
pub type ControlKey = u32;
