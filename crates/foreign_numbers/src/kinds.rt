//! The kinds of a reply as numbers, by their names.

/// What stands for the status of a child that the fall of its namespace killed.
pub const KILLED: u64 = 256;

// Written by tools/interface: kinds.
/// Tells `first`: the child's number to the caller, `second`: its root number.
pub const FORKED: u32 = 0;

/// Tells nothing.
pub const OK: u32 = 1;

/// Tells `first`.
pub const NUMBER: u32 = 2;

/// Tells the first `count` of `levels`, outermost first.
pub const LEVELS: u32 = 3;

/// Tells `first`: the child, `second`: its status, or [`KILLED`] where its namespace fell.
pub const REAPED: u32 = 4;

/// Tells nothing: children match, and none of them has ended.
pub const NONE_YET: u32 = 5;

/// Tells `first`.
pub const COUNTED: u32 = 6;

/// Tells `first`: the id.
pub const CONTROL: u32 = 7;

/// Tells nothing: no number follows.
pub const END: u32 = 8;

/// Tells `error`, `refusal`: its number, `first`: the id of what refused, if it has one.
pub const REFUSED: u32 = 9;
// The end of kinds.
