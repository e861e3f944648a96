//! The choices of a wait, of a next and of pages, what an effect is, and what became of an entry, by their names.

// Written by tools/interface: choices.
/// Any child.
pub const ANY: u32 = 0;

/// The child with the number.
pub const CHILD: u32 = 1;

/// The children in the caller's process group.
pub const OWN_GROUP: u32 = 2;

/// The children in the process group with the number.
pub const GROUP: u32 = 3;

/// A task, live or ended.
pub const TASKS: u32 = 0;

/// A process group.
pub const GROUPS: u32 = 1;

/// A session.
pub const SESSIONS: u32 = 2;

/// The children of the task with the number.
pub const CHILDREN: u32 = 0;

/// The members of the process group with the number.
pub const GROUP_MEMBERS: u32 = 1;

/// The members of the session with the number.
pub const SESSION_MEMBERS: u32 = 2;

/// The tasks of the namespace that the task with the number is in, those in namespaces inside it too.
pub const NAMESPACE_MEMBERS: u32 = 3;

/// Of these the tasks that are in no namespace inside it.
pub const NAMESPACE_OWN: u32 = 4;

/// The namespaces that are directly in the one with the id.
pub const SPACES: u32 = 0;

/// The control groups that are directly in the one with the id.
pub const CONTROLS: u32 = 1;

/// The task ended: value is its status, 0 to 255, or [`crate::kinds::KILLED`] where its namespace fell.
pub const ENDED: u32 = 0;

/// The task has another parent: value is the root number of that.
pub const ADOPTED: u32 = 1;

/// The task is there no more, as it was reaped or went with its namespace: value is 0.
pub const GONE: u32 = 2;

/// The process group with the number has no member any more: value is 0.
pub const GROUP_GONE: u32 = 3;

/// The session with the number has no member any more: value is 0.
pub const SESSION_GONE: u32 = 4;

/// The namespace whose id is value has fallen: its init has ended, and it takes no task any more; number is 0.
pub const SPACE_FELL: u32 = 5;

/// The namespace whose id is value is there no more, as nothing has a number in it; number is 0.
pub const SPACE_GONE: u32 = 6;

/// It has no calls.
pub const ENTRY_NOTED: u32 = 0;

/// Its calls were made.
pub const ENTRY_MADE: u32 = 1;

/// They were made before: its session has had an entry with this number.
pub const ENTRY_REPEATED: u32 = 2;

/// Its session is not open, so they were not made.
pub const ENTRY_GONE: u32 = 3;

/// The session has had no entry with the number before, so they were not made.
pub const ENTRY_GAP: u32 = 4;
// The end of choices.
