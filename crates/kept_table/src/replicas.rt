//! The law of replicas.
ghost use Rattle.kept_table.specs.Replicas.{SameCallsSameReplies};

/// Two records whose kept histories begin in one state, with one stamp, and have the same calls, have the same
/// replies and the same state. So a log of the calls alone rebuilds a table, reply for reply.
pub fn same_calls_same_replies()
    ensures { SameCallsSameReplies }
{}
