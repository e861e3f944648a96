//! The counters: what a walk to the root reads and writes at each node.

ghost use Rattle.std.specs.{Prelude.{◌≡◌, nat_le, false, None}, Option.{option_map_or}};

use pid_types::keys::ControlKey;

/// The count of a node and of those below it. The limit and the parent are the node's, kept here too, so that a walk to
/// the root has a single look-up at each step.
#[derive(Clone, Copy)]
pub(crate) struct Counter {
    pub(crate) total: u64,
    pub(crate) limit: Option<u32>,
    pub(crate) parent: Option<ControlKey>,
}

impl Counter {
    /// The counter of a node without limit and tasks.
    pub(crate) fn new(parent: Option<ControlKey>) -> Self
        ensures { result ≡ record { total = 0; limit = None; parent = parent } }
    {
        Counter {
            total: 0,
            limit: None,
            parent,
        }
    }

    /// Whether one task more would pass the limit.
    pub(crate) fn is_at_limit(&self) -> bool
        ensures { result ≡ option_map_or (λ limit. nat_le limit self.now.total) self.now.limit false }
    {
        match self.limit {
            Some(limit) => u64::from(limit) <= self.total,
            None => false,
        }
    }
}
