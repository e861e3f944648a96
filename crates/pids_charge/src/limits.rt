//! The walk from a node to the root that asks the limits. It reads counters alone, as those of `walk` do.

ghost use Rattle.std.specs.{Prelude.{◌≡◌, nat_lt, false}, Option.{option_map_or}};
ghost use Rattle.{
  pid_types.specs.Bounds.{greatest_limit},
  slab.specs.Slab.{ContainsKey},
  pids_charge.specs.{Nodes.{tree_of, IsNodeTree}, Kept.{first_full, total_at, AreLinked}},
};

use crate::counter::Counter;
use crate::node::Node;
use pid_types::keys::ControlKey;
use slab::Slab;

/// The greatest limit: the kernel's `PID_MAX_LIMIT`.
const GREATEST_LIMIT: u32 = 4_194_304;

/// Whether a limit is above the greatest.
pub(crate) fn is_too_high(limit: Option<u32>) -> bool
    ensures { result ≡ option_map_or (nat_lt greatest_limit) limit false }
{
    match limit {
        Some(limit) => limit > GREATEST_LIMIT,
        None => false,
    }
}

/// The nearest node, from one up, whose limit one task more would pass.
pub(crate) fn full_above(
    _nodes: &Slab<Node>,
    counters: &[Counter],
    home: ControlKey,
) -> Option<ControlKey>
    requires tree { IsNodeTree (tree_of _nodes.now) }
    requires home { ContainsKey _nodes.now home }
    requires linked { AreLinked _nodes.now counters.now }
    ensures { result ≡ first_full _nodes.now (total_at counters.now) ((tree_of _nodes.now).level home) home }
{
    let mut at = Some(home);
    while let Some(key) = at {
        let counter = &counters[key as usize];
        if counter.is_at_limit() {
            return Some(key);
        }
        at = counter.parent;
    }
    None
}
