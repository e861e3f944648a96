//! The walk from a node to the nearest above that stands.

ghost use Rattle.std.specs.Prelude.{◌≡◌, None, if◌then◌else◌};
ghost use Rattle.slab.specs.Slab.{ContainsKey};
ghost use Rattle.pids_charge.specs.{Nodes.{tree_of, IsNodeTree}, Kept.{standing_key}};

use crate::node::{Node, node_at};
use pid_types::keys::ControlKey;
use slab::Slab;

/// What a removed node is below; none of one that stands.
fn above_removed(nodes: &Slab<Node>, key: ControlKey) -> Option<ControlKey>
    requires { ContainsKey nodes.now key }
    ensures { result ≡ (if (tree_of nodes.now).stand key then None else (tree_of nodes.now).up key) }
{
    let node = node_at(nodes, key);
    if node.standing { None } else { node.parent }
}

/// The nearest node, from one up, that stands.
pub(crate) fn standing_from(nodes: &Slab<Node>, home: ControlKey) -> ControlKey
    requires tree { IsNodeTree (tree_of nodes.now) }
    requires home { ContainsKey nodes.now home }
    ensures there { ContainsKey nodes.now result }
    ensures nearest { result ≡ standing_key (tree_of nodes.now) home }
{
    let mut at = home;
    while let Some(parent) = above_removed(nodes, at) {
        at = parent;
    }
    at
}
