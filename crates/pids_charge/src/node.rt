//! The nodes: control groups, and what is left of removed ones.

ghost use Rattle.std.specs.Prelude.{◌≡◌, Some, None, true};
ghost use Rattle.slab.specs.Slab.{get, ContainsKey, Updates};
ghost use Rattle.pids_charge.specs.declared.node.Node.{Node};

use pid_types::keys::ControlKey;
use slab::Slab;

/// A control group, or what is left of a removed one while it has zombies.
#[derive(Clone, Copy)]
pub(crate) struct Node {
    pub(crate) id: u64,
    /// None for the root alone.
    pub(crate) parent: Option<ControlKey>,
    pub(crate) limit: Option<u32>,
    /// How many nodes are above it.
    pub(crate) level: u32,
    /// Whether it was not removed.
    pub(crate) standing: bool,
    /// The live tasks directly in it.
    pub(crate) live: u64,
    /// The zombies directly in it.
    pub(crate) zombies: u64,
}

impl Node {
    /// A control group without limit and tasks.
    pub(crate) fn new(id: u64, parent: Option<ControlKey>, level: u32) -> Self
        ensures { result ≡ record {
          id = id;
          parent = parent;
          limit = None;
          level = level;
          standing = true;
          live = 0;
          zombies = 0;
        } }
    {
        Node {
            id,
            parent,
            limit: None,
            level,
            standing: true,
            live: 0,
            zombies: 0,
        }
    }
}

/// The node at a key.
pub(crate) fn node_at(nodes: &Slab<Node>, key: ControlKey) -> Node
    requires { ContainsKey nodes.now key }
    ensures { get nodes.now key ≡ Some result }
{
    match nodes.get(key as usize) {
        Some(node) => *node,
        None => unreachable!(),
    }
}

/// Writes the node at a key.
pub(crate) fn set_node(nodes: &mut Slab<Node>, key: ControlKey, node: Node)
    requires { ContainsKey nodes.old key }
    ensures { Updates nodes.old nodes.new key (Some node) }
{
    match nodes.get_mut(key as usize) {
        Some(place) => *place = node,
        None => unreachable!(),
    }
}

/// Writes how many tasks are directly in the node at a key, and nothing else of it.
pub(crate) fn set_tasks(nodes: &mut Slab<Node>, key: ControlKey, live: u64, zombies: u64)
    requires { ContainsKey nodes.old key }
    ensures { (n : Node) → get nodes.old key ≡ Some n
        → Updates nodes.old nodes.new key (Some (record n { live = live; zombies = zombies })) }
{
    match nodes.get_mut(key as usize) {
        Some(place) => {
            place.live = live;
            place.zombies = zombies;
        }
        None => unreachable!(),
    }
}
