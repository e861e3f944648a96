//! Tasks that come to a node and go: its own numbers, and the totals above it.

ghost use Rattle.std.specs.Prelude.{◌≡◌, ◌+◌, ◌-◌, ◌<◌, ◌^◌, Some, None, true};
ghost use Rattle.{
  slab.specs.Slab.{ContainsKey},
  pids_charge.specs.{declared.node.Node.{Node}, Nodes.{TreeOfNodes, tree_of, all_in, live_in, zombies_in, IsNodeTree}},
  pids_charge.specs.Kept.{AreTotals, ChangesTasks, DropsEmpty, MovesLive, total_at, AreLinked},
};

use crate::counter::Counter;
use crate::node::{Node, node_at, set_tasks};
use crate::walk::{lower, raise, shift};
use pid_types::keys::ControlKey;
use slab::Slab;

/// A live task comes.
pub(crate) fn put_live(nodes: &mut Slab<Node>, counters: &mut Vec<Counter>, home: ControlKey)
    requires tree { IsNodeTree (tree_of nodes.old) }
    requires counted { AreTotals nodes.old (total_at counters.old.items) None }
    requires linked { AreLinked nodes.old counters.old.items }
    requires stands { (tree_of nodes.old).stand home ≡ true }
    requires few { all_in nodes.old + 1 < 2 ^ 64 }
    ensures changes { ChangesTasks nodes.old nodes.new home (λ (n : Node). record n { live = n.live + 1 }) }
    ensures all { all_in nodes.new ≡ all_in nodes.old + 1 }
    ensures counted { AreTotals nodes.new (total_at counters.new.items) None }
    ensures linked { AreLinked nodes.new counters.new.items }
{
    let node = node_at(nodes, home);
    let live = node.live + 1;
    set_tasks(nodes, home, live, node.zombies);
    raise(nodes, counters, home);
}

/// A live task goes from a node to another, or stays where it is.
pub(crate) fn move_live(
    nodes: &mut Slab<Node>,
    counters: &mut Vec<Counter>,
    from: ControlKey,
    to: ControlKey,
)
    requires tree { IsNodeTree (tree_of nodes.old) }
    requires counted { AreTotals nodes.old (total_at counters.old.items) None }
    requires linked { AreLinked nodes.old counters.old.items }
    requires some { 0 < live_in nodes.old from }
    requires stands { (tree_of nodes.old).stand to ≡ true }
    ensures moves { MovesLive nodes.old nodes.new from to }
    ensures all { all_in nodes.new ≡ all_in nodes.old }
    ensures counted { AreTotals nodes.new (total_at counters.new.items) None }
    ensures linked { AreLinked nodes.new counters.new.items }
{
    let left = node_at(nodes, from);
    let live = left.live - 1;
    set_tasks(nodes, from, live, left.zombies);
    let joined = node_at(nodes, to);
    let live = joined.live + 1;
    set_tasks(nodes, to, live, joined.zombies);
    shift(nodes, counters, from, to);
}

/// A zombie goes. What does not stand may then have no tasks, on the way up from there.
pub(crate) fn take_zombie(nodes: &mut Slab<Node>, counters: &mut Vec<Counter>, home: ControlKey)
    requires tree { IsNodeTree (tree_of nodes.old) }
    requires counted { AreTotals nodes.old (total_at counters.old.items) None }
    requires linked { AreLinked nodes.old counters.old.items }
    requires some { 0 < zombies_in nodes.old home }
    ensures changes { ChangesTasks nodes.old nodes.new home (λ (n : Node). record n { zombies = n.zombies - 1 }) }
    ensures all { all_in nodes.new + 1 ≡ all_in nodes.old }
    ensures counted { AreTotals nodes.new (total_at counters.new.items) (Some home) }
    ensures linked { AreLinked nodes.new counters.new.items }
{
    let node = node_at(nodes, home);
    let zombies = node.zombies - 1;
    set_tasks(nodes, home, node.live, zombies);
    lower(nodes, counters, home);
}

/// A live task becomes a zombie.
pub(crate) fn end_live(nodes: &mut Slab<Node>, counters: &Vec<Counter>, home: ControlKey)
    requires tree { IsNodeTree (tree_of nodes.old) }
    requires counted { AreTotals nodes.old (total_at counters.now.items) None }
    requires linked { AreLinked nodes.old counters.now.items }
    requires some { 0 < live_in nodes.old home }
    ensures changes { ChangesTasks nodes.old nodes.new home (λ
        (n : Node). record n { live = n.live - 1; zombies = n.zombies + 1 }) }
    ensures all { all_in nodes.new ≡ all_in nodes.old }
    ensures counted { AreTotals nodes.new (total_at counters.now.items) None }
    ensures linked { AreLinked nodes.new counters.now.items }
{
    let node = node_at(nodes, home);
    let live = node.live - 1;
    let zombies = node.zombies + 1;
    set_tasks(nodes, home, live, zombies);
}

/// Drops what does not stand and has no tasks left, from a node up.
pub(crate) fn drop_empty(nodes: &mut Slab<Node>, counters: &Vec<Counter>, from: ControlKey)
    requires tree { IsNodeTree (tree_of nodes.old) }
    requires counted { AreTotals nodes.old (total_at counters.now.items) (Some from) }
    requires linked { AreLinked nodes.old counters.now.items }
    requires there { ContainsKey nodes.old from }
    ensures drops { DropsEmpty nodes.old nodes.new }
    ensures all { all_in nodes.new ≡ all_in nodes.old }
    ensures tree { IsNodeTree (tree_of nodes.new) }
    ensures counted { AreTotals nodes.new (total_at counters.now.items) None }
    ensures linked { AreLinked nodes.new counters.now.items }
{
    let mut at = Some(from);
    while let Some(key) = at {
        let node = node_at(nodes, key);
        if node.standing || counters[key as usize].total > 0 {
            return;
        }
        nodes.try_remove(key as usize);
        at = node.parent;
    }
}
