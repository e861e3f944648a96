//! The walks from a node to the root, which keep the totals of subtrees. They read counters alone, except the levels
//! that say which of two nodes is deeper. The nodes are named for the contracts, which speak of their tree.

ghost use Rattle.std.specs.Prelude.{◌≡◌, ℕ, ◌+◌, ◌<◌, ◌≤◌, ◌^◌, true, None, Some};
ghost use Rattle.slab.specs.Slab.{ContainsKey};
ghost use Rattle.pids_charge.specs.Nodes.{one_at, tree_of, is_under, weight, HasLevels};
ghost use Rattle.pids_charge.specs.Kept.{total_at, AreLinked};

use crate::counter::Counter;
use crate::node::{Node, node_at};
use pid_types::keys::ControlKey;
use slab::Slab;

/// One task more below a node. It answers the node above.
#[inline(always)]
fn count_on(_nodes: &Slab<Node>, counters: &mut Vec<Counter>, key: ControlKey) -> Option<ControlKey>
    requires there { ContainsKey _nodes.now key }
    requires linked { AreLinked _nodes.now counters.old.items }
    requires few { total_at counters.old.items key + 1 < 2 ^ 64 }
    ensures up { result ≡ (tree_of _nodes.now).up key }
    ensures totals { (k : ℕ) → total_at counters.new.items k ≡ total_at counters.old.items k + one_at key k }
    ensures linked { AreLinked _nodes.now counters.new.items }
{
    let counter = &mut counters[key as usize];
    counter.total += 1;
    counter.parent
}

/// One task less below a node. It answers the node above.
#[inline(always)]
fn count_off(
    _nodes: &Slab<Node>,
    counters: &mut Vec<Counter>,
    key: ControlKey,
) -> Option<ControlKey>
    requires there { ContainsKey _nodes.now key }
    requires linked { AreLinked _nodes.now counters.old.items }
    requires some { 0 < total_at counters.old.items key }
    ensures up { result ≡ (tree_of _nodes.now).up key }
    ensures totals { (k : ℕ) → total_at counters.new.items k + one_at key k ≡ total_at counters.old.items k }
    ensures linked { AreLinked _nodes.now counters.new.items }
{
    let counter = &mut counters[key as usize];
    counter.total -= 1;
    counter.parent
}

/// One task more at a node: counts it there and at all above.
pub(crate) fn raise(_nodes: &Slab<Node>, counters: &mut Vec<Counter>, home: ControlKey)
    requires levels { HasLevels (tree_of _nodes.now) }
    requires home { ContainsKey _nodes.now home }
    requires linked { AreLinked _nodes.now counters.old.items }
    requires few { (k : ℕ) → is_under (tree_of _nodes.now) home k ≡ true → total_at counters.old.items k + 1 < 2 ^ 64 }
    ensures totals { (k : ℕ) → total_at counters.new.items k
        ≡ total_at counters.old.items k + weight (tree_of _nodes.now) home k }
    ensures linked { AreLinked _nodes.now counters.new.items }
{
    let mut at = Some(home);
    while let Some(key) = at {
        at = count_on(_nodes, counters, key);
    }
}

/// One task less at a node: counts it off there and at all above.
pub(crate) fn lower(_nodes: &Slab<Node>, counters: &mut Vec<Counter>, home: ControlKey)
    requires levels { HasLevels (tree_of _nodes.now) }
    requires home { ContainsKey _nodes.now home }
    requires linked { AreLinked _nodes.now counters.old.items }
    requires some { (k : ℕ) → is_under (tree_of _nodes.now) home k ≡ true → 0 < total_at counters.old.items k }
    ensures totals { (k : ℕ) → total_at counters.new.items k + weight (tree_of _nodes.now) home k
        ≡ total_at counters.old.items k }
    ensures linked { AreLinked _nodes.now counters.new.items }
{
    let mut at = Some(home);
    while let Some(key) = at {
        at = count_off(_nodes, counters, key);
    }
}

/// One task less at a node and at those above it, so many in all. It answers the next one above.
fn lower_some(
    nodes: &Slab<Node>,
    counters: &mut Vec<Counter>,
    home: ControlKey,
    levels: u32,
) -> ControlKey
    requires levels { HasLevels (tree_of nodes.now) }
    requires top { (k : ℕ) → (tree_of nodes.now).up k ≡ None → (tree_of nodes.now).level k ≡ 0 }
    requires home { ContainsKey nodes.now home }
    requires linked { AreLinked nodes.now counters.old.items }
    requires few { levels ≤ (tree_of nodes.now).level home }
    requires some { (k : ℕ) → is_under (tree_of nodes.now) home k ≡ true → 0 < total_at counters.old.items k }
    ensures there { ContainsKey nodes.now result }
    ensures level { (tree_of nodes.now).level result + levels ≡ (tree_of nodes.now).level home }
    ensures above { (k : ℕ) → weight (tree_of nodes.now) result k ≤ weight (tree_of nodes.now) home k }
    ensures totals { (k : ℕ) → total_at counters.new.items k + weight (tree_of nodes.now) home k
        ≡ total_at counters.old.items k + weight (tree_of nodes.now) result k }
    ensures linked { AreLinked nodes.now counters.new.items }
{
    let mut at = home;
    for _ in 0..levels {
        let Some(above) = count_off(nodes, counters, at) else {
            unreachable!()
        };
        at = above;
    }
    at
}

/// One task more at a node and at those above it, so many in all. It answers the next one above.
fn raise_some(
    nodes: &Slab<Node>,
    counters: &mut Vec<Counter>,
    home: ControlKey,
    levels: u32,
) -> ControlKey
    requires levels { HasLevels (tree_of nodes.now) }
    requires top { (k : ℕ) → (tree_of nodes.now).up k ≡ None → (tree_of nodes.now).level k ≡ 0 }
    requires home { ContainsKey nodes.now home }
    requires linked { AreLinked nodes.now counters.old.items }
    requires few { levels ≤ (tree_of nodes.now).level home }
    requires room { (k : ℕ) → is_under (tree_of nodes.now) home k ≡ true
        → (tree_of nodes.now).level home < (tree_of nodes.now).level k + levels
        → total_at counters.old.items k + 1 < 2 ^ 64 }
    ensures there { ContainsKey nodes.now result }
    ensures level { (tree_of nodes.now).level result + levels ≡ (tree_of nodes.now).level home }
    ensures above { (k : ℕ) → weight (tree_of nodes.now) result k ≤ weight (tree_of nodes.now) home k }
    ensures totals { (k : ℕ) → total_at counters.new.items k + weight (tree_of nodes.now) result k
        ≡ total_at counters.old.items k + weight (tree_of nodes.now) home k }
    ensures linked { AreLinked nodes.now counters.new.items }
{
    let mut at = home;
    for _ in 0..levels {
        let Some(above) = count_on(nodes, counters, at) else {
            unreachable!()
        };
        at = above;
    }
    at
}

/// One task goes from a node to another of the same level, and is counted off and on up to where both ways to the root
/// meet.
fn shift_level(nodes: &Slab<Node>, counters: &mut Vec<Counter>, from: ControlKey, to: ControlKey)
    requires levels { HasLevels (tree_of nodes.now) }
    requires top { (k : ℕ) → (tree_of nodes.now).up k ≡ None → (tree_of nodes.now).level k ≡ 0 }
    requires same { (tree_of nodes.now).level from ≡ (tree_of nodes.now).level to }
    requires from { ContainsKey nodes.now from }
    requires to { ContainsKey nodes.now to }
    requires linked { AreLinked nodes.now counters.old.items }
    requires some { (k : ℕ) → is_under (tree_of nodes.now) from k ≡ true → 0 < total_at counters.old.items k }
    requires few { (k : ℕ) → is_under (tree_of nodes.now) to k ≡ true
        → total_at counters.old.items k + 1 < 2 ^ 64 + weight (tree_of nodes.now) from k }
    ensures totals { (k : ℕ) → total_at counters.new.items k + weight (tree_of nodes.now) from k
        ≡ total_at counters.old.items k + weight (tree_of nodes.now) to k }
    ensures linked { AreLinked nodes.now counters.new.items }
{
    let mut less = from;
    let mut more = to;
    while less != more {
        let above_less = count_off(nodes, counters, less);
        let above_more = count_on(nodes, counters, more);
        let (Some(next_less), Some(next_more)) = (above_less, above_more) else {
            return;
        };
        less = next_less;
        more = next_more;
    }
}

/// One task goes from a node to another: it is counted off above the one and on above the other, up to where both ways
/// to the root meet. The deeper way is gone up alone to the level of the other.
pub(crate) fn shift(
    nodes: &Slab<Node>,
    counters: &mut Vec<Counter>,
    from: ControlKey,
    to: ControlKey,
)
    requires levels { HasLevels (tree_of nodes.now) }
    requires top { (k : ℕ) → (tree_of nodes.now).up k ≡ None → (tree_of nodes.now).level k ≡ 0 }
    requires from { ContainsKey nodes.now from }
    requires to { ContainsKey nodes.now to }
    requires linked { AreLinked nodes.now counters.old.items }
    requires some { (k : ℕ) → is_under (tree_of nodes.now) from k ≡ true → 0 < total_at counters.old.items k }
    requires few { (k : ℕ) → is_under (tree_of nodes.now) to k ≡ true
        → total_at counters.old.items k + 1 < 2 ^ 64 + weight (tree_of nodes.now) from k }
    ensures totals { (k : ℕ) → total_at counters.new.items k + weight (tree_of nodes.now) from k
        ≡ total_at counters.old.items k + weight (tree_of nodes.now) to k }
    ensures linked { AreLinked nodes.now counters.new.items }
{
    let from_level = node_at(nodes, from).level;
    let to_level = node_at(nodes, to).level;
    let less = lower_some(nodes, counters, from, from_level.saturating_sub(to_level));
    let more = raise_some(nodes, counters, to, to_level.saturating_sub(from_level));
    shift_level(nodes, counters, less, more);
}
