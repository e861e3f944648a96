//! The walk over the members of one owner, run after run.

ghost use Rattle.std.specs.{Prelude.{◌≡◌, ◌<◌, length}, Iterator.{YieldsFirst, item_count}};
ghost use Rattle.member_queues.specs.Heap.{run_after, key_after, walk, WalkEnds};

use crate::{NIL, Node};
use std::marker::Model;

/// Where a walk goes from a key of a run: on in the run, and at its end to the run beside.
#[inline(always)]
pub(crate) fn after(nodes: &[Node], run: u32, key: u32) -> (u32, u32)
    requires run { run < length nodes.now }
    requires key { key < length nodes.now }
    ensures run { result.0 ≡ run_after nodes.now run key }
    ensures key { result.1 ≡ key_after nodes.now run key }
{
    let next = nodes[key as usize].next;
    if next == NIL {
        let beside = nodes[run as usize].beside;
        (beside, beside)
    } else {
        (run, next)
    }
}

/// The members of an owner that are still to come, in no order that a caller may rely on.
///
/// A step costs one read, and at the end of a run two.
#[derive(Drop)]
pub struct RankedMembers<'a> {
    nodes: &'a [Node],
    run: u32,
    at: u32,
}

impl<'a> Model for RankedMembers<'a> {
    ghost use Rattle.std.specs.Prelude.{List, ℕ, length};

    ghost Value = { List ℕ };

    ghost use Rattle.member_queues.specs.Heap.{walk, WalkEnds};

    ghost view = { λ a. walk a.nodes.now a.run a.at (length a.nodes.now) };

    ghost invariant = { λ a. WalkEnds a.nodes.now a.run a.at (length a.nodes.now) };
}

impl<'a> RankedMembers<'a> {
    /// The members from the first of all runs on.
    pub(crate) fn from(nodes: &'a [Node], first: u32) -> Self
        requires { WalkEnds nodes.now first first (length nodes.now) }
        ensures { result ≡ walk nodes.now first first (length nodes.now) }
    {
        RankedMembers {
            nodes,
            run: first,
            at: first,
        }
    }
}

impl<'a> Iterator for RankedMembers<'a> {
    type Item = u32;

    ghost next_gives = { YieldsFirst (λ s. s) };

    ghost remaining = { item_count (λ s. s) };

    fn next(&mut self) -> Option<u32> {
        let key = self.at;
        if key == NIL {
            return None;
        }
        (self.run, self.at) = after(self.nodes, self.run, key);
        Some(key)
    }
}
