//! Members by owner and rank: for each owner the member of least rank.
//!
//! The members of an owner are a few sorted runs. Each key knows the next of its run, and the first of a run knows
//! the first of the run beside it, which ranks above it. So each key ranks above the key that leads to it, and the
//! first of all is the least. A walk over the members goes along a run, and at its end to the one beside. Two runs of
//! one level become one of the next level, as in a binary counter. So members that came in any order are in at most a
//! logarithm of their number of runs, and up to 32 runs more may have been handed on.
//!
//! No call but `grow` takes memory. Keys and owners are numbers below 2^30.
#![tactic(auto)]

ghost use Rattle.std.specs.Prelude.{◌≡◌, ◌≢◌, ◌⊎◌, ℕ, ◌+◌, ◌<◌, ◌≤◌, ◌^◌, length, map, Some, None, MatchOption, OnOk};
ghost use Rattle.std.specs.Prelude.{OnErr, [], ◌++◌, replicate, IsSome, IsTrue, ◌↔◌, slice_set, option_map};
ghost use Rattle.{
  member_lists.specs.Owners.{handed},
  member_queues.specs.{Ranks.{ranked, IsLeast, AreRankedMembers}, Heap.{nil, node_at, root_at, member_in}},
  member_queues.specs.Heap.{key_on, with_side, AreSides, AreRetold, IsHeap, IsSinking, Keeps, IsWholeForest},
};

mod members;

pub use members::RankedMembers;
use members::after;
use std::alloc::{AllocError, Global};
use std::marker::Model;

/// No key and no owner.
const NIL: u32 = u32::MAX;

/// How many levels of runs there are at most: a run of each level has twice the keys, and there are below 2^32.
const LEVELS: u32 = 32;

/// One of the two sides of a key: the next of its run, or the first of the run beside.
#[derive(Clone, Copy)]
enum Side {
    Next,
    Beside,
}

/// A key's place among the members of its owner. Where it has no owner the rest means nothing.
///
/// `above` is the key that leads to it; of the first of all it is the member that came last, or any key. `level`
/// counts, at the first of a run, how often two runs became one in it.
#[derive(Clone, Copy)]
struct Node {
    owner: u32,
    rank: u32,
    above: u32,
    next: u32,
    beside: u32,
    level: u32,
}

/// The place of a key that has no owner.
const BLANK: Node = Node {
    owner: NIL,
    rank: 0,
    above: NIL,
    next: NIL,
    beside: NIL,
    level: 0,
};

/// The runs of all owners, while one of them may be open.
#[derive(Drop)]
struct Forest {
    roots: Vec<u32>,
    nodes: Vec<Node>,
}

/// Keys, each with an owner and a rank or with neither.
///
/// No two members of an owner have one rank. It takes 28 bytes for each key with the owner of the same
/// number.
#[derive(Drop)]
pub struct MemberQueues {
    forest: Forest,
}

impl Model for MemberQueues {
    ghost use Rattle.std.specs.Prelude.{List, Option, ℕ, map};

    ghost Value = { List (Option (ℕ × ℕ)) };

    ghost use Rattle.member_queues.specs.Heap.{member_in, IsWholeForest};

    ghost view = { λ a. map member_in a.forest.nodes.items };

    ghost invariant = { λ a. IsWholeForest a.forest };
}

/// The key on one side of another.
#[inline(always)]
fn key_on(node: &Node, side: Side) -> u32
    ensures { result ≡ key_on side node.now }
{
    match side {
        Side::Next => node.next,
        Side::Beside => node.beside,
    }
}

/// Puts a key, or none, on one side of another.
#[inline(always)]
fn put_on(node: &mut Node, side: Side, key: u32)
    ensures { node.new ≡ with_side side key node.old }
{
    match side {
        Side::Next => node.next = key,
        Side::Beside => node.beside = key,
    }
}

/// Whether the first key is there and comes before the second, which need not be there.
fn is_before(nodes: &[Node], a: u32, b: u32) -> bool
    requires a { a ≢ nil → a < length nodes.now }
    requires b { b ≢ nil → b < length nodes.now }
    ensures { IsTrue result ↔ ((a ≢ nil) × (b ≢ nil → (node_at nodes.now a).rank < (node_at nodes.now b).rank)) }
{
    a != NIL && (b == NIL || nodes[a as usize].rank < nodes[b as usize].rank)
}

/// Whether the first key ends a run of the second's owner, and ranks lower.
fn is_elder(nodes: &[Node], a: u32, b: u32) -> bool
    requires { b < length nodes.now }
    ensures { IsTrue result → ((node_at nodes.now a).owner ≡ (node_at nodes.now b).owner)
        × ((node_at nodes.now a).rank < (node_at nodes.now b).rank) }
{
    (a as usize) < nodes.len()
        && nodes[a as usize].owner == nodes[b as usize].owner
        && nodes[a as usize].next == NIL
        && nodes[a as usize].rank < nodes[b as usize].rank
}

/// A key's rank, or the highest of all where there is no such key.
#[inline(always)]
fn rank_of(nodes: &[Node], key: u32) -> u32
    ensures there { key < length nodes.now → result ≡ (node_at nodes.now key).rank }
    ensures none { length nodes.now ≤ key → result ≡ nil }
{
    if (key as usize) < nodes.len() {
        nodes[key as usize].rank
    } else {
        u32::MAX
    }
}

/// Joins a tree below a key one step further. It answers the next key, and what is to go below it with its rank.
#[inline(always)]
fn step(forest: &mut Forest, side: Side, at: u32, held: u32, rank: u32) -> (u32, u32, u32)
    requires sinking { IsSinking side forest.old.roots.items forest.old.nodes.items at held }
    requires some { held ≢ nil }
    requires rank { rank ≡ (node_at forest.old.nodes.items held).rank }
    ensures sinking { IsSinking side forest.new.roots.items forest.new.nodes.items result.0 result.1 }
    ensures on { (node_at forest.old.nodes.items at).rank < (node_at forest.new.nodes.items result.0).rank }
    ensures rank { result.1 ≢ nil → result.2 ≡ (node_at forest.new.nodes.items result.1).rank }
    ensures members { map member_in forest.new.nodes.items ≡ map member_in forest.old.nodes.items }
    ensures len { length forest.new.nodes.items ≡ length forest.old.nodes.items }
    ensures rooms { length forest.new.roots.items ≡ length forest.old.roots.items }
{
    let behind = key_on(&forest.nodes[at as usize], side);
    let lower = rank_of(forest.nodes.as_slice(), behind);
    if lower < rank {
        (behind, held, rank)
    } else {
        put_on(&mut forest.nodes[at as usize], side, held);
        forest.nodes[held as usize].above = at;
        (held, behind, lower)
    }
}

/// Joins a tree below a key of the same owner and a lesser rank. What is on one side of the two, and on that side
/// of that, and so on, becomes one sequence in the order of the ranks.
#[inline(always)]
fn sink(forest: &mut Forest, side: Side, mut at: u32, mut held: u32)
    requires { IsSinking side forest.old.roots.items forest.old.nodes.items at held }
    ensures { Keeps forest.old forest.new nil }
{
    let mut rank = rank_of(forest.nodes.as_slice(), held);
    while held != NIL {
        (at, held, rank) = step(forest, side, at, held, rank);
    }
}

/// Puts a key, or none, where another one is the root of its owner or on a side of the key over it.
fn set_child(forest: &mut Forest, owner: u32, above: u32, key: u32, by: u32)
    requires owner { owner < length forest.old.roots.items }
    requires above { root_at forest.old.roots.items owner ≢ key → above < length forest.old.nodes.items }
    ensures root { root_at forest.old.roots.items owner ≡ key → root_at forest.new.roots.items owner ≡ by }
    ensures roots { (p : ℕ) → (root_at forest.old.roots.items owner ≢ key) ⊎ (p ≢ owner)
        → root_at forest.new.roots.items p ≡ root_at forest.old.roots.items p }
    ensures next { root_at forest.old.roots.items owner ≢ key → (node_at forest.old.nodes.items above).next ≡ key
        → node_at forest.new.nodes.items above ≡ record (node_at forest.old.nodes.items above) { next = by } }
    ensures beside { root_at forest.old.roots.items owner ≢ key → (node_at forest.old.nodes.items above).next ≢ key
        → node_at forest.new.nodes.items above ≡ record (node_at forest.old.nodes.items above) { beside = by } }
    ensures others { (j : ℕ) → (root_at forest.old.roots.items owner ≡ key) ⊎ (j ≢ above)
        → node_at forest.new.nodes.items j ≡ node_at forest.old.nodes.items j }
    ensures members { map member_in forest.new.nodes.items ≡ map member_in forest.old.nodes.items }
    ensures len { length forest.new.nodes.items ≡ length forest.old.nodes.items }
    ensures rooms { length forest.new.roots.items ≡ length forest.old.roots.items }
{
    if forest.roots[owner as usize] == key {
        forest.roots[owner as usize] = by;
    } else if forest.nodes[above as usize].next == key {
        forest.nodes[above as usize].next = by;
    } else {
        forest.nodes[above as usize].beside = by;
    }
}

/// Tells a key, where there is one, which is over it.
fn set_above(nodes: &mut Vec<Node>, at: u32, above: u32)
    requires { at ≢ nil → at < length nodes.old.items }
    ensures here { at ≢ nil → node_at nodes.new.items at ≡ record (node_at nodes.old.items at) { above = above } }
    ensures others { (j : ℕ) → j ≢ at → node_at nodes.new.items j ≡ node_at nodes.old.items j }
    ensures members { map member_in nodes.new.items ≡ map member_in nodes.old.items }
    ensures len { length nodes.new.items ≡ length nodes.old.items }
{
    if at != NIL {
        nodes[at as usize].above = above;
    }
}

/// Tells a key, where there is one, its run's level.
fn set_level(forest: &mut Forest, at: u32, level: u32)
    requires heap { IsWholeForest forest.old }
    requires at { at ≢ nil → at < length forest.old.nodes.items }
    ensures { Keeps forest.old forest.new nil }
{
    if at != NIL {
        forest.nodes[at as usize].level = level;
    }
}

/// Tells the root of an owner which member came last.
fn set_latest(forest: &mut Forest, owner: u32, key: u32)
    requires heap { IsWholeForest forest.old }
    requires owner { owner < length forest.old.roots.items }
    ensures { Keeps forest.old forest.new nil }
{
    let root = forest.roots[owner as usize];
    set_above(&mut forest.nodes, root, key);
}

/// Takes a key out of its tree: one of those below it comes into its place, and the other one below that.
fn fill(forest: &mut Forest, key: u32, by: u32, other: u32)
    requires heap { IsWholeForest forest.old }
    requires owned { (node_at forest.old.nodes.items key).owner ≢ nil }
    requires sides { AreSides (node_at forest.old.nodes.items key) by other }
    requires order { other ≢ nil → (by ≢ nil) × ((node_at forest.old.nodes.items by).rank <
        (node_at forest.old.nodes.items other).rank) }
    ensures heap { IsWholeForest forest.new }
    ensures members { map member_in forest.new.nodes.items ≡ slice_set (map member_in forest.old.nodes.items) key None }
    ensures len { length forest.new.nodes.items ≡ length forest.old.nodes.items }
{
    let Node { owner, above, .. } = forest.nodes[key as usize];
    set_child(forest, owner, above, key, by);
    set_above(&mut forest.nodes, by, above);
    forest.nodes[key as usize].owner = NIL;
    sink(forest, Side::Beside, by, other);
}

/// Takes a run out of those of its owner, and holds it. The run beside comes into its place.
fn cut(forest: &mut Forest, key: u32)
    requires heap { IsWholeForest forest.old }
    requires owned { (node_at forest.old.nodes.items key).owner ≢ nil }
    ensures kept { Keeps forest.old forest.new key }
    ensures alone { (node_at forest.new.nodes.items key).beside ≡ nil }
{
    let Node {
        owner,
        above,
        beside,
        ..
    } = forest.nodes[key as usize];
    set_child(forest, owner, above, key, beside);
    set_above(&mut forest.nodes, beside, above);
    forest.nodes[key as usize].beside = NIL;
}

/// Makes one run of two, the second of which begins with a higher rank, and tells it its level.
fn join(forest: &mut Forest, run: u32, other: u32, level: u32)
    requires heap { IsWholeForest forest.old }
    requires owned { (node_at forest.old.nodes.items run).owner ≢ nil }
    requires same { (node_at forest.old.nodes.items other).owner ≡ (node_at forest.old.nodes.items run).owner }
    requires lower { (node_at forest.old.nodes.items run).rank < (node_at forest.old.nodes.items other).rank }
    ensures { Keeps forest.old forest.new nil }
{
    cut(forest, other);
    sink(forest, Side::Next, run, other);
    set_level(forest, run, level);
}

/// The first run of a level from one on, if there is one.
fn run_of(forest: &Forest, first: u32, level: u32) -> u32
    requires heap { IsWholeForest forest.now }
    requires owned { first ≢ nil → (node_at forest.now.nodes.items first).owner ≢ nil }
    ensures first { result ≢ nil → first ≢ nil }
    ensures same { result ≢ nil → (node_at forest.now.nodes.items result).owner
        ≡ (node_at forest.now.nodes.items first).owner }
    ensures rank { result ≢ nil → (node_at forest.now.nodes.items first).rank
        ≤ (node_at forest.now.nodes.items result).rank }
{
    let mut at = first;
    while at != NIL && forest.nodes[at as usize].level != level {
        at = forest.nodes[at as usize].beside;
    }
    at
}

/// Whether an owner has more than `LEVELS` runs.
fn is_long(forest: &Forest, owner: u32) -> bool
    requires heap { IsWholeForest forest.now }
    requires owner { owner < length forest.now.roots.items }
{
    let mut at = forest.roots[owner as usize];
    for _ in 0..LEVELS {
        if at == NIL {
            return false;
        }
        at = forest.nodes[at as usize].beside;
    }
    at != NIL
}

/// Makes one run of two of a level. It answers whether there are two.
fn join_two(forest: &mut Forest, owner: u32, level: u32) -> bool
    requires heap { IsWholeForest forest.old }
    requires owner { owner < length forest.old.roots.items }
    requires level { level < 32 }
    ensures { Keeps forest.old forest.new nil }
{
    let run = run_of(forest, forest.roots[owner as usize], level);
    if run == NIL {
        return false;
    }
    let other = run_of(forest, forest.nodes[run as usize].beside, level);
    if other == NIL {
        return false;
    }
    join(forest, run, other, level + 1);
    true
}

/// Makes one run of two of the lowest level, and of each level above it that then has two.
fn settle(forest: &mut Forest, owner: u32)
    requires heap { IsWholeForest forest.old }
    requires owner { owner < length forest.old.roots.items }
    ensures { Keeps forest.old forest.new nil }
{
    for level in 0..LEVELS {
        if !join_two(forest, owner, level) {
            return;
        }
    }
}

/// Makes one run of two of a level, as long as it has two.
fn settle_level(forest: &mut Forest, owner: u32, level: u32)
    requires heap { IsWholeForest forest.old }
    requires owner { owner < length forest.old.roots.items }
    requires level { level < 32 }
    ensures { Keeps forest.old forest.new nil }
{
    for _ in 0..LEVELS {
        if !join_two(forest, owner, level) {
            return;
        }
    }
}

/// Makes one run of two on each level, as long as it has two.
fn settle_all(forest: &mut Forest, owner: u32)
    requires heap { IsWholeForest forest.old }
    requires owner { owner < length forest.old.roots.items }
    ensures { Keeps forest.old forest.new nil }
{
    for level in 0..LEVELS {
        settle_level(forest, owner, level);
    }
}

/// Joins runs, if there are any, with its owner's others: below their root or over it.
fn meld(forest: &mut Forest, owner: u32, held: u32)
    requires heap { IsHeap forest.old.roots.items forest.old.nodes.items held }
    requires owner { owner < length forest.old.roots.items }
    requires top { held ≢ nil → (node_at forest.old.nodes.items held).owner ≡ owner }
    ensures { Keeps forest.old forest.new nil }
{
    let root = forest.roots[owner as usize];
    if is_before(forest.nodes.as_slice(), root, held) {
        sink(forest, Side::Beside, root, held);
    } else if held != NIL {
        forest.roots[owner as usize] = held;
        sink(forest, Side::Beside, held, root);
    }
}

/// Puts a key that is among its owner's runs before the run that begins above it. Where there is none it is a run.
fn place(forest: &mut Forest, owner: u32, key: u32)
    requires heap { IsWholeForest forest.old }
    requires owner { owner < length forest.old.roots.items }
    requires mine { (node_at forest.old.nodes.items key).owner ≡ owner }
    ensures { Keeps forest.old forest.new nil }
{
    let other = forest.nodes[key as usize].beside;
    if other == NIL {
        settle(forest, owner);
    } else {
        let level = forest.nodes[other as usize].level;
        join(forest, key, other, level);
    }
}

/// Puts a new key to the other members of its owner: behind the one that came last, where that ends a run and ranks
/// lower, and else among the runs.
fn add(forest: &mut Forest, owner: u32, key: u32)
    requires heap { IsHeap forest.old.roots.items forest.old.nodes.items key }
    requires owner { owner < length forest.old.roots.items }
    requires mine { (node_at forest.old.nodes.items key).owner ≡ owner }
    requires alone { (node_at forest.old.nodes.items key).beside ≡ nil }
    requires some { root_at forest.old.roots.items owner ≢ nil }
    ensures { Keeps forest.old forest.new nil }
{
    let root = forest.roots[owner as usize];
    let latest = forest.nodes[root as usize].above;
    if is_elder(forest.nodes.as_slice(), latest, key) {
        sink(forest, Side::Next, latest, key);
    } else {
        meld(forest, owner, key);
        place(forest, owner, key);
    }
    set_latest(forest, owner, key);
}

/// Makes a key one's member: the first of all, or one more.
#[inline(always)]
fn enter(forest: &mut Forest, key: u32, owner: u32, rank: u32)
    requires heap { IsWholeForest forest.old }
    requires key { key < length forest.old.nodes.items }
    requires owner { owner < length forest.old.roots.items }
    requires free { ranked (map member_in forest.old.nodes.items) key ≡ None }
    requires distinct { (k : ℕ) → ranked (map member_in forest.old.nodes.items) k ≢ Some (owner, rank) }
    ensures heap { IsWholeForest forest.new }
    ensures members { map member_in forest.new.nodes.items
        ≡ slice_set (map member_in forest.old.nodes.items) key (Some (owner, rank)) }
{
    forest.nodes[key as usize] = Node {
        owner,
        rank,
        above: key,
        next: NIL,
        beside: NIL,
        level: 0,
    };
    if forest.roots[owner as usize] == NIL {
        forest.roots[owner as usize] = key;
    } else {
        add(forest, owner, key);
    }
}

/// Tells the members of one owner another owner.
fn tell_owner(forest: &mut Forest, from: u32, to: u32)
    requires heap { IsWholeForest forest.old }
    requires from { from < length forest.old.roots.items }
    ensures told { AreRetold forest.old.nodes.items forest.new.nodes.items from to }
    ensures roots { forest.new.roots.items ≡ forest.old.roots.items }
{
    let nodes = forest.nodes.as_mut_slice();
    let mut run = forest.roots[from as usize];
    let mut at = run;
    while at != NIL {
        nodes[at as usize].owner = to;
        (run, at) = after(nodes, run, at);
    }
}

/// Takes the runs of one owner out, as runs of the other's that are to be joined with its own. It answers the first
/// of them all, if there is one.
fn detach(forest: &mut Forest, from: u32, to: u32) -> u32
    requires heap { IsWholeForest forest.old }
    requires differ { from ≢ to }
    requires from { from < length forest.old.roots.items }
    requires to { to < length forest.old.roots.items }
    requires apart { (j k r : ℕ) → ranked (map member_in forest.old.nodes.items) j ≡ Some (from, r)
        → ranked (map member_in forest.old.nodes.items) k ≢ Some (to, r) }
    ensures heap { IsHeap forest.new.roots.items forest.new.nodes.items result }
    ensures top { result ≢ nil → (node_at forest.new.nodes.items result).owner ≡ to }
    ensures members { (k : ℕ) → ranked (map member_in forest.new.nodes.items) k
        ≡ option_map (λ (m : ℕ × ℕ). (handed from to m.0, m.1)) (ranked (map member_in forest.old.nodes.items) k) }
    ensures len { length forest.new.nodes.items ≡ length forest.old.nodes.items }
    ensures rooms { length forest.new.roots.items ≡ length forest.old.roots.items }
{
    let root = forest.roots[from as usize];
    tell_owner(forest, from, to);
    forest.roots[from as usize] = NIL;
    root
}

impl MemberQueues {
    /// No keys and no owners.
    pub fn new(alloc: Global) -> Self
        ensures { result ≡ [] }
    {
        MemberQueues {
            forest: Forest {
                roots: Vec::new(alloc),
                nodes: Vec::new(alloc),
            },
        }
    }

    /// Makes room for so many more keys, which have no owner, and for the owners of the same numbers, which have
    /// no member. The error is want of memory, and then nothing has changed.
    #[inline(never)]
    pub fn grow(&mut self, more: usize) -> Result<(), AllocError>
        requires { length self.old + more ≤ 2 ^ 30 }
        ensures ok { OnOk result (self.new ≡ self.old ++ replicate more None) }
        ensures err { OnErr result (self.new ≡ self.old) }
    {
        let keys = self.forest.nodes.len() + more;
        self.forest.roots.try_reserve(more)?;
        self.forest.nodes.resize(keys, BLANK)?;
        self.forest.roots.resize(keys, NIL)?;
        Ok(())
    }

    /// How many keys there are, and as many owners.
    pub fn keys(&self) -> usize
        ensures { result ≡ length self.now }
    {
        self.forest.nodes.len()
    }

    /// The rank of a key that has an owner.
    pub fn rank(&self, key: u32) -> Option<u32>
        requires { key < length self.now }
        ensures { result ≡ option_map (λ (member : ℕ × ℕ). member.1) (ranked self.now key) }
    {
        let Node { owner, rank, .. } = self.forest.nodes[key as usize];
        if owner == NIL { None } else { Some(rank) }
    }

    /// What is true at any time; the call does nothing. The owner of each member has a number below that of the keys.
    pub fn laws(&self)
        ensures { (k p r : ℕ) → ranked self.now k ≡ Some (p, r) → p < length self.now }
    {
        let _ = &self.forest;
    }

    /// The member of an owner that has the least rank. It costs one read, whatever the members are.
    pub fn least(&self, owner: u32) -> Option<u32>
        requires { owner < length self.now }
        ensures { MatchOption result ((k r : ℕ) → ranked self.now k ≢ Some (owner, r)) (λ k. IsLeast self.now owner k) }
    {
        let root = self.forest.roots[owner as usize];
        if root == NIL { None } else { Some(root) }
    }

    /// The members of an owner, one after the other, each once, in no order that a caller may rely on. To ask for them
    /// costs one read.
    pub fn members(&self, owner: u32) -> RankedMembers<'_>
        requires { owner < length self.now }
        ensures { AreRankedMembers self.now owner result }
    {
        let first = self.forest.roots[owner as usize];
        RankedMembers::from(self.forest.nodes.as_slice(), first)
    }

    /// Makes a key that has no owner a member of this one, with a rank that no other member has.
    ///
    /// Where it ranks above the one that came before it and that one ends a run, it goes behind that one: so members
    /// that come in the order of their ranks cost a few reads and writes each. In any other order a call costs a
    /// logarithm of the members, taken over many calls.
    #[inline(always)]
    pub fn insert(&mut self, key: u32, owner: u32, rank: u32)
        requires key { key < length self.old }
        requires owner { owner < length self.old }
        requires free { ranked self.old key ≡ None }
        requires distinct { (k : ℕ) → ranked self.old k ≢ Some (owner, rank) }
        ensures { self.new ≡ slice_set self.old key (Some (owner, rank)) }
    {
        enter(&mut self.forest, key, owner, rank);
    }

    /// All members of the one owner become the other's, with their ranks.
    ///
    /// It costs one read and one write for each of them, and then a read for each run of the two, which are put in
    /// order. Where there are more than 32, those of one level become one: a logarithm of the members, taken over many
    /// calls.
    pub fn move_all(&mut self, from: u32, to: u32)
        requires differ { from ≢ to }
        requires from { from < length self.old }
        requires to { to < length self.old }
        requires apart { (j k r : ℕ) → ranked self.old j ≡ Some (from, r) → ranked self.old k ≢ Some (to, r) }
        ensures members { (k : ℕ) → ranked self.new k
            ≡ option_map (λ (m : ℕ × ℕ). (handed from to m.0, m.1)) (ranked self.old k) }
        ensures keys { length self.new ≡ length self.old }
    {
        let held = detach(&mut self.forest, from, to);
        meld(&mut self.forest, to, held);
        if held != NIL && is_long(&self.forest, to) {
            settle_all(&mut self.forest, to);
        }
    }

    /// Takes a key from its owner. It costs a few reads and writes, and where the key begins a run a read for each run
    /// that begins below the rest of it.
    #[inline(always)]
    pub fn remove(&mut self, key: u32)
        requires key { key < length self.old }
        requires owned { IsSome (ranked self.old key) }
        ensures { self.new ≡ slice_set self.old key None }
    {
        let Node {
            next,
            beside,
            level,
            ..
        } = self.forest.nodes[key as usize];
        if is_before(self.forest.nodes.as_slice(), next, beside) {
            fill(&mut self.forest, key, next, beside);
        } else {
            fill(&mut self.forest, key, beside, next);
        }
        set_level(&mut self.forest, next, level);
    }
}
