//! A sparse array of 2^24 indexes with three marks on each entry, in the manner of the kernel's XArray.
//!
//! The form is that of the kernel's XArray (`Documentation/core-api/xarray.rst`): a tree of nodes of
//! 64 slots, each with words of 64 bits that say what stands below each slot, so that a search for a
//! present, an absent or a marked index goes by words and not by slots. A call touches at most one
//! node on each of at most four levels, a search at most two. The search for an entry without marks, of which only
//! a leaf's words say anything, is one search for each leaf that it passes.
//!
//! Memory is taken by `prepare` (and by `store`, which calls it) and by nothing else.
#![tactic(auto)]

ghost use Rattle.std.specs.Prelude.{◌≡◌, ◌≢◌, ℕ, ◌<◌, ◌≤◌, min, Option, Some, None, MatchOption, MatchBool, IfOk};
ghost use Rattle.std.specs.Prelude.{IfErr, OnOk, OnErr, Err, ◌↔◌, true, false, not, is_some, List, length, ◌*◌, ◌+◌};
ghost use Rattle.std.specs.{Prelude.{◌/◌}, Option.{option_copied}};
ghost use Rattle.{
  index_array.specs.Place.{Place, bare_place, place_at, entry_at, is_prepared, value_at, is_marked, is_unmarked},
  index_array.specs.Place.{with_mark, IsLeastIndex, IsFirst, WritesEntry, KeepsEntries, KeepsPrepared, HasRoom},
  index_array.specs.{Place.{SwapsLeaf, HasNoEntry}, Tree.{IsInLeaf}, Words.{IsSought}, declared.bits.Sought.{Sought}},
};

mod bits;
mod block;
mod inner;
mod leaf;
mod levels;
mod root;

use bits::Sought;
use block::Block;
pub use leaf::Leaf;
use root::{
    Root, erase_in, exchange_in, find_in, gap_in, give_back_in, grown, is_empty_in, leaf_in,
    planted, prepare_in, put_mark_in, store_in,
};
use std::alloc::{AllocError, Global};
use std::marker::Model;
use std::mem;

/// The indexes are those below this.
pub const INDEX_COUNT: u32 = 16_777_216;

/// Why an index cannot be prepared, or an entry stored.
#[derive(Clone, Copy, Debug, PartialEq, Eq)]
pub enum IndexFault {
    /// The index is 2^24 or above.
    BadIndex,
    /// There is no memory for the nodes.
    NoMemory,
}

/// A finite map from indexes below 2^24 to a value and a set of marks, out of 0, 1 and 2.
///
/// It owns its values and its nodes, and gives a node back once its last entry is erased and another leaf
/// is erased from. What stands in it is read in the contracts as a list of places, one for each index
/// that the nodes cover: `entry_at` and `is_prepared` look one up.
///
/// A call walks down at most four nodes and changes those on the way, a search looks at most at eight, except
/// [`IndexArray::first_unmarked`].
/// A leaf takes 296 bytes; a node above it 64 bytes and, apart from it, 64 slots of 16.
pub struct IndexArray {
    root: Root,
    alloc: Global,
    /// The index at which the last erase left its leaf empty, where that leaf may still stand.
    emptied: Option<u32>,
}

// Written out, and not derived: so the crates above cite this drop, and do not prove it anew.
impl Drop for IndexArray {
    fn drop(self) {
        let IndexArray {
            root: _,
            alloc: _,
            emptied: _,
        } = self;
    }
}

impl Model for IndexArray {
    ghost use Rattle.std.specs.Prelude.{ℕ, List};
    ghost use Rattle.index_array.specs.{Place.{Place}, Root.{root_places, IsRoot}};

    ghost Value = { List (Place ℕ) };

    ghost view = { λ a. root_places a.root };

    ghost invariant = { λ a. IsRoot a.root };
}

impl IndexArray {
    /// An array with no entry, which takes its memory from `alloc`. This call takes none.
    pub fn new(alloc: Global) -> Self
        ensures { (i : ℕ) → entry_at result i ≡ None }
    {
        IndexArray {
            root: Root::Empty,
            alloc,
            emptied: None,
        }
    }

    /// Does nothing: its contract says that there is no entry at 2^24 and above.
    pub fn laws(&self)
        ensures { (i : ℕ) → INDEX_COUNT ≤ i → entry_at self.now i ≡ None }
    {
        let _root = &self.root;
    }

    /// The value at an index, lent from there; none at 2^24 and above.
    pub fn get(&self, i: u32) -> Option<&u32>
        ensures { option_copied result ≡ value_at self.now i }
    {
        match self.leaf(i) {
            None => None,
            Some((leaf, slot)) => leaf.get(slot),
        }
    }

    /// The value at an index, as [`IndexArray::get`] has it. It costs less than a copy of what that lends.
    pub fn value(&self, i: u32) -> Option<u32>
        ensures { result ≡ value_at self.now i }
    {
        match self.leaf(i) {
            None => None,
            Some((leaf, slot)) => leaf.value(slot),
        }
    }

    /// The leaf that an index is in, with the slot of the index in it; none where there is no such leaf.
    #[inline(always)]
    fn leaf(&self, i: u32) -> Option<(&Leaf, u32)>
        ensures { MatchOption result (place_at self.now i ≡ bare_place) (λ p. IsInLeaf self.now i p.0.now p.1) }
    {
        match &self.root {
            Root::Empty => None,
            Root::Height0(node) => leaf_in(&**node, i),
            Root::Height1(node) => leaf_in(&**node, i),
            Root::Height2(node) => leaf_in(&**node, i),
            Root::Height3(node) => leaf_in(&**node, i),
        }
    }

    /// Whether there is an entry at an index, and it has mark `m`.
    pub fn has_mark(&self, i: u32, m: usize) -> bool
        requires { m < 3 }
        ensures { result ≡ is_marked m (entry_at self.now i) }
    {
        match self.leaf(i) {
            None => false,
            Some((leaf, slot)) => leaf.is_marked(slot, m),
        }
    }

    /// Whether `store_prepared` may be called for an index. `prepare` makes it so, and it stays so
    /// until the next `erase`.
    #[inline(always)]
    pub fn is_prepared(&self, i: u32) -> bool
        ensures { result ≡ is_prepared self.now i }
    {
        self.leaf(i).is_some()
    }

    /// Takes the memory that a later `store_prepared` at an index needs. It changes no entry.
    ///
    /// The error is `BadIndex` at 2^24 and above, and else `NoMemory`, where some of the nodes may
    /// have been made.
    #[inline(always)]
    pub fn prepare(&mut self, i: u32) -> Result<(), IndexFault>
        ensures ok { OnOk result (is_prepared self.new i ≡ true) }
        ensures bad_index { (result ≡ Err IndexFault.BadIndex) ↔ INDEX_COUNT ≤ i }
        ensures entries { KeepsEntries self.old self.new }
        ensures keeps { KeepsPrepared self.old self.new }
    {
        if i >= INDEX_COUNT {
            return Err(IndexFault::BadIndex);
        }
        if self.is_prepared(i) {
            return Ok(());
        }
        match self.make_nodes(i) {
            Ok(()) => Ok(()),
            Err(_) => Err(IndexFault::NoMemory),
        }
    }

    /// Makes the nodes on the way to an index: levels above the root, and nodes below it. The error is
    /// want of memory.
    #[inline(never)]
    fn make_nodes(&mut self, i: u32) -> Result<(), AllocError>
        requires { i < INDEX_COUNT }
        ensures ok { OnOk result (is_prepared self.new i ≡ true) }
        ensures entries { KeepsEntries self.old self.new }
        ensures keeps { KeepsPrepared self.old self.new }
    {
        if self.span() == 0 {
            self.plant(i)?;
        }
        self.reach(i)?;
        self.make_below(i)
    }

    /// How many indexes the nodes cover.
    fn span(&self) -> u32
        ensures { result ≡ length self.now }
    {
        match &self.root {
            Root::Empty => 0,
            Root::Height0(_) => 64,
            Root::Height1(_) => 4096,
            Root::Height2(_) => 262_144,
            Root::Height3(_) => 16_777_216,
        }
    }

    /// Makes a root that covers an index, where there is none.
    fn plant(&mut self, i: u32) -> Result<(), AllocError>
        requires { length self.old ≡ 0 }
        ensures ok { OnOk result (0 < length self.new) }
        ensures entries { KeepsEntries self.old self.new }
        ensures keeps { KeepsPrepared self.old self.new }
    {
        self.root = planted(self.alloc, i)?;
        Ok(())
    }

    /// Puts as many levels above the root as an index needs, at most three. On want of memory the
    /// entries stay, and so do the levels that were made.
    fn reach(&mut self, i: u32) -> Result<(), AllocError>
        requires root { 0 < length self.old }
        requires index { i < INDEX_COUNT }
        ensures ok { OnOk result (i < length self.new) }
        ensures entries { KeepsEntries self.old self.new }
        ensures keeps { KeepsPrepared self.old self.new }
    {
        if i < self.span() {
            return Ok(());
        }
        self.raise()?;
        self.reach(i)
    }

    /// Puts one level above the root, as the kernel's `xas_expand` does. On want of memory nothing
    /// changes.
    fn raise(&mut self) -> Result<(), AllocError>
        requires root { 0 < length self.old }
        requires low { length self.old < INDEX_COUNT }
        ensures ok { OnOk result (length self.new ≡ 64 * length self.old) }
        ensures entries { KeepsEntries self.old self.new }
        ensures keeps { KeepsPrepared self.old self.new }
    {
        let root = mem::replace(&mut self.root, Root::Empty);
        let (root, made) = grown(self.alloc, root);
        self.root = root;
        made
    }

    /// Makes the nodes below the root on the way to an index.
    fn make_below(&mut self, i: u32) -> Result<(), AllocError>
        requires { i < length self.old }
        ensures ok { OnOk result (is_prepared self.new i ≡ true) }
        ensures entries { KeepsEntries self.old self.new }
        ensures keeps { KeepsPrepared self.old self.new }
    {
        let alloc = self.alloc;
        match &mut self.root {
            Root::Empty => Ok(()),
            Root::Height0(node) => prepare_in(&mut **node, alloc, i),
            Root::Height1(node) => prepare_in(&mut **node, alloc, i),
            Root::Height2(node) => prepare_in(&mut **node, alloc, i),
            Root::Height3(node) => prepare_in(&mut **node, alloc, i),
        }
    }

    /// Stores a value with its marks at an index that is prepared, and answers the value that stood
    /// there. It takes no memory.
    #[inline(always)]
    pub fn store_prepared(&mut self, i: u32, v: u32, marks: [bool; 3]) -> Option<u32>
        requires { is_prepared self.old i ≡ true }
        ensures writes { WritesEntry self.old self.new i (Some (record { value = v; marks = marks })) }
        ensures keeps { KeepsPrepared self.old self.new }
        ensures answer { result ≡ value_at self.old i }
    {
        match &mut self.root {
            Root::Empty => {
                drop(v);
                None
            }
            Root::Height0(node) => store_in(&mut **node, i, v, marks),
            Root::Height1(node) => store_in(&mut **node, i, v, marks),
            Root::Height2(node) => store_in(&mut **node, i, v, marks),
            Root::Height3(node) => store_in(&mut **node, i, v, marks),
        }
    }

    /// Prepares an index and stores a value with its marks there, and answers the value that stood
    /// there.
    ///
    /// An error is that of `prepare`, with the value; then no entry has changed.
    pub fn store(
        &mut self,
        i: u32,
        v: u32,
        marks: [bool; 3],
    ) -> Result<Option<u32>, (IndexFault, u32)>
        ensures writes { OnOk result
            (WritesEntry self.old self.new i (Some (record { value = v; marks = marks }))) }
        ensures answer { IfOk result (λ old. old ≡ value_at self.old i) }
        ensures prepared { OnOk result (is_prepared self.new i ≡ true) }
        ensures bad_index { (result ≡ Err (IndexFault.BadIndex, v)) ↔ INDEX_COUNT ≤ i }
        ensures value { IfErr result (λ e. e.1 ≡ v) }
        ensures err { OnErr result (KeepsEntries self.old self.new) }
        ensures keeps { KeepsPrepared self.old self.new }
    {
        match self.prepare(i) {
            Ok(()) => Ok(self.store_prepared(i, v, marks)),
            Err(fault) => Err((fault, v)),
        }
    }

    /// Takes the value at an index out, with its marks.
    ///
    /// A leaf that is left with no entry stands until an erase in another leaf, which gives it back with
    /// the nodes above it that have no entry. So an index is prepared afterwards only if `is_prepared`
    /// says so.
    #[inline(always)]
    pub fn erase(&mut self, i: u32) -> Option<u32>
        ensures writes { WritesEntry self.old self.new i None }
        ensures answer { result ≡ value_at self.old i }
    {
        self.give_back_other(i);
        let (old, emptied) = match &mut self.root {
            Root::Empty => (None, false),
            Root::Height0(node) => erase_in(&mut **node, i),
            Root::Height1(node) => erase_in(&mut **node, i),
            Root::Height2(node) => erase_in(&mut **node, i),
            Root::Height3(node) => erase_in(&mut **node, i),
        };
        if emptied {
            self.emptied = Some(i);
        }
        old
    }

    /// Gives back the leaf that an erase left empty, unless an index is in it.
    #[inline(always)]
    fn give_back_other(&mut self, i: u32)
        ensures { KeepsEntries self.old self.new }
    {
        if let Some(left) = self.emptied {
            if left / 64 != i / 64 {
                self.emptied = None;
                self.give_back(left);
            }
        }
    }

    /// Gives back the leaf of an index and the nodes above it, as far as they have no entry. Whoever
    /// empties a leaf by `exchange_leaf` calls it.
    #[inline(never)]
    pub fn give_back(&mut self, i: u32)
        ensures { KeepsEntries self.old self.new }
    {
        if !self.give_back_below(i) {
            self.root = Root::Empty;
        }
    }

    /// Gives back the leaf of an index and the nodes between it and the root, as far as they have no
    /// entry, and says whether an entry is left anywhere.
    fn give_back_below(&mut self, i: u32) -> bool
        ensures entries { KeepsEntries self.old self.new }
        ensures empty { result ≡ false → HasNoEntry self.new }
    {
        match &mut self.root {
            Root::Empty => false,
            Root::Height0(node) => give_back_in(&mut **node, i),
            Root::Height1(node) => give_back_in(&mut **node, i),
            Root::Height2(node) => give_back_in(&mut **node, i),
            Root::Height3(node) => give_back_in(&mut **node, i),
        }
    }

    /// Exchanges the leaf that an index is in for another one, whose slot `k` stands for the index `k`
    /// places above the first of the leaf's. Where the array has no leaf there, the other one has to be
    /// empty, and nothing changes. It takes no memory, and copies both leaves.
    #[inline(never)]
    pub fn exchange_leaf(&mut self, i: u32, leaf: &mut Leaf)
        requires { HasRoom self.old i leaf.old.places }
        ensures swaps { SwapsLeaf self.old self.new i leaf.old.places leaf.new.places }
        ensures keeps { KeepsPrepared self.old self.new }
    {
        match &mut self.root {
            Root::Empty => {}
            Root::Height0(node) => exchange_in(&mut **node, i, leaf),
            Root::Height1(node) => exchange_in(&mut **node, i, leaf),
            Root::Height2(node) => exchange_in(&mut **node, i, leaf),
            Root::Height3(node) => exchange_in(&mut **node, i, leaf),
        }
    }

    /// Gives an entry mark `m`, and says whether there is one.
    pub fn set_mark(&mut self, i: u32, m: usize) -> bool
        requires { m < 3 }
        ensures writes { WritesEntry self.old self.new i (with_mark m true (entry_at self.old i)) }
        ensures keeps { KeepsPrepared self.old self.new }
        ensures answer { result ≡ is_some (entry_at self.old i) }
    {
        self.put_mark(i, m, true)
    }

    /// Takes mark `m` from an entry, and says whether there is one.
    pub fn clear_mark(&mut self, i: u32, m: usize) -> bool
        requires { m < 3 }
        ensures writes { WritesEntry self.old self.new i (with_mark m false (entry_at self.old i)) }
        ensures keeps { KeepsPrepared self.old self.new }
        ensures answer { result ≡ is_some (entry_at self.old i) }
    {
        self.put_mark(i, m, false)
    }

    /// Sets or clears a mark, and says whether there is an entry to have it.
    fn put_mark(&mut self, i: u32, m: usize, on: bool) -> bool
        requires { m < 3 }
        ensures writes { WritesEntry self.old self.new i (with_mark m on (entry_at self.old i)) }
        ensures keeps { KeepsPrepared self.old self.new }
        ensures answer { result ≡ is_some (entry_at self.old i) }
    {
        match &mut self.root {
            Root::Empty => false,
            Root::Height0(node) => put_mark_in(&mut **node, i, m, on),
            Root::Height1(node) => put_mark_in(&mut **node, i, m, on),
            Root::Height2(node) => put_mark_in(&mut **node, i, m, on),
            Root::Height3(node) => put_mark_in(&mut **node, i, m, on),
        }
    }

    /// Whether there is no entry. It costs one read.
    #[inline(always)]
    pub fn is_empty(&self) -> bool
        ensures { MatchBool result ((i : ℕ) → entry_at self.now i ≡ None)
            ((i : ℕ) × (is_some (entry_at self.now i) ≡ true)) }
    {
        match &self.root {
            Root::Empty => true,
            Root::Height0(node) => is_empty_in(&**node),
            Root::Height1(node) => is_empty_in(&**node),
            Root::Height2(node) => is_empty_in(&**node),
            Root::Height3(node) => is_empty_in(&**node),
        }
    }

    /// The least index at or above `from` with an entry.
    pub fn next(&self, from: u32) -> Option<u32>
        ensures { IsLeastIndex (λ k. is_some (entry_at self.now k)) from INDEX_COUNT result }
    {
        self.first(from, Sought::Present)
    }

    /// The least index at or above `from` whose entry has mark `m`.
    pub fn next_marked(&self, from: u32, m: usize) -> Option<u32>
        requires { m < 3 }
        ensures { IsLeastIndex (λ k. is_marked m (entry_at self.now k)) from INDEX_COUNT result }
    {
        self.first(from, Sought::Mark(m))
    }

    /// The least index at or above `from` and below `end` whose entry has no mark. It costs a search for each leaf with
    /// an entry that it passes, so for each 64 indexes at most.
    pub fn first_unmarked(&self, from: u32, end: u32) -> Option<u32>
        requires { end ≤ INDEX_COUNT }
        ensures { IsLeastIndex (λ k. is_unmarked (entry_at self.now k)) from end result }
    {
        let mut at = from;
        while at < end {
            let present = self.next(at)?;
            if let Some(found) = self.unmarked_near(present) {
                return if found < end { Some(found) } else { None };
            }
            at = present / 64 * 64 + 64;
        }
        None
    }

    /// The least index at or above `from`, where there is an entry, and in its leaf whose entry has no mark.
    #[inline(always)]
    fn unmarked_near(&self, from: u32) -> Option<u32>
        requires { is_some (entry_at self.now from) ≡ true }
        ensures { IsLeastIndex (λ k. is_unmarked (entry_at self.now k)) from (from / 64 * 64 + 64) result }
    {
        let Some((leaf, slot)) = self.leaf(from) else {
            unreachable!()
        };
        let slot = leaf.next_unmarked(slot)?;
        Some(from / 64 * 64 + slot)
    }

    /// The least index at or above `from` that is present, or has a mark.
    fn first(&self, from: u32, sought: Sought) -> Option<u32>
        requires mark { IsSought sought }
        requires entry { sought ≢ Sought.Gap }
        ensures { IsFirst sought self.now from INDEX_COUNT result }
    {
        let _root = &self.root;
        self.search(from, sought)
    }

    /// The least index at or above `from` that a node covers and that is what is sought.
    #[inline(always)]
    fn search(&self, from: u32, sought: Sought) -> Option<u32>
        requires { IsSought sought }
        ensures { IsFirst sought self.now from (length self.now) result }
    {
        match &self.root {
            Root::Empty => None,
            Root::Height0(node) => find_in(&**node, from, sought),
            Root::Height1(node) => find_in(&**node, from, sought),
            Root::Height2(node) => find_in(&**node, from, sought),
            Root::Height3(node) => find_in(&**node, from, sought),
        }
    }

    /// The least index at or above `from` and below `end` that has no entry. An `end` above 2^24 counts
    /// as 2^24.
    pub fn first_gap(&self, from: u32, end: u32) -> Option<u32>
        ensures { IsLeastIndex (λ k. not (is_some (entry_at self.now k))) from (min end INDEX_COUNT) result }
    {
        let last = end.min(INDEX_COUNT);
        let gap = self.gap_from(from);
        if gap < last { Some(gap) } else { None }
    }

    /// The least number at or above `from` at which there is no entry.
    fn gap_from(&self, from: u32) -> u32
        ensures above { from ≤ result }
        ensures absent { is_some (entry_at self.now result) ≡ false }
        ensures least { (k : ℕ) → from ≤ k → k < result → is_some (entry_at self.now k) ≡ true }
    {
        match &self.root {
            Root::Empty => from,
            Root::Height0(node) => gap_in(&**node, from),
            Root::Height1(node) => gap_in(&**node, from),
            Root::Height2(node) => gap_in(&**node, from),
            Root::Height3(node) => gap_in(&**node, from),
        }
    }
}
