//! The numbers of one PID namespace, drawn in turn as by the kernel's cyclic IDR.
//!
//! A number is drawn as the kernel draws a process number: the least free one from a cursor on, and
//! where there is none below the bound, the least free one from the start again (`idr_alloc_cyclic`
//! in `lib/idr.c`; `alloc_pid` in `kernel/pid.c`, where the start is 300 once the cursor has passed
//! it).
//!
//! A draw is made in three steps: `plan` says which number is next, `prepare` takes the memory for
//! it, and `commit` gives it. Only `prepare` takes memory that it cannot do without.
#![tactic(auto)]

ghost use Rattle.std.specs.Prelude.{◌≡◌, ◌≢◌, ℕ, ◌+◌, ◌*◌, ◌/◌, ◌<◌, ◌≤◌, Option, Some, None, OnOk, IfSome, true};
ghost use Rattle.std.specs.{Prelude.{MatchBool, false, not, is_some, [], ◌∷◌}, Option.{option_copied, option_map}};
ghost use Rattle.{
  index_array.specs.Place.{index_count, entry_at, is_prepared, value_at, is_marked, is_unmarked, with_mark},
  index_array.specs.Place.{IsLeastIndex, WritesEntry, KeepsEntries, KeepsPrepared},
  pid_types.specs.{Draw.{restart}, Settings.{HasGoodPidMax}},
  cyclic_ids.specs.Ids.{Ids, planned, entry_beside, lesser, AreInRange},
};

use index_array::{INDEX_COUNT, IndexArray, Leaf};
use pid_types::keys::Pid;
use std::alloc::{AllocError, Global};
use std::marker::Model;

/// The mark of a number that a task has.
pub const TASK_MARK: usize = 0;

/// The mark of a number that a process group has.
pub const GROUP_MARK: usize = 1;

/// The mark of a number that a session has.
pub const SESSION_MARK: usize = 2;

/// A finite map from numbers below a bound to values with marks, and a cursor for draws.
///
/// The 64 numbers of one block, where draws go on, stand in a leaf beside the tree. A call for one of them is a
/// call for that leaf, and a call for another is one of an `IndexArray`; a search may make both, and `plan` at
/// most four. `prepare` exchanges the leaf for another, so draws in turn do so once in 64. Releases in turn exchange it
/// too, as in the teardown of a namespace. The cost hardly grows with the numbers in use.
pub struct CyclicIds {
    ids: IndexArray,
    leaf: Leaf,
    /// The numbers of the leaf divided by 64.
    block: u32,
    /// Whether the numbers of the leaf are prepared.
    is_ready: bool,
    /// Whether the tree may have a leaf, with no entry, for the same block.
    is_backed: bool,
    /// The block in which a number was last prepared that was not in the leaf's.
    last: u32,
    turn: Turn,
    pid_max: u32,
    cursor: Pid,
}

/// Releases of numbers in one block that is not the leaf's, one after the other, with no draw between them.
#[derive(Clone, Copy)]
struct Turn {
    block: u32,
    /// The cursor at the first of them, which a draw would have moved.
    cursor: Pid,
    count: u32,
}

/// After so many releases in turn their block comes into the leaf. An exchange costs what some eight releases in the
/// tree do, and draws may have the leaf exchanged again.
const LONG_TURN: u32 = 8;

// Written out, and not derived: so the crates above cite this drop, and do not prove it anew.
impl Drop for CyclicIds {
    fn drop(self) {
        let CyclicIds {
            ids: _,
            leaf: _,
            block: _,
            is_ready: _,
            is_backed: _,
            last: _,
            turn: _,
            pid_max: _,
            cursor: _,
        } = self;
    }
}

impl Model for CyclicIds {
    ghost use Rattle.std.specs.Prelude.{ℕ};
    ghost use Rattle.cyclic_ids.specs.Ids.{Ids, AreIds, places_beside};

    ghost Value = { Ids ℕ };

    ghost view = { λ a. record {
      places = places_beside a.is_ready a.block a.leaf.places a.ids;
      pid_max = a.pid_max;
      cursor = a.cursor;
    } };

    ghost invariant = { λ a. AreIds a.pid_max a.is_ready a.block a.leaf.places a.ids };
}

/// The lesser of two numbers, of which the second is a slot in a block.
fn lesser_of(found: Option<Pid>, block: u32, slot: Option<u32>) -> Option<Pid>
    requires block { block < 262144 }
    requires slot { IfSome slot (λ s. s < 64) }
    ensures { result ≡ lesser found (option_map (λ s. block * 64 + s) slot) }
{
    match slot {
        None => found,
        Some(slot) => {
            let n = block * 64 + slot;
            match found {
                None => Some(n),
                Some(found) => Some(found.min(n)),
            }
        }
    }
}

/// Whether a number was found, and is below all of a block.
#[inline(always)]
fn is_below(found: Option<Pid>, block: u32) -> bool
    ensures below { result ≡ true → IfSome found (λ n. n / 64 < block) × (found ≢ None) }
    ensures not_below { result ≡ false → IfSome found (λ n. block ≤ n / 64) }
{
    match found {
        Some(n) => n / 64 < block,
        None => false,
    }
}

/// The least free number from one on and below an end, where that one is in the leaf's block.
#[inline(always)]
fn gap_from_leaf(ids: &IndexArray, leaf: &Leaf, block: u32, from: Pid, end: u32) -> Option<Pid>
    requires block { block < 262144 }
    requires here { from / 64 ≡ block }
    requires end { end ≤ index_count }
    ensures { IsLeastIndex (λ k. not (is_some (entry_beside block leaf.now.places ids.now k))) from end result }
{
    match leaf.next_gap(from % 64) {
        None => ids.first_gap(block * 64 + 64, end),
        Some(slot) => {
            let n = block * 64 + slot;
            if n < end { Some(n) } else { None }
        }
    }
}

/// Makes the nodes for an index, if they are asked for. The error is want of memory; no entry changes.
fn make_room(ids: &mut IndexArray, i: u32, is_asked: bool) -> Result<(), AllocError>
    ensures ok { OnOk result (is_asked ≡ true → is_prepared ids.new i ≡ true) }
    ensures entries { KeepsEntries ids.old ids.new }
    ensures keeps { KeepsPrepared ids.old ids.new }
{
    if !is_asked {
        return Ok(());
    }
    match ids.prepare(i) {
        Ok(()) => Ok(()),
        Err(_) => Err(AllocError),
    }
}

impl CyclicIds {
    /// No number is in use, and the cursor is 0. Each number will be below `pid_max`.
    pub fn new(alloc: Global, pid_max: u32) -> Self
        requires { HasGoodPidMax pid_max }
        ensures empty { (n : ℕ) → entry_at result.places n ≡ None }
        ensures pid_max { result.pid_max ≡ pid_max }
        ensures cursor { result.cursor ≡ 0 }
    {
        CyclicIds {
            ids: IndexArray::new(alloc),
            leaf: Leaf::new(),
            block: 0,
            is_ready: false,
            is_backed: false,
            last: 0,
            turn: Turn {
                block: 0,
                cursor: 0,
                count: 0,
            },
            pid_max,
            cursor: 0,
        }
    }

    /// Does nothing: its contract says that the numbers in use are at least 1 and below the bound.
    pub fn laws(&self)
        ensures { AreInRange self.now.pid_max self.now.places }
    {
        let _ids = &self.ids;
    }

    /// Where the next draw begins: one above the number that was given last.
    pub fn cursor(&self) -> Pid
        ensures { result ≡ self.now.cursor }
    {
        self.cursor
    }

    /// The number that is given next, by the rule above; none where all from the restart on are in use.
    /// It changes nothing.
    #[inline(always)]
    pub fn plan(&self) -> Option<Pid>
        ensures draw { result ≡ planned self.now }
        ensures above { IfSome result (λ n. 1 ≤ n) }
        ensures below { IfSome result (λ n. n < self.now.pid_max) }
    {
        let low = self.restart();
        match self.first_gap(self.cursor.max(low)) {
            Some(n) => Some(n),
            None => self.first_gap(low),
        }
    }

    /// The least free number from one on and below the bound.
    #[inline(always)]
    fn first_gap(&self, from: Pid) -> Option<Pid>
        ensures { IsLeastIndex (λ k. not (is_some (entry_at self.now.places k))) from self.now.pid_max result }
    {
        if from / 64 == self.block {
            return gap_from_leaf(&self.ids, &self.leaf, self.block, from, self.pid_max);
        }
        match self.ids.first_gap(from, self.pid_max) {
            None => None,
            Some(n) => {
                if n / 64 != self.block {
                    return Some(n);
                }
                gap_from_leaf(&self.ids, &self.leaf, self.block, n, self.pid_max)
            }
        }
    }

    /// The next draw begins at the number, as if the one below it had been drawn last: a table that was saved has its
    /// cursors again. The numbers in use stay.
    pub fn set_cursor(&mut self, cursor: Pid)
        ensures { self.new ≡ record self.old { cursor = cursor } }
    {
        self.cursor = cursor;
    }

    /// Where a draw starts again: 300 once the cursor has passed it, so that the low numbers stay with
    /// the first processes, and else 1.
    fn restart(&self) -> Pid
        ensures { result ≡ restart self.now.cursor }
    {
        if self.cursor > 300 { 300 } else { 1 }
    }

    /// Takes the memory that a later `commit` of a number needs. An error is want of memory; then no
    /// number, no mark and not the cursor has changed.
    #[inline(always)]
    pub fn prepare(&mut self, n: Pid) -> Result<(), AllocError>
        requires { n < self.old.pid_max }
        ensures ok { OnOk result (is_prepared self.new.places n ≡ true) }
        ensures entries { KeepsEntries self.old.places self.new.places }
        ensures keeps { KeepsPrepared self.old.places self.new.places }
        ensures planned { planned self.new ≡ planned self.old }
        ensures pid_max { self.new.pid_max ≡ self.old.pid_max }
        ensures cursor { self.new.cursor ≡ self.old.cursor }
    {
        if n / 64 != self.block {
            return self.prepare_elsewhere(n);
        }
        self.is_ready = true;
        Ok(())
    }

    /// Prepares a number that is in another block than the leaf's. A first number in a block that the tree
    /// has a leaf for stays there: where few numbers are free, the next one is in another block again.
    #[inline(never)]
    fn prepare_elsewhere(&mut self, n: Pid) -> Result<(), AllocError>
        requires { n < self.old.pid_max }
        ensures ok { OnOk result (is_prepared self.new.places n ≡ true) }
        ensures entries { KeepsEntries self.old.places self.new.places }
        ensures keeps { KeepsPrepared self.old.places self.new.places }
        ensures planned { planned self.new ≡ planned self.old }
        ensures pid_max { self.new.pid_max ≡ self.old.pid_max }
        ensures cursor { self.new.cursor ≡ self.old.cursor }
    {
        let block = n / 64;
        if block == self.last {
            return self.change_leaf(n);
        }
        self.last = block;
        if self.is_prepared(n) {
            return Ok(());
        }
        self.change_leaf(n)
    }

    /// Puts the leaf into the tree, and takes that of a number out in its place. On want of memory nothing
    /// changes but nodes.
    fn change_leaf(&mut self, n: Pid) -> Result<(), AllocError>
        requires { n < self.old.pid_max }
        ensures ok { OnOk result (is_prepared self.new.places n ≡ true) }
        ensures entries { KeepsEntries self.old.places self.new.places }
        ensures keeps { KeepsPrepared self.old.places self.new.places }
        ensures planned { planned self.new ≡ planned self.old }
        ensures pid_max { self.new.pid_max ≡ self.old.pid_max }
        ensures cursor { self.new.cursor ≡ self.old.cursor }
    {
        let first = self.block * 64;
        make_room(&mut self.ids, first, self.is_ready)?;
        self.ids.exchange_leaf(first, &mut self.leaf);
        self.is_backed = self.ids.is_prepared(n);
        self.ids.exchange_leaf(n, &mut self.leaf);
        self.block = n / 64;
        self.is_ready = true;
        Ok(())
    }

    /// Whether `commit` has the memory that it needs for a number.
    pub fn is_prepared(&self, n: Pid) -> bool
        ensures { result ≡ is_prepared self.now.places n }
    {
        if n / 64 == self.block {
            return self.is_ready;
        }
        self.ids.is_prepared(n)
    }

    /// Gives the planned number to a value, with no mark. It takes no memory.
    pub fn commit(&mut self, n: Pid, v: u32)
        requires planned { planned self.old ≡ Some n }
        requires prepared { is_prepared self.old.places n ≡ true }
        ensures writes { WritesEntry self.old.places self.new.places n
            (Some (record { value = v; marks = false ∷ false ∷ false ∷ [] })) }
        ensures keeps { KeepsPrepared self.old.places self.new.places }
        ensures pid_max { self.new.pid_max ≡ self.old.pid_max }
        ensures cursor { self.new.cursor ≡ n + 1 }
    {
        self.commit_marked(n, v, [false; 3]);
    }

    /// Gives the planned number to a value, with the marks that `marks` has at their place. It takes no
    /// memory, and costs what `commit` does, where each `set_mark` after it would be a call of its own.
    #[inline(always)]
    pub fn commit_marked(&mut self, n: Pid, v: u32, marks: [bool; 3])
        requires planned { planned self.old ≡ Some n }
        requires prepared { is_prepared self.old.places n ≡ true }
        ensures writes { WritesEntry self.old.places self.new.places n
            (Some (record { value = v; marks = marks })) }
        ensures keeps { KeepsPrepared self.old.places self.new.places }
        ensures pid_max { self.new.pid_max ≡ self.old.pid_max }
        ensures cursor { self.new.cursor ≡ n + 1 }
    {
        let block = self.block;
        let next = n + 1;
        self.cursor = next;
        if n / 64 == block {
            self.leaf.store(n % 64, v, marks);
        } else {
            let _ = self.ids.store_prepared(n, v, marks);
        }
    }

    /// Makes a number free and answers its value, none where it was not in use. The cursor stays. It may take memory
    /// for nodes, where many numbers of one block are released in turn, and does without where there is none.
    #[inline(always)]
    pub fn release(&mut self, n: Pid) -> Option<u32>
        ensures writes { WritesEntry self.old.places self.new.places n None }
        ensures answer { result ≡ value_at self.old.places n }
        ensures pid_max { self.new.pid_max ≡ self.old.pid_max }
        ensures cursor { self.new.cursor ≡ self.old.cursor }
    {
        if n / 64 != self.block {
            self.come_near(n);
        }
        self.free(n)
    }

    /// Brings a number's block into the leaf, if it is the next of many releases there.
    #[inline(never)]
    fn come_near(&mut self, n: Pid)
        ensures entries { KeepsEntries self.old.places self.new.places }
        ensures pid_max { self.new.pid_max ≡ self.old.pid_max }
        ensures cursor { self.new.cursor ≡ self.old.cursor }
    {
        let block = n / 64;
        let cursor = self.cursor;
        if self.turn.block != block || self.turn.cursor != cursor {
            self.turn = Turn {
                block,
                cursor,
                count: 1,
            };
            return;
        }
        if self.turn.count < LONG_TURN {
            self.turn.count += 1;
            return;
        }
        self.turn.count = 1;
        if n < self.pid_max {
            let _ = self.change_leaf(n);
        }
    }

    /// Makes a number free, where it is, and answers its value.
    #[inline(always)]
    fn free(&mut self, n: Pid) -> Option<u32>
        ensures writes { WritesEntry self.old.places self.new.places n None }
        ensures answer { result ≡ value_at self.old.places n }
        ensures pid_max { self.new.pid_max ≡ self.old.pid_max }
        ensures cursor { self.new.cursor ≡ self.old.cursor }
    {
        if n / 64 != self.block {
            return self.ids.erase(n);
        }
        let old = self.leaf.erase(n % 64);
        self.is_ready = !self.leaf.is_empty();
        self.give_back_empty();
        old
    }

    /// Gives back the tree's leaf for the leaf's block, once no number of the block is in use.
    #[inline(always)]
    fn give_back_empty(&mut self)
        ensures entries { KeepsEntries self.old.places self.new.places }
        ensures pid_max { self.new.pid_max ≡ self.old.pid_max }
        ensures cursor { self.new.cursor ≡ self.old.cursor }
    {
        if self.is_backed & !self.is_ready {
            self.is_backed = false;
            self.ids.give_back(self.block * 64);
        }
    }

    /// The value of a number, lent from there; none where it is not in use.
    pub fn find(&self, n: Pid) -> Option<&u32>
        ensures { option_copied result ≡ value_at self.now.places n }
    {
        if n / 64 == self.block {
            return self.leaf.get(n % 64);
        }
        self.ids.get(n)
    }

    /// The value of a number, as [`CyclicIds::find`] has it. It costs less than a copy of what that lends.
    #[inline(always)]
    pub fn value(&self, n: Pid) -> Option<u32>
        ensures { result ≡ value_at self.now.places n }
    {
        if n / 64 == self.block {
            return self.leaf.value(n % 64);
        }
        self.ids.value(n)
    }

    /// Whether a number is in use and has mark `m`.
    pub fn has_mark(&self, n: Pid, m: usize) -> bool
        requires { m < 3 }
        ensures { result ≡ is_marked m (entry_at self.now.places n) }
    {
        if n / 64 == self.block {
            return self.leaf.is_marked(n % 64, m);
        }
        self.ids.has_mark(n, m)
    }

    /// Gives a number mark `m`, and says whether it is in use.
    pub fn set_mark(&mut self, n: Pid, m: usize) -> bool
        requires { m < 3 }
        ensures writes { WritesEntry self.old.places self.new.places n
            (with_mark m true (entry_at self.old.places n)) }
        ensures keeps { KeepsPrepared self.old.places self.new.places }
        ensures answer { result ≡ is_some (entry_at self.old.places n) }
        ensures pid_max { self.new.pid_max ≡ self.old.pid_max }
        ensures cursor { self.new.cursor ≡ self.old.cursor }
    {
        if n / 64 == self.block {
            return self.leaf.set_mark(n % 64, m, true);
        }
        self.ids.set_mark(n, m)
    }

    /// Takes mark `m` from a number, and says whether it is in use.
    pub fn clear_mark(&mut self, n: Pid, m: usize) -> bool
        requires { m < 3 }
        ensures writes { WritesEntry self.old.places self.new.places n
            (with_mark m false (entry_at self.old.places n)) }
        ensures keeps { KeepsPrepared self.old.places self.new.places }
        ensures answer { result ≡ is_some (entry_at self.old.places n) }
        ensures pid_max { self.new.pid_max ≡ self.old.pid_max }
        ensures cursor { self.new.cursor ≡ self.old.cursor }
    {
        if n / 64 == self.block {
            return self.leaf.set_mark(n % 64, m, false);
        }
        self.ids.clear_mark(n, m)
    }

    /// The least number at or above `from` that is in use and has mark `m`; none where there is none.
    pub fn next_marked(&self, from: Pid, m: usize) -> Option<Pid>
        requires { m < 3 }
        ensures { IsLeastIndex (λ k. is_marked m (entry_at self.now.places k)) from index_count result }
    {
        // What the leaf finds in its own block comes before all that the tree could.
        if from / 64 == self.block {
            if let Some(slot) = self.leaf.next_marked(from % 64, m) {
                return Some(self.block * 64 + slot);
            }
        } else if self.ids.has_mark(from, m) {
            // A walk over numbers that were given in turn mostly comes here.
            return Some(from);
        }
        self.search_marked(from, m)
    }

    /// The same by a search of the tree and one of the leaf. It is not inlined: so a number that is found at once costs
    /// nothing of it.
    #[inline(never)]
    fn search_marked(&self, from: Pid, m: usize) -> Option<Pid>
        requires { m < 3 }
        ensures { IsLeastIndex (λ k. is_marked m (entry_at self.now.places k)) from index_count result }
    {
        let found = self.ids.next_marked(from, m);
        if from / 64 > self.block {
            return found;
        }
        if is_below(found, self.block) {
            return found;
        }
        let start = from.saturating_sub(self.block * 64);
        lesser_of(found, self.block, self.leaf.next_marked(start, m))
    }

    /// The least number at or above `from` that is in use; none where there is none.
    pub fn next(&self, from: Pid) -> Option<Pid>
        ensures { IsLeastIndex (λ k. is_some (entry_at self.now.places k)) from index_count result }
    {
        let found = self.ids.next(from);
        if from / 64 > self.block {
            return found;
        }
        if is_below(found, self.block) {
            return found;
        }
        let start = from.saturating_sub(self.block * 64);
        lesser_of(found, self.block, self.leaf.next(start))
    }

    /// The least number at or above `from` that is in use and has no mark; none where there is none. It costs a search
    /// of the tree for each block of 64 with a number in use that it passes.
    pub fn next_unmarked(&self, from: Pid) -> Option<Pid>
        ensures { IsLeastIndex (λ k. is_unmarked (entry_at self.now.places k)) from index_count result }
    {
        let first = self.block * 64;
        let end = first + 64;
        if from >= end {
            return self.ids.first_unmarked(from, INDEX_COUNT);
        }
        if let Some(found) = self.ids.first_unmarked(from, first) {
            return Some(found);
        }
        if let Some(slot) = self.leaf.next_unmarked(from.saturating_sub(first)) {
            return Some(first + slot);
        }
        self.ids.first_unmarked(end, INDEX_COUNT)
    }

    /// Whether no number is in use. It costs one read.
    #[inline(always)]
    pub fn is_empty(&self) -> bool
        ensures { MatchBool result ((n : ℕ) → entry_at self.now.places n ≡ None)
            ((n : ℕ) × (is_some (entry_at self.now.places n) ≡ true)) }
    {
        match self.leaf.next(0) {
            Some(_) => false,
            None => self.ids.is_empty(),
        }
    }
}
