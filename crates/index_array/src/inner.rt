//! The nodes with children.

ghost use Rattle.std.specs.Prelude.{◌≡◌, ℕ, ◌<◌, ◌≤◌, ◌+◌, ◌^◌, ◌/◌, ◌%◌, ◌*◌, length, Option, None, MatchOption, IfOk};
ghost use Rattle.std.specs.Prelude.{false, []};
ghost use Rattle.{
  index_array.specs.{Words.{IsSought}, Place.{index_count, bare_place, place_at, value_at, entry_with, IsFirst}},
  index_array.specs.Place.{WritesEntry, KeepsEntries, KeepsPrepared, ClearsMarks, HasPlace, SaysChange, HasNoEntry},
  index_array.specs.{Tree.{Tree, IsNew, IsChildNode, IsInChild}, declared.bits.Sought.{Sought}},
};

use crate::bits::{SlotBits, Sought, Words, has_bit, next_bit};
use crate::block::{Block, Parent, Written};
use crate::leaf::{Leaf, empty_slots};
use std::alloc::{AllocError, Global};
use std::marker::Model;

/// A node above leaves has 64 children of the next lower height, of which each may be missing.
#[derive(Drop)]
pub struct Inner<C: Block> {
    words: Words,
    children: Vec<Option<Box<C>>>,
}

impl<C: Block> Model for Inner<C> {
    ghost use Rattle.std.specs.Prelude.{ℕ, ◌+◌, []};
    ghost use Rattle.index_array.specs.Tree.{Tree, places_of, kids, IsNode};

    ghost Value = { Tree ℕ };

    ghost view = { λ a. record {
      height = C.height + 1;
      places = places_of a.words (C.height + 1) [] (kids C.tree a.children.items);
    } };

    ghost invariant = { λ a. IsNode a.words (C.height + 1) [] (kids C.tree a.children.items) };
}

/// The slot of an index in a node of this height.
#[inline(always)]
fn slot_of(i: u32, height: u32) -> u32
    requires { height < 4 }
    ensures { result ≡ i / 64 ^ height }
{
    i >> (6 * height)
}

/// The index within that slot.
#[inline(always)]
fn rest_of(i: u32, height: u32) -> u32
    requires { height < 4 }
    ensures { result ≡ i % 64 ^ height }
{
    i & ((1 << (6 * height)) - 1)
}

/// The first index of a slot.
#[inline(always)]
fn start_of(slot: u32, height: u32) -> u32
    requires slot { slot < 64 }
    requires height { height < 4 }
    ensures start { result ≡ slot * 64 ^ height }
    ensures fits { result + 64 ^ height ≤ index_count }
{
    slot << (6 * height)
}

impl<C: Block> Inner<C> {
    /// A node with no entry; the error is want of memory.
    pub fn new(alloc: Global) -> Result<Self, AllocError>
        requires { C.height < 3 }
        ensures { IfOk result (λ node. IsNew (C.height + 1) node) }
    {
        Ok(Inner {
            words: Words::none(),
            children: empty_slots(alloc)?,
        })
    }

    /// The child that an index is below, with the index in it; none where there is no such child.
    #[inline(always)]
    fn below(&self, i: u32) -> Option<(&C, u32)>
        requires { i < 64 ^ (self.now.height + 1) }
        ensures { MatchOption result (place_at self.now.places i ≡ bare_place)
            (λ p. IsInChild self.now.places i (C.tree p.0.now) p.1) }
    {
        let _words = &self.words;
        let height = C::height() + 1;
        match &self.children[slot_of(i, height) as usize] {
            None => None,
            Some(child) => Some((&**child, rest_of(i, height))),
        }
    }

    /// The search of `find` below one slot, from the index `rest` of that slot on.
    #[inline(always)]
    fn find_in_slot(&self, slot: u32, rest: u32, sought: Sought) -> Option<u32>
        requires slot { slot < 64 }
        requires rest { rest < 64 ^ self.now.height }
        requires mark { IsSought sought }
        ensures { let start = slot * 64 ^ self.now.height in
            IsFirst sought self.now.places (start + rest) (start + 64 ^ self.now.height) result }
    {
        if !has_bit(self.words.word(sought), slot) {
            return None;
        }
        let start = start_of(slot, C::height() + 1);
        match &self.children[slot as usize] {
            None => Some(start + rest),
            Some(child) => match child.find(rest, sought) {
                None => None,
                Some(found) => Some(start + found),
            },
        }
    }
}

impl<C: Block> Block for Inner<C> {
    ghost use Rattle.std.specs.Prelude.{◌+◌};

    ghost height = { C.height + 1 };

    ghost tree = { λ t. t };

    #[inline(always)]
    fn height() -> u32 {
        C::height() + 1
    }

    #[inline(never)]
    fn empty(alloc: Global) -> Result<Box<Self>, AllocError> {
        Ok(Box::new(alloc, Inner::new(alloc)?)?)
    }

    #[inline(always)]
    fn together(&self) -> SlotBits {
        self.words.together()
    }

    #[inline(always)]
    fn has_any(&self, sought: Sought) -> bool {
        self.words.has_any(sought)
    }

    #[inline(always)]
    fn leaf(&self, i: u32) -> Option<(&Leaf, u32)> {
        match self.below(i) {
            None => None,
            Some((child, rest)) => child.leaf(rest),
        }
    }

    #[inline(always)]
    fn find(&self, from: u32, sought: Sought) -> Option<u32> {
        let word = self.words.word(sought);
        let height = C::height() + 1;
        let slot = slot_of(from, height);
        if let Some(found) = self.find_in_slot(slot, rest_of(from, height), sought) {
            return Some(found);
        }
        if slot == 63 {
            return None;
        }
        match next_bit(word, slot + 1) {
            None => None,
            Some(later) => self.find_in_slot(later, 0, sought),
        }
    }

    #[inline(always)]
    fn put(&mut self, i: u32, value: Option<u32>, marks: [bool; 3]) -> Written
        requires covered { i < 64 ^ (self.old.height + 1) }
        requires prepared { HasPlace value self.old.places i }
        requires unmarked { ClearsMarks value marks }
        ensures height { self.new.height ≡ self.old.height }
        ensures whole { length self.new.places ≡ length self.old.places }
        ensures writes { WritesEntry self.old.places self.new.places i (entry_with value marks) }
        ensures keeps { KeepsPrepared self.old.places self.new.places }
        ensures answer { result.old ≡ value_at self.old.places i }
        ensures same { SaysChange result.changed self.old.places self.new.places }
    {
        let _words = &self.words;
        let height = C::height() + 1;
        let slot = slot_of(i, height);
        if self.children[slot as usize].is_none() {
            drop(value);
            return Written::nothing();
        }
        match &mut self.children[slot as usize] {
            None => unreachable!(),
            Some(child) => {
                let child: &mut C = child;
                let present = value.is_some();
                let written = child.put(rest_of(i, height), value, marks);
                if !written.changed {
                    return written;
                }
                let bits = child.together().knowing(present);
                self.words.set_slot(slot, bits);
                written
            }
        }
    }

    #[inline(always)]
    fn put_mark(&mut self, i: u32, mark: usize, on: bool) -> bool {
        let _words = &self.words;
        let height = C::height() + 1;
        let slot = slot_of(i, height);
        if self.children[slot as usize].is_none() {
            return false;
        }
        match &mut self.children[slot as usize] {
            None => unreachable!(),
            Some(child) => {
                let child: &mut C = child;
                let found = child.put_mark(rest_of(i, height), mark, on);
                let below = child.has_any(Sought::Mark(mark));
                self.words.set_mark(slot, mark, below);
                found
            }
        }
    }

    #[inline(always)]
    fn exchange(&mut self, i: u32, leaf: &mut Leaf) {
        let _words = &self.words;
        let height = C::height() + 1;
        let slot = slot_of(i, height);
        if self.children[slot as usize].is_none() {
            return;
        }
        match &mut self.children[slot as usize] {
            None => unreachable!(),
            Some(child) => {
                let child: &mut C = child;
                child.exchange(rest_of(i, height), leaf);
                let below = child.together();
                self.words.set_slot(slot, below);
            }
        }
    }

    #[inline(never)]
    fn prepare(&mut self, alloc: Global, i: u32) -> Result<(), AllocError> {
        let _words = &self.words;
        let height = C::height() + 1;
        let slot = slot_of(i, height);
        let rest = rest_of(i, height);
        if self.children[slot as usize].is_none() {
            let mut child: Box<C> = C::empty(alloc)?;
            child.prepare(alloc, rest)?;
            self.children[slot as usize] = Some(child);
            return Ok(());
        }
        match &mut self.children[slot as usize] {
            None => unreachable!(),
            Some(child) => child.prepare(alloc, rest),
        }
    }

    #[inline(never)]
    fn give_back(&mut self, i: u32) {
        let _words = &self.words;
        let height = C::height() + 1;
        let slot = slot_of(i, height);
        if !has_bit(self.words.present, slot) {
            self.children[slot as usize] = None;
            return;
        }
        match &mut self.children[slot as usize] {
            None => unreachable!(),
            Some(child) => child.give_back(rest_of(i, height)),
        }
    }
}

impl<C: Block> Parent<C> for Inner<C> {
    fn adopt(&mut self, child: Box<C>)
        requires child { IsChildNode self.old.height (C.tree child.value) }
        requires empty { HasNoEntry self.old.places }
        ensures height { self.new.height ≡ self.old.height }
        ensures whole { length self.new.places ≡ length self.old.places }
        ensures entries { KeepsEntries (C.tree child.value).places self.new.places }
        ensures keeps { KeepsPrepared (C.tree child.value).places self.new.places }
    {
        let bits = child.together();
        self.children[0] = Some(child);
        self.words.set_slot(0, bits);
    }
}
