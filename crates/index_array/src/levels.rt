//! The nodes of heights 1, 2 and 3.
//!
//! Each is a type of its own, and not an `Inner` of an `Inner` of a leaf: what is proved of a call names
//! each type in it several times, and so would double with each height.

ghost use Rattle.std.specs.Prelude.{◌≡◌, ◌<◌, ◌+◌, ◌^◌, length};
ghost use Rattle.index_array.specs.Place.{value_at, entry_with, WritesEntry, KeepsEntries, KeepsPrepared, ClearsMarks};
ghost use Rattle.index_array.specs.{Place.{HasPlace, SaysChange, HasNoEntry}, Tree.{IsChildNode}};
ghost use Rattle.index_array.specs.declared.bits.Sought.{Sought};

use crate::bits::{SlotBits, Sought};
use crate::block::{Block, Parent, Written};
use crate::inner::Inner;
use crate::leaf::Leaf;
use std::alloc::{AllocError, Global};

/// A node over leaves.
#[derive(Drop)]
pub struct Node1(Inner<Leaf>);

impl Block for Node1 {
    ghost height = { 1 };

    ghost tree = { λ t. t.0 };

    #[inline(always)]
    fn height() -> u32 {
        1
    }

    #[inline(never)]
    fn empty(alloc: Global) -> Result<Box<Self>, AllocError> {
        Ok(Box::new(alloc, Node1(Inner::new(alloc)?))?)
    }

    #[inline(always)]
    fn together(&self) -> SlotBits {
        self.0.together()
    }

    #[inline(always)]
    fn has_any(&self, sought: Sought) -> bool {
        self.0.has_any(sought)
    }

    #[inline(always)]
    fn leaf(&self, i: u32) -> Option<(&Leaf, u32)> {
        self.0.leaf(i)
    }

    #[inline(always)]
    fn find(&self, from: u32, sought: Sought) -> Option<u32> {
        self.0.find(from, sought)
    }

    #[inline(always)]
    fn put(&mut self, i: u32, value: Option<u32>, marks: [bool; 3]) -> Written
        requires covered { i < 64 ^ (self.old.0.height + 1) }
        requires prepared { HasPlace value self.old.0.places i }
        requires unmarked { ClearsMarks value marks }
        ensures height { self.new.0.height ≡ self.old.0.height }
        ensures whole { length self.new.0.places ≡ length self.old.0.places }
        ensures writes { WritesEntry self.old.0.places self.new.0.places i (entry_with value marks) }
        ensures keeps { KeepsPrepared self.old.0.places self.new.0.places }
        ensures answer { result.old ≡ value_at self.old.0.places i }
        ensures same { SaysChange result.changed self.old.0.places self.new.0.places }
    {
        self.0.put(i, value, marks)
    }

    #[inline(always)]
    fn put_mark(&mut self, i: u32, mark: usize, on: bool) -> bool {
        self.0.put_mark(i, mark, on)
    }

    #[inline(always)]
    fn exchange(&mut self, i: u32, leaf: &mut Leaf) {
        self.0.exchange(i, leaf)
    }

    #[inline(always)]
    fn prepare(&mut self, alloc: Global, i: u32) -> Result<(), AllocError> {
        self.0.prepare(alloc, i)
    }

    #[inline(always)]
    fn give_back(&mut self, i: u32) {
        self.0.give_back(i)
    }
}

impl Parent<Leaf> for Node1 {
    #[inline(always)]
    fn adopt(&mut self, child: Box<Leaf>)
        requires child { IsChildNode self.old.0.height child.value }
        requires empty { HasNoEntry self.old.0.places }
        ensures height { self.new.0.height ≡ self.old.0.height }
        ensures whole { length self.new.0.places ≡ length self.old.0.places }
        ensures entries { KeepsEntries child.value.places self.new.0.places }
        ensures keeps { KeepsPrepared child.value.places self.new.0.places }
    {
        self.0.adopt(child);
    }
}

/// A node over those.
#[derive(Drop)]
pub struct Node2(Inner<Node1>);

impl Block for Node2 {
    ghost height = { 2 };

    ghost tree = { λ t. t.0 };

    #[inline(always)]
    fn height() -> u32 {
        2
    }

    #[inline(never)]
    fn empty(alloc: Global) -> Result<Box<Self>, AllocError> {
        Ok(Box::new(alloc, Node2(Inner::new(alloc)?))?)
    }

    #[inline(always)]
    fn together(&self) -> SlotBits {
        self.0.together()
    }

    #[inline(always)]
    fn has_any(&self, sought: Sought) -> bool {
        self.0.has_any(sought)
    }

    #[inline(always)]
    fn leaf(&self, i: u32) -> Option<(&Leaf, u32)> {
        self.0.leaf(i)
    }

    #[inline(always)]
    fn find(&self, from: u32, sought: Sought) -> Option<u32> {
        self.0.find(from, sought)
    }

    #[inline(always)]
    fn put(&mut self, i: u32, value: Option<u32>, marks: [bool; 3]) -> Written
        requires covered { i < 64 ^ (self.old.0.height + 1) }
        requires prepared { HasPlace value self.old.0.places i }
        requires unmarked { ClearsMarks value marks }
        ensures height { self.new.0.height ≡ self.old.0.height }
        ensures whole { length self.new.0.places ≡ length self.old.0.places }
        ensures writes { WritesEntry self.old.0.places self.new.0.places i (entry_with value marks) }
        ensures keeps { KeepsPrepared self.old.0.places self.new.0.places }
        ensures answer { result.old ≡ value_at self.old.0.places i }
        ensures same { SaysChange result.changed self.old.0.places self.new.0.places }
    {
        self.0.put(i, value, marks)
    }

    #[inline(always)]
    fn put_mark(&mut self, i: u32, mark: usize, on: bool) -> bool {
        self.0.put_mark(i, mark, on)
    }

    #[inline(always)]
    fn exchange(&mut self, i: u32, leaf: &mut Leaf) {
        self.0.exchange(i, leaf)
    }

    #[inline(always)]
    fn prepare(&mut self, alloc: Global, i: u32) -> Result<(), AllocError> {
        self.0.prepare(alloc, i)
    }

    #[inline(always)]
    fn give_back(&mut self, i: u32) {
        self.0.give_back(i)
    }
}

impl Parent<Node1> for Node2 {
    #[inline(always)]
    fn adopt(&mut self, child: Box<Node1>)
        requires child { IsChildNode self.old.0.height child.value.0 }
        requires empty { HasNoEntry self.old.0.places }
        ensures height { self.new.0.height ≡ self.old.0.height }
        ensures whole { length self.new.0.places ≡ length self.old.0.places }
        ensures entries { KeepsEntries child.value.0.places self.new.0.places }
        ensures keeps { KeepsPrepared child.value.0.places self.new.0.places }
    {
        self.0.adopt(child);
    }
}

/// A node over those, the highest.
#[derive(Drop)]
pub struct Node3(Inner<Node2>);

impl Block for Node3 {
    ghost height = { 3 };

    ghost tree = { λ t. t.0 };

    #[inline(always)]
    fn height() -> u32 {
        3
    }

    #[inline(never)]
    fn empty(alloc: Global) -> Result<Box<Self>, AllocError> {
        Ok(Box::new(alloc, Node3(Inner::new(alloc)?))?)
    }

    #[inline(always)]
    fn together(&self) -> SlotBits {
        self.0.together()
    }

    #[inline(always)]
    fn has_any(&self, sought: Sought) -> bool {
        self.0.has_any(sought)
    }

    #[inline(always)]
    fn leaf(&self, i: u32) -> Option<(&Leaf, u32)> {
        self.0.leaf(i)
    }

    #[inline(always)]
    fn find(&self, from: u32, sought: Sought) -> Option<u32> {
        self.0.find(from, sought)
    }

    #[inline(always)]
    fn put(&mut self, i: u32, value: Option<u32>, marks: [bool; 3]) -> Written
        requires covered { i < 64 ^ (self.old.0.height + 1) }
        requires prepared { HasPlace value self.old.0.places i }
        requires unmarked { ClearsMarks value marks }
        ensures height { self.new.0.height ≡ self.old.0.height }
        ensures whole { length self.new.0.places ≡ length self.old.0.places }
        ensures writes { WritesEntry self.old.0.places self.new.0.places i (entry_with value marks) }
        ensures keeps { KeepsPrepared self.old.0.places self.new.0.places }
        ensures answer { result.old ≡ value_at self.old.0.places i }
        ensures same { SaysChange result.changed self.old.0.places self.new.0.places }
    {
        self.0.put(i, value, marks)
    }

    #[inline(always)]
    fn put_mark(&mut self, i: u32, mark: usize, on: bool) -> bool {
        self.0.put_mark(i, mark, on)
    }

    #[inline(always)]
    fn exchange(&mut self, i: u32, leaf: &mut Leaf) {
        self.0.exchange(i, leaf)
    }

    #[inline(always)]
    fn prepare(&mut self, alloc: Global, i: u32) -> Result<(), AllocError> {
        self.0.prepare(alloc, i)
    }

    #[inline(always)]
    fn give_back(&mut self, i: u32) {
        self.0.give_back(i)
    }
}

impl Parent<Node2> for Node3 {
    #[inline(always)]
    fn adopt(&mut self, child: Box<Node2>)
        requires child { IsChildNode self.old.0.height child.value.0 }
        requires empty { HasNoEntry self.old.0.places }
        ensures height { self.new.0.height ≡ self.old.0.height }
        ensures whole { length self.new.0.places ≡ length self.old.0.places }
        ensures entries { KeepsEntries child.value.0.places self.new.0.places }
        ensures keeps { KeepsPrepared child.value.0.places self.new.0.places }
    {
        self.0.adopt(child);
    }
}
