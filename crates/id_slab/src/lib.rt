//! What a slab keeps by key and a table finds by id: ids that only rise, each with its key, and room in a slab whose
//! keys are 32-bit numbers.
//!
//! The ids are a vector in rising order. A removal leaves a mark in its place, and the marks are cleared away once
//! half of the entries may be marks, so that no call moves all others each time.
#![tactic(auto)]

ghost use Rattle.std.specs.Prelude.{◌≡◌, length, IsTrue, OnOk, OnErr, [], ◌∷◌, ◌++◌};
ghost use Rattle.id_slab.specs.{Ids.{key_of, without, AreBelow, AreRising}, Entries.{live, Rise, EndsLive, IsPlaceOf}};

mod iter;
mod room;

pub use iter::Iter;
pub use room::make_room;
use std::alloc::{AllocError, Global};
use std::marker::Model;

/// An id with its key, or with none where it was removed.
#[derive(Clone, Copy)]
struct Entry {
    id: u64,
    key: Option<u32>,
}

/// Ids in rising order, each with a key.
///
/// It takes 16 bytes for each id, and as much for each mark.
#[derive(Drop)]
pub struct RisingIds {
    entries: Vec<Entry>,
    /// How many of the entries are no marks.
    count: usize,
}

impl Model for RisingIds {
    ghost use Rattle.std.specs.Prelude.{◌≡◌, List, ℕ, length};

    ghost Value = { List (ℕ × ℕ) };

    ghost use Rattle.id_slab.specs.Entries.{live, Rise};

    ghost view = { λ a. live a.entries.items };

    ghost invariant = { λ a. Rise a.entries.items × (a.count ≡ length (live a.entries.items)) };
}

/// The place of an id among entries that rise, by halves.
fn search(entries: &[Entry], id: u64) -> Option<usize>
    requires { Rise entries.now }
    ensures { IsPlaceOf entries.now id result }
{
    let i = entries.partition_point(|e| e.id < id);
    if i >= entries.len() {
        return None;
    }
    if entries[i].id == id { Some(i) } else { None }
}

/// The place of an id among entries that rise. The last one is looked at first, since what came last often goes first.
fn place_of(entries: &[Entry], id: u64) -> Option<usize>
    requires { Rise entries.now }
    ensures { IsPlaceOf entries.now id result }
{
    let end = entries.len();
    if end > 0 && entries[end - 1].id == id {
        return Some(end - 1);
    }
    search(entries, id)
}

/// Drops the marks behind the last id.
fn trim(entries: &mut Vec<Entry>)
    requires { Rise entries.old.items }
    ensures rise { Rise entries.new.items }
    ensures live { live entries.new.items ≡ live entries.old.items }
    ensures ends { EndsLive entries.new.items }
{
    while let Some(last) = entries.last() {
        if last.key.is_some() {
            return;
        }
        entries.pop();
    }
}

/// Drops all marks.
fn compact(entries: &mut Vec<Entry>)
    requires { Rise entries.old.items }
    ensures rise { Rise entries.new.items }
    ensures live { live entries.new.items ≡ live entries.old.items }
{
    entries.retain(|e| e.key.is_some());
}

/// Drops all marks, where most entries are marks.
fn tidy(entries: &mut Vec<Entry>, count: usize)
    requires { Rise entries.old.items }
    ensures rise { Rise entries.new.items }
    ensures live { live entries.new.items ≡ live entries.old.items }
{
    if count < entries.len() / 2 {
        compact(entries);
    }
}

impl RisingIds {
    /// No ids.
    pub fn new(alloc: Global) -> Self
        ensures { result ≡ [] }
    {
        RisingIds {
            entries: Vec::new(alloc),
            count: 0,
        }
    }

    /// Adds an id that is above all others. The error is want of memory, and then nothing has changed.
    pub fn push(&mut self, id: u64, key: u32) -> Result<(), AllocError>
        requires { AreBelow self.old id }
        ensures ok { OnOk result (self.new ≡ self.old ++ (id, key) ∷ []) }
        ensures err { OnErr result (self.new ≡ self.old) }
    {
        trim(&mut self.entries);
        self.entries.push(Entry { id, key: Some(key) })?;
        prove!(self.count < self.entries.len());
        self.count += 1;
        Ok(())
    }

    /// Whether an id is above all that are there. It costs one read, of the last entry, so it answers false too
    /// where only an id that was removed is as high.
    pub fn is_above(&self, id: u64) -> bool
        ensures { IsTrue result → AreBelow self.now id }
    {
        let entries = self.entries.len();
        entries == 0 || self.entries[entries - 1].id < id
    }

    /// The key of an id. It costs a logarithm of the entries.
    pub fn find(&self, id: u64) -> Option<u32>
        ensures { result ≡ key_of self.now id }
    {
        let i = place_of(self.entries.as_slice(), id)?;
        self.entries[i].key
    }

    /// Removes an id, where it is there, and answers its key. It costs a logarithm of the entries, taken
    /// over many calls.
    pub fn remove(&mut self, id: u64) -> Option<u32>
        ensures key { result ≡ key_of self.old id }
        ensures rest { self.new ≡ without self.old id }
    {
        let i = place_of(self.entries.as_slice(), id)?;
        let key = self.entries[i].key?;
        self.entries[i].key = None;
        self.count -= 1;
        tidy(&mut self.entries, self.count);
        Some(key)
    }

    /// How many ids there are. It costs one read.
    pub fn count(&self) -> usize
        ensures { result ≡ length self.now }
    {
        self.count
    }

    /// The ids in their order, each with its key. A step over marks costs a read for each of them.
    pub fn iter(&self) -> Iter<'_>
        ensures all { result ≡ self.now }
        ensures rising { AreRising self.now }
    {
        Iter::from(self.entries.as_slice())
    }
}
