//! The places of namespaces, and their paths.

ghost use Rattle.std.specs.Prelude.{◌≡◌, ◌≢◌, ℕ, ◌+◌, ◌<◌, ◌≤◌, length, option_map, Some, None, IfOk, IsSome, true};
ghost use Rattle.std.specs.{Prelude.{OnOk, slice_index_or, [], ◌∷◌, ◌^◌}, Option.{option_copied}};
ghost use Rattle.{
  member_lists.specs.Owners.{owner_of},
  pid_types.specs.{Bounds.{deepest_space}, Chains.{contains}},
  ns_tree.specs.{Tree.{node_in, way, felled, grown, IsPathTree}, Places.{node_of}},
};

use arrayvec::ArrayVec;
use member_lists::{MemberLists, keys_with_room};
use pid_types::keys::SpaceKey;
use pid_types::plain::LEVELS;
use slab::Slab;
use std::alloc::{AllocError, Global};
use std::marker::Model;

/// A namespace, and the keys of it and of those around it, innermost first.
#[derive(Drop)]
pub(crate) struct Place {
    pub id: u64,
    pub fallen: bool,
    pub path: ArrayVec<SpaceKey, LEVELS>,
}

/// Namespaces by key.
#[derive(Drop)]
pub(crate) struct Places {
    slab: Slab<Place>,
    /// Each key that was given is below this number, and each number below it was given.
    keys: usize,
}

impl Model for Places {
    ghost use Rattle.ns_tree.specs.Places.{Placed, placed_of, HasNoneFrom};

    ghost Value = { Placed };

    ghost view = { λ a. placed_of a.keys a.slab };

    ghost invariant = { λ a. HasNoneFrom a.keys a.slab };
}

impl Places {
    /// One namespace, with the key 0. The error is want of memory.
    pub(crate) fn new(alloc: Global, root: Place) -> Result<Self, AllocError>
        ensures { IfOk result (λ r. r.nodes ≡ Some (node_of root) ∷ []) }
    {
        let mut slab = Slab::with_capacity(alloc, 1)?;
        slab.insert_reserved(root);
        Ok(Places { slab, keys: 1 })
    }

    /// The namespace with the key, if it is there.
    #[inline(always)]
    pub(crate) fn find(&self, key: SpaceKey) -> Option<&Place>
        ensures { option_map node_of (option_copied result) ≡ node_in self.now.nodes key }
    {
        self.slab.get(key as usize)
    }

    /// Takes the memory for one more namespace, and answers the key that it will have. The error is want of memory, or
    /// that the key is 2^30 or above, or leaves a gap.
    pub(crate) fn make_room(&mut self) -> Result<SpaceKey, AllocError>
        ensures same { self.new ≡ record self.old { ready = self.new.ready } }
        ensures room { OnOk result (self.new.ready ≡ true) }
        ensures key { IfOk result (λ key. key ≡ self.new.next) }
        ensures few { IfOk result (λ key. key < 2 ^ 30) }
        ensures near { IfOk result (λ key. key ≤ length self.old.nodes) }
        ensures vacant { IfOk result (λ key. node_in self.old.nodes key ≡ None) }
    {
        let key = id_slab::make_room(&mut self.slab)?;
        if key as usize > self.keys {
            return Err(AllocError);
        }
        Ok(key)
    }

    /// Puts a namespace into the place that there is room for.
    pub(crate) fn insert_reserved(&mut self, space: Place)
        requires room { self.old.ready ≡ true }
        requires few { self.old.next < 2 ^ 30 }
        requires near { self.old.next ≤ length self.old.nodes }
        ensures here { node_in self.new.nodes self.old.next ≡ Some (node_of space) }
        ensures others { (s : ℕ) → s ≢ self.old.next → node_in self.new.nodes s ≡ node_in self.old.nodes s }
        ensures count { length self.new.nodes ≡ grown (length self.old.nodes) self.old.next }
    {
        let key = self.slab.insert_reserved(space);
        if key == self.keys {
            self.keys += 1;
        }
    }

    /// The namespace has fallen.
    pub(crate) fn mark_fallen(&mut self, key: SpaceKey)
        requires { IsSome (node_in self.old.nodes key) }
        ensures here { node_in self.new.nodes key ≡ option_map felled (node_in self.old.nodes key) }
        ensures others { (s : ℕ) → s ≢ key → node_in self.new.nodes s ≡ node_in self.old.nodes s }
        ensures count { length self.new.nodes ≡ length self.old.nodes }
    {
        self.slab[key as usize].fallen = true;
    }

    /// Takes a namespace out. Its key may be given again.
    pub(crate) fn remove(&mut self, key: SpaceKey) -> Place
        requires { IsSome (node_in self.old.nodes key) }
        ensures value { node_in self.old.nodes key ≡ Some (node_of result) }
        ensures here { node_in self.new.nodes key ≡ None }
        ensures others { (s : ℕ) → s ≢ key → node_in self.new.nodes s ≡ node_in self.old.nodes s }
        ensures count { length self.new.nodes ≡ length self.old.nodes }
    {
        self.slab.remove(key as usize)
    }
}

/// The number of namespaces on the path.
#[inline(always)]
pub(crate) fn levels_at(places: &Places, key: SpaceKey) -> usize
    ensures value { result ≡ length (way places.now.nodes key) }
    ensures few { result ≤ deepest_space + 1 }
{
    match places.find(key) {
        Some(p) => p.path.len(),
        None => 0,
    }
}

/// The keys of the namespace and of those around it, innermost first; none where it is not there.
#[inline(always)]
pub(crate) fn path_of(places: &Places, key: SpaceKey) -> &[SpaceKey]
    ensures { result.now ≡ way places.now.nodes key }
{
    match places.find(key) {
        Some(p) => p.path.as_slice(),
        None => &[],
    }
}

/// The path of a new namespace below the parent.
pub(crate) fn path_below(
    places: &Places,
    key: SpaceKey,
    parent: SpaceKey,
) -> ArrayVec<SpaceKey, LEVELS>
    requires { length (way places.now.nodes parent) ≤ deepest_space }
    ensures { result.items ≡ key ∷ way places.now.nodes parent }
{
    let mut path = ArrayVec::<SpaceKey, LEVELS>::new();
    path.push(key);
    let around = path_of(places, parent);
    for k in 0..around.len() {
        path.push(around[k]);
    }
    path
}

/// Makes room in the lists for the namespace with the key, and for all below. The error is want of memory.
pub(crate) fn grow_lists(children: &mut MemberLists, key: SpaceKey) -> Result<(), AllocError>
    requires { key < 2 ^ 30 }
    ensures owners { (s : ℕ) → owner_of children.new s ≡ owner_of children.old s }
    ensures longer { length children.old ≤ length children.new }
    ensures room { OnOk result (key < length children.new) }
{
    let keys = children.keys();
    if (key as usize) < keys {
        return Ok(());
    }
    children.grow(keys_with_room(key) - keys)
}

/// Whether the namespace is the other one or inside it.
#[inline(always)]
pub(crate) fn is_inside(places: &Places, key: SpaceKey, outer: SpaceKey) -> bool
    requires { IsPathTree (way places.now.nodes) }
    ensures { result ≡ contains (way places.now.nodes key) outer }
{
    let from = levels_at(places, outer);
    let path = path_of(places, key);
    let end = path.len();
    if from == 0 || end < from {
        return false;
    }
    path[end - from] == outer
}
