//! The tree of PID namespaces: each has an id, and all but the root are in another one (`pid_namespaces(7)`).
//!
//! Namespaces have keys, which the calls that find them answer. The key of a namespace that is gone may be given
//! again, and the id may not.
#![tactic(auto)]

ghost use Rattle.std.specs.Prelude.{◌≡◌, ◌≢◌, ℕ, ◌+◌, ◌<◌, ◌≤◌, ◌++◌, length, option_map, Some, None, IsSome, IsTrue};
ghost use Rattle.std.specs.Prelude.{IfOk, OnErr, MatchOption, is_some, nat_lt, slice_index_or, if◌then◌else◌, true};
ghost use Rattle.std.specs.{Prelude.{false, [], ◌∷◌, drop}, List.{AllByRecursion, filter}};
ghost use Rattle.{
  id_slab.specs.Ids.{AreBelow, AreRising},
  pid_types.specs.{Bounds.{deepest_space}, Chains.{contains}},
  ns_tree.specs.Tree.{node_in, new_node, way, id_in, fell, felled, felled_within, grown, IsPathTree, AreListed},
  ns_tree.specs.Tree.{AreInside},
};

mod fall;
mod places;

use arrayvec::ArrayVec;
use fall::fall_within;
use id_slab::{Iter, RisingIds};
use member_lists::MemberLists;
pub use member_lists::Members as InnerSpaces;
use pid_types::keys::SpaceKey;
use pid_types::plain::LEVELS;
use places::{Place, Places, grow_lists, is_inside, levels_at, path_below, path_of};
use std::alloc::{AllocError, Global};
use std::marker::Model;

/// Namespaces by key: the id of each, whether it has fallen, the path from it to the root, and those directly inside.
pub struct SpaceTree {
    places: Places,
    order: RisingIds,
    /// Under each key the namespaces directly inside.
    children: MemberLists,
}

// Written out, and not derived: so the crates above cite this drop, and do not prove it anew.
impl Drop for SpaceTree {
    fn drop(self) {
        let SpaceTree {
            places: _,
            order: _,
            children: _,
        } = self;
    }
}

impl Model for SpaceTree {
    ghost use Rattle.ns_tree.specs.{Tree.{TreeOfSpaces}, Places.{IsSpaceTree}};

    ghost Value = { TreeOfSpaces };

    ghost view = { λ a. record { nodes = a.places.nodes; order = a.order } };

    ghost invariant = { λ a. IsSpaceTree a.places.nodes a.order a.children };
}

impl SpaceTree {
    /// The root namespace, which has the id and the key 0. The error is want of memory.
    pub fn new(alloc: Global) -> Result<Self, AllocError>
        ensures { IfOk result (λ r. (r.nodes ≡ Some (new_node 0 (0 ∷ [])) ∷ []) × (r.order ≡ (0, 0) ∷ [])) }
    {
        let mut order = RisingIds::new(alloc);
        order.push(0, 0)?;
        let mut children = MemberLists::new(alloc);
        children.grow(1)?;
        let mut path = ArrayVec::<SpaceKey, LEVELS>::new();
        path.push(0);
        let root = Place {
            id: 0,
            fallen: false,
            path,
        };
        let places = Places::new(alloc, root)?;
        Ok(SpaceTree {
            places,
            order,
            children,
        })
    }

    /// What is true of all namespaces at any time; the call does nothing. The paths are those of a tree below the
    /// root, which has the key 0, with at most 33 levels. The order has the ids of all of them, rising.
    #[inline(always)]
    pub fn laws(&self)
        ensures tree { IsPathTree (way self.now.nodes) }
        ensures some { (s : ℕ) → IsSome (node_in self.now.nodes s) → 0 < length (way self.now.nodes s) }
        ensures listed { AreListed (id_in self.now.nodes) self.now.order }
        ensures rising { AreRising self.now.order }
    {
        let _ = self.order.iter();
    }

    /// The namespaces in the order of their ids, each id with its key.
    pub fn keys(&self) -> Iter<'_>
        ensures { result ≡ self.now.order }
    {
        self.order.iter()
    }

    /// Whether an id may be that of the next namespace: it is above those of all that are there. It costs one read,
    /// and answers false too where only a namespace that is gone had one as high.
    pub fn is_next_id(&self, id: u64) -> bool
        ensures { IsTrue result → AreBelow self.now.order id }
    {
        self.order.is_above(id)
    }

    /// The key of the namespace with an id. It costs a logarithm of the namespaces.
    pub fn find(&self, id: u64) -> Option<SpaceKey>
        ensures { MatchOption result ((s : ℕ) → id_in self.now.nodes s ≢ Some id)
            (λ s. id_in self.now.nodes s ≡ Some id) }
    {
        self.order.find(id)
    }

    /// Whether there is a namespace with the key.
    #[inline(always)]
    pub fn is_there(&self, key: SpaceKey) -> bool
        ensures { result ≡ is_some (node_in self.now.nodes key) }
    {
        self.places.find(key).is_some()
    }

    /// The id of the namespace.
    #[inline(always)]
    pub fn id(&self, key: SpaceKey) -> Option<u64>
        ensures { result ≡ id_in self.now.nodes key }
    {
        match self.places.find(key) {
            Some(p) => Some(p.id),
            None => None,
        }
    }

    /// Whether the namespace is there and has fallen.
    #[inline(always)]
    pub fn is_fallen(&self, key: SpaceKey) -> bool
        ensures { result ≡ fell self.now.nodes key }
    {
        match self.places.find(key) {
            Some(p) => p.fallen,
            None => false,
        }
    }

    /// The keys of the namespace and of those around it, innermost first; none where it is not there.
    #[inline(always)]
    pub fn path_up(&self, key: SpaceKey) -> &[SpaceKey]
        ensures { result.now ≡ way self.now.nodes key }
    {
        path_of(&self.places, key)
    }

    /// How many namespaces there are on the path: 1 for the root, and 0 where the namespace is not there.
    #[inline(always)]
    pub fn levels(&self, key: SpaceKey) -> usize
        ensures value { result ≡ length (way self.now.nodes key) }
        ensures few { result ≤ deepest_space + 1 }
    {
        levels_at(&self.places, key)
    }

    /// The namespace that the one with the key is in; none for the root.
    pub fn parent(&self, key: SpaceKey) -> Option<SpaceKey>
        ensures { result ≡ if nat_lt 1 (length (way self.now.nodes key)) then Some
            (slice_index_or (way self.now.nodes key) 1 0) else None }
    {
        let path = path_of(&self.places, key);
        if path.len() > 1 { Some(path[1]) } else { None }
    }

    /// The namespaces directly inside the one with the key, one after the other, in no order that a caller may rely on.
    /// A step costs one read.
    pub fn children(&self, key: SpaceKey) -> InnerSpaces<'_>
        requires { IsSome (node_in self.now.nodes key) }
        ensures { AreInside (way self.now.nodes) key result }
    {
        self.children.members(key)
    }

    /// Whether the first namespace is the second one or inside it. It costs a few reads at any level.
    #[inline(always)]
    pub fn is_within(&self, key: SpaceKey, outer: SpaceKey) -> bool
        ensures { result ≡ contains (way self.now.nodes key) outer }
    {
        is_inside(&self.places, key, outer)
    }

    /// Adds a namespace inside the parent, and answers its key. The keys have no gap: a new one is that of a namespace
    /// that is gone, or the least that none had. The error is want of memory, and then nothing has changed.
    pub fn add(&mut self, parent: SpaceKey, id: u64) -> Result<SpaceKey, AllocError>
        requires there { IsSome (node_in self.old.nodes parent) }
        requires shallow { length (way self.old.nodes parent) ≤ deepest_space }
        requires above { AreBelow self.old.order id }
        ensures vacant { IfOk result (λ key. node_in self.old.nodes key ≡ None) }
        ensures made { IfOk result (λ key. node_in self.new.nodes key
            ≡ Some (new_node id (key ∷ way self.old.nodes parent))) }
        ensures others { IfOk result (λ key. (s : ℕ) → s ≢ key
            → node_in self.new.nodes s ≡ node_in self.old.nodes s) }
        ensures near { IfOk result (λ key. key ≤ length self.old.nodes) }
        ensures count { IfOk result (λ key. length self.new.nodes ≡ grown (length self.old.nodes) key) }
        ensures order { IfOk result (λ key. self.new.order ≡ self.old.order ++ (id, key) ∷ []) }
        ensures err { OnErr result (self.new ≡ self.old) }
    {
        let key = self.places.make_room()?;
        grow_lists(&mut self.children, key)?;
        self.order.push(id, key)?;
        let path = path_below(&self.places, key, parent);
        let space = Place {
            id,
            fallen: false,
            path,
        };
        self.places.insert_reserved(space);
        self.children.add(key, parent);
        Ok(key)
    }

    /// The namespace has fallen.
    pub fn mark_fallen(&mut self, key: SpaceKey)
        requires { IsSome (node_in self.old.nodes key) }
        ensures here { node_in self.new.nodes key ≡ option_map felled (node_in self.old.nodes key) }
        ensures others { (s : ℕ) → s ≢ key → node_in self.new.nodes s ≡ node_in self.old.nodes s }
        ensures count { length self.new.nodes ≡ length self.old.nodes }
        ensures order { self.new.order ≡ self.old.order }
    {
        self.places.mark_fallen(key);
    }

    /// The namespace and all inside it have fallen (`pid_namespaces(7)`). It costs a step for each of them.
    pub fn fell(&mut self, outer: SpaceKey)
        ensures nodes { (s : ℕ) → node_in self.new.nodes s
            ≡ option_map (felled_within outer) (node_in self.old.nodes s) }
        ensures count { length self.new.nodes ≡ length self.old.nodes }
        ensures order { self.new.order ≡ self.old.order }
    {
        if self.places.find(outer).is_some() {
            fall_within(&mut self.places, &self.children, outer);
        }
    }

    /// Drops a namespace that none is inside. Its place is vacant, and its key may be given again.
    pub fn drop_space(&mut self, key: SpaceKey)
        requires there { IsSome (node_in self.old.nodes key) }
        requires inner { key ≢ 0 }
        requires bare { (s : ℕ) → s ≢ key → contains (way self.old.nodes s) key ≡ false }
        ensures here { node_in self.new.nodes key ≡ None }
        ensures others { (s : ℕ) → s ≢ key → node_in self.new.nodes s ≡ node_in self.old.nodes s }
        ensures count { length self.new.nodes ≡ length self.old.nodes }
        ensures order { self.new.order ≡ filter (λ p. is_some (node_in self.new.nodes p.1)) self.old.order }
    {
        let space = self.places.remove(key);
        let _ = self.order.remove(space.id);
        self.children.remove(key);
    }
}
