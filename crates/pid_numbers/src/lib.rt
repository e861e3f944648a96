//! Process identifiers: their numbers on all levels of nested namespaces, and their uses.
//!
//! An identifier has a number in its own namespace and one in each namespace around it, as a process has
//! in `pid_namespaces(7)`. A task's is there as long as a task, a process group or a session uses it, and its
//! numbers are free again only then (POSIX, "Process ID Reuse"). One that nothing uses is a thread's beside the
//! first of its process (`CLONE_THREAD` in `clone(2)`), and there until [`Numbers::free_thread`].
//!
//! Namespaces and identifiers have keys, which the calls that find them answer. A key of a namespace or
//! an identifier that is gone may be given again.
#![tactic(auto)]

ghost use Rattle.std.specs.Prelude.{◌≡◌, ◌≢◌, ℕ, ◌+◌, ◌<◌, ◌≤◌, ◌^◌, length, map, Some, None, IsSome, IsTrue, IfOk};
ghost use Rattle.std.specs.Prelude.{IfErr, IfSome, OnOk, OnErr, MatchOption, option_map, find, is_none, unwrap_or};
ghost use Rattle.std.specs.Prelude.{slice_index_or, is_some, reverse, true, false, [], ◌∷◌, ◌++◌, drop, nat_lt};
ghost use Rattle.std.specs.{Prelude.{if◌then◌else◌}, List.{AllByRecursion, filter}, Option.{option_map_or}};
ghost use Rattle.{
  id_slab.specs.Ids.{key_of, AreBelow, AreRising},
  ns_tree.specs.Tree.{AreInside},
  pid_numbers.specs.Numbering.{Identifier, is_there, id_at, namespace_at, identifier_at, number_of, path_at, draw_in},
  pid_numbers.specs.Numbering.{moved, more, less, left_of, uses, is_used_as, is_thread, swept_at, new_namespace},
  pid_numbers.specs.Numbering.{new_identifier, thread_identifier, levels_of, fallen_within, taken_in, has_fallen_at},
  pid_numbers.specs.Numbering.{cursor_put, HasOwnTask, IsNextUsed, IsNextThread, IsPlanFault},
  pid_numbers.specs.{Restore.{MayFall, is_flagged, fallen_if}},
  pid_types.specs.{Bounds.{deepest_space}, Chains.{contains}, Settings.{HasGoodPidMax}},
};

mod idents;
mod levels;
mod names;
mod plan;
mod restore;
mod spaces;

use arrayvec::ArrayVec;
use cyclic_ids::CyclicIds;
use id_slab::Iter;
use idents::{Ident, Idents};
use levels::LevelNumbers;
use names::{
    count_at, has_use, has_use_at, home_of, in_use_at, is_thread, mark_numbers, number_at,
    write_levels, write_numbers_inwards,
};
pub use ns_tree::InnerSpaces;
use ns_tree::SpaceTree;
use pid_types::call::Kind;
use pid_types::keys::{IdentKey, Pid, SpaceKey};
use pid_types::plain::{DEEPEST_SPACE, LEVELS, Name};
pub use plan::PlanFault;
use restore::mark_all;
use spaces::{
    first_ids, free_numbers, give_path, look, look_in_root, next_at, next_unmarked_at, plan_at,
    plan_path, prepare_path, put_cursor, put_ids,
};
use std::alloc::{AllocError, Global};
use std::marker::Model;

/// Identifiers with their numbers and uses, and the namespaces that the numbers are of.
pub struct Numbers {
    alloc: Global,
    tree: SpaceTree,
    /// The numbers of each namespace, at its key.
    ids: Vec<CyclicIds>,
    idents: Idents,
    pid_max: u32,
}

// Written out, and not derived: so the crates above cite this drop, and do not prove it anew.
impl Drop for Numbers {
    fn drop(self) {
        let Numbers {
            alloc: _,
            tree: _,
            ids: _,
            idents: _,
            pid_max: _,
        } = self;
    }
}

impl Model for Numbers {
    ghost use Rattle.pid_numbers.specs.{Numbering.{Numbering}, Slabs.{numbering_of, IsNumberTable}};

    ghost Value = { Numbering };

    ghost view = { λ a. numbering_of a.pid_max a.tree a.ids.items a.idents };

    ghost invariant = { λ a. IsNumberTable a.pid_max a.tree a.ids.items a.idents };
}

impl Numbers {
    /// The root namespace, which has the id and the key 0, and no identifier. Each number will be below
    /// `pid_max`. The error is want of memory.
    pub fn new(alloc: Global, pid_max: u32) -> Result<Self, AllocError>
        requires { HasGoodPidMax pid_max }
        ensures pid_max { IfOk result (λ r. r.pid_max ≡ pid_max) }
        ensures root { IfOk result (λ r. namespace_at r 0 ≡ Some (new_namespace 0 (0 ∷ []))) }
        ensures others { IfOk result (λ r. (s : ℕ) → s ≢ 0 → namespace_at r s ≡ None) }
        ensures names { IfOk result (λ r. (i : ℕ) → identifier_at r i ≡ None) }
        ensures order { IfOk result (λ r. r.order ≡ (0, 0) ∷ []) }
    {
        let tree = SpaceTree::new(alloc)?;
        tree.laws();
        let mut ids = Vec::with_capacity(alloc, 1)?;
        ids.push_reserved(CyclicIds::new(alloc, pid_max));
        Ok(Numbers {
            alloc,
            tree,
            ids,
            idents: Idents::new(alloc),
            pid_max,
        })
    }

    /// Each number is below this.
    pub fn pid_max(&self) -> u32
        ensures { result ≡ self.now.pid_max }
    {
        self.pid_max
    }

    /// Where it takes its memory.
    pub fn allocator(&self) -> Global {
        self.alloc
    }

    /// The identifier that has the number in the namespace; none where the number is free. It costs one
    /// search in the namespace's tree of numbers.
    #[inline(always)]
    pub fn find(&self, space: SpaceKey, n: Pid) -> Option<IdentKey>
        ensures { MatchOption result ((i : ℕ) → number_of self.now i space ≢ Some n)
            (λ i. number_of self.now i space ≡ Some n) }
    {
        look(&self.ids, space, n)
    }

    /// The identifier that has the number in the root namespace, as [`Numbers::find`] has it.
    #[inline(always)]
    pub fn find_in_root(&self, n: Pid) -> Option<IdentKey>
        ensures { MatchOption result ((i : ℕ) → number_of self.now i 0 ≢ Some n)
            (λ i. number_of self.now i 0 ≡ Some n) }
    {
        look_in_root(&self.ids, n)
    }

    /// What is true of all identifiers and namespaces at any time; the call does nothing. No number of a
    /// namespace names two identifiers, each is above 0 and below `pid_max`, each identifier has one for
    /// each namespace from its own to the root, which has the key 0 and at which every path ends. What is in a
    /// fallen namespace has fallen, and a number in it is in use. No two namespaces have the same id, and the order
    /// has the ids of all of them, rising. No law says that something uses an identifier: one may be a thread's.
    pub fn laws(&self)
        ensures distinct { (i j s n : ℕ) → number_of self.now i s ≡ Some n → number_of self.now j s ≡ Some n → i ≡ j }
        ensures range { (i s n : ℕ) → number_of self.now i s ≡ Some n → (0 < n) × (n < self.now.pid_max) }
        ensures full { (i : ℕ) (u : Identifier) → identifier_at self.now i ≡ Some u
            → (0 < length u.numbers) × (length u.numbers ≡ length (path_at self.now u.space)) }
        ensures good { HasGoodPidMax self.now.pid_max }
        ensures root { path_at self.now 0 ≡ 0 ∷ [] }
        ensures own { (s : ℕ) → 0 < length (path_at self.now s) → slice_index_or (path_at self.now s) 0 0 ≡ s }
        ensures around { (s j : ℕ) → j < length (path_at self.now s)
            → path_at self.now (slice_index_or (path_at self.now s) j 0) ≡ drop j (path_at self.now s) }
        ensures few { (s : ℕ) → length (path_at self.now s) ≤ deepest_space + 1 }
        ensures some { (s i : ℕ) → id_at self.now s ≡ Some i → 0 < length (path_at self.now s) }
        ensures ends { (s : ℕ) → 0 < length (path_at self.now s) → contains (path_at self.now s) 0 ≡ true }
        ensures fallen { (s j : ℕ) → j < length (path_at self.now s)
            → has_fallen_at self.now (slice_index_or (path_at self.now s) j 0) ≡ true
            → has_fallen_at self.now s ≡ true }
        ensures held { (s : ℕ) → has_fallen_at self.now s ≡ true → 0 < length (taken_in self.now s) }
        ensures ids { (s t i : ℕ) → id_at self.now s ≡ Some i → id_at self.now t ≡ Some i → s ≡ t }
        ensures listed { (s i : ℕ) → id_at self.now s ≡ Some i → key_of self.now.order i ≡ Some s }
        ensures each { AllByRecursion (λ p. id_at self.now p.1 ≡ Some p.0) self.now.order }
        ensures rising { AreRising self.now.order }
    {
        self.tree.laws();
    }

    /// The namespaces in the order of their ids, each id with its key.
    pub fn keys(&self) -> Iter<'_>
        ensures { result ≡ self.now.order }
    {
        self.tree.keys()
    }

    /// Whether an id may be that of the next namespace: it is above those of all that are there. It costs one read,
    /// and answers false too where only a namespace that is gone had one as high.
    pub fn is_next_id(&self, id: u64) -> bool
        ensures { IsTrue result → AreBelow self.now.order id }
    {
        self.tree.is_next_id(id)
    }

    /// The key of the namespace with an id. It costs a logarithm of the namespaces.
    pub fn find_space(&self, id: u64) -> Option<SpaceKey>
        ensures { MatchOption result ((s : ℕ) → id_at self.now s ≢ Some id) (λ s. id_at self.now s ≡ Some id) }
    {
        self.tree.find(id)
    }

    /// The id of the namespace.
    pub fn id(&self, space: SpaceKey) -> Option<u64>
        ensures { result ≡ option_map (λ t. t.id) (namespace_at self.now space) }
    {
        self.tree.id(space)
    }

    /// Where the next draw in the namespace begins.
    pub fn cursor(&self, space: SpaceKey) -> Option<Pid>
        ensures { result ≡ option_map (λ t. t.cursor) (namespace_at self.now space) }
    {
        if !self.tree.is_there(space) {
            return None;
        }
        Some(self.ids[space as usize].cursor())
    }

    /// The next draw in the namespace begins at the number, whatever was drawn last: a table that was saved has its
    /// cursors again. It costs one write.
    pub fn put_cursor(&mut self, space: SpaceKey, cursor: Pid)
        requires { IsSome (namespace_at self.old space) }
        ensures names { self.new.names ≡ self.old.names }
        ensures order { self.new.order ≡ self.old.order }
        ensures namespaces { (s : ℕ) → namespace_at self.new s
            ≡ option_map (cursor_put space cursor s) (namespace_at self.old s) }
        ensures pid_max { self.new.pid_max ≡ self.old.pid_max }
    {
        put_cursor(&mut self.ids, space, cursor);
    }

    /// Whether the namespace is there and has fallen.
    pub fn is_fallen(&self, space: SpaceKey) -> bool
        ensures { result ≡ has_fallen_at self.now space }
    {
        self.tree.is_fallen(space)
    }

    /// How many namespaces are around the one with the key: 0 for the root.
    pub fn level(&self, space: SpaceKey) -> usize
        requires { IsSome (namespace_at self.now space) }
        ensures { result + 1 ≡ length (path_at self.now space) }
    {
        self.tree.levels(space) - 1
    }

    /// Whether the first namespace is the second one or inside it.
    pub fn is_within(&self, space: SpaceKey, outer: SpaceKey) -> bool
        ensures { result ≡ contains (path_at self.now space) outer }
    {
        self.tree.is_within(space, outer)
    }

    /// The namespace that the one with the key is in; none for the root.
    pub fn parent(&self, space: SpaceKey) -> Option<SpaceKey>
        ensures { result ≡ if nat_lt 1 (length (path_at self.now space)) then Some
            (slice_index_or (path_at self.now space) 1 0) else None }
    {
        self.tree.parent(space)
    }

    /// The namespaces directly inside the one with the key, one after the other, in no order that a caller may rely on.
    /// A step costs one read.
    pub fn inner_spaces(&self, space: SpaceKey) -> InnerSpaces<'_>
        requires { IsSome (namespace_at self.now space) }
        ensures { AreInside (path_at self.now) space result }
    {
        self.tree.children(space)
    }

    /// The namespace of the identifier.
    pub fn space_of(&self, ident: IdentKey) -> Option<SpaceKey>
        ensures { result ≡ option_map (λ u. u.space) (identifier_at self.now ident) }
    {
        home_of(&self.idents, ident)
    }

    /// The namespace of an identifier that is there. It costs one read, and no test whether it is there.
    #[inline(always)]
    pub fn space_at(&self, ident: IdentKey) -> SpaceKey
        requires { IsSome (identifier_at self.now ident) }
        ensures { option_map (λ u. u.space) (identifier_at self.now ident) ≡ Some result }
    {
        self.idents.at(ident).space
    }

    /// Whether the identifier has a use of the kind.
    pub fn has_use(&self, ident: IdentKey, kind: Kind) -> bool
        ensures { result ≡ is_used_as kind (identifier_at self.now ident) }
    {
        has_use(&self.idents, ident, kind)
    }

    /// Whether there is an identifier with the key, and it is a thread's: nothing uses it. It costs one read.
    pub fn is_thread(&self, ident: IdentKey) -> bool
        ensures { result ≡ is_thread (identifier_at self.now ident) }
    {
        is_thread(&self.idents, ident)
    }

    /// How many uses of the kind the identifier has; 0 where it is not there.
    pub fn count(&self, ident: IdentKey, kind: Kind) -> u64
        ensures { result ≡ option_map_or (uses kind) (identifier_at self.now ident) 0 }
    {
        count_at(&self.idents, ident, kind)
    }

    /// The identifier's number in the namespace; none where it is not visible there. It costs a few
    /// reads at any level.
    #[inline(always)]
    pub fn number_in(&self, ident: IdentKey, space: SpaceKey) -> Option<Pid>
        ensures { result ≡ number_of self.now ident space }
    {
        let own = home_of(&self.idents, ident)?;
        // Most identifiers are asked for in their own namespace.
        if own == space {
            return Some(self.own_number(ident));
        }
        if !self.tree.is_within(own, space) {
            return None;
        }
        let place = self.tree.levels(own) - self.tree.levels(space);
        number_at(&self.idents, ident, place)
    }

    /// The number of an identifier that is there in its own namespace: `getpid(2)`. It costs one read, and no test
    /// whether it is there.
    #[inline(always)]
    pub fn own_number(&self, ident: IdentKey) -> Pid
        requires { IsSome (identifier_at self.now ident) }
        ensures { IfSome (identifier_at self.now ident) (λ u. number_of self.now ident u.space ≡ Some result) }
    {
        self.idents.at(ident).numbers.first()
    }

    /// Writes the identifier's numbers over the first ones of the room, from the namespace inwards, the one there
    /// first: `NSpid` of `proc_pid_status(5)`. It answers how many: none where the identifier is not visible in the
    /// namespace.
    #[inline(always)]
    pub fn write_levels_from(
        &self,
        ident: IdentKey,
        space: SpaceKey,
        room: &mut [Pid; LEVELS],
    ) -> usize
        ensures count { result ≡ length (levels_of self.now ident space) }
        ensures numbers { room.new ≡ levels_of self.now ident space ++ drop result room.old }
    {
        let Some(own) = home_of(&self.idents, ident) else {
            return 0;
        };
        // Most identifiers are asked for in their own namespace, from which on they have one number.
        if own == space {
            write_levels(&self.idents, ident, 1, room);
            return 1;
        }
        if !self.tree.is_within(own, space) {
            return 0;
        }
        let count = self.tree.levels(own) - self.tree.levels(space) + 1;
        write_levels(&self.idents, ident, count, room);
        count
    }

    /// Writes the identifier's name over another: the id of its namespace, and its numbers, the root's first. It costs
    /// a few reads and a step for each level.
    #[inline(always)]
    pub fn write_name(&self, ident: IdentKey, name: &mut Name)
        requires { IsSome (identifier_at self.now ident) }
        ensures space { IfSome (identifier_at self.now ident) (λ u. id_at self.now u.space ≡ Some name.new.space) }
        ensures numbers { IfSome (identifier_at self.now ident) (λ u. name.new.numbers.items ≡ reverse u.numbers) }
    {
        let Some(own) = home_of(&self.idents, ident) else {
            unreachable!()
        };
        let Some(space) = self.tree.id(own) else {
            unreachable!()
        };
        name.space = space;
        let levels = self.tree.levels(own);
        write_numbers_inwards(&self.idents, ident, levels, &mut name.numbers);
    }

    /// The least number at or above `from` whose identifier has a use of the kind, in the namespace. It
    /// costs one search in the namespace's tree of numbers.
    #[inline(always)]
    pub fn next_used(&self, space: SpaceKey, kind: Kind, from: Pid) -> Option<Pid>
        ensures { IsNextUsed self.now kind space from result }
    {
        next_at(&self.ids, space, kind, from)
    }

    /// The least number at or above `from` that is a thread's in the namespace; none where that is not there. It costs
    /// one search in the namespace's tree of numbers for each 64 numbers in use that it passes.
    #[inline(always)]
    pub fn next_thread(&self, space: SpaceKey, from: Pid) -> Option<Pid>
        ensures { IsNextThread self.now space from result }
    {
        next_unmarked_at(&self.ids, space, from)
    }

    /// Writes the numbers that the namespace and those around it give next over others, innermost first, or
    /// answers the first namespace that has none to give. It costs one or two searches for each level.
    #[inline(always)]
    pub fn plan_into(
        &self,
        space: SpaceKey,
        numbers: &mut ArrayVec<Pid, LEVELS>,
    ) -> Result<(), SpaceKey>
        ensures ok { OnOk result ((find (λ s. is_none (draw_in self.now s)) (path_at self.now space) ≡ None)
            × (numbers.new.items ≡ map (λ s. unwrap_or (draw_in self.now s) 0) (path_at self.now space))) }
        ensures err { IfErr result (λ s. find (λ s. is_none (draw_in self.now s)) (path_at self.now space) ≡ Some s) }
    {
        numbers.clear();
        plan_path(&self.ids, self.tree.path_up(space), numbers)
    }

    /// The numbers of [`plan_into`](Numbers::plan_into) in a list of their own, of 33 places.
    pub fn plan(&self, space: SpaceKey) -> Result<ArrayVec<Pid, LEVELS>, SpaceKey>
        ensures ok { IfOk result (λ numbers. (find (λ s. is_none (draw_in self.now s)) (path_at self.now space) ≡ None)
            × (numbers.items ≡ map (λ s. unwrap_or (draw_in self.now s) 0) (path_at self.now space))) }
        ensures err { IfErr result (λ s. find (λ s. is_none (draw_in self.now s)) (path_at self.now space) ≡ Some s) }
    {
        let mut numbers = ArrayVec::new();
        match self.plan_into(space, &mut numbers) {
            Ok(()) => Ok(numbers),
            Err(full) => Err(full),
        }
    }

    /// The number that the namespace gives next; none where it has none to give, or is not there. It costs one or two
    /// searches.
    #[inline(always)]
    pub fn plan_one(&self, space: SpaceKey) -> Option<Pid>
        ensures { result ≡ draw_in self.now space }
    {
        if !self.tree.is_there(space) {
            return None;
        }
        plan_at(&self.ids, space)
    }

    /// The key that the next identifier will have, which is below 2^30. It takes no memory: [`draw`](Numbers::draw) and
    /// [`draw_new`](Numbers::draw_new) do. The error is that there are 2^30 identifiers.
    #[inline(always)]
    pub fn next_key(&self) -> Result<IdentKey, AllocError>
        ensures ok { IfOk result (λ key. (key ≡ self.now.next) × (key < 2 ^ 30)) }
        ensures err { OnErr result (2 ^ 30 ≤ self.now.next) }
    {
        self.idents.next_key()
    }

    /// Gives the planned numbers to a new identifier, which one task uses, and answers its key. The
    /// error is want of memory, and then nothing has changed.
    #[inline(always)]
    pub fn draw(&mut self, space: SpaceKey, numbers: &[Pid]) -> Result<IdentKey, AllocError>
        requires there { IsSome (namespace_at self.old space) }
        requires all { find (λ s. is_none (draw_in self.old s)) (path_at self.old space) ≡ None }
        requires planned { numbers.now ≡ map (λ s. unwrap_or (draw_in self.old s) 0) (path_at self.old space) }
        ensures key { IfOk result (λ i. i ≡ self.old.next) }
        ensures fresh { IfOk result (λ i. identifier_at self.old i ≡ None) }
        ensures named { IfOk result (λ i. identifier_at self.new i ≡ Some (new_identifier space numbers.now)) }
        ensures others { IfOk result (λ i. (j : ℕ) → j ≢ i → identifier_at self.new j ≡ identifier_at self.old j) }
        ensures namespaces { OnOk result ((s : ℕ)
            → namespace_at self.new s ≡ option_map (moved (path_at self.old space) numbers.now s)
            (namespace_at self.old s)) }
        ensures order { self.new.order ≡ self.old.order }
        ensures err { OnErr result (self.new ≡ self.old) }
        ensures pid_max { self.new.pid_max ≡ self.old.pid_max }
    {
        self.draw_for(space, numbers, 1)
    }

    /// Gives the planned numbers to a new identifier of a thread, which nothing uses, and answers its key. The
    /// error is want of memory, and then nothing has changed. It costs what [`draw`](Numbers::draw) does.
    #[inline(always)]
    pub fn draw_thread(&mut self, space: SpaceKey, numbers: &[Pid]) -> Result<IdentKey, AllocError>
        requires there { IsSome (namespace_at self.old space) }
        requires all { find (λ s. is_none (draw_in self.old s)) (path_at self.old space) ≡ None }
        requires planned { numbers.now ≡ map (λ s. unwrap_or (draw_in self.old s) 0) (path_at self.old space) }
        ensures key { IfOk result (λ i. i ≡ self.old.next) }
        ensures fresh { IfOk result (λ i. identifier_at self.old i ≡ None) }
        ensures named { IfOk result (λ i. identifier_at self.new i ≡ Some (thread_identifier space numbers.now)) }
        ensures others { IfOk result (λ i. (j : ℕ) → j ≢ i → identifier_at self.new j ≡ identifier_at self.old j) }
        ensures namespaces { OnOk result ((s : ℕ)
            → namespace_at self.new s ≡ option_map (moved (path_at self.old space) numbers.now s)
            (namespace_at self.old s)) }
        ensures order { self.new.order ≡ self.old.order }
        ensures err { OnErr result (self.new ≡ self.old) }
        ensures pid_max { self.new.pid_max ≡ self.old.pid_max }
    {
        self.draw_for(space, numbers, 0)
    }

    /// Gives the planned numbers to a new identifier, which so many tasks use: none where it is a thread's.
    #[inline(always)]
    fn draw_for(
        &mut self,
        space: SpaceKey,
        numbers: &[Pid],
        tasks: u32,
    ) -> Result<IdentKey, AllocError>
        requires there { IsSome (namespace_at self.old space) }
        requires all { find (λ s. is_none (draw_in self.old s)) (path_at self.old space) ≡ None }
        requires planned { numbers.now ≡ map (λ s. unwrap_or (draw_in self.old s) 0) (path_at self.old space) }
        ensures key { IfOk result (λ i. i ≡ self.old.next) }
        ensures fresh { IfOk result (λ i. identifier_at self.old i ≡ None) }
        ensures named { IfOk result (λ i. identifier_at self.new i
            ≡ Some (record (new_identifier space numbers.now) { tasks = tasks })) }
        ensures others { IfOk result (λ i. (j : ℕ) → j ≢ i → identifier_at self.new j ≡ identifier_at self.old j) }
        ensures namespaces { OnOk result ((s : ℕ)
            → namespace_at self.new s ≡ option_map (moved (path_at self.old space) numbers.now s)
            (namespace_at self.old s)) }
        ensures order { self.new.order ≡ self.old.order }
        ensures err { OnErr result (self.new ≡ self.old) }
        ensures pid_max { self.new.pid_max ≡ self.old.pid_max }
    {
        let key = self.idents.make_room()?;
        let stored = LevelNumbers::from(self.alloc, numbers)?;
        let path = self.tree.path_up(space);
        prepare_path(&mut self.ids, path, numbers)?;
        give_path(&mut self.ids, path, numbers, key, tasks != 0);
        self.idents.insert_reserved(Ident {
            numbers: stored,
            space,
            tasks,
            groups: 0,
            sessions: 0,
        });
        Ok(key)
    }

    /// Writes the numbers that a new namespace inside the parent and those around it give next over others, innermost
    /// first: 1 in the new one. Or it answers the first namespace that has none to give. It costs one or two searches
    /// for each level.
    #[inline(always)]
    pub fn plan_new_into(
        &self,
        parent: SpaceKey,
        numbers: &mut ArrayVec<Pid, LEVELS>,
    ) -> Result<(), SpaceKey>
        requires shallow { length (path_at self.now parent) ≤ deepest_space }
        ensures ok { OnOk result ((find (λ s. is_none (draw_in self.now s)) (path_at self.now parent) ≡ None)
            × (numbers.new.items ≡ 1 ∷ map (λ s. unwrap_or (draw_in self.now s) 0) (path_at self.now parent))) }
        ensures err { IfErr result (λ s. find (λ s. is_none (draw_in self.now s)) (path_at self.now parent) ≡ Some s) }
    {
        numbers.clear();
        numbers.push(1);
        plan_path(&self.ids, self.tree.path_up(parent), numbers)
    }

    /// The numbers of [`plan_new_into`](Numbers::plan_new_into) in a list of their own, of 33 places, at any depth.
    ///
    /// The error is that the parent has the deepest level, 32 (`pid_namespaces(7)`, "Nesting PID
    /// namespaces"), or else the first namespace that has no number to give.
    pub fn plan_new(&self, parent: SpaceKey) -> Result<ArrayVec<Pid, LEVELS>, PlanFault>
        ensures ok { IfOk result (λ numbers. (length (path_at self.now parent) ≤ deepest_space)
            × (find (λ s. is_none (draw_in self.now s)) (path_at self.now parent) ≡ None)
            × (numbers.items ≡ 1 ∷ map (λ s. unwrap_or (draw_in self.now s) 0) (path_at self.now parent))) }
        ensures err { IfErr result (λ fault. IsPlanFault self.now parent fault) }
    {
        if self.tree.levels(parent) > DEEPEST_SPACE {
            return Err(PlanFault::TooDeep);
        }
        let mut numbers = ArrayVec::new();
        match self.plan_new_into(parent, &mut numbers) {
            Ok(()) => Ok(numbers),
            Err(space) => Err(PlanFault::NoNumber(space)),
        }
    }

    /// Makes a namespace inside the parent, whose first identifier has number 1 there and the planned
    /// numbers around it, and answers the keys of the identifier and of the namespace. The error is
    /// want of memory, and then nothing has changed.
    pub fn draw_new(
        &mut self,
        parent: SpaceKey,
        id: u64,
        numbers: &[Pid],
    ) -> Result<(IdentKey, SpaceKey), AllocError>
        requires stands { option_map_or (λ t. t.fallen) (namespace_at self.old parent) true ≡ false }
        requires shallow { length (path_at self.old parent) ≤ deepest_space }
        requires above { AreBelow self.old.order id }
        requires all { find (λ s. is_none (draw_in self.old s)) (path_at self.old parent) ≡ None }
        requires planned { numbers.now ≡ 1 ∷ map (λ s. unwrap_or (draw_in self.old s) 0) (path_at self.old parent) }
        ensures key { IfOk result (λ keys. keys.0 ≡ self.old.next) }
        ensures fresh { IfOk result (λ keys. (identifier_at self.old keys.0 ≡ None)
            × (namespace_at self.old keys.1 ≡ None)) }
        ensures named { IfOk result (λ keys. identifier_at self.new keys.0 ≡ Some (new_identifier keys.1 numbers.now)) }
        ensures made { IfOk result (λ keys. namespace_at self.new keys.1
            ≡ Some (record (new_namespace id (keys.1 ∷ path_at self.old parent)) { cursor = 2 })) }
        ensures others { IfOk result (λ keys. (j : ℕ) → j ≢ keys.0
            → identifier_at self.new j ≡ identifier_at self.old j) }
        ensures namespaces { IfOk result (λ keys. (s : ℕ) → s ≢ keys.1
            → namespace_at self.new s ≡ option_map (moved (path_at self.old parent) (drop 1 numbers.now) s)
            (namespace_at self.old s)) }
        ensures order { IfOk result (λ keys. self.new.order ≡ self.old.order ++ (id, keys.1) ∷ []) }
        ensures err { OnErr result (self.new ≡ self.old) }
        ensures pid_max { self.new.pid_max ≡ self.old.pid_max }
    {
        let ident = self.idents.make_room()?;
        let stored = LevelNumbers::from(self.alloc, numbers)?;
        let ids = first_ids(self.alloc, self.pid_max, ident)?;
        let around = &numbers[1..];
        prepare_path(&mut self.ids, self.tree.path_up(parent), around)?;
        self.ids.try_reserve(1)?;
        let key = self.tree.add(parent, id)?;
        self.tree.laws();
        put_ids(&mut self.ids, key, ids);
        give_path(
            &mut self.ids,
            self.tree.path_up(parent),
            around,
            ident,
            true,
        );
        self.idents.insert_reserved(Ident {
            numbers: stored,
            space: key,
            tasks: 1,
            groups: 0,
            sessions: 0,
        });
        Ok((ident, key))
    }

    /// Makes a namespace inside the parent, in which no number is in use and none was drawn: a saved table has its
    /// namespaces again. The error is want of memory, and then nothing has changed.
    pub fn add_space(&mut self, parent: SpaceKey, id: u64) -> Result<SpaceKey, AllocError>
        requires stands { option_map_or (λ t. t.fallen) (namespace_at self.old parent) true ≡ false }
        requires shallow { length (path_at self.old parent) ≤ deepest_space }
        requires above { AreBelow self.old.order id }
        ensures fresh { IfOk result (λ key. namespace_at self.old key ≡ None) }
        ensures made { IfOk result (λ key. namespace_at self.new key
            ≡ Some (new_namespace id (key ∷ path_at self.old parent))) }
        ensures others { IfOk result (λ key. (s : ℕ) → s ≢ key → namespace_at self.new s ≡ namespace_at self.old s) }
        ensures order { IfOk result (λ key. self.new.order ≡ self.old.order ++ (id, key) ∷ []) }
        ensures names { self.new.names ≡ self.old.names }
        ensures next { self.new.next ≡ self.old.next }
        ensures pid_max { self.new.pid_max ≡ self.old.pid_max }
        ensures err { OnErr result (self.new ≡ self.old) }
    {
        let ids = CyclicIds::new(self.alloc, self.pid_max);
        self.ids.try_reserve(1)?;
        let key = self.tree.add(parent, id)?;
        self.tree.laws();
        put_ids(&mut self.ids, key, ids);
        Ok(key)
    }

    /// The namespaces with a flag have fallen, all at once: a saved table has its fallen namespaces again. It costs a
    /// step for each flag.
    pub fn set_fallen(&mut self, flags: &[bool])
        requires may { MayFall self.old flags.now }
        requires few { length flags.now ≤ 2 ^ 32 }
        ensures names { self.new.names ≡ self.old.names }
        ensures namespaces { (s : ℕ) → namespace_at self.new s
            ≡ option_map (fallen_if (is_flagged flags.now s)) (namespace_at self.old s) }
        ensures order { self.new.order ≡ self.old.order }
        ensures next { self.new.next ≡ self.old.next }
        ensures pid_max { self.new.pid_max ≡ self.old.pid_max }
    {
        mark_all(&mut self.tree, flags);
        self.tree.laws();
    }

    /// The namespace and all inside it have fallen (`pid_namespaces(7)`). It costs a step for each of them.
    pub fn fell(&mut self, space: SpaceKey)
        requires inner { space ≢ 0 }
        requires homes { (s : ℕ) → contains (path_at self.old s) space ≡ true → has_fallen_at self.old s ≡ false
            → HasOwnTask (identifier_at self.old) s }
        ensures names { self.new.names ≡ self.old.names }
        ensures namespaces { (s : ℕ) → namespace_at self.new s
            ≡ option_map (fallen_within space) (namespace_at self.old s) }
        ensures order { self.new.order ≡ self.old.order }
        ensures pid_max { self.new.pid_max ≡ self.old.pid_max }
    {
        self.tree.fell(space);
        self.tree.laws();
    }

    /// One use more. The first of its kind costs a step for each level.
    #[inline(always)]
    pub fn add_use(&mut self, ident: IdentKey, kind: Kind)
        requires there { IsSome (identifier_at self.old ident) }
        requires few { IfSome (identifier_at self.old ident) (λ u. uses kind u + 1 < 2 ^ 32) }
        ensures here { (u : Identifier) → identifier_at self.old ident ≡ Some u
            → identifier_at self.new ident ≡ Some (more kind u) }
        ensures others { (j : ℕ) → j ≢ ident → identifier_at self.new j ≡ identifier_at self.old j }
        ensures namespaces { self.new.namespaces ≡ self.old.namespaces }
        ensures order { self.new.order ≡ self.old.order }
        ensures pid_max { self.new.pid_max ≡ self.old.pid_max }
    {
        let had = has_use_at(&self.idents, ident, kind);
        self.idents.more_use(ident, kind);
        if had {
            return;
        }
        mark_numbers(&self.tree, &mut self.ids, &self.idents, ident, kind, true);
    }

    /// One use less. With the last use the identifier goes, and its numbers are free; a namespace that
    /// has fallen goes with the last number in it, as the kernel frees a namespace with its last process
    /// (`namespaces(7)`, "Namespace lifetime"). The last use of a kind costs a step for each level.
    #[inline(always)]
    pub fn drop_use(&mut self, ident: IdentKey, kind: Kind)
        requires { is_used_as kind (identifier_at self.old ident) ≡ true }
        ensures here { (u : Identifier) → identifier_at self.old ident ≡ Some u
            → identifier_at self.new ident ≡ left_of (less kind u) }
        ensures others { (j : ℕ) → j ≢ ident → identifier_at self.new j ≡ identifier_at self.old j }
        ensures namespaces { (s : ℕ) → namespace_at self.new s
            ≡ swept_at (record self.old { names = self.new.names }) s }
        ensures order { self.new.order ≡ filter (λ p. is_there self.new p.1) self.old.order }
        ensures pid_max { self.new.pid_max ≡ self.old.pid_max }
    {
        self.idents.less_use(ident, kind);
        if has_use_at(&self.idents, ident, kind) {
            return;
        }
        if in_use_at(&self.idents, ident) {
            mark_numbers(&self.tree, &mut self.ids, &self.idents, ident, kind, false);
            return;
        }
        let gone = self.idents.remove(ident);
        free_numbers(
            &mut self.tree,
            &mut self.ids,
            gone.space,
            gone.numbers.as_slice(),
        );
    }

    /// A thread's identifier goes, and its numbers are free, as with the last use in [`drop_use`](Numbers::drop_use).
    /// It costs a step for each level.
    #[inline(always)]
    pub fn free_thread(&mut self, ident: IdentKey)
        requires { is_thread (identifier_at self.old ident) ≡ true }
        ensures here { identifier_at self.new ident ≡ None }
        ensures others { (j : ℕ) → j ≢ ident → identifier_at self.new j ≡ identifier_at self.old j }
        ensures namespaces { (s : ℕ) → namespace_at self.new s
            ≡ swept_at (record self.old { names = self.new.names }) s }
        ensures order { self.new.order ≡ filter (λ p. is_there self.new p.1) self.old.order }
        ensures pid_max { self.new.pid_max ≡ self.old.pid_max }
    {
        let gone = self.idents.remove(ident);
        free_numbers(
            &mut self.tree,
            &mut self.ids,
            gone.space,
            gone.numbers.as_slice(),
        );
    }
}
