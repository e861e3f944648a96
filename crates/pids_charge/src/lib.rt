//! Control groups of the pids controller, each with a running count of the tasks in it and below it:
//! `pids.max` and `pids.current` of the kernel's cgroup-v2 document.
//!
//! Groups are named by keys, which `find` and `make` answer. A removed group's key stays as long as zombies
//! were in it, so that none of them is told of the removal: they count for the parent from then on.
#![tactic(auto)]

ghost use Rattle.std.specs.Prelude.{◌≡◌, ◌≢◌, ℕ, ◌+◌, ◌-◌, ◌<◌, ◌≤◌, ◌^◌, ◌==◌, ◌↔◌, not, true, false, [], ◌∷◌, ◌++◌};
ghost use Rattle.std.specs.Prelude.{length, map, filter, option_map, option_and_then, Some, None, IsSome, MatchOption};
ghost use Rattle.std.specs.{Prelude.{OnOk, OnErr, IfOk, IfSome, Err, nat_lt}, Result.{result_err}};
ghost use Rattle.std.specs.List.{AllByRecursion};
ghost use Rattle.{
  member_lists.specs.Owners.{HasMoreRoom},
  pid_types.specs.{Bounds.{deepest_control}, Controls.{control_at, parent_control, control_path}, Changes.{limited}},
  pids_charge.specs.{declared.ControlFault.{ControlFault}, Charges.{Home, home_at, stands, home_id, live_at}},
  pids_charge.specs.Charges.{zombies_at, tasks_of, charged_count, all_tasks, control_limit, charge_refusal},
  pids_charge.specs.Charges.{remove_refusal, limit_refusal, kept, handed_on, after_move, ChangesHome, AreControlsIn},
};

mod counter;
mod limits;
mod node;
mod room;
mod standing;
mod tasks;
mod walk;

use counter::Counter;
use id_slab::{Iter, RisingIds};
use limits::{full_above, is_too_high};
use member_lists::MemberLists;
pub use member_lists::Members as InnerControls;
use node::{Node, node_at, set_node};
use pid_types::keys::ControlKey;
use pid_types::reply::Refusal;
use room::make_room;
use slab::Slab;
use standing::standing_from;
use std::alloc::{AllocError, Global};
use std::marker::Model;
use tasks::{drop_empty, end_live, move_live, put_live, take_zombie};
use thiserror::Error;

/// The level of the deepest control groups.
const DEEPEST_CONTROL: u32 = 64;

/// Why a control group cannot be made.
#[derive(Clone, Copy, Debug, PartialEq, Eq, Hash, Error)]
pub enum ControlFault {
    /// The control group above has level 64, the deepest.
    #[error("too deep")]
    ControlDepth,
    /// There was no memory for it.
    #[error("no memory")]
    NoMemory,
}

impl From<AllocError> for ControlFault {
    ghost use Rattle.std.specs.Prelude.{◌≡◌};
    ghost use Rattle.pids_charge.specs.declared.ControlFault.TheVariants.{NoMemory};

    ghost from_gives = { λ _ fault. fault ≡ NoMemory };

    fn from(_refused: AllocError) -> ControlFault {
        ControlFault::NoMemory
    }
}

/// Control groups, and how many tasks each has.
///
/// `find` and `remove` cost a logarithm of the groups. A task that comes or goes costs a step for each group
/// from its own to the root, 65 at most. All else costs a few reads. Only `new` and `make` take memory: some
/// 120 bytes for each group.
pub struct Controls {
    nodes: Slab<Node>,
    counters: Vec<Counter>,
    children: MemberLists,
    ids: RisingIds,
}

// Written out, and not derived: so the crates above cite this drop, and do not prove it anew.
impl Drop for Controls {
    fn drop(self) {
        let Controls {
            nodes: _,
            counters: _,
            children: _,
            ids: _,
        } = self;
    }
}

impl Model for Controls {
    ghost use Rattle.pids_charge.specs.Charges.{Charges};

    ghost Value = { Charges };

    ghost use Rattle.pids_charge.specs.Kept.{charges_of, IsChargeTree};

    ghost view = { λ a. charges_of a.nodes a.ids };

    ghost invariant = { λ a. IsChargeTree a.nodes a.counters.items a.children a.ids };
}

impl Controls {
    /// The root control group alone, whose id is 0. The error is want of memory.
    pub fn new(alloc: Global) -> Result<Self, AllocError>
        ensures controls { IfOk result (λ v. v.controls ≡ record { id = 0; parent = None; limit = None } ∷ []) }
        ensures tasks { IfOk result (λ v. (k : ℕ) → tasks_of (home_at v k) ≡ 0) }
        ensures none { IfOk result (λ v. all_tasks v ≡ 0) }
        ensures key { IfOk result (λ v. (k : ℕ) → stands v k ≡ true → k ≡ 0) }
    {
        let mut nodes = Slab::new(alloc);
        let mut counters = Vec::new(alloc);
        let mut children = MemberLists::new(alloc);
        let mut ids = RisingIds::new(alloc);
        counters.push(Counter::new(None))?;
        children.grow(1)?;
        ids.push(0, 0)?;
        nodes.insert(Node::new(0, None, 0))?;
        Ok(Controls {
            nodes,
            counters,
            children,
            ids,
        })
    }

    /// A new control group without a limit below another one, whose id is the stamp. Its key gets room among the owners
    /// of the residents, whom the table lists. `ControlDepth` comes where the other one has level 64, `NoMemory` where
    /// there is no memory or no key is left below 2^30; then nothing has changed but that room.
    pub fn make(
        &mut self,
        parent: ControlKey,
        stamp: u64,
        residents: &mut MemberLists,
    ) -> Result<ControlKey, ControlFault>
        requires stands { stands self.old parent ≡ true }
        requires above { AllByRecursion (λ g. g.id < stamp) self.old.controls }
        ensures residents { HasMoreRoom residents.old residents.new }
        ensures room { IfOk result (λ key. key < length residents.new) }
        ensures controls { OnOk result (self.new.controls
            ≡ self.old.controls ++ record { id = stamp; parent = Some (home_id self.old parent); limit = None } ∷ []) }
        ensures fresh { IfOk result (λ key. home_at self.old key ≡ None) }
        ensures here { IfOk result (λ key. home_at self.new key
            ≡ Some (record { id = stamp; stands = true; live = 0; zombies = 0 })) }
        ensures others { IfOk result (λ key. (k : ℕ) → k ≢ key → home_at self.new k ≡ home_at self.old k) }
        ensures tasks { OnOk result (all_tasks self.new ≡ all_tasks self.old) }
        ensures deep { (result ≡ Err ControlFault.ControlDepth)
            ↔ (deepest_control < length (control_path self.old.controls (home_id self.old parent))) }
        ensures err { OnErr result (self.new ≡ self.old) }
    {
        if self.is_deepest(parent) {
            return Err(ControlFault::ControlDepth);
        }
        let level = node_at(&self.nodes, parent).level + 1;
        let key = make_room(
            &mut self.nodes,
            &mut self.counters,
            &mut self.children,
            residents,
        )?;
        self.ids.push(stamp, key)?;
        self.nodes
            .insert_reserved(Node::new(stamp, Some(parent), level));
        self.counters[key as usize] = Counter::new(Some(parent));
        self.children.add(key, parent);
        Ok(key)
    }

    /// Whether the control group has level 64, so that none can be made below it. One read.
    pub fn is_deepest(&self, c: ControlKey) -> bool
        requires { stands self.now c ≡ true }
        ensures { result ≡ nat_lt deepest_control (length (control_path self.now.controls (home_id self.now c))) }
    {
        let node = node_at(&self.nodes, c);
        node.level >= DEEPEST_CONTROL
    }

    /// Whether a control group may be removed: `RootControl`, and then `ControlBusy` where a control group or a live
    /// task is directly in it. A few reads.
    pub fn may_remove(&self, c: ControlKey) -> Result<(), Refusal>
        requires { stands self.now c ≡ true }
        ensures { result_err result ≡ remove_refusal self.now c }
    {
        let node = node_at(&self.nodes, c);
        if node.parent.is_none() {
            return Err(Refusal::RootControl);
        }
        if node.live > 0 {
            return Err(Refusal::ControlBusy);
        }
        if self.children.first(c).is_some() {
            return Err(Refusal::ControlBusy);
        }
        Ok(())
    }

    /// Removes a control group: `rmdir(2)`. The refusals are `RootControl`, and then `ControlBusy` where a
    /// control group or a live task is directly in it. Its zombies go to the parent, and none
    /// of them is looked at: the cost is that of the look-up of an id.
    pub fn remove(&mut self, c: ControlKey) -> Result<(), Refusal>
        requires { stands self.old c ≡ true }
        ensures refusal { result_err result ≡ remove_refusal self.old c }
        ensures controls { OnOk result (self.new.controls
            ≡ filter (λ g. not (g.id == home_id self.old c)) self.old.controls) }
        ensures homes { OnOk result ((parent : ℕ) → parent_control self.old.controls (home_id self.old c) ≡ Some parent
            → (k : ℕ) → home_at self.new k ≡ option_and_then (handed_on (home_id self.old c) parent)
            (home_at self.old k)) }
        ensures tasks { all_tasks self.new ≡ all_tasks self.old }
        ensures err { OnErr result (self.new ≡ self.old) }
    {
        let node = node_at(&self.nodes, c);
        if node.parent.is_none() {
            return Err(Refusal::RootControl);
        }
        if node.live > 0 {
            return Err(Refusal::ControlBusy);
        }
        if self.children.first(c).is_some() {
            return Err(Refusal::ControlBusy);
        }
        self.ids.remove(node.id);
        self.children.remove(c);
        let standing = false;
        set_node(&mut self.nodes, c, Node { standing, ..node });
        drop_empty(&mut self.nodes, &self.counters, c);
        Ok(())
    }

    /// Whether a control group may have the limit: `RootControl`, and then `BadLimit` for one above 4194304. One read.
    pub fn may_limit(&self, c: ControlKey, limit: Option<u32>) -> Result<(), Refusal>
        requires { stands self.now c ≡ true }
        ensures { result_err result ≡ limit_refusal self.now c limit }
    {
        let node = node_at(&self.nodes, c);
        if node.parent.is_none() {
            return Err(Refusal::RootControl);
        }
        if is_too_high(limit) {
            return Err(Refusal::BadLimit);
        }
        Ok(())
    }

    /// Sets the limit of a control group, at most 4194304, or takes it away: a write to `pids.max`. The
    /// refusals are `RootControl`, and then `BadLimit`. A limit below the count is no fault.
    pub fn set_limit(&mut self, c: ControlKey, limit: Option<u32>) -> Result<(), Refusal>
        requires { stands self.old c ≡ true }
        ensures refusal { result_err result ≡ limit_refusal self.old c limit }
        ensures controls { OnOk result
            (self.new.controls ≡ map (limited (home_id self.old c) limit) self.old.controls) }
        ensures homes { (k : ℕ) → home_at self.new k ≡ home_at self.old k }
        ensures tasks { all_tasks self.new ≡ all_tasks self.old }
        ensures err { OnErr result (self.new ≡ self.old) }
    {
        self.may_limit(c, limit)?;
        let node = node_at(&self.nodes, c);
        set_node(&mut self.nodes, c, Node { limit, ..node });
        self.counters[c as usize].limit = limit;
        Ok(())
    }

    /// Whether one task more may come to a control group: `PidsLimit` with the id of the nearest one, from it
    /// to the root, whose count would be above its limit. A walk of at most 65 steps.
    pub fn may_charge(&self, home: ControlKey) -> Result<(), Refusal>
        requires { stands self.now home ≡ true }
        ensures { result_err result ≡ charge_refusal self.now (home_id self.now home) }
    {
        match full_above(&self.nodes, self.counters.as_slice(), home) {
            Some(key) => Err(Refusal::PidsLimit(node_at(&self.nodes, key).id)),
            None => Ok(()),
        }
    }

    /// The control groups in the order of their ids, each id with its key.
    pub fn keys(&self) -> Iter<'_>
        ensures ids { map (λ p. p.0) result ≡ map (λ g. g.id) self.now.controls }
        ensures keys { AllByRecursion (λ p. (stands self.now p.1 ≡ true) × (home_id self.now p.1 ≡ p.0)) result }
    {
        self.ids.iter()
    }

    /// The key of the control group with an id.
    pub fn find(&self, id: u64) -> Option<ControlKey>
        ensures there { MatchOption result (control_at self.now.controls id ≡ None)
            (λ c. IsSome (control_at self.now.controls id)) }
        ensures stands { IfSome result (λ c. stands self.now c ≡ true) }
        ensures id { IfSome result (λ c. home_id self.now c ≡ id) }
        ensures only { IfSome result (λ c. (k : ℕ) → stands self.now k ≡ true → home_id self.now k ≡ id → k ≡ c) }
    {
        self.ids.find(id)
    }

    /// The id of a control group.
    pub fn id(&self, c: ControlKey) -> u64
        requires { stands self.now c ≡ true }
        ensures { result ≡ home_id self.now c }
    {
        node_at(&self.nodes, c).id
    }

    /// The id of the control group that the tasks of a key are in: its own, or that of the nearest above that
    /// was not removed. It costs a step for each that was, up to there.
    pub fn home_id(&self, home: ControlKey) -> u64
        requires { IsSome (home_at self.now home) }
        ensures { result ≡ home_id self.now home }
    {
        node_at(&self.nodes, standing_from(&self.nodes, home)).id
    }

    /// The key of the control group that a control group is in; none of the root's.
    pub fn parent(&self, c: ControlKey) -> Option<ControlKey>
        requires { stands self.now c ≡ true }
        ensures id { option_map (home_id self.now) result ≡ parent_control self.now.controls (home_id self.now c) }
        ensures stands { IfSome result (λ p. stands self.now p ≡ true) }
    {
        node_at(&self.nodes, c).parent
    }

    /// The control groups directly in a control group, one after the other, in no order that a caller may rely on. A
    /// step costs one read.
    pub fn children(&self, c: ControlKey) -> InnerControls<'_>
        requires { stands self.now c ≡ true }
        ensures { AreControlsIn self.now c result }
    {
        self.children.members(c)
    }

    /// The limit of a control group: `pids.max`.
    pub fn limit(&self, c: ControlKey) -> Option<u32>
        requires { stands self.now c ≡ true }
        ensures { result ≡ control_limit self.now (home_id self.now c) }
    {
        node_at(&self.nodes, c).limit
    }

    /// How many tasks a control group and those below it have, zombies among them: `pids.current`. One read.
    pub fn count(&self, c: ControlKey) -> u64
        requires { stands self.now c ≡ true }
        ensures { result ≡ charged_count self.now (home_id self.now c) }
    {
        self.counters[c as usize].total
    }

    /// How many control groups there are, the root group too. It costs one read.
    pub fn len(&self) -> usize
        ensures { result ≡ length self.now.controls }
    {
        self.ids.count()
    }

    /// What is true of all control groups at any time; the call does nothing. Only zombies are in a group that
    /// was removed, and a group that stands has an id of its own, by which it is listed.
    pub fn laws(&self)
        ensures ended { (k : ℕ) → stands self.now k ≡ false → live_at self.now k ≡ 0 }
        ensures ids { (j k : ℕ) → stands self.now j ≡ true → stands self.now k ≡ true
            → home_id self.now j ≡ home_id self.now k → j ≡ k }
        ensures listed { (k : ℕ) → stands self.now k ≡ true
            → IsSome (control_at self.now.controls (home_id self.now k)) }
    {
        let _ = self.ids.iter();
    }

    /// One live task more: what `fork(2)` charges. No limit is asked; `may_charge` does that.
    pub fn charge(&mut self, home: ControlKey)
        requires stands { stands self.old home ≡ true }
        requires few { all_tasks self.old + 1 < 2 ^ 64 }
        ensures home { ChangesHome self.old self.new home (option_map (λ (h : Home). record h { live = h.live + 1 })
            (home_at self.old home)) }
        ensures tasks { all_tasks self.new ≡ all_tasks self.old + 1 }
    {
        put_live(&mut self.nodes, &mut self.counters, home);
    }

    /// A live task became a zombie.
    pub fn died(&mut self, home: ControlKey)
        requires { 0 < live_at self.old home }
        ensures home { ChangesHome self.old self.new home (option_map
            (λ (h : Home). record h { live = h.live - 1; zombies = h.zombies + 1 }) (home_at self.old home)) }
        ensures tasks { all_tasks self.new ≡ all_tasks self.old }
    {
        end_live(&mut self.nodes, &self.counters, home);
    }

    /// A zombie is gone. With the last task of a removed group its key is gone too.
    pub fn uncharge(&mut self, home: ControlKey)
        requires { 0 < zombies_at self.old home }
        ensures home { ChangesHome self.old self.new home (option_and_then
            (λ (h : Home). kept (record h { zombies = h.zombies - 1 })) (home_at self.old home)) }
        ensures tasks { all_tasks self.new + 1 ≡ all_tasks self.old }
    {
        take_zombie(&mut self.nodes, &mut self.counters, home);
        drop_empty(&mut self.nodes, &self.counters, home);
    }

    /// A live task goes to another control group, or to the one that it is in. No limit blocks it: the
    /// cgroup-v2 document, "Organisational operations are not blocked by cgroup policies". It costs a step for each
    /// group from both up to the nearest one that is above both.
    pub fn transfer(&mut self, from: ControlKey, to: ControlKey)
        requires some { 0 < live_at self.old from }
        requires stands { stands self.old to ≡ true }
        ensures controls { self.new.controls ≡ self.old.controls }
        ensures homes { (k : ℕ) → home_at self.new k ≡ option_map (after_move from to k) (home_at self.old k) }
        ensures tasks { all_tasks self.new ≡ all_tasks self.old }
    {
        move_live(&mut self.nodes, &mut self.counters, from, to);
    }
}
