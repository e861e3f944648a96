//! The tasks of a table and all that belongs to them, by key: identifiers and namespaces, the tree of tasks, process
//! groups and sessions, and control groups, each part kept in line with the others.
//!
//! A task has the key of its identifier, so that a number leads to its task by one search. The calls here
//! refuse nothing and decide nothing: each makes one change that a call of the table is made of.
#![tactic(auto)]

ghost use Rattle.std.specs.Prelude.{◌≡◌, ◌≢◌, ℕ, ◌+◌, ◌-◌, ◌<◌, ◌≤◌, ◌^◌, length, option_map, option_and_then, Some};
ghost use Rattle.std.specs.Prelude.{None, true, false, IsSome, IfOk, OnOk, OnErr, [], ◌∷◌, slice_set, ◌==◌, ◌↔◌, ◌++◌};
ghost use Rattle.std.specs.{Prelude.{not, map, filter, find, is_none, unwrap_or, drop, Err}, List.{AllByRecursion}};
ghost use Rattle.std.specs.{Result.{result_err}, Option.{option_map_or}};
ghost use Rattle.{
  id_slab.specs.Ids.{AreBelow},
  pid_types.specs.{Bounds.{deepest_space, deepest_control}, Settings.{HasGoodPidMax}, Chains.{contains}},
  pid_types.specs.{Controls.{control_path, parent_control}, Changes.{limited}, declared.plain.Life.{Life}},
  pids_charge.specs.{declared.ControlFault.{ControlFault}, Charges.{Home, home_at, home_id, stands, kept, after_move}},
  pids_charge.specs.Charges.{handed_on, remove_refusal, limit_refusal, ChangesHome},
  pid_numbers.specs.Numbering.{namespace_at, identifier_at, number_of, path_at, has_fallen_at, HasOwnTask},
  pid_numbers.specs.Numbering.{fallen_within, draw_in, moved as cursor_moved, new_namespace, new_identifier},
  pid_numbers.specs.{Numbering.{Identifier, cursor_put}, Restore.{MayFall, is_flagged, fallen_if}},
  process_threads.specs.Threads.{left_at},
  task_tree.specs.Tree.{task_at, parent_of, lives, handed},
  groups_sessions.specs.Membership.{Membership, membership_at, group_of, session_of, AreInSession, AreOthersInSession},
  task_table.specs.Store.{IsStore, IsThreaded, HasNoThreads, IsLess, IsSame, Begins, home_without, ChangesNumbering},
  task_table.specs.Store.{ChangesCharges, ChangesTree, EndsCharge, IsUsedAt, IsVisibleToParent},
  task_table.specs.Residents.{AreResidents},
};

mod homes;
mod residents;
mod room;
mod settle;
mod threads;
mod uses;
pub mod view;

use groups_sessions::Members;
use homes::leave_home;
use member_lists::{MemberLists, Members as Residents};
use pid_numbers::Numbers;
use pid_types::call::Kind;
use pid_types::keys::{ControlKey, IdentKey, Pid, SpaceKey, TaskKey};
use pid_types::plain::{Ended, Life};
use pid_types::reply::Refusal;
use pids_charge::{ControlFault, Controls};
use process_threads::Threads;
use residents::no_residents;
use room::room_for;
use settle::settle;
use std::alloc::{AllocError, Global};
use std::marker::Model;
use task_tree::{Task, TaskTree};
use uses::{add_uses, take_use, take_uses};

/// What a table of processes holds.
///
/// The live tasks directly in each control group are in a list, which takes 16 bytes for each key.
#[derive(Drop)]
pub struct Tasks {
    numbers: Numbers,
    tree: TaskTree,
    members: Members,
    controls: Controls,
    residents: MemberLists,
    threads: Threads,
}

impl Model for Tasks {
    ghost use Rattle.task_table.specs.{Store.{Store}, Residents.{IsHousedStore}};

    ghost Value = { Store };

    ghost view = { λ a. record {
      numbering = a.numbers;
      tree = a.tree;
      members = a.members;
      charges = a.controls;
      threads = a.threads;
    } };

    ghost invariant = { λ a. IsHousedStore (record {
      numbering = a.numbers;
      tree = a.tree;
      members = a.members;
      charges = a.controls;
      threads = a.threads;
    }) a.residents };
}

impl Tasks {
    /// The root namespace and the root control group, and no task. The error is want of memory.
    pub fn new(alloc: Global, pid_max: u32) -> Result<Self, AllocError>
        requires { HasGoodPidMax pid_max }
        ensures pid_max { IfOk result (λ r. r.numbering.pid_max ≡ pid_max) }
        ensures root { IfOk result (λ r. namespace_at r.numbering 0 ≡ Some (new_namespace 0 (0 ∷ []))) }
        ensures others { IfOk result (λ r. (s : ℕ) → s ≢ 0 → namespace_at r.numbering s ≡ None) }
        ensures order { IfOk result (λ r. r.numbering.order ≡ (0, 0) ∷ []) }
        ensures names { IfOk result (λ r. (i : ℕ) → identifier_at r.numbering i ≡ None) }
        ensures tasks { IfOk result (λ r. (k : ℕ) → task_at r.tree k ≡ None) }
        ensures members { IfOk result (λ r. r.members ≡ []) }
        ensures controls { IfOk result (λ r. r.charges.controls ≡ record { id = 0; parent = None; limit = None } ∷ []) }
        ensures threads { IfOk result (λ r. HasNoThreads r.threads) }
    {
        Ok(Tasks {
            numbers: Numbers::new(alloc, pid_max)?,
            tree: TaskTree::new(alloc),
            members: Members::new(alloc),
            controls: Controls::new(alloc)?,
            residents: no_residents(alloc)?,
            threads: Threads::new(alloc),
        })
    }

    /// The identifiers and the namespaces.
    pub fn numbers(&self) -> &Numbers
        ensures { result.now ≡ self.now.numbering }
    {
        &self.numbers
    }

    /// The tree of tasks.
    pub fn tree(&self) -> &TaskTree
        ensures { result.now ≡ self.now.tree }
    {
        &self.tree
    }

    /// Who is in which group and session.
    pub fn members(&self) -> &Members
        ensures { result.now ≡ self.now.members }
    {
        &self.members
    }

    /// The control groups.
    pub fn controls(&self) -> &Controls
        ensures { result.now ≡ self.now.charges }
    {
        &self.controls
    }

    /// The live tasks directly in a control group, one after the other, in no order that a caller may rely on. A step
    /// costs one read. They are what the kernel's `cgroup.procs` lists (the cgroup-v2 document, "Processes").
    pub fn residents(&self, home: ControlKey) -> Residents<'_>
        requires { stands self.now.charges home ≡ true }
        ensures { AreResidents self.now.tree home result }
    {
        self.residents.members(home)
    }

    /// What is true at any time; the call does nothing. The parts agree.
    pub fn laws(&self)
        ensures { IsStore self.now }
    {
        let _ = &self.numbers;
    }

    /// What is true at any time; the call does nothing. The identifiers of threads are those that nothing uses.
    pub fn thread_laws(&self)
        ensures { IsThreaded self.now.numbering self.now.threads }
    {
        let _ = &self.threads;
    }

    /// A task becomes another one in the same place, with the same life and the same home.
    pub fn update(&mut self, key: TaskKey, task: Task)
        requires life { option_map (λ (t : Task). t.life) (task_at self.old.tree key) ≡ Some task.life }
        requires home { option_map (λ (t : Task). t.home) (task_at self.old.tree key) ≡ Some task.home }
        ensures tasks { self.new.tree.tasks ≡ slice_set self.old.tree.tasks key (Some task) }
        ensures rest { self.new ≡ record self.old { tree = record self.old.tree { tasks = self.new.tree.tasks } } }
    {
        self.tree.update(key, task);
    }

    /// A live task goes to another control group.
    pub fn move_home(&mut self, key: TaskKey, task: Task, to: ControlKey)
        requires there { task_at self.old.tree key ≡ Some task }
        requires live { lives task ≡ true }
        requires stays { left_at self.old.threads key ≡ false }
        requires stands { stands self.old.charges to ≡ true }
        ensures tasks { self.new.tree.tasks ≡ slice_set self.old.tree.tasks key (Some (record task { home = to })) }
        ensures controls { self.new.charges.controls ≡ self.old.charges.controls }
        ensures homes { (k : ℕ) → home_at self.new.charges k
            ≡ option_map (after_move task.home to k) (home_at self.old.charges k) }
        ensures rest { self.new
            ≡ record self.old {
              tree = record self.old.tree { tasks = self.new.tree.tasks };
              charges = self.new.charges;
            } }
    {
        self.controls.transfer(task.home, to);
        self.tree.update(key, Task { home: to, ..task });
        self.residents.move_to(key, to);
    }

    /// A live task ends, and waits for its parent by its number in the parent's namespace. Its threads stay.
    #[inline(always)]
    pub fn finish(&mut self, key: TaskKey, task: Task, end: Ended)
        requires there { task_at self.old.tree key ≡ Some task }
        requires live { lives task ≡ true }
        requires stays { left_at self.old.threads key ≡ false }
        requires visible { IsVisibleToParent self.old key }
        ensures tasks { self.new.tree.tasks ≡ slice_set self.old.tree.tasks key
            (Some (record task { life = Life.Zombie end })) }
        ensures parents { self.new.tree.parents ≡ self.old.tree.parents }
        ensures home { EndsCharge self.old.charges self.new.charges task.home }
        ensures rest { (self.new.numbering ≡ self.old.numbering) × (self.new.members ≡ self.old.members) }
        ensures threads { self.new.threads ≡ self.old.threads }
    {
        self.numbers.laws();
        self.tree.laws();
        let rank = self.rank_for(key);
        self.tree.finish(key, task, end, rank);
        self.controls.died(task.home);
        self.residents.remove(key);
    }

    /// The number of a task in its parent's namespace; 0 where it has no parent.
    #[inline(always)]
    fn rank_for(&self, key: TaskKey) -> Pid
        requires key { key < length self.now.tree.tasks }
        requires visible { IsVisibleToParent self.now key }
        ensures { (p : ℕ) → parent_of self.now.tree key ≡ Some p → (u : Identifier)
            → identifier_at self.now.numbering p ≡ Some u → number_of self.now.numbering key u.space ≡ Some result }
    {
        let Some(parent) = self.tree.parent(key) else {
            return 0;
        };
        let space = self.numbers.space_at(parent);
        self.numbers.number_in(key, space).unwrap_or(0)
    }

    /// A live task without a parent becomes a child of one: [`TaskTree::adopt`].
    pub fn adopt(&mut self, key: TaskKey, parent: TaskKey)
        requires live { option_map lives (task_at self.old.tree key) ≡ Some true }
        requires orphan { parent_of self.old.tree key ≡ None }
        requires parent { IsSome (task_at self.old.tree parent) }
        ensures tasks { self.new.tree.tasks ≡ self.old.tree.tasks }
        ensures parent { parent_of self.new.tree key ≡ Some parent }
        ensures others { (k : ℕ) → k ≢ key → parent_of self.new.tree k ≡ parent_of self.old.tree k }
        ensures ranks { self.new.tree.ended ≡ self.old.tree.ended }
        ensures rest { ChangesTree self.old self.new }
    {
        self.tree.laws();
        self.tree.adopt(key, parent);
    }

    /// All children of the one task become the other's, whose own namespace is the same.
    pub fn hand_on(&mut self, from: TaskKey, to: TaskKey)
        requires differ { from ≢ to }
        requires from { from < length self.old.tree.tasks }
        requires to { to < length self.old.tree.tasks }
        requires beside { (u : Identifier) × (v : Identifier) × (identifier_at self.old.numbering from ≡ Some u)
            × (identifier_at self.old.numbering to ≡ Some v) × (u.space ≡ v.space) }
        ensures tasks { self.new.tree.tasks ≡ self.old.tree.tasks }
        ensures parents { (k : ℕ) → parent_of self.new.tree k
            ≡ option_map (handed from to) (parent_of self.old.tree k) }
        ensures rest { ChangesTree self.old self.new }
    {
        self.numbers.laws();
        self.tree.hand_on(from, to);
    }

    /// A task goes to another group, whose number is no thread's and all of whose members are in its session.
    pub fn set_group(&mut self, key: TaskKey, group: IdentKey)
        requires there { IsSome (membership_at self.old.members key) }
        requires group { IsUsedAt self.old.numbering group }
        requires room { group < length self.old.members }
        requires together { (s : ℕ) → session_of self.old.members key ≡ Some s → AreInSession self.old.members group s }
        ensures members { self.new.members ≡ slice_set self.old.members key
            (option_map (λ (m : Membership). record m { group = group }) (membership_at self.old.members key)) }
        ensures numbers { IsLess self.old.numbering self.new.numbering }
        ensures rest { (self.new.tree ≡ self.old.tree) × (self.new.charges ≡ self.old.charges) }
        ensures threads { self.new.threads ≡ self.old.threads }
    {
        self.numbers.laws();
        self.tree.laws();
        self.members.laws();
        let old = self.members.group(key);
        self.numbers.add_use(group, Kind::Group);
        self.members.join_group(key, group);
        take_use(&mut self.numbers, old, Kind::Group);
    }

    /// A task goes to a group in a session, whichever it was in. All others in the group are in that session.
    pub fn move_to(&mut self, key: TaskKey, group: IdentKey, session: IdentKey)
        requires there { IsSome (membership_at self.old.members key) }
        requires group { IsUsedAt self.old.numbering group }
        requires session { IsUsedAt self.old.numbering session }
        requires room { group < length self.old.members }
        requires session_room { session < length self.old.members }
        requires together { AreOthersInSession self.old.members key group session }
        ensures members { self.new.members ≡ slice_set self.old.members key
            (Some (record { group = group; session = session })) }
        ensures numbers { IsLess self.old.numbering self.new.numbering }
        ensures rest { (self.new.tree ≡ self.old.tree) × (self.new.charges ≡ self.old.charges) }
        ensures threads { self.new.threads ≡ self.old.threads }
    {
        self.numbers.laws();
        self.tree.laws();
        self.members.laws();
        let old_group = self.members.group(key);
        let old_session = self.members.session(key);
        add_uses(&mut self.numbers, group, session);
        self.members.move_to(key, group, session);
        take_uses(&mut self.numbers, old_group, old_session);
    }

    /// A task leads a new session and a new group in it, both named after its identifier. Nobody is in that
    /// group.
    pub fn start_session(&mut self, key: TaskKey)
        requires there { IsSome (membership_at self.old.members key) }
        requires free { (k : ℕ) → group_of self.old.members k ≢ Some key }
        ensures members { self.new.members ≡ slice_set self.old.members key
            (Some (record { group = key; session = key })) }
        ensures numbers { IsLess self.old.numbering self.new.numbering }
        ensures rest { (self.new.tree ≡ self.old.tree) × (self.new.charges ≡ self.old.charges) }
        ensures threads { self.new.threads ≡ self.old.threads }
    {
        self.laws();
        self.move_to(key, key, key);
    }

    /// A task is gone. Its children, if it has any, keep its key as their parent's, and its threads stay as their
    /// process's.
    #[inline(always)]
    pub fn remove(&mut self, key: TaskKey, task: Task)
        requires there { task_at self.old.tree key ≡ Some task }
        requires stays { left_at self.old.threads key ≡ false }
        ensures tasks { self.new.tree.tasks ≡ slice_set self.old.tree.tasks key None }
        ensures parent { parent_of self.new.tree key ≡ None }
        ensures parents { (k : ℕ) → k ≢ key → parent_of self.new.tree k ≡ parent_of self.old.tree k }
        ensures members { self.new.members ≡ slice_set self.old.members key None }
        ensures home { ChangesHome self.old.charges self.new.charges task.home
            (option_and_then (λ (h : Home). kept (home_without task h)) (home_at self.old.charges task.home)) }
        ensures numbers { IsLess self.old.numbering self.new.numbering }
        ensures threads { self.new.threads ≡ self.old.threads }
    {
        self.numbers.laws();
        let group = self.members.group(key);
        let session = self.members.session(key);
        self.tree.remove(key);
        self.tree.laws();
        self.members.leave(key);
        leave_home(&mut self.controls, &mut self.residents, key, &task);
        take_uses(&mut self.numbers, group, session);
        take_use(&mut self.numbers, key, Kind::Task);
    }

    /// A new control group below another one: [`Controls::make`]. No task is in it yet.
    pub fn make_control(
        &mut self,
        parent: ControlKey,
        stamp: u64,
    ) -> Result<ControlKey, ControlFault>
        requires stands { stands self.old.charges parent ≡ true }
        requires above { AllByRecursion (λ g. g.id < stamp) self.old.charges.controls }
        ensures controls { OnOk result (self.new.charges.controls
            ≡ self.old.charges.controls ++ record {
              id = stamp;
              parent = Some
                  (home_id self.old.charges parent);
              limit = None;
            } ∷ []) }
        ensures fresh { IfOk result (λ key. home_at self.old.charges key ≡ None) }
        ensures here { IfOk result (λ key. home_at self.new.charges key
            ≡ Some (record { id = stamp; stands = true; live = 0; zombies = 0 })) }
        ensures others { IfOk result (λ key. (k : ℕ) → k ≢ key
            → home_at self.new.charges k ≡ home_at self.old.charges k) }
        ensures deep { (result ≡ Err ControlFault.ControlDepth)
            ↔ (deepest_control < length (control_path self.old.charges.controls (home_id self.old.charges parent))) }
        ensures err { OnErr result (self.new ≡ self.old) }
        ensures rest { ChangesCharges self.old self.new }
    {
        self.controls.make(parent, stamp, &mut self.residents)
    }

    /// Removes a control group: [`Controls::remove`]. Its zombies go to the parent.
    pub fn remove_control(&mut self, c: ControlKey) -> Result<(), Refusal>
        requires { stands self.old.charges c ≡ true }
        ensures refusal { result_err result ≡ remove_refusal self.old.charges c }
        ensures controls { OnOk result (self.new.charges.controls
            ≡ filter (λ g. not (g.id == home_id self.old.charges c)) self.old.charges.controls) }
        ensures homes { OnOk result ((parent : ℕ)
            → parent_control self.old.charges.controls (home_id self.old.charges c) ≡ Some parent
            → (k : ℕ) → home_at self.new.charges k
            ≡ option_and_then (handed_on (home_id self.old.charges c) parent) (home_at self.old.charges k)) }
        ensures err { OnErr result (self.new ≡ self.old) }
        ensures rest { ChangesCharges self.old self.new }
    {
        self.controls.remove(c)
    }

    /// Sets the limit of a control group or takes it away: [`Controls::set_limit`].
    pub fn set_limit(&mut self, c: ControlKey, limit: Option<u32>) -> Result<(), Refusal>
        requires { stands self.old.charges c ≡ true }
        ensures refusal { result_err result ≡ limit_refusal self.old.charges c limit }
        ensures controls { OnOk result (self.new.charges.controls
            ≡ map (limited (home_id self.old.charges c) limit) self.old.charges.controls) }
        ensures homes { (k : ℕ) → home_at self.new.charges k ≡ home_at self.old.charges k }
        ensures err { OnErr result (self.new ≡ self.old) }
        ensures rest { ChangesCharges self.old self.new }
    {
        self.controls.set_limit(c, limit)
    }

    /// The namespace and all inside it have fallen: [`Numbers::fell`].
    pub fn fell(&mut self, space: SpaceKey)
        requires inner { space ≢ 0 }
        requires homes { (s : ℕ) → contains (path_at self.old.numbering s) space ≡ true
            → has_fallen_at self.old.numbering s ≡ false
            → HasOwnTask (identifier_at self.old.numbering) s }
        ensures names { self.new.numbering.names ≡ self.old.numbering.names }
        ensures order { self.new.numbering.order ≡ self.old.numbering.order }
        ensures namespaces { (s : ℕ) → namespace_at self.new.numbering s
            ≡ option_map (fallen_within space) (namespace_at self.old.numbering s) }
        ensures bound { self.new.numbering.pid_max ≡ self.old.numbering.pid_max }
        ensures rest { ChangesNumbering self.old self.new }
    {
        self.numbers.fell(space);
    }

    /// Makes a namespace in which no number is in use yet: [`Numbers::add_space`].
    pub fn add_space(&mut self, parent: SpaceKey, id: u64) -> Result<SpaceKey, AllocError>
        requires stands { option_map_or (λ t. t.fallen) (namespace_at self.old.numbering parent) true ≡ false }
        requires shallow { length (path_at self.old.numbering parent) ≤ deepest_space }
        requires above { AreBelow self.old.numbering.order id }
        ensures fresh { IfOk result (λ key. namespace_at self.old.numbering key ≡ None) }
        ensures made { IfOk result (λ key. namespace_at self.new.numbering key
            ≡ Some (new_namespace id (key ∷ path_at self.old.numbering parent))) }
        ensures others { IfOk result (λ key. (s : ℕ) → s ≢ key
            → namespace_at self.new.numbering s ≡ namespace_at self.old.numbering s) }
        ensures order { IfOk result (λ key. self.new.numbering.order ≡ self.old.numbering.order ++ (id, key) ∷ []) }
        ensures names { self.new.numbering.names ≡ self.old.numbering.names }
        ensures bound { self.new.numbering.pid_max ≡ self.old.numbering.pid_max }
        ensures rest { ChangesNumbering self.old self.new }
        ensures err { OnErr result (self.new ≡ self.old) }
    {
        self.numbers.laws();
        self.numbers.add_space(parent, id)
    }

    /// The namespaces with a flag have fallen, all at once: [`Numbers::set_fallen`].
    pub fn set_fallen(&mut self, flags: &[bool])
        requires may { MayFall self.old.numbering flags.now }
        requires few { length flags.now ≤ 2 ^ 32 }
        ensures names { self.new.numbering.names ≡ self.old.numbering.names }
        ensures order { self.new.numbering.order ≡ self.old.numbering.order }
        ensures namespaces { (s : ℕ) → namespace_at self.new.numbering s
            ≡ option_map (fallen_if (is_flagged flags.now s)) (namespace_at self.old.numbering s) }
        ensures bound { self.new.numbering.pid_max ≡ self.old.numbering.pid_max }
        ensures rest { ChangesNumbering self.old self.new }
    {
        self.numbers.set_fallen(flags);
    }

    /// The next draw in the namespace begins at the number: [`Numbers::put_cursor`].
    pub fn put_cursor(&mut self, space: SpaceKey, cursor: Pid)
        requires { IsSome (namespace_at self.old.numbering space) }
        ensures names { self.new.numbering.names ≡ self.old.numbering.names }
        ensures order { self.new.numbering.order ≡ self.old.numbering.order }
        ensures namespaces { (s : ℕ) → namespace_at self.new.numbering s
            ≡ option_map (cursor_put space cursor s) (namespace_at self.old.numbering s) }
        ensures bound { self.new.numbering.pid_max ≡ self.old.numbering.pid_max }
        ensures rest { ChangesNumbering self.old self.new }
    {
        self.numbers.put_cursor(space, cursor);
    }

    /// Takes the memory for one task more in the tree and among the members, and answers its key. The identifier's own
    /// comes with its draw. The error is want of memory. Nothing changes but the room.
    #[inline(always)]
    fn make_room(&mut self) -> Result<TaskKey, AllocError>
        ensures same { IsSame self.old self.new }
        ensures key { IfOk result (λ key. key ≡ self.new.numbering.next) }
        ensures tasks { IfOk result (λ key. key < length self.new.tree.tasks) }
        ensures members { IfOk result (λ key. key < length self.new.members) }
        ensures kept { length self.old.members ≤ length self.new.members }
    {
        let key = self.numbers.next_key()?;
        room_for(&mut self.tree, &mut self.residents, key)?;
        self.members.reserve(key, key)?;
        Ok(key)
    }

    /// A live task begins, with the planned numbers in the namespace and those around it: the child of a task,
    /// whose group and session it has, or else the first of all, which leads its own. Its key is answered. The
    /// error is want of memory, and then nothing has changed but the room.
    #[inline(always)]
    pub fn fork(
        &mut self,
        from: Option<TaskKey>,
        space: SpaceKey,
        numbers: &[Pid],
        task: Task,
    ) -> Result<TaskKey, AllocError>
        requires from { (p : ℕ) → from ≡ Some p → IsSome (task_at self.old.tree p) }
        requires parents { (k p : ℕ) → parent_of self.old.tree k ≡ Some p → IsSome (task_at self.old.tree p) }
        requires live { lives task ≡ true }
        requires home { stands self.old.charges task.home ≡ true }
        requires there { IsSome (namespace_at self.old.numbering space) }
        requires all { find (λ s. is_none (draw_in self.old.numbering s)) (path_at self.old.numbering space) ≡ None }
        requires planned { numbers.now ≡ map (λ s. unwrap_or (draw_in self.old.numbering s) 0)
            (path_at self.old.numbering space) }
        ensures begun { IfOk result (λ key. Begins self.old self.new key from task (new_identifier space numbers.now)) }
        ensures order { self.new.numbering.order ≡ self.old.numbering.order }
        ensures namespaces { OnOk result ((s : ℕ)
            → namespace_at self.new.numbering s ≡ option_map
            (cursor_moved (path_at self.old.numbering space) numbers.now s) (namespace_at self.old.numbering s)) }
        ensures err { OnErr result (IsSame self.old self.new) }
    {
        let key = self.make_room()?;
        self.laws();
        self.numbers.laws();
        self.tree.laws();
        self.members.laws();
        self.threads.laws();
        self.numbers.draw(space, numbers)?;
        settle(
            &mut self.numbers,
            &mut self.tree,
            &mut self.members,
            &mut self.controls,
            &mut self.residents,
            key,
            from,
            task,
        );
        Ok(key)
    }

    /// The child of a task begins in a new namespace inside another one, with number 1 there and the planned
    /// numbers around it: [`fork`](Tasks::fork) with `CLONE_NEWPID`. The keys of the task and of the
    /// namespace are answered.
    pub fn fork_new(
        &mut self,
        from: TaskKey,
        outer: SpaceKey,
        id: u64,
        numbers: &[Pid],
        task: Task,
    ) -> Result<(TaskKey, SpaceKey), AllocError>
        requires from { IsSome (task_at self.old.tree from) }
        requires parents { (k p : ℕ) → parent_of self.old.tree k ≡ Some p → IsSome (task_at self.old.tree p) }
        requires live { lives task ≡ true }
        requires home { stands self.old.charges task.home ≡ true }
        requires outer { option_map_or (λ t. t.fallen) (namespace_at self.old.numbering outer) true ≡ false }
        requires shallow { length (path_at self.old.numbering outer) ≤ deepest_space }
        requires above { AreBelow self.old.numbering.order id }
        requires all { find (λ s. is_none (draw_in self.old.numbering s)) (path_at self.old.numbering outer) ≡ None }
        requires planned { numbers.now ≡ 1 ∷ map (λ s. unwrap_or (draw_in self.old.numbering s) 0)
            (path_at self.old.numbering outer) }
        ensures begun { IfOk result (λ keys. Begins self.old self.new keys.0 (Some from) task
            (new_identifier keys.1 numbers.now)) }
        ensures fresh { IfOk result (λ keys. namespace_at self.old.numbering keys.1 ≡ None) }
        ensures made { IfOk result (λ keys. namespace_at self.new.numbering keys.1
            ≡ Some (record (new_namespace id (keys.1 ∷ path_at self.old.numbering outer)) { cursor = 2 })) }
        ensures namespaces { IfOk result (λ keys. (s : ℕ) → s ≢ keys.1
            → namespace_at self.new.numbering s ≡ option_map
            (cursor_moved (path_at self.old.numbering outer) (drop 1 numbers.now) s)
            (namespace_at self.old.numbering s)) }
        ensures order { IfOk result (λ keys. self.new.numbering.order ≡ self.old.numbering.order ++ (id, keys.1) ∷ []) }
        ensures err { OnErr result (IsSame self.old self.new) }
    {
        let key = self.make_room()?;
        self.laws();
        self.numbers.laws();
        self.tree.laws();
        self.members.laws();
        self.threads.laws();
        let (_, space) = self.numbers.draw_new(outer, id, numbers)?;
        settle(
            &mut self.numbers,
            &mut self.tree,
            &mut self.members,
            &mut self.controls,
            &mut self.residents,
            key,
            Some(from),
            task,
        );
        Ok((key, space))
    }
}
