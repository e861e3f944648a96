//! Tasks, their parents, and the children that have ended and wait to be reaped.
//!
//! Tasks stand at keys, numbers below 2^30 that the caller picks. Each task has its children in a list and
//! those of them that have ended in a queue by rank, so that the one that `waitpid(2)` reaps is found by
//! one read and no live child is touched. Each call but `grow` takes no memory.
//!
//! A task may be removed while it has children; they keep its key as their parent's.
#![tactic(auto)]

ghost use Rattle.std.specs.Prelude.{◌≡◌, ◌≢◌, ℕ, ◌+◌, ◌<◌, ◌≤◌, ◌^◌, length, option_map, Some, None, true, false};
ghost use Rattle.std.specs.Prelude.{IsSome, MatchOption, OnOk, OnErr, ◌++◌, replicate, slice_set};
ghost use Rattle.{
  pid_types.specs.declared.plain.Life.{Life},
  member_lists.specs.Owners.{AreMembers},
  member_queues.specs.Ranks.{IsLeast, AreRankedMembers},
  task_tree.specs.Tree.{task_at, parent_of, rank_of, lives, has_live, is_zombie, is_subreaper, waits_for, handed},
};

mod cells;
mod links;
mod places;

use cells::Cells;
use links::{enter_ended, forget_ended, hand_all, leave_parent, room_for_parents, room_for_ranks};
use member_lists::{MemberLists, Members};
use member_queues::{MemberQueues, RankedMembers};
use pid_types::keys::{ControlKey, Pid, TaskKey};
use pid_types::plain::{Ended, Life};
use std::alloc::{AllocError, Global};
use std::marker::Model;

/// What a task is, besides its place in the tree.
#[derive(Clone, Copy, Debug, PartialEq, Eq)]
pub struct Task {
    /// The id of the namespace that its children go into, which may have been dropped since.
    pub children_space: u64,
    /// The key of its control group.
    pub home: ControlKey,
    /// Whether it has executed, after which its parent can move it to no other group.
    pub executed: bool,
    /// Whether it takes the children of its descendants that end (`PR_SET_CHILD_SUBREAPER(2const)`).
    pub subreaper: bool,
    pub life: Life,
}

/// Tasks by key, in a tree.
///
/// It takes some 60 bytes for each key.
pub struct TaskTree {
    tasks: Cells,
    children: MemberLists,
    ended: MemberQueues,
}

// Written out, and not derived: so the crates above cite this drop, and do not prove it anew.
impl Drop for TaskTree {
    fn drop(self) {
        let TaskTree {
            tasks: _,
            children: _,
            ended: _,
        } = self;
    }
}

impl Model for TaskTree {
    ghost use Rattle.task_tree.specs.Tree.{TreeOfTasks, IsTaskTree};

    ghost Value = { TreeOfTasks };

    ghost view = { λ a. record { tasks = a.tasks; parents = a.children; ended = a.ended } };

    ghost invariant = { λ a. IsTaskTree a.tasks a.children a.ended };
}

impl TaskTree {
    /// No tasks, and room for none.
    pub fn new(alloc: Global) -> Self
        ensures { length result.tasks ≡ 0 }
    {
        TaskTree {
            tasks: Cells::new(alloc),
            children: MemberLists::new(alloc),
            ended: MemberQueues::new(alloc),
        }
    }

    /// Makes room for so many keys more. The error is want of memory, and then nothing has changed that another
    /// call shows.
    #[inline(never)]
    pub fn grow(&mut self, more: usize) -> Result<(), AllocError>
        requires { length self.old.tasks + more ≤ 2 ^ 30 }
        ensures ok { OnOk result (self.new.tasks ≡ self.old.tasks ++ replicate more None) }
        ensures err { OnErr result (self.new.tasks ≡ self.old.tasks) }
        ensures parents { (k : ℕ) → parent_of self.new k ≡ parent_of self.old k }
        ensures ranks { (k : ℕ) → rank_of self.new k ≡ rank_of self.old k }
    {
        let keys = self.tasks.keys() + more;
        room_for_parents(&mut self.children, keys)?;
        room_for_ranks(&mut self.ended, keys)?;
        self.tasks.grow(more)
    }

    /// How many keys there is room for: those below this number.
    pub fn keys(&self) -> usize
        ensures { result ≡ length self.now.tasks }
    {
        self.tasks.keys()
    }

    /// The task with the key.
    pub fn task(&self, key: TaskKey) -> Option<Task>
        ensures { result ≡ task_at self.now key }
    {
        self.tasks.task(key)
    }

    /// Whether there is a task with the key, and it has not ended. It costs one read, and the task is not copied.
    #[inline(always)]
    pub fn is_live_at(&self, key: TaskKey) -> bool
        ensures { result ≡ has_live (task_at self.now key) }
    {
        self.tasks.is_live_at(key)
    }

    /// The key of the task's parent; none of a task that began without one.
    pub fn parent(&self, key: TaskKey) -> Option<TaskKey>
        requires { key < length self.now.tasks }
        ensures { result ≡ parent_of self.now key }
    {
        self.children.owner(key)
    }

    /// Whether the task, which is there, is a subreaper. It costs one read, and no test whether it is there.
    #[inline(always)]
    pub fn is_subreaper_at(&self, key: TaskKey) -> bool
        requires { IsSome (task_at self.now key) }
        ensures { result ≡ is_subreaper (task_at self.now key) }
    {
        self.tasks.is_subreaper_at(key)
    }

    /// Whether some task is a subreaper, one that has ended and waits to be reaped too. It costs one read.
    pub fn any_subreaper(&self) -> bool
        ensures none { result ≡ false → (k : ℕ) → is_subreaper (task_at self.now k) ≡ false }
        ensures some { result ≡ true → (k : ℕ) × (is_subreaper (task_at self.now k) ≡ true) }
    {
        self.tasks.any_subreaper()
    }

    /// Some child of the task, if it has any.
    pub fn first_child(&self, parent: TaskKey) -> Option<TaskKey>
        requires { parent < length self.now.tasks }
        ensures { MatchOption result ((k : ℕ) → parent_of self.now k ≢ Some parent)
            (λ k. parent_of self.now k ≡ Some parent) }
    {
        self.children.first(parent)
    }

    /// The children of the task, one after the other, each once.
    pub fn children(&self, parent: TaskKey) -> Members<'_>
        requires { parent < length self.now.tasks }
        ensures { AreMembers self.now.parents parent result }
    {
        self.children.members(parent)
    }

    /// The children of the task that have ended, one after the other, each once, in no order that a caller may rely on.
    pub fn ended_children(&self, parent: TaskKey) -> RankedMembers<'_>
        requires { parent < length self.now.tasks }
        ensures { AreRankedMembers self.now.ended parent result }
    {
        self.ended.members(parent)
    }

    /// Of the children of the task that have ended, the one with the least rank: whom a wait for any child
    /// reaps.
    pub fn least_ended(&self, parent: TaskKey) -> Option<TaskKey>
        requires { parent < length self.now.tasks }
        ensures least { MatchOption result ((k r : ℕ) → rank_of self.now k ≢ Some (parent, r))
            (λ k. IsLeast self.now.ended parent k) }
    {
        self.ended.least(parent)
    }

    /// The rank that the task ended with; none of one that lives or has no parent.
    pub fn rank(&self, key: TaskKey) -> Option<Pid>
        requires { key < length self.now.tasks }
        ensures { result ≡ option_map (λ (m : ℕ × ℕ). m.1) (rank_of self.now key) }
    {
        self.ended.rank(key)
    }

    /// What is true of all tasks at any time; the call does nothing. Those that have ended, and no others, wait
    /// for their parent, and no parent has two with one rank. Who has a parent is a task.
    pub fn laws(&self)
        ensures waiting { (k : ℕ) → option_map (λ (m : ℕ × ℕ). m.0) (rank_of self.now k)
            ≡ waits_for (task_at self.now k) (parent_of self.now k) }
        ensures apart { (j k p r : ℕ) → rank_of self.now j ≡ Some (p, r) → rank_of self.now k ≡ Some (p, r) → j ≡ k }
        ensures absent { (k : ℕ) → task_at self.now k ≡ None → parent_of self.now k ≡ None }
        ensures known { (k p : ℕ) → parent_of self.now k ≡ Some p → p < length self.now.tasks }
        ensures few { length self.now.tasks ≤ 2 ^ 30 }
    {
        let _ = &self.tasks;
    }

    /// A live task begins at a key that has none, as a child of the parent.
    pub fn enter(&mut self, key: TaskKey, parent: Option<TaskKey>, task: Task)
        requires key { key < length self.old.tasks }
        requires vacant { task_at self.old key ≡ None }
        requires live { lives task ≡ true }
        requires parent { (p : ℕ) → parent ≡ Some p → p < length self.old.tasks }
        ensures tasks { self.new.tasks ≡ slice_set self.old.tasks key (Some task) }
        ensures parent { parent_of self.new key ≡ parent }
        ensures others { (k : ℕ) → k ≢ key → parent_of self.new k ≡ parent_of self.old k }
        ensures ranks { self.new.ended ≡ self.old.ended }
    {
        self.tasks.fill(key, task);
        if let Some(parent) = parent {
            self.children.add(key, parent);
        }
    }

    /// A live task without a parent becomes a child of one. A saved table has its parents again by this; no system call
    /// does it.
    pub fn adopt(&mut self, key: TaskKey, parent: TaskKey)
        requires live { option_map lives (task_at self.old key) ≡ Some true }
        requires orphan { parent_of self.old key ≡ None }
        requires parent { parent < length self.old.tasks }
        ensures tasks { self.new.tasks ≡ self.old.tasks }
        ensures parent { parent_of self.new key ≡ Some parent }
        ensures others { (k : ℕ) → k ≢ key → parent_of self.new k ≡ parent_of self.old k }
        ensures ranks { self.new.ended ≡ self.old.ended }
    {
        self.children.add(key, parent);
    }

    /// The task becomes another one in the same place, with the same life.
    pub fn update(&mut self, key: TaskKey, task: Task)
        requires { option_map (λ (t : Task). t.life) (task_at self.old key) ≡ Some task.life }
        ensures tasks { self.new.tasks ≡ slice_set self.old.tasks key (Some task) }
        ensures parents { self.new.parents ≡ self.old.parents }
        ensures ranks { self.new.ended ≡ self.old.ended }
    {
        self.tasks.set(key, Some(task));
    }

    /// The live task ends, and waits for its parent with the rank. It costs a logarithm of the parent's children
    /// that have ended, taken over many calls.
    #[inline(always)]
    pub fn finish(&mut self, key: TaskKey, task: Task, end: Ended, rank: Pid)
        requires there { task_at self.old key ≡ Some task }
        requires live { lives task ≡ true }
        requires apart { (k p : ℕ) → parent_of self.old key ≡ Some p → rank_of self.old k ≢ Some (p, rank) }
        ensures tasks { self.new.tasks ≡ slice_set self.old.tasks key (Some (record task { life = Life.Zombie end })) }
        ensures parents { self.new.parents ≡ self.old.parents }
        ensures rank { rank_of self.new key ≡ option_map (λ p. (p, rank)) (parent_of self.old key) }
        ensures others { (k : ℕ) → k ≢ key → rank_of self.new k ≡ rank_of self.old k }
    {
        let life = Life::Zombie(end);
        self.tasks.set(key, Some(Task { life, ..task }));
        enter_ended(&mut self.ended, &self.children, key, rank);
    }

    /// All children of the one task become the other's, and those that have ended keep their ranks. It costs one write
    /// for each child and one more for each that has ended, and a logarithm of these, taken over many calls.
    pub fn hand_on(&mut self, from: TaskKey, to: TaskKey)
        requires differ { from ≢ to }
        requires from { from < length self.old.tasks }
        requires to { to < length self.old.tasks }
        requires apart { (j k r : ℕ) → rank_of self.old j ≡ Some (from, r) → rank_of self.old k ≢ Some (to, r) }
        ensures tasks { self.new.tasks ≡ self.old.tasks }
        ensures parents { (k : ℕ) → parent_of self.new k ≡ option_map (handed from to) (parent_of self.old k) }
        ensures ranks { (k : ℕ) → rank_of self.new k
            ≡ option_map (λ (m : ℕ × ℕ). (handed from to m.0, m.1)) (rank_of self.old k) }
    {
        hand_all(&mut self.children, &mut self.ended, from, to);
    }

    /// The task is gone. Its children, if it has any, keep its key as their parent's.
    #[inline(always)]
    pub fn remove(&mut self, key: TaskKey)
        requires { IsSome (task_at self.old key) }
        ensures tasks { self.new.tasks ≡ slice_set self.old.tasks key None }
        ensures parent { parent_of self.new key ≡ None }
        ensures rank { rank_of self.new key ≡ None }
        ensures parents { (k : ℕ) → k ≢ key → parent_of self.new k ≡ parent_of self.old k }
        ensures ranks { (k : ℕ) → k ≢ key → rank_of self.new k ≡ rank_of self.old k }
    {
        self.tasks.set(key, None);
        leave_parent(&mut self.children, key);
        forget_ended(&mut self.ended, key);
    }
}
