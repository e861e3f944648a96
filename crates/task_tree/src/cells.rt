//! Tasks by key, and how many of them are subreapers.
ghost use Rattle.std.specs.Prelude.{◌≡◌, ℕ, ◌+◌, ◌<◌, ◌≤◌, ◌^◌, length, Some, None, true, false, OnOk, OnErr, []};
ghost use Rattle.std.specs.Prelude.{slice_set, slice_index_or, IsSome, ◌++◌, replicate};
ghost use Rattle.task_tree.specs.Tree.{has_live, is_subreaper};

use crate::Task;
use crate::places::Places;
use pid_types::keys::TaskKey;
use std::alloc::{AllocError, Global};
use std::marker::Model;

/// At each key a task or none. Between two calls the count is that of the subreapers.
#[derive(Drop)]
pub(crate) struct Cells {
    cells: Places,
    subreapers: usize,
}

impl Model for Cells {
    ghost use Rattle.std.specs.Prelude.{◌≡◌, List, Option, count_by};
    ghost use Rattle.task_tree.specs.{declared.Task.{Task}, Tree.{is_subreaper}};

    ghost Value = { List (Option Task) };

    ghost view = { λ a. a.cells };

    ghost invariant = { λ a. a.subreapers ≡ count_by is_subreaper a.cells };
}

/// Whether there is a task, and it is a subreaper.
fn is_marked(task: Option<Task>) -> bool
    ensures { result ≡ is_subreaper task }
{
    match task {
        Some(task) => task.subreaper,
        None => false,
    }
}

impl Cells {
    /// No keys.
    pub(crate) fn new(alloc: Global) -> Cells
        ensures { result ≡ [] }
    {
        Cells {
            cells: Places::new(alloc),
            subreapers: 0,
        }
    }

    /// So many keys more, without a task. The error is want of memory.
    pub(crate) fn grow(&mut self, more: usize) -> Result<(), AllocError>
        requires { length self.old + more ≤ 2 ^ 30 }
        ensures ok { OnOk result (self.new ≡ self.old ++ replicate more None) }
        ensures err { OnErr result (self.new ≡ self.old) }
    {
        self.cells.grow(more)
    }

    /// How many keys there are.
    pub(crate) fn keys(&self) -> usize
        ensures { result ≡ length self.now }
    {
        self.cells.keys()
    }

    /// The task with the key.
    pub(crate) fn task(&self, key: TaskKey) -> Option<Task>
        ensures { result ≡ slice_index_or self.now key None }
    {
        self.cells.task(key)
    }

    /// Whether the key has a task that has not ended.
    #[inline(always)]
    pub(crate) fn is_live_at(&self, key: TaskKey) -> bool
        ensures { result ≡ has_live (slice_index_or self.now key None) }
    {
        self.cells.is_live_at(key)
    }

    /// A task comes to a key that has none. What the key had is not read.
    #[inline(always)]
    pub(crate) fn fill(&mut self, key: TaskKey, task: Task)
        requires key { key < length self.old }
        requires vacant { slice_index_or self.old key None ≡ None }
        requires few { length self.old ≤ 2 ^ 30 }
        ensures { self.new ≡ slice_set self.old key (Some task) }
    {
        if task.subreaper {
            self.subreapers += 1;
        }
        self.cells.set(key, Some(task));
    }

    /// A task, or none, comes in the place of what the key had.
    #[inline(always)]
    pub(crate) fn set(&mut self, key: TaskKey, task: Option<Task>)
        requires key { key < length self.old }
        requires few { length self.old ≤ 2 ^ 30 }
        ensures { self.new ≡ slice_set self.old key task }
    {
        if is_marked(self.cells.task(key)) {
            self.subreapers -= 1;
        }
        if is_marked(task) {
            self.subreapers += 1;
        }
        self.cells.set(key, task);
    }

    /// Whether the task with the key, which is there, is a subreaper.
    #[inline(always)]
    pub(crate) fn is_subreaper_at(&self, key: TaskKey) -> bool
        requires { IsSome (slice_index_or self.now key None) }
        ensures { result ≡ is_subreaper (slice_index_or self.now key None) }
    {
        self.cells.is_subreaper_at(key)
    }

    /// Whether some task is a subreaper. It costs one read.
    pub(crate) fn any_subreaper(&self) -> bool
        ensures none { result ≡ false → (k : ℕ) → is_subreaper (slice_index_or self.now k None) ≡ false }
        ensures some { result ≡ true → (k : ℕ) × (is_subreaper (slice_index_or self.now k None) ≡ true) }
    {
        self.subreapers > 0
    }
}
