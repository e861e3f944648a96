//! Threads of processes beside their first ones, and the processes whose first thread has left.
//!
//! Threads stand at keys, numbers below 2^30 that the caller picks, and a process goes by the key of its first thread,
//! which stands elsewhere. Each process has the others in a list (`CLONE_THREAD` of `clone(2)`).
//! Only `reserve` takes memory: where no thread was ever made there is none, and a question costs a test of a bound.
#![tactic(auto)]

ghost use Rattle.std.specs.Prelude.{◌≡◌, ◌≢◌, ℕ, ◌+◌, ◌<◌, ◌≤◌, ◌^◌, [], length, Some, None, IsSome, true, false};
ghost use Rattle.std.specs.Prelude.{MatchOption, OnOk, OnErr, ◌++◌, replicate, slice_set};
ghost use Rattle.{
  member_lists.specs.Owners.{AreMembers},
  process_threads.specs.Threads.{thread_with, thread_process, processes_of, left_at, KeepsKeys},
  process_threads.specs.Places.{thread_in},
};

use member_lists::MemberLists;
pub use member_lists::Members;
use pid_types::keys::{ControlKey, TaskKey};
use std::alloc::{AllocError, Global};
use std::marker::Model;

/// A thread beside the first one of its process.
#[derive(Clone, Copy, Debug, PartialEq, Eq)]
pub struct Thread {
    /// The key of its process's first thread.
    pub process: TaskKey,
    /// The id of the namespace that its children go into, which may have been dropped since.
    pub children_space: u64,
    /// The key of its control group.
    pub home: ControlKey,
}

/// What a key has besides the process of its thread. It takes 16 bytes, and means nothing where there is no thread.
#[derive(Clone, Copy)]
struct Place {
    children_space: u64,
    home: ControlKey,
}

/// What a key has that never had a thread.
const VACANT: Place = Place {
    children_space: 0,
    home: 0,
};

/// Threads by key, and the processes whose first thread has left while others run (`proc_pid_task(5)`).
///
/// It takes 33 bytes for each key that it has room for. Each call but `reserve` costs a few reads and writes, however
/// many threads there are, and takes no memory.
pub struct Threads {
    /// The process of each thread, as its owner. A key that has none has no thread.
    lists: MemberLists,
    places: Vec<Place>,
    left: Vec<bool>,
    /// How many threads there are.
    count: usize,
}

// Written out, and not derived: so the crates above cite this drop, and do not prove it anew.
impl Drop for Threads {
    fn drop(self) {
        let Threads {
            lists: _,
            places: _,
            left: _,
            count: _,
        } = self;
    }
}

impl Model for Threads {
    ghost use Rattle.process_threads.specs.Threads.{ThreadsByKey};

    ghost Value = { ThreadsByKey };

    ghost use Rattle.process_threads.specs.Places.{threads_in, AreThreads};

    ghost view = { λ a. record { threads = threads_in a.lists a.places.items; left = a.left.items } };

    ghost invariant = { λ a. AreThreads a.lists a.places.items a.left.items a.count };
}

/// What a key with the thread has.
fn place_of(thread: Thread) -> Place
    ensures { thread_in result thread.process ≡ thread }
{
    Place {
        children_space: thread.children_space,
        home: thread.home,
    }
}

impl Threads {
    /// No threads, and room for none.
    pub fn new(alloc: Global) -> Self
        ensures threads { result.threads ≡ [] }
        ensures left { result.left ≡ [] }
    {
        Threads {
            lists: MemberLists::new(alloc),
            places: Vec::new(alloc),
            left: Vec::new(alloc),
            count: 0,
        }
    }

    /// Makes room for so many keys more, which have no thread. The error is want of memory, and then nothing has
    /// changed.
    #[inline(never)]
    fn grow(&mut self, more: usize) -> Result<(), AllocError>
        requires { length self.old.threads + more ≤ 2 ^ 30 }
        ensures threads { OnOk result (self.new.threads ≡ self.old.threads ++ replicate more None) }
        ensures left { OnOk result (self.new.left ≡ self.old.left ++ replicate more false) }
        ensures err { OnErr result (self.new ≡ self.old) }
    {
        let keys = self.places.len() + more;
        self.places.try_reserve(more)?;
        self.left.try_reserve(more)?;
        self.lists.grow(more)?;
        self.places.resize(keys, VACANT)?;
        self.left.resize(keys, false)?;
        Ok(())
    }

    /// Makes room for so many keys, where there is none yet. It is for a call that makes a thread, and costs a step for
    /// each key that is new. The error is want of memory, and then nothing has changed.
    #[inline(always)]
    pub fn reserve(&mut self, keys: usize) -> Result<(), AllocError>
        requires { keys ≤ 2 ^ 30 }
        ensures threads { OnOk result (keys ≤ length self.new.threads) }
        ensures left { OnOk result (keys ≤ length self.new.left) }
        ensures kept { KeepsKeys self.old self.new }
        ensures err { OnErr result (self.new ≡ self.old) }
    {
        if self.keys() >= keys {
            return Ok(());
        }
        self.grow(keys - self.keys())
    }

    /// How many keys there is room for, of threads and of processes: those below this number.
    pub fn keys(&self) -> usize
        ensures threads { result ≡ length self.now.threads }
        ensures left { result ≡ length self.now.left }
    {
        self.lists.keys()
    }

    /// Whether there is no thread. It costs one read.
    #[inline(always)]
    pub fn is_empty(&self) -> bool
        ensures none { result ≡ true → (k : ℕ) → thread_with self.now k ≡ None }
        ensures some { result ≡ false → (k : ℕ) × IsSome (thread_with self.now k) }
    {
        self.count == 0
    }

    /// The thread with the key; none past the room.
    pub fn thread(&self, key: TaskKey) -> Option<Thread>
        ensures { result ≡ thread_with self.now key }
    {
        let process = self.process(key)?;
        let place = self.places[key as usize];
        Some(Thread {
            process,
            children_space: place.children_space,
            home: place.home,
        })
    }

    /// The process of the thread with the key. It costs one read, and none past the room.
    #[inline(always)]
    pub fn process(&self, key: TaskKey) -> Option<TaskKey>
        ensures { result ≡ thread_process self.now key }
    {
        if (key as usize) < self.lists.keys() {
            self.lists.owner(key)
        } else {
            None
        }
    }

    /// Whether the process has a thread beside the first one. It costs one read, and none past the room.
    #[inline(always)]
    pub fn has_thread(&self, process: TaskKey) -> bool
        ensures none { result ≡ false → (k : ℕ) → thread_process self.now k ≢ Some process }
        ensures some { result ≡ true → (k : ℕ) × (thread_process self.now k ≡ Some process) }
    {
        (process as usize) < self.lists.keys() && self.lists.first(process).is_some()
    }

    /// Some thread of the process, if it has any.
    pub fn first(&self, process: TaskKey) -> Option<TaskKey>
        requires { process < length self.now.threads }
        ensures { MatchOption result ((k : ℕ) → thread_process self.now k ≢ Some process)
            (λ k. thread_process self.now k ≡ Some process) }
    {
        self.lists.first(process)
    }

    /// The threads of the process, one after the other, each once, in no order that a caller may rely on.
    pub fn members(&self, process: TaskKey) -> Members<'_>
        requires { process < length self.now.threads }
        ensures { AreMembers (processes_of self.now) process result }
    {
        self.lists.members(process)
    }

    /// Whether the first thread of the process has left. It costs one read, and none past the room.
    #[inline(always)]
    pub fn has_left(&self, process: TaskKey) -> bool
        ensures { result ≡ left_at self.now process }
    {
        (process as usize) < self.left.len() && self.left[process as usize]
    }

    /// What is true at any time; the call does nothing. There is as much room for processes as for threads, the key of
    /// each thread's process is in it, and there are at most 2^30 keys.
    pub fn laws(&self)
        ensures rooms { length self.now.left ≡ length self.now.threads }
        ensures known { (k p : ℕ) → thread_process self.now k ≡ Some p → p < length self.now.threads }
        ensures few { length self.now.threads ≤ 2 ^ 30 }
    {
        let _ = &self.lists;
    }

    /// A thread begins at a key that has none: `clone(2)` with `CLONE_THREAD`.
    pub fn enter(&mut self, key: TaskKey, thread: Thread)
        requires key { key < length self.old.threads }
        requires vacant { thread_with self.old key ≡ None }
        requires process { thread.process < length self.old.threads }
        ensures threads { self.new.threads ≡ slice_set self.old.threads key (Some thread) }
        ensures left { self.new.left ≡ self.old.left }
    {
        self.lists.add(key, thread.process);
        self.places[key as usize] = place_of(thread);
        self.count += 1;
    }

    /// The thread goes to another home, or its children to another namespace: it stays in its process.
    pub fn update(&mut self, key: TaskKey, thread: Thread)
        requires { thread_process self.old key ≡ Some thread.process }
        ensures threads { self.new.threads ≡ slice_set self.old.threads key (Some thread) }
        ensures left { self.new.left ≡ self.old.left }
    {
        self.places[key as usize] = place_of(thread);
    }

    /// The thread is gone at once: nobody can wait for it (`clone(2)`).
    pub fn remove(&mut self, key: TaskKey)
        requires { IsSome (thread_with self.old key) }
        ensures threads { self.new.threads ≡ slice_set self.old.threads key None }
        ensures left { self.new.left ≡ self.old.left }
    {
        self.lists.remove(key);
        self.count -= 1;
    }

    /// The first thread of the process has left, by `_exit(2)` as a system call, and others run.
    pub fn mark_left(&mut self, process: TaskKey)
        requires { process < length self.old.left }
        ensures left { self.new.left ≡ slice_set self.old.left process true }
        ensures threads { self.new.threads ≡ self.old.threads }
    {
        self.left[process as usize] = true;
    }

    /// The process is gone, or has a first thread again, as after `execve(2)`. Past the room it does nothing.
    #[inline(always)]
    pub fn clear_left(&mut self, process: TaskKey)
        ensures here { left_at self.new process ≡ false }
        ensures others { (p : ℕ) → p ≢ process → left_at self.new p ≡ left_at self.old p }
        ensures keys { length self.new.left ≡ length self.old.left }
        ensures threads { self.new.threads ≡ self.old.threads }
    {
        if (process as usize) < self.left.len() {
            self.left[process as usize] = false;
        }
    }
}
