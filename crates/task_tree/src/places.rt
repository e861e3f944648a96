//! Tasks by key, as they lie in memory.
ghost use Rattle.std.specs.Prelude.{◌≡◌, ◌+◌, ◌<◌, ◌≤◌, ◌^◌, length, None, Some, OnOk, OnErr, [], ◌++◌, replicate};
ghost use Rattle.std.specs.Prelude.{slice_set, slice_index_or, IsSome};
ghost use Rattle.task_tree.specs.{Places.{task_in, life_in}, Tree.{has_live, is_subreaper}};

use crate::Task;
use pid_types::keys::{ControlKey, TaskKey};
use pid_types::plain::{Ended, Life};
use std::alloc::{AllocError, Global};
use std::marker::Model;

/// Whether a key has a task, and whether that has ended. It takes two bytes, and an `Option<Life>` four.
#[derive(Clone, Copy)]
enum Standing {
    Vacant,
    Alive,
    Exited(u8),
    Killed,
}

/// What a key has: a task, or none where it is vacant. It takes 16 bytes, and an `Option<Task>` 32.
#[derive(Clone, Copy)]
struct Place {
    children_space: u64,
    home: ControlKey,
    executed: bool,
    subreaper: bool,
    standing: Standing,
}

/// At each key a task or none.
#[derive(Drop)]
pub(crate) struct Places {
    places: Vec<Place>,
}

impl Model for Places {
    ghost use Rattle.std.specs.Prelude.{List, Option, map};
    ghost use Rattle.task_tree.specs.{declared.Task.{Task}, Places.{task_in}};

    ghost Value = { List (Option Task) };

    ghost view = { λ a. map task_in a.places.items };
}

/// What a key has that has no task.
fn vacant() -> Place
    ensures { task_in result ≡ None }
{
    Place {
        children_space: 0,
        home: 0,
        executed: false,
        subreaper: false,
        standing: Standing::Vacant,
    }
}

/// How a task with the life stands.
#[inline(always)]
fn standing_of(life: Life) -> Standing
    ensures { life_in result ≡ Some life }
{
    match life {
        Life::Live => Standing::Alive,
        Life::Zombie(Ended::Exited(status)) => Standing::Exited(status),
        Life::Zombie(Ended::Killed) => Standing::Killed,
    }
}

/// The life of a task that stands so; none where the key is vacant.
#[inline(always)]
fn life_of(standing: Standing) -> Option<Life>
    ensures { result ≡ life_in standing }
{
    match standing {
        Standing::Vacant => None,
        Standing::Alive => Some(Life::Live),
        Standing::Exited(status) => Some(Life::Zombie(Ended::Exited(status))),
        Standing::Killed => Some(Life::Zombie(Ended::Killed)),
    }
}

/// Whether a place has a task that has not ended.
#[inline(always)]
fn is_live(place: &Place) -> bool
    ensures { result ≡ has_live (task_in place.now) }
{
    match place.standing {
        Standing::Alive => true,
        Standing::Vacant | Standing::Exited(_) | Standing::Killed => false,
    }
}

/// What a key with the task has.
#[inline(always)]
fn place_of(task: Option<Task>) -> Place
    ensures { task_in result ≡ task }
{
    match task {
        Some(task) => Place {
            children_space: task.children_space,
            home: task.home,
            executed: task.executed,
            subreaper: task.subreaper,
            standing: standing_of(task.life),
        },
        None => vacant(),
    }
}

/// The task of a place.
#[inline(always)]
fn read_task(place: Place) -> Option<Task>
    ensures { result ≡ task_in place }
{
    let life = life_of(place.standing)?;
    Some(Task {
        children_space: place.children_space,
        home: place.home,
        executed: place.executed,
        subreaper: place.subreaper,
        life,
    })
}

impl Places {
    /// No keys.
    pub(crate) fn new(alloc: Global) -> Places
        ensures { result ≡ [] }
    {
        Places {
            places: Vec::new(alloc),
        }
    }

    /// So many keys more, without a task. The error is want of memory.
    pub(crate) fn grow(&mut self, more: usize) -> Result<(), AllocError>
        requires { length self.old + more ≤ 2 ^ 30 }
        ensures ok { OnOk result (self.new ≡ self.old ++ replicate more None) }
        ensures err { OnErr result (self.new ≡ self.old) }
    {
        let keys = self.places.len() + more;
        self.places.resize(keys, vacant())?;
        Ok(())
    }

    /// How many keys there are.
    pub(crate) fn keys(&self) -> usize
        ensures { result ≡ length self.now }
    {
        self.places.len()
    }

    /// The task with the key.
    #[inline(always)]
    pub(crate) fn task(&self, key: TaskKey) -> Option<Task>
        ensures { result ≡ slice_index_or self.now key None }
    {
        read_task(*self.places.get(key as usize)?)
    }

    /// Whether the key has a task that has not ended.
    #[inline(always)]
    pub(crate) fn is_live_at(&self, key: TaskKey) -> bool
        ensures { result ≡ has_live (slice_index_or self.now key None) }
    {
        match self.places.get(key as usize) {
            Some(place) => is_live(place),
            None => false,
        }
    }

    /// Whether the task with the key, which is there, is a subreaper.
    #[inline(always)]
    pub(crate) fn is_subreaper_at(&self, key: TaskKey) -> bool
        requires { IsSome (slice_index_or self.now key None) }
        ensures { result ≡ is_subreaper (slice_index_or self.now key None) }
    {
        self.places[key as usize].subreaper
    }

    /// A task, or none, comes in the place of what the key had.
    #[inline(always)]
    pub(crate) fn set(&mut self, key: TaskKey, task: Option<Task>)
        requires { key < length self.old }
        ensures { self.new ≡ slice_set self.old key task }
    {
        self.places[key as usize] = place_of(task);
    }
}
