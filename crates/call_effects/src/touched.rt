//! Those whom a call may touch, before it is made and behind it, and what may end with that.

ghost use Rattle.std.specs.Prelude.{◌≡◌, ◌+◌, ◌<◌, ◌≤◌, ℕ, [], length, IfOk, IfSome, IsSome, IsTrue, OnErr};
ghost use Rattle.{
  pid_types.specs.{Membership.{IsIn}, Sound.{IsBelow, IsRising, IsSound}, State.{State}, Step.{step}},
  translate.specs.Relations.{relations_at},
  call_effects.specs.{Effects.{AreEffects}, Reckoned.{IsReckoned, Reckons}},
  call_effects.specs.Touched.{is_touching, most_in, most_of, AreWatched, KeepsParents, Touches, Watches},
};

use crate::belonging::{add_gone, list_owners};
use crate::effect::Effect;
use crate::spaces::{WatchedSpace, add_space_changes, list_spaces, watch_spaces};
use crate::tasks::{Watched, add_changes};
use crate::whom::{may_touch, touched_by};
use pid_table::PidTable;
use pid_types::call::{Call, Kind};
use pid_types::keys::Pid;
use std::alloc::AllocError;
use std::marker::Model;

/// The tasks that a call may touch, and the process groups, the sessions and the namespaces that may end with that, as
/// they are before it, and the memory for what became of them.
#[derive(Drop)]
pub struct Touched {
    tasks: Vec<Watched>,
    groups: Vec<Pid>,
    sessions: Vec<Pid>,
    spaces: Vec<WatchedSpace>,
    told: Vec<Effect>,
}

impl Model for Touched {
    ghost use Rattle.std.specs.Prelude.{◌≡◌, ◌+◌, ◌≤◌, [], length, vec_len, vec_capacity};
    ghost use Rattle.call_effects.specs.Touched.{most_of, Watching};

    ghost Value = { Watching };

    ghost view = { λ t. record {
      tasks = t.tasks.items;
      groups = t.groups.items;
      sessions = t.sessions.items;
      spaces = t.spaces.items;
    } };

    ghost invariant = { λ t. (t.told.items ≡ []) × (most_of (record {
      tasks = t.tasks.items;
      groups = t.groups.items;
      sessions = t.sessions.items;
      spaces = t.spaces.items;
    }) ≤ vec_capacity t.told) };
}

/// The tasks with the numbers, each with its relations. The error is want of memory.
fn read_all(table: &PidTable, numbers: &[Pid]) -> Result<Vec<Watched>, AllocError>
    requires { (n : ℕ) → IsIn n numbers.now → IsSome (relations_at table.now.rows n) }
    ensures { IfOk result (λ r. AreWatched table.now numbers.now r.items) }
{
    let mut tasks = Vec::with_capacity(table.allocator(), numbers.len())?;
    for number in numbers {
        let Some(before) = table.relations(*number) else {
            unreachable!()
        };
        tasks.push(Watched {
            number: *number,
            before,
        })?;
    }
    Ok(tasks)
}

/// Two for each task and for each namespace, one for each group and for each session; none where that is no number.
fn room_for(tasks: usize, groups: usize, sessions: usize, spaces: usize) -> Option<usize>
    ensures { IfSome result (λ room. room ≡ tasks + tasks + groups + sessions + spaces + spaces) }
{
    let ended = groups.checked_add(sessions)?;
    let room = tasks.checked_mul(2)?.checked_add(ended)?;
    room.checked_add(spaces.checked_mul(2)?)
}

impl Touched {
    /// Nobody, and no memory.
    fn none(table: &PidTable) -> Touched
        ensures { result ≡ record { tasks = []; groups = []; sessions = []; spaces = [] } }
    {
        Touched {
            tasks: Vec::new(table.allocator()),
            groups: Vec::new(table.allocator()),
            sessions: Vec::new(table.allocator()),
            spaces: Vec::new(table.allocator()),
            told: Vec::new(table.allocator()),
        }
    }

    /// Looks at the tasks with the numbers, and at what may end where these are touched. The error is want of memory.
    fn watch(table: &PidTable, numbers: &[Pid]) -> Result<Touched, AllocError>
        requires rising { IsRising numbers.now }
        requires there { (n : ℕ) → IsIn n numbers.now → IsSome (relations_at table.now.rows n) }
        ensures watches { IfOk result (λ w. (new : State) → IsSound new → Touches table.now new numbers.now
            → KeepsParents table.now new → Watches table.now new w) }
        ensures reckoned { IfOk result (IsReckoned table.now numbers.now) }
        ensures few { IfOk result (λ w. most_of w ≤ most_in table.now) }
    {
        table.laws();
        table.no_threads();
        let tasks = read_all(table, numbers)?;
        let groups = list_owners(table, Kind::Group, &tasks)?;
        let sessions = list_owners(table, Kind::Session, &tasks)?;
        let ids = list_spaces(table, &tasks)?;
        let spaces = watch_spaces(table, &ids)?;
        let Some(room) = room_for(tasks.len(), groups.len(), sessions.len(), spaces.len()) else {
            return Err(AllocError);
        };
        let told = Vec::with_capacity(table.allocator(), room)?;
        Ok(Touched {
            tasks,
            groups,
            sessions,
            spaces,
            told,
        })
    }

    /// Looks at those whom the call at the stamp may touch, and at what may end with that. It is not made yet, and
    /// nothing changes. The error is want of memory, and comes only of a call that may touch a task.
    ///
    /// It costs what [`PidTable::would`] costs; for an exit besides a search for each child, or where the caller is the
    /// init of its namespace for each task in that; a search for each namespace around them, and the sorting of
    /// numbers.
    pub fn before(table: &PidTable, stamp: u64, call: Call) -> Result<Touched, AllocError>
        requires { IsBelow stamp table.now }
        ensures watches { IfOk result (Watches table.now (step table.now stamp call).state) }
        ensures reckons { IfOk result (Reckons table.now stamp call) }
        ensures few { IfOk result (λ w. most_of w ≤ most_in table.now) }
        ensures touching { IfOk result (λ w. 0 < most_of w → IsTrue (is_touching call)) }
        ensures err { OnErr result (IsTrue (is_touching call)) }
    {
        table.laws();
        table.no_threads();
        if !may_touch(call) {
            return Ok(Touched::none(table));
        }
        let numbers = touched_by(table, stamp, call)?;
        Touched::watch(table, &numbers)
    }

    /// How many effects the call has at most: two for each task that it may touch, and for each namespace of these and
    /// of the names of their groups and sessions and around those, the root namespace left out; one for each of the
    /// groups and of the sessions.
    pub fn most(&self) -> usize
        ensures { result ≡ most_of self.now }
    {
        2 * self.tasks.len() + self.groups.len() + self.sessions.len() + 2 * self.spaces.len()
    }

    /// What became of them, now that the call was made. It takes no memory, and costs a search for each.
    pub fn effects(self, table: &PidTable) -> Vec<Effect>
        ensures effects { (old : State) → Watches old table.now self → AreEffects old table.now result.items }
        ensures most { length result.items ≤ most_of self }
    {
        let Touched {
            tasks,
            groups,
            sessions,
            spaces,
            mut told,
        } = self;
        add_changes(table, &tasks, &mut told);
        add_gone(table, Kind::Group, &groups, &mut told);
        add_gone(table, Kind::Session, &sessions, &mut told);
        add_space_changes(table, &spaces, &mut told);
        told
    }
}
