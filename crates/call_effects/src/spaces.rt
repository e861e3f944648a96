//! The namespaces of tasks and of the names of their groups and sessions, and what became of them.

ghost use Rattle.std.specs.Prelude.{◌≡◌, ◌+◌, ◌≤◌, ◌++◌, ℕ, flat_map, length, vec_len, vec_capacity, IfOk, IsTrue};
ghost use Rattle.std.specs.Prelude.{OnOk};
ghost use Rattle.{
  pid_types.specs.Membership.{IsIn},
  translate.specs.Pages.{AreListedFrom},
  call_effects.specs.Effects.{is_space, takes_tasks},
  call_effects.specs.Spaces.{ending_of_space, going_of_space, changes_of_space, inner_path, watched_spaces},
  call_effects.specs.Touched.{AreWatchedSpaces},
};

use crate::distinct::sort_distinct;
use crate::effect::Effect;
use crate::tasks::{Watched, add};
use pid_table::PidTable;
use std::alloc::AllocError;

/// A namespace that may fall or go, and whether it stood before the call.
#[derive(Clone, Copy)]
pub struct WatchedSpace {
    pub id: u64,
    pub stood: bool,
}

/// The namespaces of the tasks and of the names of their groups and sessions, each once. The error is want of memory.
fn list_own(table: &PidTable, tasks: &[Watched]) -> Result<Vec<u64>, AllocError>
    ensures { IfOk result (λ r. AreListedFrom (flat_map watched_spaces tasks.now) 0 r.items) }
{
    let mut ids = Vec::new(table.allocator());
    for watched in tasks {
        ids.push(watched.before.space)?;
        ids.push(watched.before.group_space)?;
        ids.push(watched.before.session_space)?;
    }
    sort_distinct(&mut ids);
    Ok(ids)
}

/// Adds the namespace and those around it, but the root namespace. The error is want of memory.
fn add_path(table: &PidTable, id: u64, ids: &mut Vec<u64>) -> Result<(), AllocError>
    requires { IsTrue (is_space table.now id) }
    ensures { OnOk result (ids.new.items ≡ ids.old.items ++ inner_path table.now id) }
{
    table.laws();
    let Some(space) = table.space(id) else {
        unreachable!()
    };
    let Some(parent) = space.parent else {
        return Ok(());
    };
    ids.push(id)?;
    add_path(table, parent, ids)
}

/// The namespaces that may fall or go where the tasks are touched, each once, by rising ids: those of their names and
/// all around these, but the root namespace. The error is want of memory.
pub(crate) fn list_spaces(table: &PidTable, tasks: &[Watched]) -> Result<Vec<u64>, AllocError>
    requires { (id : ℕ) → IsIn id (flat_map watched_spaces tasks.now) → IsTrue (is_space table.now id) }
    ensures { IfOk result (λ r. (own : _) × AreListedFrom (flat_map watched_spaces tasks.now) 0 own
        × AreListedFrom (flat_map (inner_path table.now) own) 0 r.items) }
{
    let own = list_own(table, tasks)?;
    let mut ids = Vec::new(table.allocator());
    for id in &own {
        add_path(table, *id, &mut ids)?;
    }
    sort_distinct(&mut ids);
    Ok(ids)
}

/// The namespaces with the ids, each as it stands. The error is want of memory.
pub(crate) fn watch_spaces(table: &PidTable, ids: &[u64]) -> Result<Vec<WatchedSpace>, AllocError>
    ensures { IfOk result (λ r. AreWatchedSpaces table.now ids.now r.items) }
{
    let mut spaces = Vec::with_capacity(table.allocator(), ids.len())?;
    for id in ids {
        spaces.push(WatchedSpace {
            id: *id,
            stood: is_standing(table, *id),
        })?;
    }
    Ok(spaces)
}

/// Whether the namespace is there and has not fallen.
fn is_standing(table: &PidTable, id: u64) -> bool
    ensures { result ≡ takes_tasks table.now id }
{
    match table.space(id) {
        Some(space) => !space.fallen,
        None => false,
    }
}

/// The fall of a namespace that stood.
fn read_fall(table: &PidTable, watched: &WatchedSpace) -> Option<Effect>
    ensures { result ≡ ending_of_space table.now watched.now }
{
    if watched.stood && !is_standing(table, watched.id) {
        return Some(Effect::SpaceFell { id: watched.id });
    }
    None
}

/// The end of a namespace that was there.
fn read_end(table: &PidTable, watched: &WatchedSpace) -> Option<Effect>
    ensures { result ≡ going_of_space table.now watched.now }
{
    match table.space(watched.id) {
        Some(_) => None,
        None => Some(Effect::SpaceGone { id: watched.id }),
    }
}

/// Adds what became of the namespaces. It takes no memory: there is room for two effects on each.
pub(crate) fn add_space_changes(table: &PidTable, spaces: &[WatchedSpace], told: &mut Vec<Effect>)
    requires { vec_len told.old + length spaces.now + length spaces.now ≤ vec_capacity told.old }
    ensures items { told.new.items ≡ told.old.items ++ flat_map (changes_of_space table.now) spaces.now }
    ensures len { vec_len told.new ≤ vec_len told.old + length spaces.now + length spaces.now }
{
    for watched in spaces {
        add(read_fall(table, watched), told);
        add(read_end(table, watched), told);
    }
}
