//! The tasks of a namespace: whom `kill(2)` of -1 reaches there, and what an `ls` of its `/proc` lists
//! (`pid_namespaces(7)`, "/proc and PID namespaces").

ghost use Rattle.std.specs.Prelude.{◌≡◌, ◌++◌, ◌+◌, ℕ, Some, None, if◌then◌else◌, IfOk, OnOk};
ghost use Rattle.{
  pid_numbers.specs.Numbering.{id_at, number_of},
  task_table.specs.View.{state_of},
  translate.specs.{Members.{visible_numbers}, Pages.{AreLeastFrom}, Passed.{is_reached, numbers_passed, ArePassedFor}},
};

use crate::page::cut;
use pid_types::call::Kind;
use pid_types::keys::{Pid, SpaceKey, TaskKey};
use std::alloc::AllocError;
use task_table::Tasks;
use task_table::view::laws;

/// Which tasks of a namespace are meant.
#[derive(Clone, Copy)]
pub enum Reach {
    /// Those that are in it and in no namespace inside it.
    Own,
    /// Those too that are in a namespace inside it: all that it sees.
    Subtree,
}

/// A namespace, by its key, whose tasks are listed, by the numbers that a namespace has for them.
#[derive(Clone, Copy)]
pub(crate) struct Asked {
    pub(crate) space: SpaceKey,
    pub(crate) reach: Reach,
    /// The key of the namespace that has the numbers.
    pub(crate) viewer: SpaceKey,
    /// No number below this one is listed.
    pub(crate) from: Pid,
}

/// Whether the task with the key is one of those meant.
fn is_meant(store: &Tasks, asked: &Asked, key: TaskKey) -> bool
    ensures { result ≡ is_reached store.now.numbering asked.now.reach asked.now.space key }
{
    match asked.reach {
        Reach::Own => store.numbers().space_of(key) == Some(asked.space),
        Reach::Subtree => store.numbers().number_in(key, asked.space).is_some(),
    }
}

/// The viewer's number of the task with a number in the namespace, if the task is meant and the viewer has one.
fn seen_number(store: &Tasks, asked: &Asked, own: Pid) -> Option<Pid>
    ensures { (k : ℕ) → number_of store.now.numbering k asked.now.space ≡ Some own → result
        ≡ if is_reached store.now.numbering asked.now.reach asked.now.space k
        then number_of store.now.numbering k asked.now.viewer else None }
{
    laws(store);
    // All that a namespace sees are meant, by its own numbers.
    if asked.viewer == asked.space && matches!(asked.reach, Reach::Subtree) {
        return Some(own);
    }
    let key = store.numbers().find(asked.space, own)?;
    if !is_meant(store, asked, key) {
        return None;
    }
    store.numbers().number_in(key, asked.viewer)
}

/// Adds the viewer's number of the task with a number in the namespace, if the task is meant and the viewer has one
/// from the given one on. The error is want of memory.
fn pass(store: &Tasks, asked: &Asked, own: Pid, numbers: &mut Vec<Pid>) -> Result<(), AllocError>
    ensures { OnOk result ((k : ℕ) → number_of store.now.numbering k asked.now.space ≡ Some own
        → numbers.new.items ≡ numbers.old.items ++ numbers_passed store.now.numbering asked.now k) }
{
    match seen_number(store, asked, own) {
        Some(number) if number >= asked.from => numbers.push(number)?,
        _ => {}
    }
    Ok(())
}

/// The numbers of the tasks that are meant, by a walk over the numbers of the namespace. In the viewer's own namespace
/// it begins at the first number that may be listed, and ends with one more than the room takes.
fn gather(store: &Tasks, asked: &Asked, room: usize) -> Result<Vec<Pid>, AllocError>
    ensures { IfOk result (λ r. ArePassedFor store.now asked.now room r.items) }
{
    laws(store);
    let is_own = asked.viewer == asked.space;
    let mut numbers = Vec::new(store.numbers().allocator());
    let mut at = if is_own { asked.from } else { 0 };
    while let Some(number) = store.numbers().next_used(asked.space, Kind::Task, at) {
        pass(store, asked, number, &mut numbers)?;
        if is_own && numbers.len() > room {
            return Ok(numbers);
        }
        at = number + 1;
    }
    Ok(numbers)
}

/// The least of the viewer's numbers of the tasks of the namespace, in rising order, one more than the room takes.
pub(crate) fn list_members(
    store: &Tasks,
    asked: &Asked,
    room: usize,
) -> Result<Vec<Pid>, AllocError>
    ensures { IfOk result (λ r. (s v : ℕ) → id_at store.now.numbering asked.now.space ≡ Some s
        → id_at store.now.numbering asked.now.viewer ≡ Some v
        → AreLeastFrom (visible_numbers (state_of store.now) asked.now.reach s v) asked.now.from (room + 1) r.items) }
{
    laws(store);
    let mut numbers = gather(store, asked, room)?;
    numbers.sort()?;
    cut(&mut numbers, room);
    Ok(numbers)
}
