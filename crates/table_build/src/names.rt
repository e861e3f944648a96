//! Names of a text: each gets its numbers by a task that bears it.
ghost use Rattle.std.specs.Prelude.{◌≡◌, true, false, length, reverse, None, IsTrue, OnOk, OnErr, IfOk, IfSome, IsSome};
ghost use Rattle.{
  pid_types.specs.{Membership.{IsIn}, Names.{names_in_use}, Sound.{IsSound}, State.{State}},
  pid_numbers.specs.Numbering.{namespace_at, path_at},
  pids_charge.specs.Charges.{stands},
  task_tree.specs.Tree.{lives},
  table_build.specs.{Ungrouped.{IsUngrouped}, Bare.{HasCursors}, Follows.{MayBear}, Parts.{IsPart, IsUnborne}},
  table_build.specs.{Kept.{AddsTask}, Recent.{Bears, IsRecent, MayFind}, Stages.{MovesCursors, lone_row, Blames}},
};

use crate::fault::BuildFault;
use arrayvec::ArrayVec;
use pid_types::keys::{Pid, SpaceKey, TaskKey};
use pid_types::plain::{LEVELS, Name};
use task_table::Tasks;
use task_table::view::laws;
use task_tree::Task;
use translate::shown::{blank_row, write_name};

/// The next draws begin at the numbers: the first one in the namespace, the others in those around it.
fn put_cursors(store: &mut Tasks, space: SpaceKey, numbers: &[Pid])
    requires { IsSome (namespace_at store.old.numbering space) }
    ensures moved { MovesCursors store.old store.new }
    ensures put { HasCursors store.new.numbering (path_at store.old.numbering space) numbers.now (length numbers.now) }
{
    laws(store);
    let mut next = Some(space);
    for number in numbers {
        let Some(key) = next else {
            return;
        };
        if store.numbers().id(key).is_none() {
            return;
        }
        store.put_cursor(key, *number);
        next = store.numbers().parent(key);
    }
}

/// Why the name cannot have its numbers: there are too few or too many, one is out of range, or one is in use.
fn name_fault(store: &Tasks, space: SpaceKey, name: &Name, line: u64) -> BuildFault
    requires { IsSome (namespace_at store.now.numbering space) }
{
    let bound = store.numbers().pid_max();
    for number in name.numbers.as_slice() {
        if *number == 0 || *number >= bound {
            return BuildFault::BadName(line);
        }
    }
    if name.numbers.is_empty() || name.numbers.len() - 1 != store.numbers().level(space) {
        return BuildFault::BadName(line);
    }
    BuildFault::TakenNumber(line)
}

/// Writes the numbers of the name over others, the one of its own namespace first.
fn write_innermost_first(name: &Name, numbers: &mut ArrayVec<Pid, LEVELS>)
    ensures { numbers.new.items ≡ reverse name.now.numbers.items }
{
    numbers.clear();
    if numbers
        .try_extend_from_slice(name.numbers.as_slice())
        .is_err()
    {
        unreachable!()
    }
    numbers.reverse();
}

/// Whether the numbers are the same.
fn are_same(planned: &[Pid], wanted: &[Pid]) -> bool
    ensures { (IsTrue result → planned.now ≡ wanted.now) × (result ≡ false → planned.now ≡ wanted.now → ⊥) }
{
    planned == wanted
}

/// Gives the name its numbers: a live task begins that bears it, without a parent, in a group and a session of its own.
/// Its key is answered.
pub fn put_name(
    store: &mut Tasks,
    name: &Name,
    task: Task,
    line: u64,
) -> Result<TaskKey, BuildFault>
    requires ungrouped { IsUngrouped store.old }
    requires live { lives task ≡ true }
    requires home { stands store.old.charges task.home ≡ true }
    ensures added { IfOk result (λ key. AddsTask store.old store.new key (lone_row store.old name.now task)) }
    ensures refused { Blames result (MayBear store.old.numbering name.now → ⊥) }
{
    laws(store);
    let Some(space) = store.numbers().find_space(name.space) else {
        return Err(BuildFault::UnknownNamespace(line));
    };
    let mut wanted = ArrayVec::<Pid, LEVELS>::new();
    write_innermost_first(name, &mut wanted);
    put_cursors(store, space, wanted.as_slice());
    let mut planned = ArrayVec::<Pid, LEVELS>::new();
    if let Err(_full) = store.numbers().plan_into(space, &mut planned) {
        return Err(name_fault(store, space, name, line));
    }
    if !are_same(planned.as_slice(), wanted.as_slice()) {
        return Err(name_fault(store, space, name, line));
    }
    laws(store);
    let key = store.fork(None, space, planned.as_slice(), task)?;
    laws(store);
    Ok(key)
}

/// The name that was found last, and who has it.
#[derive(Drop)]
pub struct RecentName {
    name: Name,
    key: Option<TaskKey>,
}

impl RecentName {
    /// None was found yet.
    pub fn none() -> RecentName
        ensures { result.key ≡ None }
    {
        RecentName {
            name: blank_row().name,
            key: None,
        }
    }
}

/// The identifier that has the name; none where nobody has its number in the root namespace. Another name with that
/// number is a fault. Where it is the name that was found last, no search is made.
pub fn find_name(
    store: &Tasks,
    name: &Name,
    last: &mut RecentName,
    line: u64,
) -> Result<Option<TaskKey>, BuildFault>
    requires { MayFind store.now last.old }
    ensures recent { OnOk result (IsRecent store.now last.new) }
    ensures found { IfOk result (λ found. IfSome found (λ key. Bears store.now key name.now)) }
    ensures nobody { IfOk result (λ found. found ≡ None → IsUnborne store.now name.now) }
    ensures refused { OnErr result ((text : State) → IsSound text → IsPart store.now text
        → IsIn name.now (names_in_use text.rows) → ⊥) }
{
    laws(store);
    if last.key.is_some() && last.name == *name {
        return Ok(last.key);
    }
    let Some(root) = name.numbers.first() else {
        return Err(BuildFault::BadName(line));
    };
    let Some(key) = store.numbers().find(0, *root) else {
        return Ok(None);
    };
    last.key = None;
    write_name(store, key, &mut last.name);
    if last.name != *name {
        return Err(BuildFault::TakenNumber(line));
    }
    last.key = Some(key);
    Ok(Some(key))
}
