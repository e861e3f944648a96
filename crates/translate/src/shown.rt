//! The plain state of a store: what a snapshot shows.

ghost use Rattle.std.specs.Prelude.{◌≡◌, ◌+◌, ◌<◌, ◌≤◌, Some, None, true, IsSome, IfSome, IfOk, OnOk, map, option_map};
ghost use Rattle.std.specs.Prelude.{◌++◌, ◌∷◌, []};
ghost use Rattle.{
  pid_types.specs.{Controls.{parent_control}, Settings.{HasGoodPidMax}, Shown.{Shows, with_count}},
  pid_numbers.specs.Numbering.{id_at, identifier_at},
  task_tree.specs.Tree.{task_at, parent_of},
  pids_charge.specs.Charges.{stands, home_id},
  task_table.specs.{View.{name_at, row_of, parent_id, space_of, state_of}, Whole.{IsWhole, HasParents}},
  translate.specs.{ById.{control_row_of}, From.{rows_from}},
};

use arrayvec::ArrayVec;
use pid_types::call::Kind;
use pid_types::keys::{ControlKey, IdentKey, Pid, SpaceKey, TaskKey};
use pid_types::plain::{ControlRow, Life, Name, Plain, Row, Space};
use std::alloc::AllocError;
use task_table::Tasks;
use task_table::view::{Found, find_task, laws};

/// Writes the name of an identifier over another.
#[inline(always)]
pub fn write_name(store: &Tasks, key: IdentKey, name: &mut Name)
    requires { IsSome (identifier_at store.now.numbering key) }
    ensures { name.new ≡ name_at store.now.numbering key }
{
    store.numbers().write_name(key, name);
}

/// A name to be written over.
fn no_name() -> Name {
    Name {
        space: 0,
        numbers: ArrayVec::new(),
    }
}

/// Writes the name of a task's parent; none of the root init's.
fn write_parent(store: &Tasks, key: TaskKey, name: &mut Option<Name>)
    requires parents { HasParents store.now }
    requires there { IsSome (task_at store.now.tree key) }
    ensures { name.new ≡ option_map (name_at store.now.numbering) (parent_of store.now.tree key) }
{
    laws(store);
    let Some(parent) = store.tree().parent(key) else {
        *name = None;
        return;
    };
    write_name(store, parent, name.get_or_insert_with(no_name));
}

/// Writes the row of a task over another.
fn write_row(store: &Tasks, found: &Found, row: &mut Row)
    requires parents { HasParents store.now }
    requires there { task_at store.now.tree found.now.key ≡ Some found.now.task }
    ensures { row.new ≡ row_of store.now found.now.key found.now.task }
{
    laws(store);
    let group = store.members().group(found.key);
    let session = store.members().session(found.key);
    write_name(store, found.key, &mut row.name);
    write_parent(store, found.key, &mut row.parent);
    write_name(store, group, &mut row.group);
    write_name(store, session, &mut row.session);
    row.executed = found.task.executed;
    row.life = found.task.life;
    row.home = store.controls().home_id(found.task.home);
    row.children_space = found.task.children_space;
    row.subreaper = found.task.subreaper;
}

/// A row to be written over.
pub fn blank_row() -> Row {
    Row {
        name: no_name(),
        parent: Some(no_name()),
        group: no_name(),
        session: no_name(),
        executed: false,
        life: Life::Live,
        home: 0,
        children_space: 0,
        subreaper: false,
    }
}

/// Adds the row of a task, which is written where it stands: a row has room for four names of 33 numbers. The error is
/// want of memory.
fn push_row(store: &Tasks, found: &Found, rows: &mut Vec<Row>) -> Result<(), AllocError>
    requires parents { HasParents store.now }
    requires there { task_at store.now.tree found.now.key ≡ Some found.now.task }
    ensures { OnOk result (rows.new.items ≡ rows.old.items ++ row_of store.now found.now.key found.now.task ∷ []) }
{
    rows.push(blank_row())?;
    let last = rows.len() - 1;
    write_row(store, found, &mut rows[last]);
    Ok(())
}

/// The first task from a number in the root namespace on, with its number there.
fn task_from(store: &Tasks, from: Pid) -> Option<(Pid, Found)>
    ensures there { IfSome result (λ f. task_at store.now.tree f.1.key ≡ Some f.1.task) }
    ensures next { IfSome result (λ f. rows_from (state_of store.now).rows from
        ≡ row_of store.now f.1.key f.1.task ∷ rows_from (state_of store.now).rows (f.0 + 1)) }
    ensures above { IfSome result (λ f. (from ≤ f.0) × (f.0 < store.now.numbering.pid_max)) }
    ensures good { HasGoodPidMax store.now.numbering.pid_max }
    ensures none { result ≡ None → rows_from (state_of store.now).rows from ≡ [] }
{
    laws(store);
    let Some(number) = store.numbers().next_used(0, Kind::Task, from) else {
        return None;
    };
    let Some(found) = find_task(store, 0, number) else {
        unreachable!()
    };
    Some((number, found))
}

/// Writes the row of the first task from a number in the root namespace on over another, and answers the task's number
/// there. Where there is no such task, nothing is written.
///
/// So a walk over all tasks in their order begins at 0 and goes on behind each answer. A step costs two searches in the
/// root's tree of numbers and a few reads; a name has a number for each level, 33 at most. It takes no memory.
pub fn next_row(store: &Tasks, from: Pid, row: &mut Row) -> Option<Pid>
    requires { HasParents store.now }
    ensures next { IfSome result (λ n. rows_from (state_of store.now).rows from
        ≡ row.new ∷ rows_from (state_of store.now).rows (n + 1)) }
    ensures above { IfSome result (λ n. (from ≤ n) × (n < store.now.numbering.pid_max)) }
    ensures good { HasGoodPidMax store.now.numbering.pid_max }
    ensures none { result ≡ None → rows_from (state_of store.now).rows from ≡ [] }
{
    let Some((number, found)) = task_from(store, from) else {
        return None;
    };
    write_row(store, &found, row);
    Some(number)
}

/// The tasks by their numbers in the root namespace.
fn all_rows(store: &Tasks) -> Result<Vec<Row>, AllocError>
    requires { HasParents store.now }
    ensures { IfOk result (λ rows. rows.items ≡ (state_of store.now).rows) }
{
    let mut rows = Vec::new(store.numbers().allocator());
    let mut from = 0u32;
    while let Some((number, found)) = task_from(store, from) {
        push_row(store, &found, &mut rows)?;
        from = number + 1;
    }
    Ok(rows)
}

/// The id of the namespace that a namespace is in; none of the root's.
fn outer_id(store: &Tasks, key: SpaceKey) -> Option<u64>
    ensures { result ≡ parent_id store.now.numbering key }
{
    match store.numbers().parent(key) {
        Some(parent) => store.numbers().id(parent),
        None => None,
    }
}

/// A namespace.
pub(crate) fn space_row(store: &Tasks, id: u64, key: SpaceKey) -> Space
    ensures { result ≡ space_of store.now.numbering (id, key) }
{
    Space {
        id,
        parent: outer_id(store, key),
        cursor: store.numbers().cursor(key).unwrap_or(0),
        fallen: store.numbers().is_fallen(key),
    }
}

/// The namespaces by their ids. It costs a few reads for each. The error is want of memory.
pub fn all_spaces(store: &Tasks) -> Result<Vec<Space>, AllocError>
    ensures { IfOk result (λ spaces. spaces.items ≡ (state_of store.now).spaces) }
{
    let mut spaces = Vec::new(store.numbers().allocator());
    for (id, key) in store.numbers().keys() {
        spaces.push(space_row(store, id, key))?;
    }
    Ok(spaces)
}

/// The id of the control group that a control group is in; none of the root's.
fn outer_control(store: &Tasks, key: ControlKey) -> Option<u64>
    requires { stands store.now.charges key ≡ true }
    ensures { result ≡ parent_control store.now.charges.controls (home_id store.now.charges key) }
{
    match store.controls().parent(key) {
        Some(parent) => Some(store.controls().id(parent)),
        None => None,
    }
}

/// A control group with its count.
fn control_row(store: &Tasks, id: u64, key: ControlKey) -> ControlRow
    requires whole { IsWhole store.now }
    requires stands { stands store.now.charges key ≡ true }
    requires id { home_id store.now.charges key ≡ id }
    ensures { result ≡ control_row_of (state_of store.now) id }
{
    laws(store);
    ControlRow {
        id,
        parent: outer_control(store, key),
        limit: store.controls().limit(key),
        count: store.controls().count(key),
    }
}

/// The control groups by their ids, each with its count. It costs a few reads for each. The error is want of memory.
pub fn all_controls(store: &Tasks) -> Result<Vec<ControlRow>, AllocError>
    requires { IsWhole store.now }
    ensures { IfOk result (λ rows. rows.items ≡ map (with_count (state_of store.now)) (state_of store.now).controls) }
{
    let mut rows = Vec::new(store.numbers().allocator());
    for (id, key) in store.controls().keys() {
        rows.push(control_row(store, id, key))?;
    }
    Ok(rows)
}

/// The plain state: the tasks by their numbers in the root namespace, the namespaces and the control groups by their
/// ids, each group with its count.
///
/// It costs two searches in the root's tree of numbers and a few reads for each task, and a few reads for each
/// namespace and each control group; a name has a number for each level, 33 at most. The error is want of memory.
pub fn snapshot(store: &Tasks) -> Result<Plain, AllocError>
    requires { IsWhole store.now }
    ensures { IfOk result (Shows (state_of store.now)) }
{
    Ok(Plain {
        pid_max: store.numbers().pid_max(),
        rows: all_rows(store)?,
        spaces: all_spaces(store)?,
        controls: all_controls(store)?,
    })
}
