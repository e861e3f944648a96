//! The tasks of a text get their groups and parents, those that have ended end, and the placeholders go.
ghost use Rattle.std.specs.Prelude.{◌≡◌, ◌≢◌, ◌↔◌, ℕ, ◌<◌, true, false, length, None, Some, IsSome, IsTrue, OnOk};
ghost use Rattle.std.specs.Prelude.{OnErr, IfOk, option_map, slice_get};
ghost use Rattle.{
  pid_types.specs.{Membership.{IsIn}, Names.{names_in_use}, Sound.{IsSound}, State.{State}, declared.plain.Row.{Row}},
  table_text.specs.Reading.{saved_state},
  task_tree.specs.Tree.{parent_of, task_at},
  task_table.specs.View.{name_at, row_with},
  table_build.specs.Grouping.{HasRealParents, IsGroupIn, IsGrouping, IsSeenByParent, MaySettle},
  table_build.specs.{Lines.{AreGroups, AreLines, HasFew, is_held}, Parts.{AreSeated, IsPart}},
  table_build.specs.Recent.{Bears, IsRecent, MayFind},
  table_build.specs.Settling.{ChangesTask, IsSettled, IsToSettle, KeepsGrouping, KeepsSettled, KeepsSettling},
  table_build.specs.Stages.{SetsRow, seated},
};

use crate::fault::BuildFault;
use crate::lines::task_line;
use crate::names::{RecentName, find_name};
use crate::placed::Placed;
use pid_types::keys::TaskKey;
use pid_types::plain::{Ended, Life, Name, Row};
use table_text::read::Saved;
use task_table::Tasks;
use task_table::view::{is_live, laws};
use translate::shown::blank_row;

/// The task goes to its group, all of whose members are in its session.
fn join_group(store: &mut Tasks, key: TaskKey, group: TaskKey, line: u64) -> Result<(), BuildFault>
    requires grouping { IsGrouping store.old }
    ensures joined { OnOk result (ChangesTask store.old store.new key
        (λ row. record row { group = name_at store.old.numbering group })) }
    ensures tree { store.new.tree ≡ store.old.tree }
    ensures refused { OnErr result ((row : Row) → row_with store.old key ≡ Some row
        → IsSome (task_at store.old.tree group)
        → IsGroupIn store.old (name_at store.old.numbering group) row.session → ⊥) }
{
    if store.tree().task(key).is_none() || store.tree().task(group).is_none() {
        return Err(BuildFault::Impossible(line));
    }
    laws(store);
    let session = store.members().session(key);
    match store.members().session_of_group(group) {
        Some(found) if found != session => return Err(BuildFault::Impossible(line)),
        _ => {}
    }
    store.set_group(key, group);
    laws(store);
    Ok(())
}

/// The task becomes a child of its parent.
fn adopt(store: &mut Tasks, key: TaskKey, parent: TaskKey, line: u64) -> Result<(), BuildFault>
    requires grouping { IsGrouping store.old }
    ensures adopted { OnOk result (ChangesTask store.old store.new key
        (λ row. record row { parent = Some (name_at store.old.numbering parent) })) }
    ensures parent { OnOk result (parent_of store.new.tree key ≡ Some parent) }
    ensures parents { (k : ℕ) → k ≢ key → parent_of store.new.tree k ≡ parent_of store.old.tree k }
    ensures rest { store.new ≡ record store.old { tree = store.new.tree } }
    ensures refused { OnErr result ((row : Row) → row_with store.old key ≡ Some row → row.parent ≡ None
        → row.life ≡ Life.Live → IsSome (task_at store.old.tree parent) → ⊥) }
{
    let Some(task) = store.tree().task(key) else {
        return Err(BuildFault::Impossible(line));
    };
    if !is_live(&task)
        || store.tree().parent(key).is_some()
        || store.tree().task(parent).is_none()
    {
        return Err(BuildFault::Impossible(line));
    }
    laws(store);
    store.adopt(key, parent);
    laws(store);
    Ok(())
}

/// Whether the task's parent sees it, if it has one.
fn is_seen_by_parent(store: &Tasks, key: TaskKey) -> bool
    requires { key < length store.now.tree.tasks }
    ensures { IsTrue result ↔ IsSeenByParent store.now key }
{
    let Some(parent) = store.tree().parent(key) else {
        return true;
    };
    match store.numbers().space_of(parent) {
        Some(space) => store.numbers().number_in(key, space).is_some(),
        None => false,
    }
}

/// The task ends, and waits for its parent.
fn end_task(store: &mut Tasks, key: TaskKey, end: Ended, line: u64) -> Result<(), BuildFault>
    requires grouping { IsGrouping store.old }
    ensures ended { OnOk result (ChangesTask store.old store.new key (λ row. record row { life = Life.Zombie end })) }
    ensures parents { (k : ℕ) → parent_of store.new.tree k ≡ parent_of store.old.tree k }
    ensures rest { (store.new.numbering ≡ store.old.numbering) × (store.new.members ≡ store.old.members)
        × (store.new.charges.controls ≡ store.old.charges.controls) }
    ensures refused { OnErr result ((row : Row) → row_with store.old key ≡ Some row → row.life ≡ Life.Live
        → IsSeenByParent store.old key → ⊥) }
{
    let Some(task) = store.tree().task(key) else {
        return Err(BuildFault::Impossible(line));
    };
    if !is_live(&task) || !is_seen_by_parent(store, key) {
        return Err(BuildFault::Impossible(line));
    }
    laws(store);
    store.finish(key, task, end);
    laws(store);
    Ok(())
}

/// The task that the line names as a parent.
fn named_parent(
    store: &Tasks,
    placed: &Placed,
    name: &Name,
    last: &mut RecentName,
    line: u64,
) -> Result<TaskKey, BuildFault>
    requires { MayFind store.now last.old }
    ensures recent { OnOk result (IsRecent store.now last.new) }
    ensures named { IfOk result (λ key. Bears store.now key name.now) }
    ensures real { IfOk result (λ key. is_held placed.now key ≡ false) }
    ensures refused { OnErr result ((text : State) → IsSound text → IsPart store.now text
        → IsIn name.now (names_in_use text.rows) → (k : ℕ) → Bears store.now k name.now
        → is_held placed.now k ≡ false → ⊥) }
{
    laws(store);
    match find_name(store, name, last, line)? {
        Some(key) if !placed.is_placeholder(key) => Ok(key),
        _ => Err(BuildFault::UnknownParent(line)),
    }
}

/// The task of a line gets its parent. Number 1 alone has none.
fn give_parent(
    store: &mut Tasks,
    placed: &Placed,
    key: TaskKey,
    row: &Row,
    last: &mut RecentName,
    line: u64,
) -> Result<(), BuildFault>
    requires { IsToSettle store.old placed.now key row.now last.old }
    ensures keeps { OnOk result (KeepsSettling store.old store.new placed.now last.new) }
    ensures given { OnOk result (SetsRow store.old store.new key (record row.now { life = Life.Live })) }
    ensures refused { OnErr result ((text : State) → MaySettle store.old placed.now row.now text → ⊥) }
{
    let Some(name) = &row.parent else {
        if row.name.numbers.first() == Some(&1) {
            return Ok(());
        }
        return Err(BuildFault::UnknownParent(line));
    };
    let parent = named_parent(store, placed, name, last, line)?;
    adopt(store, key, parent, line)?;
    Ok(())
}

/// The task of a line gets its parent, and ends if it has ended.
fn settle_task(
    store: &mut Tasks,
    placed: &Placed,
    key: TaskKey,
    row: &Row,
    last: &mut RecentName,
    line: u64,
) -> Result<(), BuildFault>
    requires { IsToSettle store.old placed.now key row.now last.old }
    ensures keeps { OnOk result (KeepsSettling store.old store.new placed.now last.new) }
    ensures settled { OnOk result (SetsRow store.old store.new key row.now) }
    ensures refused { OnErr result ((text : State) → MaySettle store.old placed.now row.now text → ⊥) }
{
    give_parent(store, placed, key, row, last, line)?;
    let Life::Zombie(end) = row.life else {
        return Ok(());
    };
    laws(store);
    end_task(store, key, end, line)?;
    Ok(())
}

/// All tasks of lines go to their groups, get their parents, and end if they have ended.
pub fn settle_tasks(store: &mut Tasks, placed: &Placed, saved: &Saved) -> Result<(), BuildFault>
    requires grouping { IsGrouping store.old }
    requires lines { AreLines store.old placed.now (λ j. option_map seated (slice_get saved.now.rows j)) }
    requires groups { AreGroups store.old placed.now saved.now.rows }
    requires real { HasRealParents store.old placed.now }
    requires keys { length placed.now.keys.items ≡ length saved.now.rows }
    requires all { length placed.now.groups.items ≡ length saved.now.rows }
    ensures keeps { OnOk result (KeepsGrouping store.old store.new) }
    ensures lines { OnOk result (AreLines store.new placed.now (slice_get saved.now.rows)) }
    ensures real { OnOk result (HasRealParents store.new placed.now) }
    ensures refused { OnErr result (IsSound (saved_state saved.now) → IsPart store.old (saved_state saved.now)
        → AreSeated store.old placed.now saved.now.rows → ⊥) }
{
    let mut last = RecentName::none();
    let mut row = blank_row();
    for index in 0..saved.rows.len() {
        let line = task_line(index);
        let (Some(key), Some(group)) = (placed.keys.get(index), placed.groups.get(index)) else {
            return Err(BuildFault::Impossible(line));
        };
        saved.rows.write_next(index, &mut row);
        laws(store);
        join_group(store, *key, *group, line)?;
        settle_task(store, placed, *key, &row, &mut last, line)?;
    }
    Ok(())
}

/// The task with the key goes, if it is a placeholder.
fn drop_placeholder(store: &mut Tasks, placed: &Placed, key: TaskKey)
    requires { IsSettled store.old placed.now }
    ensures keeps { KeepsSettled store.old store.new placed.now }
    ensures gone { is_held placed.now key ≡ true → row_with store.new key ≡ None }
    ensures threads { store.new.threads ≡ store.old.threads }
    ensures stays { (k : ℕ) → row_with store.old k ≡ None → row_with store.new k ≡ None }
{
    if !placed.is_placeholder(key) {
        return;
    }
    let Some(task) = store.tree().task(key) else {
        return;
    };
    laws(store);
    store.remove(key, task);
    laws(store);
}

/// The placeholders go. Their names stay, as groups and sessions.
pub fn remove_placeholders(store: &mut Tasks, placed: &Placed)
    requires settled { IsSettled store.old placed.now }
    requires few { HasFew placed.now }
    ensures keeps { KeepsSettled store.old store.new placed.now }
    ensures gone { (k : ℕ) → is_held placed.now k ≡ true → row_with store.new k ≡ None }
    ensures threads { store.new.threads ≡ store.old.threads }
{
    for place in 0..placed.placeholders.len() {
        if let Ok(key) = u32::try_from(place) {
            drop_placeholder(store, placed, key);
        }
    }
}
