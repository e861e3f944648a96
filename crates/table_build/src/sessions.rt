//! The tasks of a text go to their sessions, each still in the group of its own name. Names of groups and sessions that
//! no line has are borne by placeholders.
ghost use Rattle.std.specs.Prelude.{◌≡◌, [], true, length, OnOk, OnErr, IfOk, Some, IsSome, option_map, slice_get};
ghost use Rattle.{
  pid_types.specs.{Controls.{control_at}, Membership.{IsIn}, Names.{names_in_use}, Sound.{HasGoodGroups, IsSound}},
  pid_types.specs.{State.{State}, declared.plain.Row.{Row}},
  table_text.specs.Reading.{saved_state},
  task_tree.specs.Tree.{task_at},
  table_build.specs.Follows.{MayBear},
  table_build.specs.Lines.{AreGroups, AreLines, IsRowAt, KeepsFew, KeepsLists, SameLines, SetsLine, is_held},
  table_build.specs.{Kept.{KeepsUngrouped}, Recent.{IsRecent}, Parts.{AreSeated, IsPart}},
  table_build.specs.{Sessions.{AddsGroup, AreRecent, PutsBearer, Seats}, Stages.{SetsRow, as_begun, seated, Blames}},
  table_build.specs.Ungrouped.{IsUngrouped},
  task_table.specs.View.{name_at, row_with},
};

use crate::fault::BuildFault;
use crate::lines::task_line;
use crate::names::{RecentName, find_name, put_name};
use crate::placed::Placed;
use pid_types::keys::TaskKey;
use pid_types::plain::{Life, Name, Row};
use table_text::read::Saved;
use task_table::Tasks;
use task_table::view::laws;
use task_tree::Task;
use translate::shown::blank_row;

/// A task that bears a name which no line has.
fn begin_placeholder(
    store: &mut Tasks,
    placed: &mut Placed,
    name: &Name,
    line: u64,
) -> Result<TaskKey, BuildFault>
    requires ungrouped { IsUngrouped store.old }
    ensures put { IfOk result (PutsBearer store.old store.new placed.old placed.new name.now) }
    ensures held { IfOk result (λ key. is_held placed.new key ≡ true) }
    ensures lists { KeepsLists placed.old placed.new }
    ensures refused { Blames result
        (IsSome (control_at store.old.charges.controls 0) → MayBear store.old.numbering name.now → ⊥) }
{
    let Some(home) = store.controls().find(0) else {
        return Err(BuildFault::UnknownGroup(line));
    };
    let task = Task {
        children_space: 0,
        home,
        executed: false,
        subreaper: false,
        life: Life::Live,
    };
    let key = put_name(store, name, task, line)?;
    placed.add_placeholder(key)?;
    Ok(key)
}

/// The task that bears the name of a group or a session: one of a line, or else a placeholder.
fn bearer(
    store: &mut Tasks,
    placed: &mut Placed,
    name: &Name,
    last: &mut RecentName,
    line: u64,
) -> Result<TaskKey, BuildFault>
    requires ungrouped { IsUngrouped store.old }
    requires recent { IsRecent store.old last.old }
    ensures put { IfOk result (PutsBearer store.old store.new placed.old placed.new name.now) }
    ensures recent { OnOk result (IsRecent store.new last.new) }
    ensures lists { KeepsLists placed.old placed.new }
    ensures refused { Blames result ((text : State) → IsSound text
        → IsPart store.old text → IsIn name.now (names_in_use text.rows) → ⊥) }
{
    laws(store);
    match find_name(store, name, last, line)? {
        Some(key) => Ok(key),
        None => begin_placeholder(store, placed, name, line),
    }
}

/// A task in a group of its own goes to the session of another one's name.
fn enter_session(
    store: &mut Tasks,
    key: TaskKey,
    session: TaskKey,
    line: u64,
) -> Result<(), BuildFault>
    requires ungrouped { IsUngrouped store.old }
    ensures keeps { OnOk result (KeepsUngrouped store.old store.new) }
    ensures entered { (row : Row) → row_with store.old key ≡ Some row → OnOk result (SetsRow store.old store.new key
        (record row { group = row.name; session = name_at store.old.numbering session })) }
    ensures refused { OnErr result (IsSome (task_at store.old.tree key) → IsSome (task_at store.old.tree session) → ⊥) }
{
    if store.tree().task(key).is_none() || store.tree().task(session).is_none() {
        return Err(BuildFault::Impossible(line));
    }
    laws(store);
    store.move_to(key, key, session);
    laws(store);
    Ok(())
}

/// Who bears a group's name goes to a session, if it is a placeholder.
fn seat_placeholder(
    store: &mut Tasks,
    placed: &Placed,
    group: TaskKey,
    session: TaskKey,
    line: u64,
) -> Result<(), BuildFault>
    requires ungrouped { IsUngrouped store.old }
    requires there { IsSome (task_at store.old.tree group) }
    ensures keeps { OnOk result (KeepsUngrouped store.old store.new) }
    ensures lines { OnOk result (SameLines store.old store.new placed.now placed.now) }
    ensures seat { OnOk result (Seats store.old store.new placed.now group (name_at store.old.numbering session)) }
    ensures refused { OnErr result (IsSome (task_at store.old.tree session) → ⊥) }
{
    if !placed.is_placeholder(group) {
        return Ok(());
    }
    enter_session(store, group, session, line)?;
    Ok(())
}

/// The names of a session and of a group that were found last.
#[derive(Drop)]
struct RecentNames {
    session: RecentName,
    group: RecentName,
}

/// The task of a line goes to its session, and so does who bears its group's name without a line.
fn put_in_session(
    store: &mut Tasks,
    placed: &mut Placed,
    key: TaskKey,
    row: &Row,
    last: &mut RecentNames,
    line: u64,
) -> Result<(), BuildFault>
    requires ungrouped { IsUngrouped store.old }
    requires recent { AreRecent store.old last.old }
    requires begun { IsRowAt store.old placed.old key (as_begun row.now) }
    ensures keeps { OnOk result (KeepsUngrouped store.old store.new) }
    ensures recent { OnOk result (AreRecent store.new last.new) }
    ensures set { OnOk result (SetsLine store.old store.new placed.old placed.new key (seated row.now)) }
    ensures group { OnOk result (AddsGroup store.old store.new placed.old placed.new key row.now) }
    ensures part { (text : State) → IsPart store.old text → IsIn row.now text.rows
        → OnOk result (IsPart store.new text) }
    ensures refused { Blames result ((text : State) → IsSound text
        → IsPart store.old text → IsIn row.now text.rows → ⊥) }
{
    let session = bearer(store, placed, &row.session, &mut last.session, line)?;
    enter_session(store, key, session, line)?;
    let group = bearer(store, placed, &row.group, &mut last.group, line)?;
    seat_placeholder(store, placed, group, session, line)?;
    placed.add_group(group)?;
    Ok(())
}

/// All names of groups and sessions are put, and all tasks go to their sessions.
pub fn enter_sessions(
    store: &mut Tasks,
    placed: &mut Placed,
    saved: &Saved,
) -> Result<(), BuildFault>
    requires ungrouped { IsUngrouped store.old }
    requires lines { AreLines store.old placed.old (λ j. option_map as_begun (slice_get saved.now.rows j)) }
    requires groups { placed.old.groups.items ≡ [] }
    requires keys { length placed.old.keys.items ≡ length saved.now.rows }
    ensures keeps { OnOk result (KeepsUngrouped store.old store.new) }
    ensures lines { OnOk result (AreLines store.new placed.new
        (λ j. option_map seated (slice_get saved.now.rows j))) }
    ensures groups { OnOk result (AreGroups store.new placed.new saved.now.rows) }
    ensures keys { OnOk result (length placed.new.keys.items ≡ length saved.now.rows) }
    ensures all { OnOk result (length placed.new.groups.items ≡ length saved.now.rows) }
    ensures few { OnOk result (KeepsFew placed.old placed.new) }
    ensures part { IsPart store.old (saved_state saved.now) → OnOk result (IsPart store.new (saved_state saved.now)) }
    ensures seated { HasGoodGroups saved.now.rows → OnOk result
        (AreSeated store.new placed.new saved.now.rows) }
    ensures refused { Blames result (IsSound (saved_state saved.now)
        → IsPart store.old (saved_state saved.now) → ⊥) }
{
    let mut last = RecentNames {
        session: RecentName::none(),
        group: RecentName::none(),
    };
    let mut row = blank_row();
    for index in 0..saved.rows.len() {
        let line = task_line(index);
        let Some(key) = placed.keys.get(index) else {
            return Err(BuildFault::Impossible(line));
        };
        let key = *key;
        saved.rows.write_next(index, &mut row);
        put_in_session(store, placed, key, &row, &mut last, line)?;
    }
    laws(store);
    Ok(())
}
