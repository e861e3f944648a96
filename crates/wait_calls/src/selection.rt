//! Whom a wait reaps: `waitpid(2)` with `WNOHANG`, over the tasks of a store, by their keys.
//!
//! Nothing is changed and no memory is taken. A wait for any child, or for one task, costs a few reads,
//! however many children there are. So does a wait for a group, if the first of all ended children is in it. If not, it
//! costs a few reads for each ended child; and if none of those is in the group, a few for each child up to the first
//! one that is. If the group's members are fewer than a quarter of the children that it looks at, it costs a few reads
//! for each member, and for four children, instead.

ghost use Rattle.std.specs.Prelude.{◌≡◌, IsSome};
ghost use Rattle.task_tree.specs.Tree.{task_at, parent_of};
ghost use Rattle.wait_calls.specs.{Choice.{IsChoice}, Walk.{choice_with}};

use crate::walk::choose_in_group;
use pid_types::keys::{IdentKey, Pid, TaskKey};
use task_table::Tasks;

/// Which of its children a caller waits for.
#[derive(Clone, Copy)]
pub enum Selected {
    /// Any child.
    Any,
    /// The task with the key, if it is a child.
    Task(TaskKey),
    /// The children in the process group whose identifier has the key.
    Group(IdentKey),
}

/// What a wait finds.
#[derive(Clone, Copy, PartialEq)]
pub enum Choice {
    /// No child is selected (`ECHILD`).
    NoChild,
    /// Some are, and all of them live.
    NoneEnded,
    /// The key of the child that is reaped, and the rank by which it waits: its number in the caller's
    /// namespace.
    Ended { child: TaskKey, rank: Pid },
}

/// The parent of a task; none where there is no such task.
pub(crate) fn parent_in(store: &Tasks, key: TaskKey) -> Option<TaskKey>
    ensures { result ≡ parent_of store.now.tree key }
{
    let tree = store.tree();
    tree.laws();
    if key as usize >= tree.keys() {
        return None;
    }
    tree.parent(key)
}

/// The choice among one child more, with the rank that it ended with.
pub(crate) fn counted(choice: Choice, child: TaskKey, rank: Option<Pid>) -> Choice
    ensures { result ≡ choice_with choice child rank }
{
    let Some(rank) = rank else {
        return match choice {
            Choice::NoChild => Choice::NoneEnded,
            _ => choice,
        };
    };
    match choice {
        Choice::Ended { child, rank: least } if least <= rank => {
            Choice::Ended { child, rank: least }
        }
        _ => Choice::Ended { child, rank },
    }
}

/// The choice among all children.
#[inline(always)]
pub(crate) fn choose_any(store: &Tasks, caller: TaskKey) -> Choice
    requires { IsSome (task_at store.now.tree caller) }
    ensures { IsChoice store.now caller Selected.Any result }
{
    let tree = store.tree();
    tree.laws();
    if let Some(child) = tree.least_ended(caller) {
        return counted(Choice::NoChild, child, tree.rank(child));
    }
    if tree.first_child(caller).is_some() {
        Choice::NoneEnded
    } else {
        Choice::NoChild
    }
}

/// The choice where only one task is selected.
fn choose_task(store: &Tasks, caller: TaskKey, key: TaskKey) -> Choice
    ensures { IsChoice store.now caller (Selected.Task key) result }
{
    if parent_in(store, key) != Some(caller) {
        return Choice::NoChild;
    }
    let tree = store.tree();
    tree.laws();
    counted(Choice::NoChild, key, tree.rank(key))
}

/// Whom the caller's wait reaps: of the selected children that have ended, the one with the least rank. A key
/// of no task and one of no group select nobody.
#[inline(always)]
pub fn choose(store: &Tasks, caller: TaskKey, which: Selected) -> Choice
    requires { IsSome (task_at store.now.tree caller) }
    ensures { IsChoice store.now caller which result }
{
    match which {
        Selected::Any => choose_any(store, caller),
        Selected::Task(key) => choose_task(store, caller, key),
        Selected::Group(group) => choose_in_group(store, caller, group),
    }
}
