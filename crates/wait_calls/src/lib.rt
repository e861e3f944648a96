//! Waits over the tasks of a table: `waitpid(2)` with `WNOHANG`.
#![tactic(auto)]

ghost use Rattle.std.specs.Prelude.{◌≡◌, Some, IsSome, MatchOption, false};
ghost use Rattle.{
  pid_types.specs.{Outcome.{sweep}, Wait.{end_of, without_row, wait as wait_of}, Short.{reply_of}},
  pid_types.specs.{declared.plain.Life.TheVariants.{Live, Zombie}, declared.plain.Ended.TheVariants.{Killed}},
  pid_numbers.specs.Numbering.{Identifier, identifier_at},
  task_tree.specs.{declared.Task.{Task}, Tree.{task_at, lives}},
  task_table.specs.{View.{row_of}, Whole.{HasParents}},
  thread_view.specs.{Calling.{HasProcesses, IsWholeWithThreads}, Full.{full_state}},
  wait_calls.specs.Told.{Means, IsUnknown, IsTold},
};

mod selection;
mod walk;
mod would;

use pid_types::call::Which;
use pid_types::keys::{Pid, SpaceKey, TaskKey};
use pid_types::plain::{Ended, Life};
use pid_types::reply::{Refusal, ShortReply};
use selection::{Choice, Selected, choose};
use task_table::Tasks;
use task_table::view::{Found, laws};
use task_tree::Task;
use thread_view::find_live;
pub use would::would_wait;

/// By which key the wait selects; none where it names a number that nobody has in the caller's namespace.
#[inline(always)]
fn selected(store: &Tasks, caller: TaskKey, space: SpaceKey, which: Which) -> Option<Selected>
    requires { IsSome (task_at store.now.tree caller) }
    ensures { MatchOption result (IsUnknown store.now space which)
        (λ selected. Means store.now caller space which selected) }
{
    store.laws();
    match which {
        Which::Any => Some(Selected::Any),
        Which::Pid(number) => store.numbers().find(space, number).map(Selected::Task),
        Which::OwnGroup => Some(Selected::Group(store.members().group(caller))),
        Which::Group(number) => store.numbers().find(space, number).map(Selected::Group),
    }
}

/// Whom the caller's wait reaps.
#[inline(always)]
fn choose_child(store: &Tasks, caller: &Found, which: Which) -> Choice
    requires parents { HasParents store.now }
    requires caller { task_at store.now.tree caller.now.key ≡ Some caller.now.task }
    requires own { (u : Identifier) → identifier_at store.now.numbering caller.now.key ≡ Some u
        → caller.now.space ≡ u.space }
    ensures { IsTold store.now (row_of store.now caller.now.key caller.now.task) which result }
{
    laws(store);
    store.tree().laws();
    let Some(selected) = selected(store, caller.key, caller.space, which) else {
        return Choice::NoChild;
    };
    choose(store, caller.key, selected)
}

/// How a task ended that has this life.
fn end_of_life(life: Life) -> Ended
    ensures { result ≡ elim life [ Live ↦ Killed | Zombie ended ↦ ended ] }
{
    match life {
        // Asked of no live task. The model's definition answers so, and this is that definition.
        Life::Live => Ended::Killed,
        Life::Zombie(ended) => ended,
    }
}

/// A zombie is gone, and how it ended is answered.
#[tactic(auto, unfolding(pid_types::specs::Wait::without_row))]
fn reap(store: &mut Tasks, child: TaskKey, task: Task) -> Ended
    requires whole { IsWholeWithThreads store.old }
    requires there { task_at store.old.tree child ≡ Some task }
    requires ended { lives task ≡ false }
    ensures state { full_state store.new ≡ sweep (without_row (full_state store.old) (row_of store.old child task)) }
    ensures ended { result ≡ end_of (row_of store.old child task) }
    ensures parents { HasParents store.new }
    ensures processes { HasProcesses store.new }
    ensures threads { store.new.threads ≡ store.old.threads }
{
    laws(store);
    store.thread_laws();
    store.remove(child, task);
    laws(store);
    store.thread_laws();
    end_of_life(task.life)
}

/// `waitpid(2)` with `WNOHANG`, by any thread: reaps the selected child of its process with the least number that has
/// ended. A child whose first thread has left has not ended while another of its threads runs.
#[tactic(auto, unfolding(pid_types::specs::Wait::wait))]
#[inline(never)]
pub fn wait(store: &mut Tasks, caller: Pid, which: Which) -> ShortReply
    requires { IsWholeWithThreads store.old }
    ensures state { full_state store.new ≡ (wait_of (full_state store.old) caller which).state }
    ensures reply { reply_of result ≡ (wait_of (full_state store.old) caller which).reply }
    ensures full { IsWholeWithThreads store.new }
    ensures threads { store.new.threads ≡ store.old.threads }
{
    let Some(found) = find_live(store, caller) else {
        return ShortReply::Refused(Refusal::NoCaller);
    };
    match choose_child(store, &found, which) {
        Choice::NoChild => ShortReply::Refused(Refusal::NoChild),
        Choice::NoneEnded => ShortReply::NoneYet,
        Choice::Ended { child, rank } => {
            let Some(task) = store.tree().task(child) else {
                unreachable!();
            };
            let ended = reap(store, child, task);
            ShortReply::Reaped { child: rank, ended }
        }
    }
}
