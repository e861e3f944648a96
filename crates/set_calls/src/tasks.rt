//! Calls that change one task: exec (`execve(2)`), join (`setns(2)`), the subreaper's mark (`prctl(2)`), and
//! moves between control groups (a write to `cgroup.procs`).
//!
//! Each costs a search or two in a tree of numbers, and a step for each control group around those of a
//! move. They take no memory.

ghost use Rattle.std.specs.Prelude.{◌≡◌, Some, true, slice_set};
ghost use Rattle.{
  pid_types.specs.Changes.{exec as exec_of, join as join_of, set_subreaper as set_subreaper_of, move_task as move_of},
  pid_types.specs.Short.{reply_of},
  pids_charge.specs.Charges.{stands},
  task_tree.specs.Tree.{task_at, lives},
  task_table.specs.{View.{state_of}, Whole.{IsWhole, HasParents}},
  thread_ends.specs.Ending.{KeepsHomes, StaysAlone, Unmarks},
  thread_view.specs.{Full.{full_state}, Calling.{IsWholeWithThreads}},
};

use pid_types::keys::{Pid, TaskKey};
use pid_types::reply::{Refusal, ShortReply};
use task_table::Tasks;
use task_table::view::{find_live, find_task, is_live, laws, own_id};
use task_tree::Task;
use thread_ends::end_others;
use thread_view::{calling_task, find_calling};

/// A live process goes on as what it is now, whether its first thread has left or not. It may be in another control
/// group now. Its other threads stay as they are, for the caller to end.
fn go_on(store: &mut Tasks, process: TaskKey, was: Task, now: Task)
    requires there { task_at store.old.tree process ≡ Some was }
    requires live { lives was ≡ true }
    requires life { now.life ≡ was.life }
    requires stands { stands store.old.charges now.home ≡ true }
    ensures tasks { store.new.tree.tasks ≡ slice_set store.old.tree.tasks process (Some now) }
    ensures parents { store.new.tree.parents ≡ store.old.tree.parents }
    ensures homes { KeepsHomes store.old.charges store.new.charges }
    ensures rest { (store.new.numbering ≡ store.old.numbering) × (store.new.members ≡ store.old.members) }
    ensures threads { Unmarks process store.old.threads store.new.threads }
{
    if store.threads().has_left(process) {
        store.return_first(process, was, now.home);
    } else if was.home != now.home {
        store.move_home(process, was, now.home);
    }
    store.update(process, now);
}

/// `execve(2)`, by any thread: all other threads of the process end, and it has executed. It keeps its number, and goes
/// on in the thread that called: in that one's control group, and with the namespace that its children go into.
#[tactic(auto, unfolding(pid_types::specs::Changes::exec))]
#[inline(never)]
pub fn exec(store: &mut Tasks, caller: Pid) -> ShortReply
    requires { IsWholeWithThreads store.old }
    ensures state { full_state store.new ≡ (exec_of (full_state store.old) caller).state }
    ensures reply { reply_of result ≡ (exec_of (full_state store.old) caller).reply }
    ensures full { IsWholeWithThreads store.new }
    ensures alone { StaysAlone store.old store.new }
{
    laws(store);
    store.thread_laws();
    let Some(calling) = find_calling(store, caller) else {
        return ShortReply::Refused(Refusal::NoCaller);
    };
    let Some(was) = store.tree().task(calling.process) else {
        unreachable!()
    };
    let thread = calling_task(store, &calling);
    let now = Task {
        executed: true,
        ..thread
    };
    go_on(store, calling.process, was, now);
    end_others(store, calling.process);
    laws(store);
    store.thread_laws();
    ShortReply::Done
}

/// `setns(2)`: the caller's later children go into the target's namespace.
#[tactic(auto, unfolding(pid_types::specs::Changes::join))]
#[inline(never)]
pub fn join(store: &mut Tasks, caller: Pid, target: Pid) -> ShortReply
    requires { IsWhole store.old }
    ensures state { state_of store.new ≡ (join_of (state_of store.old) caller target).state }
    ensures reply { reply_of result ≡ (join_of (state_of store.old) caller target).reply }
    ensures parents { HasParents store.new }
    ensures threads { store.new.threads ≡ store.old.threads }
{
    laws(store);
    let Some(found) = find_live(store, caller) else {
        return ShortReply::Refused(Refusal::NoCaller);
    };
    let Some(other) = find_task(store, found.space, target) else {
        return ShortReply::Refused(Refusal::NoTask);
    };
    if !is_live(&other.task) {
        return ShortReply::Refused(Refusal::NoTask);
    }
    let children_space = own_id(store, &other);
    store.update(
        found.key,
        Task {
            children_space,
            ..found.task
        },
    );
    laws(store);
    ShortReply::Done
}

/// `prctl(2)`: the caller's process takes the subreaper's mark, or gives it back, by any thread.
#[tactic(auto, unfolding(pid_types::specs::Changes::set_subreaper))]
#[inline(never)]
pub fn set_subreaper(store: &mut Tasks, caller: Pid, on: bool) -> ShortReply
    requires { IsWholeWithThreads store.old }
    ensures state { full_state store.new ≡ (set_subreaper_of (full_state store.old) caller on).state }
    ensures reply { reply_of result ≡ (set_subreaper_of (full_state store.old) caller on).reply }
    ensures full { IsWholeWithThreads store.new }
    ensures threads { store.new.threads ≡ store.old.threads }
{
    laws(store);
    store.thread_laws();
    let Some(found) = thread_view::find_live(store, caller) else {
        return ShortReply::Refused(Refusal::NoCaller);
    };
    store.update(
        found.key,
        Task {
            subreaper: on,
            ..found.task
        },
    );
    laws(store);
    store.thread_laws();
    ShortReply::Done
}

/// A write to `cgroup.procs`: the live task goes into the control group, whatever its limit.
#[tactic(auto, unfolding(pid_types::specs::Changes::move_task))]
#[inline(never)]
pub fn move_task(store: &mut Tasks, task: Pid, id: u64) -> ShortReply
    requires { IsWhole store.old }
    ensures state { state_of store.new ≡ (move_of (state_of store.old) task id).state }
    ensures reply { reply_of result ≡ (move_of (state_of store.old) task id).reply }
    ensures parents { HasParents store.new }
    ensures threads { store.new.threads ≡ store.old.threads }
{
    laws(store);
    let Some(found) = find_live(store, task) else {
        return ShortReply::Refused(Refusal::NoTask);
    };
    let Some(home) = store.controls().find(id) else {
        return ShortReply::Refused(Refusal::NoControl);
    };
    store.move_home(found.key, found.task, home);
    laws(store);
    ShortReply::Done
}

/// The reply that [`exec`] would get. It changes nothing.
#[tactic(auto, unfolding(pid_types::specs::Changes::exec))]
pub fn would_exec(store: &Tasks, caller: Pid) -> ShortReply
    requires { IsWholeWithThreads store.now }
    ensures { reply_of result ≡ (exec_of (full_state store.now) caller).reply }
{
    match thread_view::find_live(store, caller) {
        Some(_) => ShortReply::Done,
        None => ShortReply::Refused(Refusal::NoCaller),
    }
}

/// The reply that [`join`] would get. It changes nothing.
#[tactic(auto, unfolding(pid_types::specs::Changes::join))]
pub fn would_join(store: &Tasks, caller: Pid, target: Pid) -> ShortReply
    requires { IsWhole store.now }
    ensures { reply_of result ≡ (join_of (state_of store.now) caller target).reply }
{
    let Some(found) = find_live(store, caller) else {
        return ShortReply::Refused(Refusal::NoCaller);
    };
    match find_task(store, found.space, target) {
        Some(other) if is_live(&other.task) => ShortReply::Done,
        _ => ShortReply::Refused(Refusal::NoTask),
    }
}

/// The reply that [`set_subreaper`] would get. It changes nothing.
#[tactic(auto, unfolding(pid_types::specs::Changes::set_subreaper))]
pub fn would_set_subreaper(store: &Tasks, caller: Pid, on: bool) -> ShortReply
    requires { IsWholeWithThreads store.now }
    ensures { reply_of result ≡ (set_subreaper_of (full_state store.now) caller on).reply }
{
    match thread_view::find_live(store, caller) {
        Some(_) => ShortReply::Done,
        None => ShortReply::Refused(Refusal::NoCaller),
    }
}

/// The reply that [`move_task`] would get. It changes nothing.
#[tactic(auto, unfolding(pid_types::specs::Changes::move_task))]
pub fn would_move_task(store: &Tasks, task: Pid, id: u64) -> ShortReply
    requires { IsWhole store.now }
    ensures { reply_of result ≡ (move_of (state_of store.now) task id).reply }
{
    laws(store);
    if find_live(store, task).is_none() {
        return ShortReply::Refused(Refusal::NoTask);
    }
    match store.controls().find(id) {
        Some(_) => ShortReply::Done,
        None => ShortReply::Refused(Refusal::NoControl),
    }
}
