//! A thread in the store of a table: it takes a number and is charged, and is gone at once. And a first thread that
//! leaves: its process lives on, and is charged as one that has ended.

ghost use Rattle.std.specs.Prelude.{◌≡◌, Some, true};
ghost use Rattle.pids_charge.specs.Charges.{stands};
ghost use Rattle.task_table.specs.{Store.{HasNoThreads}, Whole.{HasParents}};
ghost use Rattle.task_tree.specs.Tree.{task_at, lives};
ghost use Rattle.test_public.specs.Begun.{HasRootControl};

use pid_types::keys::{ControlKey, TaskKey};
use pid_types::plain::{Ended, Life};
use process_threads::Thread;
use std::process::Abort;
use task_table::Tasks;
use task_table::view::{is_live, laws};
use task_tree::Task;

/// The key of the root control group.
pub(crate) fn root_control(rt: &impl Abort, store: &Tasks) -> ControlKey
    ensures { stands store.now.charges result ≡ true }
{
    let Some(home) = store.controls().find(0) else {
        rt.abort()
    };
    home
}

/// A store with the root init alone, whose parent is nobody.
pub(crate) fn begun(rt: &(impl AllocGlobal + Abort)) -> Tasks
    ensures alone { HasNoThreads result.threads }
    ensures parents { HasParents result }
    ensures controls { HasRootControl result }
{
    let Ok(mut store) = Tasks::new(rt.alloc(), 301) else {
        rt.abort()
    };
    laws(&store);
    let Ok(numbers) = store.numbers().plan(0) else {
        rt.abort()
    };
    let Some(home) = store.controls().find(0) else {
        rt.abort()
    };
    let init = Task {
        children_space: 0,
        home,
        executed: false,
        subreaper: false,
        life: Life::Live,
    };
    assert!(rt; store.numbers().id(0).is_some());
    let Ok(_) = store.fork(None, 0, numbers.as_slice(), init) else {
        rt.abort()
    };
    store
}

/// Sees that a thread of the root init is there with number 2, and that so many are charged.
fn see(rt: &impl Abort, store: &Tasks, key: TaskKey, thread: Thread, count: u64) {
    assert!(rt; store.threads().thread(key) == Some(thread));
    assert!(rt; store.numbers().number_in(key, 0) == Some(2) && store.numbers().is_thread(key));
    let home = root_control(rt, store);
    assert!(rt; store.controls().count(home) == count);
}

/// A thread of the init begins in the root control group. Its key and what it is are answered.
fn start(rt: &impl Abort, store: &mut Tasks) -> (TaskKey, Thread)
    requires parents { HasParents store.old }
    requires controls { HasRootControl store.old }
    ensures { HasRootControl store.new }
{
    let home = root_control(rt, store);
    let Ok(numbers) = store.numbers().plan(0) else {
        rt.abort()
    };
    let thread = Thread {
        process: 0,
        children_space: 0,
        home,
    };
    assert!(rt; store.tree().keys() > 0 && store.numbers().id(0).is_some());
    let key = store
        .start_thread(0, numbers.as_slice(), thread)
        .expect(rt, "no memory");
    (key, thread)
}

/// The thread moves to the root control group. What it is then is answered.
fn move_to_root(rt: &impl Abort, store: &mut Tasks, key: TaskKey, thread: Thread) -> Thread {
    let home = root_control(rt, store);
    assert!(rt; store.threads().thread(key) == Some(thread));
    store.move_thread(key, thread, home);
    Thread { home, ..thread }
}

/// The thread ends.
fn end(rt: &impl Abort, store: &mut Tasks, key: TaskKey, thread: Thread) {
    assert!(rt; store.threads().thread(key) == Some(thread));
    store.end_thread(key, thread);
}

/// A thread of the root init begins, moves to the control group that it is in, and ends.
#[test]
fn charges_threads(rt: HostRuntime) {
    let mut store = begun(&rt);
    let (key, thread) = start(&rt, &mut store);
    see(&rt, &store, key, thread, 2);
    let moved = move_to_root(&rt, &mut store, key, thread);
    see(&rt, &store, key, moved, 2);
    end(&rt, &mut store, key, moved);
    let home = root_control(&rt, &store);
    assert!(&rt; store.threads().is_empty() && store.numbers().find(0, 2).is_none());
    assert!(&rt; store.controls().count(home) == 1);
}

/// The init, which lives.
fn init_of(rt: &impl Abort, store: &Tasks) -> Task
    ensures there { task_at store.now.tree 0 ≡ Some result }
    ensures live { lives result ≡ true }
{
    let Some(task) = store.tree().task(0) else {
        rt.abort()
    };
    assert!(rt; is_live(&task));
    task
}

/// The key of the control group with id 1.
fn own_control(rt: &impl Abort, store: &Tasks) -> ControlKey
    ensures { stands store.now.charges result ≡ true }
{
    let Some(group) = store.controls().find(1) else {
        rt.abort()
    };
    group
}

/// The init goes to a control group of its own, with id 1, and has a thread beside its first one, which is in the root
/// group. The thread and its key are answered.
fn with_thread(rt: &impl Abort, store: &mut Tasks) -> (TaskKey, Thread)
    requires parents { HasParents store.old }
    requires controls { HasRootControl store.old }
{
    let started = start(rt, store);
    let home = root_control(rt, store);
    let Ok(_) = store.make_control(home, 1) else {
        rt.abort()
    };
    let task = init_of(rt, store);
    let group = own_control(rt, store);
    assert!(rt; !store.threads().has_left(0));
    store.move_home(0, task, group);
    started
}

/// The init ends whose first thread has left.
fn end_left(rt: &impl Abort, store: &mut Tasks) {
    let init = init_of(rt, store);
    assert!(rt; store.tree().keys() > 0 && store.threads().has_left(0));
    assert!(rt; store.tree().parent(0).is_none());
    store.finish_left(0, init, Ended::Exited(0));
    assert!(rt; !store.threads().has_left(0) && !store.tree().is_live_at(0));
    let home = root_control(rt, store);
    assert!(rt; store.controls().count(home) == 1);
}

/// The first thread of the init leaves beside another one: the init has its number and is charged still, but no longer
/// keeps its control group. When it has ended it is charged as before.
#[test]
fn leaves_first(rt: HostRuntime) {
    let mut store = begun(&rt);
    let (key, thread) = with_thread(&rt, &mut store);
    let group = own_control(&rt, &store);
    let kept = store.remove_control(group);
    assert!(&rt; kept.is_err());
    let init = init_of(&rt, &store);
    assert!(&rt; !store.threads().has_left(0) && store.threads().keys() > 0);
    store.leave_first(0, init);
    assert!(&rt; store.threads().has_left(0));
    assert!(&rt; store.numbers().number_in(0, 0) == Some(1));
    let group = own_control(&rt, &store);
    assert!(&rt; store.controls().count(group) == 1);
    let gone = store.remove_control(group);
    assert!(&rt; gone.is_ok());
    end(&rt, &mut store, key, thread);
    end_left(&rt, &mut store);
}

/// A thread's children go elsewhere. When it executes a program after the first one left, the init has a first thread
/// again, in the thread's control group.
#[test]
fn returns_first(rt: HostRuntime) {
    let mut store = begun(&rt);
    let (key, thread) = with_thread(&rt, &mut store);
    assert!(&rt; store.threads().thread(key) == Some(thread));
    store.join_thread(key, thread, 5);
    let joined = Thread {
        children_space: 5,
        ..thread
    };
    let init = init_of(&rt, &store);
    assert!(&rt; !store.threads().has_left(0) && store.threads().keys() > 0);
    store.leave_first(0, init);
    end(&rt, &mut store, key, joined);
    let home = root_control(&rt, &store);
    let init = init_of(&rt, &store);
    assert!(&rt; store.threads().has_left(0));
    store.return_first(0, init, home);
    assert!(&rt; !store.threads().has_left(0));
    let group = own_control(&rt, &store);
    assert!(&rt; store.controls().count(group) == 0);
    let home = root_control(&rt, &store);
    assert!(&rt; store.controls().count(home) == 1);
}
