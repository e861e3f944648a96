//! A tree without tasks, and with one.

ghost use Rattle.std.specs.Prelude.{◌<◌};

use pid_types::plain::Life;
use std::process::Abort;
use task_tree::{Task, TaskTree};

/// Makes room for so many keys more, and says how many there are.
fn grow(rt: &impl Abort, tree: &mut TaskTree, count: usize) -> usize
    requires { count < 8 }
{
    assert!(rt; tree.keys() < 8);
    tree.grow(count).expect(rt, "no memory");
    tree.keys()
}

/// Whether there is the key, and it has neither a task nor a place nor a child.
fn is_free(tree: &TaskTree, key: u32) -> bool {
    (key as usize) < tree.keys()
        && tree.task(key).is_none()
        && !tree.is_live_at(key)
        && [tree.parent(key), tree.rank(key), tree.first_child(key)] == [None; 3]
}

/// Each key has no task at first.
#[test]
fn grows(rt: HostRuntime) {
    let mut tree = TaskTree::new(rt.alloc());
    assert!(rt; tree.keys() == 0);
    assert!(rt; grow(&rt, &mut tree, 3) == 3);
    assert!(rt; grow(&rt, &mut tree, 4) == 7);
    assert!(rt; is_free(&tree, 6));
}

/// A task that begins without a parent lives at its key, and at no other.
#[test]
fn begins(rt: HostRuntime) {
    let mut tree = TaskTree::new(rt.alloc());
    assert!(rt; grow(&rt, &mut tree, 3) == 3);
    assert!(rt; tree.keys() > 1 && tree.task(1).is_none());
    let task = Task {
        children_space: 0,
        home: 0,
        executed: false,
        subreaper: false,
        life: Life::Live,
    };
    tree.enter(1, None, task);
    assert!(rt; tree.is_live_at(1) && tree.task(1) == Some(task));
    assert!(rt; is_free(&tree, 0) && is_free(&tree, 2));
}
