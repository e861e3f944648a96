//! The end of a process in its place: it stays as a zombie until its parent waits (`wait(2)`).
ghost use Rattle.std.specs.Prelude.{◌≡◌, Some, true, slice_set};
ghost use Rattle.{
  pid_types.specs.declared.plain.Life.{Life},
  task_tree.specs.Tree.{task_at, lives},
  task_table.specs.Store.{IsVisibleToParent},
  thread_ends.specs.Ending.{KeepsHomes, Unmarks},
};

use pid_types::keys::TaskKey;
use pid_types::plain::Ended;
use task_table::Tasks;
use task_tree::Task;

/// A live process ends in its place, whether its first thread has left or not. Its other threads stay as they are, for
/// the caller to end. It takes no memory.
#[inline(always)]
pub fn finish(store: &mut Tasks, key: TaskKey, task: Task, end: Ended)
    requires there { task_at store.old.tree key ≡ Some task }
    requires live { lives task ≡ true }
    requires visible { IsVisibleToParent store.old key }
    ensures tasks { store.new.tree.tasks ≡ slice_set store.old.tree.tasks key
        (Some (record task { life = Life.Zombie end })) }
    ensures parents { store.new.tree.parents ≡ store.old.tree.parents }
    ensures homes { KeepsHomes store.old.charges store.new.charges }
    ensures rest { (store.new.numbering ≡ store.old.numbering) × (store.new.members ≡ store.old.members) }
    ensures threads { Unmarks key store.old.threads store.new.threads }
{
    if store.threads().has_left(key) {
        store.finish_left(key, task, end);
    } else {
        store.finish(key, task, end);
    }
}
