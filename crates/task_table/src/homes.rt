//! Tasks that come to control groups and go.

ghost use Rattle.std.specs.Prelude.{◌≡◌, ◌+◌, ◌<◌, length, option_and_then, true, false, IsSome, None, slice_set};
ghost use Rattle.std.specs.Prelude.{if◌then◌else◌};
ghost use Rattle.{
  member_lists.specs.Owners.{owner_of},
  pids_charge.specs.Charges.{Home, home_at, live_at, zombies_at, all_tasks, kept, ChangesHome},
  task_tree.specs.Tree.{lives},
  task_table.specs.Store.{home_without},
};

use member_lists::MemberLists;
use pid_types::keys::TaskKey;
use pid_types::plain::Life;
use pids_charge::Controls;
use task_tree::Task;

/// A task goes from its home, and from the residents there if it lives.
#[inline(always)]
pub(crate) fn leave_home(
    controls: &mut Controls,
    residents: &mut MemberLists,
    key: TaskKey,
    task: &Task,
)
    requires key { key < length residents.old }
    requires owned { lives task.now ≡ true → IsSome (owner_of residents.old key) }
    requires live { lives task.now ≡ true → 0 < live_at controls.old task.now.home }
    requires ended { lives task.now ≡ false → 0 < zombies_at controls.old task.now.home }
    ensures home { ChangesHome controls.old controls.new task.now.home
        (option_and_then (λ (h : Home). kept (home_without task.now h)) (home_at controls.old task.now.home)) }
    ensures tasks { all_tasks controls.new + 1 ≡ all_tasks controls.old }
    ensures residents { residents.new
        ≡ (if lives task.now then slice_set residents.old key None else residents.old) }
{
    if matches!(task.life, Life::Live) {
        controls.died(task.home);
        residents.remove(key);
    }
    controls.uncharge(task.home);
}
