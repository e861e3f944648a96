//! A new task takes its place in each part.

ghost use Rattle.std.specs.Prelude.{◌≡◌, ◌≢◌, ℕ, ◌+◌, ◌<◌, ◌≤◌, ◌^◌, ◌==◌, ◌&&◌, length, option_map, Some, None, true};
ghost use Rattle.std.specs.Prelude.{IsSome, slice_set};
ghost use Rattle.{
  pid_types.specs.declared.call.Kind.{Kind},
  member_lists.specs.Owners.{owner_of},
  pids_charge.specs.Charges.{Home, home_at, stands, all_tasks, ChangesHome},
  task_tree.specs.Tree.{task_at, parent_of, lives},
  groups_sessions.specs.Membership.{Membership, membership_at, group_of},
  task_table.specs.Store.{uses_at, one_if, is_kind, IsUsedAt, bare_at, joins, use_of, KeepsThreads},
};

use crate::uses::add_uses;
use groups_sessions::Members;
use member_lists::MemberLists;
use pid_numbers::Numbers;
use pid_types::keys::{IdentKey, TaskKey};
use pids_charge::Controls;
use task_tree::{Task, TaskTree};

/// The group and the session of a new task.
fn lineage(members: &Members, key: TaskKey, from: Option<TaskKey>) -> (IdentKey, IdentKey)
    requires { (p : ℕ) → from ≡ Some p → IsSome (membership_at members.now p) }
    ensures { joins members.now from key ≡ Some (record { group = result.0; session = result.1 }) }
{
    match from {
        Some(parent) => (members.group(parent), members.session(parent)),
        None => (key, key),
    }
}

/// The task whose identifier has the key begins.
#[inline(always)]
pub(crate) fn settle(
    numbers: &mut Numbers,
    tree: &mut TaskTree,
    members: &mut Members,
    controls: &mut Controls,
    residents: &mut MemberLists,
    key: TaskKey,
    from: Option<TaskKey>,
    task: Task,
)
    requires room { (key < length tree.old.tasks) × (key < length members.old) }
    requires vacant { (task_at tree.old key ≡ None) × (membership_at members.old key ≡ None) }
    requires from { (p : ℕ) → from ≡ Some p → IsSome (membership_at members.old p) × (p < length tree.old.tasks) }
    requires live { lives task ≡ true }
    requires own { IsUsedAt numbers.old key }
    requires named { (k : ℕ) (m : Membership) → membership_at members.old k ≡ Some m
        → IsUsedAt numbers.old m.group × IsUsedAt numbers.old m.session }
    requires free { (k : ℕ) → group_of members.old k ≢ Some key }
    requires few { (k : Kind) (i : ℕ) → uses_at numbers.old k i ≤ 2 ^ 30 }
    requires home { stands controls.old task.home ≡ true }
    requires all { all_tasks controls.old + 1 < 2 ^ 64 }
    requires within { (key < length residents.old) × (task.home < length residents.old) }
    requires nowhere { owner_of residents.old key ≡ None }
    ensures uses { (k : Kind) (i : ℕ) → uses_at numbers.new k i
        ≡ uses_at numbers.old k i + use_of (joins members.old from key) k i }
    ensures bare { (i : ℕ) → bare_at numbers.new i ≡ bare_at numbers.old i }
    ensures threads { KeepsThreads numbers.old numbers.new }
    ensures namespaces { numbers.new.namespaces ≡ numbers.old.namespaces }
    ensures order { numbers.new.order ≡ numbers.old.order }
    ensures pid_max { numbers.new.pid_max ≡ numbers.old.pid_max }
    ensures tasks { tree.new.tasks ≡ slice_set tree.old.tasks key (Some task) }
    ensures parent { parent_of tree.new key ≡ from }
    ensures parents { (k : ℕ) → k ≢ key → parent_of tree.new k ≡ parent_of tree.old k }
    ensures ranks { tree.new.ended ≡ tree.old.ended }
    ensures members { members.new ≡ slice_set members.old key (joins members.old from key) }
    ensures charged { ChangesHome controls.old controls.new task.home
        (option_map (λ (h : Home). record h { live = h.live + 1 }) (home_at controls.old task.home)) }
    ensures count { all_tasks controls.new ≡ all_tasks controls.old + 1 }
    ensures residents { residents.new ≡ slice_set residents.old key (Some task.home) }
{
    members.laws();
    let (group, session) = lineage(members, key, from);
    tree.enter(key, from, task);
    members.enter(key, group, session);
    add_uses(numbers, group, session);
    controls.charge(task.home);
    residents.add(key, task.home);
}
