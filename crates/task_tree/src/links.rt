//! Children and ended children, as links by key.

ghost use Rattle.std.specs.Prelude.{◌≡◌, ◌≢◌, ℕ, ◌<◌, ◌≤◌, ◌^◌, length, option_map, Some, None, OnOk};
ghost use Rattle.{
  member_lists.specs.Owners.{owner_of},
  member_queues.specs.Ranks.{ranked},
  task_tree.specs.{Tree.{handed}, Waiting.{IsWaiting}},
};

use member_lists::MemberLists;
use member_queues::MemberQueues;
use pid_types::keys::{Pid, TaskKey};
use std::alloc::AllocError;

/// Makes room for so many keys among the parents, where there is none yet.
pub(crate) fn room_for_parents(children: &mut MemberLists, keys: usize) -> Result<(), AllocError>
    requires { keys ≤ 2 ^ 30 }
    ensures ok { OnOk result (keys ≤ length children.new) }
    ensures more { length children.old ≤ length children.new }
    ensures kept { (k : ℕ) → owner_of children.new k ≡ owner_of children.old k }
{
    if children.keys() >= keys {
        return Ok(());
    }
    children.grow(keys - children.keys())
}

/// Makes room for so many keys among the ranks, where there is none yet.
pub(crate) fn room_for_ranks(ended: &mut MemberQueues, keys: usize) -> Result<(), AllocError>
    requires { keys ≤ 2 ^ 30 }
    ensures ok { OnOk result (keys ≤ length ended.new) }
    ensures more { length ended.old ≤ length ended.new }
    ensures kept { (k : ℕ) → ranked ended.new k ≡ ranked ended.old k }
{
    if ended.keys() >= keys {
        return Ok(());
    }
    ended.grow(keys - ended.keys())
}

/// The key enters its parent's ended children, if it has a parent.
#[inline(always)]
pub(crate) fn enter_ended(ended: &mut MemberQueues, children: &MemberLists, key: TaskKey, rank: Pid)
    requires key { key < length ended.old }
    requires parents { key < length children.now }
    requires free { ranked ended.old key ≡ None }
    requires known { (p : ℕ) → owner_of children.now key ≡ Some p → p < length ended.old }
    requires apart { (k p : ℕ) → owner_of children.now key ≡ Some p → ranked ended.old k ≢ Some (p, rank) }
    ensures here { ranked ended.new key ≡ option_map (λ p. (p, rank)) (owner_of children.now key) }
    ensures others { (k : ℕ) → k ≢ key → ranked ended.new k ≡ ranked ended.old k }
    ensures keys { length ended.new ≡ length ended.old }
{
    if let Some(parent) = children.owner(key) {
        ended.insert(key, parent, rank);
    }
}

/// The key leaves the ended children that it is among.
#[inline(always)]
pub(crate) fn forget_ended(ended: &mut MemberQueues, key: TaskKey)
    requires { key < length ended.old }
    ensures here { ranked ended.new key ≡ None }
    ensures others { (k : ℕ) → k ≢ key → ranked ended.new k ≡ ranked ended.old k }
    ensures keys { length ended.new ≡ length ended.old }
{
    if ended.rank(key).is_some() {
        ended.remove(key);
    }
}

/// The key leaves its parent, if it has one.
#[inline(always)]
pub(crate) fn leave_parent(children: &mut MemberLists, key: TaskKey)
    requires { key < length children.old }
    ensures here { owner_of children.new key ≡ None }
    ensures others { (k : ℕ) → k ≢ key → owner_of children.new k ≡ owner_of children.old k }
    ensures keys { length children.new ≡ length children.old }
{
    if children.owner(key).is_some() {
        children.remove(key);
    }
}

/// All ended children of the one become the other's. A task past the room for ranks has none.
fn hand_ended(ended: &mut MemberQueues, from: TaskKey, to: TaskKey)
    requires differ { from ≢ to }
    requires to { to < length ended.old }
    requires apart { (j k r : ℕ) → ranked ended.old j ≡ Some (from, r) → ranked ended.old k ≢ Some (to, r) }
    ensures ranks { (k : ℕ) → ranked ended.new k
        ≡ option_map (λ (m : ℕ × ℕ). (handed from to m.0, m.1)) (ranked ended.old k) }
    ensures keys { length ended.new ≡ length ended.old }
{
    ended.laws();
    if (from as usize) < ended.keys() {
        ended.move_all(from, to);
    }
}

/// All children of the one become the other's.
#[inline(never)]
pub(crate) fn hand_all(
    children: &mut MemberLists,
    ended: &mut MemberQueues,
    from: TaskKey,
    to: TaskKey,
)
    requires differ { from ≢ to }
    requires from { from < length children.old }
    requires to { to < length children.old }
    requires ranks { to < length ended.old }
    requires waiting { IsWaiting children.old ended.old }
    requires apart { (j k r : ℕ) → ranked ended.old j ≡ Some (from, r) → ranked ended.old k ≢ Some (to, r) }
    ensures parents { (k : ℕ) → owner_of children.new k ≡ option_map (handed from to) (owner_of children.old k) }
    ensures ranks { (k : ℕ) → ranked ended.new k
        ≡ option_map (λ (m : ℕ × ℕ). (handed from to m.0, m.1)) (ranked ended.old k) }
    ensures keys { (length children.new ≡ length children.old) × (length ended.new ≡ length ended.old) }
{
    children.move_all(from, to);
    hand_ended(ended, from, to);
}
