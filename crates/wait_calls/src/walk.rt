//! The wait for a process group: a look at the ended child with the least rank, and, if that one is not in the group, a
//! walk over the caller's ended children or over the group's members, whichever are fewer. If no ended child is in the
//! group, it walks over all children or over the members, whichever are fewer.

ghost use Rattle.std.specs.Prelude.{◌≡◌, ◌≢◌, ◌<◌, ◌↔◌, ℕ, Some, IfSome, IsSome, IsTrue, [], length, true, false};
ghost use Rattle.std.specs.List.{AllByRecursion};
ghost use Rattle.{
  member_lists.specs.Owners.{times},
  wait_calls.specs.{declared.walk.Looked.{Looked}, Choice.{IsMatch, IsChoice, IsEndedChoice}},
  wait_calls.specs.declared.selection.Selected.TheVariants.{Group},
  wait_calls.specs.Walk.{is_group_match as is_group_match_of, looked_at, walked},
  task_tree.specs.Tree.{task_at, parent_of},
  groups_sessions.specs.Membership.{group_of},
};

use crate::selection::{Choice, Selected, choose_any, counted, parent_in};
use member_lists::Members;
use pid_types::call::Kind;
use pid_types::keys::{IdentKey, TaskKey};
use task_table::Tasks;

/// Whether the task is a child of the caller and in the group.
fn is_group_match(store: &Tasks, caller: TaskKey, group: IdentKey, key: TaskKey) -> bool
    ensures { result ≡ is_group_match_of store.now caller group key }
{
    store.laws();
    store.tree().laws();
    parent_in(store, key) == Some(caller) && store.members().group(key) == group
}

/// The choice when one task more was looked at.
fn look_at(store: &Tasks, caller: TaskKey, group: IdentKey, choice: Choice, key: TaskKey) -> Choice
    ensures { result ≡ looked_at store.now caller group choice key }
{
    if !is_group_match(store, caller, group, key) {
        return choice;
    }
    let tree = store.tree();
    tree.laws();
    counted(choice, key, tree.rank(key))
}

/// The choice among the children in the group that have ended, where a look at the first of all ended children is
/// enough: no child where none has ended. It costs a few reads.
fn choose_least(store: &Tasks, caller: TaskKey, group: IdentKey) -> Option<Choice>
    requires { IsSome (task_at store.now.tree caller) }
    ensures { IfSome result (λ choice. IsEndedChoice store.now caller group choice) }
{
    let least = choose_any(store, caller);
    let Choice::Ended { child, rank: _ } = least else {
        return Some(Choice::NoChild);
    };
    if is_group_match(store, caller, group, child) {
        Some(least)
    } else {
        None
    }
}

/// So many children are looked at for each member of the group.
const CHILDREN_A_MEMBER: u32 = 4;

/// The same by a look at all ended children, whatever group each is in: a few reads for each. The answer is none where
/// they are more than so many for each member of the group.
fn choose_ended(store: &Tasks, caller: TaskKey, group: IdentKey) -> Option<Choice>
    requires { IsSome (task_at store.now.tree caller) }
    ensures { IfSome result (λ choice. IsEndedChoice store.now caller group choice) }
{
    let tree = store.tree();
    tree.laws();
    let members = store.numbers().count(group, Kind::Group);
    let mut left = members.saturating_mul(CHILDREN_A_MEMBER as u64);
    let mut choice = Choice::NoChild;
    for child in tree.ended_children(caller) {
        if left == 0 {
            return None;
        }
        left -= 1;
        choice = look_at(store, caller, group, choice, child);
    }
    Some(choice)
}

/// The choice among all children in the group, by a look at each of its members: a few reads for each.
fn choose_member(store: &Tasks, caller: TaskKey, group: IdentKey) -> Choice
    requires { group < length store.now.members }
    ensures { IsChoice store.now caller (Group group) result }
{
    store.tree().laws();
    let mut choice = Choice::NoChild;
    for member in store.members().group_members(group) {
        choice = look_at(store, caller, group, choice, member);
    }
    choice
}

/// What a look at some more children finds.
#[derive(Clone, Copy)]
enum Looked {
    /// One of them is in the group.
    Match,
    /// None is, and there are no more.
    End,
    /// None is.
    More,
}

/// Whether the caller's child is in the group.
fn is_in(store: &Tasks, group: IdentKey, child: TaskKey) -> bool
    requires { IsSome (parent_of store.now.tree child) }
    ensures { IsTrue result ↔ (group_of store.now.members child ≡ Some group) }
{
    store.laws();
    store.tree().laws();
    store.members().group(child) == group
}

/// Looks at a few more children of the caller.
#[inline(always)]
fn look_at_children(
    store: &Tasks,
    caller: TaskKey,
    group: IdentKey,
    children: &mut Members<'_>,
) -> Looked
    requires { AllByRecursion (λ k. parent_of store.now.tree k ≡ Some caller) children.old }
    ensures children { AllByRecursion (λ k. parent_of store.now.tree k ≡ Some caller) children.new }
    ensures some { result ≡ Looked.Match → (k : ℕ) × IsMatch store.now caller (Group group) k }
    ensures left { result ≢ Looked.Match → (k : ℕ) → group_of store.now.members k ≡ Some group
        → times k children.new ≡ times k children.old }
    ensures end { result ≡ Looked.End → children.new ≡ [] }
{
    for _ in 0..CHILDREN_A_MEMBER {
        let Some(child) = children.next() else {
            return Looked::End;
        };
        if is_in(store, group, child) {
            return Looked::Match;
        }
    }
    Looked::More
}

/// Whether some member of the group is a child of the caller. It costs a few reads for each member.
fn any_member_is_child(store: &Tasks, caller: TaskKey, group: IdentKey) -> bool
    requires { group < length store.now.members }
    ensures some { result ≡ true → (k : ℕ) × IsMatch store.now caller (Group group) k }
    ensures none { result ≡ false → (k : ℕ) → IsMatch store.now caller (Group group) k → ⊥ }
{
    for member in store.members().group_members(group) {
        if parent_in(store, member) == Some(caller) {
            return true;
        }
    }
    false
}

/// Whether some child is in the group. Each of the two lists alone has all such children. The walk is over the
/// children, so many for each member of the group; where more are left, the members are fewer, and it is over these.
/// It is not inlined: so the walk has all registers.
#[inline(never)]
fn has_match(store: &Tasks, caller: TaskKey, group: IdentKey) -> bool
    requires caller { IsSome (task_at store.now.tree caller) }
    requires group { group < length store.now.members }
    ensures some { result ≡ true → (k : ℕ) × IsMatch store.now caller (Group group) k }
    ensures none { result ≡ false → (k : ℕ) → IsMatch store.now caller (Group group) k → ⊥ }
{
    store.tree().laws();
    let mut children = store.tree().children(caller);
    for _ in 0..store.numbers().count(group, Kind::Group) {
        match look_at_children(store, caller, group, &mut children) {
            Looked::Match => return true,
            Looked::End => return false,
            Looked::More => {}
        }
    }
    any_member_is_child(store, caller, group)
}

/// The choice among the children in the group.
pub(crate) fn choose_in_group(store: &Tasks, caller: TaskKey, group: IdentKey) -> Choice
    requires { IsSome (task_at store.now.tree caller) }
    ensures { IsChoice store.now caller (Selected.Group group) result }
{
    store.members().laws();
    if !store.members().any_in_group(group) {
        return Choice::NoChild;
    }
    let ended = match choose_least(store, caller, group) {
        Some(choice) => Some(choice),
        None => choose_ended(store, caller, group),
    };
    match ended {
        None => choose_member(store, caller, group),
        Some(Choice::NoChild) if has_match(store, caller, group) => Choice::NoneEnded,
        Some(choice) => choice,
    }
}
