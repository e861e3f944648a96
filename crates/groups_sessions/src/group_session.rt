//! The session of a group, which it has exactly while some task is in it.

ghost use Rattle.std.specs.Prelude.{◌≡◌, ◌≢◌, ℕ, ◌<◌, ◌≤◌, length, Some, IsSome, slice_set};
ghost use Rattle.member_lists.specs.Owners.{owner_of};
ghost use Rattle.groups_sessions.specs.Membership.{IsJoined};

use member_lists::MemberLists;
use pid_types::keys::IdentKey;

/// The group is in the session from now on, whichever it was in.
#[inline(always)]
pub(crate) fn put_session(sessions: &mut MemberLists, group: IdentKey, session: IdentKey)
    requires group { group < length sessions.old }
    requires session { session < length sessions.old }
    ensures { sessions.new ≡ slice_set sessions.old group (Some session) }
{
    match sessions.owner(group) {
        None => sessions.add(group, session),
        Some(old) if old != session => sessions.move_to(group, session),
        Some(_) => {}
    }
}

/// The group goes from its session, if nobody is left in it.
#[inline(always)]
pub(crate) fn forget_if_empty(groups: &MemberLists, sessions: &mut MemberLists, group: IdentKey)
    requires group { group < length groups.now }
    requires room { length groups.now ≤ length sessions.old }
    requires there { IsSome (owner_of sessions.old group) }
    ensures joined { IsSome (owner_of sessions.new group) → IsJoined groups.now group }
    ensures stays { IsJoined groups.now group → owner_of sessions.new group ≡ owner_of sessions.old group }
    ensures others { (g : ℕ) → g ≢ group → owner_of sessions.new g ≡ owner_of sessions.old g }
    ensures room { length sessions.new ≡ length sessions.old }
{
    if groups.first(group).is_none() {
        sessions.remove(group);
    }
}
