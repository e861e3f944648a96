//! Memory for more keys, and look-ups in the lists of tasks by group.

ghost use Rattle.std.specs.Prelude.{◌≡◌, ◌≢◌, ℕ, ◌<◌, ◌≤◌, ◌^◌, length, Some, IsTrue, false, OnOk};
ghost use Rattle.member_lists.specs.Owners.{owner_of};
ghost use Rattle.groups_sessions.specs.Membership.{AreMemberships, IsJoined};

use member_lists::MemberLists;
use pid_types::keys::IdentKey;
use std::alloc::AllocError;

/// Makes room for so many keys among the sessions, where there is none yet.
fn room_for_sessions(sessions: &mut MemberLists, keys: usize) -> Result<(), AllocError>
    requires { keys ≤ 2 ^ 30 }
    ensures ok { OnOk result (keys ≤ length sessions.new) }
    ensures more { length sessions.old ≤ length sessions.new }
    ensures kept { (g : ℕ) → owner_of sessions.new g ≡ owner_of sessions.old g }
{
    if sessions.keys() >= keys {
        return Ok(());
    }
    sessions.grow(keys - sessions.keys())
}

/// Makes room for so many keys. Where memory ends behind the first list, the sessions alone have grown.
#[inline(never)]
pub(crate) fn grow(
    groups: &mut MemberLists,
    sessions: &mut MemberLists,
    keys: usize,
) -> Result<(), AllocError>
    requires more { length groups.old ≤ keys }
    requires few { keys ≤ 2 ^ 30 }
    requires kept { AreMemberships groups.old sessions.old }
    ensures kept { AreMemberships groups.new sessions.new }
    ensures groups { (k : ℕ) → owner_of groups.new k ≡ owner_of groups.old k }
    ensures sessions { (g : ℕ) → owner_of sessions.new g ≡ owner_of sessions.old g }
    ensures longer { length groups.old ≤ length groups.new }
    ensures room { OnOk result (length groups.new ≡ keys) }
{
    room_for_sessions(sessions, keys)?;
    groups.grow(keys - groups.keys())?;
    Ok(())
}

/// Whether some task is in the group.
pub(crate) fn has_member(groups: &MemberLists, ident: IdentKey) -> bool
    requires { (k g : ℕ) → owner_of groups.now k ≡ Some g → g < length groups.now }
    ensures some { IsTrue result → IsJoined groups.now ident }
    ensures none { result ≡ false → (k : ℕ) → owner_of groups.now k ≢ Some ident }
{
    (ident as usize) < groups.keys() && groups.first(ident).is_some()
}
