//! Process groups and sessions: in which of them each task is, who is in a group, and the rules of
//! `setpgid(2)` and `setsid(2)`.
//!
//! Tasks have keys, and so have the identifiers that groups and sessions are named after. Both are numbers
//! below 2^30 and share one room. A zombie is a task too: it is in its group until it is reaped, and leaves.
#![tactic(auto)]

ghost use Rattle.std.specs.Prelude.{◌≡◌, ◌≢◌, ℕ, ◌<◌, ◌≤◌, ◌^◌, ◌↔◌, [], length, option_map, Some, None, IsSome};
ghost use Rattle.std.specs.Prelude.{IsTrue, OnOk, MatchResult, slice_set};
ghost use Rattle.{
  member_lists.specs.Owners.{AreMembers},
  groups_sessions.specs.Membership.{Membership, membership_at, group_of, session_of, groups_of, HasMembers},
  groups_sessions.specs.Membership.{AreInSession, AreOthersInSession, IsSessionOf, AreGroupsOf},
  groups_sessions.specs.Setpgid.{session_group_key, group_key_for, setpgid_answer},
};

mod ask;
mod group_session;
mod room;

pub use ask::{GroupAsk, Target};
use group_session::{forget_if_empty, put_session};
pub use member_lists::Members as GroupMembers;
use member_lists::{MemberLists, keys_with_room};
use pid_numbers::Numbers;
use pid_types::keys::{IdentKey, Pid, SpaceKey, TaskKey};
use pid_types::reply::Refusal;
use room::{grow, has_member};
use std::alloc::{AllocError, Global};
use std::marker::Model;

/// In which group and in which session each task is.
///
/// All tasks of a group are in one session, and each session has its groups in a list, as each group its
/// tasks. It takes 32 bytes for each key, and only `reserve` takes memory. But for that one and `may_setpgid`
/// each call costs a few reads and writes, however many tasks and groups there are.
pub struct Members {
    groups: MemberLists,
    sessions: MemberLists,
}

// Written out, and not derived: so the crates above cite this drop, and do not prove it anew.
impl Drop for Members {
    fn drop(self) {
        let Members {
            groups: _,
            sessions: _,
        } = self;
    }
}

impl Model for Members {
    ghost use Rattle.std.specs.Prelude.{List, Option};
    ghost use Rattle.groups_sessions.specs.Membership.{Membership, memberships_of, AreMemberships};

    ghost Value = { List (Option Membership) };

    ghost view = { λ a. memberships_of a.groups a.sessions };

    ghost invariant = { λ a. AreMemberships a.groups a.sessions };
}

impl Members {
    /// No task in any group.
    pub fn new(alloc: Global) -> Self
        ensures { result ≡ [] }
    {
        Members {
            groups: MemberLists::new(alloc),
            sessions: MemberLists::new(alloc),
        }
    }

    /// Makes room for the key of a task and for that of an identifier, and for all below. It costs a step for each
    /// key that is new. The error is want of memory; then each task is where it was.
    #[inline(always)]
    pub fn reserve(&mut self, task: TaskKey, ident: IdentKey) -> Result<(), AllocError>
        requires task { task < 2 ^ 30 }
        requires ident { ident < 2 ^ 30 }
        ensures task { OnOk result (task < length self.new) }
        ensures ident { OnOk result (ident < length self.new) }
        ensures room { length self.old ≤ length self.new }
        ensures kept { (k : ℕ) → membership_at self.new k ≡ membership_at self.old k }
    {
        let key = task.max(ident);
        if (key as usize) < self.groups.keys() {
            return Ok(());
        }
        grow(&mut self.groups, &mut self.sessions, keys_with_room(key))
    }

    /// A task that is in no group enters one, as `fork(2)` has it enter its parent's. Whoever is in the
    /// group must be in the session.
    #[inline(always)]
    pub fn enter(&mut self, task: TaskKey, group: IdentKey, session: IdentKey)
        requires task { task < length self.old }
        requires group { group < length self.old }
        requires session { session < length self.old }
        requires free { membership_at self.old task ≡ None }
        requires together { AreInSession self.old group session }
        ensures { self.new ≡ slice_set self.old task (Some (record { group = group; session = session })) }
    {
        put_session(&mut self.sessions, group, session);
        self.groups.add(task, group);
    }

    /// A task goes to another group, or to the one that it is in, and stays in its session: `setpgid(2)`.
    /// Whoever is in the group must be in the task's session.
    pub fn join_group(&mut self, task: TaskKey, ident: IdentKey)
        requires group { ident < length self.old }
        requires there { IsSome (membership_at self.old task) }
        requires together { (s : ℕ) → session_of self.old task ≡ Some s → AreInSession self.old ident s }
        ensures { self.new ≡ slice_set self.old task (option_map (λ (m : Membership). record m { group = ident })
            (membership_at self.old task)) }
    {
        self.laws();
        let session = self.session(task);
        self.move_to(task, ident, session);
    }

    /// A task goes to a group in a session, whichever it was in. Whoever else is in the group must be in that session.
    pub fn move_to(&mut self, task: TaskKey, group: IdentKey, session: IdentKey)
        requires group { group < length self.old }
        requires session { session < length self.old }
        requires there { IsSome (membership_at self.old task) }
        requires together { AreOthersInSession self.old task group session }
        ensures { self.new ≡ slice_set self.old task (Some (record { group = group; session = session })) }
    {
        let old = self.groups.member_owner(task);
        put_session(&mut self.sessions, group, session);
        self.groups.move_to(task, group);
        forget_if_empty(&self.groups, &mut self.sessions, old);
    }

    /// A task leads a new session and a new group in it, both named after the identifier: `setsid(2)`.
    /// Nobody may be in that group.
    pub fn start_session(&mut self, task: TaskKey, ident: IdentKey)
        requires group { ident < length self.old }
        requires there { IsSome (membership_at self.old task) }
        requires free { (k : ℕ) → group_of self.old k ≢ Some ident }
        ensures { self.new ≡ slice_set self.old task (Some (record { group = ident; session = ident })) }
    {
        self.move_to(task, ident, ident);
    }

    /// A task is gone: it was reaped.
    pub fn leave(&mut self, task: TaskKey)
        requires { IsSome (membership_at self.old task) }
        ensures { self.new ≡ slice_set self.old task None }
    {
        let old = self.groups.member_owner(task);
        self.groups.remove(task);
        forget_if_empty(&self.groups, &mut self.sessions, old);
    }

    /// The group that a task is in: `getpgid(2)`.
    pub fn group(&self, task: TaskKey) -> IdentKey
        requires { IsSome (membership_at self.now task) }
        ensures { group_of self.now task ≡ Some result }
    {
        self.groups.member_owner(task)
    }

    /// The session that a task is in: `getsid(2)`.
    pub fn session(&self, task: TaskKey) -> IdentKey
        requires { IsSome (membership_at self.now task) }
        ensures { session_of self.now task ≡ Some result }
    {
        let group = self.groups.member_owner(task);
        self.sessions.member_owner(group)
    }

    /// Whether some task is in the group.
    pub fn any_in_group(&self, ident: IdentKey) -> bool
        ensures { IsTrue result ↔ HasMembers self.now ident }
    {
        has_member(&self.groups, ident)
    }

    /// The session of those who are in the group; none where nobody is.
    pub fn session_of_group(&self, ident: IdentKey) -> Option<IdentKey>
        ensures { IsSessionOf self.now ident result }
    {
        if (ident as usize) < self.sessions.keys() {
            self.sessions.owner(ident)
        } else {
            None
        }
    }

    /// Those who are in the group, one after the other.
    pub fn group_members(&self, ident: IdentKey) -> GroupMembers<'_>
        requires { ident < length self.now }
        ensures { AreMembers (groups_of self.now) ident result }
    {
        self.groups.members(ident)
    }

    /// The groups of the session in which somebody is, one after the other.
    pub fn session_groups(&self, ident: IdentKey) -> GroupMembers<'_>
        requires { ident < length self.now }
        ensures { AreGroupsOf self.now ident result }
    {
        self.sessions.members(ident)
    }

    /// How many keys there is room for.
    pub fn keys(&self) -> usize
        ensures { result ≡ length self.now }
    {
        self.groups.keys()
    }

    /// The group with the number in the namespace, if some task of the session is in it.
    fn session_group(
        &self,
        numbers: &Numbers,
        session: IdentKey,
        space: SpaceKey,
        n: Pid,
    ) -> Option<IdentKey>
        ensures { result ≡ session_group_key self.now numbers.now session space n }
    {
        numbers.laws();
        let Some(ident) = numbers.find(space, n) else {
            return None;
        };
        if self.session_of_group(ident) == Some(session) {
            Some(ident)
        } else {
            None
        }
    }

    /// The group that the number names for the target.
    fn group_for(&self, numbers: &Numbers, ask: &GroupAsk, target: &Target) -> Option<IdentKey>
        ensures { result ≡ group_key_for self.now numbers.now ask.now target.now ask.now.pgid }
    {
        let n = u32::try_from(ask.pgid).ok()?;
        if n == 0 || numbers.number_in(target.ident, ask.space) == Some(n) {
            return Some(target.ident);
        }
        self.session_group(numbers, ask.session, ask.space, n)
    }

    /// The group that `setpgid(2)` puts the target into, or the first refusal: `BadGroup` for a negative
    /// number; `NoTask` where there is no target; of a child `OtherSession` and `Executed`; `NoTask` for who is
    /// neither the caller nor its child; `IsLeader`; and `NoGroup` where nobody of the caller's session,
    /// zombies included, is in the group. It costs one search in the namespace's tree of numbers.
    pub fn may_setpgid(&self, numbers: &Numbers, ask: &GroupAsk) -> Result<IdentKey, Refusal>
        ensures { result ≡ setpgid_answer self.now numbers.now ask.now }
    {
        if ask.pgid < 0 {
            return Err(Refusal::BadGroup);
        }
        let Some(target) = ask.target else {
            return Err(Refusal::NoTask);
        };
        ask.check(&target)?;
        self.group_for(numbers, ask, &target)
            .ok_or(Refusal::NoGroup)
    }

    /// Whether the task with the identifier may lead a new session: `IsLeader` where somebody, the task
    /// itself or a zombie too, is in a group of that name (`setsid(2)`, `EPERM`).
    pub fn may_setsid(&self, ident: IdentKey) -> Result<(), Refusal>
        ensures { MatchResult result (λ _. (k : ℕ) → group_of self.now k ≢ Some ident)
            (λ refusal. (refusal ≡ Refusal.IsLeader) × HasMembers self.now ident) }
    {
        if self.any_in_group(ident) {
            Err(Refusal::IsLeader)
        } else {
            Ok(())
        }
    }

    /// What is true at any time; the call does nothing. The tasks of one group are in one session, there
    /// is room for each group's key and each session's, and there are at most 2^30 keys.
    pub fn laws(&self)
        ensures together { (k : ℕ) (m : Membership) → membership_at self.now k ≡ Some m
            → AreInSession self.now m.group m.session }
        ensures room { (k : ℕ) (m : Membership) → membership_at self.now k ≡ Some m → m.group < length self.now }
        ensures session_room { (k : ℕ) (m : Membership) → membership_at self.now k ≡ Some m
            → m.session < length self.now }
        ensures few { length self.now ≤ 2 ^ 30 }
    {
        let _ = &self.groups;
    }
}
