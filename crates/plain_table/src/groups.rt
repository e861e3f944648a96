//! Process groups and sessions: `setpgid(2)` and `setsid(2)`. They look through all tasks, and take
//! no memory.
ghost use Rattle.std.specs.Prelude.{◌≡◌, is_some, MatchResult};
ghost use Rattle.{
  pid_types.specs.Groups.{set_group, has_members as has_members_of, session_group as session_group_of, is_no_leader},
  pid_types.specs.Groups.{group_for as group_for_of, target_of as target_number, set_group_of, set_pgid as set_pgid_of},
  pid_types.specs.{Groups.{set_sid as set_sid_of}, Names.{with_row}, Outcome.{refused, changed}},
  pid_types.specs.Threads.{thread_numbered},
};

use crate::edit::{SetGroup, StartSession};
use crate::find::copy_row;
use crate::table::PlainTable;
use pid_types::plain::{Name, Row};
use pid_types::reply::{Refusal, Reply};
use plain_view::names::{copy_name, is_parent, is_same};

impl PlainTable {
    /// Whether some task, zombies among them, is in the group.
    fn has_members(&self, group: &Name) -> bool
        ensures { result ≡ has_members_of self.now group.now }
    {
        self.rows.iter().any(|row| is_same(&row.group, group))
    }

    /// Whom the number names: 0 the caller, a negative one nobody.
    fn target_of(&self, caller: &Row, pid: i32) -> Option<Row>
        ensures { result ≡ target_number self.now caller.now pid }
    {
        match u32::try_from(pid) {
            Ok(0) => Some(copy_row(caller)),
            Ok(number) => self.find_process(caller.name.space, number),
            Err(_) => None,
        }
    }

    /// Whether the number names a thread that is no process's first one.
    fn is_no_leader(&self, caller: &Row, pid: i32) -> bool
        ensures { result ≡ is_no_leader self.now caller.now pid }
    {
        match u32::try_from(pid) {
            Ok(number) => self.is_thread(caller.name.space, number) && number != 0,
            Err(_) => false,
        }
    }

    fn is_thread(&self, space: u64, number: u32) -> bool
        ensures { result ≡ is_some (thread_numbered self.now space number) }
    {
        self.view().thread_numbered(space, number).is_some()
    }

    /// The group with the number in the caller's namespace, if some task of the caller's session is
    /// in it.
    #[tactic(auto, unfolding(pid_types::specs::Groups::session_group))]
    fn session_group(&self, caller: &Row, number: u32) -> Option<Name>
        ensures { result ≡ session_group_of self.now caller.now number }
    {
        let view = self.view();
        let row = self.rows.iter().find(|row| {
            is_same(&row.session, &caller.session)
                && view.is_numbered(&row.group, caller.name.space, number)
        })?;
        Some(copy_name(&row.group))
    }

    /// The group that the number names for the target: 0 and the target's own number are its own
    /// identifier.
    fn group_for(&self, caller: &Row, target: &Row, pgid: i32) -> Option<Name>
        ensures { result ≡ group_for_of self.now caller.now target.now pgid }
    {
        let number = u32::try_from(pgid).ok()?;
        if number == 0
            || self
                .view()
                .is_numbered(&target.name, caller.name.space, number)
        {
            Some(copy_name(&target.name))
        } else {
            self.session_group(caller, number)
        }
    }

    /// The group that the target goes into, or the first refusal.
    #[tactic(auto, unfolding(pid_types::specs::Groups::set_group_of))]
    fn new_group(&self, caller: &Row, target: &Row, pgid: i32) -> Result<Name, Refusal>
        ensures { MatchResult result
            (λ group. set_group_of self.now caller.now target.now pgid
            ≡ changed (with_row self.now target.now.name (set_group group)) Reply.Done)
            (λ r. set_group_of self.now caller.now target.now pgid ≡ refused self.now r) }
    {
        let is_child = is_parent(&caller.name, target);
        if is_child && !is_same(&target.session, &caller.session) {
            return Err(Refusal::OtherSession);
        }
        if is_child && target.executed {
            return Err(Refusal::Executed);
        }
        if !is_child && !is_same(&target.name, &caller.name) {
            return Err(Refusal::NoTask);
        }
        if is_same(&target.session, &target.name) {
            return Err(Refusal::IsLeader);
        }
        match self.group_for(caller, target, pgid) {
            Some(group) => Ok(group),
            None => Err(Refusal::NoGroup),
        }
    }

    /// `setpgid(2)`: the target goes into a group of its session, or leads a new one.
    #[tactic(auto, unfolding(pid_types::specs::Groups::set_pgid))]
    pub fn set_pgid(&mut self, caller: u32, pid: i32, pgid: i32) -> Reply
        ensures state { self.new ≡ (set_pgid_of self.old caller pid pgid).state }
        ensures reply { result ≡ (set_pgid_of self.old caller pid pgid).reply }
    {
        let Some(row) = self.find_caller(caller) else {
            return Reply::Refused(Refusal::NoCaller);
        };
        if pgid < 0 {
            return Reply::Refused(Refusal::BadGroup);
        }
        let Some(target) = self.target_of(&row, pid) else {
            return Reply::Refused(Refusal::NoTask);
        };
        if self.is_no_leader(&row, pid) {
            return Reply::Refused(Refusal::BadGroup);
        }
        match self.new_group(&row, &target, pgid) {
            Ok(group) => {
                self.change_row(&target.name, &SetGroup(&group));
                self.sweep();
                Reply::Done
            }
            Err(refusal) => Reply::Refused(refusal),
        }
    }

    /// `setsid(2)`: the caller leads a new session and a new group.
    #[tactic(auto, unfolding(pid_types::specs::Groups::set_sid))]
    pub fn set_sid(&mut self, caller: u32) -> Reply
        ensures state { self.new ≡ (set_sid_of self.old caller).state }
        ensures reply { result ≡ (set_sid_of self.old caller).reply }
    {
        let Some(row) = self.find_caller(caller) else {
            return Reply::Refused(Refusal::NoCaller);
        };
        if self.has_members(&row.name) {
            return Reply::Refused(Refusal::IsLeader);
        }
        let number = self.view().number_or_zero(&row.name, row.name.space);
        self.change_row(&row.name, &StartSession);
        self.sweep();
        Reply::Number(number)
    }
}
