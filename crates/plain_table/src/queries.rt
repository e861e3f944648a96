//! The queries: `getpid(2)`, `gettid(2)`, `getppid(2)`, `getpgid(2)`, `getsid(2)`, `Tgid` and `NSpid`
//! of `proc_pid_status(5)`. They look through all tasks, take no memory
//! and change nothing.
ghost use Rattle.std.specs.Prelude.{◌≡◌};
ghost use Rattle.pid_types.specs.Queries.{get_pid as get_pid_of, get_ppid as get_ppid_of, get_pgid as get_pgid_of};
ghost use Rattle.pid_types.specs.Queries.{get_sid as get_sid_of, ns_pid as ns_pid_of, self_or_task};
ghost use Rattle.pid_types.specs.Queries.{get_tid as get_tid_of, get_tgid as get_tgid_of};

use crate::table::PlainTable;
use pid_types::plain::Row;
use pid_types::reply::{Refusal, Reply};

impl PlainTable {
    /// `getpid(2)`.
    #[tactic(auto, unfolding(pid_types::specs::Queries::get_pid))]
    pub fn get_pid(&self, caller: u32) -> Reply
        ensures { result ≡ get_pid_of self.now caller }
    {
        let Some(row) = self.find_caller(caller) else {
            return Reply::Refused(Refusal::NoCaller);
        };
        Reply::Number(self.view().number_or_zero(&row.name, row.name.space))
    }

    /// `getppid(2)`: 0 for a parent that the caller cannot see, and for the root init.
    #[tactic(auto, unfolding(pid_types::specs::Queries::get_ppid))]
    pub fn get_ppid(&self, caller: u32) -> Reply
        ensures { result ≡ get_ppid_of self.now caller }
    {
        let Some(row) = self.find_caller(caller) else {
            return Reply::Refused(Refusal::NoCaller);
        };
        match &row.parent {
            Some(parent) => Reply::Number(self.view().number_or_zero(parent, row.name.space)),
            None => Reply::Number(0),
        }
    }

    /// The task with the number in the caller's namespace, where 0 is the caller.
    fn self_or_task(&self, caller: &Row, pid: u32) -> Option<Row>
        ensures { result ≡ self_or_task self.now caller.now pid }
    {
        if pid == 0 {
            Some(crate::find::copy_row(caller))
        } else {
            self.find_process(caller.name.space, pid)
        }
    }

    /// `getpgid(2)`: 0 for a group that the caller cannot see.
    #[tactic(auto, unfolding(pid_types::specs::Queries::get_pgid))]
    pub fn get_pgid(&self, caller: u32, pid: u32) -> Reply
        ensures { result ≡ get_pgid_of self.now caller pid }
    {
        let Some(row) = self.find_caller(caller) else {
            return Reply::Refused(Refusal::NoCaller);
        };
        let Some(task) = self.self_or_task(&row, pid) else {
            return Reply::Refused(Refusal::NoTask);
        };
        Reply::Number(self.view().number_or_zero(&task.group, row.name.space))
    }

    /// `getsid(2)`: 0 for a session that the caller cannot see.
    #[tactic(auto, unfolding(pid_types::specs::Queries::get_sid))]
    pub fn get_sid(&self, caller: u32, pid: u32) -> Reply
        ensures { result ≡ get_sid_of self.now caller pid }
    {
        let Some(row) = self.find_caller(caller) else {
            return Reply::Refused(Refusal::NoCaller);
        };
        let Some(task) = self.self_or_task(&row, pid) else {
            return Reply::Refused(Refusal::NoTask);
        };
        Reply::Number(self.view().number_or_zero(&task.session, row.name.space))
    }

    /// `NSpid` of `proc_pid_status(5)`: the target's numbers from the caller's namespace inwards.
    #[tactic(auto, unfolding(pid_types::specs::Queries::ns_pid))]
    pub fn ns_pid(&self, caller: u32, target: u32) -> Reply
        ensures { result ≡ ns_pid_of self.now caller target }
    {
        let Some(row) = self.find_caller(caller) else {
            return Reply::Refused(Refusal::NoCaller);
        };
        let view = self.view();
        if let Some(thread) = view.thread_numbered(row.name.space, target) {
            return Reply::Levels(view.numbers_from(&thread.name, row.name.space));
        }
        let Some(task) = view.task_at(row.name.space, target) else {
            return Reply::Refused(Refusal::NoTask);
        };
        Reply::Levels(view.numbers_from(&task.name, row.name.space))
    }

    /// `gettid(2)`: the number of the calling thread.
    #[tactic(auto, unfolding(pid_types::specs::Queries::get_tid))]
    pub fn get_tid(&self, caller: u32) -> Reply
        ensures { result ≡ get_tid_of self.now caller }
    {
        let Some(row) = self.find_caller(caller) else {
            return Reply::Refused(Refusal::NoCaller);
        };
        let view = self.view();
        match view.thread_at(caller) {
            Some(thread) => Reply::Number(view.number_or_zero(&thread.name, row.name.space)),
            None => Reply::Number(view.number_or_zero(&row.name, row.name.space)),
        }
    }

    /// `Tgid` of `proc_pid_status(5)`: the number of the target's process.
    #[tactic(auto, unfolding(pid_types::specs::Queries::get_tgid))]
    pub fn get_tgid(&self, caller: u32, target: u32) -> Reply
        ensures { result ≡ get_tgid_of self.now caller target }
    {
        let Some(row) = self.find_caller(caller) else {
            return Reply::Refused(Refusal::NoCaller);
        };
        let Some(process) = self.find_process(row.name.space, target) else {
            return Reply::Refused(Refusal::NoTask);
        };
        Reply::Number(self.view().number_or_zero(&process.name, row.name.space))
    }
}
