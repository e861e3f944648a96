//! Changes of one process or thread: exec (`execve(2)`), join (`setns(2)`), the subreaper's mark (`prctl(2)`),
//! and moves between control groups (a write to `cgroup.procs`). They take no memory.
ghost use Rattle.std.specs.Prelude.{◌≡◌, map};
ghost use Rattle.pid_types.specs.Changes.{exec as exec_of, join as join_of, set_subreaper as set_subreaper_of};
ghost use Rattle.pid_types.specs.Changes.{move_task as move_of, after_exec, with_children_space, with_home};
ghost use Rattle.pid_types.specs.Changes.{set_executed, set_home as set_row_home};
ghost use Rattle.pid_types.specs.{Names.{with_row, on_row}, Threads.{without_threads}};

use crate::edit::{
    AllButName, NoThreadOf, SetChildrenSpace, SetExecuted, SetHome, SetMark, SetThreadHome,
    SetThreadSpace, edit_all, edit_row, keep,
};
use crate::table::PlainTable;
use pid_types::plain::{Name, Row};
use pid_types::reply::{Refusal, Reply};
use plain_view::names::is_live;
use plain_view::view::View;

/// The named process has executed, and goes on in the thread with the root number.
fn execute_row(rows: &mut [Row], view: &View<'_>, number: u32, name: &Name)
    ensures { rows.new ≡ map (on_row name.now (set_executed view.now number)) rows.old }
{
    edit_row(rows, name, &SetExecuted { view, number });
}

/// The named process's first thread is in the control group, unless it has left.
fn rehome_row(rows: &mut [Row], view: &View<'_>, name: &Name, home: u64)
    ensures { rows.new ≡ map (on_row name.now (set_row_home view.now home)) rows.old }
{
    edit_row(rows, name, &SetHome { view, home });
}

impl PlainTable {
    /// Marks the process's row, which goes on in the calling thread.
    #[tactic(auto, unfolding(pid_types::specs::Names::with_row))]
    fn mark_executed(&mut self, caller: u32, name: &Name)
        ensures { self.new ≡ with_row self.old name.now (set_executed self.old caller) }
    {
        // No tasks: they are lent to the change, which looks among threads alone.
        let view = View::new(
            &[],
            &self.threads,
            &self.left,
            &self.spaces,
            &self.controls,
            self.pid_max,
        );
        execute_row(&mut self.rows, &view, caller, name);
    }

    /// The process has no thread beside its first one, which has not left.
    pub(crate) fn drop_threads(&mut self, process: &Name)
        ensures { self.new ≡ without_threads process.now self.old }
    {
        keep(&mut self.threads, &NoThreadOf(process));
        keep(&mut self.left, &AllButName(process));
    }

    #[tactic(auto, unfolding(pid_types::specs::Changes::after_exec))]
    fn set_executed(&mut self, caller: u32, name: &Name)
        ensures { self.new ≡ after_exec self.old caller name.now }
    {
        self.mark_executed(caller, name);
        self.drop_threads(name);
    }

    /// The calling thread's children go into the namespace.
    fn set_children_space(&mut self, caller: u32, row: &Row, space: u64)
        ensures { self.new ≡ with_children_space self.old caller row.now space }
    {
        if self.view().thread_at(caller).is_some() {
            let number = caller;
            edit_all(&mut self.threads, &SetThreadSpace { number, space });
        } else {
            self.change_row(&row.name, &SetChildrenSpace(space));
        }
    }

    #[tactic(auto, unfolding(pid_types::specs::Names::with_row))]
    fn set_row_home(&mut self, name: &Name, home: u64)
        ensures { self.new ≡ with_row self.old name.now (set_row_home self.old home) }
    {
        // No tasks: they are lent to the change, which asks who has left alone.
        let view = View::new(
            &[],
            &self.threads,
            &self.left,
            &self.spaces,
            &self.controls,
            self.pid_max,
        );
        rehome_row(&mut self.rows, &view, name, home);
    }

    /// All running threads of the process go into the control group.
    #[tactic(auto, unfolding(pid_types::specs::Changes::with_home, pid_types::specs::Names::with_row))]
    fn set_home(&mut self, name: &Name, home: u64)
        ensures { self.new ≡ with_home self.old name.now home }
    {
        self.set_row_home(name, home);
        let process = name;
        edit_all(&mut self.threads, &SetThreadHome { process, home });
    }

    /// `execve(2)`: the calling thread goes on as the only one of its process, under the process's
    /// number, and has executed.
    #[tactic(auto, unfolding(pid_types::specs::Changes::exec))]
    pub fn exec(&mut self, caller: u32) -> Reply
        ensures state { self.new ≡ (exec_of self.old caller).state }
        ensures reply { result ≡ (exec_of self.old caller).reply }
    {
        let Some(row) = self.find_caller(caller) else {
            return Reply::Refused(Refusal::NoCaller);
        };
        self.set_executed(caller, &row.name);
        self.sweep();
        Reply::Done
    }

    /// `setns(2)`: the calling thread's later children go into the target's namespace.
    #[tactic(auto, unfolding(pid_types::specs::Changes::join))]
    pub fn join(&mut self, caller: u32, target: u32) -> Reply
        ensures state { self.new ≡ (join_of self.old caller target).state }
        ensures reply { result ≡ (join_of self.old caller target).reply }
    {
        let Some(row) = self.find_caller(caller) else {
            return Reply::Refused(Refusal::NoCaller);
        };
        let Some(other) = self.find_process(row.name.space, target) else {
            return Reply::Refused(Refusal::NoTask);
        };
        if !is_live(&other) {
            return Reply::Refused(Refusal::NoTask);
        }
        self.set_children_space(caller, &row, other.name.space);
        self.sweep();
        Reply::Done
    }

    /// `prctl(2)`: the caller takes the subreaper's mark, or gives it back.
    #[tactic(auto, unfolding(pid_types::specs::Changes::set_subreaper))]
    pub fn set_subreaper(&mut self, caller: u32, on: bool) -> Reply
        ensures state { self.new ≡ (set_subreaper_of self.old caller on).state }
        ensures reply { result ≡ (set_subreaper_of self.old caller on).reply }
    {
        let Some(row) = self.find_caller(caller) else {
            return Reply::Refused(Refusal::NoCaller);
        };
        self.change_row(&row.name, &SetMark(on));
        self.sweep();
        Reply::Done
    }

    /// A write to `cgroup.procs`: the running threads of the live process go into the control group,
    /// whatever its limit.
    #[tactic(auto, unfolding(pid_types::specs::Changes::move_task))]
    pub fn move_task(&mut self, task: u32, id: u64) -> Reply
        ensures state { self.new ≡ (move_of self.old task id).state }
        ensures reply { result ≡ (move_of self.old task id).reply }
    {
        let Some(row) = self.find_live(task) else {
            return Reply::Refused(Refusal::NoTask);
        };
        if self.view().find_control(id).is_none() {
            return Reply::Refused(Refusal::NoControl);
        }
        self.set_home(&row.name, id);
        self.sweep();
        Reply::Done
    }
}
