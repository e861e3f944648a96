//! Control groups: made and removed as by `mkdir(2)` and `rmdir(2)`, limits as in `pids.max`,
//! counts as in `pids.current`. A count looks through all tasks. Only making one takes memory.
ghost use Rattle.std.specs.{Option.{option_eq}, List.{list_any}};
ghost use Rattle.std.specs.Prelude.{◌≡◌, ◌==◌, ◌&&◌, not, Some, OnErr, OnOk, IfOk};
ghost use Rattle.{
  pid_types.specs.{Names.{is_live as is_live_row, root_number as root_of}, Threads.{has_left}},
  pid_types.specs.Changes.{without_control, with_limit, with_control},
  pid_types.specs.Changes.{is_busy as is_busy_of, make_control as make_control_of, remove_control as remove_control_of},
  pid_types.specs.Changes.{set_limit as set_limit_of, count_tasks},
};

use crate::edit::{AllButControl, Limits, Rehome, edit_all, keep};
use crate::table::PlainTable;
use pid_types::plain::Control;
use pid_types::reply::{Refusal, Reply};
use plain_view::names::{is_live, root_number};
use std::alloc::AllocError;

/// The greatest limit: the kernel's `PID_MAX_LIMIT`.
pub const GREATEST_LIMIT: u32 = 4_194_304;

impl PlainTable {
    #[tactic(auto, unfolding(pid_types::specs::Changes::with_limit))]
    fn put_limit(&mut self, id: u64, limit: Option<u32>)
        ensures { self.new ≡ with_limit self.old id limit }
    {
        edit_all(&mut self.controls, &Limits { id, limit });
    }

    fn has_thread_in(&self, id: u64) -> bool
        ensures { result ≡ list_any (λ t. t.home == id) self.now.threads }
    {
        self.threads.iter().any(|t| t.home == id)
    }

    /// Whether the first thread of a live process, which has not left, is directly in it.
    fn has_live_task(&self, id: u64) -> bool
        ensures { result ≡ list_any
            (λ row. not (has_left self.now (root_of row.name)) && ((row.home == id) && is_live_row row)) self.now.rows }
    {
        let view = self.view();
        self.rows.iter().any(|row| !view.has_left(root_number(&row.name))
            && (row.home == id && is_live(row)))
    }

    fn has_child_control(&self, id: u64) -> bool
        ensures { result ≡ list_any (λ c. option_eq ◌==◌ c.parent (Some id)) self.now.controls }
    {
        self.controls.iter().any(|c| c.parent == Some(id))
    }

    /// Whether a running thread or a control group is directly in it.
    #[tactic(auto, unfolding(pid_types::specs::Changes::is_busy))]
    fn is_busy(&self, id: u64) -> bool
        ensures { result ≡ is_busy_of self.now id }
    {
        self.has_thread_in(id) || self.has_live_task(id) || self.has_child_control(id)
    }

    /// Drops the control group, whose zombies go to the parent.
    #[tactic(auto, unfolding(pid_types::specs::Changes::without_control))]
    fn drop_control(&mut self, id: u64, parent: u64)
        ensures { self.new ≡ without_control self.old id parent }
    {
        edit_all(
            &mut self.rows,
            &Rehome {
                from: id,
                to: parent,
            },
        );
        keep(&mut self.controls, &AllButControl(id));
    }

    /// `mkdir(2)` in a control group file system: a new control group, without a limit, whose id is
    /// the stamp.
    #[tactic(auto, unfolding(pid_types::specs::Changes::make_control, pid_types::specs::Changes::with_control))]
    pub fn make_control(&mut self, parent: u64, stamp: u64) -> Result<Reply, AllocError>
        ensures state { OnOk result (self.new ≡ (make_control_of self.old stamp parent).state) }
        ensures reply { IfOk result (λ reply. reply ≡ (make_control_of self.old stamp parent).reply) }
        ensures err { OnErr result (self.new ≡ self.old) }
    {
        if self.view().find_control(parent).is_none() {
            return Ok(Reply::Refused(Refusal::NoControl));
        }
        if self.view().control_path(parent).len() > 64 {
            return Ok(Reply::Refused(Refusal::ControlDepth));
        }
        self.controls.push(Control {
            id: stamp,
            parent: Some(parent),
            limit: None,
        })?;
        self.sweep();
        Ok(Reply::Control(stamp))
    }

    /// `rmdir(2)` of a control group: one without live tasks and children.
    #[tactic(auto, unfolding(pid_types::specs::Changes::remove_control))]
    pub fn remove_control(&mut self, id: u64) -> Reply
        ensures state { self.new ≡ (remove_control_of self.old id).state }
        ensures reply { result ≡ (remove_control_of self.old id).reply }
    {
        let Some(control) = self.view().find_control(id).copied() else {
            return Reply::Refused(Refusal::NoControl);
        };
        let Some(parent) = control.parent else {
            return Reply::Refused(Refusal::RootControl);
        };
        if self.is_busy(id) {
            return Reply::Refused(Refusal::ControlBusy);
        }
        self.drop_control(id, parent);
        self.sweep();
        Reply::Done
    }

    /// A write to `pids.max`: a limit of at most 4194304, or none.
    #[tactic(auto, unfolding(pid_types::specs::Changes::set_limit))]
    pub fn set_limit(&mut self, id: u64, limit: Option<u32>) -> Reply
        ensures state { self.new ≡ (set_limit_of self.old id limit).state }
        ensures reply { result ≡ (set_limit_of self.old id limit).reply }
    {
        let Some(control) = self.view().find_control(id).copied() else {
            return Reply::Refused(Refusal::NoControl);
        };
        if control.parent.is_none() {
            return Reply::Refused(Refusal::RootControl);
        }
        if limit.is_some_and(|most| most > GREATEST_LIMIT) {
            return Reply::Refused(Refusal::BadLimit);
        }
        self.put_limit(id, limit);
        self.sweep();
        Reply::Done
    }

    /// A read of `pids.current`.
    #[tactic(auto, unfolding(pid_types::specs::Changes::count_tasks))]
    pub fn count(&self, id: u64) -> Reply
        ensures state { (count_tasks self.now id).state ≡ self.now }
        ensures reply { result ≡ (count_tasks self.now id).reply }
    {
        if self.view().find_control(id).is_none() {
            return Reply::Refused(Refusal::NoControl);
        }
        Reply::Counted(self.view().count(id))
    }
}
