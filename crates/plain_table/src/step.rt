//! Any call: [`PlainTable::step`] picks the method that makes it, and [`PlainTable::thread_step`]
//! that of a call about threads. The record makes all its calls so. The methods, of which each
//! stands in the module of its subject, may be called one by one too.
ghost use Rattle.std.specs.Prelude.{◌≡◌, IsTrue, OnOk, OnErr, IfOk};
ghost use Rattle.pid_types.specs.{Step.{step, may_grow}, ThreadStep.{thread_step, thread_may_grow}};

use crate::table::PlainTable;
use pid_types::call::{Call, ThreadCall};
use pid_types::reply::Reply;
use std::alloc::AllocError;

impl PlainTable {
    /// Makes the call, of which the stamp is the id of what it makes.
    #[tactic(auto, unfolding(pid_types::specs::Step::step))]
    pub fn step(&mut self, stamp: u64, call: Call) -> Result<Reply, AllocError>
        ensures state { OnOk result (self.new ≡ (step self.old stamp call).state) }
        ensures reply { IfOk result (λ reply. reply ≡ (step self.old stamp call).reply) }
        ensures err { OnErr result (self.new ≡ self.old) }
        ensures grows { OnErr result (IsTrue (may_grow call)) }
    {
        match call {
            Call::Fork { caller, new_space } => self.fork(caller, new_space, stamp),
            Call::MakeControl { parent } => self.make_control(parent, stamp),
            Call::RemoveControl { id } => Ok(self.remove_control(id)),
            Call::SetLimit { id, limit } => Ok(self.set_limit(id, limit)),
            Call::Move { task, id } => Ok(self.move_task(task, id)),
            Call::Exec { caller } => Ok(self.exec(caller)),
            Call::Exit { caller, status } => Ok(self.exit(caller, status)),
            Call::Wait { caller, which } => Ok(self.wait(caller, which)),
            Call::SetPgid { caller, pid, pgid } => Ok(self.set_pgid(caller, pid, pgid)),
            Call::SetSid { caller } => Ok(self.set_sid(caller)),
            Call::Join { caller, target } => Ok(self.join(caller, target)),
            Call::SetSubreaper { caller, on } => Ok(self.set_subreaper(caller, on)),
            Call::GetPid { caller } => Ok(self.get_pid(caller)),
            Call::GetPpid { caller } => Ok(self.get_ppid(caller)),
            Call::GetPgid { caller, pid } => Ok(self.get_pgid(caller, pid)),
            Call::GetSid { caller, pid } => Ok(self.get_sid(caller, pid)),
            Call::NsPid { caller, target } => Ok(self.ns_pid(caller, target)),
            Call::Next { caller, kind, from } => Ok(self.next(caller, kind, from)),
            Call::Count { id } => Ok(self.count(id)),
        }
    }

    /// Makes the call about threads. An error is want of memory for [`ThreadCall::NewThread`] or
    /// [`ThreadCall::Leave`].
    #[tactic(auto, unfolding(pid_types::specs::ThreadStep::thread_step))]
    pub fn thread_step(&mut self, call: ThreadCall) -> Result<Reply, AllocError>
        ensures state { OnOk result (self.new ≡ (thread_step self.old call).state) }
        ensures reply { IfOk result (λ reply. reply ≡ (thread_step self.old call).reply) }
        ensures err { OnErr result (self.new ≡ self.old) }
        ensures grows { OnErr result (IsTrue (thread_may_grow call)) }
    {
        match call {
            ThreadCall::NewThread { caller } => self.thread(caller),
            ThreadCall::Leave { caller, status } => self.leave(caller, status),
            ThreadCall::GetTid { caller } => Ok(self.get_tid(caller)),
            ThreadCall::GetTgid { caller, target } => Ok(self.get_tgid(caller, target)),
            ThreadCall::NextThread { caller, from } => Ok(self.next_thread(caller, from)),
        }
    }
}
