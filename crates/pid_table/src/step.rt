//! Any call: [`PidTable::step`] picks the function that makes it. The record makes all its calls so.
ghost use Rattle.std.specs.Prelude.{◌≡◌, ℕ, IsTrue, OnOk, OnErr, IfOk, false};
ghost use Rattle.{
  model_laws.specs.Refusals.{is_query},
  pid_types.specs.{Short.{reply_of}, Sound.{IsBelow}, Step.{step, may_grow}, Written.{IsWritten}},
  pid_types.specs.declared.call.Call.TheVariants.{NsPid},
  pid_table.specs.Lists.{answers_list},
  task_table.specs.{Store.{HasNoThreads}, View.{state_of}, Whole.{HasParents, IsWhole}},
  translate.specs.Zeroes.{HasZeroesBehind},
};

use crate::PidTable;
use crate::alone::{
    count, exec, exit, get_pgid, get_pid, get_ppid, get_sid, next, set_subreaper, wait, would_exec,
    would_exit, would_set_subreaper, would_wait,
};
use fork_calls::{fork, would_fork};
use model_laws::laws::nothing_changes;
use model_laws::soundness::soundness_is_kept;
use pid_types::call::Call;
use pid_types::keys::Pid;
use pid_types::plain::LEVELS;
use pid_types::reply::{Refusal, Reply, ShortReply};
use set_calls::controls::{
    make_control, remove_control, set_limit, would_make_control, would_remove_control,
    would_set_limit,
};
use set_calls::groups::{set_pgid, set_sid, would_set_pgid, would_set_sid};
use set_calls::tasks::{join, move_task, would_join, would_move_task};
use std::alloc::AllocError;
use task_table::Tasks;
use translate::ns_pid;
use translate::stat::listed;

/// Whether the call is a query: a getpid, getppid, getpgid, getsid, nspid, next or count. It changes nothing.
pub fn is_query(call: &Call) -> bool
    ensures { result ≡ is_query call.now }
{
    match call {
        Call::GetPid { caller: _ } => true,
        Call::NsPid {
            caller: _,
            target: _,
        } => true,
        Call::GetPpid { caller: _ } => true,
        Call::Count { id: _ } => true,
        Call::GetPgid { caller: _, pid: _ } => true,
        Call::GetSid { caller: _, pid: _ } => true,
        Call::Next {
            caller: _,
            kind: _,
            from: _,
        } => true,
        _ => false,
    }
}

/// Makes a call that is no query on a store. It is apart from the queries: so they are no part of a large function.
#[tactic(auto, using(crate::proofs::Begun::alone_still), unfolding(pid_types::specs::Step::step))]
#[inline(always)]
fn make_change(store: &mut Tasks, stamp: u64, call: Call) -> Result<ShortReply, AllocError>
    requires whole { IsWhole store.old }
    requires below { IsBelow stamp (state_of store.old) }
    requires changes { is_query call ≡ false }
    ensures state { OnOk result (state_of store.new ≡ (step (state_of store.old) stamp call).state) }
    ensures reply { IfOk result (λ reply. reply_of reply ≡ (step (state_of store.old) stamp call).reply) }
    ensures err { OnErr result (state_of store.new ≡ state_of store.old) }
    ensures grows { OnErr result (IsTrue (may_grow call)) }
    ensures parents { HasParents store.new }
    ensures alone { HasNoThreads store.new.threads }
{
    let short = match call {
        Call::Fork { caller, new_space } => fork(store, caller, new_space, stamp)?,
        Call::MakeControl { parent } => make_control(store, stamp, parent)?,
        Call::RemoveControl { id } => remove_control(store, id),
        Call::SetLimit { id, limit } => set_limit(store, id, limit),
        Call::Move { task, id } => move_task(store, task, id),
        Call::Exec { caller } => exec(store, caller),
        Call::Exit { caller, status } => exit(store, caller, status),
        Call::Wait { caller, which } => wait(store, caller, which),
        Call::SetPgid { caller, pid, pgid } => set_pgid(store, caller, pid, pgid),
        Call::SetSid { caller } => set_sid(store, caller),
        Call::Join { caller, target } => join(store, caller, target),
        Call::SetSubreaper { caller, on } => set_subreaper(store, caller, on),
        Call::GetPid { .. }
        | Call::GetPpid { .. }
        | Call::GetPgid { .. }
        | Call::GetSid { .. }
        | Call::NsPid { .. }
        | Call::Next { .. }
        | Call::Count { .. } => unreachable!(),
    };
    Ok(short)
}

/// Makes a call on a store that is answered by no list.
#[inline(always)]
fn make_short(store: &mut Tasks, stamp: u64, call: Call) -> Result<ShortReply, AllocError>
    requires whole { IsWhole store.old }
    requires below { IsBelow stamp (state_of store.old) }
    requires short { answers_list call ≡ false }
    ensures state { OnOk result (state_of store.new ≡ (step (state_of store.old) stamp call).state) }
    ensures reply { IfOk result (λ reply. reply_of reply ≡ (step (state_of store.old) stamp call).reply) }
    ensures err { OnErr result (state_of store.new ≡ state_of store.old) }
    ensures grows { OnErr result (IsTrue (may_grow call)) }
    ensures parents { HasParents store.new }
    ensures alone { HasNoThreads store.new.threads }
{
    nothing_changes();
    if is_query(&call) {
        return Ok(answer_short(store, call));
    }
    make_change(store, stamp, call)
}

/// Writes the reply to `NSpid` in place.
#[tactic(auto, unfolding(pid_types::specs::Step::step))]
fn put_ns_pid(store: &Tasks, caller: Pid, target: Pid, reply: &mut Reply)
    requires { IsWhole store.now }
    ensures { (stamp : ℕ) → reply.new ≡ (step (state_of store.now) stamp (NsPid caller target)).reply }
{
    let mut room = [0; LEVELS];
    match ns_pid(store, caller, target, &mut room) {
        Ok(count) => *reply = Reply::Levels(listed(&room[..count])),
        Err(refusal) => *reply = Reply::Refused(refusal),
    }
}

/// Makes the call on a store, and writes the reply in place.
#[tactic(auto, unfolding(pid_types::specs::Step::step))]
#[inline(always)]
fn make(store: &mut Tasks, stamp: u64, call: Call, reply: &mut Reply) -> Result<(), AllocError>
    requires whole { IsWhole store.old }
    requires below { IsBelow stamp (state_of store.old) }
    ensures state { OnOk result (state_of store.new ≡ (step (state_of store.old) stamp call).state) }
    ensures reply { OnOk result (reply.new ≡ (step (state_of store.old) stamp call).reply) }
    ensures err { OnErr result (state_of store.new ≡ state_of store.old) }
    ensures grows { OnErr result (IsTrue (may_grow call)) }
    ensures parents { HasParents store.new }
    ensures alone { HasNoThreads store.new.threads }
{
    if let Call::NsPid { caller, target } = call {
        put_ns_pid(store, caller, target, reply);
        return Ok(());
    }
    make_short(store, stamp, call)?.tell(reply);
    Ok(())
}

/// Answers a query of a store that is answered by no list.
#[tactic(auto, unfolding(pid_types::specs::Step::step))]
#[inline(always)]
fn answer_short(store: &Tasks, call: Call) -> ShortReply
    requires whole { IsWhole store.now }
    requires asks { IsTrue (is_query call) }
    requires short { answers_list call ≡ false }
    ensures { (stamp : ℕ) → reply_of result ≡ (step (state_of store.now) stamp call).reply }
{
    match call {
        Call::GetPid { caller } => get_pid(store, caller),
        Call::GetPpid { caller } => get_ppid(store, caller),
        Call::GetPgid { caller, pid } => get_pgid(store, caller, pid),
        Call::GetSid { caller, pid } => get_sid(store, caller, pid),
        Call::Next { caller, kind, from } => next(store, caller, kind, from),
        Call::Count { id } => count(store, id),
        Call::NsPid { .. }
        | Call::Fork { .. }
        | Call::MakeControl { .. }
        | Call::RemoveControl { .. }
        | Call::SetLimit { .. }
        | Call::Move { .. }
        | Call::Exec { .. }
        | Call::Exit { .. }
        | Call::Wait { .. }
        | Call::SetPgid { .. }
        | Call::SetSid { .. }
        | Call::Join { .. }
        | Call::SetSubreaper { .. } => unreachable!(),
    }
}

/// Answers a query of a store, and writes the reply in place.
#[tactic(auto, unfolding(pid_types::specs::Step::step))]
fn answer(store: &Tasks, call: Call, reply: &mut Reply)
    requires whole { IsWhole store.now }
    requires asks { IsTrue (is_query call) }
    ensures { (stamp : ℕ) → reply.new ≡ (step (state_of store.now) stamp call).reply }
{
    if let Call::NsPid { caller, target } = call {
        put_ns_pid(store, caller, target, reply);
        return;
    }
    answer_short(store, call).tell(reply);
}

/// Writes the reply that the call would get on a store.
#[tactic(auto, unfolding(pid_types::specs::Step::step))]
fn foretell(store: &Tasks, stamp: u64, call: Call, reply: &mut Reply)
    requires whole { IsWhole store.now }
    requires below { IsBelow stamp (state_of store.now) }
    ensures { reply.new ≡ (step (state_of store.now) stamp call).reply }
{
    let short = match call {
        Call::Fork { caller, new_space } => would_fork(store, caller, new_space, stamp),
        Call::MakeControl { parent } => would_make_control(store, stamp, parent),
        Call::RemoveControl { id } => would_remove_control(store, id),
        Call::SetLimit { id, limit } => would_set_limit(store, id, limit),
        Call::Move { task, id } => would_move_task(store, task, id),
        Call::Exec { caller } => would_exec(store, caller),
        Call::Exit { caller, status } => would_exit(store, caller, status),
        Call::Wait { caller, which } => would_wait(store, caller, which),
        Call::SetPgid { caller, pid, pgid } => would_set_pgid(store, caller, pid, pgid),
        Call::SetSid { caller } => would_set_sid(store, caller),
        Call::Join { caller, target } => would_join(store, caller, target),
        Call::SetSubreaper { caller, on } => would_set_subreaper(store, caller, on),
        Call::GetPid { .. }
        | Call::GetPpid { .. }
        | Call::GetPgid { .. }
        | Call::GetSid { .. }
        | Call::NsPid { .. }
        | Call::Next { .. }
        | Call::Count { .. } => return answer(store, call, reply),
    };
    short.tell(reply);
}

impl PidTable {
    /// Answers a query, as [`PidTable::step`] does at any stamp, and changes nothing. The reply is written in place. It
    /// costs a search on each level of the namespaces that the query names.
    pub fn ask(&self, call: Call, reply: &mut Reply)
        requires { IsTrue (is_query call) }
        ensures { (stamp : ℕ) → reply.new ≡ (step self.now stamp call).reply }
    {
        answer(&self.store, call, reply);
    }

    /// Answers a query as [`PidTable::ask`] does, but `NSpid`, which may be answered by a list ([`PidTable::ns_pid`]).
    #[inline(always)]
    pub fn ask_short(&self, call: Call) -> ShortReply
        requires asks { IsTrue (is_query call) }
        requires short { answers_list call ≡ false }
        ensures { (stamp : ℕ) → reply_of result ≡ (step self.now stamp call).reply }
    {
        answer_short(&self.store, call)
    }

    /// Writes `NSpid` of `proc_pid_status(5)` over the first numbers of the room, the caller's namespace first. It
    /// answers how many, or `NoCaller`, then `NoTask`. Behind them are zeroes. It costs two searches and a read a
    /// level.
    #[tactic(auto, unfolding(pid_types::specs::Step::step))]
    #[inline(always)]
    pub fn ns_pid(
        &self,
        caller: Pid,
        target: Pid,
        room: &mut [Pid; LEVELS],
    ) -> Result<usize, Refusal>
        ensures reply { (stamp : ℕ) → IsWritten result room.new (step self.now stamp (NsPid caller target)).reply }
        ensures zeroes { HasZeroesBehind result room.new }
    {
        ns_pid(&self.store, caller, target, room)
    }

    /// Writes the reply that the call would get with this stamp, and changes nothing: of a fork the numbers of the
    /// child, of a wait whom it would reap. Whether there is memory for the call it does not know.
    ///
    /// It costs what the call costs, without what that changes.
    pub fn would(&self, stamp: u64, call: Call, reply: &mut Reply)
        requires { IsBelow stamp self.now }
        ensures { reply.new ≡ (step self.now stamp call).reply }
    {
        foretell(&self.store, stamp, call, reply);
    }

    /// Makes the call, of which the stamp is the id of what it makes; so the stamp is above all ids that
    /// stand. The reply is written in place. The error is want of memory, and then what the reply holds is of no
    /// account.
    ///
    /// It costs a search on each level of the namespaces that the call names, a step for each control group around the
    /// task, and for a fall one for each member and for each namespace inside. A wait for a group walks at
    /// most four times the shorter of two lists: the caller's children, and the members of the group.
    #[inline(always)]
    pub fn step(&mut self, stamp: u64, call: Call, reply: &mut Reply) -> Result<(), AllocError>
        requires below { IsBelow stamp self.old }
        ensures state { OnOk result (self.new ≡ (step self.old stamp call).state) }
        ensures reply { OnOk result (reply.new ≡ (step self.old stamp call).reply) }
        ensures err { OnErr result (self.new ≡ self.old) }
        ensures grows { OnErr result (IsTrue (may_grow call)) }
    {
        soundness_is_kept();
        make(&mut self.store, stamp, call, reply)
    }

    /// Makes a call but `NSpid`, which may be answered by a list, as [`PidTable::step`] does: so the reply is a short
    /// one, and nothing is written but that.
    #[inline(always)]
    pub fn step_short(&mut self, stamp: u64, call: Call) -> Result<ShortReply, AllocError>
        requires below { IsBelow stamp self.old }
        requires short { answers_list call ≡ false }
        ensures state { OnOk result (self.new ≡ (step self.old stamp call).state) }
        ensures reply { IfOk result (λ reply. reply_of reply ≡ (step self.old stamp call).reply) }
        ensures err { OnErr result (self.new ≡ self.old) }
        ensures grows { OnErr result (IsTrue (may_grow call)) }
    {
        soundness_is_kept();
        make_short(&mut self.store, stamp, call)
    }
}
