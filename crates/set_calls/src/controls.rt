//! Calls on control groups, in the model's words over a store: made and removed as by `mkdir(2)` and `rmdir(2)`,
//! limits as in `pids.max`, counts as in `pids.current`.
//!
//! Each costs a logarithm of the control groups to look up an id, and a few reads and writes besides: none looks
//! at a task. Only making one takes memory.

ghost use Rattle.std.specs.Prelude.{◌≡◌, IfOk, OnErr, OnOk};
ghost use Rattle.{
  pid_types.specs.Changes.{count_tasks, make_control as make_control_of, remove_control as remove_control_of},
  pid_types.specs.{Changes.{set_limit as set_limit_of}, Sound.{IsBelow}, Short.{reply_of}},
  task_table.specs.{View.{state_of}, Whole.{IsWhole, HasParents}},
  thread_view.specs.Full.{full_state},
};

use pid_types::reply::{Refusal, ShortReply};
use pids_charge::ControlFault;
use std::alloc::AllocError;
use task_table::Tasks;
use task_table::view::laws;

/// `mkdir(2)` in a control group file system: a new control group without a limit, whose id is the stamp.
///
/// The refusals are `NoControl`, and then `ControlDepth` where the parent has level 64, the deepest. The error is
/// want of memory.
#[tactic(auto, unfolding(pid_types::specs::Changes::make_control))]
#[inline(never)]
pub fn make_control(store: &mut Tasks, stamp: u64, parent: u64) -> Result<ShortReply, AllocError>
    requires whole { IsWhole store.old }
    requires below { IsBelow stamp (state_of store.old) }
    ensures state { OnOk result (state_of store.new ≡ (make_control_of (state_of store.old) stamp parent).state) }
    ensures reply { IfOk result (λ reply. reply_of reply ≡ (make_control_of (state_of store.old) stamp parent).reply) }
    ensures err { OnErr result (state_of store.new ≡ state_of store.old) }
    ensures parents { HasParents store.new }
    ensures threads { store.new.threads ≡ store.old.threads }
{
    laws(store);
    let Some(above) = store.controls().find(parent) else {
        return Ok(ShortReply::Refused(Refusal::NoControl));
    };
    match store.make_control(above, stamp) {
        Err(ControlFault::ControlDepth) => Ok(ShortReply::Refused(Refusal::ControlDepth)),
        Err(ControlFault::NoMemory) => Err(AllocError),
        Ok(_) => {
            laws(store);
            Ok(ShortReply::Control(stamp))
        }
    }
}

/// `rmdir(2)` of a control group. Its zombies go to its parent.
///
/// The refusals are `NoControl`, `RootControl`, and `ControlBusy` where a live task or a control group is
/// directly in it.
#[tactic(auto, unfolding(pid_types::specs::Changes::remove_control))]
#[inline(never)]
pub fn remove_control(store: &mut Tasks, id: u64) -> ShortReply
    requires { IsWhole store.old }
    ensures state { state_of store.new ≡ (remove_control_of (state_of store.old) id).state }
    ensures reply { reply_of result ≡ (remove_control_of (state_of store.old) id).reply }
    ensures parents { HasParents store.new }
    ensures threads { store.new.threads ≡ store.old.threads }
{
    laws(store);
    let Some(key) = store.controls().find(id) else {
        return ShortReply::Refused(Refusal::NoControl);
    };
    match store.remove_control(key) {
        Err(refusal) => ShortReply::Refused(refusal),
        Ok(()) => {
            laws(store);
            ShortReply::Done
        }
    }
}

/// A write to `pids.max`: a limit of at most 4194304, or none. One below the count is no fault.
///
/// The refusals are `NoControl`, `RootControl` and `BadLimit`.
#[tactic(auto, unfolding(pid_types::specs::Changes::set_limit))]
#[inline(never)]
pub fn set_limit(store: &mut Tasks, id: u64, limit: Option<u32>) -> ShortReply
    requires { IsWhole store.old }
    ensures state { state_of store.new ≡ (set_limit_of (state_of store.old) id limit).state }
    ensures reply { reply_of result ≡ (set_limit_of (state_of store.old) id limit).reply }
    ensures parents { HasParents store.new }
    ensures threads { store.new.threads ≡ store.old.threads }
{
    laws(store);
    let Some(key) = store.controls().find(id) else {
        return ShortReply::Refused(Refusal::NoControl);
    };
    match store.set_limit(key, limit) {
        Err(refusal) => ShortReply::Refused(refusal),
        Ok(()) => {
            laws(store);
            ShortReply::Done
        }
    }
}

/// A read of `pids.current`: how many tasks the control group and those below it have, each thread one, and zombies
/// among them. The refusal is `NoControl`.
#[tactic(auto, unfolding(pid_types::specs::Changes::count_tasks))]
pub fn count(store: &Tasks, id: u64) -> ShortReply
    ensures state { (count_tasks (full_state store.now) id).state ≡ full_state store.now }
    ensures reply { reply_of result ≡ (count_tasks (full_state store.now) id).reply }
{
    laws(store);
    store.thread_laws();
    let Some(key) = store.controls().find(id) else {
        return ShortReply::Refused(Refusal::NoControl);
    };
    ShortReply::Counted(store.controls().count(key))
}

/// The reply that [`make_control`] would get. It changes nothing.
#[tactic(auto, unfolding(pid_types::specs::Changes::make_control))]
pub fn would_make_control(store: &Tasks, stamp: u64, parent: u64) -> ShortReply
    requires { IsWhole store.now }
    ensures { reply_of result ≡ (make_control_of (state_of store.now) stamp parent).reply }
{
    laws(store);
    let Some(above) = store.controls().find(parent) else {
        return ShortReply::Refused(Refusal::NoControl);
    };
    if store.controls().is_deepest(above) {
        return ShortReply::Refused(Refusal::ControlDepth);
    }
    ShortReply::Control(stamp)
}

/// The reply that [`remove_control`] would get. It changes nothing.
#[tactic(auto, unfolding(pid_types::specs::Changes::remove_control))]
pub fn would_remove_control(store: &Tasks, id: u64) -> ShortReply
    requires { IsWhole store.now }
    ensures { reply_of result ≡ (remove_control_of (state_of store.now) id).reply }
{
    laws(store);
    let Some(key) = store.controls().find(id) else {
        return ShortReply::Refused(Refusal::NoControl);
    };
    match store.controls().may_remove(key) {
        Err(refusal) => ShortReply::Refused(refusal),
        Ok(()) => ShortReply::Done,
    }
}

/// The reply that [`set_limit`] would get. It changes nothing.
#[tactic(auto, unfolding(pid_types::specs::Changes::set_limit))]
pub fn would_set_limit(store: &Tasks, id: u64, limit: Option<u32>) -> ShortReply
    requires { IsWhole store.now }
    ensures { reply_of result ≡ (set_limit_of (state_of store.now) id limit).reply }
{
    laws(store);
    let Some(key) = store.controls().find(id) else {
        return ShortReply::Refused(Refusal::NoControl);
    };
    match store.controls().may_limit(key, limit) {
        Err(refusal) => ShortReply::Refused(refusal),
        Ok(()) => ShortReply::Done,
    }
}
