//! A new thread: `clone(2)` with `CLONE_THREAD`. It is planned as a fork is, before anything changes.
ghost use Rattle.std.specs.Prelude.{◌≡◌, Some, IfOk, OnOk};
ghost use Rattle.{
  pid_types.specs.{Clone.{thread as thread_of}, Short.{reply_of}},
  task_table.specs.{Store.{AreNextNumbers}, Whole.{HasParents}},
  thread_view.specs.{Full.{full_state}, Calling.{HasProcesses, IsWholeWithThreads}},
  fork_calls.specs.{Outcomes.{Replies}, Cloning.{LeavesThreads, MayClone, StaysSameWithThreads, thread_there}},
};

use crate::{id_of, reply_for};
use arrayvec::ArrayVec;
use model_laws::soundness::threads_keep_soundness;
use pid_types::keys::Pid;
use pid_types::plain::LEVELS;
use pid_types::reply::{Refusal, ShortReply};
use process_threads::Thread;
use std::alloc::AllocError;
use task_table::Tasks;
use task_table::view::laws;
use task_tree::Task;
use thread_view::{Calling, calling_task, find_calling};

/// One more thread of the process, with the planned numbers. The error is want of memory.
fn thread_planned(
    store: &mut Tasks,
    calling: &Calling,
    task: &Task,
    numbers: &[Pid],
) -> Result<ShortReply, AllocError>
    requires full { IsWholeWithThreads store.old }
    requires may { MayClone store.old calling.now task.now }
    requires planned { AreNextNumbers store.old.numbering calling.now.space numbers.now }
    ensures state { LeavesThreads result store.new (thread_there store.old calling.now.process task.now) }
    ensures reply { Replies result (thread_there store.old calling.now.process task.now) }
    ensures err { StaysSameWithThreads result store.old store.new }
    ensures parents { HasParents store.new }
    ensures processes { HasProcesses store.new }
{
    laws(store);
    store.thread_laws();
    if let Err(refusal) = store.controls().may_charge(task.home) {
        return Ok(ShortReply::Refused(refusal));
    }
    let thread = Thread {
        process: calling.process,
        children_space: task.children_space,
        home: task.home,
    };
    let key = store.start_thread(calling.space, numbers, thread)?;
    laws(store);
    store.thread_laws();
    Ok(reply_for(store, key, calling.space, numbers))
}

/// One more thread of the process. The error is want of memory.
fn thread_into(store: &mut Tasks, calling: &Calling, task: &Task) -> Result<ShortReply, AllocError>
    requires full { IsWholeWithThreads store.old }
    requires may { MayClone store.old calling.now task.now }
    ensures state { LeavesThreads result store.new (thread_there store.old calling.now.process task.now) }
    ensures reply { Replies result (thread_there store.old calling.now.process task.now) }
    ensures err { StaysSameWithThreads result store.old store.new }
    ensures parents { HasParents store.new }
    ensures processes { HasProcesses store.new }
{
    laws(store);
    store.thread_laws();
    let mut numbers = ArrayVec::<Pid, LEVELS>::new();
    match store.numbers().plan_into(calling.space, &mut numbers) {
        Err(exhausted) => Ok(ShortReply::Refused(Refusal::NoNumber(id_of(store, exhausted)))),
        Ok(()) => thread_planned(store, calling, task, numbers.as_slice()),
    }
}

/// `clone(2)` with `CLONE_THREAD`: one more thread of the caller's process, in its namespace and in the control group
/// of the thread that calls. Refused are, in this order, a caller that is no running thread of a live process
/// (`no-caller`), one whose children go elsewhere (`elsewhere`), and a namespace or a control group without room
/// (`no-number`, `pids-limit`). A refused call leaves every cursor as it was. The error is want of memory, and then
/// nothing has changed.
///
/// It costs one or two searches for each level, and a step for each control group around the caller's.
#[tactic(auto, unfolding(pid_types::specs::Clone::thread))]
#[inline(never)]
pub fn new_thread(store: &mut Tasks, caller: Pid) -> Result<ShortReply, AllocError>
    requires { IsWholeWithThreads store.old }
    ensures state { OnOk result (full_state store.new ≡ (thread_of (full_state store.old) caller).state) }
    ensures reply { IfOk result (λ reply. reply_of reply ≡ (thread_of (full_state store.old) caller).reply) }
    ensures err { StaysSameWithThreads result store.old store.new }
    ensures full { IsWholeWithThreads store.new }
{
    laws(store);
    threads_keep_soundness();
    let Some(calling) = find_calling(store, caller) else {
        return Ok(ShortReply::Refused(Refusal::NoCaller));
    };
    let task = calling_task(store, &calling);
    if id_of(store, calling.space) != task.children_space {
        return Ok(ShortReply::Refused(Refusal::Elsewhere));
    }
    thread_into(store, &calling, &task)
}
