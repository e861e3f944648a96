//! The queries about threads, each as the model answers it in the state with its threads.
ghost use Rattle.std.specs.Prelude.{◌≡◌};
ghost use Rattle.{
  pid_types.specs.Queries.{get_tid as get_tid_of, get_tgid as get_tgid_of, next_thread as next_thread_of},
  pid_types.specs.Short.{reply_of},
  thread_view.specs.{Full.{full_state}, Calling.{HasProcesses}},
};

use crate::queries::{seen, seen_task};
use pid_types::keys::Pid;
use pid_types::reply::{Refusal, ShortReply};
use task_table::Tasks;
use task_table::view::laws;
use thread_view::{find_calling, find_process};

/// `gettid(2)`: the calling thread's number in its process's own namespace. A caller that is no running thread of a
/// live process gets `no-caller`.
#[tactic(auto, unfolding(pid_types::specs::Queries::get_tid))]
pub fn get_tid(store: &Tasks, caller: Pid) -> ShortReply
    requires { HasProcesses store.now }
    ensures { reply_of result ≡ get_tid_of (full_state store.now) caller }
{
    laws(store);
    store.thread_laws();
    let Some(calling) = find_calling(store, caller) else {
        return ShortReply::Refused(Refusal::NoCaller);
    };
    let key = calling.thread.unwrap_or(calling.process);
    ShortReply::Number(seen(store, calling.space, key))
}

/// `Tgid` of `proc_pid_status(5)`: the number of the process that has a thread with the number, as the caller's process
/// sees it. Where nobody has it, or a zombie's group or session alone, the answer is `no-task`.
#[tactic(auto, unfolding(pid_types::specs::Queries::get_tgid))]
pub fn get_tgid(store: &Tasks, caller: Pid, target: Pid) -> ShortReply
    requires { HasProcesses store.now }
    ensures { reply_of result ≡ get_tgid_of (full_state store.now) caller target }
{
    let Some(calling) = find_calling(store, caller) else {
        return ShortReply::Refused(Refusal::NoCaller);
    };
    let Some(found) = find_process(store, calling.space, target) else {
        return ShortReply::Refused(Refusal::NoTask);
    };
    ShortReply::Number(seen_task(store, calling.space, found.key))
}

/// The least number from the given one on that a thread beside the first ones has, in the namespace of the caller's
/// process: an entry of `/proc/PID/task`. It costs one search by marks.
#[tactic(auto, unfolding(pid_types::specs::Queries::next_thread))]
pub fn next_thread(store: &Tasks, caller: Pid, from: Pid) -> ShortReply
    requires { HasProcesses store.now }
    ensures { reply_of result ≡ next_thread_of (full_state store.now) caller from }
{
    laws(store);
    store.thread_laws();
    let Some(calling) = find_calling(store, caller) else {
        return ShortReply::Refused(Refusal::NoCaller);
    };
    match store.numbers().next_thread(calling.space, from) {
        Some(number) => ShortReply::Number(number),
        None => ShortReply::End,
    }
}
