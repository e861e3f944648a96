//! The calls over the state with threads, where no process has a thread beside its first one.
ghost use Rattle.std.specs.Prelude.{◌≡◌};
ghost use Rattle.{
  pid_types.specs.Changes.{count_tasks, exec as exec_of, set_subreaper as set_subreaper_of},
  pid_types.specs.{Exit.{exit as exit_of}, Short.{reply_of}, Wait.{wait as wait_of}},
  pid_types.specs.Queries.{get_pid as get_pid_of, get_ppid as get_ppid_of, get_pgid as get_pgid_of},
  pid_types.specs.Queries.{get_sid as get_sid_of, next as next_of},
  task_table.specs.{Store.{HasNoThreads}, View.{state_of}, Whole.{HasParents, IsWhole}},
};

use pid_types::call::{Kind, Which};
use pid_types::keys::Pid;
use pid_types::reply::ShortReply;
use task_table::Tasks;

/// `_exit(2)`, as [`ns_teardown::exit`] makes it.
#[inline(always)]
pub fn exit(store: &mut Tasks, caller: Pid, status: u8) -> ShortReply
    requires { IsWhole store.old }
    ensures state { state_of store.new ≡ (exit_of (state_of store.old) caller status).state }
    ensures reply { reply_of result ≡ (exit_of (state_of store.old) caller status).reply }
    ensures parents { HasParents store.new }
    ensures alone { HasNoThreads store.new.threads }
{
    ns_teardown::exit(store, caller, status)
}

/// The reply that an exit would get.
#[inline(always)]
pub fn would_exit(store: &Tasks, caller: Pid, status: u8) -> ShortReply
    requires { IsWhole store.now }
    ensures { reply_of result ≡ (exit_of (state_of store.now) caller status).reply }
{
    ns_teardown::would_exit(store, caller, status)
}

/// `waitpid(2)` with `WNOHANG`, as [`wait_calls::wait`] makes it.
#[inline(always)]
pub fn wait(store: &mut Tasks, caller: Pid, which: Which) -> ShortReply
    requires { IsWhole store.old }
    ensures state { state_of store.new ≡ (wait_of (state_of store.old) caller which).state }
    ensures reply { reply_of result ≡ (wait_of (state_of store.old) caller which).reply }
    ensures parents { HasParents store.new }
    ensures alone { HasNoThreads store.new.threads }
{
    wait_calls::wait(store, caller, which)
}

/// The reply that a wait would get.
#[inline(always)]
pub fn would_wait(store: &Tasks, caller: Pid, which: Which) -> ShortReply
    requires { IsWhole store.now }
    ensures { reply_of result ≡ (wait_of (state_of store.now) caller which).reply }
{
    wait_calls::would_wait(store, caller, which)
}

/// `getpid(2)`, as [`translate::get_pid`] answers it.
#[inline(always)]
pub fn get_pid(store: &Tasks, caller: Pid) -> ShortReply
    requires { IsWhole store.now }
    ensures { reply_of result ≡ get_pid_of (state_of store.now) caller }
{
    translate::get_pid(store, caller)
}

/// `getppid(2)`, as [`translate::get_ppid`] answers it.
#[inline(always)]
pub fn get_ppid(store: &Tasks, caller: Pid) -> ShortReply
    requires { IsWhole store.now }
    ensures { reply_of result ≡ get_ppid_of (state_of store.now) caller }
{
    translate::get_ppid(store, caller)
}

/// `getpgid(2)`, as [`translate::get_pgid`] answers it.
#[inline(always)]
pub fn get_pgid(store: &Tasks, caller: Pid, pid: Pid) -> ShortReply
    requires { IsWhole store.now }
    ensures { reply_of result ≡ get_pgid_of (state_of store.now) caller pid }
{
    translate::get_pgid(store, caller, pid)
}

/// `getsid(2)`, as [`translate::get_sid`] answers it.
#[inline(always)]
pub fn get_sid(store: &Tasks, caller: Pid, pid: Pid) -> ShortReply
    requires { IsWhole store.now }
    ensures { reply_of result ≡ get_sid_of (state_of store.now) caller pid }
{
    translate::get_sid(store, caller, pid)
}

/// The least number in use, as [`translate::next`] answers it.
#[inline(always)]
pub fn next(store: &Tasks, caller: Pid, kind: Kind, from: Pid) -> ShortReply
    requires { IsWhole store.now }
    ensures { reply_of result ≡ next_of (state_of store.now) caller kind from }
{
    translate::next(store, caller, kind, from)
}

/// A read of `pids.current`, as [`set_calls::controls::count`] answers it.
#[inline(always)]
pub fn count(store: &Tasks, id: u64) -> ShortReply
    requires { IsWhole store.now }
    ensures { reply_of result ≡ (count_tasks (state_of store.now) id).reply }
{
    set_calls::controls::count(store, id)
}

/// `execve(2)`, as [`set_calls::tasks::exec`] makes it.
#[inline(always)]
pub fn exec(store: &mut Tasks, caller: Pid) -> ShortReply
    requires { IsWhole store.old }
    ensures state { state_of store.new ≡ (exec_of (state_of store.old) caller).state }
    ensures reply { reply_of result ≡ (exec_of (state_of store.old) caller).reply }
    ensures parents { HasParents store.new }
    ensures alone { HasNoThreads store.new.threads }
{
    set_calls::tasks::exec(store, caller)
}

/// The reply that an exec would get.
#[inline(always)]
pub fn would_exec(store: &Tasks, caller: Pid) -> ShortReply
    requires { IsWhole store.now }
    ensures { reply_of result ≡ (exec_of (state_of store.now) caller).reply }
{
    set_calls::tasks::would_exec(store, caller)
}

/// `PR_SET_CHILD_SUBREAPER`, as [`set_calls::tasks::set_subreaper`] makes it.
#[inline(always)]
pub fn set_subreaper(store: &mut Tasks, caller: Pid, on: bool) -> ShortReply
    requires { IsWhole store.old }
    ensures state { state_of store.new ≡ (set_subreaper_of (state_of store.old) caller on).state }
    ensures reply { reply_of result ≡ (set_subreaper_of (state_of store.old) caller on).reply }
    ensures parents { HasParents store.new }
    ensures alone { HasNoThreads store.new.threads }
{
    set_calls::tasks::set_subreaper(store, caller, on)
}

/// The reply that this would get.
#[inline(always)]
pub fn would_set_subreaper(store: &Tasks, caller: Pid, on: bool) -> ShortReply
    requires { IsWhole store.now }
    ensures { reply_of result ≡ (set_subreaper_of (state_of store.now) caller on).reply }
{
    set_calls::tasks::would_set_subreaper(store, caller, on)
}
