//! Calls about threads over the store of a table: each reply is also that of the plain table, which is told the same.

ghost use Rattle.thread_view.specs.Calling.{IsWholeWithThreads};

use crate::running::Running;
use crate::store_threads::{begun, root_control};
use fork_calls::threads::new_thread;
use ns_teardown::{exit, leave, would_exit};
use pid_types::call::{Call, Kind, ThreadCall, Which};
use pid_types::config::Config;
use pid_types::keys::Pid;
use pid_types::plain::{Ended, Life};
use pid_types::reply::{Refusal, Reply, ShortReply};
use plain_table::table::PlainTable;
use set_calls::controls::count;
use set_calls::tasks::{exec, set_subreaper, would_exec, would_set_subreaper};
use sound_store::check_sound;
use std::marker::Model;
use std::process::Abort;
use table_build::build::build;
use table_text::read::read_text;
use task_table::Tasks;
use thread_ends::leave_beside;
use thread_view::whole_is_full;
use translate::threads::{get_tgid, get_tid, next_thread};
use translate::{get_pgid, get_pid, get_ppid, get_sid, next};
use wait_calls::{wait, would_wait};

/// The store with its threads, and the plain table.
#[derive(Drop)]
struct Both {
    store: Tasks,
    plain: PlainTable,
}

impl Model for Both {
    ghost use Rattle.task_table.specs.Store.{Store};
    ghost use Rattle.thread_view.specs.Calling.{IsWholeWithThreads};

    ghost Value = { Store };

    ghost view = { λ b. b.store };

    ghost invariant = { λ b. IsWholeWithThreads b.store };
}

/// A store with the root init alone, whose state is sound.
fn sound(rt: &(impl AllocGlobal + Abort)) -> Tasks
    ensures { IsWholeWithThreads result }
{
    let store = begun(rt);
    let Ok(()) = check_sound(rt.alloc(), &store) else {
        rt.abort()
    };
    whole_is_full(&store);
    store
}

impl Both {
    /// The root init alone, in both.
    fn new(rt: &(impl AllocGlobal + Abort)) -> Both {
        let Ok(config) = Config::new(301, 1) else {
            rt.abort()
        };
        let Ok(plain) = PlainTable::new(rt.alloc(), &config) else {
            rt.abort()
        };
        Both {
            store: sound(rt),
            plain,
        }
    }

    /// What the store answers.
    fn answer(&mut self, rt: &impl Abort, call: ThreadCall) -> ShortReply {
        match call {
            ThreadCall::NewThread { caller } => {
                let Ok(reply) = new_thread(&mut self.store, caller) else {
                    rt.abort()
                };
                reply
            }
            ThreadCall::Leave { caller, status } => leave(&mut self.store, caller, status),
            ThreadCall::GetTid { caller } => get_tid(&self.store, caller),
            ThreadCall::GetTgid { caller, target } => get_tgid(&self.store, caller, target),
            ThreadCall::NextThread { caller, from } => next_thread(&self.store, caller, from),
        }
    }

    /// Sees that both answer the call so.
    fn see(&mut self, rt: &impl Abort, call: ThreadCall, expected: ShortReply) {
        let reply = self.answer(rt, call);
        assert!(rt; reply == expected);
        let mut told = Reply::Done;
        reply.tell(&mut told);
        let Ok(plain) = self.plain.thread_step(call) else {
            rt.abort()
        };
        assert!(rt; told == plain);
    }

    /// Sees that the plain table answers the call so, which makes no id.
    fn see_plain(&mut self, rt: &impl Abort, call: Call, expected: ShortReply) {
        let mut told = Reply::Done;
        expected.tell(&mut told);
        let Ok(plain) = self.plain.step(1, call) else {
            rt.abort()
        };
        assert!(rt; told == plain);
    }

    /// What the store answers to a call of a process, which any of its threads may make.
    fn answer_for_process(&mut self, rt: &impl Abort, call: Call) -> ShortReply {
        match call {
            Call::GetPid { caller } => get_pid(&self.store, caller),
            Call::GetPpid { caller } => get_ppid(&self.store, caller),
            Call::GetPgid { caller, pid } => get_pgid(&self.store, caller, pid),
            Call::GetSid { caller, pid } => get_sid(&self.store, caller, pid),
            Call::Next { caller, kind, from } => next(&self.store, caller, kind, from),
            Call::Count { id } => count(&self.store, id),
            Call::Wait { caller, which } => {
                let foretold = would_wait(&self.store, caller, which);
                let reply = wait(&mut self.store, caller, which);
                assert!(rt; foretold == reply);
                reply
            }
            Call::Exec { caller } => {
                let foretold = would_exec(&self.store, caller);
                let reply = exec(&mut self.store, caller);
                assert!(rt; foretold == reply);
                reply
            }
            Call::SetSubreaper { caller, on } => {
                let foretold = would_set_subreaper(&self.store, caller, on);
                let reply = set_subreaper(&mut self.store, caller, on);
                assert!(rt; foretold == reply);
                reply
            }
            _ => rt.abort(),
        }
    }

    /// Sees that both answer the call of a process so.
    fn see_for_process(&mut self, rt: &impl Abort, call: Call, expected: ShortReply) {
        let reply = self.answer_for_process(rt, call);
        assert!(rt; reply == expected);
        self.see_plain(rt, call, expected);
    }

    /// Sees that both answer the exit so, and that the store foretells it.
    fn see_exit(&mut self, rt: &impl Abort, caller: Pid, status: u8, expected: ShortReply) {
        let foretold = would_exit(&self.store, caller, status);
        assert!(rt; foretold == expected);
        let reply = exit(&mut self.store, caller, status);
        assert!(rt; reply == expected);
        self.see_plain(rt, Call::Exit { caller, status }, expected);
    }

    /// Sees that a thread begins, with this number in its process's namespace and this one in the root.
    fn begin(&mut self, rt: &impl Abort, caller: Pid, child: Pid, root: Pid) {
        let call = ThreadCall::NewThread { caller };
        self.see(rt, call, ShortReply::Forked { child, root });
    }

    /// Sees that the thread leaves.
    fn leaves(&mut self, rt: &impl Abort, caller: Pid, status: u8) {
        let call = ThreadCall::Leave { caller, status };
        self.see(rt, call, ShortReply::Done);
    }

    /// Sees that no running thread has the number.
    fn see_no_caller(&mut self, rt: &impl Abort, caller: Pid) {
        let no_caller = ShortReply::Refused(Refusal::NoCaller);
        self.see(rt, ThreadCall::GetTid { caller }, no_caller);
    }

    /// Sees that so many are charged to the root control group.
    fn see_count(&mut self, rt: &impl Abort, count: u64) {
        let home = root_control(rt, &self.store);
        assert!(rt; self.store.controls().count(home) == count);
        self.see_plain(rt, Call::Count { id: 0 }, ShortReply::Counted(count));
    }

    /// Sees that a child of the root init is a zombie that has ended so. In the plain table it is reaped.
    fn see_ended(&mut self, rt: &impl Abort, child: Pid, ended: Ended) {
        let Some(key) = self.store.numbers().find(0, child) else {
            rt.abort()
        };
        let Some(task) = self.store.tree().task(key) else {
            rt.abort()
        };
        assert!(rt; task.life == Life::Zombie(ended));
        let which = Which::Pid(child);
        self.see_plain(
            rt,
            Call::Wait { caller: 1, which },
            ShortReply::Reaped { child, ended },
        );
    }
}

/// Processes that are one thread each, in a table and in the plain one.
#[derive(Drop)]
struct Processes {
    table: Running,
    plain: PlainTable,
}

impl Processes {
    /// The root init alone, in both.
    fn new(rt: &(impl AllocGlobal + Abort)) -> Processes {
        let Ok(config) = Config::new(301, 1) else {
            rt.abort()
        };
        let Ok(plain) = PlainTable::new(rt.alloc(), &config) else {
            rt.abort()
        };
        Processes {
            table: Running::new(rt, &config),
            plain,
        }
    }

    /// Sees that both answer the call so.
    fn see(&mut self, rt: &impl Abort, call: Call, expected: ShortReply) {
        let mut told = Reply::Done;
        expected.tell(&mut told);
        let Ok(plain) = self.plain.step(self.table.stamp(), call) else {
            rt.abort()
        };
        assert!(rt; told == plain);
        let reply = self.table.call(rt, call);
        assert!(rt; told == reply);
    }

    /// Sees that the caller forks, with these numbers of its child in its own namespace and in the root.
    fn fork(&mut self, rt: &impl Abort, caller: Pid, new_space: bool, child: Pid, root: Pid) {
        let call = Call::Fork { caller, new_space };
        self.see(rt, call, ShortReply::Forked { child, root });
    }

    /// The store of the table, as its text says, and the plain table. From here on threads may begin.
    fn with_threads(self, rt: &(impl AllocGlobal + Abort)) -> Both {
        let Processes { table, plain } = self;
        let text = table.text(rt);
        let Ok(saved) = read_text(rt.alloc(), text.as_slice()) else {
            rt.abort()
        };
        let Ok(store) = build(rt.alloc(), &saved) else {
            rt.abort()
        };
        let Ok(()) = check_sound(rt.alloc(), &store) else {
            rt.abort()
        };
        whole_is_full(&store);
        Both { store, plain }
    }
}

/// A thread's number is its own, and names its process. Any of them may make the next one.
#[test]
fn threads_have_numbers_of_their_own(rt: HostRuntime) {
    let mut both = Both::new(&rt);
    both.see(&rt, ThreadCall::GetTid { caller: 1 }, ShortReply::Number(1));
    both.see(
        &rt,
        ThreadCall::NewThread { caller: 1 },
        ShortReply::Forked { child: 2, root: 2 },
    );
    both.see(
        &rt,
        ThreadCall::NewThread { caller: 2 },
        ShortReply::Forked { child: 3, root: 3 },
    );
    both.see(&rt, ThreadCall::GetTid { caller: 3 }, ShortReply::Number(3));
    both.see(
        &rt,
        ThreadCall::GetTgid {
            caller: 1,
            target: 3,
        },
        ShortReply::Number(1),
    );
    both.see(
        &rt,
        ThreadCall::NextThread { caller: 3, from: 0 },
        ShortReply::Number(2),
    );
    both.see(
        &rt,
        ThreadCall::NextThread { caller: 1, from: 4 },
        ShortReply::End,
    );
}

/// A number that nobody has calls nobody, and names nobody.
#[test]
fn numbers_of_nobody_are_refused(rt: HostRuntime) {
    let mut both = Both::new(&rt);
    let no_caller = ShortReply::Refused(Refusal::NoCaller);
    both.see(&rt, ThreadCall::NewThread { caller: 2 }, no_caller);
    both.see(&rt, ThreadCall::GetTid { caller: 2 }, no_caller);
    both.see(
        &rt,
        ThreadCall::NextThread { caller: 2, from: 0 },
        no_caller,
    );
    both.see(
        &rt,
        ThreadCall::GetTgid {
            caller: 1,
            target: 2,
        },
        ShortReply::Refused(Refusal::NoTask),
    );
}

/// Threads take numbers until none is left: 2 to 300, and then the root namespace has no more.
#[test]
fn threads_take_the_last_number(rt: HostRuntime) {
    let mut both = Both::new(&rt);
    for number in 2u32..301 {
        let call = ThreadCall::NewThread { caller: number - 1 };
        both.see(
            &rt,
            call,
            ShortReply::Forked {
                child: number,
                root: number,
            },
        );
    }
    both.see(
        &rt,
        ThreadCall::NewThread { caller: 1 },
        ShortReply::Refused(Refusal::NoNumber(0)),
    );
    both.see(
        &rt,
        ThreadCall::NextThread {
            caller: 300,
            from: 300,
        },
        ShortReply::Number(300),
    );
}

/// A thread that leaves is gone. A first thread's process keeps its number, and its other threads go on; the last of
/// them does not leave here.
#[test]
fn threads_leave(rt: HostRuntime) {
    let mut both = Both::new(&rt);
    both.see(
        &rt,
        ThreadCall::NewThread { caller: 1 },
        ShortReply::Forked { child: 2, root: 2 },
    );
    both.see(
        &rt,
        ThreadCall::NewThread { caller: 1 },
        ShortReply::Forked { child: 3, root: 3 },
    );
    both.see(
        &rt,
        ThreadCall::Leave {
            caller: 2,
            status: 5,
        },
        ShortReply::Done,
    );
    both.see(
        &rt,
        ThreadCall::GetTid { caller: 2 },
        ShortReply::Refused(Refusal::NoCaller),
    );
    both.see(
        &rt,
        ThreadCall::Leave {
            caller: 1,
            status: 6,
        },
        ShortReply::Done,
    );
    both.see(
        &rt,
        ThreadCall::GetTid { caller: 1 },
        ShortReply::Refused(Refusal::NoCaller),
    );
    both.see(
        &rt,
        ThreadCall::GetTgid {
            caller: 3,
            target: 1,
        },
        ShortReply::Number(1),
    );
    both.see(
        &rt,
        ThreadCall::NextThread { caller: 3, from: 0 },
        ShortReply::Number(3),
    );
    assert!(&rt; leave_beside(&mut both.store, 3).is_none());
    both.see(&rt, ThreadCall::GetTid { caller: 3 }, ShortReply::Number(3));
}

/// Any thread ends its process with all threads: none of them calls from then on, and none is charged. Their numbers
/// are free at once: all were taken, and a new thread gets 300, at which a draw starts again.
#[test]
fn exit_ends_all_threads(rt: HostRuntime) {
    let mut processes = Processes::new(&rt);
    processes.fork(&rt, 1, false, 2, 2);
    let mut both = processes.with_threads(&rt);
    for number in 3u32..301 {
        both.begin(&rt, number - 1, number, number);
    }
    both.see_count(&rt, 300);
    both.see(
        &rt,
        ThreadCall::NewThread { caller: 1 },
        ShortReply::Refused(Refusal::NoNumber(0)),
    );
    both.see_exit(&rt, 300, 9, ShortReply::Done);
    both.see_count(&rt, 2);
    for number in 2u32..301 {
        both.see_no_caller(&rt, number);
    }
    both.see(
        &rt,
        ThreadCall::NextThread { caller: 1, from: 0 },
        ShortReply::End,
    );
    both.begin(&rt, 1, 300, 300);
    both.see_count(&rt, 3);
    both.see_ended(&rt, 2, Ended::Exited(9));
}

/// The first thread leaves, and the others after it: the last one ends the process with its status.
#[test]
fn last_thread_ends_its_process(rt: HostRuntime) {
    let mut processes = Processes::new(&rt);
    processes.fork(&rt, 1, false, 2, 2);
    let mut both = processes.with_threads(&rt);
    both.begin(&rt, 2, 3, 3);
    both.begin(&rt, 3, 4, 4);
    both.leaves(&rt, 2, 5);
    both.leaves(&rt, 3, 6);
    both.see(&rt, ThreadCall::GetTid { caller: 4 }, ShortReply::Number(4));
    both.see_count(&rt, 3);
    both.leaves(&rt, 4, 7);
    for number in 2u32..5 {
        both.see_no_caller(&rt, number);
    }
    both.see(
        &rt,
        ThreadCall::GetTgid {
            caller: 1,
            target: 4,
        },
        ShortReply::Refused(Refusal::NoTask),
    );
    both.see_count(&rt, 2);
    both.see_ended(&rt, 2, Ended::Exited(7));
}

/// The root init does not end: its last thread stays, whether it is the first one or another.
#[test]
fn last_thread_of_the_root_init_stays(rt: HostRuntime) {
    let mut both = Both::new(&rt);
    let root_init = ShortReply::Refused(Refusal::RootInit);
    let first = ThreadCall::Leave {
        caller: 1,
        status: 2,
    };
    both.see(&rt, first, root_init);
    both.begin(&rt, 1, 2, 2);
    both.see_exit(&rt, 2, 4, root_init);
    both.leaves(&rt, 1, 2);
    let last = ThreadCall::Leave {
        caller: 2,
        status: 3,
    };
    both.see(&rt, last, root_init);
    both.see_exit(&rt, 2, 4, root_init);
    both.see_no_caller(&rt, 1);
    both.see(&rt, ThreadCall::GetTid { caller: 2 }, ShortReply::Number(2));
    both.see_count(&rt, 2);
}

/// The init of a namespace ends by a thread beside its first one, and all members go with all their threads: one that
/// has other threads, and one whose first thread has left.
#[test]
fn fall_ends_threads_of_members(rt: HostRuntime) {
    let mut processes = Processes::new(&rt);
    processes.fork(&rt, 1, true, 2, 2);
    processes.fork(&rt, 2, false, 2, 3);
    processes.fork(&rt, 2, false, 3, 4);
    let mut both = processes.with_threads(&rt);
    both.begin(&rt, 2, 4, 5);
    both.begin(&rt, 3, 5, 6);
    both.begin(&rt, 4, 6, 7);
    both.leaves(&rt, 4, 1);
    both.see_count(&rt, 7);
    both.see_exit(&rt, 5, 9, ShortReply::Done);
    both.see_count(&rt, 2);
    for number in 2u32..8 {
        both.see_no_caller(&rt, number);
    }
    for target in 3u32..8 {
        let call = ThreadCall::GetTgid { caller: 1, target };
        both.see(&rt, call, ShortReply::Refused(Refusal::NoTask));
    }
    both.see(
        &rt,
        ThreadCall::NextThread { caller: 1, from: 0 },
        ShortReply::End,
    );
    both.see_ended(&rt, 2, Ended::Exited(9));
}

/// A member whose parent is outside is killed when its namespace falls, and is a zombie of its parent, also where its
/// first thread had left.
#[test]
fn fall_kills_a_member_whose_first_thread_left(rt: HostRuntime) {
    let mut processes = Processes::new(&rt);
    processes.fork(&rt, 1, true, 2, 2);
    let join = Call::Join {
        caller: 1,
        target: 2,
    };
    processes.see(&rt, join, ShortReply::Done);
    processes.fork(&rt, 1, false, 3, 3);
    let mut both = processes.with_threads(&rt);
    both.begin(&rt, 3, 3, 4);
    both.leaves(&rt, 3, 1);
    both.see_count(&rt, 4);
    both.see_exit(&rt, 2, 9, ShortReply::Done);
    both.see_count(&rt, 3);
    for number in 2u32..5 {
        both.see_no_caller(&rt, number);
    }
    both.see_ended(&rt, 3, Ended::Killed);
    both.see_ended(&rt, 2, Ended::Exited(9));
}

/// A root init, and a child of it with the number 2 and two more threads, 3 and 4.
fn child_with_threads(rt: &(impl AllocGlobal + Abort)) -> Both {
    let mut processes = Processes::new(rt);
    processes.fork(rt, 1, false, 2, 2);
    let mut both = processes.with_threads(rt);
    both.begin(rt, 2, 3, 3);
    both.begin(rt, 3, 4, 4);
    both
}

/// What a thread asks is about its process, and its number names that.
#[test]
fn threads_ask_for_their_process(rt: HostRuntime) {
    let mut both = child_with_threads(&rt);
    let one = ShortReply::Number(1);
    both.see_for_process(&rt, Call::GetPid { caller: 4 }, ShortReply::Number(2));
    both.see_for_process(&rt, Call::GetPpid { caller: 3 }, one);
    both.see_for_process(&rt, Call::GetPgid { caller: 4, pid: 3 }, one);
    both.see_for_process(&rt, Call::GetSid { caller: 3, pid: 0 }, one);
    both.see_for_process(&rt, Call::Count { id: 0 }, ShortReply::Counted(4));
    let kind = Kind::Task;
    let from = 2;
    both.see_for_process(
        &rt,
        Call::Next {
            caller: 4,
            kind,
            from,
        },
        ShortReply::Number(2),
    );
    let from = 3;
    both.see_for_process(
        &rt,
        Call::Next {
            caller: 4,
            kind,
            from,
        },
        ShortReply::End,
    );
    both.see_for_process(
        &rt,
        Call::SetSubreaper {
            caller: 4,
            on: true,
        },
        ShortReply::Done,
    );
}

/// A process whose first thread has left is not waited for while another one runs. Any thread of the parent may wait.
#[test]
fn wait_passes_over_a_first_thread_that_left(rt: HostRuntime) {
    let mut both = child_with_threads(&rt);
    both.begin(&rt, 1, 5, 5);
    both.leaves(&rt, 2, 7);
    let which = Which::Pid(2);
    let call = Call::Wait { caller: 5, which };
    both.see_for_process(&rt, call, ShortReply::NoneYet);
    both.leaves(&rt, 3, 8);
    both.see_for_process(&rt, call, ShortReply::NoneYet);
    both.leaves(&rt, 4, 9);
    both.see_for_process(
        &rt,
        call,
        ShortReply::Reaped {
            child: 2,
            ended: Ended::Exited(9),
        },
    );
    both.see_for_process(&rt, call, ShortReply::Refused(Refusal::NoChild));
    both.see_count(&rt, 2);
}

/// An exec by another thread than the first one ends all others, and the process goes on under its own number.
#[test]
fn exec_ends_the_other_threads(rt: HostRuntime) {
    let mut both = child_with_threads(&rt);
    both.see_for_process(&rt, Call::Exec { caller: 3 }, ShortReply::Done);
    both.see_no_caller(&rt, 3);
    both.see_no_caller(&rt, 4);
    both.see_for_process(&rt, Call::GetPid { caller: 2 }, ShortReply::Number(2));
    both.see_count(&rt, 2);
}

/// A first thread that had left is there again after an exec.
#[test]
fn exec_returns_the_first_thread(rt: HostRuntime) {
    let mut both = child_with_threads(&rt);
    both.leaves(&rt, 2, 7);
    both.see_no_caller(&rt, 2);
    both.see_for_process(&rt, Call::Exec { caller: 4 }, ShortReply::Done);
    both.see_for_process(&rt, Call::GetPid { caller: 2 }, ShortReply::Number(2));
    both.see_no_caller(&rt, 3);
    both.see_no_caller(&rt, 4);
    both.see_count(&rt, 2);
    both.begin(&rt, 2, 5, 5);
    both.see_exit(&rt, 5, 1, ShortReply::Done);
    both.see_ended(&rt, 2, Ended::Exited(1));
}
