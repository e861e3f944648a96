//! Tables that leave little room: with all numbers in use, with many namespaces that are gone, and with all levels.

use crate::running::Running;
use pid_types::call::{Call, Which};
use pid_types::config::Config;
use pid_types::keys::Pid;
use std::process::Abort;

/// A table whose greatest number is 300, with so many children of the root init.
fn small(rt: &(impl AllocGlobal + Abort), children: u32) -> Running {
    let config = Config::new(301, 1).expect(rt, "bad settings");
    let mut table = Running::new(rt, &config);
    for _child in 0..children {
        let _root = fork(rt, &mut table, 1, false);
    }
    table
}

/// Makes a fork, and answers the root number of the child.
pub(crate) fn fork(rt: &impl Abort, table: &mut Running, caller: Pid, new_space: bool) -> Pid {
    table.make(rt, Call::Fork { caller, new_space })
}

/// The last two numbers are taken, and a task's children go into a namespace that is gone.
fn fill(rt: &impl Abort, table: &mut Running) {
    let outer = fork(rt, table, 1, true);
    let target = fork(rt, table, outer, true);
    let _joined = table.make(rt, Call::Join { caller: 2, target });
    let exit = Call::Exit {
        caller: outer,
        status: 0,
    };
    let _fell = table.make(rt, exit);
    let _last = fork(rt, table, 1, false);
}

/// All 300 numbers are in use.
#[test]
fn loads_a_full_table(rt: HostRuntime) {
    let mut table = small(&rt, 297);
    fill(&rt, &mut table);
    let _loaded = table.reloaded(&rt);
}

/// The children of the task go into a namespace, which then is gone.
fn lose_namespace(rt: &impl Abort, table: &mut Running, caller: Pid) {
    let target = fork(rt, table, 1, true);
    let _joined = table.make(rt, Call::Join { caller, target });
    let exit = Call::Exit {
        caller: target,
        status: 0,
    };
    let _done = table.make(rt, exit);
    let which = Which::Any;
    let _reaped = table.make(rt, Call::Wait { caller: 1, which });
}

/// Half of the numbers are free, and the children of 150 tasks go into as many namespaces that are gone.
#[test]
fn loads_many_lost_namespaces(rt: HostRuntime) {
    let mut table = small(&rt, 150);
    for caller in 2..152 {
        lose_namespace(&rt, &mut table, caller);
    }
    let _loaded = table.reloaded(&rt);
}

/// Namespaces from that of the caller down, so many, each with a session of its own. It answers the last init.
fn make_levels(rt: &impl Abort, table: &mut Running, first: Pid, count: u32) -> Pid {
    let mut caller = first;
    for _level in 0..count {
        caller = fork(rt, table, caller, true);
        let _session = table.make(rt, Call::SetSid { caller });
    }
    caller
}

/// All levels stand; then those from the tenth on have fallen.
#[test]
fn loads_all_levels(rt: HostRuntime) {
    let mut table = small(&rt, 0);
    let caller = make_levels(&rt, &mut table, 1, 10);
    let _deepest = make_levels(&rt, &mut table, caller, 22);
    let _standing = table.reloaded(&rt);
    let _fell = table.make(&rt, Call::Exit { caller, status: 3 });
    let _fallen = table.reloaded(&rt);
}
