//! A table of many tasks, in many namespaces, sessions and groups.

use crate::full::fork;
use crate::running::Running;
use pid_types::call::Call;
use pid_types::config::Config;
use std::process::Abort;

/// How many tasks there are.
const TASKS: u32 = 10_000;

/// How many of them each namespace has, its init too.
const IN_SPACE: u32 = 50;

/// Makes a namespace with its tasks. Each fourth begins a session, and the next one a group in it.
fn make_space(rt: &impl Abort, table: &mut Running) {
    let mut leader = fork(rt, table, 1, true);
    for index in 1..IN_SPACE {
        let caller = fork(rt, table, leader, false);
        if index % 4 == 1 {
            let _sid = table.make(rt, Call::SetSid { caller });
            leader = caller;
        }
        if index % 4 == 2 {
            let pid = 0;
            let _done = table.make(
                rt,
                Call::SetPgid {
                    caller,
                    pid,
                    pgid: 0,
                },
            );
        }
    }
}

/// Such a table is saved and loaded.
#[test]
fn loads_many_tasks(rt: HostRuntime) {
    let config = Config::new(4_194_304, 1).expect(&rt, "bad settings");
    let mut table = Running::new(&rt, &config);
    for _space in 0..TASKS / IN_SPACE {
        make_space(&rt, &mut table);
    }
    let _loaded = table.reloaded(&rt);
}
