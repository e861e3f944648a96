//! Tables that few scripts leave: namespaces that have gone or fallen, and groups and sessions that no task bears the
//! name of.

use crate::running::Running;
use pid_script::line::{Line, parse_line};
use pid_types::config::Config;
use std::process::Abort;

/// Makes the calls of the script, whatever they answer.
fn play(rt: &impl Abort, table: &mut Running, script: &str) {
    for line in script.lines() {
        if let Line::Call(call) = parse_line(line.as_bytes()) {
            let _reply = table.call(rt, call);
        }
    }
}

/// What the script leaves of a new table.
pub fn left_by(rt: &(impl AllocGlobal + Abort), config: &Config, script: &str) -> Running {
    let mut table = Running::new(rt, config);
    play(rt, &mut table, script);
    table
}

/// Children that go into namespaces which have gone, one inside the other.
const ONE_INSIDE_THE_OTHER: &str = "fork 1 new
fork 1
join 1 2
fork 2 new
join 2 2
join 3 4
exit 4 0
wait 2 any
join 1 1
";

const ONE_DEEPER: &str = "fork 1 new
fork 2 new
join 1 3
exit 2 3
wait 1 any
fork 1
";

/// A group in a fallen namespace that no task bears the name of, not even its init.
const A_BARE_GROUP: &str = "fork 1
fork 2 new
setpgid 3 0 0
setpgid 2 0 3
exit 3 0
wait 2 any
";

const A_BARE_SESSION: &str = "fork 1
setsid 2
fork 2
setpgid 3 0 0
fork 3
exit 3 0
wait 2 any
exit 2 0
";

/// Tasks of a fallen namespace whose parent is outside: one that exited before, and two that were killed.
const A_FALLEN_NAMESPACE: &str = "fork 1
fork 2 new
join 2 3
fork 2
fork 2
fork 2
exit 4 7
setsid 5
exit 3 9
fork 1
";

static RARE: [&str; 5] = [
    ONE_INSIDE_THE_OTHER,
    ONE_DEEPER,
    A_BARE_GROUP,
    A_BARE_SESSION,
    A_FALLEN_NAMESPACE,
];

/// What each script leaves of a table with the usual settings is saved and loaded, and is as it was.
#[test]
fn loads_rare_tables(rt: HostRuntime) {
    for script in &RARE {
        let _loaded = left_by(&rt, &Config::default_values(), script).reloaded(&rt);
    }
}
