//! What the generated runs begin with: calls whose replies are known beforehand, from the rules of docs/MODEL.md
//! and not from a table.

use crate::plain_pair::Pair;
use pid_types::call::Call;
use pid_types::reply::{Refusal, Reply};
use std::process::Abort;

/// The level of the deepest namespace, `pid_namespaces(7)`.
const DEEPEST_SPACE: u32 = 32;

/// The level of the deepest control group.
const DEEPEST_CONTROL: u64 = 64;

/// Makes a call that is to be answered so.
fn expect(rt: &impl Abort, pair: &mut Pair, call: Call, wanted: &Reply) {
    let reply = pair.make(call).expect(rt, "two replies");
    assert!(rt; reply == *wanted);
}

/// Namespaces below one another to the deepest level, each with its init alone: the init of level k is
/// number k + 1 in the root, and 2 in the namespace around it.
pub fn build_spaces(rt: &impl Abort, pair: &mut Pair) {
    for caller in 1..=DEEPEST_SPACE {
        let fork = Call::Fork {
            caller,
            new_space: true,
        };
        let forked = Reply::Forked {
            child: 2,
            root: caller + 1,
        };
        expect(rt, pair, fork, &forked);
    }
}

/// The init of the deepest namespace can have none below it.
pub fn ask_below_deepest(rt: &impl Abort, pair: &mut Pair) {
    let fork_new = Call::Fork {
        caller: DEEPEST_SPACE + 1,
        new_space: true,
    };
    expect(rt, pair, fork_new, &Reply::Refused(Refusal::TooDeep));
}

/// Control groups below one another to the deepest level. On a new table the group of level k has the id k.
pub fn build_controls(rt: &impl Abort, pair: &mut Pair) {
    for parent in 0..DEEPEST_CONTROL {
        let made = Reply::Control(parent + 1);
        expect(rt, pair, Call::MakeControl { parent }, &made);
    }
}
