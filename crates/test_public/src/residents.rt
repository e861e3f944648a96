//! The live tasks of control groups, as callers are told them. What they are was worked out by hand.

use crate::running::Running;
use pid_types::call::{Call, Which};
use pid_types::config::Config;
use pid_types::keys::Pid;
use pid_types::reply::{Refusal, ShortReply};
use std::process::Abort;
use translate::residents::ControlPage;

/// A call, or what a caller is told of a control group.
enum Step {
    /// A call that is not refused.
    Make(Call),
    /// The caller, the control group and the first number; then the reply, and what a room of three has that had 9s.
    Told(Pid, u64, Pid, ShortReply, [Pid; 3]),
}

/// The ids are the stamps of calls: that of the namespace is 3, that of the control group 4.
static STEPS: [Step; 29] = [
    Step::Make(Call::Fork {
        caller: 1,
        new_space: false,
    }),
    Step::Make(Call::Fork {
        caller: 1,
        new_space: false,
    }),
    Step::Make(Call::Fork {
        caller: 1,
        new_space: true,
    }),
    Step::Make(Call::MakeControl { parent: 0 }),
    Step::Told(1, 0, 0, ShortReply::Counted(4), [1, 2, 3]),
    Step::Told(1, 0, 3, ShortReply::Counted(2), [3, 4, 9]),
    Step::Told(1, 4, 0, ShortReply::Counted(0), [9, 9, 9]),
    Step::Make(Call::Move { task: 4, id: 4 }),
    Step::Make(Call::Move { task: 2, id: 4 }),
    Step::Told(1, 0, 0, ShortReply::Counted(2), [1, 3, 9]),
    Step::Told(1, 4, 0, ShortReply::Counted(2), [2, 4, 9]),
    // Task 4 sees itself alone, as number 1.
    Step::Told(4, 4, 0, ShortReply::Counted(1), [1, 9, 9]),
    Step::Told(4, 0, 0, ShortReply::Counted(0), [9, 9, 9]),
    // A zombie is in no list, and its parent's wait takes none from one.
    Step::Make(Call::Exit {
        caller: 2,
        status: 0,
    }),
    Step::Told(1, 4, 0, ShortReply::Counted(1), [4, 9, 9]),
    Step::Make(Call::Wait {
        caller: 1,
        which: Which::Any,
    }),
    Step::Told(1, 4, 0, ShortReply::Counted(1), [4, 9, 9]),
    // Two more come to it, one of them by its parent.
    Step::Make(Call::Fork {
        caller: 4,
        new_space: false,
    }),
    Step::Make(Call::Move { task: 1, id: 4 }),
    Step::Told(1, 4, 0, ShortReply::Counted(3), [1, 4, 5]),
    Step::Told(4, 4, 2, ShortReply::Counted(1), [2, 9, 9]),
    Step::Told(1, 0, 0, ShortReply::Counted(1), [3, 9, 9]),
    // The namespace falls with its init, and task 1 goes back.
    Step::Make(Call::Exit {
        caller: 4,
        status: 0,
    }),
    Step::Make(Call::Move { task: 1, id: 0 }),
    Step::Told(1, 4, 0, ShortReply::Counted(0), [9, 9, 9]),
    Step::Make(Call::RemoveControl { id: 4 }),
    Step::Told(1, 4, 0, ShortReply::Refused(Refusal::NoControl), [9, 9, 9]),
    Step::Told(4, 4, 0, ShortReply::Refused(Refusal::NoCaller), [9, 9, 9]),
    Step::Told(1, 0, 0, ShortReply::Counted(2), [1, 3, 9]),
];

/// Whether the step goes as it says.
fn goes(rt: &impl Abort, table: &mut Running, step: &Step) -> bool {
    match step {
        Step::Make(call) => {
            let _root = table.make(rt, *call);
            true
        }
        Step::Told(caller, control, from, reply, told) => {
            let asked = ControlPage {
                caller: *caller,
                control: *control,
                from: *from,
            };
            let mut room = [9; 3];
            table.control_tasks(&asked, &mut room) == Some(*reply) && room == *told
        }
    }
}

/// Takes all steps.
fn play(rt: &impl Abort, table: &mut Running) {
    for step in &STEPS {
        assert!(rt; goes(rt, table, step));
    }
}

#[test]
fn lists_tasks_of_control_groups(rt: HostRuntime) {
    let config = Config::new(301, 1).expect(&rt, "bad settings");
    let mut table = Running::new(&rt, &config);
    play(&rt, &mut table);
}
