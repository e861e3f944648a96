//! `CyclicIds`: worked draws; and the numbers of a new namespace's init.

use cyclic_ids::{CyclicIds, GROUP_MARK, SESSION_MARK, TASK_MARK};
use pid_numbers::Numbers;
use std::process::Abort;

/// A call on the ids, and what it answers.
enum Step {
    /// The next number is given to itself.
    Draw(Option<u32>),
    /// A number goes, whose entry is itself.
    Release(u32),
    /// The next number is given to the entry, with the marks.
    Give(u32, [bool; 3]),
    /// A mark is set, where there is an entry to have it.
    Set(u32, usize, bool),
    Clear(u32, usize),
    Entry(u32, u32),
    HasMark(u32, usize, bool),
    /// The least number from one on that has the mark.
    Marked(u32, usize, Option<u32>),
    Next(u32, Option<u32>),
    Cursor(u32),
    IsEmpty(bool),
}

/// Draws a number, again where there was no memory.
fn draw(ids: &mut CyclicIds) -> Option<u32> {
    let n = ids.plan()?;
    if ids.prepare(n).is_ok() || ids.prepare(n).is_ok() {
        ids.commit(n, n);
        return Some(n);
    }
    None
}

/// Gives the planned number with marks, again where there was no memory.
fn give_marked(ids: &mut CyclicIds, entry: u32, marks: [bool; 3]) -> bool {
    if let Some(n) = ids.plan() {
        if ids.prepare(n).is_ok() || ids.prepare(n).is_ok() {
            ids.commit_marked(n, entry, marks);
            return true;
        }
    }
    false
}

/// Whether the ids show what the step says.
fn is_shown(ids: &CyclicIds, step: &Step) -> bool {
    match step {
        Step::Entry(n, entry) => {
            ids.find(*n).copied() == Some(*entry) && ids.value(*n) == Some(*entry)
        }
        Step::HasMark(n, mark, told) => *mark < 3 && ids.has_mark(*n, *mark) == *told,
        Step::Marked(from, mark, told) => *mark < 3 && ids.next_marked(*from, *mark) == *told,
        Step::Next(from, told) => ids.next(*from) == *told,
        Step::Cursor(told) => ids.cursor() == *told,
        Step::IsEmpty(told) => ids.is_empty() == *told,
        _ => false,
    }
}

/// Whether the ids answer what the step says.
fn is_answered(ids: &mut CyclicIds, step: &Step) -> bool {
    match step {
        Step::Draw(told) => draw(ids) == *told,
        Step::Release(n) => ids.release(*n) == Some(*n),
        Step::Give(entry, marks) => give_marked(ids, *entry, *marks),
        Step::Set(n, mark, told) => *mark < 3 && ids.set_mark(*n, *mark) == *told,
        Step::Clear(n, mark) => *mark < 3 && ids.clear_mark(*n, *mark),
        look => is_shown(ids, look),
    }
}

/// Whether the numbers from 1 to the one given are drawn, and the calls then answer what the steps say.
fn are_answered(ids: &mut CyclicIds, drawn: u32, steps: &[Step]) -> bool {
    for n in 0..drawn {
        if draw(ids) != n.checked_add(1) {
            return false;
        }
    }
    for step in steps {
        if !is_answered(ids, step) {
            return false;
        }
    }
    true
}

/// Draws the numbers from 1 to the one given, makes the calls then, and compares what they answer.
fn play(rt: &(impl AllocGlobal + Abort), pid_max: u32, drawn: u32, steps: &[Step]) {
    assert!(rt; pid_max >= 301 && pid_max <= 4_194_304);
    let mut ids = CyclicIds::new(rt.alloc(), pid_max);
    assert!(rt; are_answered(&mut ids, drawn, steps));
}

/// The bound of numbers, how many are drawn first, and the calls then.
static CASES: [(u32, u32, &[Step]); 6] = [
    // No number is in use, then one, then none again.
    (
        301,
        0,
        &[
            Step::IsEmpty(true),
            Step::Draw(Some(1)),
            Step::IsEmpty(false),
            Step::Release(1),
            Step::IsEmpty(true),
        ],
    ),
    // 1 to 300, and then only what is freed from 300 on.
    (
        301,
        300,
        &[
            Step::Cursor(301),
            Step::Draw(None),
            Step::Release(7),
            Step::Draw(None),
            Step::Release(300),
            Step::Cursor(301),
            Step::Draw(Some(300)),
            Step::Entry(300, 300),
        ],
    ),
    // Past the bound a draw starts again at 300: 5, which is free, is not drawn.
    (
        303,
        302,
        &[
            Step::Release(5),
            Step::Release(301),
            Step::Release(302),
            Step::Draw(Some(301)),
            Step::Release(300),
            Step::Draw(Some(302)),
            Step::Draw(Some(300)),
            Step::Draw(None),
        ],
    ),
    // A number that is given with marks has those, and no other.
    (
        301,
        0,
        &[
            Step::Give(9, [true, false, true]),
            Step::Entry(1, 9),
            Step::Marked(0, TASK_MARK, Some(1)),
            Step::HasMark(1, GROUP_MARK, false),
            Step::HasMark(1, SESSION_MARK, true),
            Step::Cursor(2),
        ],
    ),
    // A mark is on a number that is in use, and on no other.
    (
        301,
        2,
        &[
            Step::Marked(0, TASK_MARK, None),
            Step::Set(2, GROUP_MARK, true),
            Step::Set(3, GROUP_MARK, false),
            Step::Marked(0, GROUP_MARK, Some(2)),
            Step::HasMark(2, SESSION_MARK, false),
            Step::Clear(2, GROUP_MARK),
            Step::Marked(0, GROUP_MARK, None),
        ],
    ),
    // 130 numbers are in three blocks of 64, of which one at a time stands beside the tree.
    (
        301,
        130,
        &[
            Step::Set(70, TASK_MARK, true),
            Step::Set(129, TASK_MARK, true),
            Step::Marked(0, TASK_MARK, Some(70)),
            Step::Marked(70, TASK_MARK, Some(70)),
            Step::Marked(71, TASK_MARK, Some(129)),
            Step::Marked(129, TASK_MARK, Some(129)),
            Step::Marked(130, TASK_MARK, None),
            Step::Release(70),
            Step::Marked(0, TASK_MARK, Some(129)),
            Step::Entry(5, 5),
            Step::Entry(130, 130),
            Step::Next(70, Some(71)),
            Step::Next(131, None),
            Step::Release(129),
            Step::Next(129, Some(130)),
        ],
    ),
];

#[test]
fn draws_numbers(rt: HostRuntime) {
    for (pid_max, drawn, steps) in &CASES {
        play(&rt, *pid_max, *drawn, steps);
    }
}

/// The init of a new namespace is number 1 there, and has the first number of a root where no number is in use.
#[test]
fn plans_a_namespace(rt: HostRuntime) {
    let numbers = Numbers::new(rt.alloc(), 301).expect(&rt, "no memory");
    let planned = numbers.plan_new(0).expect(&rt, "no number");
    assert!(rt; planned.as_slice() == [1, 1].as_slice());
}
