//! What answers read like that no script gets, and the numbers of refusals. The other answers are in `stored/`.

use arrayvec::ArrayVec;
use pid_script::answer::answer_text;
use pid_types::call::Call;
use pid_types::entry::Receipt;
use pid_types::reply::{Refusal, Reply};
use std::process::Abort;

fn expect_text(rt: &impl Abort, reply: Reply, text: &[u8]) {
    let receipt = Receipt {
        ordinal: 0,
        worker: 0,
        call: Call::GetPid { caller: 1 },
        reply,
    };
    assert!(rt; answer_text(&Ok(receipt)).as_slice() == text);
}

/// The greatest number on each level.
const MOST_LEVELS: &[u8] =
    b"4294967295 4294967295 4294967295 4294967295 4294967295 4294967295 4294967295 \
4294967295 4294967295 4294967295 4294967295 4294967295 4294967295 4294967295 4294967295 4294967295 4294967295 \
4294967295 4294967295 4294967295 4294967295 4294967295 4294967295 4294967295 4294967295 4294967295 4294967295 \
4294967295 4294967295 4294967295 4294967295 4294967295 4294967295";

#[test]
fn writes_the_longest_answers(rt: HostRuntime) {
    let levels = ArrayVec::from([4_294_967_295; 33]);
    assert!(rt; MOST_LEVELS.len() == 362);
    expect_text(&rt, Reply::Levels(levels), MOST_LEVELS);
    expect_text(
        &rt,
        Reply::Counted(18_446_744_073_709_551_615),
        b"18446744073709551615",
    );
}

static NUMBERS: [(Refusal, u8, u32); 19] = [
    (Refusal::NoCaller, 1, 3),
    (Refusal::NoTask, 2, 3),
    (Refusal::NoChild, 3, 10),
    (Refusal::NoNumber(0), 4, 11),
    (Refusal::PidsLimit(1), 5, 11),
    (Refusal::SpaceFallen, 6, 12),
    (Refusal::TooDeep, 7, 28),
    (Refusal::Elsewhere, 8, 22),
    (Refusal::BadGroup, 9, 22),
    (Refusal::OtherSession, 10, 1),
    (Refusal::IsLeader, 11, 1),
    (Refusal::NoGroup, 12, 1),
    (Refusal::Executed, 13, 13),
    (Refusal::RootInit, 14, 16),
    (Refusal::NoControl, 15, 2),
    (Refusal::ControlBusy, 16, 16),
    (Refusal::RootControl, 17, 22),
    (Refusal::BadLimit, 18, 22),
    (Refusal::ControlDepth, 19, 11),
];

/// The numbers and the errnos of refusals: `errno-base.h` of the kernel has the values.
#[test]
fn numbers_each_refusal(rt: HostRuntime) {
    for (refusal, number, errno) in &NUMBERS {
        assert!(rt; refusal.number() == *number && refusal.errno() == *errno);
    }
}
