//! The numbers of a task from the root namespace inwards (`NSpid`), as a table with stamps tells them, and a record
//! with its history. Each namespace of the chain has one task fewer than the one around it, and the innermost has one.

use kept_table::Kept;
use pid_types::call::Call;
use pid_types::config::Config;
use pid_types::keys::Pid;
use pid_types::plain::LEVELS;
use pid_types::reply::{Refusal, Reply, ShortReply};
use stamped_table::StampedTable;
use std::process::Abort;

/// So many numbers, down to 1.
fn expect_numbers(rt: &impl Abort, numbers: &[Pid], count: Pid) {
    assert!(rt; numbers.len() == count as usize);
    for place in 0..numbers.len() {
        assert!(rt; numbers[place] as usize + place == count as usize);
    }
}

/// A reply that is a list of so many numbers.
fn expect_list(rt: &impl Abort, reply: &Reply, count: Pid) {
    let Reply::Levels(numbers) = reply else {
        rt.abort();
    };
    expect_numbers(rt, numbers.as_slice(), count);
}

/// The table tells them to a query and to a call, and refuses a task that is not there.
fn expect_of_table(rt: &impl Abort, table: &mut StampedTable, target: Pid, missing: Pid) {
    let mut asked = [0; LEVELS];
    assert!(rt; table.ns_pid(1, target, &mut asked) == Ok(target as usize));
    expect_numbers(rt, &asked[..target as usize], target);
    expect_list(rt, &table.ask(Call::NsPid { caller: 1, target }), target);
    let mut made = [0; LEVELS];
    assert!(rt; table.make_ns_pid(1, target, &mut made) == Ok(Ok(target as usize)));
    expect_numbers(rt, &made[..target as usize], target);
    let refused = Ok(Err(Refusal::NoTask));
    assert!(rt; table.make_ns_pid(1, missing, &mut made) == refused);
}

/// What the record tells of a call.
fn expect_told(rt: &impl Abort, kept: &mut Kept, call: Call) -> Option<ShortReply> {
    assert!(rt; kept.workers() == 1);
    kept.make_call(0, call).expect(rt, "no memory")
}

/// The last entry has them.
fn expect_last_list(rt: &impl Abort, kept: &Kept, target: Pid) {
    let Some(list) = kept.last_list() else {
        rt.abort();
    };
    expect_numbers(rt, list, target);
}

/// A `getpid` of the record, made as a query that is recorded: its reply is told, and is that of the last entry.
fn expect_query(rt: &impl Abort, kept: &mut Kept, caller: Pid, told: ShortReply, reply: &Reply) {
    assert!(rt; kept.workers() == 1);
    assert!(rt; kept.make_query(0, Call::GetPid { caller }) == Ok(told));
    assert!(rt; kept.last_reply().as_ref() == Some(reply));
}

/// The record tells them to a query, and has those of a call in its last entry, which then is another's.
fn expect_of_record(rt: &impl Abort, kept: &mut Kept, target: Pid) {
    let mut asked = [0; LEVELS];
    assert!(rt; kept.ns_pid(1, target, &mut asked) == Ok(target as usize));
    expect_numbers(rt, &asked[..target as usize], target);
    let mut reply = Reply::Done;
    kept.ask(Call::NsPid { caller: 1, target }, &mut reply);
    expect_list(rt, &reply, target);
    assert!(rt; expect_told(rt, kept, Call::NsPid { caller: 1, target }).is_none());
    expect_last_list(rt, kept, target);
    let mut made = [0; LEVELS];
    assert!(rt; kept.workers() == 1);
    assert!(rt; kept.make_ns_pid(0, 1, target, &mut made) == Ok(Ok(target as usize)));
    expect_numbers(rt, &made[..target as usize], target);
    expect_last_list(rt, kept, target);
    assert!(rt; kept.workers() == 1);
    assert!(rt; kept.make_ns_pid(0, 1, target + 1, &mut made) == Ok(Err(Refusal::NoTask)));
    assert!(rt; kept.last_reply() == Some(Reply::Refused(Refusal::NoTask)));
    let number = Some(ShortReply::Number(1));
    assert!(rt; expect_told(rt, kept, Call::GetPid { caller: 1 }) == number);
    assert!(rt; kept.last_list().is_none());
    let nobody = Refusal::NoCaller;
    expect_query(rt, kept, 1, ShortReply::Number(1), &Reply::Number(1));
    expect_query(
        rt,
        kept,
        target + 1,
        ShortReply::Refused(nobody),
        &Reply::Refused(nobody),
    );
}

#[test]
fn numbers_at_each_level(rt: HostRuntime) {
    let config = Config::new(32_768, 1).expect(&rt, "good settings");
    let mut table = StampedTable::new(rt.alloc(), &config).expect(&rt, "no memory");
    let mut kept = Kept::new(rt.alloc(), &config, 1).expect(&rt, "no memory");
    for target in 1..10u32 {
        let fork = Call::Fork {
            caller: target,
            new_space: true,
        };
        expect_of_table(&rt, &mut table, target, target + 1);
        assert!(&rt; table.make_short(fork).is_ok());
        expect_of_record(&rt, &mut kept, target);
        assert!(&rt; expect_told(&rt, &mut kept, fork).is_some());
    }
}
