//! The reply that a fork would get. It is planned as a fork is, and nothing is made of the plan.
ghost use Rattle.std.specs.Prelude.{◌≡◌, ◌-◌, ◌<◌, Some, false, option_map, unwrap_or, length, slice_index, nat_le};
ghost use Rattle.{
  pid_types.specs.{Bounds.{deepest_space}, Names.{level}, Controls.{passed_limit as passed_limit_of}},
  pid_types.specs.{Fork.{fork as fork_of, is_gone}, Short.{reply_of}, Sound.{IsBelow}},
  pid_types.specs.declared.reply.Refusal.{Refusal},
  pid_numbers.specs.Numbering.{id_at, draw_in},
  task_table.specs.{Found.{IsCaller}, View.{row_of, state_of}, Whole.{IsWhole}},
  fork_calls.specs.Outcomes.{child_there, child_below, planned_reply},
};

use crate::{id_of, namespace_for, passed_limit};
use arrayvec::ArrayVec;
use pid_types::keys::{Pid, SpaceKey};
use pid_types::plain::LEVELS;
use pid_types::reply::{Refusal, ShortReply};
use task_table::Tasks;
use task_table::view::{Found, find_live, laws};

/// The reply where each namespace has a number to give. The caller's namespace is one of them, so its child has there
/// what that gives next.
fn would_get(store: &Tasks, found: &Found, numbers: &[Pid]) -> ShortReply
    requires whole { IsWhole store.now }
    requires caller { IsCaller store.now found.now }
    requires some { 0 < length numbers.now }
    ensures { reply_of result ≡ planned_reply
        (option_map Refusal.PidsLimit (passed_limit_of (state_of store.now)
        (row_of store.now found.now.key found.now.task).home))
        (unwrap_or (draw_in store.now.numbering found.now.space) 0)
        (slice_index numbers.now (length numbers.now - 1)) }
{
    laws(store);
    if let Some(refusal) = passed_limit(store, found) {
        return ShortReply::Refused(refusal);
    }
    ShortReply::Forked {
        child: store.numbers().plan_one(found.space).unwrap_or(0),
        root: numbers[numbers.len() - 1],
    }
}

/// The reply to a fork into a namespace that stands.
fn would_fork_into(store: &Tasks, found: &Found, space: SpaceKey) -> ShortReply
    requires whole { IsWhole store.now }
    requires caller { IsCaller store.now found.now }
    requires id { id_at store.now.numbering space ≡ Some found.now.task.children_space }
    ensures { reply_of result ≡ (child_there store.now found.now.key found.now.task).reply }
{
    laws(store);
    let mut numbers = ArrayVec::<Pid, LEVELS>::new();
    match store.numbers().plan_into(space, &mut numbers) {
        Err(full) => ShortReply::Refused(Refusal::NoNumber(id_of(store, full))),
        Ok(()) => would_get(store, found, numbers.as_slice()),
    }
}

/// The reply to a fork into a new namespace inside the caller's own.
fn would_fork_inside(store: &Tasks, found: &Found, stamp: u64) -> ShortReply
    requires whole { IsWhole store.now }
    requires below { IsBelow stamp (state_of store.now) }
    requires caller { IsCaller store.now found.now }
    requires id { id_at store.now.numbering found.now.space ≡ Some found.now.task.children_space }
    requires stands { is_gone (state_of store.now) found.now.task.children_space ≡ false }
    requires shallow { nat_le deepest_space (level (state_of store.now).spaces found.now.task.children_space) ≡ false }
    ensures { reply_of result ≡ (child_below store.now found.now.key found.now.task stamp).reply }
{
    laws(store);
    let mut numbers = ArrayVec::<Pid, LEVELS>::new();
    match store.numbers().plan_new_into(found.space, &mut numbers) {
        Err(full) => ShortReply::Refused(Refusal::NoNumber(id_of(store, full))),
        Ok(()) => would_get(store, found, numbers.as_slice()),
    }
}

/// The reply that [`fork`](crate::fork) would get, the child's numbers among it. It changes nothing, and no cursor.
/// Want of memory it does not know.
#[tactic(auto, unfolding(pid_types::specs::Fork::fork))]
pub fn would_fork(store: &Tasks, caller: Pid, new_space: bool, stamp: u64) -> ShortReply
    requires whole { IsWhole store.now }
    requires below { IsBelow stamp (state_of store.now) }
    ensures { reply_of result ≡ (fork_of (state_of store.now) stamp caller new_space).reply }
{
    let Some(found) = find_live(store, caller) else {
        return ShortReply::Refused(Refusal::NoCaller);
    };
    match namespace_for(store, &found, new_space) {
        Err(refusal) => ShortReply::Refused(refusal),
        Ok(_) if new_space => would_fork_inside(store, &found, stamp),
        Ok(space) => would_fork_into(store, &found, space),
    }
}
