//! The reply that a call would get, and forks that are made only as they were foretold.
ghost use Rattle.std.specs.Prelude.{◌≡◌, ◌≢◌, ◌<◌, ◌≤◌, ◌↔◌, [], ◌∷◌, true};
ghost use Rattle.{
  foreign_handles.specs.Held.{stamped, workers},
  stamped_table.specs.Stamped.{reply_to},
  foreign_calls.specs.{Calls.{visible, HasMade}, Held.{IsDoneOr}, Made.{IsSpent, TellsReply}},
  foreign_calls.specs.Would.{wanted_call, wanted_reply, TellsFork},
};

use crate::calls::call;
use foreign_handles::held::Held;
use foreign_numbers::numbers::{ReplyNumbers, put_reply};
use foreign_numbers::status::{DIFFERS, DONE, NO_MEMORY, OUT_OF_RANGE, SPENT, status_of};
use pid_types::call::Call;
use pid_types::keys::Pid;
use pid_types::reply::Reply;

/// A fork, and the numbers that its child is to have.
#[derive(Clone, Copy)]
pub struct Wanted {
    /// The caller's root number.
    pub caller: Pid,
    /// Whether the child goes into a new namespace.
    pub new_space: bool,
    /// The child's number to the caller.
    pub child: Pid,
    /// Its root number.
    pub root: Pid,
}

impl Wanted {
    /// The call.
    fn call(&self) -> Call
        ensures { result ≡ wanted_call self.now }
    {
        Call::Fork {
            caller: self.caller,
            new_space: self.new_space,
        }
    }

    /// Whether this is the reply to a fork with these numbers.
    fn is_met_by(&self, told: &Reply) -> bool
        ensures { (result ≡ true) ↔ (told.now ≡ wanted_reply self.now) }
    {
        match told {
            Reply::Forked { child, root } => *child == self.child && *root == self.root,
            _ => false,
        }
    }
}

/// Tells the reply that the call would get as numbers. The result is the status.
pub fn would(held: &Held, asked: Call, reply: &mut ReplyNumbers) -> u32
    ensures reply { TellsReply (reply_to (stamped held.now) asked) reply.old reply.new result }
    ensures spent { (result ≡ SPENT) ↔ IsSpent (stamped held.now).stamp }
    ensures statuses { IsDoneOr result (SPENT ∷ []) }
{
    let mut told = Reply::Done;
    if let Err(fault) = held.would(asked, &mut told) {
        return status_of(fault);
    }
    put_reply(&told, reply);
    DONE
}

/// Makes the worker's fork, if its child gets the wanted numbers. The reply is the fork's, or what it would have been.
/// The result is the status.
pub fn fork_at(
    held: &mut Held,
    worker: u32,
    wanted: &Wanted,
    reply: &mut ReplyNumbers,
    ordinal: &mut u64,
) -> u32
    ensures done { result ≡ DONE
        → HasMade held.old worker (wanted_call wanted.now) ordinal.old ordinal.new held.new }
    ensures not_done { result ≢ DONE → (visible held.new ≡ visible held.old) × (ordinal.new ≡ ordinal.old) }
    ensures tells { TellsFork (reply_to (stamped held.old) (wanted_call wanted.now)) (wanted_reply wanted.now)
        reply.old reply.new result }
    ensures out_of_range { (result ≡ OUT_OF_RANGE) ↔ (workers held.old ≤ worker) }
    ensures spent { (result ≡ SPENT) ↔ (worker < workers held.old) × IsSpent (stamped held.old).stamp }
    ensures differs { (result ≡ DIFFERS) ↔ (worker < workers held.old) × ((stamped held.old).stamp ≢ u64.MAX)
        × (reply_to (stamped held.old) (wanted_call wanted.now) ≢ wanted_reply wanted.now) }
    ensures statuses { IsDoneOr result (OUT_OF_RANGE ∷ SPENT ∷ DIFFERS ∷ NO_MEMORY ∷ []) }
{
    if worker as usize >= held.workers() {
        return OUT_OF_RANGE;
    }
    let mut told = Reply::Done;
    if let Err(fault) = held.would(wanted.call(), &mut told) {
        return status_of(fault);
    }
    if !wanted.is_met_by(&told) {
        put_reply(&told, reply);
        return DIFFERS;
    }
    call(held, worker, wanted.call(), reply, ordinal)
}
