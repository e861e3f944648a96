//! What a call would get, and forks that are made only as they were foretold, for C.
ghost use Rattle.std.specs.Prelude.{◌≡◌, ◌≢◌, ◌<◌, ◌≤◌, ◌↔◌, ◌⊎◌, [], ◌∷◌, IsSome};
ghost use Rattle.{
  pid_types.specs.declared.reply.Reply.TheVariants.{Forked},
  stamped_table.specs.Stamped.{reply_to},
  foreign_handles.specs.Held.{stamped, workers},
  foreign_numbers.specs.Numbers.{call_of},
  foreign_calls.specs.{Asked.{TellsAnswer}, Calls.{visible_held, HasMade}, Held.{NeedsOpen, OnlyReads}},
  foreign_calls.specs.{Made.{IsSpent}, Records.{Has}, Would.{fork_by, TellsFork}},
};

use foreign_calls::table::Pidtab;
use foreign_calls::would::{Wanted, fork_at, would};
use foreign_numbers::numbers::{CallNumbers, ReplyNumbers, read_call};
use foreign_numbers::status::{CLOSED, DIFFERS, DONE, NO_MEMORY, OUT_OF_RANGE, SPENT};

/// Tells the reply that the call would get, as the table's next one. It is no call: it uses no stamp, and changes
/// nothing. So a fork's numbers are known before it is made, and a wait is `waitid(2)` with `WNOWAIT`.
///
/// `CLOSED` where there is no open table; then `OUT_OF_RANGE` where the operation, or what it takes, is outside its
/// range; then `SPENT` where the stamp of the call would be `u64::MAX`. It needs no memory, and does not know whether
/// the call would find some. A call that the table would refuse is `DONE`: its reply says so.
#[unsafe(no_mangle)]
pub extern "C" fn pidtab_would(
    table: &mut Pidtab,
    call: &CallNumbers,
    reply: &mut ReplyNumbers,
) -> u32
    ensures reads { OnlyReads table.old.handle.held table.new.handle.held result (OUT_OF_RANGE ∷ SPENT ∷ []) }
    ensures answers { TellsAnswer table.old.handle.held (λ h. reply_to (stamped h))
        (call_of call.now) reply.old reply.new result }
    ensures spent { (result ≡ SPENT)
        ↔ Has table.old.handle.held (λ h. IsSpent (stamped h).stamp) × IsSome (call_of call.now) }
{
    if !table.is_open {
        return CLOSED;
    }
    let Some(asked) = read_call(call) else {
        return OUT_OF_RANGE;
    };
    would(table.handle.look(), asked, reply)
}

/// Makes the fork of the caller for the worker, into a new namespace if `new_space` is 1, if the child's number to the
/// caller and its root number are the given ones. Else nothing has changed. A fork that [`pidtab_would`] foretold is so
/// made with the numbers that were told, or not at all. Where there is a history it is recorded, and `ordinal` is its
/// place there; else `ordinal` stays.
///
/// `CLOSED` where there is no open table; then `OUT_OF_RANGE` for another `new_space` than 0 and 1, or where there is
/// no such worker; then `SPENT` where the stamp of the call would be `u64::MAX`; then `DIFFERS` where the reply would
/// be another one, a refusal too, which `reply` then is; `NO_MEMORY`.
#[unsafe(no_mangle)]
pub extern "C" fn pidtab_fork_at_by(
    table: &mut Pidtab,
    worker: u32,
    caller: u32,
    new_space: u32,
    child: u32,
    root: u32,
    reply: &mut ReplyNumbers,
    ordinal: &mut u64,
) -> u32
    ensures needs_open { NeedsOpen table.old.handle.held result
        (OUT_OF_RANGE ∷ SPENT ∷ DIFFERS ∷ NO_MEMORY ∷ []) }
    ensures done { result ≡ DONE → Has table.old.handle.held (λ h. Has table.new.handle.held (λ h'.
        HasMade h worker (fork_by caller new_space) ordinal.old ordinal.new h')) }
    ensures not_done { result ≢ DONE
        → (visible_held table.new.handle.held ≡ visible_held table.old.handle.held) × (ordinal.new ≡ ordinal.old) }
    ensures tells { result ≢ CLOSED → Has table.old.handle.held (λ h.
        TellsFork (reply_to (stamped h) (fork_by caller new_space)) (Forked child root) reply.old reply.new result) }
    ensures untold { result ≡ CLOSED → reply.new ≡ reply.old }
    ensures out_of_range { (result ≡ OUT_OF_RANGE)
        ↔ Has table.old.handle.held (λ h. (1 < new_space) ⊎ (workers h ≤ worker)) }
    ensures spent { (result ≡ SPENT) ↔ (new_space ≤ 1)
        × Has table.old.handle.held (λ h. (worker < workers h) × IsSpent (stamped h).stamp) }
    ensures differs { (result ≡ DIFFERS) ↔ (new_space ≤ 1)
        × Has table.old.handle.held (λ h. (worker < workers h) × ((stamped h).stamp ≢ u64.MAX)
        × (reply_to (stamped h) (fork_by caller new_space) ≢ Forked child root)) }
{
    if !table.is_open {
        return CLOSED;
    }
    if new_space > 1 {
        return OUT_OF_RANGE;
    }
    let wanted = Wanted {
        caller,
        new_space: new_space == 1,
        child,
        root,
    };
    fork_at(table.handle.lend(), worker, &wanted, reply, ordinal)
}
