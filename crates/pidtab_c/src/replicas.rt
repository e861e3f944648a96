//! A replica of a log that several hosts share, for C: `docs/CLUSTER.md` has the log.
//!
//! The table of a replica is a [`Pidtab`] beside it, which changes by [`pidtab_replica_apply`] alone. C keeps the lock:
//! one function at a time works on a replica and its table.
ghost use Rattle.std.specs.Prelude.{◌≡◌, ◌≢◌, ◌↔◌, [], ◌∷◌, None, false};
ghost use Rattle.{
  replica.specs.{Applied.{IsNewLog}, Snapshots.{IsSnapshot, head_text}},
  foreign_numbers.specs.Replicas.{log_numbers},
  foreign_calls.specs.{Held.{OnlyReads, Opens}, Records.{Has}},
  foreign_calls.specs.{Replicas.{AppliesHeld, ReadsHeld, TellsOf, digest_at, last_of}, Rooms.{PutsText}},
};

use foreign_calls::replicas::{
    PidtabReplica, apply_entry, boxed_host, head_of, read_head, tell_digest, tell_last,
};
use foreign_calls::table::Pidtab;
use foreign_calls::texts::write_text;
use foreign_handles::held::Held;
use foreign_numbers::replicas::{AppliedNumbers, DigestBytes, LogNumbers, tell_log};
use foreign_numbers::status::{
    BUSY, CLOSED, DONE, NO_MEMORY, NO_ROOM, NO_SESSION, NOT_KEPT, OTHER_SETTINGS, OUT_OF_RANGE,
};
use std::alloc::Global;

/// Opens a replica of a log that has not begun, whose settings have this `pid_max` and this model. The table beside it
/// is opened apart.
///
/// `BUSY` where it is open already; `NO_MEMORY`. Whoever opens a replica closes it.
#[unsafe(no_mangle)]
pub extern "C" fn pidtab_replica_open(
    alloc: Global,
    replica: &mut PidtabReplica,
    pid_max: u64,
    model: u64,
) -> u32
    ensures opens { Opens replica.old.handle.held replica.new.handle.held result (NO_MEMORY ∷ []) }
    ensures new { result ≡ DONE → Has replica.new.handle.held (λ h. IsNewLog pid_max model h.log) }
    ensures answers { result ≡ DONE → Has replica.new.handle.held (λ h. h.answers ≡ []) }
{
    if replica.is_open {
        return BUSY;
    }
    match boxed_host(alloc, pid_max, model) {
        Ok(held) => {
            replica.put(held);
            DONE
        }
        Err(_) => NO_MEMORY,
    }
}

/// Frees the replica, if there is one, and leaves zeroes. Its table stays.
#[unsafe(no_mangle)]
pub extern "C" fn pidtab_replica_close(alloc: Global, replica: &mut PidtabReplica)
    ensures { replica.new.handle.held ≡ None }
{
    replica.close(alloc);
}

/// Applies the next entry of the log to the replica and its table, and tells what became of it:
/// [`replica::replica::Replica::apply`].
///
/// `CLOSED` where there is no open replica or no open table; then `OUT_OF_RANGE` where the table keeps a history, which
/// a replica's does not; then `NOT_RECOVERABLE` behind one; `NOT_RISING`;
/// `NO_ENTRY`; `OTHER_SETTINGS`; `MISSING`; `DIVERGED`; `NO_MEMORY` where there is none for a session; and
/// `NOT_RECOVERABLE` where there is none amid the calls or for the digest. Behind that the replica and the table have
/// to be made anew from the log. Of each other status but `DONE` both are as they were.
#[unsafe(no_mangle)]
pub extern "C" fn pidtab_replica_apply(
    replica: &mut PidtabReplica,
    table: &mut Pidtab,
    position: u64,
    entry: &[u8],
    applied: &mut AppliedNumbers,
) -> u32
    ensures { AppliesHeld position entry.now replica.old.handle.held table.old.handle.held
        replica.new.handle.held table.new.handle.held applied.old applied.new result }
{
    if !replica.is_open || !table.is_open {
        return CLOSED;
    }
    let Held::Bare(bare) = table.handle.lend() else {
        return OUT_OF_RANGE;
    };
    apply_entry(replica.handle.lend(), bare, position, entry, applied)
}

/// Puts the answers to the entry that was applied last at the front of the room, each with its newline; `size` is their
/// length. There are none where its calls were not made.
///
/// `CLOSED` where there is no open replica; `NO_ROOM` where they are longer than the room, and then too `size` is their
/// length. It costs their copy.
#[unsafe(no_mangle)]
pub extern "C" fn pidtab_replica_answers(
    replica: &mut PidtabReplica,
    room: &mut [u8],
    size: &mut usize,
) -> u32
    ensures reads { OnlyReads replica.old.handle.held replica.new.handle.held result (NO_ROOM ∷ []) }
    ensures text { PutsText replica.old.handle.held (λ h. h.answers) room.old room.new size.old size.new result }
{
    if !replica.is_open {
        return CLOSED;
    }
    write_text(replica.handle.look().answers(), room, size)
}

/// Tells what the replica knows of its log.
///
/// `CLOSED` where there is no open replica. It costs nothing.
#[unsafe(no_mangle)]
pub extern "C" fn pidtab_replica_log(replica: &mut PidtabReplica, log: &mut LogNumbers) -> u32
    ensures reads { OnlyReads replica.old.handle.held replica.new.handle.held result [] }
    ensures done { result ≡ DONE → Has replica.old.handle.held (λ h. log.new ≡ log_numbers h.log) }
    ensures not_done { result ≢ DONE → log.new ≡ log.old }
{
    if !replica.is_open {
        return CLOSED;
    }
    *log = tell_log(replica.handle.look().replica());
    DONE
}

/// Tells the digest behind the entry at the position: that of the settings, and of all lines and answers since.
///
/// `CLOSED` where there is no open replica; then `NOT_KEPT` where the entry is none of the last 4,096. It costs one
/// search.
#[unsafe(no_mangle)]
pub extern "C" fn pidtab_replica_digest(
    replica: &mut PidtabReplica,
    position: u64,
    digest: &mut DigestBytes,
) -> u32
    ensures reads { OnlyReads replica.old.handle.held replica.new.handle.held result (NOT_KEPT ∷ []) }
    ensures told { TellsOf replica.old.handle.held (digest_at position)
        digest.old.bytes digest.new.bytes NOT_KEPT result }
{
    if !replica.is_open {
        return CLOSED;
    }
    tell_digest(replica.handle.look().replica(), position, digest)
}

/// Tells the number of the last entry of a session that was made; 0 where none was.
///
/// `CLOSED` where there is no open replica; then `NO_SESSION` where no open session has the number. It costs one
/// search.
#[unsafe(no_mangle)]
pub extern "C" fn pidtab_replica_last(
    replica: &mut PidtabReplica,
    session: u64,
    sequence: &mut u64,
) -> u32
    ensures reads { OnlyReads replica.old.handle.held replica.new.handle.held result (NO_SESSION ∷ []) }
    ensures told { TellsOf replica.old.handle.held (last_of session)
        sequence.old sequence.new NO_SESSION result }
{
    if !replica.is_open {
        return CLOSED;
    }
    tell_last(replica.handle.look().replica(), session, sequence)
}

/// Puts the head of a snapshot at the front of the room: what the replica knows of its log. `size` is the head's
/// length. The text of the table stands behind it in a snapshot.
///
/// `CLOSED` where there is no open replica; then `OTHER_SETTINGS` where the log has not begun; `NO_MEMORY`; `NO_ROOM`
/// where the head is longer than the room, and then too `size` is its length. It costs the sessions that are open.
#[unsafe(no_mangle)]
pub extern "C" fn pidtab_replica_write(
    alloc: Global,
    replica: &mut PidtabReplica,
    room: &mut [u8],
    size: &mut usize,
) -> u32
    ensures reads { OnlyReads replica.old.handle.held replica.new.handle.held result
        (OTHER_SETTINGS ∷ NO_ROOM ∷ NO_MEMORY ∷ []) }
    ensures text { PutsText replica.old.handle.held (λ h. head_text h.log)
        room.old room.new size.old size.new result }
    ensures good { result ≡ DONE → Has replica.old.handle.held (λ h. IsSnapshot h.log) }
    ensures not_begun { (result ≡ OTHER_SETTINGS) ↔ Has replica.old.handle.held (λ h. h.log.begun ≡ false) }
    ensures same_size { result ≡ OTHER_SETTINGS → size.new ≡ size.old }
{
    if !replica.is_open {
        return CLOSED;
    }
    match head_of(alloc, replica.handle.look().replica()) {
        Ok(text) => write_text(text.as_slice(), room, size),
        Err(status) => status,
    }
}

/// Gives the replica what the head of a snapshot at the front of the text says, in the place of all that it knows, and
/// tells how many bytes the head has. The text of the table stands behind it.
///
/// `CLOSED` where there is no open replica; then `BAD_TEXT` where the text begins with no such head; `OTHER_SETTINGS`
/// where the head is that of another log; `NO_MEMORY`. It costs the head, whatever stands behind it.
#[unsafe(no_mangle)]
pub extern "C" fn pidtab_replica_read(
    alloc: Global,
    replica: &mut PidtabReplica,
    text: &[u8],
    used: &mut usize,
) -> u32
    ensures { ReadsHeld text.now replica.old.handle.held replica.new.handle.held used.old used.new result }
{
    if !replica.is_open {
        return CLOSED;
    }
    read_head(alloc, replica.handle.lend(), text, used)
}
