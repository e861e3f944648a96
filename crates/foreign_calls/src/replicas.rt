//! A replica of a log, which a caller holds beside its table.
ghost use Rattle.std.specs.Prelude.{◌≡◌, ◌↔◌, ◌⊎◌, [], ◌∷◌, Some, None, Err, IfOk, IfErr, OnOk, false, is_some};
ghost use Rattle.replica.specs.{Applied.{IsNewLog}, Snapshots.{IsSnapshot, head_text}};
ghost use Rattle.foreign_calls.specs.Held.{IsDoneOr, Takes};
ghost use Rattle.foreign_calls.specs.Replicas.{AppliesEntry, ReadsHead, TellsFound, digest_at, last_of};

use foreign_handles::handle::null;
use foreign_handles::loose::Loose;
use foreign_handles::replica_handle::ReplicaHandle;
use foreign_numbers::replicas::{
    AppliedNumbers, DigestBytes, status_of_entry, status_of_head, tell_applied,
};
use foreign_numbers::status::{DONE, NO_MEMORY, NO_SESSION, NOT_KEPT, OTHER_SETTINGS};
use replica::host::Host;
use replica::replica::Replica;
use stamped_table::StampedTable;
use std::alloc::{AllocError, Global};
use std::mem;

/// A replica for C, or none: zeroes are none.
#[repr(C)]
#[derive(Drop)]
pub struct PidtabReplica {
    pub handle: ReplicaHandle,
    pub is_open: bool,
    ghost linked: { is_some handle.held ≡ is_open },
}

impl PidtabReplica {
    /// What is held, which the handle has no more.
    pub fn take(&mut self, alloc: Global) -> Option<Box<Host>>
        ensures { Takes result (λ held. held.value) self.old.handle.held self.new.handle.held }
    {
        let PidtabReplica { handle, is_open } = mem::replace(
            self,
            PidtabReplica {
                handle: ReplicaHandle::empty(alloc, null()),
                is_open: false,
            },
        );
        if is_open {
            Some(handle.into_loose(alloc).into_box())
        } else {
            None
        }
    }

    /// Holds the replica.
    pub fn put(&mut self, held: Box<Host>)
        ensures { self.new.handle.held ≡ Some held.value }
    {
        *self = PidtabReplica {
            handle: ReplicaHandle::of(Loose::of(held)),
            is_open: true,
        };
    }

    /// Frees the replica, if there is one, and leaves zeroes.
    pub fn close(&mut self, alloc: Global)
        ensures { self.new.handle.held ≡ None }
    {
        let _held = self.take(alloc);
    }
}

/// A new replica on the heap, of a log that has not begun. The error is want of memory.
pub fn boxed_host(alloc: Global, pid_max: u64, model: u64) -> Result<Box<Host>, AllocError>
    ensures new { IfOk result (λ held. IsNewLog pid_max model held.value.log) }
    ensures answers { IfOk result (λ held. held.value.answers ≡ []) }
{
    let held = Host::new(alloc, pid_max, model)?;
    match Box::new(alloc, held) {
        Ok(held) => Ok(held),
        Err(_) => Err(AllocError),
    }
}

/// Applies the next entry of a log to a replica and its table, and tells what became of it. The result is the status.
pub fn apply_entry(
    host: &mut Host,
    table: &mut StampedTable,
    position: u64,
    entry: &[u8],
    applied: &mut AppliedNumbers,
) -> u32
    ensures { AppliesEntry position entry.now host.old table.old host.new table.new applied.old applied.new result }
{
    match host.apply(table, position, entry) {
        Ok(what) => {
            *applied = tell_applied(&what, host.answers().len());
            DONE
        }
        Err(fault) => status_of_entry(fault),
    }
}

/// Tells the digest behind the entry at the position, if it is kept. The result is the status.
pub fn tell_digest(replica: &Replica, position: u64, digest: &mut DigestBytes) -> u32
    ensures told { TellsFound (digest_at position replica.now) digest.old.bytes digest.new.bytes NOT_KEPT result }
    ensures statuses { IsDoneOr result (NOT_KEPT ∷ []) }
{
    let Some(bytes) = replica.digest_at(position) else {
        return NOT_KEPT;
    };
    digest.bytes = bytes;
    DONE
}

/// Tells the last number of a session, if it is open. The result is the status.
pub fn tell_last(replica: &Replica, session: u64, sequence: &mut u64) -> u32
    ensures told { TellsFound (last_of session replica.now) sequence.old sequence.new NO_SESSION result }
    ensures statuses { IsDoneOr result (NO_SESSION ∷ []) }
{
    let Some(last) = replica.last_of(session) else {
        return NO_SESSION;
    };
    *sequence = last;
    DONE
}

/// The head of a snapshot of the log, if that has begun. The error is the status.
pub fn head_of(alloc: Global, replica: &Replica) -> Result<Vec<u8>, u32>
    ensures text { IfOk result (λ text. text.items ≡ head_text replica.now) }
    ensures good { OnOk result (IsSnapshot replica.now) }
    ensures not_begun { (result ≡ Err OTHER_SETTINGS) ↔ (replica.now.begun ≡ false) }
    ensures err { IfErr result (λ status. (status ≡ OTHER_SETTINGS) ⊎ (status ≡ NO_MEMORY)) }
{
    if !replica.is_begun() {
        return Err(OTHER_SETTINGS);
    }
    match replica.write_head(alloc) {
        Ok(text) => Ok(text),
        Err(_) => Err(NO_MEMORY),
    }
}

/// Gives a replica what the head of a snapshot at the front of a text says, in the place of all that it knows. The
/// result is the status.
pub fn read_head(alloc: Global, host: &mut Host, text: &[u8], used: &mut usize) -> u32
    ensures { ReadsHead text.now host.old host.new used.old used.new result }
{
    let settings = host.replica();
    match Replica::read_head(alloc, text, settings.pid_max(), settings.model()) {
        Ok((replica, length)) => {
            *host = Host::of(alloc, replica);
            *used = length;
            DONE
        }
        Err(fault) => status_of_head(fault),
    }
}
