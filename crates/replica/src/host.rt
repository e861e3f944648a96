//! A replica with the answers to the entry that it applied last.
ghost use Rattle.std.specs.Prelude.{◌≡◌, [], IfOk, IfErr};
ghost use Rattle.replica.specs.{Applied.{IsNewLog, Refuses}, Laws.{Applies}, Replicas.{replica_of}};

use crate::outcome::{Applied, ReplicaFault};
use crate::replica::Replica;
use stamped_table::StampedTable;
use std::alloc::{AllocError, Global};
use std::marker::Model;
use std::mem;

/// A replica with the answers to the entry that it applied last.
#[derive(Drop)]
pub struct Host {
    replica: Replica,
    answers: Vec<u8>,
    // Room for the answers to the next entry: those to the last one stay where it is refused.
    spare: Vec<u8>,
}

impl Model for Host {
    ghost use Rattle.replica.specs.Log.{Hosted};

    ghost Value = { Hosted };

    ghost view = { λ h. record { log = h.replica; answers = h.answers.items } };
}

impl Host {
    /// A host whose log has not begun, with its settings. The error is want of memory.
    pub fn new(alloc: Global, pid_max: u64, model: u64) -> Result<Host, AllocError>
        ensures new { IfOk result (λ h. IsNewLog pid_max model h.log) }
        ensures answers { IfOk result (λ h. h.answers ≡ []) }
    {
        Ok(Host::of(alloc, Replica::new(alloc, pid_max, model)?))
    }

    /// A host with this replica, which has no answers yet.
    pub fn of(alloc: Global, replica: Replica) -> Host
        ensures { result ≡ record { log = replica; answers = [] } }
    {
        Host {
            replica,
            answers: Vec::new(alloc),
            spare: Vec::new(alloc),
        }
    }

    /// The replica. It costs nothing.
    pub fn replica(&self) -> &Replica
        ensures { result.now ≡ self.now.log }
    {
        &self.replica
    }

    /// The answers to the entry that was applied last, each with a newline behind it. It costs nothing.
    pub fn answers(&self) -> &[u8]
        ensures { result.now ≡ self.now.answers }
    {
        self.answers.as_slice()
    }

    /// Applies the next entry of the log to the table: [`Replica::apply`], with its errors. The answers to its calls
    /// take the place of those before.
    pub fn apply(
        &mut self,
        table: &mut StampedTable,
        position: u64,
        bytes: &[u8],
    ) -> Result<Applied, ReplicaFault>
        ensures ok { IfOk result (λ what. Applies position bytes.now (replica_of self.old.log table.old) []
            (replica_of self.new.log table.new) what self.new.answers) }
        ensures err { IfErr result (Refuses position bytes.now
            (replica_of self.old.log table.old) self.old.answers
            (replica_of self.new.log table.new) self.new.answers) }
    {
        self.spare.clear();
        let what = self.replica.apply(table, position, bytes, &mut self.spare)?;
        mem::swap(&mut self.answers, &mut self.spare);
        Ok(what)
    }
}
