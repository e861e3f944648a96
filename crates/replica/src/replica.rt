//! What a host knows of a log, and how an entry is applied.
ghost use Rattle.std.specs.Prelude.{◌≡◌, ◌++◌, ◌==◌, Err, true, IfOk, IfErr, OnOk, OnErr, IsSome, if◌then◌else◌, ◌∷◌};
ghost use Rattle.std.specs.{Prelude.{[], length}, Map.{lookup}};
ghost use Rattle.{
  sha2.specs.Sha256.{sha256},
  replica.specs.{Entries.{IsWord64, entry_text}, Reading.{lines_in}, Told.{told_entry}, Replicas.{answers_to, called}},
  replica.specs.Replicas.{checked, made, made_answers, may_come, outcome_of, replica_of, sequence_of, session_in_entry},
  replica.specs.{Replicas.{used, MakesFront}, Applied.{Enters, IsNewLog, StopsApplying, Refuses}, Laws.{Applies}},
  replica.specs.{HeadReading.{log_of, words_of_settings, words_of_state}, Snapshots.{IsSized}},
  hex.specs.Hex.{IsBytes},
};

use crate::entry::Entry;
use crate::head::{Settings, State};
use crate::kept::{Kept, judge};
use crate::lines::digest_behind;
use crate::outcome::{Applied, Outcome, ReplicaFault};
use crate::read::read_entry;
use crate::sessions::Sessions;
use crate::words::count_lines;
use sha2::{Digest, Sha256};
use stamped_table::StampedTable;
use std::alloc::{AllocError, Global};
use std::marker::Model;

/// What a host knows of a log: its settings, the position of the last entry, the open sessions, and the digest of all
/// answers. The table stands beside it, and changes by [`Replica::apply`] alone.
#[derive(Drop)]
pub struct Replica {
    form: u64,
    pid_max: u64,
    model: u64,
    begun: bool,
    position: u64,
    sessions: Sessions,
    digest: [u8; 32],
    kept: Kept,
    calls: u64,
    torn: bool,
}

impl Model for Replica {
    ghost use Rattle.replica.specs.Log.{Log};

    ghost Value = { Log };

    ghost view = { λ r. record {
      form = r.form;
      pid_max = r.pid_max;
      model = r.model;
      begun = r.begun;
      position = r.position;
      sessions = r.sessions;
      digest = r.digest;
      kept = r.kept;
      calls = r.calls;
      torn = r.torn;
    } };
}

/// What becomes of the entry with a number, behind the last one of its session.
fn outcome_behind(last: Option<u64>, sequence: u64) -> Outcome
    ensures { result ≡ outcome_of last sequence }
{
    let Some(last) = last else {
        return Outcome::Gone;
    };
    if sequence <= last {
        return Outcome::Repeated;
    }
    if sequence - last == 1 {
        return Outcome::Made;
    }
    Outcome::Gap
}

/// What is said of an entry, by its outcome.
fn applied_of(entry: &Entry, outcome: Outcome) -> Applied
    ensures { result ≡ record {
      outcome = outcome;
      session = session_in_entry (told_entry entry.now);
      sequence = sequence_of (told_entry entry.now);
    } }
{
    match *entry {
        Entry::Calls {
            session,
            sequence,
            ..
        } => Applied {
            outcome,
            session,
            sequence,
        },
        Entry::Settings { .. } => noted(outcome),
        Entry::Opened => noted(outcome),
        Entry::Ended { .. } => noted(outcome),
        Entry::Wanted => noted(outcome),
        Entry::Announced { .. } => noted(outcome),
    }
}

/// What is said of an entry without calls.
fn noted(outcome: Outcome) -> Applied
    ensures { result ≡ record { outcome = outcome; session = 0; sequence = 0 } }
{
    Applied {
        outcome,
        session: 0,
        sequence: 0,
    }
}

impl Replica {
    /// A replica of a log that has not begun, with the settings of this host. The error is want of memory.
    pub fn new(alloc: Global, pid_max: u64, model: u64) -> Result<Replica, AllocError>
        ensures { IfOk result (λ r. IsNewLog pid_max model r) }
    {
        Ok(Replica {
            form: 0,
            pid_max,
            model,
            begun: false,
            position: 0,
            sessions: Sessions::new(alloc)?,
            digest: [0; 32],
            kept: Kept::new(alloc)?,
            calls: 0,
            torn: false,
        })
    }

    /// The position of the last entry that was applied; 0 before the first.
    pub fn position(&self) -> u64
        ensures { result ≡ self.now.position }
    {
        self.position
    }

    /// The digest of the settings, and of all lines and answers since. It has 32 bytes, and means nothing before the
    /// log has begun.
    pub fn digest(&self) -> &[u8]
        ensures { result.now ≡ self.now.digest }
    {
        &self.digest
    }

    /// The form of the log's settings: 1 or 2, and 0 before the log has begun.
    pub fn form(&self) -> u64
        ensures { result ≡ self.now.form }
    {
        self.form
    }

    /// The bound of all numbers of the table.
    pub fn pid_max(&self) -> u64
        ensures { result ≡ self.now.pid_max }
    {
        self.pid_max
    }

    /// The model by which lines are answered.
    pub fn model(&self) -> u64
        ensures { result ≡ self.now.model }
    {
        self.model
    }

    /// Whether the log has its settings.
    pub fn is_begun(&self) -> bool
        ensures { result ≡ self.now.begun }
    {
        self.begun
    }

    /// Whether there was no memory amid an entry, after which each entry is `Torn`.
    pub fn is_torn(&self) -> bool
        ensures { result ≡ self.now.torn }
    {
        self.torn
    }

    /// The digest behind the entry at the position, if that is one of the last 4,096. It takes the same time for each.
    pub fn digest_at(&self, position: u64) -> Option<[u8; 32]>
        ensures { result ≡ lookup (λ p. position == p) self.now.kept }
    {
        self.kept.find(position)
    }

    /// How many lines were made, up to 2^64 - 1.
    pub fn calls(&self) -> u64
        ensures { result ≡ self.now.calls }
    {
        self.calls
    }

    /// The last number of a session that is open. It does not depend on how many are open.
    pub fn last_of(&self, session: u64) -> Option<u64>
        ensures { result ≡ lookup (λ s. session == s) self.now.sessions }
    {
        self.sessions.last(session)
    }

    /// Whether the entry may come next.
    fn admits(&self, entry: &Entry) -> bool
        ensures { result ≡ may_come self.now (told_entry entry.now) }
    {
        match *entry {
            Entry::Settings {
                form,
                pid_max,
                model,
            } => {
                self.begun
                    || ((form == 1 || form == 2)
                        && (pid_max == self.pid_max && model == self.model))
            }
            Entry::Wanted => self.begun && self.form != 1,
            Entry::Announced { .. } => self.begun && self.form != 1,
            Entry::Opened => self.begun,
            Entry::Ended { .. } => self.begun,
            Entry::Calls { .. } => self.begun,
        }
    }

    /// Compares the digest that the writer of the entry had with the one here. The error is `Missing` or `Diverged`.
    fn check(&self, entry: &Entry) -> Result<(), ReplicaFault>
        ensures { result ≡ checked self.now (told_entry entry.now) }
    {
        match *entry {
            Entry::Calls {
                position,
                digest,
                ..
            } => judge(
                self.kept.find(position),
                self.kept.is_before(position),
                digest,
            ),
            Entry::Announced {
                position,
                digest,
                ..
            } => judge(self.kept.find(position), true, digest),
            Entry::Settings { .. } => Ok(()),
            Entry::Opened => Ok(()),
            Entry::Ended { .. } => Ok(()),
            Entry::Wanted => Ok(()),
        }
    }

    /// Keeps the digest behind the entry at the position, which is the last one then. The error is `Torn`.
    fn keep(&mut self, position: u64) -> Result<(), ReplicaFault>
        ensures ok { OnOk result (self.new
            ≡ record self.old { position = position; kept = used position self.old.digest self.old.kept }) }
        ensures fault { IfErr result (λ fault. fault ≡ ReplicaFault.Torn) }
        ensures torn { OnErr result (self.new.torn ≡ true) }
    {
        if self.kept.put(position, self.digest).is_err() {
            self.torn = true;
            return Err(ReplicaFault::Torn);
        }
        self.position = position;
        Ok(())
    }

    /// Takes settings. Where the log has begun, they mean nothing.
    fn begin(&mut self, form: u64, bytes: &[u8])
        ensures { self.new ≡ (if self.old.begun then self.old
            else record self.old { begun = true; form = form; digest = sha256 bytes.now }) }
    {
        if self.begun {
            return;
        }
        self.begun = true;
        self.form = form;
        self.digest = Sha256::digest(bytes);
    }

    /// Makes calls of a session that is open. The error is want of memory, after which the replica is torn.
    fn make(
        &mut self,
        table: &mut StampedTable,
        session: u64,
        sequence: u64,
        lines: &[u8],
        answers: &mut Vec<u8>,
    ) -> Result<(), AllocError>
        requires { IsSome (lookup (λ s. session == s) self.old.sessions) }
        ensures made { OnOk result (replica_of self.new table.new
            ≡ made (replica_of self.old table.old)
            session sequence (lines_in lines.now)) }
        ensures answers { OnOk result (answers.new.items ≡ answers.old.items
            ++ answers_to (replica_of self.old table.old).table (lines_in lines.now)) }
        ensures torn { OnErr result (self.new.torn ≡ true) }
        ensures front { OnErr result (MakesFront (lines_in lines.now) table.old table.new) }
    {
        let Ok(digest) = digest_behind(table, answers, &self.digest, lines) else {
            self.torn = true;
            return Err(AllocError);
        };
        if self.sessions.put(session, sequence).is_err() {
            unreachable!()
        }
        self.digest = digest;
        self.calls = self.calls.saturating_add(count_lines(lines) as u64);
        Ok(())
    }

    /// Makes the calls of an entry, if it is the next of its session. The error is `Torn`.
    fn call(
        &mut self,
        table: &mut StampedTable,
        session: u64,
        sequence: u64,
        lines: &[u8],
        answers: &mut Vec<u8>,
    ) -> Result<Outcome, ReplicaFault>
        ensures outcome { IfOk result (λ what.
            what ≡ outcome_of (lookup (λ s. session == s) self.old.sessions) sequence) }
        ensures called { IfOk result (λ what. replica_of self.new table.new
            ≡ called (replica_of self.old table.old)
            session sequence (lines_in lines.now) what) }
        ensures answers { IfOk result (λ what. answers.new.items ≡ answers.old.items
            ++ made_answers (replica_of self.old table.old) (lines_in lines.now) what) }
        ensures fault { IfErr result (λ fault. fault ≡ ReplicaFault.Torn) }
        ensures torn { OnErr result (self.new.torn ≡ true) }
        ensures front { OnErr result (MakesFront (lines_in lines.now) table.old table.new) }
    {
        let outcome = outcome_behind(self.sessions.last(session), sequence);
        if outcome != Outcome::Made {
            return Ok(outcome);
        }
        match self.make(table, session, sequence, lines, answers) {
            Ok(()) => Ok(Outcome::Made),
            Err(_) => Err(ReplicaFault::Torn),
        }
    }

    /// Opens the session whose number is the position. The error is `NoMemory`.
    fn open(&mut self, position: u64) -> Result<Outcome, ReplicaFault>
        ensures ok { IfOk result (λ what. (what ≡ Outcome.Noted)
            × (self.new ≡ record self.old { sessions = used position 0 self.old.sessions })) }
        ensures err { IfErr result (λ fault. (fault ≡ ReplicaFault.NoMemory) × (self.new ≡ self.old)) }
    {
        match self.sessions.put(position, 0) {
            Ok(()) => Ok(Outcome::Noted),
            Err(_) => Err(ReplicaFault::NoMemory),
        }
    }

    /// Does what the entry says. The error is want of memory: `NoMemory` or `Torn`.
    fn enter(
        &mut self,
        table: &mut StampedTable,
        position: u64,
        entry: &Entry,
        bytes: &[u8],
        answers: &mut Vec<u8>,
    ) -> Result<Outcome, ReplicaFault>
        requires { bytes.now ≡ entry_text (told_entry entry.now) }
        ensures ok { IfOk result (λ what. Enters (told_entry entry.now) position
            (replica_of self.old table.old) answers.old.items
            (replica_of self.new table.new) what answers.new.items) }
        ensures err { IfErr result (StopsApplying (told_entry entry.now)
            (replica_of self.old table.old) answers.old.items
            (replica_of self.new table.new) answers.new.items) }
    {
        match *entry {
            Entry::Settings { form, .. } => {
                self.begin(form, bytes);
                Ok(Outcome::Noted)
            }
            Entry::Opened => self.open(position),
            Entry::Ended { session } => {
                self.sessions.end(session);
                Ok(Outcome::Noted)
            }
            Entry::Calls {
                session,
                sequence,
                lines,
                ..
            } => self.call(table, session, sequence, lines, answers),
            Entry::Wanted => Ok(Outcome::Noted),
            Entry::Announced { .. } => Ok(Outcome::Noted),
        }
    }

    /// Applies the next entry of the log to the table, and appends the answers of its calls, each with a newline behind
    /// it. The result says what became of the entry.
    ///
    /// The calls of an entry are made if its session is open and its number is one more than that of the session's last
    /// entry that was made. They are made in order, and a line that is none of the script language, or has more than
    /// 200 bytes, is answered `bad line`. A call is answered `spent` where the table has no stamp left.
    ///
    /// The faults are looked for in this order, but for want of memory. Each but `Torn` says that nothing has changed.
    ///
    /// - `Torn`: there was no memory amid the calls of this entry or for its digest, or for those of an entry before.
    ///   Some of this entry's calls may be made then, from the first on; of a later entry none is. The table and the
    ///   replica have to be made anew from the log.
    /// - `NotRising`: the position is not behind that of the last entry.
    /// - `NoEntry`: the bytes are the text of no entry.
    /// - `OtherSettings`: the first entry is not the settings of this replica in form 1 or 2, or a log of form 1 has an
    ///   entry of snapshots.
    /// - `Missing`: the writer of calls had a digest at a position that is not before the oldest of the 4,096 that are
    ///   kept, and has no entry here.
    /// - `Diverged`: the writer of calls or of a snapshot had another digest than this replica at the same position.
    /// - `NoMemory`: there was no memory for a session. The entry may be applied again.
    ///
    /// It costs the time to read the entry, and to make each call. How many sessions are open does not matter.
    pub fn apply(
        &mut self,
        table: &mut StampedTable,
        position: u64,
        bytes: &[u8],
        answers: &mut Vec<u8>,
    ) -> Result<Applied, ReplicaFault>
        ensures ok { IfOk result (λ what. Applies position bytes.now
            (replica_of self.old table.old) answers.old.items
            (replica_of self.new table.new) what answers.new.items) }
        ensures err { IfErr result (Refuses position bytes.now
            (replica_of self.old table.old) answers.old.items
            (replica_of self.new table.new) answers.new.items) }
        ensures torn { self.old.torn ≡ true → result ≡ Err ReplicaFault.Torn }
    {
        if self.torn {
            return Err(ReplicaFault::Torn);
        }
        if position <= self.position {
            return Err(ReplicaFault::NotRising);
        }
        let Ok(entry) = read_entry(bytes) else {
            return Err(ReplicaFault::NoEntry);
        };
        if !self.admits(&entry) {
            return Err(ReplicaFault::OtherSettings);
        }
        if let Err(fault) = self.check(&entry) {
            return Err(fault);
        }
        let outcome = self.enter(table, position, &entry, bytes, answers)?;
        self.keep(position)?;
        Ok(applied_of(&entry, outcome))
    }
}

/// The numbers have 64 bits, and the digest has 32 bytes.
fn show_types(form: u64, pid_max: u64, model: u64, position: u64, digest: [u8; 32], calls: u64)
    ensures form { IsWord64 form }
    ensures pid_max { IsWord64 pid_max }
    ensures model { IsWord64 model }
    ensures position { IsWord64 position }
    ensures digest { length digest ≡ 32 }
    ensures bytes { IsBytes digest }
    ensures calls { IsWord64 calls }
{}

// What a snapshot has of a replica.
impl Replica {
    /// The open sessions.
    pub(crate) fn sessions(&self) -> &Sessions
        ensures { result.now ≡ self.now.sessions }
    {
        &self.sessions
    }

    /// How many sessions are open.
    pub(crate) fn session_count(&self) -> u64
        ensures { result ≡ length self.now.sessions }
    {
        self.sessions.count()
    }

    /// Its numbers have 64 bits, and its digest has 32 bytes.
    pub(crate) fn show_sizes(&self)
        ensures { IsSized self.now }
    {
        let digest = self.digest;
        show_types(
            self.form,
            self.pid_max,
            self.model,
            self.position,
            digest,
            self.calls,
        );
    }

    /// A replica of the log that a snapshot has, whose digest is kept.
    pub(crate) fn restored(
        settings: Settings,
        state: State,
        sessions: Sessions,
        kept: Kept,
    ) -> Replica
        requires { kept ≡ (state.position, state.digest) ∷ [] }
        ensures { result ≡ log_of (words_of_settings settings) (words_of_state state) sessions }
    {
        let digest = state.digest;
        Replica {
            form: settings.form,
            pid_max: settings.pid_max,
            model: settings.model,
            begun: true,
            position: state.position,
            sessions,
            digest,
            kept,
            calls: state.calls,
            torn: false,
        }
    }
}
