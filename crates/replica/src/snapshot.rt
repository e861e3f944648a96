//! The head of a snapshot: what a replica knows of its log, as a text. The text of the table stands behind it.
//!
//! The first line has the settings, the position, the digest, how many calls were made, and how many sessions are open.
//! A line follows for each session, with the number of its last entry that counted, first that of the one that was
//! used the longest ago:
//!
//! ```text
//! pidtab-snapshot F pid_max P model M position Q digest D calls C sessions S
//! SESSION LAST
//! ```
//!
//! Numbers are decimal, below 2^64, without a leading zero, and the digest has 64 hexadecimal digits with small
//! letters. [`crate::snapshot_laws`] has that what is written is read.
ghost use Rattle.std.specs.Prelude.{◌≡◌, ◌++◌, ◌∷◌, ◌<◌, ◌==◌, ◌&&◌, ◌||◌, [], codes, length, true, IfErr, IfOk, OnOk};
ghost use Rattle.std.specs.Prelude.{Some};
ghost use Rattle.{
  hex.specs.Hex.{encode_lower},
  replica.specs.HeadReading.{IsUnread, with_session, sessions_in},
  replica.specs.Snapshots.{FailsAtHead, IsSnapshot, Restores, head_text, settings_text, state_text},
};

use crate::head::{Settings, read_session, read_settings, read_state};
use crate::kept::Kept;
use crate::replica::Replica;
use crate::sessions::{MOST_SESSIONS, Sessions};
use hex::encode;
use pid_script::list::push_field;
use std::alloc::{AllocError, Global};
use thiserror::Error;

/// Why the head of a snapshot is not read.
#[derive(Clone, Copy, Debug, PartialEq, Eq, Error)]
pub enum HeadFault {
    /// The bytes do not begin with the head of a snapshot.
    #[error("no snapshot")]
    NoSnapshot,
    /// The snapshot is of a log with other settings, or in a form that is neither 1 nor 2.
    #[error("the snapshot is of other settings")]
    OtherSettings,
    /// There was no memory.
    #[error("no memory")]
    NoMemory,
}

/// Appends the settings.
fn push_settings(text: &mut Vec<u8>, replica: &Replica) -> Result<(), AllocError>
    ensures { OnOk result (text.new.items ≡ text.old.items ++ settings_text replica.now) }
{
    push_field(text, b"pidtab-snapshot ", replica.form())?;
    push_field(text, b" pid_max ", replica.pid_max())?;
    push_field(text, b" model ", replica.model())
}

/// Appends the digest behind its label.
fn push_digest(text: &mut Vec<u8>, alloc: Global, digest: &[u8]) -> Result<(), AllocError>
    ensures { OnOk result (text.new.items ≡ text.old.items ++ (codes " digest " ++ encode_lower digest.now)) }
{
    text.extend_from_slice(b" digest ")?;
    text.extend_from_slice(encode(alloc, digest)?.as_bytes())
}

/// Appends what the first line has behind the settings.
fn push_state(text: &mut Vec<u8>, alloc: Global, replica: &Replica) -> Result<(), AllocError>
    ensures { OnOk result (text.new.items ≡ text.old.items ++ state_text replica.now) }
{
    push_field(text, b"position ", replica.position())?;
    push_digest(text, alloc, replica.digest())?;
    push_field(text, b" calls ", replica.calls())?;
    push_field(text, b" sessions ", replica.session_count())
}

/// Whether a log has these settings, in a form that is known.
fn has_settings(settings: &Settings, pid_max: u64, model: u64) -> bool
    ensures { result ≡ ((settings.now.form == 1 || settings.now.form == 2)
        && (settings.now.pid_max == pid_max && settings.now.model == model)) }
{
    (settings.form == 1 || settings.form == 2)
        && (settings.pid_max == pid_max && settings.model == model)
}

/// Opens the session of the next line, which comes before the others then, and answers what stands behind the line. The
/// error is `NoSnapshot` where no such line comes next or its session is open, and else `NoMemory`.
#[tactic(auto, unfolding(crate::specs::HeadReading::with_session))]
fn open_next<'a>(lines: &'a [u8], sessions: &mut Sessions) -> Result<&'a [u8], HeadFault>
    requires room { length sessions.old < 4096 }
    ensures ok { IfOk result (λ rest. with_session sessions.old lines.now ≡ Some (sessions.new, rest.now)) }
    ensures err { IfErr result (IsUnread (with_session sessions.old lines.now)) }
{
    let Some((session, last, rest)) = read_session(lines) else {
        return Err(HeadFault::NoSnapshot);
    };
    if sessions.last(session).is_some() {
        return Err(HeadFault::NoSnapshot);
    }
    match sessions.put(session, last) {
        Ok(()) => Ok(rest),
        Err(_) => Err(HeadFault::NoMemory),
    }
}

/// Opens the sessions of so many lines, and answers what stands behind them. The error is `NoSnapshot` where there are
/// not so many, a session stands twice or they are more than 4,096, and else `NoMemory`.
#[tactic(auto, unfolding(crate::specs::HeadReading::sessions_in))]
fn open_sessions<'a>(
    lines: &'a [u8],
    count: u64,
    sessions: &mut Sessions,
) -> Result<&'a [u8], HeadFault>
    requires none { sessions.old ≡ [] }
    ensures ok { IfOk result (λ rest. sessions_in count lines.now ≡ Some (sessions.new, rest.now)) }
    ensures err { IfErr result (IsUnread (sessions_in count lines.now)) }
{
    if count > MOST_SESSIONS as u64 {
        return Err(HeadFault::NoSnapshot);
    }
    let mut rest = lines;
    for _ in 0..count {
        rest = open_next(rest, sessions)?;
    }
    Ok(rest)
}

/// The one digest that a snapshot has, at its position. The error is want of memory.
fn kept_at(alloc: Global, position: u64, digest: [u8; 32]) -> Result<Kept, AllocError>
    ensures { IfOk result (λ kept. kept ≡ (position, digest) ∷ []) }
{
    let mut kept = Kept::new(alloc)?;
    kept.put(position, digest)?;
    Ok(kept)
}

impl Replica {
    /// Writes the head of a snapshot of the log up to the replica's position, which [`Replica::read_head`] reads if the
    /// log has begun. Two replicas that know the same of their logs write the same, whatever digests they have kept.
    /// The error is want of memory. The cost is linear in the open sessions.
    pub fn write_head(&self, alloc: Global) -> Result<Vec<u8>, AllocError>
        ensures text { IfOk result (λ text. text.items ≡ head_text self.now) }
        ensures good { OnOk result (self.now.begun ≡ true → IsSnapshot self.now) }
    {
        self.show_sizes();
        let mut text = Vec::new(alloc);
        push_settings(&mut text, self)?;
        text.extend_from_slice(b" ")?;
        push_state(&mut text, alloc, self)?;
        text.extend_from_slice(b"\n")?;
        self.sessions().push_lines(&mut text)?;
        Ok(text)
    }

    /// Reads the head of a snapshot at the front of a text, of a host with these settings. The answer is the replica of
    /// that log, and of how many bytes the head is: the text of the table stands behind them. Of the digests that the
    /// log had kept, the replica has the one at its position alone.
    ///
    /// - `NoSnapshot`: the text does not begin with the head of a snapshot. One with a number beyond 2^64 - 1 or with a
    ///   leading zero, with more than 4,096 sessions, with one that stands twice, or with fewer lines than it says is
    ///   none.
    /// - `OtherSettings`: it begins with the head of a snapshot of a log with another `pid_max` or `model`, or in a
    ///   form that is neither 1 nor 2.
    /// - `NoMemory`: there was no memory.
    ///
    /// The cost is linear in the head, whatever stands behind it. A text with no head is read up to the first space or
    /// newline behind what might begin one.
    pub fn read_head(
        alloc: Global,
        text: &[u8],
        pid_max: u64,
        model: u64,
    ) -> Result<(Replica, usize), HeadFault>
        ensures ok { IfOk result (λ r. Restores text.now pid_max model r.0 r.1) }
        ensures err { IfErr result (FailsAtHead text.now pid_max model) }
    {
        let Some((settings, rest)) = read_settings(text) else {
            return Err(HeadFault::NoSnapshot);
        };
        let Some((state, lines)) = read_state(rest) else {
            return Err(HeadFault::NoSnapshot);
        };
        let Ok(mut sessions) = Sessions::new(alloc) else {
            return Err(HeadFault::NoMemory);
        };
        let rest = open_sessions(lines, state.sessions, &mut sessions)?;
        if !has_settings(&settings, pid_max, model) {
            return Err(HeadFault::OtherSettings);
        }
        let Ok(kept) = kept_at(alloc, state.position, state.digest) else {
            return Err(HeadFault::NoMemory);
        };
        let used = text.len() - rest.len();
        Ok((Replica::restored(settings, state, sessions, kept), used))
    }
}
