//! Sessions that are open.
ghost use Rattle.std.specs.Prelude.{◌≡◌, ◌==◌, OnOk, OnErr, IfOk, IsSome, IsOk, [], option_copied, ◌++◌, length};
ghost use Rattle.std.specs.Map.{lookup};
ghost use Rattle.pid_script.specs.Script.{with_newline};
ghost use Rattle.replica.specs.{Replicas.{used, without_key}, Snapshots.{MayBeOpen, session_text, sessions_text}};

use lru::LruCache;
use pid_script::list::push_field;
use std::alloc::{AllocError, Global};
use std::marker::Model;
use std::num::NonZeroUsize;

/// So many sessions are open at most.
pub(crate) const MOST_SESSIONS: usize = 4096;

/// The open sessions, each with the number of its last entry that counted. The one that was used the longest ago ends
/// where one more opens. Each method takes a time that does not depend on how many there are.
#[derive(Drop)]
pub(crate) struct Sessions {
    open: LruCache<u64, u64>,
}

impl Model for Sessions {
    ghost use Rattle.std.specs.Prelude.{List, ℕ, ◌≡◌};

    ghost Value = { List (ℕ × ℕ) };

    ghost view = { λ s. s.open.entries };

    ghost invariant = { λ s. s.open.cap ≡ 4096 };
}

/// Appends the line of a session.
fn push_session(text: &mut Vec<u8>, session: u64, last: u64) -> Result<(), AllocError>
    ensures { OnOk result (text.new.items ≡ text.old.items ++ with_newline (session_text (session, last))) }
{
    push_field(text, b"", session)?;
    push_field(text, b" ", last)?;
    text.extend_from_slice(b"\n")
}

impl Sessions {
    /// None is open. The error is want of memory.
    pub(crate) fn new(alloc: Global) -> Result<Sessions, AllocError>
        ensures { IfOk result (λ s. s ≡ []) }
    {
        let Some(most) = NonZeroUsize::new(MOST_SESSIONS) else {
            unreachable!()
        };
        Ok(Sessions {
            open: LruCache::sparse(alloc, most)?,
        })
    }

    /// The last number of a session.
    pub(crate) fn last(&self, session: u64) -> Option<u64>
        ensures { result ≡ lookup (λ s. session == s) self.now }
    {
        self.open.peek(&session).copied()
    }

    /// Gives a session its last number, and puts it before the others. The error is want of memory, for a session that
    /// is not open; nothing has changed then.
    pub(crate) fn put(&mut self, session: u64, number: u64) -> Result<(), AllocError>
        ensures ok { OnOk result (self.new ≡ used session number self.old) }
        ensures err { OnErr result (self.new ≡ self.old) }
        ensures found { IsSome (lookup (λ s. session == s) self.old) → IsOk result }
    {
        let _count = self.open.len();
        self.open.put(session, number)?;
        Ok(())
    }

    /// Ends a session, if it is open.
    pub(crate) fn end(&mut self, session: u64)
        ensures { self.new ≡ without_key session self.old }
    {
        let _count = self.open.len();
        self.open.pop(&session);
    }

    /// How many are open.
    pub(crate) fn count(&self) -> u64
        ensures { result ≡ length self.now }
    {
        self.open.len() as u64
    }

    /// Appends the line of each, first that of the one that was used the longest ago. After an `Err`, which is want of
    /// memory, the text has some of them.
    pub(crate) fn push_lines(&self, text: &mut Vec<u8>) -> Result<(), AllocError>
        ensures text { OnOk result (text.new.items ≡ text.old.items ++ sessions_text self.now) }
        ensures good { OnOk result (MayBeOpen self.now) }
    {
        let _count = self.open.len();
        let mut entries = self.open.iter();
        while let Some((session, last)) = entries.next_back() {
            push_session(text, *session, *last)?;
        }
        Ok(())
    }
}
