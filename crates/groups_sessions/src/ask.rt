//! What `setpgid(2)` asks.

ghost use Rattle.std.specs.{Prelude.{◌≡◌}, Result.{result_err}};
ghost use Rattle.groups_sessions.specs.Setpgid.{target_refusal};

use pid_types::keys::{IdentKey, SpaceKey};
use pid_types::reply::Refusal;

/// A task that is to be put into a group.
#[derive(Clone, Copy)]
pub struct Target {
    /// The key of its identifier.
    pub ident: IdentKey,
    /// The key of the identifier that its session is named after.
    pub session: IdentKey,
    /// Whether the caller is its parent.
    pub is_child: bool,
    /// Whether it has executed a program since it was forked: `execve(2)`.
    pub executed: bool,
}

/// Who asks to put whom into which group.
#[derive(Clone, Copy)]
pub struct GroupAsk {
    /// The key of the caller's identifier.
    pub caller: IdentKey,
    /// The key of the identifier that the caller's session is named after.
    pub session: IdentKey,
    /// The key of the caller's own namespace.
    pub space: SpaceKey,
    /// The number of the group in that namespace; 0 for the target's own identifier.
    pub pgid: i32,
    /// The task that the first argument of the call names; none where it names nobody.
    pub target: Option<Target>,
}

impl GroupAsk {
    /// Whether the target may be put into any group.
    pub(crate) fn check(&self, target: &Target) -> Result<(), Refusal>
        ensures { result_err result ≡ target_refusal self.now target.now }
    {
        if target.is_child && target.session != self.session {
            return Err(Refusal::OtherSession);
        }
        if target.is_child && target.executed {
            return Err(Refusal::Executed);
        }
        if !target.is_child && target.ident != self.caller {
            return Err(Refusal::NoTask);
        }
        if target.session == target.ident {
            return Err(Refusal::IsLeader);
        }
        Ok(())
    }
}
