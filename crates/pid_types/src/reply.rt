//! What the table answers.
ghost use Rattle.std.specs.Prelude.{◌≡◌};
ghost use Rattle.pid_types.specs.Short.{reply_of};

use crate::keys::Pid;
use crate::plain::{Ended, LEVELS};
use arrayvec::ArrayVec;
use std::alloc::AllocError;
use thiserror::Error;

/// Why a call is refused. [`Refusal::NoNumber`] holds the id of the namespace that refused it, and
/// [`Refusal::PidsLimit`] that of the control group.
#[derive(Clone, Copy, Debug, PartialEq, Eq)]
pub enum Refusal {
    /// No live task has the caller's root number.
    NoCaller,
    /// No such task, or the call is not allowed on it.
    NoTask,
    /// No child matches.
    NoChild,
    /// The namespace has no free number.
    NoNumber(u64),
    /// The control group has as many tasks as its limit allows.
    PidsLimit(u64),
    /// The namespace for the caller's children has fallen.
    SpaceFallen,
    /// A namespace below one of level 32, the deepest.
    TooDeep,
    /// A new namespace from a caller whose children go into a namespace that is not its own.
    Elsewhere,
    /// A negative process group.
    BadGroup,
    /// A child that is in another session.
    OtherSession,
    /// A session leader, or a process group leader.
    IsLeader,
    /// No such process group in the caller's session.
    NoGroup,
    /// A child that has executed.
    Executed,
    /// The exit of the root namespace's init.
    RootInit,
    /// No control group has the id.
    NoControl,
    /// A control group with live tasks or children.
    ControlBusy,
    /// The root control group, which has no limit and stays.
    RootControl,
    /// A limit above 4194304.
    BadLimit,
    /// A control group below one of level 64, the deepest.
    ControlDepth,
}

/// The reply to a call. It owns no memory.
#[derive(Clone, Debug, Drop, PartialEq, Eq)]
pub enum Reply {
    /// The new task's numbers in the caller's namespace and in the root.
    Forked { child: Pid, root: Pid },
    /// The change was made.
    Done,
    /// A process number, 0 for one that the caller cannot see.
    Number(Pid),
    /// A task's numbers from the caller's namespace inwards, outermost first.
    Levels(ArrayVec<Pid, LEVELS>),
    /// The ended child's number in the caller's namespace, and how it ended.
    Reaped { child: Pid, ended: Ended },
    /// Children match, and none has ended.
    NoneYet,
    /// How many tasks the control group and those below it have.
    Counted(u64),
    /// The new control group's id.
    Control(u64),
    /// No number follows.
    End,
    /// The call was refused, and nothing has changed.
    Refused(Refusal),
}

/// A reply that is no list of numbers: what each call but `NSpid` answers. It takes 24 bytes, where a [`Reply`] has
/// room for the numbers of 33 levels.
#[derive(Clone, Copy, Debug, PartialEq, Eq)]
pub enum ShortReply {
    /// As [`Reply::Forked`].
    Forked { child: Pid, root: Pid },
    /// As [`Reply::Done`].
    Done,
    /// As [`Reply::Number`].
    Number(Pid),
    /// As [`Reply::Reaped`].
    Reaped { child: Pid, ended: Ended },
    /// As [`Reply::NoneYet`].
    NoneYet,
    /// As [`Reply::Counted`].
    Counted(u64),
    /// As [`Reply::Control`].
    Control(u64),
    /// As [`Reply::End`].
    End,
    /// As [`Reply::Refused`].
    Refused(Refusal),
}

impl ShortReply {
    /// Writes the reply that it stands for. It costs a few writes, and no copy of the room for numbers that it lacks.
    pub fn tell(self, reply: &mut Reply)
        ensures { reply.new ≡ reply_of self }
    {
        match self {
            ShortReply::Forked { child, root } => *reply = Reply::Forked { child, root },
            ShortReply::Done => *reply = Reply::Done,
            ShortReply::Number(number) => *reply = Reply::Number(number),
            ShortReply::Reaped { child, ended } => *reply = Reply::Reaped { child, ended },
            ShortReply::NoneYet => *reply = Reply::NoneYet,
            ShortReply::Counted(count) => *reply = Reply::Counted(count),
            ShortReply::Control(id) => *reply = Reply::Control(id),
            ShortReply::End => *reply = Reply::End,
            ShortReply::Refused(refusal) => *reply = Reply::Refused(refusal),
        }
    }
}

/// Why a call has no reply. Nothing has changed, and nothing is recorded.
#[derive(Clone, Copy, Debug, PartialEq, Eq, Error)]
pub enum CallFault {
    /// There was no memory for it.
    #[error("no memory")]
    NoMemory,
    /// The stamps are used up: the call would need the stamp `u64::MAX`.
    #[error("spent")]
    Spent,
}

impl From<AllocError> for CallFault {
    ghost use Rattle.std.specs.Prelude.{◌≡◌};
    ghost use Rattle.pid_types.specs.declared.reply.CallFault.TheVariants.{NoMemory};

    ghost from_gives = { λ _ fault. fault ≡ NoMemory };

    fn from(_refused: AllocError) -> CallFault {
        CallFault::NoMemory
    }
}
