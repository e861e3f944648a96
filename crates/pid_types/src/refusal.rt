//! The numbers, the errors and the words of refusals: one table, `refusal_entry` of `specs/Refusals.antt`,
//! from which both an answer's text and the value of its errno are read.
ghost use Rattle.std.specs.Prelude.{◌≡◌, ◌≤◌, length};

use crate::reply::Refusal;

/// An error of the kernel: `errno(3)`.
#[derive(Clone, Copy, Debug, PartialEq, Eq)]
pub enum Errno {
    Eperm,
    Enoent,
    Esrch,
    Echild,
    Eagain,
    Enomem,
    Eacces,
    Ebusy,
    Einval,
    Enospc,
}

impl Errno {
    ghost use Rattle.pid_types.specs.Refusals.{errno_entry};

    /// Its name, as `ESRCH`.
    pub fn name(self) -> &'static [u8]
        ensures name { result.now ≡ (errno_entry self).name }
        ensures short { length result.now ≤ 6 }
    {
        match self {
            Errno::Eperm => b"EPERM",
            Errno::Enoent => b"ENOENT",
            Errno::Esrch => b"ESRCH",
            Errno::Echild => b"ECHILD",
            Errno::Eagain => b"EAGAIN",
            Errno::Enomem => b"ENOMEM",
            Errno::Eacces => b"EACCES",
            Errno::Ebusy => b"EBUSY",
            Errno::Einval => b"EINVAL",
            Errno::Enospc => b"ENOSPC",
        }
    }

    /// Its value on x86-64.
    pub fn value(self) -> u32
        ensures { result ≡ (errno_entry self).value }
    {
        match self {
            Errno::Eperm => 1,
            Errno::Enoent => 2,
            Errno::Esrch => 3,
            Errno::Echild => 10,
            Errno::Eagain => 11,
            Errno::Enomem => 12,
            Errno::Eacces => 13,
            Errno::Ebusy => 16,
            Errno::Einval => 22,
            Errno::Enospc => 28,
        }
    }
}

impl Refusal {
    ghost use Rattle.pid_types.specs.Refusals.{errno_entry, refusal_entry};

    /// The refusal's number, from 1 to 19, which stays the same from release to release.
    pub fn number(&self) -> u8
        ensures { result ≡ (refusal_entry self.now).number }
    {
        match self {
            Refusal::NoCaller => 1,
            Refusal::NoTask => 2,
            Refusal::NoChild => 3,
            Refusal::NoNumber(_) => 4,
            Refusal::PidsLimit(_) => 5,
            Refusal::SpaceFallen => 6,
            Refusal::TooDeep => 7,
            Refusal::Elsewhere => 8,
            Refusal::BadGroup => 9,
            Refusal::OtherSession => 10,
            Refusal::IsLeader => 11,
            Refusal::NoGroup => 12,
            Refusal::Executed => 13,
            Refusal::RootInit => 14,
            Refusal::NoControl => 15,
            Refusal::ControlBusy => 16,
            Refusal::RootControl => 17,
            Refusal::BadLimit => 18,
            Refusal::ControlDepth => 19,
        }
    }

    /// The kernel's error for the refusal.
    pub fn error(&self) -> Errno
        ensures { result ≡ (refusal_entry self.now).error }
    {
        match self {
            Refusal::NoCaller | Refusal::NoTask => Errno::Esrch,
            Refusal::NoChild => Errno::Echild,
            Refusal::NoNumber(_) | Refusal::PidsLimit(_) | Refusal::ControlDepth => Errno::Eagain,
            Refusal::SpaceFallen => Errno::Enomem,
            Refusal::TooDeep => Errno::Enospc,
            Refusal::OtherSession | Refusal::IsLeader | Refusal::NoGroup => Errno::Eperm,
            Refusal::Executed => Errno::Eacces,
            Refusal::RootInit | Refusal::ControlBusy => Errno::Ebusy,
            Refusal::NoControl => Errno::Enoent,
            Refusal::Elsewhere | Refusal::BadGroup | Refusal::RootControl | Refusal::BadLimit =>
                Errno::Einval,
        }
    }

    /// The value of the kernel's error for the refusal, on x86-64.
    pub fn errno(&self) -> u32
        ensures { result ≡ (errno_entry (refusal_entry self.now).error).value }
    {
        self.error().value()
    }

    /// The word that says why, as `no-caller`.
    pub fn word(&self) -> &'static [u8]
        ensures word { result.now ≡ (refusal_entry self.now).word }
        ensures short { length result.now ≤ 13 }
    {
        match self {
            Refusal::NoCaller => b"no-caller",
            Refusal::NoTask => b"no-task",
            Refusal::NoChild => b"no-child",
            Refusal::NoNumber(_) => b"no-number",
            Refusal::PidsLimit(_) => b"pids-limit",
            Refusal::SpaceFallen => b"space-fallen",
            Refusal::TooDeep => b"too-deep",
            Refusal::Elsewhere => b"elsewhere",
            Refusal::BadGroup => b"bad-group",
            Refusal::OtherSession => b"other-session",
            Refusal::IsLeader => b"is-leader",
            Refusal::NoGroup => b"no-group",
            Refusal::Executed => b"executed",
            Refusal::RootInit => b"root-init",
            Refusal::NoControl => b"no-control",
            Refusal::ControlBusy => b"control-busy",
            Refusal::RootControl => b"root-control",
            Refusal::BadLimit => b"bad-limit",
            Refusal::ControlDepth => b"control-depth",
        }
    }
}
