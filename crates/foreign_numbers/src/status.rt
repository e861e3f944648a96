//! The statuses that C sees. They are numbers of Linux's errno, and 0.
ghost use Rattle.std.specs.Prelude.{◌≡◌};
ghost use Rattle.pid_types.specs.declared.reply.CallFault.TheVariants.{NoMemory, Spent};

use pid_types::reply::CallFault;

// Written by tools/interface: statuses.
/// Done.
pub const DONE: u32 = 0;

/// `ENOENT`: the entry was cut away, or is not reached yet.
pub const NOT_KEPT: u32 = 2;

/// `ESRCH`: no open session has the number.
pub const NO_SESSION: u32 = 3;

/// `ENOEXEC`: the bytes are no saved history.
pub const NOT_SAVED: u32 = 8;

/// `EBADF`: there is no open table.
pub const CLOSED: u32 = 9;

/// `EAGAIN`: another number of calls was recorded by now.
pub const AGAIN: u32 = 11;

/// `ENOMEM`: there is no memory.
pub const NO_MEMORY: u32 = 12;

/// `EBUSY`: another thread's call works on the table; or an open finds it open.
pub const BUSY: u32 = 16;

/// `EINVAL`: pid_max, or what a call takes.
pub const OUT_OF_RANGE: u32 = 22;

/// `ERANGE`: size says what is needed.
pub const NO_ROOM: u32 = 34;

/// `ENOLCK`: the table was opened without threads.
pub const NO_THREADS: u32 = 37;

/// `ENOMSG`: the bytes end before the head, or the entry, does.
pub const TORN: u32 = 42;

/// `EBADR`: the bytes are no entry of a log.
pub const NO_ENTRY: u32 = 53;

/// `ENODATA`: a line of 0 bytes has no answer.
pub const EMPTY_LINE: u32 = 61;

/// `ENOLINK`: the writer of the entry had an entry that the log has no more.
pub const MISSING: u32 = 67;

/// `EPROTO`: the line is none of the script language.
pub const BAD_LINE: u32 = 71;

/// `EBADMSG`: a reply is not the given one.
pub const DIFFERS: u32 = 74;

/// `EOVERFLOW`: after 2^64 - 2 calls.
pub const SPENT: u32 = 75;

/// `EREMCHG`: the writer of the entry has answered the same calls otherwise.
pub const DIVERGED: u32 = 78;

/// `EILSEQ`: a byte is not the one that was written.
pub const WRONG_BYTE: u32 = 84;

/// `ENOPROTOOPT`: the log has other settings than the replica, or another form.
pub const OTHER_SETTINGS: u32 = 92;

/// `EPROTONOSUPPORT`: the form is of a version that this library does not know.
pub const OTHER_VERSION: u32 = 93;

/// `EOPNOTSUPP`: the table keeps no history.
pub const NO_HISTORY: u32 = 95;

/// `ESTALE`: the position is not behind that of the last entry.
pub const NOT_RISING: u32 = 116;

/// `EUCLEAN`: the text is that of no table; the fault says why.
pub const BAD_TEXT: u32 = 117;

/// `ENOTRECOVERABLE`: there was no memory amid an entry, so the table is not that of the log any more.
pub const NOT_RECOVERABLE: u32 = 131;
// The end of statuses.

/// The status of a call that is not made. Few are not, so the compiler lays out the way of the others first.
#[cold]
#[inline(never)]
pub fn unmade(status: u32) -> u32
    ensures { result ≡ status }
{
    status
}

/// The status of a call that has no reply.
#[cold]
#[inline(never)]
pub fn status_of(fault: CallFault) -> u32
    ensures no_memory { fault ≡ NoMemory → result ≡ NO_MEMORY }
    ensures spent { fault ≡ Spent → result ≡ SPENT }
{
    match fault {
        CallFault::NoMemory => NO_MEMORY,
        CallFault::Spent => SPENT,
    }
}
