//! What a command says of a fault.
ghost use Rattle.std.specs.{Prelude.{◌≡◌, ◌++◌, decimal, IfErr, OnErr, OnOk}, Io.KnownBytes.{Appends}};
ghost use Rattle.{pid_script.specs.Script.{with_newline}, script_session.specs.Progress.{HasStopped}};
ghost use Rattle.pid_commands.specs.Faults.{fault_line, of_job};

use itoa::Buffer;
use pid_types::device::Sink;
use pid_workers::RunFault;
use script_session::job::JobFault;
use script_session::outbox::write_all;
use script_session::tally::RunScriptFault;
use std::alloc::AllocError;

/// Why a command stopped. Its text is the line that the program writes on standard error, without the
/// newline.
#[derive(Debug, Drop)]
pub enum Fault {
    /// The job file cannot be opened, or a read of it failed.
    Unreadable(String),
    /// The job file has more than [`script_session::job::MOST_JOB_BYTES`] bytes.
    TooLong(String),
    /// The line of the job file, counted from 1, is bad.
    BadLine(String, u64),
    /// A read of the script failed.
    Read,
    /// A write of the output failed.
    Write,
    /// The script took more than [`pid_workers::MOST_READS`] reads.
    TooManyTurns,
    /// There was no memory for the words, the table, the jobs, the threads or the output.
    NoMemory,
    /// A worker's thread could not be started.
    Start,
    /// The receipts of the worker and the history differ at the place, both counted from 0.
    Audit { worker: usize, place: usize },
}

impl Fault {
    /// The fault of the job file with the name.
    pub(crate) fn in_job(file: String, fault: JobFault) -> Fault
        ensures { result ≡ of_job file fault }
    {
        match fault {
            JobFault::Read => Fault::Unreadable(file),
            JobFault::TooLong => Fault::TooLong(file),
            JobFault::BadLine(line) => Fault::BadLine(file, line),
            JobFault::NoMemory => Fault::NoMemory,
        }
    }
}

impl From<AllocError> for Fault {
    ghost use Rattle.std.specs.Prelude.{◌≡◌};
    ghost use Rattle.pid_commands.specs.declared.fault.Fault.TheVariants.{NoMemory};

    ghost from_gives = { λ _ given. given ≡ NoMemory };

    fn from(_error: AllocError) -> Fault {
        Fault::NoMemory
    }
}

impl From<RunScriptFault> for Fault {
    ghost use Rattle.std.specs.Prelude.{◌≡◌};
    ghost use Rattle.pid_commands.specs.Faults.{of_script};

    ghost from_gives = { λ fault given. given ≡ of_script fault };

    fn from(fault: RunScriptFault) -> Fault {
        match fault {
            RunScriptFault::NoMemory => Fault::NoMemory,
            RunScriptFault::Read => Fault::Read,
            RunScriptFault::Write => Fault::Write,
            RunScriptFault::TooManyTurns => Fault::TooManyTurns,
        }
    }
}

impl From<RunFault> for Fault {
    ghost use Rattle.std.specs.Prelude.{◌≡◌};
    ghost use Rattle.pid_commands.specs.Faults.{of_run};

    ghost from_gives = { λ fault given. given ≡ of_run fault };

    fn from(fault: RunFault) -> Fault {
        match fault {
            RunFault::Start => Fault::Start,
            RunFault::NoMemory => Fault::NoMemory,
            RunFault::Audit { worker, place } => Fault::Audit { worker, place },
        }
    }
}

/// Writes all of the bytes. The error is [`Fault::Write`].
pub(crate) fn put<K: Sink>(sink: &mut K, bytes: &[u8]) -> Result<(), Fault>
    ensures ok { OnOk result (Appends (K.contents sink.old) (K.contents sink.new) bytes.now) }
    ensures fault { IfErr result (λ fault. fault ≡ Fault.Write) }
    ensures stopped { OnErr result (HasStopped (K.has_failed sink.new) (K.is_full sink.new)) }
{
    match write_all(sink, bytes) {
        Ok(()) => Ok(()),
        Err(_) => Err(Fault::Write),
    }
}

/// Writes a number in decimal. The error is [`Fault::Write`].
fn put_number<K: Sink>(sink: &mut K, number: u64) -> Result<(), Fault>
    ensures ok { OnOk result (Appends (K.contents sink.old) (K.contents sink.new) (decimal number)) }
    ensures stopped { OnErr result (HasStopped (K.has_failed sink.new) (K.is_full sink.new)) }
{
    let mut buffer = Buffer::new();
    put(sink, buffer.format(number).as_bytes())
}

/// Writes what is before the file's name, the name, and what follows it. The error is [`Fault::Write`].
fn put_named<K: Sink>(sink: &mut K, front: &[u8], file: &str, end: &[u8]) -> Result<(), Fault>
    ensures ok { OnOk result (Appends (K.contents sink.old) (K.contents sink.new)
        (front.now ++ (file.now ++ end.now))) }
    ensures stopped { OnErr result (HasStopped (K.has_failed sink.new) (K.is_full sink.new)) }
{
    put(sink, front)?;
    put(sink, file.as_bytes())?;
    put(sink, end)
}

/// Writes what is before a number, the number, and what follows it. The error is [`Fault::Write`].
fn put_counted<K: Sink>(sink: &mut K, front: &[u8], number: u64, end: &[u8]) -> Result<(), Fault>
    ensures ok { OnOk result (Appends (K.contents sink.old) (K.contents sink.new)
        (front.now ++ (decimal number ++ end.now))) }
    ensures stopped { OnErr result (HasStopped (K.has_failed sink.new) (K.is_full sink.new)) }
{
    put(sink, front)?;
    put_number(sink, number)?;
    put(sink, end)
}

/// Writes the line of the fault and its newline. It takes no memory. The error is [`Fault::Write`].
pub fn write_fault_line<K: Sink>(sink: &mut K, fault: &Fault) -> Result<(), Fault>
    ensures ok { OnOk result (Appends (K.contents sink.old) (K.contents sink.new)
        (with_newline (fault_line fault.now))) }
    ensures stopped { OnErr result (HasStopped (K.has_failed sink.new) (K.is_full sink.new)) }
{
    match fault {
        Fault::Unreadable(file) => put_named(sink, b"pidtab: cannot read ", file.as_str(), b"\n"),
        Fault::TooLong(file) => put_named(sink, b"pidtab: ", file.as_str(), b": too long\n"),
        Fault::BadLine(file, line) => {
            put_named(sink, b"pidtab: ", file.as_str(), b": line ")?;
            put_counted(sink, b"", *line, b": bad line\n")
        }
        Fault::Read => put(sink, b"pidtab: read fault\n"),
        Fault::Write => put(sink, b"pidtab: write fault\n"),
        Fault::TooManyTurns => put(sink, b"pidtab: too many turns\n"),
        Fault::NoMemory => put(sink, b"pidtab: no memory\n"),
        Fault::Start => put(sink, b"pidtab: cannot start a thread\n"),
        Fault::Audit { worker, place } => {
            put_counted(sink, b"pidtab: audit ", *worker as u64, b" ")?;
            put_counted(sink, b"", *place as u64, b"\n")
        }
    }
}
