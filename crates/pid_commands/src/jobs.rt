//! Job files: opened and read to their end, before any worker starts.
ghost use Rattle.std.specs.Prelude.{IfOk, IfErr};
ghost use Rattle.pid_commands.specs.Commands.{AreRead, FailsToRead, FailsToReadFile, IsReadFrom};

use crate::fault::Fault;
use pid_types::call::Call;
use pid_types::device::FromReader;
use pid_workers::JobFiles;
use script_session::job::read_job;
use std::alloc::Global;
use std::io::Read;
use std::rt::Files;
use std::{fs, io};

/// What opens files to be read, by their names. What is generic over it opens each by its own name.
pub(crate) trait Opens {
    type File: Read + Drop;

    ghost use Rattle.std.specs.Prelude.{IfOk, List, Option, ℕ};

    // What this name opens has these bytes, as far as they are known.
    ghost holds: { Self → List ℕ → Option (List ℕ) → Type 0 };

    /// Opens the file of the name, to be read.
    fn open(&self, name: &str) -> io::Result<Self::File>
        ensures { IfOk result (λ file. holds self.now name.now (Self.File.remaining file)) };
}

/// Of a name std says no more than that a file is opened.
impl<R: Files> Opens for R {
    type File = R::File;

    ghost use Rattle.pid_commands.specs.Commands.{IsSomeFile};

    ghost holds = { λ _ _. IsSomeFile R.File.remaining };

    fn open(&self, name: &str) -> io::Result<R::File> {
        fs::open(self, name)
    }
}

/// Reads the job files in the order given, each to its end. The first fault ends it, and no later
/// file is opened.
pub(crate) fn read_jobs<D: Opens>(
    alloc: Global,
    disk: &D,
    files: JobFiles,
) -> Result<Vec<Vec<Call>>, Fault>
    ensures jobs { IfOk result (λ jobs. AreRead (D.holds disk.now) files.names.items jobs.items) }
    ensures fault { IfErr result (FailsToRead (D.holds disk.now) files.names.items) }
{
    let names = files.into_names();
    let mut jobs = Vec::with_capacity(alloc, names.len())?;
    for name in names {
        jobs.push_reserved(read_file(alloc, disk, name)?);
    }
    Ok(jobs)
}

/// Reads the job of one file. A file that cannot be opened is as one that cannot be read.
fn read_file<D: Opens>(alloc: Global, disk: &D, name: String) -> Result<Vec<Call>, Fault>
    ensures job { IfOk result (IsReadFrom (D.holds disk.now) name) }
    ensures fault { IfErr result (FailsToReadFile (D.holds disk.now) name) }
{
    let Ok(file) = disk.open(name.as_str()) else {
        return Err(Fault::Unreadable(name));
    };
    match read_job(alloc, &mut FromReader::new(file)) {
        Ok(calls) => Ok(calls),
        Err(fault) => Err(Fault::in_job(name, fault)),
    }
}
