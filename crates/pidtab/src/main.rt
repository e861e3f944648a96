//! The program: `pidtab run` answers a script from standard input on a process table of its own, `pidtab list` lists
//! the table that the script leaves, and `pidtab work` runs a worker for each of some job files on one
//! table that they share.
#![tactic(auto)]

use pid_commands::{
    Command, Fault, PatientWriter, Status, WordsFault, run_answer, say_fault, say_usage,
};
use pid_types::device::{FromReader, ToWriter};
use pid_words::read_words;
use std::io::ErrorKind;
use std::process::ExitCode;
use std::rt::Env;
use std::{env, io};

fn main(rt: HostRuntime) -> ExitCode {
    let mut stderr = rt.stderr();
    let mut patient = PatientWriter::new(&mut stderr);
    let mut errors = ToWriter::new(&mut patient);
    let words = match given_words(&rt) {
        Ok(words) => words,
        Err(WordsFault::Usage) => return exit_code(say_usage(&mut errors)),
        Err(WordsFault::NoMemory) => return exit_code(say_fault(&mut errors, &Fault::NoMemory)),
    };
    let answer = read_words(rt.alloc(), words.as_slice());
    let mut source = FromReader::new(rt.reader());
    // What prints holds no byte back, so nothing is to be flushed.
    let mut stdout = io::writer(&rt);
    // To `run` an interrupted write is a fault, as an interrupted read is.
    let status = if matches!(answer, Ok(Command::Run(_))) {
        let mut sink = ToWriter::new(&mut stdout);
        run_answer(&rt, answer, &mut source, &mut sink, &mut errors)
    } else {
        let mut patient = PatientWriter::new(&mut stdout);
        let mut sink = ToWriter::new(&mut patient);
        run_answer(&rt, answer, &mut source, &mut sink, &mut errors)
    };
    exit_code(status)
}

/// The words after the program's name. `Usage` comes where they are not UTF-8, and `NoMemory` where
/// there is none to keep them.
fn given_words<R: Env + AllocGlobal>(rt: &R) -> Result<Vec<String>, WordsFault> {
    match env::args(rt) {
        Ok(words) => Ok(words.skip(1).collect(rt.alloc())?),
        Err(error) if error.kind() == ErrorKind::OutOfMemory => Err(WordsFault::NoMemory),
        Err(_) => Err(WordsFault::Usage),
    }
}

/// The exit status.
fn exit_code(status: Status) -> ExitCode {
    ExitCode::from(status.code())
}
