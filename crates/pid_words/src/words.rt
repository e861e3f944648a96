//! The words of the command line: [`read_words`] reads them, and opens and runs nothing.
use clap::error::ErrorKind;
use clap::{Arg, ArgAction, ArgMatches, Error};
use pid_commands::{Command, JobFiles, WordsFault};
use pid_script::number::read_u32;
use pid_types::config::Config;
use std::alloc::{AllocError, Global};
use std::convert::AsStr;

/// The fault of words that clap refuses. It is no `From`, so that no crate above reads clap.
fn fault_of(error: Error) -> WordsFault {
    match error.kind() {
        ErrorKind::OutOfMemory => WordsFault::NoMemory,
        _ => WordsFault::Usage,
    }
}

/// The command of the words after the program's name: `run`, `list` or `work`, and behind it once,
/// if at all, `--pid-max N` or `--pid-max=N`. N is in decimal digits with no leading zero, from 301
/// to 4194304. Behind `work` stand 2 to 16 names of files too, before or after the option. A word
/// `--` ends the options, so each word behind it is a file, also one that begins with a hyphen.
///
/// `Usage` comes for all other words, a call for help among them, and `NoMemory` where there is
/// none to read or to keep them.
pub fn read_words<S: AsStr>(alloc: Global, words: &[S]) -> Result<Command, WordsFault> {
    let line = with_name(alloc, words)?;
    let matches = match_line(alloc, line.as_slice())?;
    asked_for(alloc, &matches)
}

/// The command that was found in the words, with its options.
fn asked_for(alloc: Global, matches: &ArgMatches) -> Result<Command, WordsFault> {
    match matches.subcommand() {
        Some(("run", options)) => Ok(Command::Run(read_config(options)?)),
        Some(("list", options)) => Ok(Command::List(read_config(options)?)),
        Some(("work", options)) => Ok(Command::Work {
            config: read_config(options)?,
            files: read_files(alloc, options)?,
        }),
        _ => Err(WordsFault::Usage),
    }
}

/// What clap finds in the words, the program's name first.
fn match_line<'a, S: AsStr>(alloc: Global, line: &'a [S]) -> Result<ArgMatches<'a>, WordsFault> {
    commands(alloc)?
        .try_get_matches_from(line)
        .map_err(fault_of)
}

/// The program's commands.
fn commands<'a>(alloc: Global) -> Result<clap::Command<'a>, AllocError> {
    clap::Command::new(alloc, "pidtab")
        .subcommand(with_pid_max(alloc, "run")?)?
        .subcommand(with_pid_max(alloc, "list")?)?
        .subcommand(work_command(alloc)?)
}

/// The command `work`, which takes the names of files too.
fn work_command<'a>(alloc: Global) -> Result<clap::Command<'a>, AllocError> {
    let files = Arg::new(alloc, "files")
        .action(ArgAction::Append)
        .num_args(1..);
    with_pid_max(alloc, "work")?.arg(files)
}

/// A command with the option that bounds the numbers.
fn with_pid_max<'a>(alloc: Global, name: &'a str) -> Result<clap::Command<'a>, AllocError> {
    let pid_max = Arg::new(alloc, "pid-max")
        .long("pid-max")
        .action(ArgAction::Set);
    clap::Command::new(alloc, name).arg(pid_max)
}

/// The words behind the program's name.
fn with_name<S: AsStr>(alloc: Global, words: &[S]) -> Result<Vec<&str>, AllocError> {
    let mut line = Vec::new(alloc);
    line.push("pidtab")?;
    for word in words {
        line.push(word.as_str())?;
    }
    Ok(line)
}

/// The configuration with this bound of numbers, or with the usual one. `Usage` comes for a word
/// that is no such bound.
fn read_config(options: &ArgMatches) -> Result<Config, WordsFault> {
    let usual = Config::default_values();
    let Some(word) = options.get_str("pid-max") else {
        return Ok(usual);
    };
    let Some(pid_max) = read_u32(word.as_bytes()) else {
        return Err(WordsFault::Usage);
    };
    Config::new(pid_max, usual.first_stamp()).map_err(|_| WordsFault::Usage)
}

/// The names of the job files. `Usage` comes where they are not 2 to 16.
fn read_files(alloc: Global, options: &ArgMatches) -> Result<JobFiles, WordsFault> {
    let mut names = Vec::new(alloc);
    for word in options.get_strs("files").unwrap_or(&[]) {
        names
            .push(String::from_str(alloc, word)?)
            .map_err(AllocError::from)?;
    }
    JobFiles::new(names).ok_or(WordsFault::Usage)
}
