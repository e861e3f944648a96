//! The commands `run`, `list` and `work`, over a source and sinks of the caller's. [`run_answer`]
//! is the one door; a fault of any command is one line on `errors` and the status 1.
ghost use Rattle.std.specs.Prelude.{◌≡◌, ◌<◌, ◌≤◌, Bool, Option, List, ℕ, length, OnOk, IfOk, IfErr};
ghost use Rattle.{
  pid_commands.specs.{declared.asked.Command.{Command}, declared.asked.WordsFault.{WordsFault}, Faults.{of_run}},
  pid_commands.specs.Output.{ListsScript, FailsToList, ShowsRun},
  pid_commands.specs.Commands.{streams, RunsScript, FailsToRun, WritesList, FailsToWriteList, WritesRun},
  pid_commands.specs.Commands.{FailsToWriteRun, Does, Stops, Ends, IsSaid, IsSomeFile},
  pid_workers.specs.Audits.{TellsAudit},
  worker_jobs.specs.declared.fault.RunFault.{RunFault},
};

use crate::asked::{Command, WordsFault};
use crate::fault::{Fault, put};
use crate::jobs::{Opens, read_jobs};
use crate::show::finished_text;
use crate::status::{Status, say_fault, say_usage};
use pid_types::call::Call;
use pid_types::config::Config;
use pid_types::device::{Discard, Sink, Source};
use pid_workers::{Finished, JobFiles, MOST_READS, OpenGate, run, run_for_table, run_workers};
use std::alloc::Global;
use std::marker::Brand;
use std::rt::Files;
use std::sync::Wait;
use std::sync::ledger::{Blank, Ledger};
use std::thread::Threads;
use std::time::Clock;
use table_lines::list::list_table;

/// Runs the command that the words after the program's name were read as: reads the script from the source, writes the
/// output to the sink, and the line of a fault or the usage line to `errors`.
///
/// It may wait, for the workers of `work`. After a fault of `run` the sink has the answers that were written before it;
/// after one of `list` or `work` it has nothing, but where a write failed midway. Whoever lends a sink that holds bytes
/// back flushes it afterwards. Where the line cannot be written to `errors` nothing more is done.
pub fn run_answer<R, S, K, E>(
    rt: &R,
    answer: Result<Command, WordsFault>,
    source: &mut S,
    sink: &mut K,
    errors: &mut E,
) -> Status
where
    R: Files + Threads + Wait + Clock + Sync + AllocGlobal,
    S: Source,
    K: Sink,
    E: Sink,
    ensures { Ends MOST_READS (λ _. IsSomeFile R.File.remaining) answer
        (streams (S.remaining source.old) (S.remaining source.new) (S.has_failed source.new)
        (K.contents sink.old) (K.contents sink.new) (K.has_failed sink.new) (K.is_full sink.new))
        (errors.new ≡ errors.old)
        (IsSaid (E.contents errors.old) (E.contents errors.new) (E.has_failed errors.new) (E.is_full errors.new))
        result }
{
    run_over(rt, rt, answer, source, sink, errors)
}

/// Runs it over what opens the job files.
fn run_over<R, D, S, K, E>(
    rt: &R,
    disk: &D,
    answer: Result<Command, WordsFault>,
    source: &mut S,
    sink: &mut K,
    errors: &mut E,
) -> Status
where
    R: Threads + Wait + Clock + Sync + AllocGlobal,
    D: Opens,
    S: Source,
    K: Sink,
    E: Sink,
    ensures { Ends MOST_READS (D.holds disk.now) answer
        (streams (S.remaining source.old) (S.remaining source.new) (S.has_failed source.new)
        (K.contents sink.old) (K.contents sink.new) (K.has_failed sink.new) (K.is_full sink.new))
        (errors.new ≡ errors.old)
        (IsSaid (E.contents errors.old) (E.contents errors.new) (E.has_failed errors.new) (E.is_full errors.new))
        result }
{
    match answer {
        Ok(command) => match run_command(rt, disk, command, source, sink) {
            Ok(()) => Status::Done,
            Err(fault) => say_fault(errors, &fault),
        },
        Err(WordsFault::Usage) => say_usage(errors),
        Err(WordsFault::NoMemory) => say_fault(errors, &Fault::NoMemory),
    }
}

/// Runs a command.
fn run_command<R, D, S, K>(
    rt: &R,
    disk: &D,
    command: Command,
    source: &mut S,
    sink: &mut K,
) -> Result<(), Fault>
where
    R: Threads + Wait + Clock + Sync + AllocGlobal,
    D: Opens,
    S: Source,
    K: Sink,
    ensures ok { OnOk result (Does (D.holds disk.now) command
        (streams (S.remaining source.old) (S.remaining source.new) (S.has_failed source.new)
        (K.contents sink.old) (K.contents sink.new) (K.has_failed sink.new) (K.is_full sink.new))) }
    ensures fault { IfErr result (Stops MOST_READS (D.holds disk.now) command
        (streams (S.remaining source.old) (S.remaining source.new) (S.has_failed source.new)
        (K.contents sink.old) (K.contents sink.new) (K.has_failed sink.new) (K.is_full sink.new))) }
{
    match command {
        Command::Run(config) => run_script(rt.alloc(), &config, source, sink),
        Command::List(config) => list_script(rt.alloc(), &config, source, sink),
        Command::Work { config, files } => work(rt, disk, &config, files, sink),
    }
}

/// Writes the answers to a script.
fn run_script<S: Source, K: Sink>(
    alloc: Global,
    config: &Config,
    source: &mut S,
    sink: &mut K,
) -> Result<(), Fault>
    ensures ok { OnOk result (RunsScript config.now
        (streams (S.remaining source.old) (S.remaining source.new) (S.has_failed source.new)
        (K.contents sink.old) (K.contents sink.new) (K.has_failed sink.new) (K.is_full sink.new))) }
    ensures fault { IfErr result (FailsToRun MOST_READS config.now
        (streams (S.remaining source.old) (S.remaining source.new) (S.has_failed source.new)
        (K.contents sink.old) (K.contents sink.new) (K.has_failed sink.new) (K.is_full sink.new))) }
{
    match run(alloc, source, sink, config) {
        Ok(_) => Ok(()),
        Err(fault) => Err(Fault::from(fault)),
    }
}

/// Writes the list of the table that a script leaves.
fn list_script<S: Source, K: Sink>(
    alloc: Global,
    config: &Config,
    source: &mut S,
    sink: &mut K,
) -> Result<(), Fault>
    ensures ok { OnOk result (WritesList config.now
        (streams (S.remaining source.old) (S.remaining source.new) (S.has_failed source.new)
        (K.contents sink.old) (K.contents sink.new) (K.has_failed sink.new) (K.is_full sink.new))) }
    ensures fault { IfErr result (FailsToWriteList MOST_READS config.now
        (streams (S.remaining source.old) (S.remaining source.new) (S.has_failed source.new)
        (K.contents sink.old) (K.contents sink.new) (K.has_failed sink.new) (K.is_full sink.new))) }
{
    let list = list_of_script(alloc, source, config)?;
    put(sink, list.as_slice())
}

/// The list of the table that a script leaves. It is no list where a call of the script found no memory.
fn list_of_script<S: Source>(
    alloc: Global,
    source: &mut S,
    config: &Config,
) -> Result<Vec<u8>, Fault>
    ensures ok { IfOk result (λ list. ListsScript config.now (S.remaining source.old)
        (S.remaining source.new) list.items) }
    ensures fault { IfErr result (FailsToList MOST_READS config.now (S.remaining source.old) (S.remaining source.new)
        (S.has_failed source.new)) }
{
    let (tally, held) = run_for_table(alloc, source, &mut Discard, config)?;
    if tally.starved > 0 {
        return Err(Fault::NoMemory);
    }
    Ok(list_table(alloc, held.table())?)
}

/// Reads the job files, runs a worker for each, and writes what they had. Its text is held whole, so
/// nothing is written where a worker's thread, the audit or memory is at fault.
fn work<R, D, K>(
    rt: &R,
    disk: &D,
    config: &Config,
    files: JobFiles,
    sink: &mut K,
) -> Result<(), Fault>
where
    R: Threads + Wait + Clock + Sync + AllocGlobal,
    D: Opens,
    K: Sink,
    ensures ok { (from to : Option (List ℕ)) (unread : Bool) → OnOk result (WritesRun (D.holds disk.now) config.now
        files.names.items (streams from to unread
        (K.contents sink.old) (K.contents sink.new) (K.has_failed sink.new) (K.is_full sink.new))) }
    ensures fault { (from to : Option (List ℕ)) (unread : Bool) → IfErr result (FailsToWriteRun (D.holds disk.now)
        config.now files.names.items (streams from to unread
        (K.contents sink.old) (K.contents sink.new) (K.has_failed sink.new) (K.is_full sink.new))) }
{
    let jobs = read_jobs(rt.alloc(), disk, files)?;
    let blank = Blank::new(jobs.len() as u64);
    let text = run_jobs::<Brand, R>(rt, blank, config, jobs.as_slice())?;
    put(sink, text.as_slice())
}

/// Runs a worker for each job, and gives the text of what they had. There are 2 to 16.
fn run_jobs<L: Ledger + Send + Sync, R: Threads + Wait + Clock + Sync + AllocGlobal>(
    rt: &R,
    blank: Blank,
    config: &Config,
    jobs: &[Vec<Call>],
) -> Result<Vec<u8>, Fault>
    requires name { blank.name ≡ L.name }
    requires parts { (blank.parts ≡ L.parts) × (L.parts ≡ length jobs.now) }
    requires count { (2 ≤ length jobs.now) × (length jobs.now ≤ 16) }
    ensures ok { IfOk result (λ text. ShowsRun config.now jobs.now text.items) }
    ensures fault { IfErr result (λ e. (cause : RunFault) × (e ≡ of_run cause)
        × TellsAudit config.now jobs.now cause) }
{
    match jobs.len() {
        2 => run_all::<L, R, 2>(rt, blank, config, jobs),
        3 => run_all::<L, R, 3>(rt, blank, config, jobs),
        4 => run_all::<L, R, 4>(rt, blank, config, jobs),
        5 => run_all::<L, R, 5>(rt, blank, config, jobs),
        6 => run_all::<L, R, 6>(rt, blank, config, jobs),
        7 => run_all::<L, R, 7>(rt, blank, config, jobs),
        8 => run_all::<L, R, 8>(rt, blank, config, jobs),
        9 => run_all::<L, R, 9>(rt, blank, config, jobs),
        10 => run_all::<L, R, 10>(rt, blank, config, jobs),
        11 => run_all::<L, R, 11>(rt, blank, config, jobs),
        12 => run_all::<L, R, 12>(rt, blank, config, jobs),
        13 => run_all::<L, R, 13>(rt, blank, config, jobs),
        14 => run_all::<L, R, 14>(rt, blank, config, jobs),
        15 => run_all::<L, R, 15>(rt, blank, config, jobs),
        16 => run_all::<L, R, 16>(rt, blank, config, jobs),
        _ => unreachable!(),
    }
}

/// Runs N workers, one for each job, and gives the text of what they had.
fn run_all<L: Ledger + Send + Sync, R: Threads + Wait + Clock + Sync + AllocGlobal, const N: usize>(
    rt: &R,
    blank: Blank,
    config: &Config,
    jobs: &[Vec<Call>],
) -> Result<Vec<u8>, Fault>
    requires name { blank.name ≡ L.name }
    requires parts { (blank.parts ≡ L.parts) × (L.parts ≡ N) × (0 < N) }
    requires jobs { length jobs.now ≡ N }
    ensures ok { IfOk result (λ text. ShowsRun config.now jobs.now text.items) }
    ensures fault { IfErr result (λ e. (cause : RunFault) × (e ≡ of_run cause)
        × TellsAudit config.now jobs.now cause) }
{
    let finished = run_workers::<L, OpenGate, R, N>(
        rt,
        rt.alloc(),
        blank,
        config,
        jobs,
        &OpenGate,
    )?;
    let Finished { kept, works } = finished;
    // What the record promises is the contract of its total.
    let _total = kept.total();
    match finished_text(rt.alloc(), &kept, works) {
        Ok(text) => Ok(text),
        Err(_) => Err(Fault::NoMemory),
    }
}
