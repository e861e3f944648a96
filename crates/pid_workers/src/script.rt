//! Scripts run on a table of their own, for one worker.
ghost use Rattle.std.specs.Prelude.{◌≡◌, false, ℕ, List, IfOk, IfErr, OnOk, Err};
ghost use Rattle.{
  kept_table.specs.Chronicle.{next_stamp},
  pid_types.specs.{State.{State}, Step.{may_grow}, declared.call.Call.{Call}, declared.reply.Reply.{Reply}},
  pid_types.specs.Devices.{DidBoth},
  pid_workers.specs.Made.{kept_calls},
  script_session.specs.{Progress.{start_of, HasStopped}, declared.tally.RunScriptFault.TheVariants.{Write}},
  script_session.specs.{Dialogue.{Converses}, Session.{any_call, ended_at, Finishes, Leaves}},
};

use crate::one_seat::OneSeat;
use crate::script_table::ScriptTable;
use locked_table::Record;
use pid_types::config::Config;
use pid_types::device::{Sink, Source};
use script_session::session::run_script;
use script_session::tally::{RunScriptFault, Tally};
use stamped_table::StampedTable;
use std::alloc::Global;
use std::sync::ledger::{Blank, Ledger};

/// So many reads are more than any script needs.
pub const MOST_READS: u32 = 1_000_000_000;

/// Runs a script on a new table: reads the source to its end, and writes the answer to each line to
/// the sink, as [`run_script`] says. There are at most `turns` reads.
///
/// `NoMemory` comes where no table could be made, and then nothing is read or written. A call that
/// finds no memory later is answered `no memory`, and the script goes on: only `fork` and `mk` take any.
///
/// No history is kept. So a run takes the memory of its greatest table, whatever its length.
pub fn run_limited<S: Source, K: Sink>(
    alloc: Global,
    source: &mut S,
    sink: &mut K,
    config: &Config,
    turns: u32,
) -> Result<Tally, RunScriptFault>
    ensures ok { IfOk result (λ tally. (present : State) × (stamp : ℕ) × (text : List ℕ) × (calls : List (Call × Reply))
        × Finishes may_grow (start_of config.now)
        (ended_at present stamp tally text calls)
        (S.remaining source.old) (S.remaining source.new) (K.contents sink.old) (K.contents sink.new)) }
    ensures err { IfErr result (Leaves may_grow turns (start_of config.now)
        (S.remaining source.old) (S.remaining source.new) (K.contents sink.old) (K.contents sink.new)
        (S.has_failed source.new)) }
    ensures talk { Converses may_grow turns (start_of config.now) (DidBoth (S.did source.old source.new)
        (K.did sink.old sink.new)) result }
    ensures whole { OnOk result ((S.has_failed source.new ≡ S.has_failed source.old)
        × (K.has_failed sink.new ≡ K.has_failed sink.old) × (K.is_full sink.new ≡ K.is_full sink.old)) }
    ensures stopped { result ≡ Err Write → HasStopped (K.has_failed sink.new) (K.is_full sink.new) }
{
    let mut table = match ScriptTable::new(alloc, config) {
        Ok(table) => table,
        Err(_) => return Err(RunScriptFault::NoMemory),
    };
    run_script(&mut table, source, sink, turns)
}

/// Runs a script on a new table, as [`run_limited`] does, with at most [`MOST_READS`] reads.
pub fn run<S: Source, K: Sink>(
    alloc: Global,
    source: &mut S,
    sink: &mut K,
    config: &Config,
) -> Result<Tally, RunScriptFault>
    ensures ok { IfOk result (λ tally. (present : State) × (stamp : ℕ) × (text : List ℕ) × (calls : List (Call × Reply))
        × Finishes may_grow (start_of config.now)
        (ended_at present stamp tally text calls)
        (S.remaining source.old) (S.remaining source.new) (K.contents sink.old) (K.contents sink.new)) }
    ensures err { IfErr result (Leaves may_grow MOST_READS (start_of config.now)
        (S.remaining source.old) (S.remaining source.new) (K.contents sink.old) (K.contents sink.new)
        (S.has_failed source.new)) }
    ensures talk { Converses may_grow MOST_READS (start_of config.now) (DidBoth (S.did source.old source.new)
        (K.did sink.old sink.new)) result }
    ensures whole { OnOk result ((S.has_failed source.new ≡ S.has_failed source.old)
        × (K.has_failed sink.new ≡ K.has_failed sink.old) × (K.is_full sink.new ≡ K.is_full sink.old)) }
    ensures stopped { result ≡ Err Write → HasStopped (K.has_failed sink.new) (K.is_full sink.new) }
{
    run_limited(alloc, source, sink, config, MOST_READS)
}

/// Runs a script on a new table, as [`run`] does, and hands back the record that the lines leave,
/// with the whole history: the calls of the script that were recorded, in their order, each with its reply. An entry
/// takes 64 bytes.
pub fn run_state<L: Ledger, S: Source, K: Sink>(
    alloc: Global,
    blank: Blank,
    source: &mut S,
    sink: &mut K,
    config: &Config,
) -> Result<(Tally, Record<L, 1>), RunScriptFault>
    requires name { blank.name ≡ L.name }
    requires parts { (blank.parts ≡ L.parts) × (L.parts ≡ 1) }
    ensures ok { IfOk result (λ r. (text : List ℕ) × Finishes any_call (start_of config.now)
        (ended_at r.1.present (next_stamp r.1) r.0 text (kept_calls r.1))
        (S.remaining source.old) (S.remaining source.new) (K.contents sink.old) (K.contents sink.new)) }
    ensures config { IfOk result (λ r. r.1.config ≡ config.now) }
    ensures fresh { IfOk result (λ r. r.1.is_resumed ≡ false) }
    ensures history { IfOk result (λ r. r.1.first_kept ≡ 0) }
    ensures err { IfErr result (Leaves any_call MOST_READS (start_of config.now)
        (S.remaining source.old) (S.remaining source.new) (K.contents sink.old) (K.contents sink.new)
        (S.has_failed source.new)) }
    ensures talk { Converses any_call MOST_READS (start_of config.now)
        (DidBoth (S.did source.old source.new) (K.did sink.old sink.new)) result }
    ensures whole { OnOk result ((S.has_failed source.new ≡ S.has_failed source.old)
        × (K.has_failed sink.new ≡ K.has_failed sink.old) × (K.is_full sink.new ≡ K.is_full sink.old)) }
    ensures stopped { result ≡ Err Write → HasStopped (K.has_failed sink.new) (K.is_full sink.new) }
{
    let mut table = match OneSeat::<L>::new(alloc, blank, config) {
        Ok(table) => table,
        Err(_) => return Err(RunScriptFault::NoMemory),
    };
    let tally = run_script(&mut table, source, sink, MOST_READS)?;
    let OneSeat {
        record,
        seat: _seat,
        reply: _reply,
    } = table;
    Ok((tally, record))
}

/// Runs a script on a new table, as [`run`] does, and hands back the table that the lines leave.
/// It has no history. [`Tally::starved`] says how many calls found no memory, and so are not in it.
pub fn run_for_table<S: Source, K: Sink>(
    alloc: Global,
    source: &mut S,
    sink: &mut K,
    config: &Config,
) -> Result<(Tally, StampedTable), RunScriptFault>
    ensures ok { IfOk result (λ r. (text : List ℕ) × (calls : List (Call × Reply))
        × Finishes may_grow (start_of config.now) (ended_at r.1.state r.1.stamp r.0 text calls)
        (S.remaining source.old) (S.remaining source.new) (K.contents sink.old) (K.contents sink.new)) }
    ensures err { IfErr result (Leaves may_grow MOST_READS (start_of config.now)
        (S.remaining source.old) (S.remaining source.new) (K.contents sink.old) (K.contents sink.new)
        (S.has_failed source.new)) }
    ensures stopped { result ≡ Err Write → HasStopped (K.has_failed sink.new) (K.is_full sink.new) }
{
    let mut table = match ScriptTable::new(alloc, config) {
        Ok(table) => table,
        Err(_) => return Err(RunScriptFault::NoMemory),
    };
    let tally = run_script(&mut table, source, sink, MOST_READS)?;
    let ScriptTable {
        table,
        reply: _reply,
    } = table;
    Ok((tally, table))
}
