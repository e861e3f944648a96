//! A process table with the stamp of its next call, and no history: for whoever asks for replies alone.
//!
//! The type keeps the order of the stamps: the ids in the table are below the next one. The record of the crates above
//! keeps the calls too.
#![tactic(auto)]

ghost use Rattle.std.specs.Prelude.{◌≡◌, ◌≢◌, ◌+◌, ◌<◌, ◌≤◌, ◌↔◌, IfOk, IfErr, OnOk, OnErr, Err, IsTrue, length, false};
ghost use Rattle.{
  call_effects.specs.{Reckoned.{Reckons}, Touched.{is_touching, most_in, most_of, Watches}},
  model_laws.specs.Refusals.{is_query},
  pid_table.specs.Lists.{answers_list},
  pid_types.specs.declared.call.Call.TheVariants.{NsPid},
  pid_types.specs.{Short.{reply_of}, Sound.{IsSound, IsBelow}, State.{root_state}, Step.{may_grow}},
  pid_types.specs.Written.{IsWritten},
  stamped_table.specs.Stamped.{IsInOrder, after_call, reply_to},
  translate.specs.{Zeroes.{HasZeroesBehind}, Stat.{stat_at}},
};

use call_effects::Touched;
use model_laws::laws::nothing_changes;
use model_laws::soundness::{root_state_is_sound, soundness_is_kept};
use pid_table::PidTable;
use pid_types::call::Call;
use pid_types::config::Config;
use pid_types::keys::Pid;
use pid_types::plain::LEVELS;
use pid_types::reply::{CallFault, Refusal, Reply, ShortReply};
use std::alloc::{AllocError, Global};
use std::marker::Model;
use translate::stat::Stat;

/// A table and the stamp of its next call. Between two calls its state is sound, and the ids in it are below the stamp.
#[derive(Drop)]
pub struct StampedTable {
    table: PidTable,
    stamp: u64,
}

impl Model for StampedTable {
    ghost use Rattle.stamped_table.specs.Stamped.{Stamped, IsInOrder};

    ghost Value = { Stamped };

    ghost view = { λ s. record { state = s.table; stamp = s.stamp } };

    ghost invariant = { λ s. IsInOrder (record { state = s.table; stamp = s.stamp }) };
}

impl StampedTable {
    /// A table with the root init alone. The error is want of memory.
    pub fn new(alloc: Global, config: &Config) -> Result<StampedTable, AllocError>
        ensures { IfOk result (λ s.
            s ≡ record { state = root_state config.now.pid_max; stamp = config.now.first_stamp }) }
    {
        root_state_is_sound();
        prove!(config.first_stamp() > 0);
        prove!(config.pid_max() >= 301 && config.pid_max() <= 4_194_304);
        Ok(StampedTable {
            table: PidTable::new(alloc, config)?,
            stamp: config.first_stamp(),
        })
    }

    /// A table that is there already, that of a saved text, say.
    pub fn of(table: PidTable, stamp: u64) -> StampedTable
        requires sound { IsSound table }
        requires below { IsBelow stamp table }
        ensures { result ≡ record { state = table; stamp = stamp } }
    {
        StampedTable { table, stamp }
    }

    /// What is true between any two calls. The call does nothing.
    pub fn laws(&self)
        ensures { IsInOrder self.now }
    {
        let _ = &self.table;
    }

    /// The table, to be read. It costs nothing.
    #[inline(always)]
    pub fn table(&self) -> &PidTable
        ensures { result.now ≡ self.now.state }
    {
        &self.table
    }

    /// The stamp of the next call. It costs nothing.
    pub fn stamp(&self) -> u64
        ensures { result ≡ self.now.stamp }
    {
        self.stamp
    }

    /// Whether a stamp is left for the next call. The error is `Spent`.
    #[inline(always)]
    fn has_stamp(&self) -> Result<(), CallFault>
        ensures left { OnOk result (self.now.stamp < u64.MAX) }
        ensures spent { IfErr result (λ e. (e ≡ CallFault.Spent) × (self.now.stamp ≡ u64.MAX)) }
    {
        if self.stamp == u64::MAX {
            return Err(CallFault::Spent);
        }
        Ok(())
    }

    /// Makes the call, and writes the reply. An error says that the table is as it was, and leaves the reply with no
    /// meaning: the stamps are used up, or there was no memory for a call that makes something. It costs what
    /// [`PidTable::step`] says.
    #[inline(always)]
    pub fn make(&mut self, call: Call, reply: &mut Reply) -> Result<(), CallFault>
        ensures state { OnOk result (self.new ≡ after_call self.old call) }
        ensures reply { OnOk result (reply.new ≡ reply_to self.old call) }
        ensures err { OnErr result (self.new ≡ self.old) }
        ensures spent { (result ≡ Err CallFault.Spent) ↔ (self.old.stamp ≡ u64.MAX) }
        ensures no_memory { result ≡ Err CallFault.NoMemory → IsTrue (may_grow call) }
    {
        self.has_stamp()?;
        soundness_is_kept();
        self.table.step(self.stamp, call, reply)?;
        self.stamp += 1;
        Ok(())
    }

    /// Makes a call but `NSpid` as [`StampedTable::make`] does ([`PidTable::step_short`]).
    #[inline(always)]
    pub fn make_short(&mut self, call: Call) -> Result<ShortReply, CallFault>
        requires { answers_list call ≡ false }
        ensures state { OnOk result (self.new ≡ after_call self.old call) }
        ensures reply { IfOk result (λ reply. reply_of reply ≡ reply_to self.old call) }
        ensures err { OnErr result (self.new ≡ self.old) }
        ensures spent { (result ≡ Err CallFault.Spent) ↔ (self.old.stamp ≡ u64.MAX) }
        ensures no_memory { result ≡ Err CallFault.NoMemory → IsTrue (may_grow call) }
    {
        self.has_stamp()?;
        soundness_is_kept();
        let reply = self.table.step_short(self.stamp, call)?;
        self.stamp += 1;
        Ok(reply)
    }

    /// Makes the call `NSpid` as [`StampedTable::make`] does, and tells it as [`PidTable::ns_pid`] does. The error is
    /// `Spent` alone, and then the table and the room are as they were.
    #[tactic(auto, unfolding(pid_types::specs::Step::step))]
    #[inline(always)]
    pub fn make_ns_pid(
        &mut self,
        caller: Pid,
        target: Pid,
        room: &mut [Pid; LEVELS],
    ) -> Result<Result<usize, Refusal>, CallFault>
        ensures state { OnOk result (self.new ≡ after_call self.old (NsPid caller target)) }
        ensures reply { IfOk result (λ told.
            IsWritten told room.new (reply_to self.old (NsPid caller target))) }
        ensures zeroes { IfOk result (λ told. HasZeroesBehind told room.new) }
        ensures err { OnErr result (self.new ≡ self.old) }
        ensures err_room { OnErr result (room.new ≡ room.old) }
        ensures spent { (result ≡ Err CallFault.Spent) ↔ (self.old.stamp ≡ u64.MAX) }
        ensures no_memory { result ≢ Err CallFault.NoMemory }
    {
        self.has_stamp()?;
        soundness_is_kept();
        let told = self.table.ns_pid(caller, target, room);
        self.stamp += 1;
        Ok(told)
    }

    /// Makes a query but `NSpid` as [`StampedTable::make_short`] does: the table stays, and the stamp rises. The error
    /// is `Spent` alone.
    #[inline(always)]
    pub fn make_query(&mut self, call: Call) -> Result<ShortReply, CallFault>
        requires asks { IsTrue (is_query call) }
        requires short { answers_list call ≡ false }
        ensures state { OnOk result (self.new ≡ after_call self.old call) }
        ensures reply { IfOk result (λ reply. reply_of reply ≡ reply_to self.old call) }
        ensures err { OnErr result (self.new ≡ self.old) }
        ensures spent { (result ≡ Err CallFault.Spent) ↔ (self.old.stamp ≡ u64.MAX) }
        ensures no_memory { result ≢ Err CallFault.NoMemory }
    {
        self.has_stamp()?;
        soundness_is_kept();
        nothing_changes();
        let reply = self.table.ask_short(call);
        self.stamp += 1;
        Ok(reply)
    }

    /// Answers a query. It uses no stamp, and changes nothing.
    pub fn ask(&self, call: Call) -> Reply
        requires { IsTrue (is_query call) }
        ensures { result ≡ reply_to self.now call }
    {
        let mut reply = Reply::Done;
        self.table.ask(call, &mut reply);
        reply
    }

    /// Answers a query but `NSpid` as [`StampedTable::ask`] does ([`PidTable::ask_short`]).
    #[inline(always)]
    pub fn ask_short(&self, call: Call) -> ShortReply
        requires asks { IsTrue (is_query call) }
        requires short { answers_list call ≡ false }
        ensures { reply_of result ≡ reply_to self.now call }
    {
        self.table.ask_short(call)
    }

    /// Answers `NSpid` as [`StampedTable::ask`] does, without a reply that has room for a list: [`PidTable::ns_pid`].
    #[inline(always)]
    pub fn ns_pid(
        &self,
        caller: Pid,
        target: Pid,
        room: &mut [Pid; LEVELS],
    ) -> Result<usize, Refusal>
        ensures reply { IsWritten result room.new (reply_to self.now (NsPid caller target)) }
        ensures zeroes { HasZeroesBehind result room.new }
    {
        self.table.ns_pid(caller, target, room)
    }

    /// Writes the reply that the call would get as the next one: [`PidTable::would`]. It uses no stamp, and changes
    /// nothing. The error is `Spent`, where the stamps are used up; then the reply stays.
    pub fn would(&self, call: Call, reply: &mut Reply) -> Result<(), CallFault>
        ensures reply { OnOk result (reply.new ≡ reply_to self.now call) }
        ensures spent { (result ≡ Err CallFault.Spent) ↔ (self.now.stamp ≡ u64.MAX) }
        ensures only { result ≢ Err CallFault.NoMemory }
    {
        self.has_stamp()?;
        self.table.would(self.stamp, call, reply);
        Ok(())
    }

    /// Those whom the call may touch as the next one: [`Touched::before`]. It uses no stamp, and changes nothing. An
    /// error is `Spent`, where the stamps are used up, or want of memory.
    pub fn touched(&self, call: Call) -> Result<Touched, CallFault>
        ensures before { IfOk result (Watches self.now.state (after_call self.now call).state) }
        ensures reckons { IfOk result (Reckons self.now.state self.now.stamp call) }
        ensures few { IfOk result (λ w. most_of w ≤ most_in self.now.state) }
        ensures touching { IfOk result (λ w. 0 < most_of w → IsTrue (is_touching call)) }
        ensures spent { (result ≡ Err CallFault.Spent) ↔ (self.now.stamp ≡ u64.MAX) }
        ensures no_memory { result ≡ Err CallFault.NoMemory → IsTrue (is_touching call) }
    {
        self.has_stamp()?;
        Ok(Touched::before(&self.table, self.stamp, call)?)
    }

    /// One read of a task. It is no call, and uses no stamp.
    pub fn stat(&self, caller: u32, pid: u32) -> Result<Stat, Refusal>
        ensures { result ≡ stat_at self.now.state caller pid }
    {
        self.table.stat(caller, pid)
    }
}
