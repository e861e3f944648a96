//! The table, its history, and how many calls of each worker were recorded. The history grows by an entry of 64
//! bytes with each [`Kept::make_call`], and by the numbers of a list, until a [`Kept::checkpoint`] empties it.
//! [`Kept::make_call_keeping`] bounds it.
ghost use Rattle.std.specs.Prelude.{◌≡◌, ℕ, ◌+◌, ◌-◌, ◌^◌, ◌<◌, ◌≤◌, ◌==◌, [], ◌∷◌, ◌++◌, ◌↔◌, length, IsTrue, sum};
ghost use Rattle.std.specs.Prelude.{slice_index, IfOk, OnOk, OnErr, IsOk, IfSome, Some, None, Err, ◌≢◌, ◌⊎◌, true};
ghost use Rattle.std.specs.{Prelude.{false, List}, Option.{option_map}};
ghost use Rattle.{
  pid_types.specs.{declared.plain.Control.{Control}, Membership.{IsIn}, declared.entry.Entry.{Entry}, Shown.{Shows}},
  pid_types.specs.{Sound.{IsBelow}, Step.{step, may_grow}, Short.{list_reply, reply_of}, Written.{IsWritten}},
  pid_types.specs.declared.call.Call.TheVariants.{NsPid},
  translate.specs.{Zeroes.{HasZeroesBehind}, Stat.{stat_at, glimpse_in, IsSeen}},
  call_effects.specs.{Reckoned.{Reckons}, Touched.{is_touching, most_in, most_of, Watches}},
  kept_past.specs.Stored.{TellsIfShort},
  kept_table.specs.Calls.{begun, resumed, outcome, entry_of, after_recorded, counted, cut_at, IsWithoutFirst, to_cut},
  kept_past.specs.Past.{nobody_waits, one_more, IsCaughtUp},
  kept_table.specs.Calls.{to_cut_once, FewerWait, MakesRoom, NoneWait, WaitsByCut},
  kept_table.specs.Chronicle.{Chronicle, total, next_stamp, recorded, recorded_by_all, kept_entry, last_reply},
  kept_table.specs.{Promise.{IsSubtreeCount, KeepsPromise}, Whole.{one_of, is_fresh}},
  model_laws.specs.Refusals.{is_query},
  pid_table.specs.Lists.{answers_list},
};

use call_effects::Touched;
use kept_past::History;
use model_laws::laws::{forks_keep_limits, no_reuse, nothing_changes, numbers_are_apart};
use model_laws::meanings::count_is_of_subtree;
use model_laws::soundness::{bound_stays, root_state_is_sound, soundness_is_kept};
use pid_table::PidTable;
use pid_types::call::Call;
use pid_types::config::Config;
use pid_types::entry::Entry;
use pid_types::keys::Pid;
use pid_types::plain::{LEVELS, Plain};
use pid_types::reply::{CallFault, Refusal, Reply, ShortReply};
use std::alloc::{AllocError, Global};
use std::marker::Model;
use translate::stat::Stat;

/// A process table with its history. Contracts see its configuration, the opening and the present state, the kept
/// history, what was cut away before it, and the room for more entries.
pub struct Kept {
    config: Config,
    is_resumed: bool,
    first_kept: u64,
    cut: Vec<u64>,
    history: History,
    table: PidTable,
    calls: Vec<u64>,
}

// Written out, and not derived: so the crates above cite this drop, and do not prove it anew.
impl Drop for Kept {
    fn drop(self) {
        let Kept {
            config: _,
            is_resumed: _,
            first_kept: _,
            cut: _,
            history: _,
            table: _,
            calls: _,
        } = self;
    }
}

impl Model for Kept {
    ghost use Rattle.kept_table.specs.{Chronicle.{Chronicle}, Whole.{told, IsKeptWhole}};

    ghost Value = { Chronicle };

    ghost view = { λ a. told a.config a.is_resumed a.history a.first_kept a.cut.items a.table a.calls.items };

    ghost invariant = { λ a. IsKeptWhole a.history a.calls.items
        (told a.config a.is_resumed a.history a.first_kept a.cut.items a.table a.calls.items) };
}

impl Kept {
    /// A table with the root init alone, an empty history, and no call of any of so many workers. The error is want
    /// of memory.
    pub fn new(alloc: Global, config: &Config, workers: usize) -> Result<Kept, AllocError>
        ensures { IfOk result (λ r. r ≡ begun config.now workers r.memory.room) }
    {
        root_state_is_sound();
        // Stamp 0 is the id of what the table begins with.
        prove!(config.first_stamp() > 0);
        prove!(config.pid_max() >= 301 && config.pid_max() <= 4_194_304);
        let cut = vec![in alloc; 0u64; workers]?;
        let calls = vec![in alloc; 0u64; workers]?;
        let table = PidTable::new(alloc, config)?;
        let kept = Kept {
            config: *config,
            is_resumed: false,
            first_kept: 0,
            cut,
            calls,
            history: History::new(alloc, config.first_stamp()),
            table,
        };
        Ok(kept)
    }

    /// Whether a record can go on at the stamp with these counts: they add up to less.
    pub fn can_resume(stamp: u64, counts: &[u64]) -> bool
        ensures { IsTrue result ↔ (sum counts.now < stamp) }
    {
        added(counts) < stamp
    }

    /// A record that goes on from a table that was loaded. The table's state is the opening, the history is empty, and
    /// the next call has the stamp. `counts` says for each worker how many calls were recorded before: their sum is the
    /// ordinal of the next call, and the first stamp of the configuration is so much below the stamp.
    ///
    /// The promise holds of it as of a new one. It says nothing of the calls before, not that there were any. The error
    /// is want of memory.
    pub fn resume(
        alloc: Global,
        table: PidTable,
        stamp: u64,
        counts: &[u64],
    ) -> Result<Kept, AllocError>
        requires below { IsBelow stamp table }
        requires fits { sum counts.now < stamp }
        ensures { IfOk result (λ r. r ≡ resumed table stamp counts.now r.memory.room) }
    {
        table.laws();
        let before = added(counts);
        let Ok(config) = Config::new(table.pid_max(), stamp - before) else {
            unreachable!()
        };
        let cut = counts.to_vec(alloc)?;
        let calls = counts.to_vec(alloc)?;
        let kept = Kept {
            config,
            is_resumed: true,
            first_kept: before,
            cut,
            calls,
            history: History::new(alloc, stamp),
            table,
        };
        Ok(kept)
    }

    /// How many workers there are.
    pub fn workers(&self) -> usize
        ensures { result ≡ length self.now.cut }
    {
        self.cut.len()
    }

    /// What the record was made with.
    pub fn config(&self) -> Config
        ensures { result ≡ self.now.config }
    {
        self.config
    }

    /// Whether it goes on from a table that was loaded. Where it does not, the opening is the root init's state until
    /// something is cut away.
    pub fn is_resumed(&self) -> bool
        ensures { result ≡ self.now.is_resumed }
    {
        self.is_resumed
    }

    /// How many calls were recorded, the cut ones among them.
    ///
    /// Its contract says what a record promises whenever nobody works on it: for a record behind
    /// a lock, whenever the lock is free.
    pub fn total(&self) -> u64
        ensures value { result ≡ total self.now }
        ensures promise { KeepsPromise self.now }
        ensures workers { result ≡ recorded_by_all (length self.now.cut) self.now }
    {
        soundness_is_kept();
        bound_stays();
        forks_keep_limits();
        no_reuse();
        count_is_of_subtree();
        numbers_are_apart();
        self.history.next_stamp() - self.config.first_stamp()
    }

    /// How many calls were recorded before the kept ones: the ordinal of the first kept entry.
    pub fn first_kept(&self) -> u64
        ensures { result ≡ self.now.first_kept }
    {
        self.first_kept
    }

    /// The stamp of the next call; none where that would be `u64::MAX`, which is never a stamp: each recorded call
    /// has one below it. It costs nothing.
    pub fn next_stamp(&self) -> Option<u64>
        ensures none { (result ≡ None) ↔ (next_stamp self.now ≡ u64.MAX) }
        ensures some { IfSome result (λ stamp. stamp ≡ next_stamp self.now) }
        ensures recorded { (ordinal : ℕ) → ordinal < total self.now → self.now.config.first_stamp + ordinal < u64.MAX }
    {
        let stamp = self.history.next_stamp();
        if stamp == u64::MAX { None } else { Some(stamp) }
    }

    /// How many calls of the worker were recorded, the cut ones among them. It costs nothing.
    pub fn recorded(&self, worker: usize) -> u64
        requires { worker < length self.now.cut }
        ensures { result ≡ recorded self.now worker }
    {
        self.calls[worker]
    }

    /// How many calls of each worker were recorded, the cut ones among them. It costs nothing.
    pub fn counts(&self) -> &[u64]
        ensures len { length result.now ≡ length self.now.cut }
        ensures each { (worker : ℕ) → worker < length self.now.cut
            → slice_index result.now worker ≡ recorded self.now worker }
        ensures all { sum result.now ≡ self.now.booked }
    {
        self.calls.as_slice()
    }

    /// The entry with the ordinal; none where it was cut away, or is not reached yet. It costs the
    /// same for each ordinal.
    pub fn entry(&self, ordinal: u64) -> Option<Entry>
        ensures { result ≡ kept_entry self.now ordinal }
    {
        if ordinal < self.first_kept {
            return None;
        }
        self.history.entry(ordinal - self.first_kept)
    }

    /// Whose call the entry with the ordinal has; none where [`Kept::entry`] has none. It costs less than that.
    #[inline(always)]
    pub fn worker_of(&self, ordinal: u64) -> Option<usize>
        ensures { result ≡ option_map (λ (e : Entry). e.worker) (kept_entry self.now ordinal) }
    {
        if ordinal < self.first_kept {
            return None;
        }
        self.history.worker_at(ordinal - self.first_kept)
    }

    /// The reply of the last kept entry; none where the history is empty. It costs a copy.
    pub fn last_reply(&self) -> Option<Reply>
        ensures { result ≡ last_reply self.now }
    {
        self.history.last_reply()
    }

    /// The numbers of the last kept entry's reply, where that is a list, lent from there. It costs nothing.
    pub fn last_list(&self) -> Option<&[Pid]>
        ensures list { IfSome result (λ list. last_reply self.now ≡ Some (list_reply list.now)) }
        ensures all { (list : List ℕ) → last_reply self.now ≡ Some (list_reply list) → result ≢ None }
        ensures fits { IfSome result (λ list. length list.now ≤ LEVELS) }
    {
        self.history.last_list()
    }

    /// How many tasks the control group with the id and those below it have, ended ones too; none where there is no
    /// such group. It is the number that the table keeps with the group, and that a fork is held against: a search
    /// for the id and one read, with no look at any task.
    ///
    /// Its contract gives the headline's counts of these kept numbers, whenever nobody works on the record.
    pub fn count(&self, control: u64) -> Option<u64>
        ensures none { (result ≡ None) ↔ ((g : Control) → IsIn g self.now.present.controls → g.id ≢ control) }
        ensures some { IfSome result (λ n. IsSubtreeCount self.now.present control n) }
    {
        soundness_is_kept();
        count_is_of_subtree();
        self.table.count(control)
    }

    /// How many tasks there are, ended ones too. It costs nothing.
    pub fn tasks(&self) -> usize
        ensures { result ≡ length self.now.present.rows }
    {
        self.table.tasks()
    }

    /// How many control groups there are, the root group too. It costs nothing.
    pub fn controls(&self) -> usize
        ensures { result ≡ length self.now.present.controls }
    {
        self.table.controls()
    }

    /// One read of the task with the number in the caller's namespace, where 0 is the caller: [`PidTable::stat`]. It is
    /// neither a call nor recorded, and takes no memory.
    pub fn stat(&self, caller: Pid, pid: Pid) -> Result<Stat, Refusal>
        ensures told { result ≡ stat_at self.now.present caller pid }
        ensures seen { IfOk result (λ stat. IsSeen self.now.present caller pid (glimpse_in stat)) }
    {
        self.table.stat(caller, pid)
    }

    /// The table as it is now, to be read. It costs nothing.
    pub fn present(&self) -> &PidTable
        ensures { result.now ≡ self.now.present }
    {
        &self.table
    }

    /// The present state. It costs a copy of the whole table.
    pub fn snapshot(&self) -> Result<Plain, AllocError>
        ensures { IfOk result (Shows self.now.present) }
    {
        self.table.snapshot()
    }

    /// The state that the kept history begins in: the root init's alone, or where entries were cut away the one behind
    /// their calls. The kept calls, made from there in the order of [`Kept::entry`], lead to the present state with
    /// the replies of their entries: that is what [`Kept::total`] promises as `replayed`. The first of them has the
    /// configuration's first stamp plus [`Kept::first_kept`].
    ///
    /// It costs a copy of that whole state. The error is want of memory, here or before: where that came at a cut, and
    /// entries are kept, the table of the opening is behind until later calls have made up for it.
    pub fn opening(&self) -> Result<Plain, AllocError>
        ensures { IfOk result (Shows self.now.opening) }
    {
        self.history.snapshot(&self.table)
    }

    /// Answers a query by the model's step at the next call's stamp. It uses no stamp and is not recorded, and nothing
    /// that is held changes. It costs what the query costs, and no memory.
    pub fn ask(&self, call: Call, reply: &mut Reply)
        requires { IsTrue (is_query call) }
        ensures { reply.new ≡ (outcome self.now call).reply }
    {
        self.table.ask(call, reply);
    }

    /// Answers a query but `NSpid` as [`Kept::ask`] does ([`PidTable::ask_short`]).
    #[inline(always)]
    pub fn ask_short(&self, call: Call) -> ShortReply
        requires asks { IsTrue (is_query call) }
        requires short { answers_list call ≡ false }
        ensures { reply_of result ≡ (outcome self.now call).reply }
    {
        self.table.ask_short(call)
    }

    /// Answers `NSpid` as [`Kept::ask`] does, without a reply that has room for a list: [`PidTable::ns_pid`].
    #[inline(always)]
    pub fn ns_pid(
        &self,
        caller: Pid,
        target: Pid,
        numbers: &mut [Pid; LEVELS],
    ) -> Result<usize, Refusal>
        ensures reply { IsWritten result numbers.new (outcome self.now (NsPid caller target)).reply }
        ensures zeroes { HasZeroesBehind result numbers.new }
    {
        self.table.ns_pid(caller, target, numbers)
    }

    /// Writes the reply that the call would get as the next one: [`PidTable::would`]. It is not recorded, and nothing
    /// that is held changes. The error is `Spent`, where the stamps are used up; then the reply stays.
    pub fn would(&self, call: Call, reply: &mut Reply) -> Result<(), CallFault>
        ensures reply { OnOk result (reply.new ≡ (outcome self.now call).reply) }
        ensures spent { (result ≡ Err CallFault.Spent) ↔ (next_stamp self.now ≡ u64.MAX) }
        ensures only { result ≢ Err CallFault.NoMemory }
    {
        let Some(stamp) = self.next_stamp() else {
            return Err(CallFault::Spent);
        };
        soundness_is_kept();
        self.table.would(stamp, call, reply);
        Ok(())
    }

    /// Those whom the call may touch as the next one: [`Touched::before`]. It is not recorded, and nothing that is held
    /// changes. An error is `Spent`, where the stamps are used up, or want of memory.
    pub fn touched(&self, call: Call) -> Result<Touched, CallFault>
        ensures before { IfOk result (Watches self.now.present (outcome self.now call).state) }
        ensures reckons { IfOk result (Reckons self.now.present (next_stamp self.now) call) }
        ensures few { IfOk result (λ w. most_of w ≤ most_in self.now.present) }
        ensures touching { IfOk result (λ w. 0 < most_of w → IsTrue (is_touching call)) }
        ensures spent { (result ≡ Err CallFault.Spent) ↔ (next_stamp self.now ≡ u64.MAX) }
        ensures no_memory { result ≡ Err CallFault.NoMemory → IsTrue (is_touching call) }
    {
        let Some(stamp) = self.next_stamp() else {
            return Err(CallFault::Spent);
        };
        soundness_is_kept();
        Ok(Touched::before(&self.table, stamp, call)?)
    }

    /// Makes room for the entries of n more calls. Each recorded call uses up one of them. A new record holds the root
    /// init's state as its opening, which takes no memory. Where the opening is the present state behind a
    /// [`Kept::resume`], the first room costs a copy of the whole table, which becomes the opening.
    #[inline(always)]
    pub fn reserve_calls(&mut self, n: usize) -> Result<(), AllocError>
        ensures ok { OnOk result (n ≤ self.new.memory.room) }
        ensures makes { MakesRoom self.old self.new }
        ensures enough { n ≤ self.old.memory.room → IsOk result }
    {
        if n == 0 {
            return Ok(());
        }
        let is_root = self.is_fresh();
        self.history.begin(&self.table, &self.config, is_root)?;
        self.history.reserve(n)
    }

    /// Whether the root init's state is the opening until something is cut away.
    #[inline(always)]
    fn is_fresh(&self) -> bool
        ensures { result ≡ is_fresh self.now.is_resumed self.now.first_kept }
    {
        // Both are read, and so the answer is made only where it is asked for.
        !self.is_resumed & (self.first_kept == 0)
    }

    /// Makes the present state the opening, and empties the history. Stamps and ordinals go on, and the room for
    /// entries stays. The opening moves on by steps: it costs each kept call once more, and no copy. A step that finds
    /// no memory is made by later calls, two behind each, and its entry is held until then. Only where the opening is
    /// held as a snapshot ([`Kept::cut_first`]) it costs a copy of the whole table, and the error is want of memory
    /// for that.
    pub fn checkpoint(&mut self) -> Result<(), AllocError>
        ensures ok { OnOk result (self.new ≡ cut_at self.old (total self.old) self.new.cut self.new.memory) }
        ensures recorded { OnOk result
            ((worker : ℕ) → worker < length self.old.cut → recorded self.new worker ≡ recorded self.old worker) }
        ensures workers { length self.new.cut ≡ length self.old.cut }
        ensures room { self.old.memory.room ≤ self.new.memory.room }
        ensures moved { OnOk result (NoneWait self.new.memory.waits) }
        ensures err { OnErr result (self.new ≡ self.old) }
        ensures by_steps { OnErr result (self.old.by_steps ≡ false) }
    {
        soundness_is_kept();
        bound_stays();
        if self.history.is_bare() {
            return Ok(());
        }
        let kept = self.history.len() as u64;
        self.history.cut_all(&self.table)?;
        self.first_kept += kept;
        cut_all(&mut self.cut, self.calls.as_slice());
        Ok(())
    }

    /// Makes a call of the worker, and records it with its reply, whatever that is. It answers the reply, unless
    /// that is a list: [`Kept::last_list`] has that. `Spent` is answered first, where the call's stamp would be
    /// `u64::MAX`. A call that finds no memory, for what it makes or for its entry, changes nothing and is not
    /// recorded.
    #[inline(always)]
    pub fn make_call(&mut self, worker: usize, call: Call) -> Result<Option<ShortReply>, CallFault>
        requires { worker < length self.old.cut }
        ensures step { OnOk result (self.new.present ≡ (outcome self.old call).state) }
        ensures reply { OnOk result (last_reply self.new ≡ Some (outcome self.old call).reply) }
        ensures short { TellsIfShort result (outcome self.old call).reply }
        ensures history { OnOk result (self.new.entries ≡ self.old.entries ++ entry_of self.old worker call ∷ []) }
        ensures others { OnOk result (self.new ≡ counted self.old self.new.entries self.new.present self.new.memory) }
        ensures room { self.old.memory.room ≤ self.new.memory.room + 1 }
        ensures moved { OnOk result (IsCaughtUp 2 self.old.memory.waits self.new.memory.waits) }

        ensures spent { (result ≡ Err CallFault.Spent) ↔ (next_stamp self.old ≡ u64.MAX) }
        ensures err { OnErr result (MakesRoom self.old self.new) }
        ensures no_memory { result ≡ Err CallFault.NoMemory → 0 < self.old.memory.room → IsTrue (may_grow call) }
    {
        let Some(stamp) = self.next_stamp() else {
            return Err(CallFault::Spent);
        };
        self.reserve_calls(1)?;
        soundness_is_kept();
        let told = self.history.enter(&mut self.table, stamp, worker, call)?;
        count_call(&mut self.calls, worker);
        Ok(told)
    }

    /// Makes a query of the worker but `NSpid` as [`Kept::make_call`] does. It is counted first, as nothing can fail
    /// behind the room for its entry.
    #[inline(always)]
    pub fn make_query(&mut self, worker: usize, query: Call) -> Result<ShortReply, CallFault>
        requires known { worker < length self.old.cut }
        requires asks { IsTrue (is_query query) }
        requires short { answers_list query ≡ false }
        ensures step { OnOk result (self.new.present ≡ (outcome self.old query).state) }
        ensures reply { IfOk result (λ told. reply_of told ≡ (outcome self.old query).reply) }
        ensures history { OnOk result (self.new.entries ≡ self.old.entries ++ entry_of self.old worker query ∷ []) }
        ensures others { OnOk result (self.new ≡ counted self.old self.new.entries self.new.present self.new.memory) }
        ensures room { self.old.memory.room ≤ self.new.memory.room + 1 }
        ensures moved { OnOk result (IsCaughtUp 2 self.old.memory.waits self.new.memory.waits) }

        ensures spent { (result ≡ Err CallFault.Spent) ↔ (next_stamp self.old ≡ u64.MAX) }
        ensures err { OnErr result (MakesRoom self.old self.new) }
        ensures no_memory { result ≡ Err CallFault.NoMemory → self.old.memory.room ≡ 0 }
    {
        let Some(_) = self.next_stamp() else {
            return Err(CallFault::Spent);
        };
        self.reserve_calls(1)?;
        nothing_changes();
        let calls = &mut self.calls;
        count_call(calls, worker);
        Ok(self.history.enter_query(&self.table, worker, query))
    }

    /// Makes the call `NSpid` of the worker as [`Kept::make_call`] does, and tells its reply as [`PidTable::ns_pid`]
    /// does. Where it is not made, the numbers are as they were.
    #[inline(always)]
    pub fn make_ns_pid(
        &mut self,
        worker: usize,
        caller: Pid,
        target: Pid,
        numbers: &mut [Pid; LEVELS],
    ) -> Result<Result<usize, Refusal>, CallFault>
        requires { worker < length self.old.cut }
        ensures step { OnOk result (self.new.present ≡ (outcome self.old (NsPid caller target)).state) }
        ensures reply { IfOk result (λ told.
            IsWritten told numbers.new (outcome self.old (NsPid caller target)).reply) }
        ensures zeroes { IfOk result (λ told. HasZeroesBehind told numbers.new) }
        ensures history { OnOk result
            (self.new.entries ≡ self.old.entries ++ entry_of self.old worker (NsPid caller target) ∷ []) }
        ensures others { OnOk result (self.new ≡ counted self.old self.new.entries self.new.present self.new.memory) }
        ensures room { self.old.memory.room ≤ self.new.memory.room + 1 }
        ensures moved { OnOk result (IsCaughtUp 2 self.old.memory.waits self.new.memory.waits) }

        ensures spent { (result ≡ Err CallFault.Spent) ↔ (next_stamp self.old ≡ u64.MAX) }
        ensures err { OnErr result (MakesRoom self.old self.new) }
        ensures err_written { OnErr result (numbers.new ≡ numbers.old) }
        ensures no_memory { result ≡ Err CallFault.NoMemory → self.old.memory.room ≡ 0 }
    {
        let Some(_) = self.next_stamp() else {
            return Err(CallFault::Spent);
        };
        self.reserve_calls(1)?;
        let told = self
            .history
            .enter_ns_pid(&self.table, worker, caller, target, numbers);
        let calls = &mut self.calls;
        count_call(calls, worker);
        Ok(told)
    }

    /// Cuts the first kept entry away: the state that its call leads to is the opening. It answers whether there was
    /// one to cut. Where the opening is held as a snapshot no call can be made on it, and the answer is no: so it is
    /// where the record goes on from a saved table, and has no second table by [`Kept::give_opening`].
    ///
    /// It costs what the call costs. Where that finds no memory the entry is cut all the same, and its call is made
    /// later: at a later call or a later cut.
    pub fn cut_first(&mut self) -> bool
        ensures cut { IsTrue result → IsWithoutFirst 1 self.old self.new }
        ensures room { self.old.memory.room ≤ self.new.memory.room }
        ensures moved { IsTrue result
            → IsCaughtUp 3 (one_more self.old.memory.waits) self.new.memory.waits }
        ensures none { result ≡ false → self.new ≡ self.old }
        ensures steps { IsTrue result ↔ (self.old.by_steps ≡ true) × (self.old.entries ≢ []) }
    {
        soundness_is_kept();
        bound_stays();
        let Some(worker) = self.history.cut_first() else {
            return false;
        };
        count_call(&mut self.cut, worker);
        self.first_kept += 1;
        true
    }

    /// Makes a call of the worker as [`Kept::make_call`] does, writes the reply, and then keeps at most so many
    /// entries, the call's among them: [`Kept::keep_at_most`]. So a bound that was lowered is reached by the next
    /// calls, one entry a call nearer, and no call waits for all. An error changes nothing.
    pub fn make_call_keeping(
        &mut self,
        worker: usize,
        call: Call,
        keep: u64,
        reply: &mut Reply,
    ) -> Result<(), CallFault>
        requires { worker < length self.old.cut }
        ensures step { OnOk result (self.new.present ≡ (outcome self.old call).state) }
        ensures reply { OnOk result (reply.new ≡ (outcome self.old call).reply) }
        ensures cut { OnOk result (IsWithoutFirst (to_cut (after_recorded self.old worker call) keep)
            (after_recorded self.old worker call) self.new) }
        ensures bound { OnOk result
            ((length self.new.entries ≤ keep) ⊎ (length self.new.entries < length self.old.entries)) }
        ensures fewer { OnOk result (FewerWait self.old.memory.waits self.new.memory.waits) }

        ensures spent { (result ≡ Err CallFault.Spent) ↔ (next_stamp self.old ≡ u64.MAX) }
        ensures err { OnErr result (MakesRoom self.old self.new) }
        ensures err_reply { OnErr result (reply.new ≡ reply.old) }
        ensures no_memory { result ≡ Err CallFault.NoMemory → 0 < self.old.memory.room → IsTrue (may_grow call) }
    {
        self.make_call(worker, call)?;
        let Some(made) = self.last_reply() else {
            unreachable!()
        };
        *reply = made;
        self.keep_at_most(keep);
        Ok(())
    }

    /// Gives a record that goes on from a saved table a second table of the same state, which lags behind from now on:
    /// so its history is cut without a copy of the table. Where the record holds its opening already, this does
    /// nothing.
    pub fn give_opening(&mut self, opening: PidTable)
        requires { opening ≡ self.old.opening }
        ensures given { self.new ≡ record self.old { memory = self.new.memory; by_steps = true } }
        ensures waits { self.new.memory.waits ≡ self.old.memory.waits }
    {
        self.history.give(opening);
    }

    /// Cuts first kept entries away where more than so many are kept: two at most, so that no caller waits long. Where
    /// none can be cut alone ([`Kept::cut_first`]), it cuts all, and the next call pays for a copy of the table.
    pub fn keep_at_most(&mut self, keep: u64)
        ensures cut { IsWithoutFirst (to_cut self.old keep) self.old self.new }
        ensures bound { (length self.new.entries ≤ keep) ⊎ (length self.new.entries + 2 ≤ length self.old.entries) }
        ensures moved { (self.new.memory.waits ≡ self.old.memory.waits)
            ⊎ FewerWait self.old.memory.waits self.new.memory.waits }
    {
        self.cut_to(keep);
        self.cut_to(keep);
    }

    /// Cuts the first kept entry away where more than so many are kept, or all.
    fn cut_to(&mut self, keep: u64)
        ensures cut { IsWithoutFirst (to_cut_once self.old keep) self.old self.new }
        ensures bound { (length self.new.entries ≤ keep) ⊎ (length self.new.entries + 1 ≤ length self.old.entries) }
        ensures moved { WaitsByCut self.old.memory.waits self.new.memory.waits }
    {
        if self.history.len() as u64 <= keep {
            return;
        }
        if !self.cut_first() {
            self.cut_at_once();
        }
    }

    /// Makes the present state the opening, and forgets the history and the room for it. It takes no memory.
    fn cut_at_once(&mut self)
        requires some { self.old.entries ≢ [] }
        requires fixed { self.old.by_steps ≡ false }
        ensures cut { IsWithoutFirst (length self.old.entries) self.old self.new }
        ensures entries { self.new.entries ≡ [] }
        ensures waits { self.new.memory.waits ≡ nobody_waits }
    {
        soundness_is_kept();
        bound_stays();
        self.first_kept += self.history.len() as u64;
        cut_all(&mut self.cut, self.calls.as_slice());
        self.history
            .forget(self.config.first_stamp() + self.first_kept);
    }
}

/// The numbers added up, or the greatest number where the sum is above it.
fn added(counts: &[u64]) -> u64
    ensures exact { sum counts.now < u64.MAX → result ≡ sum counts.now }
    ensures great { u64.MAX ≤ sum counts.now → result ≡ u64.MAX }
{
    let mut all = 0u64;
    for place in 0..counts.len() {
        all = all.saturating_add(counts[place]);
    }
    all
}

/// Keeps how many calls of each worker there were, where all are cut away.
#[inline(always)]
fn cut_all(cut: &mut Vec<u64>, calls: &[u64])
    requires { length cut.old.items ≡ length calls.now }
    ensures { cut.new.items ≡ calls.now }
{
    cut.copy_from_slice(calls);
}

/// Counts a call of the worker.
#[inline(always)]
fn count_call(calls: &mut Vec<u64>, worker: usize)
    requires known { worker < length calls.old.items }
    requires fits { sum calls.old.items + 1 < 2 ^ 64 }
    ensures each { (w : ℕ) → slice_index calls.new.items w ≡ slice_index calls.old.items w + one_of worker w }
    ensures all { sum calls.new.items ≡ sum calls.old.items + 1 }
    ensures len { length calls.new.items ≡ length calls.old.items }
{
    calls[worker] += 1;
}
