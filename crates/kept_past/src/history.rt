//! The kept history: its entries, and the state that they begin in.
//!
//! That state is held in a table of its own, which lags behind the present one by the kept calls. An entry is cut away
//! in two steps. From the first on it is no longer kept, and it waits at the front of the ring. In the second its call
//! is made on what is held, and it is dropped. Contracts see the state that the calls which wait will lead to. So
//! nothing is seen of the second step, which may find no memory.
ghost use Rattle.std.specs.Prelude.{◌≡◌, ◌≢◌, ◌+◌, ◌-◌, ◌<◌, ◌≤◌, ◌^◌, ◌↔◌, ◌⊎◌, Some, None, IfOk, IfSome, OnOk, OnErr};
ghost use Rattle.std.specs.Prelude.{ℕ, true, false, not, List, [], ◌∷◌, ◌++◌, length, slice_get, option_map, IsTrue};
ghost use Rattle.{
  pid_types.specs.declared.{call.Call.TheVariants.{NsPid}, entry.Entry.{Entry}, reply.ShortReply.TheVariants.{Refused}},
  pid_types.specs.{Replay.{state_after, calls_of}, Short.{list_reply, reply_of}, Shown.{Shows}, Sound.{IsBelow}},
  pid_types.specs.{State.{State, root_state}, Step.{step, may_grow}, Written.{IsWritten}},
  kept_past.specs.Stored.{replies_of, IsToldOf, TellsIfShort},
  kept_past.specs.Past.{held_fixed, moves_or, nobody_waits, one_more, opening_of, IsCaughtUp, IsCutOnce},
  model_laws.specs.Refusals.{is_query},
  pid_table.specs.Lists.{answers_list},
  translate.specs.Zeroes.{HasZeroesBehind},
};

use crate::opening::Opening;
use crate::ring::Ring;
use model_laws::soundness::soundness_is_kept;
use pid_table::PidTable;
use pid_types::call::Call;
use pid_types::config::Config;
use pid_types::entry::Entry;
use pid_types::keys::Pid;
use pid_types::plain::{LEVELS, Plain};
use pid_types::reply::{Refusal, Reply, ShortReply};
use std::alloc::{AllocError, Global};
use std::marker::Model;

/// How many of the calls that wait a recorded call makes. A cut adds one to them, and makes one more.
const STEPS: usize = 2;

/// The kept entries, and the state that they begin in. Contracts see that state, the kept entries, the stamp of the
/// first of them, how many entries wait, and for how many more there is room.
pub struct History {
    // What the entries of the ring begin in. There is none while that is the present state, and the ring is empty.
    held: Option<Opening>,
    // First the entries that wait, and then the kept ones.
    ring: Ring,
    lag: usize,
    // The stamp of the first entry of the ring.
    stamp: u64,
}

// Written out, and not derived: so the crate above cites this drop, and does not prove it anew.
impl Drop for History {
    fn drop(self) {
        let History {
            held: _,
            ring: _,
            lag: _,
            stamp: _,
        } = self;
    }
}

impl Model for History {
    ghost use Rattle.kept_past.specs.Past.{Past, past_of, IsPast};

    ghost Value = { Past };

    ghost view = { λ a. past_of a.held a.ring.entries a.lag a.stamp a.ring.room };

    ghost invariant = { λ a. IsPast a.held a.ring.entries a.lag a.stamp };
}

impl History {
    /// No entry, and the present state as the opening. The next call has the stamp.
    pub fn new(alloc: Global, stamp: u64) -> History
        ensures { result ≡ record {
          opening = None;
          is_fixed = false;
          entries = [];
          stamp = stamp;
          waits = nobody_waits;
          room = result.room;
        } }
    {
        History {
            held: None,
            ring: Ring::new(alloc),
            lag: 0,
            stamp,
        }
    }

    /// How many entries are kept.
    #[inline(always)]
    pub fn len(&self) -> usize
        ensures { result ≡ length self.now.entries }
    {
        self.ring.len() - self.lag
    }

    /// The stamp that is behind those of the kept entries. It costs two reads.
    #[inline(always)]
    pub fn next_stamp(&self) -> u64
        requires { self.now.stamp + length self.now.entries < 2 ^ 64 }
        ensures { result ≡ self.now.stamp + length self.now.entries }
    {
        self.stamp + self.ring.len() as u64
    }

    /// Whether the opening is the present state as it is.
    #[inline(always)]
    pub fn is_bare(&self) -> bool
        ensures bare { IsTrue result ↔ (self.now.opening ≡ None) }
        ensures nobody { IsTrue result → self.now.waits.many ≡ 0 }
    {
        self.held.is_none()
    }

    /// The kept entry at a place.
    pub fn entry(&self, place: u64) -> Option<Entry>
        ensures { result ≡ slice_get self.now.entries place }
    {
        let all = self.ring.len();
        if place >= (all - self.lag) as u64 {
            return None;
        }
        self.ring.get(self.lag + place as usize)
    }

    /// Whose call the kept entry at a place has. It reads nothing else of it.
    #[inline(always)]
    pub fn worker_at(&self, place: u64) -> Option<usize>
        ensures { result ≡ option_map (λ (e : Entry). e.worker) (slice_get self.now.entries place) }
    {
        let all = self.ring.len();
        if place >= (all - self.lag) as u64 {
            return None;
        }
        Some(self.ring.worker_at(self.lag + place as usize))
    }

    /// The reply of the last kept entry.
    pub fn last_reply(&self) -> Option<Reply>
        ensures { result
            ≡ option_map (λ (e : Entry). e.reply) (slice_get self.now.entries (length self.now.entries - 1)) }
    {
        let kept = self.len() as u64;
        if kept == 0 {
            return None;
        }
        let Entry {
            worker: _,
            call: _,
            reply,
        } = self.entry(kept - 1)?;
        Some(reply)
    }

    /// The numbers of the last kept entry's reply, where that is a list, lent from there.
    pub fn last_list(&self) -> Option<&[Pid]>
        ensures list { IfSome result (λ list.
            slice_get (replies_of self.now.entries) (length self.now.entries - 1) ≡ Some (list_reply list.now)) }
        ensures all { (list : List ℕ) →
            slice_get (replies_of self.now.entries) (length self.now.entries - 1) ≡ Some (list_reply list)
            → result ≢ None }
        ensures fits { IfSome result (λ list. length list.now ≤ LEVELS) }
    {
        if self.len() == 0 {
            return None;
        }
        self.ring.last_list()
    }

    /// The state that the kept entries begin in: where there are none, the present one. The error is want of memory,
    /// here or before: where calls wait, they found none.
    pub fn snapshot(&self, present: &PidTable) -> Result<Plain, AllocError>
        requires { self.now.entries ≡ [] → opening_of self.now.opening present.now ≡ present.now }
        ensures { IfOk result (Shows (opening_of self.now.opening present.now)) }
    {
        if self.len() == 0 {
            return present.snapshot();
        }
        let Some(held) = &self.held else {
            unreachable!()
        };
        if self.lag > 0 {
            return Err(AllocError);
        }
        held.snapshot(self.ring.allocator())
    }

    /// Where the opening is the present state, holds that from now on. The root init's state, where it is that of the
    /// settings, takes no memory. The error is want of memory.
    #[inline(always)]
    pub fn begin(
        &mut self,
        table: &PidTable,
        config: &Config,
        is_root: bool,
    ) -> Result<(), AllocError>
        requires below { self.old.opening ≡ None → IsBelow self.old.stamp table.now }
        requires root { IsTrue is_root → self.old.opening ≡ None → table.now ≡ root_state config.now.pid_max }
        ensures ok { OnOk result (self.new ≡ record self.old {
          opening = Some (opening_of self.old.opening table.now);
          is_fixed = self.new.is_fixed;
        }) }
        ensures moves { OnOk result (not self.new.is_fixed ≡ moves_or self.old.opening self.old.is_fixed is_root) }
        ensures err { OnErr result (self.new ≡ self.old) }
        ensures none { OnErr result (self.old.opening ≡ None) }
    {
        if self.is_bare() {
            return self.hold(table, config, is_root);
        }
        Ok(())
    }

    /// Holds the present state, which is the opening. It is not inlined, since a call rarely comes here.
    #[cold]
    #[inline(never)]
    fn hold(&mut self, table: &PidTable, config: &Config, is_root: bool) -> Result<(), AllocError>
        requires bare { self.old.opening ≡ None }
        requires below { IsBelow self.old.stamp table.now }
        requires root { IsTrue is_root → table.now ≡ root_state config.now.pid_max }
        ensures ok { OnOk result (self.new ≡ record self.old { opening = Some table.now; is_fixed = not is_root }) }
        ensures err { OnErr result (self.new ≡ self.old) }
    {
        table.laws();
        let opening = opening_at(table, config, is_root)?;
        self.held = Some(opening);
        Ok(())
    }

    /// Holds a table whose state is the opening, unless what is held moves on by calls already.
    pub fn give(&mut self, table: PidTable)
        requires below { self.old.opening ≡ None → IsBelow self.old.stamp table }
        requires same { self.old.opening ≡ None ⊎ self.old.opening ≡ Some table }
        ensures { self.new ≡ record self.old { opening = Some table; is_fixed = false } }
    {
        if self.is_bare() || is_fixed(&self.held) {
            self.hold_table(table);
        }
    }

    /// Holds a table whose state is the opening, in place of a snapshot or of nothing.
    fn hold_table(&mut self, table: PidTable)
        requires below { self.old.opening ≡ None → IsBelow self.old.stamp table }
        requires same { self.old.opening ≡ None ⊎ (self.old.is_fixed ≡ true) × (self.old.opening ≡ Some table) }
        ensures { self.new ≡ record self.old { opening = Some table; is_fixed = false } }
    {
        table.laws();
        self.held = Some(Opening::table(table));
    }

    /// Makes room for n more entries. The error is want of memory.
    #[inline(always)]
    pub fn reserve(&mut self, n: usize) -> Result<(), AllocError>
        ensures same { self.new ≡ record self.old { room = self.new.room } }
        ensures ok { OnOk result (n ≤ self.new.room) }
        ensures room { self.old.room ≤ self.new.room }
        ensures enough { OnErr result (self.old.room < n) }
    {
        self.ring.reserve(n)
    }

    /// Makes a call, and enters it with its reply behind the others. It answers the reply, unless that is a list:
    /// that is in the entry alone. The error is want of memory, and then there is no entry.
    #[inline(always)]
    pub fn enter(
        &mut self,
        table: &mut PidTable,
        stamp: u64,
        worker: usize,
        call: Call,
    ) -> Result<Option<ShortReply>, AllocError>
        requires below { IsBelow stamp table.old }
        requires room { 0 < self.old.room }
        requires begun { self.old.opening ≢ None }
        requires fits { self.old.stamp < 2 ^ 64 }
        ensures state { OnOk result (table.new ≡ (step table.old stamp call).state) }
        ensures reply { TellsIfShort result (step table.old stamp call).reply }
        ensures entry { OnOk result (self.new ≡ record self.old {
          entries = self.old.entries
              ++ record { worker = worker; call = call; reply = (step table.old stamp call).reply } ∷ [];
          waits = self.new.waits;
          room = self.new.room;
        }) }
        ensures moved { OnOk result (IsCaughtUp STEPS self.old.waits self.new.waits) }
        ensures room { self.old.room ≤ self.new.room + 1 }
        ensures err { OnErr result (table.new ≡ table.old) }
        ensures none { OnErr result (self.new ≡ self.old) }
        ensures grows { OnErr result (IsTrue (may_grow call)) }
    {
        let told = enter_call(table, &mut self.ring, stamp, worker, call)?;
        self.catch_up_some();
        Ok(told)
    }

    /// Makes a query but `NSpid`, and enters it with its reply behind the others. The calls that wait are made first:
    /// so nothing stands between the answer and its entry.
    #[inline(always)]
    pub fn enter_query(&mut self, table: &PidTable, worker: usize, query: Call) -> ShortReply
        requires asks { IsTrue (is_query query) }
        requires short { answers_list query ≡ false }
        requires room { 0 < self.old.room }
        requires begun { self.old.opening ≢ None }
        requires fits { self.old.stamp < 2 ^ 64 }
        ensures reply { (stamp : ℕ) → reply_of result ≡ (step table.now stamp query).reply }
        ensures entry { (stamp : ℕ) → self.new ≡ record self.old {
          entries = self.old.entries
              ++ record { worker = worker; call = query; reply = (step table.now stamp query).reply } ∷ [];
          waits = self.new.waits;
          room = self.new.room;
        } }
        ensures moved { IsCaughtUp STEPS self.old.waits self.new.waits }
        ensures room { self.old.room ≤ self.new.room + 1 }
    {
        self.catch_up_some();
        enter_answer(table, &mut self.ring, worker, query)
    }

    /// Makes the call `NSpid`, and enters it with its reply behind the others. It tells that as [`PidTable::ns_pid`]
    /// does.
    #[inline(always)]
    pub fn enter_ns_pid(
        &mut self,
        table: &PidTable,
        worker: usize,
        caller: Pid,
        target: Pid,
        numbers: &mut [Pid; LEVELS],
    ) -> Result<usize, Refusal>
        requires room { 0 < self.old.room }
        requires begun { self.old.opening ≢ None }
        requires fits { self.old.stamp < 2 ^ 64 }
        ensures reply { (stamp : ℕ) →
            IsWritten result numbers.new (step table.now stamp (NsPid caller target)).reply }
        ensures zeroes { HasZeroesBehind result numbers.new }
        ensures entry { (stamp : ℕ) → self.new ≡ record self.old {
          entries = self.old.entries ++ record {
            worker = worker;
            call = NsPid caller target;
            reply = (step table.now stamp (NsPid caller target)).reply;
          } ∷ [];
          waits = self.new.waits;
          room = self.new.room;
        } }
        ensures moved { IsCaughtUp STEPS self.old.waits self.new.waits }
        ensures room { self.old.room ≤ self.new.room + 1 }
    {
        let told = enter_list(table, &mut self.ring, worker, caller, target, numbers);
        self.catch_up_some();
        told
    }

    /// Cuts the first kept entry away, and answers whose call it was; none where there is no entry, or no call can be
    /// made on what is held. The entry's call waits then. Of the calls that wait it makes three at most, and stops
    /// where there is no memory.
    pub fn cut_first(&mut self) -> Option<usize>
        requires { self.old.stamp + length self.old.entries < 2 ^ 64 }
        ensures cut { IfSome result (λ worker. IsCutOnce worker self.old self.new) }
        ensures moved { result ≢ None → IsCaughtUp (STEPS + 1) (one_more self.old.waits) self.new.waits }
        ensures room { self.old.room ≤ self.new.room }
        ensures none { result ≡ None → self.new ≡ self.old }
        ensures some { (result ≡ None) ↔ ((self.old.is_fixed ≡ true) ⊎ (self.old.entries ≡ [])) }
    {
        if is_fixed(&self.held) || self.lag == self.ring.len() {
            return None;
        }
        let worker = self.ring.worker_at(self.lag);
        self.lag += 1;
        self.catch_up(STEPS + 1);
        Some(worker)
    }

    /// Cuts all kept entries away. What is held moves on by their calls; a snapshot is taken anew, and only then the
    /// error comes: want of memory.
    pub fn cut_all(&mut self, table: &PidTable) -> Result<(), AllocError>
        requires ends { (opening : State) → self.old.opening ≡ Some opening
            → table.now ≡ state_after opening self.old.stamp (calls_of self.old.entries) }
        requires begun { self.old.opening ≢ None }
        requires below { IsBelow (self.old.stamp + length self.old.entries) table.now }
        requires fits { self.old.stamp + length self.old.entries < 2 ^ 64 }
        ensures ok { OnOk result (self.new ≡ record {
          opening = Some table.now;
          is_fixed = self.old.is_fixed;
          entries = [];
          stamp = self.old.stamp + length self.old.entries;
          waits = self.new.waits;
          room = self.new.room;
        }) }
        ensures moved { OnOk result ((self.new.waits.many ≡ 0) ⊎ (self.new.waits.may_starve ≡ true)) }
        ensures room { self.old.room ≤ self.new.room }
        ensures err { OnErr result (self.new ≡ self.old) }
        ensures fixed { OnErr result (self.old.is_fixed ≡ true) }
    {
        if is_fixed(&self.held) {
            return self.copy(table);
        }
        let all = self.ring.len();
        self.lag = all;
        self.catch_up(all);
        Ok(())
    }

    /// Forgets what is held, and all entries: the opening is the present state, whose next call has the stamp.
    #[inline(always)]
    pub fn forget(&mut self, stamp: u64)
        ensures { self.new ≡ record {
          opening = None;
          is_fixed = false;
          entries = [];
          stamp = stamp;
          waits = nobody_waits;
          room = self.new.room;
        } }
    {
        empty(&mut self.held, &mut self.ring, &mut self.lag);
        self.stamp = stamp;
    }

    /// Makes some of the calls that wait, where there are any.
    #[inline(always)]
    fn catch_up_some(&mut self)
        requires { self.old.stamp < 2 ^ 64 }
        ensures same { self.new ≡ record self.old { waits = self.new.waits; room = self.new.room } }
        ensures moved { IsCaughtUp STEPS self.old.waits self.new.waits }
        ensures room { self.old.room ≤ self.new.room }
    {
        if self.lag > 0 {
            self.catch_up(STEPS);
        }
    }

    /// Makes at most so many calls that wait. It stops where there is no memory.
    #[inline(never)]
    fn catch_up(&mut self, most: usize)
        requires { self.old.stamp < 2 ^ 64 }
        ensures same { self.new ≡ record self.old { waits = self.new.waits; room = self.new.room } }
        ensures moved { IsCaughtUp most self.old.waits self.new.waits }
        ensures room { self.old.room ≤ self.new.room }
    {
        for _ in 0..most {
            if self.lag == 0 || self.move_on().is_err() {
                return;
            }
        }
    }

    /// Makes the first call that waits on what is held, and drops its entry. The error is want of memory, and then it
    /// waits on.
    fn move_on(&mut self) -> Result<(), AllocError>
        requires waits { 0 < self.old.waits.many }
        requires fits { self.old.stamp < 2 ^ 64 }
        ensures ok { OnOk result (self.new ≡ record self.old { waits = self.new.waits; room = self.new.room }) }
        ensures fewer { OnOk result (self.new.waits.many + 1 ≡ self.old.waits.many) }
        ensures starves { OnErr result (self.old.waits.may_starve ≡ true) }
        ensures room { self.old.room ≤ self.new.room }
        ensures err { OnErr result (self.new ≡ self.old) }
    {
        soundness_is_kept();
        let alloc = self.ring.allocator();
        let Some(held) = &mut self.held else {
            unreachable!()
        };
        let Some(call) = self.ring.first_call() else {
            unreachable!()
        };
        held.make(alloc, self.stamp, call)?;
        self.ring.pop();
        self.lag -= 1;
        self.stamp += 1;
        Ok(())
    }

    /// Holds a snapshot of the present state in place of another, and drops all entries. The error is want of memory.
    fn copy(&mut self, table: &PidTable) -> Result<(), AllocError>
        requires none_waits { self.old.waits.many ≡ 0 }
        requires below { IsBelow (self.old.stamp + length self.old.entries) table.now }
        requires fits { self.old.stamp + length self.old.entries < 2 ^ 64 }
        ensures ok { OnOk result (self.new ≡ record {
          opening = Some table.now;
          is_fixed = true;
          entries = [];
          stamp = self.old.stamp + length self.old.entries;
          waits = nobody_waits;
          room = self.new.room;
        }) }
        ensures room { self.old.room ≤ self.new.room }
        ensures err { OnErr result (self.new ≡ self.old) }
    {
        table.laws();
        let anew = Opening::copy(table)?;
        self.stamp += self.ring.len() as u64;
        self.ring.clear();
        self.held = Some(anew);
        Ok(())
    }
}

/// Whether a state is held on which no call can be made.
#[inline(always)]
fn is_fixed(held: &Option<Opening>) -> bool
    ensures { result ≡ held_fixed held.now }
{
    match held {
        Some(held) => held.is_fixed(),
        None => false,
    }
}

/// The table's state, which may be the root init's, to be held. The error is want of memory.
fn opening_at(table: &PidTable, config: &Config, is_root: bool) -> Result<Opening, AllocError>
    requires { IsTrue is_root → table.now ≡ root_state config.now.pid_max }
    ensures { IfOk result (λ opening. opening
        ≡ record { state = table.now; is_fixed = not is_root; is_new = is_root }) }
{
    if is_root {
        return Ok(Opening::root(*config));
    }
    Opening::copy(table)
}

/// Lets go of what is held, of which there mostly is none.
#[inline(always)]
fn empty(held: &mut Option<Opening>, ring: &mut Ring, lag: &mut usize)
    requires bare { held.old ≡ None → (ring.old.entries ≡ []) × (lag.old ≡ 0) }
    ensures held { held.new ≡ None }
    ensures ring { ring.new.entries ≡ [] }
    ensures lag { lag.new ≡ 0 }
{
    if held.is_some() {
        *held = None;
        ring.clear();
        *lag = 0;
    }
}

/// Makes a call, and enters it with its reply behind the ring's entries, for which there is room. It answers the reply,
/// unless that is a list. The error is want of memory, and then there is no entry.
#[inline(always)]
fn enter_call(
    table: &mut PidTable,
    ring: &mut Ring,
    stamp: u64,
    worker: usize,
    call: Call,
) -> Result<Option<ShortReply>, AllocError>
    requires below { IsBelow stamp table.old }
    requires room { 0 < ring.old.room }
    ensures state { OnOk result (table.new ≡ (step table.old stamp call).state) }
    ensures reply { TellsIfShort result (step table.old stamp call).reply }
    ensures ring { OnOk result (ring.new.entries ≡ ring.old.entries
        ++ record { worker = worker; call = call; reply = (step table.old stamp call).reply } ∷ []) }
    ensures left { ring.old.room ≤ ring.new.room + 1 }
    ensures err { OnErr result (table.new ≡ table.old) }
    ensures none { OnErr result (ring.new ≡ ring.old) }
    ensures grows { OnErr result (IsTrue (may_grow call)) }
{
    if let Call::NsPid { caller, target } = call {
        return Ok(enter_unseen(table, ring, worker, caller, target));
    }
    let short = table.step_short(stamp, call)?;
    ring.push_short(worker, call, short);
    Ok(Some(short))
}

/// Makes a query but `NSpid`, and enters it with its reply behind the ring's entries, for which there is room.
#[inline(always)]
fn enter_answer(table: &PidTable, ring: &mut Ring, worker: usize, query: Call) -> ShortReply
    requires asks { IsTrue (is_query query) }
    requires short { answers_list query ≡ false }
    requires room { 0 < ring.old.room }
    ensures reply { (stamp : ℕ) → reply_of result ≡ (step table.now stamp query).reply }
    ensures ring { (stamp : ℕ) → ring.new.entries ≡ ring.old.entries
        ++ record { worker = worker; call = query; reply = (step table.now stamp query).reply } ∷ [] }
    ensures left { ring.old.room ≤ ring.new.room + 1 }
{
    let told = table.ask_short(query);
    if let ShortReply::Refused(refusal) = told {
        return enter_refusal(ring, worker, query, refusal);
    }
    ring.push_short(worker, query, told);
    told
}

/// Enters a call that was refused behind the ring's entries, for which there is room, and answers the refusal. It is
/// not inlined: so the compiler need not keep in mind whether a call was refused.
#[cold]
#[inline(never)]
fn enter_refusal(ring: &mut Ring, worker: usize, call: Call, refusal: Refusal) -> ShortReply
    requires { 0 < ring.old.room }
    ensures reply { result ≡ Refused refusal }
    ensures ring { ring.new.entries ≡ ring.old.entries
        ++ record { worker = worker; call = call; reply = reply_of (Refused refusal) } ∷ [] }
    ensures left { ring.old.room ≤ ring.new.room + 1 }
{
    let told = ShortReply::Refused(refusal);
    ring.push_short(worker, call, told);
    told
}

/// Makes the call `NSpid`, and enters it as [`enter_call`] does, which tells no list. It is not inlined, since the
/// others need no room for one.
#[inline(never)]
fn enter_unseen(
    table: &PidTable,
    ring: &mut Ring,
    worker: usize,
    caller: Pid,
    target: Pid,
) -> Option<ShortReply>
    requires room { 0 < ring.old.room }
    ensures reply { (stamp : ℕ) → IsToldOf (step table.now stamp (NsPid caller target)).reply result }
    ensures ring { (stamp : ℕ) → ring.new.entries ≡ ring.old.entries ++ record {
      worker = worker;
      call = NsPid caller target;
      reply = (step table.now stamp (NsPid caller target)).reply;
    } ∷ [] }
    ensures left { ring.old.room ≤ ring.new.room + 1 }
{
    let mut numbers = [0; LEVELS];
    match enter_list(table, ring, worker, caller, target, &mut numbers) {
        Ok(_) => None,
        Err(refusal) => Some(ShortReply::Refused(refusal)),
    }
}

/// Makes the call `NSpid`, and enters it with its reply behind the ring's entries, for which there is room. It tells
/// the reply as [`PidTable::ns_pid`] does.
#[inline(always)]
fn enter_list(
    table: &PidTable,
    ring: &mut Ring,
    worker: usize,
    caller: Pid,
    target: Pid,
    numbers: &mut [Pid; LEVELS],
) -> Result<usize, Refusal>
    requires { 0 < ring.old.room }
    ensures reply { (stamp : ℕ) →
        IsWritten result numbers.new (step table.now stamp (NsPid caller target)).reply }
    ensures zeroes { HasZeroesBehind result numbers.new }
    ensures ring { (stamp : ℕ) → ring.new.entries ≡ ring.old.entries ++ record {
      worker = worker;
      call = NsPid caller target;
      reply = (step table.now stamp (NsPid caller target)).reply;
    } ∷ [] }
    ensures left { ring.old.room ≤ ring.new.room + 1 }
{
    let call = Call::NsPid { caller, target };
    let told = table.ns_pid(caller, target, numbers);
    match told {
        Ok(count) => ring.push_list(worker, call, numbers, count),
        Err(refusal) => ring.push_short(worker, call, ShortReply::Refused(refusal)),
    }
    told
}
