//! The record: the present state, the history of its calls, and the ledger's book.
//!
//! One thread may use a record as it is, with [`Record::act`]; several share it as a
//! [`crate::Shared`], whose guard lends it. The history grows by an entry of 64 bytes with each
//! call, and by the numbers of a list, until a [`Record::checkpoint`] empties it. [`Record::make_call_keeping`] bounds
//! it.
ghost use Rattle.std.specs.Prelude.{◌≡◌, ℕ, ◌+◌, ◌^◌, ◌<◌, ◌≤◌, [], ◌∷◌, ◌++◌, ◌↔◌, IsTrue, IfOk, OnOk, OnErr, IsOk};
ghost use Rattle.std.specs.{Prelude.{IfSome, Some, None, Err, ◌≢◌, ◌⊎◌, true, false, length, sum}, Option.{option_map}};
ghost use Rattle.{
  pid_types.specs.{declared.plain.Control.{Control}, Membership.{IsIn}, Shown.{Shows}, Sound.{IsBelow}},
  pid_types.specs.{Step.{may_grow}, declared.entry.Entry.{Entry}},
  kept_past.specs.Past.{IsCaughtUp},
  kept_table.specs.Calls.{begun, resumed, outcome, entry_of, after_recorded, counted, cut_at, IsWithoutFirst, to_cut},
  kept_table.specs.Calls.{FewerWait, MakesRoom, NoneWait},
  kept_table.specs.Chronicle.{Chronicle, total, next_stamp, recorded, recorded_by_all, kept_entry, last_reply},
  kept_table.specs.{Promise.{IsSubtreeCount, KeepsPromise}, Whole.{one_of}},
  locked_table.specs.SeatState.{AreSeats, AreCounted, AreRecorded, AreNew, calls_of_seats},
};

use crate::seat::Seat;
use kept_table::Kept;
use pid_table::PidTable;
use pid_types::call::Call;
use pid_types::config::Config;
use pid_types::entry::{Entry, Receipt};
use pid_types::plain::Plain;
use pid_types::reply::{CallFault, Reply};
use std::alloc::{AllocError, Global};
use std::marker::Model;
use std::sync::ledger::{Blank, Book, Ledger, Share};

/// The record of a process table with N workers. Contracts see its configuration, the opening and
/// the present state, the kept history, what was cut away before it, and the room for more entries.
pub struct Record<L: Ledger, const N: usize> {
    kept: Kept,
    book: Book<L>,
}

// Written out, and not derived: so the crates above cite this drop, and do not prove it anew.
impl<L: Ledger, const N: usize> Drop for Record<L, N> {
    fn drop(self) {
        let Record { kept: _, book: _ } = self;
    }
}

impl<L: Ledger, const N: usize> Model for Record<L, N> {
    ghost use Rattle.std.specs.Prelude.{◌≡◌, length};
    ghost use Rattle.kept_table.specs.Chronicle.{Chronicle};

    ghost Value = { Chronicle };

    ghost view = { λ a. a.kept };

    ghost invariant = { λ a. (length a.kept.cut ≡ N) × (a.book.total ≡ a.kept.booked) };
}

impl<L: Ledger, const N: usize> Record<L, N> {
    /// A table with the root init alone, an empty history, and the seats of its workers, worker w's
    /// at place w. The blank has one part for each worker.
    pub fn new(
        alloc: Global,
        blank: Blank,
        config: &Config,
    ) -> Result<(Record<L, N>, Vec<Seat<L, N>>), AllocError>
        requires name { blank.name ≡ L.name }
        requires parts { (blank.parts ≡ L.parts) × (L.parts ≡ N) }
        ensures record { IfOk result (λ r. r.0 ≡ begun config.now N r.0.memory.room) }
        ensures seats { IfOk result (λ r. AreSeats N r.1.items × AreNew r.1.items) }
    {
        with_seats(alloc, blank, Kept::new(alloc, config, N)?)
    }

    /// A record that goes on from a table that was loaded, and the seats of its workers. The table's state is the
    /// opening, the history is empty, and the next call has the stamp. `counts` says for each worker how many calls
    /// were recorded before: so many its seat begins with, and their sum is the ordinal of the next call. The first
    /// stamp of the configuration is so much below the stamp.
    ///
    /// The promise holds of it as of a new one. It says nothing of the calls before, not that there were any. The error
    /// is want of memory.
    pub fn resume(
        alloc: Global,
        blank: Blank,
        table: PidTable,
        stamp: u64,
        counts: &[u64],
    ) -> Result<(Record<L, N>, Vec<Seat<L, N>>), AllocError>
        requires name { blank.name ≡ L.name }
        requires parts { (blank.parts ≡ L.parts) × (L.parts ≡ N) }
        requires workers { length counts.now ≡ N }
        requires below { IsBelow stamp table }
        requires fits { sum counts.now < stamp }
        ensures record { IfOk result (λ r. r.0 ≡ resumed table stamp counts.now r.0.memory.room) }
        ensures seats { IfOk result (λ r. AreSeats N r.1.items × AreCounted N counts.now r.1.items) }
    {
        with_seats(alloc, blank, Kept::resume(alloc, table, stamp, counts)?)
    }

    /// What the record was made with.
    pub fn config(&self) -> Config
        ensures { result ≡ self.now.config }
    {
        self.kept.config()
    }

    /// Whether it goes on from a table that was loaded. Where it does not, the opening is the root init's state until
    /// something is cut away.
    pub fn is_resumed(&self) -> bool
        ensures { result ≡ self.now.is_resumed }
    {
        self.kept.is_resumed()
    }

    /// How many calls were recorded, the cut ones among them.
    ///
    /// Its contract tells what the record promises whenever nobody works on it: for a record behind
    /// a lock, whenever the lock is free.
    pub fn total(&self) -> u64
        ensures value { result ≡ total self.now }
        ensures promise { KeepsPromise self.now }
        ensures workers { result ≡ recorded_by_all N self.now }
    {
        self.kept.total()
    }

    /// How many calls were recorded before the kept ones: the ordinal of the first kept entry.
    pub fn first_kept(&self) -> u64
        ensures { result ≡ self.now.first_kept }
    {
        self.kept.first_kept()
    }

    /// The stamp of the next call; none where that would be `u64::MAX`, which is never a stamp: each recorded call
    /// has one below it. It costs nothing.
    pub fn next_stamp(&self) -> Option<u64>
        ensures none { (result ≡ None) ↔ (next_stamp self.now ≡ u64.MAX) }
        ensures some { IfSome result (λ stamp. stamp ≡ next_stamp self.now) }
        ensures recorded { (ordinal : ℕ) → ordinal < total self.now → self.now.config.first_stamp + ordinal < u64.MAX }
    {
        self.kept.next_stamp()
    }

    /// How many calls of the worker were recorded, the cut ones among them. It costs one read.
    pub fn recorded(&self, worker: usize) -> u64
        requires { worker < N }
        ensures { result ≡ recorded self.now worker }
    {
        self.kept.recorded(worker)
    }

    /// The entry with the ordinal; none where it was cut away, or is not reached yet. It costs the
    /// same for each ordinal.
    pub fn entry(&self, ordinal: u64) -> Option<Entry>
        ensures { result ≡ kept_entry self.now ordinal }
    {
        self.kept.entry(ordinal)
    }

    /// Whose call the entry with the ordinal has: [`Kept::worker_of`].
    #[inline(always)]
    pub fn worker_of(&self, ordinal: u64) -> Option<usize>
        ensures { result ≡ option_map (λ (e : Entry). e.worker) (kept_entry self.now ordinal) }
    {
        self.kept.worker_of(ordinal)
    }

    /// The reply of the last kept entry; none where the history is empty. It costs a copy.
    pub fn last_reply(&self) -> Option<Reply>
        ensures { result ≡ last_reply self.now }
    {
        self.kept.last_reply()
    }

    /// How many tasks the control group with the id and those below it have, ended ones too; none where there is no
    /// such group. It is the number that the table keeps with the group, and that a fork is held against: a search
    /// for the id and one read, with no look at any task.
    ///
    /// Its contract tells the headline's counts of these kept numbers, whenever nobody works on the record.
    pub fn count(&self, control: u64) -> Option<u64>
        ensures none { (result ≡ None) ↔ ((g : Control) → IsIn g self.now.present.controls → g.id ≢ control) }
        ensures some { IfSome result (λ n. IsSubtreeCount self.now.present control n) }
    {
        self.kept.count(control)
    }

    /// How many tasks there are, ended ones too. It costs nothing.
    pub fn tasks(&self) -> usize
        ensures { result ≡ length self.now.present.rows }
    {
        self.kept.tasks()
    }

    /// How many control groups there are, the root group too. It costs nothing.
    pub fn controls(&self) -> usize
        ensures { result ≡ length self.now.present.controls }
    {
        self.kept.controls()
    }

    /// The table as it is now, to be read. It costs nothing.
    pub fn present(&self) -> &PidTable
        ensures { result.now ≡ self.now.present }
    {
        self.kept.present()
    }

    /// The present state. It costs a copy of the whole table.
    pub fn snapshot(&self) -> Result<Plain, AllocError>
        ensures { IfOk result (Shows self.now.present) }
    {
        self.kept.snapshot()
    }

    /// The state that the kept history begins in: the root init's alone, or where entries were cut away the one behind
    /// their calls. The kept calls, made from there in the order of [`Record::entry`], lead to the present state
    /// with the replies of their entries: that is what [`Record::total`] promises as `replayed`. The first of them
    /// has the configuration's first stamp plus [`Record::first_kept`].
    ///
    /// It costs a copy of that whole state. The error is want of memory, here or before ([`Kept::opening`]).
    pub fn opening(&self) -> Result<Plain, AllocError>
        ensures { IfOk result (Shows self.now.opening) }
    {
        self.kept.opening()
    }

    /// Makes room for the entries of n more calls. Each recorded call uses up one of them.
    pub fn reserve_calls(&mut self, n: usize) -> Result<(), AllocError>
        ensures ok { OnOk result (n ≤ self.new.memory.room) }
        ensures makes { MakesRoom self.old self.new }
        ensures enough { n ≤ self.old.memory.room → IsOk result }
    {
        self.kept.reserve_calls(n)
    }

    /// Takes all seats back, and proves that their calls add up to [`Record::total`].
    pub(crate) fn settle(&mut self, seats: Vec<Seat<L, N>>)
        requires seats { AreSeats N seats.items }
        requires parts { (L.parts ≡ N) × (0 < N) }
        ensures total { total self.new ≡ calls_of_seats seats.items }
        ensures same { self.new ≡ self.old }
    {
        let mut all = merge_seats(seats);
        let _total = self.kept.total();
        self.book.audit(&mut all);
    }

    /// Makes the present state the opening, and empties the history. Stamps and ordinals go on, and
    /// the room for entries stays. It costs each kept call once more, or in rare cases a copy of the whole table:
    /// [`Kept::checkpoint`].
    pub fn checkpoint(&mut self) -> Result<(), AllocError>
        ensures ok { OnOk result (self.new ≡ cut_at self.old (total self.old) self.new.cut self.new.memory) }
        ensures recorded { OnOk result
            ((worker : ℕ) → worker < N → recorded self.new worker ≡ recorded self.old worker) }
        ensures room { self.old.memory.room ≤ self.new.memory.room }
        ensures moved { OnOk result (NoneWait self.new.memory.waits) }
        ensures err { OnErr result (self.new ≡ self.old) }
        ensures by_steps { OnErr result (self.old.by_steps ≡ false) }
    {
        self.kept.checkpoint()
    }

    /// Makes a call of the seat's worker, and records it with its reply, whatever that is. `Spent`
    /// is answered first, where the call's stamp would be `u64::MAX`. A call that finds no memory,
    /// for what it makes or for its entry, changes nothing and is not recorded.
    ///
    /// It waits for nobody. Its cost is that of the call on the table ([`PidTable::step`]), and that
    /// of an entry.
    pub fn act(&mut self, seat: &mut Seat<L, N>, call: Call) -> Result<Receipt, CallFault>
        ensures step { IfOk result (λ r. record { state = self.new.present; reply = r.reply } ≡ outcome self.old call) }
        ensures history { IfOk result (λ r. self.new.entries
            ≡ self.old.entries ++ record { worker = seat.old.worker; call = call; reply = r.reply } ∷ []) }
        ensures receipt { IfOk result (λ r.
            r ≡ record { ordinal = total self.old; worker = seat.old.worker; call = call; reply = r.reply }) }
        ensures others { OnOk result (self.new ≡ counted self.old self.new.entries self.new.present self.new.memory) }
        ensures seat { OnOk result (seat.new ≡ record seat.old { calls = seat.old.calls + 1 }) }
        ensures room { self.old.memory.room ≤ self.new.memory.room + 1 }
        ensures moved { OnOk result (IsCaughtUp 2 self.old.memory.waits self.new.memory.waits) }

        ensures spent { (result ≡ Err CallFault.Spent) ↔ (next_stamp self.old ≡ u64.MAX) }
        ensures err { OnErr result (MakesRoom self.old self.new) }
        ensures err_seat { OnErr result (seat.new ≡ seat.old) }
        ensures no_memory { result ≡ Err CallFault.NoMemory → 0 < self.old.memory.room → IsTrue (may_grow call) }
    {
        let ordinal = self.kept.total();
        self.make_call(seat, call)?;
        let Some(reply) = self.kept.last_reply() else {
            unreachable!()
        };
        Ok(Receipt {
            ordinal,
            worker: seat.worker,
            call,
            reply,
        })
    }

    /// Makes a call as [`Record::act`] does, and makes no receipt: [`Record::last_reply`] has the reply.
    #[inline(always)]
    pub fn make_call(&mut self, seat: &mut Seat<L, N>, call: Call) -> Result<(), CallFault>
        ensures step { OnOk result (self.new.present ≡ (outcome self.old call).state) }
        ensures reply { OnOk result (last_reply self.new ≡ Some (outcome self.old call).reply) }
        ensures history { OnOk result
            (self.new.entries ≡ self.old.entries ++ entry_of self.old seat.old.worker call ∷ []) }
        ensures others { OnOk result (self.new ≡ counted self.old self.new.entries self.new.present self.new.memory) }
        ensures seat { OnOk result (seat.new ≡ record seat.old { calls = seat.old.calls + 1 }) }
        ensures room { self.old.memory.room ≤ self.new.memory.room + 1 }
        ensures moved { OnOk result (IsCaughtUp 2 self.old.memory.waits self.new.memory.waits) }

        ensures spent { (result ≡ Err CallFault.Spent) ↔ (next_stamp self.old ≡ u64.MAX) }
        ensures err { OnErr result (MakesRoom self.old self.new) }
        ensures err_seat { OnErr result (seat.new ≡ seat.old) }
        ensures no_memory { result ≡ Err CallFault.NoMemory → 0 < self.old.memory.room → IsTrue (may_grow call) }
    {
        let _total = self.kept.total();
        self.kept.make_call(seat.worker, call)?;
        book_call(&mut self.book, seat);
        Ok(())
    }

    /// Makes a call as [`Record::make_call`] does, writes the reply, and then keeps at most so many entries: it cuts
    /// the first ones away, two at most. So the history stays bounded, and no call waits for a copy of the table. It
    /// costs at most two calls more: [`Kept::make_call_keeping`].
    pub fn make_call_keeping(
        &mut self,
        seat: &mut Seat<L, N>,
        call: Call,
        keep: u64,
        reply: &mut Reply,
    ) -> Result<(), CallFault>
        ensures step { OnOk result (self.new.present ≡ (outcome self.old call).state) }
        ensures reply { OnOk result (reply.new ≡ (outcome self.old call).reply) }
        ensures cut { OnOk result (IsWithoutFirst (to_cut (after_recorded self.old seat.old.worker call) keep)
            (after_recorded self.old seat.old.worker call) self.new) }
        ensures bound { OnOk result
            ((length self.new.entries ≤ keep) ⊎ (length self.new.entries < length self.old.entries)) }
        ensures fewer { OnOk result (FewerWait self.old.memory.waits self.new.memory.waits) }
        ensures seat { OnOk result (seat.new ≡ record seat.old { calls = seat.old.calls + 1 }) }

        ensures spent { (result ≡ Err CallFault.Spent) ↔ (next_stamp self.old ≡ u64.MAX) }
        ensures err { OnErr result (MakesRoom self.old self.new) }
        ensures err_seat { OnErr result (seat.new ≡ seat.old) }
        ensures err_reply { OnErr result (reply.new ≡ reply.old) }
        ensures no_memory { result ≡ Err CallFault.NoMemory → 0 < self.old.memory.room → IsTrue (may_grow call) }
    {
        let _total = self.kept.total();
        self.kept.make_call_keeping(seat.worker, call, keep, reply)?;
        book_call(&mut self.book, seat);
        Ok(())
    }

    /// Gives a record that goes on from a saved table a second table of the same state, so that its history is cut
    /// without a copy of the table: [`Kept::give_opening`].
    pub fn give_opening(&mut self, opening: PidTable)
        requires { opening ≡ self.old.opening }
        ensures given { self.new ≡ record self.old { memory = self.new.memory; by_steps = true } }
        ensures waits { self.new.memory.waits ≡ self.old.memory.waits }
    {
        self.kept.give_opening(opening);
    }
}

/// Counts a call that was made: one more in the book and at the seat.
fn book_call<L: Ledger, const N: usize>(book: &mut Book<L>, seat: &mut Seat<L, N>)
    requires fits { book.old.total + 1 < 2 ^ 64 }
    ensures book { book.new.total ≡ book.old.total + 1 }
    ensures seat { seat.new ≡ record seat.old { calls = seat.old.calls + 1 } }
    ensures known { seat.old.worker < N }
{
    book.audit(&mut seat.share);
    book.add(&mut seat.share, 1);
    seat.calls += 1;
}

/// The record of what is kept, and its seats. The ledger's book has as many calls as were recorded.
fn with_seats<L: Ledger, const N: usize>(
    alloc: Global,
    blank: Blank,
    kept: Kept,
) -> Result<(Record<L, N>, Vec<Seat<L, N>>), AllocError>
    requires name { blank.name ≡ L.name }
    requires parts { (blank.parts ≡ L.parts) × (L.parts ≡ N) }
    requires workers { length kept.cut ≡ N }
    ensures record { IfOk result (λ r. r.0 ≡ kept) }
    ensures seats { IfOk result (λ r. AreSeats N r.1.items × AreRecorded N kept r.1.items) }
{
    let (mut book, rest) = blank.open::<L>();
    let seats = take_seats::<L, N>(alloc, &mut book, rest, kept.counts())?;
    Ok((Record { kept, book }, seats))
}

/// A seat for each worker, with one part of the ledger and so many recorded calls each.
fn take_seats<L: Ledger, const N: usize>(
    alloc: Global,
    book: &mut Book<L>,
    rest: Share<L>,
    counts: &[u64],
) -> Result<Vec<Seat<L, N>>, AllocError>
    requires rest { (rest.parts ≡ N) × (rest.amount ≡ 0) }
    requires workers { length counts.now ≡ N }
    ensures seats { IfOk result (λ seats. AreSeats N seats.items × AreCounted N counts.now seats.items) }
    ensures book { OnOk result (book.new.total ≡ book.old.total + sum counts.now) }
{
    let mut rest = rest;
    let mut seats = Vec::with_capacity(alloc, N)?;
    for worker in 0..N {
        let mut share = rest.split_off(1, 0);
        let calls = counts[worker];
        book.add(&mut share, calls);
        seats.push_reserved(Seat {
            worker,
            calls,
            share,
        });
    }
    Ok(seats)
}

/// All parts of the ledger, from the seats.
fn merge_seats<L: Ledger, const N: usize>(seats: Vec<Seat<L, N>>) -> Share<L>
    requires seats { length seats.items ≡ N }
    requires some { 0 < N }
    ensures parts { result.parts ≡ N }
    ensures amount { result.amount ≡ calls_of_seats seats.items }
{
    let mut seats = seats;
    let Some(last) = seats.pop() else {
        unreachable!()
    };
    let Seat {
        worker: _,
        calls: _,
        share,
    } = last;
    let mut all = share;
    while let Some(seat) = seats.pop() {
        let Seat {
            worker: _,
            calls: _,
            share,
        } = seat;
        all.merge(share);
    }
    all
}
