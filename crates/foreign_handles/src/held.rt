//! What a handle holds: a table alone, or a table with its history.
ghost use Rattle.std.specs.Prelude.{◌≡◌, ◌≢◌, ◌<◌, ◌≤◌, ◌↔◌, IfOk, OnOk, Err, IsTrue};
ghost use Rattle.{
  call_effects.specs.{Reckoned.{Reckons}, Touched.{is_touching, most_in, most_of, Watches}},
  stamped_table.specs.Stamped.{IsInOrder, after_call, reply_to},
  foreign_handles.specs.Held.{stamped, workers},
};

use call_effects::Touched;
use kept_table::Kept;
use pid_table::PidTable;
use pid_types::call::Call;
use pid_types::reply::{CallFault, Reply};
use stamped_table::StampedTable;

/// A table alone, or a table with its history.
#[derive(Drop)]
pub enum Held {
    Bare(StampedTable),
    Recorded(Kept),
}

impl Held {
    /// The table, to be read. It costs nothing.
    #[inline(always)]
    pub fn table(&self) -> &PidTable
        ensures { result.now ≡ (stamped self.now).state }
    {
        match self {
            Held::Bare(table) => table.table(),
            Held::Recorded(kept) => kept.present(),
        }
    }

    /// The stamp of the next call; `u64::MAX`, which no call has, if the stamps are used up. It costs nothing.
    #[inline(always)]
    pub fn stamp(&self) -> u64
        ensures { result ≡ (stamped self.now).stamp }
    {
        match self {
            Held::Bare(table) => table.stamp(),
            Held::Recorded(kept) => match kept.next_stamp() {
                Some(stamp) => stamp,
                None => u64::MAX,
            },
        }
    }

    /// How many workers make calls: one where there is no history.
    #[inline(always)]
    pub fn workers(&self) -> usize
        ensures { result ≡ workers self.now }
    {
        match self {
            Held::Bare(_) => 1,
            Held::Recorded(kept) => kept.workers(),
        }
    }

    /// What is true between any two calls. The call does nothing.
    pub fn laws(&self)
        ensures { IsInOrder (stamped self.now) }
    {
        match self {
            Held::Bare(table) => table.laws(),
            Held::Recorded(kept) => {
                let _promise = kept.total();
            }
        }
    }

    /// Writes the reply that the call would get as the next one: [`PidTable::would`]. Nothing changes, and nothing is
    /// recorded. The error is `Spent`, if the stamps are used up; then the reply stays.
    pub fn would(&self, call: Call, reply: &mut Reply) -> Result<(), CallFault>
        ensures reply { OnOk result (reply.new ≡ reply_to (stamped self.now) call) }
        ensures spent { (result ≡ Err CallFault.Spent) ↔ ((stamped self.now).stamp ≡ u64.MAX) }
        ensures only { result ≢ Err CallFault.NoMemory }
    {
        match self {
            Held::Bare(table) => table.would(call, reply),
            Held::Recorded(kept) => kept.would(call, reply),
        }
    }

    /// Those whom the call may touch as the next one: [`Touched::before`]. Nothing changes, and nothing is recorded. An
    /// error is `Spent`, if the stamps are used up, or want of memory.
    pub fn touched(&self, call: Call) -> Result<Touched, CallFault>
        ensures before { IfOk result (Watches (stamped self.now).state (after_call (stamped self.now) call).state) }
        ensures reckons { IfOk result (Reckons (stamped self.now).state (stamped self.now).stamp call) }
        ensures few { IfOk result (λ w. most_of w ≤ most_in (stamped self.now).state) }
        ensures touching { IfOk result (λ w. 0 < most_of w → IsTrue (is_touching call)) }
        ensures spent { (result ≡ Err CallFault.Spent) ↔ ((stamped self.now).stamp ≡ u64.MAX) }
        ensures no_memory { result ≡ Err CallFault.NoMemory → IsTrue (is_touching call) }
    {
        match self {
            Held::Bare(table) => table.touched(call),
            Held::Recorded(kept) => kept.touched(call),
        }
    }
}
