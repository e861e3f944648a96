//! Entries one after another, to the end of bytes that come in pieces.
ghost use Rattle.std.specs.Prelude.{◌≡◌, ◌≢◌, ◌+◌, ◌^◌, ◌<◌, ◌≤◌, ◌++◌, ℕ, List, length, drop, true, false};
ghost use Rattle.{
  saved_form.specs.{Places.{HasPlaces, FitsTypes}, Taking.{BeginsEntry, IsTaken}},
  saved_form.specs.Ends.{are_zero, AreZeroes, undecided, StaysOpen, EndsHere, IsWrongHere, IsPassed, IsTornEnd},
  saved_form.specs.{declared.numbers.EntryNumbers.{EntryNumbers}, declared.take.TakenEntry.{TakenEntry}},
};

use crate::block::SUMMED;
use crate::take::{EntryFault, TakenEntry, take_entry};

/// What a reader finds behind the last whole entry.
#[derive(Clone, Copy)]
pub enum Next {
    /// An entry.
    Entry(TakenEntry),
    /// More bytes decide. So many are passed by now; where these are none, the bytes come again, and more behind them.
    Open { passed: u64 },
    /// The end. So many bytes are left out: those of a torn end, or none.
    End { left_out: u64 },
    /// A byte is not the one that was written.
    WrongByte,
}

/// Whether all of the bytes are 0.
fn are_zeroes(bytes: &[u8]) -> bool
    ensures { result ≡ are_zero bytes.now }
{
    bytes.iter().all(|byte| *byte == 0)
}

/// What is found where no entry is whole any more: the end, if these are the last bytes.
fn undecided(passed: u64, is_end: bool) -> Next
    ensures { result ≡ undecided passed is_end }
{
    if is_end {
        Next::End { left_out: passed }
    } else {
        Next::Open { passed }
    }
}

/// Passes the bytes behind those that are passed, if all from the place on are 0.
fn pass(bytes: &[u8], from: usize, passed: u64, is_end: bool) -> Next
    requires { from ≤ length bytes.now }
    ensures zeroes { AreZeroes (drop from bytes.now) → (count : ℕ) × (result ≡ undecided count is_end)
        × (passed + length bytes.now < 2 ^ 64 → count ≡ passed + length bytes.now) }
    ensures other { are_zero (drop from bytes.now) ≡ false → result ≡ Next.WrongByte }
{
    if !are_zeroes(&bytes[from..]) {
        return Next::WrongByte;
    }
    undecided(passed.saturating_add(bytes.len() as u64), is_end)
}

/// Reads the next bytes behind the last whole entry, up to which the checksum is `sum`, and of which so many are passed
/// by now. `is_end` says that none follow. The pieces may be cut anywhere.
pub fn read_on(bytes: &[u8], sum: u64, passed: u64, is_end: bool) -> Next
    ensures entry { (taken : TakenEntry) → result ≡ Next.Entry taken → (passed ≡ 0) × IsTaken sum bytes.now taken }
    ensures read_back { (e : EntryNumbers) → passed ≡ 0 → HasPlaces e → FitsTypes e → BeginsEntry sum e bytes.now
        → (taken : TakenEntry) × (result ≡ Next.Entry taken) × (taken.entry ≡ e) }
    ensures open { (count : ℕ) → result ≡ Next.Open count → (is_end ≡ false) × StaysOpen sum passed bytes.now count }
    ensures end { (count : ℕ) → result ≡ Next.End count → (is_end ≡ true) × EndsHere sum passed bytes.now count }
    ensures wrong { result ≡ Next.WrongByte → IsWrongHere sum passed bytes.now }
    ensures torn_is_left_out { (before : List ℕ) → IsPassed sum passed before → IsTornEnd sum (before ++ bytes.now)
        → result ≢ Next.WrongByte }
{
    if passed != 0 {
        return pass(bytes, 0, passed, is_end);
    }
    match take_entry(bytes, sum) {
        Ok(taken) => Next::Entry(taken),
        Err(EntryFault::Torn { .. }) if is_end => Next::End {
            left_out: bytes.len() as u64,
        },
        Err(EntryFault::Torn { .. }) => Next::Open { passed: 0 },
        Err(EntryFault::WrongByte { place }) => pass(bytes, place + SUMMED, passed, is_end),
    }
}
