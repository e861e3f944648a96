//! A saved history as bytes in memory, for C: the head, and the entries behind it. docs/SAVED.md has the form.
//!
//! `sum` is the running checksum: the head's functions begin it, and each entry's goes on with it. No function but the
//! last changes anything unless it is `DONE`, but `size`. None of them needs a table or memory.
ghost use Rattle.std.specs.Prelude.{◌≡◌, ◌≢◌, ◌<◌, ◌↔◌, ◌⊎◌, ◌++◌, ℕ, List, [], ◌∷◌, IsTrue, true, false, length, drop};
ghost use Rattle.{
  saved_form.specs.{Crc.{crc64}, Form.{head_block, head_bytes, entry_blocks, entry_bytes, entry_size, sum_behind}},
  saved_form.specs.Places.{HeadFits, HasPlaces, FitsTypes},
  saved_form.specs.Taking.{MayBegin, IsOtherVersion, BeginsHead, BeginsEntry, IsTorn, IsWrongAt, IsTaken},
  saved_form.specs.{Ends.{StaysOpen, EndsHere, IsWrongHere, IsPassed, IsTornEnd}, declared.numbers.Head.{Head}},
  saved_form.specs.declared.numbers.EntryNumbers.{EntryNumbers},
  foreign_calls.specs.{Held.{IsDoneOr}, SavedBytes.{CanOpenBy}},
};

use foreign_calls::table::MOST_WORKERS;
use foreign_numbers::status::{
    DONE, NO_ROOM, NOT_SAVED, OTHER_VERSION, OUT_OF_RANGE, TORN, WRONG_BYTE,
};
use pid_types::config::Config;
use saved_form::BLOCK;
use saved_form::crc::sum_of;
use saved_form::entry::{has_places, put_entry, size_of};
use saved_form::head::{HeadFault, put_head, take_head};
use saved_form::next::{Next, read_on};
use saved_form::numbers::{EntryNumbers, Head};
use saved_form::take::{EntryFault, take_entry};

/// Whether a record can be opened with the settings.
fn can_open(head: &Head) -> bool
    ensures { IsTrue result ↔ CanOpenBy head.now }
{
    if head.workers == 0 || head.workers > MOST_WORKERS {
        return false;
    }
    Config::new(head.pid_max, head.first_stamp).is_ok()
}

/// The CRC-64/XZ of bytes behind those whose CRC is `sum`, which is 0 for none.
#[unsafe(no_mangle)]
pub extern "C" fn pidtab_saved_sum(sum: u64, bytes: &[u8]) -> u64
    ensures value { result ≡ crc64 sum bytes.now }
    ensures goes_on { (more : List ℕ) → crc64 result more ≡ crc64 sum (bytes.now ++ more) }
{
    sum_of(sum, bytes)
}

/// Writes the head at the front of the room; `size` is its length, 48 bytes.
///
/// `OUT_OF_RANGE` for settings that no record is opened with; then `NO_ROOM` where the room is shorter, and then too
/// `size` is the head's length.
#[unsafe(no_mangle)]
pub extern "C" fn pidtab_saved_put_head(
    head: &Head,
    room: &mut [u8],
    size: &mut usize,
    sum: &mut u64,
) -> u32
    ensures done { result ≡ DONE → room.new ≡ head_bytes head.now ++ drop 48 room.old }
    ensures sum { result ≡ DONE → sum.new ≡ sum_behind 0 (head_block head.now ∷ []) }
    ensures not_done { result ≢ DONE → (room.new ≡ room.old) × (sum.new ≡ sum.old) }
    ensures size { result ≢ OUT_OF_RANGE → size.new ≡ 48 }
    ensures same_size { result ≡ OUT_OF_RANGE → size.new ≡ size.old }
    ensures out_of_range { (result ≡ OUT_OF_RANGE) ↔ (CanOpenBy head.now → ⊥) }
    ensures no_room { (result ≡ NO_ROOM) ↔ CanOpenBy head.now × (length room.old < 48) }
    ensures statuses { IsDoneOr result (OUT_OF_RANGE ∷ NO_ROOM ∷ []) }
{
    if !can_open(head) {
        return OUT_OF_RANGE;
    }
    *size = BLOCK;
    if room.len() < BLOCK {
        return NO_ROOM;
    }
    *sum = put_head(head, room);
    DONE
}

/// Writes the entry at the front of the room; `size` is its length, at most 192 bytes. Each kept entry of a record can
/// be written. An operation, a kind, an error or a refusal that is not known here is written as its number.
///
/// `OUT_OF_RANGE` where a number has no place in the form; then `NO_ROOM` where the room is shorter than the entry, and
/// then too `size` is the entry's length.
#[unsafe(no_mangle)]
pub extern "C" fn pidtab_saved_put(
    entry: &EntryNumbers,
    room: &mut [u8],
    size: &mut usize,
    sum: &mut u64,
) -> u32
    ensures done { result ≡ DONE
        → room.new ≡ entry_bytes sum.old entry.now ++ drop (entry_size entry.now) room.old }
    ensures sum { result ≡ DONE → sum.new ≡ sum_behind sum.old (entry_blocks entry.now) }
    ensures not_done { result ≢ DONE → (room.new ≡ room.old) × (sum.new ≡ sum.old) }
    ensures size { result ≢ OUT_OF_RANGE → size.new ≡ entry_size entry.now }
    ensures same_size { result ≡ OUT_OF_RANGE → size.new ≡ size.old }
    ensures out_of_range { (result ≡ OUT_OF_RANGE) ↔ (HasPlaces entry.now → ⊥) }
    ensures no_room { (result ≡ NO_ROOM) ↔ HasPlaces entry.now × (length room.old < entry_size entry.now) }
    ensures statuses { IsDoneOr result (OUT_OF_RANGE ∷ NO_ROOM ∷ []) }
{
    if !has_places(entry) {
        return OUT_OF_RANGE;
    }
    *size = size_of(entry);
    if room.len() < *size {
        return NO_ROOM;
    }
    *sum = put_entry(entry, room, *sum);
    DONE
}

/// The status of a head that is not taken.
fn head_status(fault: HeadFault) -> u32
    ensures not_saved { (result ≡ NOT_SAVED) ↔ (fault ≡ HeadFault.NotSaved) }
    ensures torn { (result ≡ TORN) ↔ (fault ≡ HeadFault.Torn) }
    ensures other_version { (result ≡ OTHER_VERSION) ↔ (fault ≡ HeadFault.OtherVersion) }
    ensures wrong_byte { (result ≡ WRONG_BYTE) ↔ (fault ≡ HeadFault.WrongByte) }
{
    match fault {
        HeadFault::NotSaved => NOT_SAVED,
        HeadFault::Torn => TORN,
        HeadFault::OtherVersion => OTHER_VERSION,
        HeadFault::WrongByte => WRONG_BYTE,
    }
}

/// Reads the head from the front of the bytes; `size` is its length. Any bytes may be given.
///
/// `NOT_SAVED` where the first bytes are not those of a saved history; then `TORN` where there are fewer than 48; then
/// `OTHER_VERSION`; then `WRONG_BYTE`; then `OUT_OF_RANGE` for settings that no record is opened with.
#[unsafe(no_mangle)]
pub extern "C" fn pidtab_saved_take_head(
    bytes: &[u8],
    head: &mut Head,
    size: &mut usize,
    sum: &mut u64,
) -> u32
    ensures done { result ≡ DONE → BeginsHead head.new bytes.now × CanOpenBy head.new }
    ensures sum { result ≡ DONE → sum.new ≡ sum_behind 0 (head_block head.new ∷ []) }
    ensures read_back { (h : Head) → HeadFits h → BeginsHead h bytes.now → CanOpenBy h
        → (result ≡ DONE) × (head.new ≡ h) }
    ensures not_done { result ≢ DONE → (head.new ≡ head.old) × (sum.new ≡ sum.old) }
    ensures size { result ≢ NOT_SAVED → size.new ≡ 48 }
    ensures same_size { result ≡ NOT_SAVED → size.new ≡ size.old }
    ensures not_saved { (result ≡ NOT_SAVED) ↔ (MayBegin bytes.now → ⊥) }
    ensures torn { (result ≡ TORN) ↔ MayBegin bytes.now × (length bytes.now < 48) }
    ensures other_version { (result ≡ OTHER_VERSION) ↔ IsOtherVersion bytes.now }
    ensures out_of_range { result ≡ OUT_OF_RANGE → (h : Head) × BeginsHead h bytes.now × (CanOpenBy h → ⊥) }
    ensures wrong_byte { (h : Head) → HeadFits h → BeginsHead h bytes.now → result ≢ WRONG_BYTE }
    ensures statuses { IsDoneOr result (NOT_SAVED ∷ TORN ∷ OTHER_VERSION ∷ WRONG_BYTE ∷ OUT_OF_RANGE ∷ []) }
{
    let taken = match take_head(bytes) {
        Ok(taken) => taken,
        Err(HeadFault::NotSaved) => return NOT_SAVED,
        Err(fault) => {
            *size = BLOCK;
            return head_status(fault);
        }
    };
    *size = BLOCK;
    if !can_open(&taken.head) {
        return OUT_OF_RANGE;
    }
    *head = taken.head;
    *sum = taken.sum;
    DONE
}

/// Reads an entry from the front of the bytes; `size` is its length. Any bytes may be given, and nothing is said of the
/// call and the reply: they may be those of no record.
///
/// `TORN` where the bytes end within it: `size` is then how many it has, at least. `WRONG_BYTE`: `size` is then the
/// place of the first block that is not as it was written.
#[unsafe(no_mangle)]
pub extern "C" fn pidtab_saved_take(
    bytes: &[u8],
    entry: &mut EntryNumbers,
    size: &mut usize,
    sum: &mut u64,
) -> u32
    ensures done { result ≡ DONE
        → IsTaken sum.old bytes.now (record { entry = entry.new; size = size.new; sum = sum.new }) }
    ensures read_back { (e : EntryNumbers) → HasPlaces e → FitsTypes e → BeginsEntry sum.old e bytes.now
        → (result ≡ DONE) × (entry.new ≡ e) }
    ensures not_done { result ≢ DONE → (entry.new ≡ entry.old) × (sum.new ≡ sum.old) }
    ensures torn { result ≡ TORN → IsTorn sum.old bytes.now size.new }
    ensures is_torn { (wanted : ℕ) → IsTorn sum.old bytes.now wanted → (result ≡ TORN) × (size.new ≡ wanted) }
    ensures wrong_byte { result ≡ WRONG_BYTE → IsWrongAt sum.old bytes.now size.new }
    ensures statuses { IsDoneOr result (TORN ∷ WRONG_BYTE ∷ []) }
{
    match take_entry(bytes, *sum) {
        Ok(taken) => {
            *entry = taken.entry;
            *size = taken.size;
            *sum = taken.sum;
            DONE
        }
        Err(EntryFault::Torn { wanted }) => {
            *size = wanted;
            TORN
        }
        Err(EntryFault::WrongByte { place }) => {
            *size = place;
            WRONG_BYTE
        }
    }
}

/// Reads on behind the last whole entry, in bytes that are given in pieces; `is_end` says that none follow. `sum` is as
/// of the head or of the entry before. `left_out` is 0 at first, and is given back as it is: so many bytes behind the
/// last whole entry are passed. Pieces may be cut anywhere; one of 192 bytes always leads on.
///
/// `DONE` with a `size` that is not 0: an entry, and its length. `DONE` with 0: the end, where `left_out` says how many
/// bytes a torn end has. `TORN`: more bytes decide, and `size` is how many of these are passed: all, or none of them,
/// and then they come again with more behind them. `WRONG_BYTE`.
#[unsafe(no_mangle)]
pub extern "C" fn pidtab_saved_next(
    bytes: &[u8],
    is_end: bool,
    entry: &mut EntryNumbers,
    size: &mut usize,
    sum: &mut u64,
    left_out: &mut u64,
) -> u32
    ensures entry { result ≡ DONE → 0 < size.new → (left_out.old ≡ 0) × (left_out.new ≡ 0)
        × IsTaken sum.old bytes.now (record { entry = entry.new; size = size.new; sum = sum.new }) }
    ensures read_back { (e : EntryNumbers) → left_out.old ≡ 0 → HasPlaces e → FitsTypes e
        → BeginsEntry sum.old e bytes.now → (result ≡ DONE) × (0 < size.new) × (entry.new ≡ e) }
    ensures no_entry { ((result ≢ DONE) ⊎ (size.new ≡ 0)) → (entry.new ≡ entry.old) × (sum.new ≡ sum.old) }
    ensures end { result ≡ DONE → size.new ≡ 0
        → (is_end ≡ true) × EndsHere sum.old left_out.old bytes.now left_out.new }
    ensures torn { result ≡ TORN → (is_end ≡ false) × StaysOpen sum.old left_out.old bytes.now left_out.new }
    ensures none_passed { result ≡ TORN → left_out.new ≡ 0 → size.new ≡ 0 }
    ensures all_passed { result ≡ TORN → left_out.new ≢ 0 → size.new ≡ length bytes.now }
    ensures wrong_byte { result ≡ WRONG_BYTE → IsWrongHere sum.old left_out.old bytes.now }
    ensures nothing_passed { result ≡ WRONG_BYTE → (left_out.new ≡ left_out.old) × (size.new ≡ size.old) }
    ensures torn_is_left_out { (before : List ℕ) → IsPassed sum.old left_out.old before
        → IsTornEnd sum.old (before ++ bytes.now) → result ≢ WRONG_BYTE }
    ensures statuses { IsDoneOr result (TORN ∷ WRONG_BYTE ∷ []) }
{
    match read_on(bytes, *sum, *left_out, is_end) {
        Next::Entry(taken) => {
            *entry = taken.entry;
            *size = taken.size;
            *sum = taken.sum;
            DONE
        }
        Next::Open { passed } => {
            *size = if passed == 0 { 0 } else { bytes.len() };
            *left_out = passed;
            TORN
        }
        Next::End { left_out: count } => {
            *size = 0;
            *left_out = count;
            DONE
        }
        Next::WrongByte => WRONG_BYTE,
    }
}
