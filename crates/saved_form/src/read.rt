//! The numbers that stand in an entry's bytes, whatever these are.
ghost use Rattle.std.specs.Prelude.{◌≡◌, ◌+◌, ◌*◌, ◌<◌, ◌≤◌, ℕ, length};
ghost use Rattle.{
  saved_form.specs.{Form.{further}, Places.{HasPlaces, FitsTypes}, Taking.{blocks_said, BeginsEntry}},
  saved_form.specs.Reading.{four_in, eight_in, call_in, level_place, plain_reply_in, levels_reply_in, ReadsLevels},
  saved_form.specs.Reading.{IsReplyIn},
};

use crate::crc::eight_at;
use crate::numbers::{CallNumbers, EntryNumbers, LEVELS_KIND, ReplyNumbers, SET_PGID};
use pid_types::plain::LEVELS;

/// The number in four bytes.
#[inline(always)]
pub(crate) fn four_at(bytes: &[u8], at: usize) -> u32
    requires { at + 4 ≤ length bytes.now }
    ensures { result ≡ four_in bytes.now at }
{
    let four = &bytes[at..at + 4];
    u32::from_le_bytes([four[0], four[1], four[2], four[3]])
}

/// The call.
#[inline(always)]
pub(crate) fn read_call(bytes: &[u8]) -> CallNumbers
    requires { 48 ≤ length bytes.now }
    ensures { result ≡ call_in bytes.now }
{
    let operation = bytes[0] as u32;
    let choice = bytes[1] as u32;
    let caller = four_at(bytes, 8);
    let number = four_at(bytes, 12);
    if operation == SET_PGID {
        CallNumbers {
            operation,
            caller,
            id: 0,
            number,
            choice,
            pid: four_at(bytes, 16).cast_signed(),
            pgid: four_at(bytes, 20).cast_signed(),
        }
    } else {
        CallNumbers {
            operation,
            caller,
            id: eight_at(bytes, 16),
            number,
            choice,
            pid: 0,
            pgid: 0,
        }
    }
}

/// Where a level stands.
fn place_of(k: usize) -> usize
    requires { k < 33 }
    ensures { result ≡ level_place k }
{
    if k < 4 {
        24 + 4 * k
    } else {
        48 * (1 + (k - 4) / 10) + 4 * ((k - 4) % 10)
    }
}

/// The levels, and zeroes behind them.
fn read_levels(bytes: &[u8], count: usize) -> [u32; LEVELS]
    requires few { count ≤ 33 }
    requires there { 48 * (1 + further 3 count) ≤ length bytes.now }
    ensures levels { ReadsLevels count bytes.now result }
{
    let mut levels = [0; LEVELS];
    for k in 0..count {
        levels[k] = four_at(bytes, place_of(k));
    }
    levels
}

/// A reply that tells no levels.
#[inline(always)]
pub(crate) fn read_plain(bytes: &[u8]) -> ReplyNumbers
    requires { 48 ≤ length bytes.now }
    ensures { result ≡ plain_reply_in bytes.now }
{
    ReplyNumbers {
        kind: bytes[3] as u32,
        errno: bytes[4] as u32,
        refusal: bytes[5] as u32,
        count: 0,
        first: eight_at(bytes, 24),
        second: eight_at(bytes, 32),
        levels: [0; LEVELS],
    }
}

/// A reply that tells these levels.
fn read_leveled(bytes: &[u8], levels: [u32; LEVELS]) -> ReplyNumbers
    requires { 48 ≤ length bytes.now }
    ensures { result ≡ levels_reply_in levels bytes.now }
{
    ReplyNumbers {
        kind: LEVELS_KIND,
        errno: bytes[4] as u32,
        refusal: bytes[5] as u32,
        count: bytes[6] as u32,
        first: 0,
        second: 0,
        levels,
    }
}

/// The reply.
#[inline(always)]
#[tactic(auto, unfolding(crate::specs::Taking::blocks_said))]
fn read_reply(bytes: &[u8]) -> ReplyNumbers
    requires some { 0 < blocks_said bytes.now }
    requires there { 48 * blocks_said bytes.now ≤ length bytes.now }
    ensures { IsReplyIn bytes.now result }
{
    if bytes[3] as u32 == LEVELS_KIND {
        read_leveled(bytes, read_levels(bytes, bytes[6] as usize))
    } else {
        read_plain(bytes)
    }
}

/// The entry whose blocks are there: of those that are written so, the one.
#[inline(always)]
pub(crate) fn read_entry(bytes: &[u8]) -> EntryNumbers
    requires some { 0 < blocks_said bytes.now }
    requires there { 48 * blocks_said bytes.now ≤ length bytes.now }
    ensures places { HasPlaces result }
    ensures blocks { 1 + further result.reply.kind result.reply.count ≡ blocks_said bytes.now }
    ensures one { (sum : ℕ) (e : EntryNumbers) → HasPlaces e → FitsTypes e → BeginsEntry sum e bytes.now → result ≡ e }
{
    EntryNumbers {
        worker: bytes[2] as u64,
        call: read_call(bytes),
        reply: read_reply(bytes),
    }
}
