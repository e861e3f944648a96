//! Entries to bytes.
ghost use Rattle.std.specs.Prelude.{◌≡◌, ◌+◌, ◌*◌, ◌<◌, ◌≤◌, ◌↔◌, ◌++◌, IsTrue, length, drop};
ghost use Rattle.saved_form.specs.Form.{further, entry_blocks, entry_bytes, entry_size, sum_behind};
ghost use Rattle.saved_form.specs.Places.{IsZeroFrom, HasCallPlaces, HasReplyPlaces, HasPlaces};

use crate::block::{BLOCK, put_block};
use crate::layout::{first_block, level_block};
use crate::numbers::{CallNumbers, EntryNumbers, LEVELS_KIND, ReplyNumbers, SET_PGID};
use pid_types::plain::LEVELS;

/// Whether the form has a place for each number of the call.
#[inline(always)]
fn has_call_places(call: &CallNumbers) -> bool
    ensures { IsTrue result ↔ HasCallPlaces call.now }
{
    if call.operation > 255 || call.choice > 255 {
        return false;
    }
    if call.operation == SET_PGID {
        call.id == 0
    } else {
        call.pid == 0 && call.pgid == 0
    }
}

/// Whether the numbers from this place on are 0.
#[inline(always)]
fn are_zero(levels: &[u32; LEVELS], from: usize) -> bool
    requires { from ≤ 33 }
    ensures { IsTrue result ↔ IsZeroFrom from levels.now }
{
    let mut zero = true;
    for i in from..LEVELS {
        zero &= levels[i] == 0;
    }
    zero
}

/// Whether the form has a place for each number of the reply.
#[inline(always)]
fn has_reply_places(reply: &ReplyNumbers) -> bool
    ensures { IsTrue result ↔ HasReplyPlaces reply.now }
{
    if reply.kind > 255 || reply.errno > 255 || reply.refusal > 255 || reply.count > 33 {
        return false;
    }
    if reply.kind == LEVELS_KIND {
        if reply.first != 0 || reply.second != 0 {
            return false;
        }
    } else if reply.count != 0 {
        return false;
    }
    are_zero(&reply.levels, reply.count as usize)
}

/// Whether the form has a place for each number of the entry.
#[inline(always)]
pub fn has_places(entry: &EntryNumbers) -> bool
    ensures { IsTrue result ↔ HasPlaces entry.now }
{
    entry.worker < 256 && has_call_places(&entry.call) && has_reply_places(&entry.reply)
}

/// How many further blocks an entry has by the kind of its reply and the count of its levels.
#[inline(always)]
pub(crate) fn further(kind: u32, count: u32) -> usize
    ensures blocks { result ≡ further kind count }
    ensures few { count ≤ 33 → result ≤ 3 }
{
    if kind == LEVELS_KIND {
        (count as usize + 5) / 10
    } else {
        0
    }
}

/// How many bytes the entry has: 48, 96, 144 or 192.
#[inline(always)]
pub fn size_of(entry: &EntryNumbers) -> usize
    requires { HasPlaces entry.now }
    ensures { result ≡ entry_size entry.now }
{
    BLOCK * (1 + further(entry.reply.kind, entry.reply.count))
}

/// Writes the entry at the front of the room, behind blocks with this checksum; what is behind it stays. The result is
/// the checksum behind it.
#[inline(always)]
pub fn put_entry(entry: &EntryNumbers, bytes: &mut [u8], sum: u64) -> u64
    requires places { HasPlaces entry.now }
    requires room { entry_size entry.now ≤ length bytes.old }
    ensures bytes { bytes.new ≡ entry_bytes sum entry.now ++ drop (entry_size entry.now) bytes.old }
    ensures sum { result ≡ sum_behind sum (entry_blocks entry.now) }
{
    let mut behind = put_block(bytes, 0, &first_block(entry), sum);
    for place in 0..further(entry.reply.kind, entry.reply.count) {
        let block = level_block(&entry.reply.levels, place);
        behind = put_block(bytes, BLOCK * (place + 1), &block, behind);
    }
    behind
}
