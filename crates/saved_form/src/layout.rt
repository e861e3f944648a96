//! What of each block is summed.
ghost use Rattle.std.specs.Prelude.{◌≡◌, ◌<◌, ◌++◌, slice_index};
ghost use Rattle.saved_form.specs.Form.{four, asked, reply_bytes, head_block, first_block, level_block};
ghost use Rattle.saved_form.specs.Places.{HasPlaces};

use crate::block::SUMMED;
use crate::numbers::{CallNumbers, EntryNumbers, Head, LEVELS_KIND, ReplyNumbers, SET_PGID};
use pid_types::plain::LEVELS;

/// The version of the form.
pub const VERSION: u32 = 1;

/// The first bytes of a saved history.
pub const MAGIC: [u8; 8] = *b"\x89pidtab\n";

/// Two numbers of four bytes.
#[inline(always)]
fn two_fours(a: u32, b: u32) -> [u8; 8]
    ensures { result ≡ four a ++ four b }
{
    let (a, b) = (a.to_le_bytes(), b.to_le_bytes());
    [a[0], a[1], a[2], a[3], b[0], b[1], b[2], b[3]]
}

/// Eight bytes five times.
#[inline(always)]
fn joined(a: [u8; 8], b: [u8; 8], c: [u8; 8], d: [u8; 8], e: [u8; 8]) -> [u8; SUMMED]
    ensures { result ≡ a ++ b ++ c ++ d ++ e }
{
    [
        a[0], a[1], a[2], a[3], a[4], a[5], a[6], a[7], b[0], b[1], b[2], b[3], b[4], b[5], b[6],
        b[7], c[0], c[1], c[2], c[3], c[4], c[5], c[6], c[7], d[0], d[1], d[2], d[3], d[4], d[5],
        d[6], d[7], e[0], e[1], e[2], e[3], e[4], e[5], e[6], e[7],
    ]
}

/// What of the head is summed.
#[tactic(auto, unfolding(crate::specs::Form::head_block))]
pub(crate) fn head_block(head: &Head) -> [u8; SUMMED]
    ensures { result ≡ head_block head.now }
{
    joined(
        MAGIC,
        two_fours(VERSION, head.pid_max),
        head.first_stamp.to_le_bytes(),
        two_fours(head.workers, 0),
        [0; 8],
    )
}

/// What the call takes beside its caller and a number.
#[inline(always)]
#[tactic(auto, unfolding(crate::specs::Form::asked))]
fn asked(call: &CallNumbers) -> [u8; 8]
    ensures { result ≡ asked call.now }
{
    if call.operation == SET_PGID {
        two_fours(call.pid.cast_unsigned(), call.pgid.cast_unsigned())
    } else {
        call.id.to_le_bytes()
    }
}

/// What the reply tells, in the first block: eight bytes twice.
#[inline(always)]
#[tactic(auto, unfolding(crate::specs::Form::reply_bytes))]
fn told(reply: &ReplyNumbers) -> ([u8; 8], [u8; 8])
    ensures { result.0 ++ result.1 ≡ reply_bytes reply.now }
{
    let levels = &reply.levels;
    if reply.kind == LEVELS_KIND {
        (
            two_fours(levels[0], levels[1]),
            two_fours(levels[2], levels[3]),
        )
    } else {
        (reply.first.to_le_bytes(), reply.second.to_le_bytes())
    }
}

/// What of an entry's first block is summed.
#[inline(always)]
#[tactic(auto, unfolding(crate::specs::Form::first_block))]
pub(crate) fn first_block(entry: &EntryNumbers) -> [u8; SUMMED]
    requires { HasPlaces entry.now }
    ensures { result ≡ first_block entry.now }
{
    let (call, reply) = (&entry.call, &entry.reply);
    let words = [
        call.operation as u8,
        call.choice as u8,
        entry.worker as u8,
        reply.kind as u8,
        reply.errno as u8,
        reply.refusal as u8,
        reply.count as u8,
        0,
    ];
    let (first, second) = told(reply);
    joined(
        words,
        two_fours(call.caller, call.number),
        asked(call),
        first,
        second,
    )
}

/// The level at the place; 0 behind the last.
fn level_at(levels: &[u32; LEVELS], at: usize) -> u32
    ensures { result ≡ slice_index levels.now at }
{
    if at < LEVELS { levels[at] } else { 0 }
}

/// What of a further block is summed.
#[tactic(auto, unfolding(crate::specs::Form::level_block))]
pub(crate) fn level_block(levels: &[u32; LEVELS], place: usize) -> [u8; SUMMED]
    requires { place < 3 }
    ensures { result ≡ level_block place levels.now }
{
    let mut block = [0; SUMMED];
    for i in 0..10 {
        let level = level_at(levels, 4 + 10 * place + i);
        block[4 * i..4 * i + 4].copy_from_slice(&level.to_le_bytes());
    }
    block
}
