//! Bytes to entries.
ghost use Rattle.std.specs.Prelude.{◌≡◌, ◌+◌, ◌*◌, ◌<◌, ◌≤◌, ◌↔◌, ℕ, length, take, drop, IsTrue, IfOk, IfErr, OnErr};
ghost use Rattle.std.specs.Prelude.{MatchResult, Err};
ghost use Rattle.saved_form.specs.{Form.{sum_behind, further, entry_blocks}, Places.{HasPlaces, FitsTypes}};
ghost use Rattle.saved_form.specs.Taking.{bodies, blocks_said, AreRight, BeginsEntry, IsWholeEntry, IsFoundWhole};
ghost use Rattle.saved_form.specs.Taking.{IsTorn, IsWrongAt, IsTaken};

use crate::block::{BLOCK, SUMMED};
use crate::crc::{eight_at, sum_of};
use crate::entry::further;
use crate::layout::{first_block, level_block};
use crate::numbers::{EntryNumbers, LEVELS_KIND};
use crate::read::read_entry;

/// Why no entry is taken from the front of bytes.
#[derive(Clone, Copy, Debug, PartialEq, Eq)]
pub enum EntryFault {
    /// They end before it does: it has so many bytes, or more where the first block is not whole.
    Torn { wanted: usize },
    /// Here begins the first block that is not as it was written.
    WrongByte { place: usize },
}

/// An entry that was taken from the front of bytes.
#[derive(Clone, Copy)]
pub struct TakenEntry {
    pub entry: EntryNumbers,
    /// How many bytes it has.
    pub size: usize,
    /// The checksum behind it.
    pub sum: u64,
}

/// The blocks of an entry, each with the checksum that it should have.
#[derive(Clone, Copy)]
struct Found {
    blocks: usize,
    behind: u64,
}

/// Compares what is summed of the block at the place.
#[inline(always)]
pub(crate) fn is_block(bytes: &[u8], at: usize, block: &[u8; SUMMED]) -> bool
    requires { at + 40 ≤ length bytes.now }
    ensures { IsTrue result ↔ (take 40 (drop at bytes.now) ≡ block.now) }
{
    bytes[at..at + SUMMED] == block[..]
}

/// The checksum behind the first blocks, so many, if each has the one that it should have; or else the number of the
/// first that has not.
#[inline(always)]
pub(crate) fn check_blocks(bytes: &[u8], count: usize, sum: u64) -> Result<u64, usize>
    requires { 48 * count ≤ length bytes.now }
    ensures right { IfOk result (λ behind. AreRight count sum bytes.now
        × (behind ≡ sum_behind sum (bodies count bytes.now))) }
    ensures wrong { IfErr result (λ place. (place < count) × AreRight place sum bytes.now
        × (AreRight (place + 1) sum bytes.now → ⊥)) }
{
    let mut behind = sum;
    for place in 0..count {
        let at = BLOCK * place;
        let wanted = sum_of(behind, &bytes[at..at + SUMMED]);
        if eight_at(bytes, at + SUMMED) != wanted {
            return Err(place);
        }
        behind = wanted;
    }
    Ok(behind)
}

/// How many blocks the first one says that its entry has; 0 where it says more levels than there can be.
#[inline(always)]
#[tactic(auto, unfolding(crate::specs::Taking::blocks_said))]
fn blocks_in(bytes: &[u8]) -> usize
    requires { 48 ≤ length bytes.now }
    ensures blocks { result ≡ blocks_said bytes.now }
    ensures few { result ≤ 4 }
{
    let (kind, count) = (bytes[3] as u32, bytes[6] as u32);
    if kind == LEVELS_KIND && count > 33 {
        return 0;
    }
    1 + further(kind, count)
}

/// Finds the blocks of the entry at the front of the bytes.
#[inline(always)]
fn find_blocks(bytes: &[u8], sum: u64) -> Result<Found, EntryFault>
    ensures found { IfOk result (λ found. IsFoundWhole sum bytes.now found.blocks found.behind) }
    ensures lacking { OnErr result (IsWholeEntry sum bytes.now → ⊥) }
    ensures torn { (wanted : ℕ) → result ≡ Err (EntryFault.Torn wanted) → IsTorn sum bytes.now wanted }
    ensures wrong { (place : ℕ) → result ≡ Err (EntryFault.WrongByte place) → IsWrongAt sum bytes.now place }
{
    if bytes.len() < BLOCK {
        return Err(EntryFault::Torn { wanted: BLOCK });
    }
    let blocks = blocks_in(bytes);
    let whole = bytes.len() / BLOCK;
    let here = whole.min(blocks);
    match check_blocks(bytes, here, sum) {
        Err(place) => Err(EntryFault::WrongByte {
            place: BLOCK * place,
        }),
        Ok(_) if blocks == 0 => Err(EntryFault::WrongByte { place: 0 }),
        Ok(_) if here < blocks => Err(EntryFault::Torn {
            wanted: BLOCK * blocks,
        }),
        Ok(behind) => Ok(Found { blocks, behind }),
    }
}

/// Whether what is summed of the blocks is what would be written of the entry.
#[inline(always)]
fn is_laid(entry: &EntryNumbers, bytes: &[u8]) -> bool
    requires places { HasPlaces entry.now }
    requires there { 48 * (1 + further entry.now.reply.kind entry.now.reply.count) ≤ length bytes.now }
    ensures { IsTrue result ↔ (bodies (length (entry_blocks entry.now)) bytes.now ≡ entry_blocks entry.now) }
{
    let mut same = is_block(bytes, 0, &first_block(entry));
    for place in 0..further(entry.reply.kind, entry.reply.count) {
        let block = level_block(&entry.reply.levels, place);
        same &= is_block(bytes, BLOCK * (place + 1), &block);
    }
    same
}

/// Takes an entry from the front of the bytes, behind blocks with this checksum. Nothing is said of the call and the
/// reply: they may be those of no record.
#[inline(always)]
pub fn take_entry(bytes: &[u8], sum: u64) -> Result<TakenEntry, EntryFault>
    ensures done { IfOk result (λ taken. IsTaken sum bytes.now taken) }
    ensures read_back { (e : EntryNumbers) → HasPlaces e → FitsTypes e → BeginsEntry sum e bytes.now
        → MatchResult result (λ taken. taken.entry ≡ e) (λ _. ⊥) }
    ensures torn { (wanted : ℕ) → (result ≡ Err (EntryFault.Torn wanted)) ↔ IsTorn sum bytes.now wanted }
    ensures wrong { (place : ℕ) → result ≡ Err (EntryFault.WrongByte place) → IsWrongAt sum bytes.now place }
{
    let found = match find_blocks(bytes, sum) {
        Ok(found) => found,
        Err(fault) => return Err(fault),
    };
    let entry = read_entry(bytes);
    if !is_laid(&entry, bytes) {
        return Err(EntryFault::WrongByte { place: 0 });
    }
    Ok(TakenEntry {
        entry,
        size: BLOCK * found.blocks,
        sum: found.behind,
    })
}
