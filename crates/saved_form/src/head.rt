//! Heads to bytes, and bytes to heads.
ghost use Rattle.std.specs.Prelude.{◌≡◌, ◌+◌, ◌<◌, ◌≤◌, ◌↔◌, ◌++◌, [], ◌∷◌, length, take, drop, IsTrue, IfOk};
ghost use Rattle.std.specs.Prelude.{MatchResult, Err};
ghost use Rattle.saved_form.specs.{Form.{sum_behind, head_block, head_bytes}, Places.{HeadFits}, Reading.{head_in}};
ghost use Rattle.saved_form.specs.Taking.{MayBegin, IsOtherVersion, IsTakenHead, BeginsHead};
ghost use Rattle.saved_form.specs.declared.numbers.Head.{Head};

use crate::block::{BLOCK, put_block};
use crate::crc::eight_at;
use crate::layout::{MAGIC, VERSION, head_block};
use crate::numbers::Head;
use crate::read::four_at;
use crate::take::{check_blocks, is_block};

/// Why no head is taken from the front of bytes. The first that holds is the answer.
#[derive(Clone, Copy, Debug, PartialEq, Eq)]
pub enum HeadFault {
    /// They are no saved history.
    NotSaved,
    /// They end before it does.
    Torn,
    /// It is that of another version.
    OtherVersion,
    /// A byte is not the one that was written.
    WrongByte,
}

/// A head that was taken from the front of bytes.
#[derive(Clone, Copy)]
pub struct TakenHead {
    pub head: Head,
    /// The checksum behind it.
    pub sum: u64,
}

/// Writes the head at the front of the room; what is behind it stays. The result is the checksum behind it.
pub fn put_head(head: &Head, bytes: &mut [u8]) -> u64
    requires { 48 ≤ length bytes.old }
    ensures bytes { bytes.new ≡ head_bytes head.now ++ drop 48 bytes.old }
    ensures sum { result ≡ sum_behind 0 (head_block head.now ∷ []) }
{
    put_block(bytes, 0, &head_block(head), 0)
}

/// Whether the first bytes are those of a saved history, as far as there are any.
fn may_begin(bytes: &[u8]) -> bool
    ensures { IsTrue result ↔ MayBegin bytes.now }
{
    let count = bytes.len().min(MAGIC.len());
    bytes[..count] == MAGIC[..count]
}

/// The settings that stand in a head's bytes, whatever these are.
fn read_head(bytes: &[u8]) -> Head
    requires { 48 ≤ length bytes.now }
    ensures { result ≡ head_in bytes.now }
{
    Head {
        pid_max: four_at(bytes, 12),
        workers: four_at(bytes, 24),
        first_stamp: eight_at(bytes, 16),
    }
}

/// Takes the head from the front of the bytes. Nothing is said of the settings: no record may be opened with them.
pub fn take_head(bytes: &[u8]) -> Result<TakenHead, HeadFault>
    ensures done { IfOk result (λ taken. IsTakenHead bytes.now taken) }
    ensures read_back { (h : Head) → HeadFits h → BeginsHead h bytes.now
        → MatchResult result (λ taken. taken.head ≡ h) (λ _. ⊥) }
    ensures not_saved { (result ≡ Err HeadFault.NotSaved) ↔ (MayBegin bytes.now → ⊥) }
    ensures torn { (result ≡ Err HeadFault.Torn) ↔ MayBegin bytes.now × (length bytes.now < 48) }
    ensures other_version { (result ≡ Err HeadFault.OtherVersion) ↔ IsOtherVersion bytes.now }
{
    if !may_begin(bytes) {
        return Err(HeadFault::NotSaved);
    }
    if bytes.len() < BLOCK {
        return Err(HeadFault::Torn);
    }
    if four_at(bytes, 8) != VERSION {
        return Err(HeadFault::OtherVersion);
    }
    let head = read_head(bytes);
    match check_blocks(bytes, 1, 0) {
        Ok(sum) if is_block(bytes, 0, &head_block(&head)) => Ok(TakenHead { head, sum }),
        _ => Err(HeadFault::WrongByte),
    }
}
