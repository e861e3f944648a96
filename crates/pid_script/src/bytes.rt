//! Bytes cut at a byte.
ghost use Rattle.std.specs.{Prelude.{◌≡◌, ◌+◌, ◌≤◌, ◌==◌, not, length, take, drop, IfSome, IfNone}, List.{prefix_len}};
ghost use Rattle.std.specs.Option.{option_map};
ghost use Rattle.pid_script.specs.Reading.{IsFirstOf, IsFreeOf, cut};

use std::simd::prelude::*;

/// How many bytes are looked at together.
const LANES: usize = 16;

/// The index of the first such byte, where none stands before this index.
fn first_index_from(bytes: &[u8], byte: u8, from: usize) -> Option<usize>
    requires within { from ≤ length bytes.now }
    requires none { IsFreeOf byte from bytes.now }
    ensures some { IfSome result (λ i. IsFirstOf byte i bytes.now) }
    ensures none { IfNone result (IsFreeOf byte (length bytes.now) bytes.now) }
{
    for index in from..bytes.len() {
        if bytes[index] == byte {
            return Some(index);
        }
    }
    None
}

/// How many of the bytes from the index on, of as many as there are lanes, come before the first such byte.
#[inline(always)]
fn run_without(bytes: &[u8], byte: u8, index: usize) -> usize
    requires { index + LANES ≤ length bytes.now }
    ensures { result ≡ prefix_len (λ b. not (b == byte)) (take LANES (drop index bytes.now)) }
{
    let lanes = u8x16::from_slice(&bytes[index..]);
    let equal = lanes.simd_eq(u8x16::splat(byte)).to_bitmask();
    if equal == 0 {
        return LANES;
    }
    equal.trailing_zeros() as usize
}

/// The index of the first such byte. As many bytes as there are lanes are looked at together, which costs less.
#[inline(always)]
fn first_index(bytes: &[u8], byte: u8) -> Option<usize>
    ensures some { IfSome result (λ i. IsFirstOf byte i bytes.now) }
    ensures none { IfNone result (IsFreeOf byte (length bytes.now) bytes.now) }
{
    let mut index = 0;
    while bytes.len() - index >= LANES {
        let run = run_without(bytes, byte, index);
        if run < LANES {
            return Some(index + run);
        }
        index += LANES;
    }
    first_index_from(bytes, byte, index)
}

/// What stands before the first such byte, and what stands after it.
#[tactic(auto, using(crate::proofs::Cuts::cuts))]
#[inline(always)]
fn split_at_first(bytes: &[u8], byte: u8) -> Option<(&[u8], &[u8])>
    ensures { option_map (λ p. (p.0.now, p.1.now)) result ≡ cut byte bytes.now }
{
    let end = first_index(bytes, byte)?;
    Some((&bytes[..end], &bytes[end + 1..]))
}

/// What stands before the first space, and what stands after it.
pub fn split_word(words: &[u8]) -> Option<(&[u8], &[u8])>
    ensures { option_map (λ p. (p.0.now, p.1.now)) result ≡ cut 32 words.now }
{
    split_at_first(words, b' ')
}

/// The first line without its newline, and what stands after that, where a line ends within the bytes. An empty line is
/// told by its one byte, before any is searched for.
#[tactic(auto, using(crate::proofs::Cuts::cuts))]
#[inline(always)]
pub fn split_line(bytes: &[u8]) -> Option<(&[u8], &[u8])>
    ensures { option_map (λ p. (p.0.now, p.1.now)) result ≡ cut 10 bytes.now }
{
    if let [b'\n', after @ ..] = bytes {
        return Some((&bytes[..0], after));
    }
    split_at_first(bytes, b'\n')
}
