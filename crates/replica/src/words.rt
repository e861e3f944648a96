//! The words of an entry.
ghost use Rattle.std.specs.{Prelude.{◌≡◌, ◌^◌, length}, List.{list_all}, Option.{option_map}};
ghost use Rattle.pid_script.specs.Reading.{before, number_then};
ghost use Rattle.replica.specs.{Entries.{is_digit, is_hex, is_key}, Reading.{are_full, lines_in, passed}};

use pid_script::bytes::{split_line, split_word};
use pid_script::number::read_u64;

/// The number before the first space, and what stands after that space.
pub(crate) fn read_number_then(words: &[u8]) -> Option<(u64, &[u8])>
    ensures { option_map (λ p. (p.0, p.1.now)) result ≡ number_then (2 ^ 64) words.now }
{
    let (word, rest) = split_word(words)?;
    Some((read_u64(word)?, rest))
}

/// Whether the byte is a hexadecimal digit, with a small letter.
fn is_hex_digit(byte: u8) -> bool
    ensures { result ≡ is_digit byte }
{
    byte.is_ascii_digit() || (byte >= b'a' && byte <= b'f')
}

/// Whether each byte of the word is a hexadecimal digit.
fn are_hex_digits(word: &[u8]) -> bool
    ensures { result ≡ list_all is_digit word.now }
{
    word.iter().all(|byte| is_hex_digit(*byte))
}

/// Whether the word is so many hexadecimal digits.
pub(crate) fn is_hex_word(word: &[u8], digits: usize) -> bool
    ensures { result ≡ is_hex digits word.now }
{
    word.len() == digits && are_hex_digits(word)
}

/// Whether the word names the pieces of a snapshot.
pub(crate) fn is_key_word(word: &[u8]) -> bool
    ensures { result ≡ is_key word.now }
{
    word.len() == 33
        && is_hex_word(&word[..16], 16)
        && word[16] == b'-'
        && is_hex_word(&word[17..], 16)
}

/// The word before the first space, if it is so many hexadecimal digits, and what stands after that space.
pub(crate) fn read_hex_then(words: &[u8], digits: usize) -> Option<(&[u8], &[u8])>
    ensures { option_map (λ p. (p.0.now, p.1.now)) result ≡ before (passed (is_hex digits)) words.now }
{
    let (word, rest) = split_word(words)?;
    if !is_hex_word(word, digits) {
        return None;
    }
    Some((word, rest))
}

/// How many lines there are: one more than newlines.
#[tactic(auto, using(crate::proofs::Parted::cuts))]
pub fn count_lines(lines: &[u8]) -> usize
    ensures { result ≡ length (lines_in lines.now) }
{
    let mut count = 1;
    let mut rest = lines;
    while let Some((_, after)) = split_line(rest) {
        count += 1;
        rest = after;
    }
    count
}

/// Whether each line has a byte.
#[tactic(auto, using(crate::proofs::Parted::cuts))]
pub(crate) fn are_lines_full(lines: &[u8]) -> bool
    ensures { result ≡ are_full (lines_in lines.now) }
{
    let mut rest = lines;
    while let Some((line, after)) = split_line(rest) {
        if line.is_empty() {
            return false;
        }
        rest = after;
    }
    !rest.is_empty()
}
