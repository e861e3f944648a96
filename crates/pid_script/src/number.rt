//! Numbers as scripts write them: decimal digits without a leading zero.
ghost use Rattle.std.specs.Prelude.{◌≡◌, ◌+◌, ◌*◌, ◌^◌, ◌<◌, ◌≤◌, ◌↔◌, ◌∷◌, List, ℕ, Some, length, IsTrue, IfSome};
ghost use Rattle.std.specs.{Prelude.{IfNone}, Char.{digit_value}, Str.Parse.{AllDigits, digits_value}};
ghost use Rattle.std.specs.Option.{option_map};
ghost use Rattle.pid_script.specs.Reading.{IsFrontOf, IsPlain, number_below, number_then, negative_of, signed_of};
ghost use Rattle.pid_script.specs.Reading.{signed_then, IsUnsigned};

use crate::bytes::split_word;

/// Whether the word is not empty and has no leading zero.
fn is_plain(word: &[u8]) -> bool
    ensures { IsTrue result ↔ IsPlain word.now }
{
    match word.first() {
        None => false,
        Some(b'0') => word.len() == 1,
        Some(_) => true,
    }
}

/// What the byte says as a digit.
#[tactic(auto, using(crate::proofs::Numbers::digit))]
fn digit_of(byte: u8) -> Option<u8>
    ensures some { IfSome result (λ d. (d < 10) × (d ≡ digit_value byte)) }
    ensures none { IfNone result (digit_value byte < 10 → ⊥) }
{
    if !byte.is_ascii_digit() {
        return None;
    }
    Some(byte - b'0')
}

/// The number with the digit behind it, where the byte is a digit and the number one below 2^64.
fn with_digit(number: u64, byte: u8) -> Option<u64>
    ensures some { IfSome result (λ n. (digit_value byte < 10) × (n ≡ number * 10 + digit_value byte)) }
    ensures none { IfNone result (digit_value byte < 10 → number * 10 + digit_value byte < 2 ^ 64 → ⊥) }
    ensures small { IfSome result (λ n. n < 2 ^ 64) }
{
    let digit = digit_of(byte)?;
    number.checked_mul(10)?.checked_add(u64::from(digit))
}

/// The number that the digits write, where they are digits and it is one below 2^64.
#[tactic(auto, using(crate::proofs::Numbers::digits))]
fn read_digits(word: &[u8]) -> Option<u64>
    ensures some { IfSome result (λ n. AllDigits 10 word.now × (n ≡ digits_value 10 word.now)) }
    ensures none { IfNone result (AllDigits 10 word.now → digits_value 10 word.now < 2 ^ 64 → ⊥) }
    ensures small { IfSome result (λ n. n < 2 ^ 64) }
{
    let mut number = 0_u64;
    for byte in word {
        number = with_digit(number, *byte)?;
    }
    Some(number)
}

/// The number of a word, where it is one below 2^64.
pub fn read_u64(word: &[u8]) -> Option<u64>
    ensures { result ≡ number_below (2 ^ 64) word.now }
{
    if !is_plain(word) {
        return None;
    }
    read_digits(word)
}

/// The digits that a word begins with, up to nine: how many they are, and what they write.
#[derive(Clone, Copy)]
struct Front {
    digits: usize,
    number: u32,
}

/// What the word begins with. So few digits write a number below 2^32, and are read without a test that it fits.
#[tactic(auto, using(crate::proofs::Numbers::digits))]
#[inline(always)]
fn read_front(word: &[u8]) -> Front
    ensures { IsFrontOf word.now result.digits result.number }
{
    let most = word.len().min(9);
    let mut number = 0_u32;
    for index in 0..most {
        let Some(digit) = digit_of(word[index]) else {
            return Front {
                digits: index,
                number,
            };
        };
        number = number * 10 + u32::from(digit);
    }
    Front {
        digits: most,
        number,
    }
}

/// The number of a word of any length, where it is one below 2^32.
#[tactic(auto, using(crate::proofs::Numbers::narrower))]
#[inline(never)]
fn read_long(word: &[u8]) -> Option<u32>
    ensures { result ≡ number_below (2 ^ 32) word.now }
{
    u32::try_from(read_u64(word)?).ok()
}

/// The number of a word, where it is one below 2^32.
#[tactic(auto, using(crate::proofs::Numbers::fronts))]
#[inline(always)]
pub fn read_u32(word: &[u8]) -> Option<u32>
    ensures { result ≡ number_below (2 ^ 32) word.now }
{
    let front = read_front(word);
    if front.digits == word.len() && is_plain(word) {
        return Some(front.number);
    }
    if front.digits < 9 {
        return None;
    }
    read_long(word)
}

/// The number before the first space, of a word of any length, and what stands after that space.
#[inline(never)]
fn read_long_then(words: &[u8]) -> Option<(u32, &[u8])>
    ensures { option_map (λ p. (p.0, p.1.now)) result ≡ number_then (2 ^ 32) words.now }
{
    let (word, rest) = split_word(words)?;
    Some((read_long(word)?, rest))
}

/// The number before the first space, where it is one below 2^32, and what stands after that space.
#[inline(always)]
pub fn read_then(words: &[u8]) -> Option<(u32, &[u8])>
    ensures { option_map (λ p. (p.0, p.1.now)) result ≡ number_then (2 ^ 32) words.now }
{
    let front = read_front(words);
    let end = front.digits;
    if end < words.len() && words[end] == b' ' && is_plain(&words[..end]) {
        return Some((front.number, &words[end + 1..]));
    }
    if end < 9 {
        return None;
    }
    read_long_then(words)
}

/// The number of a word, where it is one below 2^8.
#[tactic(auto, using(crate::proofs::Numbers::narrower))]
pub fn read_u8(word: &[u8]) -> Option<u8>
    ensures { result ≡ number_below (2 ^ 8) word.now }
{
    u8::try_from(read_u64(word)?).ok()
}

/// The number with a minus sign, where it is one of 32 bits and not 0.
#[tactic(auto, using(crate::proofs::Numbers::negative))]
fn negated(magnitude: u32) -> Option<i32>
    ensures { (digits : List ℕ) → number_below (2 ^ 32) digits ≡ Some magnitude → result ≡ negative_of digits }
{
    if magnitude == 0 {
        return None;
    }
    0_i32.checked_sub_unsigned(magnitude)
}

/// The number with a minus sign before these digits, which are not those of 0.
#[tactic(auto, using(crate::proofs::Numbers::negative))]
fn read_negative(digits: &[u8]) -> Option<i32>
    ensures { result ≡ negative_of digits.now }
{
    negated(read_u32(digits)?)
}

/// The number with no sign, where it is one of 32 bits that may have one.
#[tactic(auto, using(crate::proofs::Numbers::unsigned))]
#[inline(always)]
fn unsigned(number: u32) -> Option<i32>
    ensures { (word : List ℕ) → number_below (2 ^ 32) word ≡ Some number → result ≡ signed_of word }
{
    i32::try_from(number).ok()
}

/// The number of a word with its sign, where it is one of 32 bits. A minus sign stands directly before a
/// number that is not 0.
#[tactic(auto, using(crate::proofs::Numbers::signs))]
pub fn read_i32(word: &[u8]) -> Option<i32>
    ensures { result ≡ signed_of word.now }
{
    match word {
        [b'-', digits @ ..] => read_negative(digits),
        _ => unsigned(read_u32(word)?),
    }
}

/// The number with a minus sign before these digits and the first space, and what stands after that space.
fn read_negative_then(digits: &[u8]) -> Option<(i32, &[u8])>
    ensures { option_map (λ p. (p.0, p.1.now)) result ≡ signed_then (45 ∷ digits.now) }
{
    let (magnitude, rest) = read_then(digits)?;
    Some((negated(magnitude)?, rest))
}

/// The number with no sign before the first space, where there is no minus sign, and what stands after that space.
#[inline(always)]
fn read_unsigned_then(words: &[u8]) -> Option<(i32, &[u8])>
    ensures { IsUnsigned words.now → option_map (λ p. (p.0, p.1.now)) result ≡ signed_then words.now }
{
    let (number, rest) = read_then(words)?;
    Some((unsigned(number)?, rest))
}

/// The number with its sign before the first space, where it is one of 32 bits, and what stands after that space.
#[inline(always)]
pub(crate) fn read_signed_then(words: &[u8]) -> Option<(i32, &[u8])>
    ensures { option_map (λ p. (p.0, p.1.now)) result ≡ signed_then words.now }
{
    match words {
        [b'-', digits @ ..] => read_negative_then(digits),
        _ => read_unsigned_then(words),
    }
}
