//! Words and numbers of a text, each read from a place on. Where a function answers, the place is behind what it read;
//! where it does not, the place is somewhere within the text.
ghost use Rattle.std.specs.Prelude.{◌≡◌, ◌++◌, ◌<◌, ◌≤◌, length, take, decimal, codes, IsTrue, OnSome, IfSome, IfNone};
ghost use Rattle.std.specs.{Prelude.{false, drop, ◌+◌, ◌-◌, ◌^◌, ◌↔◌}, Str.Parse.{AllDigits, digits_value}};
ghost use Rattle.{
  pid_script.specs.{Reading.{IsPlain}, Lists.{field, marked, parent_text, limit_text, life_text}},
  table_text.specs.{Ranges.{IsWord, IsLifeOfWords}, Reading.{IsRead, Lacks, LacksNumber, LacksField, LacksAny}},
  table_text.specs.Reading.{IsSmall, StopsDigits, IsHeldLife, Reads, ReadsToStop, StopsBehind},
};

use pid_script::number::read_u64;
use pid_types::plain::{Ended, Life};

/// The word.
pub fn read_word(text: &[u8], at: &mut usize, word: &[u8]) -> Option<()>
    requires { at.old ≤ length text.now }
    ensures within { at.new ≤ length text.now }
    ensures read { OnSome result (IsRead text.now at.old at.new word.now) }
    ensures missing { IfNone result (Lacks word.now text.now at.old) }
{
    if !text[*at..].starts_with(word) {
        return None;
    }
    *at += word.len();
    Some(())
}

/// Where the digits from the place on end.
fn digits_end(text: &[u8], at: usize) -> usize
    requires { at ≤ length text.now }
    ensures from { at ≤ result }
    ensures within { result ≤ length text.now }
    ensures digits { AllDigits 10 (take (result - at) (drop at text.now)) }
    ensures stops { StopsDigits (drop result text.now) }
{
    for index in at..text.len() {
        if !text[index].is_ascii_digit() {
            return index;
        }
    }
    text.len()
}

/// Up to nine digits: where they end, and the number that they write.
#[derive(Clone, Copy)]
struct Front {
    end: usize,
    number: u32,
}

/// The digits from the place on, up to nine. So few write a number below 2^32, and are read without a test that it
/// fits.
#[inline(always)]
fn read_front(text: &[u8], at: usize) -> Front
    requires { at ≤ length text.now }
    ensures from { at ≤ result.end }
    ensures within { result.end ≤ length text.now }
    ensures few { result.end ≤ at + 9 }
    ensures digits { AllDigits 10 (take (result.end - at) (drop at text.now)) }
    ensures value { result.number ≡ digits_value 10 (take (result.end - at) (drop at text.now)) }
    ensures stops { result.end < at + 9 → StopsDigits (drop result.end text.now) }
{
    let most = text.len().min(at.saturating_add(9));
    let mut number = 0_u32;
    for index in at..most {
        let byte = text[index];
        if !byte.is_ascii_digit() {
            return Front { end: index, number };
        }
        number = number * 10 + u32::from(byte - b'0');
    }
    Front { end: most, number }
}

/// Whether the digits are some, without a leading zero.
fn is_plain(digits: &[u8]) -> bool
    ensures { IsTrue result ↔ IsPlain digits.now }
{
    match digits.first() {
        None => false,
        Some(b'0') => digits.len() == 1,
        Some(_) => true,
    }
}

/// A number below 2^64, of any length.
#[inline(never)]
fn read_long(text: &[u8], at: &mut usize) -> Option<u64>
    requires { at.old ≤ length text.now }
    ensures read { ReadsToStop text.now at.old at.new result decimal IsWord }
    ensures missing { IfNone result (LacksNumber (2 ^ 64) text.now at.old) }
{
    let end = digits_end(text, *at);
    let number = read_u64(&text[*at..end])?;
    *at = end;
    Some(number)
}

/// A number below 2^64.
pub fn read_number(text: &[u8], at: &mut usize) -> Option<u64>
    requires { at.old ≤ length text.now }
    ensures read { ReadsToStop text.now at.old at.new result decimal IsWord }
    ensures missing { IfNone result (LacksNumber (2 ^ 64) text.now at.old) }
{
    let front = read_front(text, *at);
    let word = &text[*at..front.end];
    if word.len() < 9 && is_plain(word) {
        *at = front.end;
        return Some(u64::from(front.number));
    }
    read_long(text, at)
}

/// A number below 2^32.
pub fn read_small(text: &[u8], at: &mut usize) -> Option<u32>
    requires { at.old ≤ length text.now }
    ensures read { ReadsToStop text.now at.old at.new result decimal IsWord }
    ensures missing { IfNone result (LacksNumber (2 ^ 32) text.now at.old) }
{
    u32::try_from(read_number(text, at)?).ok()
}

/// The label, and a number below 2^64.
pub fn read_field(text: &[u8], at: &mut usize, label: &[u8]) -> Option<u64>
    requires { at.old ≤ length text.now }
    ensures read { ReadsToStop text.now at.old at.new result (field label.now) IsWord }
    ensures missing { IfNone result (LacksField (2 ^ 64) label.now text.now at.old) }
{
    read_word(text, at, label)?;
    read_number(text, at)
}

/// The label, and a number below 2^32.
pub fn read_small_field(text: &[u8], at: &mut usize, label: &[u8]) -> Option<u32>
    requires { at.old ≤ length text.now }
    ensures read { ReadsToStop text.now at.old at.new result (field label.now) IsWord }
    ensures missing { IfNone result (LacksField (2 ^ 32) label.now text.now at.old) }
{
    read_word(text, at, label)?;
    read_small(text, at)
}

/// Whether the word is there, which is read then.
pub fn read_mark(text: &[u8], at: &mut usize, word: &[u8]) -> bool
    requires { at.old ≤ length text.now }
    ensures within { at.new ≤ length text.now }
    ensures read { IsRead text.now at.old at.new (marked result word.now) }
    ensures missing { result ≡ false → Lacks word.now text.now at.old }
{
    let start = *at;
    if read_word(text, at, word).is_none() {
        *at = start;
        return false;
    }
    true
}

/// The parent of a namespace or a control group, `-` for none.
pub fn read_parent(text: &[u8], at: &mut usize) -> Option<Option<u64>>
    requires { at.old ≤ length text.now }
    ensures read { Reads text.now at.old at.new result (λ p. codes " parent " ++ parent_text p) (λ n. IfSome n IsWord) }
    ensures missing { IfNone result
        (LacksAny (λ p. IfSome p IsWord) (λ p. codes " parent " ++ parent_text p) text.now at.old) }
    ensures stops { IfSome result (λ p. IfSome p (λ n. StopsDigits (drop at.new text.now))) }
{
    if read_mark(text, at, b" parent -") {
        return Some(None);
    }
    Some(Some(read_field(text, at, b" parent ")?))
}

/// The limit, `max` for none.
pub fn read_limit(text: &[u8], at: &mut usize) -> Option<Option<u32>>
    requires { at.old ≤ length text.now }
    ensures read { Reads text.now at.old at.new result (λ n. codes " limit " ++ limit_text n) (λ n. IfSome n IsWord) }
    ensures missing { IfNone result
        (LacksAny (λ n. IfSome n IsSmall) (λ n. codes " limit " ++ limit_text n) text.now at.old) }
    ensures stops { IfSome result (λ limit. IfSome limit (λ n. StopsDigits (drop at.new text.now))) }
{
    if read_mark(text, at, b" limit max") {
        return Some(None);
    }
    Some(Some(read_small_field(text, at, b" limit ")?))
}

/// `live`, or how the task ended.
pub fn read_life(text: &[u8], at: &mut usize) -> Option<Life>
    requires { at.old ≤ length text.now }
    ensures read { Reads text.now at.old at.new result (λ life. codes " " ++ life_text life) IsLifeOfWords }
    ensures missing { IfNone result (LacksAny IsHeldLife (λ life. codes " " ++ life_text life) text.now at.old) }
    ensures stops { IfSome result (λ life. StopsBehind life (drop at.new text.now)) }
{
    if read_mark(text, at, b" live") {
        return Some(Life::Live);
    }
    if read_mark(text, at, b" killed") {
        return Some(Life::Zombie(Ended::Killed));
    }
    let status = u8::try_from(read_field(text, at, b" exit ")?).ok()?;
    Some(Life::Zombie(Ended::Exited(status)))
}
