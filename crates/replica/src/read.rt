//! Entries from bytes.
ghost use Rattle.std.specs.{Prelude.{◌≡◌, length, codes, Some, IfOk, OnErr, ◌≢◌}, Option.{option_map}};
ghost use Rattle.{
  pid_script.specs.Reading.{is_word, before, control_of},
  replica.specs.{Entries.{LogEntry, Ended, IsGood, entry_text, is_hex}, Reading.{announced_of, announced_in}},
  replica.specs.Reading.{settings_of, settings_in, rest_in, word_in, line_in, calls_head_in, calls_in, entry_read},
  replica.specs.{Reading.{lines_in, lines_behind, passed}, Told.{told_entry, words_of_head}},
};

use crate::entry::{Entry, EntryFault};
use crate::words::{
    are_lines_full, count_lines, is_hex_word, is_key_word, read_hex_then, read_number_then,
};
use pid_script::bytes::{split_line, split_word};
use pid_script::number::read_u64;

/// The head of an entry of calls.
#[derive(Clone, Copy)]
struct Head<'a> {
    session: u64,
    sequence: u64,
    count: u64,
    position: u64,
    digest: &'a [u8],
}

/// What stands behind the word and a space.
pub(crate) fn read_behind<'a>(words: &'a [u8], word: &[u8]) -> Option<&'a [u8]>
    ensures { option_map (λ rest. (word.now, rest.now)) result ≡ before (passed (is_word word.now)) words.now }
{
    let (first, rest) = split_word(words)?;
    if first != word {
        return None;
    }
    Some(rest)
}

/// The settings, behind their first word.
fn read_settings<'a>(words: &[u8]) -> Option<Entry<'a>>
    ensures { option_map told_entry result ≡ option_map settings_of (settings_in words.now) }
{
    let (form, rest) = read_number_then(words)?;
    let rest = read_behind(rest, b"pid_max")?;
    let (pid_max, rest) = read_number_then(rest)?;
    let rest = read_behind(rest, b"model")?;
    let model = read_u64(rest)?;
    Some(Entry::Settings {
        form,
        pid_max,
        model,
    })
}

/// What announces a snapshot, behind its first word.
fn read_announced(words: &[u8]) -> Option<Entry<'_>>
    ensures { option_map told_entry result ≡ option_map announced_of (announced_in words.now) }
{
    let (position, rest) = read_number_then(words)?;
    let (digest, rest) = read_hex_then(rest, 64)?;
    let (size, rest) = read_number_then(rest)?;
    let (sum, key) = read_hex_then(rest, 64)?;
    if !is_key_word(key) {
        return None;
    }
    Some(Entry::Announced {
        position,
        digest,
        size,
        sum,
        key,
    })
}

/// The end of a session, behind its first word.
fn read_ended<'a>(words: &[u8]) -> Option<Entry<'a>>
    ensures { option_map told_entry result ≡ option_map Ended (control_of words.now) }
{
    let session = read_u64(words)?;
    Some(Entry::Ended { session })
}

/// An entry of one line, of its first word and what stands behind that.
fn read_rest<'a>(word: &[u8], rest: &'a [u8]) -> Option<Entry<'a>>
    ensures { option_map told_entry result ≡ rest_in word.now rest.now }
{
    if word == b"end".as_slice() {
        return read_ended(rest);
    }
    if word == b"snapshot".as_slice() {
        return read_announced(rest);
    }
    if word == b"pidtab-log".as_slice() {
        return read_settings(rest);
    }
    None
}

/// An entry of one word.
fn read_bare<'a>(word: &[u8]) -> Option<Entry<'a>>
    ensures { option_map told_entry result ≡ word_in word.now }
{
    if word == b"open".as_slice() {
        return Some(Entry::Opened);
    }
    if word == b"snap".as_slice() {
        return Some(Entry::Wanted);
    }
    None
}

/// An entry of one line.
fn read_line(line: &[u8]) -> Option<Entry<'_>>
    ensures { option_map told_entry result ≡ line_in line.now }
{
    match split_word(line) {
        None => read_bare(line),
        Some((word, rest)) => read_rest(word, rest),
    }
}

/// The head of an entry of calls, behind its first word.
fn read_head(words: &[u8]) -> Option<Head<'_>>
    ensures { option_map words_of_head result ≡ calls_head_in words.now }
{
    let (session, rest) = read_number_then(words)?;
    let (sequence, rest) = read_number_then(rest)?;
    let (count, rest) = read_number_then(rest)?;
    let (position, digest) = read_number_then(rest)?;
    if !is_hex_word(digest, 16) {
        return None;
    }
    Some(Head {
        session,
        sequence,
        count,
        position,
        digest,
    })
}

/// The calls of a head with the lines behind it, if they are as many as it says, and none is empty.
fn read_lines<'a>(head: Head<'a>, lines: &'a [u8]) -> Option<Entry<'a>>
    ensures { option_map told_entry result ≡ lines_behind (words_of_head head.entry) (lines_in lines.now) }
{
    if head.count != count_lines(lines) as u64 || !are_lines_full(lines) {
        return None;
    }
    Some(Entry::Calls {
        session: head.session,
        sequence: head.sequence,
        position: head.position,
        digest: head.digest,
        lines,
    })
}

/// An entry of calls, of its first line and what stands behind the newline.
fn read_calls<'a>(line: &'a [u8], lines: &'a [u8]) -> Option<Entry<'a>>
    ensures { option_map told_entry result ≡ calls_in line.now lines.now }
{
    let (word, rest) = split_word(line)?;
    if word != b"calls".as_slice() {
        return None;
    }
    read_lines(read_head(rest)?, lines)
}

/// An entry.
fn find_entry(bytes: &[u8]) -> Option<Entry<'_>>
    ensures { option_map told_entry result ≡ entry_read bytes.now }
{
    match split_line(bytes) {
        None => read_line(bytes),
        Some((line, lines)) => read_calls(line, lines),
    }
}

/// Reads an entry. The error says that the bytes are the text of none. A number that has more than 64 bits is in no
/// entry. The cost is linear in the bytes, and nothing takes memory.
pub fn read_entry(bytes: &[u8]) -> Result<Entry<'_>, EntryFault>
    ensures ok { IfOk result (λ e. IsGood (told_entry e) × (bytes.now ≡ entry_text (told_entry e))) }
    ensures err { OnErr result ((e : LogEntry) → IsGood e → bytes.now ≢ entry_text e) }
{
    match find_entry(bytes) {
        Some(entry) => Ok(entry),
        None => Err(EntryFault::NoEntry),
    }
}
