//! Entries to bytes.
ghost use Rattle.std.specs.Prelude.{◌≡◌, ◌++◌, ◌∷◌, [], OnOk, IfOk, codes, decimal};
ghost use Rattle.replica.specs.{Entries.{Settings, Calls, Announced, entry_text, spaced}, Reading.{lines_in}};
ghost use Rattle.replica.specs.Told.{told_entry};

use crate::entry::Entry;
use crate::words::count_lines;
use pid_script::list::push_field;
use std::alloc::{AllocError, Global};

/// Appends the settings.
fn push_settings(text: &mut Vec<u8>, form: u64, pid_max: u64, model: u64) -> Result<(), AllocError>
    ensures { OnOk result (text.new.items ≡ text.old.items ++ entry_text (Settings form pid_max model)) }
{
    push_field(text, b"pidtab-log ", form)?;
    push_field(text, b" pid_max ", pid_max)?;
    push_field(text, b" model ", model)
}

/// Appends a space and the word.
fn push_word(text: &mut Vec<u8>, word: &[u8]) -> Result<(), AllocError>
    ensures { OnOk result (text.new.items ≡ text.old.items ++ 32 ∷ word.now) }
{
    text.push(b' ')?;
    text.extend_from_slice(word)
}

/// Appends what announces a snapshot.
fn push_announced(
    text: &mut Vec<u8>,
    position: u64,
    digest: &[u8],
    size: u64,
    sum: &[u8],
    key: &[u8],
) -> Result<(), AllocError>
    ensures { OnOk result
        (text.new.items ≡ text.old.items ++ entry_text (Announced position digest.now size sum.now key.now)) }
{
    push_field(text, b"snapshot ", position)?;
    push_word(text, digest)?;
    push_field(text, b" ", size)?;
    push_word(text, sum)?;
    push_word(text, key)
}

/// Appends the head of an entry of calls.
fn push_head(
    text: &mut Vec<u8>,
    session: u64,
    sequence: u64,
    count: u64,
    position: u64,
    digest: &[u8],
) -> Result<(), AllocError>
    ensures { OnOk result (text.new.items ≡ text.old.items
        ++ spaced (codes "calls"
        ∷ decimal session ∷ decimal sequence ∷ decimal count ∷ decimal position ∷ digest.now ∷ [])) }
{
    push_field(text, b"calls ", session)?;
    push_field(text, b" ", sequence)?;
    push_field(text, b" ", count)?;
    push_field(text, b" ", position)?;
    push_word(text, digest)
}

/// Appends a newline and the lines.
fn push_lines(text: &mut Vec<u8>, lines: &[u8]) -> Result<(), AllocError>
    ensures { OnOk result (text.new.items ≡ text.old.items ++ 10 ∷ lines.now) }
{
    text.push(b'\n')?;
    text.extend_from_slice(lines)
}

/// Appends an entry of calls.
fn push_calls(
    text: &mut Vec<u8>,
    session: u64,
    sequence: u64,
    position: u64,
    digest: &[u8],
    lines: &[u8],
) -> Result<(), AllocError>
    ensures { OnOk result (text.new.items
        ≡ text.old.items ++ entry_text (Calls session sequence position digest.now (lines_in lines.now))) }
{
    push_head(
        text,
        session,
        sequence,
        count_lines(lines) as u64,
        position,
        digest,
    )?;
    push_lines(text, lines)
}

/// Appends an entry. After an `Err` the text has some of its bytes.
fn push_entry(text: &mut Vec<u8>, entry: &Entry) -> Result<(), AllocError>
    ensures { OnOk result (text.new.items ≡ text.old.items ++ entry_text (told_entry entry.now)) }
{
    match *entry {
        Entry::Settings {
            form,
            pid_max,
            model,
        } => push_settings(text, form, pid_max, model),
        Entry::Opened => text.extend_from_slice(b"open"),
        Entry::Ended { session } => push_field(text, b"end ", session),
        Entry::Calls {
            session,
            sequence,
            position,
            digest,
            lines,
        } => push_calls(text, session, sequence, position, digest, lines),
        Entry::Wanted => text.extend_from_slice(b"snap"),
        Entry::Announced {
            position,
            digest,
            size,
            sum,
            key,
        } => push_announced(text, position, digest, size, sum, key),
    }
}

/// Writes an entry. What is read of the bytes is the entry again, if it is a good one, as those are that were read: its
/// digits are digits, and it has lines, none of them empty ([`crate::laws`]). The error is want of memory. The cost is
/// linear in the text.
pub fn write_entry(alloc: Global, entry: &Entry) -> Result<Vec<u8>, AllocError>
    ensures { IfOk result (λ text. text.items ≡ entry_text (told_entry entry.now)) }
{
    let mut text = Vec::new(alloc);
    push_entry(&mut text, entry)?;
    Ok(text)
}
