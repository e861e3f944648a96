//! Laws of the entries.
ghost use Rattle.std.specs.Prelude.{◌≡◌};
ghost use Rattle.replica.specs.{Entries.{LogEntry, IsGood, entry_text}, Told.{told_entry}};

use crate::entry::Entry;
use crate::read::read_entry;

/// One text is of one entry.
pub fn texts_tell_entries()
    ensures { (a b : LogEntry) → IsGood a → IsGood b → entry_text a ≡ entry_text b → a ≡ b }
{}

/// What is written of an entry is read as that entry.
pub fn what_is_written_is_read<'a>(text: &'a [u8], entry: &Entry) -> Entry<'a>
    requires good { IsGood (told_entry entry.now) }
    requires written { text.now ≡ entry_text (told_entry entry.now) }
    ensures { told_entry result ≡ told_entry entry.now }
{
    match read_entry(text) {
        Ok(read) => read,
        Err(_) => unreachable!(),
    }
}
