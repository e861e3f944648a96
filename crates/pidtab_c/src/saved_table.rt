//! A table as a text, for C: the text is written, and a table is opened as such a text says.
ghost use Rattle.std.specs.Prelude.{◌≡◌, ◌⊎◌, [], ◌∷◌, None, true};
ghost use Rattle.{
  table_text.specs.Texts.{text_of},
  foreign_handles.specs.Held.{stamped},
  foreign_calls.specs.{Held.{OnlyReads, Opens}, Records.{Has}, Rooms.{PutsText}},
  foreign_calls.specs.Saved.{HasLoaded, HasWorkers, HasTooManyCalls, IsLoadable, TellsFault, TellsTooManyCalls},
};

use foreign_calls::saved_table::FaultNumbers;
use foreign_calls::table::Pidtab;
use foreign_calls::table_texts::dump_of;
use foreign_calls::texts::write_text;
use foreign_numbers::status::{BAD_TEXT, CLOSED, DONE, NO_MEMORY, NO_ROOM, OUT_OF_RANGE};
use std::alloc::Global;

/// Puts the text of the table, with the stamp of its next call, at the front of the room; `size` is the text's length.
/// Bytes of the room behind it stay as they are. [`pidtab_load_with`] opens a table as the text says, and refuses none
/// of these texts: [`foreign_calls::laws::what_is_dumped_loads`].
///
/// `CLOSED` where there is no open table; `NO_MEMORY`; `NO_ROOM` where the text is longer than the room, and then too
/// `size` is the text's length. It costs the text, which is held whole before it is put.
#[unsafe(no_mangle)]
pub extern "C" fn pidtab_dump(
    alloc: Global,
    table: &mut Pidtab,
    room: &mut [u8],
    size: &mut usize,
) -> u32
    ensures reads { OnlyReads table.old.handle.held table.new.handle.held result (NO_ROOM ∷ NO_MEMORY ∷ []) }
    ensures text { PutsText table.old.handle.held (λ h. text_of (stamped h).stamp (stamped h).state)
        room.old room.new size.old size.new result }
    ensures loadable { result ≡ DONE
        → Has table.old.handle.held (λ h. IsLoadable (stamped h).stamp (stamped h).state) }
{
    if !table.is_open {
        return CLOSED;
    }
    match dump_of(alloc, table.handle.look()) {
        Ok(text) => write_text(text.as_slice(), room, size),
        Err(_) => NO_MEMORY,
    }
}

/// Opens a table as the text says: its state, and the stamp of its next call. Any bytes may be given. Where a history
/// is to be kept it begins there, after so many recorded calls of each worker as `counts` has: the ordinal of the next
/// call is their sum. Else `counts` is not looked at.
///
/// `BUSY` where it is open already; then, of a history alone, `OUT_OF_RANGE` for no worker or more than 16; then
/// `BAD_TEXT` where the text has not the form, and `fault` says why by kind 1 or 2; then, of a history alone,
/// `OUT_OF_RANGE` where the counts add up to the stamp of the text or more, since the first call of all has a stamp of
/// 1 or more; then `BAD_TEXT` where the text is that of no table, by another kind; `NO_MEMORY`. Where the status is not
/// `BAD_TEXT`, `fault` is zeroes. It costs some times what the forks cost that made the tasks, of a history twice.
/// Whoever opens a table closes it.
#[unsafe(no_mangle)]
pub extern "C" fn pidtab_load_with(
    alloc: Global,
    table: &mut Pidtab,
    text: &[u8],
    counts: &[u64],
    keeps_history: bool,
    fault: &mut FaultNumbers,
) -> u32
    ensures opens { Opens table.old.handle.held table.new.handle.held result
        (OUT_OF_RANGE ∷ BAD_TEXT ∷ NO_MEMORY ∷ []) }
    ensures done { result ≡ DONE → HasLoaded text.now counts.now keeps_history table.new.handle.held }
    ensures workers { result ≡ DONE → keeps_history ≡ true → HasWorkers counts.now }
    ensures no_workers { table.old.handle.held ≡ None → keeps_history ≡ true → (HasWorkers counts.now → ⊥)
        → result ≡ OUT_OF_RANGE }
    ensures out_of_range { result ≡ OUT_OF_RANGE
        → (keeps_history ≡ true) × (HasWorkers counts.now → HasTooManyCalls text.now counts.now) }
    ensures too_many { table.old.handle.held ≡ None → keeps_history ≡ true → HasWorkers counts.now
        → TellsTooManyCalls text.now counts.now → (result ≡ OUT_OF_RANGE) ⊎ (result ≡ NO_MEMORY) }
    ensures fault { TellsFault text.now fault.new result }
{
    if keeps_history {
        table.load_with(alloc, text, counts, fault)
    } else {
        table.load(alloc, text, fault)
    }
}
