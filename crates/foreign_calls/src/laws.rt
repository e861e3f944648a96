//! Laws of what C is told. Each call does nothing.
ghost use Rattle.std.specs.Prelude.{◌≡◌, ◌<◌, ℕ, List, Some};
ghost use Rattle.{
  pid_types.specs.State.{State},
  table_text.specs.Texts.{text_of},
  kept_table.specs.Chronicle.{Chronicle},
  saved_form.specs.{declared.numbers.EntryNumbers.{EntryNumbers}, Places.{FitsTypes, HasPlaces}},
  foreign_calls.specs.{Entries.{TellsEntry}, Saved.{IsLoadable, Loads}},
};

use table_text::laws::{texts_tell_states, what_fits_is_of_words};

/// What is dumped of a table or of a record is the text of a table, and no other table is loaded from it.
pub fn what_is_dumped_loads()
    ensures { (stamp : ℕ) (state : State) (text : List ℕ) → IsLoadable stamp state → text ≡ text_of stamp state
        → Loads stamp state text }
{
    texts_tell_states();
    what_fits_is_of_words();
}

/// Each kept entry, as it is told, has a place in the form of saved histories: so it can be written. A worker is a
/// number below 256, and there are at most 16.
pub fn kept_entries_can_be_written()
    ensures { (c : Chronicle) (ordinal : ℕ) (n : EntryNumbers) → TellsEntry c ordinal (Some n) → FitsTypes n
        → n.worker < 256 → HasPlaces n }
{}
