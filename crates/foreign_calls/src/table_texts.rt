//! The texts of a table, and the table that was loaded from one.
ghost use Rattle.std.specs.Prelude.{◌≡◌, IfOk, OnOk};
ghost use Rattle.{
  pid_types.specs.Sound.{IsSound, IsBelow},
  foreign_handles.specs.Held.{stamped},
  stamped_table.specs.Stamped.{IsInOrder},
  table_lines.specs.Listed.{list_of_state},
  table_text.specs.Texts.{text_of},
  foreign_calls.specs.Saved.{IsLoadable},
};

use foreign_handles::held::Held;
use stamped_table::StampedTable;
use std::alloc::{AllocError, Global};
use table_lines::dump::dump_table;
use table_lines::list::list_table;
use table_load::load::Loaded;

/// The text of the list. The error is want of memory. Its contract tells what is true of a table between any two
/// calls.
pub fn list_of(alloc: Global, held: &Held) -> Result<Vec<u8>, AllocError>
    ensures text { IfOk result (λ text. text.items ≡ list_of_state (stamped held.now).state) }
    ensures sound { IsInOrder (stamped held.now) }
{
    held.laws();
    list_table(alloc, held.table())
}

/// The text of the table, with the stamp of its next call. The error is want of memory.
pub fn dump_of(alloc: Global, held: &Held) -> Result<Vec<u8>, AllocError>
    ensures text { IfOk result (λ text. text.items ≡ text_of (stamped held.now).stamp (stamped held.now).state) }
    ensures loadable { OnOk result (IsLoadable (stamped held.now).stamp (stamped held.now).state) }
{
    held.laws();
    // What this says of the bound is a part of what can be loaded.
    let _bound = held.table().pid_max();
    dump_table(alloc, held.table(), held.stamp())
}

/// The table that was loaded from a text.
pub fn of_loaded(loaded: Loaded) -> StampedTable
    requires sound { IsSound loaded.table }
    requires below { IsBelow loaded.stamp loaded.table }
    ensures { result ≡ record { state = loaded.table; stamp = loaded.stamp } }
{
    let Loaded { table, stamp } = loaded;
    StampedTable::of(table, stamp)
}
