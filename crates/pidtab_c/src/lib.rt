//! The table for C, in the user's own process: calls as lines of the script language, and their answers as text.
//!
//! A table keeps its history or none: one without a history does not grow with its calls. C holds a [`Pidtab`], which
//! is two words and begins as zeroes. No exported function asks anything of its caller but that the pointers are good,
//! that no two of them overlap, and that one function at a time works on a table. The work is done in `foreign_calls`.
//!
//! Each function answers with a status, `DONE` or a number of Linux's errno. Any status but `DONE` says that the table
//! is as it was; those of [`numbers`] may answer the error of a refusal instead, of a query that was made and used a
//! stamp. A function tests for its statuses in the order in which its comment names them.
#![tactic(auto)]

ghost use Rattle.std.specs.Prelude.{◌≡◌, ◌↔◌, [], ◌∷◌, IfSome, Some, None};
ghost use Rattle.{
  table_lines.specs.Listed.{list_of_state},
  stamped_table.specs.Stamped.{IsInOrder},
  foreign_handles.specs.Held.{stamped},
  foreign_calls.specs.{Calls.{visible_held}, Held.{OnlyReads, Opens}, Opened.{opened, CanOpen}, Rooms.{PutsText}},
};

mod ask;
mod calls;
mod effects;
mod history;
mod inside;
mod many_calls;
mod numbers;
mod page;
mod read;
mod replay;
mod replicas;
mod residents;
mod saved_bytes;
mod saved_table;
mod space;
mod task;
mod texts;
mod would;

use foreign_calls::table::{MOST_WORKERS, Pidtab, TableSettings, new_held};
use foreign_calls::table_texts::list_of;
use foreign_calls::texts::write_text;
use foreign_numbers::status::{BUSY, CLOSED, DONE, NO_MEMORY, NO_ROOM, OUT_OF_RANGE};
use pid_script::answer::LONGEST_ANSWER;
use pid_script::call::LONGEST_CALL;
use pid_script::part::LONGEST_LINE;
use pid_types::config::{GREATEST_PID_MAX, LEAST_PID_MAX};
use pid_types::plain::LEVELS;
use std::alloc::Global;

/// The number of this interface. It changes where a program that was compiled for another one would go wrong.
pub const VERSION: u32 = 1;

/// The number of this interface, which is 1.
#[unsafe(no_mangle)]
pub extern "C" fn pidtab_version() -> u32
    ensures { result ≡ 1 }
{
    VERSION
}

/// The bounds that the headers have, each as a literal; the call does nothing. A bound may only rise in a later
/// release.
pub fn bounds_are_literal()
    ensures texts { (LONGEST_LINE ≡ 200) × (LONGEST_ANSWER ≡ 362) × (LONGEST_CALL ≡ 42) }
    ensures tables { (LEAST_PID_MAX ≡ 301) × (GREATEST_PID_MAX ≡ 4194304) × (LEVELS ≡ 33) × (MOST_WORKERS ≡ 16) }
{}

/// Opens a table with the root init alone. It keeps its history unless `keep` is 0, and then has one worker. The first
/// call has `first_stamp`, and each one the next.
///
/// `BUSY` where it is open already; then `OUT_OF_RANGE` for no worker or more than 16, or than 1 where `keep` is 0, for
/// a `pid_max` outside 301 to 4194304, or for a first stamp of 0; `NO_MEMORY`. Whoever opens a table closes it.
#[unsafe(no_mangle)]
pub extern "C" fn pidtab_open_with(
    alloc: Global,
    table: &mut Pidtab,
    settings: &TableSettings,
) -> u32
    ensures opens { Opens table.old.handle.held table.new.handle.held result (OUT_OF_RANGE ∷ NO_MEMORY ∷ []) }
    ensures done { result ≡ DONE → visible_held table.new.handle.held ≡ Some (opened settings.now) }
    ensures good { result ≡ DONE → CanOpen settings.now }
    ensures out_of_range { (result ≡ OUT_OF_RANGE)
        ↔ (table.old.handle.held ≡ None) × (CanOpen settings.now → ⊥) }
{
    if table.is_open {
        return BUSY;
    }
    match new_held(alloc, settings) {
        Ok(held) => {
            table.put(held);
            DONE
        }
        Err(status) => status,
    }
}

/// Frees the table, if there is one, and leaves zeroes.
#[unsafe(no_mangle)]
pub extern "C" fn pidtab_close(alloc: Global, table: &mut Pidtab)
    ensures { table.new.handle.held ≡ None }
{
    table.close(alloc);
}

/// Puts the list of the table at the front of the room, each line with its newline; `size` is the list's length.
///
/// `CLOSED` where there is no open table; `NO_MEMORY`; `NO_ROOM` where the list is longer than the room, and then too
/// `size` is the list's length. It costs the text, which is held whole before it is put. Its contract tells too what is
/// true of a table between any two calls: its state is sound, and the ids in it are below the stamp of the next call.
#[unsafe(no_mangle)]
pub extern "C" fn pidtab_list(
    alloc: Global,
    table: &mut Pidtab,
    room: &mut [u8],
    size: &mut usize,
) -> u32
    ensures reads { OnlyReads table.old.handle.held table.new.handle.held result (NO_ROOM ∷ NO_MEMORY ∷ []) }
    ensures sound { IfSome table.old.handle.held (λ h. IsInOrder (stamped h)) }
    ensures text { PutsText table.old.handle.held (λ h. list_of_state (stamped h).state)
        room.old room.new size.old size.new result }
{
    if !table.is_open {
        return CLOSED;
    }
    match list_of(alloc, table.handle.look()) {
        Ok(text) => write_text(text.as_slice(), room, size),
        Err(_) => NO_MEMORY,
    }
}
