//! Laws of the form.
ghost use Rattle.std.specs.Prelude.{◌≡◌, IfOk, IfErr};
ghost use Rattle.{
  pid_types.specs.{State.{State}, Sound.{IsSound}, Shown.{Shows}},
  table_text.specs.{Laws.{SnapshotsHaveTheirState, TextsTellStates, WhatFitsIsOfWords}, Reading.{saved_state}},
  table_text.specs.declared.fault.LoadFault.TheVariants.{NoMemory},
};

use crate::dump::dump_text;
use crate::fault::LoadFault;
use crate::read::{Saved, read_text};
use pid_types::plain::Plain;
use std::alloc::Global;

/// A snapshot has the state that it shows.
pub fn snapshots_have_their_state()
    ensures { SnapshotsHaveTheirState }
{}

/// Equal texts are of one state, with one stamp. The bound of all numbers is part of the state.
pub fn texts_tell_states()
    ensures { TextsTellStates }
{}

/// Numbers that fit their types are words of 64 bits.
pub fn what_fits_is_of_words()
    ensures { WhatFitsIsOfWords }
{}

/// What is written of a sound state is read back, and only want of memory keeps it from that.
pub fn what_is_written_is_read(alloc: Global, plain: &Plain, stamp: u64) -> Result<Saved, LoadFault>
    ensures read { (state : State) → IsSound state → Shows state plain.now
        → IfOk result (λ saved. (saved.stamp ≡ stamp) × (saved_state saved ≡ state)) }
    ensures err { (state : State) → IsSound state → Shows state plain.now → IfErr result (λ fault. fault ≡ NoMemory) }
{
    let Ok(text) = dump_text(alloc, plain, stamp) else {
        return Err(LoadFault::NoMemory);
    };
    read_text(alloc, text.as_slice())
}
