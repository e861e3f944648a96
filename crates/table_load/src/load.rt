//! The way from a text to a table: [`load`].
ghost use Rattle.std.specs.Prelude.{◌≡◌, ◌≢◌, IfOk, IfErr, OnOk};
ghost use Rattle.{
  pid_types.specs.Sound.{IsSound, IsBelow},
  task_table.specs.{Store.{HasNoThreads}, Whole.{IsWhole}},
  table_build.specs.Tables.{IsOfTables},
  table_load.specs.{Faults.{IsOfForm}, Texts.{IsTextOfNoTable}},
  table_text.specs.{Ranges.{IsStateOfWords, IsWord}, Reading.{IsNoText, saved_state}, Texts.{text_of}},
};

use crate::below::is_below;
use crate::fault::RestoreFault;
use crate::flaws::fault_of;
use pid_table::PidTable;
use sound_store::check_sound;
use std::alloc::Global;
use table_build::build::build;
use table_text::laws::{texts_tell_states, what_fits_is_of_words};
use table_text::read::{Saved, read_text};
use task_table::Tasks;

/// A table that was loaded from a text.
#[derive(Drop)]
pub struct Loaded {
    /// The table. Its namespaces and control groups have the ids that they had.
    pub table: PidTable,
    /// The stamp of its next call, above all its ids.
    pub stamp: u64,
}

/// The table that a text was written of, and the stamp of its next call. `docs/SCRIPT.md` has the form.
///
/// Each text of a table is loaded, wherever there is memory. The error is the first that is met: a fault of the text
/// with its line, or want of memory. Then nothing is kept. That a line is bad, or the digest wrong, is said of a text
/// that is that of no state alone. The form is looked at first,
/// then the settings, the control groups, the namespaces, the names of the tasks, the groups and sessions, parents and
/// ends, falls, and at last what makes the state sound.
///
/// For each task it costs a reading of its line, a fork, a decision of a few searches, and a search by number for its
/// group, its session and its parent; for each namespace and each control group a few searches by id.
pub fn load(alloc: Global, text: &[u8]) -> Result<Loaded, RestoreFault>
    ensures text { IfOk result (λ l. text.now ≡ text_of l.stamp l.table) }
    ensures words { IfOk result (λ l. IsWord l.stamp × IsStateOfWords l.table) }
    ensures sound { IfOk result (λ l. IsSound l.table × IsBelow l.stamp l.table) }
    ensures form { IfErr result (λ fault. IsOfForm fault → IsNoText text.now) }
    ensures refused { IfErr result (λ fault. fault ≢ RestoreFault.NoMemory → IsTextOfNoTable text.now) }
{
    texts_tell_states();
    what_fits_is_of_words();
    let saved = read_text(alloc, text)?;
    table_of(alloc, &saved)
}

/// Sees that the store is sound. The error is the fault that its first flaw is, with its line.
fn check_store(alloc: Global, store: &Tasks, saved: &Saved) -> Result<(), RestoreFault>
    requires { HasNoThreads store.now.threads }
    ensures sound { OnOk result (IsWhole store.now) }
    ensures form { IfErr result (λ fault. IsOfForm fault → ⊥) }
    ensures refused { IfErr result (λ fault. fault ≢ RestoreFault.NoMemory → IsWhole store.now → ⊥) }
{
    match check_sound(alloc, store) {
        Ok(()) => Ok(()),
        Err(flaw) => Err(fault_of(saved, flaw)),
    }
}

/// The table that a text says which was read. It is the second half of [`load`], for whoever looks at what was read
/// before a table is made. The store is made as the text says, and found to be sound.
pub fn table_of(alloc: Global, saved: &Saved) -> Result<Loaded, RestoreFault>
    ensures state { IfOk result (λ l. l.table ≡ saved_state saved.now) }
    ensures stamp { IfOk result (λ l. l.stamp ≡ saved.now.stamp) }
    ensures sound { IfOk result (λ l. IsSound l.table × IsBelow l.stamp l.table) }
    ensures form { IfErr result (λ fault. IsOfForm fault → ⊥) }
    ensures refused { IfErr result (λ fault. fault ≢ RestoreFault.NoMemory → IsOfTables (saved_state saved.now)
        → IsBelow saved.now.stamp (saved_state saved.now) → ⊥) }
{
    if !is_below(saved) {
        return Err(RestoreFault::BadSettings(1));
    }
    let store = build(alloc, saved)?;
    check_store(alloc, &store, saved)?;
    let table = PidTable::of(store);
    table.laws();
    Ok(Loaded {
        table,
        stamp: saved.stamp,
    })
}
