//! A table with a history that goes on from the text of a table.
ghost use Rattle.std.specs.Prelude.{◌≡◌, ◌≢◌, ◌<◌, ◌≤◌, ◌⊎◌, [], ◌∷◌, None, Some, IfOk, IfErr, OnOk, sum, true};
ghost use Rattle.{
  pid_types.specs.Sound.{IsBelow},
  table_load.specs.Texts.{IsTextOfNoTable},
  table_text.specs.Reading.{saved_state, IsNoText},
  kept_table.specs.Calls.{resumed},
  foreign_calls.specs.{Held.{history, Opens}, Records.{Has}},
  foreign_calls.specs.Saved.{no_fault, HasWorkers, HasTooManyCalls, TellsTooManyCalls},
  foreign_calls.specs.Saved.{IsResumed, TellsFault},
};

use crate::saved_table::{FaultNumbers, put_fault};
use crate::table::{MOST_WORKERS, Pidtab, boxed};
use foreign_handles::held::Held;
use foreign_numbers::status::{BAD_TEXT, BUSY, DONE, NO_MEMORY, OUT_OF_RANGE};
use kept_table::Kept;
use std::alloc::{AllocError, Global};
use table_load::fault::RestoreFault;
use table_load::load::{Loaded, table_of};
use table_text::laws::{texts_tell_states, what_fits_is_of_words};
use table_text::read::{Saved, read_text};

/// A table with a history on the heap that goes on from what was loaded. A second table of the same text is its
/// opening, which lags behind from then on. The error is want of memory: nothing else is wrong with a text that was
/// loaded once.
fn boxed_resume(
    alloc: Global,
    loaded: Loaded,
    saved: &Saved,
    counts: &[u64],
) -> Result<Box<Held>, AllocError>
    requires below { IsBelow loaded.stamp loaded.table }
    requires before { sum counts.now < loaded.stamp }
    requires same { loaded.table ≡ saved_state saved.now }
    ensures { IfOk result (λ held. Has (history (Some held.value)) (λ c. c
        ≡ record (resumed loaded.table loaded.stamp counts.now c.memory.room) { by_steps = true })) }
{
    let Loaded { table, stamp } = loaded;
    let mut held = Kept::resume(alloc, table, stamp, counts)?;
    let Ok(second) = table_of(alloc, saved) else {
        return Err(AllocError);
    };
    held.give_opening(second.table);
    boxed(alloc, Held::Recorded(held))
}

/// A table with a history on the heap that goes on as the text says, behind so many recorded calls of each worker. The
/// error is the status: `BAD_TEXT` for the form, and `fault` says why; `OUT_OF_RANGE` for the sum of the counts;
/// `BAD_TEXT` for the table; `NO_MEMORY`.
fn resumed_from(
    alloc: Global,
    text: &[u8],
    counts: &[u64],
    fault: &mut FaultNumbers,
) -> Result<Box<Held>, u32>
    requires { fault.old ≡ no_fault }
    ensures done { IfOk result (λ held. Has (history (Some held.value)) (λ c. IsResumed text.now counts.now c)) }
    ensures out_of_range { IfErr result (λ status. status ≡ OUT_OF_RANGE → HasTooManyCalls text.now counts.now) }
    ensures few { OnOk result (TellsTooManyCalls text.now counts.now → ⊥) }
    ensures too_many { IfErr result (λ status. TellsTooManyCalls text.now counts.now
        → (status ≡ OUT_OF_RANGE) ⊎ (status ≡ NO_MEMORY)) }
    ensures bad_text { IfErr result (λ status. status ≡ BAD_TEXT
        → (1 ≤ fault.new.kind) × (fault.new.kind ≤ 12)) }
    ensures refused { IfErr result (λ status. status ≡ BAD_TEXT → IsTextOfNoTable text.now) }
    ensures form { IfErr result (λ status. status ≡ BAD_TEXT → fault.new.kind ≤ 2 → IsNoText text.now) }
    ensures no_fault { OnOk result (fault.new ≡ no_fault) }
    ensures err_fault { IfErr result (λ status. status ≢ BAD_TEXT → fault.new ≡ no_fault) }
    ensures statuses { IfErr result (λ status. (status ≡ OUT_OF_RANGE)
        ⊎ ((status ≡ BAD_TEXT) ⊎ (status ≡ NO_MEMORY))) }
{
    texts_tell_states();
    what_fits_is_of_words();
    let saved = match read_text(alloc, text) {
        Ok(saved) => saved,
        Err(found) => return Err(put_fault(RestoreFault::from(found), fault)),
    };
    if !Kept::can_resume(saved.stamp, counts) {
        return Err(OUT_OF_RANGE);
    }
    let loaded = match table_of(alloc, &saved) {
        Ok(loaded) => loaded,
        Err(found) => return Err(put_fault(found, fault)),
    };
    match boxed_resume(alloc, loaded, &saved, counts) {
        Ok(held) => Ok(held),
        Err(_) => Err(NO_MEMORY),
    }
}

impl Pidtab {
    /// Opens a table with a history that goes on as the text says, behind so many recorded calls of each worker. The
    /// result is the status: `BUSY`; `OUT_OF_RANGE` for the number of workers; `BAD_TEXT` for the form, and `fault`
    /// says why; `OUT_OF_RANGE` for the sum of the counts; `BAD_TEXT` for the table; `NO_MEMORY`. It costs two tables:
    /// the present one, and that of the opening.
    pub fn load_with(
        &mut self,
        alloc: Global,
        text: &[u8],
        counts: &[u64],
        fault: &mut FaultNumbers,
    ) -> u32
        ensures opens { Opens self.old.handle.held self.new.handle.held result
            (OUT_OF_RANGE ∷ BAD_TEXT ∷ NO_MEMORY ∷ []) }
        ensures done { result ≡ DONE → Has (history self.new.handle.held) (λ c. IsResumed text.now counts.now c) }
        ensures workers { result ≡ DONE → HasWorkers counts.now }
        ensures no_workers { self.old.handle.held ≡ None → (HasWorkers counts.now → ⊥) → result ≡ OUT_OF_RANGE }
        ensures out_of_range { result ≡ OUT_OF_RANGE → HasWorkers counts.now → HasTooManyCalls text.now counts.now }
        ensures too_many { self.old.handle.held ≡ None → HasWorkers counts.now → TellsTooManyCalls text.now counts.now
            → (result ≡ OUT_OF_RANGE) ⊎ (result ≡ NO_MEMORY) }
        ensures fault { TellsFault text.now fault.new result }
    {
        *fault = FaultNumbers { line: 0, kind: 0 };
        if self.is_open {
            return BUSY;
        }
        if counts.is_empty() || counts.len() > MOST_WORKERS as usize {
            return OUT_OF_RANGE;
        }
        match resumed_from(alloc, text, counts, fault) {
            Ok(held) => {
                self.put(held);
                DONE
            }
            Err(status) => status,
        }
    }
}
