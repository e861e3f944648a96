//! A table that is opened as a text says, and why one is not.
ghost use Rattle.std.specs.Prelude.{◌≡◌, ◌≢◌, ◌≤◌, ◌↔◌, ◌⊎◌, [], ◌∷◌, Some, IfOk, IfErr};
ghost use Rattle.{
  table_load.specs.{declared.fault.RestoreFault.TheVariants.{NoMemory}, Faults.{IsOfForm}, Texts.{IsTextOfNoTable}},
  table_text.specs.Reading.{IsNoText},
  foreign_calls.specs.{Held.{table_alone, Opens}, Records.{Has}},
  foreign_calls.specs.Saved.{no_fault, fault_numbers, IsLoaded, TellsFault},
};

use crate::table::{Pidtab, boxed};
use crate::table_texts::of_loaded;
use foreign_handles::held::Held;
use foreign_numbers::status::{BAD_TEXT, BUSY, DONE, NO_MEMORY};
use std::alloc::Global;
use table_load::fault::RestoreFault;
use table_load::load::load;

/// Why no table is loaded from a text: the fault's line, counted from 1, and its kind, a number from 1 to 12 but
/// 11, which once was a fault. Both are 0 where the text has no fault.
#[repr(C)]
#[derive(Clone, Copy)]
pub struct FaultNumbers {
    pub line: u64,
    pub kind: u32,
}

/// The fault as numbers.
pub fn tell_fault(fault: RestoreFault) -> FaultNumbers
    ensures { result ≡ fault_numbers fault }
{
    let (line, kind) = match fault {
        RestoreFault::NoMemory => (0, 0),
        RestoreFault::BadLine(line) => (line, 1),
        RestoreFault::WrongDigest(line) => (line, 2),
        RestoreFault::BadSettings(line) => (line, 3),
        RestoreFault::Unsorted(line) => (line, 4),
        RestoreFault::UnknownParent(line) => (line, 5),
        RestoreFault::UnknownNamespace(line) => (line, 6),
        RestoreFault::UnknownGroup(line) => (line, 7),
        RestoreFault::BadName(line) => (line, 8),
        RestoreFault::TakenNumber(line) => (line, 9),
        RestoreFault::NoInit(line) => (line, 10),
        RestoreFault::Impossible(line) => (line, 12),
    };
    FaultNumbers { line, kind }
}

/// Tells why no table is loaded. The result is the status.
pub fn put_fault(found: RestoreFault, fault: &mut FaultNumbers) -> u32
    ensures told { fault.new ≡ fault_numbers found }
    ensures kind { result ≡ BAD_TEXT → (1 ≤ fault.new.kind) × (fault.new.kind ≤ 12) }
    ensures form { result ≡ BAD_TEXT → fault.new.kind ≤ 2 → IsOfForm found }
    ensures none { result ≡ NO_MEMORY → fault.new ≡ no_fault }
    ensures no_memory { (result ≡ NO_MEMORY) ↔ (found ≡ NoMemory) }
    ensures statuses { (result ≡ NO_MEMORY) ⊎ (result ≡ BAD_TEXT) }
{
    *fault = tell_fault(found);
    match found {
        RestoreFault::NoMemory => NO_MEMORY,
        _ => BAD_TEXT,
    }
}

/// The table on the heap that the text says.
fn boxed_load(alloc: Global, text: &[u8]) -> Result<Box<Held>, RestoreFault>
    ensures held { IfOk result (λ held. Has (table_alone (Some held.value)) (λ s. IsLoaded text.now s)) }
    ensures form { IfErr result (λ fault. IsOfForm fault → IsNoText text.now) }
    ensures refused { IfErr result (λ fault. fault ≢ RestoreFault.NoMemory → IsTextOfNoTable text.now) }
{
    let held = of_loaded(load(alloc, text)?);
    match boxed(alloc, Held::Bare(held)) {
        Ok(held) => Ok(held),
        Err(_) => Err(RestoreFault::NoMemory),
    }
}

impl Pidtab {
    /// Opens a table as the text says. The result is the status: `BUSY`; `BAD_TEXT`, and `fault` says why; `NO_MEMORY`.
    pub fn load(&mut self, alloc: Global, text: &[u8], fault: &mut FaultNumbers) -> u32
        ensures opens { Opens self.old.handle.held self.new.handle.held result (BAD_TEXT ∷ NO_MEMORY ∷ []) }
        ensures done { result ≡ DONE → Has (table_alone self.new.handle.held) (λ s. IsLoaded text.now s) }
        ensures fault { TellsFault text.now fault.new result }
    {
        *fault = FaultNumbers { line: 0, kind: 0 };
        if self.is_open {
            return BUSY;
        }
        match boxed_load(alloc, text) {
            Ok(held) => {
                self.put(held);
                DONE
            }
            Err(found) => put_fault(found, fault),
        }
    }
}
