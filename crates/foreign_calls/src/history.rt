//! The history of a table: its kept entries, cutting them away, and the list of the state that it begins in.
ghost use Rattle.std.specs.Prelude.{◌≡◌, ◌≢◌, ◌↔◌, [], ◌∷◌, None, IfOk};
ghost use Rattle.{
  kept_table.specs.Chronicle.{total, kept_entry},
  foreign_calls.specs.{Entries.{IsEntry}, Held.{IsDoneOr}, Records.{CutsIfDone}},
  table_lines.specs.Listed.{list_of_state},
};

use foreign_numbers::call_numbers::tell_call;
use foreign_numbers::numbers::{CallNumbers, ReplyNumbers, put_reply};
use foreign_numbers::status::{AGAIN, DONE, NO_MEMORY, NOT_KEPT};
use kept_table::Kept;
use pid_script::list::list_text;
use std::alloc::{AllocError, Global};

/// Tells the kept entry with the ordinal. The result is the status.
pub fn tell_entry(
    held: &Kept,
    ordinal: u64,
    worker: &mut u64,
    call: &mut CallNumbers,
    reply: &mut ReplyNumbers,
) -> u32
    ensures done { result ≡ DONE → IsEntry held.now ordinal worker.new call.new reply.new }
    ensures not_done { result ≢ DONE
        → (worker.new ≡ worker.old) × (call.new ≡ call.old) × (reply.new ≡ reply.old) }
    ensures not_kept { (result ≡ NOT_KEPT) ↔ (kept_entry held.now ordinal ≡ None) }
    ensures statuses { IsDoneOr result (NOT_KEPT ∷ []) }
{
    let Some(entry) = held.entry(ordinal) else {
        return NOT_KEPT;
    };
    *worker = entry.worker as u64;
    *call = tell_call(&entry.call);
    put_reply(&entry.reply, reply);
    DONE
}

/// Cuts the history. The result is the status.
pub fn cut_on(held: &mut Kept) -> u32
    ensures cuts { CutsIfDone held.old held.new result }
    ensures statuses { IsDoneOr result (NO_MEMORY ∷ []) }
{
    match held.checkpoint() {
        Ok(()) => DONE,
        Err(_) => NO_MEMORY,
    }
}

/// Cuts the history, but only where exactly so many calls were recorded. The result is the status.
pub fn cut_at(held: &mut Kept, seen: u64) -> u32
    ensures cuts { CutsIfDone held.old held.new result }
    ensures seen { result ≡ DONE → total held.old ≡ seen }
    ensures again { (result ≡ AGAIN) ↔ (total held.old ≢ seen) }
    ensures statuses { IsDoneOr result (AGAIN ∷ NO_MEMORY ∷ []) }
{
    if held.total() != seen {
        return AGAIN;
    }
    cut_on(held)
}

/// The text of the list of the state that the kept history begins in. The error is want of memory.
pub fn opening_text(alloc: Global, held: &Kept) -> Result<Vec<u8>, AllocError>
    ensures { IfOk result (λ text. text.items ≡ list_of_state held.now.opening) }
{
    let plain = held.opening()?;
    list_text(alloc, &plain)
}
