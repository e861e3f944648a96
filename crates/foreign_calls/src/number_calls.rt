//! Queries that tell one number, made as calls of worker 0.
ghost use Rattle.std.specs.Prelude.{◌≡◌, IsTrue, false};
ghost use Rattle.{
  model_laws.specs.Refusals.{is_query},
  pid_table.specs.Lists.{answers_list},
  foreign_handles.specs.declared.held.Held.TheVariants.{Bare, Recorded},
  foreign_calls.specs.Numbered.{TellsNumber},
};

use foreign_numbers::numbers::put_number;
use foreign_numbers::status::{OUT_OF_RANGE, status_of};
use kept_table::Kept;
use pid_types::call::Call;
use stamped_table::StampedTable;

/// Makes the query on a table without a history, and tells its number. The result is the status, or the error of the
/// refusal.
#[inline(always)]
pub fn number_bare(held: &mut StampedTable, query: Call, number: &mut u64) -> u32
    requires asks { IsTrue (is_query query) }
    requires short { answers_list query ≡ false }
    ensures { TellsNumber (Bare held.old) query number.old number.new result (Bare held.new) }
{
    match held.make_query(query) {
        Ok(told) => put_number(told, number),
        Err(fault) => status_of(fault),
    }
}

/// Makes the query on a table with its history, and tells its number. The result is the status, or the error of the
/// refusal. It is not inlined, so that the way without a history is.
#[inline(never)]
pub fn number_kept(held: &mut Kept, query: Call, number: &mut u64) -> u32
    requires asks { IsTrue (is_query query) }
    requires short { answers_list query ≡ false }
    ensures { TellsNumber (Recorded held.old) query number.old number.new result (Recorded held.new) }
{
    if held.workers() == 0 {
        return OUT_OF_RANGE;
    }
    match held.make_query(0, query) {
        Ok(told) => put_number(told, number),
        Err(fault) => status_of(fault),
    }
}
