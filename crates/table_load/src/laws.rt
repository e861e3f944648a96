//! The law of a saved table: what is dumped is loaded.
ghost use Rattle.std.specs.Prelude.{◌≡◌, IfOk, IfErr};
ghost use Rattle.pid_types.specs.Sound.{IsBelow};

use crate::fault::RestoreFault;
use crate::load::{Loaded, load};
use pid_table::PidTable;
use std::alloc::Global;
use table_lines::dump::dump_table;
use table_text::laws::{texts_tell_states, what_fits_is_of_words};

/// The table that is loaded from the dump of a table, whose ids are below the stamp: the same state with the same
/// stamp. Only want of memory keeps it from that.
pub fn what_is_dumped_is_loaded(
    alloc: Global,
    table: &PidTable,
    stamp: u64,
) -> Result<Loaded, RestoreFault>
    requires { IsBelow stamp table.now }
    ensures loaded { IfOk result (λ l. (l.stamp ≡ stamp) × (l.table ≡ table.now)) }
    ensures err { IfErr result (λ fault. fault ≡ RestoreFault.NoMemory) }
{
    table.laws();
    let _bound = table.pid_max();
    texts_tell_states();
    what_fits_is_of_words();
    let Ok(text) = dump_table(alloc, table, stamp) else {
        return Err(RestoreFault::NoMemory);
    };
    load(alloc, text.as_slice())
}
