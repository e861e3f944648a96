//! Queries for C: they are answered as calls are, and change nothing.
//!
//! A query is a getpid, getppid, getpgid, getsid, nspid, next or count.
ghost use Rattle.std.specs.Prelude.{[], ◌∷◌};
ghost use Rattle.{
  foreign_handles.specs.Held.{stamped},
  foreign_calls.specs.{Asked.{query_of, TellsAnswer}, Held.{OnlyReads}},
  stamped_table.specs.Stamped.{reply_to},
};

use foreign_calls::ask::ask;
use foreign_calls::table::Pidtab;
use foreign_numbers::numbers::{CallNumbers, ReplyNumbers};
use foreign_numbers::status::{CLOSED, OUT_OF_RANGE};

/// Answers the query that the numbers say, as the table's next call would be answered. It is no call: it uses no stamp,
/// and changes nothing.
///
/// `CLOSED` where there is no open table; then `OUT_OF_RANGE` where the numbers say no query, or what it takes is
/// outside its range. It needs no memory, and is answered when the stamps are used up, too. A query that the table
/// refuses is `DONE`: its reply says so.
#[unsafe(no_mangle)]
pub extern "C" fn pidtab_ask(
    table: &mut Pidtab,
    call: &CallNumbers,
    reply: &mut ReplyNumbers,
) -> u32
    ensures reads { OnlyReads table.old.handle.held table.new.handle.held result (OUT_OF_RANGE ∷ []) }
    ensures answers { TellsAnswer table.old.handle.held (λ h. reply_to (stamped h))
        (query_of call.now) reply.old reply.new result }
{
    if !table.is_open {
        return CLOSED;
    }
    ask(table.handle.look(), call, reply)
}
