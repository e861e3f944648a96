//! Going over the children of a task, the members of a process group or of a session, or the tasks of a namespace, for
//! C.
//!
//! A page is no call: it uses no stamp, and changes nothing.
ghost use Rattle.std.specs.Prelude.{[], ◌∷◌};
ghost use Rattle.foreign_handles.specs.Held.{stamped};
ghost use Rattle.foreign_calls.specs.{Held.{OnlyReads}, Paged.{page_by, AnswersPage}};

use foreign_calls::page::{read_page, tell_page};
use foreign_calls::table::Pidtab;
use foreign_numbers::numbers::ReplyNumbers;
use foreign_numbers::status::{CLOSED, NO_MEMORY, OUT_OF_RANGE};

/// Writes the numbers, from one on, of those whom a number of `foreign_numbers::choices` says: `CHILDREN` of the task
/// with the number; `GROUP_MEMBERS` or `SESSION_MEMBERS` of the process group or the session with it;
/// `NAMESPACE_MEMBERS`, the tasks that the namespace sees in which the task with it is; or `NAMESPACE_OWN`, those of
/// them that are in no namespace inside it. They are the numbers in the caller's namespace, in rising order, and
/// whoever has none there is left out. A number of 0 is the caller itself, its own group or its own session, seen or
/// not. One that names nobody has an empty page.
///
/// As many are written as there is room for, and what is behind them stays. The reply tells how many there are, or one
/// more than the room takes where there are more, as that of a count; or that there is no caller.
///
/// `CLOSED` where there is no open table; then `OUT_OF_RANGE` for another `whom`; `NO_MEMORY`. Of the caller's own
/// namespace it costs a search and a few reads for each number that it passes, until it has one more than the room
/// takes. Else it costs a search, a few reads for each child or member, for each task that a namespace sees a search
/// more, and the sorting of their numbers. It takes memory while it lasts.
#[unsafe(no_mangle)]
pub extern "C" fn pidtab_page(
    table: &mut Pidtab,
    caller: u32,
    whom: u32,
    number: u32,
    from: u32,
    numbers: &mut [u32],
    reply: &mut ReplyNumbers,
) -> u32
    ensures reads { OnlyReads table.old.handle.held table.new.handle.held result (OUT_OF_RANGE ∷ NO_MEMORY ∷ []) }
    ensures answers { AnswersPage table.old.handle.held (λ h. (stamped h).state) (page_by caller whom number from)
        numbers.old numbers.new reply.old reply.new result }
{
    if !table.is_open {
        return CLOSED;
    }
    let Some(page) = read_page(caller, whom, number, from) else {
        return OUT_OF_RANGE;
    };
    tell_page(table.handle.look().table(), &page, numbers, reply)
}
