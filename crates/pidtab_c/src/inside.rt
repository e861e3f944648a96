//! Going over the namespaces directly in one, and the control groups directly in one, for C.
//!
//! A page is no call: it uses no stamp, and changes nothing.
ghost use Rattle.std.specs.Prelude.{[], ◌∷◌};
ghost use Rattle.foreign_handles.specs.Held.{stamped};
ghost use Rattle.foreign_calls.specs.{Held.{OnlyReads}, Inside.{inside_by, AnswersInside}};

use foreign_calls::inside::{read_inside, tell_inside};
use foreign_calls::table::Pidtab;
use foreign_numbers::status::{CLOSED, NO_MEMORY, OUT_OF_RANGE};

/// Writes the ids, from one on, of the namespaces that are directly in the one with the id, where the tree is `SPACES`;
/// or of the control groups that are directly in the one with the id, where it is `CONTROLS`. They come in rising
/// order, as many as there is room for, and what is behind them stays. The count is how many there are, or one more
/// than the room takes where there are more.
///
/// `CLOSED` where there is no open table; then `OUT_OF_RANGE` for another tree, or where it has no such id;
/// `NO_MEMORY`. It costs a search, a few reads for each of them, and the sorting of their ids, for which it takes
/// memory while it lasts.
#[unsafe(no_mangle)]
pub extern "C" fn pidtab_inside(
    table: &mut Pidtab,
    tree: u32,
    id: u64,
    from: u64,
    ids: &mut [u64],
    count: &mut u64,
) -> u32
    ensures reads { OnlyReads table.old.handle.held table.new.handle.held result (OUT_OF_RANGE ∷ NO_MEMORY ∷ []) }
    ensures answers { AnswersInside table.old.handle.held (λ h. (stamped h).state) (inside_by tree id from)
        ids.old ids.new count.old count.new result }
{
    if !table.is_open {
        return CLOSED;
    }
    let Some(inside) = read_inside(tree, id, from) else {
        return OUT_OF_RANGE;
    };
    tell_inside(table.handle.look().table(), &inside, ids, count)
}
