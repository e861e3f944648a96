//! One read of a namespace for C, in one struct. It is no call: it uses no stamp, and changes nothing.
ghost use Rattle.std.specs.Prelude.{[], ◌∷◌};
ghost use Rattle.foreign_handles.specs.Held.{stamped};
ghost use Rattle.foreign_calls.specs.{Held.{OnlyReads}, Spaces.{ReadsSpace}};

use foreign_calls::table::Pidtab;
use foreign_numbers::space::{SpaceNumbers, tell_space};
use foreign_numbers::status::{CLOSED, DONE, OUT_OF_RANGE};

/// Reads the namespace with the id: 0 is the root namespace.
///
/// `CLOSED` where there is no open table; then `OUT_OF_RANGE` where no namespace has the id, or it went with the last
/// number in it. It needs no memory, and is answered when the stamps are used up, too. It costs two searches and a few
/// reads.
#[unsafe(no_mangle)]
pub extern "C" fn pidtab_space(table: &mut Pidtab, id: u64, space: &mut SpaceNumbers) -> u32
    ensures reads { OnlyReads table.old.handle.held table.new.handle.held result (OUT_OF_RANGE ∷ []) }
    ensures told { ReadsSpace table.old.handle.held (λ h. (stamped h).state) id space.old space.new result }
{
    if !table.is_open {
        return CLOSED;
    }
    let Some(read) = table.handle.look().table().space(id) else {
        return OUT_OF_RANGE;
    };
    *space = tell_space(&read);
    DONE
}
