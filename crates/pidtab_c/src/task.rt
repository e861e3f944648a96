//! One read of a task for C, in one struct. It is no call: it uses no stamp, and changes nothing.
ghost use Rattle.std.specs.Prelude.{◌≡◌, ◌≢◌, []};
ghost use Rattle.{
  translate.specs.Stat.{stat_at},
  foreign_handles.specs.Held.{stamped},
  foreign_calls.specs.{Held.{OnlyReads}, Records.{Has}},
  foreign_numbers.specs.Tasks.{task_numbers},
};

use foreign_calls::table::Pidtab;
use foreign_numbers::status::{CLOSED, DONE};
use foreign_numbers::task::{TaskNumbers, tell_task};

/// Reads the task with the number in the caller's namespace, where 0 is the caller: a zombie too, as `getpgid(2)` finds
/// it.
///
/// `CLOSED` where there is no open table. It needs no memory, and is answered when the stamps are used up, too. What
/// the table refuses is `DONE`: the task says so, by `no-caller` or `no-task`. It costs two searches, and a read for
/// each level.
#[unsafe(no_mangle)]
pub extern "C" fn pidtab_stat(
    table: &mut Pidtab,
    caller: u32,
    number: u32,
    task: &mut TaskNumbers,
) -> u32
    ensures reads { OnlyReads table.old.handle.held table.new.handle.held result [] }
    ensures done { result ≡ DONE
        → Has table.old.handle.held (λ h. task.new ≡ task_numbers (stat_at (stamped h).state caller number)) }
    ensures not_done { result ≢ DONE → task.new ≡ task.old }
{
    if !table.is_open {
        return CLOSED;
    }
    let read = table.handle.look().table().stat(caller, number);
    *task = tell_task(read);
    DONE
}
