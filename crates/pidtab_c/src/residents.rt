//! The live tasks directly in a control group, for C.
//!
//! A page is no call: it uses no stamp, and changes nothing.
ghost use Rattle.std.specs.Prelude.{[], ◌∷◌};
ghost use Rattle.foreign_handles.specs.Held.{stamped};
ghost use Rattle.foreign_calls.specs.{Held.{OnlyReads}, Residents.{AnswersControlTasks}};

use foreign_calls::residents::{ControlPage, tell_control_tasks};
use foreign_calls::table::Pidtab;
use foreign_numbers::numbers::ReplyNumbers;
use foreign_numbers::status::{CLOSED, NO_MEMORY};

/// Writes the numbers, from one on, of the live tasks that are directly in the control group with the id, as the
/// kernel's file `cgroup.procs` lists them (the cgroup-v2 document, "Processes": no zombie). They are the numbers in
/// the caller's namespace, in rising order, and whoever has none there is left out.
///
/// As many are written as there is room for, and what is behind them stays. The reply tells how many there are, or one
/// more than the room takes where there are more, as that of a count; or that there is no caller, or else no such
/// control group.
///
/// `CLOSED` where there is no open table; then `NO_MEMORY`. It costs two searches, a few reads for each live task of
/// the control group, and the sorting of their numbers, for which it takes memory while it lasts.
#[unsafe(no_mangle)]
pub extern "C" fn pidtab_control_tasks(
    table: &mut Pidtab,
    caller: u32,
    control: u64,
    from: u32,
    numbers: &mut [u32],
    reply: &mut ReplyNumbers,
) -> u32
    ensures reads { OnlyReads table.old.handle.held table.new.handle.held result (NO_MEMORY ∷ []) }
    ensures answers { AnswersControlTasks table.old.handle.held (λ h. (stamped h).state)
        (record { caller = caller; control = control; from = from })
        numbers.old numbers.new reply.old reply.new result }
{
    if !table.is_open {
        return CLOSED;
    }
    let asked = ControlPage {
        caller,
        control,
        from,
    };
    tell_control_tasks(table.handle.look().table(), &asked, numbers, reply)
}
