//! The live tasks directly in a control group, as numbers.
ghost use Rattle.std.specs.Prelude.{◌≡◌, ◌≢◌, [], ◌∷◌};
ghost use Rattle.foreign_calls.specs.{Held.{IsDoneOr}, Residents.{PutsControlTasks}};

use foreign_numbers::numbers::{ReplyNumbers, put_reply};
use foreign_numbers::status::{DONE, NO_MEMORY};
use pid_table::PidTable;
use pid_types::reply::Reply;
pub use translate::residents::ControlPage;

/// Writes the numbers of the live tasks directly in the control group over the front of the room, and tells how many
/// there are, or the refusal. The result is the status.
pub fn tell_control_tasks(
    table: &PidTable,
    asked: &ControlPage,
    room: &mut [u32],
    reply: &mut ReplyNumbers,
) -> u32
    ensures done { result ≡ DONE → PutsControlTasks table.now asked.now room.old room.new reply.new }
    ensures not_done_room { result ≢ DONE → room.new ≡ room.old }
    ensures not_done_reply { result ≢ DONE → reply.new ≡ reply.old }
    ensures statuses { IsDoneOr result (NO_MEMORY ∷ []) }
{
    let Ok(short) = table.control_tasks(asked, room) else {
        return NO_MEMORY;
    };
    let mut told = Reply::Done;
    short.tell(&mut told);
    put_reply(&told, reply);
    DONE
}
