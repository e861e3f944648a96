//! Text in the room that is given for it.
ghost use Rattle.std.specs.Prelude.{◌≡◌, ◌<◌, ◌≤◌, ◌↔◌, [], ◌∷◌, length, take, drop};
ghost use Rattle.{
  pid_script.specs.{Answers.{reply_text}, Lines.{line_of}},
  foreign_numbers.specs.{Numbers.{call_of}, Replies.{reply_in}},
  foreign_calls.specs.{Held.{IsDoneOr}, Rooms.{KeepsRoom, PutsLine}},
};

use arrayvec::ArrayVec;
use foreign_numbers::numbers::{CallNumbers, ReplyNumbers, read_call};
use foreign_numbers::replies::read_reply;
use foreign_numbers::status::{DONE, NO_ROOM, OUT_OF_RANGE};
use pid_script::answer::{LONGEST_ANSWER, answer_text};
use pid_script::call::line_text;
use pid_types::call::Call;
use pid_types::entry::Receipt;
use pid_types::reply::Reply;

/// The text of the reply. It is that of a receipt, and does not depend on whose receipt it is.
fn text_of(call: Call, reply: Reply) -> ArrayVec<u8, LONGEST_ANSWER>
    ensures { result.items ≡ reply_text reply }
{
    answer_text(&Ok(Receipt {
        ordinal: 0,
        worker: 0,
        call,
        reply,
    }))
}

/// Puts the text of the reply at the front of the room for it. The result is its length; what is behind stays.
pub fn write_reply(answer: &mut [u8], call: Call, reply: Reply) -> usize
    requires { LONGEST_ANSWER ≤ length answer.old }
    ensures text { take result answer.new ≡ reply_text reply }
    ensures behind { drop result answer.new ≡ drop result answer.old }
    ensures fits { result ≤ length answer.new }
{
    let text = text_of(call, reply);
    answer[..text.len()].copy_from_slice(text.as_slice());
    text.len()
}

/// Puts the text at the front of the room, where it fits; what is behind stays. `size` is its length, also where it
/// does not fit. The result is the status.
pub fn write_text(text: &[u8], room: &mut [u8], size: &mut usize) -> u32
    ensures size { size.new ≡ length text.now }
    ensures done { result ≡ DONE → take size.new room.new ≡ text.now }
    ensures room { KeepsRoom room.old room.new size.new result }
    ensures no_room { (result ≡ NO_ROOM) ↔ (length room.old < length text.now) }
    ensures statuses { IsDoneOr result (NO_ROOM ∷ []) }
{
    *size = text.len();
    if room.len() < text.len() {
        return NO_ROOM;
    }
    room[..text.len()].copy_from_slice(text);
    DONE
}

/// Puts the line of the script language that says the call at the front of the room. The result is the status.
pub fn write_call_line(call: &CallNumbers, room: &mut [u8], size: &mut usize) -> u32
    ensures { PutsLine (call_of call.now) line_of room.old room.new size.old size.new result }
{
    let Some(said) = read_call(call) else {
        return OUT_OF_RANGE;
    };
    write_text(line_text(&said).as_slice(), room, size)
}

/// Puts the answer of the script language that the reply is at the front of the room. The result is the status.
pub fn write_reply_line(reply: &ReplyNumbers, room: &mut [u8], size: &mut usize) -> u32
    ensures { PutsLine (reply_in reply.now) reply_text room.old room.new size.old size.new result }
{
    let Some(told) = read_reply(reply) else {
        return OUT_OF_RANGE;
    };
    let any = Call::GetPid { caller: 0 };
    write_text(text_of(any, told).as_slice(), room, size)
}
