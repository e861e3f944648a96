//! The line of a call and that of its answer, in the room that C gives for it.
ghost use Rattle.{
  pid_script.specs.{Answers.{reply_text}, Lines.{line_of}},
  foreign_numbers.specs.{Numbers.{call_of}, Replies.{reply_in}},
  foreign_calls.specs.Rooms.{PutsLine},
};

use foreign_calls::texts::{write_call_line, write_reply_line};
use foreign_numbers::numbers::{CallNumbers, ReplyNumbers};

/// Puts the line of the script language that says the call at the front of the room, without a newline; `size` is the
/// line's length.
///
/// `OUT_OF_RANGE` where the numbers say no call; then `NO_ROOM` where the room is shorter than the line, and then too
/// `size` is the line's length. The longest line has 42 bytes. It needs no table and no memory.
#[unsafe(no_mangle)]
pub extern "C" fn pidtab_call_line(call: &CallNumbers, room: &mut [u8], size: &mut usize) -> u32
    ensures { PutsLine (call_of call.now) line_of room.old room.new size.old size.new result }
{
    write_call_line(call, room, size)
}

/// Puts the answer of the script language that the reply is at the front of the room, without a newline; `size` is the
/// answer's length. Fields that the kind does not tell are not looked at.
///
/// `OUT_OF_RANGE` where the numbers are no reply; then `NO_ROOM` where the room is shorter than the answer, and then
/// `size` is the answer's length too. It needs no table and no memory.
#[unsafe(no_mangle)]
pub extern "C" fn pidtab_reply_line(reply: &ReplyNumbers, room: &mut [u8], size: &mut usize) -> u32
    ensures { PutsLine (reply_in reply.now) reply_text room.old room.new size.old size.new result }
{
    write_reply_line(reply, room, size)
}
