//! Calls to lines: [`line_text`] writes the line that [`crate::line::parse_line`] reads as the call. A
//! line is held in place, so nothing here takes memory or fails.
ghost use Rattle.std.specs.{Prelude.{◌≡◌, ◌+◌, ◌≤◌, ◌++◌, ◌∷◌, [], length, decimal}, Fmt.{signed_decimal}};
ghost use Rattle.pid_script.specs.Lines.{word_of_kind, line_of};
ghost use Rattle.pid_types.specs.declared.call.Call.TheVariants as calls;

use crate::answer::{push_behind, push_bytes, push_labelled};
use arrayvec::ArrayVec;
use itoa::Buffer;
use pid_types::call::{Call, Kind, Which};

/// The length of the longest line of a call: `setpgid`, a number of ten digits, and two of ten digits
/// and a minus sign.
pub const LONGEST_CALL: usize = 42;

/// The line of a call that is being written.
type Text = ArrayVec<u8, LONGEST_CALL>;

/// A command and a number of 32 bits.
fn push_one(text: &mut Text, command: &[u8], number: u32)
    requires { length text.old.items + length command.now + 11 ≤ LONGEST_CALL }
    ensures items { text.new.items ≡ text.old.items ++ command.now ++ 32 ∷ decimal number }
    ensures len { length text.new.items ≤ length text.old.items + length command.now + 11 }
{
    push_bytes(text, command);
    push_behind(text, b' ', number);
}

/// A command and two numbers of 32 bits.
fn push_two(text: &mut Text, command: &[u8], first: u32, second: u32)
    requires { length text.old.items + length command.now + 22 ≤ LONGEST_CALL }
    ensures { text.new.items ≡ text.old.items ++ command.now ++ 32 ∷ decimal first ++ 32 ∷ decimal second }
{
    push_one(text, command, first);
    push_behind(text, b' ', second);
}

/// A command, a number of 32 bits and a word.
fn push_one_and(text: &mut Text, command: &[u8], number: u32, word: &[u8])
    requires { length text.old.items + length command.now + length word.now + 12 ≤ LONGEST_CALL }
    ensures items { text.new.items ≡ text.old.items ++ command.now ++ 32 ∷ decimal number ++ 32 ∷ word.now }
    ensures len { length text.new.items ≤ length text.old.items + length command.now + length word.now + 12 }
{
    push_one(text, command, number);
    push_bytes(text, b" ");
    push_bytes(text, word);
}

/// A command and the id of a control group.
fn push_control(text: &mut Text, command: &[u8], id: u64)
    requires { length text.old.items + length command.now + 21 ≤ LONGEST_CALL }
    ensures items { text.new.items ≡ text.old.items ++ command.now ++ 32 ∷ decimal id }
    ensures len { length text.new.items ≤ length text.old.items + length command.now + 21 }
{
    push_bytes(text, command);
    push_labelled(text, b" ", id);
}

/// A space, and a number with its sign.
fn push_signed(text: &mut Text, number: i32)
    requires { length text.old.items + 12 ≤ LONGEST_CALL }
    ensures items { text.new.items ≡ text.old.items ++ 32 ∷ signed_decimal number }
    ensures len { length text.new.items ≤ length text.old.items + 12 }
{
    let mut buffer = Buffer::new();
    push_bytes(text, b" ");
    push_bytes(text, buffer.format(number).as_bytes());
}

/// The line of a wait.
#[tactic(auto, unfolding(crate::specs::Lines::line_of))]
fn push_wait(text: &mut Text, caller: u32, which: Which)
    requires { text.old.items ≡ [] }
    ensures { text.new.items ≡ line_of (calls.Wait caller which) }
{
    match which {
        Which::Any => push_one_and(text, b"wait", caller, b"any"),
        Which::OwnGroup => push_one_and(text, b"wait", caller, b"own"),
        Which::Pid(number) => {
            push_one_and(text, b"wait", caller, b"pid");
            push_behind(text, b' ', number);
        }
        Which::Group(number) => {
            push_one_and(text, b"wait", caller, b"group");
            push_behind(text, b' ', number);
        }
    }
}

/// The line of a move into another group.
#[tactic(auto, unfolding(crate::specs::Lines::line_of))]
fn push_set_pgid(text: &mut Text, caller: u32, pid: i32, pgid: i32)
    requires { text.old.items ≡ [] }
    ensures { text.new.items ≡ line_of (calls.SetPgid caller pid pgid) }
{
    push_one(text, b"setpgid", caller);
    push_signed(text, pid);
    push_signed(text, pgid);
}

/// The word of a kind of number.
fn kind_word(kind: Kind) -> &'static [u8]
    ensures word { result.now ≡ word_of_kind kind }
    ensures short { length result.now ≤ 7 }
{
    match kind {
        Kind::Task => b"task",
        Kind::Group => b"group",
        Kind::Session => b"session",
    }
}

/// The line of a search for the next number.
#[tactic(auto, unfolding(crate::specs::Lines::line_of))]
fn push_next(text: &mut Text, caller: u32, kind: Kind, from: u32)
    requires { text.old.items ≡ [] }
    ensures { text.new.items ≡ line_of (calls.Next caller kind from) }
{
    push_one_and(text, b"next", caller, kind_word(kind));
    push_behind(text, b' ', from);
}

/// The line of a limit.
#[tactic(auto, unfolding(crate::specs::Lines::line_of))]
fn push_limit(text: &mut Text, id: u64, limit: Option<u32>)
    requires { text.old.items ≡ [] }
    ensures { text.new.items ≡ line_of (calls.SetLimit id limit) }
{
    push_control(text, b"limit", id);
    match limit {
        Some(limit) => push_behind(text, b' ', limit),
        None => push_bytes(text, b" max"),
    }
}

/// The line of a move into a control group.
#[tactic(auto, unfolding(crate::specs::Lines::line_of))]
fn push_move(text: &mut Text, task: u32, id: u64)
    requires { text.old.items ≡ [] }
    ensures { text.new.items ≡ line_of (calls.Move task id) }
{
    push_one(text, b"move", task);
    push_labelled(text, b" ", id);
}

/// The line of a fork.
#[tactic(auto, unfolding(crate::specs::Lines::line_of))]
fn push_fork(text: &mut Text, caller: u32, new_space: bool)
    requires { text.old.items ≡ [] }
    ensures { text.new.items ≡ line_of (calls.Fork caller new_space) }
{
    if new_space {
        push_one_and(text, b"fork", caller, b"new");
    } else {
        push_one(text, b"fork", caller);
    }
}

/// The line of a subreaper's mark.
#[tactic(auto, unfolding(crate::specs::Lines::line_of))]
fn push_subreaper(text: &mut Text, caller: u32, on: bool)
    requires { text.old.items ≡ [] }
    ensures { text.new.items ≡ line_of (calls.SetSubreaper caller on) }
{
    if on {
        push_one_and(text, b"subreaper", caller, b"on");
    } else {
        push_one_and(text, b"subreaper", caller, b"off");
    }
}

/// The line of the call, without its newline: the one line of [`crate::line::parse_line`]'s table that
/// says this call.
///
/// It takes no memory. The cost is linear in the line.
#[tactic(auto, unfolding(crate::specs::Lines::line_of))]
pub fn line_text(call: &Call) -> ArrayVec<u8, LONGEST_CALL>
    ensures { result.items ≡ line_of call.now }
{
    let mut text = ArrayVec::new();
    match *call {
        Call::Fork { caller, new_space } => push_fork(&mut text, caller, new_space),
        Call::Exec { caller } => push_one(&mut text, b"exec", caller),
        Call::Exit { caller, status } => push_two(&mut text, b"exit", caller, u32::from(status)),
        Call::Wait { caller, which } => push_wait(&mut text, caller, which),
        Call::SetPgid { caller, pid, pgid } => push_set_pgid(&mut text, caller, pid, pgid),
        Call::SetSid { caller } => push_one(&mut text, b"setsid", caller),
        Call::GetPid { caller } => push_one(&mut text, b"getpid", caller),
        Call::GetPpid { caller } => push_one(&mut text, b"getppid", caller),
        Call::GetPgid { caller, pid } => push_two(&mut text, b"getpgid", caller, pid),
        Call::GetSid { caller, pid } => push_two(&mut text, b"getsid", caller, pid),
        Call::NsPid { caller, target } => push_two(&mut text, b"nspid", caller, target),
        Call::Next { caller, kind, from } => push_next(&mut text, caller, kind, from),
        Call::MakeControl { parent } => push_control(&mut text, b"mk", parent),
        Call::RemoveControl { id } => push_control(&mut text, b"rm", id),
        Call::SetLimit { id, limit } => push_limit(&mut text, id, limit),
        Call::Move { task, id } => push_move(&mut text, task, id),
        Call::Count { id } => push_control(&mut text, b"count", id),
        Call::Join { caller, target } => push_two(&mut text, b"join", caller, target),
        Call::SetSubreaper { caller, on } => push_subreaper(&mut text, caller, on),
    }
    text
}
