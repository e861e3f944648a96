//! A reply, read from the numbers that tell it. What its kind does not tell is not looked at.
ghost use Rattle.std.specs.Prelude.{◌≡◌, Some};
ghost use Rattle.{
  foreign_numbers.specs.Numbers.{levels_numbers, numbers_of},
  foreign_numbers.specs.Replies.{short_of, forked_of, levels_told, ended_of, reaped_of, refusal_of, reply_in},
  pid_types.specs.{declared.plain.Ended.TheVariants.{Exited}, declared.reply.Reply.TheVariants.{Levels}},
};

use crate::kinds;
use crate::numbers::ReplyNumbers;
use arrayvec::ArrayVec;
use pid_types::plain::{Ended, LEVELS};
use pid_types::reply::{Refusal, Reply};

/// A number of 32 bits.
fn read_short(number: u64) -> Option<u32>
    ensures { result ≡ short_of number }
{
    if number < 4_294_967_296 {
        Some(number as u32)
    } else {
        None
    }
}

/// The new task's numbers.
fn read_forked(first: u64, second: u64) -> Option<Reply>
    ensures { result ≡ forked_of first second }
{
    let child = read_short(first)?;
    let root = read_short(second)?;
    Some(Reply::Forked { child, root })
}

/// A task's numbers.
fn read_levels(n: &ReplyNumbers) -> Option<Reply>
    ensures { result ≡ levels_told n.now }
{
    let count = n.count as usize;
    if count > LEVELS {
        return None;
    }
    let mut numbers = ArrayVec::<u32, LEVELS>::new();
    if numbers.try_extend_from_slice(&n.levels[..count]).is_err() {
        unreachable!()
    }
    Some(Reply::Levels(numbers))
}

/// How a child ended.
fn read_ended(second: u64) -> Option<Ended>
    ensures { result ≡ ended_of second }
{
    if second < kinds::KILLED {
        Some(Ended::Exited(second as u8))
    } else if second == kinds::KILLED {
        Some(Ended::Killed)
    } else {
        None
    }
}

/// The child that was reaped, and how it ended.
fn read_reaped(first: u64, second: u64) -> Option<Reply>
    ensures { result ≡ reaped_of first second }
{
    let child = read_short(first)?;
    let ended = read_ended(second)?;
    Some(Reply::Reaped { child, ended })
}

/// The refusal with the number; those that have an id have this one.
fn read_refusal(number: u32, id: u64) -> Option<Refusal>
    ensures { result ≡ refusal_of number id }
{
    match number {
        1 => Some(Refusal::NoCaller),
        2 => Some(Refusal::NoTask),
        3 => Some(Refusal::NoChild),
        4 => Some(Refusal::NoNumber(id)),
        5 => Some(Refusal::PidsLimit(id)),
        6 => Some(Refusal::SpaceFallen),
        7 => Some(Refusal::TooDeep),
        8 => Some(Refusal::Elsewhere),
        9 => Some(Refusal::BadGroup),
        10 => Some(Refusal::OtherSession),
        11 => Some(Refusal::IsLeader),
        12 => Some(Refusal::NoGroup),
        13 => Some(Refusal::Executed),
        14 => Some(Refusal::RootInit),
        15 => Some(Refusal::NoControl),
        16 => Some(Refusal::ControlBusy),
        17 => Some(Refusal::RootControl),
        18 => Some(Refusal::BadLimit),
        19 => Some(Refusal::ControlDepth),
        _ => None,
    }
}

/// The reply that the numbers tell; none where the kind, or what it tells, is outside its range.
#[tactic(auto, unfolding(crate::specs::Replies::reply_in))]
pub fn read_reply(n: &ReplyNumbers) -> Option<Reply>
    ensures { result ≡ reply_in n.now }
{
    match n.kind {
        kinds::FORKED => read_forked(n.first, n.second),
        kinds::OK => Some(Reply::Done),
        kinds::NUMBER => read_short(n.first).map(|number| Reply::Number(number)),
        kinds::LEVELS => read_levels(n),
        kinds::REAPED => read_reaped(n.first, n.second),
        kinds::NONE_YET => Some(Reply::NoneYet),
        kinds::COUNTED => Some(Reply::Counted(n.first)),
        kinds::CONTROL => Some(Reply::Control(n.first)),
        kinds::END => Some(Reply::End),
        kinds::REFUSED => {
            read_refusal(n.refusal, n.first).map(|refusal| Reply::Refused(refusal))
        }
        _ => None,
    }
}

/// A number of 32 bits is read as itself.
fn short_fits(number: u32)
    ensures { short_of number ≡ Some number }
{
    let _number = number;
}

/// So is a status.
fn status_fits(status: u8)
    ensures { ended_of status ≡ Some (Exited status) }
{
    let _status = status;
}

/// So are a task's numbers.
fn levels_fit(numbers: &ArrayVec<u32, LEVELS>)
    ensures { levels_told (levels_numbers numbers.now.items) ≡ Some (Levels numbers.now) }
{
    let _numbers = numbers.as_slice();
}

/// Each reply is read again from its numbers; the call does nothing.
#[tactic(auto, unfolding(crate::specs::Numbers::numbers_of, crate::specs::Replies::reply_in))]
pub fn replies_are_read_again(told: &Reply)
    ensures { reply_in (numbers_of told.now) ≡ Some told.now }
{
    match told {
        Reply::Forked { child, root } => {
            short_fits(*child);
            short_fits(*root);
        }
        Reply::Number(number) => short_fits(*number),
        Reply::Levels(numbers) => levels_fit(numbers),
        Reply::Reaped { child, ended } => {
            short_fits(*child);
            if let Ended::Exited(status) = ended {
                status_fits(*status);
            }
        }
        Reply::Done
        | Reply::NoneYet
        | Reply::Counted(_)
        | Reply::Control(_)
        | Reply::End
        | Reply::Refused(_) => {}
    }
}
