//! Replies to answers: [`answer_text`] is the table of all answers. A text is at most 362 bytes and
//! held in place, so nothing here takes memory or fails.
ghost use Rattle.std.specs.{Prelude.{◌≡◌, ◌+◌, ◌*◌, ◌<◌, ◌≤◌, ◌++◌, ◌∷◌, length, codes, decimal}, List.{flat_map}};
ghost use Rattle.pid_types.specs.Refusals.{errno_entry, refusal_entry};
ghost use Rattle.pid_script.specs.Answers.{joined, refuser_text, refusal_text, ended_text, reply_text, answer_of};
ghost use Rattle.pid_script.specs.Answers.{received, lent};

use arrayvec::ArrayVec;
use itoa::Buffer;
use pid_types::entry::Receipt;
use pid_types::plain::{Ended, LEVELS};
use pid_types::reply::{CallFault, Refusal, Reply};

/// The length of the longest answer: 33 numbers of ten digits, and a space between.
pub const LONGEST_ANSWER: usize = 362;

#[inline(always)]
pub(crate) fn push_bytes<const N: usize>(text: &mut ArrayVec<u8, N>, bytes: &[u8])
    requires { length text.old.items + length bytes.now ≤ N }
    ensures items { text.new.items ≡ text.old.items ++ bytes.now }
    ensures len { length text.new.items ≡ length text.old.items + length bytes.now }
{
    text.try_extend_from_slice(bytes).unwrap();
}

/// A number of one digit.
#[tactic(auto, using(crate::proofs::Digits::one_digit))]
#[inline(always)]
fn push_ones<const N: usize>(text: &mut ArrayVec<u8, N>, number: u32)
    requires few { number < 10 }
    requires room { length text.old.items + 1 ≤ N }
    ensures items { text.new.items ≡ text.old.items ++ decimal number }
    ensures len { length text.new.items ≡ length text.old.items + 1 }
{
    text.push(b'0' + number as u8);
}

/// A number of at most two digits.
#[tactic(auto, using(crate::proofs::Digits::few_digits))]
#[inline(always)]
fn push_tens<const N: usize>(text: &mut ArrayVec<u8, N>, number: u32)
    requires few { number < 100 }
    requires room { length text.old.items + length (decimal number) ≤ N }
    ensures items { text.new.items ≡ text.old.items ++ decimal number }
{
    if number < 10 {
        push_ones(text, number);
        return;
    }
    push_ones(text, number / 10);
    push_ones(text, number % 10);
}

/// A number of at most three digits.
#[tactic(auto, using(crate::proofs::Digits::few_digits))]
#[inline(always)]
fn push_hundreds<const N: usize>(text: &mut ArrayVec<u8, N>, number: u32)
    requires few { number < 1000 }
    requires room { length text.old.items + length (decimal number) ≤ N }
    ensures items { text.new.items ≡ text.old.items ++ decimal number }
{
    if number < 10 {
        push_ones(text, number);
        return;
    }
    push_tens(text, number / 10);
    push_ones(text, number % 10);
}

/// A number of at most four digits.
#[tactic(auto, using(crate::proofs::Digits::few_digits))]
#[inline(always)]
fn push_thousands<const N: usize>(text: &mut ArrayVec<u8, N>, number: u32)
    requires few { number < 10000 }
    requires room { length text.old.items + length (decimal number) ≤ N }
    ensures items { text.new.items ≡ text.old.items ++ decimal number }
{
    if number < 10 {
        push_ones(text, number);
        return;
    }
    push_hundreds(text, number / 10);
    push_ones(text, number % 10);
}

/// A number of at most five digits.
#[tactic(auto, using(crate::proofs::Digits::few_digits))]
#[inline(always)]
fn push_ten_thousands<const N: usize>(text: &mut ArrayVec<u8, N>, number: u32)
    requires few { number < 100000 }
    requires room { length text.old.items + length (decimal number) ≤ N }
    ensures items { text.new.items ≡ text.old.items ++ decimal number }
{
    if number < 10 {
        push_ones(text, number);
        return;
    }
    push_thousands(text, number / 10);
    push_ones(text, number % 10);
}

/// A number of any length.
#[inline(never)]
fn push_long<const N: usize>(text: &mut ArrayVec<u8, N>, number: u64)
    requires { length text.old.items + length (decimal number) ≤ N }
    ensures items { text.new.items ≡ text.old.items ++ decimal number }
{
    let mut buffer = Buffer::new();
    push_bytes(text, buffer.format(number).as_bytes());
}

#[inline(never)]
fn push_number<const N: usize>(text: &mut ArrayVec<u8, N>, number: u64)
    requires { length text.old.items + length (decimal number) ≤ N }
    ensures items { text.new.items ≡ text.old.items ++ decimal number }
    ensures len { length text.new.items ≡ length text.old.items + length (decimal number) }
{
    // Most numbers have few digits, which cost less one by one.
    if number < 100_000 {
        push_ten_thousands(text, number as u32);
    } else {
        push_long(text, number);
    }
}

/// The label, and the number behind it.
#[tactic(auto, using(crate::proofs::Room::room))]
#[inline(always)]
pub(crate) fn push_labelled<const N: usize>(text: &mut ArrayVec<u8, N>, label: &[u8], number: u64)
    requires { length text.old.items + length label.now + 20 ≤ N }
    ensures items { text.new.items ≡ text.old.items ++ label.now ++ decimal number }
    ensures len { length text.new.items ≤ length text.old.items + length label.now + 20 }
{
    push_bytes(text, label);
    push_number(text, number);
}

/// The id behind its space, where the refusal names what refused.
fn push_id<const N: usize>(text: &mut ArrayVec<u8, N>, refusal: Refusal)
    requires { length text.old.items + 21 ≤ N }
    ensures items { text.new.items ≡ text.old.items ++ refuser_text refusal }
    ensures len { length text.new.items ≤ length text.old.items + 21 }
{
    if let Refusal::NoNumber(id) | Refusal::PidsLimit(id) = refusal {
        push_labelled(text, b" ", id);
    }
}

/// The name of the errno and the word that says why. Each is a copy of a length that is known, which costs less than
/// one of any length.
#[inline(always)]
fn push_refusal_words<const N: usize>(text: &mut ArrayVec<u8, N>, refusal: Refusal)
    requires { length text.old.items + 20 ≤ N }
    ensures items { text.new.items ≡ text.old.items ++ (errno_entry (refusal_entry refusal).error).name ++ codes " "
        ++ (refusal_entry refusal).word }
    ensures len { length text.new.items ≤ length text.old.items + 20 }
{
    match refusal {
        Refusal::NoCaller => push_bytes(text, b"ESRCH no-caller"),
        Refusal::NoTask => push_bytes(text, b"ESRCH no-task"),
        Refusal::NoChild => push_bytes(text, b"ECHILD no-child"),
        Refusal::NoNumber(_) => push_bytes(text, b"EAGAIN no-number"),
        Refusal::PidsLimit(_) => push_bytes(text, b"EAGAIN pids-limit"),
        Refusal::SpaceFallen => push_bytes(text, b"ENOMEM space-fallen"),
        Refusal::TooDeep => push_bytes(text, b"ENOSPC too-deep"),
        Refusal::Elsewhere => push_bytes(text, b"EINVAL elsewhere"),
        Refusal::BadGroup => push_bytes(text, b"EINVAL bad-group"),
        Refusal::OtherSession => push_bytes(text, b"EPERM other-session"),
        Refusal::IsLeader => push_bytes(text, b"EPERM is-leader"),
        Refusal::NoGroup => push_bytes(text, b"EPERM no-group"),
        Refusal::Executed => push_bytes(text, b"EACCES executed"),
        Refusal::RootInit => push_bytes(text, b"EBUSY root-init"),
        Refusal::NoControl => push_bytes(text, b"ENOENT no-control"),
        Refusal::ControlBusy => push_bytes(text, b"EBUSY control-busy"),
        Refusal::RootControl => push_bytes(text, b"EINVAL root-control"),
        Refusal::BadLimit => push_bytes(text, b"EINVAL bad-limit"),
        Refusal::ControlDepth => push_bytes(text, b"EAGAIN control-depth"),
    }
}

#[inline(never)]
fn push_refusal<const N: usize>(text: &mut ArrayVec<u8, N>, refusal: Refusal)
    requires { length text.old.items + 362 ≤ N }
    ensures items { text.new.items ≡ text.old.items ++ refusal_text refusal }
    ensures len { length text.new.items ≤ length text.old.items + 362 }
{
    push_refusal_words(text, refusal);
    push_id(text, refusal);
}

#[inline(never)]
fn push_forked<const N: usize>(text: &mut ArrayVec<u8, N>, child: u32, root: u32)
    requires { length text.old.items + 362 ≤ N }
    ensures items { text.new.items
        ≡ text.old.items ++ codes "child " ++ decimal child ++ codes " root " ++ decimal root }
    ensures len { length text.new.items ≤ length text.old.items + 362 }
{
    push_labelled(text, b"child ", u64::from(child));
    push_labelled(text, b" root ", u64::from(root));
}

#[inline(never)]
fn push_reaped<const N: usize>(text: &mut ArrayVec<u8, N>, child: u32, ended: Ended)
    requires { length text.old.items + 362 ≤ N }
    ensures items { text.new.items ≡ text.old.items ++ codes "reaped " ++ decimal child ++ ended_text ended }
    ensures len { length text.new.items ≤ length text.old.items + 362 }
{
    push_labelled(text, b"reaped ", u64::from(child));
    match ended {
        Ended::Exited(status) => push_labelled(text, b" exit ", u64::from(status)),
        Ended::Killed => push_bytes(text, b" killed"),
    }
}

/// The byte, and the number behind it.
#[tactic(auto, using(crate::proofs::Room::room))]
pub(crate) fn push_behind<const N: usize>(text: &mut ArrayVec<u8, N>, separator: u8, number: u32)
    requires { length text.old.items + 11 ≤ N }
    ensures items { text.new.items ≡ text.old.items ++ separator ∷ decimal number }
    ensures len { length text.new.items ≤ length text.old.items + 11 }
{
    text.push(separator);
    push_number(text, u64::from(number));
}

/// The numbers in order, with the byte before each.
fn push_rest<const N: usize>(text: &mut ArrayVec<u8, N>, separator: u8, numbers: &[u32])
    requires { length text.old.items + 11 * length numbers.now ≤ N }
    ensures items { text.new.items ≡ text.old.items ++ flat_map (λ n. separator ∷ decimal n) numbers.now }
    ensures len { length text.new.items ≤ length text.old.items + 11 * length numbers.now }
{
    for number in numbers {
        push_behind(text, separator, *number);
    }
}

/// The numbers in order, with the byte between them.
#[tactic(auto, using(crate::proofs::Room::room))]
#[inline(never)]
fn push_joined<const N: usize>(
    text: &mut ArrayVec<u8, N>,
    separator: u8,
    numbers: &ArrayVec<u32, LEVELS>,
)
    requires { length text.old.items + 362 ≤ N }
    ensures items { text.new.items ≡ text.old.items ++ joined separator numbers.now.items }
    ensures len { length text.new.items ≤ length text.old.items + 362 }
{
    if let [first, rest @ ..] = numbers.as_slice() {
        push_number(text, u64::from(*first));
        push_rest(text, separator, rest);
    }
}

/// The numbers in order, with the byte between them.
pub fn joined_numbers(
    numbers: &ArrayVec<u32, LEVELS>,
    separator: u8,
) -> ArrayVec<u8, LONGEST_ANSWER>
    ensures { result.items ≡ joined separator numbers.now.items }
{
    let mut text = ArrayVec::new();
    push_joined(&mut text, separator, numbers);
    text
}

#[tactic(auto, unfolding(crate::specs::Answers::reply_text), using(crate::proofs::Room::room))]
fn push_reply<const N: usize>(text: &mut ArrayVec<u8, N>, reply: &Reply)
    requires { length text.old.items + 362 ≤ N }
    ensures items { text.new.items ≡ text.old.items ++ reply_text reply.now }
    ensures len { length text.new.items ≤ length text.old.items + 362 }
{
    match reply {
        Reply::Forked { child, root } => push_forked(text, *child, *root),
        Reply::Done => push_bytes(text, b"ok"),
        Reply::Number(number) => push_number(text, u64::from(*number)),
        Reply::Levels(numbers) => push_joined(text, b' ', numbers),
        Reply::Reaped { child, ended } => push_reaped(text, *child, *ended),
        Reply::NoneYet => push_bytes(text, b"none"),
        Reply::Counted(count) => push_number(text, *count),
        Reply::Control(id) => push_labelled(text, b"control ", *id),
        Reply::End => push_bytes(text, b"end"),
        Reply::Refused(refusal) => push_refusal(text, *refusal),
    }
}

/// Appends the answer to a call, without its newline, as [`answer_text`] says it.
#[inline(always)]
pub fn push_answer<const N: usize>(text: &mut ArrayVec<u8, N>, answer: Result<&Reply, CallFault>)
    requires { length text.old.items + 362 ≤ N }
    ensures items { text.new.items ≡ text.old.items ++ answer_of (lent answer.entry) }
    ensures len { length text.new.items ≤ length text.old.items + 362 }
{
    match answer {
        Ok(reply) => push_reply(text, reply),
        Err(CallFault::NoMemory) => push_bytes(text, b"no memory"),
        Err(CallFault::Spent) => push_bytes(text, b"spent"),
    }
}

/// The answer to a call, without its newline.
///
/// | Reply | Answer |
/// |---|---|
/// | [`Reply::Forked`] | `child C root R` |
/// | [`Reply::Done`] | `ok` |
/// | [`Reply::Number`], [`Reply::Counted`] | the number |
/// | [`Reply::Levels`] | the numbers, outermost first, with one space between |
/// | [`Reply::Reaped`] | `reaped N exit S`, `reaped N killed` |
/// | [`Reply::NoneYet`] | `none` |
/// | [`Reply::Control`] | `control ID` |
/// | [`Reply::End`] | `end` |
/// | [`Reply::Refused`] | the name of the errno and a word, as `ESRCH no-caller` |
/// | of [`Refusal::NoNumber`] and [`Refusal::PidsLimit`] | the same, and the id behind it |
/// | [`CallFault::NoMemory`] | `no memory` |
/// | [`CallFault::Spent`] | `spent` |
///
/// Numbers are in decimal. It takes no memory.
pub fn answer_text(answer: &Result<Receipt, CallFault>) -> ArrayVec<u8, LONGEST_ANSWER>
    ensures { result.items ≡ answer_of (received answer.now) }
{
    let mut text = ArrayVec::new();
    let reply = match answer {
        Ok(receipt) => Ok(&receipt.reply),
        Err(fault) => Err(*fault),
    };
    push_answer(&mut text, reply);
    text
}
