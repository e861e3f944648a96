//! Lines to calls: [`parse_line`] is the table of all lines. Below it stands a reader for the words
//! of each command; each answers `None` for words that are no such command's.
ghost use Rattle.std.specs.Prelude.{◌≡◌, ◌<◌, ◌^◌, length, codes};
ghost use Rattle.{
  pid_script.specs.Reading.{process_of, control_of, status_read, signed_of, kind_read, switch_read, limit_read},
  pid_script.specs.Reading.{numbered_of, which_read, pair, one, two, three, fork_new_of, fork_of, command_of},
  pid_script.specs.{Reading.{call_read, call_or_bad, parsed}, Lines.{Says}},
};
ghost use Rattle.pid_types.specs.declared.call.Call.TheVariants as calls;

use crate::bytes::split_word;
use crate::number::{read_i32, read_signed_then, read_then, read_u8, read_u32, read_u64};
use pid_types::call::{Call, Kind, Which};

/// What a line of a script says.
#[derive(Clone, Copy, Debug, PartialEq, Eq)]
pub enum Line {
    /// Nothing: it has no bytes.
    Empty,
    /// One call.
    Call(Call),
    /// Not a line of the table of calls.
    Bad,
}

/// Two numbers.
#[inline(always)]
fn read_pair(words: &[u8]) -> Option<(u32, u32)>
    ensures { result ≡ pair process_of process_of words.now }
{
    let (first, rest) = read_then(words)?;
    Some((first, read_u32(rest)?))
}

/// `P new`.
#[tactic(auto, unfolding(crate::specs::Reading::fork_new_of))]
fn read_fork_new(words: &[u8]) -> Option<Call>
    ensures { result ≡ fork_new_of words.now }
{
    let (caller, word) = read_then(words)?;
    match word {
        b"new" => Some(Call::Fork {
            caller,
            new_space: true,
        }),
        _ => None,
    }
}

/// `P new`. Most bad lines end otherwise, and are not read again.
fn read_fork_more(words: &[u8]) -> Option<Call>
    ensures { result ≡ fork_new_of words.now }
{
    if !words.ends_with(b" new") {
        return None;
    }
    read_fork_new(words)
}

/// `P` or `P new`.
#[tactic(auto, unfolding(crate::specs::Reading::fork_of))]
#[inline(always)]
fn read_fork(words: &[u8]) -> Option<Call>
    ensures { result ≡ fork_of words.now }
{
    match read_u32(words) {
        Some(caller) => Some(Call::Fork {
            caller,
            new_space: false,
        }),
        None => read_fork_more(words),
    }
}

/// `P S`.
#[inline(always)]
fn read_exit(words: &[u8]) -> Option<Call>
    ensures { result ≡ two process_of status_read calls.Exit words.now }
{
    let (caller, status) = read_then(words)?;
    Some(Call::Exit {
        caller,
        status: read_u8(status)?,
    })
}

/// `pid P` or `group P`.
#[tactic(auto, unfolding(crate::specs::Reading::numbered_of))]
fn read_numbered(words: &[u8]) -> Option<Which>
    ensures { result ≡ numbered_of words.now }
{
    let (selector, number) = split_word(words)?;
    let number = read_u32(number)?;
    match selector {
        b"pid" => Some(Which::Pid(number)),
        b"group" => Some(Which::Group(number)),
        _ => None,
    }
}

/// Which children a wait selects.
#[tactic(auto, unfolding(crate::specs::Reading::which_read))]
#[inline(always)]
fn read_which(words: &[u8]) -> Option<Which>
    ensures { result ≡ which_read words.now }
{
    match words {
        b"any" => Some(Which::Any),
        b"own" => Some(Which::OwnGroup),
        _ => read_numbered(words),
    }
}

/// `P`, and which children.
#[inline(always)]
fn read_wait(words: &[u8]) -> Option<Call>
    ensures { result ≡ two process_of which_read calls.Wait words.now }
{
    let (caller, which) = read_then(words)?;
    Some(Call::Wait {
        caller,
        which: read_which(which)?,
    })
}

/// `P G G`.
fn read_set_pgid(words: &[u8]) -> Option<Call>
    ensures { result ≡ three process_of signed_of signed_of calls.SetPgid words.now }
{
    let (caller, ids) = read_then(words)?;
    let (pid, rest) = read_signed_then(ids)?;
    let pgid = read_i32(rest)?;
    Some(Call::SetPgid { caller, pid, pgid })
}

/// What a number is in use as.
#[tactic(auto, unfolding(crate::specs::Reading::kind_read))]
fn read_kind(word: &[u8]) -> Option<Kind>
    ensures { result ≡ kind_read word.now }
{
    match word {
        b"task" => Some(Kind::Task),
        b"group" => Some(Kind::Group),
        b"session" => Some(Kind::Session),
        _ => None,
    }
}

/// `P`, the kind, `P`.
fn read_next(words: &[u8]) -> Option<Call>
    ensures { result ≡ three process_of kind_read process_of calls.Next words.now }
{
    let (caller, place) = read_then(words)?;
    let (kind, from) = split_word(place)?;
    Some(Call::Next {
        caller,
        kind: read_kind(kind)?,
        from: read_u32(from)?,
    })
}

/// `P`, or `max` for none.
#[tactic(auto, unfolding(crate::specs::Reading::limit_read))]
fn read_most(word: &[u8]) -> Option<Option<u32>>
    ensures { result ≡ limit_read word.now }
{
    match word {
        b"max" => Some(None),
        _ => Some(Some(read_u32(word)?)),
    }
}

/// `I P` or `I max`.
fn read_limit(words: &[u8]) -> Option<Call>
    ensures { result ≡ two control_of limit_read calls.SetLimit words.now }
{
    let (id, limit) = split_word(words)?;
    Some(Call::SetLimit {
        id: read_u64(id)?,
        limit: read_most(limit)?,
    })
}

/// `P I`.
fn read_move(words: &[u8]) -> Option<Call>
    ensures { result ≡ two process_of control_of calls.Move words.now }
{
    let (task, id) = read_then(words)?;
    Some(Call::Move {
        task,
        id: read_u64(id)?,
    })
}

/// `on` or `off`.
#[tactic(auto, unfolding(crate::specs::Reading::switch_read))]
fn read_switch(word: &[u8]) -> Option<bool>
    ensures { result ≡ switch_read word.now }
{
    match word {
        b"on" => Some(true),
        b"off" => Some(false),
        _ => None,
    }
}

/// `P on` or `P off`.
fn read_subreaper(words: &[u8]) -> Option<Call>
    ensures { result ≡ two process_of switch_read calls.SetSubreaper words.now }
{
    let (caller, on) = read_then(words)?;
    Some(Call::SetSubreaper {
        caller,
        on: read_switch(on)?,
    })
}

/// `P`.
#[inline(always)]
fn read_exec(words: &[u8]) -> Option<Call>
    ensures { result ≡ one process_of calls.Exec words.now }
{
    Some(Call::Exec {
        caller: read_u32(words)?,
    })
}

/// `P`.
#[inline(always)]
fn read_set_sid(words: &[u8]) -> Option<Call>
    ensures { result ≡ one process_of calls.SetSid words.now }
{
    Some(Call::SetSid {
        caller: read_u32(words)?,
    })
}

/// `P`.
#[inline(always)]
fn read_get_pid(words: &[u8]) -> Option<Call>
    ensures { result ≡ one process_of calls.GetPid words.now }
{
    Some(Call::GetPid {
        caller: read_u32(words)?,
    })
}

/// `P`.
#[inline(always)]
fn read_get_ppid(words: &[u8]) -> Option<Call>
    ensures { result ≡ one process_of calls.GetPpid words.now }
{
    Some(Call::GetPpid {
        caller: read_u32(words)?,
    })
}

/// `I`.
#[inline(always)]
fn read_make_control(words: &[u8]) -> Option<Call>
    ensures { result ≡ one control_of calls.MakeControl words.now }
{
    Some(Call::MakeControl {
        parent: read_u64(words)?,
    })
}

/// `I`.
#[inline(always)]
fn read_remove_control(words: &[u8]) -> Option<Call>
    ensures { result ≡ one control_of calls.RemoveControl words.now }
{
    Some(Call::RemoveControl {
        id: read_u64(words)?,
    })
}

/// `I`.
#[inline(always)]
fn read_count(words: &[u8]) -> Option<Call>
    ensures { result ≡ one control_of calls.Count words.now }
{
    Some(Call::Count {
        id: read_u64(words)?,
    })
}

/// `P P`.
#[inline(always)]
fn read_get_pgid(words: &[u8]) -> Option<Call>
    ensures { result ≡ two process_of process_of calls.GetPgid words.now }
{
    let (caller, pid) = read_pair(words)?;
    Some(Call::GetPgid { caller, pid })
}

/// `P P`.
#[inline(always)]
fn read_get_sid(words: &[u8]) -> Option<Call>
    ensures { result ≡ two process_of process_of calls.GetSid words.now }
{
    let (caller, pid) = read_pair(words)?;
    Some(Call::GetSid { caller, pid })
}

/// `P P`.
#[inline(always)]
fn read_ns_pid(words: &[u8]) -> Option<Call>
    ensures { result ≡ two process_of process_of calls.NsPid words.now }
{
    let (caller, target) = read_pair(words)?;
    Some(Call::NsPid { caller, target })
}

/// `P P`.
#[inline(always)]
fn read_join(words: &[u8]) -> Option<Call>
    ensures { result ≡ two process_of process_of calls.Join words.now }
{
    let (caller, target) = read_pair(words)?;
    Some(Call::Join { caller, target })
}

/// The call of a command of two letters and the words behind it.
#[tactic(auto, unfolding(crate::specs::Reading::command_of))]
fn read_two_letters(command: &[u8], words: &[u8]) -> Option<Call>
    ensures { length command.now ≡ 2 → result ≡ command_of command.now words.now }
{
    match command {
        b"mk" => read_make_control(words),
        b"rm" => read_remove_control(words),
        _ => None,
    }
}

/// The call of a command of four letters and the words behind it.
#[tactic(auto, unfolding(crate::specs::Reading::command_of))]
fn read_four_letters(command: &[u8], words: &[u8]) -> Option<Call>
    ensures { length command.now ≡ 4 → result ≡ command_of command.now words.now }
{
    match command {
        b"fork" => read_fork(words),
        b"exec" => read_exec(words),
        b"exit" => read_exit(words),
        b"wait" => read_wait(words),
        b"next" => read_next(words),
        b"move" => read_move(words),
        b"join" => read_join(words),
        _ => None,
    }
}

/// The call of a command of five letters and the words behind it.
#[tactic(auto, unfolding(crate::specs::Reading::command_of))]
fn read_five_letters(command: &[u8], words: &[u8]) -> Option<Call>
    ensures { length command.now ≡ 5 → result ≡ command_of command.now words.now }
{
    match command {
        b"nspid" => read_ns_pid(words),
        b"limit" => read_limit(words),
        b"count" => read_count(words),
        _ => None,
    }
}

/// The call of a command of six letters and the words behind it.
#[tactic(auto, unfolding(crate::specs::Reading::command_of))]
fn read_six_letters(command: &[u8], words: &[u8]) -> Option<Call>
    ensures { length command.now ≡ 6 → result ≡ command_of command.now words.now }
{
    match command {
        b"setsid" => read_set_sid(words),
        b"getpid" => read_get_pid(words),
        b"getsid" => read_get_sid(words),
        _ => None,
    }
}

/// The call of a command of seven letters and the words behind it.
#[tactic(auto, unfolding(crate::specs::Reading::command_of))]
fn read_seven_letters(command: &[u8], words: &[u8]) -> Option<Call>
    ensures { length command.now ≡ 7 → result ≡ command_of command.now words.now }
{
    match command {
        b"setpgid" => read_set_pgid(words),
        b"getppid" => read_get_ppid(words),
        b"getpgid" => read_get_pgid(words),
        _ => None,
    }
}

/// The call of a command of nine letters and the words behind it.
#[tactic(auto, unfolding(crate::specs::Reading::command_of))]
fn read_nine_letters(command: &[u8], words: &[u8]) -> Option<Call>
    ensures { length command.now ≡ 9 → result ≡ command_of command.now words.now }
{
    match command {
        b"subreaper" => read_subreaper(words),
        _ => None,
    }
}

/// The call of a command and the words behind it. A command is told by its length first.
#[tactic(auto, using(crate::proofs::Commands::no_command))]
fn read_command(command: &[u8], words: &[u8]) -> Option<Call>
    ensures { result ≡ command_of command.now words.now }
{
    match command.len() {
        2 => read_two_letters(command, words),
        4 => read_four_letters(command, words),
        5 => read_five_letters(command, words),
        6 => read_six_letters(command, words),
        7 => read_seven_letters(command, words),
        9 => read_nine_letters(command, words),
        _ => None,
    }
}

/// The call, or a bad line where there is none.
#[inline(always)]
fn line_of_call(call: Option<Call>) -> Line
    ensures { result ≡ call_or_bad call }
{
    match call {
        Some(call) => Line::Call(call),
        None => Line::Bad,
    }
}

/// What `fork` says with the words behind it.
#[tactic(auto, unfolding(crate::specs::Reading::command_of))]
#[inline(always)]
fn fork_line(words: &[u8]) -> Line
    ensures { result ≡ call_or_bad (command_of (codes "fork") words.now) }
{
    line_of_call(read_fork(words))
}

/// What `exit` says with the words behind it.
#[tactic(auto, unfolding(crate::specs::Reading::command_of))]
#[inline(always)]
fn exit_line(words: &[u8]) -> Line
    ensures { result ≡ call_or_bad (command_of (codes "exit") words.now) }
{
    line_of_call(read_exit(words))
}

/// What `wait` says with the words behind it.
#[tactic(auto, unfolding(crate::specs::Reading::command_of))]
#[inline(always)]
fn wait_line(words: &[u8]) -> Line
    ensures { result ≡ call_or_bad (command_of (codes "wait") words.now) }
{
    line_of_call(read_wait(words))
}

/// What `next` says with the words behind it.
#[tactic(auto, unfolding(crate::specs::Reading::command_of))]
#[inline(never)]
fn next_line(words: &[u8]) -> Line
    ensures { result ≡ call_or_bad (command_of (codes "next") words.now) }
{
    line_of_call(read_next(words))
}

/// What `setpgid` says with the words behind it.
#[tactic(auto, unfolding(crate::specs::Reading::command_of))]
#[inline(always)]
fn set_pgid_line(words: &[u8]) -> Line
    ensures { result ≡ call_or_bad (command_of (codes "setpgid") words.now) }
{
    line_of_call(read_set_pgid(words))
}

/// What `setsid` says with the words behind it.
#[tactic(auto, unfolding(crate::specs::Reading::command_of))]
#[inline(never)]
fn set_sid_line(words: &[u8]) -> Line
    ensures { result ≡ call_or_bad (command_of (codes "setsid") words.now) }
{
    line_of_call(read_set_sid(words))
}

/// What `getpid` says with the words behind it.
#[tactic(auto, unfolding(crate::specs::Reading::command_of))]
#[inline(always)]
fn get_pid_line(words: &[u8]) -> Line
    ensures { result ≡ call_or_bad (command_of (codes "getpid") words.now) }
{
    line_of_call(read_get_pid(words))
}

/// What `getppid` says with the words behind it.
#[tactic(auto, unfolding(crate::specs::Reading::command_of))]
#[inline(never)]
fn get_ppid_line(words: &[u8]) -> Line
    ensures { result ≡ call_or_bad (command_of (codes "getppid") words.now) }
{
    line_of_call(read_get_ppid(words))
}

/// What `getpgid` says with the words behind it.
#[tactic(auto, unfolding(crate::specs::Reading::command_of))]
#[inline(never)]
fn get_pgid_line(words: &[u8]) -> Line
    ensures { result ≡ call_or_bad (command_of (codes "getpgid") words.now) }
{
    line_of_call(read_get_pgid(words))
}

/// What `getsid` says with the words behind it.
#[tactic(auto, unfolding(crate::specs::Reading::command_of))]
#[inline(never)]
fn get_sid_line(words: &[u8]) -> Line
    ensures { result ≡ call_or_bad (command_of (codes "getsid") words.now) }
{
    line_of_call(read_get_sid(words))
}

/// What `nspid` says with the words behind it.
#[tactic(auto, unfolding(crate::specs::Reading::command_of))]
#[inline(never)]
fn ns_pid_line(words: &[u8]) -> Line
    ensures { result ≡ call_or_bad (command_of (codes "nspid") words.now) }
{
    line_of_call(read_ns_pid(words))
}

/// What `count` says with the words behind it.
#[tactic(auto, unfolding(crate::specs::Reading::command_of))]
#[inline(never)]
fn count_line(words: &[u8]) -> Line
    ensures { result ≡ call_or_bad (command_of (codes "count") words.now) }
{
    line_of_call(read_count(words))
}

/// What a line says that has a byte, whatever its command.
#[inline(never)]
fn any_line(line: &[u8]) -> Line
    ensures { result ≡ call_or_bad (call_read line.now) }
{
    let call = split_word(line).and_then(|(command, words)| read_command(command, words));
    line_of_call(call)
}

/// What a line says that has a byte. Its command is told by its first eight bytes, before any space is looked for.
#[inline(always)]
fn other_line(line: &[u8]) -> Line
    requires { 0 < length line.now }
    ensures { result ≡ parsed line.now }
{
    let Some(front) = line.first_chunk::<8>() else {
        return any_line(line);
    };
    match front {
        [b'n', b'e', b'x', b't', b' ', ..] => next_line(&line[5..]),
        [b'n', b's', b'p', b'i', b'd', b' ', ..] => ns_pid_line(&line[6..]),
        [b'c', b'o', b'u', b'n', b't', b' ', ..] => count_line(&line[6..]),
        [b's', b'e', b't', b's', b'i', b'd', b' ', ..] => set_sid_line(&line[7..]),
        [b'g', b'e', b't', b'p', b'i', b'd', b' ', ..] => get_pid_line(&line[7..]),
        [b'g', b'e', b't', b's', b'i', b'd', b' ', ..] => get_sid_line(&line[7..]),
        b"setpgid " => set_pgid_line(&line[8..]),
        b"getppid " => get_ppid_line(&line[8..]),
        b"getpgid " => get_pgid_line(&line[8..]),
        _ => any_line(line),
    }
}

/// What the line says. The most frequent commands are read in place; the others by a function of their own, so that
/// this one is short enough to be inlined.
#[inline(always)]
fn read_line(line: &[u8]) -> Line
    ensures { result ≡ parsed line.now }
{
    if line.is_empty() {
        return Line::Empty;
    }
    match line {
        [b'f', b'o', b'r', b'k', b' ', words @ ..] => fork_line(words),
        [b'e', b'x', b'i', b't', b' ', words @ ..] => exit_line(words),
        [b'w', b'a', b'i', b't', b' ', words @ ..] => wait_line(words),
        _ => other_line(line),
    }
}

/// What the line says, its bytes without the newline.
///
/// A line is a command and its arguments, with one space between and none around them. Numbers are
/// in decimal digits with no leading zero and within the range of their type; only the two numbers
/// of `setpgid` may have a minus sign, directly before a number that is not 0.
///
/// | Line | Call |
/// |---|---|
/// | `fork C`, `fork C new` | [`Call::Fork`] |
/// | `exec C` | [`Call::Exec`] |
/// | `exit C S` | [`Call::Exit`] |
/// | `wait C any`, `wait C pid P`, `wait C own`, `wait C group P` | [`Call::Wait`] |
/// | `setpgid C G G` | [`Call::SetPgid`] |
/// | `setsid C` | [`Call::SetSid`] |
/// | `getpid C`, `getppid C` | [`Call::GetPid`], [`Call::GetPpid`] |
/// | `getpgid C P`, `getsid C P`, `nspid C P` | [`Call::GetPgid`], [`Call::GetSid`], [`Call::NsPid`] |
/// | `next C task P`, `next C group P`, `next C session P` | [`Call::Next`] |
/// | `mk I`, `rm I` | [`Call::MakeControl`], [`Call::RemoveControl`] |
/// | `limit I N`, `limit I max` | [`Call::SetLimit`] |
/// | `move T I` | [`Call::Move`] |
/// | `count I` | [`Call::Count`] |
/// | `join C P` | [`Call::Join`] |
/// | `subreaper C on`, `subreaper C off` | [`Call::SetSubreaper`] |
///
/// `C`, `T`, `P` and `N` are a `u32`, `S` is a `u8`, `I` a `u64` and `G` an `i32`. The cost is linear in the line.
#[tactic(auto, using(crate::proofs::Read::tables))]
#[inline(always)]
pub fn parse_line(line: &[u8]) -> Line
    ensures value { result ≡ parsed line.now }
    ensures table { Says result line.now }
{
    read_line(line)
}
