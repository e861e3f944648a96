//! The head of a snapshot from bytes: its first line, and the line of a session.
ghost use Rattle.std.specs.{Prelude.{◌≡◌}, Option.{option_map}};
ghost use Rattle.replica.specs.HeadReading.{count_field, digest_field, digest_of, number_field, line_number};
ghost use Rattle.replica.specs.HeadReading.{session_in, settings_in, place_in, words_of_settings, words_of_state};

use crate::read::read_behind;
use crate::words::{is_hex_word, read_number_then};
use hex::decode_to_slice;
use pid_script::bytes::{split_line, split_word};
use pid_script::number::read_u64;

/// The settings of a log.
#[derive(Clone, Copy)]
pub(crate) struct Settings {
    pub(crate) form: u64,
    pub(crate) pid_max: u64,
    pub(crate) model: u64,
}

/// What the first line has behind the settings.
#[derive(Clone, Copy)]
pub(crate) struct State {
    pub(crate) position: u64,
    pub(crate) digest: [u8; 32],
    pub(crate) calls: u64,
    /// How many sessions are open.
    pub(crate) sessions: u64,
}

/// The number behind the label, and what stands after the space behind it.
#[tactic(auto, unfolding(crate::specs::HeadReading::number_field))]
fn read_field<'a>(text: &'a [u8], label: &[u8]) -> Option<(u64, &'a [u8])>
    ensures { option_map (λ p. (p.0, p.1.now)) result ≡ number_field label.now text.now }
{
    read_number_then(read_behind(text, label)?)
}

/// The number before the first newline, and what stands after that newline.
#[tactic(auto, unfolding(crate::specs::HeadReading::line_number))]
fn read_line_number(text: &[u8]) -> Option<(u64, &[u8])>
    ensures { option_map (λ p. (p.0, p.1.now)) result ≡ line_number text.now }
{
    let (word, rest) = split_line(text)?;
    Some((read_u64(word)?, rest))
}

/// The 32 bytes of a word of 64 hexadecimal digits.
#[tactic(auto, unfolding(crate::specs::HeadReading::digest_of))]
fn decode_digest(word: &[u8]) -> Option<[u8; 32]>
    ensures { result ≡ digest_of word.now }
{
    if !is_hex_word(word, 64) {
        return None;
    }
    let mut digest = [0_u8; 32];
    match decode_to_slice(word, &mut digest) {
        Ok(()) => Some(digest),
        Err(_) => None,
    }
}

/// The digest behind its label, and what stands after the space behind it.
#[tactic(auto, unfolding(crate::specs::HeadReading::digest_field))]
fn read_digest(text: &[u8]) -> Option<([u8; 32], &[u8])>
    ensures { option_map (λ p. (p.0, p.1.now)) result ≡ digest_field text.now }
{
    let (word, rest) = split_word(read_behind(text, b"digest")?)?;
    Some((decode_digest(word)?, rest))
}

/// How many sessions are open, behind the label, and the lines of these.
#[tactic(auto, unfolding(crate::specs::HeadReading::count_field))]
fn read_count(text: &[u8]) -> Option<(u64, &[u8])>
    ensures { option_map (λ p. (p.0, p.1.now)) result ≡ count_field text.now }
{
    read_line_number(read_behind(text, b"sessions")?)
}

/// The settings at the front of a first line, and its rest.
#[tactic(auto, unfolding(crate::specs::HeadReading::settings_in))]
pub(crate) fn read_settings(text: &[u8]) -> Option<(Settings, &[u8])>
    ensures { option_map (λ p. (words_of_settings p.0, p.1.now)) result ≡ settings_in text.now }
{
    let (form, rest) = read_field(text, b"pidtab-snapshot")?;
    let (pid_max, rest) = read_field(rest, b"pid_max")?;
    let (model, rest) = read_field(rest, b"model")?;
    let settings = Settings {
        form,
        pid_max,
        model,
    };
    Some((settings, rest))
}

/// The rest of a first line, and what stands behind its newline.
#[tactic(auto, unfolding(crate::specs::HeadReading::place_in))]
pub(crate) fn read_state(text: &[u8]) -> Option<(State, &[u8])>
    ensures { option_map (λ p. (words_of_state p.0, p.1.now)) result ≡ place_in text.now }
{
    let (position, rest) = read_field(text, b"position")?;
    let (digest, rest) = read_digest(rest)?;
    let (calls, rest) = read_field(rest, b"calls")?;
    let (sessions, rest) = read_count(rest)?;
    let state = State {
        position,
        digest,
        calls,
        sessions,
    };
    Some((state, rest))
}

/// The session of a line, with its last number, and what stands behind the newline.
#[tactic(auto, unfolding(crate::specs::HeadReading::session_in))]
pub(crate) fn read_session(lines: &[u8]) -> Option<(u64, u64, &[u8])>
    ensures { option_map (λ p. ((p.0, p.1), p.2.now)) result ≡ session_in lines.now }
{
    let (session, rest) = read_number_then(lines)?;
    let (last, rest) = read_line_number(rest)?;
    Some((session, last, rest))
}
