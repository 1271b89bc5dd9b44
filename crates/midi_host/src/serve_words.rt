//! The words of `serve`.

ghost use Rattle.std.specs.Prelude.{◌≡◌, ◌≤◌, IfOk, IfSome, option_and_then, option_map};
ghost use Rattle.jm_script.specs.Words.{ssrc_of};
ghost use Rattle.midi_host.specs.Invitation.{turns_of};
ghost use Rattle.midi_host.specs.ServeParsed.{seen};
ghost use Rattle.midi_host.specs.ServeWords.{served_port, events_of, settings_of, AreWithin, Asks};

use super::serve_options::{OptionTexts, WordsFault, option_texts};
use super::word::Word;
use jm_script::number;
use std::alloc::Global;

/// The least port: those below are the system's.
const LEAST_PORT: u64 = 1024;

/// The greatest port that has one behind it.
const GREATEST_PORT: u64 = 65_534;

/// The most rounds that each worker makes.
const MOST_TURNS: u64 = 4_294_967_295;

/// The most steps that a tape takes.
const MOST_EVENTS: u64 = 4_194_304;

/// What the words of `serve` ask for.
#[derive(Clone, Copy, Debug, PartialEq, Eq)]
pub struct ServeWords {
    /// The control port, from 1,024 to 65,534. The data port is the next one.
    pub port: u16,
    /// How many rounds each worker makes, from 1 to 4,294,967,295.
    pub turns: u32,
    /// The synchronization source of the host's stream.
    pub ssrc: u32,
    /// How many steps the tape takes, from 1 to 4,194,304.
    pub events: u32,
}

// The port that a word writes.
fn port(word: &[u8]) -> Option<u16>
    ensures value { result ≡ served_port word.now }
    ensures bound { IfSome result (λ port. port ≤ 65534) }
{
    let Some(port) = number(word, GREATEST_PORT) else {
        return None;
    };
    if LEAST_PORT <= port {
        Some(port as u16)
    } else {
        None
    }
}

// The number of rounds that a word writes.
fn turns(word: &[u8]) -> Option<u32>
    ensures { result ≡ turns_of word.now }
{
    let Some(turns) = number(word, MOST_TURNS) else {
        return None;
    };
    if turns > 0 { Some(turns as u32) } else { None }
}

// The source that eight hexadecimal digits write, the high digit first.
fn ssrc(word: &[u8]) -> Option<u32>
    ensures { result ≡ ssrc_of word.now }
{
    let mut octets = [0u8; 4];
    match hex::decode_to_slice(word, octets.as_mut_slice()) {
        Ok(()) => Some(u32::from_be_bytes(octets)),
        Err(_) => None,
    }
}

// The number of steps that a word writes.
fn events(word: &[u8]) -> Option<u32>
    ensures value { result ≡ events_of word.now }
    ensures bounds { IfSome result (λ events. (1 ≤ events) × (events ≤ 4194304)) }
{
    let Some(events) = number(word, MOST_EVENTS) else {
        return None;
    };
    if events > 0 {
        Some(events as u32)
    } else {
        None
    }
}

// The port that an option gives.
fn port_given(text: Option<&str>) -> Option<u16>
    ensures value { result ≡ option_and_then served_port (option_map (λ s. s.now) text.entry) }
    ensures bound { IfSome result (λ port. port ≤ 65534) }
{
    match text {
        Some(text) => port(text.as_bytes()),
        None => None,
    }
}

// The number of rounds that an option gives.
fn turns_given(text: Option<&str>) -> Option<u32>
    ensures { result ≡ option_and_then turns_of (option_map (λ s. s.now) text.entry) }
{
    match text {
        Some(text) => turns(text.as_bytes()),
        None => None,
    }
}

// The source that an option gives.
fn ssrc_given(text: Option<&str>) -> Option<u32>
    ensures { result ≡ option_and_then ssrc_of (option_map (λ s. s.now) text.entry) }
{
    match text {
        Some(text) => ssrc(text.as_bytes()),
        None => None,
    }
}

// The number of steps that an option gives.
fn events_given(text: Option<&str>) -> Option<u32>
    ensures value { result ≡ option_and_then events_of (option_map (λ s. s.now) text.entry) }
    ensures bounds { IfSome result (λ events. (1 ≤ events) × (events ≤ 4194304)) }
{
    match text {
        Some(text) => events(text.as_bytes()),
        None => None,
    }
}

// What the options ask for.
fn settings(texts: &OptionTexts) -> Option<ServeWords>
    ensures value { result ≡ settings_of (seen texts.now) }
    ensures bounds { IfSome result AreWithin }
{
    let Some(port) = port_given(texts.port) else {
        return None;
    };
    let Some(turns) = turns_given(texts.turns) else {
        return None;
    };
    let Some(ssrc) = ssrc_given(texts.ssrc) else {
        return None;
    };
    let Some(events) = events_given(texts.events) else {
        return None;
    };
    Some(ServeWords {
        port,
        turns,
        ssrc,
        events,
    })
}

/// What the words of `serve` ask for: `--port` from 1,024 to 65,534 and `--turns` from 1 to 4,294,967,295, which have to be
/// there, `--ssrc` of eight hexadecimal digits, else 4d494449, and `--events` from 1 to 4,194,304, else 4194304. Each is
/// written as `--port 5004` or `--port=5004`, and once at most. Numbers are decimal, without zeros in front.
///
/// `Refused` comes only where the words aren't these, and where they aren't either that comes or `Memory`.
#[tactic(auto, unfolding(crate::specs::ServeWords::serve_of))]
pub fn asked_by(words: &[Word], alloc: Global) -> Result<ServeWords, WordsFault>
    ensures asks { Asks words.now result }
    ensures bounds { IfOk result AreWithin }
{
    match option_texts(words, alloc) {
        Ok(texts) => match settings(&texts) {
            Some(asked) => Ok(asked),
            None => Err(WordsFault::Refused),
        },
        Err(fault) => Err(fault),
    }
}
