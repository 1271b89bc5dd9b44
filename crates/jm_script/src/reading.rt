//! A line to what it is.

ghost use Rattle.std.specs.Prelude.{◌≡◌, ◌+◌, ◌^◌, ◌≤◌, ◌&&◌, length, Option, Some, List, IsSome, OnErr, option_map, IfOk};
ghost use Rattle.jm_cmds.specs.Gives.{Gives};
ghost use Rattle.jm_cmds.specs.Reading.{command_read};
ghost use Rattle.jm_script.specs.Line.{line_of, session_by, step_line, script_line, session_line, lone, enter_line, enter_as_line, who_of, play_by, play_line, cut_line, report_of, ack_line, hear_line, source_of, join_line, leave_line, message_line, whole_command, lone_hex, read_as, read_by, repair_by, IsInRange};

use crate::hexadecimal::Hex;
use crate::keywords::{
    Keyword, ReadWord, RepairWord, StepWord, read_word, repair_word, session_word,
};
use crate::line::{Line, LineFault, LineKind};
use crate::name::PlayerName;
use crate::words::{addr, hex_octets, number, port, split_word, ssrc};
use jm_cmds::{Command, ReadError, read_command};
use std::alloc::{AllocError, Global};

/// The latest tick or moment that a line may give, in units of 100 microseconds.
const LATEST: u64 = 1 << 62;

/// The most steps that a session may be made for.
const MOST_EVENTS: u64 = 4_194_304;

/// Who plays: a player's number or name.
#[derive(Debug, Drop)]
pub(crate) enum Who {
    Number(u8),
    Name(PlayerName),
}

/// `script 2`: what stands behind the first word.
#[tactic(auto, unfolding(crate::specs::Line::script_line))]
fn read_script(rest: Option<&[u8]>) -> Result<Line, LineFault>
    ensures line { result ≡ script_line (option_map (λ r. r.now) rest.entry) }
    ensures range { IfOk result IsInRange }
{
    let Some(words) = rest else {
        return Err(LineFault::Word);
    };
    if words == b"2".as_slice() {
        return Ok(Line::Script);
    }
    Err(LineFault::Word)
}

/// `session SSRC EVENTS`: what stands behind the first word.
#[tactic(auto, unfolding(crate::specs::Line::session_line))]
fn read_session(rest: Option<&[u8]>) -> Result<Line, LineFault>
    ensures line { result ≡ session_line (option_map (λ r. r.now) rest.entry) }
    ensures range { IfOk result IsInRange }
{
    let Some(words) = rest else {
        return Err(LineFault::Form);
    };
    let (first, others) = split_word(words);
    let Some(ssrc) = ssrc(first) else {
        return Err(LineFault::Form);
    };
    let Some(last) = others else {
        return Err(LineFault::Form);
    };
    let Some(events) = number(last, MOST_EVENTS) else {
        return Err(LineFault::Form);
    };
    if events == 0 {
        return Err(LineFault::Form);
    }
    Ok(Line::Session {
        ssrc,
        events: events as u32,
    })
}

/// A line of one word alone.
fn read_lone(line: Line, rest: Option<&[u8]>) -> Result<Line, LineFault>
    ensures { result ≡ lone line (option_map (λ r. r.now) rest.entry) }
{
    match rest {
        None => Ok(line),
        Some(_) => Err(LineFault::Form),
    }
}

/// `enter NAME`: what stands behind the first word.
#[tactic(auto, unfolding(crate::specs::Line::enter_as_line))]
fn read_enter_as(rest: Option<&[u8]>) -> Result<Line, LineFault>
    ensures line { result ≡ enter_as_line (option_map (λ r. r.now) rest.entry) }
    ensures range { IfOk result IsInRange }
{
    let Some(words) = rest else {
        return Err(LineFault::Form);
    };
    let Some(name) = PlayerName::new(words) else {
        return Err(LineFault::Form);
    };
    Ok(Line::EnterAs { name })
}

/// `enter`, or `enter NAME` in version 2.
fn read_enter(version: u8, rest: Option<&[u8]>) -> Result<Line, LineFault>
    ensures line { result ≡ enter_line version (option_map (λ r. r.now) rest.entry) }
    ensures range { IfOk result IsInRange }
{
    if version == 2 {
        return read_enter_as(rest);
    }
    read_lone(Line::Enter, rest)
}

/// `cut TICK`: what stands behind the first word.
#[tactic(auto, unfolding(crate::specs::Line::cut_line))]
fn read_cut(rest: Option<&[u8]>) -> Result<Line, LineFault>
    ensures line { result ≡ cut_line (option_map (λ r. r.now) rest.entry) }
    ensures range { IfOk result IsInRange }
{
    let Some(words) = rest else {
        return Err(LineFault::Form);
    };
    let Some(tick) = number(words, LATEST) else {
        return Err(LineFault::Form);
    };
    Ok(Line::Cut { tick })
}

/// SSRC SEQ.
#[tactic(auto, unfolding(crate::specs::Line::report_of))]
fn read_report(rest: Option<&[u8]>) -> Result<(u32, u16), LineFault>
    ensures { result ≡ report_of (option_map (λ r. r.now) rest.entry) }
{
    let Some(words) = rest else {
        return Err(LineFault::Form);
    };
    let (first, others) = split_word(words);
    let Some(ssrc) = ssrc(first) else {
        return Err(LineFault::Form);
    };
    let Some(last) = others else {
        return Err(LineFault::Form);
    };
    let Some(seq) = number(last, 65_535) else {
        return Err(LineFault::Form);
    };
    Ok((ssrc, seq as u16))
}

/// `ack SSRC SEQ`: what stands behind the first word.
fn read_ack(rest: Option<&[u8]>) -> Result<Line, LineFault>
    ensures line { result ≡ ack_line (report_of (option_map (λ r. r.now) rest.entry)) }
    ensures range { IfOk result IsInRange }
{
    match read_report(rest) {
        Ok((ssrc, seq)) => Ok(Line::Ack { ssrc, seq }),
        Err(fault) => Err(fault),
    }
}

/// `hear SSRC SEQ`: what stands behind the first word.
fn read_hear(rest: Option<&[u8]>) -> Result<Line, LineFault>
    ensures line { result ≡ hear_line (report_of (option_map (λ r. r.now) rest.entry)) }
    ensures range { IfOk result IsInRange }
{
    match read_report(rest) {
        Ok((ssrc, seq)) => Ok(Line::Hear { ssrc, seq }),
        Err(fault) => Err(fault),
    }
}

/// SSRC.
#[tactic(auto, unfolding(crate::specs::Line::source_of))]
fn read_source(rest: Option<&[u8]>) -> Result<u32, LineFault>
    ensures { result ≡ source_of (option_map (λ r. r.now) rest.entry) }
{
    let Some(words) = rest else {
        return Err(LineFault::Form);
    };
    let Some(ssrc) = ssrc(words) else {
        return Err(LineFault::Form);
    };
    Ok(ssrc)
}

/// `join SSRC`: what stands behind the first word.
fn read_join(rest: Option<&[u8]>) -> Result<Line, LineFault>
    ensures line { result ≡ join_line (source_of (option_map (λ r. r.now) rest.entry)) }
    ensures range { IfOk result IsInRange }
{
    match read_source(rest) {
        Ok(ssrc) => Ok(Line::Join { ssrc }),
        Err(fault) => Err(fault),
    }
}

/// `leave SSRC`: what stands behind the first word.
fn read_leave(rest: Option<&[u8]>) -> Result<Line, LineFault>
    ensures line { result ≡ leave_line (source_of (option_map (λ r. r.now) rest.entry)) }
    ensures range { IfOk result IsInRange }
{
    match read_source(rest) {
        Ok(ssrc) => Ok(Line::Leave { ssrc }),
        Err(fault) => Err(fault),
    }
}

/// The one command that some octets are.
fn one_command(octets: &[u8], alloc: Global) -> Result<Command, ReadError<LineFault>>
    ensures { Gives result (whole_command (length octets.now) (command_read octets.now)) }
{
    match read_command(octets, alloc) {
        Ok((command, used)) => {
            if used != octets.len() {
                return Err(ReadError::Fault(LineFault::Command));
            }
            Ok(command)
        }
        Err(ReadError::Fault(_)) => Err(ReadError::Fault(LineFault::Command)),
        Err(ReadError::Memory) => Err(ReadError::Memory),
    }
}

/// Who a word names.
#[tactic(auto, unfolding(crate::specs::Line::who_of))]
fn read_who(version: u8, word: &[u8]) -> Option<Who>
    ensures { result ≡ who_of version word.now }
{
    if version == 2 {
        if let Some(name) = PlayerName::new(word) {
            return Some(Who::Name(name));
        }
    }
    match number(word, 255) {
        Some(player) => Some(Who::Number(player as u8)),
        None => None,
    }
}

/// A play's line, with all its words read.
fn play_by(who: Who, tick: u64, command: Command) -> Line
    ensures line { result ≡ play_by who tick command }
    ensures range { IsInRange result }
{
    match who {
        Who::Number(player) => Line::Play {
            player,
            tick,
            command,
        },
        Who::Name(name) => Line::PlayAs {
            name,
            tick,
            command,
        },
    }
}

/// `play PLAYER TICK HEX`: what stands behind the first word.
#[tactic(auto, unfolding(crate::specs::Line::play_line))]
fn read_play(version: u8, rest: Option<&[u8]>, alloc: Global) -> Result<Line, ReadError<LineFault>>
    ensures line { Gives result (play_line version (option_map (λ r. r.now) rest.entry)) }
    ensures range { IfOk result IsInRange }
{
    let Some(words) = rest else {
        return Err(ReadError::Fault(LineFault::Form));
    };
    let (first, others) = split_word(words);
    let Some(who) = read_who(version, first) else {
        return Err(ReadError::Fault(LineFault::Form));
    };
    let Some(others) = others else {
        return Err(ReadError::Fault(LineFault::Form));
    };
    let (second, last) = split_word(others);
    let Some(tick) = number(second, LATEST) else {
        return Err(ReadError::Fault(LineFault::Form));
    };
    let Some(last) = last else {
        return Err(ReadError::Fault(LineFault::Form));
    };
    let Some(octets) = hex_octets(last, alloc)? else {
        return Err(ReadError::Fault(LineFault::Form));
    };
    let command = one_command(octets.as_slice(), alloc)?;
    Ok(play_by(who, tick, command))
}

/// `message control|data ADDR NOW HEX`: what stands behind the first word.
#[tactic(auto, unfolding(crate::specs::Line::message_line))]
fn read_message_line(rest: Option<&[u8]>, alloc: Global) -> Result<Line, ReadError<LineFault>>
    ensures line { Gives result (message_line (option_map (λ r. r.now) rest.entry)) }
    ensures range { IfOk result IsInRange }
{
    let Some(words) = rest else {
        return Err(ReadError::Fault(LineFault::Form));
    };
    let (first, others) = split_word(words);
    let Some(port) = port(first) else {
        return Err(ReadError::Fault(LineFault::Form));
    };
    let Some(others) = others else {
        return Err(ReadError::Fault(LineFault::Form));
    };
    let (second, more) = split_word(others);
    let Some(from) = addr(second) else {
        return Err(ReadError::Fault(LineFault::Form));
    };
    let Some(more) = more else {
        return Err(ReadError::Fault(LineFault::Form));
    };
    let (third, last) = split_word(more);
    let Some(now) = number(third, LATEST) else {
        return Err(ReadError::Fault(LineFault::Form));
    };
    let Some(last) = last else {
        return Err(ReadError::Fault(LineFault::Form));
    };
    let Some(octets) = hex_octets(last, alloc)? else {
        return Err(ReadError::Fault(LineFault::Form));
    };
    Ok(Line::Message {
        port,
        from,
        now,
        octets: Hex::of(octets),
    })
}

/// A line that was read without memory.
fn pure(line: Result<Line, LineFault>) -> Result<Line, ReadError<LineFault>>
    ensures line { Gives result line }
    ensures range { IfOk line IsInRange → IfOk result IsInRange }
{
    match line {
        Ok(line) => Ok(line),
        Err(fault) => Err(ReadError::Fault(fault)),
    }
}

/// A line that a session answers.
fn read_step(
    version: u8,
    word: StepWord,
    rest: Option<&[u8]>,
    alloc: Global,
) -> Result<Line, ReadError<LineFault>>
    ensures line { Gives result (step_line version word (option_map (λ r. r.now) rest.entry)) }
    ensures range { IfOk result IsInRange }
{
    match word {
        StepWord::Enter => pure(read_enter(version, rest)),
        StepWord::Play => read_play(version, rest, alloc),
        StepWord::Cut => pure(read_cut(rest)),
        StepWord::Ack => pure(read_ack(rest)),
        StepWord::Join => pure(read_join(rest)),
        StepWord::Leave => pure(read_leave(rest)),
        StepWord::Hear => pure(read_hear(rest)),
        StepWord::Feedback => pure(read_lone(Line::Feedback, rest)),
        StepWord::Message => read_message_line(rest, alloc),
    }
}

/// A line of a session, by its first word.
fn read_session_by(
    version: u8,
    started: bool,
    keyword: Option<Keyword>,
    rest: Option<&[u8]>,
    alloc: Global,
) -> Result<Line, ReadError<LineFault>>
    ensures line { Gives result (session_by version started keyword (option_map (λ r. r.now) rest.entry)) }
    ensures range { IfOk result IsInRange }
{
    match keyword {
        None => Err(ReadError::Fault(LineFault::Word)),
        Some(Keyword::Script) => {
            if started {
                return Err(ReadError::Fault(LineFault::Word));
            }
            if version == 2 {
                return Err(ReadError::Fault(LineFault::Word));
            }
            pure(read_script(rest))
        }
        Some(Keyword::Session) => {
            if started {
                return Err(ReadError::Fault(LineFault::Word));
            }
            pure(read_session(rest))
        }
        Some(Keyword::Step(word)) => {
            if started {
                return read_step(version, word, rest, alloc);
            }
            Err(ReadError::Fault(LineFault::Word))
        }
    }
}

/// The octets of the one word that stands behind the first. It fails where memory runs out, which is said of
/// octets alone.
fn lone_octets(rest: Option<&[u8]>, alloc: Global) -> Result<Option<Vec<u8>>, AllocError>
    ensures octets { IfOk result (λ octets. option_map (λ v. v.items) octets ≡ lone_hex (option_map (λ r. r.now) rest.entry)) }
    ensures memory { OnErr result (IsSome (lone_hex (option_map (λ r. r.now) rest.entry))) }
{
    match rest {
        None => Ok(None),
        Some(word) => hex_octets(word, alloc),
    }
}

/// A line of the verb `read`, by what its octets are read as.
fn read_as(word: ReadWord, octets: Hex) -> Line
    ensures line { result ≡ read_as word octets }
    ensures range { IsInRange result }
{
    match word {
        ReadWord::Command => Line::ReadCommand(octets),
        ReadWord::Section => Line::ReadSection(octets),
        ReadWord::Packet => Line::ReadPacket(octets),
        ReadWord::Message => Line::ReadMessage(octets),
    }
}

/// A line of the verb `read`, by its first word.
fn read_read_by(
    word: Option<ReadWord>,
    rest: Option<&[u8]>,
    alloc: Global,
) -> Result<Line, ReadError<LineFault>>
    ensures line { Gives result (read_by word (option_map (λ r. r.now) rest.entry)) }
    ensures range { IfOk result IsInRange }
{
    let Some(word) = word else {
        return Err(ReadError::Fault(LineFault::Word));
    };
    let Some(octets) = lone_octets(rest, alloc)? else {
        return Err(ReadError::Fault(LineFault::Form));
    };
    Ok(read_as(word, Hex::of(octets)))
}

/// `packet HEX` of the verb `repair`: what stands behind the first word.
fn read_repair_packet(rest: Option<&[u8]>, alloc: Global) -> Result<Line, ReadError<LineFault>>
    ensures line { Gives result (repair_by (Some RepairWord.Packet) (option_map (λ r. r.now) rest.entry)) }
    ensures range { IfOk result IsInRange }
{
    let Some(octets) = lone_octets(rest, alloc)? else {
        return Err(ReadError::Fault(LineFault::Form));
    };
    Ok(Line::RepairPacket(Hex::of(octets)))
}

/// A line of the verb `repair`, by its first word.
fn read_repair_by(
    word: Option<RepairWord>,
    rest: Option<&[u8]>,
    alloc: Global,
) -> Result<Line, ReadError<LineFault>>
    ensures line { Gives result (repair_by word (option_map (λ r. r.now) rest.entry)) }
    ensures range { IfOk result IsInRange }
{
    match word {
        None => Err(ReadError::Fault(LineFault::Word)),
        Some(RepairWord::Packet) => read_repair_packet(rest, alloc),
        Some(RepairWord::State) => pure(read_lone(Line::ShowState, rest)),
    }
}

/// What a line is, without its end: `Ok` exactly where it is in the grammar of its kind, but for want of memory, and else
/// the first fault that holds, in the order of [`LineFault`].
///
/// `started` tells whether a session line was taken before, and `version` is that of the script so far, 1 or 2 (any
/// number but 2 is taken as 1); both matter for the lines of a session alone. `Memory` is answered where memory runs out.
pub fn read_line(
    kind: LineKind,
    line: &[u8],
    started: bool,
    version: u8,
    alloc: Global,
) -> Result<Line, ReadError<LineFault>>
    ensures line { Gives result (line_of kind version started line.now) }
    ensures range { IfOk result IsInRange }
{
    match line {
        [] => Ok(Line::Blank),
        [first, ..] => {
            if *first == b'#' {
                return Ok(Line::Blank);
            }
            let (word, rest) = split_word(line);
            match kind {
                LineKind::Session => {
                    read_session_by(version, started, session_word(word), rest, alloc)
                }
                LineKind::Read => read_read_by(read_word(word), rest, alloc),
                LineKind::Repair => read_repair_by(repair_word(word), rest, alloc),
            }
        }
    }
}
