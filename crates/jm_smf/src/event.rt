//! Reading one event of a track.

ghost use Rattle.std.specs.Prelude.{◌≡◌, ◌+◌, ◌-◌, ◌<◌, ◌≤◌, ◌^◌, ◌∷◌, take, drop, length, IfOk, IfSome};
ghost use Rattle.jm_cmds.specs.Gives.{Gives};
ghost use Rattle.jm_cmds.specs.Reading.{command_read};
ghost use Rattle.jm_wire.specs.Delta.{delta_at};
ghost use Rattle.jm_smf.specs.Reading.{field_read, block_read, is_ended, silent, meta_read, message_of, message_read, escape_of, escape_read, channel_fault, channel_heard, running_read, what_read, event_read};

use crate::before::Before;
use crate::escape::read_commands;
use crate::fault::FileFault;
use crate::list::Commands;
use jm_cmds::{CmdFault, Command, ReadError, Sysex, read_command};
use jm_wire::{DeltaFault, behind, read_delta};
use std::alloc::Global;

/// What an event tells.
#[derive(Debug, Drop)]
pub(crate) struct Heard {
    pub commands: Commands,
    /// The number of its octets.
    pub used: usize,
    /// What it leaves for the next one.
    pub after: Before,
}

/// The value of the field at the front, and the number of its octets.
fn field(b: &[u8], place: usize) -> Result<(u32, usize), FileFault>
    ensures value { result ≡ field_read place (delta_at b.now) }
    ensures bound { IfOk result (λ r. (r.0 < 2 ^ 28) × (1 ≤ r.1) × (r.1 ≤ 4) × (r.1 ≤ length b.now)) }
{
    match read_delta(b) {
        Ok(read) => Ok(read),
        Err(DeltaFault::Short) => Err(FileFault::Short(place)),
        Err(DeltaFault::TooLong) => Err(FileFault::BadEvent(place)),
    }
}

/// Where the octets begin whose number the field at the front tells, and that number.
#[tactic(auto, unfolding(crate::specs::Reading::block_read))]
fn block(b: &[u8], place: usize) -> Result<(usize, usize), FileFault>
    ensures value { result ≡ block_read place b.now }
    ensures bound { IfOk result (λ r. r.0 + r.1 ≤ length b.now) }
{
    let (size, lead) = field(b, place)?;
    let size = size as usize;
    if b.len() < lead + size {
        return Err(FileFault::Short(place));
    }
    Ok((lead, size))
}

/// So many octets from this one on.
fn part(b: &[u8], from: usize, size: usize) -> &[u8]
    requires { from + size ≤ length b.now }
    ensures { result.now ≡ take size (drop from b.now) }
{
    &b[from..from + size]
}

/// Whether these octets end a message.
fn is_ended(text: &[u8]) -> bool
    ensures { result ≡ is_ended text.now }
{
    if text.is_empty() {
        return false;
    }
    text[text.len() - 1] == 0xf7
}

/// An event of no command.
fn silent(used: usize, unfinished: bool, alloc: Global) -> Heard
    ensures { result ≡ silent used unfinished }
{
    Heard {
        commands: Commands::new(alloc),
        used,
        after: Before {
            running: None,
            unfinished,
        },
    }
}

/// A meta event behind its FF, or none where it ends the track.
fn meta(b: &[u8], place: usize, before: Before, alloc: Global) -> Result<Option<Heard>, FileFault>
    requires { length b.now < 2 ^ 33 }
    ensures value { result ≡ meta_read place before b.now }
    ensures bound { IfOk result (λ next. IfSome next (λ heard. heard.used ≤ length b.now + 1)) }
{
    let (kind, rest) = match b {
        [] => return Err(FileFault::Short(place)),
        [kind, rest @ ..] => (*kind, rest),
    };
    if kind == 0x2f {
        return Ok(None);
    }
    let (lead, size) = block(rest, place)?;
    Ok(Some(silent(2 + (lead + size), before.unfinished, alloc)))
}

/// The message that these octets behind F0 and its length are, or the beginning of one.
fn message_of(
    text: &[u8],
    place: usize,
    before: Before,
    used: usize,
    alloc: Global,
) -> Result<Option<Heard>, ReadError<FileFault>>
    ensures value { Gives result (message_of place before used text.now) }
    ensures bound { IfOk result (λ next. IfSome next (λ heard. heard.used ≡ used)) }
{
    if !is_ended(text) {
        return Ok(Some(silent(used, true, alloc)));
    }
    match Sysex::new(&text[..text.len() - 1], alloc) {
        Ok(message) => Ok(Some(Heard {
            commands: Commands::one(Command::Sysex(message), alloc)?,
            used,
            after: Before {
                running: None,
                unfinished: before.unfinished,
            },
        })),
        Err(ReadError::Memory) => Err(ReadError::Memory),
        Err(ReadError::Fault(_)) => Err(ReadError::Fault(FileFault::BadEvent(place))),
    }
}

/// An F0 event behind its F0.
#[tactic(auto, unfolding(crate::specs::Reading::message_read))]
fn message(
    b: &[u8],
    place: usize,
    before: Before,
    alloc: Global,
) -> Result<Option<Heard>, ReadError<FileFault>>
    requires { length b.now < 2 ^ 33 }
    ensures value { Gives result (message_read place before b.now) }
    ensures bound { IfOk result (λ next. IfSome next (λ heard. heard.used ≤ length b.now + 1)) }
{
    let (lead, size) = match block(b, place) {
        Ok(read) => read,
        Err(fault) => return Err(ReadError::Fault(fault)),
    };
    message_of(part(b, lead, size), place, before, 1 + (lead + size), alloc)
}

/// What these octets behind F7 and their length tell.
fn escape_of(
    text: &[u8],
    before: Before,
    used: usize,
    alloc: Global,
) -> Result<Heard, ReadError<FileFault>>
    ensures { Gives result (Ok (escape_of before used text.now)) }
{
    if before.unfinished {
        return Ok(silent(used, !is_ended(text), alloc));
    }
    match read_commands(text, alloc)? {
        None => Ok(silent(used, false, alloc)),
        Some(commands) => Ok(Heard {
            commands,
            used,
            after: Before {
                running: None,
                unfinished: false,
            },
        }),
    }
}

/// An F7 event behind its F7.
#[tactic(auto, unfolding(crate::specs::Reading::escape_read))]
fn escape(
    b: &[u8],
    place: usize,
    before: Before,
    alloc: Global,
) -> Result<Option<Heard>, ReadError<FileFault>>
    requires { length b.now < 2 ^ 33 }
    ensures value { Gives result (escape_read place before b.now) }
    ensures bound { IfOk result (λ next. IfSome next (λ heard. heard.used ≤ length b.now + 1)) }
{
    let (lead, size) = match block(b, place) {
        Ok(read) => read,
        Err(fault) => return Err(ReadError::Fault(fault)),
    };
    Ok(Some(escape_of(part(b, lead, size), before, 1 + (lead + size), alloc)?))
}

/// The fault of an event whose channel command is none.
fn channel_fault(fault: CmdFault, place: usize) -> FileFault
    ensures { result ≡ channel_fault place fault }
{
    match fault {
        CmdFault::Short => FileFault::Short(place),
        _ => FileFault::BadEvent(place),
    }
}

/// A channel command with this status, at the front of `text`; so many octets of `text` stand elsewhere.
fn channel(
    text: &[u8],
    place: usize,
    before: Before,
    status: u8,
    elsewhere: usize,
    alloc: Global,
) -> Result<Option<Heard>, ReadError<FileFault>>
    ensures value { Gives result (channel_heard place before status elsewhere (command_read text.now)) }
    ensures bound { IfOk result (λ next. IfSome next (λ heard. heard.used ≤ length text.now - elsewhere)) }
{
    match read_command(text, alloc) {
        Ok((command, used)) => Ok(Some(Heard {
            commands: Commands::one(command, alloc)?,
            used: used.saturating_sub(elsewhere),
            after: Before {
                running: Some(status),
                unfinished: before.unfinished,
            },
        })),
        Err(ReadError::Memory) => Err(ReadError::Memory),
        Err(ReadError::Fault(fault)) => Err(ReadError::Fault(channel_fault(fault, place))),
    }
}

/// A channel command that leaves out its status octet.
fn running(
    b: &[u8],
    place: usize,
    before: Before,
    alloc: Global,
) -> Result<Option<Heard>, ReadError<FileFault>>
    requires { 0 < length b.now }
    ensures value { Gives result (running_read place before before.running b.now) }
    ensures bound { IfOk result (λ next. IfSome next (λ heard. heard.used ≤ length b.now)) }
{
    let Some(status) = before.running else {
        return Err(ReadError::Fault(FileFault::NoStatus(place)));
    };
    if b.len() == 1 {
        return channel(&[status, b[0]], place, before, status, 1, alloc);
    }
    channel(&[status, b[0], b[1]], place, before, status, 1, alloc)
}

/// What stands behind the delta of an event, or none where it ends the track.
#[tactic(auto, unfolding(crate::specs::Reading::what_read))]
fn what(
    b: &[u8],
    place: usize,
    before: Before,
    alloc: Global,
) -> Result<Option<Heard>, ReadError<FileFault>>
    requires { length b.now < 2 ^ 33 }
    ensures value { Gives result (what_read place before b.now) }
    ensures bound { IfOk result (λ next. IfSome next (λ heard. heard.used ≤ length b.now)) }
{
    let (first, rest) = match b {
        [] => return Err(ReadError::Fault(FileFault::Short(place))),
        [first, rest @ ..] => (*first, rest),
    };
    match first {
        0xff => meta(rest, place, before, alloc).map_err(ReadError::Fault),
        0xf0 => message(rest, place, before, alloc),
        0xf7 => escape(rest, place, before, alloc),
        0xf1..=0xfe => Err(ReadError::Fault(FileFault::BadEvent(place))),
        0..=0x7f => running(b, place, before, alloc),
        _ => channel(b, place, before, first, 0, alloc),
    }
}

/// The event at the front of these octets with its delta, or none where it ends the track.
#[tactic(auto, unfolding(crate::specs::Reading::event_read))]
pub(crate) fn read_event(
    b: &[u8],
    place: usize,
    before: Before,
    alloc: Global,
) -> Result<Option<(u32, Heard)>, ReadError<FileFault>>
    requires { length b.now < 2 ^ 33 }
    ensures value { Gives result (event_read place before b.now) }
    ensures bound { IfOk result (λ next. IfSome next (λ x. (x.0 < 2 ^ 28) × (1 ≤ x.1.used) × (x.1.used ≤ length b.now))) }
{
    let (delta, lead) = match field(b, place) {
        Ok(read) => read,
        Err(fault) => return Err(ReadError::Fault(fault)),
    };
    match what(&b[lead..], place, before, alloc)? {
        None => Ok(None),
        Some(heard) => Ok(Some((
            delta,
            Heard {
                commands: heard.commands,
                used: lead + heard.used,
                after: heard.after,
            },
        ))),
    }
}
