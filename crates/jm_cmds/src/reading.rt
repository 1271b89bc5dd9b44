//! Reading one command.

ghost use Rattle.std.specs.Prelude.{◌≡◌, ◌-◌, ◌<◌, ◌≤◌, ◌⊎◌, drop, take, length};
ghost use Rattle.jm_cmds.specs.Gives.{Gives, WantsForGood};
ghost use Rattle.jm_cmds.specs.Reading.{command_read, one_data, two_data, channel_read, system_read, message_read};

use crate::commands::Command;
use crate::numbers::{Channel, D7, D14};
use crate::outcome::ReadError;
use crate::system_exclusive::{Sysex, data_len};
use std::alloc::Global;
use thiserror::Error;

/// Why octets begin with no command. It is told of the first octet that shows a fault.
#[derive(Clone, Copy, PartialEq, Eq, Debug, Error)]
pub enum CmdFault {
    /// There is no octet.
    #[error("no octet")]
    Empty,
    /// The first octet is below 0x80.
    #[error("a data octet where a command begins")]
    DataOctet,
    /// The first octet is F4, F5, F7, F9 or FD, which begins no command.
    #[error("no command begins with {0:02x}")]
    BadStatus(u8),
    /// The octet at this place, counted from the status octet as 0, must be data and is over 0x7F.
    #[error("octet {0} is no data octet")]
    BadData(usize),
    /// A System Exclusive message has a 65,537th data octet.
    #[error("a System Exclusive message that is too long")]
    TooLong,
    /// The octets end inside the command.
    #[error("the octets end inside a command")]
    Short,
}

/// The data octet at the front of these, which stand at `place` of the command.
fn one(rest: &[u8], place: usize) -> Result<D7, CmdFault>
    ensures { result ≡ one_data place rest.now }
{
    match rest {
        [] => Err(CmdFault::Short),
        [octet, ..] => match D7::new(*octet) {
            None => Err(CmdFault::BadData(place)),
            Some(value) => Ok(value),
        },
    }
}

/// The two data octets behind a status octet.
fn two(rest: &[u8]) -> Result<(D7, D7), CmdFault>
    ensures { result ≡ two_data rest.now }
{
    let first = one(rest, 1)?;
    let second = one(&rest[1..], 2)?;
    Ok((first, second))
}

/// A channel command with one data octet, whose status octet is from 0xC0 to 0xDF.
fn one_octet_command(status: u8, rest: &[u8]) -> Result<(Command, usize), CmdFault>
    requires from { 192 ≤ status }
    requires below { status < 224 }
    ensures { result ≡ channel_read status rest.now }
{
    let channel = Channel::low(status);
    let value = one(rest, 1)?;
    if status < 0xd0 {
        return Ok((
            Command::Program {
                channel,
                program: value,
            },
            2,
        ));
    }
    Ok((Command::Pressure { channel, value }, 2))
}

/// A channel command with two data octets, whose status octet is from 0x80 to 0xBF or from 0xE0 to 0xEF.
fn two_octet_command(status: u8, rest: &[u8]) -> Result<(Command, usize), CmdFault>
    requires from { 128 ≤ status }
    requires kind { status < 192 ⊎ 224 ≤ status }
    requires below { status < 240 }
    ensures { result ≡ channel_read status rest.now }
{
    let channel = Channel::low(status);
    let (first, second) = two(rest)?;
    let command = match status {
        ..=0x8f => Command::NoteOff {
            channel,
            note: first,
            velocity: second,
        },
        ..=0x9f => Command::NoteOn {
            channel,
            note: first,
            velocity: second,
        },
        ..=0xaf => Command::PolyPressure {
            channel,
            note: first,
            value: second,
        },
        ..=0xbf => Command::Control {
            channel,
            number: first,
            value: second,
        },
        _ => Command::Wheel {
            channel,
            first,
            second,
        },
    };
    Ok((command, 3))
}

/// A channel command, whose status octet is from 0x80 to 0xEF.
fn channel_command(status: u8, rest: &[u8]) -> Result<(Command, usize), CmdFault>
    requires from { 128 ≤ status }
    requires below { status < 240 }
    ensures { result ≡ channel_read status rest.now }
{
    match status {
        0xc0..=0xdf => one_octet_command(status, rest),
        _ => two_octet_command(status, rest),
    }
}

/// A system command other than System Exclusive, whose status octet is from 0xF1 on.
fn system_command(status: u8, rest: &[u8]) -> Result<(Command, usize), CmdFault>
    ensures { result ≡ system_read status rest.now }
{
    match status {
        0xf1 => {
            let value = one(rest, 1)?;
            Ok((Command::QuarterFrame { value }, 2))
        }
        0xf2 => {
            let (low, high) = two(rest)?;
            let value = D14::of(low, high);
            Ok((Command::SongPosition { value }, 3))
        }
        0xf3 => {
            let song = one(rest, 1)?;
            Ok((Command::SongSelect { song }, 2))
        }
        0xf6 => Ok((Command::TuneRequest, 1)),
        0xf8 => Ok((Command::Clock, 1)),
        0xfa => Ok((Command::Start, 1)),
        0xfb => Ok((Command::Continue, 1)),
        0xfc => Ok((Command::Stop, 1)),
        0xfe => Ok((Command::ActiveSensing, 1)),
        0xff => Ok((Command::SystemReset, 1)),
        _ => Err(CmdFault::BadStatus(status)),
    }
}

/// A System Exclusive message behind its F0.
fn message(rest: &[u8], alloc: Global) -> Result<(Command, usize), ReadError<CmdFault>>
    ensures answer { Gives result (message_read rest.now) }
    ensures memory { WantsForGood result (message_read rest.now) }
{
    let len = data_len(rest);
    if len > Sysex::MOST {
        return Err(ReadError::Fault(CmdFault::TooLong));
    }
    if len == rest.len() {
        return Err(ReadError::Fault(CmdFault::Short));
    }
    if rest[len] != 0xf7 {
        return Err(ReadError::Fault(CmdFault::BadData(len + 1)));
    }
    Ok((Command::Sysex(Sysex::of(&rest[..len], alloc)?), len + 2))
}

/// The command at the front of these octets, and the number of its octets.
///
/// The first octet that shows a fault is told, as `CmdFault` says: `Empty`, `DataOctet` or `BadStatus`
/// by the status octet, then `BadData`, `TooLong` or `Short` by those behind it. What follows the
/// command is not looked at. Memory is wanted only for a good command.
#[tactic(auto, unfolding(crate::specs::Reading::command_read, crate::specs::Reading::after_status))]
pub fn read_command(b: &[u8], alloc: Global) -> Result<(Command, usize), ReadError<CmdFault>>
    ensures answer { Gives result (command_read b.now) }
    ensures memory { WantsForGood result (command_read b.now) }
{
    let (status, rest) = match b {
        [] => return Err(ReadError::Fault(CmdFault::Empty)),
        [status, rest @ ..] => (*status, rest),
    };
    if status < 0x80 {
        return Err(ReadError::Fault(CmdFault::DataOctet));
    }
    if status == 0xf0 {
        return message(rest, alloc);
    }
    if status < 0xf0 {
        return channel_command(status, rest).map_err(ReadError::Fault);
    }
    system_command(status, rest).map_err(ReadError::Fault)
}
