//! The commands of MIDI 1.0.

ghost use Rattle.std.specs.Prelude.{◌≡◌, ◌≤◌, length, false, IfOk};
ghost use Rattle.jm_cmds.specs.Command.{spelling, status_of, is_long, HasChannel, IsCommand, IsOfNote, IsOfChannel};
ghost use Rattle.jm_cmds.specs.Spelled.{octets_of, octets_behind};

use crate::numbers::{Channel, D7, D14};
use crate::system_exclusive::Sysex;
use std::alloc::{AllocError, Global};

/// A MIDI command (RFC 6295, Appendix E, Figures E.1 and E.2).
///
/// A `NoteOn` of velocity 0 counts everywhere as a `NoteOff` of velocity 64 (RFC 6295, A.6), but is
/// spelled as it is.
#[derive(PartialEq, Eq, Debug, Drop)]
pub enum Command {
    /// A note is released: 8c nn vv.
    NoteOff {
        channel: Channel,
        note: D7,
        velocity: D7,
    },
    /// A note is struck: 9c nn vv.
    NoteOn {
        channel: Channel,
        note: D7,
        velocity: D7,
    },
    /// The pressure on one key: Ac nn vv.
    PolyPressure {
        channel: Channel,
        note: D7,
        value: D7,
    },
    /// A controller takes a value: Bc nn vv.
    Control {
        channel: Channel,
        number: D7,
        value: D7,
    },
    /// A program is chosen: Cc pp.
    Program {
        channel: Channel,
        program: D7,
    },
    /// The pressure on the channel: Dc vv.
    Pressure {
        channel: Channel,
        value: D7,
    },
    /// The pitch wheel, its octets as they stand: Ec ff ss.
    Wheel {
        channel: Channel,
        first: D7,
        second: D7,
    },
    /// A quarter frame of MIDI Time Code: F1 vv.
    QuarterFrame {
        value: D7,
    },
    /// The song position, in units of six clocks: F2 and its low and high seven bits.
    SongPosition {
        value: D14,
    },
    /// A song is chosen: F3 ss.
    SongSelect {
        song: D7,
    },
    /// F6.
    TuneRequest,
    /// F8.
    Clock,
    /// FA.
    Start,
    /// FB.
    Continue,
    /// FC.
    Stop,
    /// FE.
    ActiveSensing,
    /// FF.
    SystemReset,
    /// A whole System Exclusive message: F0, its data octets, F7.
    Sysex(Sysex),
}

/// The octets of one command, by their number.
#[derive(Clone, Copy, Debug)]
pub enum Spelled<'a> {
    /// A status octet alone.
    One(u8),
    /// A status octet and one data octet.
    Two(u8, u8),
    /// A status octet and two data octets.
    Three(u8, u8, u8),
    /// The data octets of a System Exclusive message, which stand between F0 and F7.
    Message(&'a [u8]),
}

/// The data octets of one command, by their number.
#[derive(Clone, Copy, Debug)]
enum DataOctets<'a> {
    None,
    One(u8),
    Two(u8, u8),
    /// Those of a System Exclusive message.
    Message(&'a [u8]),
}

impl<'a> DataOctets<'a> {
    /// The whole command with this status octet, which a System Exclusive message has no choice of.
    fn with_status(self, status: u8) -> Spelled<'a>
        ensures { octets_of result ≡ octets_behind status self.entry }
    {
        match self {
            DataOctets::None => Spelled::One(status),
            DataOctets::One(first) => Spelled::Two(status, first),
            DataOctets::Two(first, second) => Spelled::Three(status, first, second),
            DataOctets::Message(octets) => Spelled::Message(octets),
        }
    }
}

impl Command {
    /// The octet by which the command begins.
    pub fn status(&self) -> u8
        ensures status { result ≡ status_of self.now }
        ensures channel { HasChannel self.now }
    {
        match self {
            Command::NoteOff { channel, .. } => 0x80 + channel.get(),
            Command::NoteOn { channel, .. } => 0x90 + channel.get(),
            Command::PolyPressure { channel, .. } => 0xa0 + channel.get(),
            Command::Control { channel, .. } => 0xb0 + channel.get(),
            Command::Program { channel, .. } => 0xc0 + channel.get(),
            Command::Pressure { channel, .. } => 0xd0 + channel.get(),
            Command::Wheel { channel, .. } => 0xe0 + channel.get(),
            Command::QuarterFrame { .. } => 0xf1,
            Command::SongPosition { .. } => 0xf2,
            Command::SongSelect { .. } => 0xf3,
            Command::TuneRequest => 0xf6,
            Command::Clock => 0xf8,
            Command::Start => 0xfa,
            Command::Continue => 0xfb,
            Command::Stop => 0xfc,
            Command::ActiveSensing => 0xfe,
            Command::SystemReset => 0xff,
            Command::Sysex(_) => 0xf0,
        }
    }

    /// The data octets behind the status octet.
    fn data(&self) -> DataOctets<'_>
        ensures octets { octets_behind (status_of self.now) result ≡ spelling self.now }
        ensures command { HasChannel self.now → IsCommand self.now }
    {
        match self {
            Command::NoteOff { note, velocity, .. } | Command::NoteOn { note, velocity, .. } => {
                DataOctets::Two(note.get(), velocity.get())
            }
            Command::PolyPressure { note, value, .. } => DataOctets::Two(note.get(), value.get()),
            Command::Control { number, value, .. } => DataOctets::Two(number.get(), value.get()),
            Command::Wheel { first, second, .. } => DataOctets::Two(first.get(), second.get()),
            Command::Program { program, .. } => DataOctets::One(program.get()),
            Command::Pressure { value, .. } => DataOctets::One(value.get()),
            Command::QuarterFrame { value } => DataOctets::One(value.get()),
            Command::SongSelect { song } => DataOctets::One(song.get()),
            Command::SongPosition { value } => {
                let position = value.get();
                DataOctets::Two((position % 128) as u8, (position / 128) as u8)
            }
            Command::Sysex(message) => DataOctets::Message(message.as_slice()),
            Command::TuneRequest
            | Command::Clock
            | Command::Start
            | Command::Continue
            | Command::Stop
            | Command::ActiveSensing
            | Command::SystemReset => DataOctets::None,
        }
    }

    /// The octets of the command.
    pub fn spelled(&self) -> Spelled<'_>
        ensures octets { octets_of result ≡ spelling self.now }
        ensures command { IsCommand self.now }
    {
        self.data().with_status(self.status())
    }

    /// Whether no packet holds the command whole, so that it is sent in segments: it is a System Exclusive message of over
    /// 2,046 data octets.
    pub fn is_long(&self) -> bool
        ensures { result ≡ is_long self.now }
    {
        match self {
            Command::Sysex(message) => message.is_long(),
            _ => false,
        }
    }

    /// The number of the command's octets, from 1 to 65,538, and at most 2,048 where it isn't long.
    pub fn size(&self) -> usize
        ensures number { result ≡ length (spelling self.now) }
        ensures least { 1 ≤ result }
        ensures most { result ≤ 65538 }
        ensures whole { is_long self.now ≡ false → result ≤ 2048 }
        ensures command { IsCommand self.now }
    {
        match self.spelled() {
            Spelled::One(_) => 1,
            Spelled::Two(_, _) => 2,
            Spelled::Three(_, _, _) => 3,
            Spelled::Message(octets) => octets.len() + 2,
        }
    }

    /// An equal command, of one that speaks of one note.
    fn copied_note(&self) -> Command
        requires { IsOfNote self.now }
        ensures { result ≡ self.now }
    {
        match *self {
            Command::NoteOff {
                channel,
                note,
                velocity,
            } => Command::NoteOff {
                channel,
                note,
                velocity,
            },
            Command::NoteOn {
                channel,
                note,
                velocity,
            } => Command::NoteOn {
                channel,
                note,
                velocity,
            },
            Command::PolyPressure {
                channel,
                note,
                value,
            } => Command::PolyPressure {
                channel,
                note,
                value,
            },
            _ => unreachable!(),
        }
    }

    /// An equal command, of one that speaks of a whole channel.
    fn copied_channel(&self) -> Command
        requires { IsOfChannel self.now }
        ensures { result ≡ self.now }
    {
        match *self {
            Command::Control {
                channel,
                number,
                value,
            } => Command::Control {
                channel,
                number,
                value,
            },
            Command::Program { channel, program } => Command::Program { channel, program },
            Command::Pressure { channel, value } => Command::Pressure { channel, value },
            Command::Wheel {
                channel,
                first,
                second,
            } => Command::Wheel {
                channel,
                first,
                second,
            },
            _ => unreachable!(),
        }
    }

    /// An equal command.
    pub fn copy(&self, alloc: Global) -> Result<Command, AllocError>
        ensures { IfOk result (λ copied. copied ≡ self.now) }
    {
        Ok(match self {
            Command::NoteOff { .. } | Command::NoteOn { .. } | Command::PolyPressure { .. } => {
                self.copied_note()
            }
            Command::Control { .. }
            | Command::Program { .. }
            | Command::Pressure { .. }
            | Command::Wheel { .. } => self.copied_channel(),
            Command::QuarterFrame { value } => Command::QuarterFrame { value: *value },
            Command::SongPosition { value } => Command::SongPosition { value: *value },
            Command::SongSelect { song } => Command::SongSelect { song: *song },
            Command::TuneRequest => Command::TuneRequest,
            Command::Clock => Command::Clock,
            Command::Start => Command::Start,
            Command::Continue => Command::Continue,
            Command::Stop => Command::Stop,
            Command::ActiveSensing => Command::ActiveSensing,
            Command::SystemReset => Command::SystemReset,
            Command::Sysex(message) => Command::Sysex(message.copy(alloc)?),
        })
    }
}
