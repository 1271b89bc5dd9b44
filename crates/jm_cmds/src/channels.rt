//! The channel of a command, and what tables keep beside it.

ghost use Rattle.std.specs.Prelude.{◌≡◌, ◌+◌, ◌==◌};
ghost use Rattle.jm_cmds.specs.Channels.{own_channel};

use crate::commands::Command;
use crate::numbers::Channel;

impl Command {
    /// The channel of a channel command. A system command has none, and what it means is the same for each
    /// channel: it gives channel 0.
    pub fn own_channel(&self) -> Channel
        ensures { result ≡ own_channel self.now }
    {
        match self {
            Command::NoteOff { channel, .. }
            | Command::NoteOn { channel, .. }
            | Command::PolyPressure { channel, .. }
            | Command::Control { channel, .. }
            | Command::Program { channel, .. }
            | Command::Pressure { channel, .. }
            | Command::Wheel { channel, .. } => *channel,
            Command::QuarterFrame { .. }
            | Command::SongPosition { .. }
            | Command::SongSelect { .. }
            | Command::TuneRequest
            | Command::Clock
            | Command::Start
            | Command::Continue
            | Command::Stop
            | Command::ActiveSensing
            | Command::SystemReset
            | Command::Sysex { .. } => Channel::low(0),
        }
    }
}

/// Whether what went out in packet `sent_in` went out in the packet before `packet`.
pub fn is_packet_before(sent_in: u64, packet: u64) -> bool
    ensures { result ≡ (sent_in + 1 == packet) }
{
    packet >= 1 && sent_in == packet - 1
}
