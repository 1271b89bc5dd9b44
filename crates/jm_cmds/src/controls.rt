//! Controllers by what they do, and the commands that drop what came before.

ghost use Rattle.std.specs.Prelude.{◌≡◌};
ghost use Rattle.jm_cmds.specs.Control.{control_kind, control_number, is_entry, is_counted, clears_notes, clears_controllers, is_reset, is_reset_message, ends_notes, ends_controllers};

use crate::commands::Command;
use crate::numbers::{Channel, D7};

/// What a controller does, with its number where the kind has several. Which controllers are counted, and which 121
/// leaves as they are, is this project's own choice (compare RFC 6295, A.3.1 and A.3.2).
#[derive(Clone, Copy, PartialEq, Eq, Debug)]
pub enum ControlKind {
    /// 6 and 38: the high or the low half of the selected parameter's value.
    DataEntry { high: bool },
    /// 98 to 101: a half of the number that selects a parameter, non-registered (98, 99) or registered.
    Selection { nrpn: bool, high: bool },
    /// 96 and 97: the selected parameter's value goes up or down by one. They are counted.
    Increment { number: D7 },
    /// 120 and 123: all sound, or all notes, off. They are counted.
    Silence { number: D7 },
    /// 121: all controllers are set back. It is counted.
    ResetControllers,
    /// 124 to 127: a mode of the channel, which ends all notes. 124 and 125 are one item, and so are 126
    /// and 127.
    Mode { number: D7 },
    /// 0, 32 and 122, which 121 doesn't set back.
    Kept { number: D7 },
    /// 64: the sustain pedal.
    Pedal,
    /// All others.
    Plain { number: D7 },
}

impl ControlKind {
    /// The kind of the controller with this number.
    #[tactic(auto, unfolding(crate::specs::Control::control_kind))]
    pub fn of(number: D7) -> ControlKind
        ensures { result ≡ control_kind number }
    {
        match number.get() {
            6 => ControlKind::DataEntry { high: true },
            38 => ControlKind::DataEntry { high: false },
            96 | 97 => ControlKind::Increment { number },
            98 => ControlKind::Selection {
                nrpn: true,
                high: false,
            },
            99 => ControlKind::Selection {
                nrpn: true,
                high: true,
            },
            100 => ControlKind::Selection {
                nrpn: false,
                high: false,
            },
            101 => ControlKind::Selection {
                nrpn: false,
                high: true,
            },
            120 | 123 => ControlKind::Silence { number },
            121 => ControlKind::ResetControllers,
            124.. => ControlKind::Mode { number },
            0 | 32 | 122 => ControlKind::Kept { number },
            64 => ControlKind::Pedal,
            _ => ControlKind::Plain { number },
        }
    }

    /// Whether it ends all notes of its channel.
    pub fn clears_notes(&self) -> bool
        ensures { result ≡ clears_notes self.now }
    {
        matches!(self, ControlKind::Silence { .. } | ControlKind::Mode { .. })
    }

    /// Whether it sets back the controllers of its channel.
    pub fn clears_controllers(&self) -> bool
        ensures { result ≡ clears_controllers self.now }
    {
        matches!(self, ControlKind::ResetControllers)
    }
}

/// Whether the controller with this number, 6 or 38, sets a half of the selected parameter's value. That Chapter M speaks
/// of it and Chapter C never does is this project's own rule: in RFC 6295, A.3.4, Chapter C codes it where no parameter is
/// selected.
#[tactic(auto, unfolding(crate::specs::Control::is_entry))]
pub fn is_entry(number: D7) -> bool
    ensures { result ≡ is_entry number }
{
    matches!(number.get(), 6 | 38)
}

/// Whether the commands of the controller with this number, 96, 97, 120, 121 or 123, are counted: each of them acts by
/// itself, whatever its value is. To tell how many of them came, and not their value, is this project's own choice.
#[tactic(auto, unfolding(crate::specs::Control::is_counted))]
pub fn is_counted(number: D7) -> bool
    ensures { result ≡ is_counted number }
{
    matches!(number.get(), 96 | 97 | 120 | 121 | 123)
}

/// Whether these data octets are a message that turns General MIDI on, which is a Reset State command: 7E, any device,
/// 09, and 01 or 03.
pub fn is_reset_message(octets: &[u8]) -> bool
    ensures { result ≡ is_reset_message octets.now }
{
    match octets {
        [a, _device, b, c] => *a == 0x7e && *b == 9 && (*c == 1 || *c == 3),
        _ => false,
    }
}

impl Command {
    /// Whether this is a Reset State command, which drops all that came before: a System Reset, or a
    /// System Exclusive message that turns General MIDI on (7E, any device, 09, and 01 or 03). RFC 6295,
    /// A.1, names three more messages, which this host takes as plain ones.
    pub fn is_reset(&self) -> bool
        ensures { result ≡ is_reset self.now }
    {
        match self {
            Command::SystemReset => true,
            Command::Sysex(message) => is_reset_message(message.as_slice()),
            _ => false,
        }
    }

    /// Whether earlier commands of this channel are no longer N-active behind this one (RFC 6295, A.1):
    /// it is a Reset State command, or Control 120 or 123 to 127 of the channel.
    pub fn ends_notes(&self, channel: Channel) -> bool
        ensures { result ≡ ends_notes channel self.now }
    {
        match self {
            Command::Control {
                channel: at,
                number,
                ..
            } => { *at == channel && ControlKind::of(*number).clears_notes() }
            _ => self.is_reset(),
        }
    }

    /// Whether earlier commands of this channel are no longer C-active behind this one (RFC 6295, A.1):
    /// it is a Reset State command, or Control 121 of the channel.
    pub fn ends_controllers(&self, channel: Channel) -> bool
        ensures { result ≡ ends_controllers channel self.now }
    {
        match self {
            Command::Control {
                channel: at,
                number,
                ..
            } => { *at == channel && ControlKind::of(*number).clears_controllers() }
            _ => self.is_reset(),
        }
    }
}
