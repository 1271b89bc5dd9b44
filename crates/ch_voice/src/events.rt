//! What a command means for the program, the pitch wheel and the pressure of one channel.

ghost use Rattle.std.specs.Prelude.{◌≡◌};
ghost use Rattle.ch_voice.specs.WheelEvent.{wheel_event};
ghost use Rattle.ch_voice.specs.PressureEvent.{pressure_event};
ghost use Rattle.ch_voice.specs.ProgramEvent.{program_event, bank_event};

use jm_cmds::{Channel, Command, D7};

/// What a command means for the pitch wheel of one channel.
#[derive(Clone, Copy, PartialEq, Eq, Debug)]
pub enum WheelEvent {
    /// The wheel is moved; its octets as they stand.
    Moved { first: D7, second: D7 },
    /// Earlier wheel commands of the channel are no longer C-active.
    Cleared,
    /// Nothing.
    Other,
}

/// What a command means for the pressure of one channel.
#[derive(Clone, Copy, PartialEq, Eq, Debug)]
pub enum PressureEvent {
    /// The pressure on the channel.
    Pressed { value: D7 },
    /// Earlier pressure commands of the channel are no longer N-active or no longer C-active.
    Cleared,
    /// Nothing.
    Other,
}

/// What a command means for the program of one channel.
#[derive(Clone, Copy, PartialEq, Eq, Debug)]
pub enum ProgramEvent {
    /// A program is chosen.
    Chosen { program: D7 },
    /// Control 0: the high half of the bank.
    BankHigh { value: D7 },
    /// Control 32: the low half of the bank.
    BankLow { value: D7 },
    /// Control 121.
    SetBack,
    /// A Reset State command.
    Reset,
    /// Nothing.
    Other,
}

/// What this command means for the pitch wheel of this channel (RFC 6295, A.1 and A.5).
pub fn wheel_event(command: &Command, channel: Channel) -> WheelEvent
    ensures { result ≡ wheel_event channel command.now }
{
    match command {
        Command::Wheel {
            channel: at,
            first,
            second,
        } if *at == channel => {
            WheelEvent::Moved {
                first: *first,
                second: *second,
            }
        }
        _ => {
            if command.ends_controllers(channel) {
                return WheelEvent::Cleared;
            }
            WheelEvent::Other
        }
    }
}

/// What this command means for the pressure of this channel (RFC 6295, A.1 and A.8).
pub fn pressure_event(command: &Command, channel: Channel) -> PressureEvent
    ensures { result ≡ pressure_event channel command.now }
{
    match command {
        Command::Pressure { channel: at, value } if *at == channel => {
            PressureEvent::Pressed { value: *value }
        }
        _ => {
            if command.ends_notes(channel) || command.ends_controllers(channel) {
                return PressureEvent::Cleared;
            }
            PressureEvent::Other
        }
    }
}

/// What a controller of the channel means for its program and bank.
fn bank_event(number: D7, value: D7) -> ProgramEvent
    ensures { result ≡ bank_event number value }
{
    match number.get() {
        0 => ProgramEvent::BankHigh { value },
        32 => ProgramEvent::BankLow { value },
        121 => ProgramEvent::SetBack,
        _ => ProgramEvent::Other,
    }
}

/// What this command means for the program of this channel (RFC 6295, A.1 and A.2).
pub fn program_event(command: &Command, channel: Channel) -> ProgramEvent
    ensures { result ≡ program_event channel command.now }
{
    match command {
        Command::Program {
            channel: at,
            program,
        } if *at == channel => ProgramEvent::Chosen { program: *program },
        Command::Control {
            channel: at,
            number,
            value,
        } if *at == channel => bank_event(*number, *value),
        _ => {
            if command.is_reset() {
                return ProgramEvent::Reset;
            }
            ProgramEvent::Other
        }
    }
}
