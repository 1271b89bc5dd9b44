//! What a command means for Chapter X.

ghost use Rattle.std.specs.Prelude.{◌≡◌, ◌≤◌, length};
ghost use Rattle.jm_cmds.specs.Data.{IsSysex};
ghost use Rattle.ch_sysex.specs.SysexEvent.{sysex_event, is_logged, data_of};

use jm_cmds::Command;

/// What a command means for Chapter X.
#[derive(Clone, Copy, PartialEq, Eq, Debug)]
pub enum SysexEvent {
    /// A System Exclusive message short enough to be kept (`LONGEST_KEPT` of jm_cmds) that is no Reset State command. It is
    /// counted.
    Kept,
    /// A System Exclusive message that is a Reset State command.
    ResetMessage,
    /// Another Reset State command.
    Reset,
    /// Nothing.
    Other,
}

/// What this command means for Chapter X.
pub fn sysex_event(command: &Command) -> SysexEvent
    ensures { result ≡ sysex_event command.now }
{
    match command {
        Command::SystemReset => SysexEvent::Reset,
        Command::Sysex(message) => {
            if command.is_reset() {
                return SysexEvent::ResetMessage;
            }
            if message.is_kept() {
                return SysexEvent::Kept;
            }
            SysexEvent::Other
        }
        _ => SysexEvent::Other,
    }
}

/// Whether this has a log.
pub(crate) fn is_logged(event: SysexEvent) -> bool
    ensures { result ≡ is_logged event }
{
    matches!(event, SysexEvent::Kept | SysexEvent::ResetMessage)
}

/// The data octets of a System Exclusive message, none of another command.
pub(crate) fn data_of(command: &Command) -> &[u8]
    ensures octets { result.now ≡ data_of command.now }
    ensures data { IsSysex result.now }
{
    match command {
        Command::Sysex(message) => message.as_slice(),
        _ => &[],
    }
}
