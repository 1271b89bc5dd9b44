//! Which command fits.

ghost use Rattle.std.specs.Prelude.{◌≡◌};
ghost use Rattle.jm_cmds.specs.History.{InOrder};
ghost use Rattle.jm_cmds.specs.Sent.{packet_of};
ghost use Rattle.jm_cmds.specs.Control.{is_reset_message};
ghost use Rattle.ch_param.specs.ChapterM.{selected};
ghost use Rattle.jm_journal.specs.Limits.{entry_fit, control_fit, poly_fit, sysex_fit, fit_of, told};

use ch_notes::a;
use ch_param::m;
use ch_sysex::x;
use jm_cmds::{Channel, Command, D7, Sent, Sysex, is_entry};

/// How many parameters of a channel Chapter M codes.
const MOST_PARAMS: usize = 16;

/// How many notes of a channel Chapter A codes.
const MOST_NOTES: usize = 64;

/// How many logs Chapter X has.
const MOST_LOGS: usize = 128;

/// How many octets Chapter X has.
const MOST_OCTETS: usize = 1000;

/// Whether a command can be sent and repaired behind others.
#[derive(Clone, Copy, PartialEq, Eq, Debug)]
pub enum Fit {
    /// It can.
    Yes,
    /// It sets the selected parameter of this channel, and Chapter M codes `kept` other ones already.
    ParamsFull { channel: Channel, kept: usize },
    /// It is a pressure of a note of this channel, and Chapter A codes `kept` other notes already.
    PolyFull { channel: Channel, kept: usize },
    /// It is a SysEx, and Chapter X has so many logs and octets that this one's log passes its limits.
    SysexFull { logs: usize, octets: usize },
}

/// Whether a value of the channel's selected parameter fits.
fn entry_fit(list: &[Sent], channel: Channel, checkpoint: u64) -> Fit
    requires { InOrder packet_of list.now }
    ensures { result ≡ entry_fit channel checkpoint list.now (selected channel list.now) }
{
    let Some((nrpn, high, low)) = m::plain_selected(list, channel) else {
        return Fit::Yes;
    };
    let kept = m::plain_params(list, channel, checkpoint);
    if kept < MOST_PARAMS || m::plain_has_param(list, channel, checkpoint, nrpn, high, low) {
        return Fit::Yes;
    }
    Fit::ParamsFull { channel, kept }
}

/// Whether a pressure of a note of the channel fits.
fn poly_fit(list: &[Sent], channel: Channel, checkpoint: u64, note: D7) -> Fit
    requires { InOrder packet_of list.now }
    ensures { result ≡ poly_fit channel note checkpoint list.now }
{
    let kept = a::plain_notes(list, channel, checkpoint);
    if kept < MOST_NOTES || a::plain_has_note(list, channel, checkpoint, note) {
        return Fit::Yes;
    }
    Fit::PolyFull { channel, kept }
}

/// Whether a SysEx fits.
fn sysex_fit(list: &[Sent], checkpoint: u64, message: &Sysex, is_reset: bool) -> Fit
    requires order { InOrder packet_of list.now }
    requires reset { is_reset ≡ is_reset_message message.now }
    ensures { result ≡ told (sysex_fit message.now checkpoint list.now) }
{
    if !message.is_kept() || is_reset {
        return Fit::Yes;
    }
    let (logs, octets) = x::plain_room(list, checkpoint);
    if logs < MOST_LOGS && octets.saturating_add(2 + message.len()) <= MOST_OCTETS {
        return Fit::Yes;
    }
    Fit::SysexFull { logs, octets }
}

/// Whether this command fits behind those of the list, were they all sent, for a journal with this
/// checkpoint: what is coded then keeps the limits of 16 parameters and 64 notes' pressures in a channel, and of
/// 128 SysEx in 1,000 octets. A command that drops or renews what is coded fits always.
///
/// The list may be any in order. Octets of Chapter X past 64 bits, which no machine's memory holds, are told
/// as 2^64 - 1; within 64 bits the answer is `fit_of` as it is (`laws::keeps_what_fits`).
#[tactic(auto, unfolding(crate::specs::Limits::fit_of))]
pub fn plain_fits(list: &[Sent], checkpoint: u64, c: &Command) -> Fit
    requires { InOrder packet_of list.now }
    ensures { result ≡ told (fit_of checkpoint list.now c.now) }
{
    match c {
        Command::Control {
            channel,
            number,
            ..
        } => {
            if is_entry(*number) {
                return entry_fit(list, *channel, checkpoint);
            }
            Fit::Yes
        }
        Command::PolyPressure { channel, note, .. } => poly_fit(list, *channel, checkpoint, *note),
        Command::Sysex(message) => sysex_fit(list, checkpoint, message, c.is_reset()),
        _ => Fit::Yes,
    }
}
