//! The sustain pedal, and how often the commands of a session moved it.

ghost use Rattle.std.specs.Prelude.{◌≡◌};
ghost use Rattle.jm_cmds.specs.Pedal.{pedal_event, pedal_step, pedal_after, no_pedal, IsPedal, is_on};

use crate::commands::Command;
use crate::controls::ControlKind;
use crate::history::{Sent, first_place};
use crate::numbers::Channel;

/// What a command means for the sustain pedal of one channel.
#[derive(Clone, Copy, PartialEq, Eq, Debug)]
pub enum PedalEvent {
    /// Control 64 of the channel: the pedal is down with a value of 64 to 127, and up with 0 to 63.
    Moved { on: bool },
    /// A Reset State command, or Control 121 of the channel: the pedal is up, and was never moved.
    Released,
    /// Nothing.
    Other,
}

/// The sustain pedal of one channel, as the commands since the last Reset State command or Control 121 of the channel
/// leave it.
#[derive(Clone, Copy, PartialEq, Eq, Debug)]
pub struct Pedal {
    /// It is down.
    pub on: bool,
    /// How often a Control 64 changed it between up and down, modulo 64. It begins up.
    pub toggles: u8,
}

/// What this command means for the sustain pedal of this channel.
pub fn pedal_event(command: &Command, channel: Channel) -> PedalEvent
    ensures { result ≡ pedal_event channel command.now }
{
    match command {
        Command::Control {
            channel: at,
            number,
            value,
        } if *at == channel => match ControlKind::of(*number) {
            ControlKind::Pedal => PedalEvent::Moved {
                on: value.get() >= 64,
            },
            ControlKind::ResetControllers => PedalEvent::Released,
            _ => PedalEvent::Other,
        },
        _ => {
            if command.is_reset() {
                return PedalEvent::Released;
            }
            PedalEvent::Other
        }
    }
}

impl Pedal {
    /// A pedal that was never moved, as a session begins.
    pub fn none() -> Pedal
        ensures state { result ≡ no_pedal }
        ensures bound { IsPedal result }
    {
        Pedal {
            on: false,
            toggles: 0,
        }
    }
}

/// The pedal behind this event.
pub fn pedal_step(state: Pedal, event: PedalEvent) -> Pedal
    requires { IsPedal state }
    ensures state { result ≡ pedal_step state event }
    ensures bound { IsPedal result }
{
    match event {
        PedalEvent::Moved { on } => {
            if on == state.on {
                return state;
            }
            Pedal {
                on,
                toggles: (state.toggles + 1) % 64,
            }
        }
        PedalEvent::Released => Pedal::none(),
        PedalEvent::Other => state,
    }
}

/// The sustain pedal of this channel behind these commands.
#[tactic(auto, unfolding(crate::specs::Pedal::pedal_after))]
pub fn pedal_after(session: &[Sent], channel: Channel) -> Pedal
    ensures state { result ≡ pedal_after channel session.now }
    ensures bound { IsPedal result }
{
    let mut state = Pedal::none();
    let mut rest = session;
    while let Some((place, later)) = first_place(rest) {
        state = pedal_step(state, pedal_event(&place.command, channel));
        rest = later;
    }
    state
}
