//! What a command means for the pressures on the keys of one channel.

ghost use Rattle.std.specs.Prelude.{◌≡◌};
ghost use Rattle.ch_notes.specs.PolyEvent.{poly_event, IsWithin, pressed_note, poly_event_ends, poly_ends};

use jm_chapter::Items;
use jm_cmds::{Channel, Command, D7, Sent};

/// What a command means for the pressures on the keys of one channel.
#[derive(Clone, Copy, PartialEq, Eq, Debug)]
pub enum PolyEvent {
    /// A key is pressed.
    Pressed { note: D7, value: D7 },
    /// All pressures are dropped.
    Dropped,
    /// Nothing.
    Other,
}

/// What this command means for the pressures on the keys of this channel.
pub fn poly_event(command: &Command, channel: Channel) -> PolyEvent
    ensures event { result ≡ poly_event channel command.now }
    ensures within { IsWithin result }
{
    match command {
        Command::PolyPressure {
            channel: at,
            note,
            value,
        } if *at == channel => {
            // For the prover, which learns its range by this.
            let _note = note.get();
            PolyEvent::Pressed {
                note: *note,
                value: *value,
            }
        }
        _ => {
            if command.ends_controllers(channel) {
                return PolyEvent::Dropped;
            }
            PolyEvent::Other
        }
    }
}

/// The note on whose key this command is a pressure of this channel, or `None` where it is none.
pub fn pressed_note(command: &Command, channel: Channel) -> Option<D7>
    ensures { result ≡ pressed_note (poly_event channel command.now) }
{
    match poly_event(command, channel) {
        PolyEvent::Pressed { note, .. } => Some(note),
        PolyEvent::Dropped | PolyEvent::Other => None,
    }
}

/// Whether the later event takes the place of the earlier one, or makes it inactive.
fn poly_event_ends(earlier: &PolyEvent, later: &PolyEvent) -> bool
    ensures { result ≡ poly_event_ends earlier.now later.now }
{
    let note = match earlier {
        PolyEvent::Pressed { note, .. } => note,
        PolyEvent::Dropped | PolyEvent::Other => return false,
    };
    match later {
        PolyEvent::Pressed { note: other, .. } => note == other,
        PolyEvent::Dropped => true,
        PolyEvent::Other => false,
    }
}

/// The pressures on the keys of a channel, as items: the last one on each note that is C-active stands.
#[derive(Clone, Copy)]
pub(crate) struct Presses {
    pub(crate) channel: Channel,
}

impl Items for Presses {
    ghost ends = { λ s. poly_ends s.channel };

    fn is_ended(&self, place: &Sent, later: &Sent) -> bool {
        let event = poly_event(&place.command, self.channel);
        poly_event_ends(&event, &poly_event(&later.command, self.channel))
    }
}
