//! What a command means for the notes of one channel.

ghost use Rattle.std.specs.Prelude.{◌≡◌};
ghost use Rattle.ch_notes.specs.NoteEvent.{note_event, IsWithin, event_ends, note_ends};

use jm_chapter::Items;
use jm_cmds::{Channel, Command, D7, Sent};

/// What a command means for the notes of one channel.
#[derive(Clone, Copy, PartialEq, Eq, Debug)]
pub enum NoteEvent {
    /// A note is struck. The velocity isn't 0.
    Struck { note: D7, velocity: D7 },
    /// A note is released.
    Released { note: D7, velocity: D7 },
    /// All notes of the channel end.
    Cleared,
    /// Nothing.
    Other,
}

/// What this command means for the notes of this channel. A `NoteOn` of velocity 0 releases its note with
/// velocity 64 (RFC 6295, A.6).
pub fn note_event(command: &Command, channel: Channel) -> NoteEvent
    ensures event { result ≡ note_event channel command.now }
    ensures within { IsWithin result }
{
    match command {
        Command::NoteOn {
            channel: at,
            note,
            velocity,
        } if *at == channel => {
            let (note, velocity) = (*note, *velocity);
            // For the prover, which learns its range by this.
            let _note = note.get();
            if velocity.get() == 0 {
                let velocity = D7::low(64);
                return NoteEvent::Released { note, velocity };
            }
            NoteEvent::Struck { note, velocity }
        }
        Command::NoteOff {
            channel: at,
            note,
            velocity,
        } if *at == channel => {
            // For the prover, which learns its range by this.
            let _note = note.get();
            NoteEvent::Released {
                note: *note,
                velocity: *velocity,
            }
        }
        _ => {
            if command.ends_notes(channel) {
                return NoteEvent::Cleared;
            }
            NoteEvent::Other
        }
    }
}

/// Whether the later event takes the place of the earlier one, or makes it inactive.
fn event_ends(earlier: &NoteEvent, later: &NoteEvent) -> bool
    ensures { result ≡ event_ends earlier.now later.now }
{
    let note = match earlier {
        NoteEvent::Struck { note, .. } | NoteEvent::Released { note, .. } => note,
        NoteEvent::Cleared | NoteEvent::Other => return false,
    };
    match later {
        NoteEvent::Struck { note: other, .. } => note == other,
        NoteEvent::Released { note: other, .. } => note == other,
        NoteEvent::Cleared => true,
        NoteEvent::Other => false,
    }
}

/// The notes of a channel, as items: the last command of each note that is N-active stands.
#[derive(Clone, Copy)]
pub(crate) struct Notes {
    pub(crate) channel: Channel,
}

impl Items for Notes {
    ghost ends = { λ s. note_ends s.channel };

    fn is_ended(&self, place: &Sent, later: &Sent) -> bool {
        let event = note_event(&place.command, self.channel);
        event_ends(&event, &note_event(&later.command, self.channel))
    }
}
