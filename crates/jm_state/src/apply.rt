//! What each command does to a state.

ghost use Rattle.std.specs.Prelude.{◌≡◌};
ghost use Rattle.jm_state.specs.Parts.{no_state};
ghost use Rattle.jm_state.specs.Apply.{applied, sounding, message_counted, run_on};

use crate::state::{State, index_of};
use jm_cmds::{Command, D7, Sysex, frame_event, sequencer_event};

/// How a note sounds that is struck with this velocity: with velocity 0 it is released (RFC 6295, A.6).
fn sounding(velocity: D7) -> Option<D7>
    ensures { result ≡ sounding velocity }
{
    if velocity.get() == 0 {
        return None;
    }
    Some(velocity)
}

impl State {
    /// A System Exclusive message that is no Reset State command: it is counted where it is kept for repair.
    fn count(&mut self, message: &Sysex)
        ensures { self.new ≡ message_counted self.old message.now }
    {
        if message.is_kept() {
            self.sysex_count = self.sysex_count.wrapping_add(1);
        }
    }

    /// Applies a command:
    /// - a Reset State command makes all parts absent;
    /// - NoteOn lets its note sound, or ends it where the velocity is 0, and NoteOff ends it;
    /// - Program sets the program, with the bank of Controls 0 and 32 where Control 0 is there;
    /// - Control 121 drops the controls but 0, 32, 122 and 124 to 127, and the toggles, the selection, the wheel, the
    ///   pressure and the pressures on keys;
    /// - Control 120, 123 and 124 to 127 drop the notes and the pressure, and 124 to 127 set their control as well;
    /// - Control 64 sets its control, and counts among the toggles where the pedal goes up or down by it;
    /// - Controls 6 and 38 enter a half of the selected parameter, and 98 to 101 set a half of the selection;
    /// - another System Exclusive message of at most 254 data octets is counted;
    /// - Controls 96 and 97, TuneRequest, ActiveSensing and longer messages change nothing;
    /// - each other command sets its part.
    pub fn apply(&mut self, c: &Command)
        ensures { self.new ≡ applied self.old c.now }
    {
        if c.is_reset() {
            *self = State::new();
            return;
        }
        match c {
            Command::NoteOff { channel, note, .. } => self.set_note(*channel, *note, None),
            Command::NoteOn {
                channel,
                note,
                velocity,
            } => self.set_note(*channel, *note, sounding(*velocity)),
            Command::PolyPressure {
                channel,
                note,
                value,
            } => self.set_poly(*channel, *note, Some(*value)),
            Command::Control {
                channel,
                number,
                value,
            } => self.channels[index_of(*channel)].take_control(*number, *value),
            Command::Program { channel, program } => self.channels[index_of(*channel)].choose(
                *program,
            ),
            Command::Pressure { channel, value } => self.set_pressure(*channel, Some(*value)),
            Command::Wheel {
                channel,
                first,
                second,
            } => self.set_wheel(*channel, Some((*first, *second))),
            Command::SongSelect { song } => self.set_song(Some(*song)),
            Command::Sysex(message) => self.count(message),
            _ => self.run(c),
        }
    }

    /// Applies a command that moves the song or the time code.
    fn run(&mut self, c: &Command)
        ensures { self.new ≡ run_on self.old c.now }
    {
        self.sequencer.step(sequencer_event(c));
        self.time_code.step(frame_event(c));
    }
}
