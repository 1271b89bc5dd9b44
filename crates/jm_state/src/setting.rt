//! Setting the parts of a state one at a time. Each call changes its own part alone, but for the order of a
//! channel's parameters.

ghost use Rattle.std.specs.Prelude.{◌≡◌, ◌<◌};
ghost use Rattle.jm_cmds.specs.Sequencing.{IsSequencer};
ghost use Rattle.jm_cmds.specs.Frames.{IsTimeCode};
ghost use Rattle.jm_state.specs.Parts.{with_song, with_sequencer, with_time_code, with_sysex_count, with_program, with_control, with_toggles, with_selection, with_param_high, with_param_low, with_wheel, with_note, with_pressure, with_poly};

use crate::channel::ProgramPart;
use crate::state::{State, index_of};
use jm_cmds::{Channel, D7, Param, Selection, SequencerPart, TimePart};

impl State {
    /// Sets the song, or makes it absent.
    pub fn set_song(&mut self, v: Option<D7>)
        ensures { self.new ≡ with_song self.old v }
    {
        self.song = v;
    }

    /// Sets the song position, or makes it absent. The position is below 2^19.
    pub fn set_sequencer(&mut self, v: Option<SequencerPart>)
        requires { IsSequencer v }
        ensures { self.new ≡ with_sequencer self.old v }
    {
        self.sequencer.set(v);
    }

    /// Sets the time code, or makes it absent. The last type is below 8.
    pub fn set_time_code(&mut self, v: Option<TimePart>)
        requires { IsTimeCode v }
        ensures { self.new ≡ with_time_code self.old v }
    {
        self.time_code.set(v);
    }

    /// Sets the number of System Exclusive messages. 0 is none.
    pub fn set_sysex_count(&mut self, v: u8)
        ensures { self.new ≡ with_sysex_count self.old v }
    {
        self.sysex_count = v;
    }

    /// Sets the program of a channel, or makes it absent.
    pub fn set_program(&mut self, channel: Channel, v: Option<ProgramPart>)
        ensures { self.new ≡ with_program self.old channel v }
    {
        self.channels[index_of(channel)].program = v;
    }

    /// Sets the value of a control, or makes it absent. 124 and 125 are one part, and so are 126 and 127: setting one
    /// takes the place of the other, and `None` for either makes both absent. 6, 38, 96 to 101, 120, 121 and 123 have
    /// no part, so that setting them changes nothing.
    pub fn set_control(&mut self, channel: Channel, number: D7, v: Option<D7>)
        ensures { self.new ≡ with_control self.old channel number v }
    {
        self.channels[index_of(channel)].set_control(number, v);
    }

    /// Sets how often the sustain pedal of a channel went up or down. 0 is never.
    pub fn set_toggles(&mut self, channel: Channel, v: u8)
        requires { v < 64 }
        ensures { self.new ≡ with_toggles self.old channel v }
    {
        self.channels[index_of(channel)].toggles.set(v);
    }

    /// Sets the selection of a channel, or makes it absent.
    pub fn set_selection(&mut self, channel: Channel, v: Option<Selection>)
        ensures { self.new ≡ with_selection self.old channel v }
    {
        self.channels[index_of(channel)].selection = v;
    }

    /// Sets the high half of a parameter's value, as Control 6 does, or makes it absent. With a value the parameter counts as
    /// entered last in its channel, and a seventeenth pushes out the one entered longest ago. `None` leaves the order of those
    /// that are still there.
    pub fn set_param_high(&mut self, channel: Channel, nrpn: bool, high: D7, low: D7, v: Option<D7>)
        ensures { self.new ≡ with_param_high self.old channel nrpn high low v }
    {
        let param = Param { nrpn, high, low };
        self.channels[index_of(channel)]
            .entered
            .set_half(true, &param, v);
    }

    /// Sets the low half of a parameter's value, as Control 38 does, in the way of `set_param_high`.
    pub fn set_param_low(&mut self, channel: Channel, nrpn: bool, high: D7, low: D7, v: Option<D7>)
        ensures { self.new ≡ with_param_low self.old channel nrpn high low v }
    {
        let param = Param { nrpn, high, low };
        self.channels[index_of(channel)]
            .entered
            .set_half(false, &param, v);
    }

    /// Sets the pitch wheel of a channel, or makes it absent.
    pub fn set_wheel(&mut self, channel: Channel, v: Option<(D7, D7)>)
        ensures { self.new ≡ with_wheel self.old channel v }
    {
        self.channels[index_of(channel)].wheel = v;
    }

    /// Lets a note sound with this velocity, or not at all.
    pub fn set_note(&mut self, channel: Channel, note: D7, v: Option<D7>)
        ensures { self.new ≡ with_note self.old channel note v }
    {
        self.channels[index_of(channel)].notes.set(note, v);
    }

    /// Sets the pressure on a channel, or makes it absent.
    pub fn set_pressure(&mut self, channel: Channel, v: Option<D7>)
        ensures { self.new ≡ with_pressure self.old channel v }
    {
        self.channels[index_of(channel)].pressure = v;
    }

    /// Sets the pressure on one key, or makes it absent.
    pub fn set_poly(&mut self, channel: Channel, note: D7, v: Option<D7>)
        ensures { self.new ≡ with_poly self.old channel note v }
    {
        self.channels[index_of(channel)].polys.set(note, v);
    }
}
