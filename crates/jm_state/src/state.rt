//! The state, and what is read of it.

ghost use Rattle.std.specs.Prelude.{◌≡◌, ◌<◌, length};
ghost use Rattle.jm_state.specs.Parts.{no_state, no_channels, song_of, sequencer_of, time_code_of, sysex_count_of, program_of, control_of, toggles_of, selection_of, param_of, wheel_of, note_of, pressure_of, poly_of};

use crate::channel::{ChannelState, ProgramPart};
use crate::entered::Halves;
use crate::slots::{SequencerSlot, TimeSlot};
use jm_cmds::{Channel, D7, Param, Selection, SequencerPart, TimePart};

/// The recoverable state of a session. At first, and behind a Reset State command, all parts are absent.
#[derive(Debug, Drop)]
pub struct State {
    pub(crate) song: Option<D7>,
    pub(crate) sequencer: SequencerSlot,
    pub(crate) time_code: TimeSlot,
    pub(crate) sysex_count: u8,
    pub(crate) channels: [ChannelState; 16],
}

/// The place of a channel among the 16.
pub(crate) fn index_of(channel: Channel) -> usize
    ensures number { result ≡ channel }
    ensures bound { result < 16 }
{
    usize::from(channel.get())
}

/// Sixteen channels of which all parts are absent.
#[tactic(auto, unfolding(crate::specs::Parts::no_channels))]
fn no_channels() -> [ChannelState; 16]
    ensures { result ≡ no_channels }
{
    [
        ChannelState::new(),
        ChannelState::new(),
        ChannelState::new(),
        ChannelState::new(),
        ChannelState::new(),
        ChannelState::new(),
        ChannelState::new(),
        ChannelState::new(),
        ChannelState::new(),
        ChannelState::new(),
        ChannelState::new(),
        ChannelState::new(),
        ChannelState::new(),
        ChannelState::new(),
        ChannelState::new(),
        ChannelState::new(),
    ]
}

/// Equal channels.
fn copied(channels: &[ChannelState; 16]) -> [ChannelState; 16]
    ensures { result ≡ channels.now }
{
    let mut copied = no_channels();
    for i in 0..16usize {
        copied[i] = channels[i].copy();
    }
    copied
}

impl State {
    /// The state as a session begins: all parts are absent.
    pub fn new() -> State
        ensures { result ≡ no_state }
    {
        State {
            song: None,
            sequencer: SequencerSlot::new(),
            time_code: TimeSlot::new(),
            sysex_count: 0,
            channels: no_channels(),
        }
    }

    /// An equal state.
    pub fn copy(&self) -> State
        ensures { result ≡ self.now }
    {
        State {
            song: self.song,
            sequencer: self.sequencer,
            time_code: self.time_code,
            sysex_count: self.sysex_count,
            channels: copied(&self.channels),
        }
    }

    /// The song that was selected last (RFC 6295, B.1).
    pub fn song(&self) -> Option<D7>
        ensures { result ≡ song_of self.now }
    {
        self.song
    }

    /// The song position (RFC 6295, B.3), which is below 2^19.
    pub fn sequencer(&self) -> Option<SequencerPart>
        ensures { result ≡ sequencer_of self.now }
    {
        self.sequencer.get()
    }

    /// The time code (RFC 6295, B.4), whose last type is below 8.
    pub fn time_code(&self) -> Option<TimePart>
        ensures { result ≡ time_code_of self.now }
    {
        self.time_code.get()
    }

    /// How many System Exclusive messages of at most 254 data octets came since the last Reset State command,
    /// modulo 256 (RFC 6295, B.5).
    pub fn sysex_count(&self) -> u8
        ensures { result ≡ sysex_count_of self.now }
    {
        self.sysex_count
    }

    /// The program of a channel (RFC 6295, A.2).
    pub fn program(&self, channel: Channel) -> Option<ProgramPart>
        ensures { result ≡ program_of self.now channel }
    {
        self.channels[index_of(channel)].program
    }

    /// The value of a control (RFC 6295, A.3). 6, 38, 96 to 101, 120, 121 and 123 have no part: they are always `None`. Of
    /// 124 and 125, which are one part, the one that was set last has a value, and so of 126 and 127.
    pub fn control(&self, channel: Channel, number: D7) -> Option<D7>
        ensures { result ≡ control_of self.now channel number }
    {
        self.channels[index_of(channel)].control(number)
    }

    /// How often the sustain pedal of a channel went up or down since the last Reset State command or Control 121 of the
    /// channel, modulo 64: below 64. A pedal that never moved is up, and 64 to 127 of Control 64 is down.
    pub fn toggles(&self, channel: Channel) -> u8
        ensures count { result ≡ toggles_of self.now channel }
        ensures bound { result < 64 }
    {
        self.channels[index_of(channel)].toggles.get()
    }

    /// The halves of a parameter's number that were sent, and the kind of the last of them (RFC 6295, A.3.4). `None`
    /// where none came since the last Reset State command or Control 121 of the channel.
    pub fn selection(&self, channel: Channel) -> Option<Selection>
        ensures { result ≡ selection_of self.now channel }
    {
        self.channels[index_of(channel)].selection
    }

    /// What was entered of a parameter (RFC 6295, A.4), non-registered or registered, with these halves of its number. No
    /// half is there of a parameter that isn't one of the 16 entered last.
    pub fn param(&self, channel: Channel, nrpn: bool, high: D7, low: D7) -> Halves
        ensures { result ≡ param_of self.now channel nrpn high low }
    {
        let param = Param { nrpn, high, low };
        self.channels[index_of(channel)].entered.halves(&param)
    }

    /// The pitch wheel of a channel, its octets as they stand in the command (RFC 6295, A.5).
    pub fn wheel(&self, channel: Channel) -> Option<(D7, D7)>
        ensures { result ≡ wheel_of self.now channel }
    {
        self.channels[index_of(channel)].wheel
    }

    /// The velocity of a note that sounds (RFC 6295, A.6).
    pub fn note(&self, channel: Channel, note: D7) -> Option<D7>
        ensures { result ≡ note_of self.now channel note }
    {
        self.channels[index_of(channel)].notes.get(note)
    }

    /// The pressure on a channel (RFC 6295, A.8).
    pub fn pressure(&self, channel: Channel) -> Option<D7>
        ensures { result ≡ pressure_of self.now channel }
    {
        self.channels[index_of(channel)].pressure
    }

    /// The pressure on one key (RFC 6295, A.9).
    pub fn poly(&self, channel: Channel, note: D7) -> Option<D7>
        ensures { result ≡ poly_of self.now channel note }
    {
        self.channels[index_of(channel)].polys.get(note)
    }
}
