//! The lines of a receiver's state.

ghost use Rattle.std.specs.Prelude.{◌≡◌, ◌++◌, OnOk, option_map};
ghost use Rattle.jm_state.specs.Parts.{song_of, sequencer_of, time_code_of, sysex_count_of, program_of, control_of, toggles_of, selection_of, param_of, wheel_of, note_of, pressure_of, poly_of};
ghost use Rattle.jm_script.specs.declared.answer.StatePart.TheVariants.{Song, Sequencer, Time, Sysex, Program, Pedal, Select, Pressure};
ghost use Rattle.midi_host.specs.StateLines.{part_line, counted_part, wheel_part, halves_part, numbered_part, numbered_lines, params_lines, before_params, behind_params, channel_lines, session_lines, state_lines};

use super::answers::Answers;
use jm_cmds::{Channel, D7};
use jm_script::{AnswerLine, StatePart};
use jm_state::{Halves, State};
use std::alloc::AllocError;

/// The parts of a channel that have a number of seven bits.
#[derive(Clone, Copy, Debug)]
pub enum Numbered {
    Controls,
    /// The parameters of this kind and high half, by their low halves.
    Params { nrpn: bool, high: D7 },
    Notes,
    Polys,
}

/// A part, if its count isn't 0.
fn counted_part(count: u8, part: StatePart) -> Option<StatePart>
    ensures { result ≡ counted_part count part }
{
    if count == 0 {
        return None;
    }
    Some(part)
}

fn song_part(state: &State) -> Option<StatePart>
    ensures { result ≡ option_map Song (song_of state.now) }
{
    match state.song() {
        None => None,
        Some(song) => Some(StatePart::Song(song)),
    }
}

fn sequencer_part(state: &State) -> Option<StatePart>
    ensures { result ≡ option_map Sequencer (sequencer_of state.now) }
{
    match state.sequencer() {
        None => None,
        Some(part) => Some(StatePart::Sequencer(part)),
    }
}

fn time_part(state: &State) -> Option<StatePart>
    ensures { result ≡ option_map Time (time_code_of state.now) }
{
    match state.time_code() {
        None => None,
        Some(part) => Some(StatePart::Time(part)),
    }
}

fn program_part(state: &State, channel: Channel) -> Option<StatePart>
    ensures { result ≡ option_map (Program channel) (program_of state.now channel) }
{
    match state.program(channel) {
        None => None,
        Some(part) => Some(StatePart::Program { channel, part }),
    }
}

fn select_part(state: &State, channel: Channel) -> Option<StatePart>
    ensures { result ≡ option_map (Select channel) (selection_of state.now channel) }
{
    match state.selection(channel) {
        None => None,
        Some(part) => Some(StatePart::Select { channel, part }),
    }
}

fn wheel_part(state: &State, channel: Channel) -> Option<StatePart>
    ensures { result ≡ wheel_part channel (wheel_of state.now channel) }
{
    match state.wheel(channel) {
        None => None,
        Some((first, second)) => Some(StatePart::Wheel {
            channel,
            first,
            second,
        }),
    }
}

fn pressure_part(state: &State, channel: Channel) -> Option<StatePart>
    ensures { result ≡ option_map (Pressure channel) (pressure_of state.now channel) }
{
    match state.pressure(channel) {
        None => None,
        Some(value) => Some(StatePart::Pressure { channel, value }),
    }
}

/// What was entered for a parameter, if a half was.
fn halves_part(channel: Channel, nrpn: bool, high: D7, low: D7, halves: Halves) -> Option<StatePart>
    ensures { result ≡ halves_part channel nrpn high low halves }
{
    if halves.entry_high.is_none() && halves.entry_low.is_none() {
        return None;
    }
    Some(StatePart::Param {
        channel,
        nrpn,
        high,
        low,
        halves,
    })
}

/// The part of this kind and channel that has this number.
fn numbered_part(state: &State, channel: Channel, kind: &Numbered, number: D7) -> Option<StatePart>
    ensures { result ≡ numbered_part state.now channel kind.now number }
{
    match *kind {
        Numbered::Controls => match state.control(channel, number) {
            None => None,
            Some(value) => Some(StatePart::Control {
                channel,
                number,
                value,
            }),
        },
        Numbered::Params { nrpn, high } => halves_part(
            channel,
            nrpn,
            high,
            number,
            state.param(channel, nrpn, high, number),
        ),
        Numbered::Notes => match state.note(channel, number) {
            None => None,
            Some(velocity) => Some(StatePart::Note {
                channel,
                note: number,
                velocity,
            }),
        },
        Numbered::Polys => match state.poly(channel, number) {
            None => None,
            Some(value) => Some(StatePart::Poly {
                channel,
                note: number,
                value,
            }),
        },
    }
}

impl Answers {
    /// Adds the line of a part, if it is there.
    fn add_part(&mut self, part: Option<StatePart>) -> Result<(), AllocError>
        ensures { OnOk result (self.new ≡ self.old ++ part_line part) }
    {
        match part {
            None => Ok(()),
            Some(part) => {
                self.add(&AnswerLine::Part(part))?;
                Ok(())
            }
        }
    }

    /// Adds the lines of the parts of this kind, by their numbers.
    #[tactic(auto, unfolding(crate::specs::StateLines::numbered_lines))]
    fn add_numbered(
        &mut self,
        state: &State,
        channel: Channel,
        kind: &Numbered,
    ) -> Result<(), AllocError>
        ensures { OnOk result (self.new ≡ self.old ++ numbered_lines state.now channel kind.now) }
    {
        for number in 0..128u8 {
            self.add_part(numbered_part(state, channel, kind, D7::low(number)))?;
        }
        Ok(())
    }

    /// Adds the lines of the parameters of this kind, by their numbers.
    #[tactic(auto, unfolding(crate::specs::StateLines::params_lines))]
    fn add_params(&mut self, state: &State, channel: Channel, nrpn: bool) -> Result<(), AllocError>
        ensures { OnOk result (self.new ≡ self.old ++ params_lines state.now channel nrpn) }
    {
        for number in 0..128u8 {
            let high = D7::low(number);
            self.add_numbered(state, channel, &Numbered::Params { nrpn, high })?;
        }
        Ok(())
    }

    fn add_before_params(&mut self, state: &State, channel: Channel) -> Result<(), AllocError>
        ensures { OnOk result (self.new ≡ self.old ++ before_params state.now channel) }
    {
        self.add_part(program_part(state, channel))?;
        self.add_numbered(state, channel, &Numbered::Controls)?;
        let count = state.toggles(channel);
        self.add_part(counted_part(count, StatePart::Pedal { channel, count }))?;
        self.add_part(select_part(state, channel))?;
        Ok(())
    }

    fn add_behind_params(&mut self, state: &State, channel: Channel) -> Result<(), AllocError>
        ensures { OnOk result (self.new ≡ self.old ++ behind_params state.now channel) }
    {
        self.add_part(wheel_part(state, channel))?;
        self.add_numbered(state, channel, &Numbered::Notes)?;
        self.add_part(pressure_part(state, channel))?;
        self.add_numbered(state, channel, &Numbered::Polys)?;
        Ok(())
    }

    /// Adds the lines of a channel's parts.
    #[tactic(auto, unfolding(crate::specs::StateLines::channel_lines))]
    fn add_channel(&mut self, state: &State, channel: Channel) -> Result<(), AllocError>
        ensures { OnOk result (self.new ≡ self.old ++ channel_lines state.now channel) }
    {
        self.add_before_params(state, channel)?;
        self.add_params(state, channel, false)?;
        self.add_params(state, channel, true)?;
        self.add_behind_params(state, channel)?;
        Ok(())
    }

    /// Adds the lines of the parts that the whole session has.
    #[tactic(auto, unfolding(crate::specs::StateLines::session_lines))]
    fn add_session(&mut self, state: &State) -> Result<(), AllocError>
        ensures { OnOk result (self.new ≡ self.old ++ session_lines state.now) }
    {
        self.add_part(song_part(state))?;
        self.add_part(sequencer_part(state))?;
        self.add_part(time_part(state))?;
        let count = state.sysex_count();
        self.add_part(counted_part(count, StatePart::Sysex(count)))?;
        Ok(())
    }

    /// Adds the lines of a state: one for each part that is there.
    #[tactic(auto, unfolding(crate::specs::StateLines::state_lines))]
    pub fn add_state(&mut self, state: &State) -> Result<(), AllocError>
        ensures { OnOk result (self.new ≡ self.old ++ state_lines state.now) }
    {
        self.add_session(state)?;
        for number in 0..16u8 {
            self.add_channel(state, Channel::low(number))?;
        }
        Ok(())
    }
}
