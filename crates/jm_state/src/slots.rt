//! The song position, the time code and the toggles of a state, each within its bounds.

ghost use Rattle.std.specs.Prelude.{◌≡◌, ◌<◌, None};
ghost use Rattle.jm_cmds.specs.Sequencing.{IsSequencer, IsSequencerEvent, sequencer_step};
ghost use Rattle.jm_cmds.specs.Frames.{IsTimeCode, IsFrameEvent, time_code_step};

use jm_cmds::{
    FrameEvent, SequencerEvent, SequencerPart, TimePart, sequencer_step, time_code_step,
};
use std::marker::Model;

/// The song position, which is below 2^19.
#[derive(Clone, Copy, Debug)]
pub(crate) struct SequencerSlot {
    part: Option<SequencerPart>,
}

impl Model for SequencerSlot {
    ghost use Rattle.std.specs.Prelude.{Option};
    ghost use Rattle.jm_cmds.specs.declared.sequencing.SequencerPart.{SequencerPart};
    ghost use Rattle.jm_cmds.specs.Sequencing.{IsSequencer};

    ghost Value = { Option SequencerPart };

    ghost view = { λ s. s.part };

    ghost invariant = { λ s. IsSequencer s.part };

    ghost inverse = { λ part. record { part = part } };
}

impl SequencerSlot {
    pub(crate) fn new() -> SequencerSlot
        ensures { result ≡ None }
    {
        SequencerSlot { part: None }
    }

    pub(crate) fn get(&self) -> Option<SequencerPart>
        ensures part { result ≡ self.now }
        ensures bound { IsSequencer self.now }
    {
        self.part
    }

    pub(crate) fn set(&mut self, part: Option<SequencerPart>)
        requires { IsSequencer part }
        ensures { self.new ≡ part }
    {
        self.part = part;
    }

    /// One command more.
    pub(crate) fn step(&mut self, event: SequencerEvent)
        requires { IsSequencerEvent event }
        ensures { self.new ≡ sequencer_step self.old event }
    {
        self.part = sequencer_step(self.part, event);
    }
}

/// The time code, of which the last type is below 8.
#[derive(Clone, Copy, Debug)]
pub(crate) struct TimeSlot {
    part: Option<TimePart>,
}

impl Model for TimeSlot {
    ghost use Rattle.std.specs.Prelude.{Option};
    ghost use Rattle.jm_cmds.specs.declared.frames.TimePart.{TimePart};
    ghost use Rattle.jm_cmds.specs.Frames.{IsTimeCode};

    ghost Value = { Option TimePart };

    ghost view = { λ s. s.part };

    ghost invariant = { λ s. IsTimeCode s.part };

    ghost inverse = { λ part. record { part = part } };
}

impl TimeSlot {
    pub(crate) fn new() -> TimeSlot
        ensures { result ≡ None }
    {
        TimeSlot { part: None }
    }

    pub(crate) fn get(&self) -> Option<TimePart>
        ensures part { result ≡ self.now }
        ensures bound { IsTimeCode self.now }
    {
        self.part
    }

    pub(crate) fn set(&mut self, part: Option<TimePart>)
        requires { IsTimeCode part }
        ensures { self.new ≡ part }
    {
        self.part = part;
    }

    /// One command more.
    pub(crate) fn step(&mut self, event: FrameEvent)
        requires { IsFrameEvent event }
        ensures { self.new ≡ time_code_step self.old event }
    {
        self.part = time_code_step(self.part, event);
    }
}

/// How often the sustain pedal of a channel was moved, a number below 64.
#[derive(Clone, Copy, Debug)]
pub(crate) struct Toggles {
    count: u8,
}

impl Model for Toggles {
    ghost use Rattle.std.specs.Prelude.{ℕ, ◌<◌};

    ghost Value = { ℕ };

    ghost view = { λ t. t.count };

    ghost invariant = { λ t. t.count < 64 };

    ghost inverse = { λ count. record { count = count } };
}

impl Toggles {
    pub(crate) fn new() -> Toggles
        ensures { result ≡ 0 }
    {
        Toggles { count: 0 }
    }

    pub(crate) fn get(&self) -> u8
        ensures count { result ≡ self.now }
        ensures bound { self.now < 64 }
    {
        self.count
    }

    pub(crate) fn set(&mut self, count: u8)
        requires { count < 64 }
        ensures { self.new ≡ count }
    {
        self.count = count;
    }
}
