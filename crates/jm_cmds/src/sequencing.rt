//! The song position, which RFC 6295, B.3 codes as Chapter Q. What Stop, Continue and Song Position do to the
//! downbeat is this project's own rule.

ghost use Rattle.std.specs.Prelude.{◌≡◌, ◌<◌, None};
ghost use Rattle.jm_cmds.specs.Sequencing.{sequencer_event, IsSequencerEvent, IsSequencer, sequencer_from, clocked, turned, sequencer_step, sequencer_after};

use crate::commands::Command;
use crate::history::{Sent, first_place};
use crate::numbers::D14;

/// What a command means for the sequencer.
#[derive(Clone, Copy, PartialEq, Eq, Debug)]
pub enum SequencerEvent {
    /// A clock, of which 24 are a quarter note.
    Clocked,
    /// The song starts from its beginning.
    Started,
    /// The song goes on from where it is.
    Continued,
    /// The song stops.
    Stopped,
    /// The song is moved to this position, in units of six clocks.
    Located { value: D14 },
    /// The state is dropped.
    Cleared,
    /// Nothing.
    Other,
}

/// Where a sequencer is in the song (RFC 6295, B.3).
#[derive(Clone, Copy, PartialEq, Eq, Debug)]
pub struct SequencerPart {
    /// It runs: the last of Start, Continue and Stop was one of the first two.
    pub running: bool,
    /// The position has been played: a clock came since it began to run.
    pub downbeat: bool,
    /// The position, in clocks modulo 2^19: 0 to 524,287.
    pub position: u32,
}

/// What this command means for the sequencer. A Reset State command drops its state.
pub fn sequencer_event(command: &Command) -> SequencerEvent
    ensures event { result ≡ sequencer_event command.now }
    ensures within { IsSequencerEvent result }
{
    match command {
        Command::Clock => SequencerEvent::Clocked,
        Command::Start => SequencerEvent::Started,
        Command::Continue => SequencerEvent::Continued,
        Command::Stop => SequencerEvent::Stopped,
        Command::SongPosition { value } => {
            // For the prover, which learns its range by this.
            let _value = value.get();
            SequencerEvent::Located { value: *value }
        }
        _ => {
            if command.is_reset() {
                return SequencerEvent::Cleared;
            }
            SequencerEvent::Other
        }
    }
}

impl SequencerPart {
    /// What the first command starts from.
    fn first() -> SequencerPart
        ensures { result ≡ sequencer_from None }
    {
        SequencerPart {
            running: false,
            downbeat: false,
            position: 0,
        }
    }

    /// One clock more: the first since it began to run plays the position, each further one moves it.
    fn clocked(self) -> SequencerPart
        requires { self.position < 524288 }
        ensures { result ≡ clocked self }
    {
        if !self.running {
            return self;
        }
        if !self.downbeat {
            return SequencerPart {
                running: true,
                downbeat: true,
                position: self.position,
            };
        }
        SequencerPart {
            running: true,
            downbeat: true,
            position: (self.position + 1) % 524288,
        }
    }

    /// It begins to run, or ceases to.
    fn turned(running: bool, position: u32) -> SequencerPart
        ensures { result ≡ turned running position }
    {
        SequencerPart {
            running,
            downbeat: false,
            position,
        }
    }
}

/// The state behind this event.
pub fn sequencer_step(state: Option<SequencerPart>, event: SequencerEvent) -> Option<SequencerPart>
    requires state { IsSequencer state }
    requires event { IsSequencerEvent event }
    ensures state { result ≡ sequencer_step state event }
    ensures bound { IsSequencer result }
{
    let from = match state {
        None => SequencerPart::first(),
        Some(s) => s,
    };
    match event {
        SequencerEvent::Clocked => Some(from.clocked()),
        SequencerEvent::Started => Some(SequencerPart::turned(true, 0)),
        SequencerEvent::Continued => Some(SequencerPart::turned(true, from.position)),
        SequencerEvent::Stopped => Some(SequencerPart::turned(false, from.position)),
        SequencerEvent::Located { value } => Some(SequencerPart {
            position: 6 * u32::from(value.get()),
            ..from
        }),
        SequencerEvent::Cleared => None,
        SequencerEvent::Other => state,
    }
}

/// The song position behind these commands: `None` where no Clock, Start, Continue, Stop or Song Position came since
/// the last Reset State command.
#[tactic(auto, unfolding(crate::specs::Sequencing::sequencer_after))]
pub fn sequencer_after(session: &[Sent]) -> Option<SequencerPart>
    ensures state { result ≡ sequencer_after session.now }
    ensures bound { IsSequencer result }
{
    let mut state = None;
    let mut rest = session;
    while let Some((place, later)) = first_place(rest) {
        state = sequencer_step(state, sequencer_event(&place.command));
        rest = later;
    }
    state
}
