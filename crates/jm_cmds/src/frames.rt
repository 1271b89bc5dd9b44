//! MIDI Time Code, as quarter frames spell it (RFC 6295, B.4).

ghost use Rattle.std.specs.Prelude.{◌≡◌, ◌<◌, None};
ghost use Rattle.jm_cmds.specs.Frames.{frame_event, IsFrameEvent, IsTimeCode, set_nibble, time_code_from, restarted, advanced, is_next, framed, time_code_step, time_code_after};

use crate::commands::Command;
use crate::history::{Sent, first_place};
use crate::numbers::D7;

/// What a command means for time code (RFC 6295, B.4).
#[derive(Clone, Copy, PartialEq, Eq, Debug)]
pub enum FrameEvent {
    /// A quarter frame. Its high three bits are the type, its low four a nibble of the time code.
    Framed { value: D7 },
    /// The state is dropped.
    Cleared,
    /// Nothing.
    Other,
}

/// What quarter frames have spelled (RFC 6295, B.4). A word has eight nibbles: that of type 0 is the highest.
#[derive(Clone, Copy, PartialEq, Eq, Debug)]
pub struct TimePart {
    /// The last word of which all eight nibbles came in order.
    pub complete: Option<u32>,
    /// The word that is being spelled. Nibbles that are still to come are 0.
    pub partial: Option<u32>,
    /// The types fall.
    pub backward: bool,
    /// The last type of the word that is being spelled, 0 to 7; without one 7, or 0 where the types fall.
    pub point: u8,
}

/// What this command means for time code. A Reset State command drops its state.
pub fn frame_event(command: &Command) -> FrameEvent
    ensures event { result ≡ frame_event command.now }
    ensures within { IsFrameEvent result }
{
    match command {
        Command::QuarterFrame { value } => {
            // For the prover, which learns its range by this.
            let _value = value.get();
            FrameEvent::Framed { value: *value }
        }
        _ => {
            if command.is_reset() {
                return FrameEvent::Cleared;
            }
            FrameEvent::Other
        }
    }
}

/// The word with this nibble in the place of what it has at this weight.
macro_rules! nibble_at {
    ($word:expr, $nibble:expr, $weight:expr) => {
        $word - $word / $weight % 16 * $weight + $nibble as u32 * $weight
    };
}

/// The word with this nibble of this type.
#[tactic(auto, unfolding(crate::specs::Frames::set_nibble))]
fn set_nibble(word: u32, kind: u8, nibble: u8) -> u32
    requires kind { kind < 8 }
    requires nibble { nibble < 16 }
    ensures { result ≡ set_nibble word kind nibble }
{
    match kind {
        0 => nibble_at!(word, nibble, 0x1000_0000),
        1 => nibble_at!(word, nibble, 0x0100_0000),
        2 => nibble_at!(word, nibble, 0x0010_0000),
        3 => nibble_at!(word, nibble, 0x0001_0000),
        4 => nibble_at!(word, nibble, 0x0000_1000),
        5 => nibble_at!(word, nibble, 0x0000_0100),
        6 => nibble_at!(word, nibble, 0x0000_0010),
        _ => nibble_at!(word, nibble, 0x0000_0001),
    }
}

impl TimePart {
    /// What the first quarter frame starts from.
    fn first() -> TimePart
        ensures { result ≡ time_code_from None }
    {
        TimePart {
            complete: None,
            partial: None,
            backward: false,
            point: 7,
        }
    }

    /// A nibble that doesn't go on with the word: it begins one at either end, or belongs to none.
    fn restarted(self, kind: u8, nibble: u8) -> TimePart
        requires kind { kind < 8 }
        requires nibble { nibble < 16 }
        ensures code { result ≡ restarted kind nibble self }
        ensures bound { result.point < 8 }
    {
        if kind == 0 || kind == 7 {
            return TimePart {
                complete: self.complete,
                partial: Some(set_nibble(0, kind, nibble)),
                backward: kind == 7,
                point: kind,
            };
        }
        TimePart {
            complete: self.complete,
            partial: None,
            backward: self.backward,
            point: if self.backward { 0 } else { 7 },
        }
    }

    /// The next nibble of this word, which is complete with the last type of its direction.
    fn advanced(self, word: u32, kind: u8, nibble: u8) -> TimePart
        requires kind { kind < 8 }
        requires nibble { nibble < 16 }
        ensures code { result ≡ advanced kind nibble word self }
        ensures bound { result.point < 8 }
    {
        let next = set_nibble(word, kind, nibble);
        let last = if self.backward { 0 } else { 7 };
        if kind == last {
            return TimePart {
                complete: Some(next),
                partial: None,
                backward: self.backward,
                point: kind,
            };
        }
        TimePart {
            complete: self.complete,
            partial: Some(next),
            backward: self.backward,
            point: kind,
        }
    }

    /// Whether this type is the next one of the word that is being spelled.
    fn is_next(&self, kind: u8) -> bool
        requires kind { kind < 8 }
        requires point { self.now.point < 8 }
        ensures { result ≡ is_next kind self.now }
    {
        if self.backward {
            return kind + 1 == self.point;
        }
        kind == self.point + 1
    }

    /// One quarter frame more.
    fn framed(self, kind: u8, nibble: u8) -> TimePart
        requires kind { kind < 8 }
        requires nibble { nibble < 16 }
        requires point { self.point < 8 }
        ensures code { result ≡ framed kind nibble self }
        ensures bound { result.point < 8 }
    {
        if let Some(word) = self.partial {
            if self.is_next(kind) {
                return self.advanced(word, kind, nibble);
            }
        }
        self.restarted(kind, nibble)
    }
}

/// The state behind this event.
pub fn time_code_step(state: Option<TimePart>, event: FrameEvent) -> Option<TimePart>
    requires state { IsTimeCode state }
    requires event { IsFrameEvent event }
    ensures state { result ≡ time_code_step state event }
    ensures bound { IsTimeCode result }
{
    match event {
        FrameEvent::Framed { value } => {
            let from = match state {
                None => TimePart::first(),
                Some(s) => s,
            };
            Some(from.framed(value.get() / 16, value.get() % 16))
        }
        FrameEvent::Cleared => None,
        FrameEvent::Other => state,
    }
}

/// The time code behind these commands: `None` where no quarter frame came since the last Reset State command.
#[tactic(auto, unfolding(crate::specs::Frames::time_code_after))]
pub fn time_code_after(session: &[Sent]) -> Option<TimePart>
    ensures state { result ≡ time_code_after session.now }
    ensures bound { IsTimeCode result }
{
    let mut state = None;
    let mut rest = session;
    while let Some((place, later)) = first_place(rest) {
        state = time_code_step(state, frame_event(&place.command));
        rest = later;
    }
    state
}
