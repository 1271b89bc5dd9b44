//! How often a session sent the controllers that are counted.

ghost use Rattle.std.specs.Prelude.{◌≡◌, ◌<◌, ◌+◌, ◌%◌};
ghost use Rattle.ch_control.specs.Counts.{no_counts, AreCounts, one_more, counts_after, count_in};

use crate::events::ControlEvent;
use jm_cmds::D7;

/// How often a session sent each controller of a channel that is counted, modulo 64. No checkpoint and no reset
/// begins a count anew.
#[derive(Clone, Copy, PartialEq, Eq, Debug)]
pub struct Counts {
    /// Control 96.
    pub(crate) increments: u8,
    /// Control 97.
    pub(crate) decrements: u8,
    /// Control 120.
    pub(crate) sounds_off: u8,
    /// Control 121.
    pub(crate) set_backs: u8,
    /// Control 123.
    pub(crate) notes_off: u8,
}

/// One more, modulo 64.
fn next(count: u8) -> u8
    requires { count < 64 }
    ensures count { result ≡ (count + 1) % 64 }
    ensures bound { result < 64 }
{
    (count + 1) % 64
}

impl Counts {
    /// Those of no command.
    pub(crate) fn none() -> Counts
        ensures counts { result ≡ no_counts }
        ensures bounds { AreCounts result }
    {
        Counts {
            increments: 0,
            decrements: 0,
            sounds_off: 0,
            set_backs: 0,
            notes_off: 0,
        }
    }

    /// One command more of this controller.
    fn add(self, number: D7) -> Counts
        requires { AreCounts self }
        ensures counts { result ≡ one_more number self }
        ensures bounds { AreCounts result }
    {
        let mut counts = self;
        match number.get() {
            96 => counts.increments = next(counts.increments),
            97 => counts.decrements = next(counts.decrements),
            120 => counts.sounds_off = next(counts.sounds_off),
            121 => counts.set_backs = next(counts.set_backs),
            123 => counts.notes_off = next(counts.notes_off),
            _ => {}
        }
        counts
    }

    /// One event more.
    pub(crate) fn after(self, event: &ControlEvent) -> Counts
        requires { AreCounts self }
        ensures counts { result ≡ counts_after self event.now }
        ensures bounds { AreCounts result }
    {
        match event {
            ControlEvent::Set { number, .. } => self.add(*number),
            ControlEvent::Dropped | ControlEvent::Other => self,
        }
    }

    /// The count of a controller that is counted.
    pub(crate) fn of(self, number: D7) -> u8
        requires { AreCounts self }
        ensures count { result ≡ count_in self number }
        ensures bound { result < 64 }
    {
        match number.get() {
            96 => self.increments,
            97 => self.decrements,
            120 => self.sounds_off,
            121 => self.set_backs,
            123 => self.notes_off,
            _ => 0,
        }
    }
}
