//! What Chapter N's header and bits stand on.

ghost use Rattle.std.specs.Prelude.{◌≡◌, ◌+◌, ◌≤◌, ◌<◌, ◌^◌, length};
ghost use Rattle.jm_wire.specs.Heads.{FitsNote};
ghost use Rattle.jm_wire.specs.Octets.{Appends};
ghost use Rattle.ch_notes.specs.NoteEvent.{IsWithin};
ghost use Rattle.ch_notes.specs.Count.{IsCount};
ghost use Rattle.ch_notes.specs.Shape.{shape_step, no_notes, is_bare, shape_len, shape_head, high_field, span, mark_bit, mark_octet, mark_octets};

use crate::events::NoteEvent;
use jm_wire::{NoteHead, Octets};

/// The coded notes of a channel, counted: how many have a log, and which are released.
#[derive(Drop)]
pub(crate) struct Shape {
    /// The number of note logs.
    pub(crate) logs: usize,
    /// The number of released notes.
    pub(crate) off: usize,
    /// The least released note divided by 8, or 15.
    pub(crate) low: u8,
    /// The greatest released note divided by 8, or 0.
    pub(crate) high: u8,
    /// Whether each note is released.
    pub(crate) released: [bool; 128],
    /// Whether the packet before brought a released note.
    pub(crate) fresh_off: bool,
    /// Whether the packet before brought any of these notes.
    pub(crate) fresh: bool,
}

impl Shape {
    /// No note at all.
    #[tactic(auto, using(crate::specs::CountSteps::count_none))]
    pub(crate) fn empty() -> Shape
        ensures empty { result ≡ no_notes }
        ensures count { IsCount result }
    {
        let released = [false; 128];
        Shape {
            logs: 0,
            off: 0,
            low: 15,
            high: 0,
            released,
            fresh_off: false,
            fresh: false,
        }
    }

    /// Counts one more event. `is_fresh` says whether it is of the packet before.
    #[tactic(auto, using(crate::specs::CountSteps::count_step))]
    pub(crate) fn add(&mut self, event: NoteEvent, is_fresh: bool)
        requires within { IsWithin event }
        requires logs_fit { self.old.logs + 1 < 2 ^ 64 }
        requires off_fit { self.old.off + 1 < 2 ^ 64 }
        ensures step { self.new ≡ shape_step self.old is_fresh event }
        ensures count { IsCount self.old → self.old.logs + self.old.off ≤ 127 → IsCount self.new }
    {
        match event {
            NoteEvent::Struck { .. } => {
                self.logs += 1;
                self.fresh = self.fresh || is_fresh;
            }
            NoteEvent::Released { note, .. } => {
                let octet = note.get() / 8;
                self.off += 1;
                self.low = self.low.min(octet);
                self.high = self.high.max(octet);
                self.released[note.get() as usize] = true;
                self.fresh_off = self.fresh_off || is_fresh;
                self.fresh = self.fresh || is_fresh;
            }
            NoteEvent::Cleared | NoteEvent::Other => {}
        }
    }

    /// Whether there is no note at all.
    pub(crate) fn is_bare(&self) -> bool
        ensures { result ≡ is_bare self.now }
    {
        self.logs == 0 && self.off == 0
    }

    /// The number of the chapter's octets.
    pub(crate) fn len(&self) -> usize
        requires { IsCount self.now }
        ensures number { result ≡ shape_len self.now }
        ensures bound { result ≤ 270 }
    {
        if self.is_bare() {
            return 0;
        }
        let span = if self.low > self.high {
            0
        } else {
            self.high + 1 - self.low
        };
        2 + 2 * self.logs + span as usize
    }

    /// HIGH, which tells 127 logs from 128 where no note is released.
    fn high_field(&self) -> u8
        requires { IsCount self.now }
        ensures field { result ≡ high_field self.now }
        ensures bound { result ≤ 15 }
    {
        if self.off == 0 && self.logs == 127 {
            return 1;
        }
        self.high
    }

    /// The chapter's header.
    pub(crate) fn head(&self) -> NoteHead
        requires { IsCount self.now }
        ensures head { result ≡ shape_head self.now }
        ensures fits { FitsNote result }
    {
        NoteHead {
            b: !self.fresh_off,
            len: self.logs.min(127) as u8,
            low: self.low,
            high: self.high_field(),
        }
    }

    /// 1 where this note is released, else 0.
    fn bit(&self, note: u8) -> u8
        requires { note < 128 }
        ensures bit { result ≡ mark_bit self.now.released note }
        ensures bound { result ≤ 1 }
    {
        if self.released[note as usize] { 1 } else { 0 }
    }

    /// The bits of the eight notes from 8 k on, the first of them the high one.
    fn octet(&self, k: u8) -> u8
        requires { k ≤ 15 }
        ensures { result ≡ mark_octet self.now.released k }
    {
        let note = 8 * k;
        let high = 8 * self.bit(note)
            + 4 * self.bit(note + 1)
            + 2 * self.bit(note + 2)
            + self.bit(note + 3);
        let low = 8 * self.bit(note + 4)
            + 4 * self.bit(note + 5)
            + 2 * self.bit(note + 6)
            + self.bit(note + 7);
        16 * high + low
    }

    /// Appends the octets of bits.
    pub(crate) fn write_bits(&self, out: &mut Octets)
        requires count { IsCount self.now }
        requires spare { span self.now ≤ out.old.spare }
        ensures { Appends out.old out.new (mark_octets self.now) }
    {
        for k in self.low..self.high + 1 {
            out.push(self.octet(k));
        }
    }
}
