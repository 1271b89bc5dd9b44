//! The latest command of each note: what the tables of Chapters N and E share.

ghost use Rattle.std.specs.Prelude.{ℕ, ◌≡◌, ◌+◌, ◌*◌, ◌<◌, ◌≤◌, ◌++◌, ◌∷◌, [], List, true, not, ◌==◌, filter, length, slice_set};
ghost use Rattle.jm_wire.specs.Octets.{Appends};
ghost use Rattle.jm_wire.specs.Heads.{note_octets};
ghost use Rattle.ch_notes.specs.NoteEvent.{IsWithin};
ghost use Rattle.ch_notes.specs.Count.{IsCount};
ghost use Rattle.ch_notes.specs.Shape.{no_notes, span, shape_head, mark_octets};
ghost use Rattle.ch_notes.specs.KeptRows.{RowsUpTo};
ghost use Rattle.ch_notes.specs.NoteTable.{NoteRow, event_note, key_event, note_noted, note_lines, rows_counted, RowsWithin, note_row_of, note_rows};

use crate::events::NoteEvent;
use crate::n::{late_bit, write_note_log};
use crate::shape::Shape;
use jm_cmds::{D7, is_packet_before, s_of};
use jm_recency::Recency;
use jm_wire::Octets;

/// The latest command of each note: its velocity, whether it strikes the note, and its tick.
#[derive(Debug, Drop)]
pub(crate) struct NoteRows {
    velocities: [D7; 128],
    struck: [bool; 128],
    ticks: [u64; 128],
}

impl NoteRows {
    /// No note.
    pub(crate) fn new() -> NoteRows {
        let velocities = [D7::low(0); 128];
        let struck = [false; 128];
        let ticks = [0; 128];
        NoteRows {
            velocities,
            struck,
            ticks,
        }
    }

    /// The latest command of this note.
    pub(crate) fn event(&self, key: u16) -> NoteEvent
        requires { key < 128 }
        ensures event { result ≡ (note_row_of self.now key).event }
        ensures within { IsWithin result }
    {
        let place = key as usize;
        let note = D7::low(key as u8);
        let velocity = self.velocities[place];
        let sounds = velocity.get() > 0;
        if self.struck[place] && sounds {
            return NoteEvent::Struck { note, velocity };
        }
        NoteEvent::Released { note, velocity }
    }

    /// When it was sent.
    fn tick(&self, key: u16) -> u64
        requires { key < 128 }
        ensures { result ≡ (note_row_of self.now key).tick }
    {
        self.ticks[key as usize]
    }

    /// Makes the content that of `other`.
    pub(crate) fn copy_from(&mut self, other: &Self)
        ensures { self.new ≡ other.now }
    {
        let velocities = other.velocities;
        let struck = other.struck;
        let ticks = other.ticks;
        self.velocities = velocities;
        self.struck = struck;
        self.ticks = ticks;
    }
}

/// Sets the latest command of this note, which takes the place of an earlier one.
fn note_put(
    recent: &mut Recency<128>,
    rows: &mut NoteRows,
    note: D7,
    velocity: D7,
    struck: bool,
    packet: u64,
    tick: u64,
)
    requires order { RowsUpTo packet (note_rows rows.old recent.old) }
    requires within { note < 128 }
    ensures { note_rows rows.new recent.new ≡ filter (λ r. not (event_note r.1.event == note)) (note_rows rows.old recent.old)
        ++ (packet, record { tick = tick; event = key_event struck note velocity }) ∷ [] }
{
    let key = u16::from(note.get());
    recent.touch(key, packet);
    let place = key as usize;
    rows.velocities[place] = velocity;
    rows.struck[place] = struck;
    rows.ticks[place] = tick;
}

/// One event more.
pub(crate) fn note_change(
    recent: &mut Recency<128>,
    rows: &mut NoteRows,
    event: &NoteEvent,
    packet: u64,
    tick: u64,
)
    requires order { RowsUpTo packet (note_rows rows.old recent.old) }
    requires within { IsWithin event.now }
    ensures { note_rows rows.new recent.new ≡ note_noted event.now packet tick (note_rows rows.old recent.old) }
{
    match event {
        NoteEvent::Struck { note, velocity } => {
            note_put(recent, rows, *note, *velocity, true, packet, tick);
        }
        NoteEvent::Released { note, velocity } => {
            note_put(recent, rows, *note, *velocity, false, packet, tick);
        }
        NoteEvent::Cleared => recent.clear(),
        NoteEvent::Other => {}
    }
}

/// The notes counted, for Chapter N of this packet.
#[tactic(auto, using(crate::specs::Walks::walk_first, crate::specs::Walks::at_first, crate::specs::Walks::walk_end, crate::specs::Walks::key_below))]
pub(crate) fn notes_shape(recent: &Recency<128>, rows: &NoteRows, packet: u64) -> Shape
    ensures notes { result ≡ rows_counted packet no_notes (note_rows rows.now recent.now) }
    ensures within { RowsWithin (note_rows rows.now recent.now) }
    ensures count { IsCount result }
{
    let keys = recent.len();
    let mut shape = Shape::empty();
    let mut at = recent.first();
    while let Some(key) = at {
        let (sent_in, next) = recent.visit(key);
        shape.add(rows.event(key), is_packet_before(sent_in, packet));
        at = next;
    }
    let _ = keys;
    shape
}

/// Appends the logs of the struck notes.
#[tactic(auto, using(crate::specs::Walks::walk_first, crate::specs::Walks::at_first, crate::specs::Walks::walk_end, crate::specs::Walks::key_below))]
fn write_lines(recent: &Recency<128>, rows: &NoteRows, packet: u64, tick: u64, out: &mut Octets)
    requires { length (note_lines packet tick (note_rows rows.now recent.now)) ≤ out.old.spare }
    ensures { Appends out.old out.new (note_lines packet tick (note_rows rows.now recent.now)) }
{
    let keys = recent.len();
    let mut at = recent.first();
    while let Some(key) = at {
        let (sent_in, next) = recent.visit(key);
        let s = s_of(is_packet_before(sent_in, packet));
        write_note_log(rows.event(key), s, late_bit(rows.tick(key), tick), out);
        at = next;
    }
    let _ = keys;
}

/// Appends the header, the logs and the bits.
pub(crate) fn write_rows(
    shape: &Shape,
    recent: &Recency<128>,
    rows: &NoteRows,
    packet: u64,
    tick: u64,
    out: &mut Octets,
)
    requires count { IsCount shape.now }
    requires spare { 2 + (length (note_lines packet tick (note_rows rows.now recent.now)) + span shape.now) ≤ out.old.spare }
    ensures { Appends out.old out.new (note_octets (shape_head shape.now) ++ (note_lines packet tick (note_rows rows.now recent.now) ++ mark_octets shape.now)) }
{
    out.push_slice(&shape.head().pack());
    write_lines(recent, rows, packet, tick, out);
    shape.write_bits(out);
}
