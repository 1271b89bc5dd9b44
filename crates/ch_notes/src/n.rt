//! Chapter N: note logs and the bits of released notes (RFC 6295, A.6).

ghost use Rattle.std.specs.Prelude.{◌≡◌, ◌+◌, ◌≤◌, ◌++◌, length};
ghost use Rattle.jm_wire.specs.Heads.{note_octets};
ghost use Rattle.jm_wire.specs.Octets.{Appends};
ghost use Rattle.jm_cmds.specs.History.{InOrder, standing};
ghost use Rattle.jm_cmds.specs.Sent.{packet_of};
ghost use Rattle.ch_notes.specs.NoteEvent.{note_ends, IsWithin, AreWithin};
ghost use Rattle.ch_notes.specs.Count.{IsCount};
ghost use Rattle.ch_notes.specs.ChapterN.{chapter_n, fresh_n, logs_of, event_log, y_bit, late_bit};
ghost use Rattle.ch_notes.specs.Shape.{counted, no_notes, span, shape_head, mark_octets};

use crate::events::{NoteEvent, Notes, note_event};
use crate::shape::Shape;
use jm_chapter::next_standing;
use jm_cmds::{Channel, Sent, checkpoint_history};
use jm_wire::Octets;

/// The notes that stand among these places, counted.
fn shape_of(places: &[Sent], channel: Channel, packet: u64) -> Shape
    ensures notes { result ≡ counted channel packet no_notes (standing (note_ends channel) places.now) }
    ensures within { AreWithin channel (standing (note_ends channel) places.now) }
    ensures count { IsCount result }
{
    let notes = Notes { channel };
    let mut shape = Shape::empty();
    let mut rest = places;
    while let Some((place, later)) = next_standing(&notes, rest) {
        let event = note_event(&place.command, channel);
        shape.add(event, place.is_fresh(packet));
        rest = later;
    }
    shape
}

/// The Y bit of a struck note as the high bit of an octet: whether the note is worth playing at this tick,
/// being at most 2,000 ticks old.
fn y_bit(place: &Sent, tick: u64) -> u8
    ensures bit { result ≡ y_bit tick place.now }
    ensures bound { result ≤ 128 }
{
    late_bit(place.tick, tick)
}

/// The same of a note that was sent at this tick.
pub(crate) fn late_bit(sent_at: u64, tick: u64) -> u8
    ensures bit { result ≡ late_bit sent_at tick }
    ensures bound { result ≤ 128 }
{
    if tick.saturating_sub(sent_at) <= 2000 {
        128
    } else {
        0
    }
}

/// Appends the log of this event, if it has one, with these high bits.
pub(crate) fn write_note_log(event: NoteEvent, s: u8, y: u8, out: &mut Octets)
    requires within { IsWithin event }
    requires s_fits { s ≤ 128 }
    requires y_fits { y ≤ 128 }
    requires spare { length (event_log s y event) ≤ out.old.spare }
    ensures { Appends out.old out.new (event_log s y event) }
{
    if let NoteEvent::Struck { note, velocity } = event {
        out.push(s + note.get());
        out.push(y + velocity.get());
    }
}

/// Appends the logs of the notes that stand among these places.
fn write_note_logs(places: &[Sent], channel: Channel, packet: u64, tick: u64, out: &mut Octets)
    requires { length (logs_of channel packet tick places.now) ≤ out.old.spare }
    ensures { Appends out.old out.new (logs_of channel packet tick places.now) }
{
    let notes = Notes { channel };
    let mut rest = places;
    while let Some((place, later)) = next_standing(&notes, rest) {
        let event = note_event(&place.command, channel);
        write_note_log(event, place.s_bit(packet), y_bit(place, tick), out);
        rest = later;
    }
}

/// Appends the header, the logs and the bits.
fn write_parts(
    shape: &Shape,
    places: &[Sent],
    channel: Channel,
    packet: u64,
    tick: u64,
    out: &mut Octets,
)
    requires count { IsCount shape.now }
    requires spare { 2 + (length (logs_of channel packet tick places.now) + span shape.now) ≤ out.old.spare }
    ensures { Appends out.old out.new (note_octets (shape_head shape.now) ++ (logs_of channel packet tick places.now ++ mark_octets shape.now)) }
{
    out.push_slice(&shape.head().pack());
    write_note_logs(places, channel, packet, tick, out);
    shape.write_bits(out);
}

/// The number of Chapter N's octets in the journal of this packet. It is 0 where no note is coded.
///
/// The list is the session's history, and may go past the packet.
pub fn plain_len(list: &[Sent], channel: Channel, checkpoint: u64, packet: u64, tick: u64) -> usize
    requires { InOrder packet_of list.now }
    ensures number { result ≡ length (chapter_n channel checkpoint packet tick list.now) }
    ensures bound { result ≤ 270 }
{
    let _ = tick;
    shape_of(
        checkpoint_history(list, checkpoint, packet),
        channel,
        packet,
    )
    .len()
}

/// Appends Chapter N of this channel for the journal of this packet: what the packets from the checkpoint on
/// left of its notes. `tick` is the packet's, in units of 100 microseconds.
pub fn plain_write(
    list: &[Sent],
    channel: Channel,
    checkpoint: u64,
    packet: u64,
    tick: u64,
    out: &mut Octets,
)
    requires order { InOrder packet_of list.now }
    requires spare { length (chapter_n channel checkpoint packet tick list.now) ≤ out.old.spare }
    ensures { Appends out.old out.new (chapter_n channel checkpoint packet tick list.now) }
{
    let places = checkpoint_history(list, checkpoint, packet);
    let shape = shape_of(places, channel, packet);
    if !shape.is_bare() {
        write_parts(&shape, places, channel, packet, tick, out);
    }
}

/// Whether an S bit or the B of the chapter is 0: one of its notes is of the packet before.
pub fn plain_fresh(list: &[Sent], channel: Channel, checkpoint: u64, packet: u64) -> bool
    requires { InOrder packet_of list.now }
    ensures { result ≡ fresh_n channel checkpoint packet list.now }
{
    shape_of(
        checkpoint_history(list, checkpoint, packet),
        channel,
        packet,
    )
    .fresh
}
