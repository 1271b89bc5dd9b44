//! Chapter A: the pressures on single keys (RFC 6295, A.9).

ghost use Rattle.std.specs.Prelude.{◌≡◌, ◌≤◌, length};
ghost use Rattle.std.proofs.Common.{lit≤};
ghost use Rattle.jm_wire.specs.Octets.{Appends};
ghost use Rattle.jm_cmds.specs.History.{InOrder, standing, below};
ghost use Rattle.jm_cmds.specs.Keys.{has_key};
ghost use Rattle.jm_cmds.specs.Sent.{packet_of};
ghost use Rattle.jm_chapter.specs.Logs.{logs_in};
ghost use Rattle.ch_notes.specs.PolyEvent.{IsWithin, poly_at, poly_ends, poly_key, presses};
ghost use Rattle.ch_notes.specs.ChapterA.{muted_step, is_muted, x_bit, press_logs, press_at, chapter_a, fresh_a, poly_count, has_poly};
ghost use Rattle.ch_notes.specs.PressLaws.{press-few};

use crate::presses::{PolyEvent, Presses, poly_event};
use jm_chapter::{
    Listed, Log, PlaceLogs, listed_fresh, listed_len, listed_write, next_standing, places_from,
    tally_of,
};
use jm_cmds::{Channel, D7, Sent};
use jm_wire::Octets;

/// Whether this event is a pressure on this note.
fn presses(event: &PolyEvent, note: D7) -> bool
    ensures { result ≡ presses note event.now }
{
    match event {
        PolyEvent::Pressed { note: other, .. } => note == *other,
        PolyEvent::Dropped | PolyEvent::Other => false,
    }
}

/// Whether the latest pressure on the note is no longer N-active behind this place, where it says whether it
/// was so before (RFC 6295, A.1).
fn muted_behind(muted: bool, place: &Sent, channel: Channel, note: D7) -> bool
    ensures { result ≡ muted_step channel note muted place.now }
{
    if presses(&poly_event(&place.command, channel), note) {
        return false;
    }
    muted || place.command.ends_notes(channel)
}

/// Whether the latest pressure on the note is no longer N-active behind the whole session.
fn is_muted(session: &[Sent], channel: Channel, note: D7) -> bool
    ensures { result ≡ is_muted channel note session.now }
{
    let mut muted = false;
    for place in session {
        muted = muted_behind(muted, place, channel, note);
    }
    muted
}

/// The X bit as the high bit of an octet.
pub(crate) fn x_bit(muted: bool) -> u8
    ensures bit { result ≡ x_bit muted }
    ensures bound { result ≤ 128 }
{
    if muted { 128 } else { 0 }
}

/// The logs of this event of the session.
fn press_logs(event: PolyEvent, session: &[Sent], channel: Channel) -> PlaceLogs
    ensures { logs_in result ≡ press_logs channel session.now event }
{
    match event {
        PolyEvent::Pressed { note, value } => {
            let x = x_bit(is_muted(session, channel, note));
            PlaceLogs::One(Log {
                number: note,
                field: x + value.get(),
            })
        }
        PolyEvent::Dropped | PolyEvent::Other => PlaceLogs::Empty,
    }
}

impl Listed for Presses {
    ghost logs = { λ s session place. press_at s.channel session place };

    ghost is_within = { λ s place. IsWithin (poly_at s.channel place) };

    ghost most = { λ s. 128 };

    fn logs_of(&self, place: &Sent, session: &[Sent]) -> PlaceLogs {
        press_logs(
            poly_event(&place.command, self.channel),
            session,
            self.channel,
        )
    }

    ghost few = { λ s session places u w. press-few s.channel session places u w };

    ghost fits = { λ s. lit≤ tt };
}

/// Whether a pressure on this note stands among these places.
fn has_press(places: &[Sent], channel: Channel, note: D7) -> bool
    ensures { result ≡ has_key (poly_key channel) note (standing (poly_ends channel) places.now) }
{
    let pressures = Presses { channel };
    let mut rest = places;
    while let Some((place, later)) = next_standing(&pressures, rest) {
        if presses(&poly_event(&place.command, channel), note) {
            return true;
        }
        rest = later;
    }
    false
}

/// The number of Chapter A's octets in the journal of this packet. It is 0 where no pressure is coded, and
/// at most 129 where pressures of at most 64 notes are.
///
/// The list is the session's history, and may go past the packet.
#[tactic(auto, unfolding(crate::specs::ChapterA::chapter_a))]
pub fn plain_len(list: &[Sent], channel: Channel, checkpoint: u64, packet: u64, tick: u64) -> usize
    requires { InOrder packet_of list.now }
    ensures number { result ≡ length (chapter_a channel checkpoint packet list.now) }
    ensures bound { result ≤ 257 }
    ensures few { poly_count channel checkpoint (below packet_of packet list.now) ≤ 64 → result ≤ 129 }
{
    let _ = tick;
    listed_len(&Presses { channel }, list, checkpoint, packet)
}

/// Appends Chapter A of this channel for the journal of this packet: what the packets from the checkpoint on
/// left of its pressures on single keys.
#[tactic(auto, unfolding(crate::specs::ChapterA::chapter_a))]
pub fn plain_write(
    list: &[Sent],
    channel: Channel,
    checkpoint: u64,
    packet: u64,
    tick: u64,
    out: &mut Octets,
)
    requires order { InOrder packet_of list.now }
    requires spare { length (chapter_a channel checkpoint packet list.now) ≤ out.old.spare }
    ensures { Appends out.old out.new (chapter_a channel checkpoint packet list.now) }
{
    let _ = tick;
    listed_write(&Presses { channel }, list, checkpoint, packet, out)
}

/// Whether an S bit of the chapter is 0: one of its pressures is of the packet before.
#[tactic(auto, unfolding(crate::specs::ChapterA::fresh_a))]
pub fn plain_fresh(list: &[Sent], channel: Channel, checkpoint: u64, packet: u64) -> bool
    requires { InOrder packet_of list.now }
    ensures { result ≡ fresh_a channel checkpoint packet list.now }
{
    listed_fresh(&Presses { channel }, list, checkpoint, packet)
}

/// How many notes the chapter would have a log for, with this checkpoint, where the whole list was sent.
#[tactic(auto, unfolding(crate::specs::ChapterA::poly_count))]
pub fn plain_notes(list: &[Sent], channel: Channel, checkpoint: u64) -> usize
    requires { InOrder packet_of list.now }
    ensures { result ≡ poly_count channel checkpoint list.now }
{
    tally_of(&Presses { channel }, places_from(list, checkpoint), list, 0).logs
}

/// Whether the chapter would have a log for this note, with this checkpoint, where the whole list was sent.
#[tactic(auto, unfolding(crate::specs::ChapterA::has_poly))]
pub fn plain_has_note(list: &[Sent], channel: Channel, checkpoint: u64, note: D7) -> bool
    requires { InOrder packet_of list.now }
    ensures { result ≡ has_poly channel checkpoint note list.now }
{
    has_press(places_from(list, checkpoint), channel, note)
}
