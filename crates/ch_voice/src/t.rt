//! Chapter T: the channel pressure (RFC 6295, A.8).

ghost use Rattle.std.specs.Prelude.{ℕ, ◌≡◌, ◌≤◌, length};
ghost use Rattle.jm_wire.specs.Octets.{Appends};
ghost use Rattle.jm_cmds.specs.History.{InOrder};
ghost use Rattle.jm_cmds.specs.Sent.{packet_of};
ghost use Rattle.ch_voice.specs.ChapterT.{chapter_t, fresh_t, pressure_octets};

use crate::events::{PressureEvent, pressure_event};
use crate::item::{VoiceItem, coded_place, is_fresh};
use jm_cmds::{Channel, Sent};
use jm_wire::Octets;

/// The number of octets of the log of this event.
pub(crate) fn log_len(event: &PressureEvent) -> usize
    ensures number { (s : ℕ) → result ≡ length (pressure_octets s event.now) }
    ensures bound { result ≤ 1 }
{
    match event {
        PressureEvent::Pressed { .. } => 1,
        PressureEvent::Cleared | PressureEvent::Other => 0,
    }
}

/// Appends S PRESSURE, where the pressure is told. S is given as the high bit of an octet.
pub(crate) fn write_pressure_log(s: u8, event: &PressureEvent, out: &mut Octets)
    requires s_fits { s ≤ 128 }
    requires spare { length (pressure_octets s event.now) ≤ out.old.spare }
    ensures { Appends out.old out.new (pressure_octets s event.now) }
{
    if let PressureEvent::Pressed { value } = event {
        out.push(s + value.get());
    }
}

/// The number of Chapter T's octets in the journal of this packet: 1, or 0 where the pressure isn't coded.
///
/// The list is the session's history, and may go past the packet. `checkpoint` is the journal's.
#[tactic(auto, using(crate::specs::ItemLaws::t_none))]
pub fn plain_len(list: &[Sent], channel: Channel, checkpoint: u64, packet: u64, tick: u64) -> usize
    requires { InOrder packet_of list.now }
    ensures number { result ≡ length (chapter_t channel checkpoint packet list.now) }
    ensures bound { result ≤ 1 }
{
    let _ = tick;
    match coded_place(list, VoiceItem::Pressure, channel, checkpoint, packet) {
        None => 0,
        Some(place) => log_len(&pressure_event(&place.command, channel)),
    }
}

/// Appends Chapter T of this channel for the journal of this packet: the last Pressure of the packets from
/// the checkpoint on, where it is N-active and C-active.
#[tactic(auto, using(crate::specs::ItemLaws::t_one))]
pub fn plain_write(
    list: &[Sent],
    channel: Channel,
    checkpoint: u64,
    packet: u64,
    tick: u64,
    out: &mut Octets,
)
    requires order { InOrder packet_of list.now }
    requires spare { length (chapter_t channel checkpoint packet list.now) ≤ out.old.spare }
    ensures { Appends out.old out.new (chapter_t channel checkpoint packet list.now) }
{
    let _ = tick;
    if let Some(place) = coded_place(list, VoiceItem::Pressure, channel, checkpoint, packet) {
        write_pressure_log(
            place.s_bit(packet),
            &pressure_event(&place.command, channel),
            out,
        );
    }
}

/// Whether the S bit of the chapter is 0: its Pressure is of the packet before.
#[tactic(auto, using(crate::specs::ItemLaws::t_fresh))]
pub fn plain_fresh(list: &[Sent], channel: Channel, checkpoint: u64, packet: u64) -> bool
    requires { InOrder packet_of list.now }
    ensures { result ≡ fresh_t channel checkpoint packet list.now }
{
    is_fresh(list, VoiceItem::Pressure, channel, checkpoint, packet)
}
