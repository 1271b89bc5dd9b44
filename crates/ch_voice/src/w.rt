//! Chapter W: the pitch wheel (RFC 6295, A.5).

ghost use Rattle.std.specs.Prelude.{ℕ, ◌≡◌, ◌≤◌, length};
ghost use Rattle.jm_wire.specs.Octets.{Appends};
ghost use Rattle.jm_cmds.specs.History.{InOrder};
ghost use Rattle.jm_cmds.specs.Sent.{packet_of};
ghost use Rattle.ch_voice.specs.ChapterW.{chapter_w, fresh_w, wheel_octets};

use crate::events::{WheelEvent, wheel_event};
use crate::item::{VoiceItem, coded_place, is_fresh};
use jm_cmds::{Channel, Sent};
use jm_wire::Octets;

/// The number of octets of the log of this event.
pub(crate) fn log_len(event: &WheelEvent) -> usize
    ensures number { (s : ℕ) → result ≡ length (wheel_octets s event.now) }
    ensures bound { result ≤ 2 }
{
    match event {
        WheelEvent::Moved { .. } => 2,
        WheelEvent::Cleared | WheelEvent::Other => 0,
    }
}

/// Appends S FIRST and 0 SECOND, where the wheel is moved. S is given as the high bit of an octet.
pub(crate) fn write_wheel_log(s: u8, event: &WheelEvent, out: &mut Octets)
    requires s_fits { s ≤ 128 }
    requires spare { length (wheel_octets s event.now) ≤ out.old.spare }
    ensures { Appends out.old out.new (wheel_octets s event.now) }
{
    if let WheelEvent::Moved { first, second } = event {
        out.push(s + first.get());
        out.push(second.get());
    }
}

/// The number of Chapter W's octets in the journal of this packet: 2, or 0 where the wheel isn't coded.
///
/// The list is the session's history, and may go past the packet. `checkpoint` is the journal's.
#[tactic(auto, using(crate::specs::ItemLaws::w_none))]
pub fn plain_len(list: &[Sent], channel: Channel, checkpoint: u64, packet: u64, tick: u64) -> usize
    requires { InOrder packet_of list.now }
    ensures number { result ≡ length (chapter_w channel checkpoint packet list.now) }
    ensures bound { result ≤ 2 }
{
    let _ = tick;
    match coded_place(list, VoiceItem::Wheel, channel, checkpoint, packet) {
        None => 0,
        Some(place) => log_len(&wheel_event(&place.command, channel)),
    }
}

/// Appends Chapter W of this channel for the journal of this packet: the last Wheel of the packets from
/// the checkpoint on, where it is C-active.
#[tactic(auto, using(crate::specs::ItemLaws::w_one))]
pub fn plain_write(
    list: &[Sent],
    channel: Channel,
    checkpoint: u64,
    packet: u64,
    tick: u64,
    out: &mut Octets,
)
    requires order { InOrder packet_of list.now }
    requires spare { length (chapter_w channel checkpoint packet list.now) ≤ out.old.spare }
    ensures { Appends out.old out.new (chapter_w channel checkpoint packet list.now) }
{
    let _ = tick;
    if let Some(place) = coded_place(list, VoiceItem::Wheel, channel, checkpoint, packet) {
        write_wheel_log(
            place.s_bit(packet),
            &wheel_event(&place.command, channel),
            out,
        );
    }
}

/// Whether the S bit of the chapter is 0: its Wheel is of the packet before.
#[tactic(auto, using(crate::specs::ItemLaws::w_fresh))]
pub fn plain_fresh(list: &[Sent], channel: Channel, checkpoint: u64, packet: u64) -> bool
    requires { InOrder packet_of list.now }
    ensures { result ≡ fresh_w channel checkpoint packet list.now }
{
    is_fresh(list, VoiceItem::Wheel, channel, checkpoint, packet)
}
