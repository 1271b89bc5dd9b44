//! Chapter V: active sensing (RFC 6295, B.2).

ghost use Rattle.std.specs.Prelude.{◌≡◌, ◌≤◌, length};
ghost use Rattle.jm_wire.specs.Octets.{Appends};
ghost use Rattle.jm_cmds.specs.History.{InOrder};
ghost use Rattle.jm_cmds.specs.Sent.{packet_of};
ghost use Rattle.ch_system.specs.ChapterV.{chapter_v, fresh_v};

use crate::items::{SystemItem, coded_place, item_count, item_fresh};
use jm_cmds::{Sent, session_history};
use jm_wire::Octets;

/// The number of Chapter V's octets in the journal of this packet: 1, or 0 where it isn't there.
///
/// The list is the session's history, and may go past the packet. `checkpoint` is the journal's.
#[tactic(auto, unfolding(crate::specs::ChapterV::chapter_v))]
pub fn plain_len(list: &[Sent], checkpoint: u64, packet: u64, tick: u64) -> usize
    requires { InOrder packet_of list.now }
    ensures number { result ≡ length (chapter_v checkpoint packet list.now) }
    ensures bound { result ≤ 1 }
{
    let _ = tick;
    match coded_place(list, SystemItem::Sensing, checkpoint, packet) {
        None => 0,
        Some(_) => 1,
    }
}

/// Appends Chapter V for the journal of this packet: Active Sensing, where the packets from the checkpoint on brought it,
/// and how often the session has sent it. `tick` is the packet's, in units of 100 microseconds.
#[tactic(auto, unfolding(crate::specs::ChapterV::chapter_v))]
pub fn plain_write(list: &[Sent], checkpoint: u64, packet: u64, tick: u64, out: &mut Octets)
    requires order { InOrder packet_of list.now }
    requires spare { length (chapter_v checkpoint packet list.now) ≤ out.old.spare }
    ensures { Appends out.old out.new (chapter_v checkpoint packet list.now) }
{
    let _ = tick;
    if let Some(place) = coded_place(list, SystemItem::Sensing, checkpoint, packet) {
        let count = item_count(session_history(list, packet), SystemItem::Sensing);
        out.push(place.s_bit(packet) + count);
    }
}

/// Whether the chapter's S is 0: its command is of the packet before.
#[tactic(auto, unfolding(crate::specs::ChapterV::fresh_v))]
pub fn plain_fresh(list: &[Sent], checkpoint: u64, packet: u64) -> bool
    requires { InOrder packet_of list.now }
    ensures { result ≡ fresh_v checkpoint packet list.now }
{
    item_fresh(list, SystemItem::Sensing, checkpoint, packet)
}
