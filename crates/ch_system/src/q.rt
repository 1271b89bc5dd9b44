//! Chapter Q: the sequencer (RFC 6295, B.3).

ghost use Rattle.std.specs.Prelude.{◌≡◌, ◌≤◌, ◌<◌, length};
ghost use Rattle.jm_wire.specs.Octets.{Appends};
ghost use Rattle.jm_cmds.specs.History.{InOrder};
ghost use Rattle.jm_cmds.specs.Sent.{packet_of};
ghost use Rattle.ch_system.specs.ChapterQ.{chapter_q, fresh_q, sequencer_octets};

use crate::items::{SystemItem, coded_place, item_fresh};
use jm_cmds::{Sent, SequencerPart, sequencer_after, session_history};
use jm_wire::{Octets, SeqHead};

/// Appends the chapter of this song position.
pub(crate) fn write_position(fresh: bool, state: &SequencerPart, out: &mut Octets)
    requires bound { state.now.position < 524288 }
    requires spare { length (sequencer_octets fresh state.now) ≤ out.old.spare }
    ensures { Appends out.old out.new (sequencer_octets fresh state.now) }
{
    let moved = state.position != 0;
    let head = SeqHead {
        s: !fresh,
        n: state.running,
        d: state.downbeat,
        c: moved,
        t: false,
        top: (state.position / 65536) as u8,
    };
    out.push_slice(&head.pack());
    if moved {
        out.push_u16((state.position % 65536) as u16);
    }
}

/// The number of Chapter Q's octets in the journal of this packet. It is 0 where the item isn't coded.
///
/// The list is the session's history, and may go past the packet. `checkpoint` is the journal's.
#[tactic(auto, unfolding(crate::specs::ChapterQ::chapter_q))]
pub fn plain_len(list: &[Sent], checkpoint: u64, packet: u64, tick: u64) -> usize
    requires { InOrder packet_of list.now }
    ensures number { result ≡ length (chapter_q checkpoint packet list.now) }
    ensures bound { result ≤ 3 }
{
    let _ = tick;
    if coded_place(list, SystemItem::Sequence, checkpoint, packet).is_none() {
        return 0;
    }
    match sequencer_after(session_history(list, packet)) {
        None => 0,
        Some(state) => if state.position == 0 { 1 } else { 3 },
    }
}

/// Appends Chapter Q for the journal of this packet: the song position, where the packets from the checkpoint on brought a
/// Clock, a Start, a Continue, a Stop or a Song Position and no Reset State command followed. `tick` is the
/// packet's, in units of 100 microseconds.
#[tactic(auto, unfolding(crate::specs::ChapterQ::chapter_q))]
pub fn plain_write(list: &[Sent], checkpoint: u64, packet: u64, tick: u64, out: &mut Octets)
    requires order { InOrder packet_of list.now }
    requires spare { length (chapter_q checkpoint packet list.now) ≤ out.old.spare }
    ensures { Appends out.old out.new (chapter_q checkpoint packet list.now) }
{
    let _ = tick;
    if let Some(place) = coded_place(list, SystemItem::Sequence, checkpoint, packet) {
        if let Some(state) = sequencer_after(session_history(list, packet)) {
            write_position(place.is_fresh(packet), &state, out);
        }
    }
}

/// Whether the chapter's S is 0: the latest of its commands is of the packet before.
#[tactic(auto, unfolding(crate::specs::ChapterQ::fresh_q))]
pub fn plain_fresh(list: &[Sent], checkpoint: u64, packet: u64) -> bool
    requires { InOrder packet_of list.now }
    ensures { result ≡ fresh_q checkpoint packet list.now }
{
    item_fresh(list, SystemItem::Sequence, checkpoint, packet)
}
