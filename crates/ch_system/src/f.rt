//! Chapter F: MIDI Time Code (RFC 6295, B.4).

ghost use Rattle.std.specs.Prelude.{◌≡◌, ◌≤◌, ◌<◌, length};
ghost use Rattle.jm_wire.specs.Octets.{Appends};
ghost use Rattle.jm_cmds.specs.History.{InOrder};
ghost use Rattle.jm_cmds.specs.Sent.{packet_of};
ghost use Rattle.ch_system.specs.ChapterF.{chapter_f, fresh_f, code_octets, word_octets};

use crate::items::{SystemItem, coded_place, item_fresh};
use jm_cmds::{Sent, TimePart, session_history, time_code_after};
use jm_wire::{Octets, TimeHead};

/// The number of a word's octets, if it is there.
pub(crate) fn word_len(word: Option<u32>) -> usize
    ensures number { result ≡ length (word_octets word) }
    ensures bound { result ≤ 4 }
{
    match word {
        None => 0,
        Some(_) => 4,
    }
}

/// Appends the word, if it is there.
fn write_word(word: Option<u32>, out: &mut Octets)
    requires { length (word_octets word) ≤ out.old.spare }
    ensures { Appends out.old out.new (word_octets word) }
{
    if let Some(word) = word {
        out.push_u32(word);
    }
}

/// Appends the chapter of this time code.
pub(crate) fn write_code(fresh: bool, code: &TimePart, out: &mut Octets)
    requires bound { code.now.point < 8 }
    requires spare { length (code_octets fresh code.now) ≤ out.old.spare }
    ensures { Appends out.old out.new (code_octets fresh code.now) }
{
    let head = TimeHead {
        s: !fresh,
        c: code.complete.is_some(),
        p: code.partial.is_some(),
        q: code.complete.is_some(),
        d: code.backward,
        point: code.point,
    };
    out.push_slice(&head.pack());
    write_word(code.complete, out);
    write_word(code.partial, out);
}

/// The number of Chapter F's octets in the journal of this packet. It is 0 where the item isn't coded.
///
/// The list is the session's history, and may go past the packet. `checkpoint` is the journal's.
#[tactic(auto, unfolding(crate::specs::ChapterF::chapter_f))]
pub fn plain_len(list: &[Sent], checkpoint: u64, packet: u64, tick: u64) -> usize
    requires { InOrder packet_of list.now }
    ensures number { result ≡ length (chapter_f checkpoint packet list.now) }
    ensures bound { result ≤ 9 }
{
    let _ = tick;
    if coded_place(list, SystemItem::Frames, checkpoint, packet).is_none() {
        return 0;
    }
    match time_code_after(session_history(list, packet)) {
        None => 0,
        Some(code) => 1 + word_len(code.complete) + word_len(code.partial),
    }
}

/// Appends Chapter F for the journal of this packet: the time code, where the packets from the checkpoint on brought a quarter
/// frame and no Reset State command followed. `tick` is the packet's, in units of 100 microseconds.
#[tactic(auto, unfolding(crate::specs::ChapterF::chapter_f))]
pub fn plain_write(list: &[Sent], checkpoint: u64, packet: u64, tick: u64, out: &mut Octets)
    requires order { InOrder packet_of list.now }
    requires spare { length (chapter_f checkpoint packet list.now) ≤ out.old.spare }
    ensures { Appends out.old out.new (chapter_f checkpoint packet list.now) }
{
    let _ = tick;
    if let Some(place) = coded_place(list, SystemItem::Frames, checkpoint, packet) {
        if let Some(code) = time_code_after(session_history(list, packet)) {
            write_code(place.is_fresh(packet), &code, out);
        }
    }
}

/// Whether the chapter's S is 0: the latest quarter frame is of the packet before.
#[tactic(auto, unfolding(crate::specs::ChapterF::fresh_f))]
pub fn plain_fresh(list: &[Sent], checkpoint: u64, packet: u64) -> bool
    requires { InOrder packet_of list.now }
    ensures { result ≡ fresh_f checkpoint packet list.now }
{
    item_fresh(list, SystemItem::Frames, checkpoint, packet)
}
