//! The whole journal of a packet.

ghost use Rattle.std.specs.Prelude.{◌≡◌, ◌≤◌, length};
ghost use Rattle.jm_wire.specs.Octets.{Appends};
ghost use Rattle.jm_wire.specs.Heads.{FitsJournal};
ghost use Rattle.jm_cmds.specs.History.{InOrder, below};
ghost use Rattle.jm_cmds.specs.Sent.{packet_of};
ghost use Rattle.jm_journal.specs.Limits.{KeepsLimits};
ghost use Rattle.jm_journal.specs.Journal.{journal_fresh, journal_head, journal, HasShortParts};

use crate::channels::{channels_len, count_channels, has_fresh, write_channels};
use crate::span::Span;
use crate::system;
use crate::system::{system_len, write_system};
use jm_cmds::Sent;
use jm_wire::{JournalHead, Octets};

/// Whether a log of the journal is of the packet before.
fn is_fresh(list: &[Sent], span: Span) -> bool
    requires order { InOrder packet_of list.now }
    requires limits { KeepsLimits span.checkpoint (below packet_of span.packet list.now) }
    ensures { result ≡ journal_fresh span.checkpoint span.packet list.now }
{
    system::is_fresh(list, span) || has_fresh(list, span)
}

/// The header of the journal.
#[tactic(auto, unfolding(crate::specs::Journal::journal_head))]
fn head_of(list: &[Sent], span: Span) -> JournalHead
    requires order { InOrder packet_of list.now }
    requires limits { KeepsLimits span.checkpoint (below packet_of span.packet list.now) }
    ensures head { result ≡ journal_head span.checkpoint span.packet span.tick list.now }
    ensures fits { FitsJournal result }
{
    let count = count_channels(list, span);
    JournalHead {
        s: !is_fresh(list, span),
        y: system_len(list, span) > 0,
        a: count > 0,
        h: false,
        totchan: count.saturating_sub(1),
        checkpoint: (span.checkpoint % 0x1_0000) as u16,
    }
}

/// The number of the octets of the journal of this packet, which tells of the packets from the checkpoint
/// on and before it: 3 where nothing is coded, at most 16,990.
///
/// The list is the session's history, and may go past the packet. What is coded of the packets before it
/// keeps the limits of Chapters M, A and X.
pub fn plain_len(list: &[Sent], checkpoint: u64, packet: u64, tick: u64) -> usize
    requires order { InOrder packet_of list.now }
    requires limits { KeepsLimits checkpoint (below packet_of packet list.now) }
    ensures number { result ≡ length (journal checkpoint packet tick list.now) }
    ensures bound { result ≤ 16990 }
    ensures parts { HasShortParts checkpoint packet tick list.now }
{
    let span = Span {
        checkpoint,
        packet,
        tick,
    };
    3 + (system_len(list, span) + channels_len(list, span))
}

/// Appends the journal of this packet. `tick` is the packet's, in units of 100 microseconds.
pub fn plain_write(list: &[Sent], checkpoint: u64, packet: u64, tick: u64, out: &mut Octets)
    requires order { InOrder packet_of list.now }
    requires limits { KeepsLimits checkpoint (below packet_of packet list.now) }
    requires spare { length (journal checkpoint packet tick list.now) ≤ out.old.spare }
    ensures { Appends out.old out.new (journal checkpoint packet tick list.now) }
{
    let span = Span {
        checkpoint,
        packet,
        tick,
    };
    out.push_slice(&head_of(list, span).pack());
    write_system(list, span, out);
    write_channels(list, span, out);
}
