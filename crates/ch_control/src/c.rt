//! Chapter C: the latest value of each controller, or how often it was sent (RFC 6295, A.3).

ghost use Rattle.std.specs.Prelude.{◌≡◌, ◌≤◌, length};
ghost use Rattle.std.proofs.Common.{lit≤};
ghost use Rattle.jm_wire.specs.Octets.{Appends};
ghost use Rattle.jm_cmds.specs.History.{InOrder};
ghost use Rattle.jm_cmds.specs.Sent.{packet_of};
ghost use Rattle.ch_control.specs.ControlEvent.{IsWithin, event_at};
ghost use Rattle.ch_control.specs.ChapterC.{control_logs, chapter_c, fresh_c};
ghost use Rattle.ch_control.specs.CountBounds.{control-few};

use crate::events::{Controls, control_event, event_logs};
use jm_chapter::{Listed, PlaceLogs, listed_fresh, listed_len, listed_write};
use jm_cmds::{Channel, Sent};
use jm_wire::Octets;

impl Listed for Controls {
    ghost logs = { λ s session place. control_logs s.channel session place };

    ghost is_within = { λ s place. IsWithin (event_at s.channel place) };

    ghost most = { λ s. 125 };

    fn logs_of(&self, place: &Sent, session: &[Sent]) -> PlaceLogs {
        event_logs(
            control_event(&place.command, self.channel),
            session,
            self.channel,
        )
    }

    ghost few = { λ s session places u w. control-few s.channel session places u w };

    ghost fits = { λ s. lit≤ tt };
}

/// The number of Chapter C's octets in the journal of this packet. It is 0 where no controller is coded.
///
/// The list is the session's history, and may go past the packet.
#[tactic(auto, unfolding(crate::specs::ChapterC::chapter_c))]
pub fn plain_len(list: &[Sent], channel: Channel, checkpoint: u64, packet: u64, tick: u64) -> usize
    requires { InOrder packet_of list.now }
    ensures number { result ≡ length (chapter_c channel checkpoint packet list.now) }
    ensures bound { result ≤ 251 }
{
    let _ = tick;
    listed_len(&Controls { channel }, list, checkpoint, packet)
}

/// Appends Chapter C of this channel for the journal of this packet: what the packets from the checkpoint on
/// left of its controllers.
#[tactic(auto, unfolding(crate::specs::ChapterC::chapter_c))]
pub fn plain_write(
    list: &[Sent],
    channel: Channel,
    checkpoint: u64,
    packet: u64,
    tick: u64,
    out: &mut Octets,
)
    requires order { InOrder packet_of list.now }
    requires spare { length (chapter_c channel checkpoint packet list.now) ≤ out.old.spare }
    ensures { Appends out.old out.new (chapter_c channel checkpoint packet list.now) }
{
    let _ = tick;
    listed_write(&Controls { channel }, list, checkpoint, packet, out)
}

/// Whether an S bit of the chapter is 0: one of its controllers is of the packet before.
#[tactic(auto, unfolding(crate::specs::ChapterC::fresh_c))]
pub fn plain_fresh(list: &[Sent], channel: Channel, checkpoint: u64, packet: u64) -> bool
    requires { InOrder packet_of list.now }
    ensures { result ≡ fresh_c channel checkpoint packet list.now }
{
    listed_fresh(&Controls { channel }, list, checkpoint, packet)
}
