//! Chapters that are a list of logs of two octets, behind a header with their number (RFC 6295, A.3, A.7
//! and A.9).

ghost use Rattle.std.specs.Prelude.{◌≡◌, ◌+◌, ◌*◌, ◌≤◌, ℕ, List, length};
ghost use Rattle.std.specs.List.{AllByRecursion};
ghost use Rattle.jm_wire.specs.Octets.{Appends};
ghost use Rattle.jm_cmds.specs.declared.history.Sent.{Sent};
ghost use Rattle.jm_cmds.specs.History.{InOrder, Unended, standing, coded, below};
ghost use Rattle.jm_cmds.specs.Sent.{packet_of};
ghost use Rattle.jm_chapter.specs.declared.log.Log.{Log};
ghost use Rattle.jm_chapter.specs.Logs.{logs_in, log_count, has_fresh, texts, listed};

use crate::log::PlaceLogs;
use crate::places::{Items, next_standing};
use crate::tally::tally_of;
use jm_cmds::{Sent, checkpoint_history, session_history};
use jm_wire::Octets;

/// A chapter that is a list of logs, by the logs of each place. What a log says may depend on the whole
/// session.
pub trait Listed: Items {
    ghost logs: { Self → List Sent → Sent → List Log };

    ghost is_within: { Self → Sent → Type 0 };

    ghost most: { Self → ℕ };

    /// The logs that this place of the session has where no later one ends it.
    fn logs_of(&self, place: &Sent, session: &[Sent]) -> PlaceLogs
        ensures logs { logs_in result ≡ logs self.now session.now place.now }
        ensures within { is_within self.now place.now };

    ghost few: { (chapter : Self) (session places : List Sent) → Unended (Self.ends chapter) places →
        AllByRecursion (is_within chapter) places → log_count (logs chapter session) places ≤ most chapter };

    ghost fits: { (chapter : Self) → most chapter ≤ 128 };
}

/// Appends the logs of the items that stand among these places.
pub fn write_logs<C: Listed>(
    chapter: &C,
    places: &[Sent],
    session: &[Sent],
    packet: u64,
    out: &mut Octets,
)
    requires { length (texts (C.logs chapter.now session.now) packet (standing (C.Items.ends chapter.now) places.now)) ≤ out.old.spare }
    ensures { Appends out.old out.new (texts (C.logs chapter.now session.now) packet (standing (C.Items.ends chapter.now) places.now)) }
{
    let mut rest = places;
    while let Some((place, later)) = next_standing(chapter, rest) {
        let logs = chapter.logs_of(place, session);
        logs.write(place.s_bit(packet), out);
        rest = later;
    }
}

/// The number of the chapter's octets in the journal of this packet. It is 0 where there is no log.
pub fn listed_len<C: Listed>(chapter: &C, list: &[Sent], checkpoint: u64, packet: u64) -> usize
    requires { InOrder packet_of list.now }
    ensures number { result ≡ length (listed (C.logs chapter.now (below packet_of packet list.now)) packet
        (coded (C.Items.ends chapter.now) packet_of checkpoint (below packet_of packet list.now))) }
    ensures bound { result ≤ 2 * C.most chapter.now + 1 }
{
    let session = session_history(list, packet);
    let places = checkpoint_history(list, checkpoint, packet);
    tally_of(chapter, places, session, packet).size()
}

/// Appends the chapter for the journal of this packet: what the packets from the checkpoint on left of its
/// items.
pub fn listed_write<C: Listed>(
    chapter: &C,
    list: &[Sent],
    checkpoint: u64,
    packet: u64,
    out: &mut Octets,
)
    requires order { InOrder packet_of list.now }
    requires spare { length (listed (C.logs chapter.now (below packet_of packet list.now)) packet
        (coded (C.Items.ends chapter.now) packet_of checkpoint (below packet_of packet list.now))) ≤ out.old.spare }
    ensures { Appends out.old out.new (listed (C.logs chapter.now (below packet_of packet list.now)) packet
        (coded (C.Items.ends chapter.now) packet_of checkpoint (below packet_of packet list.now))) }
{
    let session = session_history(list, packet);
    let places = checkpoint_history(list, checkpoint, packet);
    let tally = tally_of(chapter, places, session, packet);
    if tally.logs > 0 {
        out.push(tally.header());
        write_logs(chapter, places, session, packet, out);
    }
}

/// Whether an S bit of the chapter is 0: one of its logs is of the packet before.
pub fn listed_fresh<C: Listed>(chapter: &C, list: &[Sent], checkpoint: u64, packet: u64) -> bool
    requires { InOrder packet_of list.now }
    ensures { result ≡ has_fresh (C.logs chapter.now (below packet_of packet list.now)) packet
        (coded (C.Items.ends chapter.now) packet_of checkpoint (below packet_of packet list.now)) }
{
    let session = session_history(list, packet);
    let places = checkpoint_history(list, checkpoint, packet);
    tally_of(chapter, places, session, packet).fresh
}
