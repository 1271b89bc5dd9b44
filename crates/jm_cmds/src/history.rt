//! The history of a session.

ghost use Rattle.std.specs.Prelude.{◌≡◌, ◌≤◌, ◌↔◌, IsTrue, Bool, [], ◌∷◌, MatchOption, length, take, drop};
ghost use Rattle.jm_cmds.specs.History.{InOrder, below, since, standing, coded};
ghost use Rattle.jm_cmds.specs.Sent.{packet_of, is_fresh, s_of, s_bit, first_from};

use crate::commands::Command;

/// A command of the session's history: it went out in this packet, at this tick.
///
/// A session's history is the list of these in the order of sending, so packets and ticks never fall
/// along it. The first packet is packet 0, and a tick is 100 microseconds.
#[derive(PartialEq, Eq, Debug, Drop)]
pub struct Sent {
    pub packet: u64,
    pub tick: u64,
    pub command: Command,
}

impl Sent {
    /// Whether the command went out in the packet before this one.
    pub fn is_fresh(&self, packet: u64) -> bool
        ensures { result ≡ is_fresh packet self.now }
    {
        packet >= 1 && self.packet == packet - 1
    }

    /// The S bit of the command's log in this packet's journal, as the high bit of an octet: 0 where the
    /// command went out in the packet before, else 128 (RFC 6295, A.1).
    pub fn s_bit(&self, packet: u64) -> u8
        ensures bit { result ≡ s_bit packet self.now }
        ensures bound { result ≤ 128 }
    {
        s_of(self.is_fresh(packet))
    }
}

/// An S bit as the high bit of an octet: 0 where something that it speaks of went out in the packet
/// before, else 128 (RFC 6295, A.1).
pub fn s_of(fresh: bool) -> u8
    ensures bit { result ≡ s_of fresh }
    ensures bound { result ≤ 128 }
{
    if fresh { 0 } else { 128 }
}

/// The first place and those after it, or `None` where there is no place.
pub fn first_place(places: &[Sent]) -> Option<(&Sent, &[Sent])>
    ensures { MatchOption result (places.now ≡ []) (λ parts. places.now ≡ parts.0.now ∷ parts.1.now) }
{
    places.split_first()
}

/// Whether packets never fall along the list, as the calls on histories ask.
pub fn in_order(list: &[Sent]) -> bool
    ensures { IsTrue result ↔ InOrder packet_of list.now }
{
    let mut rest = list;
    while let Some((place, later)) = first_place(rest) {
        if !is_before(place, later) {
            return false;
        }
        rest = later;
    }
    true
}

/// Whether the first of the later places, if there is one, is in no earlier packet.
fn is_before(place: &Sent, later: &[Sent]) -> bool
    ensures { result ≡ first_from place.now.packet later.now }
{
    match first_place(later) {
        None => true,
        Some((next, _)) => place.packet <= next.packet,
    }
}

/// The place at which this packet begins, or would begin.
pub fn place_of(list: &[Sent], packet: u64) -> usize
    requires { InOrder packet_of list.now }
    ensures bound { result ≤ length list.now }
    ensures before { take result list.now ≡ below packet_of packet list.now }
    ensures from_on { drop result list.now ≡ since packet_of packet list.now }
{
    list.partition_point(|sent| sent.packet < packet)
}

/// The session history of a packet (RFC 6295, A.1): the commands in packets before it.
pub fn session_history(list: &[Sent], packet: u64) -> &[Sent]
    requires { InOrder packet_of list.now }
    ensures history { result.now ≡ below packet_of packet list.now }
    ensures order { InOrder packet_of result.now }
{
    &list[..place_of(list, packet)]
}

/// The checkpoint history of a packet (RFC 6295, A.1): the commands in packets from the checkpoint on and
/// before it. Whatever ends what, the places that stand in it are what the packet's journal codes.
pub fn checkpoint_history(list: &[Sent], checkpoint: u64, packet: u64) -> &[Sent]
    requires { InOrder packet_of list.now }
    ensures history { result.now ≡ since packet_of checkpoint (below packet_of packet list.now) }
    ensures coded { (ends : Sent → Sent → Bool) → standing ends result.now
        ≡ coded ends packet_of checkpoint (below packet_of packet list.now) }
{
    let session = session_history(list, packet);
    &session[place_of(session, checkpoint)..]
}
