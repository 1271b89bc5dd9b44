//! The list of peers.

ghost use Rattle.std.specs.Prelude.{◌≡◌, ℕ, ◌<◌, length, position, find, IsTrue, Some, None, false, if◌then◌else◌};
ghost use Rattle.apple_session.specs.Peers.{is_from, is_waiting, peer_of, without, replaced, Absent, AreDistinct, IsOrderly};
ghost use Rattle.apple_session.specs.Machine.{with_room};

use crate::peer::Peer;
use arrayvec::ArrayVec;

/// The most peers that a host keeps.
pub const MOST_PEERS: usize = 32;

fn place_of(peers: &[Peer], ssrc: u32) -> Option<usize>
    ensures { result ≡ position (is_from ssrc) peers.now }
{
    peers.iter().position(|peer| peer.ssrc == ssrc)
}

/// The peer of this SSRC.
pub fn peer_of(peers: &[Peer], ssrc: u32) -> Option<Peer>
    ensures { result ≡ peer_of ssrc peers.now }
{
    peers.iter().copied().find(|peer| peer.ssrc == ssrc)
}

/// The first peer that is only invited.
pub fn first_waiting(peers: &[Peer]) -> Option<Peer>
    ensures { result ≡ find is_waiting peers.now }
{
    peers.iter().copied().find(|peer| !peer.data.is_some())
}

/// Takes the peer of this SSRC out.
pub fn remove(peers: &mut ArrayVec<Peer, MOST_PEERS>, ssrc: u32)
    requires { AreDistinct peers.old.items }
    ensures peers { peers.new.items ≡ without ssrc peers.old.items }
    ensures orderly { (host : ℕ) → IsOrderly host peers.old.items → IsOrderly host peers.new.items }
    ensures absent { (other : ℕ) → Absent other peers.old.items → Absent other peers.new.items }
{
    if let Some(place) = place_of(peers.as_slice(), ssrc) {
        peers.remove(place);
    }
}

/// Puts this peer in the place of the one with its SSRC.
pub fn replace(peers: &mut ArrayVec<Peer, MOST_PEERS>, peer: Peer)
    requires { AreDistinct peers.old.items }
    ensures peers { peers.new.items ≡ replaced peer peers.old.items }
    ensures orderly { (host : ℕ) → IsOrderly host peers.old.items → IsOrderly host peers.new.items }
{
    if let Some(place) = place_of(peers.as_slice(), peer.ssrc) {
        peers[place] = peer;
    }
}

/// Makes room for one more peer: where the list is full, the first that is only invited gives way. It answers
/// whether there is room, and else changes nothing.
pub fn make_room(peers: &mut ArrayVec<Peer, MOST_PEERS>) -> bool
    requires { AreDistinct peers.old.items }
    ensures room { with_room peers.old.items ≡ (if result then Some peers.new.items else None) }
    ensures few { IsTrue result → length peers.new.items < 32 }
    ensures same { result ≡ false → peers.new.items ≡ peers.old.items }
    ensures orderly { (host : ℕ) → IsOrderly host peers.old.items → IsOrderly host peers.new.items }
    ensures absent { (other : ℕ) → Absent other peers.old.items → Absent other peers.new.items }
{
    if !peers.is_full() {
        return true;
    }
    match first_waiting(peers.as_slice()) {
        Some(waiting) => {
            remove(peers, waiting.ssrc);
            true
        }
        None => false,
    }
}
