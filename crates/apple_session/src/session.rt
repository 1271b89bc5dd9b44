//! The machine.

use crate::answer::{Act, Answer, PortKind, Why};
use crate::clock::offset;
use crate::list::{MOST_PEERS, make_room, peer_of, remove, replace};
use crate::peer::Peer;
use apple_msg::{Message, Name};
use arrayvec::ArrayVec;
use jm_edge::Addr;
use std::marker::Model;

/// A host with its peers, at most 32, in the order of their first invitations.
#[derive(Debug, Drop)]
pub struct Session {
    ssrc: u32,
    name: Name,
    peers: ArrayVec<Peer, MOST_PEERS>,
}

impl Model for Session {
    ghost use Rattle.apple_session.specs.Host.{Host};
    ghost use Rattle.apple_session.specs.Peers.{IsOrderly};

    ghost Value = { Host };

    ghost view = { λ s. record { ssrc = s.ssrc; name = s.name; peers = s.peers.items } };

    ghost invariant = { λ s. IsOrderly s.ssrc s.peers.items };
}

impl Session {
    ghost use Rattle.std.specs.Prelude.{◌≡◌, ◌≢◌, [], slice_get, None};
    ghost use Rattle.apple_session.specs.Host.{Host};
    ghost use Rattle.apple_session.specs.Peers.{IsOrderly, peer_of, without};
    ghost use Rattle.apple_session.specs.declared.answer.Act.TheVariants.{Ack};
    ghost use Rattle.apple_session.specs.Machine.{Gives, with_room, accepted, rejected, newly_invited, invited_again, on_control, joining, on_data, on_invite, gone, counted, on_clock, of_joined, silent, step};

    /// A host that nobody was invited to.
    pub fn new(ssrc: u32, name: Name) -> Session
        ensures { result ≡ record { ssrc = ssrc; name = name; peers = [] } }
    {
        Session {
            ssrc,
            name,
            peers: ArrayVec::new(),
        }
    }

    /// The peer at this place in the order of first invitations, counted from 0; `None` exactly where there is
    /// none.
    pub fn peer(&self, k: usize) -> Option<Peer>
        ensures peer { result ≡ slice_get self.now.peers k }
        ensures orderly { IsOrderly self.now.ssrc self.now.peers }
    {
        self.peers.as_slice().get(k).copied()
    }

    /// Forgets the peer of this SSRC, where there is one.
    pub fn drop_peer(&mut self, ssrc: u32)
        ensures peers { self.new ≡ record self.old { peers = without ssrc self.old.peers } }
        ensures orderly { IsOrderly self.new.ssrc self.new.peers }
    {
        remove(&mut self.peers, ssrc);
    }

    /// What the host answers to a message that came to `port` from `from` at the moment `now`, and what the
    /// session is to do. `room` says whether one more may take part; a moment is in units of 100 microseconds.
    ///
    /// - An invitation on the control port gets OK and makes a peer. One more with the token that is there
    ///   changes nothing, and one with another token begins anew: the peer is only invited, and a joined one
    ///   leaves. A 33rd peer takes the place of the first that is only invited. It gets NO where all have
    ///   joined, and so does the host's own SSRC.
    /// - An invitation on the data port joins an invited peer of the same token where there is room. The same
    ///   of a joined peer gets OK, and any other NO.
    /// - A bye takes the peer out. A clock exchange on the data port and feedback on either are of use from a
    ///   joined peer alone.
    pub fn on_message(
        &mut self,
        room: bool,
        port: PortKind,
        from: Addr,
        m: &Message,
        now: u64,
    ) -> Answer
        ensures answer { result ≡ (step self.old room port from m.now now).answer }
        ensures peers { self.new ≡ record self.old { peers = (step self.old room port from m.now now).peers } }
        ensures orderly { IsOrderly self.new.ssrc self.new.peers }
    {
        let answer = self.heard(room, port, from, m, now);
        // The peers are seen, so that what holds of them at any time is known here.
        let _ = &self.peers;
        answer
    }

    #[tactic(auto, unfolding(crate::specs::Machine::step))]
    fn heard(&mut self, room: bool, port: PortKind, from: Addr, m: &Message, now: u64) -> Answer
        ensures { Gives self.old self.new result (step self.old room port from m.now now) }
    {
        match m {
            Message::Invite { token, ssrc, .. } => self.on_invite(room, port, from, *token, *ssrc),
            Message::Bye { ssrc, .. } => self.on_bye(*ssrc),
            Message::Clock { ssrc, count, times } => self.on_clock(port, *ssrc, *count, times, now),
            Message::Feedback { ssrc, seq } => self.on_feedback(*ssrc, *seq),
            Message::Accept { .. } | Message::Reject { .. } | Message::RateLimit => {
                Answer::silent(Act::Ignored(Why::NotUsed))
            }
        }
    }

    fn accepted(&self, token: u32, act: Act) -> Answer
        ensures { result ≡ (accepted self.now token act self.now.peers).answer }
    {
        let reply = Message::Accept {
            token,
            ssrc: self.ssrc,
            name: self.name.copy(),
        };
        Answer {
            reply: Some(reply),
            act,
        }
    }

    fn rejected(&self, token: u32) -> Answer
        ensures { result ≡ (rejected self.now token).answer }
    {
        let reply = Message::Reject {
            token,
            ssrc: self.ssrc,
            name: self.name.copy(),
        };
        Answer {
            reply: Some(reply),
            act: Act::Plain,
        }
    }

    fn on_invite(&mut self, room: bool, port: PortKind, from: Addr, token: u32, ssrc: u32) -> Answer
        ensures { Gives self.old self.new result (on_invite self.old room port from token ssrc) }
    {
        match port {
            PortKind::Ctl => self.on_control(from, token, ssrc),
            PortKind::Rtp => self.on_data(room, from, token, ssrc),
        }
    }

    fn on_control(&mut self, from: Addr, token: u32, ssrc: u32) -> Answer
        ensures { Gives self.old self.new result (on_control self.old from token ssrc) }
    {
        if ssrc == self.ssrc {
            return self.rejected(token);
        }
        let peer = Peer {
            ssrc,
            token,
            control: from,
            data: None,
        };
        match peer_of(self.peers.as_slice(), ssrc) {
            Some(old) => self.invited_again(peer, old),
            None => self.newly_invited(peer),
        }
    }

    fn invited_again(&mut self, peer: Peer, old: Peer) -> Answer
        ensures { Gives self.old self.new result (invited_again self.old peer old) }
    {
        if old.token == peer.token {
            return self.accepted(peer.token, Act::Plain);
        }
        replace(&mut self.peers, peer);
        self.accepted(peer.token, old.ends())
    }

    fn newly_invited(&mut self, peer: Peer) -> Answer
        requires guest { peer.ssrc ≢ self.old.ssrc }
        requires new { peer_of peer.ssrc self.old.peers ≡ None }
        ensures { Gives self.old self.new result (newly_invited self.old peer (with_room self.old.peers)) }
    {
        if !make_room(&mut self.peers) {
            return self.rejected(peer.token);
        }
        self.peers.push(peer);
        self.accepted(peer.token, Act::Plain)
    }

    fn on_data(&mut self, room: bool, from: Addr, token: u32, ssrc: u32) -> Answer
        ensures { Gives self.old self.new result (on_data self.old room from token ssrc) }
    {
        match peer_of(self.peers.as_slice(), ssrc) {
            Some(peer) if peer.token == token => self.joining(room, from, peer),
            _ => self.rejected(token),
        }
    }

    fn joining(&mut self, room: bool, from: Addr, peer: Peer) -> Answer
        ensures { Gives self.old self.new result (joining self.old room from peer) }
    {
        if peer.is_joined() {
            return self.accepted(peer.token, Act::Plain);
        }
        if !room {
            return self.rejected(peer.token);
        }
        let joined = Peer {
            data: Some(from),
            ..peer
        };
        replace(&mut self.peers, joined);
        self.accepted(peer.token, Act::Join(peer.ssrc))
    }

    fn on_bye(&mut self, ssrc: u32) -> Answer
        ensures { Gives self.old self.new result (gone self.old (peer_of ssrc self.old.peers)) }
    {
        let Some(peer) = peer_of(self.peers.as_slice(), ssrc) else {
            return Answer::silent(Act::Ignored(Why::Unknown));
        };
        remove(&mut self.peers, peer.ssrc);
        Answer::silent(peer.ends())
    }

    fn on_clock(&self, port: PortKind, ssrc: u32, count: u8, times: &[u64; 3], now: u64) -> Answer
        ensures { result ≡ (on_clock self.now port ssrc count times.now now).answer }
    {
        match port {
            PortKind::Ctl => Answer::silent(Act::Ignored(Why::WrongPort)),
            PortKind::Rtp => match peer_of(self.peers.as_slice(), ssrc) {
                None => Answer::silent(Act::Ignored(Why::Unknown)),
                Some(peer) => {
                    if !peer.is_joined() {
                        return Answer::silent(Act::Ignored(Why::NotJoined));
                    }
                    self.counted(count, times, now)
                }
            },
        }
    }

    fn counted(&self, count: u8, times: &[u64; 3], now: u64) -> Answer
        ensures { result ≡ (counted self.now count times.now now).answer }
    {
        if count == 0 {
            let reply = Message::Clock {
                ssrc: self.ssrc,
                count: 1,
                times: [times[0], now, 0],
            };
            return Answer {
                reply: Some(reply),
                act: Act::Plain,
            };
        }
        if count == 2 {
            return Answer::silent(Act::Clocked {
                offset: offset(times),
            });
        }
        Answer::silent(Act::Ignored(Why::NotUsed))
    }

    fn on_feedback(&self, ssrc: u32, seq: u16) -> Answer
        ensures { result ≡ (of_joined self.now (peer_of ssrc self.now.peers) (silent (Ack ssrc seq) self.now.peers)).answer }
    {
        match peer_of(self.peers.as_slice(), ssrc) {
            Some(peer) if peer.is_joined() => Answer::silent(Act::Ack { ssrc, seq }),
            Some(_) => Answer::silent(Act::Ignored(Why::NotJoined)),
            None => Answer::silent(Act::Ignored(Why::Unknown)),
        }
    }
}
