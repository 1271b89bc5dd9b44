//! Who takes part: the host with its peers, the local players, and the joined participants.

ghost use Rattle.std.specs.Prelude.{◌≡◌, ◌+◌, ◌-◌, ◌<◌, ◌≤◌, []};
ghost use Rattle.jm_book.specs.Members.{no_members, members_after};
ghost use Rattle.jm_book.specs.Participants.{checkpoint_at, slowest, find_joined};
ghost use Rattle.apple_session.specs.Peers.{is_joined as is_joined_peer};
ghost use Rattle.jm_book.specs.Answers.{is_known, members_enter, members_cut, members_ack, members_join, members_leave, members_hear, is_entered, is_moved, is_joined, is_left, is_noted, after_if, entry_of, number_heard, feedback_of, addresses_of};

use crate::answers::{Acked, Cutted, Entered, Gone, Heard, Joined};
use crate::lists::{AddrList, FeedbackEntry, FeedbackList, MOST_ENTRIES};
use crate::marks::Report;
use crate::participants::{MOST_JOINED, Participant, Participants};
use crate::steps::{Config, Step};
use apple_session::{Peer, Session};
use std::marker::Model;

/// How many local players may enter, and the first number of a participant.
pub(crate) const MOST_PLAYERS: u8 = 64;

/// The journal names its checkpoint by 16 bits, so no packet goes out this far past it.
const MOST_BEHIND: u64 = 32_767;

/// The host with its peers, the number of local players, and the participants in the order of joining.
#[derive(Debug, Drop)]
pub(crate) struct Roster {
    pub(crate) host: Session,
    entered: u8,
    pub(crate) joined: Participants,
}

impl Model for Roster {
    ghost use Rattle.jm_book.specs.Members.{Members};
    ghost use Rattle.jm_book.specs.Core.{AreSound};

    ghost Value = { Members };

    ghost view = { λ r. record { host = r.host; entered = r.entered; joined = r.joined } };

    ghost invariant = { λ r. AreSound (record { host = r.host; entered = r.entered; joined = r.joined }) };
}

/// Whether a step may be taken, and how many a tape takes.
#[derive(Clone, Copy, Debug)]
pub(crate) struct Room {
    pub(crate) left: bool,
    pub(crate) events: u32,
}

impl Roster {
    /// The host alone.
    pub(crate) fn new(config: &Config) -> Roster
        ensures { result ≡ no_members config.now }
    {
        Roster {
            host: Session::new(config.ssrc, config.name.copy()),
            entered: 0,
            joined: Participants::new(),
        }
    }

    /// Whether a local player of this number entered, or a joined participant has it.
    pub(crate) fn is_known(&self, player: u8) -> bool
        ensures { result ≡ is_known self.now player }
    {
        if player < MOST_PLAYERS {
            player < self.entered
        } else {
            self.joined.has_slot(player - MOST_PLAYERS)
        }
    }

    /// The least mark of the joined participants; with none joined the last packet sent, or 0.
    pub(crate) fn checkpoint(&self, packets: u64) -> u64
        ensures { result ≡ checkpoint_at packets self.now.joined }
    {
        match self.joined.slowest() {
            Some(one) => one.mark,
            None => packets.saturating_sub(1),
        }
    }

    /// What a cut is answered where so many packets were sent.
    pub(crate) fn cutting(&self, room: Room, packets: u64) -> Cutted
        ensures { result ≡ members_cut room.left room.events packets self.now }
    {
        if !room.left {
            return Cutted::RecordFull {
                events: room.events,
            };
        }
        match self.joined.slowest() {
            Some(one) => {
                if packets.saturating_sub(one.mark) >= MOST_BEHIND {
                    return Cutted::Behind {
                        ssrc: one.ssrc,
                        mark: one.mark,
                    };
                }
                Cutted::Packet { number: packets }
            }
            None => Cutted::Packet { number: packets },
        }
    }

    /// A local player enters.
    pub(crate) fn enter(&mut self, room: Room) -> Entered
        ensures answer { result ≡ members_enter room.left room.events self.old }
        ensures after { self.new ≡ after_if (is_entered result) 0 self.old Step.Enter }
    {
        if !room.left {
            return Entered::RecordFull {
                events: room.events,
            };
        }
        if self.entered >= MOST_PLAYERS {
            return Entered::PlayersFull { most: MOST_PLAYERS };
        }
        let player = self.entered;
        self.entered = player + 1;
        Entered::Player(player)
    }

    /// A participant joins, where so many packets were sent.
    pub(crate) fn join(&mut self, room: Room, packets: u64, ssrc: u32) -> Joined
        ensures answer { result ≡ members_join room.left room.events packets self.old ssrc }
        ensures after { self.new ≡ after_if (is_joined result) packets self.old (Step.Join ssrc) }
    {
        if self.joined.has(ssrc) {
            return Joined::Already;
        }
        if !room.left {
            return Joined::RecordFull {
                events: room.events,
            };
        }
        if self.joined.len() >= usize::from(MOST_JOINED) {
            return Joined::SessionFull { most: MOST_JOINED };
        }
        let one = self.joined.join(packets, ssrc);
        Joined::At {
            mark: one.mark,
            player: MOST_PLAYERS + one.slot,
        }
    }

    /// A participant leaves, and its peer is dropped.
    pub(crate) fn leave(&mut self, room: Room, ssrc: u32) -> Gone
        ensures answer { result ≡ members_leave room.left room.events self.old ssrc }
        ensures after { self.new ≡ after_if (is_left result) 0 self.old (Step.Leave ssrc) }
    {
        if !self.joined.has(ssrc) {
            return Gone::UnknownSsrc;
        }
        if !room.left {
            return Gone::RecordFull {
                events: room.events,
            };
        }
        self.joined.remove(ssrc);
        self.host.drop_peer(ssrc);
        Gone::Left
    }

    /// A participant reports the low 16 bits of the last packet that it received.
    pub(crate) fn ack(&mut self, room: Room, packets: u64, ssrc: u32, seq: u16) -> Acked
        ensures answer { result ≡ members_ack room.left room.events packets self.old ssrc seq }
        ensures after { self.new ≡ after_if (is_moved result) packets self.old (Step.Ack ssrc seq) }
    {
        let Some(one) = self.joined.find(ssrc) else {
            return Acked::UnknownSsrc;
        };
        if !room.left {
            return Acked::RecordFull {
                events: room.events,
            };
        }
        self.joined.report(packets, one, seq).acked()
    }

    /// The number of the last packet that came from a participant is noted.
    pub(crate) fn hear(&mut self, room: Room, ssrc: u32, seq: u16) -> Heard
        ensures answer { result ≡ members_hear room.left room.events self.old ssrc }
        ensures after { self.new ≡ after_if (is_noted result) 0 self.old (Step.Hear ssrc seq) }
    {
        if !self.joined.has(ssrc) {
            return Heard::UnknownSsrc;
        }
        if !room.left {
            return Heard::RecordFull {
                events: room.events,
            };
        }
        self.joined.note(ssrc, seq);
        Heard::Noted
    }

    /// What is to be reported to a peer, where it is joined and was heard.
    fn feedback_to(&self, peer: &Peer) -> Option<FeedbackEntry>
        ensures { result ≡ entry_of (is_joined_peer peer.now) peer.now.control (number_heard (find_joined peer.now.ssrc self.now.joined)) }
    {
        if !peer.is_joined() {
            return None;
        }
        match self.joined.find(peer.ssrc) {
            Some(one) => match one.heard {
                Some(seq) => Some(FeedbackEntry {
                    to: peer.control,
                    seq,
                }),
                None => None,
            },
            None => None,
        }
    }

    /// Puts into `out` what is to be reported to the joined peers, in their order.
    pub(crate) fn feedback(&self, out: &mut FeedbackList)
        ensures { out.new ≡ feedback_of self.now.joined self.now.host.peers }
    {
        out.clear();
        for k in 0..MOST_ENTRIES {
            let Some(peer) = self.host.peer(k) else {
                return;
            };
            out.add(self.feedback_to(&peer));
        }
    }

    /// Puts into `out` the data addresses of the joined peers, in their order.
    pub(crate) fn addresses(&self, out: &mut AddrList)
        ensures { out.new ≡ addresses_of self.now.host.peers }
    {
        out.clear();
        for k in 0..MOST_ENTRIES {
            let Some(peer) = self.host.peer(k) else {
                return;
            };
            out.add(peer.data);
        }
    }
}
