//! Room for the octets of one packet, which serves one cut after the other.

ghost use Rattle.std.specs.Prelude.{◌≡◌, ◌+◌, ◌≤◌, length, IfOk, IsTrue};
ghost use Rattle.jm_book.specs.Book.{IsReady, Takes};
ghost use Rattle.jm_book.specs.Session.{session_of};
ghost use Rattle.jm_book.specs.Packet.{packet_of};
ghost use Rattle.jm_book.specs.Answers.{is_packet};
ghost use Rattle.jm_book.specs.BookAnswers.{cut_answer};
ghost use Rattle.jm_book.specs.declared.steps.Step.TheVariants.{Cut};

use jm_book::{Book, Cutted};
use jm_wire::Octets;
use std::alloc::{AllocError, Global};
use std::marker::Model;

/// The octets that a packet has room for.
const PACKET_ROOM: usize = 21_100;

/// The octets of the last packet, in room for the longest.
#[derive(Debug, Drop)]
pub struct PacketRoom {
    octets: Octets,
}

impl Model for PacketRoom {
    ghost use Rattle.std.specs.Prelude.{ℕ, List, ◌+◌, ◌≤◌, length};

    ghost Value = { List ℕ };

    ghost view = { λ r. r.octets.octets };

    ghost invariant = { λ r. 21100 ≤ r.octets.spare + length r.octets.octets };
}

impl PacketRoom {
    pub fn new(alloc: Global) -> Result<PacketRoom, AllocError> {
        let octets = Octets::with_room(PACKET_ROOM, alloc)?;
        Ok(PacketRoom { octets })
    }

    /// Cuts a packet. Its octets are then here.
    pub fn cut(&mut self, book: &mut Book, tick: u64) -> Cutted
        requires { IsReady book.old }
        ensures answer { result ≡ cut_answer book.old.config book.old.steps }
        ensures taken { Takes book.old book.new (is_packet result) (Cut tick) }
        ensures packet { IsTrue (is_packet result) → self.new ≡ packet_of (session_of book.old.config book.old.steps) tick }
    {
        self.octets.clear();
        book.cut(tick, &mut self.octets)
    }

    pub fn as_slice(&self) -> &[u8]
        ensures { result.now ≡ self.now }
    {
        self.octets.as_slice()
    }
}
