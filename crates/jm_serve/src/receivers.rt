//! Whose packets are taken: the receivers of the joined participants.

ghost use Rattle.std.specs.Prelude.{◌≡◌, ◌<◌, [], length, position, remove, IfOk, IfSome, OnErr};
ghost use Rattle.jm_serve.specs.Receivers.{is_of, with_newcomer, place_for, IsInside, TakesWith, TakesAt, TakesPacket};

use jm_cmds::ReadError;
use jm_packet::read_source;
use jm_receiver::{Receiver, Took};
use std::alloc::{AllocError, Global};
use std::marker::Model;

/// A participant whose packets are taken.
#[derive(Debug, Drop)]
pub struct Slot {
    /// The number under which its commands are played.
    pub player: u8,
    /// The source of its stream.
    pub ssrc: u32,
    /// What it sent so far.
    pub receiver: Receiver,
}

// What a participant's receiver took from a packet.
#[derive(Debug, Drop)]
pub struct Came {
    // The participant's place among those whose packets are taken.
    pub place: usize,
    pub ssrc: u32,
    pub player: u8,
    pub took: Took,
}

// The place of the participant of this source.
fn place_of(slots: &[Slot], ssrc: u32) -> Option<usize>
    ensures place { result ≡ position (is_of ssrc) slots.now }
    ensures inside { IfSome result (λ place. place < length slots.now) }
{
    slots.iter().position(|slot| slot.ssrc == ssrc)
}

// The packet is given to this participant's receiver, which stands at this place.
fn take_with(slot: &mut Slot, place: usize, octets: &[u8]) -> Result<Option<Came>, AllocError>
    ensures { TakesWith place octets.now slot.old result slot.new }
{
    match slot.receiver.accept(octets) {
        Err(ReadError::Memory) => Err(AllocError),
        Err(ReadError::Fault(_fault)) => Ok(None),
        Ok(took) => Ok(Some(Came {
            place,
            ssrc: slot.ssrc,
            player: slot.player,
            took,
        })),
    }
}

/// The participants whose packets are taken, in the order in which they joined. Contracts see it as their list.
#[derive(Debug, Drop)]
pub struct Receivers {
    list: Vec<Slot>,
}

impl Model for Receivers {
    ghost use Rattle.std.specs.Prelude.{List};
    ghost use Rattle.jm_serve.specs.declared.receivers.Slot.{Slot};

    ghost Value = { List Slot };

    ghost view = { λ r. r.list.items };
}

impl Receivers {
    /// Nobody.
    pub fn none(alloc: Global) -> Receivers
        ensures { result ≡ [] }
    {
        Receivers {
            list: Vec::new(alloc),
        }
    }

    // The place of the participant whose packet these octets may be, if there is one.
    fn place_for(&self, octets: &[u8]) -> Option<usize>
        ensures place { result ≡ place_for octets.now self.now }
        ensures inside { IfSome result (λ place. place < length self.now) }
    {
        match read_source(octets) {
            Err(_fault) => None,
            Ok(source) => place_of(self.list.as_slice(), source),
        }
    }

    // The packet is given to the receiver at this place.
    fn take_at(&mut self, place: usize, octets: &[u8]) -> Result<Option<Came>, AllocError>
        requires { place < length self.old }
        ensures takes { TakesAt place octets.now self.old result self.new }
        ensures len { length self.new ≡ length self.old }
    {
        take_with(&mut self.list[place], place, octets)
    }

    // The packet is given to the receiver of its stream. `None` where there is none, or where it takes nothing.
    pub(crate) fn take(&mut self, octets: &[u8]) -> Result<Option<Came>, AllocError>
        ensures takes { TakesPacket octets.now self.old result self.new }
        ensures inside { IfOk result (λ came. IsInside came self.new) }
    {
        match self.place_for(octets) {
            None => Ok(None),
            Some(place) => self.take_at(place, octets),
        }
    }

    // The participant at this place goes.
    pub(crate) fn remove(&mut self, place: usize)
        requires { place < length self.old }
        ensures { self.new ≡ remove self.old place }
    {
        self.list.remove(place);
    }

    // A participant joined. Who had its number or its source before is gone.
    pub(crate) fn welcome(&mut self, player: u8, ssrc: u32, alloc: Global) -> Result<(), AllocError>
        ensures joined { IfOk result (λ _. self.new ≡ with_newcomer player ssrc self.old) }
        ensures unchanged { OnErr result (self.new ≡ self.old) }
    {
        let receiver = Receiver::new(ssrc, alloc)?;
        self.list.reserve(1)?;
        self.list
            .retain(|slot| slot.player != player && slot.ssrc != ssrc);
        self.list.push_reserved(Slot {
            player,
            ssrc,
            receiver,
        });
        Ok(())
    }
}
