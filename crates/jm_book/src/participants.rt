//! The joined participants, their marks and their slots.

ghost use Rattle.std.specs.Prelude.{◌≡◌, ◌+◌, ◌-◌, ◌<◌, ◌≤◌, ◌==◌, List, [], ◌∷◌, ◌++◌, length, position, IsTrue, IfSome};
ghost use Rattle.jm_book.specs.Participants.{is_of, is_member, find_joined, has_slot, free_slot, moved, noted, others_than, slowest, with_joiner, report_of, marked_by};

use crate::marks::Report;
use arrayvec::ArrayVec;
use std::marker::Model;

/// How many participants a list has room for, and how many slots there are.
pub const SLOTS: usize = 32;

/// How many participants may be joined at once.
pub(crate) const MOST_JOINED: u8 = 32;

/// A joined participant.
#[derive(Clone, Copy, Debug, Default, PartialEq, Eq)]
pub struct Participant {
    /// Its synchronization source.
    pub ssrc: u32,
    /// The last packet that it acknowledged; before that the last packet sent when it joined, or 0.
    pub mark: u64,
    /// The least slot, from 0 to 31, that no other had when it joined.
    pub slot: u8,
    /// The low 16 bits of the number of the last packet that the host received from it, if it received one.
    pub heard: Option<u16>,
}

/// The joined participants, in the order of joining.
#[derive(Debug, Drop)]
pub(crate) struct Participants {
    list: ArrayVec<Participant, SLOTS>,
}

impl Model for Participants {
    ghost use Rattle.std.specs.Prelude.{List};
    ghost use Rattle.jm_book.specs.declared.participants.Participant.{Participant};

    ghost Value = { List Participant };

    ghost view = { λ p. p.list.items };
}

impl Participants {
    pub(crate) fn new() -> Participants
        ensures { result ≡ [] }
    {
        Participants {
            list: ArrayVec::new(),
        }
    }

    pub(crate) fn len(&self) -> usize
        ensures { result ≡ length self.now }
    {
        self.list.len()
    }

    /// The participant of an SSRC, if it is joined.
    pub(crate) fn find(&self, ssrc: u32) -> Option<Participant>
        ensures found { result ≡ find_joined ssrc self.now }
        ensures own { IfSome result (λ one. one.ssrc ≡ ssrc) }
    {
        for one in self.list.as_slice() {
            if one.ssrc == ssrc {
                return Some(*one);
            }
        }
        None
    }

    /// Whether a participant of this SSRC is joined.
    pub(crate) fn has(&self, ssrc: u32) -> bool
        ensures { result ≡ is_member ssrc self.now }
    {
        self.find(ssrc).is_some()
    }

    /// Whether a joined participant has this slot.
    pub(crate) fn has_slot(&self, slot: u8) -> bool
        ensures { result ≡ has_slot self.now slot }
    {
        for one in self.list.as_slice() {
            if one.slot == slot {
                return true;
            }
        }
        false
    }

    /// The least slot that no joined participant has.
    pub(crate) fn free_slot(&self) -> u8
        ensures value { result ≡ free_slot self.now }
        ensures bound { result < 32 }
    {
        for slot in 0..32u8 {
            if !self.has_slot(slot) {
                return slot;
            }
        }
        0
    }

    /// The first that has the least mark.
    pub(crate) fn slowest(&self) -> Option<Participant>
        ensures { result ≡ slowest self.now }
    {
        let [first, others @ ..] = self.list.as_slice() else {
            return None;
        };
        let mut best = *first;
        for one in others {
            if one.mark < best.mark {
                best = *one;
            }
        }
        Some(best)
    }

    /// Sets the mark of one.
    pub(crate) fn set_mark(&mut self, ssrc: u32, mark: u64)
        ensures { self.new ≡ moved ssrc mark self.old }
    {
        move_mark(self.list.as_mut_slice(), ssrc, mark);
    }

    /// Notes the number of the last packet that came from one.
    pub(crate) fn note(&mut self, ssrc: u32, seq: u16)
        ensures { self.new ≡ noted ssrc seq self.old }
    {
        note_heard(self.list.as_mut_slice(), ssrc, seq);
    }

    /// One more joins, where so many packets were sent: its mark is the last of them, or 0, and its slot the least
    /// that nobody has.
    pub(crate) fn join(&mut self, packets: u64, ssrc: u32) -> Participant
        requires { length self.old < SLOTS }
        ensures joined { self.new ≡ with_joiner packets ssrc self.old }
        ensures one { result ≡ record { ssrc = ssrc; mark = packets - 1; slot = free_slot self.old; heard = None } }
        ensures slot { result.slot < 32 }
    {
        let one = Participant {
            ssrc,
            mark: packets.saturating_sub(1),
            slot: self.free_slot(),
            heard: None,
        };
        self.list.push(one);
        one
    }

    /// A joined participant reports the number of the last packet that it received, where so many were sent.
    pub(crate) fn report(&mut self, packets: u64, one: Participant, seq: u16) -> Report
        ensures report { result ≡ report_of packets one seq }
        ensures joined { self.new ≡ marked_by result one.ssrc self.old }
    {
        let report = Report::of(packets, one, seq);
        if let Report::Moved { mark } = report {
            self.set_mark(one.ssrc, mark);
        }
        report
    }

    /// Takes one out.
    pub(crate) fn remove(&mut self, ssrc: u32)
        ensures { self.new ≡ others_than ssrc self.old }
    {
        if let Some(place) = place_of(self.list.as_slice(), ssrc) {
            self.list.remove(place);
        }
    }
}

fn place_of(joined: &[Participant], ssrc: u32) -> Option<usize>
    ensures { result ≡ position (is_of ssrc) joined.now }
{
    joined.iter().position(|one| one.ssrc == ssrc)
}

fn move_mark(joined: &mut [Participant], ssrc: u32, mark: u64)
    ensures { joined.new ≡ moved ssrc mark joined.old }
{
    for one in joined.iter_mut() {
        if one.ssrc == ssrc {
            one.mark = mark;
            return;
        }
    }
}

fn note_heard(joined: &mut [Participant], ssrc: u32, seq: u16)
    ensures { joined.new ≡ noted ssrc seq joined.old }
{
    for one in joined.iter_mut() {
        if one.ssrc == ssrc {
            one.heard = Some(seq);
            return;
        }
    }
}
