// A port over memory. It tells everything, and fails at the calls that its maker names.
ghost use Rattle.std.specs.Prelude.{◌≡◌, ◌≤◌, ◌+◌, ◌↔◌, [], ◌∷◌, ◌++◌, IfOk, IfSome, slice_get, length, drop, vec_len, vec_capacity};
ghost use Rattle.std.specs.Option.{option_map};
ghost use Rattle.jm_edge.specs.Wire as of_wire;
ghost use Rattle.jm_edge.specs.Wire.{Letter};
ghost use Rattle.jm_edge.specs.MemPort.{wire_of, recv_answer, after_recv, received, is_lost, send_answer, after_send};
ghost use Rattle.jm_edge.specs.Marks.{letters, AreWithin};

use super::Addr;
use super::faults::count_fault;
use super::memory::{append_reserved, copy_front, is_listed};
use super::port::{Port, Recv, Sent};
use std::alloc::{AllocError, Global};
use std::marker::Model;

/// A datagram that is to arrive.
#[derive(Drop)]
pub struct Datagram {
    from: Addr,
    octets: Vec<u8>,
}

impl Model for Datagram {
    ghost use Rattle.std.specs.Prelude.{◌≤◌, vec_len};
    ghost use Rattle.jm_edge.specs.Wire.{Letter};

    ghost Value = { Letter };

    ghost view = { λ d. record { addr = d.from; octets = d.octets.items } };

    ghost invariant = { λ d. vec_len d.octets ≤ 65536 };
}

impl Datagram {
    /// A datagram of at most 65,536 octets, from this address.
    pub fn new(alloc: Global, from: Addr, octets: &[u8]) -> Result<Datagram, AllocError>
        requires { length octets.now ≤ 65536 }
        ensures { IfOk result (λ d. d ≡ record { addr = from; octets = octets.now }) }
    {
        Ok(Datagram {
            from,
            octets: Vec::from_slice(alloc, octets)?,
        })
    }
}

// A datagram that went out, by its place among the octets of all.
#[derive(Clone, Copy, Debug, PartialEq, Eq)]
pub struct Mark {
    pub to: Addr,
    pub start: usize,
    pub past: usize,
}

/// A port over memory. Datagrams arrive in the order of a list, and it has room for so many sends with so many octets in
/// all.
#[derive(Drop)]
pub struct MemPort {
    arriving: Vec<Datagram>,
    at: usize,
    octets: Vec<u8>,
    marks: Vec<Mark>,
    room_datagrams: usize,
    room_octets: usize,
    recv_fails: Vec<u64>,
    recv_call: u128,
    recv_faults: u64,
    send_fails: Vec<u64>,
    send_call: u128,
    send_faults: u64,
}

impl Model for MemPort {
    ghost use Rattle.std.specs.Prelude.{◌≤◌, ◌+◌, drop, vec_len, vec_capacity};
    ghost use Rattle.jm_edge.specs.MemPort.{Posting};
    ghost use Rattle.jm_edge.specs.Marks.{letters, AreWithin};

    ghost Value = { Posting };

    ghost view = { λ p. record {
      arriving = drop p.at p.arriving.items;
      gone = letters p.octets.items p.marks.items;
      datagrams = p.room_datagrams;
      octets = p.room_octets;
      recv_fails = p.recv_fails.items;
      recv_call = p.recv_call;
      recv_faults = p.recv_faults;
      send_fails = p.send_fails.items;
      send_call = p.send_call;
      send_faults = p.send_faults;
    } };

    ghost invariant = { λ p. (p.at ≤ vec_len p.arriving) × AreWithin (vec_len p.octets) p.marks.items
        × (vec_len p.octets + p.room_octets ≤ vec_capacity p.octets)
        × (vec_len p.marks + p.room_datagrams ≤ vec_capacity p.marks) };
}

impl MemPort {
    /// A port at which these datagrams arrive, with room for so many sends of so many octets in all. Its receives
    /// fail where their number is in `recv_fails`, and its sends where theirs is in `send_fails`, each counted from
    /// 0 by itself.
    pub fn new(
        alloc: Global,
        arriving: Vec<Datagram>,
        datagrams: usize,
        octets: usize,
        recv_fails: &[u64],
        send_fails: &[u64],
    ) -> Result<MemPort, AllocError>
        ensures { IfOk result (λ p. p ≡ record {
          arriving = arriving.items;
          gone = [];
          datagrams = datagrams;
          octets = octets;
          recv_fails = recv_fails.now;
          recv_call = 0;
          recv_faults = 0;
          send_fails = send_fails.now;
          send_call = 0;
          send_faults = 0;
        }) }
    {
        Ok(MemPort {
            octets: Vec::with_capacity(alloc, octets)?,
            marks: Vec::with_capacity(alloc, datagrams)?,
            recv_fails: Vec::from_slice(alloc, recv_fails)?,
            send_fails: Vec::from_slice(alloc, send_fails)?,
            arriving,
            at: 0,
            room_datagrams: datagrams,
            room_octets: octets,
            recv_call: 0,
            recv_faults: 0,
            send_call: 0,
            send_faults: 0,
        })
    }
}

impl Datagram {
    // Puts its octets at the front of a buffer that has room for any, and tells how many they are.
    fn put_front(&self, buf: &mut [u8]) -> usize
        requires { length buf.old ≡ 65536 }
        ensures len { result ≡ length self.now.octets }
        ensures bound { result ≤ 65536 }
        ensures put { buf.new ≡ self.now.octets ++ drop (length self.now.octets) buf.old }
    {
        copy_front(self.octets.as_slice(), buf)
    }

    // Where it came from.
    fn sender(&self) -> Addr
        ensures { result ≡ self.now.addr }
    {
        self.from
    }
}

impl Port for MemPort {
    ghost wire = { λ p. wire_of p };

    /// Answers `Failed` exactly where the number of this call is in the list, and then takes nothing. Else it
    /// gives the first datagram, or `Quiet` where none is left.
    fn recv(&mut self, buf: &mut [u8]) -> Recv
        requires { length buf.old ≡ 65536 }
        ensures answer { result ≡ recv_answer self.old }
        ensures after { self.new ≡ after_recv self.old }
        ensures filled { buf.new ≡ received self.old buf.old }

        // What every port promises.
        ensures within { of_wire.IsWithin result }
        ensures len { length buf.new ≡ 65536 }
        ensures receives { of_wire.Receives result buf.new (wire_of self.old) (wire_of self.new) }
    {
        let fails = is_listed(&self.recv_fails, self.recv_call);
        self.recv_call = self.recv_call.saturating_add(1);
        if fails {
            count_fault(&mut self.recv_faults);
            return Recv::Failed;
        }
        let Some(letter) = self.arriving.get(self.at) else {
            return Recv::Quiet;
        };
        let len = letter.put_front(buf);
        let from = letter.sender();
        self.at += 1;
        Recv::Got { len, from }
    }

    /// Answers `Failed` exactly where the number of this call is in the list or there is no room for it, and then
    /// sends nothing.
    fn send(&mut self, to: Addr, octets: &[u8]) -> Sent
        ensures answer { result ≡ send_answer self.old (record { addr = to; octets = octets.now }) }
        ensures after { self.new ≡ after_send self.old (record { addr = to; octets = octets.now }) }

        // What every port promises.
        ensures sends { of_wire.Sends result (record { addr = to; octets = octets.now }) (wire_of self.old) (wire_of self.new) }
    {
        let is_lost = self.is_lost(octets.len());
        self.send_call = self.send_call.saturating_add(1);
        if is_lost {
            count_fault(&mut self.send_faults);
            return Sent::Failed;
        }
        add_letter(&mut self.octets, &mut self.marks, to, octets);
        self.room_datagrams -= 1;
        self.room_octets -= octets.len();
        Sent::Gone
    }
}

impl MemPort {
    // Whether the next send fails, of a datagram of so many octets.
    fn is_lost(&self, len: usize) -> bool
        ensures { result ≡ is_lost self.now len }
    {
        is_listed(&self.send_fails, self.send_call)
            || self.room_datagrams == 0
            || self.room_octets < len
    }
}

// Adds a datagram for which there is room to those that went out.
#[tactic(auto, using(crate::specs::MarkLaws::letters_added, crate::specs::MarkLaws::within_added))]
fn add_letter(octets: &mut Vec<u8>, marks: &mut Vec<Mark>, to: Addr, piece: &[u8])
    requires within { AreWithin (vec_len octets.old) marks.old.items }
    requires octets_room { vec_len octets.old + length piece.now ≤ vec_capacity octets.old }
    requires marks_room { vec_len marks.old + 1 ≤ vec_capacity marks.old }
    ensures letters { letters octets.new.items marks.new.items
        ≡ letters octets.old.items marks.old.items ++ record { addr = to; octets = piece.now } ∷ [] }
    ensures within { AreWithin (vec_len octets.new) marks.new.items }
    ensures octets_len { vec_len octets.new ≡ vec_len octets.old + length piece.now }
    ensures octets_capacity { vec_capacity octets.old ≤ vec_capacity octets.new }
    ensures marks_len { vec_len marks.new ≡ vec_len marks.old + 1 }
    ensures marks_capacity { vec_capacity marks.old ≤ vec_capacity marks.new }
{
    let start = octets.len();
    append_reserved(octets, piece);
    let past = octets.len();
    mark_reserved(marks, Mark { to, start, past });
}

// Marks a datagram for which there is room.
fn mark_reserved(marks: &mut Vec<Mark>, mark: Mark)
    requires { vec_len marks.old + 1 ≤ vec_capacity marks.old }
    ensures items { marks.new.items ≡ marks.old.items ++ mark ∷ [] }
    ensures capacity { vec_capacity marks.old ≤ vec_capacity marks.new }
    ensures len { vec_len marks.new ≡ vec_len marks.old + 1 }
{
    match marks.push(mark) {
        Ok(()) => {}
        Err(_) => unreachable!(),
    }
}

// The mark at this place, if there is one.
fn copied_at(marks: &[Mark], k: usize) -> Option<Mark>
    ensures { result ≡ slice_get marks.now k }
{
    marks.get(k).copied()
}

// The same, with what is known of it.
fn mark_at(marks: &[Mark], k: usize, octets: &[u8]) -> Option<Mark>
    requires { AreWithin (length octets.now) marks.now }
    ensures value { result ≡ slice_get marks.now k }
    ensures within { IfSome result (λ mark. (mark.start ≤ mark.past) × (mark.past ≤ length octets.now)) }
{
    // (its length is read so that the clause's number is known to be one)
    let _len = octets.len();
    copied_at(marks, k)
}

impl MemPort {
    /// The datagram that went out as number k, counted from 0: where to, and its octets. `None` exactly where
    /// there is none.
    pub fn sent_at(&self, k: usize) -> Option<(Addr, &[u8])>
        ensures { option_map (λ sent. record { addr = sent.0; octets = sent.1.now }) result ≡ slice_get self.now.gone k }
    {
        let octets = self.octets.as_slice();
        match mark_at(self.marks.as_slice(), k, octets) {
            Some(mark) => Some((mark.to, &octets[mark.start..mark.past])),
            None => None,
        }
    }
}
