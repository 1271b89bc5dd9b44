// A source and a sink over memory. They tell everything, and fail at the calls that their maker names.
ghost use Rattle.std.specs.Prelude.{◌≡◌, ◌<◌, ◌≤◌, ◌+◌, ◌-◌, ◌^◌, ◌↔◌, ◌||◌, ◌++◌, [], Some, IfOk, min, length, take, drop, vec_len, vec_capacity};
ghost use Rattle.jm_edge.specs.Faults.{Rose};
ghost use Rattle.jm_edge.specs.MemSource.{is_due, read_answer, after_read, filled};
ghost use Rattle.jm_edge.specs.MemSink.{write_answer, after_write};
ghost use Rattle.jm_edge.specs.Source as of_source;
ghost use Rattle.jm_edge.specs.Sink as of_sink;

use super::faults::count_fault;
use super::sink::{Put, Sink};
use super::source::{Got, Source};
use std::alloc::{AllocError, Global};
use std::marker::Model;

/// A source over octets in memory. A read gives as many as there are and as fit.
#[derive(Drop)]
pub struct MemSource {
    octets: Vec<u8>,
    at: usize,
    fails: Vec<u64>,
    call: u128,
    faults: u64,
}

impl Model for MemSource {
    ghost use Rattle.std.specs.Prelude.{◌≤◌, drop, vec_len};
    ghost use Rattle.jm_edge.specs.MemSource.{Reading};

    ghost Value = { Reading };

    ghost view = { λ s. record { left = drop s.at s.octets.items; fails = s.fails.items; call = s.call; faults = s.faults } };

    ghost invariant = { λ s. s.at ≤ vec_len s.octets };
}

impl MemSource {
    /// A source over a copy of `octets`, whose calls with the numbers in `fails` fail, counted from 0.
    pub fn new(alloc: Global, octets: &[u8], fails: &[u64]) -> Result<MemSource, AllocError>
        ensures { IfOk result
            (λ s. s ≡ record { left = octets.now; fails = fails.now; call = 0; faults = 0 }) }
    {
        Ok(MemSource {
            octets: Vec::from_slice(alloc, octets)?,
            at: 0,
            fails: Vec::from_slice(alloc, fails)?,
            call: 0,
            faults: 0,
        })
    }
}

// Whether the call of this number is one that fails.
pub(crate) fn is_listed(fails: &[u64], call: u128) -> bool
    ensures { result ≡ is_due fails.now call }
{
    fails.iter().any(|number| u128::from(*number) == call)
}

impl Source for MemSource {
    ghost use Rattle.std.specs.Prelude.{Some};

    ghost left = { λ s. Some s.left };

    ghost faults = { λ s. s.faults };

    ghost reads = { λ s. s.call };

    /// Answers `Failed` exactly where the number of this call is in the list, and then takes nothing. Else it
    /// gives as many octets as are left and fit, or `Done` where none is left.
    fn read(&mut self, buf: &mut [u8]) -> Got
        requires { 0 < length buf.old }
        ensures answer { result ≡ read_answer self.old (length buf.old) }
        ensures after { self.new ≡ after_read self.old (length buf.old) }
        ensures filled { buf.new ≡ filled self.old buf.old }

        // What every source promises.
        ensures within { of_source.IsWithin result (length buf.new) }
        ensures takes { of_source.Takes result buf.new (Some self.old.left) (Some self.new.left) }
        ensures counted { self.old.faults ≤ self.new.faults }
        ensures read_once { of_source.OneMore self.old.call self.new.call }
        ensures failed { of_source.OnFailed result (Rose self.old.faults self.new.faults) }
    {
        let fails = is_listed(&self.fails, self.call);
        self.call = self.call.saturating_add(1);
        if fails {
            count_fault(&mut self.faults);
            return Got::Failed;
        }
        let left = &self.octets[self.at..];
        if left.is_empty() {
            return Got::Done;
        }
        let count = copy_front(left, buf);
        self.at += count;
        Got::Octets(count)
    }
}

// Copies as many octets as both have, and returns how many.
pub(crate) fn copy_front(from: &[u8], to: &mut [u8]) -> usize
    ensures count { result ≡ min (length to.old) (length from.now) }
    ensures copied { to.new ≡ take (length to.old) from.now ++ drop (length from.now) to.old }
    ensures front { take result to.new ≡ take result from.now }
{
    let count = to.len().min(from.len());
    to[..count].copy_from_slice(&from[..count]);
    count
}

/// A sink over memory, with room for so many octets. A write takes as many as are offered and fit.
#[derive(Drop)]
pub struct MemSink {
    octets: Vec<u8>,
    room: usize,
    fails: Vec<u64>,
    call: u128,
    faults: u64,
}

impl Model for MemSink {
    ghost use Rattle.std.specs.Prelude.{◌≤◌, ◌+◌, vec_len, vec_capacity};
    ghost use Rattle.jm_edge.specs.MemSink.{Writing};

    ghost Value = { Writing };

    ghost view = { λ s. record { written = s.octets.items; room = s.room; fails = s.fails.items; call = s.call; faults = s.faults } };

    ghost invariant = { λ s. vec_len s.octets + s.room ≤ vec_capacity s.octets };
}

impl MemSink {
    /// A sink with room for `room` octets, whose calls with the numbers in `fails` fail, counted from 0.
    pub fn new(alloc: Global, room: usize, fails: &[u64]) -> Result<MemSink, AllocError>
        ensures { IfOk result
            (λ s. s ≡ record { written = []; room = room; fails = fails.now; call = 0; faults = 0 }) }
    {
        Ok(MemSink {
            octets: Vec::with_capacity(alloc, room)?,
            room,
            fails: Vec::from_slice(alloc, fails)?,
            call: 0,
            faults: 0,
        })
    }

    /// The octets written so far.
    pub fn as_slice(&self) -> &[u8]
        ensures { result.now ≡ self.now.written }
    {
        self.octets.as_slice()
    }
}

impl Sink for MemSink {
    ghost use Rattle.std.specs.Prelude.{Some};

    ghost written = { λ s. Some s.written };

    ghost faults = { λ s. s.faults };

    /// Answers `Failed` exactly where the number of this call is in the list or there is no octet of room, and
    /// then writes nothing. Else it takes as many octets as are offered and fit.
    fn write(&mut self, piece: &[u8]) -> Put
        requires { 0 < length piece.now }
        ensures answer { result ≡ write_answer self.old piece.now }
        ensures after { self.new ≡ after_write self.old piece.now }

        // What every sink promises.
        ensures within { of_sink.IsWithin result (length piece.now) }
        ensures adds { of_sink.Adds result piece.now (Some self.old.written) (Some self.new.written) }
        ensures counted { self.old.faults ≤ self.new.faults }
        ensures failed { of_sink.OnFailed result (Rose self.old.faults self.new.faults) }
    {
        let fails = is_listed(&self.fails, self.call) || self.room == 0;
        self.call = self.call.saturating_add(1);
        if fails {
            count_fault(&mut self.faults);
            return Put::Failed;
        }
        let count = piece.len().min(self.room);
        append_reserved(&mut self.octets, &piece[..count]);
        self.room -= count;
        Put::Took(count)
    }
}

// Appends a piece for which there is room.
pub(crate) fn append_reserved(octets: &mut Vec<u8>, piece: &[u8])
    requires { vec_len octets.old + length piece.now ≤ vec_capacity octets.old }
    ensures items { octets.new.items ≡ octets.old.items ++ piece.now }
    ensures capacity { vec_capacity octets.old ≤ vec_capacity octets.new }
    ensures len { vec_len octets.new ≡ vec_len octets.old + length piece.now }
{
    match octets.extend_from_slice(piece) {
        Ok(()) => {}
        Err(_) => unreachable!(),
    }
}
