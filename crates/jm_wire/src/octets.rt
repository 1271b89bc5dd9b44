//! A buffer of octets with room that is set once.

ghost use Rattle.std.specs.Prelude.{◌≡◌, ◌+◌, ◌≤◌, ◌<◌, [], ◌∷◌, length, drop, IfOk};
ghost use Rattle.jm_wire.specs.Numbers.{be16, be32, be64};

use std::alloc::{AllocError, Global};
use std::marker::Model;

/// Octets in order, and room for a number of further ones. The room is taken once, at
/// [`Octets::with_room`]; no other call takes memory.
#[derive(Debug, Drop)]
pub struct Octets {
    items: Vec<u8>,
}

impl Model for Octets {
    ghost use Rattle.std.specs.Prelude.{◌-◌, vec_len, vec_capacity};
    ghost use Rattle.jm_wire.specs.Octets.{Filled};

    ghost Value = { Filled };

    ghost view = { λ o. record { octets = o.items.items; spare = vec_capacity o.items - vec_len o.items } };
}

impl Octets {
    ghost use Rattle.jm_wire.specs.Octets.{Filled, Appends};

    /// An empty buffer with room for `room` octets. It fails where memory runs out.
    pub fn with_room(room: usize, alloc: Global) -> Result<Octets, AllocError>
        ensures { IfOk result (λ o. (o.octets ≡ []) × (o.spare ≡ room)) }
    {
        let items = Vec::with_capacity(alloc, room)?;
        Ok(Octets { items })
    }

    /// Appends one octet.
    pub fn push(&mut self, o: u8)
        requires { 1 ≤ self.old.spare }
        ensures { Appends self.old self.new (o ∷ []) }
    {
        self.items.push_reserved(o);
    }

    /// Appends the octets of `text`.
    pub fn push_slice(&mut self, text: &[u8])
        requires { length text.now ≤ self.old.spare }
        ensures { Appends self.old self.new text.now }
    {
        for o in text {
            self.push(*o);
        }
    }

    /// Appends a number of 16 bits, the high octet first.
    pub fn push_u16(&mut self, v: u16)
        requires { 2 ≤ self.old.spare }
        ensures { Appends self.old self.new (be16 v) }
    {
        self.push_slice(&v.to_be_bytes());
    }

    /// Appends a number of 32 bits, the high octet first.
    pub fn push_u32(&mut self, v: u32)
        requires { 4 ≤ self.old.spare }
        ensures { Appends self.old self.new (be32 v) }
    {
        self.push_slice(&v.to_be_bytes());
    }

    /// Appends a number of 64 bits, the high octet first.
    pub fn push_u64(&mut self, v: u64)
        requires { 8 ≤ self.old.spare }
        ensures { Appends self.old self.new (be64 v) }
    {
        self.push_slice(&v.to_be_bytes());
    }

    /// Takes all octets out, and gives their room back.
    pub fn clear(&mut self)
        ensures octets { self.new.octets ≡ [] }
        ensures spare { self.new.spare ≡ self.old.spare + length self.old.octets }
    {
        self.items.clear();
    }

    /// How many further octets there is room for.
    pub fn spare(&self) -> usize
        ensures { result ≡ self.now.spare }
    {
        self.items.capacity() - self.items.len()
    }

    /// The octets, in order.
    pub fn as_slice(&self) -> &[u8]
        ensures { result.now ≡ self.now.octets }
    {
        self.items.as_slice()
    }
}

/// The octets behind the first `count`; none where there are fewer.
pub fn behind(octets: &[u8], count: usize) -> &[u8]
    ensures { result.now ≡ drop count octets.now }
{
    match octets.get(count..) {
        Some(rest) => rest,
        None => &[],
    }
}
