//! The numbers inside a command, each with its bound.

ghost use Rattle.std.specs.Prelude.{◌≡◌, ◌+◌, ◌*◌, ◌%◌, ◌<◌, ◌≤◌, MatchOption};

use std::marker::Model;

/// A MIDI channel, from 0 to 15 (RFC 6295, Appendix E: the low four bits of a channel status).
#[derive(Clone, Copy, PartialEq, Eq, Debug)]
pub struct Channel {
    value: u8,
}

impl Model for Channel {
    ghost use Rattle.std.specs.Prelude.{ℕ, ◌<◌};

    ghost Value = { ℕ };

    ghost view = { λ c. c.value };

    ghost invariant = { λ c. c.value < 16 };

    ghost inverse = { λ n. record { value = n } };
}

impl Channel {
    /// The channel of this number, or `None` where it is over 15.
    pub fn new(value: u8) -> Option<Channel>
        ensures { MatchOption result (16 ≤ value) (λ c. (value < 16) × (c ≡ value)) }
    {
        if value < 16 {
            return Some(Channel { value });
        }
        None
    }

    /// The channel in the low four bits of an octet.
    pub fn low(octet: u8) -> Channel
        ensures value { result ≡ octet % 16 }
        ensures bound { result < 16 }
    {
        Channel { value: octet % 16 }
    }

    /// The number, from 0 to 15.
    pub fn get(&self) -> u8
        ensures value { result ≡ self.now }
        ensures bound { self.now < 16 }
    {
        self.value
    }
}

/// Seven bits: the number in a MIDI data octet, from 0 to 127.
#[derive(Clone, Copy, PartialEq, Eq, Debug)]
pub struct D7 {
    value: u8,
}

impl Model for D7 {
    ghost use Rattle.std.specs.Prelude.{ℕ, ◌<◌};

    ghost Value = { ℕ };

    ghost view = { λ d. d.value };

    ghost invariant = { λ d. d.value < 128 };

    ghost inverse = { λ n. record { value = n } };
}

impl D7 {
    /// The seven bits of this number, or `None` where it is over 127.
    pub fn new(value: u8) -> Option<D7>
        ensures { MatchOption result (128 ≤ value) (λ d. (value < 128) × (d ≡ value)) }
    {
        if value < 128 {
            return Some(D7 { value });
        }
        None
    }

    /// The low seven bits of an octet.
    pub fn low(octet: u8) -> D7
        ensures value { result ≡ octet % 128 }
        ensures bound { result < 128 }
    {
        D7 { value: octet % 128 }
    }

    /// The number, from 0 to 127.
    pub fn get(&self) -> u8
        ensures value { result ≡ self.now }
        ensures bound { self.now < 128 }
    {
        self.value
    }
}

/// Fourteen bits: the number in two MIDI data octets, from 0 to 16,383.
#[derive(Clone, Copy, PartialEq, Eq, Debug)]
pub struct D14 {
    value: u16,
}

impl Model for D14 {
    ghost use Rattle.std.specs.Prelude.{ℕ, ◌<◌};

    ghost Value = { ℕ };

    ghost view = { λ d. d.value };

    ghost invariant = { λ d. d.value < 16384 };

    ghost inverse = { λ n. record { value = n } };
}

impl D14 {
    /// The fourteen bits of this number, or `None` where it is over 16,383.
    pub fn new(value: u16) -> Option<D14>
        ensures { MatchOption result (16384 ≤ value) (λ d. (value < 16384) × (d ≡ value)) }
    {
        if value < 16384 {
            return Some(D14 { value });
        }
        None
    }

    /// The number whose low seven bits come first, as MIDI sends them, and then its high ones.
    pub fn of(low: D7, high: D7) -> D14
        ensures value { result ≡ low + 128 * high }
        ensures bound { result < 16384 }
    {
        D14 {
            value: u16::from(low.value) + 128 * u16::from(high.value),
        }
    }

    /// The number, from 0 to 16,383.
    pub fn get(&self) -> u16
        ensures value { result ≡ self.now }
        ensures bound { self.now < 16384 }
    {
        self.value
    }
}
