//! The name that a participant gives itself.

ghost use Rattle.std.specs.Prelude.{◌≡◌, ◌≢◌, ◌<◌, ◌≤◌, ◌↔◌, take, length, All, Contains, IsSome, IfSome};

use arrayvec::ArrayVec;
use std::marker::Model;

/// The most octets that a name keeps.
pub const MOST_OCTETS: usize = 63;

/// A name: at most 63 octets, none of them 0.
#[derive(Debug, PartialEq, Eq, Drop)]
pub struct Name {
    octets: ArrayVec<u8, MOST_OCTETS>,
}

impl Model for Name {
    ghost use Rattle.std.specs.Prelude.{ℕ, List};
    ghost use Rattle.apple_msg.specs.Name.{IsName};

    ghost Value = { List ℕ };

    ghost view = { λ n. n.octets.items };

    ghost invariant = { λ n. IsName n.octets.items };

    ghost inverse = { λ octets. record { octets = record { items = octets } } };
}

impl Name {
    ghost use Rattle.apple_msg.specs.Name.{IsName};

    /// The name of these octets; `None` exactly where there are over 63 or one of them is 0.
    pub fn new(octets: &[u8]) -> Option<Name>
        ensures name { IsSome result ↔ IsName octets.now }
        ensures same { IfSome result (λ n. n ≡ octets.now) }
    {
        if octets.len() > MOST_OCTETS {
            return None;
        }
        if octets.iter().any(|octet| *octet == 0) {
            return None;
        }
        Some(Name::kept(octets))
    }

    /// The name's octets.
    pub fn as_slice(&self) -> &[u8]
        ensures octets { result.now ≡ self.now }
        ensures name { IsName self.now }
    {
        self.octets.as_slice()
    }

    /// An equal name.
    pub fn copy(&self) -> Name
        ensures { result ≡ self.now }
    {
        Name::kept(self.octets.as_slice())
    }

    /// The name that keeps the first 63 of these octets.
    pub(crate) fn kept(octets: &[u8]) -> Name
        requires { All (λ octet. octet ≢ 0) octets.now }
        ensures front { result ≡ take 63 octets.now }
        ensures whole { length octets.now ≤ 63 → result ≡ octets.now }
    {
        let mut kept = ArrayVec::new();
        for octet in octets {
            if kept.is_full() {
                return Name { octets: kept };
            }
            kept.push(*octet);
        }
        Name { octets: kept }
    }
}
