//! Octets that lines and answers have in hexadecimal digits.

ghost use Rattle.std.specs.Prelude.{◌≡◌, IfOk};

use std::alloc::{AllocError, Global};
use std::marker::Model;

/// Octets that stand in a line or an answer in hexadecimal digits. Contracts see them as their list.
#[derive(Debug, Drop)]
pub struct Hex {
    octets: Vec<u8>,
}

impl Model for Hex {
    ghost use Rattle.std.specs.Prelude.{ℕ, List};

    ghost Value = { List ℕ };

    ghost view = { λ hex. hex.octets.items };
}

impl Hex {
    /// These octets, in memory of their own. It fails where memory runs out.
    pub fn new(octets: &[u8], alloc: Global) -> Result<Hex, AllocError>
        ensures { IfOk result (λ hex. hex ≡ octets.now) }
    {
        Ok(Hex {
            octets: Vec::from_slice(alloc, octets)?,
        })
    }

    /// These octets.
    pub fn of(octets: Vec<u8>) -> Hex
        ensures { result ≡ octets.items }
    {
        Hex { octets }
    }

    /// The octets.
    pub fn as_slice(&self) -> &[u8]
        ensures { result.now ≡ self.now }
    {
        self.octets.as_slice()
    }
}
