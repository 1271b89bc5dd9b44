//! System Exclusive messages.

ghost use Rattle.std.specs.Prelude.{◌≡◌, ◌==◌, ◌≤◌, ◌+◌, ◌++◌, length, is_ok, if◌then◌else◌, IfOk};
ghost use Rattle.jm_cmds.specs.Data.{IsSysex, data_len, is_kept_message, is_long_message};
ghost use Rattle.jm_cmds.specs.SysexMade.{sysex_made, unmarked};
ghost use Rattle.jm_cmds.specs.Gives.{Gives, WantsForGood};

use crate::outcome::ReadError;
use std::alloc::{AllocError, Global};
use std::marker::Model;
use thiserror::Error;

/// How many data octets, those below 0x80, stand at the front.
pub fn data_len(octets: &[u8]) -> usize
    ensures number { result ≡ data_len octets.now }
    ensures bound { result ≤ length octets.now }
{
    for (i, octet) in octets.iter().enumerate() {
        if *octet >= 128 {
            return i;
        }
    }
    octets.len()
}

/// Why octets are no System Exclusive message of this host.
#[derive(Clone, Copy, PartialEq, Eq, Debug, Error)]
pub enum SysexFault {
    /// The octet at this place, counted from 0, is over 0x7F. It is the first such octet.
    #[error("octet {0} is no data octet")]
    BadData(usize),
    /// There are more than 65,536 octets, all of them data octets.
    #[error("{len} data octets are too many")]
    TooLong { len: usize },
}

/// The most data octets of a System Exclusive message that is kept for repair. A longer one is sent and not repaired,
/// which is this project's own bound.
pub const LONGEST_KEPT: usize = 254;

/// The most data octets of a System Exclusive message that one packet holds whole, and of a segment of a longer one, which
/// is sent as segments in successive packets (RFC 6295, section 3.2). The number is this project's own.
pub const LONGEST_WHOLE: usize = 2_046;

/// A whole System Exclusive message (RFC 6295, Appendix E): at most 65,536 data octets, without the F0
/// before them and the F7 behind.
#[derive(Debug, Drop)]
pub struct Sysex {
    octets: Vec<u8>,
}

impl Model for Sysex {
    ghost use Rattle.std.specs.Prelude.{List, ℕ};
    ghost use Rattle.jm_cmds.specs.Data.{IsSysex};

    ghost Value = { List ℕ };

    ghost view = { λ s. s.octets.items };

    ghost invariant = { λ s. IsSysex s.octets.items };
}

impl Sysex {
    /// The most data octets that a message has.
    pub const MOST: usize = 65_536;

    /// A message of these data octets. It is `BadData` at the first octet over 0x7F, else `TooLong`
    /// exactly where there are over 65,536 of them.
    #[tactic(auto, using(crate::specs::DataLaws::on_data))]
    pub fn new(octets: &[u8], alloc: Global) -> Result<Sysex, ReadError<SysexFault>>
        ensures answer { Gives result (sysex_made octets.now) }
        ensures memory { WantsForGood result (sysex_made octets.now) }
    {
        let place = data_len(octets);
        if place < octets.len() {
            return Err(ReadError::Fault(SysexFault::BadData(place)));
        }
        if octets.len() > Self::MOST {
            return Err(ReadError::Fault(SysexFault::TooLong { len: octets.len() }));
        }
        Ok(Sysex {
            octets: Vec::from_slice(alloc, octets)?,
        })
    }

    /// A message of octets that are known to be one.
    pub fn of(octets: &[u8], alloc: Global) -> Result<Sysex, AllocError>
        requires { IsSysex octets.now }
        ensures { IfOk result (λ message. message ≡ octets.now) }
    {
        Ok(Sysex {
            octets: Vec::from_slice(alloc, octets)?,
        })
    }

    /// A message of the low seven bits of each of these octets, at most 65,536. A list of data octets whose last one
    /// is marked by its high bit (RFC 6295, B.5.1) gives its message.
    pub fn of_marked(octets: &[u8], alloc: Global) -> Result<Sysex, AllocError>
        requires { length octets.now ≤ 65536 }
        ensures { IfOk result (λ message. message ≡ unmarked octets.now) }
    {
        Ok(Sysex {
            octets: octets.iter().map(|octet| *octet % 128).collect(alloc)?,
        })
    }

    /// The data octets.
    pub fn as_slice(&self) -> &[u8]
        ensures octets { result.now ≡ self.now }
        ensures data { IsSysex self.now }
    {
        self.octets.as_slice()
    }

    /// The number of data octets, from 0 to 65,536.
    pub fn len(&self) -> usize
        ensures number { result ≡ length self.now }
        ensures bound { result ≤ 65536 }
    {
        self.octets.len()
    }

    /// Whether it is short enough to be kept for repair: it has at most 254 data octets.
    pub fn is_kept(&self) -> bool
        ensures { result ≡ is_kept_message self.now }
    {
        self.octets.len() <= LONGEST_KEPT
    }

    /// Whether it is too long for one packet, and so is sent in segments: it has over 2,046 data octets.
    pub fn is_long(&self) -> bool
        ensures { result ≡ is_long_message self.now }
    {
        self.octets.len() > LONGEST_WHOLE
    }

    /// Whether there is no data octet.
    pub fn is_empty(&self) -> bool
        ensures { result ≡ (length self.now == 0) }
    {
        self.octets.is_empty()
    }

    /// Appends the data octets of another message behind its own. Where memory is refused, it stays as it was.
    #[tactic(auto, using(crate::specs::DataLaws::joined_message))]
    pub fn append(&mut self, other: &Sysex) -> Result<(), AllocError>
        requires { length self.old + length other.now ≤ 65536 }
        ensures { self.new ≡ (if is_ok result then self.old ++ other.now else self.old) }
    {
        self.octets.extend_from_slice(other.as_slice())
    }

    /// A message of the same data octets.
    pub fn copy(&self, alloc: Global) -> Result<Sysex, AllocError>
        ensures { IfOk result (λ copied. copied ≡ self.now) }
    {
        Ok(Sysex {
            octets: Vec::from_slice(alloc, self.octets.as_slice())?,
        })
    }
}

impl PartialEq for Sysex {
    ghost use Rattle.std.specs.Prelude.{nat_eq};
    ghost use Rattle.std.proofs.Common.{rules};
    ghost use Rattle.std.specs.Cmp.Lexicographic.{pointwise};
    ghost use Rattle.std.specs.Cmp.Rules.{comparing};

    ghost eq = { pointwise nat_eq };

    ghost laws = { Prim.search (comparing, rules) };

    fn eq(&self, other: &Sysex) -> bool {
        self.as_slice() == other.as_slice()
    }
}

impl Eq for Sysex {
    ghost use Rattle.std.proofs.Common.{rules};
    ghost use Rattle.std.specs.Cmp.Rules.{comparing};

    ghost laws = { Prim.search (comparing, rules) };
}
