//! The segments of a long command that wait to be sent.

ghost use Rattle.std.specs.Prelude.{◌≡◌, ◌<◌, ◌≤◌, [], length, take, drop, IfOk};
ghost use Rattle.jm_book.specs.Segments.{segments_of, next_segment};
ghost use Rattle.jm_book.specs.Unsent.{told, IsShortPart};

use jm_cmds::{LONGEST_WHOLE, Sysex};
use jm_section::PartKind;
use jm_wire::{Octets, behind};
use std::alloc::{AllocError, Global};
use std::marker::Model;

/// A segment that waits: which one it is of its command, and its data octets.
#[derive(Clone, Copy, Debug)]
pub(crate) struct Waiting<'a> {
    pub(crate) kind: PartKind,
    pub(crate) octets: &'a [u8],
}

/// The data octets of a segment that isn't the last one.
pub(crate) fn full_part(octets: &[u8]) -> &[u8]
    requires { 2046 ≤ length octets.now }
    ensures octets { result.now ≡ take 2046 octets.now }
    ensures size { length result.now ≡ 2046 }
{
    &octets[..LONGEST_WHOLE]
}

/// The segments of a long command that weren't sent. The buffer has room for the data octets of any command, so no call but
/// `new` takes memory.
#[derive(Debug, Drop)]
pub(crate) struct Unsent {
    /// The data octets of the command, none where no segment waits.
    data: Octets,
    /// How many of them were sent.
    sent: usize,
}

impl Model for Unsent {
    ghost use Rattle.std.specs.Prelude.{List, drop};
    ghost use Rattle.jm_book.specs.Segments.{Segment};
    ghost use Rattle.jm_book.specs.Unsent.{segments_left, IsUnsent};

    ghost Value = { List Segment };

    ghost view = { λ u. segments_left u.sent (drop u.sent u.data.octets) };

    ghost invariant = { λ u. IsUnsent u.data u.sent };
}

impl Unsent {
    /// No segment. It fails where memory runs out.
    #[tactic(auto, using(crate::specs::Unsent::left_none))]
    pub(crate) fn new(alloc: Global) -> Result<Unsent, AllocError>
        ensures { IfOk result (λ u. u ≡ []) }
    {
        let data = Octets::with_room(Sysex::MOST, alloc)?;
        Ok(Unsent { data, sent: 0 })
    }

    /// The segments of a long message with these data octets, in place of those that waited.
    pub(crate) fn begin(&mut self, octets: &[u8])
        requires long { 2046 < length octets.now }
        requires few { length octets.now ≤ 65536 }
        ensures { self.new ≡ segments_of octets.now }
    {
        self.sent = 0;
        self.data.clear();
        self.data.push_slice(octets);
    }

    /// How many segments wait, at most 33.
    pub(crate) fn len(&self) -> usize
        ensures number { result ≡ length self.now }
        ensures bound { result ≤ 33 }
    {
        behind(self.data.as_slice(), self.sent)
            .len()
            .div_ceil(LONGEST_WHOLE)
    }

    /// The first segment that waits, if one does.
    pub(crate) fn next(&self) -> Option<Waiting<'_>>
        ensures segment { told result ≡ next_segment self.now }
        ensures short { IsShortPart result }
    {
        let rest = behind(self.data.as_slice(), self.sent);
        if rest.is_empty() {
            return None;
        }
        if self.sent == 0 {
            return Some(Waiting {
                kind: PartKind::First,
                octets: full_part(rest),
            });
        }
        if rest.len() <= LONGEST_WHOLE {
            return Some(Waiting {
                kind: PartKind::Last,
                octets: rest,
            });
        }
        Some(Waiting {
            kind: PartKind::Middle,
            octets: full_part(rest),
        })
    }

    /// Takes the first segment off, if one waits.
    pub(crate) fn take_off(&mut self)
        ensures { self.new ≡ drop 1 self.old }
    {
        self.sent += LONGEST_WHOLE;
        if self.sent >= self.data.as_slice().len() {
            self.sent = 0;
            self.data.clear();
        }
    }
}
