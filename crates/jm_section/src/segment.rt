//! Segments of System Exclusive commands.

ghost use Rattle.std.specs.Prelude.{◌≡◌, ◌<◌, ◌≤◌, ◌^◌, length};
ghost use Rattle.jm_wire.specs.Octets.{Appends};
ghost use Rattle.jm_section.specs.declared.item.What.TheVariants.{Part};
ghost use Rattle.jm_section.specs.Section.{segment_first, segment_last, segment_text, item_text};

use crate::item::PartKind;
use crate::next::Place;
use jm_wire::{Octets, delta_len, write_delta};

/// The octet by which a segment begins. One that calls its command off may also begin with F0.
fn first_octet(kind: PartKind) -> u8
    ensures { result ≡ segment_first kind }
{
    match kind {
        PartKind::First => 0xf0,
        PartKind::Middle | PartKind::Last | PartKind::Cancel => 0xf7,
    }
}

/// The octet by which a segment ends.
fn last_octet(kind: PartKind) -> u8
    ensures { result ≡ segment_last kind }
{
    match kind {
        PartKind::First | PartKind::Middle => 0xf0,
        PartKind::Last => 0xf7,
        PartKind::Cancel => 0xf4,
    }
}

/// Appends a segment of a System Exclusive command with these data octets (RFC 6295, section 3.2, Figure 5).
pub fn write_segment(kind: PartKind, octets: &[u8], out: &mut Octets)
    requires { length (segment_text kind octets.now) ≤ out.old.spare }
    ensures { Appends out.old out.new (segment_text kind octets.now) }
{
    out.push(first_octet(kind));
    out.push_slice(octets);
    out.push(last_octet(kind));
}

/// How many octets [`write_segment`] appends for these data octets.
pub fn segment_len(kind: PartKind, octets: &[u8]) -> usize
    requires { length octets.now ≤ 65536 }
    ensures { result ≡ length (segment_text kind octets.now) }
{
    octets.len() + 2
}

/// Appends a segment to a MIDI list, with its delta field. A segment at the front has no delta field: its delta is 0.
#[tactic(auto, unfolding(crate::specs::Section::item_text, crate::specs::Section::what_text))]
pub(crate) fn write_next_segment(
    place: Place,
    delta: u32,
    kind: PartKind,
    octets: &[u8],
    out: &mut Octets,
)
    requires range { delta < 2 ^ 28 }
    requires room { length (item_text place record { delta = delta; what = Part kind octets.now }) ≤ out.old.spare }
    ensures { Appends out.old out.new (item_text place record { delta = delta; what = Part kind octets.now }) }
{
    match place {
        Place::First => write_segment(kind, octets, out),
        Place::Later(_) => {
            write_delta(delta, out);
            write_segment(kind, octets, out);
        }
    }
}

/// How many octets [`write_next_segment`] appends. A delta over 0x0FFFFFFF counts as four octets.
#[tactic(auto, unfolding(crate::specs::Section::item_text, crate::specs::Section::what_text))]
pub fn next_segment_len(place: Place, delta: u64, kind: PartKind, octets: &[u8]) -> usize
    requires { length octets.now ≤ 65536 }
    ensures { result ≡ length (item_text place record { delta = delta; what = Part kind octets.now }) }
{
    match place {
        Place::First => segment_len(kind, octets),
        Place::Later(_) => delta_len(delta) + segment_len(kind, octets),
    }
}
