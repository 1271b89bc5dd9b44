//! The header of a command section (RFC 6295, section 3, Figure 2).

ghost use Rattle.std.specs.Prelude.{◌≡◌, ◌≤◌, length, true, false, IfOk};
ghost use Rattle.jm_section.specs.Reading.{head_read};
ghost use Rattle.jm_section.specs.Section.{header};
ghost use Rattle.jm_wire.specs.Octets.{Appends};

use crate::reading::SectionFault;
use jm_wire::Octets;

/// Appends the header of a section whose MIDI list has `len` octets: one octet where `len` is at most
/// 15, else two. `journal` says that a journal follows the list.
#[tactic(auto, unfolding(crate::specs::Section::header))]
pub fn write_section_header(len: usize, journal: bool, out: &mut Octets)
    requires range { len ≤ 4095 }
    requires room { length (header len journal) ≤ out.old.spare }
    ensures { Appends out.old out.new (header len journal) }
{
    let flag = if journal { 0x40 } else { 0 };
    if len < 16 {
        out.push(flag + len as u8);
    } else {
        out.push_slice(&[0x80 + flag + (len / 256) as u8, (len % 256) as u8]);
    }
}

/// How many octets [`write_section_header`] appends, one or two.
#[tactic(auto, unfolding(crate::specs::Section::header))]
pub fn section_header_len(len: usize) -> usize
    ensures value { result ≡ length (header len false) }
    ensures with_journal { result ≡ length (header len true) }
    ensures bound { (1 ≤ result) × (result ≤ 2) }
{
    if len < 16 { 1 } else { 2 }
}

/// What a header tells.
#[derive(Clone, Copy, Debug)]
pub(crate) struct Head {
    /// The number of the header's octets, one or two.
    pub size: usize,
    /// The number of the MIDI list's octets.
    pub len: usize,
    /// Whether a journal follows the list.
    pub journal: bool,
    /// Whether the first command of the list has no delta field.
    pub bare: bool,
}

/// The header at the front of these octets, or none where they end inside it.
#[tactic(auto, unfolding(crate::specs::Reading::head_read))]
pub(crate) fn read_head(b: &[u8]) -> Result<Head, SectionFault>
    ensures value { result ≡ head_read b.now }
    ensures size { IfOk result (λ head. head.size ≤ 2) }
    ensures len { IfOk result (λ head. head.len ≤ 4095) }
{
    let (first, rest) = match b {
        [] => return Err(SectionFault::Short),
        [first, rest @ ..] => (*first, rest),
    };
    let journal = first / 0x40 % 2 == 1;
    let bare = first / 0x20 % 2 != 1;
    let high = usize::from(first % 16);
    if first < 0x80 {
        return Ok(Head {
            size: 1,
            len: high,
            journal,
            bare,
        });
    }
    match rest {
        [] => Err(SectionFault::Short),
        [low, ..] => Ok(Head {
            size: 2,
            len: high * 256 + usize::from(*low),
            journal,
            bare,
        }),
    }
}
