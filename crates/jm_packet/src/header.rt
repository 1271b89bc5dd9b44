//! The header and its twelve octets.

ghost use Rattle.std.specs.Prelude.{◌≡◌, ◌≤◌};
ghost use Rattle.jm_wire.specs.Octets.{Appends};
ghost use Rattle.jm_packet.specs.Header.{header, payload_octet_of};

use jm_wire::Octets;

/// How many octets a header has where no contributing sources are listed.
pub const HEADER_LEN: usize = 12;

/// The first octet: version 2, no padding, no extension, no contributing sources.
const VERSION_2: u8 = 0x80;

/// The payload type that is written. RTP leaves the numbers from 96 to 127 to the session.
const PAYLOAD_TYPE: u8 = 97;

/// The bit that stands before the payload type.
const MARKER: u8 = 0x80;

/// What a packet's header says (RFC 3550, section 5.1).
#[derive(Clone, Copy, Debug, PartialEq, Eq)]
pub struct Header {
    /// The low 16 bits of the packet's number, which counts up by one from packet to packet.
    pub number: u16,
    /// The low 32 bits of the packet's tick, in units of 100 microseconds: its timestamp.
    pub tick: u32,
    /// The synchronization source: whose stream this is.
    pub ssrc: u32,
    /// Whether the packet's command section has a MIDI list (RFC 6295, section 2.1).
    pub marker: bool,
}

/// Appends the twelve octets of a header: version 2, without padding, extension or contributing
/// sources, payload type 97.
pub fn write_header(h: &Header, out: &mut Octets)
    requires { HEADER_LEN ≤ out.old.spare }
    ensures { Appends out.old out.new (header h.now) }
{
    out.push(VERSION_2);
    out.push(payload_octet(h.marker));
    out.push_u16(h.number);
    out.push_u32(h.tick);
    out.push_u32(h.ssrc);
}

/// The second octet: the payload type behind its marker bit.
fn payload_octet(marker: bool) -> u8
    ensures { result ≡ payload_octet_of marker }
{
    if marker {
        MARKER + PAYLOAD_TYPE
    } else {
        PAYLOAD_TYPE
    }
}
