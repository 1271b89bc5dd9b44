//! What holds of the definitions that this crate's contracts cite. Each law is the contract of a
//! function that does nothing.

ghost use Rattle.jm_packet.specs.Laws.{HeadersReadBack, PacketsSay};

/// A header that is written is read again, whatever follows it, and what follows is the section.
pub fn headers_read_back()
    ensures { HeadersReadBack }
{}

/// A packet that is read has version 2, no padding and no extension, a payload type from 96 to 127 with or without the
/// marker, its numbers at their places, and behind its contributing sources a section. A fault names the first of these
/// that isn't so: fewer than twelve octets come first, and too few contributing sources behind the payload type.
pub fn packets_say()
    ensures { PacketsSay }
{}
