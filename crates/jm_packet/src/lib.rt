//! RTP packets (RFC 3550, section 5.1; RFC 6295, section 2.1): writing their header, and reading them.
//!
//! `read_packet` reads a header and the command section behind it, and says where the journal begins. The journal
//! has crates of its own.
#![tactic(auto)]

mod header;
pub mod laws;
mod reading;

pub use header::{HEADER_LEN, Header, write_header};
pub use reading::{Packet, PacketFault, read_packet, read_source};
