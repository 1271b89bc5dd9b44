//! The MIDI command section of an RTP MIDI packet, both ways (RFC 6295, section 3): a header with the
//! length of the MIDI list, and in the list commands with delta times, where a channel command may
//! leave its status octet out.
//!
//! [`write_section`] writes a section of items. Beneath it stand [`write_section_header`],
//! [`write_next`] and [`write_segment`], for a caller that keeps its commands elsewhere and takes no memory.
#![tactic(auto)]

mod command;
mod header;
mod item;
pub mod laws;
mod next;
mod reading;
mod segment;
mod writing;

pub use command::write_command;
pub use header::{section_header_len, write_section_header};
pub use item::{Item, PartKind, What};
pub use next::{Place, next_len, write_next};
pub use reading::{Section, SectionFault, read_section};
pub use segment::{next_segment_len, segment_len, write_segment};
pub use writing::write_section;
