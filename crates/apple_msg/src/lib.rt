//! The messages of the Apple MIDI Network Driver Protocol, both ways: invitations and their answers, byes,
//! clock exchanges and the feedback of receivers.
//!
//! A message is a value ([`Message`]), and its octets are read by [`read_message`] and written by
//! [`write_message`]. Neither takes memory, and neither knows of a session: what a host does with a message
//! stands in the crate of the invitation machine.
#![tactic(auto)]

pub mod laws;
mod message;
mod name;
mod reading;
mod writing;

pub use message::{Message, MsgFault};
pub use name::Name;
pub use reading::read_message;
pub use writing::write_message;
