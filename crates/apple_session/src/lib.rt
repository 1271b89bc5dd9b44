//! The host's side of the Apple MIDI Network Driver Protocol: who was invited, who takes part, and what is
//! answered to each message.
//!
//! [`Session`] is a deterministic machine. Addresses and moments come in as values and the reply goes out as
//! one, so it opens no socket, reads no clock and takes no memory. It keeps at most 32 peers, in the order
//! of their first invitations. A peer is *invited* once the control port has its invitation, and *joined*
//! once the data port has one with the same token.
#![tactic(auto)]

mod answer;
mod clock;
pub mod laws;
mod list;
mod peer;
mod session;

pub use answer::{Act, Answer, PortKind, Why};
pub use clock::offset;
pub use peer::Peer;
pub use session::Session;
