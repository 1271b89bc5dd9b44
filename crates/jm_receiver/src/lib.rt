//! The receiver of a session: it takes packets, puts its state right after packets were lost, and says what it
//! missed (RFC 6295, sections 4 and 5).
//!
//! [`Receiver::accept`] takes a packet. It reads the command section and the recovery journal, tells how many packets
//! were missed before it, and repairs the state by the journal's logs. The rules of repair are this project's own: the
//! standard says what the logs mean, and leaves to receivers what they do with them.
#![tactic(auto)]

mod group;
mod handing_on;
mod heard;
pub mod laws;
mod opening;
mod place;
mod receiver;
mod repair;

pub use heard::{Heard, HeardKind, HeardList};
pub use opening::AcceptFault;
pub use receiver::{Receiver, Took};
pub use repair::repair_state;
