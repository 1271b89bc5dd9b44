//! Reading the recovery journal of a packet (RFC 6295, section 5 and Appendices A and B): from octets to what
//! each log says.
//!
//! `read_journal` gives the checkpoint and the logs in the journal's order, or the first fault. It knows
//! nothing of a session: what a log means for a receiver stands in the crate of receivers. `laws` says that the journals
//! that jm_journal writes are read as what they code.
#![tactic(auto)]

mod a;
mod c;
mod channel;
mod d;
mod e;
mod f;
mod faults;
mod journal;
pub mod laws;
mod logs;
mod m;
mod n;
mod p;
mod pairs;
mod q;
mod system;
mod t;
mod v;
mod w;
mod x;

pub use faults::JournalFault;
pub use journal::{Report, read_journal};
pub use logs::{Log, LogKind, Logs};
