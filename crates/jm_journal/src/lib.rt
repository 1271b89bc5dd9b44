//! The recovery journal of a packet (RFC 6295, section 5): its headers round the chapters, and which command
//! fits.
//!
//! The functions look at the list of all sent commands, keep nothing and take no memory. Nothing above this
//! crate names a chapter.
#![tactic(auto)]

mod channel;
mod channels;
mod fits;
mod journal;
pub mod laws;
mod span;
mod system;

pub use fits::{Fit, plain_fits};
pub use journal::{plain_len, plain_write};
