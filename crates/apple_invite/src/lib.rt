//! The caller's side of the Apple MIDI Network Driver Protocol: a host is invited, on its control port and then on
//! its data port, and while both have taken the invitation the clocks are compared.
//!
//! [`Inviter`] is a deterministic machine, the other end of the machine of apple_session. Addresses and moments come
//! in as values and what is to be sent goes out as one, so it opens no socket, reads no clock and takes no memory.
//! How often it asks, how long it waits and when it compares the clocks are rules of this project.
#![tactic(auto)]

mod dialed;
mod inviter;
pub mod laws;
mod stage;

pub use dialed::{DialAct, Dialed, EndCause, Phase};
pub use inviter::Inviter;
