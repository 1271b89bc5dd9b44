//! Calling another host over two ports, for a number of turns: what each turn asks the clock for, receives and sends.
//!
//! [`call_turns`] is the loop round the machine of apple_invite, and [`call_host`] the loop with the close behind it. They open
//! no socket and read no clock themselves: the ports and the clock are those of jm_edge, so a test drives them over memory.
#![tactic(auto)]

mod exchange;
mod turns;
mod whole;

pub use turns::{Called, TurnsEnd, call_turns, hang_up};
pub use whole::{CallEnd, call_host};
