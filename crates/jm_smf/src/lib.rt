//! Standard MIDI Files of format 0, both ways (Standard MIDI Files 1.0, RP-001): commands with their
//! ticks as a file of one track, and a file's first track as commands.
//!
//! Tempo isn't applied: a tick is one unit of the file's own division. What this host writes has 5,000
//! of them for a quarter note, which makes a tick 100 microseconds where no tempo is set.
#![tactic(auto)]

mod before;
mod chunks;
mod cuts;
mod escape;
mod event;
mod fault;
pub mod laws;
mod list;
mod reading;
mod timed;
mod track;
mod writing;

pub use cuts::cut_list;
pub use fault::{FileFault, SmfFault};
pub use reading::read_file;
pub use timed::Timed;
pub use writing::write_file;
