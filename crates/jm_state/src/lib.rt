//! The recoverable state of a MIDI session: what a receiver can put right after packets were lost
//! (RFC 6295, section 4 and Appendices A and B), and what each command does to it.
//!
//! The state has parts: the song, the song position, the time code and the number of System Exclusive
//! messages, and for each channel the program, the controls, the toggles of the sustain pedal, the selection, the entered parameters, the
//! wheel, the sounding notes, the pressure and the pressures on keys. Each part has a read and a call that sets
//! it. Each command sets a part, drops it or leaves it. No call takes memory.
#![tactic(auto)]

mod apply;
mod channel;
mod comparing;
mod control;
mod entered;
pub mod laws;
mod setting;
mod slots;
mod state;
mod table;

pub use channel::ProgramPart;
pub use entered::Halves;
pub use jm_cmds::{Selection, SequencerPart, TimePart};
pub use state::State;
