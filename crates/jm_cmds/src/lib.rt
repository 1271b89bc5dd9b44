//! MIDI commands and their octets, and the history of commands that a session has sent.
//!
//! A `Command` is one MIDI 1.0 command as RFC 6295, Appendix E lists them, with its channel and its
//! data octets as numbers whose bounds the types keep. `read_command` reads one from octets, and the
//! definition `spelling` says which octets are one. This crate knows nothing of delta times, of
//! running status or of packets: those stand in the crates above.
#![tactic(auto)]

mod channels;
mod commands;
mod controls;
mod frames;
mod history;
pub mod laws;
mod numbers;
mod outcome;
mod param;
mod pedal;
mod reading;
mod selection;
mod sequencing;
mod system_exclusive;

pub use channels::is_packet_before;
pub use commands::{Command, Spelled};
pub use controls::{ControlKind, is_counted, is_entry, is_reset_message};
pub use frames::{FrameEvent, TimePart, frame_event, time_code_after, time_code_step};
pub use history::{
    Sent, checkpoint_history, first_place, in_order, place_of, s_of, session_history,
};
pub use numbers::{Channel, D7, D14};
pub use outcome::ReadError;
pub use param::Param;
pub use pedal::{Pedal, PedalEvent, pedal_after, pedal_event, pedal_step};
pub use reading::{CmdFault, read_command};
pub use selection::{ParamCommand, Selection, param_command};
pub use sequencing::{
    SequencerEvent, SequencerPart, sequencer_after, sequencer_event, sequencer_step,
};
pub use system_exclusive::{LONGEST_KEPT, LONGEST_WHOLE, Sysex, SysexFault, data_len};
