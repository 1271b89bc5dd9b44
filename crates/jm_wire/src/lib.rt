//! Octets on the wire: a buffer that is filled from the front and never grows, the delta field of
//! RFC 6295, section 3.1, numbers whose low bits alone are sent, and the bit headers of a recovery
//! journal.
#![tactic(auto)]

mod delta;
mod heads;
pub mod laws;
mod number;
mod octets;

pub use delta::{DeltaFault, delta_len, read_delta, write_delta};
pub use heads::{ChannelHead, JournalHead, NoteHead, ParamHead, SeqHead, SystemHead, TimeHead};
pub use number::extend16;
pub use octets::{Octets, behind};
