//! Chapter X of the recovery journal: System Exclusive messages (RFC 6295, B.5).
//!
//! Module `x` has the plain functions of the chapter. They look at the list of all sent commands, keep
//! nothing and take no memory. [`Table`] tells the same of the commands that it has noted one by one, and keeps only what
//! later journals need.
#![tactic(auto)]

mod coded;
mod events;
mod kept;
pub mod laws;
mod log;
mod table;
pub mod x;

pub use events::{SysexEvent, sysex_event};
pub use table::Table;
