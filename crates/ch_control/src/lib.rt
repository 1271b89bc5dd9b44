//! The chapter of the recovery journal that speaks of controllers (RFC 6295, A.3).
//!
//! Module `c` has the plain functions of Chapter C. They look at the list of all sent commands, keep
//! nothing and take no memory. [`ControlTable`] tells the same of the commands that it has noted one by one, and keeps
//! only what later journals need.
#![tactic(auto)]

pub mod c;
mod control_table;
mod counts;
mod events;
mod latest;
pub mod laws;
mod session;

pub use control_table::ControlTable;
pub use counts::Counts;
pub use events::{ControlEvent, control_event};
