//! Chapters of the recovery journal with one log a channel: program and bank (RFC 6295, A.2), pitch wheel
//! (A.5) and channel pressure (A.8).
//!
//! Modules `p`, `w` and `t` have the plain functions of Chapters P, W and T. They look at the list of all
//! sent commands, keep nothing and take no memory. [`ProgramTable`], [`WheelTable`] and [`PressureTable`] tell the
//! same of the commands that they have noted one by one, and keep only what later journals need.
#![tactic(auto)]

mod bank;
mod events;
mod item;
pub mod laws;
pub mod p;
mod pressure_table;
mod program;
mod program_table;
pub mod t;
pub mod w;
mod wheel_table;

pub use bank::Bank;
pub use events::{
    PressureEvent, ProgramEvent, WheelEvent, pressure_event, program_event, wheel_event,
};
pub use pressure_table::PressureTable;
pub use program_table::ProgramTable;
pub use wheel_table::WheelTable;
