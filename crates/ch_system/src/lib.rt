//! Chapters of the recovery journal that speak of no channel (RFC 6295, B.1 to B.4).
//!
//! Each module has the plain functions of one chapter: `d` of resets, tunings and songs, `v` of active sensing, `q`
//! of the sequencer and `f` of time code. They look at the list of all sent commands, keep nothing and take no
//! memory. [`SimpleTable`], [`SensingTable`], [`SequencerTable`] and [`TimeTable`] tell the same of the commands that they
//! have noted one by one, and keep only what later journals need.
#![tactic(auto)]

pub mod d;
pub mod f;
mod items;
mod kept;
pub mod laws;
pub mod q;
mod sensing_table;
mod sequencer_table;
mod simple_table;
mod time_table;
pub mod v;

pub use items::SystemItem;
pub use sensing_table::SensingTable;
pub use sequencer_table::SequencerTable;
pub use simple_table::SimpleTable;
pub use time_table::TimeTable;
