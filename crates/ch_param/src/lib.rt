//! Chapter M of the recovery journal: parameters and the values that were entered for them (RFC 6295, A.4).
//!
//! Module `m` has the plain functions of the chapter. They look at the list of all sent commands, keep
//! nothing and take no memory. [`ParamTable`] tells the same of the commands that it has noted one by one, and
//! keeps only what later journals need.
#![tactic(auto)]

mod events;
mod halves;
pub mod laws;
mod logs;
pub mod m;
mod param_table;
mod walk;

pub use events::ParamEvent;
pub use param_table::ParamTable;
