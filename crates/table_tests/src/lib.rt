//! The tests of the chapters' tables: examples, and long lists of commands of which tables and plain functions
//! tell the same.
//!
//! They stand in a crate of their own because a crate with tests is proved twice.
#![tactic(auto)]

#[cfg(test)]
mod compare;
#[cfg(test)]
mod control;
#[cfg(test)]
mod notes;
#[cfg(test)]
mod param;
#[cfg(test)]
mod sysex;
#[cfg(test)]
mod system;
#[cfg(test)]
mod voice;
