//! The tests of the chapters, of the journal that has them, and of its reader.
//!
//! They stand in a crate of their own because a crate with tests is proved twice.
#![tactic(auto)]

#[cfg(test)]
mod control;
#[cfg(test)]
mod journal;
#[cfg(test)]
mod notes;
#[cfg(test)]
mod param;
#[cfg(test)]
mod reader;
#[cfg(test)]
mod reader_channels;
#[cfg(test)]
mod reader_forms;
#[cfg(test)]
mod sysex;
#[cfg(test)]
mod system;
#[cfg(test)]
mod voice;
