//! The tests of the receiver, of its repair and the laws on it, and of whole sessions.
//!
//! They stand in a crate of their own because a crate with tests is proved twice.
#![tactic(auto)]

#[cfg(test)]
mod laws_of_repair;
#[cfg(test)]
mod receiver;
#[cfg(test)]
mod repair;
#[cfg(test)]
mod segments;
#[cfg(test)]
mod session;
