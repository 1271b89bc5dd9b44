//! The tests of messages, peers, invitations and calls, of the book, and of what threads share of it.
//!
//! They stand in a crate of their own because a crate with tests is proved twice.
#![tactic(auto)]

#[cfg(test)]
mod book;
#[cfg(test)]
mod call;
#[cfg(test)]
mod desk;
#[cfg(test)]
mod invitations;
#[cfg(test)]
mod jam;
#[cfg(test)]
mod messages;
#[cfg(test)]
mod peers;
#[cfg(test)]
mod segments;
#[cfg(test)]
mod serve;
