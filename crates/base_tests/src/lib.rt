//! The tests of the lowest crates: ports and texts, the turn, recency, octets, commands, the state, sections and packets.
//!
//! They stand in a crate of their own because a crate with tests is proved twice.
#![tactic(auto)]

#[cfg(test)]
mod cmds;
#[cfg(test)]
mod edge;
#[cfg(test)]
mod packet;
#[cfg(test)]
mod ports;
#[cfg(test)]
mod recency;
#[cfg(test)]
mod section;
#[cfg(test)]
mod state;
#[cfg(test)]
mod state_tables;
#[cfg(test)]
mod turn;
#[cfg(test)]
mod wire;
