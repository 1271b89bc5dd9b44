//! A session from its sender to its receivers: what the packets of a book say where they are received.
//!
//! The crate is laws alone. On the one side stand the definitions of jm_book, on the other those of jm_packet, jm_reader and
//! jm_receiver; [`laws`] ties them together for every list of steps that a book can take.
#![tactic(auto)]

pub mod laws;
