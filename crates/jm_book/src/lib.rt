//! One session: its players, its participants and their marks, what is pending, and the packets.
#![tactic(auto)]

mod answers;
mod book;
mod cut;
mod keeper;
pub mod laws;
mod lists;
mod marks;
mod participants;
mod play;
mod roster;
mod say;
mod steps;
mod tape;
mod waiting;

pub use answers::{
    Acked, Acted, Cutted, Entered, Given, Gone, Heard, Joined, PlayFault, Played, Said,
};
pub use book::Book;
pub use lists::{AddrList, FeedbackEntry, FeedbackList};
pub use participants::Participant;
pub use steps::{Config, Step};
