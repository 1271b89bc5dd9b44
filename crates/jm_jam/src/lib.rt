//! What a jam plays and what is told of it. In a jam four players share one session; each plays the commands that a generator makes
//! from one seed. The text of a jam is told of the tape of its session alone.
//!
//! [`work()`] is one worker of a jam at the desk that all share: its turns are those of its program, by what its calls were answered.
//! [`work_together`] has seven workers at a desk, each in a thread of its own. [`jam()`] is a whole jam, from a fresh desk to its tape.
#![tactic(auto)]

mod calls;
mod crew;
mod feedback;
mod generator;
mod hand;
mod job;
pub mod laws;
mod opening;
mod parting;
mod player;
mod sender;
mod text;
mod whole;
mod worker;

pub use crew::{Backs, work_together};
pub use generator::{GREATEST_SEED, Generator};
pub use hand::Hand;
pub use job::Job;
pub use text::summary;
pub use whole::{Jammed, jam};
pub use worker::work;
