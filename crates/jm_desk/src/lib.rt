//! One session for many threads: a book that threads share by turns. Each call of a thread is one turn, and what all
//! threads called is one legal history: each outcome is what the book answers after the steps taken before it.
//!
//! The types that matter: [`Desk`] has the book and the nine calls; a [`Pass`] lets one thread call, and tells in
//! proofs what that thread has seen. Beneath is jm_turn, which knows nothing of sessions; the session's rules are
//! jm_book's. Nothing is promised of time: not that a call that waits returns, nor in which order threads come that
//! never met.
#![tactic(auto)]

mod calls;
mod desk;
mod ending;
mod held;
pub mod laws;
mod pass;
mod turn;

pub use desk::Desk;
pub use held::Held;
pub use pass::Pass;
pub use turn::{DeskTurn, Outcome, Turned, Unplayed};
