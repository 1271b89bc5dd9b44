//! A value that threads share by turns. A thread draws a ticket, waits until its number is served, has the value
//! by itself, and gives it back with the one turn that it made. What all threads did is one list of turns, the
//! history, of which each pass knows a beginning.
//!
//! The types that matter: [`Turn`] owns the value; a [`Pass`] lets one thread take it, and tells in proofs what that
//! thread has seen; [`Told`] says for which list of turns a value stands. Nothing is promised of time: not that a
//! call that waits returns, nor in which order threads come that never met.
#![tactic(auto)]

mod pass;
mod plays;
mod told;
mod turn;
mod view;

pub use pass::Pass;
pub use told::{Entry, Told};
pub use turn::Turn;
pub use view::{Kind, Made, Stage, View};
