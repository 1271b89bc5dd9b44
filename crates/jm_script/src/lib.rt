//! The lines of scripts and the lines of answers, both ways: [`read_line`] says what a line is, by the verb that it is
//! a line of, and [`write_answer`] prints an answer.
//!
//! Neither knows of a session. A line is a value ([`Line`]) that a program carries out, and what that comes to is a value
//! again ([`AnswerLine`]). Each line and each answer stands for itself, without its end in the one case and with it in
//! the other. Printing takes no memory: [`answer_len`] tells the room that it needs.
#![tactic(auto)]

mod answer;
mod faults;
mod hexadecimal;
mod items;
mod keywords;
mod line;
mod lists;
mod measuring;
mod messages;
mod name;
mod piece;
mod printing;
mod reading;
mod refusals;
mod state;
mod words;
mod writing;

pub use answer::{AnswerLine, Cause, Refusal, ShownFault, StatePart};
pub use hexadecimal::Hex;
pub use items::ItemList;
pub use line::{Line, LineFault, LineKind};
pub use name::PlayerName;
pub use printing::{answer_len, write_answer};
pub use reading::read_line;
pub use words::{addr, number};
