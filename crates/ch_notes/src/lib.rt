//! Chapters of the recovery journal that speak of notes (RFC 6295, A.6, A.7 and A.9).
//!
//! Modules `n`, `e` and `a` have the plain functions of Chapters N, E and A. They look at the list of all
//! sent commands, keep nothing and take no memory.
#![tactic(auto)]

pub mod a;
pub mod e;
mod events;
mod extra_table;
mod key_logs;
pub mod laws;
pub mod n;
mod note_rows;
mod note_table;
mod poly_table;
mod presses;
mod shape;

pub use events::{NoteEvent, note_event};
pub use extra_table::ExtraTable;
pub use note_table::NoteTable;
pub use poly_table::PolyTable;
pub use presses::{PolyEvent, poly_event, pressed_note};
