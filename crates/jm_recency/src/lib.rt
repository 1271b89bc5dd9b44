//! Keys with stamps, in the order of their latest touch, in memory that is set once.
//!
//! [`Recency`] is what a table needs that keeps the latest command of each of its items: a touch puts its
//! key behind all others, and a trim takes from the front what is older than a stamp. It is a linked list in
//! arrays. It knows nothing of what a key stands for, and keeps no data beside the stamps.
#![tactic(auto)]

mod recency;

pub use recency::Recency;
