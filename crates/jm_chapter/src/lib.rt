//! What chapters of the recovery journal share.
//!
//! A chapter has its own notion of what ends what among the places of a history ([`Items`]). Several are
//! lists of logs of two octets behind a header with their number, as Chapters C, E and A (RFC 6295, A.3,
//! A.7 and A.9): such a chapter says in [`Listed`] which logs a place has, and its length, its octets and
//! its freshness follow.
#![tactic(auto)]

mod listed;
mod log;
mod places;
mod tally;

pub use listed::{Listed, listed_fresh, listed_len, listed_write, write_logs};
pub use log::{Log, PlaceLogs};
pub use places::{Items, next_standing, places_from};
pub use tally::{Tally, tally_of};
