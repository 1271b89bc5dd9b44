//! Several sessions on one pair of ports, told apart by the addresses of those who send: each group is a desk of its
//! own, and each address belongs to just one group.
//!
//! The types that matter: [`Groups`] has the desks and the [`Route`]s by which an address finds its group; [`Passes`]
//! has one thread's pass for each desk. Nothing is shared by two groups: what a call does at one desk, jm_desk says,
//! and the calls here say it for each group, in order. No datagram and no port is known here.
#![tactic(auto)]

mod fault;
mod groups;
mod passes;
mod route;

pub use fault::GroupsFault;
pub use groups::{Groups, MOST_GROUPS};
pub use passes::Passes;
pub use route::Route;
