//! The workers of a served session: what is due on a desk at a moment, done through a port.
//!
//! [`pump()`] is the sender: it cuts a packet where one is due and sends it to each address of the session. [`control_round`] is
//! what the control port's worker does in a round, and [`data_round`] what that of the data port does. Each of their turns stands in
//! the desk's history with its outcome, and what they sent is a function of the turns before. Nothing is promised of delivery
//! or time.
#![tactic(auto)]

mod control;
mod data;
mod desk_calls;
mod listener;
mod listening;
mod message_calls;
mod playing;
mod pumping;
mod receivers;
mod sender;
mod sending;
mod serving;
mod worked;

pub use control::{Reporter, control_round, serve_control};
pub use data::{data_round, serve_data};
pub use listener::Listener;
pub use pumping::pump;
pub use receivers::{Receivers, Slot};
pub use sender::{DATA_WORKER, Pumped, Sender};
pub use worked::{CONTROL_WORKER, Rounded, WorkEnd, Worked};
