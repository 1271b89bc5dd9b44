//! What the data port's worker keeps.

use crate::receivers::Receivers;
use crate::sender::Sender;

/// What the data port's worker keeps from round to round.
#[derive(Debug, Drop)]
pub struct Listener {
    /// When it sends, and what it counts.
    pub sender: Sender,
    /// A round was made, from whose moment on packets are counted.
    pub has_begun: bool,
    /// Whose packets it takes.
    pub receivers: Receivers,
}
