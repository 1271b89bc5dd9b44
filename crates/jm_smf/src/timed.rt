//! Commands in time.

use jm_cmds::Command;

/// A command and its moment.
#[derive(PartialEq, Eq, Debug, Drop)]
pub struct Timed {
    /// The moment, in ticks: units of 100 microseconds on a tape, the division's units in a file.
    pub tick: u64,
    pub command: Command,
}
