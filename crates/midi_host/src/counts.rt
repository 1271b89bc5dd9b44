//! What is counted on a tape.

/// What is counted on the tape of a session.
#[derive(Clone, Copy, Debug, PartialEq, Eq)]
pub struct Counts {
    /// The packets that were cut.
    pub packets: u64,
    /// The commands that were played.
    pub commands: u64,
    /// How often one joined.
    pub joins: u64,
    /// How often one left.
    pub leaves: u64,
}
