//! What a step changes in who takes part.

/// What a step changes in the list of those who joined.
#[derive(Clone, Copy, Debug, PartialEq, Eq)]
pub enum Change {
    /// One joins.
    Joins,
    /// One leaves.
    Leaves,
    /// Nobody joins or leaves.
    Neither,
}
