//! What the workers of a served session come to.

/// The number that a gate is told of the worker of the control port.
pub const CONTROL_WORKER: u8 = 0;

/// What one round came to.
#[derive(Clone, Copy, Debug, PartialEq, Eq)]
pub enum Rounded {
    /// All that was to be done was done, and the worker goes on.
    Whole,
    /// A call was answered that the tape is full.
    RecordFull,
    /// There was no memory at a call.
    NoMemory,
}

/// Why a worker came to its end.
#[derive(Clone, Copy, Debug, PartialEq, Eq)]
pub enum WorkEnd {
    /// It made all its rounds.
    Made,
    /// A receive failed.
    RecvFailed,
    /// A call was answered that the tape is full.
    RecordFull,
    /// There was no memory.
    NoMemory,
}

/// What a worker came to.
#[derive(Clone, Copy, Debug, PartialEq, Eq)]
pub struct Worked {
    /// Why it came to its end.
    pub end: WorkEnd,
    /// How many of its sends failed. It stands still at 2^64 - 1.
    pub send_faults: u64,
}
