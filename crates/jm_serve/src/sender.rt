//! What the sender of a session keeps, and what it answers.

/// The number that a gate is told of the worker that sends packets.
pub const DATA_WORKER: u8 = 1;

/// What the sender of a session keeps from round to round.
#[derive(Clone, Copy, Debug, PartialEq, Eq)]
pub struct Sender {
    /// The moment of the last packet, or that from which the first is counted, in units of 100 microseconds.
    pub last_cut: u64,
    /// A play was accepted since the last packet.
    pub owed: bool,
    /// The number of the worker's next call on the desk, modulo 2^32, as a gate is told it.
    pub call: u32,
    /// How many sends failed. It stands still at 2^64 - 1.
    pub send_faults: u64,
}

/// What one call of the sender came to.
#[derive(Clone, Copy, Debug, PartialEq, Eq)]
pub enum Pumped {
    /// No packet was due.
    Idle,
    /// The packet of this number was cut. It was sent to each address of the session.
    Packet { number: u64 },
    /// The tape has as many steps as the session was made for.
    RecordFull { events: u32 },
    /// After 32 departures a participant is still too far behind: this one, with its mark.
    Behind { ssrc: u32, mark: u64 },
}
