//! What a journal is asked for.

/// The packets from the checkpoint on and before `packet`, whose tick is in units of 100 microseconds.
#[derive(Clone, Copy, Debug)]
pub(crate) struct Span {
    pub(crate) checkpoint: u64,
    pub(crate) packet: u64,
    pub(crate) tick: u64,
}
