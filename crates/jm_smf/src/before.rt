//! What the events before one leave for it.

/// What the events of a track leave for the next one.
#[derive(Clone, Copy, Debug)]
pub(crate) struct Before {
    /// The status octet that a channel command may leave out.
    pub running: Option<u8>,
    /// Whether a System Exclusive message was begun and isn't ended.
    pub unfinished: bool,
}
