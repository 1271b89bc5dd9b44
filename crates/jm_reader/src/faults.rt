//! Why octets are no journal.

use thiserror::Error;

/// Why octets begin with no recovery journal. Places are counted from the journal's first octet. The first fault in
/// order of place is told; at one place `Short` goes before `Inside`.
#[derive(Clone, Copy, PartialEq, Eq, Debug, Error)]
pub enum JournalFault {
    /// The octets end inside the header at this place (of the journal, of the system journal or of a channel
    /// journal), or before the end that its LENGTH tells.
    #[error("the octets end inside the journal header at octet {0} or the journal behind it")]
    Short(usize),
    /// The chapter that begins at this place passes the end that its journal's LENGTH tells, or the LENGTH that
    /// stands in the header at this place is less than the header's own size.
    #[error("what begins at octet {0} passes the journal that it stands in")]
    Inside(usize),
}
