//! Why a list has no file, and why octets are none.

use thiserror::Error;

/// Why a list has no file of one track.
#[derive(Clone, Copy, PartialEq, Eq, Debug, Error)]
pub enum SmfFault {
    /// The command at this index, counted from 0, is more than 0x0FFFFFFF ticks behind the one before
    /// it. It is the first such command.
    #[error("command {index} is too far behind the one before it")]
    TooFar { index: usize },
    /// The track would have more than 4,294,967,295 octets.
    #[error("the track has too many octets")]
    TooLong,
}

/// Why octets are no file that this host reads: the first fault in order of place. Places are counted from
/// the file's first octet as 0.
#[derive(Clone, Copy, PartialEq, Eq, Debug, Error)]
pub enum FileFault {
    /// The octets at the front differ from `MThd`. It is told before all others.
    #[error("no Standard MIDI File")]
    NotSmf,
    /// The octets end inside the chunk that begins at this place, or have to go on with one there; or
    /// the track ends inside the event that begins at this place, or has to go on with one there.
    #[error("the octets end inside what begins at octet {0}")]
    Short(usize),
    /// The length at this place, that of the header, is below 6.
    #[error("the length at octet {0} is too small for a header")]
    HeadLength(usize),
    /// The file is of this format, and not of format 0.
    #[error("the file is of format {0}")]
    Format(u16),
    /// The division is 0, or in frames (its high bit is set).
    #[error("the division is {0:#06x}")]
    Division(u16),
    /// The event that begins at this place has a delta or length field of more than four octets, a data
    /// octet with the high bit, a status octet from F1 to F6 or from F8 to FE, or too many data octets for
    /// a System Exclusive message.
    #[error("octet {0} begins no event")]
    BadEvent(usize),
    /// The event that begins at this place has a data octet where a status has to stand, and there is no
    /// running status.
    #[error("no running status for the event at octet {0}")]
    NoStatus(usize),
}
