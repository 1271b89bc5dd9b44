//! What stands in a MIDI list.

use jm_cmds::{Command, Sysex};

/// One entry of a MIDI list, with the time since the entry before it.
#[derive(Debug, Drop)]
pub struct Item {
    /// Ticks since the entry before, from 0 to 0x0FFFFFFF.
    pub delta: u32,
    pub what: What,
}

/// What an entry of a MIDI list is.
#[derive(Debug, Drop)]
pub enum What {
    /// A whole command.
    Whole(Command),
    /// A segment of a System Exclusive command that is sent in several (RFC 6295, section 3.2,
    /// Figure 5), with its data octets.
    Part { kind: PartKind, octets: Sysex },
    /// An octet that is passed over alone: F4, F5, F9 or FD.
    Passed(u8),
}

/// Which segment of a System Exclusive command it is, by its first octet and its last.
#[derive(Clone, Copy, PartialEq, Eq, Debug)]
pub enum PartKind {
    /// F0 to F0.
    First,
    /// F7 to F0.
    Middle,
    /// F7 to F7.
    Last,
    /// F0 or F7 to F4: the command is called off.
    Cancel,
}
