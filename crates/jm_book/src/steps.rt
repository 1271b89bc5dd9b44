//! What a session is told, and what its tape keeps.

use apple_msg::{Message, Name};
use apple_session::PortKind;
use jm_cmds::Command;
use jm_edge::Addr;

/// What a session is made with.
#[derive(Debug, PartialEq, Eq, Drop)]
pub struct Config {
    /// The synchronization source of the host's stream.
    pub ssrc: u32,
    /// How many steps the tape takes, from 1 to 4,194,304.
    pub events: u32,
    /// The name that the host gives itself in its answers to invitations.
    pub name: Name,
}

/// One step of a session, as it was taken. A refused call is no step.
#[derive(Debug, Drop)]
pub enum Step {
    /// A local player entered.
    Enter,
    /// A player's command, at the tick that the player gave, in units of 100 microseconds.
    Play {
        player: u8,
        command: Command,
        tick: u64,
    },
    /// All pending commands became the next packet, or one segment did, at the tick that the sender gave.
    Cut {
        tick: u64,
    },
    /// The participant reported the low 16 bits of the last packet that it received.
    Ack {
        ssrc: u32,
        seq: u16,
    },
    /// A participant joined.
    Join {
        ssrc: u32,
    },
    /// A participant left, and its peer was dropped.
    Leave {
        ssrc: u32,
    },
    /// The host received the participant's own packet with these low 16 bits of its number.
    Hear {
        ssrc: u32,
        seq: u16,
    },
    /// The host asked what it is to report to the participants.
    Feedback,
    /// A message of the session protocol came to this port, at a moment in units of 100 microseconds.
    Say {
        port: PortKind,
        from: Addr,
        message: Message,
        now: u64,
    },
}
