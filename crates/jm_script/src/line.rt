//! What a line is.

use crate::hexadecimal::Hex;
use crate::name::PlayerName;
use apple_session::PortKind;
use jm_cmds::Command;
use jm_edge::Addr;

/// Whose line it is.
#[derive(Clone, Copy, Debug, PartialEq, Eq)]
pub enum LineKind {
    /// Of a verb that plays a session.
    Session,
    /// Of the verb that reads octets, each line for itself.
    Read,
    /// Of the verb that feeds packets to a receiver.
    Repair,
}

/// One line of a script. Ticks and moments are in units of 100 microseconds.
#[derive(Debug, Drop)]
pub enum Line {
    /// An empty line or a comment, which has no answer.
    Blank,
    /// `script 2`: the lines to come are of version 2.
    Script,
    /// `session SSRC EVENTS`: a session of 1 to 4,194,304 steps.
    Session {
        ssrc: u32,
        events: u32,
    },
    /// `enter`: a player enters.
    Enter,
    /// `enter NAME`: a player enters by name.
    EnterAs {
        name: PlayerName,
    },
    /// `play PLAYER TICK HEX`, with the player's number. A tick is at most 2^62.
    Play {
        player: u8,
        tick: u64,
        command: Command,
    },
    /// `play NAME TICK HEX`.
    PlayAs {
        name: PlayerName,
        tick: u64,
        command: Command,
    },
    /// `cut TICK`.
    Cut {
        tick: u64,
    },
    /// `ack SSRC SEQ`.
    Ack {
        ssrc: u32,
        seq: u16,
    },
    /// `join SSRC`.
    Join {
        ssrc: u32,
    },
    /// `leave SSRC`.
    Leave {
        ssrc: u32,
    },
    /// `hear SSRC SEQ`.
    Hear {
        ssrc: u32,
        seq: u16,
    },
    /// `feedback`.
    Feedback,
    /// `message control|data ADDR NOW HEX`: octets came to this port of the host at a moment of at most 2^62.
    Message {
        port: PortKind,
        from: Addr,
        now: u64,
        octets: Hex,
    },
    /// `command HEX` of the verb `read`.
    ReadCommand(Hex),
    /// `section HEX` of the verb `read`.
    ReadSection(Hex),
    /// `packet HEX` of the verb `read`.
    ReadPacket(Hex),
    /// `message HEX` of the verb `read`.
    ReadMessage(Hex),
    /// `packet HEX` of the verb `repair`.
    RepairPacket(Hex),
    /// `state` of the verb `repair`.
    ShowState,
}

/// Why a line is outside the grammar, in the order in which the causes are looked for.
#[derive(Clone, Copy, Debug, PartialEq, Eq)]
pub enum LineFault {
    /// The first word is unknown or may not stand there: `session` is missing before it or repeated, or a `script` line isn't
    /// `script 2` at the front.
    Word,
    /// The number of words, or a word that is not in its form or range.
    Form,
    /// The octets of a play are not exactly one command.
    Command,
}
