//! What the calls of a session answer.

use apple_msg::Message;
use apple_session::Why;
use jm_cmds::{Channel, Command};

/// What [`crate::Book::enter`] answers.
#[derive(Clone, Copy, Debug, PartialEq, Eq)]
pub enum Entered {
    /// The new player's number: how many entered before, from 0 to 63.
    Player(u8),
    /// The tape has as many steps as the session was made for.
    RecordFull { events: u32 },
    /// 64 players have entered.
    PlayersFull { most: u8 },
}

/// What [`crate::Book::play`] answers.
#[derive(Debug, Drop)]
pub enum Played {
    /// The command is pending. `serial` is how many plays were accepted before; `kept` is false
    /// exactly for a SysEx of over 254 data octets, which is sent and not repaired. One of over 2,046 is long: it is sent in
    /// segments, one a packet.
    Accepted { serial: u64, kept: bool },
    /// The command was not taken, and is handed back.
    Refused { why: PlayFault, command: Command },
}

/// Why a play was refused, in the order in which the causes are looked for.
#[derive(Clone, Copy, Debug, PartialEq, Eq)]
pub enum PlayFault {
    /// No local player of this number entered, and no joined participant has it.
    UnknownPlayer,
    /// The tape has as many steps as the session was made for.
    RecordFull {
        events: u32,
    },
    /// The command is Control 6 or 38 of this channel and sets a selected parameter, and the journal codes
    /// `kept` other parameters of the channel, as many as it may.
    ParamsFull {
        channel: Channel,
        kept: usize,
    },
    /// The command is a pressure of a note of this channel, and the journal codes `kept` other notes'
    /// pressures in the channel, as many as it may.
    PolyFull {
        channel: Channel,
        kept: usize,
    },
    /// The command is a SysEx to be kept, and the journal's SysEx have so many logs and octets that one
    /// more of its size is too many.
    SysexFull {
        logs: usize,
        octets: usize,
    },
    /// A segment of a long command waits: `pending` says how many do, `octets` is the length of the next one in its packet, and
    /// `delta` is 0. Or the command is long and others are pending; or 256 commands are pending; or with this command, or a long
    /// one's first segment, the MIDI list would have `octets` octets, more than 4,095; or `delta`, its distance from the
    /// command before it, is over 0x0FFFFFFF.
    NeedsCut {
        pending: usize,
        octets: usize,
        delta: u64,
    },
}

/// What [`crate::Book::cut`] answers.
#[derive(Clone, Copy, Debug, PartialEq, Eq)]
pub enum Cutted {
    /// The packet of this number was written. Numbers start at 0.
    Packet { number: u64 },
    /// The tape has as many steps as the session was made for.
    RecordFull { events: u32 },
    /// The next number is 32,767 or more past the checkpoint: the mark of this participant, the
    /// first in order of joining that has the least one.
    Behind { ssrc: u32, mark: u64 },
}

/// What [`crate::Book::ack`] answers.
#[derive(Clone, Copy, Debug, PartialEq, Eq)]
pub enum Acked {
    /// The participant's mark is now this packet.
    Moved { mark: u64 },
    /// No participant of this SSRC is joined.
    UnknownSsrc,
    /// The tape has as many steps as the session was made for.
    RecordFull { events: u32 },
    /// The number is the mark's, or at least 32,768 past it, which is before it.
    Old { mark: u64 },
    /// The number is past the last packet that was sent.
    NotSent { last: Option<u64> },
}

/// What [`crate::Book::join`] answers.
#[derive(Clone, Copy, Debug, PartialEq, Eq)]
pub enum Joined {
    /// The participant is joined, with this mark and player number (64 and its slot).
    At { mark: u64, player: u8 },
    /// It is joined already.
    Already,
    /// The tape has as many steps as the session was made for.
    RecordFull { events: u32 },
    /// As many participants are joined as may be.
    SessionFull { most: u8 },
}

/// What [`crate::Book::leave`] answers.
#[derive(Clone, Copy, Debug, PartialEq, Eq)]
pub enum Gone {
    /// The participant is no longer joined, and no peer has its SSRC.
    Left,
    /// No participant of this SSRC is joined.
    UnknownSsrc,
    /// The tape has as many steps as the session was made for.
    RecordFull { events: u32 },
}

/// What [`crate::Book::hear`] answers.
#[derive(Clone, Copy, Debug, PartialEq, Eq)]
pub enum Heard {
    /// The number is kept until a later one comes or the participant leaves.
    Noted,
    /// No participant of this SSRC is joined.
    UnknownSsrc,
    /// The tape has as many steps as the session was made for.
    RecordFull { events: u32 },
}

/// What [`crate::Book::feedback`] answers.
#[derive(Clone, Copy, Debug, PartialEq, Eq)]
pub enum Given {
    /// The list is filled.
    Given,
    /// The tape has as many steps as the session was made for.
    RecordFull { events: u32 },
}

/// What a message came to.
#[derive(Clone, Copy, Debug, PartialEq, Eq)]
pub enum Acted {
    /// Nothing beyond the reply and the list of peers.
    Plain,
    /// Its sender is now a participant, with this mark and player number (64 and its slot).
    Joined { mark: u64, player: u8 },
    /// Its sender is no longer a participant.
    Left,
    /// Its sender's mark is now this packet.
    Moved { mark: u64 },
    /// A clock exchange came to its end: the peer's clock shows this much more than the host's, in units of
    /// 100 microseconds, rounded down.
    Clocked { offset: i128 },
    /// Nothing at all.
    Ignored(Why),
    /// The number reported is the mark's, or at least 32,768 past it, which is before it.
    Old { mark: u64 },
    /// The number reported is past the last packet that was sent.
    NotSent { last: Option<u64> },
}

/// What [`crate::Book::say`] answers.
#[derive(Debug, PartialEq, Eq, Drop)]
pub enum Said {
    /// The tape has as many steps as the session was made for.
    RecordFull { events: u32 },
    /// The reply to the sender, where there is one, and what the message came to.
    Done { reply: Option<Message>, act: Acted },
}

impl Acted {
    ghost use Rattle.std.specs.Prelude.{◌≡◌};
    ghost use Rattle.jm_book.specs.Answers.{is_acted};

    /// Whether it is a step: what was ignored, old or not sent is none.
    pub(crate) fn is_taken(&self) -> bool
        ensures { result ≡ is_acted self.now }
    {
        match self {
            Acted::Ignored(_) | Acted::Old { .. } | Acted::NotSent { .. } => false,
            Acted::Plain
            | Acted::Joined { .. }
            | Acted::Left
            | Acted::Moved { .. }
            | Acted::Clocked { .. } => true,
        }
    }
}

impl Said {
    ghost use Rattle.std.specs.Prelude.{◌≡◌};
    ghost use Rattle.jm_book.specs.Answers.{is_said};

    /// Whether the message is a step.
    pub(crate) fn is_taken(&self) -> bool
        ensures { result ≡ is_said self.now }
    {
        match self {
            Said::RecordFull { .. } => false,
            Said::Done { act, .. } => act.is_taken(),
        }
    }
}
