//! What an answer is.

use crate::hexadecimal::Hex;
use crate::items::ItemList;
use crate::name::PlayerName;
use apple_msg::{Message, MsgFault};
use jm_book::{Acted, FeedbackList};
use jm_cmds::{Channel, CmdFault, Command, D7};
use jm_packet::PacketFault;
use jm_reader::JournalFault;
use jm_receiver::{AcceptFault, HeardKind};
use jm_section::SectionFault;
use jm_state::{Halves, ProgramPart, Selection, SequencerPart, TimePart};

/// One line of an answer.
#[derive(Debug, Drop)]
pub enum AnswerLine {
    /// The script is of version 2.
    Script,
    /// The session stands.
    Session,
    /// A player entered, and has this number.
    Player {
        player: u8,
    },
    /// A player entered by name, and has this number.
    PlayerAs {
        player: u8,
        name: PlayerName,
    },
    /// A player entered by this name before.
    NameTaken {
        name: PlayerName,
    },
    /// A command is pending. `serial` is how many were accepted before; `kept` tells whether it will be repaired.
    Accepted {
        serial: u64,
        kept: bool,
    },
    /// A packet of this number was cut.
    Packet {
        number: u64,
        octets: Hex,
    },
    /// A participant's mark is now this packet.
    Mark {
        mark: u64,
    },
    /// A participant joined, with this mark and player number.
    Joined {
        mark: u64,
        player: u8,
    },
    /// A participant left.
    Left,
    /// The number of a participant's own packet is kept.
    Noted,
    /// What the host of this SSRC is to report to whom.
    Feedback {
        ssrc: u32,
        entries: FeedbackList,
    },
    /// What a message came to.
    Said {
        reply: Option<Message>,
        act: Acted,
    },
    /// The session refused a line.
    Refused(Refusal),
    /// The command at the front of octets, which has so many of them.
    CommandRead {
        used: usize,
        command: Command,
    },
    /// The entries of a section.
    SectionRead {
        items: ItemList,
    },
    /// A packet's header, the number of entries of its section, and of its journal the checkpoint and the number of logs.
    PacketRead {
        number: u16,
        tick: u32,
        ssrc: u32,
        items: usize,
        journal: Option<(u16, usize)>,
    },
    /// A message, which is printed as it is written.
    MessageRead(Message),
    /// Octets are not what they were read as.
    Fault(ShownFault),
    /// A receiver took a packet of this number. `gap` packets were missed before it, and `count` commands were heard.
    Took {
        number: u64,
        gap: u64,
        count: usize,
    },
    /// One command was heard.
    HeardOne {
        kind: HeardKind,
        tick: u32,
        command: Command,
    },
    /// A receiver took nothing of a packet.
    NotTaken(AcceptFault),
    /// One part of a receiver's state.
    Part(StatePart),
    /// The end of a receiver's state.
    End,
    /// The line of this number is the first outside the grammar.
    BadScript {
        line: u32,
        cause: Cause,
    },
}

/// Why a session refused a line.
#[derive(Clone, Copy, Debug, PartialEq, Eq)]
pub enum Refusal {
    /// No player has this number or name.
    UnknownPlayer,
    /// The tape has as many steps as the session was made for.
    RecordFull {
        events: u32,
    },
    /// As many players have entered as may.
    PlayersFull {
        most: u8,
    },
    /// The journal codes as many parameters of the channel as it may.
    ParamsFull {
        channel: Channel,
        kept: usize,
    },
    /// The journal codes as many pressures on keys of the channel as it may.
    PolyFull {
        channel: Channel,
        kept: usize,
    },
    /// The journal has so many logs and octets of System Exclusive messages that one more is too many.
    SysexFull {
        logs: usize,
        octets: usize,
    },
    /// So many commands are pending, or the MIDI list would have so many octets, or the delta time would be this.
    NeedsCut {
        pending: usize,
        octets: usize,
        delta: u64,
    },
    /// The participant of this SSRC, whose mark is this, is too far behind.
    Behind {
        ssrc: u32,
        mark: u64,
    },
    /// No participant of this SSRC is joined.
    UnknownSsrc,
    /// The number reported is no later than the mark.
    Old {
        mark: u64,
    },
    /// The number reported is past the last packet that was sent.
    NotSent {
        last: Option<u64>,
    },
    /// A participant of this SSRC is joined.
    Already,
    /// As many participants are joined as may be.
    SessionFull {
        most: u8,
    },
}

/// A fault of octets, as it is printed.
#[derive(Clone, Copy, Debug, PartialEq, Eq)]
pub enum ShownFault {
    /// They begin with no command.
    Command(CmdFault),
    /// They begin with no section.
    Section(SectionFault),
    /// They are no packet.
    Packet(PacketFault),
    /// They are a packet, and what stands behind its section is no journal.
    Journal(JournalFault),
    /// They are no message.
    Message(MsgFault),
}

/// One part of a receiver's state.
#[derive(Debug, Drop)]
pub enum StatePart {
    /// The song.
    Song(D7),
    /// The sequencer.
    Sequencer(SequencerPart),
    /// The time code.
    Time(TimePart),
    /// The number of System Exclusive messages.
    Sysex(u8),
    /// A channel's program.
    Program {
        channel: Channel,
        part: ProgramPart,
    },
    /// One control.
    Control {
        channel: Channel,
        number: D7,
        value: D7,
    },
    /// How often the sustain pedal went up or down.
    Pedal {
        channel: Channel,
        count: u8,
    },
    /// The selection of a parameter.
    Select {
        channel: Channel,
        part: Selection,
    },
    /// What was entered for one parameter.
    Param {
        channel: Channel,
        nrpn: bool,
        high: D7,
        low: D7,
        halves: Halves,
    },
    /// The wheel.
    Wheel {
        channel: Channel,
        first: D7,
        second: D7,
    },
    /// A sounding note.
    Note {
        channel: Channel,
        note: D7,
        velocity: D7,
    },
    /// The pressure of a channel.
    Pressure {
        channel: Channel,
        value: D7,
    },
    /// The pressure on one key.
    Poly {
        channel: Channel,
        note: D7,
        value: D7,
    },
}

/// Why a line is bad, in the order in which the causes are looked for.
#[derive(Clone, Copy, Debug, PartialEq, Eq)]
pub enum Cause {
    /// The input has more lines than one may have.
    Lines,
    /// The line has more octets than the verb takes.
    TooLong,
    /// The first word isn't one of the verb's, or not one that may stand there.
    Word,
    /// The number of words, or a word that isn't in its form or range.
    Form,
    /// The hexadecimal word isn't exactly one command.
    Command,
}
