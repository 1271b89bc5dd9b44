//! The pieces of faults.

ghost use Rattle.std.specs.Prelude.{◌≡◌, ◌++◌, codes, decimal};
ghost use Rattle.jm_script.specs.Piece.{pieces_text, piece_text};
ghost use Rattle.jm_script.specs.FaultText.{fault_words, section_fault_words, packet_fault_words, journal_fault_words, message_fault_words, shown_fault_words, fault_text, not_taken_text};

use crate::answer::ShownFault;
use crate::piece::{END, NOTHING, Piece, Pieces, SPACE, one_number, words};
use apple_msg::MsgFault;
use jm_cmds::CmdFault;
use jm_packet::PacketFault;
use jm_reader::JournalFault;
use jm_receiver::AcceptFault;
use jm_section::SectionFault;

/// A line of these words alone, behind others.
fn words_line(front: &'static [u8], words: &'static [u8]) -> Pieces<'static>
    ensures { pieces_text result ≡ front.now ++ words.now ++ codes "\n" }
{
    [
        Piece::Text(front),
        Piece::Text(words),
        END,
        NOTHING,
        NOTHING,
        NOTHING,
        NOTHING,
        NOTHING,
        NOTHING,
    ]
}

/// A line of words and a place, behind others.
fn place_line(front: &'static [u8], words: &'static [u8], place: usize) -> Pieces<'static>
    ensures { pieces_text result ≡ front.now ++ words.now ++ decimal place ++ codes "\n" }
{
    [
        Piece::Text(front),
        Piece::Text(words),
        Piece::Number(place as u64),
        END,
        NOTHING,
        NOTHING,
        NOTHING,
        NOTHING,
        NOTHING,
    ]
}

/// A line of a command's fault.
#[tactic(auto, unfolding(crate::specs::FaultText::fault_words))]
fn command_fault_line(fault: CmdFault) -> Pieces<'static>
    ensures { pieces_text result ≡ codes "fault " ++ fault_words fault ++ codes "\n" }
{
    match fault {
        CmdFault::Empty => words_line(b"fault ", b"empty"),
        CmdFault::DataOctet => words_line(b"fault ", b"data-octet"),
        CmdFault::BadStatus(octet) => { place_line(b"fault ", b"bad-status ", usize::from(octet)) }
        CmdFault::BadData(place) => place_line(b"fault ", b"bad-data ", place),
        CmdFault::TooLong => words_line(b"fault ", b"too-long"),
        CmdFault::Short => words_line(b"fault ", b"short"),
    }
}

/// A line of words, a place, and words alone behind it.
fn inner_words(front: &'static [u8], place: usize, words: &'static [u8]) -> Pieces<'static>
    ensures { pieces_text result ≡ front.now ++ codes "bad-command " ++ decimal place ++ codes " " ++ words.now ++ codes "\n" }
{
    [
        Piece::Text(front),
        Piece::Text(b"bad-command "),
        Piece::Number(place as u64),
        SPACE,
        Piece::Text(words),
        END,
        NOTHING,
        NOTHING,
        NOTHING,
    ]
}

/// A line of words, a place, and words and a number behind it.
fn inner_number(
    front: &'static [u8],
    place: usize,
    words: &'static [u8],
    number: usize,
) -> Pieces<'static>
    ensures { pieces_text result ≡ front.now ++ codes "bad-command " ++ decimal place ++ codes " " ++ words.now ++ decimal number ++ codes "\n" }
{
    [
        Piece::Text(front),
        Piece::Text(b"bad-command "),
        Piece::Number(place as u64),
        SPACE,
        Piece::Text(words),
        Piece::Number(number as u64),
        END,
        NOTHING,
        NOTHING,
    ]
}

/// A line of a fault of a command inside a section.
#[tactic(auto, unfolding(crate::specs::FaultText::fault_words))]
fn bad_command_line(front: &'static [u8], place: usize, fault: CmdFault) -> Pieces<'static>
    ensures { pieces_text result ≡ front.now ++ codes "bad-command " ++ decimal place ++ codes " " ++ fault_words fault ++ codes "\n" }
{
    match fault {
        CmdFault::Empty => inner_words(front, place, b"empty"),
        CmdFault::DataOctet => inner_words(front, place, b"data-octet"),
        CmdFault::BadStatus(octet) => {
            inner_number(front, place, b"bad-status ", usize::from(octet))
        }
        CmdFault::BadData(at) => inner_number(front, place, b"bad-data ", at),
        CmdFault::TooLong => inner_words(front, place, b"too-long"),
        CmdFault::Short => inner_words(front, place, b"short"),
    }
}

/// A line of a section's fault, behind other words.
#[tactic(auto, unfolding(crate::specs::FaultText::section_fault_words))]
fn section_fault_line(front: &'static [u8], fault: SectionFault) -> Pieces<'static>
    ensures { pieces_text result ≡ front.now ++ section_fault_words fault ++ codes "\n" }
{
    match fault {
        SectionFault::Short => words_line(front, b"short"),
        SectionFault::NoStatus(place) => place_line(front, b"no-status ", place),
        SectionFault::BadCommand(place, fault) => bad_command_line(front, place, fault),
        SectionFault::BadDelta(place) => place_line(front, b"bad-delta ", place),
    }
}

/// A line of a packet's fault.
#[tactic(auto, unfolding(crate::specs::FaultText::packet_fault_words))]
fn packet_fault_line(fault: PacketFault) -> Pieces<'static>
    ensures { pieces_text result ≡ codes "fault " ++ packet_fault_words fault ++ codes "\n" }
{
    match fault {
        PacketFault::Short => words_line(b"fault ", b"short"),
        PacketFault::Version => words_line(b"fault ", b"version"),
        PacketFault::Padding => words_line(b"fault ", b"padding"),
        PacketFault::Extension => words_line(b"fault ", b"extension"),
        PacketFault::PayloadType => words_line(b"fault ", b"payload-type"),
        PacketFault::Section(fault) => section_fault_line(b"fault section ", fault),
    }
}

/// A line of a journal's fault.
#[tactic(auto, unfolding(crate::specs::FaultText::journal_fault_words))]
fn journal_fault_line(fault: JournalFault) -> Pieces<'static>
    ensures { pieces_text result ≡ codes "fault journal " ++ journal_fault_words fault ++ codes "\n" }
{
    match fault {
        JournalFault::Short(place) => place_line(b"fault journal ", b"short ", place),
        JournalFault::Inside(place) => place_line(b"fault journal ", b"inside ", place),
    }
}

/// A line of a message's fault.
#[tactic(auto, unfolding(crate::specs::FaultText::message_fault_words))]
fn message_fault_line(fault: MsgFault) -> Pieces<'static>
    ensures { pieces_text result ≡ codes "fault " ++ message_fault_words fault ++ codes "\n" }
{
    match fault {
        MsgFault::NotApple => words_line(b"fault ", b"not-apple"),
        MsgFault::UnknownVerb => words_line(b"fault ", b"unknown-verb"),
        MsgFault::Short => words_line(b"fault ", b"short"),
        MsgFault::Version => words_line(b"fault ", b"version"),
        MsgFault::NameNotEnded => words_line(b"fault ", b"name-not-ended"),
    }
}

/// A line of a fault.
#[tactic(auto, unfolding(crate::specs::FaultText::fault_text, crate::specs::FaultText::shown_fault_words))]
pub(crate) fn fault_pieces(fault: &ShownFault) -> Pieces<'static>
    ensures { pieces_text result ≡ fault_text fault.now }
{
    match *fault {
        ShownFault::Command(fault) => command_fault_line(fault),
        ShownFault::Section(fault) => section_fault_line(b"fault ", fault),
        ShownFault::Packet(fault) => packet_fault_line(fault),
        ShownFault::Journal(fault) => journal_fault_line(fault),
        ShownFault::Message(fault) => message_fault_line(fault),
    }
}

/// Why a receiver took nothing of a packet.
#[tactic(auto, unfolding(crate::specs::FaultText::not_taken_text))]
pub(crate) fn not_taken_pieces(fault: &AcceptFault) -> Pieces<'static>
    ensures { pieces_text result ≡ not_taken_text fault.now }
{
    match *fault {
        AcceptFault::Packet(fault) => packet_fault_line(fault),
        AcceptFault::OtherSsrc => words(b"fault other-ssrc\n"),
        AcceptFault::Journal(fault) => journal_fault_line(fault),
        AcceptFault::Older { last } => one_number(b"older ", last),
    }
}
