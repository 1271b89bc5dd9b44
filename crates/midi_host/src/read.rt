//! The verb `read`: what octets are, each line for itself.

ghost use Rattle.std.specs.Prelude.{◌≡◌, IfOk};
ghost use Rattle.jm_cmds.specs.Reading.{command_read};
ghost use Rattle.jm_section.specs.Reading.{section_read};
ghost use Rattle.jm_packet.specs.Reading.{packet_view};
ghost use Rattle.apple_msg.specs.Reading.{read};
ghost use Rattle.midi_host.specs.Did.{Did};
ghost use Rattle.midi_host.specs.Read.{command_line, section_line, packet_with, journal_at, packet_line, message_line, read_out};

use super::answers::Answers;
use super::conversation::{Conversation, LineOutcome, MOST_OCTETS, refuse};
use apple_msg::read_message;
use jm_cmds::{ReadError, read_command};
use jm_packet::{Packet, read_packet};
use jm_reader::read_journal;
use jm_script::{AnswerLine, Cause, ItemList, Line, LineKind, ShownFault, read_line};
use jm_section::read_section;
use jm_wire::behind;
use std::alloc::{AllocError, Global};

/// The verb, which keeps nothing from one line to the next.
#[derive(Debug, Drop)]
pub struct Read {}

/// `command HEX`.
fn command_line(octets: &[u8], alloc: Global) -> Result<AnswerLine, AllocError>
    ensures { IfOk result (λ line. line ≡ command_line (command_read octets.now)) }
{
    match read_command(octets, alloc) {
        Ok((command, used)) => Ok(AnswerLine::CommandRead { used, command }),
        Err(ReadError::Fault(fault)) => Ok(AnswerLine::Fault(ShownFault::Command(fault))),
        Err(ReadError::Memory) => Err(AllocError),
    }
}

/// `section HEX`.
fn section_line(octets: &[u8], alloc: Global) -> Result<AnswerLine, AllocError>
    ensures { IfOk result (λ line. line ≡ section_line (section_read octets.now)) }
{
    match read_section(octets, alloc) {
        Ok(section) => Ok(AnswerLine::SectionRead {
            items: ItemList::of(section.items),
        }),
        Err(ReadError::Fault(fault)) => Ok(AnswerLine::Fault(ShownFault::Section(fault))),
        Err(ReadError::Memory) => Err(AllocError),
    }
}

/// A packet, with the checkpoint and the number of logs of its journal, if it has one.
fn packet_read(packet: &Packet, journal: Option<(u16, usize)>) -> AnswerLine
    ensures { result ≡ packet_with (packet_view packet.now) journal }
{
    AnswerLine::PacketRead {
        number: packet.number,
        tick: packet.tick,
        ssrc: packet.ssrc,
        items: packet.section.items.len(),
        journal,
    }
}

/// What is told of a packet of these octets, which is read but for its journal.
fn with_journal(packet: &Packet, octets: &[u8], alloc: Global) -> Result<AnswerLine, AllocError>
    ensures { IfOk result (λ line. line ≡ journal_at (packet_view packet.now) octets.now packet.now.journal) }
{
    let Some(place) = packet.journal else {
        return Ok(packet_read(packet, None));
    };
    match read_journal(behind(octets, place), alloc) {
        Ok(report) => Ok(packet_read(packet, Some((report.checkpoint, report.logs.len())))),
        Err(ReadError::Fault(fault)) => Ok(AnswerLine::Fault(ShownFault::Journal(fault))),
        Err(ReadError::Memory) => Err(AllocError),
    }
}

/// `packet HEX`.
fn packet_line(octets: &[u8], alloc: Global) -> Result<AnswerLine, AllocError>
    ensures { IfOk result (λ line. line ≡ packet_line octets.now) }
{
    match read_packet(octets, alloc) {
        Ok(packet) => with_journal(&packet, octets, alloc),
        Err(ReadError::Fault(fault)) => Ok(AnswerLine::Fault(ShownFault::Packet(fault))),
        Err(ReadError::Memory) => Err(AllocError),
    }
}

/// `message HEX`.
fn message_line(octets: &[u8]) -> AnswerLine
    ensures { result ≡ message_line (read octets.now) }
{
    match read_message(octets) {
        Ok(message) => AnswerLine::MessageRead(message),
        Err(fault) => AnswerLine::Fault(ShownFault::Message(fault)),
    }
}

/// Answers a line that is in the grammar.
fn read_out(line: Line, alloc: Global, answers: &mut Answers) -> Result<LineOutcome, AllocError>
    ensures { Did result (read_out line) tt answers.old answers.new }
{
    match line {
        Line::Blank => Ok(LineOutcome::Taken),
        Line::ReadCommand(octets) => {
            answers.add(&command_line(octets.as_slice(), alloc)?)?;
            Ok(LineOutcome::Taken)
        }
        Line::ReadSection(octets) => {
            answers.add(&section_line(octets.as_slice(), alloc)?)?;
            Ok(LineOutcome::Taken)
        }
        Line::ReadPacket(octets) => {
            answers.add(&packet_line(octets.as_slice(), alloc)?)?;
            Ok(LineOutcome::Taken)
        }
        Line::ReadMessage(octets) => {
            answers.add(&message_line(octets.as_slice()))?;
            Ok(LineOutcome::Taken)
        }
        _ => Ok(LineOutcome::Bad(Cause::Word)),
    }
}

impl Conversation for Read {
    ghost use Rattle.midi_host.specs.declared.conversation.TheConstants.{MOST_OCTETS};
    ghost use Rattle.midi_host.specs.Told.{told_by};
    ghost use Rattle.midi_host.specs.Read.{read_lined};
    ghost use Rattle.std.proofs.Common.{lit≤};
    ghost use Rattle.midi_host.specs.ToldBy.{told_by_nothing, told_by_lines, told_by_too_long};

    const LONGEST: usize = MOST_OCTETS;

    ghost LONGEST = { MOST_OCTETS };

    ghost told = { λ read before lines. told_by MOST_OCTETS read_lined before tt lines };

    ghost bounded = { lit≤ tt };

    ghost told_nothing = { λ read before. told_by_nothing MOST_OCTETS read_lined before tt };

    ghost told_lines = { λ read before line lines many. told_by_lines MOST_OCTETS read_lined before tt line lines many };

    ghost told_too_long = { λ read before line lines few long. told_by_too_long MOST_OCTETS read_lined before tt line lines few long };

    fn line(
        &mut self,
        alloc: Global,
        before: u32,
        line: &[u8],
        answers: &mut Answers,
    ) -> Result<LineOutcome, AllocError> {
        match read_line(LineKind::Read, line, false, 1, alloc) {
            Ok(line) => read_out(line, alloc, answers),
            Err(error) => refuse(error),
        }
    }
}
