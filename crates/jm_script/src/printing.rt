//! An answer to its line.

ghost use Rattle.std.specs.Prelude.{◌≡◌, ◌≤◌, ◌++◌, length, codes, decimal};
ghost use Rattle.hex.specs.Hex.{encode_lower};
ghost use Rattle.jm_wire.specs.Numbers.{be32};
ghost use Rattle.jm_wire.specs.Octets.{Appends};
ghost use Rattle.jm_cmds.specs.Command.{spelling};
ghost use Rattle.jm_script.specs.Piece.{pieces_text, counted};
ghost use Rattle.apple_msg.specs.Spelling.{text};
ghost use Rattle.jm_script.specs.ListText.{items_text, reports_text};
ghost use Rattle.jm_script.specs.RefusalText.{act_text};
ghost use Rattle.jm_script.specs.AnswerText.{cause_word, heard_word, kept_text, reply_text, journal_text, section_text, feedback_text, message_text, packet_text, answer_text};

use crate::answer::{AnswerLine, Cause};
use crate::faults::{fault_pieces, not_taken_pieces};
use crate::lists::{entries_len, items_len, write_entries, write_items};
use crate::measuring::pieces_len;
use crate::messages::{message_len, write_message};
use crate::name::PlayerName;
use crate::piece::{
    END, NOTHING, Piece, Pieces, SPACE, one_number, three_numbers, two_numbers, words,
};
use crate::refusals::{act_pieces, refusal_pieces};
use crate::state::part_pieces;
use crate::writing::write_pieces;
use apple_msg::Message;
use jm_book::{Acted, FeedbackEntry};
use jm_cmds::Command;
use jm_receiver::HeardKind;
use jm_section::Item;
use jm_wire::Octets;

/// A player that entered by name.
fn player_as_pieces(player: u8, name: &PlayerName) -> Pieces<'_>
    ensures { pieces_text result ≡ codes "player " ++ decimal player ++ codes " " ++ name.now ++ codes "\n" }
{
    [
        Piece::Text(b"player "),
        Piece::Number(u64::from(player)),
        SPACE,
        Piece::Text(name.as_slice()),
        END,
        NOTHING,
        NOTHING,
        NOTHING,
        NOTHING,
    ]
}

/// A name that is taken.
fn name_taken_pieces(name: &PlayerName) -> Pieces<'_>
    ensures { pieces_text result ≡ codes "refused name-taken " ++ name.now ++ codes "\n" }
{
    [
        Piece::Text(b"refused name-taken "),
        Piece::Text(name.as_slice()),
        END,
        NOTHING,
        NOTHING,
        NOTHING,
        NOTHING,
        NOTHING,
        NOTHING,
    ]
}

/// Whether a command will be repaired.
fn kept_word(kept: bool) -> &'static [u8]
    ensures { result.now ≡ kept_text kept }
{
    if kept { b" kept\n" } else { b" unkept\n" }
}

/// A command that was accepted.
fn accepted_pieces(serial: u64, kept: bool) -> Pieces<'static>
    ensures { pieces_text result ≡ codes "accepted " ++ decimal serial ++ kept_text kept }
{
    [
        Piece::Text(b"accepted "),
        Piece::Number(serial),
        Piece::Text(kept_word(kept)),
        NOTHING,
        NOTHING,
        NOTHING,
        NOTHING,
        NOTHING,
        NOTHING,
    ]
}

/// A packet that was cut.
fn packet_pieces(number: u64, octets: &[u8]) -> Pieces<'_>
    ensures { pieces_text result ≡ codes "packet " ++ decimal number ++ codes " " ++ encode_lower octets.now ++ codes "\n" }
{
    [
        Piece::Text(b"packet "),
        Piece::Number(number),
        SPACE,
        Piece::Hex(octets),
        END,
        NOTHING,
        NOTHING,
        NOTHING,
        NOTHING,
    ]
}

/// A command that was read.
fn command_pieces(used: usize, command: &Command) -> Pieces<'_>
    ensures { pieces_text result ≡ codes "command " ++ decimal used ++ codes " " ++ encode_lower (spelling command.now) ++ codes "\n" }
{
    [
        Piece::Text(b"command "),
        Piece::Number(used as u64),
        SPACE,
        Piece::Spelled(command),
        END,
        NOTHING,
        NOTHING,
        NOTHING,
        NOTHING,
    ]
}

/// The header of a packet that was read, and the number of entries of its section.
fn packet_read_pieces(number: u16, tick: u32, ssrc: u32, items: usize) -> Pieces<'static>
    ensures { pieces_text result ≡ codes "packet " ++ decimal number ++ codes " " ++ decimal tick ++ codes " " ++ encode_lower (be32 ssrc) ++ codes " " ++ decimal items }
{
    [
        NOTHING,
        Piece::Text(b"packet "),
        Piece::Number(u64::from(number)),
        SPACE,
        Piece::Number(u64::from(tick)),
        SPACE,
        Piece::Word(ssrc),
        SPACE,
        Piece::Number(items as u64),
    ]
}

/// How many entries a section has.
fn section_pieces(count: usize) -> Pieces<'static>
    ensures { pieces_text result ≡ codes "section " ++ decimal count }
{
    [
        Piece::Text(b"section "),
        Piece::Number(count as u64),
        NOTHING,
        NOTHING,
        NOTHING,
        NOTHING,
        NOTHING,
        NOTHING,
        NOTHING,
    ]
}

/// What a packet's journal says.
#[tactic(auto, unfolding(crate::specs::AnswerText::journal_text))]
fn journal_pieces(journal: &Option<(u16, usize)>) -> Pieces<'static>
    ensures { pieces_text result ≡ journal_text journal.now }
{
    match *journal {
        None => words(b" no-journal\n"),
        Some((checkpoint, logs)) => {
            two_numbers(b" journal ", u64::from(checkpoint), logs as u64)
        }
    }
}

/// Where a command that was heard comes from.
fn heard_word(kind: HeardKind) -> &'static [u8]
    ensures { result.now ≡ heard_word kind }
{
    match kind {
        HeardKind::Sent => b"heard sent ",
        HeardKind::Repaired => b"heard repaired ",
        HeardKind::Late => b"heard late ",
    }
}

/// A command that was heard.
fn heard_pieces(kind: HeardKind, tick: u32, command: &Command) -> Pieces<'_>
    ensures { pieces_text result ≡ heard_word kind ++ decimal tick ++ codes " " ++ encode_lower (spelling command.now) ++ codes "\n" }
{
    [
        Piece::Text(heard_word(kind)),
        Piece::Number(u64::from(tick)),
        SPACE,
        Piece::Spelled(command),
        END,
        NOTHING,
        NOTHING,
        NOTHING,
        NOTHING,
    ]
}

/// A cause as it is printed.
fn cause_word(cause: Cause) -> &'static [u8]
    ensures { result.now ≡ cause_word cause }
{
    match cause {
        Cause::Lines => b"lines",
        Cause::TooLong => b"too-long",
        Cause::Word => b"word",
        Cause::Form => b"form",
        Cause::Command => b"command",
    }
}

/// The first bad line.
fn bad_script_pieces(line: u32, cause: Cause) -> Pieces<'static>
    ensures { pieces_text result ≡ codes "bad-script " ++ decimal line ++ codes " " ++ cause_word cause ++ codes "\n" }
{
    [
        Piece::Text(b"bad-script "),
        Piece::Number(u64::from(line)),
        SPACE,
        Piece::Text(cause_word(cause)),
        END,
        NOTHING,
        NOTHING,
        NOTHING,
        NOTHING,
    ]
}

/// How many octets the reply to a message has, as far as 64 bits count them.
#[tactic(auto, unfolding(crate::specs::AnswerText::reply_text))]
fn reply_len(reply: &Option<Message>) -> usize
    ensures { result ≡ counted (length (reply_text reply.now)) }
{
    match reply {
        None => pieces_len(&words(b"no-reply ")),
        Some(message) => 7 + message_len(message),
    }
}

/// Appends the reply to a message, and a space.
#[tactic(auto, unfolding(crate::specs::AnswerText::reply_text))]
fn write_reply(reply: &Option<Message>, out: &mut Octets)
    requires { length (reply_text reply.now) ≤ out.old.spare }
    ensures { Appends out.old out.new (reply_text reply.now) }
{
    match reply {
        None => write_pieces(&words(b"no-reply "), out),
        Some(message) => {
            out.push_slice(b"reply ");
            write_message(message, out);
            out.push(b' ');
        }
    }
}

/// How many octets the answer to a message has, as far as 64 bits count them.
fn said_len(reply: &Option<Message>, act: &Acted) -> usize
    ensures { result ≡ counted (length (reply_text reply.now ++ act_text act.now)) }
{
    reply_len(reply).saturating_add(pieces_len(&act_pieces(act)))
}

/// Appends the answer to a message.
fn write_said(reply: &Option<Message>, act: &Acted, out: &mut Octets)
    requires { length (reply_text reply.now ++ act_text act.now) ≤ out.old.spare }
    ensures { Appends out.old out.new (reply_text reply.now ++ act_text act.now) }
{
    write_reply(reply, out);
    write_pieces(&act_pieces(act), out);
}

/// How many octets the line of a section has, as far as 64 bits count them.
fn section_len(items: &[Item]) -> usize
    ensures { result ≡ counted (length (section_text items.now)) }
{
    pieces_len(&section_pieces(items.len())).saturating_add(items_len(items).saturating_add(1))
}

/// Appends the line of a section.
fn write_section_read(items: &[Item], out: &mut Octets)
    requires { length (section_text items.now) ≤ out.old.spare }
    ensures { Appends out.old out.new (section_text items.now) }
{
    write_pieces(&section_pieces(items.len()), out);
    write_items(items, out);
    out.push(b'\n');
}

/// How many octets the line of reports has, as far as 64 bits count them.
fn feedback_len(ssrc: u32, entries: &[FeedbackEntry]) -> usize
    ensures { result ≡ counted (length (feedback_text ssrc entries.now)) }
{
    entries_len(ssrc, entries).saturating_add(9)
}

/// Appends the line of reports.
fn write_feedback(ssrc: u32, entries: &[FeedbackEntry], out: &mut Octets)
    requires { length (feedback_text ssrc entries.now) ≤ out.old.spare }
    ensures { Appends out.old out.new (feedback_text ssrc entries.now) }
{
    out.push_slice(b"feedback");
    write_entries(ssrc, entries, out);
    out.push(b'\n');
}

/// How many octets the line of a message has, as far as 64 bits count them.
fn message_line_len(message: &Message) -> usize
    ensures { result ≡ counted (length (message_text message.now)) }
{
    9 + message_len(message)
}

/// Appends the line of a message.
fn write_message_read(message: &Message, out: &mut Octets)
    requires { length (message_text message.now) ≤ out.old.spare }
    ensures { Appends out.old out.new (message_text message.now) }
{
    out.push_slice(b"message ");
    write_message(message, out);
    out.push(b'\n');
}

/// How many octets the line of a packet has, as far as 64 bits count them.
fn packet_len(
    number: u16,
    tick: u32,
    ssrc: u32,
    items: usize,
    journal: &Option<(u16, usize)>,
) -> usize
    ensures { result ≡ counted (length (packet_text number tick ssrc items journal.now)) }
{
    let head = pieces_len(&packet_read_pieces(number, tick, ssrc, items));
    head.saturating_add(pieces_len(&journal_pieces(journal)))
}

/// Appends the line of a packet.
fn write_packet_read(
    number: u16,
    tick: u32,
    ssrc: u32,
    items: usize,
    journal: &Option<(u16, usize)>,
    out: &mut Octets,
)
    requires { length (packet_text number tick ssrc items journal.now) ≤ out.old.spare }
    ensures { Appends out.old out.new (packet_text number tick ssrc items journal.now) }
{
    write_pieces(&packet_read_pieces(number, tick, ssrc, items), out);
    write_pieces(&journal_pieces(journal), out);
}

/// How many octets the line of an answer has, its end too. More octets than 64 bits count are told as 2^64 - 1.
#[tactic(auto, unfolding(crate::specs::AnswerText::answer_text))]
pub fn answer_len(a: &AnswerLine) -> usize
    ensures { result ≡ counted (length (answer_text a.now)) }
{
    match a {
        AnswerLine::Script => pieces_len(&words(b"script 2\n")),
        AnswerLine::Session => pieces_len(&words(b"session\n")),
        AnswerLine::Player { player } => pieces_len(&one_number(b"player ", u64::from(*player))),
        AnswerLine::PlayerAs { player, name } => pieces_len(&player_as_pieces(*player, name)),
        AnswerLine::NameTaken { name } => pieces_len(&name_taken_pieces(name)),
        AnswerLine::Accepted { serial, kept } => pieces_len(&accepted_pieces(*serial, *kept)),
        AnswerLine::Packet { number, octets } => pieces_len(&packet_pieces(
            *number,
            octets.as_slice(),
        )),
        AnswerLine::Mark { mark } => pieces_len(&one_number(b"mark ", *mark)),
        AnswerLine::Joined { mark, player } => pieces_len(&two_numbers(
            b"joined ",
            *mark,
            u64::from(*player),
        )),
        AnswerLine::Left => pieces_len(&words(b"left\n")),
        AnswerLine::Noted => pieces_len(&words(b"noted\n")),
        AnswerLine::Feedback { ssrc, entries } => feedback_len(*ssrc, entries.as_slice()),
        AnswerLine::Said { reply, act } => said_len(reply, act),
        AnswerLine::Refused(refusal) => pieces_len(&refusal_pieces(refusal)),
        AnswerLine::CommandRead { used, command } => pieces_len(&command_pieces(*used, command)),
        AnswerLine::SectionRead { items } => section_len(items.as_slice()),
        AnswerLine::PacketRead {
            number,
            tick,
            ssrc,
            items,
            journal,
        } => packet_len(*number, *tick, *ssrc, *items, journal),
        AnswerLine::MessageRead(message) => message_line_len(message),
        AnswerLine::Fault(fault) => pieces_len(&fault_pieces(fault)),
        AnswerLine::Took { number, gap, count } => pieces_len(&three_numbers(
            b"took ",
            *number,
            *gap,
            *count as u64,
        )),
        AnswerLine::HeardOne {
            kind,
            tick,
            command,
        } => pieces_len(&heard_pieces(*kind, *tick, command)),
        AnswerLine::NotTaken(fault) => pieces_len(&not_taken_pieces(fault)),
        AnswerLine::Part(part) => pieces_len(&part_pieces(part)),
        AnswerLine::End => pieces_len(&words(b"end\n")),
        AnswerLine::BadScript { line, cause } => pieces_len(&bad_script_pieces(*line, *cause)),
    }
}

/// Appends the line of an answer, with its end: exactly [`answer_len`] octets.
#[tactic(auto, unfolding(crate::specs::AnswerText::answer_text))]
pub fn write_answer(a: &AnswerLine, out: &mut Octets)
    requires { length (answer_text a.now) ≤ out.old.spare }
    ensures { Appends out.old out.new (answer_text a.now) }
{
    match a {
        AnswerLine::Script => write_pieces(&words(b"script 2\n"), out),
        AnswerLine::Session => write_pieces(&words(b"session\n"), out),
        AnswerLine::Player { player } => write_pieces(
            &one_number(b"player ", u64::from(*player)),
            out,
        ),
        AnswerLine::PlayerAs { player, name } => write_pieces(
            &player_as_pieces(*player, name),
            out,
        ),
        AnswerLine::NameTaken { name } => write_pieces(&name_taken_pieces(name), out),
        AnswerLine::Accepted { serial, kept } => write_pieces(
            &accepted_pieces(*serial, *kept),
            out,
        ),
        AnswerLine::Packet { number, octets } => write_pieces(
            &packet_pieces(*number, octets.as_slice()),
            out,
        ),
        AnswerLine::Mark { mark } => write_pieces(&one_number(b"mark ", *mark), out),
        AnswerLine::Joined { mark, player } => write_pieces(
            &two_numbers(b"joined ", *mark, u64::from(*player)),
            out,
        ),
        AnswerLine::Left => write_pieces(&words(b"left\n"), out),
        AnswerLine::Noted => write_pieces(&words(b"noted\n"), out),
        AnswerLine::Feedback { ssrc, entries } => write_feedback(*ssrc, entries.as_slice(), out),
        AnswerLine::Said { reply, act } => write_said(reply, act, out),
        AnswerLine::Refused(refusal) => write_pieces(&refusal_pieces(refusal), out),
        AnswerLine::CommandRead { used, command } => write_pieces(
            &command_pieces(*used, command),
            out,
        ),
        AnswerLine::SectionRead { items } => write_section_read(items.as_slice(), out),
        AnswerLine::PacketRead {
            number,
            tick,
            ssrc,
            items,
            journal,
        } => write_packet_read(*number, *tick, *ssrc, *items, journal, out),
        AnswerLine::MessageRead(message) => write_message_read(message, out),
        AnswerLine::Fault(fault) => write_pieces(&fault_pieces(fault), out),
        AnswerLine::Took { number, gap, count } => write_pieces(
            &three_numbers(b"took ", *number, *gap, *count as u64),
            out,
        ),
        AnswerLine::HeardOne {
            kind,
            tick,
            command,
        } => write_pieces(&heard_pieces(*kind, *tick, command), out),
        AnswerLine::NotTaken(fault) => write_pieces(&not_taken_pieces(fault), out),
        AnswerLine::Part(part) => write_pieces(&part_pieces(part), out),
        AnswerLine::End => write_pieces(&words(b"end\n"), out),
        AnswerLine::BadScript { line, cause } => write_pieces(
            &bad_script_pieces(*line, *cause),
            out,
        ),
    }
}
