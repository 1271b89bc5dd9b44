//! The entries of sections, and what is to be reported to whom.

ghost use Rattle.std.specs.Prelude.{◌≡◌, ◌≤◌, ◌++◌, ◌∷◌, [], length, codes, decimal};
ghost use Rattle.hex.specs.Hex.{encode_lower};
ghost use Rattle.jm_cmds.specs.Command.{spelling};
ghost use Rattle.jm_wire.specs.Numbers.{be32};
ghost use Rattle.jm_wire.specs.Octets.{Appends};
ghost use Rattle.jm_section.specs.declared.item.What.TheVariants.{Passed};
ghost use Rattle.jm_script.specs.Piece.{pieces_text, counted};
ghost use Rattle.jm_script.specs.ListText.{part_word, what_text, item_text, items_text, entry_text, reports_text};

use crate::measuring::pieces_len;
use crate::messages::report_pieces;
use crate::piece::{NOTHING, Piece, Pieces, SPACE};
use crate::writing::write_pieces;
use jm_book::FeedbackEntry;
use jm_cmds::Command;
use jm_section::{Item, PartKind, What};
use jm_wire::Octets;

/// What stands between a delta time or a host and what it is of.
const COLON: Piece<'static> = Piece::Text(b":");

/// The word for a segment of a System Exclusive command.
fn part_word(kind: PartKind) -> &'static [u8]
    ensures { result.now ≡ part_word kind }
{
    match kind {
        PartKind::First => b"part-first-",
        PartKind::Middle => b"part-middle-",
        PartKind::Last => b"part-last-",
        PartKind::Cancel => b"part-cancel-",
    }
}

/// A whole command, with its delta time.
fn whole_pieces(delta: u32, command: &Command) -> Pieces<'_>
    ensures { pieces_text result ≡ codes " " ++ decimal delta ++ codes ":" ++ encode_lower (spelling command.now) }
{
    [
        SPACE,
        Piece::Number(u64::from(delta)),
        COLON,
        Piece::Spelled(command),
        NOTHING,
        NOTHING,
        NOTHING,
        NOTHING,
        NOTHING,
    ]
}

/// A segment of a System Exclusive command, with its delta time.
fn segment_pieces(delta: u32, kind: PartKind, octets: usize) -> Pieces<'static>
    ensures { pieces_text result ≡ codes " " ++ decimal delta ++ codes ":" ++ part_word kind ++ decimal octets }
{
    [
        SPACE,
        Piece::Number(u64::from(delta)),
        COLON,
        Piece::Text(part_word(kind)),
        Piece::Number(octets as u64),
        NOTHING,
        NOTHING,
        NOTHING,
        NOTHING,
    ]
}

/// What is passed over, with its delta time.
#[tactic(auto, unfolding(crate::specs::ListText::what_text))]
fn passed_pieces(delta: u32, octet: u8) -> Pieces<'static>
    ensures { pieces_text result ≡ codes " " ++ decimal delta ++ codes ":" ++ what_text (Passed octet) }
{
    [
        SPACE,
        Piece::Number(u64::from(delta)),
        COLON,
        Piece::Text(b"passed-"),
        Piece::Octet(octet),
        NOTHING,
        NOTHING,
        NOTHING,
        NOTHING,
    ]
}

/// How many octets an entry of a section has, as far as 64 bits count them.
#[tactic(auto, unfolding(crate::specs::ListText::item_text, crate::specs::ListText::what_text))]
fn item_len(item: &Item) -> usize
    ensures { result ≡ counted (length (item_text item.now)) }
{
    match &item.what {
        What::Whole(command) => pieces_len(&whole_pieces(item.delta, command)),
        What::Part { kind, octets } => {
            pieces_len(&segment_pieces(item.delta, *kind, octets.len()))
        }
        What::Passed(octet) => pieces_len(&passed_pieces(item.delta, *octet)),
    }
}

/// Appends an entry of a section.
#[tactic(auto, unfolding(crate::specs::ListText::item_text, crate::specs::ListText::what_text))]
fn write_item(item: &Item, out: &mut Octets)
    requires { length (item_text item.now) ≤ out.old.spare }
    ensures { Appends out.old out.new (item_text item.now) }
{
    match &item.what {
        What::Whole(command) => write_pieces(&whole_pieces(item.delta, command), out),
        What::Part { kind, octets } => {
            write_pieces(&segment_pieces(item.delta, *kind, octets.len()), out)
        }
        What::Passed(octet) => write_pieces(&passed_pieces(item.delta, *octet), out),
    }
}

/// How many octets the entries of a section have, as far as 64 bits count them.
pub(crate) fn items_len(items: &[Item]) -> usize
    ensures { result ≡ counted (length (items_text items.now)) }
{
    let mut total = 0usize;
    for item in items {
        total = total.saturating_add(item_len(item));
    }
    total
}

/// Appends the entries of a section, in order.
pub(crate) fn write_items(items: &[Item], out: &mut Octets)
    requires { length (items_text items.now) ≤ out.old.spare }
    ensures { Appends out.old out.new (items_text items.now) }
{
    for item in items {
        write_item(item, out);
    }
}

/// The address that a report goes to.
fn address_pieces(entry: &FeedbackEntry) -> Pieces<'static>
    ensures { pieces_text result ≡ codes " " ++ encode_lower (be32 entry.now.to.host) ++ codes ":" ++ decimal entry.now.to.port ++ codes "=" }
{
    [
        SPACE,
        Piece::Word(entry.to.host),
        COLON,
        Piece::Number(u64::from(entry.to.port)),
        Piece::Text(b"="),
        NOTHING,
        NOTHING,
        NOTHING,
        NOTHING,
    ]
}

/// How many octets a report has, as far as 64 bits count them.
#[tactic(auto, unfolding(crate::specs::ListText::entry_text))]
fn entry_len(ssrc: u32, entry: &FeedbackEntry) -> usize
    ensures { result ≡ counted (length (entry_text ssrc entry.now)) }
{
    let address = pieces_len(&address_pieces(entry));
    address.saturating_add(pieces_len(&report_pieces(ssrc, entry.seq)))
}

/// Appends a report.
#[tactic(auto, unfolding(crate::specs::ListText::entry_text))]
fn write_entry(ssrc: u32, entry: &FeedbackEntry, out: &mut Octets)
    requires { length (entry_text ssrc entry.now) ≤ out.old.spare }
    ensures { Appends out.old out.new (entry_text ssrc entry.now) }
{
    write_pieces(&address_pieces(entry), out);
    write_pieces(&report_pieces(ssrc, entry.seq), out);
}

/// How many octets reports have, as far as 64 bits count them.
pub(crate) fn entries_len(ssrc: u32, entries: &[FeedbackEntry]) -> usize
    ensures { result ≡ counted (length (reports_text ssrc entries.now)) }
{
    let mut total = 0usize;
    for entry in entries {
        total = total.saturating_add(entry_len(ssrc, entry));
    }
    total
}

/// Appends reports, in order.
pub(crate) fn write_entries(ssrc: u32, entries: &[FeedbackEntry], out: &mut Octets)
    requires { length (reports_text ssrc entries.now) ≤ out.old.spare }
    ensures { Appends out.old out.new (reports_text ssrc entries.now) }
{
    for entry in entries {
        write_entry(ssrc, entry, out);
    }
}
