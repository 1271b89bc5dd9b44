//! The pieces of the parts of a receiver's state.

ghost use Rattle.std.specs.Prelude.{◌≡◌, ◌++◌, codes, decimal};
ghost use Rattle.jm_script.specs.Piece.{pieces_text, piece_text};
ghost use Rattle.jm_script.specs.StateText.{flag_text, kind_text, sequencer_text, time_text, program_text, select_text, param_text, pair_text, single_text, part_text};

use crate::answer::StatePart;
use crate::piece::{END, NOTHING, Piece, Pieces, SPACE, one_number, three_numbers, two_numbers};
use jm_cmds::{Channel, D7};
use jm_state::{Halves, ProgramPart, Selection, SequencerPart, TimePart};

/// 1 where it is so, else 0.
fn flag(b: bool) -> &'static [u8]
    ensures { result.now ≡ flag_text b }
{
    if b { b"1" } else { b"0" }
}

/// Which kind of parameter it is, behind a space.
fn kind(nrpn: bool) -> &'static [u8]
    ensures { result.now ≡ kind_text nrpn }
{
    if nrpn { b" nrpn" } else { b" rpn" }
}

/// Which kind of parameter it is, between spaces.
fn spaced_kind(nrpn: bool) -> &'static [u8]
    ensures { result.now ≡ kind_text nrpn ++ codes " " }
{
    if nrpn { b" nrpn " } else { b" rpn " }
}

/// A number of seven bits.
fn seven(value: D7) -> Piece<'static>
    ensures { piece_text result ≡ decimal value }
{
    Piece::Number(u64::from(value.get()))
}

/// A channel's number.
fn channel_number(channel: Channel) -> Piece<'static>
    ensures { piece_text result ≡ decimal channel }
{
    Piece::Number(u64::from(channel.get()))
}

/// The sequencer.
#[tactic(auto, unfolding(crate::specs::StateText::sequencer_text))]
fn sequencer_pieces(part: &SequencerPart) -> Pieces<'static>
    ensures { pieces_text result ≡ sequencer_text part.now }
{
    [
        Piece::Text(b"sequencer "),
        Piece::Text(flag(part.running)),
        SPACE,
        Piece::Text(flag(part.downbeat)),
        SPACE,
        Piece::Number(u64::from(part.position)),
        END,
        NOTHING,
        NOTHING,
    ]
}

/// The time code.
#[tactic(auto, unfolding(crate::specs::StateText::time_text))]
fn time_pieces(part: &TimePart) -> Pieces<'static>
    ensures { pieces_text result ≡ time_text part.now }
{
    [
        Piece::Text(b"time "),
        Piece::Frames(part.complete),
        SPACE,
        Piece::Frames(part.partial),
        SPACE,
        Piece::Text(flag(part.backward)),
        SPACE,
        Piece::Number(u64::from(part.point)),
        END,
    ]
}

/// A program, with its bank where it has one.
#[tactic(auto, unfolding(crate::specs::StateText::program_text))]
fn program_pieces(channel: Channel, part: &ProgramPart) -> Pieces<'static>
    ensures { pieces_text result ≡ program_text channel part.now.program part.now.bank }
{
    match part.bank {
        None => [
            Piece::Text(b"program "),
            channel_number(channel),
            SPACE,
            seven(part.program),
            END,
            NOTHING,
            NOTHING,
            NOTHING,
            NOTHING,
        ],
        Some((high, low)) => [
            Piece::Text(b"program "),
            channel_number(channel),
            SPACE,
            seven(part.program),
            SPACE,
            seven(high),
            SPACE,
            seven(low),
            END,
        ],
    }
}

/// The selection of a parameter.
#[tactic(auto, unfolding(crate::specs::StateText::select_text))]
fn select_pieces(channel: Channel, part: &Selection) -> Pieces<'static>
    ensures { pieces_text result ≡ select_text channel part.now }
{
    [
        Piece::Text(b"select "),
        channel_number(channel),
        Piece::Text(kind(part.nrpn)),
        Piece::Seven(part.rpn_high),
        Piece::Seven(part.rpn_low),
        Piece::Seven(part.nrpn_high),
        Piece::Seven(part.nrpn_low),
        END,
        NOTHING,
    ]
}

/// What was entered for one parameter.
#[tactic(auto, unfolding(crate::specs::StateText::param_text))]
fn param_pieces(channel: Channel, nrpn: bool, high: D7, low: D7, halves: &Halves) -> Pieces<'static>
    ensures { pieces_text result ≡ param_text channel nrpn high low halves.now }
{
    [
        Piece::Text(b"param "),
        channel_number(channel),
        Piece::Text(spaced_kind(nrpn)),
        seven(high),
        SPACE,
        seven(low),
        Piece::Seven(halves.entry_high),
        Piece::Seven(halves.entry_low),
        END,
    ]
}

/// A word, a channel and two numbers.
fn pair_pieces(word: &'static [u8], channel: Channel, first: D7, second: D7) -> Pieces<'static>
    ensures { pieces_text result ≡ pair_text word.now channel first second }
{
    three_numbers(
        word,
        u64::from(channel.get()),
        u64::from(first.get()),
        u64::from(second.get()),
    )
}

/// A word, a channel and a number.
fn single_pieces(word: &'static [u8], channel: Channel, value: u8) -> Pieces<'static>
    ensures { pieces_text result ≡ single_text word.now channel value }
{
    two_numbers(word, u64::from(channel.get()), u64::from(value))
}

/// One part of a receiver's state.
#[tactic(auto, unfolding(crate::specs::StateText::part_text))]
pub(crate) fn part_pieces(part: &StatePart) -> Pieces<'static>
    ensures { pieces_text result ≡ part_text part.now }
{
    match part {
        StatePart::Song(song) => one_number(b"song ", u64::from(song.get())),
        StatePart::Sequencer(part) => sequencer_pieces(part),
        StatePart::Time(part) => time_pieces(part),
        StatePart::Sysex(count) => one_number(b"sysex ", u64::from(*count)),
        StatePart::Program { channel, part } => program_pieces(*channel, part),
        StatePart::Control {
            channel,
            number,
            value,
        } => pair_pieces(b"control ", *channel, *number, *value),
        StatePart::Pedal { channel, count } => single_pieces(b"pedal ", *channel, *count),
        StatePart::Select { channel, part } => select_pieces(*channel, part),
        StatePart::Param {
            channel,
            nrpn,
            high,
            low,
            halves,
        } => param_pieces(*channel, *nrpn, *high, *low, halves),
        StatePart::Wheel {
            channel,
            first,
            second,
        } => pair_pieces(b"wheel ", *channel, *first, *second),
        StatePart::Note {
            channel,
            note,
            velocity,
        } => pair_pieces(b"note ", *channel, *note, *velocity),
        StatePart::Pressure { channel, value } => {
            single_pieces(b"pressure ", *channel, value.get())
        }
        StatePart::Poly {
            channel,
            note,
            value,
        } => pair_pieces(b"poly ", *channel, *note, *value),
    }
}
