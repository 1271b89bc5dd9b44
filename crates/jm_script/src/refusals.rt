//! The pieces of refusals, and of what a message came to.

ghost use Rattle.std.specs.Prelude.{◌≡◌, ◌++◌, codes, decimal};
ghost use Rattle.std.specs.Fmt.{signed_decimal};
ghost use Rattle.hex.specs.Hex.{encode_lower};
ghost use Rattle.jm_wire.specs.Numbers.{be32};
ghost use Rattle.jm_script.specs.Piece.{pieces_text};
ghost use Rattle.jm_script.specs.RefusalText.{old_text, not_sent_text, refusal_text, why_text, act_text};

use crate::answer::Refusal;
use crate::piece::{
    END, NOTHING, Piece, Pieces, SPACE, one_number, three_numbers, two_numbers, words,
};
use apple_session::Why;
use jm_book::Acted;

/// The number was past the last packet that was sent, if there is one.
#[tactic(auto, unfolding(crate::specs::RefusalText::not_sent_text))]
fn not_sent_pieces(last: Option<u64>) -> Pieces<'static>
    ensures { pieces_text result ≡ not_sent_text last }
{
    match last {
        None => words(b"refused not-sent none\n"),
        Some(last) => one_number(b"refused not-sent ", last),
    }
}

/// A participant that is too far behind.
fn behind_pieces(ssrc: u32, mark: u64) -> Pieces<'static>
    ensures { pieces_text result ≡ codes "refused behind " ++ encode_lower (be32 ssrc) ++ codes " " ++ decimal mark ++ codes "\n" }
{
    [
        Piece::Text(b"refused behind "),
        Piece::Word(ssrc),
        SPACE,
        Piece::Number(mark),
        END,
        NOTHING,
        NOTHING,
        NOTHING,
        NOTHING,
    ]
}

/// Why a session refused a line.
#[tactic(auto, unfolding(crate::specs::RefusalText::refusal_text))]
pub(crate) fn refusal_pieces(refusal: &Refusal) -> Pieces<'static>
    ensures { pieces_text result ≡ refusal_text refusal.now }
{
    match *refusal {
        Refusal::UnknownPlayer => words(b"refused unknown-player\n"),
        Refusal::RecordFull { events } => { one_number(b"refused record-full ", u64::from(events)) }
        Refusal::PlayersFull { most } => one_number(b"refused players-full ", u64::from(most)),
        Refusal::ParamsFull { channel, kept } => {
            two_numbers(
                b"refused params-full ",
                u64::from(channel.get()),
                kept as u64,
            )
        }
        Refusal::PolyFull { channel, kept } => {
            two_numbers(b"refused poly-full ", u64::from(channel.get()), kept as u64)
        }
        Refusal::SysexFull { logs, octets } => {
            two_numbers(b"refused sysex-full ", logs as u64, octets as u64)
        }
        Refusal::NeedsCut {
            pending,
            octets,
            delta,
        } => three_numbers(b"refused needs-cut ", pending as u64, octets as u64, delta),
        Refusal::Behind { ssrc, mark } => behind_pieces(ssrc, mark),
        Refusal::UnknownSsrc => words(b"refused unknown-ssrc\n"),
        Refusal::Old { mark } => one_number(b"refused old ", mark),
        Refusal::NotSent { last } => not_sent_pieces(last),
        Refusal::Already => words(b"refused already\n"),
        Refusal::SessionFull { most } => one_number(b"refused session-full ", u64::from(most)),
    }
}

/// Why a message was ignored.
#[tactic(auto, unfolding(crate::specs::RefusalText::why_text))]
fn why_pieces(why: Why) -> Pieces<'static>
    ensures { pieces_text result ≡ why_text why }
{
    match why {
        Why::Unknown => words(b"ignored unknown\n"),
        Why::NotJoined => words(b"ignored not-joined\n"),
        Why::WrongPort => words(b"ignored wrong-port\n"),
        Why::NotUsed => words(b"ignored not-used\n"),
    }
}

/// What a clock exchange showed.
fn offset_pieces(offset: i128) -> Pieces<'static>
    ensures { pieces_text result ≡ codes "clock " ++ signed_decimal offset ++ codes "\n" }
{
    [
        Piece::Text(b"clock "),
        Piece::Signed(offset),
        END,
        NOTHING,
        NOTHING,
        NOTHING,
        NOTHING,
        NOTHING,
        NOTHING,
    ]
}

/// What a message came to.
#[tactic(auto, unfolding(crate::specs::RefusalText::act_text))]
pub(crate) fn act_pieces(act: &Acted) -> Pieces<'static>
    ensures { pieces_text result ≡ act_text act.now }
{
    match *act {
        Acted::Plain => words(b"none\n"),
        Acted::Joined { mark, player } => two_numbers(b"joined ", mark, u64::from(player)),
        Acted::Left => words(b"left\n"),
        Acted::Moved { mark } => one_number(b"mark ", mark),
        Acted::Clocked { offset } => offset_pieces(offset),
        Acted::Ignored(why) => why_pieces(why),
        Acted::Old { mark } => one_number(b"refused old ", mark),
        Acted::NotSent { last } => not_sent_pieces(last),
    }
}
