//! The pieces of a session message in hexadecimal digits.

ghost use Rattle.std.specs.Prelude.{◌≡◌, ◌++◌, ◌∷◌, [], codes, length, ◌≤◌, slice_index};
ghost use Rattle.jm_wire.specs.Numbers.{be32, be64};
ghost use Rattle.apple_msg.specs.declared.message.Message.TheVariants.{Invite, Accept, Reject, Bye, Clock, Feedback, RateLimit};
ghost use Rattle.hex.specs.Hex.{encode_lower};
ghost use Rattle.jm_wire.specs.Octets.{Appends};
ghost use Rattle.apple_msg.specs.Spelling.{text};
ghost use Rattle.jm_script.specs.Piece.{pieces_text};

use crate::piece::{NOTHING, Piece, Pieces, words};
use crate::writing::write_pieces;
use apple_msg::{Message, Name};
use jm_wire::Octets;

/// An invitation or an answer to one: its first eight octets are given, FF FF, the letters and the version.
fn invitation_pieces<'a>(
    front: &'static [u8; 16],
    token: u32,
    ssrc: u32,
    name: &'a Name,
) -> Pieces<'a>
    ensures { pieces_text result ≡ front.now ++ encode_lower (be32 token) ++ encode_lower (be32 ssrc) ++ encode_lower name.now ++ codes "00" }
{
    [
        Piece::Text(front),
        Piece::Word(token),
        Piece::Word(ssrc),
        Piece::Hex(name.as_slice()),
        Piece::Text(b"00"),
        NOTHING,
        NOTHING,
        NOTHING,
        NOTHING,
    ]
}

/// An invitation.
fn invite_pieces(token: u32, ssrc: u32, name: &Name) -> Pieces<'_>
    ensures { pieces_text result ≡ encode_lower (text (Invite token ssrc name.now)) }
{
    invitation_pieces(b"ffff494e00000002", token, ssrc, name)
}

/// The answer to an invitation that is taken.
fn accept_pieces(token: u32, ssrc: u32, name: &Name) -> Pieces<'_>
    ensures { pieces_text result ≡ encode_lower (text (Accept token ssrc name.now)) }
{
    invitation_pieces(b"ffff4f4b00000002", token, ssrc, name)
}

/// The answer to one that is refused.
fn reject_pieces(token: u32, ssrc: u32, name: &Name) -> Pieces<'_>
    ensures { pieces_text result ≡ encode_lower (text (Reject token ssrc name.now)) }
{
    invitation_pieces(b"ffff4e4f00000002", token, ssrc, name)
}

/// A clock message.
#[tactic(auto, unfolding(hex::specs::Hex::encode_with))]
fn clock_pieces(ssrc: u32, count: u8, times: &[u64; 3]) -> Pieces<'_>
    ensures { pieces_text result ≡ encode_lower (text (Clock ssrc count times.now)) }
{
    [
        Piece::Text(b"ffff434b"),
        Piece::Word(ssrc),
        Piece::Octet(count),
        Piece::Text(b"000000"),
        Piece::Long(times[0]),
        Piece::Long(times[1]),
        Piece::Long(times[2]),
        NOTHING,
        NOTHING,
    ]
}

/// A bye.
#[tactic(auto, unfolding(hex::specs::Hex::encode_with))]
fn bye_pieces(token: u32, ssrc: u32) -> Pieces<'static>
    ensures { pieces_text result ≡ encode_lower (text (Bye token ssrc)) }
{
    [
        Piece::Text(b"ffff425900000002"),
        Piece::Word(token),
        Piece::Word(ssrc),
        NOTHING,
        NOTHING,
        NOTHING,
        NOTHING,
        NOTHING,
        NOTHING,
    ]
}

/// A limit on the rate.
#[tactic(auto, unfolding(hex::specs::Hex::encode_with))]
fn limit_pieces() -> Pieces<'static>
    ensures { pieces_text result ≡ encode_lower (text RateLimit) }
{
    words(b"ffff524c")
}

/// How many hexadecimal digits the octets of a message have.
#[tactic(auto, using(crate::proofs::HexLemmas::hex_length))]
pub(crate) fn message_len(message: &Message) -> usize
    ensures len { result ≡ length (encode_lower (text message.now)) }
    ensures few { result ≤ 160 }
{
    2 * message.written_len()
}

/// Appends the octets of a message in hexadecimal digits.
pub(crate) fn write_message(message: &Message, out: &mut Octets)
    requires { length (encode_lower (text message.now)) ≤ out.old.spare }
    ensures { Appends out.old out.new (encode_lower (text message.now)) }
{
    match message {
        Message::Invite { token, ssrc, name } => {
            write_pieces(&invite_pieces(*token, *ssrc, name), out)
        }
        Message::Accept { token, ssrc, name } => {
            write_pieces(&accept_pieces(*token, *ssrc, name), out)
        }
        Message::Reject { token, ssrc, name } => {
            write_pieces(&reject_pieces(*token, *ssrc, name), out)
        }
        Message::Bye { token, ssrc } => write_pieces(&bye_pieces(*token, *ssrc), out),
        Message::Clock { ssrc, count, times } => {
            write_pieces(&clock_pieces(*ssrc, *count, times), out)
        }
        Message::Feedback { ssrc, seq } => write_pieces(&report_pieces(*ssrc, *seq), out),
        Message::RateLimit => write_pieces(&limit_pieces(), out),
    }
}

/// What the host of this SSRC reports, as it is written, in hexadecimal digits: the low 16 bits of a packet's number.
#[tactic(auto, unfolding(hex::specs::Hex::encode_with))]
pub(crate) fn report_pieces(ssrc: u32, seq: u16) -> Pieces<'static>
    ensures { pieces_text result ≡ encode_lower (text (Feedback ssrc seq)) }
{
    [
        Piece::Text(b"ffff5253"),
        Piece::Word(ssrc),
        Piece::Short(seq),
        Piece::Text(b"0000"),
        NOTHING,
        NOTHING,
        NOTHING,
        NOTHING,
        NOTHING,
    ]
}
