//! Writing the pieces of a line.

ghost use Rattle.std.specs.Prelude.{◌≡◌, ◌≤◌, ◌+◌, ◌/◌, ◌%◌, ◌++◌, ◌∷◌, [], length, codes, decimal, slice_index};
ghost use Rattle.std.specs.Fmt.{signed_decimal};
ghost use Rattle.hex.specs.Hex.{encode_lower, lower_digits};
ghost use Rattle.jm_wire.specs.Octets.{Appends};
ghost use Rattle.jm_cmds.specs.Command.{spelling};
ghost use Rattle.jm_script.specs.Piece.{seven_text, frames_text, piece_text, pieces_text};

use crate::piece::Piece;
use itoa::Buffer;
use jm_cmds::{Command, D7, Spelled};
use jm_wire::Octets;

/// The hexadecimal digits, by their values.
const DIGITS: [u8; 16] = *b"0123456789abcdef";

/// A hexadecimal digit.
fn digit(value: u8) -> u8
    requires { value ≤ 15 }
    ensures { result ≡ slice_index lower_digits value }
{
    DIGITS[usize::from(value)]
}

/// Appends one octet in hexadecimal digits.
#[tactic(auto, unfolding(hex::specs::Hex::encode_with))]
fn write_octet(octet: u8, out: &mut Octets)
    requires { 2 ≤ out.old.spare }
    ensures { Appends out.old out.new (encode_lower (octet ∷ [])) }
{
    out.push(digit(octet / 16));
    out.push(digit(octet % 16));
}

/// Appends octets in hexadecimal digits.
#[tactic(auto, unfolding(hex::specs::Hex::encode_with))]
fn write_hex(octets: &[u8], out: &mut Octets)
    requires { length (encode_lower octets.now) ≤ out.old.spare }
    ensures { Appends out.old out.new (encode_lower octets.now) }
{
    for octet in octets {
        write_octet(*octet, out);
    }
}

/// Appends a number in decimal digits.
fn write_number(n: u64, out: &mut Octets)
    requires { length (decimal n) ≤ out.old.spare }
    ensures { Appends out.old out.new (decimal n) }
{
    let mut buffer = Buffer::new();
    out.push_slice(buffer.format(n).as_bytes());
}

/// Appends a number in decimal digits, with `-` where it is negative.
fn write_signed(n: i128, out: &mut Octets)
    requires { length (signed_decimal n) ≤ out.old.spare }
    ensures { Appends out.old out.new (signed_decimal n) }
{
    let mut buffer = Buffer::new();
    out.push_slice(buffer.format(n).as_bytes());
}

/// Appends the octets of a command in hexadecimal digits.
fn write_spelled(command: &Command, out: &mut Octets)
    requires { length (encode_lower (spelling command.now)) ≤ out.old.spare }
    ensures { Appends out.old out.new (encode_lower (spelling command.now)) }
{
    match command.spelled() {
        Spelled::One(status) => write_hex(&[status], out),
        Spelled::Two(status, first) => write_hex(&[status, first], out),
        Spelled::Three(status, first, second) => write_hex(&[status, first, second], out),
        Spelled::Message(octets) => {
            write_octet(0xf0, out);
            write_hex(octets, out);
            write_octet(0xf7, out);
        }
    }
}

/// Appends a space and a number, or `-` where there is none.
#[tactic(auto, unfolding(crate::specs::Piece::seven_text))]
fn write_seven(value: Option<D7>, out: &mut Octets)
    requires { length (seven_text value) ≤ out.old.spare }
    ensures { Appends out.old out.new (seven_text value) }
{
    match value {
        None => out.push_slice(b" -"),
        Some(value) => {
            out.push(b' ');
            write_number(u64::from(value.get()), out);
        }
    }
}

/// Appends a word of time code, or `-` where there is none.
#[tactic(auto, unfolding(crate::specs::Piece::frames_text))]
fn write_frames(word: Option<u32>, out: &mut Octets)
    requires { length (frames_text word) ≤ out.old.spare }
    ensures { Appends out.old out.new (frames_text word) }
{
    match word {
        None => out.push_slice(b"-"),
        Some(word) => write_hex(&word.to_be_bytes(), out),
    }
}

/// Appends one piece.
fn write_piece(piece: &Piece<'_>, out: &mut Octets)
    requires { length (piece_text piece.now) ≤ out.old.spare }
    ensures { Appends out.old out.new (piece_text piece.now) }
{
    match piece {
        Piece::Text(text) => out.push_slice(text),
        Piece::Number(n) => write_number(*n, out),
        Piece::Signed(n) => write_signed(*n, out),
        Piece::Octet(n) => write_hex(&[*n], out),
        Piece::Short(n) => write_hex(&n.to_be_bytes(), out),
        Piece::Word(n) => write_hex(&n.to_be_bytes(), out),
        Piece::Long(n) => write_hex(&n.to_be_bytes(), out),
        Piece::Hex(octets) => write_hex(octets, out),
        Piece::Spelled(command) => write_spelled(command, out),
        Piece::Seven(value) => write_seven(*value, out),
        Piece::Frames(word) => write_frames(*word, out),
    }
}

/// Appends pieces, one behind the other.
pub(crate) fn write_pieces(pieces: &[Piece<'_>], out: &mut Octets)
    requires { length (pieces_text pieces.now) ≤ out.old.spare }
    ensures { Appends out.old out.new (pieces_text pieces.now) }
{
    for piece in pieces {
        write_piece(piece, out);
    }
}
