//! The lengths of the pieces of a line, each as far as 64 bits count it.

ghost use Rattle.std.specs.Prelude.{◌≡◌, ◌≤◌, ◌*◌, length, decimal};
ghost use Rattle.std.specs.Fmt.{signed_decimal};
ghost use Rattle.hex.specs.Hex.{encode_lower};
ghost use Rattle.jm_cmds.specs.Command.{spelling};
ghost use Rattle.jm_script.specs.Piece.{seven_text, frames_text, piece_text, pieces_text, counted};

use crate::piece::Piece;
use itoa::Buffer;
use jm_cmds::{Command, D7};

/// How many decimal digits a number has.
fn number_len(n: u64) -> usize
    ensures len { result ≡ length (decimal n) }
    ensures few { result ≤ 40 }
{
    let mut buffer = Buffer::new();
    buffer.format(n).len()
}

/// How many octets a number has that may be negative.
fn signed_len(n: i128) -> usize
    ensures len { result ≡ length (signed_decimal n) }
    ensures few { result ≤ 40 }
{
    let mut buffer = Buffer::new();
    buffer.format(n).len()
}

/// How many hexadecimal digits octets have.
#[tactic(auto, using(crate::proofs::HexLemmas::hex_length))]
fn hex_len(octets: &[u8]) -> usize
    ensures { result ≡ counted (length (encode_lower octets.now)) }
{
    octets.len().saturating_mul(2)
}

/// How many hexadecimal digits the octets of a command have.
#[tactic(auto, using(crate::proofs::HexLemmas::hex_length))]
fn spelled_len(command: &Command) -> usize
    ensures len { result ≡ length (encode_lower (spelling command.now)) }
    ensures few { result ≤ 131076 }
{
    2 * command.size()
}

/// How many octets a space and a number have, or `-` where there is none.
#[tactic(auto, unfolding(crate::specs::Piece::seven_text))]
fn seven_len(value: Option<D7>) -> usize
    ensures len { result ≡ length (seven_text value) }
    ensures few { result ≤ 41 }
{
    match value {
        None => 2,
        Some(value) => 1 + number_len(u64::from(value.get())),
    }
}

/// How many octets a word of time code has, or `-` where there is none.
#[tactic(auto, using(crate::proofs::HexLemmas::hex_length), unfolding(crate::specs::Piece::frames_text))]
fn frames_len(word: Option<u32>) -> usize
    ensures len { result ≡ length (frames_text word) }
    ensures few { result ≤ 8 }
{
    match word {
        None => 1,
        Some(_) => 8,
    }
}

/// How many octets a piece has.
#[tactic(auto, using(crate::proofs::HexLemmas::hex_length))]
fn piece_len(piece: &Piece<'_>) -> usize
    ensures { result ≡ counted (length (piece_text piece.now)) }
{
    match piece {
        Piece::Text(text) => text.len(),
        Piece::Number(n) => number_len(*n),
        Piece::Signed(n) => signed_len(*n),
        Piece::Octet(_) => 2,
        Piece::Short(_) => 4,
        Piece::Word(_) => 8,
        Piece::Long(_) => 16,
        Piece::Hex(octets) => hex_len(octets),
        Piece::Spelled(command) => spelled_len(command),
        Piece::Seven(value) => seven_len(*value),
        Piece::Frames(word) => frames_len(*word),
    }
}

/// How many octets pieces have, as far as 64 bits count them.
pub(crate) fn pieces_len(pieces: &[Piece<'_>]) -> usize
    ensures { result ≡ counted (length (pieces_text pieces.now)) }
{
    let mut total = 0usize;
    for piece in pieces {
        total = total.saturating_add(piece_len(piece));
    }
    total
}
