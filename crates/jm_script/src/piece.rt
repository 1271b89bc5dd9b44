//! The pieces that answers are put together from.

ghost use Rattle.std.specs.Prelude.{◌≡◌, ◌++◌, codes, decimal};
ghost use Rattle.jm_script.specs.Piece.{pieces_text};

use jm_cmds::{Command, D7};

/// One piece of a line.
#[derive(Clone, Copy)]
pub(crate) enum Piece<'a> {
    /// These octets, as they are.
    Text(&'a [u8]),
    /// A number in decimal digits.
    Number(u64),
    /// A number in decimal digits, with `-` where it is negative.
    Signed(i128),
    /// An octet in two hexadecimal digits.
    Octet(u8),
    /// A number of 16 bits in four hexadecimal digits.
    Short(u16),
    /// A number of 32 bits in eight hexadecimal digits.
    Word(u32),
    /// A number of 64 bits in sixteen hexadecimal digits.
    Long(u64),
    /// Octets in hexadecimal digits.
    Hex(&'a [u8]),
    /// The octets of a command in hexadecimal digits.
    Spelled(&'a Command),
    /// A space, and a number in decimal digits or `-` where there is none.
    Seven(Option<D7>),
    /// A word of time code in eight hexadecimal digits, or `-` where there is none.
    Frames(Option<u32>),
}

/// A few pieces, one behind the other; places that aren't needed are [`NOTHING`].
pub(crate) type Pieces<'a> = [Piece<'a>; 9];

/// A piece of no octets.
pub(crate) const NOTHING: Piece<'static> = Piece::Text(b"");

/// A space between words.
pub(crate) const SPACE: Piece<'static> = Piece::Text(b" ");

/// The end of a line.
pub(crate) const END: Piece<'static> = Piece::Text(b"\n");

/// These octets alone.
pub(crate) fn words(text: &'static [u8]) -> Pieces<'static>
    ensures { pieces_text result ≡ text.now }
{
    [
        Piece::Text(text),
        NOTHING,
        NOTHING,
        NOTHING,
        NOTHING,
        NOTHING,
        NOTHING,
        NOTHING,
        NOTHING,
    ]
}

/// A word and a number.
pub(crate) fn one_number(word: &'static [u8], n: u64) -> Pieces<'static>
    ensures { pieces_text result ≡ word.now ++ decimal n ++ codes "\n" }
{
    [
        Piece::Text(word),
        Piece::Number(n),
        END,
        NOTHING,
        NOTHING,
        NOTHING,
        NOTHING,
        NOTHING,
        NOTHING,
    ]
}

/// A word and two numbers.
pub(crate) fn two_numbers(word: &'static [u8], first: u64, second: u64) -> Pieces<'static>
    ensures { pieces_text result ≡ word.now ++ decimal first ++ codes " " ++ decimal second ++ codes "\n" }
{
    [
        Piece::Text(word),
        Piece::Number(first),
        SPACE,
        Piece::Number(second),
        END,
        NOTHING,
        NOTHING,
        NOTHING,
        NOTHING,
    ]
}

/// A word and three numbers.
pub(crate) fn three_numbers(
    word: &'static [u8],
    first: u64,
    second: u64,
    third: u64,
) -> Pieces<'static>
    ensures { pieces_text result ≡ word.now ++ decimal first ++ codes " " ++ decimal second ++ codes " " ++ decimal third ++ codes "\n" }
{
    [
        Piece::Text(word),
        Piece::Number(first),
        SPACE,
        Piece::Number(second),
        SPACE,
        Piece::Number(third),
        END,
        NOTHING,
        NOTHING,
    ]
}
