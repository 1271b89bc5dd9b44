//! The words of a line: how they are parted, and the numbers, octets and addresses that they write.

ghost use Rattle.std.specs.Prelude.{◌≡◌, ◌^◌, ◌≤◌, List, IfOk, OnErr, IfSome, IsSome, IsTrue, None, false, option_map};
ghost use Rattle.std.specs.List.{list_all};
ghost use Rattle.std.specs.Char.{is_ascii_digit, is_ascii_hexdigit};
ghost use Rattle.jm_script.specs.Words.{front_part, back_part, first_word, other_words, is_number, number_of, ssrc_of, hex_of, port_behind, addr_of, port_of};

use apple_session::PortKind;
use hex::FromHexError;
use jm_edge::Addr;
use std::alloc::{AllocError, Global};

const SPACE: u8 = b' ';

/// What stands before the first separator, and what stands behind it, if there is one.
fn split_at_octet(text: &[u8], separator: u8) -> (&[u8], Option<&[u8]>)
    ensures first { result.0.now ≡ front_part separator text.now }
    ensures rest { option_map (λ r. r.now) result.1 ≡ back_part separator text.now }
{
    for (i, octet) in text.iter().enumerate() {
        if *octet == separator {
            return (&text[..i], Some(&text[i + 1..]));
        }
    }
    (text, None)
}

/// A line's first word, and what stands behind the space that ends it, if a space does.
pub(crate) fn split_word(line: &[u8]) -> (&[u8], Option<&[u8]>)
    ensures first { result.0.now ≡ first_word line.now }
    ensures rest { option_map (λ r. r.now) result.1 ≡ other_words line.now }
{
    split_at_octet(line, SPACE)
}

/// The number that a word writes: decimal digits without a leading zero, at most `most`. Another word is `None`, and so is a
/// greater number.
pub fn number(word: &[u8], most: u64) -> Option<u64>
    requires { most ≤ 2 ^ 62 }
    ensures value { result ≡ number_of most word.now }
    ensures bound { IfSome result (λ n. n ≤ most) }
{
    if !has_number_form(word) {
        return None;
    }
    let mut value = 0u64;
    for digit in word {
        if value > most / 10 {
            return None;
        }
        value = value * 10 + u64::from(*digit - b'0');
    }
    if value <= most { Some(value) } else { None }
}

/// Whether a word is one or more decimal digits without a zero before others.
fn has_number_form(word: &[u8]) -> bool
    ensures { result ≡ is_number word.now }
{
    match word {
        [] => false,
        [first, rest @ ..] => has_digits_alone(word) && (*first != b'0' || rest.is_empty()),
    }
}

fn has_digits_alone(word: &[u8]) -> bool
    ensures { result ≡ list_all is_ascii_digit word.now }
{
    word.iter().all(|c| c.is_ascii_digit())
}

/// The number that eight hexadecimal digits write, the high digit first.
pub(crate) fn ssrc(word: &[u8]) -> Option<u32>
    ensures { result ≡ ssrc_of word.now }
{
    let mut octets = [0u8; 4];
    match hex::decode_to_slice(word, octets.as_mut_slice()) {
        Ok(()) => Some(u32::from_be_bytes(octets)),
        Err(_) => None,
    }
}

fn has_hexadecimal_digits_alone(word: &[u8]) -> bool
    ensures { result ≡ list_all is_ascii_hexdigit word.now }
{
    word.iter().all(|c| c.is_ascii_hexdigit())
}

/// Whether a word is one or more pairs of hexadecimal digits.
fn are_octets(word: &[u8]) -> bool
    ensures octets { IsTrue result → IsSome (hex_of word.now) }
    ensures none { result ≡ false → hex_of word.now ≡ None }
{
    if word.is_empty() {
        return false;
    }
    if word.len() % 2 == 1 {
        return false;
    }
    has_hexadecimal_digits_alone(word)
}

/// The octets that one or more pairs of hexadecimal digits write. It fails where memory runs out, which is
/// said of such a word alone.
pub(crate) fn hex_octets(word: &[u8], alloc: Global) -> Result<Option<Vec<u8>>, AllocError>
    ensures octets { IfOk result (λ octets. option_map (λ v. v.items) octets ≡ hex_of word.now) }
    ensures memory { OnErr result (IsSome (hex_of word.now)) }
{
    if word.is_empty() {
        return Ok(None);
    }
    match hex::decode(alloc, word) {
        Ok(octets) => Ok(Some(octets)),
        Err(FromHexError::OutOfMemory) => {
            if are_octets(word) {
                Err(AllocError)
            } else {
                Ok(None)
            }
        }
        Err(_) => Ok(None),
    }
}

/// The port that stands behind a colon, if one stands there.
fn port_number(behind: Option<&[u8]>) -> Option<u16>
    ensures { result ≡ port_behind (option_map (λ r. r.now) behind.entry) }
{
    let Some(word) = behind else {
        return None;
    };
    let Some(port) = number(word, 65_535) else {
        return None;
    };
    Some(port as u16)
}

/// The address that a word writes: eight hexadecimal digits, the high digit first, a colon and a port of at most 65,535. Another
/// word is `None`.
pub fn addr(word: &[u8]) -> Option<Addr>
    ensures { result ≡ addr_of word.now }
{
    let (host, behind) = split_at_octet(word, b':');
    let Some(host) = ssrc(host) else {
        return None;
    };
    let Some(port) = port_number(behind) else {
        return None;
    };
    Some(Addr { host, port })
}

/// Which of the host's ports a word names.
pub(crate) fn port(word: &[u8]) -> Option<PortKind>
    ensures { result ≡ port_of word.now }
{
    if word == b"control".as_slice() {
        return Some(PortKind::Ctl);
    }
    if word == b"data".as_slice() {
        return Some(PortKind::Rtp);
    }
    None
}
