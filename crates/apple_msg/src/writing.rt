//! A message to its octets.

ghost use Rattle.std.specs.Prelude.{◌+◌, ◌≤◌, ◌∷◌, [], ◌++◌, length};
ghost use Rattle.jm_wire.specs.Octets.{Appends};
ghost use Rattle.apple_msg.specs.Spelling.{header, moments, marked, text};

use crate::message::Message;
use crate::name::Name;
use jm_wire::Octets;

fn write_header(token: u32, ssrc: u32, out: &mut Octets)
    requires { 12 ≤ out.old.spare }
    ensures { Appends out.old out.new (header token ssrc []) }
{
    out.push_u32(2);
    out.push_u32(token);
    out.push_u32(ssrc);
}

fn write_letters(letters: &[u8; 2], out: &mut Octets)
    requires { 4 ≤ out.old.spare }
    ensures { Appends out.old out.new (255 ∷ 255 ∷ letters.now) }
{
    out.push(0xFF);
    out.push(0xFF);
    out.push_slice(letters);
}

fn write_invitation(token: u32, ssrc: u32, name: &Name, out: &mut Octets)
    requires { 13 + length name.now ≤ out.old.spare }
    ensures { Appends out.old out.new (header token ssrc (name.now ++ 0 ∷ [])) }
{
    write_header(token, ssrc, out);
    out.push_slice(name.as_slice());
    out.push(0);
}

impl Message {
    ghost use Rattle.std.specs.Prelude.{◌≡◌, ◌≤◌, length};
    ghost use Rattle.apple_msg.specs.Spelling.{text};

    /// How many octets [`write_message`] appends for this message, at most 80.
    pub fn written_len(&self) -> usize
        ensures len { result ≡ length (text self.now) }
        ensures few { result ≤ 80 }
    {
        match self {
            Message::Invite { name, .. } => name.as_slice().len() + 17,
            Message::Accept { name, .. } => name.as_slice().len() + 17,
            Message::Reject { name, .. } => name.as_slice().len() + 17,
            Message::Bye { .. } => 16,
            Message::Clock { .. } => 36,
            Message::Feedback { .. } => 12,
            Message::RateLimit => 4,
        }
    }
}

/// Appends the octets of a message: FF FF, its letters and its fields, and 0 behind_octets a name. What a reader
/// does not look at is written 0.
pub fn write_message(m: &Message, out: &mut Octets)
    requires { length (text m.now) ≤ out.old.spare }
    ensures { Appends out.old out.new (text m.now) }
{
    match m {
        Message::Invite { token, ssrc, name } => {
            write_letters(b"IN", out);
            write_invitation(*token, *ssrc, name, out);
        }
        Message::Accept { token, ssrc, name } => {
            write_letters(b"OK", out);
            write_invitation(*token, *ssrc, name, out);
        }
        Message::Reject { token, ssrc, name } => {
            write_letters(b"NO", out);
            write_invitation(*token, *ssrc, name, out);
        }
        Message::Bye { token, ssrc } => {
            write_letters(b"BY", out);
            write_header(*token, *ssrc, out);
        }
        Message::Clock { ssrc, count, times } => {
            write_letters(b"CK", out);
            out.push_u32(*ssrc);
            out.push_slice(&[*count, 0, 0, 0]);
            out.push_u64(times[0]);
            out.push_u64(times[1]);
            out.push_u64(times[2]);
        }
        Message::Feedback { ssrc, seq } => {
            write_letters(b"RS", out);
            out.push_u32(*ssrc);
            out.push_u16(*seq);
            out.push_u16(0);
        }
        Message::RateLimit => write_letters(b"RL", out),
    }
}
