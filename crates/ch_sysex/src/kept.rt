//! The messages that the table keeps, in a ring.

ghost use Rattle.std.specs.Prelude.{◌≡◌, ◌+◌, ◌*◌, ◌≤◌, ◌<◌, ◌==◌, [], ◌∷◌, ◌++◌, length, take};
ghost use Rattle.std.specs.List.{list_any};
ghost use Rattle.jm_wire.specs.Octets.{Appends};
ghost use Rattle.jm_cmds.specs.Data.{IsSysex};
ghost use Rattle.jm_cmds.specs.Sent.{s_of};
ghost use Rattle.ch_sysex.specs.ChapterX.{last_marked, d_bit};
ghost use Rattle.ch_sysex.specs.SysexTable.{log_in, logs_in, IsShort, AreShort, log_fresh, sysex_text, kept_octets};

use circular_buffer::HeapCircularBuffer;
use jm_cmds::{is_packet_before, s_of};
use jm_wire::Octets;

/// A message that is coded.
#[derive(Clone, Copy, Drop, Debug)]
pub(crate) struct KeptMessage {
    /// The packet in which it went out.
    pub(crate) packet: u64,
    /// Its COUNT.
    pub(crate) count: u8,
    /// How many data octets it has, 254 at most.
    pub(crate) len: u8,
    /// Its data octets, the last one with its high bit set.
    pub(crate) marked: [u8; 254],
}

/// An array that begins with these octets.
fn filled(octets: &[u8]) -> [u8; 254]
    requires { length octets.now ≤ 254 }
    ensures front { take (length octets.now) result ≡ octets.now }
    ensures len { length result ≡ 254 }
{
    let mut marked = [0; 254];
    marked[..octets.len()].copy_from_slice(octets);
    marked
}

/// An array that begins with these data octets, the last one with its high bit set.
#[tactic(auto, using(crate::proofs::KeptLaws::marks, crate::proofs::KeptLaws::marks_none))]
fn marked(octets: &[u8]) -> [u8; 254]
    requires data { IsSysex octets.now }
    requires short { length octets.now ≤ 254 }
    ensures front { take (length octets.now) result ≡ last_marked octets.now }
    ensures len { length result ≡ 254 }
{
    let mut marked = filled(octets);
    let len = octets.len();
    if len == 0 {
        return marked;
    }
    marked[len - 1] = 128 + octets[len - 1];
    marked
}

/// A message of these data octets.
pub(crate) fn kept_message(packet: u64, count: u8, octets: &[u8]) -> KeptMessage
    requires data { IsSysex octets.now }
    requires short { length octets.now ≤ 254 }
    ensures log { log_in result ≡ record { packet = packet; count = count; marked = last_marked octets.now } }
    ensures short { IsShort result }
{
    KeptMessage {
        packet,
        count,
        len: octets.len() as u8,
        marked: marked(octets),
    }
}

/// How many octets the logs of these messages have.
pub(crate) fn octets_of(messages: &[KeptMessage]) -> usize
    requires few { length messages.now ≤ 128 }
    requires short { AreShort messages.now }
    ensures number { result ≡ kept_octets (logs_in messages.now) }
    ensures bound { result ≤ 256 * length messages.now }
{
    let mut octets = 0usize;
    for message in messages {
        octets += 2 + message.len as usize;
    }
    octets
}

/// Whether one of these messages went out in the packet before.
fn is_any_before(messages: &[KeptMessage], packet: u64) -> bool
    ensures { result ≡ list_any (λ message. message.packet + 1 == packet) messages.now }
{
    messages
        .iter()
        .any(|message| is_packet_before(message.packet, packet))
}

/// Whether the S bit of one of their logs is 0.
pub(crate) fn is_any_fresh(messages: &[KeptMessage], packet: u64) -> bool
    ensures { result ≡ list_any (log_fresh packet) (logs_in messages.now) }
{
    is_any_before(messages, packet)
}

/// Appends the log of a message.
fn write_log(fresh: bool, count: u8, marked: &[u8], out: &mut Octets)
    requires { 2 + length marked.now ≤ out.old.spare }
    ensures { Appends out.old out.new ((s_of fresh + (0x27 + d_bit marked.now)) ∷ count ∷ marked.now) }
{
    let d = if marked.is_empty() { 0 } else { 8 };
    out.push(s_of(fresh) + (0x27 + d));
    out.push(count);
    out.push_slice(marked);
}

/// Appends the logs of these messages.
pub(crate) fn write_messages(messages: &[KeptMessage], packet: u64, out: &mut Octets)
    requires short { AreShort messages.now }
    requires spare { length (sysex_text packet (logs_in messages.now)) ≤ out.old.spare }
    ensures { Appends out.old out.new (sysex_text packet (logs_in messages.now)) }
{
    for message in messages {
        write_log(
            is_packet_before(message.packet, packet),
            message.count,
            &message.marked[..message.len as usize],
            out,
        );
    }
}

/// Puts a message behind the others, for which there is room.
#[tactic(auto, using(crate::proofs::KeptLaws::keeps_all))]
pub(crate) fn push(messages: &mut HeapCircularBuffer<KeptMessage>, message: KeptMessage)
    requires { length messages.old.items < messages.old.capacity }
    ensures items { messages.new.items ≡ messages.old.items ++ message ∷ [] }
    ensures capacity { messages.new.capacity ≡ messages.old.capacity }
{
    messages.push_back(message);
}
