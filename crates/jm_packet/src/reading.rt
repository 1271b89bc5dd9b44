//! Reading a packet: its header and its command section.

ghost use Rattle.std.specs.Prelude.{◌≡◌, ◌+◌, ◌≤◌, ◌<◌, ◌^◌, length, IfOk};
ghost use Rattle.jm_section.specs.Reading.{GivesBy};
ghost use Rattle.jm_packet.specs.Reading.{head_fault, front_read, source_read, packet_read, packet_view, journal_place};

use jm_cmds::ReadError;
use jm_section::{Section, SectionFault, read_section};
use std::alloc::Global;
use thiserror::Error;

/// The payload types that sessions choose from (RFC 3551, section 6): 96 to 127.
const LEAST_PAYLOAD_TYPE: u8 = 96;

/// A packet as it was read, without its journal.
#[derive(Debug, Drop)]
pub struct Packet {
    /// The low 16 bits of the packet's number.
    pub number: u16,
    /// The timestamp: the low 32 bits of the packet's tick, in units of 100 microseconds.
    pub tick: u32,
    /// The synchronization source: whose stream this is.
    pub ssrc: u32,
    /// The command section.
    pub section: Section,
    /// Where the recovery journal begins, counted from the packet's first octet, if there is one. It goes to the
    /// packet's end.
    pub journal: Option<usize>,
}

/// Why octets are no packet. The first that holds, in this order, is told, but that `Short` is told of missing
/// contributing sources behind `PayloadType`.
#[derive(Clone, Copy, PartialEq, Eq, Debug, Error)]
pub enum PacketFault {
    /// There are fewer than twelve octets, or fewer contributing sources than the header tells.
    #[error("the octets end inside the packet's header")]
    Short,
    /// The version isn't 2.
    #[error("the version isn't 2")]
    Version,
    /// The padding bit is set.
    #[error("there is padding")]
    Padding,
    /// The extension bit is set.
    #[error("there is a header extension")]
    Extension,
    /// The payload type is below 96.
    #[error("the payload type is none that sessions choose")]
    PayloadType,
    /// What follows the header begins with no command section. Places are counted from the section's first octet.
    #[error("there is no command section: {0}")]
    Section(SectionFault),
}

/// What a packet's header tells.
#[derive(Clone, Copy, Debug)]
pub(crate) struct Front {
    number: u16,
    tick: u32,
    ssrc: u32,
    /// The number of its octets, contributing sources and all.
    size: usize,
}

/// What the first two octets of a header show that isn't read (RFC 3550, section 5.1).
fn head_fault(first: u8, second: u8) -> Option<PacketFault>
    ensures { result ≡ head_fault first second }
{
    if first / 64 != 2 {
        return Some(PacketFault::Version);
    }
    if first / 32 % 2 == 1 {
        return Some(PacketFault::Padding);
    }
    if first / 16 % 2 == 1 {
        return Some(PacketFault::Extension);
    }
    if second % 128 < LEAST_PAYLOAD_TYPE {
        return Some(PacketFault::PayloadType);
    }
    None
}

/// The header at the front of these octets.
fn read_front(b: &[u8]) -> Result<Front, PacketFault>
    ensures front { result ≡ front_read b.now }
    ensures size { IfOk result (λ front. front.size ≤ length b.now) }
{
    let [
        first,
        second,
        n1,
        n2,
        t1,
        t2,
        t3,
        t4,
        s1,
        s2,
        s3,
        s4,
        sources @ ..,
    ] = b
    else {
        return Err(PacketFault::Short);
    };
    match head_fault(*first, *second) {
        Some(fault) => return Err(fault),
        None => {}
    }
    let listed = 4 * usize::from(*first % 16);
    if sources.len() < listed {
        return Err(PacketFault::Short);
    }
    Ok(Front {
        number: u16::from_be_bytes([*n1, *n2]),
        tick: u32::from_be_bytes([*t1, *t2, *t3, *t4]),
        ssrc: u32::from_be_bytes([*s1, *s2, *s3, *s4]),
        size: 12 + listed,
    })
}

/// Whose stream a packet is of, by its header alone: the synchronization source. The faults are those of `read_packet` but for
/// `Section`.
pub fn read_source(b: &[u8]) -> Result<u32, PacketFault>
    ensures { result ≡ source_read b.now }
{
    match read_front(b) {
        Ok(front) => Ok(front.ssrc),
        Err(fault) => Err(fault),
    }
}

/// Where the journal stands, if the section says that there is one.
fn journal_place(size: usize, section: &Section) -> Option<usize>
    requires { size + section.now.used < 2 ^ 64 }
    ensures { result ≡ journal_place size section.now.used section.now.journal }
{
    if section.journal {
        return Some(size + section.used);
    }
    None
}

/// Reads a packet: its header, with any marker and payload types from 96 to 127, and its command section. The journal
/// isn't looked at.
#[tactic(auto, unfolding(crate::specs::Reading::packet_read))]
pub fn read_packet(b: &[u8], alloc: Global) -> Result<Packet, ReadError<PacketFault>>
    ensures { GivesBy packet_view result (packet_read b.now) }
{
    let front = match read_front(b) {
        Ok(front) => front,
        Err(fault) => return Err(ReadError::Fault(fault)),
    };
    match read_section(&b[front.size..], alloc) {
        Ok(section) => Ok(Packet {
            number: front.number,
            tick: front.tick,
            ssrc: front.ssrc,
            journal: journal_place(front.size, &section),
            section,
        }),
        Err(ReadError::Memory) => Err(ReadError::Memory),
        Err(ReadError::Fault(fault)) => Err(ReadError::Fault(PacketFault::Section(fault))),
    }
}
