//! Reading a packet of a stream, with its journal.

ghost use Rattle.std.specs.Prelude.{◌≡◌};
ghost use Rattle.jm_cmds.specs.Gives.{Gives};
ghost use Rattle.jm_section.specs.Reading.{GivesBy};
ghost use Rattle.jm_packet.specs.Reading.{packet_read, packet_view};
ghost use Rattle.jm_receiver.specs.Accept.{of_packet, logs_read, contents_read, opened, contents};

use jm_cmds::ReadError;
use jm_packet::{Packet, PacketFault, read_packet, read_source};
use jm_reader::{JournalFault, Logs, read_journal};
use jm_section::Item;
use jm_wire::behind;
use std::alloc::Global;
use thiserror::Error;

/// Why a receiver takes nothing of a packet. The first that holds, in this order, is answered, but that `OtherSsrc` comes
/// before a fault of the section.
#[derive(Clone, Copy, PartialEq, Eq, Debug, Error)]
pub enum AcceptFault {
    /// The octets are no packet.
    #[error("this is no packet: {0}")]
    Packet(PacketFault),
    /// The packet is of another stream.
    #[error("the packet is of another synchronization source")]
    OtherSsrc,
    /// What follows the command section begins with no journal. Places are counted from the journal's first octet.
    #[error("the packet has no journal: {0}")]
    Journal(JournalFault),
    /// The packet isn't newer than the last one, whose number this is: its low 16 bits are 0 or at least 32,768 ahead of
    /// the last one's, modulo 65,536.
    #[error("the packet isn't newer than packet {last}")]
    Older { last: u64 },
}

/// What stands in a packet.
#[derive(Debug, Drop)]
pub(crate) struct Opened {
    /// The low 16 bits of its number.
    pub(crate) number: u16,
    /// Its timestamp.
    pub(crate) tick: u32,
    /// The entries of its command section.
    pub(crate) items: Vec<Item>,
    /// The logs of its journal: none where it has no journal.
    pub(crate) logs: Logs,
}

/// The logs of the journal that begins at this place, if there is one.
fn read_logs(
    octets: &[u8],
    journal: Option<usize>,
    alloc: Global,
) -> Result<Logs, ReadError<AcceptFault>>
    ensures { Gives result (logs_read octets.now journal) }
{
    let Some(place) = journal else {
        return Ok(Logs::none(alloc));
    };
    match read_journal(behind(octets, place), alloc) {
        Ok(report) => Ok(report.logs),
        Err(ReadError::Memory) => Err(ReadError::Memory),
        Err(ReadError::Fault(fault)) => Err(ReadError::Fault(AcceptFault::Journal(fault))),
    }
}

/// The packet that these octets are, its journal apart.
fn read_whole(octets: &[u8], alloc: Global) -> Result<Packet, ReadError<AcceptFault>>
    ensures { GivesBy packet_view result (of_packet (packet_read octets.now)) }
{
    match read_packet(octets, alloc) {
        Ok(packet) => Ok(packet),
        Err(ReadError::Memory) => Err(ReadError::Memory),
        Err(ReadError::Fault(fault)) => Err(ReadError::Fault(AcceptFault::Packet(fault))),
    }
}

/// What stands in a packet, of whatever stream.
fn read_contents(octets: &[u8], alloc: Global) -> Result<Opened, ReadError<AcceptFault>>
    ensures { GivesBy contents result (contents_read octets.now) }
{
    let packet = read_whole(octets, alloc)?;
    let logs = read_logs(octets, packet.journal, alloc)?;
    Ok(Opened {
        number: packet.number,
        tick: packet.tick,
        items: packet.section.items,
        logs,
    })
}

/// What stands in a packet of this stream.
#[tactic(auto, unfolding(crate::specs::Accept::opened))]
pub(crate) fn open(
    ssrc: u32,
    octets: &[u8],
    alloc: Global,
) -> Result<Opened, ReadError<AcceptFault>>
    ensures { GivesBy contents result (opened ssrc octets.now) }
{
    match read_source(octets) {
        Err(fault) => Err(ReadError::Fault(AcceptFault::Packet(fault))),
        Ok(source) => {
            if source != ssrc {
                return Err(ReadError::Fault(AcceptFault::OtherSsrc));
            }
            read_contents(octets, alloc)
        }
    }
}
