//! The recovery journal: its header and the journals in it (RFC 6295, section 5, Figure 8).

ghost use Rattle.std.specs.Prelude.{◌≡◌, ◌+◌, ◌≤◌, [], length, drop, IfOk};
ghost use Rattle.jm_cmds.specs.Gives.{Gives};
ghost use Rattle.jm_reader.specs.Bounds.{AreLogs};
ghost use Rattle.jm_reader.specs.Chapter.{Reads, Leaves};
ghost use Rattle.jm_reader.specs.Journal.{channels_read, flagged_system, channel_count, logs_read, journal_read};

use crate::channel::read_channel;
use crate::faults::JournalFault;
use crate::logs::Logs;
use crate::system::read_system;
use jm_cmds::ReadError;
use jm_wire::{JournalHead, behind};
use std::alloc::Global;

/// What a recovery journal says.
#[derive(Debug, Drop)]
pub struct Report {
    /// The low 16 bits of the checkpoint packet's number.
    pub checkpoint: u16,
    /// The logs in the journal's order.
    pub logs: Logs,
}

/// Reads the system journal behind the header, where Y=1, and tells how many octets it has.
fn read_flagged_system(
    head: JournalHead,
    rest: &[u8],
    logs: &mut Logs,
    alloc: Global,
) -> Result<usize, ReadError<JournalFault>>
    requires { logs.old ≡ [] }
    ensures value { Reads result logs.new (flagged_system head rest.now) }
    ensures used { IfOk result (λ used. (used ≤ 1023) × (used ≤ length rest.now)) }
{
    if !head.y {
        return Ok(0);
    }
    read_system(rest, 3, logs, alloc)
}

/// How many channel journals there are.
fn channel_count(head: JournalHead) -> usize
    requires { head.totchan ≤ 15 }
    ensures value { result ≡ channel_count head }
    ensures bound { result ≤ 16 }
{
    if head.a {
        return usize::from(head.totchan) + 1;
    }
    0
}

/// Reads so many channel journals, of which the first stands at `place`.
fn read_channels(
    count: usize,
    octets: &[u8],
    place: usize,
    logs: &mut Logs,
) -> Result<(), ReadError<JournalFault>>
    requires few { count ≤ 16 }
    requires near { place ≤ 1026 }
    ensures { Leaves result logs.new (channels_read count place logs.old octets.now) }
{
    let mut rest = octets;
    let mut at = place;
    for _ in 0..count {
        let size = read_channel(rest, at, logs)?;
        rest = behind(rest, size);
        at += size;
    }
    Ok(())
}

/// Reads the journals behind the header.
fn read_logs(
    head: JournalHead,
    rest: &[u8],
    logs: &mut Logs,
    alloc: Global,
) -> Result<(), ReadError<JournalFault>>
    requires fits { head.totchan ≤ 15 }
    requires none { logs.old ≡ [] }
    ensures { Leaves result logs.new (logs_read head rest.now) }
{
    let size = read_flagged_system(head, rest, logs, alloc)?;
    read_channels(channel_count(head), behind(rest, size), 3 + size, logs)
}

/// The recovery journal at the front of `b`.
#[tactic(auto, unfolding(crate::specs::Journal::journal_read))]
fn journal_at(b: &[u8], alloc: Global) -> Result<Report, ReadError<JournalFault>>
    ensures { Gives result (journal_read b.now) }
{
    let [first, high, low, rest @ ..] = b else {
        return Err(ReadError::Fault(JournalFault::Short(0)));
    };
    let head = JournalHead::unpack([*first, *high, *low]);
    let mut logs = Logs::none(alloc);
    read_logs(head, rest, &mut logs, alloc)?;
    Ok(Report {
        checkpoint: head.checkpoint,
        logs,
    })
}

/// Reads the recovery journal at the front of `b` (RFC 6295, section 5 and Appendices A and B). What stands behind its last
/// channel journal is passed over.
///
/// The first fault by place is told: `Short` where the octets end in the header of the journal (place 0), or in the header or
/// before the LENGTH of a system or channel journal; `Inside` where such a LENGTH is below its header's size, or a chapter
/// passes it. `Memory` where memory is refused.
pub fn read_journal(b: &[u8], alloc: Global) -> Result<Report, ReadError<JournalFault>>
    ensures exact { Gives result (journal_read b.now) }
    // The fields that aren't of seven bits are within their widths.
    ensures within { IfOk result (λ report. AreLogs report.logs) }
{
    journal_at(b, alloc)
}
