//! Chapter A: pressures of keys (RFC 6295, A.9, Figures A.9.1 and A.9.2).

ghost use Rattle.std.specs.Prelude.{◌≡◌, ◌≤◌, ◌%◌, length, IfOk};
ghost use Rattle.jm_reader.specs.Chapter.{Reads, chapter};
ghost use Rattle.jm_reader.specs.Pairs.{listed_read};
ghost use Rattle.jm_reader.specs.declared.logs.LogKind.TheVariants.{Poly};
ghost use Rattle.jm_reader.specs.declared.pairs.PairKind.TheVariants.{Pressures};

use crate::faults::JournalFault;
use crate::logs::{LogKind, Logs};
use crate::pairs::{PairKind, read_listed};
use jm_cmds::{Channel, D7, ReadError};

/// What a log says: X PRESSURE. X isn't kept.
pub(crate) fn said(channel: Channel, note: D7, second: u8) -> LogKind
    ensures { result ≡ Poly channel note (second % 128) }
{
    LogKind::Poly {
        channel,
        note,
        value: D7::low(second),
    }
}

/// Reads the chapter at the front of these octets, which stand at `place`, and tells how many octets it has.
pub(crate) fn read(
    body: &[u8],
    place: usize,
    channel: Channel,
    logs: &mut Logs,
) -> Result<usize, ReadError<JournalFault>>
    ensures value { Reads result logs.new (chapter place logs.old (listed_read Pressures channel body.now)) }
    ensures used { IfOk result (λ used. used ≤ length body.now) }
{
    read_listed(PairKind::Pressures, body, place, channel, logs)
}
