//! Chapter E: release velocities and reference counts of keys (RFC 6295, A.7, Figures A.7.1 and A.7.2).

ghost use Rattle.std.specs.Prelude.{◌≡◌, ◌≤◌, ◌%◌, not, nat_lt, length, IfOk};
ghost use Rattle.jm_reader.specs.Chapter.{Reads, chapter};
ghost use Rattle.jm_reader.specs.Pairs.{listed_read};
ghost use Rattle.jm_reader.specs.declared.logs.LogKind.TheVariants.{Extra};
ghost use Rattle.jm_reader.specs.declared.pairs.PairKind.TheVariants.{Extras};

use crate::faults::JournalFault;
use crate::logs::{LogKind, Logs};
use crate::pairs::{PairKind, read_listed};
use jm_cmds::{Channel, D7, ReadError};

/// What a log says: V COUNT-OR-VEL.
pub(crate) fn said(channel: Channel, note: D7, second: u8) -> LogKind
    ensures { result ≡ Extra channel note (not (nat_lt second 128)) (second % 128) }
{
    LogKind::Extra {
        channel,
        note,
        release: second >= 128,
        value: D7::low(second),
    }
}

/// Reads the chapter at the front of these octets, which stand at `place`, and tells how many octets it has.
pub(crate) fn read(
    body: &[u8],
    place: usize,
    channel: Channel,
    logs: &mut Logs,
) -> Result<usize, ReadError<JournalFault>>
    ensures value { Reads result logs.new (chapter place logs.old (listed_read Extras channel body.now)) }
    ensures used { IfOk result (λ used. used ≤ length body.now) }
{
    read_listed(PairKind::Extras, body, place, channel, logs)
}
