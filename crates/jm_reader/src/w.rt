//! Chapter W: the wheel of a channel (RFC 6295, A.5, Figure A.5.1).

ghost use Rattle.std.specs.Prelude.{◌≤◌, length, IfOk};
ghost use Rattle.jm_reader.specs.Chapter.{Reads, chapter};
ghost use Rattle.jm_reader.specs.ChapterW.{w_read};

use crate::faults::JournalFault;
use crate::logs::{Log, LogKind, Logs};
use jm_cmds::{Channel, D7, ReadError};

/// Reads the chapter at the front of these octets, which stand at `place`, and tells how many octets it has.
pub(crate) fn read(
    body: &[u8],
    place: usize,
    channel: Channel,
    logs: &mut Logs,
) -> Result<usize, ReadError<JournalFault>>
    ensures value { Reads result logs.new (chapter place logs.old (w_read channel body.now)) }
    ensures used { IfOk result (λ used. used ≤ length body.now) }
{
    let [first, second, ..] = body else {
        return Err(ReadError::Fault(JournalFault::Inside(place)));
    };
    logs.push(Log {
        fresh: *first < 128,
        what: LogKind::Wheel {
            channel,
            first: D7::low(*first),
            second: D7::low(*second),
        },
    })?;
    Ok(2)
}
