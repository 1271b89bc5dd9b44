//! Chapter T: the pressure of a channel (RFC 6295, A.8, Figure A.8.1).

ghost use Rattle.std.specs.Prelude.{◌≤◌, length, IfOk};
ghost use Rattle.jm_reader.specs.Chapter.{Reads, chapter};
ghost use Rattle.jm_reader.specs.ChapterT.{t_read};

use crate::faults::JournalFault;
use crate::logs::{Log, LogKind, Logs};
use jm_cmds::{Channel, D7, ReadError};

/// Reads the chapter at the front of these octets, which stand at `place`, and tells how many octets it has.
pub(crate) fn read(
    body: &[u8],
    place: usize,
    channel: Channel,
    logs: &mut Logs,
) -> Result<usize, ReadError<JournalFault>>
    ensures value { Reads result logs.new (chapter place logs.old (t_read channel body.now)) }
    ensures used { IfOk result (λ used. used ≤ length body.now) }
{
    let [first, ..] = body else {
        return Err(ReadError::Fault(JournalFault::Inside(place)));
    };
    logs.push(Log {
        fresh: *first < 128,
        what: LogKind::Pressure {
            channel,
            value: D7::low(*first),
        },
    })?;
    Ok(1)
}
