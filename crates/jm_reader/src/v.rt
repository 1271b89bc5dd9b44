//! Chapter V: Active Sense commands (RFC 6295, B.2, Figure B.2.1).

ghost use Rattle.std.specs.Prelude.{◌≤◌, length, IfOk};
ghost use Rattle.jm_reader.specs.Chapter.{Reads, chapter};
ghost use Rattle.jm_reader.specs.ChapterV.{v_read};

use crate::faults::JournalFault;
use crate::logs::{Log, LogKind, Logs};
use jm_cmds::ReadError;

/// Reads the chapter at the front of these octets, which stand at `place`, and tells how many octets it has.
pub(crate) fn read(
    body: &[u8],
    place: usize,
    logs: &mut Logs,
) -> Result<usize, ReadError<JournalFault>>
    ensures value { Reads result logs.new (chapter place logs.old (v_read body.now)) }
    ensures used { IfOk result (λ used. used ≤ length body.now) }
{
    let [octet, ..] = body else {
        return Err(ReadError::Fault(JournalFault::Inside(place)));
    };
    logs.push(Log {
        fresh: *octet < 128,
        what: LogKind::Sensing {
            count: *octet % 128,
        },
    })?;
    Ok(1)
}
