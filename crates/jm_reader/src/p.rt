//! Chapter P: the program of a channel (RFC 6295, A.2, Figure A.2.1).

ghost use Rattle.std.specs.Prelude.{◌≡◌, ◌≤◌, length, IfOk};
ghost use Rattle.jm_reader.specs.Chapter.{Reads, chapter};
ghost use Rattle.jm_reader.specs.ChapterP.{p_read, bank_read, program_log};

use crate::faults::JournalFault;
use crate::logs::{Log, LogKind, Logs};
use jm_cmds::{Channel, D7, ReadError};

/// The bank of a log: none where B is 0.
fn bank_read(high: u8, low: u8) -> Option<(D7, D7)>
    ensures { result ≡ bank_read high low }
{
    if high < 128 {
        return None;
    }
    Some((D7::low(high), D7::low(low)))
}

/// Reads the chapter at the front of these octets, which stand at `place`, and tells how many octets it has.
pub(crate) fn read(
    body: &[u8],
    place: usize,
    channel: Channel,
    logs: &mut Logs,
) -> Result<usize, ReadError<JournalFault>>
    ensures value { Reads result logs.new (chapter place logs.old (p_read channel body.now)) }
    ensures used { IfOk result (λ used. used ≤ length body.now) }
{
    let [first, high, low, ..] = body else {
        return Err(ReadError::Fault(JournalFault::Inside(place)));
    };
    logs.push(Log {
        fresh: *first < 128,
        what: LogKind::Program {
            channel,
            program: D7::low(*first),
            bank: bank_read(*high, *low),
        },
    })?;
    Ok(3)
}
