//! Chapter Q: where the sequencer is (RFC 6295, B.3, Figure B.3.1).

ghost use Rattle.std.specs.Prelude.{◌≡◌, ◌+◌, ◌<◌, ◌≤◌, length, IfOk};
ghost use Rattle.jm_reader.specs.Chapter.{Reads, chapter};
ghost use Rattle.jm_reader.specs.ChapterQ.{clocked, q_read, q_ends, sequencer_log};

use crate::faults::JournalFault;
use crate::logs::{Log, LogKind, Logs};
use jm_cmds::ReadError;
use jm_wire::SeqHead;

/// The log of this head and position.
fn log_of(head: SeqHead, position: u32) -> Log
    ensures { result ≡ sequencer_log head position }
{
    Log {
        fresh: !head.s,
        what: LogKind::Sequencer {
            running: head.n,
            downbeat: head.d,
            position,
        },
    }
}

/// Reads the position behind the head, which has C=1.
fn read_clock(
    head: SeqHead,
    rest: &[u8],
    place: usize,
    logs: &mut Logs,
) -> Result<usize, ReadError<JournalFault>>
    requires { head.top < 8 }
    ensures value { Reads result logs.new (chapter place logs.old (clocked head rest.now)) }
    ensures used { IfOk result (λ used. used ≤ length rest.now + 1) }
{
    let [high, low, ..] = rest else {
        return Err(ReadError::Fault(JournalFault::Inside(place)));
    };
    let clock = 256 * u32::from(*high) + u32::from(*low);
    logs.push(log_of(head, 65_536 * u32::from(head.top) + clock))?;
    Ok(3)
}

/// Reads the chapter at the front of these octets, which stand at `place`, and tells how many octets it has. With T=1
/// it is only passed over.
pub(crate) fn read(
    body: &[u8],
    place: usize,
    logs: &mut Logs,
) -> Result<usize, ReadError<JournalFault>>
    ensures value { Reads result logs.new (chapter place logs.old (q_read body.now)) }
    ensures used { IfOk result (λ used. used ≤ length body.now) }
{
    let [first, rest @ ..] = body else {
        return Err(ReadError::Fault(JournalFault::Inside(place)));
    };
    let head = SeqHead::unpack([*first]);
    if head.t {
        return Ok(1);
    }
    if head.c {
        return read_clock(head, rest, place, logs);
    }
    logs.push(log_of(head, 0))?;
    Ok(1)
}

/// Whether the rest of the system journal is passed over behind the chapter at the front of these octets: T=1.
pub(crate) fn ends(body: &[u8]) -> bool
    ensures { result ≡ q_ends body.now }
{
    let [first, ..] = body else {
        return false;
    };
    SeqHead::unpack([*first]).t
}
