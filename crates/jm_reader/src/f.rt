//! Chapter F: the time code that quarter frames spell (RFC 6295, B.4, Figure B.4.1).

ghost use Rattle.std.specs.Prelude.{◌≡◌, ◌≤◌, length, IfOk, IfSome};
ghost use Rattle.jm_reader.specs.Chapter.{Reads, chapter};
ghost use Rattle.jm_reader.specs.ChapterF.{f_read, word_read};

use crate::faults::JournalFault;
use crate::logs::{Log, LogKind, Logs};
use jm_cmds::ReadError;
use jm_wire::TimeHead;

/// The word at the front of these octets where its flag is set, and how many octets it has. `None` where it passes
/// their end.
fn read_word(flag: bool, octets: &[u8]) -> Option<(Option<u32>, usize)>
    ensures value { result ≡ word_read flag octets.now }
    ensures used { IfSome result (λ read. read.1 ≤ length octets.now) }
{
    if !flag {
        return Some((None, 0));
    }
    let [a, b, c, d, ..] = octets else {
        return None;
    };
    Some((Some(u32::from_be_bytes([*a, *b, *c, *d])), 4))
}

/// Reads the chapter at the front of these octets, which stand at `place`, and tells how many octets it has. A Full
/// Frame (C=1 and Q=0) is read for its size alone.
pub(crate) fn read(
    body: &[u8],
    place: usize,
    logs: &mut Logs,
) -> Result<usize, ReadError<JournalFault>>
    ensures value { Reads result logs.new (chapter place logs.old (f_read body.now)) }
    ensures used { IfOk result (λ used. used ≤ length body.now) }
{
    let [first, rest @ ..] = body else {
        return Err(ReadError::Fault(JournalFault::Inside(place)));
    };
    let head = TimeHead::unpack([*first]);
    let Some((complete, used)) = read_word(head.c, rest) else {
        return Err(ReadError::Fault(JournalFault::Inside(place)));
    };
    let Some((partial, more)) = read_word(head.p, &rest[used..]) else {
        return Err(ReadError::Fault(JournalFault::Inside(place)));
    };
    let size = 1 + used + more;
    if head.c && !head.q {
        return Ok(size);
    }
    logs.push(Log {
        fresh: !head.s,
        what: LogKind::TimeCode {
            complete,
            partial,
            backward: head.d,
            point: head.point,
        },
    })?;
    Ok(size)
}
