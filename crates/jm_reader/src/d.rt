//! Chapter D: System Resets, Tune Requests and the song (RFC 6295, B.1, Figures B.1.1 to B.1.3).

ghost use Rattle.std.specs.Prelude.{◌≡◌, ◌+◌, ◌%◌, ◌≤◌, [], length, IfOk};
ghost use Rattle.jm_reader.specs.Chapter.{Reads, chapter, joined};
ghost use Rattle.jm_reader.specs.ChapterD.{kind_of, part_read, parts_read, d_read, d_ends};

use crate::faults::JournalFault;
use crate::logs::{Log, LogKind, Logs};
use jm_cmds::{D7, ReadError};
use jm_wire::behind;

/// What a log of the chapter is of.
#[derive(Clone, Copy, PartialEq, Eq, Debug)]
enum Part {
    Resets,
    Tunes,
    Songs,
}

/// What the log of this octet says.
fn kind_of(part: Part, octet: u8) -> LogKind
    ensures { result ≡ kind_of part (octet % 128) }
{
    match part {
        Part::Resets => LogKind::Reset { count: octet % 128 },
        Part::Tunes => LogKind::Tune { count: octet % 128 },
        Part::Songs => LogKind::Song {
            song: D7::low(octet),
        },
    }
}

/// Reads the log at the front of these octets where its flag is set, and tells how many octets it has. `place` is the
/// chapter's.
fn read_part(
    part: Part,
    flag: bool,
    octets: &[u8],
    place: usize,
    logs: &mut Logs,
) -> Result<usize, ReadError<JournalFault>>
    ensures value { Reads result logs.new (chapter place logs.old (part_read part flag octets.now)) }
    ensures used { IfOk result (λ used. used ≤ length octets.now) }
{
    if !flag {
        return Ok(0);
    }
    let [octet, ..] = octets else {
        return Err(ReadError::Fault(JournalFault::Inside(place)));
    };
    logs.push(Log {
        fresh: *octet < 128,
        what: kind_of(part, *octet),
    })?;
    Ok(1)
}

/// Reads the logs behind the head, and tells how many octets the chapter has with them. `place` is the chapter's.
fn read_parts(
    head: u8,
    rest: &[u8],
    place: usize,
    logs: &mut Logs,
) -> Result<usize, ReadError<JournalFault>>
    ensures value { Reads result logs.new (chapter place logs.old (joined ([], 1) (parts_read head rest.now))) }
    ensures used { IfOk result (λ used. used ≤ length rest.now + 1) }
{
    let resets = read_part(Part::Resets, head / 64 % 2 == 1, rest, place, logs)?;
    let rest = behind(rest, resets);
    let tunes = read_part(Part::Tunes, head / 32 % 2 == 1, rest, place, logs)?;
    let rest = behind(rest, tunes);
    let songs = read_part(Part::Songs, head / 16 % 2 == 1, rest, place, logs)?;
    Ok(1 + resets + tunes + songs)
}

/// Reads the chapter at the front of these octets, which stand at `place`, and tells how many octets it has, without
/// the logs of undefined commands.
pub(crate) fn read(
    body: &[u8],
    place: usize,
    logs: &mut Logs,
) -> Result<usize, ReadError<JournalFault>>
    ensures value { Reads result logs.new (chapter place logs.old (d_read body.now)) }
    ensures used { IfOk result (λ used. used ≤ length body.now) }
{
    let [head, rest @ ..] = body else {
        return Err(ReadError::Fault(JournalFault::Inside(place)));
    };
    read_parts(*head, rest, place, logs)
}

/// Whether the rest of the system journal is passed over behind the chapter at the front of these octets: a bit for
/// undefined commands is set.
pub(crate) fn ends(body: &[u8]) -> bool
    ensures { result ≡ d_ends body.now }
{
    let [head, ..] = body else {
        return false;
    };
    *head % 16 != 0
}
