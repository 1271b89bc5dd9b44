//! Chapter X: System Exclusive messages (RFC 6295, B.5, Figure B.5.1).

ghost use Rattle.std.specs.Prelude.{◌≡◌, ◌+◌, ◌≤◌, length, true, IfOk};
ghost use Rattle.jm_reader.specs.Chapter.{Reads, chapter};
ghost use Rattle.jm_reader.specs.ChapterX.{log_head, is_written, first_len, log_size, sysex_log, log_read, x_read};
ghost use Rattle.jm_wire.specs.Heads.{octet};

use crate::faults::JournalFault;
use crate::logs::{Log, LogKind, Logs};
use jm_cmds::{ReadError, Sysex, data_len};
use jm_wire::behind;
use std::alloc::{AllocError, Global};

/// The first octet of a log.
#[derive(Clone, Copy, PartialEq, Eq, Debug)]
struct LogHead {
    /// The log isn't of the packet before.
    s: bool,
    /// TCOUNT is there.
    t: bool,
    /// COUNT is there.
    c: bool,
    /// FIRST is there.
    f: bool,
    /// Data octets are there.
    d: bool,
    /// The log is of one command, and not of the latest of its kind.
    l: bool,
    /// How far the command has come, 0 to 3; 3 is to its end.
    sta: u8,
}

/// The fields of this octet.
fn log_head(first: u8) -> LogHead
    ensures { result ≡ log_head first }
{
    LogHead {
        s: first / 128 % 2 == 1,
        t: first / 64 % 2 == 1,
        c: first / 32 % 2 == 1,
        f: first / 16 % 2 == 1,
        d: first / 8 % 2 == 1,
        l: first / 4 % 2 == 1,
        sta: first % 4,
    }
}

/// Whether the log has the form that is written: COUNT alone, the list tool, and a finished command.
fn is_written(head: LogHead) -> bool
    ensures { result ≡ is_written head }
{
    !head.t && head.c && !head.f && head.l && head.sta == 3
}

/// The octet at this place, or 0 past the end.
fn octet(octets: &[u8], place: usize) -> u8
    ensures { result ≡ octet octets.now place }
{
    match octets.get(place) {
        Some(octet) => *octet,
        None => 0,
    }
}

/// The octets of the field FIRST at the front: up to the first without the high bit, and at most four. Past the end of
/// these octets they are counted as one more.
#[tactic(auto, unfolding(crate::specs::ChapterX::first_len))]
fn first_len(octets: &[u8]) -> usize
    ensures value { result ≡ first_len octets.now }
    ensures bound { result ≤ 4 }
{
    if octet(octets, 0) < 128 {
        return 1;
    }
    if octet(octets, 1) < 128 {
        return 2;
    }
    if octet(octets, 2) < 128 {
        return 3;
    }
    4
}

/// The octets of a log with this head, where these octets stand behind it. They are more than there are where the log
/// passes their end.
#[tactic(auto, unfolding(crate::specs::ChapterX::log_size))]
fn log_size(head: LogHead, rest: &[u8]) -> usize
    ensures value { result ≡ log_size head rest.now }
    ensures some { 1 ≤ result }
    ensures counted { head.c ≡ true → 2 ≤ result }
{
    let counts = usize::from(head.t) + usize::from(head.c);
    let rest = behind(rest, counts);
    let first = if head.f { first_len(rest) } else { 0 };
    let rest = behind(rest, first);
    let data = if head.d { data_len(rest) + 1 } else { 0 };
    1 + (counts + (first + data))
}

/// The log of the written form, by COUNT and the data octets.
fn sysex_log(head: LogHead, count: u8, octets: &[u8], alloc: Global) -> Result<Log, AllocError>
    requires { length octets.now ≤ 2046 }
    ensures { IfOk result (λ log. log ≡ sysex_log head count octets.now) }
{
    Ok(Log {
        fresh: !head.s,
        what: LogKind::Sysex {
            count,
            octets: Sysex::of_marked(octets, alloc)?,
        },
    })
}

/// Reads the log at the front of these octets, and tells how many octets it has. `place` is the chapter's.
#[tactic(auto, unfolding(crate::specs::ChapterX::log_read))]
fn read_log(
    octets: &[u8],
    place: usize,
    logs: &mut Logs,
    alloc: Global,
) -> Result<usize, ReadError<JournalFault>>
    requires { length octets.now ≤ 1023 }
    ensures value { Reads result logs.new (chapter place logs.old (log_read octets.now)) }
    ensures used { IfOk result (λ used. (1 ≤ used) × (used ≤ length octets.now)) }
{
    let [first, rest @ ..] = octets else {
        return Err(ReadError::Fault(JournalFault::Inside(place)));
    };
    let head = log_head(*first);
    let size = log_size(head, rest);
    if octets.len() < size {
        return Err(ReadError::Fault(JournalFault::Inside(place)));
    }
    if !is_written(head) {
        return Ok(size);
    }
    logs.push(sysex_log(head, rest[0], &rest[1..size - 1], alloc)?)?;
    Ok(size)
}

/// Reads the chapter, which stands at `place` and has these octets to the end of its journal, and tells how many octets
/// it has.
pub(crate) fn read(
    body: &[u8],
    place: usize,
    logs: &mut Logs,
    alloc: Global,
) -> Result<usize, ReadError<JournalFault>>
    requires { length body.now ≤ 1023 }
    ensures value { Reads result logs.new (chapter place logs.old (x_read body.now)) }
    ensures used { IfOk result (λ used. used ≤ length body.now) }
{
    if body.is_empty() {
        return Err(ReadError::Fault(JournalFault::Inside(place)));
    }
    let mut rest = body;
    let mut used = 0;
    for _ in 0..body.len() {
        if rest.is_empty() {
            return Ok(used);
        }
        let size = read_log(rest, place, logs, alloc)?;
        rest = behind(rest, size);
        used += size;
    }
    Ok(used)
}
