//! Logs of two octets each: those of Chapters C, E and A behind a header that counts them, and the note logs of
//! Chapter N (RFC 6295, A.3, A.6, A.7 and A.9).

ghost use Rattle.std.specs.Prelude.{◌≡◌, ◌≤◌, ◌++◌, length, IfOk};
ghost use Rattle.jm_reader.specs.Chapter.{Reads, chapter};
ghost use Rattle.jm_reader.specs.Pairs.{said, logged, pair_logs, listed_read};

use crate::faults::JournalFault;
use crate::logs::{Log, LogKind, Logs};
use crate::{a, c, e, n};
use jm_cmds::{Channel, D7, ReadError};
use std::alloc::AllocError;

/// Of which chapter the logs are.
#[derive(Clone, Copy, PartialEq, Eq, Debug)]
pub(crate) enum PairKind {
    /// Chapter C: controllers.
    Controllers,
    /// Chapter N: notes that were struck.
    Notes,
    /// Chapter E: release velocities and reference counts.
    Extras,
    /// Chapter A: pressures of keys.
    Pressures,
}

/// What a log says, where it says something.
fn said(kind: PairKind, channel: Channel, number: D7, second: u8) -> Option<LogKind>
    ensures { result ≡ said kind channel number second }
{
    match kind {
        PairKind::Controllers => c::said(channel, number, second),
        PairKind::Notes => Some(n::said(channel, number, second)),
        PairKind::Extras => Some(e::said(channel, number, second)),
        PairKind::Pressures => Some(a::said(channel, number, second)),
    }
}

/// Adds a log where it says something.
fn push_said(fresh: bool, what: Option<LogKind>, logs: &mut Logs) -> Result<(), AllocError>
    ensures { IfOk result (λ _. logs.new ≡ logs.old ++ logged fresh what) }
{
    match what {
        None => Ok(()),
        Some(what) => logs.push(Log { fresh, what }),
    }
}

/// Adds what the logs in these octets say.
pub(crate) fn read_pairs(
    kind: PairKind,
    octets: &[u8],
    channel: Channel,
    logs: &mut Logs,
) -> Result<(), AllocError>
    ensures { IfOk result (λ _. logs.new ≡ logs.old ++ pair_logs kind channel octets.now) }
{
    let mut rest = octets;
    while let [first, second, later @ ..] = rest {
        push_said(
            *first < 128,
            said(kind, channel, D7::low(*first), *second),
            logs,
        )?;
        rest = later;
    }
    Ok(())
}

/// Reads a chapter of logs behind their number.
pub(crate) fn read_listed(
    kind: PairKind,
    body: &[u8],
    place: usize,
    channel: Channel,
    logs: &mut Logs,
) -> Result<usize, ReadError<JournalFault>>
    ensures value { Reads result logs.new (chapter place logs.old (listed_read kind channel body.now)) }
    ensures used { IfOk result (λ used. used ≤ length body.now) }
{
    let [first, rest @ ..] = body else {
        return Err(ReadError::Fault(JournalFault::Inside(place)));
    };
    let size = 2 * (usize::from(*first % 128) + 1);
    if rest.len() < size {
        return Err(ReadError::Fault(JournalFault::Inside(place)));
    }
    read_pairs(kind, &rest[..size], channel, logs)?;
    Ok(size + 1)
}
