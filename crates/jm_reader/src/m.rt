//! Chapter M: the parameters of a channel (RFC 6295, A.4, Figures A.4.1 to A.4.4).

ghost use Rattle.std.specs.Prelude.{◌≡◌, ◌≤◌, ◌++◌, None, Some, length, IfOk, MatchOption};
ghost use Rattle.jm_reader.specs.Chapter.{Reads, chapter};
ghost use Rattle.jm_reader.specs.ChapterM.{half_read, param_log, param_read, params_read, is_written, known, m_read};

use crate::faults::JournalFault;
use crate::logs::{Log, LogKind, Logs};
use jm_cmds::{Channel, D7, ReadError};
use jm_wire::ParamHead;
use std::alloc::AllocError;

/// A half of a value, where it is there, and the octets behind it.
fn read_half(there: bool, octets: &[u8]) -> Option<(Option<D7>, &[u8])>
    ensures { MatchOption result (half_read there octets.now ≡ None) (λ r. half_read there octets.now ≡ Some (r.0, r.1.now)) }
{
    if !there {
        return Some((None, octets));
    }
    let [octet, behind @ ..] = octets else {
        return None;
    };
    Some((Some(D7::low(*octet)), behind))
}

/// What a log says of a parameter.
fn param_log(
    channel: Channel,
    first: u8,
    second: u8,
    entry_high: Option<D7>,
    entry_low: Option<D7>,
) -> Log
    ensures { result ≡ param_log channel first second entry_high entry_low }
{
    Log {
        fresh: first < 128,
        what: LogKind::Param {
            channel,
            nrpn: second / 128 % 2 == 1,
            high: D7::low(second),
            low: D7::low(first),
            entry_high,
            entry_low,
        },
    }
}

/// The log at the front of these octets and the octets behind it, where it has the written form: of its six last flags
/// V alone is set.
fn read_param(octets: &[u8], channel: Channel) -> Option<(Log, &[u8])>
    ensures { MatchOption result (param_read channel octets.now ≡ None) (λ r. param_read channel octets.now ≡ Some (r.0, r.1.now)) }
{
    let [first, second, flags, behind @ ..] = octets else {
        return None;
    };
    if *flags % 64 != 2 {
        return None;
    }
    let Some((entry_high, behind)) = read_half(*flags / 128 % 2 == 1, behind) else {
        return None;
    };
    let Some((entry_low, behind)) = read_half(*flags / 64 % 2 == 1, behind) else {
        return None;
    };
    Some((
        param_log(channel, *first, *second, entry_high, entry_low),
        behind,
    ))
}

/// Adds what the logs in these octets say, or nothing where one of them hasn't the written form.
fn read_params(octets: &[u8], channel: Channel, logs: &mut Logs) -> Result<(), AllocError>
    ensures { IfOk result (λ _. logs.new ≡ logs.old ++ known (params_read channel octets.now octets.now)) }
{
    let before = logs.len();
    let mut rest = octets;
    for _ in octets {
        if rest.is_empty() {
            return Ok(());
        }
        match read_param(rest, channel) {
            None => {
                logs.truncate(before);
                return Ok(());
            }
            Some((log, behind)) => {
                logs.push(log)?;
                rest = behind;
            }
        }
    }
    Ok(())
}

/// Whether a header has the written form: P, E, U, W and Z are 0.
fn is_written(head: &ParamHead) -> bool
    ensures { result ≡ is_written head.now }
{
    !(head.p || head.e || head.u || head.w || head.z)
}

/// Reads the chapter at the front of these octets, which stand at `place`, and tells how many octets it has.
pub(crate) fn read(
    body: &[u8],
    place: usize,
    channel: Channel,
    logs: &mut Logs,
) -> Result<usize, ReadError<JournalFault>>
    ensures value { Reads result logs.new (chapter place logs.old (m_read channel body.now)) }
    ensures used { IfOk result (λ used. used ≤ length body.now) }
{
    let [first, second, rest @ ..] = body else {
        return Err(ReadError::Fault(JournalFault::Inside(place)));
    };
    let head = ParamHead::unpack([*first, *second]);
    let length = usize::from(head.length);
    if length < 2 {
        return Err(ReadError::Fault(JournalFault::Inside(place)));
    }
    if rest.len() < length - 2 {
        return Err(ReadError::Fault(JournalFault::Inside(place)));
    }
    if is_written(&head) {
        read_params(&rest[..length - 2], channel, logs)?;
    }
    Ok(length)
}
