//! Chapter N: the notes of a channel (RFC 6295, A.6, Figures A.6.1 to A.6.3).

ghost use Rattle.std.specs.Prelude.{◌≡◌, ◌+◌, ◌*◌, ◌<◌, ◌≤◌, ◌++◌, length, IfOk};
ghost use Rattle.jm_wire.specs.Heads.{FitsNote};
ghost use Rattle.jm_reader.specs.Chapter.{Reads, chapter};
ghost use Rattle.jm_reader.specs.ChapterN.{off_log, off_octet, off_logs, note_count, off_count, n_read};
ghost use Rattle.jm_reader.specs.Pairs.{note_said};

use crate::faults::JournalFault;
use crate::logs::{Log, LogKind, Logs};
use crate::pairs::{PairKind, read_pairs};
use jm_cmds::{Channel, D7, ReadError};
use jm_wire::NoteHead;
use std::alloc::AllocError;

/// What a log says: Y VELOCITY. A velocity of 0 is told as it stands; the note doesn't sound then.
pub(crate) fn said(channel: Channel, note: D7, second: u8) -> LogKind
    ensures { result ≡ note_said channel note second }
{
    LogKind::NoteOn {
        channel,
        note,
        velocity: D7::low(second),
        soon: second >= 128,
    }
}

/// Released notes are told with this channel, and are all fresh or none.
#[derive(Clone, Copy)]
struct Released {
    channel: Channel,
    fresh: bool,
}

impl Released {
    /// Adds a note whose bit is set.
    fn push(&self, note: u8, is_off: bool, logs: &mut Logs) -> Result<(), AllocError>
        requires { note < 128 }
        ensures { IfOk result (λ _. logs.new ≡ logs.old ++ off_log self.now.channel self.now.fresh note is_off) }
    {
        if !is_off {
            return Ok(());
        }
        logs.push(Log {
            fresh: self.fresh,
            what: LogKind::NoteOff {
                channel: self.channel,
                note: D7::low(note),
            },
        })
    }

    /// Adds those of eight notes whose bits are set, the first of them by the high bit.
    fn push_octet(&self, note: u8, octet: u8, logs: &mut Logs) -> Result<(), AllocError>
        requires { note + 7 < 128 }
        ensures { IfOk result (λ _. logs.new ≡ logs.old ++ off_octet self.now.channel self.now.fresh note octet) }
    {
        self.push(note, octet / 128 % 2 == 1, logs)?;
        self.push(note + 1, octet / 64 % 2 == 1, logs)?;
        self.push(note + 2, octet / 32 % 2 == 1, logs)?;
        self.push(note + 3, octet / 16 % 2 == 1, logs)?;
        self.push(note + 4, octet / 8 % 2 == 1, logs)?;
        self.push(note + 5, octet / 4 % 2 == 1, logs)?;
        self.push(note + 6, octet / 2 % 2 == 1, logs)?;
        self.push(note + 7, octet / 1 % 2 == 1, logs)?;
        Ok(())
    }

    /// Adds the notes whose bits are set in these octets, of which the first bit is for the note `first`.
    fn push_all(&self, first: u8, octets: &[u8], logs: &mut Logs) -> Result<(), AllocError>
        requires { first + 8 * length octets.now ≤ 128 }
        ensures { IfOk result (λ _. logs.new ≡ logs.old ++ off_logs self.now.channel self.now.fresh first octets.now) }
    {
        let mut note = first;
        for octet in octets {
            self.push_octet(note, *octet, logs)?;
            note += 8;
        }
        Ok(())
    }
}

/// How many note logs there are: LEN, but 128 for 127 where LOW is 15 and HIGH is 0.
fn note_count(head: &NoteHead) -> usize
    requires { FitsNote head.now }
    ensures value { result ≡ note_count head.now }
    ensures bound { result ≤ 128 }
{
    if head.len == 127 && head.low == 15 && head.high == 0 {
        return 128;
    }
    usize::from(head.len)
}

/// How many octets OFFBITS has: none where LOW is over HIGH.
fn off_count(head: &NoteHead) -> usize
    requires { FitsNote head.now }
    ensures value { result ≡ off_count head.now }
    ensures bound { head.now.low + result ≤ 16 }
{
    if head.high < head.low {
        return 0;
    }
    usize::from(head.high + 1 - head.low)
}

/// Reads the chapter at the front of these octets, which stand at `place`, and tells how many octets it has.
pub(crate) fn read(
    body: &[u8],
    place: usize,
    channel: Channel,
    logs: &mut Logs,
) -> Result<usize, ReadError<JournalFault>>
    ensures value { Reads result logs.new (chapter place logs.old (n_read channel body.now)) }
    ensures used { IfOk result (λ used. used ≤ length body.now) }
{
    let [first, second, rest @ ..] = body else {
        return Err(ReadError::Fault(JournalFault::Inside(place)));
    };
    let head = NoteHead::unpack([*first, *second]);
    let struck = 2 * note_count(&head);
    let size = struck + off_count(&head);
    if rest.len() < size {
        return Err(ReadError::Fault(JournalFault::Inside(place)));
    }
    let released = Released {
        channel,
        fresh: !head.b,
    };
    released.push_all(8 * head.low, &rest[struck..size], logs)?;
    read_pairs(PairKind::Notes, &rest[..struck], channel, logs)?;
    Ok(size + 2)
}
