//! The channel journals (RFC 6295, section 5, Figure 9).

ghost use Rattle.std.specs.Prelude.{◌≡◌, ◌+◌, ◌^◌, ◌≤◌, length, drop, IfOk};
ghost use Rattle.jm_wire.specs.Heads.{FitsChannel};
ghost use Rattle.jm_reader.specs.Chapter.{Reads, Leaves, chapter};
ghost use Rattle.jm_reader.specs.ChannelJournal.{is_flagged, chapter_read, flagged_read, chapters_read, head_read, inside_read, channel_read};

use crate::faults::JournalFault;
use crate::logs::Logs;
use crate::{a, c, e, m, n, p, t, w};
use jm_cmds::{Channel, ReadError};
use jm_wire::{ChannelHead, behind};

/// The chapters of a channel journal, by their letters.
#[derive(Clone, Copy, PartialEq, Eq, Debug)]
enum ChannelChapter {
    P,
    C,
    M,
    W,
    N,
    E,
    T,
    A,
}

/// The order in which the chapters stand.
const ORDER: [ChannelChapter; 8] = [
    ChannelChapter::P,
    ChannelChapter::C,
    ChannelChapter::M,
    ChannelChapter::W,
    ChannelChapter::N,
    ChannelChapter::E,
    ChannelChapter::T,
    ChannelChapter::A,
];

/// Whether a header tells that a chapter is there.
fn is_flagged(head: &ChannelHead, which: &ChannelChapter) -> bool
    ensures { result ≡ is_flagged head.now which.now }
{
    match which {
        ChannelChapter::P => head.p,
        ChannelChapter::C => head.c,
        ChannelChapter::M => head.m,
        ChannelChapter::W => head.w,
        ChannelChapter::N => head.n,
        ChannelChapter::E => head.e,
        ChannelChapter::T => head.t,
        ChannelChapter::A => head.a,
    }
}

/// Reads a chapter at the front of these octets, which stand at `place`, and tells how many octets it has.
#[tactic(auto, unfolding(crate::specs::ChannelJournal::chapter_read))]
fn read_chapter(
    which: &ChannelChapter,
    body: &[u8],
    place: usize,
    channel: Channel,
    logs: &mut Logs,
) -> Result<usize, ReadError<JournalFault>>
    ensures value { Reads result logs.new (chapter place logs.old (chapter_read channel which.now body.now)) }
    ensures used { IfOk result (λ used. used ≤ length body.now) }
{
    match which {
        ChannelChapter::P => p::read(body, place, channel, logs),
        ChannelChapter::C => c::read(body, place, channel, logs),
        ChannelChapter::M => m::read(body, place, channel, logs),
        ChannelChapter::W => w::read(body, place, channel, logs),
        ChannelChapter::N => n::read(body, place, channel, logs),
        ChannelChapter::E => e::read(body, place, channel, logs),
        ChannelChapter::T => t::read(body, place, channel, logs),
        ChannelChapter::A => a::read(body, place, channel, logs),
    }
}

/// The channel of a journal.
fn channel_of(head: &ChannelHead) -> Channel
    requires { FitsChannel head.now }
    ensures { result ≡ head.now.chan }
{
    Channel::low(head.chan)
}

/// Reads a chapter where the header tells that it is there.
fn read_flagged(
    which: &ChannelChapter,
    head: &ChannelHead,
    body: &[u8],
    place: usize,
    logs: &mut Logs,
) -> Result<usize, ReadError<JournalFault>>
    requires { FitsChannel head.now }
    ensures value { Reads result logs.new (chapter place logs.old (flagged_read head.now which.now body.now)) }
    ensures used { IfOk result (λ used. used ≤ length body.now) }
{
    if !is_flagged(head, which) {
        return Ok(0);
    }
    read_chapter(which, body, place, channel_of(head), logs)
}

/// Reads these chapters from the octets, which stand at `place`.
fn read_chapters(
    chapters: &[ChannelChapter],
    head: &ChannelHead,
    octets: &[u8],
    place: usize,
    logs: &mut Logs,
) -> Result<(), ReadError<JournalFault>>
    requires fits { FitsChannel head.now }
    requires near { place + length octets.now ≤ 2 ^ 32 }
    ensures { Leaves result logs.new (chapters_read head.now chapters.now place logs.old octets.now) }
{
    let mut rest = octets;
    let mut at = place;
    for which in chapters {
        let used = read_flagged(which, head, rest, at, logs)?;
        rest = behind(rest, used);
        at += used;
    }
    Ok(())
}

/// Reads what stands behind a header, inside the LENGTH.
fn read_inside(
    head: &ChannelHead,
    octets: &[u8],
    place: usize,
    logs: &mut Logs,
) -> Result<(), ReadError<JournalFault>>
    requires fits { FitsChannel head.now }
    requires near { place + length octets.now ≤ 2 ^ 32 }
    ensures { Leaves result logs.new (inside_read head.now place logs.old octets.now) }
{
    if head.h {
        return Ok(());
    }
    read_chapters(&ORDER, head, octets, place, logs)
}

/// The header at the front of these octets, which stand at `place`.
fn read_head(b: &[u8], place: usize) -> Result<ChannelHead, JournalFault>
    ensures value { result ≡ head_read place b.now }
    ensures within { IfOk result (λ head. (3 ≤ head.length) × (head.length ≤ length b.now) × FitsChannel head) }
{
    let [first, second, third, ..] = b else {
        return Err(JournalFault::Short(place));
    };
    let head = ChannelHead::unpack([*first, *second, *third]);
    if b.len() < usize::from(head.length) {
        return Err(JournalFault::Short(place));
    }
    if head.length < 3 {
        return Err(JournalFault::Inside(place));
    }
    Ok(head)
}

/// Reads the channel journal at the front of these octets, which stand at `place`, and tells its LENGTH. `Short(place)`
/// comes where they are fewer than three or end before the LENGTH does, then `Inside(place)` where the LENGTH is less
/// than 3, then `Inside` with the place of the first chapter that passes the LENGTH.
#[tactic(auto, unfolding(crate::specs::ChannelJournal::channel_read))]
pub(crate) fn read_channel(
    b: &[u8],
    place: usize,
    logs: &mut Logs,
) -> Result<usize, ReadError<JournalFault>>
    requires { place ≤ 2 ^ 31 }
    ensures value { Reads result logs.new (channel_read place logs.old b.now) }
    ensures used { IfOk result (λ used. (3 ≤ used) × (used ≤ length b.now) × (used ≤ 1023)) }
{
    let head = match read_head(b, place) {
        Ok(head) => head,
        Err(fault) => return Err(ReadError::Fault(fault)),
    };
    let length = usize::from(head.length);
    read_inside(&head, &b[3..length], place + 3, logs)?;
    Ok(length)
}
