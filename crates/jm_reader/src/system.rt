//! The system journal: its header and its chapters (RFC 6295, section 5, Figure 10).

ghost use Rattle.std.specs.Prelude.{◌≡◌, ◌+◌, ◌≤◌, ◌^◌, length, IfOk};
ghost use Rattle.jm_reader.specs.Chapter.{Reads, Leaves, chapter};
ghost use Rattle.jm_reader.specs.SystemJournal.{in_order, is_there, chapter_read, ends_journal, chapters_read, system_read};

use crate::faults::JournalFault;
use crate::logs::Logs;
use crate::{d, f, q, v, x};
use jm_cmds::ReadError;
use jm_wire::{SystemHead, behind};
use std::alloc::Global;

/// A chapter of the system journal.
#[derive(Clone, Copy, PartialEq, Eq, Debug)]
enum Letter {
    D,
    V,
    Q,
    F,
    X,
}

/// Whether the chapter is there.
fn is_there(head: SystemHead, letter: Letter) -> bool
    ensures { result ≡ is_there head letter }
{
    match letter {
        Letter::D => head.d,
        Letter::V => head.v,
        Letter::Q => head.q,
        Letter::F => head.f,
        Letter::X => head.x,
    }
}

/// Reads the chapter at the front of these octets, which stand at `place`, and tells how many octets it has.
fn read_chapter(
    letter: Letter,
    octets: &[u8],
    place: usize,
    logs: &mut Logs,
    alloc: Global,
) -> Result<usize, ReadError<JournalFault>>
    requires { length octets.now ≤ 1023 }
    ensures value { Reads result logs.new (chapter place logs.old (chapter_read letter octets.now)) }
    ensures used { IfOk result (λ used. used ≤ length octets.now) }
{
    match letter {
        Letter::D => d::read(octets, place, logs),
        Letter::V => v::read(octets, place, logs),
        Letter::Q => q::read(octets, place, logs),
        Letter::F => f::read(octets, place, logs),
        Letter::X => x::read(octets, place, logs, alloc),
    }
}

/// Whether what stands behind the chapter at the front of these octets is passed over.
fn ends_journal(letter: Letter, octets: &[u8]) -> bool
    ensures { result ≡ ends_journal letter octets.now }
{
    match letter {
        Letter::D => d::ends(octets),
        Letter::Q => q::ends(octets),
        Letter::V | Letter::F | Letter::X => false,
    }
}

/// Reads the chapters that are there, of which the first stands at `place`.
fn read_chapters(
    head: SystemHead,
    body: &[u8],
    place: usize,
    logs: &mut Logs,
    alloc: Global,
) -> Result<(), ReadError<JournalFault>>
    requires few { length body.now ≤ 1023 }
    requires near { place ≤ 2 ^ 32 }
    ensures { Leaves result logs.new (chapters_read in_order head place logs.old body.now) }
{
    let mut rest = body;
    let mut at = place;
    for letter in [Letter::D, Letter::V, Letter::Q, Letter::F, Letter::X] {
        if is_there(head, letter) {
            let size = read_chapter(letter, rest, at, logs, alloc)?;
            if ends_journal(letter, rest) {
                return Ok(());
            }
            rest = behind(rest, size);
            at += size;
        }
    }
    Ok(())
}

/// Reads the system journal at the front of these octets, which stand at `place`, and tells its LENGTH. It is `Short`
/// where fewer than two octets are there or LENGTH passes the end, else `Inside` where LENGTH is below 2, both at
/// `place`; else the fault of the first chapter that passes LENGTH.
#[tactic(auto, unfolding(crate::specs::SystemJournal::system_read))]
pub(crate) fn read_system(
    b: &[u8],
    place: usize,
    logs: &mut Logs,
    alloc: Global,
) -> Result<usize, ReadError<JournalFault>>
    requires { place ≤ 2 ^ 31 }
    ensures value { Reads result logs.new (system_read place logs.old b.now) }
    ensures used { IfOk result (λ used. (used ≤ 1023) × (used ≤ length b.now)) }
{
    let [first, second, ..] = b else {
        return Err(ReadError::Fault(JournalFault::Short(place)));
    };
    let head = SystemHead::unpack([*first, *second]);
    let length = usize::from(head.length);
    if b.len() < length {
        return Err(ReadError::Fault(JournalFault::Short(place)));
    }
    if length < 2 {
        return Err(ReadError::Fault(JournalFault::Inside(place)));
    }
    read_chapters(head, &b[2..length], place + 2, logs, alloc)?;
    Ok(length)
}
