//! Reading a whole section.

ghost use Rattle.std.specs.Prelude.{◌≡◌, ◌+◌, ◌<◌, ◌≤◌, ◌∷◌, length, take, drop, None, Ok, Err, IfOk, IfErr, IfSome};
ghost use Rattle.jm_cmds.specs.Gives.{Gives};
ghost use Rattle.jm_cmds.specs.Reading.{command_read};
ghost use Rattle.jm_section.specs.Grammar.{Read, IsSection};
ghost use Rattle.jm_section.specs.Faults.{IsFault, IsTold};
ghost use Rattle.jm_section.specs.Reading.{GivesBy, head_of, whole, place_less, under_running, exclusive_read, delta_read, what_read, item_read, items_read, head_read, section_read, section_view};

use crate::header::read_head;
use crate::item::{Item, PartKind, What};
use crate::next::running_behind;
use jm_cmds::{CmdFault, Command, ReadError, Sysex, data_len, read_command};
use jm_wire::{behind, read_delta};
use std::alloc::Global;
use thiserror::Error;

/// A command section as it was read.
#[derive(Debug, Drop)]
pub struct Section {
    /// The entries of the MIDI list, in order.
    pub items: Vec<Item>,
    /// Whether a journal follows the section.
    pub journal: bool,
    /// How many octets the section has.
    pub used: usize,
}

/// Why octets begin with no command section. Places are counted from the section's first octet.
/// `Short` is told before all others, and else the fault with the least place.
#[derive(Clone, Copy, PartialEq, Eq, Debug, Error)]
pub enum SectionFault {
    /// The octets end inside the header, or inside the MIDI list whose length it tells.
    #[error("the octets end inside the section")]
    Short,
    /// At this place a data octet begins a command, and there is no running status.
    #[error("no running status for octet {0}")]
    NoStatus(usize),
    /// The command that begins at this place is none. A place inside the fault is counted from the
    /// command's first octet that stands in the list.
    #[error("octet {0} begins no command: {1}")]
    BadCommand(usize, CmdFault),
    /// The delta field that begins at this place is none.
    #[error("octet {0} begins no delta field")]
    BadDelta(usize),
}

/// The command at the front of these octets, which stand at `place`.
fn whole(b: &[u8], place: usize, alloc: Global) -> Result<(What, usize), ReadError<SectionFault>>
    ensures value { Gives result (whole place (command_read b.now)) }
    ensures bound { IfOk result (λ r. r.1 ≤ length b.now) }
{
    match read_command(b, alloc) {
        Ok((command, used)) => Ok((What::Whole(command), used)),
        Err(ReadError::Memory) => Err(ReadError::Memory),
        Err(ReadError::Fault(fault)) => {
            Err(ReadError::Fault(SectionFault::BadCommand(place, fault)))
        }
    }
}

/// The fault of a command with its status octet, told of the command without it.
fn place_less(fault: CmdFault) -> CmdFault
    ensures { result ≡ place_less fault }
{
    match fault {
        CmdFault::BadData(place) => CmdFault::BadData(place.saturating_sub(1)),
        other => other,
    }
}

/// The channel command whose status octet is `status`, and whose data octets stand at the front.
fn behind_status(
    status: u8,
    b: &[u8],
    alloc: Global,
) -> Result<(Command, usize), ReadError<CmdFault>>
    requires { 0 < length b.now }
    ensures value { Gives result (command_read (status ∷ take 2 b.now)) }
    ensures bound { IfOk result (λ r. r.1 ≤ length b.now + 1) }
{
    if b.len() == 1 {
        return read_command(&[status, b[0]], alloc);
    }
    read_command(&[status, b[0], b[1]], alloc)
}

/// The channel command at the front of these octets, which has no status octet of its own.
fn under_running(
    b: &[u8],
    place: usize,
    running: Option<u8>,
    alloc: Global,
) -> Result<(What, usize), ReadError<SectionFault>>
    requires { 0 < length b.now }
    ensures value { Gives result (under_running place running b.now) }
    ensures bound { IfOk result (λ r. r.1 ≤ length b.now) }
{
    let Some(status) = running else {
        return Err(ReadError::Fault(SectionFault::NoStatus(place)));
    };
    match behind_status(status, b, alloc) {
        Ok((command, used)) => Ok((What::Whole(command), used.saturating_sub(1))),
        Err(ReadError::Memory) => Err(ReadError::Memory),
        Err(ReadError::Fault(fault)) => {
            Err(ReadError::Fault(SectionFault::BadCommand(place, place_less(fault))))
        }
    }
}

/// A System Exclusive command, or a segment of one, by F0 or F7 at the front of these octets.
fn exclusive(
    b: &[u8],
    place: usize,
    alloc: Global,
) -> Result<(What, usize), ReadError<SectionFault>>
    requires some { 0 < length b.now }
    requires few { length b.now ≤ 4097 }
    ensures value { Gives result (exclusive_read place b.now) }
    ensures bound { IfOk result (λ r. r.1 ≤ length b.now) }
{
    let rest = &b[1..];
    let count = data_len(rest);
    if count == rest.len() {
        return Err(ReadError::Fault(SectionFault::BadCommand(place, CmdFault::Short)));
    }
    let kind = match rest[count] {
        0xf4 => PartKind::Cancel,
        0xf0 => if b[0] == 0xf0 {
            PartKind::First
        } else {
            PartKind::Middle
        },
        0xf7 => {
            if b[0] == 0xf7 {
                PartKind::Last
            } else {
                return whole(b, place, alloc);
            }
        }
        _ => {
            let fault = CmdFault::BadData(count + 1);
            return Err(ReadError::Fault(SectionFault::BadCommand(place, fault)));
        }
    };
    let octets = Sysex::of(&rest[..count], alloc)?;
    Ok((What::Part { kind, octets }, count + 2))
}

/// What begins with these octets, which stand at `place`, and the number of its octets.
#[tactic(auto, unfolding(crate::specs::Reading::what_read))]
fn read_what(
    b: &[u8],
    place: usize,
    running: Option<u8>,
    alloc: Global,
) -> Result<(What, usize), ReadError<SectionFault>>
    requires some { 0 < length b.now }
    requires few { length b.now ≤ 4097 }
    ensures value { Gives result (what_read place running b.now) }
    ensures bound { IfOk result (λ r. r.1 ≤ length b.now) }
{
    match b[0] {
        0..=0x7f => under_running(b, place, running, alloc),
        0xf0 | 0xf7 => exclusive(b, place, alloc),
        0xf4 | 0xf5 | 0xf9 | 0xfd => Ok((What::Passed(b[0]), 1)),
        _ => whole(b, place, alloc),
    }
}

/// The delta field at `place`, and the number of its octets: none where the list is bare there.
fn delta_at(b: &[u8], place: usize, bare: bool) -> Result<(u32, usize), SectionFault>
    ensures value { result ≡ delta_read place bare b.now }
    ensures bound { IfOk result (λ r. (r.1 ≤ 4) × (r.1 ≤ length b.now)) }
{
    if bare {
        return Ok((0, 0));
    }
    match read_delta(b) {
        Ok(read) => Ok(read),
        Err(_) => Err(SectionFault::BadDelta(place)),
    }
}

/// The next entry of a list and the number of its octets, or `None` where the list ends.
#[tactic(auto, unfolding(crate::specs::Reading::item_read))]
fn read_item(
    b: &[u8],
    place: usize,
    bare: bool,
    running: Option<u8>,
    alloc: Global,
) -> Result<Option<(Item, usize)>, ReadError<SectionFault>>
    requires { place + length b.now ≤ 4097 }
    ensures value { Gives result (item_read place bare running b.now) }
    ensures bound { IfOk result (λ next. IfSome next (λ r. r.1 ≤ length b.now)) }
{
    if b.is_empty() {
        return Ok(None);
    }
    let (delta, lead) = match delta_at(b, place, bare) {
        Ok(read) => read,
        Err(fault) => return Err(ReadError::Fault(fault)),
    };
    if lead == b.len() {
        return Ok(None);
    }
    let (what, used) = read_what(&b[lead..], place + lead, running, alloc)?;
    Ok(Some((Item { delta, what }, lead + used)))
}

/// The entries of a MIDI list that stands at `place`.
fn read_items(
    list: &[u8],
    place: usize,
    bare: bool,
    alloc: Global,
) -> Result<Vec<Item>, ReadError<SectionFault>>
    requires at_front { place ≤ 2 }
    requires short { length list.now ≤ 4095 }
    ensures { GivesBy (λ items. items.items) result (items_read (length list.now) place bare None list.now) }
{
    let mut items = Vec::new(alloc);
    let mut rest = list;
    let mut at = place;
    let mut bare = bare;
    let mut running = None;
    for _ in 0..list.len() {
        match read_item(rest, at, bare, running, alloc)? {
            None => return Ok(items),
            Some((item, used)) => {
                running = running_behind(running, &item.what);
                items.push(item)?;
                rest = behind(rest, used);
                at += used;
                bare = false;
            }
        }
    }
    Ok(items)
}

/// The command section at the front of `b`.
#[tactic(auto, unfolding(crate::specs::Reading::section_read))]
fn section_at(b: &[u8], alloc: Global) -> Result<Section, ReadError<SectionFault>>
    ensures { GivesBy section_view result (section_read b.now) }
{
    let head = match read_head(b) {
        Ok(head) => head,
        Err(fault) => return Err(ReadError::Fault(fault)),
    };
    let used = head.size + head.len;
    if b.len() < used {
        return Err(ReadError::Fault(SectionFault::Short));
    }
    let items = read_items(&b[head.size..used], head.size, head.bare, alloc)?;
    Ok(Section {
        items,
        journal: head.journal,
        used,
    })
}

/// The command section at the front of `b`. What follows it is not looked at.
///
/// `SectionFault` says when each fault comes: `Short` where the header or the MIDI list ends too soon,
/// before all others, and then the fault with the least place.
pub fn read_section(b: &[u8], alloc: Global) -> Result<Section, ReadError<SectionFault>>
    // What is read stands at the front.
    ensures read { IfOk result (λ s. IsSection b.now (section_view s)) }
    // What stands at the front is read, unless memory is refused.
    ensures only { (section : Read) → IsSection b.now section → GivesBy section_view result (Ok section) }
    // The fault that is told is the first one.
    ensures told { IfErr result (IsTold b.now) }
    // The first fault is told, unless memory is refused.
    ensures faults { (fault : SectionFault) → IsFault b.now fault → GivesBy section_view result (Err fault) }

    ensures exact { GivesBy section_view result (section_read b.now) }
{
    section_at(b, alloc)
}
