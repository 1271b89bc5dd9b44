//! Writing a file.

ghost use Rattle.std.specs.Prelude.{◌≡◌, ◌≤◌, ◌<◌, ◌+◌, ◌-◌, ◌^◌, ◌++◌, length, Some, None, OnOk, IfOk, IfSome};
ghost use Rattle.jm_cmds.specs.Command.{spelling};
ghost use Rattle.jm_wire.specs.Octets.{Appends};
ghost use Rattle.jm_section.specs.Reading.{GivesBy};
ghost use Rattle.jm_smf.specs.File.{lead, event, events, end_of_track, first_tick, first_far, head, file, written};

use crate::fault::SmfFault;
use crate::timed::Timed;
use jm_cmds::{Command, ReadError, Sysex};
use jm_section::write_command;
use jm_wire::{Octets, behind, delta_len, write_delta};
use std::alloc::{AllocError, Global};

/// The most octets of a track, whose length has 32 bits.
const MOST_TRACK: u64 = 4_294_967_295;

/// The tick of the first command; 0 where there is none.
fn first_tick(list: &[Timed]) -> u64
    ensures { result ≡ first_tick list.now }
{
    match list {
        [] => 0,
        [first, ..] => first.tick,
    }
}

/// The first command that is too far behind the one before it.
fn first_far(list: &[Timed]) -> Option<usize>
    ensures { result ≡ first_far 0 (first_tick list.now) list.now }
{
    let mut before = first_tick(list);
    let mut index = 0;
    for timed in list {
        if timed.tick.saturating_sub(before) > 0x0fff_ffff {
            return Some(index);
        }
        before = timed.tick;
        index += 1;
    }
    None
}

/// The number of octets between the delta of an event and the command's own.
#[tactic(auto, unfolding(crate::specs::File::lead))]
fn lead_len(command: &Command) -> usize
    ensures value { result ≡ length (lead command.now) }
    ensures bound { result ≤ 5 }
{
    let status = command.status();
    if status < 0xf0 {
        0
    } else if status == 0xf0 {
        1 + delta_len(command.size() as u64 - 1)
    } else {
        1 + delta_len(command.size() as u64)
    }
}

/// The number of an event's octets.
#[tactic(auto, unfolding(crate::specs::File::event))]
fn event_len(delta: u64, command: &Command) -> usize
    ensures value { result ≡ length (event delta command.now) }
    ensures bound { result ≤ 65547 }
{
    let skipped = if command.status() == 0xf0 { 1 } else { 0 };
    delta_len(delta) + lead_len(command) + (command.size() - skipped)
}

/// The number of the track's octets, or none where it is over 4,294,967,295.
fn track_len(list: &[Timed]) -> Option<u32>
    ensures value { IfSome result (λ len. len ≡ length (events (first_tick list.now) list.now ++ end_of_track)) }
    ensures too_long { result ≡ None → 4294967295 < length (events (first_tick list.now) list.now ++ end_of_track) }
{
    let mut before = first_tick(list);
    let mut len: u64 = 4;
    for timed in list {
        len += event_len(timed.tick.saturating_sub(before), &timed.command) as u64;
        if len > MOST_TRACK {
            return None;
        }
        before = timed.tick;
    }
    Some(len as u32)
}

/// Appends what stands before the spelling of a command.
#[tactic(auto, unfolding(crate::specs::File::lead))]
fn write_lead(command: &Command, out: &mut Octets)
    requires { 5 ≤ out.old.spare }
    ensures { Appends out.old out.new (lead command.now) }
{
    let status = command.status();
    if status < 0xf0 {
        return;
    }
    if status == 0xf0 {
        out.push(0xf0);
        write_delta(command.size() as u32 - 1, out);
    } else {
        out.push(0xf7);
        write_delta(command.size() as u32, out);
    }
}

/// Appends an event. `room` is a buffer that it may fill anew.
#[tactic(auto, unfolding(crate::specs::File::event))]
fn push_event(
    delta: u32,
    command: &Command,
    room: &mut Octets,
    out: &mut Vec<u8>,
) -> Result<(), AllocError>
    requires range { delta < 2 ^ 28 }
    requires room { 65538 ≤ room.old.spare + length room.old.octets }
    ensures room { room.new.spare + length room.new.octets ≡ room.old.spare + length room.old.octets }
    ensures written { OnOk result (out.new.items ≡ out.old.items ++ event delta command.now) }
{
    // that a command has a size says that its numbers are within their bounds
    prove!(command.size() <= 65538);
    room.clear();
    write_delta(delta, room);
    write_lead(command, room);
    out.extend_from_slice(room.as_slice())?;
    room.clear();
    write_command(command, room);
    let skipped = if command.status() == 0xf0 { 1 } else { 0 };
    out.extend_from_slice(behind(room.as_slice(), skipped))?;
    Ok(())
}

/// Appends the events of a list.
fn push_events(list: &[Timed], out: &mut Vec<u8>, alloc: Global) -> Result<(), AllocError>
    requires { first_far 0 (first_tick list.now) list.now ≡ None }
    ensures { OnOk result (out.new.items ≡ out.old.items ++ events (first_tick list.now) list.now) }
{
    let mut room = Octets::with_room(Sysex::MOST + 2, alloc)?;
    let mut before = first_tick(list);
    for timed in list {
        let delta = timed.tick.saturating_sub(before);
        push_event(delta as u32, &timed.command, &mut room, out)?;
        before = timed.tick;
    }
    Ok(())
}

/// The octets before the events of a track with so many octets.
#[tactic(auto, unfolding(crate::specs::File::head))]
fn file_head(len: u32, alloc: Global) -> Result<Octets, AllocError>
    ensures { IfOk result (λ out. out.octets ≡ head len) }
{
    let mut out = Octets::with_room(22, alloc)?;
    out.push_slice(b"MThd");
    out.push_u32(6);
    out.push_u16(0);
    out.push_u16(1);
    out.push_u16(5000);
    out.push_slice(b"MTrk");
    out.push_u32(len);
    Ok(out)
}

/// The whole file of a list whose track has so many octets.
fn file_of(list: &[Timed], len: u32, alloc: Global) -> Result<Vec<u8>, AllocError>
    requires far { first_far 0 (first_tick list.now) list.now ≡ None }
    requires len { len ≡ length (events (first_tick list.now) list.now ++ end_of_track) }
    ensures { IfOk result (λ octets. octets.items ≡ file list.now) }
{
    let mut out = Vec::new(alloc);
    let head = file_head(len, alloc)?;
    out.extend_from_slice(head.as_slice())?;
    push_events(list, &mut out, alloc)?;
    out.extend_from_slice(&[0, 0xff, 0x2f, 0])?;
    Ok(out)
}

/// The file of format 0 whose one track is this list, for ticks that never fall. The first command stands
/// at 0, each later one as far behind the one before it as in the list.
///
/// It is `TooFar` exactly where a command is more than 0x0FFFFFFF ticks behind the one before it, with the
/// first such index; else `TooLong` exactly where the track would have more than 4,294,967,295 octets.
pub fn write_file(list: &[Timed], alloc: Global) -> Result<Vec<u8>, ReadError<SmfFault>>
    ensures { GivesBy (λ octets. octets.items) result (written list.now) }
{
    if let Some(index) = first_far(list) {
        return Err(ReadError::Fault(SmfFault::TooFar { index }));
    }
    let Some(len) = track_len(list) else {
        return Err(ReadError::Fault(SmfFault::TooLong));
    };
    Ok(file_of(list, len, alloc)?)
}
