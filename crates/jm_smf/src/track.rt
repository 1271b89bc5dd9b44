//! Reading a track.

ghost use Rattle.std.specs.Prelude.{◌≡◌, ◌+◌, ◌*◌, ◌<◌, ◌≤◌, ◌^◌, ◌++◌, length, OnOk};
ghost use Rattle.jm_section.specs.Reading.{GivesBy};
ghost use Rattle.jm_smf.specs.Reading.{timed_at, nothing_before, track_read};

use crate::before::Before;
use crate::event::read_event;
use crate::fault::FileFault;
use crate::list::Commands;
use crate::timed::Timed;
use jm_cmds::ReadError;
use jm_wire::behind;
use std::alloc::{AllocError, Global};

/// Appends commands, all at this tick.
fn append_at(tick: u64, commands: Commands, list: &mut Vec<Timed>) -> Result<(), AllocError>
    ensures { OnOk result (list.new.items ≡ list.old.items ++ timed_at tick commands) }
{
    for command in commands.items {
        list.push(Timed { tick, command })?;
    }
    Ok(())
}

/// The commands of a track whose first octet stands at `place`.
pub(crate) fn read_track(
    b: &[u8],
    place: usize,
    alloc: Global,
) -> Result<Vec<Timed>, ReadError<FileFault>>
    requires { place + length b.now < 2 ^ 33 }
    ensures { GivesBy (λ list. list.items) result (track_read (length b.now) place 0 nothing_before b.now) }
{
    let mut list = Vec::new(alloc);
    let mut rest = b;
    let mut at = place;
    let mut tick: u64 = 0;
    let mut before = Before {
        running: None,
        unfinished: false,
    };
    for _ in 0..b.len() {
        match read_event(rest, at, before, alloc)? {
            None => return Ok(list),
            Some((delta, heard)) => {
                tick += u64::from(delta);
                at += heard.used;
                rest = behind(rest, heard.used);
                before = heard.after;
                append_at(tick, heard.commands, &mut list)?;
            }
        }
    }
    Err(ReadError::Fault(FileFault::Short(at)))
}
