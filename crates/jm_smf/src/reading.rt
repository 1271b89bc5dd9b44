//! Reading a file.

ghost use Rattle.std.specs.Prelude.{◌≡◌, ◌+◌, ◌<◌, ◌≤◌, ◌^◌, length};
ghost use Rattle.jm_section.specs.Reading.{GivesBy};
ghost use Rattle.jm_smf.specs.Reading.{chunks_read, file_read};

use crate::chunks::{is_track, read_chunk, read_header};
use crate::fault::FileFault;
use crate::timed::Timed;
use crate::track::read_track;
use jm_cmds::ReadError;
use jm_wire::behind;
use std::alloc::Global;

/// The commands of the first track among chunks of which the first one stands at `place`, at most `most` of them.
fn read_chunks(
    b: &[u8],
    place: usize,
    most: usize,
    alloc: Global,
) -> Result<Vec<Timed>, ReadError<FileFault>>
    requires { place + length b.now < 2 ^ 33 }
    ensures { GivesBy (λ list. list.items) result (chunks_read most place b.now) }
{
    let mut rest = b;
    let mut at = place;
    for _ in 0..most {
        let size = match read_chunk(rest, at) {
            Ok(size) => size,
            Err(fault) => return Err(ReadError::Fault(fault)),
        };
        if is_track(rest) {
            return read_track(&rest[8..size], at + 8, alloc);
        }
        rest = behind(rest, size);
        at += size;
    }
    Err(ReadError::Fault(FileFault::Short(at)))
}

/// The commands of the first track of a file of format 0, with their ticks in units of the file's own division.
///
/// `FileFault` says when each fault comes: `NotSmf` before all others, and then the first in order of place.
#[tactic(auto, unfolding(crate::specs::Reading::file_read))]
pub fn read_file(b: &[u8], alloc: Global) -> Result<Vec<Timed>, ReadError<FileFault>>
    requires { length b.now < 2 ^ 33 }
    ensures exact { GivesBy (λ list. list.items) result (file_read b.now) }
{
    let size = match read_header(b) {
        Ok(size) => size,
        Err(fault) => return Err(ReadError::Fault(fault)),
    };
    read_chunks(behind(b, size), size, b.len(), alloc)
}
