//! What the tests need of files and commands.

use jm_cmds::{Command, ReadError, Sysex, read_command};
use jm_smf::{FileFault, Timed, read_file};
use std::alloc::Global;
use std::test::Fail;

/// A header chunk of format 0 with 480 units for a quarter note, and the name of a track.
const FRONT: &[u8] = b"MThd\x00\x00\x00\x06\x00\x00\x00\x01\x01\xe0MTrk";

/// The file of one track with these octets.
pub(crate) fn file_of(track: &[u8], alloc: Global) -> Result<Vec<u8>, Fail> {
    if track.len() > 90_000 {
        return Err(Fail::from("a track of a test"));
    }
    let mut octets = Vec::new(alloc);
    octets.extend_from_slice(FRONT)?;
    octets.extend_from_slice(&(track.len() as u32).to_be_bytes())?;
    octets.extend_from_slice(track)?;
    Ok(octets)
}

/// The command of these octets at a tick.
pub(crate) fn timed(tick: u64, octets: &[u8], alloc: Global) -> Result<Timed, Fail> {
    match read_command(octets, alloc) {
        Ok((command, _)) => Ok(Timed { tick, command }),
        Err(_) => Err(Fail::from("a command")),
    }
}

/// A message of this many data octets, each of them 1.
pub(crate) fn message(count: usize, alloc: Global) -> Result<Command, Fail> {
    let mut octets = Vec::new(alloc);
    for _ in 0..count {
        octets.push(1)?;
    }
    match Sysex::new(octets.as_slice(), alloc) {
        Ok(message) => Ok(Command::Sysex(message)),
        Err(_) => Err(Fail::from("a message")),
    }
}

/// The commands of these octets at their ticks.
pub(crate) fn list_of(commands: &[(u64, &[u8])], alloc: Global) -> Result<Vec<Timed>, Fail> {
    let mut list = Vec::new(alloc);
    for (tick, octets) in commands {
        list.push(timed(*tick, octets, alloc)?)?;
    }
    Ok(list)
}

/// What a file is read as.
pub(crate) fn read(octets: &[u8], alloc: Global) -> Result<Vec<Timed>, ReadError<FileFault>> {
    if octets.len() > 100_000 {
        return Err(ReadError::Memory);
    }
    read_file(octets, alloc)
}
