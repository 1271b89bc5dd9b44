//! Commands one after another.

ghost use Rattle.std.specs.Prelude.{◌≡◌, ◌<◌, length, Ok};
ghost use Rattle.jm_cmds.specs.Gives.{Gives};
ghost use Rattle.jm_smf.specs.Reading.{commands_read};

use crate::fault::FileFault;
use crate::list::Commands;
use jm_cmds::{ReadError, read_command};
use jm_wire::behind;
use std::alloc::Global;

/// The commands that these octets spell one after another, or none where they aren't wholly commands.
pub(crate) fn read_commands(
    text: &[u8],
    alloc: Global,
) -> Result<Option<Commands>, ReadError<FileFault>>
    ensures { Gives result (Ok (commands_read (length text.now) text.now)) }
{
    let mut commands = Commands::new(alloc);
    let mut rest = text;
    for _ in 0..text.len() {
        if rest.is_empty() {
            return Ok(Some(commands));
        }
        match read_command(rest, alloc) {
            Ok((command, used)) => {
                commands.push(command)?;
                rest = behind(rest, used);
            }
            Err(ReadError::Memory) => return Err(ReadError::Memory),
            Err(ReadError::Fault(_)) => return Ok(None),
        }
    }
    if rest.is_empty() {
        return Ok(Some(commands));
    }
    Ok(None)
}
