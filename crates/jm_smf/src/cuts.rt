//! The commands that a session sent.

ghost use Rattle.std.specs.Prelude.{◌≡◌, ◌≤◌, length, IfOk};
ghost use Rattle.jm_book.specs.Segments.{segments_in};
ghost use Rattle.jm_smf.specs.Cuts.{cut_list};

use crate::timed::Timed;
use jm_book::Step;
use jm_cmds::{Command, LONGEST_WHOLE};
use std::alloc::{AllocError, Global};

/// In how many segments a command is sent (RFC 6295, section 3.2): none where one packet holds it whole, and at most 33.
fn segment_count(command: &Command) -> usize
    ensures number { result ≡ length (segments_in command.now) }
    ensures bound { result ≤ 33 }
{
    match command {
        Command::Sysex(message) => {
            if message.is_long() {
                return message.len().div_ceil(LONGEST_WHOLE);
            }
            0
        }
        _ => 0,
    }
}

/// The commands of all packets that the tape's cuts made, in order, with the ticks that they have in these
/// packets. Commands that are still pending are not among them, nor is a long message whose last segment wasn't sent.
pub fn cut_list(tape: &[Step], alloc: Global) -> Result<Vec<Timed>, AllocError>
    ensures { IfOk result (λ list. list.items ≡ cut_list tape.now) }
{
    let mut list = Vec::new(alloc);
    let mut sent = 0;
    let mut waiting = 0;
    let mut latest = 0;
    for step in tape {
        match step {
            Step::Play { command, tick, .. } => {
                latest = latest.max(*tick);
                waiting += segment_count(command);
                list.push(Timed {
                    tick: latest,
                    command: command.copy(alloc)?,
                })?;
            }
            Step::Cut { tick } => {
                latest = latest.max(*tick);
                // a segment that isn't the last one leaves its command pending
                if waiting > 1 {
                    waiting -= 1;
                } else {
                    sent = list.len();
                    waiting = 0;
                }
            }
            _ => {}
        }
    }
    list.truncate(sent);
    Ok(list)
}
