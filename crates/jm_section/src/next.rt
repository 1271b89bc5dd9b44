//! One command at the end of a MIDI list.

ghost use Rattle.std.specs.Prelude.{◌≡◌, ◌<◌, ◌≤◌, ◌^◌, length, false, true};
ghost use Rattle.jm_cmds.specs.Command.{is_long};
ghost use Rattle.jm_wire.specs.Octets.{Appends};
ghost use Rattle.jm_section.specs.Grammar.{running_behind};
ghost use Rattle.jm_section.specs.Running.{running_after, is_left_out};
ghost use Rattle.jm_section.specs.Section.{Timed, place_after, place_behind_item, piece, command_text};

use crate::command::{write_command, write_data};
use crate::item::What;
use jm_cmds::Command;
use jm_wire::{Octets, delta_len, write_delta};

/// Where the next command of a MIDI list stands.
#[derive(Clone, Copy, PartialEq, Eq, Debug)]
pub enum Place {
    /// At the front: it has no delta field and carries its status.
    First,
    /// Behind other commands, with the running status that they leave: the status octet that a
    /// channel command may leave out.
    Later(Option<u8>),
}

/// The running status behind a command with this status octet (RFC 6295, section 3.2): a channel
/// command sets it, F0 to F7 end it, F8 to FF leave it.
fn running_after(running: Option<u8>, status: u8) -> Option<u8>
    ensures { result ≡ running_after running status }
{
    if status < 0xf0 {
        Some(status)
    } else if status < 0xf8 {
        None
    } else {
        running
    }
}

/// The running status behind an entry of a list.
pub(crate) fn running_behind(running: Option<u8>, what: &What) -> Option<u8>
    ensures { result ≡ running_behind running what.now }
{
    match what {
        What::Whole(command) => running_after(running, command.status()),
        What::Part { .. } => None,
        What::Passed(octet) => running_after(running, *octet),
    }
}

/// Whether a command with this status octet leaves it out.
fn is_left_out(running: Option<u8>, status: u8) -> bool
    ensures { result ≡ is_left_out running status }
{
    match running {
        None => false,
        Some(before) => before == status && status < 0xf0,
    }
}

impl Place {
    /// The place behind a command that stands at this one.
    pub fn after(self, command: &Command) -> Place
        ensures { result ≡ place_after self command.now }
    {
        match self {
            Place::First => Place::Later(running_after(None, command.status())),
            Place::Later(running) => Place::Later(running_after(running, command.status())),
        }
    }

    /// The place behind an entry that stands at this one.
    pub(crate) fn after_item(self, what: &What) -> Place
        ensures { result ≡ place_behind_item self what.now }
    {
        match self {
            Place::First => Place::Later(running_behind(None, what)),
            Place::Later(running) => Place::Later(running_behind(running, what)),
        }
    }
}

/// Appends a command without its status octet where the running status spares it.
#[tactic(auto, unfolding(crate::specs::Section::command_text))]
fn write_under(running: Option<u8>, command: &Command, out: &mut Octets)
    requires { length (command_text running command.now) ≤ out.old.spare }
    ensures { Appends out.old out.new (command_text running command.now) }
{
    if is_left_out(running, command.status()) {
        write_data(command, out);
    } else {
        write_command(command, out);
    }
}

/// How many octets that is.
#[tactic(auto, unfolding(crate::specs::Section::command_text))]
fn len_under(running: Option<u8>, command: &Command) -> usize
    ensures value { result ≡ length (command_text running command.now) }
    ensures bound { result ≤ 65538 }
    ensures whole { is_long command.now ≡ false → result ≤ 2048 }
{
    if is_left_out(running, command.status()) {
        command.size() - 1
    } else {
        command.size()
    }
}

/// Appends a command to a MIDI list, with its delta field and under the running status, and answers
/// the place behind it. A command at the front has no delta field: its delta is 0.
#[tactic(auto, unfolding(crate::specs::Section::piece))]
pub fn write_next(place: Place, delta: u32, command: &Command, out: &mut Octets) -> Place
    requires range { delta < 2 ^ 28 }
    requires room { length (piece place record { delta = delta; command = command.now }) ≤ out.old.spare }
    ensures written { Appends out.old out.new (piece place record { delta = delta; command = command.now }) }
    ensures after { result ≡ place_after place command.now }
{
    match place {
        Place::First => write_command(command, out),
        Place::Later(running) => {
            write_delta(delta, out);
            write_under(running, command, out);
        }
    }
    place.after(command)
}

/// How many octets [`write_next`] appends, at most 2,052 for a command that isn't long. A delta over 0x0FFFFFFF counts as
/// four octets.
#[tactic(auto, unfolding(crate::specs::Section::piece))]
pub fn next_len(place: Place, delta: u64, command: &Command) -> usize
    ensures value { result ≡ length (piece place record { delta = delta; command = command.now }) }
    ensures bound { result ≤ 65542 }
    ensures whole { is_long command.now ≡ false → result ≤ 2052 }
{
    match place {
        Place::First => command.size(),
        Place::Later(running) => delta_len(delta) + len_under(running, command),
    }
}
