//! Writing one command.

ghost use Rattle.std.specs.Prelude.{◌≡◌, ◌≤◌, length, drop};
ghost use Rattle.jm_cmds.specs.Command.{spelling};
ghost use Rattle.jm_wire.specs.Octets.{Appends};

use jm_cmds::{Command, Spelled};
use jm_wire::Octets;

/// Appends the octets of a command, its status octet first.
pub fn write_command(c: &Command, out: &mut Octets)
    requires { length (spelling c.now) ≤ out.old.spare }
    ensures { Appends out.old out.new (spelling c.now) }
{
    match c.spelled() {
        Spelled::One(status) => out.push(status),
        Spelled::Two(status, first) => out.push_slice(&[status, first]),
        Spelled::Three(status, first, second) => out.push_slice(&[status, first, second]),
        Spelled::Message(octets) => {
            out.push(0xf0);
            out.push_slice(octets);
            out.push(0xf7);
        }
    }
}

/// Appends the octets of a command behind its status octet.
pub(crate) fn write_data(c: &Command, out: &mut Octets)
    requires { length (drop 1 (spelling c.now)) ≤ out.old.spare }
    ensures { Appends out.old out.new (drop 1 (spelling c.now)) }
{
    match c.spelled() {
        Spelled::One(_) => {}
        Spelled::Two(_, first) => out.push(first),
        Spelled::Three(_, first, second) => out.push_slice(&[first, second]),
        Spelled::Message(octets) => {
            out.push_slice(octets);
            out.push(0xf7);
        }
    }
}
