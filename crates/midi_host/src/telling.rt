//! What is told of a served session.

ghost use Rattle.std.specs.Prelude.{◌≡◌, ◌≤◌};
ghost use Rattle.midi_host.specs.Counts.{counts_of};
ghost use Rattle.midi_host.specs.ServedLine.{served_line};
ghost use Rattle.midi_host.specs.Serve.{Told};

use super::counting::{counts_of, write_served};
use super::writing::write_all;
use jm_book::{Config, Step};
use jm_edge::Sink;
use jm_wire::Octets;
use std::alloc::Global;

/// The octets that the longest line needs.
const ROOM: usize = 160;

/// Why nothing was told, or not all.
#[derive(Clone, Copy, Debug, PartialEq, Eq)]
pub enum TellFault {
    /// There was no memory.
    NoMemory,
    /// A write failed.
    WriteFailed,
}

/// Writes the line that is told of a tape of this configuration: what is counted on it, and how many sends failed. At `NoMemory`
/// nothing was written, at `WriteFailed` a front of the line.
pub fn tell<K: Sink>(
    config: &Config,
    tape: &[Step],
    send_faults: u64,
    sink: &mut K,
    alloc: Global,
) -> Result<(), TellFault>
    ensures told { Told result (served_line (counts_of config.now tape.now) send_faults)
        (record { written = K.written sink.old; faults = K.faults sink.old })
        (record { written = K.written sink.new; faults = K.faults sink.new }) }
    ensures counted { K.faults sink.old ≤ K.faults sink.new }
{
    let Ok(mut out) = Octets::with_room(ROOM, alloc) else {
        return Err(TellFault::NoMemory);
    };
    let Ok(counts) = counts_of(config, tape, alloc) else {
        return Err(TellFault::NoMemory);
    };
    write_served(counts, send_faults, &mut out);
    match write_all(sink, out.as_slice()) {
        Ok(()) => Ok(()),
        Err(_) => Err(TellFault::WriteFailed),
    }
}
