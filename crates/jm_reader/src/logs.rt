//! What the logs of a journal say.

ghost use Rattle.std.specs.Prelude.{◌≡◌, ◌++◌, ◌∷◌, [], length, take, filter, IfOk};

use jm_cmds::{Channel, D7, Sysex};
use std::alloc::{AllocError, Global};
use std::marker::Model;

/// What one log says.
#[derive(PartialEq, Eq, Debug, Drop)]
pub enum LogKind {
    /// Chapter D: so many System Resets, modulo 128 (RFC 6295, B.1).
    Reset {
        count: u8,
    },
    /// Chapter D: so many Tune Requests, modulo 128.
    Tune {
        count: u8,
    },
    /// Chapter D: this song is selected.
    Song {
        song: D7,
    },
    /// Chapter V: so many Active Sense commands, modulo 128 (RFC 6295, B.2).
    Sensing {
        count: u8,
    },
    /// Chapter Q: where the sequencer is (RFC 6295, B.3). The position is in clocks, 0 to 524,287.
    Sequencer {
        running: bool,
        downbeat: bool,
        position: u32,
    },
    /// Chapter F: what quarter frames have spelled (RFC 6295, B.4). `point` is 0 to 7.
    TimeCode {
        complete: Option<u32>,
        partial: Option<u32>,
        backward: bool,
        point: u8,
    },
    /// Chapter X: a System Exclusive message, with the number that it has among those since the last Reset State
    /// command, modulo 256 (RFC 6295, B.5).
    Sysex {
        count: u8,
        octets: Sysex,
    },
    /// Chapter P: the program of a channel, with its bank where the log has one: high and low half (RFC 6295, A.2).
    Program {
        channel: Channel,
        program: D7,
        bank: Option<(D7, D7)>,
    },
    /// Chapter M: a parameter by its kind and number, and the halves of its value that are coded (RFC 6295, A.4).
    Param {
        channel: Channel,
        nrpn: bool,
        high: D7,
        low: D7,
        entry_high: Option<D7>,
        entry_low: Option<D7>,
    },
    /// Chapter C: a controller's value (RFC 6295, A.3).
    Control {
        channel: Channel,
        number: D7,
        value: D7,
    },
    /// Chapter C: the sustain pedal went up or down so many times, modulo 64.
    Toggle {
        channel: Channel,
        count: u8,
    },
    /// Chapter C: so many commands of a controller, modulo 64.
    Count {
        channel: Channel,
        number: D7,
        count: u8,
    },
    /// Chapter W: the wheel's two octets, low half first (RFC 6295, A.5).
    Wheel {
        channel: Channel,
        first: D7,
        second: D7,
    },
    /// Chapter N: a key that was released (RFC 6295, A.6).
    NoteOff {
        channel: Channel,
        note: D7,
    },
    /// Chapter N: a key that was struck. `soon` says that it is worth playing still. A velocity of 0 says that it
    /// doesn't sound.
    NoteOn {
        channel: Channel,
        note: D7,
        velocity: D7,
        soon: bool,
    },
    /// Chapter E: the release velocity of a key, or with `release` false its reference count (RFC 6295, A.7).
    Extra {
        channel: Channel,
        note: D7,
        release: bool,
        value: D7,
    },
    /// Chapter T: the pressure of a channel (RFC 6295, A.8).
    Pressure {
        channel: Channel,
        value: D7,
    },
    /// Chapter A: the pressure of a key (RFC 6295, A.9).
    Poly {
        channel: Channel,
        note: D7,
        value: D7,
    },
}

/// One log of a journal.
#[derive(PartialEq, Eq, Debug, Drop)]
pub struct Log {
    /// Its S bit is 0 (for a released key, the B bit of Chapter N): it tells of the packet before.
    pub fresh: bool,
    pub what: LogKind,
}

/// The logs of a journal in its order. Contracts see it as their list.
#[derive(Debug, Drop)]
pub struct Logs {
    logs: Vec<Log>,
}

impl Model for Logs {
    ghost use Rattle.std.specs.Prelude.{List};
    ghost use Rattle.jm_reader.specs.declared.logs.Log.{Log};

    ghost Value = { List Log };

    ghost view = { λ logs. logs.logs.items };
}

impl Logs {
    /// No logs.
    pub fn none(alloc: Global) -> Logs
        ensures { result ≡ [] }
    {
        Logs {
            logs: Vec::new(alloc),
        }
    }

    /// Adds one at the end.
    pub(crate) fn push(&mut self, log: Log) -> Result<(), AllocError>
        ensures { IfOk result (λ _. self.new ≡ self.old ++ log ∷ []) }
    {
        self.logs.push(log)?;
        Ok(())
    }

    /// Takes off all but so many from the front.
    pub(crate) fn truncate(&mut self, len: usize)
        ensures { self.new ≡ take len self.old }
    {
        self.logs.truncate(len);
    }

    /// Leaves the logs that tell of the packet before, in their order.
    pub fn keep_fresh(&mut self)
        ensures { self.new ≡ filter (λ log. log.fresh) self.old }
    {
        self.logs.retain(|log| log.fresh);
    }

    /// The logs.
    pub fn as_slice(&self) -> &[Log]
        ensures { result.now ≡ self.now }
    {
        self.logs.as_slice()
    }

    /// How many there are.
    pub fn len(&self) -> usize
        ensures { result ≡ length self.now }
    {
        self.logs.len()
    }
}
