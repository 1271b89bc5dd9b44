//! What a served session comes to.

ghost use Rattle.std.specs.Prelude.{◌≡◌};
ghost use Rattle.midi_host.specs.Serve.{if_full, or_worse};

use jm_serve::WorkEnd;

/// What a served session came to, before anything was told of it.
#[derive(Clone, Copy, Debug, PartialEq, Eq)]
pub enum Verdict {
    /// No receive failed, no worker was without memory, and the tape isn't full.
    Whole,
    /// The tape has as many steps as it takes.
    Full,
    /// A receive failed.
    PortFault,
    /// There was no memory.
    NoMemory,
}

impl Verdict {
    /// What the tape comes to.
    pub fn of_tape(full: bool) -> Verdict
        ensures { result ≡ if_full full }
    {
        if full { Verdict::Full } else { Verdict::Whole }
    }

    /// What this comes to with the end of a worker: want of memory goes before a receive that failed, and that before a full
    /// tape.
    pub fn with_end(self, end: WorkEnd) -> Verdict
        ensures { result ≡ or_worse end self }
    {
        match end {
            WorkEnd::NoMemory => Verdict::NoMemory,
            WorkEnd::RecvFailed => match self {
                Verdict::NoMemory => Verdict::NoMemory,
                Verdict::Whole | Verdict::Full | Verdict::PortFault => Verdict::PortFault,
            },
            WorkEnd::Made | WorkEnd::RecordFull => self,
        }
    }
}
