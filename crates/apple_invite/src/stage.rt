//! How far an invitation has come, with what is kept there.

ghost use Rattle.std.specs.Prelude.{◌≡◌};

use crate::dialed::{EndCause, Phase};

/// A phase with what is known in it. Moments are in units of 100 microseconds.
#[derive(Clone, Copy, Debug, PartialEq, Eq)]
pub enum Stage {
    Fresh,
    /// The control port was asked `tries` times, and is asked again at `due`.
    AskCtl {
        tries: u8,
        due: u64,
    },
    /// The control port said OK for `host`. The data port was asked `tries` times, and is asked again at `due`.
    AskRtp {
        host: u32,
        tries: u8,
        due: u64,
    },
    /// The data port said OK for `host` too. The clocks are compared again at `due`; `asked` is the moment of the
    /// last question that was not answered yet.
    Open {
        host: u32,
        due: u64,
        asked: Option<u64>,
    },
    Closed(EndCause),
}

impl Stage {
    ghost use Rattle.apple_invite.specs.Caller.{phase_of};

    /// The phase alone.
    pub fn phase(self) -> Phase
        ensures { result ≡ phase_of self }
    {
        match self {
            Stage::Fresh => Phase::Fresh,
            Stage::AskCtl { .. } => Phase::AskCtl,
            Stage::AskRtp { .. } => Phase::AskRtp,
            Stage::Open { .. } => Phase::Open,
            Stage::Closed(cause) => Phase::Closed(cause),
        }
    }
}
