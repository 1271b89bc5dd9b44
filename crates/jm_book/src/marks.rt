//! The marks of participants, and the reports that move them.

ghost use Rattle.std.specs.Prelude.{◌≡◌, ◌+◌, ◌-◌, ◌%◌, ◌<◌, ◌≤◌};
ghost use Rattle.jm_book.specs.Participants.{distance, report_of, reaches, MovesTo};
ghost use Rattle.jm_book.specs.Answers.{acked_as, acted_as};

use crate::answers::{Acked, Acted};
use crate::participants::Participant;

/// How many numbers 16 bits tell apart.
const ROUND: u32 = 0x1_0000;

/// From this distance on a number of 16 bits lies before a mark.
const HALF_ROUND: u64 = 0x8000;

/// What a report of a joined participant comes to.
#[derive(Clone, Copy, Debug, PartialEq, Eq)]
pub(crate) enum Report {
    /// Its mark moves to this packet.
    Moved { mark: u64 },
    /// The number is the mark's, or before it.
    Old { mark: u64 },
    /// The number is past the last packet that was sent.
    NotSent { last: Option<u64> },
}

/// How far a number of 16 bits is past a mark's low 16 bits.
fn distance_to(mark: u64, seq: u16) -> u64
    ensures value { result ≡ distance mark seq }
    ensures bound { result < 65536 }
{
    let low = (mark % u64::from(ROUND)) as u32;
    u64::from((u32::from(seq) + (ROUND - low)) % ROUND)
}

impl Report {
    /// What a report of this number comes to, where so many packets were sent.
    pub(crate) fn of(packets: u64, one: Participant, seq: u16) -> Report
        ensures report { result ≡ report_of packets one seq }
        ensures mark { MovesTo result (reaches one seq) }
    {
        let past = distance_to(one.mark, seq);
        if past == 0 || past >= HALF_ROUND {
            return Report::Old { mark: one.mark };
        }
        if packets.saturating_sub(one.mark) <= past {
            let last = if packets == 0 {
                None
            } else {
                Some(packets - 1)
            };
            return Report::NotSent { last };
        }
        Report::Moved {
            mark: one.mark + past,
        }
    }

    /// The answer of a report that was made by itself.
    pub(crate) fn acked(self) -> Acked
        ensures { result ≡ acked_as self }
    {
        match self {
            Report::Moved { mark } => Acked::Moved { mark },
            Report::Old { mark } => Acked::Old { mark },
            Report::NotSent { last } => Acked::NotSent { last },
        }
    }

    /// What becomes of a message that reports.
    pub(crate) fn acted(self) -> Acted
        ensures { result ≡ acted_as self }
    {
        match self {
            Report::Moved { mark } => Acted::Moved { mark },
            Report::Old { mark } => Acted::Old { mark },
            Report::NotSent { last } => Acted::NotSent { last },
        }
    }
}
