//! What the header of a list of logs stands on.

ghost use Rattle.std.specs.Prelude.{◌≡◌, ◌+◌, ◌-◌, ◌≤◌, ◌<◌, ◌^◌, ◌||◌, ◌&&◌, false, length};
ghost use Rattle.jm_cmds.specs.History.{standing};
ghost use Rattle.jm_cmds.specs.Sent.{s_of, is_fresh};
ghost use Rattle.jm_chapter.specs.Logs.{logs_in, has_log, log_count, has_fresh, listed_size};

use crate::listed::Listed;
use crate::log::PlaceLogs;
use crate::places::next_standing;
use jm_cmds::{Sent, s_of};

/// How many logs there are, and whether one is of the packet before.
#[derive(Clone, Copy, Drop)]
pub struct Tally {
    pub logs: usize,
    pub fresh: bool,
}

impl Tally {
    /// No log at all.
    fn empty() -> Tally
        ensures logs { result.logs ≡ 0 }
        ensures fresh { result.fresh ≡ false }
    {
        Tally {
            logs: 0,
            fresh: false,
        }
    }

    /// Counts the logs of one more place. `is_fresh` says whether the place is of the packet before.
    fn add(self, logs: &PlaceLogs, is_fresh: bool) -> Tally
        requires { self.logs + 2 < 2 ^ 64 }
        ensures logs { result.logs ≡ self.logs + length (logs_in logs.now) }
        ensures fresh { result.fresh ≡ (self.fresh || (has_log (logs_in logs.now) && is_fresh)) }
    {
        Tally {
            logs: self.logs + logs.len(),
            fresh: self.fresh || logs.has_log() && is_fresh,
        }
    }

    /// The number of the chapter's octets: none without a log, else the header and two for each.
    pub fn size(self) -> usize
        requires { self.logs ≤ 128 }
        ensures number { result ≡ listed_size self.logs }
    {
        if self.logs == 0 {
            return 0;
        }
        1 + 2 * self.logs
    }

    /// The header: S, which is 0 where a log is of the packet before, and LEN, which is the number of logs
    /// minus 1.
    pub fn header(self) -> u8
        requires some { 0 < self.logs }
        requires few { self.logs ≤ 128 }
        ensures { result ≡ s_of self.fresh + (self.logs - 1) }
    {
        s_of(self.fresh) + (self.logs - 1) as u8
    }
}

/// The logs of the items that stand among these places, counted.
pub fn tally_of<C: Listed>(chapter: &C, places: &[Sent], session: &[Sent], packet: u64) -> Tally
    ensures logs { result.logs ≡ log_count (C.logs chapter.now session.now) (standing (C.Items.ends chapter.now) places.now) }
    ensures fresh { result.fresh ≡ has_fresh (C.logs chapter.now session.now) packet (standing (C.Items.ends chapter.now) places.now) }
    ensures few { result.logs ≤ C.most chapter.now }
    ensures size { result.logs ≤ 128 }
{
    let mut tally = Tally::empty();
    let mut rest = places;
    while let Some((place, later)) = next_standing(chapter, rest) {
        let logs = chapter.logs_of(place, session);
        tally = tally.add(&logs, place.is_fresh(packet));
        rest = later;
    }
    tally
}
