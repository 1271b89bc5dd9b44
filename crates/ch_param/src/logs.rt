//! The logs of Chapter M.

ghost use Rattle.std.specs.Prelude.{ℕ, ◌≡◌, ◌+◌, ◌*◌, ◌<◌, ◌≤◌, true, false, length, option_to_list};
ghost use Rattle.std.specs.List.{list_any};
ghost use Rattle.jm_wire.specs.Octets.{Appends};
ghost use Rattle.jm_cmds.specs.Param.{same_param};
ghost use Rattle.ch_param.specs.ChapterM.{Entered, coded_half, entered, entered_log, fresh_among, half_flag, param_log, param_logs, session_places};

use crate::halves::coded_half;
use crate::walk::next_entered;
use jm_cmds::{Channel, D7, Param, Selection, Sent};
use jm_wire::Octets;

/// A parameter with its coded halves.
#[derive(Clone, Copy)]
pub(crate) struct Log {
    pub(crate) param: Param,
    pub(crate) high: Option<D7>,
    pub(crate) low: Option<D7>,
}

impl Log {
    /// The log of this parameter in a session of these places.
    fn of(history: &[Sent], channel: Channel, checkpoint: u64, param: Param) -> Log
        ensures param { result.param ≡ param }
        ensures high { result.high ≡ coded_half channel checkpoint (session_places channel history.now) param true }
        ensures low { result.low ≡ coded_half channel checkpoint (session_places channel history.now) param false }
    {
        Log {
            param,
            high: coded_half(history, channel, checkpoint, &param, true),
            low: coded_half(history, channel, checkpoint, &param, false),
        }
    }

    /// The number of the log's octets, from 3 to 5.
    pub(crate) fn len(&self) -> usize
        ensures number { (s : ℕ) → result ≡ length (param_log s self.now.param self.now.high self.now.low) }
        ensures bound { result ≤ 5 }
    {
        3 + half_len(self.high) + half_len(self.low)
    }

    /// The third octet: J and K say which halves are there, and V is 1.
    fn flags(&self) -> u8
        ensures { result ≡ half_flag 128 self.now.high + half_flag 64 self.now.low + 2 }
    {
        let j = if self.high.is_some() { 128 } else { 0 };
        let k = if self.low.is_some() { 64 } else { 0 };
        j + k + 2
    }

    /// Appends the log, with this S as the high bit of its first octet.
    pub(crate) fn write(&self, s: u8, out: &mut Octets)
        requires s_fits { s ≤ 128 }
        requires spare { length (param_log s self.now.param self.now.high self.now.low) ≤ out.old.spare }
        ensures { Appends out.old out.new (param_log s self.now.param self.now.high self.now.low) }
    {
        let q = if self.param.nrpn { 128 } else { 0 };
        out.push(s + self.param.low.get());
        out.push(q + self.param.high.get());
        out.push(self.flags());
        write_half(self.high, out);
        write_half(self.low, out);
    }
}

/// The number of octets that a half takes.
fn half_len(half: Option<D7>) -> usize
    ensures number { result ≡ length (option_to_list half) }
    ensures bound { result ≤ 1 }
{
    if half.is_some() { 1 } else { 0 }
}

/// Appends a half, if it is there.
fn write_half(half: Option<D7>, out: &mut Octets)
    requires { length (option_to_list half) ≤ out.old.spare }
    ensures { Appends out.old out.new (option_to_list half) }
{
    if let Some(value) = half {
        out.push(value.get());
    }
}

/// How many parameters are coded.
pub(crate) fn count(history: &[Sent], channel: Channel, checkpoint: u64) -> usize
    ensures { result ≡ length (entered channel checkpoint (session_places channel history.now)) }
{
    let mut count = 0;
    let mut selection = Selection::none();
    let mut rest = history;
    while let Some((_, _, behind, later)) = next_entered(&selection, rest, channel, checkpoint) {
        count += 1;
        selection = behind;
        rest = later;
    }
    count
}

/// Whether this parameter is coded.
pub(crate) fn has(history: &[Sent], channel: Channel, checkpoint: u64, param: &Param) -> bool
    ensures { result ≡ list_any (λ (e : Entered). same_param param.now e.param) (entered channel checkpoint (session_places channel history.now)) }
{
    let mut selection = Selection::none();
    let mut rest = history;
    while let Some((other, _, behind, later)) = next_entered(
        &selection, rest, channel, checkpoint,
    ) {
        if param.is(&other) {
            return true;
        }
        selection = behind;
        rest = later;
    }
    false
}

/// Whether a parameter is coded that was last entered in the packet before this one.
pub(crate) fn is_fresh(history: &[Sent], channel: Channel, checkpoint: u64, packet: u64) -> bool
    ensures { result ≡ fresh_among packet (entered channel checkpoint (session_places channel history.now)) }
{
    let mut selection = Selection::none();
    let mut rest = history;
    while let Some((_, place, behind, later)) = next_entered(
        &selection, rest, channel, checkpoint,
    ) {
        if place.is_fresh(packet) {
            return true;
        }
        selection = behind;
        rest = later;
    }
    false
}

/// The number of octets of all logs.
pub(crate) fn logs_len(history: &[Sent], channel: Channel, checkpoint: u64) -> usize
    requires { length (entered channel checkpoint (session_places channel history.now)) ≤ 16 }
    ensures number { (packet : ℕ) → result ≡ length (param_logs channel checkpoint packet (session_places channel history.now)) }
    ensures bound { result ≤ 80 }
{
    let mut len = 0;
    let mut selection = Selection::none();
    let mut rest = history;
    while let Some((param, _, behind, later)) = next_entered(
        &selection, rest, channel, checkpoint,
    ) {
        len += Log::of(history, channel, checkpoint, param).len();
        selection = behind;
        rest = later;
    }
    len
}

/// Appends all logs.
pub(crate) fn write_parameter_logs(
    history: &[Sent],
    channel: Channel,
    checkpoint: u64,
    packet: u64,
    out: &mut Octets,
)
    requires { length (param_logs channel checkpoint packet (session_places channel history.now)) ≤ out.old.spare }
    ensures { Appends out.old out.new (param_logs channel checkpoint packet (session_places channel history.now)) }
{
    let mut selection = Selection::none();
    let mut rest = history;
    while let Some((param, place, behind, later)) = next_entered(
        &selection, rest, channel, checkpoint,
    ) {
        Log::of(history, channel, checkpoint, param).write(place.s_bit(packet), out);
        selection = behind;
        rest = later;
    }
}
