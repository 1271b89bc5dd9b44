//! One log of Chapter X (RFC 6295, B.5.1, Figure B.5.1).

ghost use Rattle.std.specs.Prelude.{◌≡◌, ◌≤◌, ◌+◌, ◌<◌, ◌^◌, length};
ghost use Rattle.jm_wire.specs.Octets.{Appends};
ghost use Rattle.jm_cmds.specs.Data.{IsSysex};
ghost use Rattle.ch_sysex.specs.ChapterX.{last_marked, d_bit, log_text, event_text, event_len};

use crate::events::SysexEvent;
use jm_wire::Octets;

/// Appends the data octets, the last one with its high bit set.
fn write_data(octets: &[u8], out: &mut Octets)
    requires data { IsSysex octets.now }
    requires spare { length octets.now ≤ out.old.spare }
    ensures { Appends out.old out.new (last_marked octets.now) }
{
    if let [front @ .., last] = octets {
        out.push_slice(front);
        out.push(128 + *last);
    }
}

/// Appends the log of a message with this S and this COUNT.
fn write_message_log(s: u8, count: u8, octets: &[u8], out: &mut Octets)
    requires data { IsSysex octets.now }
    requires s_fits { s ≤ 128 }
    requires spare { 2 + length octets.now ≤ out.old.spare }
    ensures { Appends out.old out.new (log_text s count octets.now) }
{
    let d = if octets.is_empty() { 0 } else { 8 };
    out.push(s + (0x27 + d));
    out.push(count);
    write_data(octets, out);
}

/// Appends the log of this event, if it has one. `count` is the number of kept messages before it.
pub(crate) fn write_event(event: SysexEvent, s: u8, count: usize, octets: &[u8], out: &mut Octets)
    requires data { IsSysex octets.now }
    requires s_fits { s ≤ 128 }
    requires count_fits { count + 1 < 2 ^ 64 }
    requires spare { event_len event octets.now ≤ out.old.spare }
    ensures { Appends out.old out.new (event_text s count event octets.now) }
{
    match event {
        SysexEvent::Kept => write_message_log(s, ((count + 1) % 256) as u8, octets, out),
        SysexEvent::ResetMessage => write_message_log(s, 0, octets, out),
        SysexEvent::Reset | SysexEvent::Other => {}
    }
}

/// The number of octets of this event's log, 0 where it has none.
pub(crate) fn event_len(event: SysexEvent, octets: &[u8]) -> usize
    requires { IsSysex octets.now }
    ensures number { result ≡ event_len event octets.now }
    ensures bound { result ≤ 65538 }
{
    match event {
        SysexEvent::Kept | SysexEvent::ResetMessage => 2 + octets.len(),
        SysexEvent::Reset | SysexEvent::Other => 0,
    }
}
