//! Which places Chapter X codes.

ghost use Rattle.std.specs.Prelude.{◌≡◌, ◌+◌, ◌<◌, ◌^◌, ◌&&◌, if◌then◌else◌, nat_le};
ghost use Rattle.std.specs.List.{list_any};
ghost use Rattle.jm_cmds.specs.Control.{is_reset};
ghost use Rattle.ch_sysex.specs.declared.events.SysexEvent.TheVariants.{Other};
ghost use Rattle.ch_sysex.specs.SysexEvent.{event_at, is_logged, resets, sysex_ends, count_after};

use crate::events::{SysexEvent, is_logged, sysex_event};
use jm_cmds::Sent;

/// Whether one of the later places is a Reset State command.
fn is_reset_later(later: &[Sent]) -> bool
    ensures { result ≡ list_any resets later.now }
{
    later.iter().any(|after| after.command.is_reset())
}

/// Whether this event's log is ended by one of the later places.
fn is_called_off(event: SysexEvent, later: &[Sent]) -> bool
    ensures { result ≡ (is_logged event && list_any resets later.now) }
{
    is_logged(event) && is_reset_later(later)
}

/// What is coded of this place's event behind the later places: itself, or `Other` where one of them ends
/// it or where it is older than the checkpoint.
pub(crate) fn coded_event(place: &Sent, later: &[Sent], checkpoint: u64) -> SysexEvent
    ensures { result ≡ (if list_any (sysex_ends place.now) later.now then Other
        else (if nat_le checkpoint place.now.packet then event_at place.now else Other)) }
{
    let event = sysex_event(&place.command);
    if place.packet < checkpoint {
        return SysexEvent::Other;
    }
    if is_called_off(event, later) {
        return SysexEvent::Other;
    }
    event
}

/// How many kept messages came since the last Reset State command, with this event.
pub(crate) fn count_after(count: usize, event: SysexEvent) -> usize
    requires { count + 1 < 2 ^ 64 }
    ensures { result ≡ count_after count event }
{
    match event {
        SysexEvent::Kept => count + 1,
        SysexEvent::ResetMessage | SysexEvent::Reset => 0,
        SysexEvent::Other => count,
    }
}
