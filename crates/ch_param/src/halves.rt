//! The halves of a parameter's value.

ghost use Rattle.std.specs.Prelude.{◌≡◌};
ghost use Rattle.ch_param.specs.Event.{placed};
ghost use Rattle.ch_param.specs.ChapterM.{coded_half, session_places};
ghost use Rattle.ch_param.specs.HalfLaws.{half_step};

use crate::events::ParamEvent;
use crate::walk::{event_at, selection_behind};
use jm_cmds::{Channel, D7, Param, Selection, Sent, first_place};

/// What is coded of a half of this parameter behind a place with this event, if `half` is coded before it.
fn half_behind(
    half: Option<D7>,
    event: ParamEvent,
    param: &Param,
    high: bool,
    is_coded: bool,
) -> Option<D7>
    ensures { result ≡ half_step param.now high half is_coded event }
{
    match event {
        ParamEvent::Entry {
            param: other,
            high: other_high,
            value,
        } => {
            if param.is(&other) && high == other_high {
                return if is_coded { Some(value) } else { None };
            }
            half
        }
        ParamEvent::Cleared => None,
        ParamEvent::Other => half,
    }
}

/// The coded value of the high or the low half of this parameter, in a session of these places.
pub(crate) fn coded_half(
    history: &[Sent],
    channel: Channel,
    checkpoint: u64,
    param: &Param,
    high: bool,
) -> Option<D7>
    ensures { result ≡ coded_half channel checkpoint (session_places channel history.now) param.now high }
{
    let mut half = None;
    let mut selection = Selection::none();
    let mut rest = history;
    while let Some((place, later)) = first_place(rest) {
        let event = event_at(&selection, place, channel);
        half = half_behind(half, event, param, high, place.packet >= checkpoint);
        selection = selection_behind(&selection, place, channel);
        rest = later;
    }
    half
}
