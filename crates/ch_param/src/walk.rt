//! The places of a history, one after another, with the selection before each.

ghost use Rattle.std.specs.Prelude.{◌≡◌, ◌<◌, [], ◌∷◌, MatchOption, length, fold};
ghost use Rattle.std.specs.List.{list_any};
ghost use Rattle.jm_cmds.specs.Selection.{no_selection};
ghost use Rattle.ch_param.specs.Event.{selection_step, placed, event_at, takes_param};
ghost use Rattle.ch_param.specs.ChapterM.{entered};
ghost use Rattle.ch_param.specs.WalkLaws.{coded_param, IsNext};

use crate::events::ParamEvent;
use jm_cmds::{Channel, Param, Selection, Sent, first_place, param_command};

/// The selection behind this place.
pub(crate) fn selection_behind(selection: &Selection, place: &Sent, channel: Channel) -> Selection
    ensures { result ≡ selection_step channel selection.now place.now }
{
    selection.after(param_command(&place.command, channel))
}

/// What this place means where this is selected.
pub(crate) fn event_at(selection: &Selection, place: &Sent, channel: Channel) -> ParamEvent
    ensures { result ≡ event_at channel (selection.now, place.now) }
{
    ParamEvent::of(selection, param_command(&place.command, channel))
}

/// Whether one of the later places, with this selection before them, enters the parameter again or clears it.
fn is_entered_again(param: &Param, before: &Selection, later: &[Sent], channel: Channel) -> bool
    ensures { result ≡ list_any (λ place. takes_param param.now (event_at channel place)) (placed channel before.now later.now) }
{
    let mut selection = *before;
    let mut rest = later;
    while let Some((place, later)) = first_place(rest) {
        if event_at(&selection, place, channel).takes_param(param) {
            return true;
        }
        selection = selection_behind(&selection, place, channel);
        rest = later;
    }
    false
}

/// The parameter whose latest entry is this place, where it is coded.
fn coded_param(
    selection: &Selection,
    place: &Sent,
    later: &[Sent],
    channel: Channel,
    checkpoint: u64,
) -> Option<Param>
    ensures { result ≡ coded_param channel checkpoint (selection.now, place.now) (placed channel (selection_step channel selection.now place.now) later.now) }
{
    if place.packet < checkpoint {
        return None;
    }
    let behind = selection_behind(selection, place, channel);
    match event_at(selection, place, channel) {
        ParamEvent::Entry { param, .. } => {
            if is_entered_again(&param, &behind, later, channel) {
                return None;
            }
            Some(param)
        }
        _ => None,
    }
}

/// The next of these places at which the latest entry of a parameter stands that is coded: the parameter, the
/// place, and what is selected before the later places, which come last.
pub(crate) fn next_entered<'a>(
    before: &Selection,
    places: &'a [Sent],
    channel: Channel,
    checkpoint: u64,
) -> Option<(Param, &'a Sent, Selection, &'a [Sent])>
    ensures { MatchOption result
        (entered channel checkpoint (placed channel before.now places.now) ≡ [])
        (λ next. IsNext channel checkpoint (placed channel before.now places.now) (length places.now) next.0 next.1.now next.2 next.3.now) }
{
    let mut selection = *before;
    let mut rest = places;
    while let Some((place, later)) = first_place(rest) {
        let behind = selection_behind(&selection, place, channel);
        if let Some(param) = coded_param(&selection, place, later, channel, checkpoint) {
            return Some((param, place, behind, later));
        }
        selection = behind;
        rest = later;
    }
    None
}

/// The selection behind all these commands.
pub(crate) fn selection_of(list: &[Sent], channel: Channel) -> Selection
    ensures { result ≡ fold (selection_step channel) no_selection list.now }
{
    let mut selection = Selection::none();
    for place in list {
        selection = selection_behind(&selection, place, channel);
    }
    selection
}
