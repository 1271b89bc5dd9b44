//! The items of Chapters W and T: what their latest command alone tells of a channel.

ghost use Rattle.std.specs.Prelude.{◌≡◌, [], ◌∷◌, MatchOption};
ghost use Rattle.std.specs.List.{list_any};
ghost use Rattle.jm_cmds.specs.History.{InOrder};
ghost use Rattle.jm_cmds.specs.OnePlace.{stands, one_standing};
ghost use Rattle.jm_cmds.specs.Sent.{packet_of};
ghost use Rattle.ch_voice.specs.VoiceItem.{tells, touches, tells_at, touches_at, item_told, item_fresh};

use crate::events::{PressureEvent, WheelEvent, pressure_event, wheel_event};
use jm_cmds::{Channel, Command, Sent, checkpoint_history, first_place};

/// What Chapters W and T code of a channel: the latest command of these, as long as it is active as its
/// chapter asks.
#[derive(Clone, Copy, PartialEq, Eq, Debug)]
pub enum VoiceItem {
    /// The pitch wheel (Chapter W).
    Wheel,
    /// The channel pressure (Chapter T).
    Pressure,
}

/// Whether this command tells the item.
fn tells(command: &Command, item: VoiceItem, channel: Channel) -> bool
    ensures { result ≡ tells item channel command.now }
{
    match item {
        VoiceItem::Wheel => matches!(wheel_event(command, channel), WheelEvent::Moved { .. }),
        VoiceItem::Pressure => {
            matches!(
                pressure_event(command, channel),
                PressureEvent::Pressed { .. }
            )
        }
    }
}

/// Whether behind this command an earlier one of the item isn't coded: this one tells it, or clears it.
fn touches(command: &Command, item: VoiceItem, channel: Channel) -> bool
    ensures { result ≡ touches item channel command.now }
{
    match item {
        VoiceItem::Wheel => !matches!(wheel_event(command, channel), WheelEvent::Other),
        VoiceItem::Pressure => !matches!(pressure_event(command, channel), PressureEvent::Other),
    }
}

/// Whether one of the later places touches the item.
fn is_touched(later: &[Sent], item: VoiceItem, channel: Channel) -> bool
    ensures { result ≡ list_any (touches_at item channel) later.now }
{
    later
        .iter()
        .any(|after| touches(&after.command, item, channel))
}

/// Whether the place tells the item, and no later one touches it.
fn is_standing(place: &Sent, later: &[Sent], item: VoiceItem, channel: Channel) -> bool
    ensures { result ≡ stands (tells_at item channel) (touches_at item channel) place.now later.now }
{
    tells(&place.command, item, channel) && !is_touched(later, item, channel)
}

/// The place of the item that stands among these, if there is one.
fn standing_place(places: &[Sent], item: VoiceItem, channel: Channel) -> Option<&Sent>
    ensures { MatchOption result
        (one_standing (tells_at item channel) (touches_at item channel) places.now ≡ [])
        (λ place. one_standing (tells_at item channel) (touches_at item channel) places.now ≡ place.now ∷ []) }
{
    let mut rest = places;
    while let Some((place, later)) = first_place(rest) {
        if is_standing(place, later, item, channel) {
            return Some(place);
        }
        rest = later;
    }
    None
}

/// The place that this packet's journal codes of the item, if there is one.
pub(crate) fn coded_place(
    list: &[Sent],
    item: VoiceItem,
    channel: Channel,
    checkpoint: u64,
    packet: u64,
) -> Option<&Sent>
    requires { InOrder packet_of list.now }
    ensures { MatchOption result
        (item_told item channel checkpoint packet list.now ≡ [])
        (λ place. item_told item channel checkpoint packet list.now ≡ place.now ∷ []) }
{
    standing_place(checkpoint_history(list, checkpoint, packet), item, channel)
}

/// Whether the packet before brought what this packet's journal codes of the item.
pub(crate) fn is_fresh(
    list: &[Sent],
    item: VoiceItem,
    channel: Channel,
    checkpoint: u64,
    packet: u64,
) -> bool
    requires { InOrder packet_of list.now }
    ensures { result ≡ item_fresh item channel checkpoint packet list.now }
{
    match coded_place(list, item, channel, checkpoint, packet) {
        None => false,
        Some(place) => place.is_fresh(packet),
    }
}
