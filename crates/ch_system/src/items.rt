//! What the system chapters code: items, each by its latest command.

ghost use Rattle.std.specs.Prelude.{◌≡◌, ◌<◌, [], ◌∷◌, MatchOption};
ghost use Rattle.std.specs.List.{list_any};
ghost use Rattle.jm_cmds.specs.History.{InOrder};
ghost use Rattle.jm_cmds.specs.OnePlace.{stands, one_standing};
ghost use Rattle.jm_cmds.specs.Sent.{packet_of};
ghost use Rattle.ch_system.specs.Items.{is_of, is_place_of, touches, item_coded, item_count, item_fresh};

use jm_cmds::{Command, Sent, checkpoint_history, first_place};

/// What a system chapter codes: the latest command of these, as long as no Reset State command follows (RFC 6295, B.1
/// to B.4).
#[derive(Clone, Copy, PartialEq, Eq, Debug)]
pub enum SystemItem {
    /// The System Reset (Chapter D).
    Reset,
    /// The Tune Request (Chapter D).
    Tune,
    /// The chosen song (Chapter D).
    Song,
    /// Active Sensing (Chapter V).
    Sensing,
    /// Clock, Start, Continue, Stop and Song Position, as one item (Chapter Q).
    Sequence,
    /// The quarter frames of time code (Chapter F).
    Frames,
}

/// Whether the command is of this item.
pub(crate) fn is_of(command: &Command, item: SystemItem) -> bool
    ensures { result ≡ is_of item command.now }
{
    match item {
        SystemItem::Reset => matches!(command, Command::SystemReset),
        SystemItem::Tune => matches!(command, Command::TuneRequest),
        SystemItem::Song => matches!(command, Command::SongSelect { .. }),
        SystemItem::Sensing => matches!(command, Command::ActiveSensing),
        SystemItem::Sequence => matches!(
            command,
            Command::Clock
                | Command::Start
                | Command::Continue
                | Command::Stop
                | Command::SongPosition { .. }
        ),
        SystemItem::Frames => matches!(command, Command::QuarterFrame { .. }),
    }
}

/// Whether behind this place an earlier one of the item isn't coded: it takes that one's place, or makes it inactive.
fn touches(place: &Sent, item: SystemItem) -> bool
    ensures { result ≡ touches item place.now }
{
    is_of(&place.command, item) || place.command.is_reset()
}

/// Whether one of the later places touches the item.
fn is_touched(later: &[Sent], item: SystemItem) -> bool
    ensures { result ≡ list_any (touches item) later.now }
{
    later.iter().any(|after| touches(after, item))
}

/// Whether the place is the item's, and no later one touches it.
fn is_standing(place: &Sent, later: &[Sent], item: SystemItem) -> bool
    ensures { result ≡ stands (is_place_of item) (touches item) place.now later.now }
{
    is_of(&place.command, item) && !is_touched(later, item)
}

/// The place of the item that stands among these, if there is one.
fn standing_place(places: &[Sent], item: SystemItem) -> Option<&Sent>
    ensures { MatchOption result (one_standing (is_place_of item) (touches item) places.now ≡ [])
        (λ place. one_standing (is_place_of item) (touches item) places.now ≡ place.now ∷ []) }
{
    let mut rest = places;
    while let Some((place, later)) = first_place(rest) {
        if is_standing(place, later, item) {
            return Some(place);
        }
        rest = later;
    }
    None
}

/// The place that this packet's journal codes of the item, if there is one.
pub(crate) fn coded_place(
    list: &[Sent],
    item: SystemItem,
    checkpoint: u64,
    packet: u64,
) -> Option<&Sent>
    requires { InOrder packet_of list.now }
    ensures { MatchOption result (item_coded item checkpoint packet list.now ≡ [])
        (λ place. item_coded item checkpoint packet list.now ≡ place.now ∷ []) }
{
    standing_place(checkpoint_history(list, checkpoint, packet), item)
}

/// Whether the packet before brought what this packet's journal codes of the item.
pub(crate) fn item_fresh(list: &[Sent], item: SystemItem, checkpoint: u64, packet: u64) -> bool
    requires { InOrder packet_of list.now }
    ensures { result ≡ item_fresh item checkpoint packet list.now }
{
    match coded_place(list, item, checkpoint, packet) {
        None => false,
        Some(place) => place.is_fresh(packet),
    }
}

/// How many commands of the item there are among these, modulo 128. A reset doesn't begin the count anew.
#[tactic(auto, unfolding(crate::specs::Items::item_count))]
pub(crate) fn item_count(session: &[Sent], item: SystemItem) -> u8
    ensures count { result ≡ item_count item session.now }
    ensures bound { result < 128 }
{
    let mut total: usize = 0;
    let mut rest = session;
    while let Some((place, later)) = first_place(rest) {
        if is_of(&place.command, item) {
            total += 1;
        }
        rest = later;
    }
    (total % 128) as u8
}
