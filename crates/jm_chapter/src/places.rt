//! The places of a history that no later one ends.

ghost use Rattle.std.specs.Prelude.{◌≡◌, ◌<◌, Bool, [], ◌∷◌, MatchOption, length};
ghost use Rattle.std.specs.List.{list_any};
ghost use Rattle.jm_cmds.specs.declared.history.Sent.{Sent};
ghost use Rattle.jm_cmds.specs.History.{InOrder, standing, coded};
ghost use Rattle.jm_cmds.specs.Sent.{packet_of};

use jm_cmds::{Sent, first_place, place_of};

/// The items of a chapter, by what ends what among the places of a history.
pub trait Items {
    ghost ends: { Self → Sent → Sent → Bool };

    /// Whether the later place takes the place of the earlier one, or makes it inactive.
    fn is_ended(&self, place: &Sent, later: &Sent) -> bool
        ensures { result ≡ ends self.now place.now later.now };
}

/// Whether one of the later places ends this one.
fn is_ended_among<I: Items>(items: &I, place: &Sent, later: &[Sent]) -> bool
    ensures { result ≡ list_any (I.ends items.now place.now) later.now }
{
    later.iter().any(|after| items.is_ended(place, after))
}

/// The first of these places that no later one ends, with the places behind it, or `None` where there is
/// none.
pub fn next_standing<'a, I: Items>(items: &I, places: &'a [Sent]) -> Option<(&'a Sent, &'a [Sent])>
    ensures stands { MatchOption result (standing (I.ends items.now) places.now ≡ [])
        (λ parts. standing (I.ends items.now) places.now ≡ parts.0.now ∷ standing (I.ends items.now) parts.1.now) }
    ensures fewer { MatchOption result (Unit {0}) (λ parts. length parts.1.now < length places.now) }
{
    let mut rest = places;
    while let Some((place, later)) = first_place(rest) {
        if !is_ended_among(items, place, later) {
            return Some((place, later));
        }
        rest = later;
    }
    None
}

/// The places from this packet on. Those that stand among them are what a journal with this checkpoint
/// codes, where the whole list was sent.
pub fn places_from(list: &[Sent], checkpoint: u64) -> &[Sent]
    requires { InOrder packet_of list.now }
    ensures { (ends : Sent → Sent → Bool) → standing ends result.now ≡ coded ends packet_of checkpoint list.now }
{
    &list[place_of(list, checkpoint)..]
}
