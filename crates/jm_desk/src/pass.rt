//! What lets one thread call at a desk.

ghost use Rattle.std.specs.Prelude.{◌≡◌, ◌<◌};
ghost use Rattle.jm_turn.specs.declared.view.Kind.TheVariants.{Opening, Split};
ghost use Rattle.jm_turn.specs.Turns.{Begins, Follows};
ghost use Rattle.jm_turn.specs.Views.{parted, part_of, joined, learned, saw};
ghost use Rattle.jm_desk.specs.History.{IsHistory};
ghost use Rattle.jm_desk.specs.Sharing.{IsOf, OwnsPlaces, config_of};

use crate::desk::Desk;
use crate::held::Held;
use std::marker::Model;

/// It lets one thread at a time call at one [`crate::Desk`]. It has no bytes. Contracts see which desk it is of, and
/// in its view what it has seen of the history (`seen`), the places of its own turns (`mine`), its number, and of the
/// opening pass how many passes are out (`out`) and the numbers and places of those that were joined (`ended`).
#[derive(Drop)]
pub struct Pass {
    pub(crate) pass: jm_turn::Pass<Held>,
}

impl Model for Pass {
    ghost use Rattle.std.specs.Prelude.{◌≡◌};
    ghost use Rattle.jm_turn.specs.declared.view.Stage.TheVariants.{Idle};
    ghost use Rattle.jm_desk.specs.Sharing.{PassView};

    ghost Value = { PassView };

    ghost view = { λ p. p.pass };

    ghost invariant = { λ p. p.pass.view.stage ≡ Idle };
}

impl Pass {
    /// A pass of its own for another thread, with a number that no other ever has, and no turns of its own. It has
    /// seen what this one has. Only the opening pass splits.
    pub fn split(&mut self, desk: &Desk) -> Pass
        requires own { IsOf desk.now self.old }
        requires opening { self.old.view.kind ≡ Opening }
        requires room { self.old.view.out < 4294967295 }
        ensures own { IsOf desk.now self.new }
        ensures parted { self.new ≡ record self.old { view = parted self.old.view } }
        ensures other { IsOf desk.now result }
        ensures given { result.view ≡ part_of self.old.view }
    {
        Pass {
            pass: self.pass.split(&desk.turn),
        }
    }

    /// Learns what the other pass has seen, which stays as it is. Both that and what this one had seen then begin
    /// what this one has seen.
    pub fn meet(&mut self, desk: &Desk, other: &mut Pass)
        requires own { IsOf desk.now self.old }
        requires others { IsOf desk.now other.old }
        ensures own { IsOf desk.now self.new }
        ensures other { other.new ≡ other.old }
        ensures met { self.new ≡ record self.old { view = saw self.new.view.seen (learned self.old.view other.old.view) } }
        ensures seen { Follows self.old.view.number self.old.view.seen self.new.view.seen }
        ensures told { Begins other.old.view.seen self.new.view.seen }
        ensures legal { IsHistory (config_of desk.now) self.new.view.seen }
        ensures places { OwnsPlaces self.new.view }
    {
        self.pass.meet(&desk.turn, &mut other.pass);
    }

    /// Takes in a pass that was split from this one, with all that it has seen. Its number and places are kept.
    pub fn join(&mut self, desk: &Desk, other: Pass)
        requires own { IsOf desk.now self.old }
        requires others { IsOf desk.now other }
        requires opening { self.old.view.kind ≡ Opening }
        requires split { other.view.kind ≡ Split }
        ensures own { IsOf desk.now self.new }
        ensures joined { self.new ≡ record self.old { view = saw self.new.view.seen (joined self.old.view other.view) } }
        ensures seen { Follows self.old.view.number self.old.view.seen self.new.view.seen }
        ensures told { Begins other.view.seen self.new.view.seen }
        ensures legal { IsHistory (config_of desk.now) self.new.view.seen }
        ensures places { OwnsPlaces self.new.view }
    {
        let Pass { pass } = other;
        self.pass.join(&desk.turn, pass);
    }
}
