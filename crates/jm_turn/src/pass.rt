// What lets one thread take turns, and what it has seen of the turns of all.
ghost use Rattle.std.specs.Prelude.{◌≡◌, ◌<◌};
ghost use Rattle.jm_turn.specs.declared.view.Stage.TheVariants.{Idle};
ghost use Rattle.jm_turn.specs.declared.view.Kind.TheVariants.{Opening, Split};
ghost use Rattle.jm_turn.specs.Views.{parted, part_of, joined, learned, saw};
ghost use Rattle.jm_turn.specs.Turns.{Begins};
ghost use Rattle.jm_turn.specs.Steps.{Sees};

use crate::plays::{Look, Note, Part};
use crate::told::Told;
use crate::turn::Turn;
use crate::view::View;
use atomic_table::Seat;
use std::marker::Model;

/// It lets one thread at a time take turns on the value of one [`Turn`]. It has no bytes. Contracts see which
/// table and seat it is of, and its view.
#[derive(Drop)]
pub struct Pass<T: Told> {
    pub(crate) seat: Seat<Option<T>, View<T, T::Turn>>,
}

impl<T: Told> Model for Pass<T> {
    ghost use Rattle.jm_turn.specs.Known.{Known, IsPass, HandOf};

    ghost Value = { Known T T.Turn };

    ghost view = { λ p. record { table = p.seat.table_id; seat = p.seat.id; view = p.seat.me.0 } };

    ghost invariant = { λ p. IsPass T.stands p.seat.me.0 × HandOf p.seat.me.0.stage p.seat.me.1 };
}

impl<T: Told> Pass<T> {
    /// A pass of its own for another thread, with a number that no other ever has. It has seen what this one has.
    /// Only the opening pass splits.
    pub fn split(&mut self, turn: &Turn<T>) -> Pass<T>
        requires own { self.old.table ≡ turn.now.table.shared.table_id }
        requires opening { self.old.view.kind ≡ Opening }
        requires idle { self.old.view.stage ≡ Idle }
        requires room { self.old.view.out < 4294967295 }
        ensures same { (self.new.table ≡ self.old.table) × (self.new.seat ≡ self.old.seat) }
        ensures parted { self.new.view ≡ parted self.old.view }
        ensures given { (result.table ≡ self.old.table) × (result.view ≡ part_of self.old.view) }
    {
        Pass {
            seat: turn.table.shared.split_seat::<Part>(&mut self.seat),
        }
    }

    /// Learns what the other pass has seen, which stays as it is. Both that and what this one had seen then begin
    /// what this one has seen.
    pub fn meet(&mut self, turn: &Turn<T>, other: &mut Pass<T>)
        requires own { (self.old.table ≡ turn.now.table.shared.table_id) × (other.old.table ≡ turn.now.table.shared.table_id) }
        requires idle { (self.old.view.stage ≡ Idle) × (other.old.view.stage ≡ Idle) }
        ensures same { (self.new.table ≡ self.old.table) × (self.new.seat ≡ self.old.seat) }
        ensures other { other.new ≡ other.old }
        ensures met { self.new.view ≡ saw self.new.view.seen (learned self.old.view other.old.view) }
        ensures seen { Sees T.stands self.old.view self.new.view.seen }
        ensures told { Begins other.old.view.seen self.new.view.seen }
    {
        let note = turn.table.shared.split_seat::<Note>(&mut other.seat);
        turn.table.shared.join_seat::<Note>(&mut self.seat, note);
        turn.table.shared.load::<Look<T>>(&mut self.seat, 1);
    }

    /// Takes in a pass that was split from this one, with all that it has seen. Its number and places are kept.
    pub fn join(&mut self, turn: &Turn<T>, other: Pass<T>)
        requires own { (self.old.table ≡ turn.now.table.shared.table_id) × (other.table ≡ turn.now.table.shared.table_id) }
        requires kinds { (self.old.view.kind ≡ Opening) × (other.view.kind ≡ Split) }
        requires idle { (self.old.view.stage ≡ Idle) × (other.view.stage ≡ Idle) }
        ensures same { (self.new.table ≡ self.old.table) × (self.new.seat ≡ self.old.seat) }
        ensures joined { self.new.view ≡ saw self.new.view.seen (joined self.old.view other.view) }
        ensures seen { Sees T.stands self.old.view self.new.view.seen }
        ensures told { Begins other.view.seen self.new.view.seen }
    {
        let Pass { seat } = other;
        turn.table.shared.join_seat::<Part>(&mut self.seat, seat);
        turn.table.shared.load::<Look<T>>(&mut self.seat, 1);
    }
}
