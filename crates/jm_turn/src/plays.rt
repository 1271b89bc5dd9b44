// The rule of the table, and what each of its six kinds of step tells.
ghost use Rattle.jm_turn.specs.Views.{newcomer, parted, part_of, joined, learned, note_of, spent};
ghost use Rattle.jm_turn.specs.Rule.{Keyed};
ghost use Rattle.jm_turn.specs.Steps.{Draws, Looks, Takes, Commits};

use crate::told::{Entry, Told};
use crate::view::View;
use atomic_table::{Join, Play, Split, TableRule};
use std::marker::PhantomData;
use std::snapshot::Snapshot;

// The rule, at the value that was shared at first.
pub(crate) struct Ruled<T> {
    of: PhantomData<T>,
}

impl<T: Told> TableRule<Option<T>, View<T, T::Turn>, Snapshot<T>> for Ruled<T> {
    ghost holds = { λ k. Keyed T.stands k.value };

    ghost first = { λ k. newcomer k.value };
}

// A ticket is drawn.
pub(crate) struct Draw<T> {
    of: PhantomData<T>,
}

impl<T: Told> Play<Option<T>, View<T, T::Turn>> for Draw<T> {
    ghost then = { Draws };
}

// The number that is served is read.
pub(crate) struct Look<T> {
    of: PhantomData<T>,
}

impl<T: Told> Play<Option<T>, View<T, T::Turn>> for Look<T> {
    ghost then = { Looks T.stands };
}

// The same, and where it is the own ticket's the value is taken.
pub(crate) struct Take<T> {
    of: PhantomData<T>,
}

impl<T: Told> Play<Option<T>, View<T, T::Turn>> for Take<T> {
    ghost then = { Takes T.stands };
}

// The value is given back, and the next ticket served.
pub(crate) struct Commit<T, E> {
    of: PhantomData<(T, E)>,
}

impl<T: Told, E: Entry<T>> Play<Option<T>, View<T, T::Turn>> for Commit<T, E> {
    ghost then = { Commits E.what };
}

// A pass of its own is split from the opening pass, or joined to it again.
pub(crate) struct Part;

impl<T, C> Split<View<T, C>> for Part {
    ghost left = { parted };

    ghost right = { part_of };
}

impl<T, C> Join<View<T, C>> for Part {
    ghost both = { joined };

    ghost spent = { spent };
}

// A note of what one pass has seen is made, or taken in by another.
pub(crate) struct Note;

impl<T, C> Split<View<T, C>> for Note {
    ghost left = { λ v. v };

    ghost right = { note_of };
}

impl<T, C> Join<View<T, C>> for Note {
    ghost both = { learned };

    ghost spent = { spent };
}
