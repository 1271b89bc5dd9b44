// How each call begins and ends its turn.

ghost use Rattle.std.specs.Prelude.{◌≡◌, ◌%◌, [], ◌∷◌, ◌++◌, length, MatchResult};
ghost use Rattle.jm_turn.specs.declared.view.Stage.TheVariants.{Idle, Holding};
ghost use Rattle.jm_turn.specs.Turns.{made};
ghost use Rattle.jm_turn.specs.Views.{gave};
ghost use Rattle.jm_book.specs.Book.{IsReady};
ghost use Rattle.jm_desk.specs.History.{turned, StandsFor};
ghost use Rattle.jm_desk.specs.Sharing.{IsOf, MakesTurn, HoldsTurn};

use crate::desk::Desk;
use crate::held::Held;
use crate::turn::{Outcome, Turned};
use jm_book::{Acked, Cutted, Entered, Given, Gone, Heard, Joined, Played, Said, Step};
use jm_turn::Entry;
use std::alloc::AllocError;
use std::marker::{Brand, PhantomData};
use std::snapshot::Snapshot;
use std::sync::Wait;

// Which turn it is that a call made.
pub(crate) trait Naming {
    ghost use Rattle.jm_desk.specs.declared.turn.DeskTurn.{DeskTurn};

    ghost turn: { DeskTurn };
}

impl Naming for Brand {
    ghost use Rattle.jm_book.specs.declared.steps.Step.TheVariants.{Enter};
    ghost use Rattle.jm_desk.specs.declared.turn.Outcome.TheVariants.{NoMemory};

    ghost turn = { record { call = Enter; outcome = NoMemory } };
}

// That turn as the shared turn asks for it.
pub(crate) struct Named<E> {
    of: PhantomData<E>,
}

impl<E: Naming> Entry<Held> for Named<E> {
    ghost what = { E.turn };
}

// What comes of a call: an answer of the book, or want of memory.
pub(crate) trait Answer {
    ghost use Rattle.jm_desk.specs.declared.turn.Outcome.{Outcome};

    ghost outcome: { Self → Outcome };
}

#[derive(Drop)]
pub(crate) struct NoMemory;

impl Answer for NoMemory {
    ghost use Rattle.jm_desk.specs.declared.turn.Outcome.TheVariants as outcome;

    ghost outcome = { λ _. outcome.NoMemory };
}

impl Answer for Entered {
    ghost use Rattle.jm_desk.specs.declared.turn.Outcome.TheVariants as outcome;

    ghost outcome = { λ answer. outcome.Entered answer };
}

impl Answer for Played {
    ghost use Rattle.jm_desk.specs.declared.turn.Outcome.TheVariants as outcome;

    ghost outcome = { λ answer. outcome.Played answer };
}

impl Answer for Cutted {
    ghost use Rattle.jm_desk.specs.declared.turn.Outcome.TheVariants as outcome;

    ghost outcome = { λ answer. outcome.Cut answer };
}

impl Answer for Acked {
    ghost use Rattle.jm_desk.specs.declared.turn.Outcome.TheVariants as outcome;

    ghost outcome = { λ answer. outcome.Acked answer };
}

impl Answer for Joined {
    ghost use Rattle.jm_desk.specs.declared.turn.Outcome.TheVariants as outcome;

    ghost outcome = { λ answer. outcome.Joined answer };
}

impl Answer for Gone {
    ghost use Rattle.jm_desk.specs.declared.turn.Outcome.TheVariants as outcome;

    ghost outcome = { λ answer. outcome.Gone answer };
}

impl Answer for Heard {
    ghost use Rattle.jm_desk.specs.declared.turn.Outcome.TheVariants as outcome;

    ghost outcome = { λ answer. outcome.Heard answer };
}

impl Answer for Given {
    ghost use Rattle.jm_desk.specs.declared.turn.Outcome.TheVariants as outcome;

    ghost outcome = { λ answer. outcome.Given answer };
}

impl Answer for Said {
    ghost use Rattle.jm_desk.specs.declared.turn.Outcome.TheVariants as outcome;

    ghost outcome = { λ answer. outcome.Said answer };
}

impl Desk {
    // Waits until it is the pass's turn, and makes room for one more step. Where there is no memory for it, that was
    // the turn.
    pub(crate) fn begin<R: Wait>(
        &self,
        rt: &R,
        pass: &mut jm_turn::Pass<Held>,
        call: &Snapshot<Step>,
    ) -> Result<Held, AllocError>
        requires own { IsOf self.now pass.old }
        requires idle { pass.old.view.stage ≡ Idle }
        ensures own { IsOf self.now pass.new }
        ensures came { MatchResult result (λ held. HoldsTurn self.now pass.old pass.new held × IsReady held.book) (λ _. MakesTurn self.now pass.old pass.new call.now.value Outcome.NoMemory) }
    {
        let mut held = self.turn.take(rt, pass);
        match held.book.reserve() {
            Ok(()) => Ok(held),
            Err(none) => {
                self.end(pass, held, call, NoMemory);
                Err(none)
            }
        }
    }

    // Ends the turn with this answer.
    pub(crate) fn end<A: Answer>(
        &self,
        pass: &mut jm_turn::Pass<Held>,
        held: Held,
        call: &Snapshot<Step>,
        answer: A,
    ) -> Turned<A>
        requires own { IsOf self.now pass.old }
        requires turn { pass.old.view.stage ≡ Holding }
        requires stands { StandsFor self.now.first held (pass.old.view.seen ++ made pass.old.view.number (turned call.now.value (A.outcome answer)) ∷ []) }
        ensures answer { result.answer ≡ answer }
        ensures given { pass.new ≡ record pass.old { view = gave (turned call.now.value (A.outcome answer)) pass.old.view } }
        ensures at { result.at ≡ length pass.old.view.seen % 18446744073709551616 }
    {
        let at = self.give::<Brand, A>(pass, held, call, &answer);
        Turned { answer, at }
    }

    // Gives the book back, with the turn that was made, and gives its place.
    fn give<E: Naming, A: Answer>(
        &self,
        pass: &mut jm_turn::Pass<Held>,
        held: Held,
        call: &Snapshot<Step>,
        answer: &A,
    ) -> u64
        requires own { IsOf self.now pass.old }
        requires named { E.turn ≡ turned call.now.value (A.outcome answer.now) }
        requires turn { pass.old.view.stage ≡ Holding }
        requires stands { StandsFor self.now.first held (pass.old.view.seen ++ made pass.old.view.number (turned call.now.value (A.outcome answer.now)) ∷ []) }
        ensures given { pass.new ≡ record pass.old { view = gave (turned call.now.value (A.outcome answer.now)) pass.old.view } }
        ensures at { result ≡ length pass.old.view.seen % 18446744073709551616 }
    {
        let at = self.turn.front(pass);
        self.turn.give::<Named<E>>(pass, held);
        at
    }
}
