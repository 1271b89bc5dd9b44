//! The desk: opened over a book, and closed again.

ghost use Rattle.std.specs.Prelude.{◌≡◌, ◌%◌, [], length, IfOk};
ghost use Rattle.jm_turn.specs.declared.view.Kind.TheVariants.{Opening};
ghost use Rattle.jm_turn.specs.Views.{newcomer};
ghost use Rattle.jm_turn.specs.Closing.{Accounts, StandsOnce};
ghost use Rattle.jm_book.specs.Legal.{IsLegal};
ghost use Rattle.jm_desk.specs.History.{taken, IsHistory};
ghost use Rattle.jm_desk.specs.Sharing.{IsOf, SeesMore, config_of};

use crate::held::Held;
use crate::pass::Pass;
use jm_book::{Book, Step};
use jm_turn::Turn;
use std::alloc::{AllocError, Global};
use std::marker::Model;

/// A session that threads share by turns. Contracts see which table it is, and the book that it was opened with.
#[derive(Drop)]
pub struct Desk {
    pub(crate) turn: Turn<Held>,
    ssrc: u32,
}

impl Model for Desk {
    ghost use Rattle.std.specs.Prelude.{◌≡◌};
    ghost use Rattle.jm_desk.specs.Sharing.{Shared};

    ghost Value = { Shared };

    ghost view = { λ d. record { table = d.turn.table.shared.table_id; first = d.turn.table.shared.key.value } };

    ghost invariant = { λ d. d.ssrc ≡ d.turn.table.shared.key.value.book.config.ssrc };
}

impl Desk {
    /// Shares a book that has taken no step, with the opening pass. At `Err` there was no memory, and the book is
    /// dropped.
    pub fn new(book: Book, alloc: Global) -> Result<(Desk, Pass), AllocError>
        requires { book.steps ≡ [] }
        ensures own { IfOk result (λ t. IsOf t.0 t.1) }
        ensures book { IfOk result (λ t. t.0.first.book ≡ book) }
        ensures view { IfOk result (λ t. t.1.view ≡ newcomer t.0.first) }
    {
        let ssrc = book.ssrc();
        let held = Held { book };
        let (turn, pass) = Turn::new(held, alloc)?;
        Ok((Desk { turn, ssrc }, Pass { pass }))
    }

    /// The synchronization source of the session's stream. It doesn't wait.
    pub fn ssrc(&self) -> u32
        ensures { result ≡ (config_of self.now).ssrc }
    {
        self.ssrc
    }

    /// Looks once, and gives how many turns the pass has then seen, modulo 2^64. It doesn't wait. Turns of other
    /// threads may have been made that it doesn't show.
    pub fn front(&self, pass: &mut Pass) -> u64
        requires { IsOf self.now pass.old }
        ensures own { IsOf self.now pass.new }
        ensures more { SeesMore self.now pass.old pass.new }
        ensures count { result ≡ length pass.new.view.seen % 18446744073709551616 }
    {
        self.turn.front(&mut pass.pass)
    }

    /// Ends the sharing, and gives the tape: exactly the steps that were taken in the turns that the pass has seen, which
    /// are the whole history. Each turn is of this pass or of one that was joined to it. It takes no memory.
    pub fn close(self, pass: Pass) -> Vec<Step>
        requires own { IsOf self pass }
        requires opening { pass.view.kind ≡ Opening }
        requires alone { pass.view.out ≡ 0 }
        ensures steps { result.items ≡ taken pass.view.seen }
        ensures history { IsHistory (config_of self) pass.view.seen }
        ensures legal { IsLegal (config_of self) result.items }
        ensures accounts { Accounts pass.view }
        ensures once { StandsOnce pass.view }
    {
        let Desk { turn, ssrc: _ } = self;
        let Pass { pass } = pass;
        let Held { book } = turn.close(pass);
        book.finish()
    }
}
