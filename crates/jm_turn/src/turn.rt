// The shared value, and its calls.
ghost use Rattle.std.specs.Prelude.{◌≡◌, ℕ, ◌%◌, [], ◌∷◌, ◌++◌, length, IfOk, IfSome, MatchOption};
ghost use Rattle.jm_turn.specs.declared.view.Stage.TheVariants.{Idle, Waiting, Holding};
ghost use Rattle.jm_turn.specs.declared.view.Kind.TheVariants.{Opening};
ghost use Rattle.jm_turn.specs.Turns.{made};
ghost use Rattle.jm_turn.specs.Views.{newcomer, drew, saw, took, gave};
ghost use Rattle.jm_turn.specs.Steps.{Sees, since};
ghost use Rattle.jm_turn.specs.Closing.{Accounts, StandsOnce};

use crate::pass::Pass;
use crate::plays::{Commit, Draw, Look, Ruled, Take};
use crate::told::{Entry, Told};
use crate::view::View;
use atomic_table::Table;
use std::alloc::{AllocError, Global};
use std::snapshot::Snapshot;
use std::sync::Wait;
use std::thread;

// The words of the table: how many tickets were drawn, and which one's turn it is.
const TICKET: usize = 0;

const SERVING: usize = 1;

/// A value that threads share by turns.
#[derive(Drop)]
pub struct Turn<T: Told> {
    pub(crate) table: Table<Option<T>, View<T, T::Turn>, Snapshot<T>, Ruled<T>, Global>,
    pub ghost sized: { (table.shared.table_id.words ≡ 2) × (table.shared.table_id.slots ≡ 1) },
}

impl<T: Told> Turn<T> {
    /// Shares a value, with the opening pass. At `Err` there was no memory, and the value is dropped.
    pub fn new(value: T, alloc: Global) -> Result<(Turn<T>, Pass<T>), AllocError>
    where
        T: Drop,
        requires { T.stands value value [] }
        ensures own { IfOk result (λ t. t.1.table ≡ t.0.table.shared.table_id) }
        ensures view { IfOk result (λ t. t.1.view ≡ newcomer value) }
        ensures first { IfOk result (λ t. t.0.table.shared.key.value ≡ value) }
    {
        let first = Snapshot::of(&value);
        let mut slots = Vec::new(alloc);
        slots.push(Some(value))?;
        match Table::new(alloc, &[0, 0], slots, &first) {
            Ok((table, seat)) => Ok((Turn { table }, Pass { seat })),
            Err(_) => Err(AllocError),
        }
    }

    /// Waits until it is the pass's turn, and gives the value. The pass has then seen the whole history, and the
    /// value stands for it. Until the value is given back no other pass gets it.
    pub fn take<R: Wait>(&self, rt: &R, pass: &mut Pass<T>) -> T
        requires own { pass.old.table ≡ self.now.table.shared.table_id }
        requires idle { pass.old.view.stage ≡ Idle }
        ensures same { (pass.new.table ≡ pass.old.table) × (pass.new.seat ≡ pass.old.seat) }
        ensures turn { (ticket : ℕ) × (pass.new.view ≡ took pass.new.view.seen (drew ticket pass.old.view)) }
        ensures seen { Sees T.stands pass.old.view pass.new.view.seen }
        ensures value { since T.stands pass.old.view.first result pass.new.view.seen }
    {
        let ticket = self.draw(pass);
        for _ in rt.forever() {
            if let Some(value) = self.come(pass, ticket) {
                return value;
            }
            thread::yield_now();
        }
        unreachable!()
    }

    /// Gives the value back, with the turn that was made on it: the value stands for all that the pass has seen,
    /// and this turn.
    pub fn give<E: Entry<T>>(&self, pass: &mut Pass<T>, value: T)
        requires own { pass.old.table ≡ self.now.table.shared.table_id }
        requires turn { pass.old.view.stage ≡ Holding }
        requires stands { since T.stands pass.old.view.first value (pass.old.view.seen ++ made pass.old.view.number E.what ∷ []) }
        ensures same { (pass.new.table ≡ pass.old.table) × (pass.new.seat ≡ pass.old.seat) }
        ensures given { pass.new.view ≡ gave E.what pass.old.view }
    {
        let shared = &self.table.shared;
        match shared.exchange(&mut pass.seat, 0, Some(value)) {
            None => {}
            Some(_) => unreachable!(),
        }
        shared.fetch_add::<Commit<T, E>>(&mut pass.seat, SERVING, 1);
    }

    /// Looks once, and gives how many turns the pass has then seen, modulo 2^64. It doesn't wait. A pass that has
    /// the turn sees nothing new.
    pub fn front(&self, pass: &mut Pass<T>) -> u64
        requires own { pass.old.table ≡ self.now.table.shared.table_id }
        ensures same { (pass.new.table ≡ pass.old.table) × (pass.new.seat ≡ pass.old.seat) }
        ensures view { pass.new.view ≡ saw pass.new.view.seen pass.old.view }
        ensures seen { Sees T.stands pass.old.view pass.new.view.seen }
        ensures holding { pass.old.view.stage ≡ Holding → pass.new.view.seen ≡ pass.old.view.seen }
        ensures count { result ≡ length pass.new.view.seen % 18446744073709551616 }
    {
        self.table.shared.load::<Look<T>>(&mut pass.seat, SERVING)
    }

    /// Ends the sharing, and gives the value. It stands for what the pass has seen, which is the whole history, and
    /// each turn of it is of this pass or of one that was joined to it.
    pub fn close(self, pass: Pass<T>) -> T
        requires own { pass.table ≡ self.table.shared.table_id }
        requires opening { pass.view.kind ≡ Opening }
        requires idle { pass.view.stage ≡ Idle }
        requires alone { pass.view.out ≡ 0 }
        ensures value { since T.stands pass.view.first result pass.view.seen }
        ensures accounts { Accounts pass.view }
        ensures once { StandsOnce pass.view }
    {
        let Turn { table } = self;
        let Pass { seat } = pass;
        let mut closed = table.close_with(seat);
        let last = closed.take(0);
        closed.free();
        match last {
            Some(value) => value,
            None => unreachable!(),
        }
    }

    // Draws a ticket, and gives its number as the word tells it.
    fn draw(&self, pass: &mut Pass<T>) -> u64
        requires own { pass.old.table ≡ self.now.table.shared.table_id }
        requires idle { pass.old.view.stage ≡ Idle }
        ensures same { (pass.new.table ≡ pass.old.table) × (pass.new.seat ≡ pass.old.seat) }
        ensures drew { pass.new.view ≡ drew pass.new.view.ticket pass.old.view }
        ensures ticket { result ≡ pass.new.view.ticket % 18446744073709551616 }
    {
        self.table
            .shared
            .fetch_add::<Draw<T>>(&mut pass.seat, TICKET, 1)
    }

    // Looks whether the ticket's turn has come, and then has the value.
    fn come(&self, pass: &mut Pass<T>, ticket: u64) -> Option<T>
        requires own { pass.old.table ≡ self.now.table.shared.table_id }
        requires waiting { pass.old.view.stage ≡ Waiting }
        requires ticket { ticket ≡ pass.old.view.ticket % 18446744073709551616 }
        ensures same { (pass.new.table ≡ pass.old.table) × (pass.new.seat ≡ pass.old.seat) }
        ensures view { MatchOption result (pass.new.view ≡ saw pass.new.view.seen pass.old.view) (λ _. pass.new.view ≡ took pass.new.view.seen pass.old.view) }
        ensures seen { Sees T.stands pass.old.view pass.new.view.seen }
        ensures value { IfSome result (λ x. since T.stands pass.old.view.first x pass.new.view.seen) }
    {
        let shared = &self.table.shared;
        if shared.load::<Take<T>>(&mut pass.seat, SERVING) != ticket {
            return None;
        }
        shared.exchange(&mut pass.seat, 0, None)
    }
}
