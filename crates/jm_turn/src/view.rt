// What a pass knows. These types stand for knowledge in proofs: no value of `View` is ever made.
use std::collections::LinkedList;

/// One turn of the history.
pub struct Made<C> {
    /// The number of the pass whose turn it was.
    pub by: u64,
    /// The call that was made in it, with what came of it.
    pub what: C,
}

/// How far a pass is with a turn of its own.
pub enum Stage {
    /// It has no ticket.
    Idle,
    /// It has a ticket, and its turn hasn't come.
    Waiting,
    /// Its turn has come: the value is out with it.
    Holding,
}

/// What kind of pass it is.
pub enum Kind {
    /// The one that came with the shared value.
    Opening,
    /// Split from the opening pass, and not joined again.
    Split,
    /// A copy of what a pass has seen, on the way to another pass.
    Note,
    /// Joined to another pass.
    Spent,
}

/// What a pass knows of a shared value of type `T` and of the turns `C` made on it.
pub struct View<T, C> {
    /// The value that was shared at first. None where the pass is spent.
    pub first: Option<T>,
    pub stage: Stage,
    /// The number of its ticket, where it has one: how many tickets were drawn before. It never wraps.
    pub ticket: u64,
    pub kind: Kind,
    /// The number of the pass, which no other pass of the shared value ever has.
    pub number: u64,
    /// The turns that it knows: a beginning of the history.
    pub seen: LinkedList<Made<C>>,
    /// The places of its own turns in the history, ascending.
    pub mine: LinkedList<u64>,
    /// Of the opening pass: the number that the next pass gets.
    pub next: u64,
    /// Of the opening pass: how many passes were split from it and not joined again.
    pub out: u64,
    /// Of the opening pass: the number and the places of each pass that was joined to it, in order.
    pub ended: LinkedList<(u64, LinkedList<u64>)>,
    /// What it had seen before it last learned from another pass.
    pub before: LinkedList<Made<C>>,
    /// What that other pass had seen.
    pub told: LinkedList<Made<C>>,
}
