//! What a turn at the desk is, and what the desk's calls give.

use jm_book::{Acked, Cutted, Entered, Given, Gone, Heard, Joined, Played, Said, Step};
use jm_cmds::Command;

/// What came of a call.
pub enum Outcome {
    /// The book's answers, one variant for each call.
    Entered(Entered),
    Played(Played),
    Cut(Cutted),
    Acked(Acked),
    Joined(Joined),
    Gone(Gone),
    Heard(Heard),
    Given(Given),
    Said(Said),
    /// There was no memory for one more step. The book is as it was.
    NoMemory,
}

/// One turn at the desk. It stands in histories, for proofs alone: no value of it is made.
pub struct DeskTurn {
    /// The call, told as the step that it asked for.
    pub call: Step,
    /// What came of it. A refusal is an outcome too.
    pub outcome: Outcome,
}

/// What a call gives whose turn was made.
#[derive(Debug, Drop)]
pub struct Turned<A> {
    /// What the book answered.
    pub answer: A,
    /// The turn's place in the history: how many turns were made before it, modulo 2^64.
    pub at: u64,
}

/// There was no memory to play a command. It is handed back.
#[derive(Debug, Drop)]
pub struct Unplayed {
    pub command: Command,
}
