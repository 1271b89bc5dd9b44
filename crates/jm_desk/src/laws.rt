//! What holds of every history of turns, over the definitions that this crate's contracts cite. Each law is the
//! contract of a function that does nothing.

ghost use Rattle.jm_desk.specs.Laws.{StepsAreLegal, GrowsByAnswers, AddsOwnTurn, LearnsNoOwnTurn, KeepsJoinedTurns};

/// The steps that were taken in a legal history are a legal list of steps.
pub fn steps_are_legal()
    ensures { StepsAreLegal }
{}

/// No turns are a legal history. With one turn more a history is legal just where it was so before and the outcome is
/// what is answered after the steps taken, unless there was no memory.
pub fn grows_by_answers()
    ensures { GrowsByAnswers }
{}

/// A call adds to the turns of its pass that are seen just its own, at the end.
pub fn adds_own_turn()
    ensures { AddsOwnTurn }
{}

/// Turns of others add none to those of a pass.
pub fn learns_no_own_turn()
    ensures { LearnsNoOwnTurn }
{}

/// The turns that a joined pass made in the whole history, when the desk is closed, are those that it had seen when it
/// was joined.
pub fn keeps_joined_turns()
    ensures { KeepsJoinedTurns }
{}
