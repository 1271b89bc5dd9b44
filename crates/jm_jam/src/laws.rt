//! What holds of the history of every jam. Each law is the contract of a function that does nothing.

ghost use Rattle.jm_jam.specs.Laws.{TapeHasWhatIsMade, HasMemory};

/// The commands of each player on the tape are those that are made for its steps, in their order, but for the steps in which a play or
/// a cut was answered that the tape is full, or a cut that a participant is too far behind. Else each step's play was accepted, in the
/// end: no player is unknown, since the four enter before any worker comes, every command fits the journal, and where a cut has to come
/// first the player cuts and plays again.
///
/// Left out: that no step ends so. The tape has room for 4,194,304 steps, and a jam of 4,096 steps makes far fewer turns; but how often
/// a player has to cut depends on how the threads meet, and no law counts it.
pub fn tape_has_what_is_made()
    ensures { TapeHasWhatIsMade }
{}

/// In no turn of a jam was there no memory.
pub fn has_memory()
    ensures { HasMemory }
{}
