// Which list of turns a value stands for.
ghost use Rattle.std.specs.Prelude.{List};
ghost use Rattle.jm_turn.specs.declared.view.Made.{Made};

/// A value that stands for a list of turns.
pub trait Told {
    /// What one turn did: the call, and what came of it. It is for proofs alone.
    type Turn;

    // From a first value, this value is what these turns leave. What it says of the turns is what "legal" means.
    ghost stands: { Self → Self → List (Made Self.Turn) → Type 0 };
}

/// By it a caller of [`crate::Turn::give`] names the turn that it made. It has no calls.
pub trait Entry<T: Told> {
    ghost what: { T.Turn };
}
