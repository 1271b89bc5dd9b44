// Where octets go.
ghost use Rattle.std.specs.Prelude.{◌<◌, ◌≤◌, ℕ, List, Option, length};
ghost use Rattle.jm_edge.specs.Faults.{Rose};
ghost use Rattle.jm_edge.specs.Sink.{IsWithin, Adds, OnFailed};

/// What one `write` did.
#[derive(Clone, Copy, Debug, PartialEq, Eq)]
pub enum Put {
    /// The first octets of the piece were written, this many: at least one, and at most its length.
    Took(usize),
    /// The write failed and wrote nothing.
    Failed,
}

/// A place for octets, which takes a piece whole or in part.
pub trait Sink {
    /// The octets written so far, where the sink tells that.
    ghost written: { Self → Option (List ℕ) };

    /// How many writes have failed. It never falls.
    ghost faults: { Self → ℕ };

    /// Writes the front of `piece`, which isn't empty.
    ///
    /// `Failed` comes only where the count of faults rose in this call.
    fn write(&mut self, piece: &[u8]) -> Put
        requires { 0 < length piece.now }
        ensures within { IsWithin result (length piece.now) }
        ensures adds { Adds result piece.now (written self.old) (written self.new) }
        ensures counted { faults self.old ≤ faults self.new }
        ensures failed { OnFailed result (Rose (faults self.old) (faults self.new)) };
}
