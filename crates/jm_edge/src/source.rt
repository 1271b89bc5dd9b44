// Where octets come from.
ghost use Rattle.std.specs.Prelude.{◌<◌, ◌≤◌, ℕ, List, Option, length};
ghost use Rattle.jm_edge.specs.Faults.{Rose};
ghost use Rattle.jm_edge.specs.Source.{IsWithin, Takes, OnFailed, OneMore};

/// What one `read` gave.
#[derive(Clone, Copy, Debug, PartialEq, Eq)]
pub enum Got {
    /// This many octets stand at the front of the buffer: at least one, and at most its length.
    Octets(usize),
    /// Nothing is left.
    Done,
    /// The read failed and took nothing.
    Failed,
}

/// Octets that come in order, in pieces whose lengths the source chooses.
pub trait Source {
    /// The octets still to come, where the source tells that.
    ghost left: { Self → Option (List ℕ) };

    /// How many reads have failed. It never falls.
    ghost faults: { Self → ℕ };

    /// How many times it was read. The count stands still once it is at its last value, 2^64 - 1 or more.
    ghost reads: { Self → ℕ };

    /// Reads into the front of `buf`, which isn't empty.
    ///
    /// `Done` comes only where nothing is left, and `Failed` only where the count of faults rose in this call.
    fn read(&mut self, buf: &mut [u8]) -> Got
        requires { 0 < length buf.old }
        ensures within { IsWithin result (length buf.new) }
        ensures takes { Takes result buf.new (left self.old) (left self.new) }
        ensures counted { faults self.old ≤ faults self.new }
        ensures read_once { OneMore (reads self.old) (reads self.new) }
        ensures failed { OnFailed result (Rose (faults self.old) (faults self.new)) };
}
