// Where moments come from.
ghost use Rattle.std.specs.Prelude.{◌≡◌, ℕ, ◌≤◌, ◌^◌, Option};
ghost use Rattle.jm_edge.specs.Ticks.{Ticks, stepping};

use std::marker::Model;

/// A clock, in units of 100 microseconds. No clause says that its moments never fall.
pub trait Ticker {
    /// The moments of the next calls, the k-th of them counted from 0, where the clock tells that.
    ghost coming: { Self → Option (ℕ → ℕ) };

    /// The moment now, at most 2^62.
    fn now(&mut self) -> u64
        ensures bound { result ≤ 2 ^ 62 }
        ensures ticks { Ticks result (coming self.old) (coming self.new) };
}

/// A clock that goes on by the same step at each call, up to 2^62, where it stands. It tells all its moments.
#[derive(Debug, Drop)]
pub struct StepTicker {
    at: u64,
    step: u64,
}

impl Model for StepTicker {
    ghost use Rattle.std.specs.Prelude.{ℕ, ◌≤◌, ◌^◌};
    ghost use Rattle.jm_edge.specs.Ticks.{stepping};

    ghost Value = { ℕ × ℕ };

    ghost view = { λ t. (t.at, t.step) };

    ghost invariant = { λ t. t.at ≤ 2 ^ 62 };
}

impl StepTicker {
    /// A clock whose first moment is `at`, which is at most 2^62.
    pub fn new(at: u64, step: u64) -> StepTicker
        requires { at ≤ 2 ^ 62 }
        ensures { result ≡ (at, step) }
    {
        StepTicker { at, step }
    }
}

impl Ticker for StepTicker {
    ghost use Rattle.std.specs.Prelude.{Some};
    ghost use Rattle.jm_edge.specs.Ticks.{stepping};

    ghost coming = { λ t. Some (stepping t.0 t.1) };

    fn now(&mut self) -> u64 {
        let now = self.at;
        self.at = now.saturating_add(self.step).min(1 << 62);
        now
    }
}
