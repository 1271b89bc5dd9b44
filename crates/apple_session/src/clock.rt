//! The offset between two clocks.

ghost use Rattle.std.specs.Prelude.{◌≡◌};
ghost use Rattle.apple_session.specs.Machine.{offset};

/// How much more the peer's clock shows than the host's, in units of 100 microseconds: the middle of the
/// peer's two moments, rounded down, less the host's moment between them.
pub fn offset(times: &[u64; 3]) -> i128
    ensures { result ≡ offset times.now }
{
    let middle = (u128::from(times[0]) + u128::from(times[2])) / 2;
    middle as i128 - i128::from(times[1])
}
