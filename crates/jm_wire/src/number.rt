//! Numbers of which the low 16 bits alone are sent (RFC 6295, section 2.1).

ghost use Rattle.std.specs.Prelude.{◌≡◌, ◌≤◌, ◌^◌};
ghost use Rattle.jm_wire.specs.Numbers.{IsNextWith, extend16};

/// The least number not below `near` whose low 16 bits are `low`.
pub fn extend16(near: u64, low: u16) -> u64
    requires { near ≤ 2 ^ 62 }
    ensures next { IsNextWith near low result }
    ensures value { result ≡ extend16 near low }
{
    let near_low = (near % 65_536) as u16;
    near + u64::from(low.wrapping_sub(near_low))
}
