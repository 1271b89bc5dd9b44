//! Which hosts a group takes.

ghost use Rattle.std.specs.Prelude.{◌≡◌, ◌≤◌};
ghost use Rattle.jm_groups.specs.Routes.{meets};

/// It takes the hosts that begin with the same bits as its own.
#[derive(Clone, Copy, Debug, PartialEq, Eq)]
pub struct Route {
    /// An IPv4 address, its first octet the highest.
    pub host: u32,
    /// How many of its bits count, from the highest on: 0 to 32. With 0 every host is taken.
    pub bits: u8,
}

// Whether this host begins with the bits that count.
pub(crate) fn is_met(route: &Route, host: u32) -> bool
    requires { route.now.bits ≤ 32 }
    ensures { result ≡ meets host route.now }
{
    let others = 32 - route.bits;
    u64::from(host) >> others == u64::from(route.host) >> others
}
