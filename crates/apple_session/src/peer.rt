//! Who was invited.

ghost use Rattle.std.specs.Prelude.{◌≡◌, is_some};

use crate::answer::Act;
use jm_edge::Addr;

/// A peer that was invited, and has joined exactly where `data` is there.
#[derive(Clone, Copy, Debug, PartialEq, Eq)]
pub struct Peer {
    /// The number by which it names itself.
    pub ssrc: u32,
    /// The number of its invitation.
    pub token: u32,
    /// Where its invitation on the control port came from.
    pub control: Addr,
    /// Where its invitation on the data port came from.
    pub data: Option<Addr>,
}

impl Peer {
    ghost use Rattle.apple_session.specs.Peers.{is_joined};
    ghost use Rattle.apple_session.specs.Machine.{ends};

    /// Whether it takes part.
    pub fn is_joined(&self) -> bool
        ensures { result ≡ is_joined self.now }
    {
        self.data.is_some()
    }

    /// What its end comes to.
    pub(crate) fn ends(&self) -> Act
        ensures { result ≡ ends self.now }
    {
        if self.is_joined() {
            Act::Leave(self.ssrc)
        } else {
            Act::Plain
        }
    }
}

impl Default for Peer {
    fn default() -> Peer {
        Peer {
            ssrc: 0,
            token: 0,
            control: Addr { host: 0, port: 0 },
            data: None,
        }
    }
}
