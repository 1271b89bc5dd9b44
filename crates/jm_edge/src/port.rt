// Where datagrams come from and go to.
ghost use Rattle.std.specs.Prelude.{◌≡◌, ◌≤◌, length};
ghost use Rattle.jm_edge.specs.Wire.{Wire, IsWithin, Receives, Sends};

use super::Addr;

/// The number of octets of the buffer that a `recv` fills.
pub const LONGEST_DATAGRAM: usize = 65_536;

/// What one `recv` gave.
#[derive(Clone, Copy, Debug, PartialEq, Eq)]
pub enum Recv {
    /// A datagram of `len` octets came from this address. It stands at the front of the buffer.
    Got {
        /// How many octets it has, at most 65,536.
        len: usize,
        /// Where it came from.
        from: Addr,
    },
    /// No datagram is there now.
    Quiet,
    /// The call failed and took nothing.
    Failed,
}

/// What became of a datagram that was to be sent.
#[derive(Clone, Copy, Debug, PartialEq, Eq)]
pub enum Sent {
    /// It went out.
    Gone,
    /// It didn't.
    Failed,
}

/// Datagrams that come in order, and that go out.
pub trait Port {
    /// The datagrams still to come and those that went out, where the port tells them, and how many calls of each
    /// kind have failed. The counts never fall.
    ghost wire: { Self → Wire };

    /// Takes the next datagram into the front of `buf`, which has 65,536 octets.
    ///
    /// `Quiet` comes only where none is arriving, and `Failed` only where the count of failed receives rose in
    /// this call. What went out stays as it was.
    fn recv(&mut self, buf: &mut [u8]) -> Recv
        requires { length buf.old ≡ 65536 }
        ensures within { IsWithin result }
        ensures len { length buf.new ≡ 65536 }
        ensures receives { Receives result buf.new (wire self.old) (wire self.new) };

    /// Sends a datagram of these octets.
    ///
    /// `Failed` comes only where the count of failed sends rose in this call. What is arriving stays as it was.
    fn send(&mut self, to: Addr, octets: &[u8]) -> Sent
        ensures sends { Sends result (record { addr = to; octets = octets.now }) (wire self.old) (wire self.new) };
}
