//! A whole call.

ghost use Rattle.std.specs.Prelude.{◌≡◌, ◌+◌, ◌<◌, ◌≤◌, length};
ghost use Rattle.apple_call.specs.Whole.{CallEnds};

use crate::turns::{TurnsEnd, call_turns, hang_up};
use apple_invite::{Inviter, Phase};
use jm_edge::{Addr, Port, Ticker};
use jm_wire::Octets;

/// What a call came to.
#[derive(Clone, Copy, Debug, PartialEq, Eq)]
pub struct CallEnd {
    /// How its turns came to their end.
    pub end: TurnsEnd,
    /// How far the invitation had come behind the turns, before it was closed.
    pub phase: Phase,
    /// How often the clocks were compared.
    pub clocks: u64,
}

/// Calls the host whose control port is at `to`: takes turns with its inviter as [`call_turns`] does, and then ends the call as
/// [`hang_up`] does, also where a receive failed.
///
/// `buf` has 65,536 octets, and `out` room for 80.
pub fn call_host<P: Port, C: Ticker>(
    mut inviter: Inviter,
    to: Addr,
    turns: u32,
    control: &mut P,
    data_port: &mut P,
    clock: &mut C,
    buf: &mut [u8],
    out: &mut Octets,
) -> CallEnd
    requires to { to.port < 65535 }
    requires buf { length buf.old ≡ 65536 }
    requires room { 80 ≤ out.old.spare + length out.old.octets }
    ensures room { 80 ≤ out.new.spare + length out.new.octets }
    ensures ends { CallEnds result.end turns result.phase result.clocks to inviter
        (record { control = P.wire control.old; rtp = P.wire data_port.old; coming = C.coming clock.old })
        (record { control = P.wire control.new; rtp = P.wire data_port.new; coming = C.coming clock.new }) }
{
    let called = call_turns(&mut inviter, to, turns, control, data_port, clock, buf, out);
    let phase = inviter.phase();
    hang_up(&mut inviter, to, control, data_port, out);
    CallEnd {
        end: called.end,
        phase,
        clocks: called.clocks,
    }
}
