// One datagram through a port.
ghost use Rattle.std.specs.Prelude.{◌≡◌, ◌+◌, ◌≤◌, [], ◌∷◌, length, IfOk, OnErr};
ghost use Rattle.apple_msg.specs.Spelling.{text};
ghost use Rattle.apple_call.specs.Exchange.{Breaks};
ghost use Rattle.jm_edge.specs.Exchange.{Exchanges};
ghost use Rattle.apple_call.specs.Hears.{Hears};

use apple_msg::{Message, read_message, write_message};
use jm_edge::{Addr, Port, Recv, Sent};
use jm_wire::Octets;

// Sends a message, and tells whether that failed.
pub fn post<P: Port>(port: &mut P, to: Addr, message: &Message, out: &mut Octets) -> bool
    requires { 80 ≤ out.old.spare + length out.old.octets }
    ensures room { 80 ≤ out.new.spare + length out.new.octets }
    ensures posts { Exchanges [] (record { letter = record { addr = to; octets = text message.now }; is_lost = result } ∷ []) (P.wire port.old) (P.wire port.new) }
{
    // For the prover, which learns by it how long the text is.
    let _len = message.written_len();
    out.clear();
    write_message(message, out);
    match port.send(to, out.as_slice()) {
        Sent::Gone => false,
        Sent::Failed => true,
    }
}

/// A receive failed.
#[derive(Clone, Copy, Debug, PartialEq, Eq)]
pub struct RecvFailed;

// Receives once. It gives what reads as a message, with the address that it came from.
pub fn receive<P: Port>(port: &mut P, buf: &mut [u8]) -> Result<Option<(Addr, Message)>, RecvFailed>
    requires { length buf.old ≡ 65536 }
    ensures len { length buf.new ≡ 65536 }
    ensures ok { IfOk result (λ heard. Hears heard (P.wire port.old) (P.wire port.new)) }
    ensures err { OnErr result (Breaks (P.wire port.old) (P.wire port.new)) }
{
    match port.recv(buf) {
        Recv::Failed => Err(RecvFailed),
        Recv::Quiet => Ok(None),
        Recv::Got { len, from } => match read_message(&buf[..len]) {
            Ok(message) => Ok(Some((from, message))),
            Err(_) => Ok(None),
        },
    }
}
