// Datagrams that go out.
ghost use Rattle.std.specs.Prelude.{[], ◌∷◌};
ghost use Rattle.jm_serve.specs.Exchange.{Posts, letters_to};

use jm_edge::{Addr, Port, Sent};

// Sends these octets to this address. A send that fails is passed over and counted.
pub fn send_one<P: Port>(port: &mut P, to: Addr, octets: &[u8], faults: &mut u64)
    ensures posts { Posts [] (letters_to octets.now (to ∷ [])) faults.old faults.new (P.wire port.old) (P.wire port.new) }
{
    match port.send(to, octets) {
        Sent::Gone => {}
        Sent::Failed => *faults = faults.saturating_add(1),
    }
}

// Sends these octets to each of these addresses.
pub fn send_each<P: Port>(port: &mut P, to: &[Addr], octets: &[u8], faults: &mut u64)
    ensures posts { Posts [] (letters_to octets.now to.now) faults.old faults.new (P.wire port.old) (P.wire port.new) }
{
    for addr in to {
        send_one(port, *addr, octets, faults);
    }
}
