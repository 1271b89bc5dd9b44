// Single calls at a desk, round which a gate is called, with what they send.
ghost use Rattle.std.specs.Prelude.{◌≡◌, ◌≤◌, ◌+◌, length};
ghost use Rattle.jm_desk.specs.Sharing.{IsOf};
ghost use Rattle.jm_serve.specs.Acts.{GoesOn};
ghost use Rattle.jm_serve.specs.Pump.{CutsOnce, LeavesOnce};

use crate::sender::DATA_WORKER;
use crate::sending::send_each;
use jm_book::{AddrList, Cutted, Gone};
use jm_desk::{Desk, Pass, Turned};
use jm_edge::{Gate, Port};
use jm_wire::Octets;
use std::alloc::AllocError;
use std::sync::Wait;

// Cuts once, and sends the packet to each address of the session. `out` has room for 21,100 octets.
pub fn cut_once<R: Wait, P: Port, G: Gate>(
    rt: &R,
    desk: &Desk,
    pass: &mut Pass,
    port: &mut P,
    out: &mut Octets,
    now: u64,
    gate: &G,
    call: &mut u32,
    faults: &mut u64,
) -> Result<Cutted, AllocError>
    requires own { IsOf desk.now pass.old }
    requires room { 21100 ≤ out.old.spare + length out.old.octets }
    ensures own { IsOf desk.now pass.new }
    ensures rest { GoesOn pass.old pass.new }
    ensures room { 21100 ≤ out.new.spare + length out.new.octets }
    ensures cuts { CutsOnce desk.now now result
        (record { pass = pass.old; wire = P.wire port.old; call = call.old; faults = faults.old })
        (record { pass = pass.new; wire = P.wire port.new; call = call.new; faults = faults.new }) }
{
    let mut to = AddrList::new();
    out.clear();
    gate.before(rt, DATA_WORKER, *call);
    let came = desk.cut(rt, pass, now, out, &mut to);
    gate.after(rt, DATA_WORKER, *call);
    *call = call.wrapping_add(1);
    match came {
        Err(none) => Err(none),
        Ok(Turned { answer, .. }) => match answer {
            Cutted::Packet { number } => {
                send_each(port, to.as_slice(), out.as_slice(), faults);
                Ok(Cutted::Packet { number })
            }
            Cutted::RecordFull { events } => Ok(Cutted::RecordFull { events }),
            Cutted::Behind { ssrc, mark } => Ok(Cutted::Behind { ssrc, mark }),
        },
    }
}

// Takes this participant out.
pub fn leave_once<R: Wait, G: Gate>(
    rt: &R,
    desk: &Desk,
    pass: &mut Pass,
    gate: &G,
    ssrc: u32,
    call: &mut u32,
) -> Result<Gone, AllocError>
    requires own { IsOf desk.now pass.old }
    ensures own { IsOf desk.now pass.new }
    ensures rest { GoesOn pass.old pass.new }
    ensures leaves { LeavesOnce desk.now ssrc result pass.old pass.new call.old call.new }
{
    gate.before(rt, DATA_WORKER, *call);
    let came = desk.leave(rt, pass, ssrc);
    gate.after(rt, DATA_WORKER, *call);
    *call = call.wrapping_add(1);
    match came {
        Err(none) => Err(none),
        Ok(Turned { answer, .. }) => match answer {
            Gone::Left => Ok(Gone::Left),
            Gone::UnknownSsrc => Ok(Gone::UnknownSsrc),
            Gone::RecordFull { events } => Ok(Gone::RecordFull { events }),
        },
    }
}
