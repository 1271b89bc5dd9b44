//! The rounds of a worker, one after another.

ghost use Rattle.std.specs.Prelude.{◌≡◌, ◌≤◌, ◌+◌, length, IfOk};
ghost use Rattle.jm_edge.specs.Wire.{Letter};
ghost use Rattle.jm_desk.specs.Sharing.{IsOf, config_of};
ghost use Rattle.jm_serve.specs.Acts.{GoesOn};
ghost use Rattle.jm_serve.specs.Rounds.{Round, letter_of, DoesRound, TakesRound, MakesRounds};

use crate::worked::{Rounded, WorkEnd};
use jm_desk::{Desk, Pass};
use jm_edge::{Addr, Gate, LONGEST_DATAGRAM, Port, Recv, Ticker};
use jm_wire::Octets;
use std::alloc::{AllocError, Global};
use std::sync::Wait;

// What a worker does in its rounds.
pub trait Worker {
    ghost use Rattle.jm_book.specs.declared.steps.Config.{Config};
    ghost use Rattle.std.specs.Prelude.{ℕ};

    // What a round does, with what the worker keeps before and after it.
    ghost does: { Config → Self → Round → Self → Type 0 };

    // The number of its next call on a desk, and how many of its sends failed.
    ghost call: { Self → ℕ };

    ghost faults: { Self → ℕ };

    // One round for one desk, with a datagram of these octets, where one came.
    fn round<R: Wait, P: Port, G: Gate>(
        &mut self,
        rt: &R,
        desk: &Desk,
        pass: &mut Pass,
        port: &mut P,
        out: &mut Octets,
        from: Option<Addr>,
        octets: &[u8],
        now: u64,
        gate: &G,
        alloc: Global,
    ) -> Rounded
        requires own { IsOf desk.now pass.old }
        requires room { 21100 ≤ out.old.spare + length out.old.octets }
        ensures own { IsOf desk.now pass.new }
        ensures rest { GoesOn pass.old pass.new }
        ensures room { 21100 ≤ out.new.spare + length out.new.octets }
        ensures round { DoesRound (does (config_of desk.now)) desk.now (letter_of from octets.now) now result self.old self.new
            (record { pass = pass.old; wire = P.wire port.old; call = call self.old; faults = faults self.old })
            (record { pass = pass.new; wire = P.wire port.new; call = call self.new; faults = faults self.new }) };
}

// A receive failed.
#[derive(Clone, Copy, Debug, PartialEq, Eq)]
pub struct RecvFailed;

// One receive, and then, unless that failed, the moment and what follows from both.
fn take_round<W: Worker, R: Wait, P: Port, C: Ticker, G: Gate>(
    worker: &mut W,
    rt: &R,
    desk: &Desk,
    pass: &mut Pass,
    port: &mut P,
    ticks: &mut C,
    gate: &G,
    buf: &mut [u8],
    out: &mut Octets,
    alloc: Global,
) -> Result<Rounded, RecvFailed>
    requires own { IsOf desk.now pass.old }
    requires len { length buf.old ≡ 65536 }
    requires room { 21100 ≤ out.old.spare + length out.old.octets }
    ensures own { IsOf desk.now pass.new }
    ensures rest { GoesOn pass.old pass.new }
    ensures len { length buf.new ≡ 65536 }
    ensures room { 21100 ≤ out.new.spare + length out.new.octets }
    ensures takes { TakesRound (W.does (config_of desk.now)) desk.now result worker.old worker.new
        (record { scene = record { pass = pass.old; wire = P.wire port.old; call = W.call worker.old; faults = W.faults worker.old }; coming = C.coming ticks.old })
        (record { scene = record { pass = pass.new; wire = P.wire port.new; call = W.call worker.new; faults = W.faults worker.new }; coming = C.coming ticks.new }) }
{
    match port.recv(buf) {
        Recv::Failed => Err(RecvFailed),
        Recv::Quiet => {
            let now = ticks.now();
            Ok(worker.round(rt, desk, pass, port, out, None, &[], now, gate, alloc))
        }
        Recv::Got { len, from } => {
            let now = ticks.now();
            Ok(worker.round(
                rt,
                desk,
                pass,
                port,
                out,
                Some(from),
                &buf[..len],
                now,
                gate,
                alloc,
            ))
        }
    }
}

// Makes so many rounds.
fn make_rounds<W: Worker, R: Wait, P: Port, C: Ticker, G: Gate>(
    worker: &mut W,
    rt: &R,
    desk: &Desk,
    pass: &mut Pass,
    port: &mut P,
    ticks: &mut C,
    gate: &G,
    turns: u32,
    buf: &mut [u8],
    out: &mut Octets,
    alloc: Global,
) -> WorkEnd
    requires own { IsOf desk.now pass.old }
    requires len { length buf.old ≡ 65536 }
    requires room { 21100 ≤ out.old.spare + length out.old.octets }
    ensures own { IsOf desk.now pass.new }
    ensures rest { GoesOn pass.old pass.new }
    ensures makes { MakesRounds (W.does (config_of desk.now)) worker.old desk.now turns result
        (record { scene = record { pass = pass.old; wire = P.wire port.old; call = W.call worker.old; faults = W.faults worker.old }; coming = C.coming ticks.old })
        (record { scene = record { pass = pass.new; wire = P.wire port.new; call = W.call worker.new; faults = W.faults worker.new }; coming = C.coming ticks.new }) }
{
    for _made in 0..turns {
        match take_round(worker, rt, desk, pass, port, ticks, gate, buf, out, alloc) {
            Err(RecvFailed) => return WorkEnd::RecvFailed,
            Ok(came) => match came {
                Rounded::Whole => {}
                Rounded::RecordFull => return WorkEnd::RecordFull,
                Rounded::NoMemory => return WorkEnd::NoMemory,
            },
        }
    }
    WorkEnd::Made
}

// The buffer that receives fill.
fn new_buffer(alloc: Global) -> Result<Vec<u8>, AllocError>
    ensures { IfOk result (λ buf. length buf.items ≡ 65536) }
{
    Ok(vec![in alloc; 0u8; LONGEST_DATAGRAM]?)
}

// Makes so many rounds, with memory for what is received and sent.
pub fn serve<W: Worker, R: Wait, P: Port, C: Ticker, G: Gate>(
    worker: &mut W,
    rt: &R,
    desk: &Desk,
    pass: &mut Pass,
    port: &mut P,
    ticks: &mut C,
    gate: &G,
    turns: u32,
    alloc: Global,
) -> WorkEnd
    requires own { IsOf desk.now pass.old }
    ensures own { IsOf desk.now pass.new }
    ensures rest { GoesOn pass.old pass.new }
    ensures makes { MakesRounds (W.does (config_of desk.now)) worker.old desk.now turns result
        (record { scene = record { pass = pass.old; wire = P.wire port.old; call = W.call worker.old; faults = W.faults worker.old }; coming = C.coming ticks.old })
        (record { scene = record { pass = pass.new; wire = P.wire port.new; call = W.call worker.new; faults = W.faults worker.new }; coming = C.coming ticks.new }) }
{
    let mut buf = match new_buffer(alloc) {
        Ok(buf) => buf,
        Err(_none) => return WorkEnd::NoMemory,
    };
    let mut out = match Octets::with_room(21_100, alloc) {
        Ok(out) => out,
        Err(_none) => return WorkEnd::NoMemory,
    };
    make_rounds(
        worker, rt, desk, pass, port, ticks, gate, turns, &mut buf, &mut out, alloc,
    )
}
