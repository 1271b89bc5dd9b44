//! The sender: when it cuts a packet, and what comes of it.

ghost use Rattle.std.specs.Prelude.{◌≡◌, ◌≤◌, ◌+◌, length};
ghost use Rattle.jm_desk.specs.Sharing.{IsOf};
ghost use Rattle.jm_serve.specs.Acts.{GoesOn};
ghost use Rattle.jm_serve.specs.Pump.{is_due, settled, Ended, Parts, CutsAll, Pumps};

use crate::desk_calls::{cut_once, leave_once};
use crate::sender::{Pumped, Sender};
use jm_book::{Cutted, Gone};
use jm_desk::{Desk, Pass};
use jm_edge::{Gate, Port};
use jm_wire::Octets;
use std::alloc::AllocError;
use std::sync::Wait;

// How many participants one call takes out at most.
const MOST_DEPARTURES: u32 = 32;

// Whether a packet is due.
fn is_due(at_once: bool, now: u64, sender: &Sender) -> bool
    ensures { result ≡ is_due at_once now sender.now }
{
    let passed = now.saturating_sub(sender.last_cut);
    at_once || sender.owed && 100 <= passed || 10_000 <= passed
}

// Cuts, and takes out the participant that is too far behind, if one is. `None` where it did.
fn part_once<R: Wait, P: Port, G: Gate>(
    rt: &R,
    desk: &Desk,
    pass: &mut Pass,
    port: &mut P,
    out: &mut Octets,
    now: u64,
    gate: &G,
    call: &mut u32,
    faults: &mut u64,
) -> Result<Option<Pumped>, AllocError>
    requires own { IsOf desk.now pass.old }
    requires room { 21100 ≤ out.old.spare + length out.old.octets }
    ensures own { IsOf desk.now pass.new }
    ensures rest { GoesOn pass.old pass.new }
    ensures room { 21100 ≤ out.new.spare + length out.new.octets }
    ensures parts { Parts desk.now now result
        (record { pass = pass.old; wire = P.wire port.old; call = call.old; faults = faults.old })
        (record { pass = pass.new; wire = P.wire port.new; call = call.new; faults = faults.new }) }
{
    match cut_once(rt, desk, pass, port, out, now, gate, call, faults) {
        Err(none) => Err(none),
        Ok(answer) => match answer {
            Cutted::Packet { number } => Ok(Some(Pumped::Packet { number })),
            Cutted::RecordFull { events } => Ok(Some(Pumped::RecordFull { events })),
            Cutted::Behind { ssrc, mark: _mark } => {
                match leave_once(rt, desk, pass, gate, ssrc, call) {
                    Err(none) => Err(none),
                    Ok(gone) => match gone {
                        Gone::RecordFull { events } => Ok(Some(Pumped::RecordFull { events })),
                        Gone::Left => Ok(None),
                        Gone::UnknownSsrc => Ok(None),
                    },
                }
            }
        },
    }
}

// Cuts behind the last departure that is made in one call.
fn cut_last<R: Wait, P: Port, G: Gate>(
    rt: &R,
    desk: &Desk,
    pass: &mut Pass,
    port: &mut P,
    out: &mut Octets,
    now: u64,
    gate: &G,
    call: &mut u32,
    faults: &mut u64,
) -> Result<Pumped, AllocError>
    requires own { IsOf desk.now pass.old }
    requires room { 21100 ≤ out.old.spare + length out.old.octets }
    ensures own { IsOf desk.now pass.new }
    ensures rest { GoesOn pass.old pass.new }
    ensures room { 21100 ≤ out.new.spare + length out.new.octets }
    ensures ended { Ended desk.now now 32 result
        (record { pass = pass.old; wire = P.wire port.old; call = call.old; faults = faults.old })
        (record { pass = pass.new; wire = P.wire port.new; call = call.new; faults = faults.new }) }
{
    match cut_once(rt, desk, pass, port, out, now, gate, call, faults) {
        Err(none) => Err(none),
        Ok(answer) => match answer {
            Cutted::Packet { number } => Ok(Pumped::Packet { number }),
            Cutted::RecordFull { events } => Ok(Pumped::RecordFull { events }),
            Cutted::Behind { ssrc, mark } => Ok(Pumped::Behind { ssrc, mark }),
        },
    }
}

// Cuts until a packet is cut, and takes out who is too far behind.
fn cut_all<R: Wait, P: Port, G: Gate>(
    rt: &R,
    desk: &Desk,
    pass: &mut Pass,
    port: &mut P,
    out: &mut Octets,
    now: u64,
    gate: &G,
    call: &mut u32,
    faults: &mut u64,
) -> Result<Pumped, AllocError>
    requires own { IsOf desk.now pass.old }
    requires room { 21100 ≤ out.old.spare + length out.old.octets }
    ensures own { IsOf desk.now pass.new }
    ensures rest { GoesOn pass.old pass.new }
    ensures room { 21100 ≤ out.new.spare + length out.new.octets }
    ensures cuts { CutsAll desk.now now result
        (record { pass = pass.old; wire = P.wire port.old; call = call.old; faults = faults.old })
        (record { pass = pass.new; wire = P.wire port.new; call = call.new; faults = faults.new }) }
{
    for _departed in 0..MOST_DEPARTURES {
        match part_once(rt, desk, pass, port, out, now, gate, call, faults) {
            Err(none) => return Err(none),
            Ok(parted) => match parted {
                Some(pumped) => return Ok(pumped),
                None => {}
            },
        }
    }
    cut_last(rt, desk, pass, port, out, now, gate, call, faults)
}

// A packet sets the moment of the last one, and nothing is owed then.
fn settle(now: u64, pumped: &Result<Pumped, AllocError>, sender: &mut Sender)
    ensures { sender.new ≡ settled now pumped.now sender.old }
{
    if let Ok(Pumped::Packet { .. }) = pumped {
        sender.last_cut = now;
        sender.owed = false;
    }
}

/// Cuts a packet at the moment `now`, in units of 100 microseconds, where one is due: 100 units after the last one, if a play
/// was accepted since, or 10,000 units after it, or with `at_once`. The packet goes to each address that the session then sends
/// to; a send that fails is passed over and counted. Where a cut is answered that a participant is too far behind, that one is
/// taken out and the next cut is tried, after at most 32 departures. Calls and failed sends are counted in `sender` whatever
/// comes of it. Of a message that waits in segments (RFC 6295, section 3.2) a packet has one.
///
/// `out` has room for 21,100 octets.
///
/// # Errors
/// Where there was no memory for one more step at a call on the desk. The calls before it were made.
pub fn pump<R: Wait, P: Port, G: Gate>(
    rt: &R,
    desk: &Desk,
    pass: &mut Pass,
    port: &mut P,
    out: &mut Octets,
    now: u64,
    gate: &G,
    sender: &mut Sender,
    at_once: bool,
) -> Result<Pumped, AllocError>
    requires own { IsOf desk.now pass.old }
    requires room { 21100 ≤ out.old.spare + length out.old.octets }
    ensures own { IsOf desk.now pass.new }
    ensures rest { GoesOn pass.old pass.new }
    ensures room { 21100 ≤ out.new.spare + length out.new.octets }
    ensures pumps { Pumps desk.now at_once now result sender.old sender.new
        (record { pass = pass.old; wire = P.wire port.old; call = sender.old.call; faults = sender.old.send_faults })
        (record { pass = pass.new; wire = P.wire port.new; call = sender.new.call; faults = sender.new.send_faults }) }
{
    if !is_due(at_once, now, sender) {
        return Ok(Pumped::Idle);
    }
    let pumped = cut_all(
        rt,
        desk,
        pass,
        port,
        out,
        now,
        gate,
        &mut sender.call,
        &mut sender.send_faults,
    );
    settle(now, &pumped, sender);
    pumped
}
