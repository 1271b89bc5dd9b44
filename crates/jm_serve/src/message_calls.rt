// Single messages at a desk, round which a gate is called, with what is sent for them.
ghost use Rattle.std.specs.Prelude.{◌≡◌, ◌≤◌, ◌+◌, [], ◌∷◌, length};
ghost use Rattle.jm_desk.specs.Sharing.{IsOf};
ghost use Rattle.jm_serve.specs.Exchange.{Posts};
ghost use Rattle.jm_serve.specs.Acts.{GoesOn};
ghost use Rattle.jm_serve.specs.Messages.{letter_with, reply_to, reports_to, SaysOnce, Tells, ReportsOnce};

use crate::sending::send_one;
use crate::worked::{CONTROL_WORKER, Rounded};
use apple_msg::{Message, write_message};
use apple_session::PortKind;
use jm_book::{Acted, FeedbackEntry, FeedbackList, Given, Said};
use jm_desk::{Desk, Pass, Turned};
use jm_edge::{Addr, Gate, Port};
use jm_wire::Octets;
use std::alloc::AllocError;
use std::sync::Wait;

// What came of a message that the session was told.
#[derive(Clone, Copy)]
pub enum Told {
    Done(Acted),
    RecordFull,
    NoMemory,
}

// Sends a message. A send that fails is passed over and counted.
pub fn post<P: Port>(port: &mut P, to: Addr, message: &Message, out: &mut Octets, faults: &mut u64)
    requires { 21100 ≤ out.old.spare + length out.old.octets }
    ensures room { 21100 ≤ out.new.spare + length out.new.octets }
    ensures posts { Posts [] (letter_with to message.now ∷ []) faults.old faults.new (P.wire port.old) (P.wire port.new) }
{
    // For the prover, which learns by it how long the text is.
    let _len = message.written_len();
    out.clear();
    write_message(message, out);
    send_one(port, to, out.as_slice(), faults);
}

// Sends a reply, if there is one.
fn reply<P: Port>(
    port: &mut P,
    to: Addr,
    message: &Option<Message>,
    out: &mut Octets,
    faults: &mut u64,
)
    requires { 21100 ≤ out.old.spare + length out.old.octets }
    ensures room { 21100 ≤ out.new.spare + length out.new.octets }
    ensures posts { Posts [] (reply_to to message.now) faults.old faults.new (P.wire port.old) (P.wire port.new) }
{
    if let Some(message) = message {
        post(port, to, message, out, faults);
    }
}

// Tells the session a message.
fn say_once<R: Wait, G: Gate>(
    rt: &R,
    desk: &Desk,
    pass: &mut Pass,
    kind: PortKind,
    from: Addr,
    message: &Message,
    now: u64,
    gate: &G,
    worker: u8,
    call: &mut u32,
) -> Result<Said, AllocError>
    requires own { IsOf desk.now pass.old }
    ensures own { IsOf desk.now pass.new }
    ensures rest { GoesOn pass.old pass.new }
    ensures says { SaysOnce desk.now kind from message.now now result pass.old pass.new call.old call.new }
{
    gate.before(rt, worker, *call);
    let came = desk.say(rt, pass, kind, from, message, now);
    gate.after(rt, worker, *call);
    *call = call.wrapping_add(1);
    match came {
        Err(none) => Err(none),
        Ok(Turned { answer, .. }) => match answer {
            Said::RecordFull { events } => Ok(Said::RecordFull { events }),
            Said::Done {
                reply: message,
                act,
            } => Ok(Said::Done {
                reply: message,
                act,
            }),
        },
    }
}

// Tells the session a message that came to this port, and sends its reply to where the message came from.
pub fn tell<R: Wait, P: Port, G: Gate>(
    rt: &R,
    desk: &Desk,
    pass: &mut Pass,
    port: &mut P,
    out: &mut Octets,
    kind: PortKind,
    from: Addr,
    message: &Message,
    now: u64,
    gate: &G,
    worker: u8,
    call: &mut u32,
    faults: &mut u64,
) -> Told
    requires own { IsOf desk.now pass.old }
    requires room { 21100 ≤ out.old.spare + length out.old.octets }
    ensures own { IsOf desk.now pass.new }
    ensures rest { GoesOn pass.old pass.new }
    ensures room { 21100 ≤ out.new.spare + length out.new.octets }
    ensures tells { Tells desk.now kind from message.now now result
        (record { pass = pass.old; wire = P.wire port.old; call = call.old; faults = faults.old })
        (record { pass = pass.new; wire = P.wire port.new; call = call.new; faults = faults.new }) }
{
    match say_once(rt, desk, pass, kind, from, message, now, gate, worker, call) {
        Err(_none) => Told::NoMemory,
        Ok(said) => match said {
            Said::RecordFull { events: _events } => Told::RecordFull,
            Said::Done {
                reply: message,
                act,
            } => {
                reply(port, from, &message, out, faults);
                Told::Done(act)
            }
        },
    }
}

// Sends to each of these what the host reports to it.
fn send_reports<P: Port>(
    port: &mut P,
    ssrc: u32,
    entries: &[FeedbackEntry],
    out: &mut Octets,
    faults: &mut u64,
)
    requires { 21100 ≤ out.old.spare + length out.old.octets }
    ensures room { 21100 ≤ out.new.spare + length out.new.octets }
    ensures posts { Posts [] (reports_to ssrc entries.now) faults.old faults.new (P.wire port.old) (P.wire port.new) }
{
    for entry in entries {
        let report = Message::Feedback {
            ssrc,
            seq: entry.seq,
        };
        post(port, entry.to, &report, out, faults);
    }
}

// Asks the session what is to be reported, and sends it.
pub fn report_once<R: Wait, P: Port, G: Gate>(
    rt: &R,
    desk: &Desk,
    pass: &mut Pass,
    port: &mut P,
    out: &mut Octets,
    gate: &G,
    call: &mut u32,
    faults: &mut u64,
) -> Rounded
    requires own { IsOf desk.now pass.old }
    requires room { 21100 ≤ out.old.spare + length out.old.octets }
    ensures own { IsOf desk.now pass.new }
    ensures rest { GoesOn pass.old pass.new }
    ensures room { 21100 ≤ out.new.spare + length out.new.octets }
    ensures reports { ReportsOnce desk.now result
        (record { pass = pass.old; wire = P.wire port.old; call = call.old; faults = faults.old })
        (record { pass = pass.new; wire = P.wire port.new; call = call.new; faults = faults.new }) }
{
    let mut list = FeedbackList::new();
    gate.before(rt, CONTROL_WORKER, *call);
    let came = desk.feedback(rt, pass, &mut list);
    gate.after(rt, CONTROL_WORKER, *call);
    *call = call.wrapping_add(1);
    match came {
        Err(_none) => Rounded::NoMemory,
        Ok(Turned { answer, .. }) => match answer {
            Given::RecordFull { events: _events } => Rounded::RecordFull,
            Given::Given => {
                send_reports(port, desk.ssrc(), list.as_slice(), out, faults);
                Rounded::Whole
            }
        },
    }
}
