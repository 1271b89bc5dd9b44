//! The control port's worker: what it does in a round for one desk.

ghost use Rattle.std.specs.Prelude.{◌≡◌, ◌≤◌, ◌+◌, Some, length};
ghost use Rattle.jm_desk.specs.Sharing.{IsOf, config_of};
ghost use Rattle.jm_serve.specs.Acts.{GoesOn};
ghost use Rattle.jm_serve.specs.Rounds.{letter_of, DoesRound};
ghost use Rattle.jm_serve.specs.Control.{since, is_report_due, ControlRound, AnswersOnce, ReportsWhenDue};
ghost use Rattle.jm_serve.specs.ServedControl.{ServesControl};

use crate::message_calls::{Told, report_once, tell};
use crate::serving::{Worker, serve};
use crate::worked::{CONTROL_WORKER, Rounded, Worked};
use apple_msg::read_message;
use apple_session::PortKind;
use jm_desk::{Desk, Pass};
use jm_edge::{Addr, Gate, Port, Ticker};
use jm_wire::Octets;
use std::alloc::Global;
use std::sync::Wait;

/// What the control port's worker keeps from round to round.
#[derive(Clone, Copy, Debug, PartialEq, Eq)]
pub struct Reporter {
    /// The moment of the last report, or of the first round, in units of 100 microseconds. None before the first round.
    pub last_report: Option<u64>,
    /// The number of the worker's next call on a desk, modulo 2^32, as a gate is told it.
    pub call: u32,
    /// How many sends failed. It stands still at 2^64 - 1.
    pub send_faults: u64,
}

// Answers a datagram of these octets, where one came.
fn answer_given<R: Wait, P: Port, G: Gate>(
    rt: &R,
    desk: &Desk,
    pass: &mut Pass,
    port: &mut P,
    out: &mut Octets,
    from: Option<Addr>,
    octets: &[u8],
    now: u64,
    gate: &G,
    call: &mut u32,
    faults: &mut u64,
) -> Rounded
    requires own { IsOf desk.now pass.old }
    requires room { 21100 ≤ out.old.spare + length out.old.octets }
    ensures own { IsOf desk.now pass.new }
    ensures rest { GoesOn pass.old pass.new }
    ensures room { 21100 ≤ out.new.spare + length out.new.octets }
    ensures answers { AnswersOnce desk.now (letter_of from octets.now) now result
        (record { pass = pass.old; wire = P.wire port.old; call = call.old; faults = faults.old })
        (record { pass = pass.new; wire = P.wire port.new; call = call.new; faults = faults.new }) }
{
    match from {
        None => Rounded::Whole,
        Some(from) => match read_message(octets) {
            Err(_fault) => Rounded::Whole,
            Ok(message) => {
                match tell(
                    rt,
                    desk,
                    pass,
                    port,
                    out,
                    PortKind::Ctl,
                    from,
                    &message,
                    now,
                    gate,
                    CONTROL_WORKER,
                    call,
                    faults,
                ) {
                    Told::Done(_act) => Rounded::Whole,
                    Told::RecordFull => Rounded::RecordFull,
                    Told::NoMemory => Rounded::NoMemory,
                }
            }
        },
    }
}

// The moment from which the next report is counted.
fn since(last: Option<u64>, now: u64) -> u64
    ensures { result ≡ since last now }
{
    match last {
        Some(earlier) => earlier,
        None => now,
    }
}

// Whether a report is due.
fn is_report_due(last: Option<u64>, now: u64) -> bool
    ensures { result ≡ is_report_due last now }
{
    10_000 <= now.saturating_sub(since(last, now))
}

// Reports, where that is due.
fn report_when_due<R: Wait, P: Port, G: Gate>(
    rt: &R,
    desk: &Desk,
    pass: &mut Pass,
    port: &mut P,
    out: &mut Octets,
    now: u64,
    gate: &G,
    reporter: &mut Reporter,
) -> Rounded
    requires own { IsOf desk.now pass.old }
    requires room { 21100 ≤ out.old.spare + length out.old.octets }
    ensures own { IsOf desk.now pass.new }
    ensures rest { GoesOn pass.old pass.new }
    ensures room { 21100 ≤ out.new.spare + length out.new.octets }
    ensures reports { ReportsWhenDue desk.now reporter.old.last_report now result reporter.new.last_report
        (record { pass = pass.old; wire = P.wire port.old; call = reporter.old.call; faults = reporter.old.send_faults })
        (record { pass = pass.new; wire = P.wire port.new; call = reporter.new.call; faults = reporter.new.send_faults }) }
{
    if !is_report_due(reporter.last_report, now) {
        reporter.last_report = Some(since(reporter.last_report, now));
        return Rounded::Whole;
    }
    reporter.last_report = Some(now);
    report_once(
        rt,
        desk,
        pass,
        port,
        out,
        gate,
        &mut reporter.call,
        &mut reporter.send_faults,
    )
}

/// What a round of the control port's worker does for one desk at the moment `now`, in units of 100 microseconds, with the
/// datagram of these octets that came from `from`, or with none.
///
/// A datagram that reads as a message is told to the session, and a reply goes to where it came from; any other is passed
/// over. Behind that, where 10,000 units have passed since the last report, or since the first round, the session is asked
/// what is to be reported, and each peer that it names is sent that. A send that fails is passed over and counted. A call that
/// is answered that the tape is full, or that there was no memory, is the last of the round.
///
/// `out` has room for 21,100 octets.
pub fn control_round<R: Wait, P: Port, G: Gate>(
    rt: &R,
    desk: &Desk,
    pass: &mut Pass,
    port: &mut P,
    out: &mut Octets,
    from: Option<Addr>,
    octets: &[u8],
    now: u64,
    gate: &G,
    reporter: &mut Reporter,
) -> Rounded
    requires own { IsOf desk.now pass.old }
    requires room { 21100 ≤ out.old.spare + length out.old.octets }
    ensures own { IsOf desk.now pass.new }
    ensures rest { GoesOn pass.old pass.new }
    ensures room { 21100 ≤ out.new.spare + length out.new.octets }
    ensures round { DoesRound (ControlRound (config_of desk.now)) desk.now (letter_of from octets.now) now result reporter.old reporter.new
        (record { pass = pass.old; wire = P.wire port.old; call = reporter.old.call; faults = reporter.old.send_faults })
        (record { pass = pass.new; wire = P.wire port.new; call = reporter.new.call; faults = reporter.new.send_faults }) }
{
    let last = since(reporter.last_report, now);
    match answer_given(
        rt,
        desk,
        pass,
        port,
        out,
        from,
        octets,
        now,
        gate,
        &mut reporter.call,
        &mut reporter.send_faults,
    ) {
        Rounded::Whole => report_when_due(rt, desk, pass, port, out, now, gate, reporter),
        Rounded::RecordFull => {
            reporter.last_report = Some(last);
            Rounded::RecordFull
        }
        Rounded::NoMemory => {
            reporter.last_report = Some(last);
            Rounded::NoMemory
        }
    }
}

impl Worker for Reporter {
    ghost use Rattle.jm_serve.specs.Control.{ControlRound};

    ghost does = { λ config old round new. ControlRound config old round new };

    ghost call = { λ r. r.call };

    ghost faults = { λ r. r.send_faults };

    fn round<R: Wait, P: Port, G: Gate>(
        &mut self,
        rt: &R,
        desk: &Desk,
        pass: &mut Pass,
        port: &mut P,
        out: &mut Octets,
        from: Option<Addr>,
        octets: &[u8],
        now: u64,
        gate: &G,
        _alloc: Global,
    ) -> Rounded {
        control_round(rt, desk, pass, port, out, from, octets, now, gate, self)
    }
}

/// The control port's worker: it makes `turns` rounds, each of one receive, then, unless that failed, of one look at the
/// clock, whose moment holds for the whole round, and of what [`control_round`] does.
///
/// It ends earlier where a receive fails, where a call is answered that the tape is full, and where there is no memory.
pub fn serve_control<R: Wait, P: Port, C: Ticker, G: Gate>(
    rt: &R,
    desk: &Desk,
    pass: &mut Pass,
    port: &mut P,
    ticks: &mut C,
    gate: &G,
    turns: u32,
    alloc: Global,
) -> Worked
    requires own { IsOf desk.now pass.old }
    ensures own { IsOf desk.now pass.new }
    ensures rest { GoesOn pass.old pass.new }
    ensures serves { ServesControl desk.now turns result pass.old pass.new (P.wire port.old) (P.wire port.new) (C.coming ticks.old) (C.coming ticks.new) }
{
    let mut reporter = Reporter {
        last_report: None,
        call: 0,
        send_faults: 0,
    };
    let end = serve(
        &mut reporter,
        rt,
        desk,
        pass,
        port,
        ticks,
        gate,
        turns,
        alloc,
    );
    Worked {
        end,
        send_faults: reporter.send_faults,
    }
}
