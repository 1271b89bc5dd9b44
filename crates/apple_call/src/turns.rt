//! The turns of a call.

ghost use Rattle.std.specs.Prelude.{◌≡◌, ◌+◌, ◌^◌, ◌<◌, ◌≤◌, [], ◌∷◌, length};
ghost use Rattle.jm_edge.specs.Ticks.{Ticks};
ghost use Rattle.apple_session.specs.declared.answer.PortKind.TheVariants.{Ctl, Rtp};
ghost use Rattle.apple_invite.specs.Caller.{address_of, phase_of};
ghost use Rattle.apple_invite.specs.Machine.{ticks, closes};
ghost use Rattle.apple_call.specs.Exchange.{Breaks};
ghost use Rattle.jm_edge.specs.Exchange.{Exchanges};
ghost use Rattle.apple_call.specs.Turns.{hearing, clocks_by, closing, Posts, Does, Comes};

use crate::exchange::{RecvFailed, post, receive};
use apple_invite::{DialAct, Dialed, Inviter, Phase};
use apple_msg::Message;
use apple_session::PortKind;
use jm_edge::{Addr, Port, Ticker};
use jm_wire::Octets;

/// How turns came to their end.
#[derive(Clone, Copy, Debug, PartialEq, Eq)]
pub enum TurnsEnd {
    /// All were made.
    Made,
    /// A receive of the control port failed, and with it the turn and those behind it ended.
    ControlFailed,
    /// A receive of the data port did.
    DataFailed,
}

/// What turns came to.
#[derive(Clone, Copy, Debug, PartialEq, Eq)]
pub struct Called {
    pub end: TurnsEnd,
    /// How often the clocks were compared.
    pub clocks: u64,
}

// The data port's address.
fn data_address(to: Addr) -> Addr
    requires { to.port < 65535 }
    ensures { result ≡ address_of to Rtp }
{
    Addr {
        host: to.host,
        port: to.port + 1,
    }
}

// Sends what a call gave, on its port.
fn send<P: Port>(
    to: Addr,
    message: Option<(PortKind, Message)>,
    control: &mut P,
    data_port: &mut P,
    out: &mut Octets,
)
    requires to { to.port < 65535 }
    requires room { 80 ≤ out.old.spare + length out.old.octets }
    ensures room { 80 ≤ out.new.spare + length out.new.octets }
    ensures on_control { Posts Ctl to message (P.wire control.old) (P.wire control.new) }
    ensures on_data { Posts Rtp to message (P.wire data_port.old) (P.wire data_port.new) }
{
    match message {
        None => {}
        Some((PortKind::Ctl, message)) => {
            let _lost = post(control, to, &message, out);
        }
        Some((PortKind::Rtp, message)) => {
            let _lost = post(data_port, data_address(to), &message, out);
        }
    }
}

// Does what a call gave, and tells how often it compared the clocks: once or not at all.
fn carry_out<P: Port>(
    to: Addr,
    dialed: Dialed,
    control: &mut P,
    data_port: &mut P,
    out: &mut Octets,
) -> u64
    requires to { to.port < 65535 }
    requires room { 80 ≤ out.old.spare + length out.old.octets }
    ensures room { 80 ≤ out.new.spare + length out.new.octets }
    ensures clocks { result ≡ clocks_by dialed.act }
    ensures on_control { Posts Ctl to dialed.send (P.wire control.old) (P.wire control.new) }
    ensures on_data { Posts Rtp to dialed.send (P.wire data_port.old) (P.wire data_port.new) }
{
    let Dialed { send: message, act } = dialed;
    send(to, message, control, data_port, out);
    match act {
        DialAct::Clocked { .. } => 1,
        DialAct::Plain | DialAct::Opened | DialAct::Ended(_) | DialAct::Ignored => 0,
    }
}

// The moment is told to the inviter.
fn tick<P: Port>(
    inviter: &mut Inviter,
    to: Addr,
    now: u64,
    control: &mut P,
    data_port: &mut P,
    out: &mut Octets,
) -> u64
    requires to { to.port < 65535 }
    requires now { now ≤ 2 ^ 62 }
    requires room { 80 ≤ out.old.spare + length out.old.octets }
    ensures room { 80 ≤ out.new.spare + length out.new.octets }
    ensures does { Does (ticks now ∷ []) [] [] result to inviter.old inviter.new (P.wire control.old) (P.wire control.new) (P.wire data_port.old) (P.wire data_port.new) }
    ensures few { result ≤ 1 }
{
    let dialed = inviter.on_time(now);
    carry_out(to, dialed, control, data_port, out)
}

// What was heard is told to the inviter.
fn hear<P: Port>(
    inviter: &mut Inviter,
    to: Addr,
    port: PortKind,
    heard: Option<(Addr, Message)>,
    now: u64,
    control: &mut P,
    data_port: &mut P,
    out: &mut Octets,
) -> u64
    requires to { to.port < 65535 }
    requires now { now ≤ 2 ^ 62 }
    requires room { 80 ≤ out.old.spare + length out.old.octets }
    ensures room { 80 ≤ out.new.spare + length out.new.octets }
    ensures does { Does (hearing port heard now) [] [] result to inviter.old inviter.new (P.wire control.old) (P.wire control.new) (P.wire data_port.old) (P.wire data_port.new) }
    ensures few { result ≤ 1 }
{
    match heard {
        None => 0,
        Some((from, message)) => {
            let dialed = inviter.on_message(port, from, &message, now);
            carry_out(to, dialed, control, data_port, out)
        }
    }
}

// One turn.
fn take_turn<P: Port, C: Ticker>(
    inviter: &mut Inviter,
    to: Addr,
    control: &mut P,
    data_port: &mut P,
    clock: &mut C,
    buf: &mut [u8],
    out: &mut Octets,
) -> Called
    requires to { to.port < 65535 }
    requires buf { length buf.old ≡ 65536 }
    requires room { 80 ≤ out.old.spare + length out.old.octets }
    ensures buf { length buf.new ≡ 65536 }
    ensures room { 80 ≤ out.new.spare + length out.new.octets }
    ensures comes { Comes result.end 1 result.clocks to
        (record { caller = inviter.old; control = P.wire control.old; rtp = P.wire data_port.old; coming = C.coming clock.old })
        (record { caller = inviter.new; control = P.wire control.new; rtp = P.wire data_port.new; coming = C.coming clock.new }) }
    ensures few { result.clocks ≤ 3 }
{
    let now = clock.now();
    let first = tick(inviter, to, now, control, data_port, out);
    let said = match receive(control, buf) {
        Ok(said) => said,
        Err(_) => {
            return Called {
                end: TurnsEnd::ControlFailed,
                clocks: first,
            };
        }
    };
    let second = hear(
        inviter,
        to,
        PortKind::Ctl,
        said,
        now,
        control,
        data_port,
        out,
    );
    let heard = match receive(data_port, buf) {
        Ok(heard) => heard,
        Err(_) => {
            return Called {
                end: TurnsEnd::DataFailed,
                clocks: first + second,
            };
        }
    };
    let third = hear(
        inviter,
        to,
        PortKind::Rtp,
        heard,
        now,
        control,
        data_port,
        out,
    );
    Called {
        end: TurnsEnd::Made,
        clocks: first + second + third,
    }
}

/// Takes turns with the inviter of a host whose control port is at `to`: in each it asks the clock once, tells the moment to the
/// inviter, and receives once on each port, control first, of which it tells what reads as a message. What the inviter gives is
/// sent at once; a send that fails is passed over. A receive that fails ends the turns, so after one of the control port there is
/// none of the data port.
///
/// `buf` has 65,536 octets, and `out` room for 80.
pub fn call_turns<P: Port, C: Ticker>(
    inviter: &mut Inviter,
    to: Addr,
    turns: u32,
    control: &mut P,
    data_port: &mut P,
    clock: &mut C,
    buf: &mut [u8],
    out: &mut Octets,
) -> Called
    requires to { to.port < 65535 }
    requires buf { length buf.old ≡ 65536 }
    requires room { 80 ≤ out.old.spare + length out.old.octets }
    ensures buf { length buf.new ≡ 65536 }
    ensures room { 80 ≤ out.new.spare + length out.new.octets }
    ensures comes { Comes result.end turns result.clocks to
        (record { caller = inviter.old; control = P.wire control.old; rtp = P.wire data_port.old; coming = C.coming clock.old })
        (record { caller = inviter.new; control = P.wire control.new; rtp = P.wire data_port.new; coming = C.coming clock.new }) }
{
    let mut clocks = 0u64;
    for _made in 0..turns {
        let turn = take_turn(inviter, to, control, data_port, clock, buf, out);
        clocks += turn.clocks;
        match turn.end {
            TurnsEnd::Made => {}
            TurnsEnd::ControlFailed => {
                return Called {
                    end: TurnsEnd::ControlFailed,
                    clocks,
                };
            }
            TurnsEnd::DataFailed => {
                return Called {
                    end: TurnsEnd::DataFailed,
                    clocks,
                };
            }
        }
    }
    Called {
        end: TurnsEnd::Made,
        clocks,
    }
}

// Closes the inviter, and sends what it gives.
fn say_bye<P: Port>(
    inviter: &mut Inviter,
    to: Addr,
    control: &mut P,
    data_port: &mut P,
    out: &mut Octets,
)
    requires to { to.port < 65535 }
    requires room { 80 ≤ out.old.spare + length out.old.octets }
    ensures room { 80 ≤ out.new.spare + length out.new.octets }
    ensures does { Does (closes ∷ []) [] [] 0 to inviter.old inviter.new (P.wire control.old) (P.wire control.new) (P.wire data_port.old) (P.wire data_port.new) }
{
    let dialed = inviter.close();
    let _clocks = carry_out(to, dialed, control, data_port, out);
}

/// Ends the call: where it hasn't come to its end, the inviter says bye to a host that it has asked.
pub fn hang_up<P: Port>(
    inviter: &mut Inviter,
    to: Addr,
    control: &mut P,
    data_port: &mut P,
    out: &mut Octets,
)
    requires to { to.port < 65535 }
    requires room { 80 ≤ out.old.spare + length out.old.octets }
    ensures room { 80 ≤ out.new.spare + length out.new.octets }
    ensures does { Does (closing (phase_of inviter.old.stage)) [] [] 0 to inviter.old inviter.new (P.wire control.old) (P.wire control.new) (P.wire data_port.old) (P.wire data_port.new) }
{
    if let Phase::Closed(_) = inviter.phase() {
        return;
    }
    say_bye(inviter, to, control, data_port, out);
}
