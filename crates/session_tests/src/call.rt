use apple_call::*;
use apple_invite::{EndCause, Inviter, Phase};
use apple_msg::Name;
use jm_edge::{Addr, Datagram, MemPort, StepTicker};
use jm_wire::Octets;
use std::alloc::Global;
use std::process::Abort;
use std::test::Fail;

const CONTROL: Addr = Addr {
    host: 0x7F00_0001,
    port: 5004,
};

const DATA: Addr = Addr {
    host: 0x7F00_0001,
    port: 5005,
};

const INVITATION: &[u8] = b"\xFF\xFFIN\x00\x00\x00\x02\x00\x00\x00\x01MIDUmidi_host\x00";

const FAREWELL: &[u8] = b"\xFF\xFFBY\x00\x00\x00\x02\x00\x00\x00\x01MIDU";

const OK: &[u8] = b"\xFF\xFFOK\x00\x00\x00\x02\x00\x00\x00\x01\x11\x22\x33D";

const ASKED: &[u8] =
    b"\xFF\xFFCKMIDU\x00\x00\x00\x00\x00\x00\x00\x00\x00\x00\x00\x00\x00\x00\x00\x00\x00\x00\x00\x00\x00\x00\x00\x00\x00\x00\x00\x00";

fn inviter() -> Result<Inviter, Fail> {
    let name = Name::new(b"midi_host").ok_or("a name")?;
    Ok(Inviter::new(0x4D49_4455, 1, name, CONTROL))
}

// A port at which an OK arrives from this address, or nothing.
fn port(alloc: Global, from: Option<Addr>, recv_fails: &[u64]) -> Result<MemPort, Fail> {
    let mut arriving = Vec::new(alloc);
    if let Some(from) = from {
        arriving.push(Datagram::new(alloc, from, OK)?)?;
    }
    Ok(MemPort::new(alloc, arriving, 20, 2000, recv_fails, &[])?)
}

// Each datagram that went out, and no more.
fn went(rt: &impl Abort, port: &MemPort, to: Addr, datagrams: &[&[u8]]) {
    for (k, octets) in datagrams.iter().enumerate() {
        assert!(rt; port.sent_at(k) == Some((to, *octets)));
    }
    assert!(rt; port.sent_at(datagrams.len()) == None);
}

#[test]
fn a_host_that_answers(rt: HostRuntime) -> Result<(), Fail> {
    let mut caller = inviter()?;
    let mut control = port(rt.alloc(), Some(CONTROL), &[])?;
    let mut data = port(rt.alloc(), Some(DATA), &[])?;
    let mut clock = StepTicker::new(0, 0);
    let mut buf = vec![in rt.alloc(); 0u8; 65_536]?;
    let mut out = Octets::with_room(80, rt.alloc())?;
    let called = call_turns(
        &mut caller,
        CONTROL,
        2,
        &mut control,
        &mut data,
        &mut clock,
        buf.as_mut_slice(),
        &mut out,
    );
    assert_eq!(rt; called.end, TurnsEnd::Made);
    assert_eq!(rt; called.clocks, 0);
    assert_eq!(rt; caller.phase(), Phase::Open);
    hang_up(&mut caller, CONTROL, &mut control, &mut data, &mut out);
    went(&rt, &control, CONTROL, &[INVITATION, FAREWELL]);
    went(&rt, &data, DATA, &[INVITATION, ASKED]);
    Ok(())
}

#[test]
fn nobody_answers(rt: HostRuntime) -> Result<(), Fail> {
    let mut caller = inviter()?;
    let mut control = port(rt.alloc(), None, &[])?;
    let mut data = port(rt.alloc(), None, &[])?;
    let mut clock = StepTicker::new(0, 10_000);
    let mut buf = vec![in rt.alloc(); 0u8; 65_536]?;
    let mut out = Octets::with_room(80, rt.alloc())?;
    let called = call_turns(
        &mut caller,
        CONTROL,
        13,
        &mut control,
        &mut data,
        &mut clock,
        buf.as_mut_slice(),
        &mut out,
    );
    assert_eq!(rt; called.end, TurnsEnd::Made);
    assert_eq!(rt; caller.phase(), Phase::Closed(EndCause::NoAnswer));
    hang_up(&mut caller, CONTROL, &mut control, &mut data, &mut out);
    went(&rt, &control, CONTROL, &[INVITATION; 12]);
    went(&rt, &data, DATA, &[]);
    Ok(())
}
