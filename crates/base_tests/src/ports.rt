// The memory forms of ports and clocks, with faults in mid-stream.
use jm_edge::*;
use std::alloc::{AllocError, Global};
use std::test::Fail;

const HERE: Addr = Addr {
    host: 0x7f00_0001,
    port: 5004,
};

const THERE: Addr = Addr {
    host: 0x0a00_0002,
    port: 5005,
};

fn buffer(alloc: Global) -> Result<Vec<u8>, AllocError> {
    let mut buf = Vec::new(alloc);
    buf.resize(LONGEST_DATAGRAM, 0)?;
    Ok(buf)
}

fn port(alloc: Global) -> Result<MemPort, AllocError> {
    let mut arriving = Vec::new(alloc);
    arriving.push(Datagram::new(alloc, HERE, b"abc")?)?;
    arriving.push(Datagram::new(alloc, THERE, b"")?)?;
    MemPort::new(alloc, arriving, 2, 5, &[1], &[1])
}

fn recv_from<P: Port>(port: &mut P, buf: &mut Vec<u8>) -> Option<Recv> {
    if buf.len() != LONGEST_DATAGRAM {
        return None;
    }
    Some(port.recv(buf.as_mut_slice()))
}

fn send_to<P: Port>(port: &mut P, to: Addr, octets: &[u8]) -> Sent {
    port.send(to, octets)
}

#[test]
fn memory_port_gives_what_arrives(rt: HostRuntime) -> Result<(), Fail> {
    let mut port = port(rt.alloc())?;
    let mut buf = buffer(rt.alloc())?;
    assert_eq!(rt;
        recv_from(&mut port, &mut buf),
        Some(Recv::Got { len: 3, from: HERE })
    );
    assert_eq!(rt; buf.get(..4), Some(b"abc\0".as_slice()));
    assert_eq!(rt; recv_from(&mut port, &mut buf), Some(Recv::Failed));
    assert_eq!(rt;
        recv_from(&mut port, &mut buf),
        Some(Recv::Got {
            len: 0,
            from: THERE
        })
    );
    assert_eq!(rt; recv_from(&mut port, &mut buf), Some(Recv::Quiet));
    Ok(())
}

#[test]
fn memory_port_keeps_what_fits(rt: HostRuntime) -> Result<(), Fail> {
    let mut port = port(rt.alloc())?;
    assert_eq!(rt; send_to(&mut port, HERE, b"xy"), Sent::Gone);
    assert_eq!(rt; send_to(&mut port, HERE, b"lost"), Sent::Failed);
    assert_eq!(rt; send_to(&mut port, HERE, b"long"), Sent::Failed);
    assert_eq!(rt; send_to(&mut port, THERE, b"z"), Sent::Gone);
    assert_eq!(rt; send_to(&mut port, THERE, b""), Sent::Failed);
    assert_eq!(rt; port.sent_at(0), Some((HERE, b"xy".as_slice())));
    assert_eq!(rt; port.sent_at(1), Some((THERE, b"z".as_slice())));
    assert_eq!(rt; port.sent_at(2), None);
    Ok(())
}

fn moment<C: Ticker>(clock: &mut C) -> u64 {
    clock.now()
}

#[test]
fn steps_of_a_clock(rt: HostRuntime) -> Result<(), Fail> {
    let mut clock = StepTicker::new(7, 100);
    assert_eq!(rt; moment(&mut clock), 7);
    assert_eq!(rt; moment(&mut clock), 107);
    let mut clock = StepTicker::new((1 << 62) - 1, u64::MAX);
    assert_eq!(rt; moment(&mut clock), (1 << 62) - 1);
    assert_eq!(rt; moment(&mut clock), 1 << 62);
    assert_eq!(rt; moment(&mut clock), 1 << 62);
    Ok(())
}

fn pass_gate<G: Gate, R: std::sync::Wait>(gate: &G, rt: &R) {
    gate.before(rt, 0, 0);
    gate.after(rt, 0, 0);
}

#[test]
fn free_gate_holds_nobody(rt: HostRuntime) -> Result<(), Fail> {
    pass_gate(&FreeGate, &rt);
    Ok(())
}

// Receives until a datagram comes, but not for ever.
fn await_datagram(port: &mut UdpPort, buf: &mut Vec<u8>) -> Option<Recv> {
    for _ in 0..100 {
        match recv_from(port, buf) {
            Some(Recv::Quiet) => {}
            other => return other,
        }
    }
    None
}

#[test]
fn a_datagram_between_two_sockets(rt: HostRuntime) -> Result<(), Fail> {
    let any = Addr {
        host: 0x7f00_0001,
        port: 0,
    };
    let mut near = UdpPort::open(rt.alloc(), &rt, any)?;
    let mut far = UdpPort::open(rt.alloc(), &rt, any)?;
    let (here, there) = (near.local().unwrap_or(any), far.local().unwrap_or(any));
    let mut buf = buffer(rt.alloc())?;
    assert_eq!(rt; recv_from(&mut near, &mut buf), Some(Recv::Quiet));
    assert_eq!(rt; send_to(&mut near, there, b"abc"), Sent::Gone);
    assert_eq!(rt;
        await_datagram(&mut far, &mut buf),
        Some(Recv::Got { len: 3, from: here })
    );
    assert_eq!(rt; buf.get(..4), Some(b"abc\0".as_slice()));
    assert_eq!(rt; send_to(&mut near, any, b"abc"), Sent::Failed);
    Ok(())
}

#[test]
fn the_clock_goes_on(rt: HostRuntime) -> Result<(), Fail> {
    let mut clock = WallTicker::new(rt.clone()?);
    // (after the year 2001)
    assert!(rt; moment(&mut clock) > 10_000_000_000_000);
    Ok(())
}
