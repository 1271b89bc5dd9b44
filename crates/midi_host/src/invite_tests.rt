// Calls over memory, with faults of the ports and the sink.
use super::invite::run_invite;
use super::status::Status;
use super::word::Word;
use jm_edge::{Addr, Datagram, MemPort, MemSink, StepTicker};
use std::alloc::Global;
use std::process::Abort;
use std::test::Fail;

const CONTROL: Addr = Addr {
    host: 0x7F00_0001,
    port: 5004,
};

const DATA: Addr = Addr {
    host: 0x7F00_0001,
    port: 5005,
};

const INVITATION: &[u8] = b"\xFF\xFFIN\x00\x00\x00\x02\x00\x00\x00\x01MIDUmidi_host\x00";

const FAREWELL: &[u8] = b"\xFF\xFFBY\x00\x00\x00\x02\x00\x00\x00\x01MIDU";

const OK: &[u8] = b"\xFF\xFFOK\x00\x00\x00\x02\x00\x00\x00\x01\x11\x22\x33D";

const ASKED: &[u8] =
    b"\xFF\xFFCKMIDU\x00\x00\x00\x00\x00\x00\x00\x00\x00\x00\x00\x00\x00\x00\x00\x00\x00\x00\x00\x00\x00\x00\x00\x00\x00\x00\x00\x00";

// A port at which an OK arrives from this address, or nothing.
fn port(alloc: Global, from: Option<Addr>, recv_fails: &[u64]) -> Result<MemPort, Fail> {
    let mut arriving = Vec::new(alloc);
    if let Some(from) = from {
        arriving.push(Datagram::new(alloc, from, OK)?)?;
    }
    Ok(MemPort::new(alloc, arriving, 20, 2000, recv_fails, &[])?)
}

// What a call wrote to a sink that has room for so many octets.
fn calls(
    alloc: Global,
    turns: &str,
    step: u64,
    room: usize,
    ports: (&mut MemPort, &mut MemPort),
    text: &[u8],
) -> Result<(Status, bool), Fail> {
    let words = [
        Word::new("invite", alloc)?,
        Word::new("7f000001:5004", alloc)?,
        Word::new(turns, alloc)?,
    ];
    let mut clock = StepTicker::new(0, step);
    let mut sink = MemSink::new(alloc, room, &[])?;
    let (control, data) = ports;
    let status = run_invite(&words, control, data, &mut clock, &mut sink, alloc);
    Ok((status, sink.as_slice() == text))
}

// Each datagram that went out, and no more.
fn went(rt: &impl Abort, port: &MemPort, to: Addr, datagrams: &[&[u8]]) {
    for (k, octets) in datagrams.iter().enumerate() {
        assert!(rt; port.sent_at(k) == Some((to, *octets)));
    }
    assert!(rt; port.sent_at(datagrams.len()) == None);
}

#[test]
fn a_host_that_answers(rt: HostRuntime) -> Result<(), Fail> {
    let mut control = port(rt.alloc(), Some(CONTROL), &[])?;
    let mut data = port(rt.alloc(), Some(DATA), &[])?;
    let called = calls(
        rt.alloc(),
        "2",
        0,
        80,
        (&mut control, &mut data),
        b"ended open clocks 0\n",
    )?;
    assert_eq!(rt; called, (Status::Done, true));
    went(&rt, &control, CONTROL, &[INVITATION, FAREWELL]);
    went(&rt, &data, DATA, &[INVITATION, ASKED]);
    Ok(())
}

#[test]
fn nobody_answers(rt: HostRuntime) -> Result<(), Fail> {
    let mut control = port(rt.alloc(), None, &[])?;
    let mut data = port(rt.alloc(), None, &[])?;
    let called = calls(
        rt.alloc(),
        "13",
        10_000,
        80,
        (&mut control, &mut data),
        b"ended closed no-answer clocks 0\n",
    )?;
    assert_eq!(rt; called, (Status::Done, true));
    went(&rt, &control, CONTROL, &[INVITATION; 12]);
    went(&rt, &data, DATA, &[]);
    Ok(())
}

// A receive fails, and the sink has no room for the whole line.
#[test]
fn faults_of_the_outside(rt: HostRuntime) -> Result<(), Fail> {
    let mut control = port(rt.alloc(), Some(CONTROL), &[])?;
    let mut data = port(rt.alloc(), None, &[0])?;
    let called = calls(
        rt.alloc(),
        "2",
        0,
        8,
        (&mut control, &mut data),
        b"ended as",
    )?;
    assert_eq!(rt; called, (Status::PortFault, true));
    went(&rt, &control, CONTROL, &[INVITATION, FAREWELL]);
    went(&rt, &data, DATA, &[INVITATION]);
    let mut control = port(rt.alloc(), None, &[])?;
    let mut data = port(rt.alloc(), None, &[])?;
    let called = calls(
        rt.alloc(),
        "1",
        0,
        8,
        (&mut control, &mut data),
        b"ended as",
    )?;
    assert_eq!(rt; called, (Status::WriteFault, true));
    Ok(())
}

// The status of a call by these words, over ports at which nothing arrives.
fn status_of(alloc: Global, texts: &[&str]) -> Result<Status, Fail> {
    let mut words = Vec::new(alloc);
    for text in texts {
        words.push(Word::new(text, alloc)?)?;
    }
    let mut control = port(alloc, None, &[])?;
    let mut data = port(alloc, None, &[])?;
    let mut clock = StepTicker::new(0, 0);
    let mut sink = MemSink::new(alloc, 80, &[])?;
    let status = run_invite(
        words.as_slice(),
        &mut control,
        &mut data,
        &mut clock,
        &mut sink,
        alloc,
    );
    Ok(status)
}

#[test]
fn words_out_of_form(rt: HostRuntime) -> Result<(), Fail> {
    for count in ["", "0", "01", "4294967296"] {
        let status = status_of(rt.alloc(), &["invite", "7f000001:5004", count])?;
        assert_eq!(rt; status, Status::Usage);
    }
    for host in [
        "7f000001:65535",
        "7f00001:5004",
        "7f000001",
        "7f000001:05004",
    ] {
        let status = status_of(rt.alloc(), &["invite", host, "1"])?;
        assert_eq!(rt; status, Status::Usage);
    }
    let status = status_of(rt.alloc(), &["invite", "7F000001:65534", "1"])?;
    assert_eq!(rt; status, Status::Done);
    Ok(())
}
