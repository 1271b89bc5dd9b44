// Sessions that are served over memory ports, with faults of the ports and the sink.
use super::jam::Ended;
use super::jam_tests::{Call, Hold};
use super::serve::run_serve;
use super::status::Status;
use super::word::Word;
use jm_book::Step;
use jm_edge::{Addr, Datagram, FreeGate, Gate, MemPort, MemSink, StepTicker};
use std::alloc::Global;
use std::process::Abort;
use std::sync::Wait;
use std::test::Fail;
use std::thread::Threads;

const CONTROL: Addr = Addr {
    host: 0x7F00_0001,
    port: 5004,
};

const DATA: Addr = Addr {
    host: 0x7F00_0001,
    port: 5005,
};

const INVITATION: &[u8] = b"\xFF\xFFIN\x00\x00\x00\x02\x01\x02\x03\x04\x00\x00\x00\x22a\x00";

const OK: &[u8] = b"\xFF\xFFOK\x00\x00\x00\x02\x01\x02\x03\x04MIDImidi_host\x00";

const NO: &[u8] = b"\xFF\xFFNO\x00\x00\x00\x02\x01\x02\x03\x04MIDImidi_host\x00";

const ONE_JOINED: &[u8] = b"served packets 0 commands 0 joins 1 leaves 0 send-faults 0\n";

const NONE_JOINED: &[u8] = b"served packets 0 commands 0 joins 0 leaves 0 send-faults 0\n";

// A port at which an invitation arrives from this address.
fn port(
    alloc: Global,
    from: Addr,
    recv_fails: &[u64],
    send_fails: &[u64],
) -> Result<MemPort, Fail> {
    let mut arriving = Vec::new(alloc);
    arriving.push(Datagram::new(alloc, from, INVITATION)?)?;
    Ok(MemPort::new(alloc, arriving, 20, 2000, recv_fails, send_fails)?)
}

// The data port's worker makes its first call when that of the control port's worker was answered.
fn control_first() -> Hold {
    let first = |worker: u8| Call { worker, number: 0 };
    Hold::new(first(1), first(0))
}

// The words of a command line.
fn words(alloc: Global, texts: &[&str]) -> Result<Vec<Word>, Fail> {
    let mut words = Vec::new(alloc);
    for text in texts {
        words.push(Word::new(text, alloc)?)?;
    }
    Ok(words)
}

// What a session wrote to a sink with these faults.
fn serves<R: Threads + Wait + Sync, G: Gate + Sync>(
    rt: &R,
    texts: &[&str],
    ports: (&mut MemPort, &mut MemPort),
    gates: &G,
    sink: &mut MemSink,
    alloc: Global,
) -> Result<Ended, Fail> {
    let words = words(alloc, texts)?;
    let mut control_ticks = StepTicker::new(0, 0);
    let mut data_ticks = StepTicker::new(0, 0);
    let (control, data) = ports;
    Ok(run_serve(
        rt,
        words.as_slice(),
        control,
        data,
        &mut control_ticks,
        &mut data_ticks,
        gates,
        sink,
        alloc,
    ))
}

const ONE_ROUND: &[&str] = &["serve", "--port", "5004", "--turns", "1"];

// Each datagram that went out, and no more.
fn went(rt: &impl Abort, port: &MemPort, to: Addr, datagrams: &[&[u8]]) {
    for (k, octets) in datagrams.iter().enumerate() {
        assert!(rt; port.sent_at(k) == Some((to, *octets)));
    }
    assert!(rt; port.sent_at(datagrams.len()) == None);
}

#[test]
fn one_joins(rt: HostRuntime) -> Result<(), Fail> {
    let alloc = rt.alloc();
    let mut control = port(alloc, CONTROL, &[], &[])?;
    let mut data = port(alloc, DATA, &[], &[])?;
    let mut sink = MemSink::new(alloc, 200, &[])?;
    let gates = control_first();
    let ports = (&mut control, &mut data);
    let ended = serves(&rt, ONE_ROUND, ports, &gates, &mut sink, alloc)?;
    assert!(rt; gates.went_well());
    assert_eq!(rt; ended.status, Status::Done);
    assert_eq!(rt; ended.tape.len(), 2);
    assert!(rt; sink.as_slice() == ONE_JOINED);
    went(&rt, &control, CONTROL, &[OK]);
    went(&rt, &data, DATA, &[OK]);
    Ok(())
}

#[test]
fn a_send_fails(rt: HostRuntime) -> Result<(), Fail> {
    let alloc = rt.alloc();
    let mut control = port(alloc, CONTROL, &[], &[0])?;
    let mut data = port(alloc, DATA, &[], &[])?;
    let mut sink = MemSink::new(alloc, 200, &[])?;
    let gates = control_first();
    let ports = (&mut control, &mut data);
    let ended = serves(&rt, ONE_ROUND, ports, &gates, &mut sink, alloc)?;
    assert!(rt; gates.went_well());
    assert_eq!(rt; ended.status, Status::Done);
    assert!(rt;
        sink.as_slice()
            == b"served packets 0 commands 0 joins 1 leaves 0 send-faults 1\n".as_slice()
    );
    went(&rt, &control, CONTROL, &[]);
    went(&rt, &data, DATA, &[OK]);
    Ok(())
}

// The sender of the data port was never invited at the control port.
#[test]
fn a_receive_fails(rt: HostRuntime) -> Result<(), Fail> {
    let alloc = rt.alloc();
    let mut control = port(alloc, CONTROL, &[0], &[])?;
    let mut data = port(alloc, DATA, &[], &[])?;
    let mut sink = MemSink::new(alloc, 200, &[])?;
    let ports = (&mut control, &mut data);
    let ended = serves(&rt, ONE_ROUND, ports, &FreeGate, &mut sink, alloc)?;
    assert_eq!(rt; ended.status, Status::PortFault);
    assert!(rt; sink.as_slice() == NONE_JOINED);
    went(&rt, &control, CONTROL, &[]);
    went(&rt, &data, DATA, &[NO]);
    Ok(())
}

#[test]
fn a_tape_of_one_step(rt: HostRuntime) -> Result<(), Fail> {
    let alloc = rt.alloc();
    let mut control = port(alloc, CONTROL, &[], &[])?;
    let mut data = port(alloc, DATA, &[], &[])?;
    let mut sink = MemSink::new(alloc, 200, &[])?;
    let gates = control_first();
    let texts = ["serve", "--port=5004", "--turns=1", "--events=1"];
    let ports = (&mut control, &mut data);
    let ended = serves(&rt, texts.as_slice(), ports, &gates, &mut sink, alloc)?;
    assert!(rt; gates.went_well());
    assert_eq!(rt; ended.status, Status::RecordFull);
    assert_eq!(rt; ended.tape.len(), 1);
    assert!(rt; sink.as_slice() == NONE_JOINED);
    went(&rt, &control, CONTROL, &[OK]);
    went(&rt, &data, DATA, &[]);
    Ok(())
}

// Each worker can be held until the other one was answered, so neither runs before the other.
#[test]
fn workers_are_at_work_at_once(rt: HostRuntime) -> Result<(), Fail> {
    let alloc = rt.alloc();
    let mut control = port(alloc, CONTROL, &[], &[])?;
    let mut data = port(alloc, DATA, &[], &[])?;
    let mut sink = MemSink::new(alloc, 200, &[])?;
    let first = |worker: u8| Call { worker, number: 0 };
    let gates = Hold::new(first(0), first(1));
    let ports = (&mut control, &mut data);
    let ended = serves(&rt, ONE_ROUND, ports, &gates, &mut sink, alloc)?;
    assert!(rt; gates.went_well());
    assert_eq!(rt; ended.status, Status::Done);
    assert!(rt; sink.as_slice() == NONE_JOINED);
    went(&rt, &control, CONTROL, &[OK]);
    went(&rt, &data, DATA, &[NO]);
    Ok(())
}

// A failed receive and a full tape are told before a failed write.
#[test]
fn a_sink_that_fails(rt: HostRuntime) -> Result<(), Fail> {
    let alloc = rt.alloc();
    let cases = [
        (ONE_ROUND, &[][..], Status::WriteFault),
        (ONE_ROUND, &[0][..], Status::PortFault),
        (
            &["serve", "--port", "5004", "--turns", "1", "--events", "1"],
            &[][..],
            Status::RecordFull,
        ),
    ];
    for (texts, recv_fails, status) in cases {
        let mut control = port(alloc, CONTROL, recv_fails, &[])?;
        let mut data = port(alloc, DATA, &[], &[])?;
        let mut sink = MemSink::new(alloc, 200, &[0])?;
        let ports = (&mut control, &mut data);
        let ended = serves(&rt, texts, ports, &FreeGate, &mut sink, alloc)?;
        assert_eq!(rt; ended.status, status);
        assert!(rt; sink.as_slice().is_empty());
    }
    Ok(())
}

#[test]
fn other_words_serve_nothing(rt: HostRuntime) -> Result<(), Fail> {
    let alloc = rt.alloc();
    let cases: &[&[&str]] = &[
        &["serve"],
        &["serve", "--port", "5004"],
        &["serve", "--turns", "1"],
        &["serve", "--port", "1023", "--turns", "1"],
        &["serve", "--port", "65535", "--turns", "1"],
        &["serve", "--port", "05004", "--turns", "1"],
        &["serve", "--port", "5004", "--turns", "0"],
        &["serve", "--port", "5004", "--turns", "4294967296"],
        &["serve", "--port", "5004", "--turns", "1", "--events", "0"],
        &[
            "serve", "--port", "5004", "--turns", "1", "--events", "4194305",
        ],
        &[
            "serve", "--port", "5004", "--turns", "1", "--ssrc", "4d49444",
        ],
        &["serve", "--port", "5004", "--turns", "1", "--turns", "1"],
        &["serve", "--port", "5004", "--turns", "1", "more"],
        &["serve", "--help"],
    ];
    for texts in cases {
        let mut control = port(alloc, CONTROL, &[], &[])?;
        let mut data = port(alloc, DATA, &[], &[])?;
        let mut sink = MemSink::new(alloc, 200, &[])?;
        let ports = (&mut control, &mut data);
        let ended = serves(&rt, texts, ports, &FreeGate, &mut sink, alloc)?;
        assert_eq!(rt; ended.status, Status::Usage);
        assert!(rt; ended.tape.is_empty() && sink.as_slice().is_empty());
        went(&rt, &control, CONTROL, &[]);
        went(&rt, &data, DATA, &[]);
    }
    Ok(())
}

// The source of the stream stands in the answers.
#[test]
fn another_source(rt: HostRuntime) -> Result<(), Fail> {
    let alloc = rt.alloc();
    let mut control = port(alloc, CONTROL, &[], &[])?;
    let mut data = port(alloc, DATA, &[], &[])?;
    let mut sink = MemSink::new(alloc, 200, &[])?;
    let gates = control_first();
    let texts = ["serve", "--ssrc=1122334A", "--turns", "1", "--port", "5004"];
    let ports = (&mut control, &mut data);
    let ended = serves(&rt, texts.as_slice(), ports, &gates, &mut sink, alloc)?;
    assert_eq!(rt; ended.status, Status::Done);
    let reply = b"\xFF\xFFOK\x00\x00\x00\x02\x01\x02\x03\x04\x11\x22\x33Jmidi_host\x00";
    went(&rt, &control, CONTROL, &[reply.as_slice()]);
    assert_eq!(rt; ended.tape.len(), 2);
    for step in &ended.tape {
        assert!(rt; matches!(step, Step::Say { .. }));
    }
    Ok(())
}
