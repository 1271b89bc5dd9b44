//! Receivers, by packets' octets.

use jm_cmds::{Channel, Command, D7, ReadError};
use jm_packet::PacketFault;
use jm_reader::JournalFault;
use jm_receiver::{AcceptFault, HeardKind, Receiver, Took};
use jm_section::SectionFault;
use std::test::Fail;

const SSRC: u32 = 0x1122_3344;

/// Packet 0 without commands and without a journal.
const EMPTY: [u8; 13] = [0x80, 0x61, 0, 0, 0, 0, 0, 0, 0x11, 0x22, 0x33, 0x44, 0];

/// Packet 2 at tick 200, without commands. Its journal has a fresh log: note 60 of channel 0 was struck with velocity 100.
const NOTE_MISSED: [u8; 23] = [
    0x80, 0x61, 0, 2, 0, 0, 0, 200, 0x11, 0x22, 0x33, 0x44, 0x40, 0x20, 0, 0, 0, 0x07, 0x08, 0x81,
    0xf0, 0x3c, 0xe4,
];

/// What was heard, with its time.
fn has(took: &Took, index: usize, kind: HeardKind, tick: u32, command: &Command) -> bool {
    match took.heard.as_slice().get(index) {
        Some(heard) => heard.kind == kind && heard.tick == tick && heard.command == *command,
        None => false,
    }
}

/// Why the receiver takes nothing of these octets.
fn fault_of(receiver: &mut Receiver, octets: &[u8]) -> Option<AcceptFault> {
    match receiver.accept(octets) {
        Err(ReadError::Fault(fault)) => Some(fault),
        _ => None,
    }
}

/// Note 60 of channel 0 is struck with velocity 100.
fn struck() -> Command {
    Command::NoteOn {
        channel: Channel::low(0),
        note: D7::low(60),
        velocity: D7::low(100),
    }
}

#[test]
fn a_lost_packet_is_repaired(rt: HostRuntime) -> Result<(), Fail> {
    let mut receiver = Receiver::new(SSRC, rt.alloc())?;
    assert_eq!(rt; receiver.ssrc(), SSRC);
    assert_eq!(rt; receiver.last(), None);
    let first = receiver.accept(&EMPTY)?;
    assert!(rt; first.number == 0 && first.gap == 0 && first.heard.len() == 0);
    let took = receiver.accept(&NOTE_MISSED)?;
    assert!(rt; took.number == 2 && took.gap == 1 && took.heard.len() == 1);
    assert!(rt; has(&took, 0, HeardKind::Repaired, 200, &struck()));
    assert_eq!(rt;
        fault_of(&mut receiver, &EMPTY),
        Some(AcceptFault::Older { last: 2 })
    );
    assert_eq!(rt; receiver.last(), Some(2));
    assert_eq!(rt;
        receiver.state().note(Channel::low(0), D7::low(60)),
        Some(D7::low(100))
    );
    Ok(())
}

#[test]
fn older_logs_tell_of_two_lost_packets(rt: HostRuntime) -> Result<(), Fail> {
    let mut receiver = Receiver::new(SSRC, rt.alloc())?;
    let mut octets = NOTE_MISSED;
    octets[21] = 0xbc;
    octets[22] = 0x64;
    let _first = receiver.accept(&EMPTY)?;
    let one = receiver.accept(&octets)?;
    assert!(rt; one.gap == 1 && one.heard.len() == 0);
    octets[3] = 5;
    let two = receiver.accept(&octets)?;
    assert!(rt; two.number == 5 && two.gap == 2 && two.heard.len() == 1);
    assert!(rt; has(&two, 0, HeardKind::Late, 200, &struck()));
    Ok(())
}

#[test]
fn a_first_packet_has_a_program_with_its_bank(rt: HostRuntime) -> Result<(), Fail> {
    let mut receiver = Receiver::new(SSRC, rt.alloc())?;
    let took = receiver.accept(&[
        0x80, 0x61, 0, 1, 0, 0, 0, 0, 0x11, 0x22, 0x33, 0x44, 0x40, 0x20, 0, 0, 0, 0x0b, 0xc0,
        0x07, 0x85, 0x80, 0x01, 0x00, 0x05, 0x79, 0xc1,
    ])?;
    assert!(rt; took.number == 1 && took.gap == 0 && took.heard.len() == 2);
    let bank = Command::Control {
        channel: Channel::low(0),
        number: D7::low(0),
        value: D7::low(5),
    };
    assert!(rt; has(&took, 0, HeardKind::Repaired, 0, &bank));
    let program = Command::Program {
        channel: Channel::low(0),
        program: D7::low(7),
    };
    assert!(rt; has(&took, 1, HeardKind::Repaired, 0, &program));
    assert_eq!(rt;
        receiver.state().control(Channel::low(0), D7::low(0)),
        Some(D7::low(5))
    );
    Ok(())
}

#[test]
fn commands_are_heard_at_their_time(rt: HostRuntime) -> Result<(), Fail> {
    let mut receiver = Receiver::new(SSRC, rt.alloc())?;
    let took = receiver.accept(&[
        0x80, 0x61, 0, 7, 0, 0, 0, 9, 0x11, 0x22, 0x33, 0x44, 0x24, 5, 0x90, 0x3c, 0x64,
    ])?;
    assert!(rt; took.number == 7 && took.heard.len() == 1);
    assert!(rt; has(&took, 0, HeardKind::Sent, 14, &struck()));
    Ok(())
}

#[test]
fn what_is_refused_changes_nothing(rt: HostRuntime) -> Result<(), Fail> {
    let mut receiver = Receiver::new(SSRC, rt.alloc())?;
    let _first = receiver.accept(&EMPTY)?;
    assert_eq!(rt;
        fault_of(&mut receiver, &EMPTY[..11]),
        Some(AcceptFault::Packet(PacketFault::Short))
    );
    assert_eq!(rt;
        fault_of(&mut receiver, &[0x80, 0x61, 0, 1, 0, 0, 0, 0, 1, 1, 1, 1]),
        Some(AcceptFault::OtherSsrc)
    );
    assert_eq!(rt;
        fault_of(&mut receiver, &EMPTY[..12]),
        Some(AcceptFault::Packet(PacketFault::Section(SectionFault::Short)))
    );
    assert_eq!(rt;
        fault_of(&mut receiver, &NOTE_MISSED[..15]),
        Some(AcceptFault::Journal(JournalFault::Short(0)))
    );
    assert_eq!(rt;
        fault_of(&mut receiver, &EMPTY),
        Some(AcceptFault::Older { last: 0 })
    );
    assert_eq!(rt; receiver.last(), Some(0));
    Ok(())
}
