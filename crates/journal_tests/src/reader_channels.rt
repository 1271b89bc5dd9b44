use jm_cmds::{Channel, D7, ReadError};
use jm_reader::{JournalFault, Log, LogKind, read_journal};
use jm_wire::Octets;
use std::alloc::Global;
use std::process::Abort;
use std::test::Fail;

const CHANNEL: u8 = 3;

/// A journal of one channel journal, of these octets, whose places are so three behind the channel journal's own.
fn journal_of<R: Abort>(rt: &R, octets: &[u8], alloc: Global) -> Result<Octets, Fail> {
    let mut journal = Octets::with_room(1030, alloc)?;
    assert!(rt; journal.spare() == 1030 && octets.len() <= 1023);
    journal.push_slice(&[0x20, 0, 0]);
    journal.push_slice(octets);
    Ok(journal)
}

/// Checks the logs of a channel journal.
fn check<R: Abort>(rt: &R, octets: &[u8], expected: &[LogKind], alloc: Global) -> Result<(), Fail> {
    let journal = journal_of(rt, octets, alloc)?;
    let report = read_journal(journal.as_slice(), alloc)?;
    assert_eq!(rt; report.logs.len(), expected.len());
    for (log, what) in report.logs.as_slice().iter().zip(expected) {
        assert_eq!(rt; &log.what, what);
    }
    Ok(())
}

/// Checks which fault a channel journal has.
fn refuse<R: Abort>(rt: &R, octets: &[u8], fault: JournalFault, alloc: Global) -> Result<(), Fail> {
    let journal = journal_of(rt, octets, alloc)?;
    assert!(rt;
        matches!(read_journal(journal.as_slice(), alloc), Err(ReadError::Fault(was)) if was == fault)
    );
    Ok(())
}

fn control(number: u8, value: u8) -> LogKind {
    LogKind::Control {
        channel: Channel::low(CHANNEL),
        number: D7::low(number),
        value: D7::low(value),
    }
}

fn count(number: u8, count: u8) -> LogKind {
    LogKind::Count {
        channel: Channel::low(CHANNEL),
        number: D7::low(number),
        count,
    }
}

fn param(nrpn: bool, high: u8, low: u8, entry_high: Option<D7>, entry_low: Option<D7>) -> LogKind {
    LogKind::Param {
        channel: Channel::low(CHANNEL),
        nrpn,
        high: D7::low(high),
        low: D7::low(low),
        entry_high,
        entry_low,
    }
}

fn off(note: u8) -> LogKind {
    LogKind::NoteOff {
        channel: Channel::low(CHANNEL),
        note: D7::low(note),
    }
}

fn on(note: u8, velocity: u8, soon: bool) -> LogKind {
    LogKind::NoteOn {
        channel: Channel::low(CHANNEL),
        note: D7::low(note),
        velocity: D7::low(velocity),
        soon,
    }
}

fn program(bank: Option<(D7, D7)>) -> LogKind {
    LogKind::Program {
        channel: Channel::low(CHANNEL),
        program: D7::low(5),
        bank,
    }
}

fn poly(note: u8, value: u8) -> LogKind {
    LogKind::Poly {
        channel: Channel::low(CHANNEL),
        note: D7::low(note),
        value: D7::low(value),
    }
}

fn pressure(value: u8) -> LogKind {
    LogKind::Pressure {
        channel: Channel::low(CHANNEL),
        value: D7::low(value),
    }
}

/// One chapter of each kind, in order.
#[test]
fn all_chapters(rt: HostRuntime) -> Result<(), Fail> {
    let channel = Channel::low(CHANNEL);
    let octets = [
        0x98, 32, 0xff, // the header
        0x85, 0x81, 0x02, // P
        0x80, 0x87, 0x64, // C
        0x80, 7, 0x81, 0x82, 0xc2, 0x03, 0x04, // M
        0x81, 0x40, // W
        0x81, 0x77, 0xbc, 0xe4, 0x81, // N
        0x80, 0xbc, 0x82, // E
        0xa0, // T
        0x81, 0x8a, 0x14, 0x8b, 0x95, // A
    ];
    let expected = [
        program(Some((D7::low(1), D7::low(2)))),
        control(7, 100),
        param(true, 2, 1, Some(D7::low(3)), Some(D7::low(4))),
        LogKind::Wheel {
            channel,
            first: D7::low(1),
            second: D7::low(64),
        },
        off(56),
        off(63),
        on(60, 100, true),
        LogKind::Extra {
            channel,
            note: D7::low(60),
            release: true,
            value: D7::low(2),
        },
        pressure(32),
        poly(10, 20),
        poly(11, 21),
    ];
    check(&rt, &octets, &expected, rt.alloc())?;
    Ok(())
}

/// What a reader passes over in a channel journal, and octets behind it.
#[test]
fn passed_over(rt: HostRuntime) -> Result<(), Fail> {
    let alloc = rt.alloc();
    // H is 1
    check(&rt, &[0x9c, 6, 0x40, 0x00, 0x07, 0x64], &[], alloc)?;
    // octets inside the LENGTH behind the last chapter, and behind the LENGTH
    check(
        &rt,
        &[0x98, 6, 0x02, 0x20, 0x01, 0x02, 0xff],
        &[pressure(32)],
        alloc,
    )?;
    // Chapter C: 6 and 38, the toggle form on other numbers than 64, the count form on a value
    check(
        &rt,
        &[
            0x98, 14, 0x40, 0x04, 0x06, 0x01, 0x26, 0xc1, 0x3f, 0x81, 0x41, 0x81, 0x07, 0xc1,
        ],
        &[],
        alloc,
    )?;
    // the value form on a counted controller, and the count form
    check(
        &rt,
        &[0x98, 8, 0x40, 0x01, 0x7b, 0x00, 0x7b, 0xc5],
        &[control(123, 0), count(123, 5)],
        alloc,
    )?;
    Ok(())
}

#[test]
fn parameters(rt: HostRuntime) -> Result<(), Fail> {
    let alloc = rt.alloc();
    // a parameter without halves, and one with the low half
    check(
        &rt,
        &[
            0x98, 12, 0x20, 0x80, 9, 0x01, 0x02, 0x02, 0x03, 0x84, 0x42, 0x85,
        ],
        &[
            param(false, 2, 1, None, None),
            param(true, 4, 3, None, Some(D7::low(5))),
        ],
        alloc,
    )?;
    // one with another flag in its second log, and one whose log passes it, are passed over
    check(
        &rt,
        &[
            0x98, 12, 0x22, 0x80, 8, 0x01, 0x02, 0x02, 0x01, 0x02, 0x06, 0x20,
        ],
        &[pressure(32)],
        alloc,
    )?;
    check(
        &rt,
        &[0x98, 9, 0x22, 0x80, 5, 0x01, 0x02, 0x82, 0x20],
        &[pressure(32)],
        alloc,
    )?;
    Ok(())
}

#[test]
fn notes(rt: HostRuntime) -> Result<(), Fail> {
    let alloc = rt.alloc();
    // LOW over HIGH: no octets behind the logs, of which the second has the velocity 0
    check(
        &rt,
        &[0x98, 9, 0x08, 0x82, 0xf0, 0x3c, 0x64, 0x3d, 0x80],
        &[on(60, 100, false), on(61, 0, true)],
        alloc,
    )?;
    // the bits of two octets
    check(
        &rt,
        &[0x98, 7, 0x08, 0x80, 0xef, 0x80, 0x01],
        &[off(112), off(127)],
        alloc,
    )?;
    Ok(())
}

/// The S bit of a log, and the B bit for released notes.
#[test]
fn fresh_logs(rt: HostRuntime) -> Result<(), Fail> {
    let alloc = rt.alloc();
    let octets = [0x98, 8, 0x08, 0x01, 0x11, 0xbc, 0x64, 0x80];
    let report = read_journal(journal_of(&rt, &octets, alloc)?.as_slice(), alloc)?;
    let expected = [
        Log {
            fresh: true,
            what: off(8),
        },
        Log {
            fresh: false,
            what: on(60, 100, false),
        },
    ];
    assert_eq!(rt; report.logs.as_slice(), expected.as_slice());
    Ok(())
}

#[test]
fn faults(rt: HostRuntime) -> Result<(), Fail> {
    let alloc = rt.alloc();
    refuse(&rt, &[0x98, 3], JournalFault::Short(3), alloc)?;
    refuse(&rt, &[0x98, 5, 0x02, 0x20], JournalFault::Short(3), alloc)?;
    refuse(&rt, &[0x98, 2, 0x00, 0x00], JournalFault::Inside(3), alloc)?;
    refuse(
        &rt,
        &[0x98, 5, 0x80, 0x05, 0x00],
        JournalFault::Inside(6),
        alloc,
    )?;
    refuse(
        &rt,
        &[0x98, 6, 0x50, 0x80, 0x07, 0x64, 0x01],
        JournalFault::Inside(9),
        alloc,
    )?;
    refuse(
        &rt,
        &[0x98, 5, 0x20, 0x80, 1],
        JournalFault::Inside(6),
        alloc,
    )?;
    refuse(
        &rt,
        &[0x98, 5, 0x20, 0x80, 3],
        JournalFault::Inside(6),
        alloc,
    )?;
    refuse(
        &rt,
        &[0x98, 6, 0x08, 0x81, 0xf0, 0x3c],
        JournalFault::Inside(6),
        alloc,
    )?;
    Ok(())
}
