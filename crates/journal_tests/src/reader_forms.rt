//! The forms of logs and chapters that a reader passes over, each beside the form that it reads, by whole journals.

use jm_cmds::{Channel, D7, ReadError, Sysex};
use jm_reader::{JournalFault, LogKind, read_journal};
use jm_wire::behind;
use std::alloc::{AllocError, Global};
use std::process::Abort;
use std::test::Fail;

/// Checks what the logs of a journal say.
fn check<R: Abort>(rt: &R, octets: &[u8], expected: &[LogKind], alloc: Global) -> Result<(), Fail> {
    let report = read_journal(octets, alloc)?;
    assert_eq!(rt; report.logs.len(), expected.len());
    for (log, what) in report.logs.as_slice().iter().zip(expected) {
        assert_eq!(rt; &log.what, what);
    }
    Ok(())
}

fn channel() -> Channel {
    Channel::low(3)
}

fn pressure() -> LogKind {
    LogKind::Pressure {
        channel: channel(),
        value: D7::low(32),
    }
}

fn control(number: u8, value: u8) -> LogKind {
    LogKind::Control {
        channel: channel(),
        number: D7::low(number),
        value: D7::low(value),
    }
}

fn count(number: u8, count: u8) -> LogKind {
    LogKind::Count {
        channel: channel(),
        number: D7::low(number),
        count,
    }
}

fn toggle(count: u8) -> LogKind {
    LogKind::Toggle {
        channel: channel(),
        count,
    }
}

fn struck(note: u8) -> LogKind {
    LogKind::NoteOn {
        channel: channel(),
        note: D7::low(note),
        velocity: D7::low(100),
        soon: false,
    }
}

fn released(note: u8) -> LogKind {
    LogKind::NoteOff {
        channel: channel(),
        note: D7::low(note),
    }
}

/// The toggle form of Chapter C on 64 and on others, and the value form; 6 and 38 in no form.
#[test]
fn forms_of_controllers(rt: HostRuntime) -> Result<(), Fail> {
    let alloc = rt.alloc();
    check(
        &rt,
        &[
            0x20, 0, 0, 0x18, 20, 0x40, 0x07, 0x06, 0x01, 0x26, 0x01, 0x40, 0x7f, 0x40, 0x83, 0x3f,
            0x81, 0x41, 0x81, 0x07, 0x81, 0x06, 0x81,
        ],
        &[control(64, 127), toggle(3)],
        alloc,
    )?;
    Ok(())
}

/// The count form and the value form of the controllers whose commands are counted, and of others.
#[test]
fn forms_of_counts(rt: HostRuntime) -> Result<(), Fail> {
    let alloc = rt.alloc();
    check(
        &rt,
        &[
            0x20, 0, 0, 0x18, 18, 0x40, 0x06, 0x60, 0xc1, 0x61, 0xc2, 0x78, 0xc3, 0x79, 0xc4, 0x7b,
            0xc5, 0x7a, 0xc6, 0x40, 0xc7,
        ],
        &[
            count(96, 1),
            count(97, 2),
            count(120, 3),
            count(121, 4),
            count(123, 5),
        ],
        alloc,
    )?;
    check(
        &rt,
        &[
            0x20, 0, 0, 0x18, 14, 0x40, 0x04, 0x60, 0x01, 0x61, 0x02, 0x78, 0x03, 0x79, 0x04, 0x7b,
            0x05,
        ],
        &[
            control(96, 1),
            control(97, 2),
            control(120, 3),
            control(121, 4),
            control(123, 5),
        ],
        alloc,
    )
}

/// A parameter with this high half.
fn param(entry_high: Option<D7>) -> LogKind {
    LogKind::Param {
        channel: channel(),
        nrpn: false,
        high: D7::low(2),
        low: D7::low(1),
        entry_high,
        entry_low: None,
    }
}

/// Chapter M with P, E, U, W or Z, and with another flag in a log than the written ones: the chapter behind it is read.
#[test]
fn forms_of_parameters(rt: HostRuntime) -> Result<(), Fail> {
    let alloc = rt.alloc();
    let mut headed = [
        0x20, 0, 0, 0x18, 10, 0x22, 0x00, 0x06, 0x01, 0x02, 0x82, 0x03, 0x20,
    ];
    check(&rt, &headed, &[param(Some(D7::low(3))), pressure()], alloc)?;
    for bit in [0x40, 0x20, 0x10, 0x08, 0x04] {
        headed[6] = bit;
        check(&rt, &headed, &[pressure()], alloc)?;
    }
    let mut logged = [
        0x20, 0, 0, 0x18, 9, 0x22, 0x00, 0x05, 0x01, 0x02, 0x02, 0x20,
    ];
    check(&rt, &logged, &[param(None), pressure()], alloc)?;
    for flags in [0x22, 0x12, 0x0a, 0x06, 0x03, 0x00] {
        logged[10] = flags;
        check(&rt, &logged, &[pressure()], alloc)?;
    }
    Ok(())
}

/// OFFBITS stand behind the note logs where LOW isn't over HIGH.
#[test]
fn forms_of_notes(rt: HostRuntime) -> Result<(), Fail> {
    let alloc = rt.alloc();
    check(
        &rt,
        &[
            0x20, 0, 0, 0x18, 10, 0x0a, 0x01, 0x23, 0x3c, 0x64, 0x80, 0x01, 0x20,
        ],
        &[released(16), released(31), struck(60), pressure()],
        alloc,
    )?;
    for bounds in [0x32, 0xf0, 0xf1] {
        check(
            &rt,
            &[0x20, 0, 0, 0x18, 8, 0x0a, 0x01, bounds, 0x3c, 0x64, 0x20],
            &[struck(60), pressure()],
            alloc,
        )?;
    }
    for bounds in [0xf0, 0xf1] {
        check(
            &rt,
            &[0x20, 0, 0, 0x18, 6, 0x0a, 0x00, bounds, 0x20],
            &[pressure()],
            alloc,
        )?;
    }
    Ok(())
}

/// Each bit of Chapter D for an undefined command: what stands behind its three logs is passed over.
#[test]
fn forms_of_resets(rt: HostRuntime) -> Result<(), Fail> {
    let alloc = rt.alloc();
    let mut octets = [0x40, 0, 0, 0x60, 5, 0x40, 0x81, 0x05];
    check(
        &rt,
        &octets,
        &[LogKind::Reset { count: 1 }, LogKind::Sensing { count: 5 }],
        alloc,
    )?;
    for bit in [8, 4, 2, 1] {
        octets[5] = 0x40 + bit;
        check(&rt, &octets, &[LogKind::Reset { count: 1 }], alloc)?;
    }
    Ok(())
}

/// The time code and the message behind it.
fn timed(
    complete: Option<u32>,
    partial: Option<u32>,
    alloc: Global,
) -> Result<[LogKind; 2], ReadError<jm_cmds::SysexFault>> {
    Ok([
        LogKind::TimeCode {
            complete,
            partial,
            backward: false,
            point: 7,
        },
        LogKind::Sysex {
            count: 7,
            octets: Sysex::new(&[0x12], alloc)?,
        },
    ])
}

/// Chapter F with and without COMPLETE and PARTIAL, with each Q: with COMPLETE and without Q it is a Full Frame.
#[test]
fn forms_of_time_code(rt: HostRuntime) -> Result<(), Fail> {
    let alloc = rt.alloc();
    for head in [0x97, 0x87] {
        let octets = [0x40, 0, 0, 0x0c, 6, head, 0x2f, 7, 0x92];
        check(&rt, &octets, &timed(None, None, alloc)?, alloc)?;
    }
    for head in [0xb7, 0xa7] {
        let octets = [0x40, 0, 0, 0x0c, 10, head, 1, 2, 3, 4, 0x2f, 7, 0x92];
        check(&rt, &octets, &timed(None, Some(0x0102_0304), alloc)?, alloc)?;
    }
    let octets = [0x40, 0, 0, 0x0c, 10, 0xd7, 1, 2, 3, 4, 0x2f, 7, 0x92];
    check(&rt, &octets, &timed(Some(0x0102_0304), None, alloc)?, alloc)?;
    let message = LogKind::Sysex {
        count: 7,
        octets: Sysex::new(&[0x12], alloc)?,
    };
    check(
        &rt,
        &[0x40, 0, 0, 0x0c, 10, 0xc7, 1, 2, 3, 4, 0x2f, 7, 0x92],
        &[message],
        alloc,
    )
}

/// So many note logs of channel 3 with these LEN, LOW and HIGH, and a pressure behind them.
fn note_logs(len: u8, bounds: u8, logs: u8, alloc: Global) -> Result<Vec<u8>, AllocError> {
    let length = 6 + 2 * u16::from(logs);
    let [high, low] = length.to_be_bytes();
    let mut octets = Vec::new(alloc);
    octets.extend_from_slice(&[0x20, 0, 0, 0x18 + high % 4, low, 0x0a, len, bounds])?;
    for note in 0..logs {
        octets.extend_from_slice(&[note % 128, 1])?;
    }
    octets.push(0x20)?;
    Ok(octets)
}

/// LEN=127 is 128 logs with LOW=15 and HIGH=0, and 127 with HIGH=1. 127 logs with HIGH=0 end too soon.
#[test]
fn the_most_notes(rt: HostRuntime) -> Result<(), Fail> {
    let alloc = rt.alloc();
    let all = read_journal(note_logs(127, 0xf0, 128, alloc)?.as_slice(), alloc)?;
    assert_eq!(rt; all.logs.len(), 129);
    let most = read_journal(note_logs(127, 0xf1, 127, alloc)?.as_slice(), alloc)?;
    assert_eq!(rt; most.logs.len(), 128);
    let fault = match read_journal(note_logs(127, 0xf0, 127, alloc)?.as_slice(), alloc) {
        Err(ReadError::Fault(fault)) => Some(fault),
        _ => None,
    };
    assert_eq!(rt; fault, Some(JournalFault::Inside(6)));
    Ok(())
}

/// Sixteen channel journals of 128 note logs each: a journal of over 1,024 logs is read whole.
#[test]
fn two_thousand_logs(rt: HostRuntime) -> Result<(), Fail> {
    let alloc = rt.alloc();
    let mut octets = vec![in alloc; 0x2f, 0, 0]?;
    for channel in 0..16u8 {
        let one = note_logs(127, 0xf0, 128, alloc)?;
        octets.push(channel * 8 + 1)?;
        octets.extend_from_slice(behind(one.as_slice(), 4))?;
    }
    let report = read_journal(octets.as_slice(), alloc)?;
    assert_eq!(rt; report.logs.len(), 2064);
    Ok(())
}
