//! Whole journals by their octets.

use jm_cmds::{Channel, D7, ReadError, Sysex};
use jm_reader::{JournalFault, Log, LogKind, read_journal};
use std::alloc::{AllocError, Global};
use std::process::Abort;
use std::test::Fail;

/// Checks the checkpoint and the logs of a journal.
fn check<R: Abort>(
    rt: &R,
    octets: &[u8],
    checkpoint: u16,
    expected: &[Log],
    alloc: Global,
) -> Result<(), Fail> {
    let report = read_journal(octets, alloc)?;
    assert_eq!(rt; report.checkpoint, checkpoint);
    assert_eq!(rt; report.logs.as_slice(), expected);
    Ok(())
}

/// Checks the fault of a journal.
fn refuse<R: Abort>(rt: &R, octets: &[u8], fault: JournalFault, alloc: Global) {
    let shown = match read_journal(octets, alloc) {
        Err(ReadError::Fault(fault)) => Some(fault),
        _ => None,
    };
    assert_eq!(rt; shown, Some(fault));
}

fn log(fresh: bool, what: LogKind) -> Log {
    Log { fresh, what }
}

fn message(
    count: u8,
    octets: &[u8],
    alloc: Global,
) -> Result<LogKind, ReadError<jm_cmds::SysexFault>> {
    Ok(LogKind::Sysex {
        count,
        octets: Sysex::new(octets, alloc)?,
    })
}

fn pressure(channel: u8, value: u8) -> LogKind {
    LogKind::Pressure {
        channel: Channel::low(channel),
        value: D7::low(value),
    }
}

/// The checkpoint alone. H isn't looked at, nor TOTCHAN where A=0.
#[test]
fn nothing_coded(rt: HostRuntime) -> Result<(), Fail> {
    check(&rt, &[0x80, 0xea, 0x5f], 60_000 - 1, &[], rt.alloc())?;
    check(&rt, &[0x9f, 0, 2, 0xff], 2, &[], rt.alloc())
}

/// Every chapter of a system journal, and octets behind the journal.
#[test]
fn all_system_chapters(rt: HostRuntime) -> Result<(), Fail> {
    let alloc = rt.alloc();
    let octets = [
        0x40, 0x00, 0x07, // the journal's header
        0x7c, 25, // the system journal's
        0x70, 0x81, 0x02, 0x83, // D
        0x05, // V
        0xf1, 0x02, 0x03, // Q
        0x7b, 1, 2, 3, 4, 0x10, 0, 0, 0, // F
        0xa7, 9, 0x2f, 10, 0x11, 0x92, // X
        0xff, 0xff,
    ];
    let expected = [
        log(false, LogKind::Reset { count: 1 }),
        log(true, LogKind::Tune { count: 2 }),
        log(false, LogKind::Song { song: D7::low(3) }),
        log(true, LogKind::Sensing { count: 5 }),
        log(
            false,
            LogKind::Sequencer {
                running: true,
                downbeat: true,
                position: 66_051,
            },
        ),
        log(
            true,
            LogKind::TimeCode {
                complete: Some(0x01020304),
                partial: Some(0x10000000),
                backward: true,
                point: 3,
            },
        ),
        log(false, message(9, &[], alloc)?),
        log(true, message(10, &[0x11, 0x12], alloc)?),
    ];
    check(&rt, &octets, 7, &expected, alloc)
}

/// A note that was struck, and two System Exclusive messages of which the first is a Reset State command.
#[test]
fn journals_as_they_are_written(rt: HostRuntime) -> Result<(), Fail> {
    let alloc = rt.alloc();
    let struck = LogKind::NoteOn {
        channel: Channel::low(0),
        note: D7::low(60),
        velocity: D7::low(100),
        soon: true,
    };
    check(
        &rt,
        &[0x20, 0, 0, 0x00, 0x07, 0x08, 0x81, 0xf0, 0x3c, 0xe4],
        0,
        &[log(true, struck)],
        alloc,
    )?;
    let messages = [
        0x40, 0, 0, 0x04, 12, 0x2f, 0, 0x7e, 0x7f, 0x09, 0x81, 0x2f, 1, 0x7d, 0x82,
    ];
    let expected = [
        log(true, message(0, &[0x7e, 0x7f, 0x09, 0x01], alloc)?),
        log(true, message(1, &[0x7d, 0x02], alloc)?),
    ];
    check(&rt, &messages, 0, &expected, alloc)
}

/// A system journal and two channel journals, whose channels fall.
#[test]
fn journals_in_order(rt: HostRuntime) -> Result<(), Fail> {
    let octets = [
        0x61, 0, 1, 0xa0, 3, 0x81, 0xa8, 4, 0x02, 0x20, 0x08, 4, 0x02, 0xa1,
    ];
    let expected = [
        log(false, LogKind::Sensing { count: 1 }),
        log(true, pressure(5, 32)),
        log(false, pressure(1, 33)),
    ];
    check(&rt, &octets, 1, &expected, rt.alloc())
}

/// Bits of Chapter D for undefined commands, and T of Chapter Q: the rest of the system journal is passed over.
#[test]
fn the_rest_is_passed_over(rt: HostRuntime) -> Result<(), Fail> {
    let undefined = [0x40, 0, 0, 0x7c, 6, 0x48, 0x81, 0xff, 0xff];
    check(
        &rt,
        &undefined,
        0,
        &[log(false, LogKind::Reset { count: 1 })],
        rt.alloc(),
    )?;
    let timed = [0x60, 0, 0, 0x3c, 4, 0x05, 0x5f, 0x08, 4, 0x02, 0x20];
    let expected = [
        log(true, LogKind::Sensing { count: 5 }),
        log(true, pressure(1, 32)),
    ];
    check(&rt, &timed, 0, &expected, rt.alloc())
}

/// TOP without CLOCK, a Full Frame, and the chapter behind it.
#[test]
fn positions_and_frames(rt: HostRuntime) -> Result<(), Fail> {
    let stopped = LogKind::Sequencer {
        running: false,
        downbeat: false,
        position: 0,
    };
    check(
        &rt,
        &[0x40, 0, 0, 0x10, 3, 0x07],
        0,
        &[log(true, stopped)],
        rt.alloc(),
    )?;
    check(
        &rt,
        &[0x40, 0, 0, 0x08, 11, 0x60, 1, 2, 3, 4, 5, 6, 7, 8],
        0,
        &[],
        rt.alloc(),
    )?;
    let nothing = LogKind::TimeCode {
        complete: None,
        partial: None,
        backward: false,
        point: 7,
    };
    check(
        &rt,
        &[0x40, 0, 0, 0x08, 4, 0x97, 0xff],
        0,
        &[log(false, nothing)],
        rt.alloc(),
    )
}

/// Logs of Chapter X of other forms than the written one are read for their size.
#[test]
fn other_messages(rt: HostRuntime) -> Result<(), Fail> {
    let alloc = rt.alloc();
    let octets = [
        0x40, 0, 0, 0x04, 33, // the headers
        0x67, 1, 2, // TCOUNT and COUNT
        0x3f, 3, 0x81, 0x00, 0x11, 0x92, // COUNT, FIRST and data octets
        0x37, 4, 0xff, 0xff, 0xff, 0xff, // FIRST of four octets
        0x23, 5, // not the list tool
        0x25, 6, // not finished
        0x07, // no COUNT
        0x1f, 0x00, 0x11, 0x12, 0x93, // FIRST and data octets
        0x2f, 7, 0x11, 0x92, // the written form
        0xa7, 8,
    ];
    let expected = [
        log(true, message(7, &[0x11, 0x12], alloc)?),
        log(false, message(8, &[], alloc)?),
    ];
    check(&rt, &octets, 0, &expected, alloc)
}

#[test]
fn octets_that_end_too_soon(rt: HostRuntime) -> Result<(), Fail> {
    let alloc = rt.alloc();
    refuse(&rt, &[], JournalFault::Short(0), alloc);
    refuse(&rt, &[0, 0], JournalFault::Short(0), alloc);
    refuse(&rt, &[0x40, 0, 0, 0x20], JournalFault::Short(3), alloc);
    refuse(
        &rt,
        &[0x40, 0, 0, 0x20, 4, 0x05],
        JournalFault::Short(3),
        alloc,
    );
    refuse(&rt, &[0x20, 0, 0, 0x00, 4], JournalFault::Short(3), alloc);
    // the second of two channel journals, behind a system journal
    refuse(
        &rt,
        &[
            0x61, 0, 0, 0x20, 3, 0x05, 0x00, 4, 0x02, 0x20, 0x00, 5, 0x02, 0x20,
        ],
        JournalFault::Short(10),
        alloc,
    );
    // a LENGTH that passes the end is told before what stands inside it
    refuse(
        &rt,
        &[0x40, 0, 0, 0x44, 4, 0x40],
        JournalFault::Short(3),
        alloc,
    );
    Ok(())
}

#[test]
fn lengths_below_their_headers(rt: HostRuntime) -> Result<(), Fail> {
    let alloc = rt.alloc();
    refuse(
        &rt,
        &[0x40, 0, 0, 0x20, 1, 0x05],
        JournalFault::Inside(3),
        alloc,
    );
    refuse(
        &rt,
        &[0x20, 0, 0, 0x00, 2, 0x02, 0x20],
        JournalFault::Inside(3),
        alloc,
    );
    Ok(())
}

/// D, V, Q and F, each at the end of its journal.
#[test]
fn chapters_pass_their_journal(rt: HostRuntime) -> Result<(), Fail> {
    let alloc = rt.alloc();
    refuse(
        &rt,
        &[0x40, 0, 0, 0x40, 2, 0x00],
        JournalFault::Inside(5),
        alloc,
    );
    refuse(
        &rt,
        &[0x40, 0, 0, 0x40, 4, 0x60, 0x01, 0x01],
        JournalFault::Inside(5),
        alloc,
    );
    refuse(
        &rt,
        &[0x40, 0, 0, 0x60, 3, 0x00, 0x05],
        JournalFault::Inside(6),
        alloc,
    );
    refuse(
        &rt,
        &[0x40, 0, 0, 0x10, 4, 0x10, 0x05, 0x05],
        JournalFault::Inside(5),
        alloc,
    );
    refuse(
        &rt,
        &[0x40, 0, 0, 0x08, 6, 0x20, 1, 2, 3, 4],
        JournalFault::Inside(5),
        alloc,
    );
    Ok(())
}

#[test]
fn messages_pass_their_journal(rt: HostRuntime) -> Result<(), Fail> {
    let alloc = rt.alloc();
    refuse(
        &rt,
        &[0x40, 0, 0, 0x24, 3, 0x05, 0x07],
        JournalFault::Inside(6),
        alloc,
    );
    // the second log of X, which has no last data octet: its chapter's place is told
    refuse(
        &rt,
        &[0x40, 0, 0, 0x04, 7, 0x27, 1, 0x2f, 2, 3, 0x84],
        JournalFault::Inside(5),
        alloc,
    );
    // the fault that comes first
    refuse(
        &rt,
        &[0x60, 0, 0, 0x20, 2, 0x00],
        JournalFault::Inside(5),
        alloc,
    );
    Ok(())
}
