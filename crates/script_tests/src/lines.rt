// What lines are, and the first fault of those outside the grammar.
use LineFault::{Command as NotACommand, Form, Word};
use apple_session::PortKind;
use jm_cmds::{Command, ReadError};
use jm_edge::Addr;
use jm_script::{Line, LineFault, LineKind, read_line};
use std::alloc::Global;
use std::test::Fail;

// The fault of a line, if it has one.
fn fault_of(
    alloc: Global,
    kind: LineKind,
    line: &[u8],
    started: bool,
    version: u8,
) -> Option<LineFault> {
    match read_line(kind, line, started, version, alloc) {
        Err(ReadError::Fault(fault)) => Some(fault),
        _ => None,
    }
}

/// Lines of a session that has begun, in version 1.
const FAULTS: [(&[u8], LineFault); 33] = [
    (b"session 11223344 9", Word),
    (b"script 2", Word),
    (b"enter x", Form),
    (b"enter ", Form),
    (b" enter", Word),
    (b"Enter", Word),
    (b"player", Word),
    (b"play", Form),
    (b"play 0 0", Form),
    (b"play 256 0 f8", Form),
    (b"play anna 0 f8", Form),
    (b"play 0 4611686018427387905 f8", Form),
    (b"play 0 00 f8", Form),
    (b"play 0 0 f", Form),
    (b"play 0 0 fg", Form),
    (b"play 0 0 f8 ", Form),
    (b"play 00 0 903c", Form),
    (b"play 0 0 903c", NotACommand),
    (b"play 0 0 f8f8", NotACommand),
    (b"play 0 0 f4", NotACommand),
    (b"cut", Form),
    (b"cut -1", Form),
    (b"cut 1 2", Form),
    (b"ack 0000002 1", Form),
    (b"ack 00000022 65536", Form),
    (b"join 00000022 1", Form),
    (b"leave 2", Form),
    (b"hear 00000022", Form),
    (b"feedback 1", Form),
    (b"message control 7f000001 0 ff", Form),
    (b"message control 7f000001:65536 0 ff", Form),
    (b"message ctl 7f000001:5004 0 ff", Form),
    (b"message data 7f000001:5004 0", Form),
];

#[test]
fn faults_of_a_session(rt: HostRuntime) -> Result<(), Fail> {
    for (line, fault) in FAULTS {
        assert_eq!(rt;
            fault_of(rt.alloc(), LineKind::Session, line, true, 1),
            Some(fault)
        );
    }
    Ok(())
}

/// Lines before the session line, by the version, with the fault if there is one.
const FIRST_LINES: [(&[u8], u8, Option<LineFault>); 14] = [
    (b"", 1, None),
    (b"# session", 1, None),
    (b"session 11223344 4194304", 1, None),
    (b"session 11223344 4194304", 2, None),
    (b"session 11223344 0", 1, Some(Form)),
    (b"session 11223344 4194305", 1, Some(Form)),
    (b"session 1122334 1", 1, Some(Form)),
    (b"enter", 1, Some(Word)),
    (b"enter anna", 2, Some(Word)),
    (b"script 2", 1, None),
    (b"script 2", 2, Some(Word)),
    (b"script 1", 1, Some(Word)),
    (b"script", 1, Some(Word)),
    (b"script 2 ", 1, Some(Word)),
];

#[test]
fn lines_before_the_session(rt: HostRuntime) -> Result<(), Fail> {
    for (line, version, fault) in FIRST_LINES {
        assert_eq!(rt;
            fault_of(rt.alloc(), LineKind::Session, line, false, version),
            fault
        );
    }
    Ok(())
}

/// Lines of version 2, with the fault if there is one.
const NAMES: [(&[u8], Option<LineFault>); 12] = [
    (b"enter a", None),
    (b"enter abcdefghijklmno9", None),
    (b"enter abcdefghijklmnop9", Some(Form)),
    (b"enter 9a", Some(Form)),
    (b"enter Anna", Some(Form)),
    (b"enter an-na", Some(Form)),
    (b"enter anna bert", Some(Form)),
    (b"enter", Some(Form)),
    (b"play anna 0 f8", None),
    (b"play 3 0 f8", None),
    (b"play Anna 0 f8", Some(Form)),
    (b"script 2", Some(Word)),
];

#[test]
fn names_are_of_version_2(rt: HostRuntime) -> Result<(), Fail> {
    for (line, fault) in NAMES {
        assert_eq!(rt;
            fault_of(rt.alloc(), LineKind::Session, line, true, 2),
            fault
        );
    }
    Ok(())
}

/// Lines of the other verbs, with the fault if there is one.
const OTHERS: [(LineKind, &[u8], Option<LineFault>); 14] = [
    (LineKind::Read, b"command 90", None),
    (LineKind::Read, b"section 00", None),
    (LineKind::Read, b"packet 80", None),
    (LineKind::Read, b"message FF", None),
    (LineKind::Read, b"message", Some(Form)),
    (LineKind::Read, b"command 90 ", Some(Form)),
    (LineKind::Read, b"state", Some(Word)),
    (LineKind::Read, b"script 2", Some(Word)),
    (LineKind::Repair, b"packet 80", None),
    (LineKind::Repair, b"state", None),
    (LineKind::Repair, b"#", None),
    (LineKind::Repair, b"state 1", Some(Form)),
    (LineKind::Repair, b"packet 8", Some(Form)),
    (LineKind::Repair, b"section 00", Some(Word)),
];

#[test]
fn lines_of_other_verbs(rt: HostRuntime) -> Result<(), Fail> {
    for (kind, line, fault) in OTHERS {
        assert_eq!(rt; fault_of(rt.alloc(), kind, line, false, 1), fault);
    }
    Ok(())
}

#[test]
fn session_line_has_its_numbers(rt: HostRuntime) -> Result<(), Fail> {
    let line = read_line(
        LineKind::Session,
        b"session 1122334A 100",
        false,
        1,
        rt.alloc(),
    );
    let Ok(Line::Session { ssrc, events }) = line else {
        return Err("no session".into());
    };
    assert_eq!(rt; (ssrc, events), (0x1122_334a, 100));
    Ok(())
}

#[test]
fn play_lines_have_their_words(rt: HostRuntime) -> Result<(), Fail> {
    let line = read_line(
        LineKind::Session,
        b"play 3 4611686018427387904 f8",
        true,
        1,
        rt.alloc(),
    );
    let Ok(
        Line::Play {
            player,
            tick,
            command,
        },
    ) = line
    else {
        return Err("no play".into());
    };
    assert_eq!(rt; (player, tick), (3, 1 << 62));
    assert_eq!(rt; command, Command::Clock);
    let line = read_line(LineKind::Session, b"play anna 100 fa", true, 2, rt.alloc());
    let Ok(
        Line::PlayAs {
            name,
            tick,
            command,
        },
    ) = line
    else {
        return Err("no play".into());
    };
    assert_eq!(rt; name.as_slice(), b"anna".as_slice());
    assert_eq!(rt; tick, 100);
    assert_eq!(rt; command, Command::Start);
    Ok(())
}

#[test]
fn message_line_has_its_words(rt: HostRuntime) -> Result<(), Fail> {
    let line = read_line(
        LineKind::Session,
        b"message data 7f000001:5005 50 FFff434b",
        true,
        1,
        rt.alloc(),
    );
    let Ok(
        Line::Message {
            port,
            from,
            now,
            octets,
        },
    ) = line
    else {
        return Err("no message".into());
    };
    assert_eq!(rt; port, PortKind::Rtp);
    assert_eq!(rt;
        from,
        Addr {
            host: 0x7f00_0001,
            port: 5005
        }
    );
    assert_eq!(rt; now, 50);
    assert_eq!(rt; octets.as_slice(), [0xff, 0xff, 0x43, 0x4b].as_slice());
    Ok(())
}

#[test]
fn reports_have_their_numbers(rt: HostRuntime) -> Result<(), Fail> {
    let Ok(Line::Ack { ssrc, seq }) = read_line(
        LineKind::Session,
        b"ack 00000022 65535",
        true,
        1,
        rt.alloc(),
    ) else {
        return Err("no ack".into());
    };
    assert_eq!(rt; (ssrc, seq), (0x22, 65535));
    let Ok(Line::Hear { ssrc, seq }) = read_line(
        LineKind::Session,
        b"hear 00000033 7",
        true,
        1,
        rt.alloc(),
    ) else {
        return Err("no hear".into());
    };
    assert_eq!(rt; (ssrc, seq), (0x33, 7));
    let Ok(Line::Leave { ssrc }) = read_line(
        LineKind::Session,
        b"leave 00000044",
        true,
        1,
        rt.alloc(),
    ) else {
        return Err("no leave".into());
    };
    assert_eq!(rt; ssrc, 0x44);
    Ok(())
}
