use apple_msg::*;
use jm_wire::Octets;
use std::alloc::Global;
use std::test::Fail;

const INVITATION: &[u8] = b"\xFF\xFFIN\x00\x00\x00\x02\x01\x02\x03\x04\x00\x00\x00\x22a\x00";

const ACCEPTED: &[u8] = b"\xFF\xFFOK\x00\x00\x00\x02\x01\x02\x03\x04\x11\x22\x33\x44midi_host\x00";

const FIRST_CLOCK: &[u8] =
    b"\xFF\xFFCK\x00\x00\x00\x22\x00\x00\x00\x00\x00\x00\x00\x00\x00\x00\x00\x0A\x00\x00\x00\x00\x00\x00\x00\x00\x00\x00\x00\x00\x00\x00\x00\x00";

const LAST_CLOCK: &[u8] =
    b"\xFF\xFFCK\x00\x00\x00\x22\x02\x00\x00\x00\x00\x00\x00\x00\x00\x00\x00\x0A\x00\x00\x00\x00\x00\x00\x00\x32\x00\x00\x00\x00\x00\x00\x00\x0E";

const FEEDBACK: &[u8] = b"\xFF\xFFRS\x00\x00\x00\x22\x00\x01\x00\x00";

const BYE: &[u8] = b"\xFF\xFFBY\x00\x00\x00\x02\x01\x02\x03\x04\x00\x00\x00\x22";

/// The octets that are written of the message that these octets spell.
fn rewritten(alloc: Global, octets: &[u8]) -> Result<Octets, Fail> {
    let message = read_message(octets)?;
    let mut out = Octets::with_room(message.written_len(), alloc)?;
    write_message(&message, &mut out);
    Ok(out)
}

#[test]
fn written_as_read(rt: HostRuntime) -> Result<(), Fail> {
    for octets in [
        INVITATION,
        ACCEPTED,
        FIRST_CLOCK,
        LAST_CLOCK,
        FEEDBACK,
        BYE,
        b"\xFF\xFFRL",
    ] {
        let out = rewritten(rt.alloc(), octets)?;
        assert_eq!(rt; out.as_slice(), octets);
    }
    Ok(())
}

#[test]
fn fields(rt: HostRuntime) -> Result<(), Fail> {
    let Message::Invite { token, ssrc, name } = read_message(INVITATION)? else {
        return Err(Fail::from("an invitation"));
    };
    assert_eq!(rt; token, 0x0102_0304);
    assert_eq!(rt; ssrc, 0x22);
    assert_eq!(rt; name.as_slice(), b"a".as_slice());
    let Message::Clock { ssrc, count, times } = read_message(LAST_CLOCK)? else {
        return Err(Fail::from("a clock"));
    };
    assert_eq!(rt; ssrc, 0x22);
    assert_eq!(rt; count, 2);
    assert_eq!(rt; times, [10, 50, 14]);
    Ok(())
}

#[test]
fn copies(rt: HostRuntime) -> Result<(), Fail> {
    for octets in [ACCEPTED, LAST_CLOCK] {
        let message = read_message(octets)?;
        assert!(rt; message.copy() == message);
    }
    Ok(())
}

#[test]
fn faults(rt: HostRuntime) {
    for (octets, fault) in [
        (b"".as_slice(), MsgFault::NotApple),
        (b"\xFF", MsgFault::NotApple),
        (b"\xFF\xFEIN", MsgFault::NotApple),
        (b"XX", MsgFault::NotApple),
        (b"\xFF\xFF", MsgFault::Short),
        (b"\xFF\xFFX", MsgFault::Short),
        (b"\xFF\xFFXX", MsgFault::UnknownVerb),
        (b"\xFF\xFFNI", MsgFault::UnknownVerb),
        (&INVITATION[..15], MsgFault::Short),
        (
            b"\xFF\xFFIN\x00\x00\x00\x03\x01\x02\x03\x04\x00\x00\x00",
            MsgFault::Short,
        ),
        (
            b"\xFF\xFFIN\x00\x00\x00\x03\x01\x02\x03\x04\x00\x00\x00\x22a",
            MsgFault::Version,
        ),
        (&INVITATION[..17], MsgFault::NameNotEnded),
        (&BYE[..15], MsgFault::Short),
        (
            b"\xFF\xFFBY\x00\x00\x01\x02\x01\x02\x03\x04\x00\x00\x00\x22",
            MsgFault::Version,
        ),
        (&LAST_CLOCK[..35], MsgFault::Short),
        (&FEEDBACK[..11], MsgFault::Short),
    ] {
        assert!(rt; read_message(octets).err() == Some(fault), "{octets:?}");
    }
}

/// Octets, and what is written of the message that they spell: what a reader does not look at is 0 there, and
/// nothing stands behind_octets it.
const PASSED_OVER: [(&[u8], &[u8]); 7] = [
    (
        b"\xFF\xFFIN\x00\x00\x00\x02\x01\x02\x03\x04\x00\x00\x00\x22a\x00b\x00",
        INVITATION,
    ),
    (
        b"\xFF\xFFNO\x00\x00\x00\x02\x01\x02\x03\x04\x00\x00\x00\x22",
        b"\xFF\xFFNO\x00\x00\x00\x02\x01\x02\x03\x04\x00\x00\x00\x22\x00",
    ),
    (
        b"\xFF\xFFNO\x00\x00\x00\x02\x01\x02\x03\x04\x00\x00\x00\x22\x00a",
        b"\xFF\xFFNO\x00\x00\x00\x02\x01\x02\x03\x04\x00\x00\x00\x22\x00",
    ),
    (
        b"\xFF\xFFBY\x00\x00\x00\x02\x01\x02\x03\x04\x00\x00\x00\x22\xFF",
        BYE,
    ),
    (
        b"\xFF\xFFCK\x00\x00\x00\x22\x02\x01\x02\x03\x00\x00\x00\x00\x00\x00\x00\x0A\x00\x00\x00\x00\x00\x00\x00\x32\x00\x00\x00\x00\x00\x00\x00\x0E\x0F",
        LAST_CLOCK,
    ),
    (b"\xFF\xFFRS\x00\x00\x00\x22\x00\x01\xFF\xFE\xFD", FEEDBACK),
    (b"\xFF\xFFRL\x00\x00\x00\x22", b"\xFF\xFFRL"),
];

#[test]
fn what_is_passed_over(rt: HostRuntime) -> Result<(), Fail> {
    for (octets, written) in PASSED_OVER {
        let out = rewritten(rt.alloc(), octets)?;
        assert_eq!(rt; out.as_slice(), written);
    }
    Ok(())
}

/// An invitation with a name of this many octets, at most 64, none of them 0.
fn named(alloc: Global, count: usize) -> Result<Octets, Fail> {
    let mut out = Octets::with_room(90, alloc)?;
    out.push_slice(&INVITATION[..16]);
    out.push_slice(&[b'n'; 64][..count.min(64)]);
    out.push(0);
    Ok(out)
}

#[test]
fn names(rt: HostRuntime) -> Result<(), Fail> {
    for (count, written) in [(0usize, 17usize), (62, 79), (63, 80), (64, 80)] {
        let octets = named(rt.alloc(), count)?;
        let kept = rewritten(rt.alloc(), octets.as_slice())?;
        assert_eq!(rt; kept.as_slice().len(), written);
    }
    let name = Name::new(b"midi_host").ok_or("a name")?;
    assert_eq!(rt; name.copy().as_slice(), b"midi_host".as_slice());
    assert!(rt; Name::new(&[b'n'; 63]).is_some());
    assert!(rt; Name::new(&[b'n'; 64]).is_none());
    assert!(rt; Name::new(b"a\x00b").is_none());
    Ok(())
}
