use DialAct::{Ended, Ignored, Opened, Plain};
use Do::{Close, Hear, Report, Time};
use Phase::{AskCtl, AskRtp, Closed, Fresh, Open};
use PortKind::{Ctl, Rtp};
use apple_invite::*;
use apple_msg::{Message, Name, read_message, write_message};
use apple_session::PortKind;
use jm_edge::Addr;
use jm_wire::Octets;
use std::alloc::Global;
use std::process::Abort;
use std::test::Fail;

const CONTROL: Addr = Addr {
    host: 0x7F00_0001,
    port: 5004,
};

const DATA: Addr = Addr {
    host: 0x7F00_0001,
    port: 5005,
};

const STRANGER: Addr = Addr {
    host: 0x7F00_0002,
    port: 5004,
};

const NONE: &[u8] = b"";

/// The invitation of the SSRC 4d494455 with the token 1.
const INVITATION: &[u8] = b"\xFF\xFFIN\x00\x00\x00\x02\x00\x00\x00\x01MIDUmidi_host\x00";

const FAREWELL: &[u8] = b"\xFF\xFFBY\x00\x00\x00\x02\x00\x00\x00\x01MIDU";

/// What the host of the SSRC 11223344 says.
const OK: &[u8] = b"\xFF\xFFOK\x00\x00\x00\x02\x00\x00\x00\x01\x11\x22\x33Da\x00";

const NO: &[u8] = b"\xFF\xFFNO\x00\x00\x00\x02\x00\x00\x00\x01\x11\x22\x33Da\x00";

const BYE: &[u8] = b"\xFF\xFFBY\x00\x00\x00\x02\x00\x00\x00\x01\x11\x22\x33D";

/// A bye with another token.
const BYE_2: &[u8] = b"\xFF\xFFBY\x00\x00\x00\x02\x00\x00\x00\x02\x11\x22\x33D";

/// OK and NO of the token 2.
const OK_2: &[u8] = b"\xFF\xFFOK\x00\x00\x00\x02\x00\x00\x00\x02\x11\x22\x33Da\x00";

const NO_2: &[u8] = b"\xFF\xFFNO\x00\x00\x00\x02\x00\x00\x00\x02\x11\x22\x33Da\x00";

/// What the SSRC 55 says.
const OTHER_OK: &[u8] = b"\xFF\xFFOK\x00\x00\x00\x02\x00\x00\x00\x01\x00\x00\x00\x55a\x00";

const OTHER_NO: &[u8] = b"\xFF\xFFNO\x00\x00\x00\x02\x00\x00\x00\x01\x00\x00\x00\x55a\x00";

const OTHER_BYE: &[u8] = b"\xFF\xFFBY\x00\x00\x00\x02\x00\x00\x00\x01\x00\x00\x00\x55";

const RATE_LIMIT: &[u8] = b"\xFF\xFFRL";

const REPORT: &[u8] = b"\xFF\xFFRSMIDU\xFF\xFE\x00\x00";

/// The questions for the host's clock at the moments 0, 20020 and 120020.
const ASKED_0: &[u8] =
    b"\xFF\xFFCKMIDU\x00\x00\x00\x00\x00\x00\x00\x00\x00\x00\x00\x00\x00\x00\x00\x00\x00\x00\x00\x00\x00\x00\x00\x00\x00\x00\x00\x00";

const ASKED_20020: &[u8] =
    b"\xFF\xFFCKMIDU\x00\x00\x00\x00\x00\x00\x00\x00\x00\x00N\x34\x00\x00\x00\x00\x00\x00\x00\x00\x00\x00\x00\x00\x00\x00\x00\x00";

const ASKED_120020: &[u8] =
    b"\xFF\xFFCKMIDU\x00\x00\x00\x00\x00\x00\x00\x00\x00\x01\xD4\xD4\x00\x00\x00\x00\x00\x00\x00\x00\x00\x00\x00\x00\x00\x00\x00\x00";

/// The host's clock shows 7 at the first of them.
const CLOCK: &[u8] =
    b"\xFF\xFFCK\x11\x22\x33D\x01\x00\x00\x00\x00\x00\x00\x00\x00\x00N\x34\x00\x00\x00\x00\x00\x00\x00\x07\x00\x00\x00\x00\x00\x00\x00\x09";

/// The same of the SSRC 55, of count 2, and with another question's moment.
const OTHER_CLOCK: &[u8] =
    b"\xFF\xFFCK\x00\x00\x00U\x01\x00\x00\x00\x00\x00\x00\x00\x00\x00N\x34\x00\x00\x00\x00\x00\x00\x00\x07\x00\x00\x00\x00\x00\x00\x00\x09";

const THIRD_CLOCK: &[u8] =
    b"\xFF\xFFCK\x11\x22\x33D\x02\x00\x00\x00\x00\x00\x00\x00\x00\x00N\x34\x00\x00\x00\x00\x00\x00\x00\x07\x00\x00\x00\x00\x00\x00\x00\x09";

const LATE_CLOCK: &[u8] =
    b"\xFF\xFFCK\x11\x22\x33D\x01\x00\x00\x00\x00\x00\x00\x00\x00\x00N\x35\x00\x00\x00\x00\x00\x00\x00\x07\x00\x00\x00\x00\x00\x00\x00\x09";

/// What is told to the host at the moment 20031.
const TOLD: &[u8] =
    b"\xFF\xFFCKMIDU\x02\x00\x00\x00\x00\x00\x00\x00\x00\x00N\x34\x00\x00\x00\x00\x00\x00\x00\x07\x00\x00\x00\x00\x00\x00N\x3F";

/// The host's clock shows 120030 at the second question; the answer comes at 120025.
const CLOCK_120020: &[u8] =
    b"\xFF\xFFCK\x11\x22\x33D\x01\x00\x00\x00\x00\x00\x00\x00\x00\x01\xD4\xD4\x00\x00\x00\x00\x00\x01\xD4\xDE\x00\x00\x00\x00\x00\x00\x00\x00";

const TOLD_120025: &[u8] =
    b"\xFF\xFFCKMIDU\x02\x00\x00\x00\x00\x00\x00\x00\x00\x01\xD4\xD4\x00\x00\x00\x00\x00\x01\xD4\xDE\x00\x00\x00\x00\x00\x01\xD4\xD9";

/// A call.
#[derive(Clone, Copy)]
enum Do {
    Time(u64),
    /// These octets come to the port from this address at this moment.
    Hear(PortKind, Addr, &'static [u8], u64),
    Report(u16),
    Close,
}

/// A call, the port that its message goes to, the octets (none where nothing is sent), what it did, and the phase after
/// it.
type Case = (Do, PortKind, &'static [u8], DialAct, Phase);

const NEW: [Case; 5] = [
    (Hear(Ctl, CONTROL, OK, 0), Ctl, NONE, Ignored, Fresh),
    (Hear(Ctl, CONTROL, BYE, 0), Ctl, NONE, Ignored, Fresh),
    (Report(1), Ctl, NONE, Ignored, Fresh),
    (Close, Ctl, NONE, Ignored, Fresh),
    (Time(5), Ctl, INVITATION, Plain, AskCtl),
];

/// The control port was asked at 5.
const CONTROL_ASKED: [Case; 13] = [
    (
        Hear(Ctl, CONTROL, RATE_LIMIT, 6),
        Ctl,
        NONE,
        Ignored,
        AskCtl,
    ),
    (Time(10_004), Ctl, NONE, Plain, AskCtl),
    (Time(0), Ctl, NONE, Plain, AskCtl),
    (Hear(Ctl, STRANGER, OK, 6), Ctl, NONE, Ignored, AskCtl),
    (Hear(Ctl, DATA, OK, 6), Ctl, NONE, Ignored, AskCtl),
    (Hear(Rtp, DATA, OK, 6), Ctl, NONE, Ignored, AskCtl),
    (Hear(Ctl, CONTROL, OK_2, 6), Ctl, NONE, Ignored, AskCtl),
    (Hear(Ctl, CONTROL, NO_2, 6), Ctl, NONE, Ignored, AskCtl),
    (Hear(Rtp, DATA, NO, 6), Ctl, NONE, Ignored, AskCtl),
    (Hear(Ctl, CONTROL, BYE, 6), Ctl, NONE, Ignored, AskCtl),
    (Report(1), Ctl, NONE, Ignored, AskCtl),
    (Time(10_005), Ctl, INVITATION, Plain, AskCtl),
    (
        Hear(Ctl, CONTROL, OK, 10_010),
        Rtp,
        INVITATION,
        Plain,
        AskRtp,
    ),
];

/// The data port was asked at 10010.
const DATA_ASKED: [Case; 13] = [
    (Time(20_009), Ctl, NONE, Plain, AskRtp),
    (Hear(Ctl, CONTROL, OK, 10_011), Ctl, NONE, Ignored, AskRtp),
    (Hear(Rtp, CONTROL, OK, 10_011), Ctl, NONE, Ignored, AskRtp),
    (Hear(Rtp, DATA, OK_2, 10_011), Ctl, NONE, Ignored, AskRtp),
    (
        Hear(Rtp, DATA, OTHER_OK, 10_011),
        Ctl,
        NONE,
        Ignored,
        AskRtp,
    ),
    (Hear(Ctl, CONTROL, NO, 10_011), Ctl, NONE, Ignored, AskRtp),
    (Hear(Rtp, DATA, NO_2, 10_011), Ctl, NONE, Ignored, AskRtp),
    (
        Hear(Rtp, DATA, OTHER_BYE, 10_011),
        Ctl,
        NONE,
        Ignored,
        AskRtp,
    ),
    (Hear(Rtp, CONTROL, BYE, 10_011), Ctl, NONE, Ignored, AskRtp),
    (Hear(Rtp, DATA, CLOCK, 10_011), Ctl, NONE, Ignored, AskRtp),
    (Report(1), Ctl, NONE, Ignored, AskRtp),
    (Time(20_010), Rtp, INVITATION, Plain, AskRtp),
    (Hear(Rtp, DATA, OK, 20_020), Rtp, ASKED_20020, Opened, Open),
];

/// The host was asked for its clock at 20020.
const IN_SESSION: [Case; 16] = [
    (Time(120_019), Ctl, NONE, Plain, Open),
    (Hear(Rtp, DATA, OK, 20_021), Ctl, NONE, Ignored, Open),
    (Hear(Rtp, DATA, NO, 20_021), Ctl, NONE, Ignored, Open),
    (Hear(Ctl, CONTROL, CLOCK, 20_030), Ctl, NONE, Ignored, Open),
    (Hear(Rtp, STRANGER, CLOCK, 20_030), Ctl, NONE, Ignored, Open),
    (
        Hear(Rtp, DATA, OTHER_CLOCK, 20_030),
        Ctl,
        NONE,
        Ignored,
        Open,
    ),
    (
        Hear(Rtp, DATA, THIRD_CLOCK, 20_030),
        Ctl,
        NONE,
        Ignored,
        Open,
    ),
    (
        Hear(Rtp, DATA, LATE_CLOCK, 20_030),
        Ctl,
        NONE,
        Ignored,
        Open,
    ),
    (
        Hear(Rtp, DATA, CLOCK, 20_031),
        Rtp,
        TOLD,
        DialAct::Clocked { offset: 20_018 },
        Open,
    ),
    (Hear(Rtp, DATA, CLOCK, 20_031), Ctl, NONE, Ignored, Open),
    (Time(120_020), Rtp, ASKED_120020, Plain, Open),
    (Hear(Rtp, DATA, CLOCK, 120_021), Ctl, NONE, Ignored, Open),
    (
        Hear(Rtp, DATA, CLOCK_120020, 120_025),
        Rtp,
        TOLD_120025,
        DialAct::Clocked { offset: -8 },
        Open,
    ),
    (Hear(Rtp, CONTROL, BYE, 120_026), Ctl, NONE, Ignored, Open),
    (
        Hear(Rtp, DATA, OTHER_BYE, 120_026),
        Ctl,
        NONE,
        Ignored,
        Open,
    ),
    (Report(0xFFFE), Ctl, REPORT, Plain, Open),
];

const ENDED: [Case; 5] = [
    (
        Hear(Ctl, CONTROL, BYE_2, 120_027),
        Ctl,
        NONE,
        Ended(EndCause::Bye),
        Closed(EndCause::Bye),
    ),
    (Time(1_000_000), Ctl, NONE, Plain, Closed(EndCause::Bye)),
    (
        Hear(Ctl, CONTROL, OK, 1_000_000),
        Ctl,
        NONE,
        Ignored,
        Closed(EndCause::Bye),
    ),
    (Report(2), Ctl, NONE, Ignored, Closed(EndCause::Bye)),
    (Close, Ctl, NONE, Ignored, Closed(EndCause::Bye)),
];

/// Both ports say OK at once, and the second moment is the first again.
const CALLED: [Case; 5] = [
    (Time(0), Ctl, INVITATION, Plain, AskCtl),
    (Hear(Ctl, CONTROL, OK, 0), Rtp, INVITATION, Plain, AskRtp),
    (Hear(Rtp, DATA, OK, 0), Rtp, ASKED_0, Opened, Open),
    (Time(0), Ctl, NONE, Plain, Open),
    (
        Close,
        Ctl,
        FAREWELL,
        Ended(EndCause::Ours),
        Closed(EndCause::Ours),
    ),
];

/// NO of the control port; NO of the data port, of whatever SSRC.
const REFUSED: [Case; 2] = [
    (Time(0), Ctl, INVITATION, Plain, AskCtl),
    (
        Hear(Ctl, CONTROL, NO, 1),
        Ctl,
        NONE,
        Ended(EndCause::Rejected),
        Closed(EndCause::Rejected),
    ),
];

const REFUSED_LATE: [Case; 3] = [
    (Time(0), Ctl, INVITATION, Plain, AskCtl),
    (Hear(Ctl, CONTROL, OK, 1), Rtp, INVITATION, Plain, AskRtp),
    (
        Hear(Rtp, DATA, OTHER_NO, 2),
        Ctl,
        NONE,
        Ended(EndCause::Rejected),
        Closed(EndCause::Rejected),
    ),
];

/// Byes before it is open.
const LEFT: [Case; 3] = [
    (Time(0), Ctl, INVITATION, Plain, AskCtl),
    (Hear(Ctl, CONTROL, OK, 1), Rtp, INVITATION, Plain, AskRtp),
    (
        Hear(Ctl, CONTROL, BYE, 2),
        Ctl,
        NONE,
        Ended(EndCause::Bye),
        Closed(EndCause::Bye),
    ),
];

const CLOSED_EARLY: [Case; 2] = [
    (Time(0), Ctl, INVITATION, Plain, AskCtl),
    (
        Close,
        Ctl,
        FAREWELL,
        Ended(EndCause::Ours),
        Closed(EndCause::Ours),
    ),
];

fn inviter() -> Result<Inviter, Fail> {
    let name = Name::new(b"midi_host").ok_or("a name")?;
    Ok(Inviter::new(0x4D49_4455, 1, name, CONTROL))
}

fn done(inviter: &mut Inviter, what: Do) -> Result<Dialed, Fail> {
    match what {
        Do::Time(now) => Ok(inviter.on_time(now.min(1 << 62))),
        Do::Hear(port, from, octets, now) => {
            let message = read_message(octets)?;
            Ok(inviter.on_message(port, from, &message, now.min(1 << 62)))
        }
        Do::Report(seq) => Ok(inviter.feedback(seq)),
        Do::Close => Ok(inviter.close()),
    }
}

/// The port that a message goes to and its octets, none where nothing is sent.
fn posted(alloc: Global, send: Option<(PortKind, Message)>) -> Result<(PortKind, Octets), Fail> {
    match send {
        None => Ok((PortKind::Ctl, Octets::with_room(0, alloc)?)),
        Some((port, message)) => {
            let mut out = Octets::with_room(message.written_len(), alloc)?;
            write_message(&message, &mut out);
            Ok((port, out))
        }
    }
}

/// Each case in turn.
fn told(rt: &impl Abort, alloc: Global, inviter: &mut Inviter, cases: &[Case]) -> Result<(), Fail> {
    for (what, port, octets, act, phase) in cases {
        let Dialed { send, act: did } = done(inviter, *what)?;
        let (to, out) = posted(alloc, send)?;
        assert!(rt; out.as_slice() == *octets, "{octets:?}");
        assert!(rt; to == *port);
        assert!(rt; did == *act, "{did:?}");
        assert!(rt; inviter.phase() == *phase);
    }
    Ok(())
}

#[test]
fn each_case_of_the_machine(rt: HostRuntime) -> Result<(), Fail> {
    let mut inviter = inviter()?;
    assert_eq!(rt; inviter.phase(), Phase::Fresh);
    told(&rt, rt.alloc(), &mut inviter, &NEW)?;
    told(&rt, rt.alloc(), &mut inviter, &CONTROL_ASKED)?;
    told(&rt, rt.alloc(), &mut inviter, &DATA_ASKED)?;
    told(&rt, rt.alloc(), &mut inviter, &IN_SESSION)?;
    told(&rt, rt.alloc(), &mut inviter, &ENDED)?;
    Ok(())
}

#[test]
fn called_and_closed(rt: HostRuntime) -> Result<(), Fail> {
    told(&rt, rt.alloc(), &mut inviter()?, &CALLED)?;
    told(&rt, rt.alloc(), &mut inviter()?, &REFUSED)?;
    told(&rt, rt.alloc(), &mut inviter()?, &REFUSED_LATE)?;
    told(&rt, rt.alloc(), &mut inviter()?, &LEFT)?;
    told(&rt, rt.alloc(), &mut inviter()?, &CLOSED_EARLY)
}

/// No answer from the control port, and none from the data port.
#[test]
fn twelve_invitations(rt: HostRuntime) -> Result<(), Fail> {
    let gone = Closed(EndCause::NoAnswer);
    let mut first = inviter()?;
    let mut second = inviter()?;
    told(&rt, rt.alloc(), &mut second, &CALLED[..2])?;
    for k in 0..12u64 {
        let asked = (Time(k * 10_000), Ctl, INVITATION, Plain, AskCtl);
        told(&rt, rt.alloc(), &mut first, &[asked])?;
        if k > 0 {
            let asked = (Time(k * 10_000), Rtp, INVITATION, Plain, AskRtp);
            told(&rt, rt.alloc(), &mut second, &[asked])?;
        }
    }
    let ended = (Time(120_000), Ctl, NONE, Ended(EndCause::NoAnswer), gone);
    told(&rt, rt.alloc(), &mut first, &[ended])?;
    told(&rt, rt.alloc(), &mut second, &[ended])
}
