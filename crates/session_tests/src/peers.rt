use apple_msg::{Message, Name, read_message, write_message};
use apple_session::*;
use jm_edge::Addr;
use jm_wire::Octets;
use std::alloc::Global;
use std::process::Abort;
use std::test::Fail;

const CONTROL: (PortKind, Addr) = (
    PortKind::Ctl,
    Addr {
        host: 0x7F00_0001,
        port: 5004,
    },
);

const DATA: (PortKind, Addr) = (
    PortKind::Rtp,
    Addr {
        host: 0x7F00_0001,
        port: 5005,
    },
);

const INVITATION: &[u8] = b"\xFF\xFFIN\x00\x00\x00\x02\x01\x02\x03\x04\x00\x00\x00\x22a\x00";

const ACCEPTED: &[u8] = b"\xFF\xFFOK\x00\x00\x00\x02\x01\x02\x03\x04\x11\x22\x33\x44midi_host\x00";

const FIRST: &[u8] =
    b"\xFF\xFFCK\x00\x00\x00\x22\x00\x00\x00\x00\x00\x00\x00\x00\x00\x00\x00\x0A\x00\x00\x00\x00\x00\x00\x00\x00\x00\x00\x00\x00\x00\x00\x00\x00";

const SECOND: &[u8] =
    b"\xFF\xFFCK\x11\x22\x33\x44\x01\x00\x00\x00\x00\x00\x00\x00\x00\x00\x00\x0A\x00\x00\x00\x00\x00\x00\x00\x32\x00\x00\x00\x00\x00\x00\x00\x00";

const THIRD: &[u8] =
    b"\xFF\xFFCK\x00\x00\x00\x22\x02\x00\x00\x00\x00\x00\x00\x00\x00\x00\x00\x0A\x00\x00\x00\x00\x00\x00\x00\x32\x00\x00\x00\x00\x00\x00\x00\x0E";

const FEEDBACK: &[u8] = b"\xFF\xFFRS\x00\x00\x00\x22\x00\x01\x00\x00";

const BYE: &[u8] = b"\xFF\xFFBY\x00\x00\x00\x02\x01\x02\x03\x04\x00\x00\x00\x22";

const NONE: &[u8] = b"";

/// An invitation of the peer 22, with the token 7.
const INVITATION_7: &[u8] = b"\xFF\xFFIN\x00\x00\x00\x02\x00\x00\x00\x07\x00\x00\x00\x22a\x00";

/// The same with the token 8.
const INVITATION_8: &[u8] = b"\xFF\xFFIN\x00\x00\x00\x02\x00\x00\x00\x08\x00\x00\x00\x22a\x00";

/// One with the SSRC of the host.
const OWN_INVITATION: &[u8] = b"\xFF\xFFIN\x00\x00\x00\x02\x00\x00\x00\x07\x11\x22\x33Da\x00";

const OK_7: &[u8] = b"\xFF\xFFOK\x00\x00\x00\x02\x00\x00\x00\x07\x11\x22\x33Dmidi_host\x00";

const OK_8: &[u8] = b"\xFF\xFFOK\x00\x00\x00\x02\x00\x00\x00\x08\x11\x22\x33Dmidi_host\x00";

const NO_7: &[u8] = b"\xFF\xFFNO\x00\x00\x00\x02\x00\x00\x00\x07\x11\x22\x33Dmidi_host\x00";

const NO_8: &[u8] = b"\xFF\xFFNO\x00\x00\x00\x02\x00\x00\x00\x08\x11\x22\x33Dmidi_host\x00";

const BYE_7: &[u8] = b"\xFF\xFFBY\x00\x00\x00\x02\x00\x00\x00\x07\x00\x00\x00\x22";

const FEEDBACK_0: &[u8] = b"\xFF\xFFRS\x00\x00\x00\x22\x00\x00\x00\x00";

/// A first clock message whose second and third times are not 0.
const FIRST_WITH_THREE_TIMES: &[u8] =
    b"\xFF\xFFCK\x00\x00\x00\x22\x00\x00\x00\x00\x00\x00\x00\x00\x00\x00\x00\x0A\x00\x00\x00\x00\x00\x00\x00\x07\x00\x00\x00\x00\x00\x00\x00\x09";

const CLOCK_1: &[u8] =
    b"\xFF\xFFCK\x00\x00\x00\x22\x01\x00\x00\x00\x00\x00\x00\x00\x00\x00\x00\x0A\x00\x00\x00\x00\x00\x00\x00\x32\x00\x00\x00\x00\x00\x00\x00\x00";

const CLOCK_3: &[u8] =
    b"\xFF\xFFCK\x00\x00\x00\x22\x03\x00\x00\x00\x00\x00\x00\x00\x00\x00\x00\x0A\x00\x00\x00\x00\x00\x00\x00\x32\x00\x00\x00\x00\x00\x00\x00\x0E";

/// Third clock messages: the middle of 10 and 13 is 11.
const THIRD_EVEN: &[u8] =
    b"\xFF\xFFCK\x00\x00\x00\x22\x02\x00\x00\x00\x00\x00\x00\x00\x00\x00\x00\x0A\x00\x00\x00\x00\x00\x00\x00\x0B\x00\x00\x00\x00\x00\x00\x00\x0D";

const THIRD_ODD: &[u8] =
    b"\xFF\xFFCK\x00\x00\x00\x22\x02\x00\x00\x00\x00\x00\x00\x00\x00\x00\x00\x0A\x00\x00\x00\x00\x00\x00\x00\x0C\x00\x00\x00\x00\x00\x00\x00\x0D";

const PEER_OK: &[u8] = b"\xFF\xFFOK\x00\x00\x00\x02\x00\x00\x00\x07\x00\x00\x00\x22a\x00";

const PEER_NO: &[u8] = b"\xFF\xFFNO\x00\x00\x00\x02\x00\x00\x00\x07\x00\x00\x00\x22a\x00";

const RATE_LIMIT: &[u8] = b"\xFF\xFFRL";

const FAR_CONTROL: (PortKind, Addr) = (
    PortKind::Ctl,
    Addr {
        host: 0x7F00_0002,
        port: 6004,
    },
);

const FAR_DATA: (PortKind, Addr) = (
    PortKind::Rtp,
    Addr {
        host: 0x7F00_0002,
        port: 6005,
    },
);

/// Whether there is room, where a message came to and from, its octets, the reply's (none where there is no
/// reply), and the act. All come at the moment 50.
type Case = (bool, (PortKind, Addr), &'static [u8], &'static [u8], Act);

/// What an SSRC that isn't listed is answered.
const STRANGER: [Case; 6] = [
    (true, DATA, FIRST, NONE, Act::Ignored(Why::Unknown)),
    (true, CONTROL, FIRST, NONE, Act::Ignored(Why::WrongPort)),
    (true, CONTROL, FEEDBACK, NONE, Act::Ignored(Why::Unknown)),
    (true, CONTROL, BYE_7, NONE, Act::Ignored(Why::Unknown)),
    (true, DATA, INVITATION_7, NO_7, Act::Plain),
    (true, CONTROL, OWN_INVITATION, NO_7, Act::Plain),
];

/// From the first invitation to the peer's joining.
const INVITED: [Case; 8] = [
    (false, CONTROL, INVITATION_7, OK_7, Act::Plain),
    (true, FAR_CONTROL, INVITATION_7, OK_7, Act::Plain),
    (true, DATA, FIRST, NONE, Act::Ignored(Why::NotJoined)),
    (true, DATA, FEEDBACK, NONE, Act::Ignored(Why::NotJoined)),
    (true, DATA, INVITATION_8, NO_8, Act::Plain),
    (false, DATA, INVITATION_7, NO_7, Act::Plain),
    (true, DATA, INVITATION_7, OK_7, Act::Join(0x22)),
    (false, FAR_DATA, INVITATION_7, OK_7, Act::Plain),
];

/// What a joined peer is answered.
const JOINED: [Case; 11] = [
    (true, DATA, FIRST_WITH_THREE_TIMES, SECOND, Act::Plain),
    (true, CONTROL, FIRST, NONE, Act::Ignored(Why::WrongPort)),
    (true, DATA, CLOCK_1, NONE, Act::Ignored(Why::NotUsed)),
    (true, DATA, CLOCK_3, NONE, Act::Ignored(Why::NotUsed)),
    (true, DATA, THIRD_EVEN, NONE, Act::Clocked { offset: 0 }),
    (true, DATA, THIRD_ODD, NONE, Act::Clocked { offset: -1 }),
    (
        true,
        DATA,
        FEEDBACK_0,
        NONE,
        Act::Ack { ssrc: 0x22, seq: 0 },
    ),
    (true, CONTROL, PEER_OK, NONE, Act::Ignored(Why::NotUsed)),
    (true, DATA, PEER_NO, NONE, Act::Ignored(Why::NotUsed)),
    (true, CONTROL, RATE_LIMIT, NONE, Act::Ignored(Why::NotUsed)),
    (true, DATA, INVITATION_8, NO_8, Act::Plain),
];

/// It begins anew, and leaves before it has joined again.
const ANEW: [Case; 5] = [
    (true, FAR_CONTROL, INVITATION_8, OK_8, Act::Leave(0x22)),
    (true, CONTROL, INVITATION_7, OK_7, Act::Plain),
    (true, FAR_CONTROL, INVITATION_8, OK_8, Act::Plain),
    (true, DATA, INVITATION_7, NO_7, Act::Plain),
    (true, DATA, BYE_7, NONE, Act::Plain),
];

fn host() -> Result<Session, Fail> {
    let name = Name::new(b"midi_host").ok_or("a name")?;
    Ok(Session::new(0x1122_3344, name))
}

/// The octets of the reply to these octets, none where there is no reply, and what the session is to do.
fn heard(
    alloc: Global,
    host: &mut Session,
    room: bool,
    to: (PortKind, Addr),
    octets: &[u8],
    now: u64,
) -> Result<(Octets, Act), Fail> {
    let message = read_message(octets)?;
    let Answer { reply, act } = host.on_message(room, to.0, to.1, &message, now);
    match reply {
        None => Ok((Octets::with_room(0, alloc)?, act)),
        Some(reply) => {
            let mut out = Octets::with_room(reply.written_len(), alloc)?;
            write_message(&reply, &mut out);
            Ok((out, act))
        }
    }
}

#[test]
fn invitation_clock_bye(rt: HostRuntime) -> Result<(), Fail> {
    let mut host = host()?;
    let acked = Act::Ack { ssrc: 0x22, seq: 1 };
    let behind = Act::Clocked { offset: -38 };
    let rows = [
        (true, CONTROL, INVITATION, ACCEPTED, Act::Plain),
        (true, DATA, INVITATION, ACCEPTED, Act::Join(0x22)),
        (true, DATA, FIRST, SECOND, Act::Plain),
        (true, DATA, THIRD, NONE, behind),
        (true, CONTROL, FEEDBACK, NONE, acked),
        (true, CONTROL, BYE, NONE, Act::Leave(0x22)),
        (true, CONTROL, BYE, NONE, Act::Ignored(Why::Unknown)),
    ];
    told(&rt, rt.alloc(), &mut host, &rows)
}

/// Each case in turn.
fn told(rt: &impl Abort, alloc: Global, host: &mut Session, cases: &[Case]) -> Result<(), Fail> {
    for (room, to, octets, reply, act) in cases {
        let (told, did) = heard(alloc, host, *room, *to, octets, 50)?;
        assert!(rt; told.as_slice() == *reply, "{octets:?}");
        assert!(rt; did == *act, "{octets:?}");
    }
    Ok(())
}

#[test]
fn each_case_of_the_machine(rt: HostRuntime) -> Result<(), Fail> {
    let mut host = host()?;
    told(&rt, rt.alloc(), &mut host, &STRANGER)?;
    assert_eq!(rt; host.peer(0), None);
    told(&rt, rt.alloc(), &mut host, &INVITED)?;
    let joined = Peer {
        ssrc: 0x22,
        token: 7,
        control: CONTROL.1,
        data: Some(DATA.1),
    };
    assert_eq!(rt; host.peer(0), Some(joined));
    told(&rt, rt.alloc(), &mut host, &JOINED)?;
    assert_eq!(rt; host.peer(0), Some(joined));
    told(&rt, rt.alloc(), &mut host, &ANEW[..3])?;
    let invited = Peer {
        token: 8,
        control: FAR_CONTROL.1,
        data: None,
        ..joined
    };
    assert_eq!(rt; host.peer(0), Some(invited));
    told(&rt, rt.alloc(), &mut host, &ANEW[3..])?;
    assert_eq!(rt; host.peer(0), None);
    Ok(())
}

fn invitation(token: u32, ssrc: u32) -> Message {
    match Name::new(b"a") {
        Some(name) => Message::Invite { token, ssrc, name },
        None => Message::RateLimit,
    }
}

/// A port, the token and SSRC of an invitation to it, and what it answers: whether the reply is OK, and the act.
type Invited = (PortKind, u32, u32, (bool, Act));

/// Each invitation in turn.
fn all_invited(rt: &impl Abort, host: &mut Session, rows: &[Invited]) {
    for (port, token, ssrc, answer) in rows {
        assert!(rt; invited(host, *port, *token, *ssrc) == *answer, "{ssrc:?}");
    }
}

/// Whether the reply is OK, and what the session is to do.
fn invited(host: &mut Session, port: PortKind, token: u32, ssrc: u32) -> (bool, Act) {
    let Answer { reply, act } = host.on_message(true, port, CONTROL.1, &invitation(token, ssrc), 0);
    (matches!(&reply, Some(Message::Accept { .. })), act)
}

/// The SSRC of the peer at this place.
fn ssrc_at(host: &Session, place: usize) -> Option<u32> {
    host.peer(place).map(|peer| peer.ssrc)
}

const PLAIN_OK: (bool, Act) = (true, Act::Plain);

const PLAIN_NO: (bool, Act) = (false, Act::Plain);

/// Behind 32 invitations to the control port.
const FULL: [Invited; 3] = [
    (PortKind::Rtp, 7, 1, (true, Act::Join(1))),
    (PortKind::Rtp, 8, 2, PLAIN_NO),
    (PortKind::Ctl, 7, 33, PLAIN_OK),
];

#[test]
fn full_list(rt: HostRuntime) -> Result<(), Fail> {
    let mut host = host()?;
    for ssrc in 1..33u32 {
        all_invited(&rt, &mut host, &[(PortKind::Ctl, 7, ssrc, PLAIN_OK)]);
    }
    all_invited(&rt, &mut host, &FULL);
    assert_eq!(rt; ssrc_at(&host, 0), Some(1));
    assert_eq!(rt; ssrc_at(&host, 1), Some(3));
    assert_eq!(rt; ssrc_at(&host, 31), Some(33));
    assert_eq!(rt; ssrc_at(&host, 32), None);
    let anew = (PortKind::Ctl, 9, 1, (true, Act::Leave(1)));
    all_invited(&rt, &mut host, &[anew]);
    host.drop_peer(1);
    assert_eq!(rt; ssrc_at(&host, 0), Some(3));
    let own = (PortKind::Ctl, 9, 0x1122_3344, PLAIN_NO);
    all_invited(&rt, &mut host, &[own]);
    Ok(())
}

/// Behind 32 peers that have joined.
const ALL_JOINED: [Invited; 6] = [
    (PortKind::Ctl, 7, 33, PLAIN_NO),
    (PortKind::Ctl, 8, 5, (true, Act::Leave(5))),
    (PortKind::Ctl, 7, 33, PLAIN_OK),
    (PortKind::Ctl, 7, 34, PLAIN_OK),
    (PortKind::Rtp, 7, 33, PLAIN_NO),
    (PortKind::Rtp, 7, 34, (true, Act::Join(34))),
];

#[test]
fn all_joined(rt: HostRuntime) -> Result<(), Fail> {
    let mut host = host()?;
    for ssrc in 1..33u32 {
        let asked = (PortKind::Ctl, 7, ssrc, PLAIN_OK);
        let joined = (PortKind::Rtp, 7, ssrc, (true, Act::Join(ssrc)));
        all_invited(&rt, &mut host, &[asked, joined]);
    }
    all_invited(&rt, &mut host, &ALL_JOINED);
    assert_eq!(rt; ssrc_at(&host, 3), Some(4));
    assert_eq!(rt; ssrc_at(&host, 4), Some(6));
    assert_eq!(rt; ssrc_at(&host, 31), Some(34));
    Ok(())
}
