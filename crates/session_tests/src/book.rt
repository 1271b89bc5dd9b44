//! Worked sessions, told by an independent plain program.
use apple_msg::{Message, Name};
use apple_session::{PortKind, Why};
use jm_book::*;
use jm_cmds::{Channel, Command, D7};
use jm_edge::Addr;
use jm_wire::Octets;
use std::alloc::Global;
use std::process::Abort;
use std::test::Fail;

/// A call.
#[derive(Clone, Copy)]
enum Line {
    Join(u32),
    Leave(u32),
    Ack(u32, u16),
    Hear(u32, u16),
    Cut,
    /// An invitation to a port from a port of the sender, with a token.
    Invite(PortKind, u16, u32, u32),
    Report(u32, u16),
    Bye(u32),
    Clock(u8, [u64; 3]),
    Limit,
}

/// What it answers; of a message whether there is a reply, and what it came to.
#[derive(Clone, Copy, Debug, PartialEq, Eq)]
enum Told {
    Joined(Joined),
    Gone(Gone),
    Acked(Acked),
    Heard(Heard),
    Cutted(Cutted),
    Said(bool, Acted),
    Full,
}

const CONTROL: PortKind = PortKind::Ctl;

const DATA: PortKind = PortKind::Rtp;

const LEFT: Told = Told::Gone(Gone::Left);

const PLAIN: Told = Told::Said(true, Acted::Plain);

const STRANGER: Told = Told::Acked(Acked::UnknownSsrc);

fn packet(number: u64) -> Told {
    Told::Cutted(Cutted::Packet { number })
}

fn at(mark: u64, player: u8) -> Told {
    Told::Joined(Joined::At { mark, player })
}

fn joined(mark: u64, player: u8) -> Told {
    Told::Said(true, Acted::Joined { mark, player })
}

fn unanswered(act: Acted) -> Told {
    Told::Said(false, act)
}

fn name(octets: &[u8]) -> Result<Name, Fail> {
    Ok(Name::new(octets).ok_or("a name")?)
}

fn session(alloc: Global) -> Result<Book, Fail> {
    let config = Config {
        ssrc: 0x1122_3344,
        events: 200,
        name: name(b"midi_host")?,
    };
    Ok(Book::new(config, alloc)?)
}

fn message(line: Line) -> Result<Message, Fail> {
    Ok(match line {
        Line::Invite(_, _, token, ssrc) => Message::Invite {
            token,
            ssrc,
            name: name(b"a")?,
        },
        Line::Report(ssrc, seq) => Message::Feedback { ssrc, seq },
        Line::Bye(ssrc) => Message::Bye { token: 9, ssrc },
        Line::Clock(count, times) => Message::Clock {
            ssrc: 0x22,
            count,
            times,
        },
        _ => Message::RateLimit,
    })
}

/// A message to the control port, unless it is an invitation or of a clock.
fn said(book: &mut Book, line: Line) -> Result<Told, Fail> {
    let (to, port) = match line {
        Line::Invite(to, port, _, _) => (to, port),
        Line::Clock(_, _) => (DATA, 5005),
        _ => (CONTROL, 5004),
    };
    let from = Addr { host: HOME, port };
    book.reserve()?;
    Ok(match book.say(to, from, &message(line)?, 50) {
        Said::RecordFull { .. } => Told::Full,
        Said::Done { reply, act } => Told::Said(reply.is_some(), act),
    })
}

fn answer(book: &mut Book, line: Line, alloc: Global) -> Result<Told, Fail> {
    book.reserve()?;
    match line {
        Line::Join(ssrc) => Ok(Told::Joined(book.join(ssrc))),
        Line::Leave(ssrc) => Ok(Told::Gone(book.leave(ssrc))),
        Line::Ack(ssrc, seq) => Ok(Told::Acked(book.ack(ssrc, seq))),
        Line::Hear(ssrc, seq) => Ok(Told::Heard(book.hear(ssrc, seq))),
        Line::Cut => {
            let mut out = Octets::with_room(21_100, alloc)?;
            Ok(Told::Cutted(book.cut(0, &mut out)))
        }
        _ => said(book, line),
    }
}

/// Each line in turn, with what it answers.
fn all_told(
    rt: &impl Abort,
    alloc: Global,
    book: &mut Book,
    rows: &[(Line, Told)],
) -> Result<(), Fail> {
    for (line, told) in rows {
        assert!(rt; answer(book, *line, alloc)? == *told, "{told:?}");
    }
    Ok(())
}

/// The octets of a packet cut now, behind the first twelve.
fn cut(book: &mut Book, alloc: Global) -> Result<Octets, Fail> {
    let mut out = Octets::with_room(21_100, alloc)?;
    book.reserve()?;
    let _ = book.cut(0, &mut out);
    let mut rest = Octets::with_room(21_100, alloc)?;
    for octet in out.as_slice().iter().skip(12) {
        if rest.spare() > 0 {
            rest.push(*octet);
        }
    }
    Ok(rest)
}

#[test]
fn two_steps_are_on_the_tape(rt: HostRuntime) -> Result<(), Fail> {
    let mut book = session(rt.alloc())?;
    book.reserve()?;
    assert_eq!(rt; book.enter(), Entered::Player(0));
    book.reserve()?;
    let one = Joined::At {
        mark: 0,
        player: 64,
    };
    assert_eq!(rt; book.join(7), one);
    assert_eq!(rt; book.ssrc(), 0x1122_3344);
    let tape = book.finish();
    assert_eq!(rt; tape.len(), 2);
    Ok(())
}

#[test]
fn two_marks(rt: HostRuntime) -> Result<(), Fail> {
    let mut book = session(rt.alloc())?;
    let rows = [
        (Line::Join(0x22), at(0, 64)),
        (Line::Join(0x33), at(0, 65)),
        (Line::Cut, packet(0)),
        (Line::Cut, packet(1)),
        (Line::Cut, packet(2)),
        (Line::Ack(0x22, 2), Told::Acked(Acked::Moved { mark: 2 })),
    ];
    all_told(&rt, rt.alloc(), &mut book, &rows)?;
    let both = cut(&mut book, rt.alloc())?;
    assert_eq!(rt; both.as_slice(), b"\x40\x80\x00\x00".as_slice());
    assert_eq!(rt; answer(&mut book, Line::Leave(0x33), rt.alloc())?, LEFT);
    let one = cut(&mut book, rt.alloc())?;
    assert_eq!(rt; one.as_slice(), b"\x40\x80\x00\x02".as_slice());
    let ahead = Acked::NotSent { last: Some(4) };
    let rows = [
        (Line::Ack(0x22, 9), Told::Acked(ahead)),
        (Line::Ack(0x22, 1), Told::Acked(Acked::Old { mark: 2 })),
        (Line::Ack(0x99, 1), STRANGER),
    ];
    all_told(&rt, rt.alloc(), &mut book, &rows)?;
    assert_eq!(rt; book.checkpoint(), 2);
    Ok(())
}

#[test]
fn coming_back(rt: HostRuntime) -> Result<(), Fail> {
    let mut book = session(rt.alloc())?;
    let rows = [
        (Line::Join(0x22), at(0, 64)),
        (Line::Cut, packet(0)),
        (Line::Cut, packet(1)),
        (Line::Leave(0x22), LEFT),
        (Line::Leave(0x22), Told::Gone(Gone::UnknownSsrc)),
        (Line::Hear(0x22, 1), Told::Heard(Heard::UnknownSsrc)),
        (Line::Join(0x22), at(1, 64)),
        (Line::Join(0x22), Told::Joined(Joined::Already)),
        (Line::Ack(0x22, 1), Told::Acked(Acked::Old { mark: 1 })),
        (Line::Ack(0x22, 0), Told::Acked(Acked::Old { mark: 1 })),
    ];
    all_told(&rt, rt.alloc(), &mut book, &rows)?;
    let next = cut(&mut book, rt.alloc())?;
    assert_eq!(rt; next.as_slice(), b"\x40\x80\x00\x01".as_slice());
    Ok(())
}

#[test]
fn invitations_and_reports(rt: HostRuntime) -> Result<(), Fail> {
    let mut book = session(rt.alloc())?;
    let ahead = Acted::NotSent { last: Some(2) };
    let waits = Acted::Ignored(Why::NotJoined);
    let unknown = Acted::Ignored(Why::Unknown);
    let rows = [
        (Line::Join(0x22), at(0, 64)),
        (Line::Invite(CONTROL, 5004, 4, 0x22), PLAIN),
        (Line::Invite(DATA, 5005, 4, 0x22), PLAIN),
        (Line::Cut, packet(0)),
        (Line::Cut, packet(1)),
        (Line::Cut, packet(2)),
        (Line::Report(0x22, 1), unanswered(Acted::Moved { mark: 1 })),
        (Line::Report(0x22, 0), unanswered(Acted::Old { mark: 1 })),
        (Line::Report(0x22, 9), unanswered(ahead)),
        (
            Line::Invite(CONTROL, 5006, 5, 0x22),
            Told::Said(true, Acted::Left),
        ),
        (Line::Ack(0x22, 2), STRANGER),
        (Line::Report(0x22, 2), unanswered(waits)),
        (Line::Invite(DATA, 5007, 5, 0x22), joined(2, 64)),
        (Line::Leave(0x22), LEFT),
        (Line::Report(0x22, 2), unanswered(unknown)),
        (Line::Invite(DATA, 5007, 5, 0x22), PLAIN),
        (Line::Limit, unanswered(Acted::Ignored(Why::NotUsed))),
    ];
    all_told(&rt, rt.alloc(), &mut book, &rows)?;
    assert_eq!(rt; book.steps(), 11);
    Ok(())
}

const HOME: u32 = 0x7F00_0001;

/// What `feedback` and `addresses` tell.
fn lists_of(book: &mut Book) -> Result<(FeedbackList, AddrList), Fail> {
    let mut list = FeedbackList::new();
    book.reserve()?;
    let _ = book.feedback(&mut list);
    let mut data = AddrList::new();
    book.addresses(&mut data);
    Ok((list, data))
}

#[test]
fn clock_feedback_and_bye(rt: HostRuntime) -> Result<(), Fail> {
    let mut book = session(rt.alloc())?;
    let behind = Acted::Clocked { offset: -38 };
    let rows = [
        (Line::Invite(CONTROL, 5004, 4, 0x22), PLAIN),
        (Line::Invite(DATA, 5005, 4, 0x22), joined(0, 64)),
        (Line::Clock(0, [10, 0, 0]), PLAIN),
        (Line::Clock(2, [10, 50, 14]), unanswered(behind)),
        (Line::Hear(0x22, 7), Told::Heard(Heard::Noted)),
    ];
    all_told(&rt, rt.alloc(), &mut book, &rows)?;
    let (list, data) = lists_of(&mut book)?;
    let to = Addr {
        host: HOME,
        port: 5004,
    };
    assert_eq!(rt; list.as_slice(), [FeedbackEntry { to, seq: 7 }].as_slice());
    assert_eq!(rt; data.as_slice(), [Addr { port: 5005, ..to }].as_slice());
    let bye = answer(&mut book, Line::Bye(0x22), rt.alloc())?;
    assert_eq!(rt; bye, unanswered(Acted::Left));
    let again = answer(&mut book, Line::Bye(0x22), rt.alloc())?;
    assert_eq!(rt; again, unanswered(Acted::Ignored(Why::Unknown)));
    let (none, nowhere) = lists_of(&mut book)?;
    assert_eq!(rt; (none.as_slice().len(), nowhere.as_slice().len()), (0, 0));
    Ok(())
}

#[test]
fn the_33rd_join(rt: HostRuntime) -> Result<(), Fail> {
    let mut book = session(rt.alloc())?;
    for k in 0..32u8 {
        let one = answer(&mut book, Line::Join(u32::from(k)), rt.alloc())?;
        assert_eq!(rt; one, at(0, 64 + k));
    }
    let full = Told::Joined(Joined::SessionFull { most: 32 });
    let rows = [
        (Line::Join(0x63), full),
        (Line::Join(7), Told::Joined(Joined::Already)),
        (Line::Invite(CONTROL, 5004, 9, 0x63), PLAIN),
        (Line::Invite(DATA, 5005, 9, 0x63), PLAIN),
        (Line::Leave(4), LEFT),
        (Line::Invite(DATA, 5005, 9, 0x63), joined(0, 68)),
        (Line::Join(4), full),
    ];
    all_told(&rt, rt.alloc(), &mut book, &rows)?;
    Ok(())
}

/// 32 peers of the SSRC 1 to 32, all joined.
fn full(alloc: Global) -> Result<Book, Fail> {
    let mut book = session(alloc)?;
    for ssrc in 1..33u32 {
        let _ = answer(&mut book, Line::Invite(CONTROL, 5004, 9, ssrc), alloc)?;
        let _ = answer(&mut book, Line::Invite(DATA, 5005, 9, ssrc), alloc)?;
    }
    Ok(book)
}

#[test]
fn a_full_list_of_peers(rt: HostRuntime) -> Result<(), Fail> {
    let mut book = full(rt.alloc())?;
    let rows = [
        (Line::Invite(CONTROL, 5004, 9, 0x63), PLAIN),
        (Line::Invite(DATA, 5008, 9, 0x63), PLAIN),
        (Line::Bye(5), unanswered(Acted::Left)),
        (Line::Invite(CONTROL, 5004, 9, 0x63), PLAIN),
        (Line::Invite(DATA, 5008, 9, 0x63), joined(0, 68)),
        (Line::Invite(CONTROL, 5004, 9, 0x64), PLAIN),
        (Line::Hear(0x63, 258), Told::Heard(Heard::Noted)),
        (Line::Hear(2, 0xFFFF), Told::Heard(Heard::Noted)),
    ];
    all_told(&rt, rt.alloc(), &mut book, &rows)?;
    let (list, data) = lists_of(&mut book)?;
    let to = Addr {
        host: HOME,
        port: 5004,
    };
    let later = FeedbackEntry { to, seq: 0xFFFF };
    let last = FeedbackEntry { to, seq: 258 };
    assert_eq!(rt; list.as_slice(), [later, last].as_slice());
    assert_eq!(rt; data.as_slice().len(), 32);
    Ok(())
}

/// The serial of a play, if it was accepted.
fn serial_of(played: Played) -> Option<u64> {
    match played {
        Played::Accepted { serial, .. } => Some(serial),
        Played::Refused { .. } => None,
    }
}

#[test]
fn participants_play(rt: HostRuntime) -> Result<(), Fail> {
    let mut book = session(rt.alloc())?;
    let _ = answer(&mut book, Line::Join(0x22), rt.alloc())?;
    let _ = answer(&mut book, Line::Join(0x33), rt.alloc())?;
    let _ = answer(&mut book, Line::Leave(0x22), rt.alloc())?;
    for (player, serial) in [(64u8, None), (65, Some(0u64)), (66, None), (0, None)] {
        let command = Command::NoteOn {
            channel: Channel::new(0).ok_or("a channel")?,
            note: D7::new(60).ok_or("a note")?,
            velocity: D7::new(64).ok_or("a velocity")?,
        };
        book.reserve()?;
        assert_eq!(rt; serial_of(book.play(player, command, 0)), serial);
    }
    let first = cut(&mut book, rt.alloc())?;
    assert_eq!(rt; first.as_slice(), b"\x03\x90\x3C\x40".as_slice());
    Ok(())
}
