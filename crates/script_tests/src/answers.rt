// What is printed of each answer.
use apple_msg::{Message, MsgFault, Name};
use apple_session::Why;
use jm_book::{Acted, FeedbackList};
use jm_cmds::{Channel, CmdFault, Command, D7, Sysex};
use jm_packet::PacketFault;
use jm_reader::JournalFault;
use jm_receiver::{AcceptFault, HeardKind};
use jm_script::{
    AnswerLine, Cause, Hex, ItemList, PlayerName, Refusal, ShownFault, StatePart, answer_len,
    write_answer,
};
use jm_section::{Item, PartKind, SectionFault, What};
use jm_state::{Halves, ProgramPart, Selection, SequencerPart, TimePart};
use jm_wire::Octets;
use std::alloc::Global;
use std::test::Fail;

// Whether an answer is printed as this text, in just the room that it tells.
fn prints(alloc: Global, answer: &AnswerLine, text: &[u8]) -> Result<bool, Fail> {
    let len = answer_len(answer);
    if len == usize::MAX {
        return Ok(false);
    }
    let mut out = Octets::with_room(len, alloc)?;
    write_answer(answer, &mut out);
    Ok(out.as_slice() == text && out.spare() == 0)
}

fn seven(value: u8) -> Result<D7, Fail> {
    Ok(D7::new(value).ok_or("over 127")?)
}

fn channel(value: u8) -> Result<Channel, Fail> {
    Ok(Channel::new(value).ok_or("over 15")?)
}

fn note_on() -> Result<Command, Fail> {
    Ok(Command::NoteOn {
        channel: channel(0)?,
        note: seven(60)?,
        velocity: seven(100)?,
    })
}

#[test]
fn answers_of_a_session(rt: HostRuntime) -> Result<(), Fail> {
    let name = PlayerName::new(b"anna").ok_or("no name")?;
    let answers: [(AnswerLine, &[u8]); 11] = [
        (AnswerLine::Script, b"script 2\n"),
        (AnswerLine::Session, b"session\n"),
        (AnswerLine::Player { player: 0 }, b"player 0\n"),
        (
            AnswerLine::PlayerAs {
                player: 0,
                name: name.copy(),
            },
            b"player 0 anna\n",
        ),
        (AnswerLine::NameTaken { name }, b"refused name-taken anna\n"),
        (
            AnswerLine::Accepted {
                serial: 33,
                kept: true,
            },
            b"accepted 33 kept\n",
        ),
        (
            AnswerLine::Accepted {
                serial: 3,
                kept: false,
            },
            b"accepted 3 unkept\n",
        ),
        (
            AnswerLine::Packet {
                number: 65536,
                octets: Hex::new(&[0x80, 0x61, 0, 0xea], rt.alloc())?,
            },
            b"packet 65536 806100ea\n",
        ),
        (AnswerLine::Mark { mark: 2 }, b"mark 2\n"),
        (
            AnswerLine::Joined {
                mark: 0,
                player: 64,
            },
            b"joined 0 64\n",
        ),
        (
            AnswerLine::Feedback {
                ssrc: 0x1122_3344,
                entries: FeedbackList::new(),
            },
            b"feedback\n",
        ),
    ];
    for (answer, text) in &answers {
        assert!(rt; prints(rt.alloc(), answer, text)?);
    }
    assert!(rt; prints(rt.alloc(), &AnswerLine::Left, b"left\n")?);
    assert!(rt; prints(rt.alloc(), &AnswerLine::Noted, b"noted\n")?);
    Ok(())
}

#[test]
fn refusals(rt: HostRuntime) -> Result<(), Fail> {
    let refusals: [(Refusal, &[u8]); 14] = [
        (Refusal::UnknownPlayer, b"refused unknown-player\n"),
        (
            Refusal::RecordFull { events: 2 },
            b"refused record-full 2\n",
        ),
        (
            Refusal::PlayersFull { most: 64 },
            b"refused players-full 64\n",
        ),
        (
            Refusal::ParamsFull {
                channel: channel(0)?,
                kept: 16,
            },
            b"refused params-full 0 16\n",
        ),
        (
            Refusal::PolyFull {
                channel: channel(15)?,
                kept: 64,
            },
            b"refused poly-full 15 64\n",
        ),
        (
            Refusal::SysexFull {
                logs: 3,
                octets: 768,
            },
            b"refused sysex-full 3 768\n",
        ),
        (
            Refusal::NeedsCut {
                pending: 256,
                octets: 513,
                delta: 0,
            },
            b"refused needs-cut 256 513 0\n",
        ),
        (
            Refusal::Behind {
                ssrc: 0x22,
                mark: 59999,
            },
            b"refused behind 00000022 59999\n",
        ),
        (Refusal::UnknownSsrc, b"refused unknown-ssrc\n"),
        (Refusal::Old { mark: 2 }, b"refused old 2\n"),
        (Refusal::NotSent { last: Some(4) }, b"refused not-sent 4\n"),
        (Refusal::NotSent { last: None }, b"refused not-sent none\n"),
        (Refusal::Already, b"refused already\n"),
        (
            Refusal::SessionFull { most: 32 },
            b"refused session-full 32\n",
        ),
    ];
    for (refusal, text) in refusals {
        assert!(rt; prints(rt.alloc(), &AnswerLine::Refused(refusal), text)?);
    }
    Ok(())
}

#[test]
fn what_messages_come_to(rt: HostRuntime) -> Result<(), Fail> {
    let acts: [(Acted, &[u8]); 13] = [
        (Acted::Plain, b"no-reply none\n"),
        (
            Acted::Joined {
                mark: 0,
                player: 64,
            },
            b"no-reply joined 0 64\n",
        ),
        (Acted::Left, b"no-reply left\n"),
        (Acted::Moved { mark: 1 }, b"no-reply mark 1\n"),
        (Acted::Clocked { offset: -38 }, b"no-reply clock -38\n"),
        (Acted::Clocked { offset: 38 }, b"no-reply clock 38\n"),
        (Acted::Ignored(Why::Unknown), b"no-reply ignored unknown\n"),
        (
            Acted::Ignored(Why::NotJoined),
            b"no-reply ignored not-joined\n",
        ),
        (
            Acted::Ignored(Why::WrongPort),
            b"no-reply ignored wrong-port\n",
        ),
        (Acted::Ignored(Why::NotUsed), b"no-reply ignored not-used\n"),
        (Acted::Old { mark: 2 }, b"no-reply refused old 2\n"),
        (
            Acted::NotSent { last: Some(4) },
            b"no-reply refused not-sent 4\n",
        ),
        (
            Acted::NotSent { last: None },
            b"no-reply refused not-sent none\n",
        ),
    ];
    for (act, text) in acts {
        assert!(rt; prints(rt.alloc(), &AnswerLine::Said { reply: None, act }, text)?);
    }
    Ok(())
}

#[test]
fn messages_are_written(rt: HostRuntime) -> Result<(), Fail> {
    let accept = Message::Accept {
        token: 0x0102_0304,
        ssrc: 0x1122_3344,
        name: Name::new(b"midi_host").ok_or("no name")?,
    };
    assert!(rt;
        prints(
            rt.alloc(),
            &AnswerLine::Said {
                reply: Some(accept),
                act: Acted::Plain,
            },
            b"reply ffff4f4b0000000201020304112233446d6964695f686f737400 none\n",
        )?
    );
    let messages: [(Message, &[u8]); 6] = [
        (
            Message::Invite {
                token: 0x0102_0304,
                ssrc: 0x22,
                name: Name::new(b"a").ok_or("no name")?,
            },
            b"message ffff494e0000000201020304000000226100\n",
        ),
        (
            Message::Reject {
                token: 1,
                ssrc: 0x1122_3344,
                name: Name::new(b"").ok_or("no name")?,
            },
            b"message ffff4e4f00000002000000011122334400\n",
        ),
        (
            Message::Bye {
                token: 0x0102_0304,
                ssrc: 0x22,
            },
            b"message ffff4259000000020102030400000022\n",
        ),
        (
            Message::Clock {
                ssrc: 0x1122_3344,
                count: 1,
                times: [10, 50, 0],
            },
            b"message ffff434b1122334401000000000000000000000a00000000000000320000000000000000\n",
        ),
        (
            Message::Feedback { ssrc: 0x22, seq: 1 },
            b"message ffff52530000002200010000\n",
        ),
        (Message::RateLimit, b"message ffff524c\n"),
    ];
    for (message, text) in messages {
        assert!(rt; prints(rt.alloc(), &AnswerLine::MessageRead(message), text)?);
    }
    Ok(())
}

#[test]
fn octets_that_were_read(rt: HostRuntime) -> Result<(), Fail> {
    let mut items = Vec::new(rt.alloc());
    items.push(Item {
        delta: 0,
        what: What::Whole(note_on()?),
    })?;
    items.push(Item {
        delta: 128,
        what: What::Part {
            kind: PartKind::Cancel,
            octets: Sysex::new(&[1, 2], rt.alloc())?,
        },
    })?;
    items.push(Item {
        delta: 1,
        what: What::Passed(0xf4),
    })?;
    let answers: [(AnswerLine, &[u8]); 4] = [
        (
            AnswerLine::CommandRead {
                used: 3,
                command: note_on()?,
            },
            b"command 3 903c64\n",
        ),
        (
            AnswerLine::SectionRead {
                items: ItemList::of(items),
            },
            b"section 3 0:903c64 128:part-cancel-2 1:passed-f4\n",
        ),
        (
            AnswerLine::PacketRead {
                number: 0,
                tick: 100,
                ssrc: 0x1122_3344,
                items: 1,
                journal: None,
            },
            b"packet 0 100 11223344 1 no-journal\n",
        ),
        (
            AnswerLine::PacketRead {
                number: 1,
                tick: 200,
                ssrc: 0x1122_3344,
                items: 0,
                journal: Some((0, 1)),
            },
            b"packet 1 200 11223344 0 journal 0 1\n",
        ),
    ];
    for (answer, text) in &answers {
        assert!(rt; prints(rt.alloc(), answer, text)?);
    }
    Ok(())
}

#[test]
fn segments_have_their_words(rt: HostRuntime) -> Result<(), Fail> {
    let kinds: [(PartKind, &[u8]); 3] = [
        (PartKind::First, b"section 1 0:part-first-2046\n"),
        (PartKind::Middle, b"section 1 0:part-middle-2046\n"),
        (PartKind::Last, b"section 1 0:part-last-2046\n"),
    ];
    for (kind, text) in kinds {
        let mut items = Vec::new(rt.alloc());
        items.push(Item {
            delta: 0,
            what: What::Part {
                kind,
                octets: Sysex::new(&[1; 2046], rt.alloc())?,
            },
        })?;
        assert!(rt;
            prints(
                rt.alloc(),
                &AnswerLine::SectionRead {
                    items: ItemList::of(items)
                },
                text
            )?
        );
    }
    Ok(())
}

#[test]
fn faults(rt: HostRuntime) -> Result<(), Fail> {
    let faults: [(ShownFault, &[u8]); 24] = [
        (ShownFault::Command(CmdFault::Empty), b"fault empty\n"),
        (
            ShownFault::Command(CmdFault::DataOctet),
            b"fault data-octet\n",
        ),
        (
            ShownFault::Command(CmdFault::BadStatus(244)),
            b"fault bad-status 244\n",
        ),
        (
            ShownFault::Command(CmdFault::BadData(2)),
            b"fault bad-data 2\n",
        ),
        (ShownFault::Command(CmdFault::TooLong), b"fault too-long\n"),
        (ShownFault::Command(CmdFault::Short), b"fault short\n"),
        (ShownFault::Section(SectionFault::Short), b"fault short\n"),
        (
            ShownFault::Section(SectionFault::NoStatus(8)),
            b"fault no-status 8\n",
        ),
        (
            ShownFault::Section(SectionFault::BadCommand(4, CmdFault::BadData(1))),
            b"fault bad-command 4 bad-data 1\n",
        ),
        (
            ShownFault::Section(SectionFault::BadCommand(4, CmdFault::Short)),
            b"fault bad-command 4 short\n",
        ),
        (
            ShownFault::Section(SectionFault::BadDelta(4)),
            b"fault bad-delta 4\n",
        ),
        (ShownFault::Packet(PacketFault::Short), b"fault short\n"),
        (ShownFault::Packet(PacketFault::Version), b"fault version\n"),
        (ShownFault::Packet(PacketFault::Padding), b"fault padding\n"),
        (
            ShownFault::Packet(PacketFault::Extension),
            b"fault extension\n",
        ),
        (
            ShownFault::Packet(PacketFault::PayloadType),
            b"fault payload-type\n",
        ),
        (
            ShownFault::Packet(PacketFault::Section(SectionFault::NoStatus(8))),
            b"fault section no-status 8\n",
        ),
        (
            ShownFault::Journal(JournalFault::Short(3)),
            b"fault journal short 3\n",
        ),
        (
            ShownFault::Journal(JournalFault::Inside(3)),
            b"fault journal inside 3\n",
        ),
        (
            ShownFault::Message(MsgFault::NotApple),
            b"fault not-apple\n",
        ),
        (
            ShownFault::Message(MsgFault::UnknownVerb),
            b"fault unknown-verb\n",
        ),
        (ShownFault::Message(MsgFault::Short), b"fault short\n"),
        (ShownFault::Message(MsgFault::Version), b"fault version\n"),
        (
            ShownFault::Message(MsgFault::NameNotEnded),
            b"fault name-not-ended\n",
        ),
    ];
    for (fault, text) in faults {
        assert!(rt; prints(rt.alloc(), &AnswerLine::Fault(fault), text)?);
    }
    Ok(())
}

#[test]
fn answers_of_a_receiver(rt: HostRuntime) -> Result<(), Fail> {
    let answers: [(AnswerLine, &[u8]); 9] = [
        (
            AnswerLine::Took {
                number: 2,
                gap: 1,
                count: 1,
            },
            b"took 2 1 1\n",
        ),
        (
            AnswerLine::HeardOne {
                kind: HeardKind::Sent,
                tick: 0,
                command: note_on()?,
            },
            b"heard sent 0 903c64\n",
        ),
        (
            AnswerLine::HeardOne {
                kind: HeardKind::Repaired,
                tick: 200,
                command: note_on()?,
            },
            b"heard repaired 200 903c64\n",
        ),
        (
            AnswerLine::HeardOne {
                kind: HeardKind::Late,
                tick: 200,
                command: note_on()?,
            },
            b"heard late 200 903c64\n",
        ),
        (
            AnswerLine::NotTaken(AcceptFault::Older { last: 2 }),
            b"older 2\n",
        ),
        (
            AnswerLine::NotTaken(AcceptFault::OtherSsrc),
            b"fault other-ssrc\n",
        ),
        (
            AnswerLine::NotTaken(AcceptFault::Packet(PacketFault::Short)),
            b"fault short\n",
        ),
        (
            AnswerLine::NotTaken(AcceptFault::Journal(JournalFault::Short(3))),
            b"fault journal short 3\n",
        ),
        (AnswerLine::End, b"end\n"),
    ];
    for (answer, text) in &answers {
        assert!(rt; prints(rt.alloc(), answer, text)?);
    }
    Ok(())
}

#[test]
fn parts_of_a_session(rt: HostRuntime) -> Result<(), Fail> {
    let parts: [(AnswerLine, &[u8]); 6] = [
        (AnswerLine::Part(StatePart::Song(seven(5)?)), b"song 5\n"),
        (
            AnswerLine::Part(StatePart::Sequencer(SequencerPart {
                running: true,
                downbeat: false,
                position: 524_287,
            })),
            b"sequencer 1 0 524287\n",
        ),
        (
            AnswerLine::Part(StatePart::Time(TimePart {
                complete: Some(0x0123_4567),
                partial: None,
                backward: false,
                point: 7,
            })),
            b"time 01234567 - 0 7\n",
        ),
        (
            AnswerLine::Part(StatePart::Time(TimePart {
                complete: None,
                partial: Some(0xf000_0000),
                backward: true,
                point: 0,
            })),
            b"time - f0000000 1 0\n",
        ),
        (AnswerLine::Part(StatePart::Sysex(2)), b"sysex 2\n"),
        (
            AnswerLine::Part(StatePart::Pedal {
                channel: channel(0)?,
                count: 3,
            }),
            b"pedal 0 3\n",
        ),
    ];
    for (answer, text) in &parts {
        assert!(rt; prints(rt.alloc(), answer, text)?);
    }
    Ok(())
}

#[test]
fn parts_of_a_channel(rt: HostRuntime) -> Result<(), Fail> {
    let channel = channel(0)?;
    let (low, high) = (seven(0)?, seven(127)?);
    let parts: [(AnswerLine, &[u8]); 9] = [
        (
            AnswerLine::Part(StatePart::Program {
                channel,
                part: ProgramPart {
                    program: seven(7)?,
                    bank: Some((seven(5)?, low)),
                },
            }),
            b"program 0 7 5 0\n",
        ),
        (
            AnswerLine::Part(StatePart::Program {
                channel,
                part: ProgramPart {
                    program: seven(7)?,
                    bank: None,
                },
            }),
            b"program 0 7\n",
        ),
        (
            AnswerLine::Part(StatePart::Control {
                channel,
                number: seven(64)?,
                value: high,
            }),
            b"control 0 64 127\n",
        ),
        (
            AnswerLine::Part(StatePart::Select {
                channel,
                part: Selection {
                    nrpn: true,
                    rpn_high: None,
                    rpn_low: Some(low),
                    nrpn_high: Some(seven(1)?),
                    nrpn_low: Some(seven(2)?),
                },
            }),
            b"select 0 nrpn - 0 1 2\n",
        ),
        (
            AnswerLine::Part(StatePart::Param {
                channel,
                nrpn: false,
                high: seven(3)?,
                low: seven(4)?,
                halves: Halves {
                    entry_high: Some(seven(64)?),
                    entry_low: None,
                },
            }),
            b"param 0 rpn 3 4 64 -\n",
        ),
        (
            AnswerLine::Part(StatePart::Wheel {
                channel,
                first: low,
                second: seven(64)?,
            }),
            b"wheel 0 0 64\n",
        ),
        (
            AnswerLine::Part(StatePart::Note {
                channel,
                note: seven(60)?,
                velocity: seven(100)?,
            }),
            b"note 0 60 100\n",
        ),
        (
            AnswerLine::Part(StatePart::Pressure {
                channel,
                value: seven(1)?,
            }),
            b"pressure 0 1\n",
        ),
        (
            AnswerLine::Part(StatePart::Poly {
                channel,
                note: seven(60)?,
                value: high,
            }),
            b"poly 0 60 127\n",
        ),
    ];
    for (answer, text) in &parts {
        assert!(rt; prints(rt.alloc(), answer, text)?);
    }
    Ok(())
}

#[test]
fn causes(rt: HostRuntime) -> Result<(), Fail> {
    let causes: [(Cause, &[u8]); 5] = [
        (Cause::Lines, b"bad-script 4194305 lines\n"),
        (Cause::TooLong, b"bad-script 4194305 too-long\n"),
        (Cause::Word, b"bad-script 4194305 word\n"),
        (Cause::Form, b"bad-script 4194305 form\n"),
        (Cause::Command, b"bad-script 4194305 command\n"),
    ];
    for (cause, text) in causes {
        let line = 4_194_305;
        assert!(rt; prints(rt.alloc(), &AnswerLine::BadScript { line, cause }, text)?);
    }
    Ok(())
}
