//! Long messages: which cuts send them, and how files hold them.

use crate::files::{file_of, message, read};
use jm_book::Step;
use jm_cmds::{Command, ReadError};
use jm_smf::{FileFault, Timed, cut_list, write_file};
use jm_wire::behind;
use std::alloc::Global;
use std::test::Fail;

/// A command of a tape.
#[derive(Clone, Copy)]
enum Played {
    Clock,
    /// A message of this many data octets.
    Message(usize),
}

/// What a tape does, at its tick.
#[derive(Clone, Copy)]
enum Act {
    Play(Played, u64),
    /// This many cuts.
    Cuts(usize, u64),
}

use Act::{Cuts, Play};
use Played::{Clock, Message};

/// Tapes, and the commands that their cuts sent, with their ticks.
const SENT: [(&[Act], &[(u64, Played)]); 11] = [
    // one packet holds 2,046 data octets whole
    (
        &[Play(Message(2046), 5), Cuts(1, 10)],
        &[(5, Message(2046))],
    ),
    // the first of two segments
    (&[Play(Message(2047), 5), Cuts(1, 10)], &[]),
    // both
    (
        &[Play(Message(2047), 5), Cuts(1, 10), Cuts(1, 20)],
        &[(5, Message(2047))],
    ),
    // two segments, both full
    (&[Play(Message(4092), 5), Cuts(1, 10)], &[]),
    (
        &[Play(Message(4092), 5), Cuts(2, 10)],
        &[(5, Message(4092))],
    ),
    // two of three segments, and all three
    (&[Play(Message(4093), 5), Cuts(2, 10)], &[]),
    (
        &[Play(Message(4093), 5), Cuts(3, 10)],
        &[(5, Message(4093))],
    ),
    // the longest, without its last segment and with it
    (&[Play(Message(65536), 5), Cuts(32, 10)], &[]),
    (
        &[Play(Message(65536), 5), Cuts(33, 10)],
        &[(5, Message(65536))],
    ),
    // among other commands
    (
        &[
            Play(Clock, 7),
            Cuts(1, 8),
            Play(Message(2047), 3),
            Cuts(1, 9),
            Cuts(1, 12),
            Play(Clock, 10),
            Play(Message(1), 11),
            Cuts(1, 10),
            Play(Clock, 13),
        ],
        &[
            (7, Clock),
            (8, Message(2047)),
            (12, Clock),
            (12, Message(1)),
        ],
    ),
    // one behind another
    (
        &[
            Play(Message(2047), 5),
            Cuts(2, 6),
            Play(Message(2047), 7),
            Cuts(1, 8),
        ],
        &[(5, Message(2047))],
    ),
];

fn command_of(played: Played, alloc: Global) -> Result<Command, Fail> {
    match played {
        Played::Clock => Ok(Command::Clock),
        Played::Message(count) => message(count, alloc),
    }
}

/// The steps of a tape.
fn tape_of(acts: &[Act], alloc: Global) -> Result<Vec<Step>, Fail> {
    let mut tape = Vec::new(alloc);
    for act in acts {
        match *act {
            Act::Play(played, tick) => tape.push(Step::Play {
                player: 0,
                command: command_of(played, alloc)?,
                tick,
            })?,
            Act::Cuts(count, tick) => {
                for _ in 0..count {
                    tape.push(Step::Cut { tick })?;
                }
            }
        }
    }
    Ok(tape)
}

/// A long message is sent with its last segment, and at the tick of its play.
#[test]
fn cut_off(rt: HostRuntime) -> Result<(), Fail> {
    for (acts, sent) in SENT {
        let tape = tape_of(acts, rt.alloc())?;
        let mut expected = Vec::new(rt.alloc());
        for (tick, played) in sent {
            expected.push(Timed {
                tick: *tick,
                command: command_of(*played, rt.alloc())?,
            })?;
        }
        assert_eq!(rt; cut_list(tape.as_slice(), rt.alloc()), Ok(expected));
    }
    Ok(())
}

/// The list of one message with this many data octets, at 0.
fn list_of(count: usize, alloc: Global) -> Result<Vec<Timed>, Fail> {
    let mut list = Vec::new(alloc);
    list.push(Timed {
        tick: 0,
        command: message(count, alloc)?,
    })?;
    Ok(list)
}

/// The octets of a message with this many data octets, each of them 1.
fn octets_of(count: usize, alloc: Global) -> Result<Vec<u8>, Fail> {
    let mut octets = Vec::new(alloc);
    octets.push(0xf0)?;
    for _ in 0..count {
        octets.push(1)?;
    }
    octets.push(0xf7)?;
    Ok(octets)
}

/// Numbers of data octets, and what stands in the file of one such message before its first data octet.
const WRITTEN: [(usize, &[u8]); 4] = [
    (
        2046,
        b"MThd\x00\x00\x00\x06\x00\x00\x00\x01\x13\x88MTrk\x00\x00\x08\x07\x00\xf0\x8f\x7f",
    ),
    (
        2047,
        b"MThd\x00\x00\x00\x06\x00\x00\x00\x01\x13\x88MTrk\x00\x00\x08\x08\x00\xf0\x90\x00",
    ),
    (
        4093,
        b"MThd\x00\x00\x00\x06\x00\x00\x00\x01\x13\x88MTrk\x00\x00\x10\x06\x00\xf0\x9f\x7e",
    ),
    (
        65536,
        b"MThd\x00\x00\x00\x06\x00\x00\x00\x01\x13\x88MTrk\x00\x01\x00\x0a\x00\xf0\x84\x80\x01",
    ),
];

/// A long message stands whole in a file, and is read again.
#[test]
fn written(rt: HostRuntime) -> Result<(), Fail> {
    for (count, front) in WRITTEN {
        let octets = octets_of(count, rt.alloc())?;
        let mut expected = Vec::new(rt.alloc());
        expected.extend_from_slice(front)?;
        expected.extend_from_slice(behind(octets.as_slice(), 1))?;
        expected.extend_from_slice(b"\x00\xff\x2f\x00")?;
        let list = list_of(count, rt.alloc())?;
        assert_eq!(rt;
            read(expected.as_slice(), rt.alloc()),
            Ok(list_of(count, rt.alloc())?)
        );
        assert_eq!(rt; write_file(list.as_slice(), rt.alloc()), Ok(expected));
    }
    Ok(())
}

/// The file of one event: this status, a field of three octets with the number of the octets behind it, and these.
fn file_of_event(status: u8, octets: &[u8], alloc: Global) -> Result<Vec<u8>, Fail> {
    let size = octets.len();
    if size > 80_000 {
        return Err(Fail::from("an event of a test"));
    }
    let mut track = Vec::new(alloc);
    track.extend_from_slice(&[
        0,
        status,
        0x80 | (size / 16384) as u8,
        0x80 | (size / 128 % 128) as u8,
        (size % 128) as u8,
    ])?;
    track.extend_from_slice(octets)?;
    track.extend_from_slice(b"\x00\xff\x2f\x00")?;
    file_of(track.as_slice(), alloc)
}

/// Messages of up to 65,536 data octets are read, from F0 events and from escapes.
#[test]
fn longest(rt: HostRuntime) -> Result<(), Fail> {
    for count in [16383, 65535, 65536] {
        let octets = octets_of(count, rt.alloc())?;
        let event = file_of_event(0xf0, behind(octets.as_slice(), 1), rt.alloc())?;
        assert_eq!(rt;
            read(event.as_slice(), rt.alloc()),
            Ok(list_of(count, rt.alloc())?)
        );
        let escape = file_of_event(0xf7, octets.as_slice(), rt.alloc())?;
        assert_eq!(rt;
            read(escape.as_slice(), rt.alloc()),
            Ok(list_of(count, rt.alloc())?)
        );
    }
    Ok(())
}

/// An F0 event with 65,537 is refused, and an escape that holds them tells no command.
#[test]
fn too_long(rt: HostRuntime) -> Result<(), Fail> {
    let octets = octets_of(65537, rt.alloc())?;
    let event = file_of_event(0xf0, behind(octets.as_slice(), 1), rt.alloc())?;
    let fault = ReadError::Fault(FileFault::BadEvent(22));
    assert_eq!(rt; read(event.as_slice(), rt.alloc()), Err(fault));
    let escape = file_of_event(0xf7, octets.as_slice(), rt.alloc())?;
    assert_eq!(rt;
        read(escape.as_slice(), rt.alloc()),
        Ok(Vec::new(rt.alloc()))
    );
    Ok(())
}
