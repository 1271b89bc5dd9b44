//! Long System Exclusive commands in a book, told by an independent plain program.
use apple_msg::Name;
use jm_book::*;
use jm_cmds::{Command, Sysex};
use jm_wire::Octets;
use std::alloc::Global;
use std::test::Fail;

fn session(alloc: Global) -> Result<Book, Fail> {
    let config = Config {
        ssrc: 0x1122_3344,
        events: 200,
        name: Name::new(b"midi_host").ok_or("a name")?,
    };
    let mut book = Book::new(config, alloc)?;
    book.reserve()?;
    let _ = book.enter();
    Ok(book)
}

/// A message of so many data octets 01.
fn message(len: usize, alloc: Global) -> Result<Command, Fail> {
    let octets = vec![in alloc; 1u8; len]?;
    match Sysex::new(&octets, alloc) {
        Ok(message) => Ok(Command::Sysex(message)),
        Err(_) => Err(Fail::from("a message")),
    }
}

/// Why a play was refused, if it was.
fn fault(answer: &Played) -> Option<PlayFault> {
    match answer {
        Played::Accepted { .. } => None,
        Played::Refused { why, .. } => Some(*why),
    }
}

/// Why a play of player 0 at tick 0 was refused, if it was.
fn refused(book: &mut Book, command: Command) -> Result<Option<PlayFault>, Fail> {
    book.reserve()?;
    let answer = book.play(0, command, 0);
    Ok(fault(&answer))
}

/// The octets of a packet cut now.
fn cut(book: &mut Book, tick: u64, alloc: Global) -> Result<Octets, Fail> {
    let mut out = Octets::with_room(21_100, alloc)?;
    book.reserve()?;
    let _ = book.cut(tick, &mut out);
    Ok(out)
}

/// Whether there are so many octets that begin and end with these.
fn has_ends(octets: &[u8], len: usize, front: &[u8], back: &[u8]) -> bool {
    octets.len() == len && octets.starts_with(front) && octets.ends_with(back)
}

#[test]
fn one_in_two_segments(rt: HostRuntime) -> Result<(), Fail> {
    let mut book = session(rt.alloc())?;
    let long = message(2047, rt.alloc())?;
    assert_eq!(rt; refused(&mut book, long)?, None);
    let needs = PlayFault::NeedsCut {
        pending: 2,
        octets: 2048,
        delta: 0,
    };
    assert_eq!(rt; refused(&mut book, Command::Clock)?, Some(needs));
    let first = cut(&mut book, 10, rt.alloc())?;
    let front = b"\x80\xe1\0\0\0\0\0\0\x11\x22\x33\x44\x88\x00\xf0\x01";
    assert!(rt; has_ends(first.as_slice(), 2062, front, b"\x01\xf0"));
    let last = cut(&mut book, 20, rt.alloc())?;
    let front = b"\x80\xe1\0\x01\0\0\0\0\x11\x22\x33\x44\x43\xf7\x01\xf7";
    assert!(rt; has_ends(last.as_slice(), 19, front, b"\x80\0\0"));
    assert_eq!(rt; refused(&mut book, Command::Clock)?, None);
    Ok(())
}

#[test]
fn a_long_one_stands_behind_no_other(rt: HostRuntime) -> Result<(), Fail> {
    let mut book = session(rt.alloc())?;
    assert_eq!(rt; refused(&mut book, Command::Clock)?, None);
    let needs = PlayFault::NeedsCut {
        pending: 1,
        octets: 2050,
        delta: 0,
    };
    let long = message(2047, rt.alloc())?;
    assert_eq!(rt; refused(&mut book, long)?, Some(needs));
    Ok(())
}

/// Plays a message of so many data octets, and cuts until none of its segments waits: how many there were, how long the
/// first and the last packet are, and how many wait then.
fn sent(len: usize, alloc: Global) -> Result<(usize, usize, usize, usize), Fail> {
    let mut book = session(alloc)?;
    let long = message(len, alloc)?;
    let _ = refused(&mut book, long)?;
    let waiting = book.pending();
    let packet = cut(&mut book, 0, alloc)?;
    let first = packet.as_slice().len();
    let mut last = first;
    for _ in 1..waiting {
        let packet = cut(&mut book, 0, alloc)?;
        last = packet.as_slice().len();
    }
    Ok((waiting, first, last, book.pending()))
}

#[test]
fn each_is_sent_whole(rt: HostRuntime) -> Result<(), Fail> {
    for (len, told) in [
        (2046usize, (1usize, 2062usize, 2062usize, 0usize)),
        (2047, (2, 2062, 19, 0)),
        (4092, (2, 2062, 2065, 0)),
        (4093, (3, 2062, 19, 0)),
        (65_536, (33, 2062, 83, 0)),
    ] {
        assert!(rt; sent(len, rt.alloc())? == told, "{len}");
    }
    Ok(())
}
