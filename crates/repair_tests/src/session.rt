//! One session, from its sender to a receiver that lost two packets.

use apple_msg::Name;
use jm_book::{Book, Config};
use jm_cmds::read_command;
use jm_packet::read_packet;
use jm_reader::read_journal;
use jm_receiver::Receiver;
use jm_state::State;
use jm_wire::Octets;
use std::alloc::Global;
use std::test::Fail;

const SSRC: u32 = 0x1122_3344;

/// A session with one local player, 0, and one participant, whose mark is packet 0.
fn session(alloc: Global) -> Result<Book, Fail> {
    let config = Config {
        ssrc: SSRC,
        events: 100,
        name: Name::new(b"midi_host").ok_or("a name")?,
    };
    let mut book = Book::new(config, alloc)?;
    book.reserve()?;
    let _player = book.enter();
    book.reserve()?;
    let _mark = book.join(0x22);
    Ok(book)
}

/// The command of these octets is played.
fn play(book: &mut Book, text: &[u8], tick: u64, alloc: Global) -> Result<(), Fail> {
    let (command, _size) = read_command(text, alloc)?;
    book.reserve()?;
    let _serial = book.play(0, command, tick);
    Ok(())
}

/// The command of these octets does to the state what it does.
fn apply(state: &mut State, text: &[u8], alloc: Global) -> Result<(), Fail> {
    let (command, _size) = read_command(text, alloc)?;
    state.apply(&command);
    Ok(())
}

/// The octets of a packet that is cut now.
fn cut(book: &mut Book, tick: u64, alloc: Global) -> Result<Octets, Fail> {
    let mut out = Octets::with_room(21_100, alloc)?;
    book.reserve()?;
    let _number = book.cut(tick, &mut out);
    Ok(out)
}

/// What a packet's octets tell: its number, tick and SSRC, the ticks from its first command to its last, and where its
/// journal begins.
#[derive(Clone, Copy, Debug, PartialEq, Eq)]
struct Told {
    number: u16,
    tick: u32,
    ssrc: u32,
    ticks: u32,
    journal: Option<usize>,
}

fn read(octets: &[u8], alloc: Global) -> Result<Told, Fail> {
    let packet = read_packet(octets, alloc)?;
    let mut ticks = 0u32;
    for item in packet.section.items.as_slice() {
        ticks = ticks.wrapping_add(item.delta);
    }
    Ok(Told {
        number: packet.number,
        tick: packet.tick,
        ssrc: packet.ssrc,
        ticks,
        journal: packet.journal,
    })
}

/// The checkpoint of the journal that begins at this place, and the number of its logs.
fn journal(octets: &[u8], place: usize, alloc: Global) -> Result<(u16, usize), Fail> {
    let behind = octets.get(place..).ok_or("octets behind it")?;
    let report = read_journal(behind, alloc)?;
    Ok((report.checkpoint, report.logs.len()))
}

/// The number of a packet that is taken, and how many were missed before it.
fn take(receiver: &mut Receiver, octets: &[u8]) -> Result<(u64, u64), Fail> {
    let took = receiver.accept(octets)?;
    Ok((took.number, took.gap))
}

/// The octets of packets 0 and 3: commands and ticks stand behind the number of their packet.
fn packets(alloc: Global) -> Result<(Octets, Octets), Fail> {
    let mut book = session(alloc)?;
    play(&mut book, &[0x90, 0x3c, 0x64], 10, alloc)?;
    play(&mut book, &[0xc0, 5], 12, alloc)?;
    let first = cut(&mut book, 15, alloc)?;
    play(&mut book, &[0xb0, 7, 0x40], 20, alloc)?;
    let _lost = cut(&mut book, 20, alloc)?;
    play(&mut book, &[0x80, 0x3c, 0x40], 30, alloc)?;
    play(&mut book, &[0xe0, 1, 0x41], 30, alloc)?;
    let _also_lost = cut(&mut book, 30, alloc)?;
    play(&mut book, &[0xd0, 9], 40, alloc)?;
    play(&mut book, &[0xf3, 2], 45, alloc)?;
    let last = cut(&mut book, 50, alloc)?;
    Ok((first, last))
}

/// The state after all commands.
fn sent(alloc: Global) -> Result<State, Fail> {
    let mut state = State::new();
    apply(&mut state, &[0x90, 0x3c, 0x64], alloc)?;
    apply(&mut state, &[0xc0, 5], alloc)?;
    apply(&mut state, &[0xb0, 7, 0x40], alloc)?;
    apply(&mut state, &[0x80, 0x3c, 0x40], alloc)?;
    apply(&mut state, &[0xe0, 1, 0x41], alloc)?;
    apply(&mut state, &[0xd0, 9], alloc)?;
    apply(&mut state, &[0xf3, 2], alloc)?;
    Ok(state)
}

#[test]
fn packets_are_read(rt: HostRuntime) -> Result<(), Fail> {
    let (first, last) = packets(rt.alloc())?;
    let none = Told {
        number: 0,
        tick: 10,
        ssrc: SSRC,
        ticks: 2,
        journal: None,
    };
    assert_eq!(rt; read(first.as_slice(), rt.alloc())?, none);
    let some = Told {
        number: 3,
        tick: 40,
        ssrc: SSRC,
        ticks: 5,
        journal: Some(18),
    };
    assert_eq!(rt; read(last.as_slice(), rt.alloc())?, some);
    assert_eq!(rt; journal(last.as_slice(), 18, rt.alloc())?, (0, 4));
    Ok(())
}

#[test]
fn two_lost_packets_are_repaired(rt: HostRuntime) -> Result<(), Fail> {
    let (first, last) = packets(rt.alloc())?;
    let mut receiver = Receiver::new(SSRC, rt.alloc())?;
    assert_eq!(rt; take(&mut receiver, first.as_slice())?, (0, 0));
    assert_eq!(rt; take(&mut receiver, last.as_slice())?, (3, 2));
    let state = sent(rt.alloc())?;
    assert!(rt; receiver.state().same(&state));
    Ok(())
}
