//! Chapters N, E and A by their octets.

use ch_notes::{a, e, n};
use jm_cmds::{Channel, D7, Sent, in_order, read_command};
use jm_wire::Octets;
use std::alloc::Global;
use std::process::Abort;
use std::test::Fail;

/// One of the chapters of notes.
#[derive(Clone, Copy)]
enum Letter {
    N,
    E,
    A,
}

/// Appends these commands, whose octets are the low three of a number, all of this packet and tick.
fn push(
    list: &mut Vec<Sent>,
    packet: u64,
    tick: u64,
    commands: &[u32],
    alloc: Global,
) -> Result<(), Fail> {
    for octets in commands {
        let octets = octets.to_be_bytes();
        let command = read_command(&octets[1..], alloc)?.0;
        list.push(Sent {
            packet,
            tick,
            command,
        })?;
    }
    Ok(())
}

/// The chapter of channel 0 in the journal of this packet, which is of this tick, with this checkpoint.
fn chapter<R: Abort>(
    rt: &R,
    letter: Letter,
    list: &[Sent],
    [checkpoint, packet, tick]: [u64; 3],
    alloc: Global,
) -> Result<Octets, Fail> {
    let channel = Channel::low(0);
    assert!(rt; in_order(list));
    let len = match letter {
        Letter::N => n::plain_len(list, channel, checkpoint, packet, tick),
        Letter::E => e::plain_len(list, channel, checkpoint, packet, tick),
        Letter::A => a::plain_len(list, channel, checkpoint, packet, tick),
    };
    let mut out = Octets::with_room(len, alloc)?;
    match letter {
        Letter::N => n::plain_write(list, channel, checkpoint, packet, tick, &mut out),
        Letter::E => e::plain_write(list, channel, checkpoint, packet, tick, &mut out),
        Letter::A => a::plain_write(list, channel, checkpoint, packet, tick, &mut out),
    }
    assert_eq!(rt; out.spare(), 0);
    Ok(out)
}

/// Checks it where the commands of each packet are these, and all ticks are 0.
fn check<R: Abort>(
    rt: &R,
    letter: Letter,
    packets: &[&[u32]],
    [checkpoint, packet]: [u64; 2],
    text: &[u8],
    alloc: Global,
) -> Result<(), Fail> {
    let mut list = Vec::new(alloc);
    let mut number = 0u64;
    for commands in packets {
        push(&mut list, number, 0, commands, alloc)?;
        number = number.saturating_add(1);
    }
    let out = chapter(rt, letter, &list, [checkpoint, packet, 0], alloc)?;
    assert_eq!(rt; out.as_slice(), text);
    Ok(())
}

/// Checks the chapter of each of these lists of packets, each a list of commands, by the octets that stand
/// behind its checkpoint and the packet whose journal it is in.
macro_rules! cases {
    ($rt:ident, $alloc:ident, $letter:expr; $([$([$($command:literal),*]),*] $checkpoint:literal, $packet:literal => $text:literal;)*) => {
        $(check(&$rt, $letter, &[$(&[$($command),*]),*], [$checkpoint, $packet], $text, $alloc)?;)*
    };
}

#[test]
fn struck_notes_have_logs(rt: HostRuntime) -> Result<(), Fail> {
    let alloc = rt.alloc();
    cases!(rt, alloc, Letter::N;
        [[0x903c64]] 0, 1 => b"\x81\xf0\x3c\xe4";
        [[0x903c64]] 0, 2 => b"\x81\xf0\xbc\xe4";
        [[0x903c64]] 1, 2 => b"";
        [[0x903c64]] 0, 0 => b"";
        [[0x903c01, 0x903d02], [0x903c03]] 0, 2 => b"\x82\xf0\xbd\x82\x3c\x83";
        [[0x903c01], [0x903d7f]] 1, 2 => b"\x81\xf0\x3d\xff";
        [[0x913c01, 0x900001, 0x907f01]] 0, 1 => b"\x82\xf0\x00\x81\x7f\x81";
    );
    Ok(())
}

#[test]
fn released_notes_have_bits(rt: HostRuntime) -> Result<(), Fail> {
    let alloc = rt.alloc();
    cases!(rt, alloc, Letter::N;
        [[0x803c40]] 0, 1 => b"\x00\x77\x08";
        [[0x803c40]] 0, 2 => b"\x80\x77\x08";
        [[0x903c00]] 0, 1 => b"\x00\x77\x08";
        [[0x903c01, 0x803c01]] 0, 1 => b"\x00\x77\x08";
        [[0x803c01, 0x903c01]] 0, 1 => b"\x81\xf0\x3c\x81";
        [[0x800001, 0x800101, 0x800a01, 0x801301]] 0, 1 => b"\x00\x02\xc0\x20\x10";
        [[0x800401, 0x800501, 0x800e01, 0x801701]] 0, 1 => b"\x00\x02\x0c\x02\x01";
        [[0x800040, 0x807f40]] 0, 1 => b"\x00\x0f\x80\x00\x00\x00\x00\x00\x00\x00\x00\x00\x00\x00\x00\x00\x00\x01";
        [[0x900509, 0x801009]] 0, 1 => b"\x01\x22\x05\x89\x80";
    );
    Ok(())
}

#[test]
fn b_tells_of_released_notes(rt: HostRuntime) -> Result<(), Fail> {
    let alloc = rt.alloc();
    cases!(rt, alloc, Letter::N;
        [[0x800801], [0x900901]] 0, 2 => b"\x81\x11\x09\x81\x80";
        [[0x900901], [0x800801]] 0, 2 => b"\x01\x11\x89\x81\x80";
        [[0x800801], [0xb00701]] 0, 2 => b"\x80\x11\x80";
        [[0x800801], [0x801001]] 0, 2 => b"\x00\x12\x80\x80";
    );
    Ok(())
}

#[test]
fn what_ends_notes(rt: HostRuntime) -> Result<(), Fail> {
    let alloc = rt.alloc();
    cases!(rt, alloc, Letter::N;
        [[0x900101, 0x800201, 0xb07800, 0x900301]] 0, 1 => b"\x81\xf0\x03\x81";
        [[0x900101, 0xb07b00]] 0, 1 => b"";
        [[0x900101, 0xb07700]] 0, 1 => b"\x81\xf0\x01\x81";
        [[0x900101, 0xb07900]] 0, 1 => b"\x81\xf0\x01\x81";
        [[0x900101, 0xb07a00]] 0, 1 => b"\x81\xf0\x01\x81";
        [[0x900101, 0xb07c00]] 0, 1 => b"";
        [[0x900101, 0xb07f00]] 0, 1 => b"";
        [[0x900101, 0xb17b00]] 0, 1 => b"\x81\xf0\x01\x81";
        [[0x900101, 0xff0000, 0x900201]] 0, 1 => b"\x81\xf0\x02\x81";
    );
    Ok(())
}

#[test]
fn counts_that_chapter_n_leaves_out(rt: HostRuntime) -> Result<(), Fail> {
    let alloc = rt.alloc();
    cases!(rt, alloc, Letter::E;
        [[0x903c09]] 0, 1 => b"";
        [[0x903c09, 0x903c09]] 0, 1 => b"\x00\x3c\x02";
        [[0x903c09, 0x903c09, 0x903c09]] 0, 2 => b"\x80\xbc\x03";
        [[0x903c09, 0x903c09, 0x803c09]] 0, 1 => b"\x00\x3c\x01";
        [[0x903c09, 0x903c09, 0x803c09, 0x903d01, 0x903d01]] 0, 1 => b"\x01\x3c\x01\x3d\x02";
        [[0x803c40, 0x903c09]] 0, 1 => b"";
        [[0x903c09, 0xb07b00, 0x903c09]] 0, 1 => b"";
        [[0x903c09, 0xb07900, 0x903c09]] 0, 1 => b"\x00\x3c\x02";
        [[0x903c09, 0xff0000, 0x903c09]] 0, 1 => b"";
        [[0x903c09], [0x903c09], [0x903c09]] 2, 3 => b"\x00\x3c\x03";
        [[0x903c09, 0x903c09]] 1, 2 => b"";
        [[0x903c09, 0x913c09]] 0, 1 => b"";
    );
    Ok(())
}

#[test]
fn release_velocities(rt: HostRuntime) -> Result<(), Fail> {
    let alloc = rt.alloc();
    cases!(rt, alloc, Letter::E;
        [[0x803c40]] 0, 1 => b"";
        [[0x803c3f]] 0, 1 => b"\x00\x3c\xbf";
        [[0x803c41]] 0, 1 => b"\x00\x3c\xc1";
        [[0x803c00]] 0, 1 => b"\x00\x3c\x80";
        [[0x803c7f]] 0, 2 => b"\x80\xbc\xff";
        [[0x903c00]] 0, 1 => b"";
        [[0x903c09, 0x803c20]] 0, 1 => b"\x00\x3c\xa0";
        [[0x903c09, 0x803c20, 0x803c21]] 0, 1 => b"\x00\x3c\xa1";
        [[0x803d01], [0x803c02]] 0, 2 => b"\x01\xbd\x81\x3c\x82";
    );
    Ok(())
}

#[test]
fn pressures_on_keys(rt: HostRuntime) -> Result<(), Fail> {
    let alloc = rt.alloc();
    cases!(rt, alloc, Letter::A;
        [[0xa03c50]] 0, 1 => b"\x00\x3c\x50";
        [[0xa03c50]] 0, 2 => b"\x80\xbc\x50";
        [[0xa03c50]] 1, 2 => b"";
        [[0xa03c50, 0xa03d00, 0xa03c7f]] 0, 1 => b"\x01\x3d\x00\x3c\x7f";
        [[0xa03c01], [0xa03d02]] 0, 2 => b"\x01\xbc\x01\x3d\x02";
        [[0xa03c01, 0xa13c02]] 0, 1 => b"\x00\x3c\x01";
        [[0xa03c01, 0x903c01, 0x803c01]] 0, 1 => b"\x00\x3c\x01";
    );
    Ok(())
}

#[test]
fn x_tells_that_notes_ended(rt: HostRuntime) -> Result<(), Fail> {
    let alloc = rt.alloc();
    cases!(rt, alloc, Letter::A;
        [[0xa03c50, 0xb07700]] 0, 1 => b"\x00\x3c\x50";
        [[0xa03c50, 0xb07800]] 0, 1 => b"\x00\x3c\xd0";
        [[0xa03c50, 0xb07900]] 0, 1 => b"";
        [[0xa03c50, 0xb07a00]] 0, 1 => b"\x00\x3c\x50";
        [[0xa03c50, 0xb07b00]] 0, 1 => b"\x00\x3c\xd0";
        [[0xa03c50, 0xb07c00]] 0, 1 => b"\x00\x3c\xd0";
        [[0xa03c50, 0xb07f00]] 0, 1 => b"\x00\x3c\xd0";
        [[0xa03c50, 0xb07800, 0xa03d01, 0xa03e02, 0xb00701]] 0, 1 => b"\x02\x3c\xd0\x3d\x01\x3e\x02";
        [[0xa03c50, 0xb07800, 0xa03c51]] 0, 1 => b"\x00\x3c\x51";
        [[0xa03c50, 0xb17800]] 0, 1 => b"\x00\x3c\x50";
        [[0xa03c50, 0xff0000, 0xa03d01]] 0, 1 => b"\x00\x3d\x01";
        [[0xa03c50, 0xb07900, 0xa03d01]] 0, 1 => b"\x00\x3d\x01";
    );
    Ok(())
}

#[test]
fn notes_are_worth_playing_for_2000_ticks(rt: HostRuntime) -> Result<(), Fail> {
    let alloc = rt.alloc();
    let soon = b"\x81\xf0\x3c\xe4".as_slice();
    let late = b"\x81\xf0\x3c\x64".as_slice();
    for (begun, tick, text) in [
        (0u64, 1999u64, soon),
        (0, 2000, soon),
        (0, 2001, late),
        (100, 2100, soon),
        (100, 2101, late),
    ] {
        let mut list = Vec::new(alloc);
        push(&mut list, 0, begun, &[0x903c64], alloc)?;
        let out = chapter(&rt, Letter::N, &list, [0, 1, tick], alloc)?;
        assert_eq!(rt; out.as_slice(), text);
    }
    Ok(())
}

/// Checks the length and the two ends of a chapter: the command of the note 0, and those of the notes behind it
/// up to so many, went out first, and then the last ones.
fn check_many<R: Abort>(
    rt: &R,
    letter: Letter,
    (first, count, last): (u32, u8, &[u32]),
    size: usize,
    ends: [&[u8]; 2],
    alloc: Global,
) -> Result<(), Fail> {
    let [begin, end] = ends;
    let mut list = Vec::new(alloc);
    for note in 0..count {
        push(&mut list, 0, 0, &[first | (note as u32) << 8], alloc)?;
    }
    push(&mut list, 0, 0, last, alloc)?;
    let out = chapter(rt, letter, &list, [0, 1, 0], alloc)?;
    assert_eq!(rt; out.as_slice().len(), size);
    assert!(rt; out.as_slice().starts_with(begin));
    assert!(rt; out.as_slice().ends_with(end));
    Ok(())
}

/// Checks chapters of many notes.
macro_rules! many {
    ($rt:ident, $alloc:ident; $($letter:ident $first:literal, $count:literal, [$($last:literal),*] => $size:literal, $begin:literal .. $end:literal;)*) => {
        $(check_many(&$rt, Letter::$letter, ($first, $count, &[$($last),*]), $size, [$begin, $end], $alloc)?;)*
    };
}

#[test]
fn chapters_of_many_notes(rt: HostRuntime) -> Result<(), Fail> {
    let alloc = rt.alloc();
    many!(rt, alloc;
        N 0x900001, 126, [] => 254, b"\xfe\xf0\x00\x81" .. b"\x7d\x81";
        N 0x900001, 127, [] => 256, b"\xff\xf1\x00\x81" .. b"\x7e\x81";
        N 0x900001, 128, [] => 258, b"\xff\xf0\x00\x81" .. b"\x7f\x81";
        N 0x900001, 127, [0x807f40] => 257, b"\x7f\xff\x00\x81" .. b"\x7e\x81\x01";
        N 0x900001, 127, [0x800040] => 255, b"\x7e\x00\x01\x81" .. b"\x7e\x81\x80";
        N 0x900001, 127, [0x800040, 0x807f40] => 270, b"\x7e\x0f\x01\x81" .. b"\x7e\x81\x80\0\0\0\0\0\0\0\0\0\0\0\0\0\0\x01";
        N 0x800040, 128, [] => 18, b"\x00\x0f\xff" .. b"\xff\xff";
        E 0x800001, 128, [] => 257, b"\x7f\x00\x81" .. b"\x7f\x81";
        A 0xa00001, 64, [] => 129, b"\x3f\x00\x01" .. b"\x3f\x01";
        A 0xa00001, 128, [] => 257, b"\x7f\x00\x01" .. b"\x7f\x01";
    );
    Ok(())
}

#[test]
fn counts_stop_at_127(rt: HostRuntime) -> Result<(), Fail> {
    let alloc = rt.alloc();
    let mut list = Vec::new(alloc);
    for _ in 0..126u8 {
        push(&mut list, 0, 0, &[0x903c01], alloc)?;
    }
    for (next, text) in [
        (0x913c01, b"\x00\x3c\x7e"),
        (0x903c01, b"\x00\x3c\x7f"),
        (0x903c01, b"\x00\x3c\x7f"),
        (0x803c01, b"\x00\x3c\x7e"),
    ] {
        push(&mut list, 0, 0, &[next], alloc)?;
        let out = chapter(&rt, Letter::E, &list, [0, 1, 0], alloc)?;
        assert_eq!(rt; out.as_slice(), text.as_slice());
    }
    Ok(())
}

#[test]
fn freshness_and_pressures_that_are_coded(rt: HostRuntime) -> Result<(), Fail> {
    let alloc = rt.alloc();
    let channel = Channel::low(0);
    let mut list = Vec::new(alloc);
    push(&mut list, 0, 0, &[0x903c01, 0x903c01, 0xa03c50], alloc)?;
    push(&mut list, 1, 0, &[0x803d40, 0xa03d50, 0xa03d51], alloc)?;
    assert!(rt; in_order(&list));
    for (packet, note, count) in [
        (0, false, false),
        (1, true, true),
        (2, true, false),
        (3, false, false),
    ] {
        assert_eq!(rt; n::plain_fresh(&list, channel, 0, packet), note);
        assert_eq!(rt; e::plain_fresh(&list, channel, 0, packet), count);
        assert_eq!(rt; a::plain_fresh(&list, channel, 0, packet), note);
    }
    for (checkpoint, notes) in [(0, 2), (1, 1), (2, 0)] {
        assert_eq!(rt; a::plain_notes(&list, channel, checkpoint), notes);
    }
    assert!(rt; a::plain_has_note(&list, channel, 0, D7::low(0x3c)));
    assert!(rt; !a::plain_has_note(&list, channel, 1, D7::low(0x3c)));
    assert!(rt; a::plain_has_note(&list, channel, 1, D7::low(0x3d)));
    assert!(rt; !a::plain_has_note(&list, channel, 0, D7::low(0x3e)));
    Ok(())
}
