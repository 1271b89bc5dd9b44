//! Chapter C by its octets.

use ch_control::c::{plain_fresh, plain_len, plain_write};
use jm_cmds::{Channel, Sent, in_order, read_command};
use jm_wire::Octets;
use std::alloc::Global;
use std::process::Abort;
use std::test::Fail;

/// Appends these commands, whose octets are the low three of a number, all of this packet.
fn push(list: &mut Vec<Sent>, packet: u64, commands: &[u32], alloc: Global) -> Result<(), Fail> {
    for octets in commands {
        let octets = octets.to_be_bytes();
        let command = read_command(&octets[1..], alloc)?.0;
        list.push(Sent {
            packet,
            tick: 0,
            command,
        })?;
    }
    Ok(())
}

/// Checks the chapter of channel 0 in the journal of this packet with this checkpoint.
fn check_list<R: Abort>(
    rt: &R,
    list: &[Sent],
    checkpoint: u64,
    packet: u64,
    text: &[u8],
    alloc: Global,
) -> Result<(), Fail> {
    let channel = Channel::low(0);
    assert!(rt; in_order(list));
    let len = plain_len(list, channel, checkpoint, packet, 0);
    let mut out = Octets::with_room(len, alloc)?;
    plain_write(list, channel, checkpoint, packet, 0, &mut out);
    assert_eq!(rt; out.as_slice(), text);
    let fresh = match text.first() {
        None => false,
        Some(first) => *first < 128,
    };
    assert_eq!(rt; plain_fresh(list, channel, checkpoint, packet), fresh);
    Ok(())
}

/// Checks it where the commands of each packet are these.
fn check<R: Abort>(
    rt: &R,
    packets: &[&[u32]],
    checkpoint: u64,
    packet: u64,
    text: &[u8],
    alloc: Global,
) -> Result<(), Fail> {
    let mut list = Vec::new(alloc);
    let mut number = 0u64;
    for commands in packets {
        push(&mut list, number, commands, alloc)?;
        number = number.saturating_add(1);
    }
    check_list(rt, &list, checkpoint, packet, text, alloc)
}

/// Checks the chapter of each of these lists of packets, each a list of commands, by the octets that stand
/// behind its checkpoint and the packet whose journal it is in.
macro_rules! cases {
    ($rt:ident, $alloc:ident; $([$([$($command:literal),*]),*] $checkpoint:literal, $packet:literal => $text:literal;)*) => {
        $(check(&$rt, &[$(&[$($command),*]),*], $checkpoint, $packet, $text, $alloc)?;)*
    };
}

#[test]
fn the_latest_value_of_each_controller(rt: HostRuntime) -> Result<(), Fail> {
    let alloc = rt.alloc();
    cases!(rt, alloc;
        [[0xb00740, 0xb00105]] 0, 1 => b"\x01\x07\x40\x01\x05";
        [[0xb00740, 0xb00105]] 0, 2 => b"\x81\x87\x40\x81\x05";
        [[0xb00740, 0xb00105]] 0, 0 => b"";
        [[0xb00740, 0xb00105]] 1, 2 => b"";
        [[0xb00701], [0xb00702], [0xb00103]] 0, 3 => b"\x01\x87\x02\x01\x03";
        [[0xb00701], [0xb00702], [0xb00103]] 1, 3 => b"\x01\x87\x02\x01\x03";
        [[0xb00701], [0xb00702], [0xb00103]] 2, 3 => b"\x00\x01\x03";
        [[0xb00701], [0xb00702], [0xb00103]] 3, 3 => b"";
        [[0xb10740, 0xb00701, 0x907f01]] 0, 1 => b"\x00\x07\x01";
    );
    Ok(())
}

#[test]
fn items_that_are_two_numbers(rt: HostRuntime) -> Result<(), Fail> {
    let alloc = rt.alloc();
    cases!(rt, alloc;
        [[0xb07c00, 0xb07e03, 0xb07d00, 0xb07f00]] 0, 1 => b"\x01\x7d\x00\x7f\x00";
        [[0xb07d01, 0xb07b00, 0xb07c02]] 0, 1 => b"\x01\x7b\xc1\x7c\x02";
        [[0xb00601, 0xb02602, 0xb00503, 0xb00704, 0xb02505, 0xb02706]] 0, 1 => b"\x03\x05\x03\x07\x04\x25\x05\x27\x06";
    );
    Ok(())
}

#[test]
fn what_control_121_leaves(rt: HostRuntime) -> Result<(), Fail> {
    let alloc = rt.alloc();
    cases!(rt, alloc;
        [[0xb00001, 0xb00102, 0xb01f03, 0xb02004, 0xb02105, 0xb07706, 0xb07800, 0xb07900]] 0, 1 => b"\x03\x00\x01\x20\x04\x78\xc1\x79\xc1";
        [[0xb07a03, 0xb07b00, 0xb07c00, 0xb07e01, 0xb06001, 0xb07900]] 0, 1 => b"\x04\x7a\x03\x7b\xc1\x7c\x00\x7e\x01\x79\xc1";
        [[0xb17900, 0xb00701]] 0, 1 => b"\x00\x07\x01";
        [[0xb00701, 0xb17900]] 0, 1 => b"\x00\x07\x01";
        [[0xb07900, 0xb00701]] 0, 1 => b"\x01\x79\xc1\x07\x01";
    );
    Ok(())
}

#[test]
fn what_resets_drop(rt: HostRuntime) -> Result<(), Fail> {
    let alloc = rt.alloc();
    cases!(rt, alloc;
        [[0xb00001, 0xb07a04, 0xff0000, 0xb07b00]] 0, 1 => b"\x00\x7b\xc1";
        [[0xb00001], [0xff0000]] 0, 2 => b"";
        [[0xb07900, 0xff0000, 0xb07900]] 0, 1 => b"\x00\x79\xc2";
    );
    Ok(())
}

#[test]
fn counts_go_over_the_session(rt: HostRuntime) -> Result<(), Fail> {
    let alloc = rt.alloc();
    cases!(rt, alloc;
        [[0xb05f01, 0xb06001, 0xb06101, 0xb06201]] 0, 1 => b"\x03\x5f\x01\x60\xc1\x61\xc1\x62\x01";
        [[0xb07709, 0xb07809, 0xb07909, 0xb07a09, 0xb07b09, 0xb07c09]] 0, 1 => b"\x04\x78\xc1\x79\xc1\x7a\x09\x7b\xc1\x7c\x09";
        [[0xb07900, 0xb00701], [0xb07900]] 1, 2 => b"\x00\x79\xc2";
        [[0xb06000, 0xb06000], [0xb06100], [0xb06005]] 2, 3 => b"\x00\x60\xc3";
        [[0xb06000, 0xb16000]] 0, 1 => b"\x00\x60\xc1";
    );
    Ok(())
}

#[test]
fn toggles_of_the_pedal(rt: HostRuntime) -> Result<(), Fail> {
    let alloc = rt.alloc();
    cases!(rt, alloc;
        [[0xb0407f, 0xb04000, 0xb0407f]] 0, 1 => b"\x01\x40\x7f\x40\x83";
        [[0xb0407f, 0xb04040, 0xb0403f, 0xb04000, 0xb00701]] 0, 1 => b"\x02\x40\x00\x40\x82\x07\x01";
        [[0xb0403f, 0xb04040]] 0, 1 => b"\x01\x40\x40\x40\x81";
        [[0xb04040]] 0, 1 => b"\x01\x40\x40\x40\x81";
        [[0xb04000]] 0, 1 => b"\x01\x40\x00\x40\x80";
        [[0xb0407f, 0xb07900, 0xb04000, 0xb04040]] 0, 1 => b"\x02\x79\xc1\x40\x40\x40\x81";
        [[0xb0407f, 0xb07900, 0xb0407f]] 0, 1 => b"\x02\x79\xc1\x40\x7f\x40\x81";
        [[0xb0407f, 0xff0000, 0xb0407f]] 0, 1 => b"\x01\x40\x7f\x40\x81";
        [[0xb0407f, 0xb07900]] 0, 1 => b"\x00\x79\xc1";
        [[0xb0407f], [0xb04000], [0xb04064]] 2, 3 => b"\x01\x40\x64\x40\x83";
        [[0xb0407f], [0xb04000], [0xb00701]] 0, 3 => b"\x02\xc0\x00\xc0\x82\x07\x01";
        [[0xb0407f, 0xb1407f, 0xb0427f]] 0, 1 => b"\x02\x40\x7f\x40\x81\x42\x7f";
    );
    Ok(())
}

/// Checks the chapter where this command, and the other one, went out in turn so many times in all.
fn check_turns<R: Abort>(
    rt: &R,
    turns: [u32; 2],
    count: usize,
    text: &[u8],
    alloc: Global,
) -> Result<(), Fail> {
    let mut list = Vec::new(alloc);
    let [first, second] = turns;
    for k in 0..count {
        let turn = if k % 2 == 0 { first } else { second };
        push(&mut list, 0, &[turn], alloc)?;
    }
    check_list(rt, &list, 0, 1, text, alloc)
}

#[test]
fn counts_and_toggles_wrap_at_64(rt: HostRuntime) -> Result<(), Fail> {
    let alloc = rt.alloc();
    let resets = [0xb07900, 0xb07900];
    check_turns(&rt, resets, 63, b"\x00\x79\xff", alloc)?;
    check_turns(&rt, resets, 64, b"\x00\x79\xc0", alloc)?;
    check_turns(&rt, resets, 65, b"\x00\x79\xc1", alloc)?;
    let moves = [0xb0407f, 0xb04000];
    check_turns(&rt, moves, 63, b"\x01\x40\x7f\x40\xbf", alloc)?;
    check_turns(&rt, moves, 64, b"\x01\x40\x00\x40\x80", alloc)?;
    check_turns(&rt, moves, 65, b"\x01\x40\x7f\x40\x81", alloc)?;
    Ok(())
}

#[test]
fn all_controllers(rt: HostRuntime) -> Result<(), Fail> {
    let alloc = rt.alloc();
    let mut list = Vec::new(alloc);
    push(&mut list, 0, &[0xb07901], alloc)?;
    for number in 0..128u8 {
        if number != 121 {
            push(&mut list, 0, &[0xb00001 + 256 * number as u32], alloc)?;
        }
    }
    let channel = Channel::low(0);
    assert!(rt; in_order(&list));
    let len = plain_len(&list, channel, 0, 1, 0);
    assert_eq!(rt; len, 251);
    let mut out = Octets::with_room(len, alloc)?;
    plain_write(&list, channel, 0, 1, 0, &mut out);
    assert!(rt;
        out.as_slice()
            .starts_with(b"\x7c\x79\xc1\x00\x01\x01\x01\x02\x01\x03")
    );
    assert!(rt;
        out.as_slice()
            .ends_with(b"\x78\xc1\x7a\x01\x7b\xc1\x7d\x01\x7f\x01")
    );
    Ok(())
}

#[test]
fn messages_that_turn_general_midi_on(rt: HostRuntime) -> Result<(), Fail> {
    let alloc = rt.alloc();
    for (last, text) in [
        (1u8, b"\x00\x07\x02".as_slice()),
        (2, b"\x01\x00\x01\x07\x02"),
        (3, b"\x00\x07\x02"),
    ] {
        let message = [0xf0, 0x7e, 0x7f, 9, last % 128, 0xf7];
        let mut list = Vec::new(alloc);
        push(&mut list, 0, &[0xb00001], alloc)?;
        let command = read_command(&message, alloc)?.0;
        list.push(Sent {
            packet: 0,
            tick: 0,
            command,
        })?;
        push(&mut list, 0, &[0xb00702], alloc)?;
        check_list(&rt, &list, 0, 1, text, alloc)?;
    }
    Ok(())
}
