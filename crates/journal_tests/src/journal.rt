//! Whole journals by their octets, and which command fits.

ghost use Rattle.std.specs.Prelude.{◌≡◌, ◌≤◌, IsTrue, length};
ghost use Rattle.jm_cmds.specs.History.{InOrder};
ghost use Rattle.jm_cmds.specs.Sent.{packet_of};
ghost use Rattle.jm_journal.specs.Limits.{KeepsLimits};

use ch_notes::a;
use ch_param::m;
use ch_sysex::x;
use jm_cmds::{Channel, Command, Sent, in_order, read_command, session_history};
use jm_journal::{Fit, plain_fits, plain_len, plain_write};
use jm_wire::Octets;
use std::alloc::{AllocError, Global};
use std::process::Abort;
use std::test::Fail;

/// Whether what is coded of these commands for this checkpoint keeps the limits.
fn keeps_limits(list: &[Sent], checkpoint: u64) -> bool
    requires { InOrder packet_of list.now }
    ensures { IsTrue result → KeepsLimits checkpoint list.now }
{
    for number in 0..16u8 {
        let channel = Channel::low(number);
        if m::plain_params(list, channel, checkpoint) > 16
            || a::plain_notes(list, channel, checkpoint) > 64
        {
            return false;
        }
    }
    let (logs, octets) = x::plain_room(list, checkpoint);
    logs <= 128 && octets <= 1000
}

/// The command of these octets.
fn command(octets: &[u8], alloc: Global) -> Result<Command, Fail> {
    Ok(read_command(octets, alloc)?.0)
}

/// The commands of these octets, all in this packet, behind those of the list.
fn push(list: &mut Vec<Sent>, packet: u64, texts: &[&[u8]], alloc: Global) -> Result<(), Fail> {
    for text in texts {
        let command = command(text, alloc)?;
        list.push(Sent {
            packet,
            tick: 0,
            command,
        })?;
    }
    Ok(())
}

/// Checks the journal of this packet with this checkpoint.
fn check<R: Abort>(
    rt: &R,
    list: &[Sent],
    checkpoint: u64,
    packet: u64,
    journal: &[u8],
    alloc: Global,
) -> Result<(), AllocError> {
    assert!(rt; in_order(list));
    let session = session_history(list, packet);
    assert!(rt; keeps_limits(session, checkpoint));
    let len = plain_len(list, checkpoint, packet, 0);
    let mut out = Octets::with_room(len, alloc)?;
    plain_write(list, checkpoint, packet, 0, &mut out);
    assert_eq!(rt; out.as_slice(), journal);
    Ok(())
}

/// Checks the journal of packet 1, whose checkpoint is 0, where all these commands are of packet 0.
fn check_first<R: Abort>(
    rt: &R,
    texts: &[&[u8]],
    journal: &[u8],
    alloc: Global,
) -> Result<(), Fail> {
    let mut list = Vec::new(alloc);
    push(&mut list, 0, texts, alloc)?;
    check(rt, &list, 0, 1, journal, alloc)?;
    Ok(())
}

/// Whether a command fits behind those of the list, with this checkpoint.
fn fits<R: Abort>(
    rt: &R,
    list: &[Sent],
    checkpoint: u64,
    octets: &[u8],
    alloc: Global,
) -> Result<Fit, Fail> {
    assert!(rt; in_order(list));
    Ok(plain_fits(list, checkpoint, &command(octets, alloc)?))
}

#[test]
fn chapters_of_a_channel(rt: HostRuntime) -> Result<(), Fail> {
    let alloc = rt.alloc();
    check_first(
        &rt,
        &[&[0xb0, 7, 0x40], &[0xb0, 1, 5]],
        &[0x20, 0, 0, 0, 8, 0x40, 1, 7, 0x40, 1, 5],
        alloc,
    )?;
    check_first(
        &rt,
        &[&[0x90, 0x3c, 0x64], &[0x90, 0x3c, 0x64]],
        &[
            0x20, 0, 0, 0, 0x0a, 0x0c, 0x81, 0xf0, 0x3c, 0xe4, 0, 0x3c, 2,
        ],
        alloc,
    )?;
    check_first(
        &rt,
        &[&[0x90, 0x3c, 0x64], &[0x80, 0x3c, 0x20]],
        &[0x20, 0, 0, 0, 9, 0x0c, 0, 0x77, 8, 0, 0x3c, 0xa0],
        alloc,
    )?;
    check_first(
        &rt,
        &[&[0xa0, 0x3c, 0x50], &[0xb0, 0x78, 0]],
        &[0x20, 0, 0, 0, 9, 0x41, 0, 0x78, 0xc1, 0, 0x3c, 0xd0],
        alloc,
    )?;
    check_first(
        &rt,
        &[&[0xb0, 0, 5], &[0xb0, 0x79, 0], &[0xc0, 7]],
        &[
            0x20, 0, 0, 0, 0x0b, 0xc0, 7, 0x85, 0x80, 1, 0, 5, 0x79, 0xc1,
        ],
        alloc,
    )?;
    Ok(())
}

#[test]
fn chapters_of_the_system(rt: HostRuntime) -> Result<(), Fail> {
    let alloc = rt.alloc();
    check_first(
        &rt,
        &[&[0xfa], &[0xf8], &[0xf8]],
        &[0x40, 0, 0, 0x10, 5, 0x70, 0, 1],
        alloc,
    )?;
    check_first(
        &rt,
        &[&[0xf6], &[0xf3, 5]],
        &[0x40, 0, 0, 0x40, 5, 0x30, 1, 5],
        alloc,
    )?;
    check_first(&rt, &[&[0xfe]], &[0x40, 0, 0, 0x20, 3, 1], alloc)?;
    check_first(&rt, &[&[0xf1, 0x12]], &[0x40, 0, 0, 8, 3, 7], alloc)?;
    check_first(&rt, &[&[0xf0, 0xf7]], &[0x40, 0, 0, 4, 4, 0x27, 1], alloc)?;
    check_first(&rt, &[], &[0x80, 0, 0], alloc)?;
    Ok(())
}

#[test]
fn the_system_and_two_channels(rt: HostRuntime) -> Result<(), Fail> {
    let alloc = rt.alloc();
    let mut list = Vec::new(alloc);
    let texts: &[&[u8]] = &[&[0xb1, 7, 0x40], &[0x90, 0x3c, 0x64], &[0xf8], &[0xf3, 5]];
    push(&mut list, 0, texts, alloc)?;
    let first: &[u8] = &[
        0x61, 0, 0, 0x50, 5, 0x10, 5, 0, 0, 7, 8, 0x81, 0xf0, 0x3c, 0xe4, 8, 6, 0x40, 0, 7, 0x40,
    ];
    check(&rt, &list, 0, 1, first, alloc)?;
    let second: &[u8] = &[
        0xe1, 0, 0, 0xd0, 5, 0x90, 0x85, 0x80, 0x80, 7, 8, 0x81, 0xf0, 0xbc, 0xe4, 0x88, 6, 0x40,
        0x80, 0x87, 0x40,
    ];
    check(&rt, &list, 0, 2, second, alloc)?;
    check(&rt, &list, 1, 2, &[0x80, 0, 1], alloc)?;
    Ok(())
}

#[test]
fn every_chapter_once(rt: HostRuntime) -> Result<(), Fail> {
    let alloc = rt.alloc();
    let texts: &[&[u8]] = &[
        b"\xb0\x00\x05",
        b"\xb0\x20\x06",
        b"\xc0\x07",
        b"\xb0\x63\x01",
        b"\xb0\x62\x02",
        b"\xb0\x06\x03",
        b"\xe0\x00\x40",
        b"\x90\x3c\x64",
        b"\x90\x3c\x64",
        b"\xd0\x10",
        b"\xa0\x3c\x50",
        b"\xfa",
        b"\xf8",
        b"\xfe",
        b"\xf6",
        b"\xf3\x05",
        b"\xf1\x12",
        b"\xf0\x01\xf7",
    ];
    let system = b"\x60\0\0\x7c\x0b\x30\x01\x05\x01\x60\x07\x2f\x01\x81";
    let voice = b"\0\x22\xff\x07\x85\x06\x03\0\x05\x20\x06\x63\x01\x62\x02";
    let params = b"\0\x06\x02\x81\x82\x03\0\x40";
    let notes = b"\x81\xf0\x3c\xe4\0\x3c\x02\x10\0\x3c\x50";
    let mut journal = system.to_vec(alloc)?;
    journal.extend_from_slice(voice)?;
    journal.extend_from_slice(params)?;
    journal.extend_from_slice(notes)?;
    check_first(&rt, texts, &journal, alloc)
}

#[test]
fn the_pedal_and_its_toggles(rt: HostRuntime) -> Result<(), Fail> {
    let alloc = rt.alloc();
    let down: &[u8] = b"\xb0\x40\x7f";
    check_first(
        &rt,
        &[down, b"\xb0\x40\x00", down],
        b"\x20\0\0\0\x08\x40\x01\x40\x7f\x40\x83",
        alloc,
    )
}

#[test]
fn the_checkpoint_is_told_modulo_65536(rt: HostRuntime) -> Result<(), Fail> {
    let alloc = rt.alloc();
    let mut list = Vec::new(alloc);
    push(&mut list, 65537, &[&[0xb0, 7, 0x40]], alloc)?;
    for (checkpoint, first, second) in [(65535, 0xff, 0xff), (65536, 0, 0), (65537, 0, 1)] {
        let journal = [0x20, first, second, 0, 6, 0x40, 0, 7, 0x40];
        check(&rt, &list, checkpoint, 65538, &journal, alloc)?;
    }
    Ok(())
}

#[test]
fn totchan_of_all_channels(rt: HostRuntime) -> Result<(), Fail> {
    let alloc = rt.alloc();
    let mut list = Vec::new(alloc);
    for channel in 0..16u8 {
        push(&mut list, 0, &[&[0xb0 + channel, 7, 1]], alloc)?;
    }
    assert!(rt; in_order(&list));
    assert!(rt; keeps_limits(&list, 0));
    let session = session_history(&list, 1);
    assert!(rt; keeps_limits(session, 0));
    let len = plain_len(&list, 0, 1, 0);
    assert_eq!(rt; len, 99);
    let mut out = Octets::with_room(len, alloc)?;
    plain_write(&list, 0, 1, 0, &mut out);
    assert!(rt;
        out.as_slice()
            .starts_with(b"\x2f\0\0\0\x06\x40\0\x07\x01\x08\x06\x40\0\x07\x01\x10")
    );
    Ok(())
}

#[test]
fn a_parameter_past_the_limit(rt: HostRuntime) -> Result<(), Fail> {
    let alloc = rt.alloc();
    let mut list = Vec::new(alloc);
    push(&mut list, 0, &[&[0xb0, 0x63, 1]], alloc)?;
    for number in 0..16u8 {
        let select: &[u8] = &[0xb0, 0x62, number & 0x7f];
        assert_eq!(rt; fits(&rt, &list, 0, &[0xb0, 6, 1], alloc)?, Fit::Yes);
        push(&mut list, 0, &[select, &[0xb0, 6, 1]], alloc)?;
    }
    assert_eq!(rt; fits(&rt, &list, 0, &[0xb0, 0x26, 1], alloc)?, Fit::Yes);
    push(&mut list, 1, &[&[0xb0, 0x62, 16]], alloc)?;
    let full = Fit::ParamsFull {
        channel: Channel::low(0),
        kept: 16,
    };
    assert_eq!(rt; fits(&rt, &list, 0, &[0xb0, 6, 1], alloc)?, full);
    assert_eq!(rt; fits(&rt, &list, 0, &[0xb0, 0x26, 1], alloc)?, full);
    assert_eq!(rt; fits(&rt, &list, 0, &[0xb0, 7, 1], alloc)?, Fit::Yes);
    assert_eq!(rt; fits(&rt, &list, 0, &[0xb1, 6, 1], alloc)?, Fit::Yes);
    assert_eq!(rt; fits(&rt, &list, 1, &[0xb0, 6, 1], alloc)?, Fit::Yes);
    Ok(())
}

#[test]
fn a_note_past_the_limit(rt: HostRuntime) -> Result<(), Fail> {
    let alloc = rt.alloc();
    let mut list = Vec::new(alloc);
    for note in 0..64u8 {
        let press: &[u8] = &[0xa2, note, 1];
        assert_eq!(rt; fits(&rt, &list, 0, press, alloc)?, Fit::Yes);
        push(&mut list, 0, &[press], alloc)?;
    }
    let full = Fit::PolyFull {
        channel: Channel::low(2),
        kept: 64,
    };
    assert_eq!(rt; fits(&rt, &list, 0, &[0xa2, 64, 1], alloc)?, full);
    assert_eq!(rt; fits(&rt, &list, 0, &[0xa2, 63, 1], alloc)?, Fit::Yes);
    assert_eq!(rt; fits(&rt, &list, 0, &[0xa3, 64, 1], alloc)?, Fit::Yes);
    assert_eq!(rt; fits(&rt, &list, 1, &[0xa2, 64, 1], alloc)?, Fit::Yes);
    Ok(())
}

/// A System Exclusive message of so many data octets.
fn message(size: usize, alloc: Global) -> Result<Vec<u8>, AllocError> {
    let mut octets = vec![in alloc; 0xf0u8]?;
    for _ in 0..size {
        octets.push(0x7d)?;
    }
    octets.push(0xf7)?;
    Ok(octets)
}

#[test]
fn octets_past_the_limit(rt: HostRuntime) -> Result<(), Fail> {
    let alloc = rt.alloc();
    let mut list = Vec::new(alloc);
    let long = message(254, alloc)?;
    push(&mut list, 0, &[&long, &long, &long], alloc)?;
    let full = Fit::SysexFull {
        logs: 3,
        octets: 768,
    };
    assert_eq!(rt;
        fits(&rt, &list, 0, &message(230, alloc)?, alloc)?,
        Fit::Yes
    );
    assert_eq!(rt; fits(&rt, &list, 0, &message(231, alloc)?, alloc)?, full);
    assert_eq!(rt;
        fits(&rt, &list, 0, &message(255, alloc)?, alloc)?,
        Fit::Yes
    );
    let reset: &[u8] = &[0xf0, 0x7e, 0, 9, 1, 0xf7];
    push(&mut list, 0, &[&message(226, alloc)?], alloc)?;
    assert_eq!(rt;
        fits(&rt, &list, 0, &[0xf0, 1, 2, 3, 0xf7], alloc)?,
        Fit::SysexFull {
            logs: 4,
            octets: 996
        }
    );
    assert_eq!(rt; fits(&rt, &list, 0, reset, alloc)?, Fit::Yes);
    Ok(())
}

#[test]
fn messages_past_the_limit(rt: HostRuntime) -> Result<(), Fail> {
    let alloc = rt.alloc();
    let mut list = Vec::new(alloc);
    for _ in 0..128u16 {
        assert_eq!(rt; fits(&rt, &list, 0, &[0xf0, 0xf7], alloc)?, Fit::Yes);
        push(&mut list, 0, &[&[0xf0, 0xf7]], alloc)?;
    }
    let full = Fit::SysexFull {
        logs: 128,
        octets: 256,
    };
    assert_eq!(rt; fits(&rt, &list, 0, &[0xf0, 0xf7], alloc)?, full);
    assert_eq!(rt; fits(&rt, &list, 1, &[0xf0, 0xf7], alloc)?, Fit::Yes);
    Ok(())
}
