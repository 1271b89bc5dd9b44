use ch_system::{d, f, q, v};
use jm_cmds::{Command, D7, Sent, in_order, read_command};
use jm_wire::Octets;
use std::alloc::Global;
use std::process::Abort;
use std::test::Fail;

/// Appends the commands that these octets spell one after the other, as sent in this packet.
fn send(list: &mut Vec<Sent>, packet: u64, octets: &[u8], alloc: Global) -> Result<(), Fail> {
    let mut rest = octets;
    for _ in 0..16usize {
        if rest.is_empty() {
            break;
        }
        let (command, size) = read_command(rest, alloc)?;
        list.push(Sent {
            packet,
            tick: 0,
            command,
        })?;
        rest = rest.get(size..).ok_or("no rest")?;
    }
    Ok(())
}

/// Checks the four chapters, one behind the other, in the journal of this packet.
fn check<R: Abort>(
    rt: &R,
    list: &[Sent],
    checkpoint: u64,
    packet: u64,
    octets: &[u8],
    alloc: Global,
) -> Result<(), Fail> {
    assert!(rt; in_order(list));
    let room = d::plain_len(list, checkpoint, packet, 0)
        + v::plain_len(list, checkpoint, packet, 0)
        + q::plain_len(list, checkpoint, packet, 0)
        + f::plain_len(list, checkpoint, packet, 0);
    let mut out = Octets::with_room(room, alloc)?;
    d::plain_write(list, checkpoint, packet, 0, &mut out);
    v::plain_write(list, checkpoint, packet, 0, &mut out);
    q::plain_write(list, checkpoint, packet, 0, &mut out);
    f::plain_write(list, checkpoint, packet, 0, &mut out);
    assert_eq!(rt; out.spare(), 0);
    assert!(rt; out.as_slice() == octets);
    Ok(())
}

/// Checks the chapters that packet 1 gives for these commands in packet 0.
fn check_first<R: Abort>(
    rt: &R,
    commands: &[u8],
    octets: &[u8],
    alloc: Global,
) -> Result<(), Fail> {
    let mut list = Vec::new(alloc);
    send(&mut list, 0, commands, alloc)?;
    check(rt, &list, 0, 1, octets, alloc)
}

/// Appends quarter frames with these values.
fn send_frames(list: &mut Vec<Sent>, values: &[u8]) -> Result<(), Fail> {
    for value in values {
        list.push(Sent {
            packet: 0,
            tick: 0,
            command: Command::QuarterFrame {
                value: D7::low(*value),
            },
        })?;
    }
    Ok(())
}

/// Commands of packet 0, and Chapter D in packet 1.
#[test]
fn resets_tunings_and_songs(rt: HostRuntime) -> Result<(), Fail> {
    let alloc = rt.alloc();
    let cases: [(&[u8], &[u8]); 10] = [
        (&[0xff], &[0x40, 0x01]),
        (&[0xf6], &[0x20, 0x01]),
        (&[0xf3, 5], &[0x10, 0x05]),
        (&[0xf3, 5, 0xf3, 6], &[0x10, 0x06]),
        (&[0xf6, 0xf3, 5, 0xf6], &[0x30, 0x02, 0x05]),
        (&[0xf6, 0xff], &[0x40, 0x01]),
        (&[0xff, 0xff, 0xf6, 0xf3, 7], &[0x70, 0x02, 0x01, 0x07]),
        (&[0xff, 0xf3, 7, 0xf6], &[0x70, 0x01, 0x01, 0x07]),
        (&[0xf3, 5, 0xf0, 0x7e, 0x7f, 9, 1, 0xf7], &[]),
        (&[0xf3, 5, 0xf0, 0x7e, 0x7f, 9, 2, 0xf7], &[0x10, 0x05]),
    ];
    for (commands, octets) in cases.iter() {
        check_first(&rt, commands, octets, alloc)?;
    }
    Ok(())
}

/// Commands of packet 0, and Chapter Q in packet 1.
#[test]
fn song_position(rt: HostRuntime) -> Result<(), Fail> {
    let alloc = rt.alloc();
    let cases: [(&[u8], &[u8]); 18] = [
        (&[0xfa], &[0x40]),
        (&[0xfb], &[0x40]),
        (&[0xfc], &[0x00]),
        (&[0xf8], &[0x00]),
        (&[0xf2, 2, 0], &[0x10, 0x00, 0x0c]),
        (&[0xf2, 0, 1], &[0x10, 0x03, 0x00]),
        (&[0xf2, 127, 127], &[0x11, 0x7f, 0xfa]),
        (&[0xfa, 0xf8], &[0x60]),
        (&[0xfa, 0xf8, 0xf8], &[0x70, 0x00, 0x01]),
        (&[0xfa, 0xf8, 0xf8, 0xf2, 2, 0], &[0x70, 0x00, 0x0c]),
        (&[0xfa, 0xf8, 0xf8, 0xfc], &[0x10, 0x00, 0x01]),
        (&[0xfa, 0xf8, 0xf8, 0xfb], &[0x50, 0x00, 0x01]),
        (&[0xfa, 0xf8, 0xf8, 0xfa], &[0x40]),
        (&[0xfa, 0xf8, 0xfc], &[0x00]),
        (&[0xfc, 0xf8, 0xf8], &[0x00]),
        (&[0xf2, 1, 0, 0xfb, 0xf8, 0xf8], &[0x70, 0x00, 0x07]),
        (&[0xf2, 0x40, 0x55, 0xfb, 0xf8, 0xf8], &[0x71, 0x00, 0x81]),
        (&[0xf0, 0x7e, 0, 9, 3, 0xf7, 0xfc], &[0x00]),
    ];
    for (commands, octets) in cases.iter() {
        check_first(&rt, commands, octets, alloc)?;
    }
    Ok(())
}

/// Checks Chapter F in packet 1, where these quarter frames are of packet 0.
fn check_frames<R: Abort>(
    rt: &R,
    before: &[u8],
    values: &[u8],
    octets: &[u8],
    alloc: Global,
) -> Result<(), Fail> {
    let mut list = Vec::new(alloc);
    send_frames(&mut list, before)?;
    send_frames(&mut list, values)?;
    check(rt, &list, 0, 1, octets, alloc)
}

#[test]
fn partial_time_code(rt: HostRuntime) -> Result<(), Fail> {
    let cases: [(&[u8], &[u8]); 10] = [
        (&[0x01], &[0x20, 0x10, 0, 0, 0]),
        (&[0x01, 0x12], &[0x21, 0x12, 0, 0, 0]),
        (&[0x01, 0x01], &[0x20, 0x10, 0, 0, 0]),
        (&[0x33, 0x01], &[0x20, 0x10, 0, 0, 0]),
        (&[0x75], &[0x2f, 0, 0, 0, 0x05]),
        (&[0x70, 0x67], &[0x2e, 0, 0, 0, 0x70]),
        (&[0x01, 0x70], &[0x2f, 0, 0, 0, 0]),
        (&[0x33], &[0x07]),
        (&[0x01, 0x12, 0x34], &[0x07]),
        (&[0x70, 0x56], &[0x08]),
    ];
    for (values, octets) in cases.iter() {
        check_frames(&rt, &[], values, octets, rt.alloc())?;
    }
    Ok(())
}

/// What follows a whole word, forwards or backwards.
#[test]
fn complete_time_code(rt: HostRuntime) -> Result<(), Fail> {
    let word = [0x01, 0x12, 0x23, 0x34, 0x45, 0x56, 0x67, 0x70];
    let forward: [(&[u8], &[u8]); 4] = [
        (&[], &[0x57, 0x12, 0x34, 0x56, 0x70]),
        (&[0x23], &[0x57, 0x12, 0x34, 0x56, 0x70]),
        (&[0x0f], &[0x70, 0x12, 0x34, 0x56, 0x70, 0xf0, 0, 0, 0]),
        (
            &[0x01, 0x12],
            &[0x71, 0x12, 0x34, 0x56, 0x70, 0x12, 0, 0, 0],
        ),
    ];
    for (values, octets) in forward.iter() {
        check_frames(&rt, &word, values, octets, rt.alloc())?;
    }
    let back = [0x70, 0x67, 0x56, 0x45, 0x34, 0x23, 0x12, 0x01];
    check_frames(&rt, &back, &[], &[0x58, 0x12, 0x34, 0x56, 0x70], rt.alloc())?;
    check_frames(
        &rt,
        &back,
        &[0x23],
        &[0x58, 0x12, 0x34, 0x56, 0x70],
        rt.alloc(),
    )?;
    let both = [0x7f, 0x12, 0x34, 0x56, 0x70, 0, 0, 0, 0x0f];
    check_frames(&rt, &back, &[0x7f], &both, rt.alloc())?;
    Ok(())
}

/// A count has seven bits and is of the whole session, whatever resets came.
#[test]
fn counts(rt: HostRuntime) -> Result<(), Fail> {
    let alloc = rt.alloc();
    check_first(&rt, &[0xfe], &[0x01], alloc)?;
    check_first(&rt, &[0xfe, 0xf0, 0x7e, 0x7f, 9, 1, 0xf7], &[], alloc)?;
    check_first(
        &rt,
        &[0xfe, 0xf0, 0x7e, 0x7f, 9, 1, 0xf7, 0xfe],
        &[0x02],
        alloc,
    )?;
    let mut list = Vec::new(alloc);
    for _ in 0..127usize {
        send(&mut list, 0, &[0xf6, 0xfe], alloc)?;
    }
    check(&rt, &list, 0, 1, &[0x20, 0x7f, 0x7f], alloc)?;
    send(&mut list, 0, &[0xf6, 0xfe], alloc)?;
    check(&rt, &list, 0, 1, &[0x20, 0x00, 0x00], alloc)?;
    send(&mut list, 1, &[0xf6, 0xfe], alloc)?;
    check(&rt, &list, 1, 2, &[0x20, 0x01, 0x01], alloc)?;
    check(&rt, &list, 1, 3, &[0xa0, 0x81, 0x81], alloc)?;
    check(&rt, &list, 2, 3, &[], alloc)?;
    Ok(())
}

/// Each log of Chapter D has its own S.
#[test]
fn logs_of_three_packets(rt: HostRuntime) -> Result<(), Fail> {
    let alloc = rt.alloc();
    let mut list = Vec::new(alloc);
    send(&mut list, 0, &[0xff, 0xf6, 0xf6], alloc)?;
    send(&mut list, 1, &[0xf3, 5], alloc)?;
    send(&mut list, 2, &[0xf6], alloc)?;
    check(&rt, &list, 0, 3, &[0x70, 0x81, 0x03, 0x85], alloc)?;
    check(&rt, &list, 1, 3, &[0x30, 0x03, 0x85], alloc)?;
    check(&rt, &list, 2, 3, &[0x20, 0x03], alloc)?;
    check(&rt, &list, 1, 4, &[0xb0, 0x83, 0x85], alloc)?;
    Ok(())
}

#[test]
fn fresh_is_the_packet_before(rt: HostRuntime) -> Result<(), Fail> {
    let alloc = rt.alloc();
    let mut list = Vec::new(alloc);
    send(&mut list, 0, &[0xf3, 0x05, 0xfe, 0xfa, 0xf1, 0x01], alloc)?;
    send(&mut list, 1, &[0xf6], alloc)?;
    check(
        &rt,
        &list,
        0,
        1,
        &[0x10, 0x05, 0x01, 0x40, 0x20, 0x10, 0x00, 0x00, 0x00],
        alloc,
    )?;
    check(
        &rt,
        &list,
        0,
        2,
        &[0x30, 0x01, 0x85, 0x81, 0xc0, 0xa0, 0x10, 0x00, 0x00, 0x00],
        alloc,
    )?;
    check(&rt, &list, 1, 2, &[0x20, 0x01], alloc)?;
    assert!(rt; in_order(&list));
    assert!(rt; d::plain_fresh(&list, 0, 2));
    assert!(rt; !v::plain_fresh(&list, 0, 2));
    assert!(rt; !q::plain_fresh(&list, 0, 2));
    assert!(rt; !f::plain_fresh(&list, 0, 2));
    Ok(())
}
