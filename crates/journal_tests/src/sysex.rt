use ch_sysex::x;
use jm_cmds::{Command, Sent, Sysex, in_order, read_command, session_history};
use jm_wire::Octets;
use std::alloc::Global;
use std::process::Abort;
use std::test::Fail;

/// Appends the commands that these octets spell one after the other, as sent in this packet.
fn send(list: &mut Vec<Sent>, packet: u64, octets: &[u8], alloc: Global) -> Result<(), Fail> {
    let mut rest = octets;
    for _ in 0..8usize {
        if rest.is_empty() {
            break;
        }
        let (command, size) = read_command(rest, alloc)?;
        list.push(Sent {
            packet,
            tick: 0,
            command,
        })?;
        rest = rest.get(size..).ok_or("no rest")?;
    }
    Ok(())
}

/// Appends a message of these data octets, as sent in this packet.
fn send_data(list: &mut Vec<Sent>, packet: u64, data: &[u8], alloc: Global) -> Result<(), Fail> {
    list.push(Sent {
        packet,
        tick: 0,
        command: Command::Sysex(Sysex::new(data, alloc)?),
    })?;
    Ok(())
}

/// Checks Chapter X in this packet, with this checkpoint.
fn check<R: Abort>(
    rt: &R,
    list: &[Sent],
    checkpoint: u64,
    packet: u64,
    octets: &[u8],
    alloc: Global,
) -> Result<(), Fail> {
    assert!(rt; in_order(list));
    assert!(rt; x::plain_room(session_history(list, packet), checkpoint).1 <= 1000);
    let len = x::plain_len(list, checkpoint, packet, 0);
    let mut out = Octets::with_room(len, alloc)?;
    x::plain_write(list, checkpoint, packet, 0, &mut out);
    assert_eq!(rt; out.as_slice(), octets);
    Ok(())
}

/// Messages of packet 0, and the chapter in packet 1.
#[test]
fn a_reset_message_is_told_by_its_octets(rt: HostRuntime) -> Result<(), Fail> {
    let alloc = rt.alloc();
    let cases: [(&[u8], &[u8]); 8] = [
        (&[0x7e, 0x7f, 9, 1], &[0x2f, 0x00, 0x7e, 0x7f, 0x09, 0x81]),
        (&[0x7e, 0, 9, 3], &[0x2f, 0x00, 0x7e, 0x00, 0x09, 0x83]),
        (&[0x7e, 0x7f, 9, 2], &[0x2f, 0x01, 0x7e, 0x7f, 0x09, 0x82]),
        (&[0x7e, 0x7f, 9, 0], &[0x2f, 0x01, 0x7e, 0x7f, 0x09, 0x80]),
        (
            &[0x7e, 0x7f, 9, 1, 1],
            &[0x2f, 0x01, 0x7e, 0x7f, 0x09, 0x01, 0x81],
        ),
        (&[0x7f, 0x7f, 9, 1], &[0x2f, 0x01, 0x7f, 0x7f, 0x09, 0x81]),
        (&[0x7e, 0x7f, 8, 1], &[0x2f, 0x01, 0x7e, 0x7f, 0x08, 0x81]),
        (&[0x7f], &[0x2f, 0x01, 0xff]),
    ];
    for (data, octets) in cases.iter() {
        let mut list = Vec::new(alloc);
        send_data(&mut list, 0, data, alloc)?;
        check(&rt, &list, 0, 1, octets, alloc)?;
    }
    Ok(())
}

/// Commands of packet 0, and the chapter in packet 1.
#[test]
fn a_reset_drops_the_earlier_messages(rt: HostRuntime) -> Result<(), Fail> {
    let alloc = rt.alloc();
    let general_midi = [
        0xf0, 0x7d, 1, 0xf7, 0xf0, 0x7e, 0x7f, 9, 1, 0xf7, 0xf0, 0x7d, 2, 0xf7,
    ];
    let both = [0x2f, 0x00, 0x7e, 0x7f, 0x09, 0x81, 0x2f, 0x01, 0x7d, 0x82];
    let twice = [0xf0, 0x7e, 0x7f, 9, 1, 0xf7, 0xf0, 0x7e, 0x7f, 9, 3, 0xf7];
    let same = [0xf0, 0x7d, 1, 0xf7, 0xf0, 0x7d, 1, 0xf7];
    let counted = [0x2f, 0x01, 0x7d, 0x81, 0x2f, 0x02, 0x7d, 0x81];
    let cases: [(&[u8], &[u8]); 7] = [
        (&general_midi, &both),
        (&twice, &[0x2f, 0x00, 0x7e, 0x7f, 0x09, 0x83]),
        (&same, &counted),
        (&[0xf0, 0x7d, 1, 0xf7, 0xff], &[]),
        (
            &[0xf0, 0x7d, 1, 0xf7, 0xff, 0xf0, 0x7d, 2, 0xf7],
            &[0x2f, 0x01, 0x7d, 0x82],
        ),
        (&[0xf0, 0xf7], &[0x27, 0x01]),
        (&[0x90, 0x40, 0x7f, 0xf8], &[]),
    ];
    for (commands, octets) in cases.iter() {
        let mut list = Vec::new(alloc);
        send(&mut list, 0, commands, alloc)?;
        check(&rt, &list, 0, 1, octets, alloc)?;
    }
    Ok(())
}

#[test]
fn each_log_has_its_own_s(rt: HostRuntime) -> Result<(), Fail> {
    let alloc = rt.alloc();
    let mut list = Vec::new(alloc);
    send_data(&mut list, 0, &[0x7d, 1], alloc)?;
    send_data(&mut list, 1, &[0x7d, 2], alloc)?;
    send_data(&mut list, 2, &[0x7d, 3], alloc)?;
    let all = [
        0xaf, 0x01, 0x7d, 0x81, 0xaf, 0x02, 0x7d, 0x82, 0x2f, 0x03, 0x7d, 0x83,
    ];
    check(&rt, &list, 0, 3, &all, alloc)?;
    let later = [0xaf, 0x02, 0x7d, 0x82, 0x2f, 0x03, 0x7d, 0x83];
    check(&rt, &list, 1, 3, &later, alloc)?;
    check(&rt, &list, 2, 4, &[0xaf, 0x03, 0x7d, 0x83], alloc)?;
    check(&rt, &list, 3, 4, &[], alloc)?;
    assert!(rt; in_order(&list));
    assert!(rt; x::plain_fresh(&list, 1, 3));
    assert!(rt; !x::plain_fresh(&list, 2, 4));
    Ok(())
}

#[test]
fn a_count_is_of_the_session(rt: HostRuntime) -> Result<(), Fail> {
    let alloc = rt.alloc();
    let mut list = Vec::new(alloc);
    for _ in 0..255usize {
        send_data(&mut list, 0, &[1], alloc)?;
    }
    send_data(&mut list, 1, &[2, 3], alloc)?;
    send_data(&mut list, 2, &[4], alloc)?;
    let wrapped = [0xaf, 0x00, 0x02, 0x83, 0x2f, 0x01, 0x84];
    check(&rt, &list, 1, 3, &wrapped, alloc)?;
    Ok(())
}

/// A message of 254 data octets has a log, one of 255 hasn't. Three of 254 and one of 230 have 1,000 octets
/// together.
#[test]
fn long_messages(rt: HostRuntime) -> Result<(), Fail> {
    let alloc = rt.alloc();
    let mut list = Vec::new(alloc);
    send_data(&mut list, 0, &[5; 255], alloc)?;
    assert_eq!(rt; x::plain_room(&list, 0), (0, 0));
    send_data(&mut list, 0, &[6; 254], alloc)?;
    assert_eq!(rt; x::plain_room(&list, 0), (1, 256));
    send_data(&mut list, 0, &[6; 254], alloc)?;
    send_data(&mut list, 0, &[6; 254], alloc)?;
    send_data(&mut list, 0, &[7; 230], alloc)?;
    assert_eq!(rt; x::plain_room(&list, 0), (4, 1000));
    send_data(&mut list, 0, &[], alloc)?;
    assert_eq!(rt; x::plain_room(&list, 0), (5, 1002));
    Ok(())
}

/// 128 messages of one data octet have 384 octets.
#[test]
fn many_messages(rt: HostRuntime) -> Result<(), Fail> {
    let alloc = rt.alloc();
    let mut list = Vec::new(alloc);
    for _ in 0..128usize {
        send_data(&mut list, 0, &[1], alloc)?;
    }
    assert_eq!(rt; x::plain_room(&list, 0), (128, 384));
    assert_eq!(rt; x::plain_room(&list, 1), (0, 0));
    Ok(())
}
