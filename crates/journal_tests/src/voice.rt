use ch_voice::{PressureTable, ProgramTable, WheelTable, p, t, w};
use jm_cmds::{Channel, Sent, in_order, read_command};
use jm_wire::Octets;
use std::alloc::Global;
use std::process::Abort;
use std::test::Fail;

/// Adds the commands that these octets spell to the list, as commands of this packet.
fn send(list: &mut Vec<Sent>, packet: u64, octets: &[u8], alloc: Global) -> Result<(), Fail> {
    let mut rest = octets;
    for _ in 0..8usize {
        if rest.is_empty() {
            break;
        }
        let (command, size) = read_command(rest, alloc)?;
        list.push(Sent {
            packet,
            tick: 0,
            command,
        })?;
        rest = rest.get(size..).ok_or("no rest")?;
    }
    Ok(())
}

/// The commands that these octets spell, as commands of packet 0.
fn sent(octets: &[u8], alloc: Global) -> Result<Vec<Sent>, Fail> {
    let mut list = Vec::new(alloc);
    send(&mut list, 0, octets, alloc)?;
    Ok(list)
}

/// Checks Chapter P of channel 0 in this packet, with this checkpoint.
fn check_p<R: Abort>(
    rt: &R,
    list: &[Sent],
    checkpoint: u64,
    packet: u64,
    octets: &[u8],
    alloc: Global,
) -> Result<(), Fail> {
    let channel = Channel::low(0);
    assert!(rt; in_order(list));
    let len = p::plain_len(list, channel, checkpoint, packet, 0);
    let mut out = Octets::with_room(len, alloc)?;
    p::plain_write(list, channel, checkpoint, packet, 0, &mut out);
    assert_eq!(rt; out.as_slice(), octets);
    assert_eq!(rt;
        p::plain_fresh(list, channel, checkpoint, packet),
        octets.first().is_some_and(|first| *first < 128)
    );
    Ok(())
}

/// Checks Chapters W and T of channel 0 in this packet, with this checkpoint.
fn check_wt<R: Abort>(
    rt: &R,
    list: &[Sent],
    checkpoint: u64,
    packet: u64,
    wheel: &[u8],
    pressure: &[u8],
    alloc: Global,
) -> Result<(), Fail> {
    let channel = Channel::low(0);
    assert!(rt; in_order(list));
    let mut out = Octets::with_room(w::plain_len(list, channel, checkpoint, packet, 0), alloc)?;
    w::plain_write(list, channel, checkpoint, packet, 0, &mut out);
    assert_eq!(rt; out.as_slice(), wheel);
    let mut out = Octets::with_room(t::plain_len(list, channel, checkpoint, packet, 0), alloc)?;
    t::plain_write(list, channel, checkpoint, packet, 0, &mut out);
    assert_eq!(rt; out.as_slice(), pressure);
    Ok(())
}

/// Commands of packet 0, and Chapter P of channel 0 in packet 1.
#[test]
fn a_program_has_the_bank_before_it(rt: HostRuntime) -> Result<(), Fail> {
    let alloc = rt.alloc();
    let cases: [(&[u8], &[u8]); 8] = [
        (&[0xb0, 0, 5, 0xb0, 121, 0, 0xc0, 7], &[0x07, 0x85, 0x80]),
        (&[0xb0, 32, 6, 0xb0, 0, 5, 0xc0, 7], &[0x07, 0x85, 0x06]),
        (&[0xb0, 32, 6, 0xc0, 7, 0xb0, 0, 1], &[0x07, 0x00, 0x00]),
        (&[0xb0, 0, 5, 0xc0, 7, 0xb0, 121, 0], &[0x07, 0x85, 0x00]),
        (&[0xb0, 121, 0, 0xb0, 0, 5, 0xc0, 7], &[0x07, 0x85, 0x00]),
        (&[0xb0, 32, 6, 0xb0, 121, 0, 0xc0, 7], &[0x07, 0x00, 0x00]),
        (&[0xb1, 0, 5, 0xb1, 32, 6, 0xc0, 7], &[0x07, 0x00, 0x00]),
        (&[0xc0, 7, 0xc0, 8], &[0x08, 0x00, 0x00]),
    ];
    for (commands, octets) in cases.iter() {
        let list = sent(commands, alloc)?;
        check_p(&rt, &list, 0, 1, octets, alloc)?;
    }
    Ok(())
}

/// Commands of packet 0, and Chapter P of channel 0 in packet 1.
#[test]
fn a_bank_is_of_the_commands_since_the_last_reset(rt: HostRuntime) -> Result<(), Fail> {
    let alloc = rt.alloc();
    let gm_on = [0xb0, 0, 9, 0xf0, 0x7e, 0x7f, 9, 1, 0xf7, 0xc0, 8];
    let gm_off = [0xb0, 0, 9, 0xf0, 0x7e, 0x7f, 9, 2, 0xf7, 0xc0, 8];
    let twice = [0xb0, 0, 9, 0xb0, 121, 0, 0xb0, 0, 5, 0xb0, 32, 6, 0xc0, 8];
    let set_back = [0xb0, 0, 5, 0xb0, 32, 1, 0xb0, 121, 0, 0xb0, 32, 6, 0xc0, 7];
    let greatest = [0xb0, 0, 127, 0xb0, 32, 127, 0xb0, 121, 0, 0xc0, 127];
    let anew = [0xb0, 32, 6, 0xb0, 0, 5, 0xff, 0xb0, 0, 1, 0xc0, 7];
    let cases: [(&[u8], &[u8]); 9] = [
        (&[0xb0, 0, 9, 0xff, 0xc0, 8], &[0x08, 0x00, 0x00]),
        (&gm_on, &[0x08, 0x00, 0x00]),
        (&gm_off, &[0x08, 0x89, 0x00]),
        (&anew, &[0x07, 0x81, 0x00]),
        (&twice, &[0x08, 0x85, 0x06]),
        (&set_back, &[0x07, 0x85, 0x86]),
        (&greatest, &[0x7f, 0xff, 0xff]),
        (&[0xc1, 7], &[]),
        (&[0xc0, 8, 0xff], &[]),
    ];
    for (commands, octets) in cases.iter() {
        let list = sent(commands, alloc)?;
        check_p(&rt, &list, 0, 1, octets, alloc)?;
    }
    Ok(())
}

#[test]
fn the_bank_is_older_than_the_checkpoint(rt: HostRuntime) -> Result<(), Fail> {
    let alloc = rt.alloc();
    let mut list = sent(&[0xb0, 0, 5, 0xb0, 32, 6, 0xc0, 7], alloc)?;
    check_p(&rt, &list, 0, 1, &[0x07, 0x85, 0x06], alloc)?;
    check_p(&rt, &list, 0, 2, &[0x87, 0x85, 0x06], alloc)?;
    check_p(&rt, &list, 1, 2, &[], alloc)?;
    send(&mut list, 1, &[0xc0, 8], alloc)?;
    check_p(&rt, &list, 0, 1, &[0x07, 0x85, 0x06], alloc)?;
    check_p(&rt, &list, 1, 2, &[0x08, 0x85, 0x06], alloc)?;
    check_p(&rt, &list, 1, 3, &[0x88, 0x85, 0x06], alloc)?;
    check_p(&rt, &list, 2, 3, &[], alloc)?;
    Ok(())
}

/// What follows a wheel at 3, 4 and a pressure of 5 in packet 0, and Chapters W and T of channel 0 in packet 1.
#[test]
fn what_ends_the_wheel_and_the_pressure(rt: HostRuntime) -> Result<(), Fail> {
    let alloc = rt.alloc();
    let cases: [(&[u8], &[u8], &[u8]); 12] = [
        (&[], &[0x03, 0x04], &[0x05]),
        (&[0xe0, 127, 127, 0xd0, 127], &[0x7f, 0x7f], &[0x7f]),
        (&[0xe1, 1, 2, 0xd1, 6], &[0x03, 0x04], &[0x05]),
        (&[0xb0, 120, 0], &[0x03, 0x04], &[]),
        (&[0xb0, 121, 0], &[], &[]),
        (&[0xb0, 122, 0], &[0x03, 0x04], &[0x05]),
        (&[0xb0, 123, 0], &[0x03, 0x04], &[]),
        (&[0xb0, 127, 0], &[0x03, 0x04], &[]),
        (&[0xb1, 121, 0, 0xb1, 123, 0], &[0x03, 0x04], &[0x05]),
        (&[0xff], &[], &[]),
        (&[0xf0, 0x7e, 0, 9, 3, 0xf7], &[], &[]),
        (&[0xf0, 0x7e, 0, 9, 2, 0xf7], &[0x03, 0x04], &[0x05]),
    ];
    for (commands, wheel, pressure) in cases.iter() {
        let mut list = sent(&[0xe0, 3, 4, 0xd0, 5], alloc)?;
        send(&mut list, 0, commands, alloc)?;
        check_wt(&rt, &list, 0, 1, wheel, pressure, alloc)?;
    }
    Ok(())
}

#[test]
fn the_wheel_and_the_pressure_of_a_packet(rt: HostRuntime) -> Result<(), Fail> {
    let alloc = rt.alloc();
    let list = sent(&[0xe0, 3, 4, 0xd0, 5], alloc)?;
    check_wt(&rt, &list, 0, 0, &[], &[], alloc)?;
    check_wt(&rt, &list, 0, 1, &[0x03, 0x04], &[0x05], alloc)?;
    check_wt(&rt, &list, 0, 2, &[0x83, 0x04], &[0x85], alloc)?;
    check_wt(&rt, &list, 1, 2, &[], &[], alloc)?;
    let channel = Channel::low(0);
    assert!(rt; in_order(&list));
    assert!(rt; w::plain_fresh(&list, channel, 0, 1) && t::plain_fresh(&list, channel, 0, 1));
    assert!(rt; !w::plain_fresh(&list, channel, 0, 2) && !t::plain_fresh(&list, channel, 0, 2));
    assert!(rt; !w::plain_fresh(&list, channel, 1, 2) && !t::plain_fresh(&list, channel, 1, 2));
    Ok(())
}

/// Checks that the tables tell of this packet what the plain functions tell.
fn compare<R: Abort>(
    rt: &R,
    list: &[Sent],
    tables: (&ProgramTable, &WheelTable, &PressureTable),
    checkpoint: u64,
    packet: u64,
    alloc: Global,
) -> Result<(), Fail> {
    let channel = Channel::low(0);
    let (program, wheel, pressure) = tables;
    assert!(rt; in_order(list));
    let mut plain = Octets::with_room(p::plain_len(list, channel, checkpoint, packet, 9), alloc)?;
    p::plain_write(list, channel, checkpoint, packet, 9, &mut plain);
    let mut out = Octets::with_room(program.len(packet, 9), alloc)?;
    program.write(packet, 9, &mut out);
    assert_eq!(rt; out.as_slice(), plain.as_slice());
    let mut plain = Octets::with_room(w::plain_len(list, channel, checkpoint, packet, 9), alloc)?;
    w::plain_write(list, channel, checkpoint, packet, 9, &mut plain);
    let mut out = Octets::with_room(wheel.len(packet, 9), alloc)?;
    wheel.write(packet, 9, &mut out);
    assert_eq!(rt; out.as_slice(), plain.as_slice());
    let mut plain = Octets::with_room(t::plain_len(list, channel, checkpoint, packet, 9), alloc)?;
    t::plain_write(list, channel, checkpoint, packet, 9, &mut plain);
    let mut out = Octets::with_room(pressure.len(packet, 9), alloc)?;
    pressure.write(packet, 9, &mut out);
    assert_eq!(rt; out.as_slice(), plain.as_slice());
    let fresh = p::plain_fresh(list, channel, checkpoint, packet);
    assert_eq!(rt; program.fresh(packet), fresh);
    let fresh = w::plain_fresh(list, channel, checkpoint, packet);
    assert_eq!(rt; wheel.fresh(packet), fresh);
    let fresh = t::plain_fresh(list, channel, checkpoint, packet);
    assert_eq!(rt; pressure.fresh(packet), fresh);
    Ok(())
}

/// Packets with their commands of channel 0, each with the checkpoint that is set behind it.
#[test]
fn tables_tell_what_the_plain_functions_tell(rt: HostRuntime) -> Result<(), Fail> {
    let alloc = rt.alloc();
    let mut list = Vec::new(alloc);
    let mut program = ProgramTable::new();
    let mut wheel = WheelTable::new();
    let mut pressure = PressureTable::new();
    let first = [0xb0, 0, 5, 0xb0, 32, 6, 0xc0, 7, 0xe0, 3, 4, 0xd0, 5];
    let packets: [(u32, &[u8], u64); 9] = [
        (0, &first, 0),
        (1, &[0xf8], 0),
        (2, &[0xb0, 121, 0, 0xd0, 6, 0xc0, 8], 2),
        (3, &[0xe0, 1, 2, 0x90, 60, 100], 2),
        (4, &[0xb0, 123, 0], 3),
        (5, &[0xff, 0xc0, 9, 0xe0, 127, 127], 4),
        (6, &[0xb0, 32, 1, 0xb0, 0, 2, 0xd0, 127], 5),
        (7, &[], 7),
        (8, &[0xc0, 1], 8),
    ];
    for (number, octets, checkpoint) in packets.iter() {
        let packet = u64::from(*number);
        let from = list.len();
        send(&mut list, packet, octets, alloc)?;
        for place in list.iter().skip(from) {
            program.note(&place.command, packet, 9);
            wheel.note(&place.command, packet, 9);
            pressure.note(&place.command, packet, 9);
        }
        program.trim(*checkpoint);
        wheel.trim(*checkpoint);
        pressure.trim(*checkpoint);
        let tables = (&program, &wheel, &pressure);
        compare(&rt, &list, tables, *checkpoint, packet + 1, alloc)?;
        compare(&rt, &list, tables, *checkpoint, packet + 2, alloc)?;
    }
    let mut copies = (ProgramTable::new(), WheelTable::new(), PressureTable::new());
    copies.0.copy_from(&program);
    copies.1.copy_from(&wheel);
    copies.2.copy_from(&pressure);
    let tables = (&copies.0, &copies.1, &copies.2);
    compare(&rt, &list, tables, 8, 9, alloc)
}
