use ch_param::m::{
    plain_fresh, plain_has_param, plain_len, plain_params, plain_selected, plain_write,
};
use jm_cmds::{Channel, Command, D7, Sent, in_order, session_history};
use jm_wire::Octets;
use std::alloc::Global;
use std::process::Abort;
use std::test::Fail;

/// A controller of this channel in this packet.
fn control(packet: u64, channel: u8, number: u8, value: u8) -> Sent {
    Sent {
        packet,
        tick: 0,
        command: Command::Control {
            channel: Channel::low(channel),
            number: D7::low(number),
            value: D7::low(value),
        },
    }
}

/// Adds these controllers of channel 0, each with its number and its value, as commands of this packet.
fn send(list: &mut Vec<Sent>, packet: u64, controls: &[(u8, u8)]) -> Result<(), Fail> {
    for (number, value) in controls {
        list.push(control(packet, 0, *number, *value))?;
    }
    Ok(())
}

/// Checks the chapter of channel 0 in the journal of this packet, with this checkpoint.
fn check<R: Abort>(
    rt: &R,
    list: &[Sent],
    checkpoint: u64,
    packet: u64,
    chapter: &[u8],
    alloc: Global,
) -> Result<(), Fail> {
    let channel = Channel::low(0);
    assert!(rt; in_order(list));
    assert!(rt; plain_params(session_history(list, packet), channel, checkpoint) <= 16);
    let len = plain_len(list, channel, checkpoint, packet, 0);
    let mut out = Octets::with_room(len, alloc)?;
    plain_write(list, channel, checkpoint, packet, 0, &mut out);
    assert_eq!(rt; out.as_slice(), chapter);
    assert_eq!(rt;
        plain_fresh(list, channel, checkpoint, packet),
        chapter.starts_with(&[0])
    );
    Ok(())
}

/// Controllers of packet 0, and the chapter in packet 1.
#[test]
fn an_entry_is_of_the_parameter_that_is_selected(rt: HostRuntime) -> Result<(), Fail> {
    let alloc = rt.alloc();
    let low_first = [(101, 0), (100, 1), (38, 11), (6, 10)];
    let rpn_then_nrpn = [(99, 1), (98, 2), (101, 0), (100, 1), (98, 3), (6, 1)];
    let nrpn_then_rpn = [(99, 1), (98, 2), (101, 0), (100, 1), (6, 1)];
    let cases: [(&[(u8, u8)], &[u8]); 10] = [
        (
            &[(99, 1), (98, 2), (6, 64)],
            &[0x00, 0x06, 0x02, 0x81, 0x82, 0x40],
        ),
        (&low_first, &[0x00, 0x07, 0x01, 0x00, 0xc2, 0x0a, 0x0b]),
        (&nrpn_then_rpn, &[0x00, 0x06, 0x01, 0x00, 0x82, 0x01]),
        (&rpn_then_nrpn, &[0x00, 0x06, 0x03, 0x81, 0x82, 0x01]),
        (&[(99, 1), (98, 2), (101, 0), (6, 1)], &[]),
        (&[(99, 127), (98, 127), (6, 1)], &[]),
        (
            &[(99, 127), (98, 0), (6, 1)],
            &[0x00, 0x06, 0x00, 0xff, 0x82, 0x01],
        ),
        (&[(101, 0), (6, 1)], &[]),
        (&[(100, 1), (6, 1)], &[]),
        (&[(6, 1), (38, 2)], &[]),
    ];
    for (controls, chapter) in cases.iter() {
        let mut list = Vec::new(alloc);
        send(&mut list, 0, controls)?;
        check(&rt, &list, 0, 1, chapter, alloc)?;
    }
    Ok(())
}

/// What follows a high half of 10 for RPN 0, 1 in packet 0, and the chapter in packet 1.
#[test]
fn what_an_entry_lasts_over(rt: HostRuntime) -> Result<(), Fail> {
    let alloc = rt.alloc();
    let between = [(100, 2), (6, 20), (100, 1), (38, 11)];
    let moved_up = [
        0x00, 0x0b, 0x02, 0x00, 0x82, 0x14, 0x01, 0x00, 0xc2, 0x0a, 0x0b,
    ];
    let others = [(99, 2), (38, 11), (98, 3), (38, 12)];
    let both = [0x00, 0x0a, 0x01, 0x00, 0x82, 0x0a, 0x03, 0x82, 0x42, 0x0c];
    let cases: [(&[(u8, u8)], &[u8]); 6] = [
        (&between, &moved_up),
        (&others, &both),
        (&[(121, 0), (6, 2)], &[0x00, 0x06, 0x01, 0x00, 0x82, 0x0a]),
        (&[(96, 0), (97, 0)], &[0x00, 0x06, 0x01, 0x00, 0x82, 0x0a]),
        (&[(123, 0)], &[0x00, 0x06, 0x01, 0x00, 0x82, 0x0a]),
        (&[(6, 3)], &[0x00, 0x06, 0x01, 0x00, 0x82, 0x03]),
    ];
    for (controls, chapter) in cases.iter() {
        let mut list = Vec::new(alloc);
        send(&mut list, 0, &[(101, 0), (100, 1), (6, 10)])?;
        send(&mut list, 0, controls)?;
        check(&rt, &list, 0, 1, chapter, alloc)?;
    }
    Ok(())
}

#[test]
fn another_channel_and_a_reset(rt: HostRuntime) -> Result<(), Fail> {
    let alloc = rt.alloc();
    let mut list = Vec::new(alloc);
    send(&mut list, 0, &[(101, 0), (100, 1), (6, 1)])?;
    list.push(control(0, 1, 100, 2))?;
    list.push(control(0, 1, 6, 5))?;
    send(&mut list, 0, &[(6, 3)])?;
    check(
        &rt,
        &list,
        0,
        1,
        &[0x00, 0x06, 0x01, 0x00, 0x82, 0x03],
        alloc,
    )?;
    list.push(Sent {
        packet: 0,
        tick: 0,
        command: Command::SystemReset,
    })?;
    send(&mut list, 0, &[(6, 4)])?;
    check(&rt, &list, 0, 1, &[], alloc)?;
    assert!(rt; in_order(&list));
    assert!(rt; plain_selected(&list, Channel::low(0)).is_none());
    Ok(())
}

#[test]
fn each_log_has_its_own_s(rt: HostRuntime) -> Result<(), Fail> {
    let alloc = rt.alloc();
    let mut list = Vec::new(alloc);
    send(&mut list, 0, &[(101, 0), (100, 1), (6, 10), (38, 11)])?;
    send(&mut list, 1, &[(100, 2), (38, 12)])?;
    send(&mut list, 2, &[(100, 1), (6, 13)])?;
    let all = [
        0x00, 0x0b, 0x82, 0x00, 0x42, 0x0c, 0x01, 0x00, 0xc2, 0x0d, 0x0b,
    ];
    check(&rt, &list, 0, 3, &all, alloc)?;
    let later = [
        0x80, 0x0b, 0x82, 0x00, 0x42, 0x0c, 0x81, 0x00, 0xc2, 0x0d, 0x0b,
    ];
    check(&rt, &list, 0, 4, &later, alloc)?;
    let high = [0x00, 0x0a, 0x82, 0x00, 0x42, 0x0c, 0x01, 0x00, 0x82, 0x0d];
    check(&rt, &list, 1, 3, &high, alloc)?;
    check(
        &rt,
        &list,
        2,
        3,
        &[0x00, 0x06, 0x01, 0x00, 0x82, 0x0d],
        alloc,
    )?;
    check(
        &rt,
        &list,
        2,
        4,
        &[0x80, 0x06, 0x81, 0x00, 0x82, 0x0d],
        alloc,
    )?;
    check(&rt, &list, 3, 4, &[], alloc)?;
    check(&rt, &list, 0, 0, &[], alloc)?;
    Ok(())
}

#[test]
fn an_entry_behind_the_checkpoint(rt: HostRuntime) -> Result<(), Fail> {
    let alloc = rt.alloc();
    let channel = Channel::low(0);
    let mut list = Vec::new(alloc);
    send(&mut list, 0, &[(99, 1)])?;
    send(&mut list, 1, &[(98, 2), (6, 0x40)])?;
    check(
        &rt,
        &list,
        1,
        2,
        &[0x00, 0x06, 0x02, 0x81, 0x82, 0x40],
        alloc,
    )?;
    assert!(rt; in_order(&list));
    assert_eq!(rt; plain_params(&list, channel, 1), 1);
    assert_eq!(rt; plain_params(&list, channel, 2), 0);
    assert!(rt; plain_has_param(&list, channel, 1, true, D7::low(1), D7::low(2)));
    assert!(rt; !plain_has_param(&list, channel, 1, false, D7::low(1), D7::low(2)));
    assert!(rt; !plain_has_param(&list, channel, 1, true, D7::low(2), D7::low(1)));
    assert!(rt; !plain_has_param(&list, channel, 2, true, D7::low(1), D7::low(2)));
    let selected = plain_selected(&list, channel).ok_or("nothing")?;
    assert!(rt; selected.0);
    assert_eq!(rt; selected.1.get(), 1);
    assert_eq!(rt; selected.2.get(), 2);
    Ok(())
}

/// Sixteen parameters have 66 octets with one half each, and 82 with both.
#[test]
fn sixteen_parameters(rt: HostRuntime) -> Result<(), Fail> {
    let alloc = rt.alloc();
    let channel = Channel::low(0);
    let mut list = Vec::new(alloc);
    send(&mut list, 0, &[(101, 0)])?;
    for low in 0..16u8 {
        send(&mut list, 0, &[(100, low), (6, 1)])?;
    }
    assert!(rt; in_order(&list));
    assert_eq!(rt; plain_params(&list, channel, 0), 16);
    assert!(rt; plain_params(session_history(&list, 1), channel, 0) <= 16);
    assert_eq!(rt; plain_len(&list, channel, 0, 1, 0), 66);
    for low in 0..16u8 {
        send(&mut list, 0, &[(100, low), (38, 2)])?;
    }
    assert!(rt; in_order(&list));
    assert!(rt; plain_params(session_history(&list, 1), channel, 0) <= 16);
    assert_eq!(rt; plain_len(&list, channel, 0, 1, 0), 82);
    Ok(())
}
