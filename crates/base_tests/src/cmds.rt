use jm_cmds::*;
use jm_wire::behind;
use std::alloc::Global;
use std::test::Fail;

/// The fault that reading these octets shows, or none.
fn fault_of(octets: &[u8], alloc: Global) -> Option<CmdFault> {
    match read_command(octets, alloc) {
        Err(ReadError::Fault(fault)) => Some(fault),
        _ => None,
    }
}

#[test]
fn a_message_is_read_to_its_end(rt: HostRuntime) -> Result<(), Fail> {
    let octets = [0xf0, 1, 2, 3, 0xf7, 0];
    let (command, size) = read_command(&octets, rt.alloc())?;
    assert_eq!(rt; size, 5);
    assert_eq!(rt;
        command,
        Command::Sysex(Sysex::new(&[1, 2, 3], rt.alloc())?)
    );
    let copied = command.copy(rt.alloc())?;
    assert_eq!(rt; copied, command);
    Ok(())
}

#[test]
fn an_empty_message_is_one(rt: HostRuntime) -> Result<(), Fail> {
    let (command, size) = read_command(&[0xf0, 0xf7], rt.alloc())?;
    assert_eq!(rt; size, 2);
    assert_eq!(rt; command.size(), 2);
    Ok(())
}

/// So many data octets.
fn ones(count: usize, alloc: Global) -> Result<Vec<u8>, Fail> {
    let mut octets = Vec::new(alloc);
    octets.resize(count, 1)?;
    Ok(octets)
}

#[test]
fn a_message_of_65537_data_octets_is_too_long(rt: HostRuntime) -> Result<(), Fail> {
    let octets = ones(65_537, rt.alloc())?;
    let made = Sysex::new(octets.as_slice(), rt.alloc());
    let fault = match made {
        Err(ReadError::Fault(fault)) => Some(fault),
        _ => None,
    };
    assert_eq!(rt; fault, Some(SysexFault::TooLong { len: 65_537 }));
    Ok(())
}

/// A message of 2,046 data octets fits into a packet, and one of 2,047 is long. So is its command, and no other one is.
#[test]
fn messages_are_long_from_2047_on(rt: HostRuntime) -> Result<(), Fail> {
    let octets = ones(2_047, rt.alloc())?;
    let whole = Sysex::new(
        &octets.as_slice()[..octets.len().saturating_sub(1)],
        rt.alloc(),
    )?;
    let long = Sysex::new(octets.as_slice(), rt.alloc())?;
    assert_eq!(rt; (whole.is_long(), long.is_long()), (false, true));
    let whole = Command::Sysex(whole);
    let long = Command::Sysex(long);
    assert_eq!(rt; (whole.is_long(), long.is_long()), (false, true));
    assert_eq!(rt; (whole.size(), long.size()), (2_048, 2_049));
    assert!(rt; !Command::Clock.is_long());
    Ok(())
}

#[test]
fn a_message_is_appended(rt: HostRuntime) -> Result<(), Fail> {
    let mut message = Sysex::new(&[1, 2], rt.alloc())?;
    let other = Sysex::new(&[3], rt.alloc())?;
    assert!(rt; message.len() + other.len() <= Sysex::MOST);
    message.append(&other)?;
    assert_eq!(rt; message, Sysex::new(&[1, 2, 3], rt.alloc())?);
    Ok(())
}

#[test]
fn marked_octets_give_their_message(rt: HostRuntime) -> Result<(), Fail> {
    let marked = Sysex::of_marked(&[0x7e, 0x7f, 9, 0x81], rt.alloc())?;
    assert_eq!(rt; marked, Sysex::new(&[0x7e, 0x7f, 9, 1], rt.alloc())?);
    let empty = Sysex::of_marked(&[], rt.alloc())?;
    assert_eq!(rt; empty.len(), 0);
    Ok(())
}

/// The commands that these octets spell, one behind the other, all in packet 0.
fn session_of(octets: &[u8], alloc: Global) -> Result<Vec<Sent>, Fail> {
    let mut session = Vec::new(alloc);
    let mut rest = octets;
    for _ in 0..octets.len() {
        if rest.is_empty() {
            break;
        }
        let (command, size) = read_command(rest, alloc)?;
        session.push(Sent {
            packet: 0,
            tick: 0,
            command,
        })?;
        rest = behind(rest, size);
    }
    Ok(session)
}

/// Each kind of fault at each place where it can be.
#[test]
fn octets_are_refused_for_what_they_show(rt: HostRuntime) -> Result<(), Fail> {
    let cases: [(&[u8], CmdFault); 24] = [
        (&[], CmdFault::Empty),
        (&[0x7f], CmdFault::DataOctet),
        (&[0xf4], CmdFault::BadStatus(0xf4)),
        (&[0xf5], CmdFault::BadStatus(0xf5)),
        (&[0xf7], CmdFault::BadStatus(0xf7)),
        (&[0xf9], CmdFault::BadStatus(0xf9)),
        (&[0xfd], CmdFault::BadStatus(0xfd)),
        (&[0x80, 0x3c], CmdFault::Short),
        (&[0x80, 0x80], CmdFault::BadData(1)),
        (&[0x80, 0x3c, 0x80], CmdFault::BadData(2)),
        (&[0xc0], CmdFault::Short),
        (&[0xc0, 0x80], CmdFault::BadData(1)),
        (&[0xd1], CmdFault::Short),
        (&[0xe3, 0], CmdFault::Short),
        (&[0xe3, 1, 0x80], CmdFault::BadData(2)),
        (&[0xf1], CmdFault::Short),
        (&[0xf1, 0x80], CmdFault::BadData(1)),
        (&[0xf2, 0], CmdFault::Short),
        (&[0xf2, 0, 0xff], CmdFault::BadData(2)),
        (&[0xf3, 0xf8], CmdFault::BadData(1)),
        (&[0xf0, 1], CmdFault::Short),
        (&[0xf0, 1, 0xf4], CmdFault::BadData(2)),
        (&[0xf0, 0xf0], CmdFault::BadData(1)),
        (&[0xb0, 7, 0x82], CmdFault::BadData(2)),
    ];
    for (octets, fault) in cases {
        assert_eq!(rt; fault_of(octets, rt.alloc()), Some(fault));
    }
    Ok(())
}

/// F0, so many data octets, and this octet.
fn message_of(count: usize, last: u8, alloc: Global) -> Result<Vec<u8>, Fail> {
    let mut octets = Vec::new(alloc);
    octets.push(0xf0)?;
    octets.extend_from_slice(ones(count, alloc)?.as_slice())?;
    octets.push(last)?;
    Ok(octets)
}

/// A message of 65,536 data octets is one, and with one more it isn't, whatever follows.
#[test]
fn a_message_has_at_most_65536_data_octets(rt: HostRuntime) -> Result<(), Fail> {
    let whole = message_of(65_536, 0xf7, rt.alloc())?;
    let (command, size) = read_command(whole.as_slice(), rt.alloc())?;
    assert_eq!(rt; (command.size(), size), (65_538, 65_538));
    let cases = [
        (65_535, 1, CmdFault::Short),
        (65_536, 0xf4, CmdFault::BadData(65_537)),
        (65_537, 0xf7, CmdFault::TooLong),
        (65_537, 0xf4, CmdFault::TooLong),
        (65_536, 1, CmdFault::TooLong),
    ];
    for (count, last, fault) in cases {
        let octets = message_of(count, last, rt.alloc())?;
        assert_eq!(rt; fault_of(octets.as_slice(), rt.alloc()), Some(fault));
    }
    Ok(())
}

/// The two messages that turn General MIDI on, for any device, and System Reset, and no others.
#[test]
fn three_commands_reset(rt: HostRuntime) -> Result<(), Fail> {
    let cases: [(&[u8], bool); 9] = [
        (&[0xff], true),
        (&[0xf0, 0x7e, 0x7f, 9, 1, 0xf7], true),
        (&[0xf0, 0x7e, 0, 9, 3, 0xf7], true),
        (&[0xf0, 0x7e, 0x7f, 9, 2, 0xf7], false),
        (&[0xf0, 0x7e, 0x7f, 9, 0, 0xf7], false),
        (&[0xf0, 0x7f, 0x7f, 9, 1, 0xf7], false),
        (&[0xf0, 0x7e, 0x7f, 9, 1, 0, 0xf7], false),
        (&[0xf0, 0x7e, 0x7f, 10, 1, 0xf7], false),
        (&[0xb0, 121, 0], false),
    ];
    for (octets, resets) in cases {
        let (command, _) = read_command(octets, rt.alloc())?;
        assert_eq!(rt; command.is_reset(), resets);
    }
    Ok(())
}

/// The controllers that end notes or controllers, enter values, and are counted.
#[test]
fn controllers_by_their_numbers(rt: HostRuntime) {
    for octet in 0..128u8 {
        let number = D7::low(octet);
        let kind = ControlKind::of(number);
        assert_eq!(rt;
            kind.clears_notes(),
            [120, 123, 124, 125, 126, 127].contains(&octet)
        );
        assert_eq!(rt; kind.clears_controllers(), octet == 121);
        assert_eq!(rt; is_entry(number), [6, 38].contains(&octet));
        assert_eq!(rt;
            is_counted(number),
            [96, 97, 120, 121, 123].contains(&octet)
        );
        assert_eq!(rt; kind == ControlKind::Pedal, octet == 64);
    }
}

/// The song position behind some commands, each case of which a step has.
#[test]
fn song_positions(rt: HostRuntime) -> Result<(), Fail> {
    let at = |running, downbeat, position| {
        Some(SequencerPart {
            running,
            downbeat,
            position,
        })
    };
    let cases: [(&[u8], Option<SequencerPart>); 11] = [
        (&[0x90, 1, 1], None),
        (&[0xf8], at(false, false, 0)),
        (&[0xfa, 0xf8, 0xfc, 0xf8], at(false, false, 0)),
        (&[0xfa, 0xf8, 0xf8, 0xfc], at(false, false, 1)),
        (&[0xfa, 0xf8, 0xfb], at(true, false, 0)),
        (&[0xf2, 2, 0, 0xfc], at(false, false, 12)),
        (&[0xfa, 0xf8, 0xf8, 0xf2, 2, 0], at(true, true, 12)),
        (&[0xf2, 0x7f, 0x7f, 0xfb, 0xf8, 0xf8], at(true, true, 98299)),
        (&[0xfa, 0xf8, 0xff], None),
        (&[0xfa, 0xf8, 0xf0, 0x7e, 0, 9, 1, 0xf7], None),
        (&[0xfa, 0xf0, 0x7e, 0, 9, 2, 0xf7], at(true, false, 0)),
    ];
    for (octets, position) in cases {
        let session = session_of(octets, rt.alloc())?;
        assert_eq!(rt; sequencer_after(&session), position);
    }
    Ok(())
}

/// Quarter frames with these values, and then with some more, all in packet 0.
fn frames_of(values: &[u8], more: &[u8], alloc: Global) -> Result<Vec<Sent>, Fail> {
    let mut session = Vec::new(alloc);
    for value in values.iter().chain(more) {
        session.push(Sent {
            packet: 0,
            tick: 0,
            command: Command::QuarterFrame {
                value: D7::low(*value),
            },
        })?;
    }
    Ok(session)
}

/// The time code behind quarter frames with these values: those that go on, begin anew, and take the word away.
#[test]
fn time_codes(rt: HostRuntime) -> Result<(), Fail> {
    let forward: [u8; 8] = [0x01, 0x12, 0x23, 0x34, 0x45, 0x56, 0x67, 0x78];
    let backward: [u8; 8] = [0x78, 0x67, 0x56, 0x45, 0x34, 0x23, 0x12, 0x01];
    let whole = Some(0x1234_5678);
    let cases: [(&[u8], &[u8], Option<u32>, Option<u32>, bool, u8); 12] = [
        (&[0x00], &[], None, Some(0), false, 0),
        (&[0x0a, 0x1b], &[], None, Some(0xab00_0000), false, 1),
        (&[0x0a, 0x1b, 0x3c], &[], None, None, false, 7),
        (&forward, &[], whole, None, false, 7),
        (&backward, &[], whole, None, true, 0),
        (&[0x75], &[], None, Some(5), true, 7),
        (&[0x75, 0x64, 0x53, 0x11], &[], None, None, true, 0),
        (&[0x31], &[], None, None, false, 7),
        (&forward, &[0x75], whole, Some(5), true, 7),
        (&forward, &[0x05, 0x7a, 0x61, 0x13], whole, None, true, 0),
        (&[0x0a, 0x7b], &[], None, Some(0xb), true, 7),
        (&[0x0a, 0x1b, 0x2c, 0x2d], &[], None, None, false, 7),
    ];
    for (values, more, complete, partial, backward, point) in cases {
        let code = time_code_after(&frames_of(values, more, rt.alloc())?);
        assert_eq!(rt;
            code,
            Some(TimePart {
                complete,
                partial,
                backward,
                point
            })
        );
    }
    Ok(())
}

/// So many Controls 64 of channel 0, each of which moves the pedal.
fn moved(times: u8, alloc: Global) -> Result<Vec<Sent>, Fail> {
    let mut session = Vec::new(alloc);
    for step in 0..times {
        session.push(Sent {
            packet: 0,
            tick: 0,
            command: Command::Control {
                channel: Channel::low(0),
                number: D7::low(64),
                value: D7::low(127 - 127 * (step % 2)),
            },
        })?;
    }
    Ok(session)
}

/// The pedal of channel 0 behind some commands: whether it is down, and how often it was moved.
#[test]
fn pedals(rt: HostRuntime) -> Result<(), Fail> {
    let cases: [(&[u8], bool, u8); 8] = [
        (&[0xb0, 64, 127, 0xb0, 64, 0, 0xb0, 64, 127], true, 3),
        (&[0xb0, 64, 64, 0xb0, 64, 63], false, 2),
        (&[0xb0, 64, 63], false, 0),
        (&[0xb0, 64, 127, 0xb0, 121, 0, 0xb0, 64, 127], true, 1),
        (&[0xb0, 64, 127, 0xb1, 64, 127, 0xb0, 64, 64], true, 1),
        (&[0xb0, 64, 127, 0xb1, 121, 0], true, 1),
        (&[0xb0, 64, 127, 0xff], false, 0),
        (&[0xb0, 64, 127, 0xf0, 0x7e, 0x7f, 9, 3, 0xf7], false, 0),
    ];
    for (octets, on, toggles) in cases {
        let session = session_of(octets, rt.alloc())?;
        assert_eq!(rt;
            pedal_after(&session, Channel::low(0)),
            Pedal { on, toggles }
        );
    }
    let often = pedal_after(&moved(65, rt.alloc())?, Channel::low(0));
    assert_eq!(rt;
        often,
        Pedal {
            on: true,
            toggles: 1
        }
    );
    Ok(())
}

/// What is selected in channel 0, of which each half is told by one controller.
#[test]
fn selections(rt: HostRuntime) -> Result<(), Fail> {
    let cases: [(&[u8], Option<(bool, u8, u8)>); 8] = [
        (&[0xb0, 101, 1], None),
        (&[0xb0, 101, 1, 0xb0, 100, 2], Some((false, 1, 2))),
        (&[0xb0, 99, 3, 0xb0, 98, 4], Some((true, 3, 4))),
        (&[0xb0, 101, 1, 0xb0, 100, 2, 0xb0, 99, 3], None),
        (&[0xb0, 101, 127, 0xb0, 100, 127], None),
        (&[0xb0, 99, 127, 0xb0, 98, 126], Some((true, 127, 126))),
        (&[0xb0, 101, 1, 0xb0, 100, 2, 0xb0, 121, 0], None),
        (
            &[0xb0, 101, 1, 0xb1, 100, 5, 0xb0, 100, 2, 0xb1, 121, 0],
            Some((false, 1, 2)),
        ),
    ];
    for (octets, numbers) in cases {
        let session = session_of(octets, rt.alloc())?;
        let mut selection = Selection::none();
        for place in &session {
            selection = selection.after(param_command(&place.command, Channel::low(0)));
        }
        let param = numbers.map(|(nrpn, high, low)| Param {
            nrpn,
            high: D7::low(high),
            low: D7::low(low),
        });
        assert_eq!(rt; selection.selected(), param);
    }
    Ok(())
}

/// A message of 254 data octets is kept for repair, and one of 255 isn't.
#[test]
fn messages_are_kept_up_to_254(rt: HostRuntime) -> Result<(), Fail> {
    let octets = [1u8; 255];
    assert!(rt; Sysex::new(&octets[..254], rt.alloc())?.is_kept());
    assert!(rt; !Sysex::new(&octets, rt.alloc())?.is_kept());
    Ok(())
}
