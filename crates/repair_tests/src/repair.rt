//! What a receiver hears of a journal, by octets: each kind of log, the order in which repair takes them, and what is handed on
//! and what isn't.

use jm_cmds::{Channel, D7, ReadError, SequencerPart, TimePart, read_command};
use jm_receiver::{AcceptFault, HeardKind, Receiver, Took};
use std::alloc::{AllocError, Global};
use std::process::Abort;
use std::test::Fail;

const SSRC: u32 = 0x1122_3344;

/// A packet of the stream with these octets as its list of commands, and this journal, none where it is empty.
fn packet(number: u16, list: &[u8], journal: &[u8], alloc: Global) -> Result<Vec<u8>, AllocError> {
    let [high, low] = number.to_be_bytes();
    let flags = if journal.is_empty() { 0x80 } else { 0xc0 };
    let mut octets = Vec::new(alloc);
    octets.extend_from_slice(&[0x80, 0x61, high, low, 0, 0, 0, 7, 0x11, 0x22, 0x33, 0x44])?;
    octets.extend_from_slice(&[flags, (list.len() % 256) as u8])?;
    octets.extend_from_slice(list)?;
    octets.extend_from_slice(journal)?;
    Ok(octets)
}

/// Checks what was heard: the kind and the command's octets of each.
fn check_heard<R: Abort>(
    rt: &R,
    took: &Took,
    expected: &[(HeardKind, &[u8])],
    alloc: Global,
) -> Result<(), Fail> {
    assert_eq!(rt; took.heard.len(), expected.len());
    for (heard, (kind, octets)) in took.heard.as_slice().iter().zip(expected) {
        let (command, _size) = read_command(octets, alloc)?;
        assert_eq!(rt; heard.kind, *kind);
        assert_eq!(rt; heard.command, command);
    }
    Ok(())
}

/// A receiver that took packet 0 with these commands.
fn after(list: &[u8], alloc: Global) -> Result<Receiver, Fail> {
    let mut receiver = Receiver::new(SSRC, alloc)?;
    let octets = packet(0, list, &[], alloc)?;
    let _took = receiver.accept(octets.as_slice())?;
    Ok(receiver)
}

/// Checks what a receiver hears of packet 3 with this journal, where packets 1 and 2 were lost: these commands.
fn check<R: Abort>(
    rt: &R,
    list: &[u8],
    journal: &[u8],
    expected: &[u8],
    alloc: Global,
) -> Result<Receiver, Fail> {
    let mut receiver = after(list, alloc)?;
    let octets = packet(3, &[], journal, alloc)?;
    let took = receiver.accept(octets.as_slice())?;
    let mut rest = expected;
    for heard in took.heard.as_slice() {
        let (command, used) = read_command(rest, alloc)?;
        assert_eq!(rt; heard.command, command);
        rest = match rest.get(used..) {
            Some(later) => later,
            None => &[],
        };
    }
    assert!(rt; rest.is_empty());
    Ok(receiver)
}

/// All chapters, of which Chapters Q, F and E hand on nothing. The channels fall in the journal, and repair takes them
/// ascending.
#[test]
fn logs_are_taken_in_order(rt: HostRuntime) -> Result<(), Fail> {
    let journal = [
        0x61, 0x00, 0x00, // the journal's header
        0x7c, 0x19, 0x70, 0x01, 0x02, 0x03, 0x05, 0xf1, 0x02, 0x03, 0x7b, 0x01, 0x02, 0x03, 0x04,
        0x10, 0x00, 0x00, 0x00, 0x27, 0x09, 0x2f, 0x0a, 0x11, 0x92, // D V Q F X
        0x18, 0x26, 0xff, 0x05, 0x81, 0x02, // P
        0x03, 0x07, 0x64, 0x7b, 0xc1, 0x61, 0xc1, 0x00, 0x09, // C
        0x00, 0x07, 0x01, 0x82, 0xc2, 0x03, 0x04, // M
        0x01, 0x40, 0x02, 0x77, 0x3c, 0xe4, 0x3d, 0x14, 0x81, // W N
        0x00, 0x3c, 0x02, 0x20, 0x00, 0x0a, 0x14, // E T A
        0x08, 0x04, 0x02, 0x21, // another channel
    ];
    let expected: [(HeardKind, &[u8]); 18] = [
        (HeardKind::Repaired, &[0xf0, 0xf7]),
        (HeardKind::Repaired, &[0xf0, 0x11, 0x12, 0xf7]),
        (HeardKind::Repaired, &[0xf3, 0x03]),
        (HeardKind::Repaired, &[0xd1, 0x21]),
        (HeardKind::Repaired, &[0xb3, 0x00, 0x01]),
        (HeardKind::Repaired, &[0xb3, 0x20, 0x02]),
        (HeardKind::Repaired, &[0xc3, 0x05]),
        (HeardKind::Repaired, &[0xb3, 0x63, 0x02]),
        (HeardKind::Repaired, &[0xb3, 0x62, 0x01]),
        (HeardKind::Repaired, &[0xb3, 0x06, 0x03]),
        (HeardKind::Repaired, &[0xb3, 0x26, 0x04]),
        (HeardKind::Repaired, &[0xb3, 0x07, 0x64]),
        (HeardKind::Repaired, &[0xb3, 0x00, 0x09]),
        (HeardKind::Repaired, &[0xe3, 0x01, 0x40]),
        (HeardKind::Repaired, &[0x93, 0x3c, 0x64]),
        (HeardKind::Late, &[0x93, 0x3d, 0x14]),
        (HeardKind::Repaired, &[0xd3, 0x20]),
        (HeardKind::Repaired, &[0xa3, 0x0a, 0x14]),
    ];
    let alloc = rt.alloc();
    let octets = packet(1, &[], &journal, alloc)?;
    let mut receiver = Receiver::new(SSRC, alloc)?;
    let took = receiver.accept(octets.as_slice())?;
    check_heard(&rt, &took, &expected, alloc)
}

/// Messages that the state still has to count: those 1 to 128 ahead of its number, and all where a reset is in the journal.
#[test]
fn messages_that_are_missed(rt: HostRuntime) -> Result<(), Fail> {
    let alloc = rt.alloc();
    // 0, 127, 128 and 129 ahead of 1
    let one = check(
        &rt,
        &[0xf0, 0x7d, 0x01, 0xf7],
        &[
            0x40, 0x00, 0x00, 0x04, 0x12, 0x2f, 0x01, 0x7d, 0x81, 0x2f, 0x80, 0x01, 0xff, 0x2f,
            0x81, 0x02, 0xff, 0x2f, 0x82, 0x03, 0xff,
        ],
        &[0xf0, 0x01, 0x7f, 0xf7, 0xf0, 0x02, 0x7f, 0xf7],
        alloc,
    )?;
    assert_eq!(rt; one.state().sysex_count(), 3);
    // 255, 0, 1, 128 and 129 ahead of none
    let none = check(
        &rt,
        &[],
        &[
            0x40, 0x00, 0x00, 0x04, 0x16, 0x2f, 0xff, 0x01, 0xff, 0x2f, 0x00, 0x7d, 0x81, 0x2f,
            0x01, 0x7d, 0x82, 0x2f, 0x80, 0x01, 0xff, 0x2f, 0x81, 0x02, 0xff,
        ],
        &[0xf0, 0x7d, 0x02, 0xf7, 0xf0, 0x01, 0x7f, 0xf7],
        alloc,
    )?;
    assert_eq!(rt; none.state().sysex_count(), 2);
    Ok(())
}

/// All messages count behind one that resets. One with 09 02 is a plain one here.
#[test]
fn messages_behind_a_reset(rt: HostRuntime) -> Result<(), Fail> {
    let alloc = rt.alloc();
    let reset = check(
        &rt,
        &[0x90, 0x3c, 0x64, 0x00, 0xf0, 0x7d, 0x01, 0xf7],
        &[
            0x40, 0x00, 0x00, 0x04, 0x12, 0x2f, 0x00, 0x7e, 0x7f, 0x09, 0x81, 0x2f, 0x01, 0x7d,
            0x82, 0x2f, 0x01, 0x7e, 0x00, 0x09, 0x82,
        ],
        &[
            0xf0, 0x7e, 0x7f, 0x09, 0x01, 0xf7, 0xf0, 0x7d, 0x02, 0xf7, 0xf0, 0x7e, 0x00, 0x09,
            0x02, 0xf7,
        ],
        alloc,
    )?;
    assert_eq!(rt; reset.state().sysex_count(), 2);
    Ok(())
}

/// A System Reset, of a state that has something and of one that has nothing.
#[test]
fn resets_are_handed_on(rt: HostRuntime) -> Result<(), Fail> {
    let alloc = rt.alloc();
    let full = check(
        &rt,
        &[0x90, 0x3c, 0x64, 0x00, 0xf0, 0x7d, 0x01, 0xf7],
        &[
            0x40, 0x00, 0x00, 0x44, 0x08, 0x40, 0x01, 0x2f, 0xc8, 0x7d, 0x82,
        ],
        &[0xff, 0xf0, 0x7d, 0x02, 0xf7],
        alloc,
    )?;
    assert_eq!(rt; full.state().sysex_count(), 1);
    assert_eq!(rt; full.state().note(Channel::low(0), D7::low(60)), None);
    let _after = check(
        &rt,
        &[],
        &[0x40, 0x00, 0x00, 0x40, 0x04, 0x40, 0x01],
        &[],
        alloc,
    )?;
    Ok(())
}

/// A program with and without a bank, over other programs and banks.
#[test]
fn programs_are_handed_on(rt: HostRuntime) -> Result<(), Fail> {
    let alloc = rt.alloc();
    // the same
    let _after = check(
        &rt,
        &[0xb0, 0x00, 0x05, 0x00, 0xb0, 0x20, 0x06, 0x00, 0xc0, 0x07],
        &[0x20, 0x00, 0x00, 0x00, 0x06, 0x80, 0x07, 0x85, 0x06],
        &[],
        alloc,
    )?;
    // Control 32 is as in the bank; another; absent, which counts as 0
    let _after = check(
        &rt,
        &[0xb0, 0x20, 0x06, 0x00, 0xc0, 0x07],
        &[0x20, 0x00, 0x00, 0x00, 0x06, 0x80, 0x07, 0x85, 0x06],
        &[0xb0, 0x00, 0x05, 0xc0, 0x07],
        alloc,
    )?;
    let _after = check(
        &rt,
        &[0xb0, 0x20, 0x06, 0x00, 0xc0, 0x07],
        &[0x20, 0x00, 0x00, 0x00, 0x06, 0x80, 0x07, 0x85, 0x07],
        &[0xb0, 0x00, 0x05, 0xb0, 0x20, 0x07, 0xc0, 0x07],
        alloc,
    )?;
    let _after = check(
        &rt,
        &[],
        &[0x20, 0x00, 0x00, 0x00, 0x06, 0x80, 0x07, 0x85, 0x00],
        &[0xb0, 0x00, 0x05, 0xc0, 0x07],
        alloc,
    )?;
    Ok(())
}

/// A program without a bank, and one with another bank, where the channel has the program with a bank.
#[test]
fn banks_are_handed_on(rt: HostRuntime) -> Result<(), Fail> {
    let alloc = rt.alloc();
    let _after = check(
        &rt,
        &[0xb0, 0x00, 0x05, 0x00, 0xc0, 0x07],
        &[0x20, 0x00, 0x00, 0x00, 0x06, 0x80, 0x07, 0x00, 0x00],
        &[0xc0, 0x07],
        alloc,
    )?;
    let _after = check(
        &rt,
        &[0xb0, 0x00, 0x05, 0x00, 0xc0, 0x07],
        &[0x20, 0x00, 0x00, 0x00, 0x06, 0x80, 0x07, 0x86, 0x00],
        &[0xb0, 0x00, 0x06, 0xc0, 0x07],
        alloc,
    )?;
    Ok(())
}

/// Parameters: the same halves, none, and two parameters where nothing is selected.
#[test]
fn parameters_are_handed_on(rt: HostRuntime) -> Result<(), Fail> {
    let alloc = rt.alloc();
    let _after = check(
        &rt,
        &[
            0xb0, 0x63, 0x01, 0x00, 0xb0, 0x62, 0x02, 0x00, 0xb0, 0x06, 0x03, 0x00, 0xb0, 0x26,
            0x04,
        ],
        &[
            0x20, 0x00, 0x00, 0x00, 0x09, 0x20, 0x00, 0x06, 0x02, 0x81, 0x82, 0x03,
        ],
        &[],
        alloc,
    )?;
    let _after = check(
        &rt,
        &[],
        &[
            0x20, 0x00, 0x00, 0x00, 0x08, 0x20, 0x00, 0x05, 0x02, 0x81, 0x02,
        ],
        &[],
        alloc,
    )?;
    let _after = check(
        &rt,
        &[],
        &[
            0x20, 0x00, 0x00, 0x00, 0x0d, 0x20, 0x00, 0x0a, 0x02, 0x81, 0x42, 0x05, 0x03, 0x04,
            0x82, 0x06,
        ],
        &[
            0xb0, 0x63, 0x01, 0xb0, 0x62, 0x02, 0xb0, 0x26, 0x05, 0xb0, 0x65, 0x04, 0xb0, 0x64,
            0x03, 0xb0, 0x06, 0x06,
        ],
        alloc,
    )?;
    Ok(())
}

/// The selection of the repaired state follows after parameters.
#[test]
fn a_selection_follows_parameters(rt: HostRuntime) -> Result<(), Fail> {
    let alloc = rt.alloc();
    let _after = check(
        &rt,
        &[
            0xb0, 0x63, 0x01, 0x00, 0xb0, 0x62, 0x02, 0x00, 0xb0, 0x06, 0x03, 0x00, 0xb0, 0x26,
            0x04,
        ],
        &[
            0x20, 0x00, 0x00, 0x00, 0x0a, 0x20, 0x00, 0x07, 0x02, 0x81, 0xc2, 0x03, 0x05,
        ],
        &[
            0xb0, 0x63, 0x01, 0xb0, 0x62, 0x02, 0xb0, 0x06, 0x03, 0xb0, 0x26, 0x05, 0xb0, 0x63,
            0x01, 0xb0, 0x62, 0x02,
        ],
        alloc,
    )?;
    Ok(())
}

/// Chapter C selects a registered parameter; a non-registered one.
#[test]
fn the_selected_kind_comes_last(rt: HostRuntime) -> Result<(), Fail> {
    let alloc = rt.alloc();
    let _after = check(
        &rt,
        &[0xb0, 0x65, 0x03, 0x00, 0xb0, 0x64, 0x04],
        &[
            0x20, 0x00, 0x00, 0x00, 0x0f, 0x60, 0x01, 0x63, 0x01, 0x65, 0x05, 0x00, 0x07, 0x02,
            0x81, 0xc2, 0x03, 0x05,
        ],
        &[
            0xb0, 0x63, 0x01, 0xb0, 0x62, 0x02, 0xb0, 0x06, 0x03, 0xb0, 0x26, 0x05, 0xb0, 0x65,
            0x05, 0xb0, 0x63, 0x01, 0xb0, 0x65, 0x05, 0xb0, 0x64, 0x04,
        ],
        alloc,
    )?;
    let _after = check(
        &rt,
        &[0xb0, 0x65, 0x03, 0x00, 0xb0, 0x64, 0x04],
        &[
            0x20, 0x00, 0x00, 0x00, 0x0e, 0x60, 0x01, 0x64, 0x06, 0x63, 0x01, 0x00, 0x06, 0x02,
            0x01, 0x42, 0x05,
        ],
        &[
            0xb0, 0x65, 0x01, 0xb0, 0x64, 0x02, 0xb0, 0x26, 0x05, 0xb0, 0x64, 0x06, 0xb0, 0x63,
            0x01, 0xb0, 0x65, 0x03, 0xb0, 0x64, 0x06, 0xb0, 0x63, 0x01,
        ],
        alloc,
    )?;
    Ok(())
}

/// Controllers that are counted stand for their command with value 0, before the notes.
#[test]
fn counted_controllers(rt: HostRuntime) -> Result<(), Fail> {
    let alloc = rt.alloc();
    let _after = check(
        &rt,
        &[0x90, 0x3c, 0x64, 0x00, 0x90, 0x3d, 0x64],
        &[
            0x20, 0x00, 0x00, 0x00, 0x0b, 0x48, 0x00, 0x7b, 0xc1, 0x01, 0x70, 0x3d, 0x9e, 0x04,
        ],
        &[0xb0, 0x7b, 0x00, 0x90, 0x3d, 0x1e],
        alloc,
    )?;
    // nothing to end
    let _after = check(
        &rt,
        &[],
        &[
            0x20, 0x00, 0x00, 0x00, 0x10, 0x48, 0x03, 0x7b, 0xc1, 0x60, 0xc1, 0x61, 0xc2, 0x79,
            0xc3, 0x01, 0xf0, 0x3c, 0xe4,
        ],
        &[0x90, 0x3c, 0x64],
        alloc,
    )?;
    let _after = check(
        &rt,
        &[0xb0, 0x07, 0x05, 0x00, 0xd0, 0x05],
        &[0x20, 0x00, 0x00, 0x00, 0x06, 0x40, 0x00, 0x79, 0xc1],
        &[0xb0, 0x79, 0x00],
        alloc,
    )?;
    Ok(())
}

/// A note that does not sound; struck notes, of which the first has velocity 0; Chapter E alone.
#[test]
fn notes_are_handed_on(rt: HostRuntime) -> Result<(), Fail> {
    let alloc = rt.alloc();
    let _after = check(
        &rt,
        &[],
        &[0x20, 0x00, 0x00, 0x00, 0x06, 0x08, 0x00, 0x77, 0x80],
        &[],
        alloc,
    )?;
    let _after = check(
        &rt,
        &[0x90, 0x3c, 0x64],
        &[
            0x20, 0x00, 0x00, 0x00, 0x0b, 0x08, 0x03, 0xf0, 0x3c, 0x80, 0x3d, 0x64, 0x3e, 0xe4,
        ],
        &[0x90, 0x3c, 0x00, 0x90, 0x3d, 0x64, 0x90, 0x3e, 0x64],
        alloc,
    )?;
    let _after = check(
        &rt,
        &[0x90, 0x3c, 0x64],
        &[
            0x20, 0x00, 0x00, 0x00, 0x08, 0x04, 0x01, 0x3c, 0x05, 0x3c, 0x82,
        ],
        &[],
        alloc,
    )?;
    Ok(())
}

/// The wheel and pressures, as they are and otherwise.
#[test]
fn values_that_are_there(rt: HostRuntime) -> Result<(), Fail> {
    let alloc = rt.alloc();
    let _after = check(
        &rt,
        &[0xe0, 0x01, 0x40, 0x00, 0xd0, 0x20, 0x00, 0xa0, 0x0a, 0x14],
        &[
            0x20, 0x00, 0x00, 0x00, 0x09, 0x13, 0x01, 0x40, 0x20, 0x00, 0x0a, 0x14,
        ],
        &[],
        alloc,
    )?;
    let _after = check(
        &rt,
        &[0xe0, 0x01, 0x41, 0x00, 0xd0, 0x21, 0x00, 0xa0, 0x0a, 0x15],
        &[
            0x20, 0x00, 0x00, 0x00, 0x09, 0x13, 0x01, 0x40, 0x20, 0x00, 0x0a, 0x14,
        ],
        &[0xe0, 0x01, 0x40, 0xd0, 0x20, 0xa0, 0x0a, 0x14],
        alloc,
    )?;
    Ok(())
}

/// The song, as it is and otherwise. The song position and the time code are set, and nothing of them is handed on.
#[test]
fn songs_are_handed_on(rt: HostRuntime) -> Result<(), Fail> {
    let alloc = rt.alloc();
    let _after = check(
        &rt,
        &[0xf3, 0x05],
        &[
            0x40, 0x00, 0x00, 0x58, 0x09, 0x30, 0x01, 0x05, 0xc1, 0x02, 0x03, 0x14,
        ],
        &[],
        alloc,
    )?;
    let receiver = check(
        &rt,
        &[0xf3, 0x06],
        &[
            0x40, 0x00, 0x00, 0x58, 0x09, 0x30, 0x01, 0x05, 0x71, 0x02, 0x03, 0x14,
        ],
        &[0xf3, 0x05],
        alloc,
    )?;
    let part = SequencerPart {
        running: true,
        downbeat: true,
        position: 66_051,
    };
    assert_eq!(rt; receiver.state().sequencer(), Some(part));
    let code = TimePart {
        complete: None,
        partial: None,
        backward: false,
        point: 4,
    };
    assert_eq!(rt; receiver.state().time_code(), Some(code));
    Ok(())
}

/// The toggles of the sustain pedal are set in their place among the controllers, and hand on nothing.
#[test]
fn toggles_are_set(rt: HostRuntime) -> Result<(), Fail> {
    let alloc = rt.alloc();
    let channel = Channel::low(0);
    let mut journal = [
        0x20, 0x00, 0x00, 0x00, 0x08, 0x40, 0x01, 0x40, 0x7f, 0x40, 0x83,
    ];
    let octets = packet(1, &[], &journal, alloc)?;
    let mut first = Receiver::new(SSRC, alloc)?;
    let took = first.accept(octets.as_slice())?;
    check_heard(
        &rt,
        &took,
        &[(HeardKind::Repaired, &[0xb0, 0x40, 0x7f])],
        alloc,
    )?;
    assert_eq!(rt; first.state().toggles(channel), 3);
    assert_eq!(rt;
        first.state().control(channel, D7::low(64)),
        Some(D7::low(127))
    );
    // the pedal went down and up: the log of toggles alone, and Control 121 behind and before it
    let moved = [0xb0, 0x40, 0x7f, 0x00, 0xb0, 0x40, 0x00];
    let alone = [0x20, 0x00, 0x00, 0x00, 0x06, 0x40, 0x00, 0x40, 0x83];
    let set = check(&rt, &moved, &alone, &[], alloc)?;
    assert_eq!(rt; set.state().toggles(channel), 3);
    journal[7..].copy_from_slice(&[0x40, 0x83, 0x79, 0xc1]);
    let dropped = check(&rt, &moved, &journal, &[0xb0, 0x79, 0x00], alloc)?;
    assert_eq!(rt; dropped.state().toggles(channel), 0);
    journal[7..].copy_from_slice(&[0x79, 0xc1, 0x40, 0x83]);
    let kept = check(&rt, &moved, &journal, &[0xb0, 0x79, 0x00], alloc)?;
    assert_eq!(rt; kept.state().toggles(channel), 3);
    Ok(())
}

/// Of a journal with an old note, a fresh one and a fresh pressure: none, the fresh logs and all are used behind no, one
/// and two lost packets. A command of the section comes behind.
#[test]
fn gaps_use_the_journal(rt: HostRuntime) -> Result<(), Fail> {
    let alloc = rt.alloc();
    let journal = [
        0x20, 0x00, 0x00, 0x00, 0x0a, 0x0a, 0x02, 0xf0, 0xbc, 0xe4, 0x3d, 0xe4, 0x21,
    ];
    let heard: [(HeardKind, &[u8]); 4] = [
        (HeardKind::Repaired, &[0x90, 0x3c, 0x64]),
        (HeardKind::Repaired, &[0x90, 0x3d, 0x64]),
        (HeardKind::Repaired, &[0xd0, 0x21]),
        (HeardKind::Sent, &[0xb0, 0x07, 0x01]),
    ];
    for (number, from) in [(1u16, 3usize), (2, 1), (3, 0)] {
        let mut receiver = after(&[], alloc)?;
        let octets = packet(number, &[0xb0, 0x07, 0x01], &journal, alloc)?;
        let took = receiver.accept(octets.as_slice())?;
        check_heard(&rt, &took, &heard[from..], alloc)?;
    }
    Ok(())
}

/// The number of a receiver that took these 16 bits after packet 5: none where they are refused as older.
fn number_after(number: u16, alloc: Global) -> Result<Option<u64>, Fail> {
    let mut receiver = Receiver::new(SSRC, alloc)?;
    let first = packet(5, &[], &[], alloc)?;
    let _first = receiver.accept(first.as_slice())?;
    let octets = packet(number, &[], &[], alloc)?;
    match receiver.accept(octets.as_slice()) {
        Ok(took) => Ok(Some(took.number)),
        Err(ReadError::Fault(AcceptFault::Older { last: 5 })) => Ok(None),
        Err(fault) => Err(fault)?,
    }
}

/// 0, 1, 32,767 and 32,768 ahead of the last, and a number whose 16 bits began again.
#[test]
fn numbers_go_on(rt: HostRuntime) -> Result<(), Fail> {
    let alloc = rt.alloc();
    for (number, taken) in [
        (5u16, None),
        (6, Some(6)),
        (32_772, Some(32_772)),
        (32_773, None),
        (4, None),
    ] {
        assert_eq!(rt; number_after(number, alloc)?, taken);
    }
    let mut receiver = Receiver::new(SSRC, alloc)?;
    let last = packet(65_535, &[], &[], alloc)?;
    let _last = receiver.accept(last.as_slice())?;
    let next = packet(1, &[], &[], alloc)?;
    let took = receiver.accept(next.as_slice())?;
    assert!(rt; took.number == 65_537 && took.gap == 1);
    Ok(())
}
