//! What commands leave of a state, by their octets, each case once. All are of channel 0.

use jm_cmds::{Channel, CmdFault, Command, D7, ReadError, read_command};
use jm_state::{ProgramPart, Selection, SequencerPart, State, TimePart};
use std::alloc::Global;
use std::process::Abort;
use std::test::Fail;

/// One part of a state that is there.
#[derive(Clone, Copy, Drop)]
enum Part {
    Song(u8),
    Sequencer(SequencerPart),
    Time(TimePart),
    Messages(u8),
    Program(ProgramPart),
    Control(u8, u8),
    Toggles(u8),
    Select(Selection),
    /// A parameter's kind, the halves of its number and of its value.
    Param(bool, u8, u8, Option<u8>, Option<u8>),
    Wheel(u8, u8),
    Note(u8, u8),
    Pressure(u8),
    Poly(u8, u8),
}

fn seven(value: Option<u8>) -> Option<D7> {
    match value {
        None => None,
        Some(value) => Some(D7::low(value)),
    }
}

fn set_param(state: &mut State, nrpn: bool, number: (u8, u8), entry: (Option<u8>, Option<u8>)) {
    let channel = Channel::low(0);
    let high = D7::low(number.0);
    let low = D7::low(number.1);
    state.set_param_high(channel, nrpn, high, low, seven(entry.0));
    state.set_param_low(channel, nrpn, high, low, seven(entry.1));
}

fn set_session(state: &mut State, part: &Part) {
    match part {
        Part::Song(song) => state.set_song(Some(D7::low(*song))),
        Part::Sequencer(part) => state.set_sequencer(Some(SequencerPart {
            position: part.position % 524_288,
            ..*part
        })),
        Part::Time(part) => state.set_time_code(Some(TimePart {
            point: part.point % 8,
            ..*part
        })),
        Part::Messages(count) => state.set_sysex_count(*count),
        _ => {}
    }
}

fn set_part(state: &mut State, part: &Part) {
    let channel = Channel::low(0);
    match part {
        Part::Program(part) => state.set_program(channel, Some(*part)),
        Part::Control(number, value) => {
            state.set_control(channel, D7::low(*number), Some(D7::low(*value)));
        }
        Part::Toggles(count) => state.set_toggles(channel, *count % 64),
        Part::Select(selection) => state.set_selection(channel, Some(*selection)),
        Part::Param(nrpn, high, low, entry_high, entry_low) => {
            set_param(state, *nrpn, (*high, *low), (*entry_high, *entry_low));
        }
        Part::Wheel(first, second) => {
            state.set_wheel(channel, Some((D7::low(*first), D7::low(*second))));
        }
        Part::Note(note, velocity) => {
            state.set_note(channel, D7::low(*note), Some(D7::low(*velocity)));
        }
        Part::Pressure(value) => state.set_pressure(channel, Some(D7::low(*value))),
        Part::Poly(note, value) => {
            state.set_poly(channel, D7::low(*note), Some(D7::low(*value)));
        }
        _ => set_session(state, part),
    }
}

fn state_of(parts: &[Part]) -> State {
    let mut state = State::new();
    for part in parts {
        set_part(&mut state, part);
    }
    state
}

/// The state after the commands in these octets.
fn played(octets: &[u8], alloc: Global) -> Result<State, ReadError<CmdFault>> {
    let mut state = State::new();
    let mut rest = octets;
    for _ in octets {
        if rest.is_empty() {
            return Ok(state);
        }
        let (command, used) = read_command(rest, alloc)?;
        state.apply(&command);
        rest = match rest.get(used..) {
            Some(later) => later,
            None => &[],
        };
    }
    Ok(state)
}

/// Checks which parts are there after the commands in these octets.
fn check<R: Abort>(rt: &R, octets: &[u8], parts: &[Part], alloc: Global) -> Result<(), Fail> {
    let state = played(octets, alloc)?;
    let expected = state_of(parts);
    assert!(rt; state.same(&expected));
    Ok(())
}

fn program(bank: Option<(D7, D7)>) -> Part {
    Part::Program(ProgramPart {
        program: D7::low(7),
        bank,
    })
}

#[test]
fn banks(rt: HostRuntime) -> Result<(), Fail> {
    let alloc = rt.alloc();
    check(
        &rt,
        &[0xb0, 0, 5, 0xb0, 32, 6, 0xc0, 7],
        &[
            program(Some((D7::low(5), D7::low(6)))),
            Part::Control(0, 5),
            Part::Control(32, 6),
        ],
        alloc,
    )?;
    check(
        &rt,
        &[0xb0, 32, 6, 0xc0, 7],
        &[program(None), Part::Control(32, 6)],
        alloc,
    )?;
    check(
        &rt,
        &[0xb0, 0, 5, 0xc0, 7, 0xb0, 0, 1],
        &[program(Some((D7::low(5), D7::low(0)))), Part::Control(0, 1)],
        alloc,
    )
}

/// 120 and 123 to 127 drop the notes and the pressure, and 124 to 127 are set.
#[test]
fn notes_are_silenced(rt: HostRuntime) -> Result<(), Fail> {
    let alloc = rt.alloc();
    let mut octets = [
        0x90, 60, 100, 0x90, 61, 1, 0xd0, 5, 0xa0, 60, 9, 0xc0, 7, 0xb0, 120, 2,
    ];
    let left = [program(None), Part::Poly(60, 9)];
    check(&rt, &octets, &left, alloc)?;
    octets[14] = 123;
    check(&rt, &octets, &left, alloc)?;
    for mode in 124..128u8 {
        octets[14] = mode;
        let set = [program(None), Part::Poly(60, 9), Part::Control(mode, 2)];
        check(&rt, &octets, &set, alloc)?;
    }
    check(
        &rt,
        &[0xb0, 124, 1, 0xb0, 125, 2, 0xb0, 126, 3, 0xb0, 127, 4],
        &[Part::Control(125, 2), Part::Control(127, 4)],
        alloc,
    )?;
    check(
        &rt,
        &[0x90, 60, 100, 0x90, 61, 1, 0x90, 60, 0, 0x80, 61, 64],
        &[],
        alloc,
    )?;
    check(
        &rt,
        &[0x90, 60, 100, 0xe0, 1, 2],
        &[Part::Note(60, 100), Part::Wheel(1, 2)],
        alloc,
    )
}

/// What Control 121 leaves, and the controllers that set nothing.
#[test]
fn controllers_are_set_back(rt: HostRuntime) -> Result<(), Fail> {
    let alloc = rt.alloc();
    let octets = [
        0xb0, 0, 1, 0xb0, 32, 2, 0xb0, 7, 3, 0xb0, 122, 4, 0xb0, 124, 5, 0xb0, 126, 6, // controls
        0xb0, 98, 7, 0xe0, 17, 34, 0xd0, 51, 0xa0, 68, 85, 0x90, 60, 100, 0xc0, 7, 0xb0, 64, 127,
        0xb0, 121, 0,
    ];
    let left = [
        program(Some((D7::low(1), D7::low(2)))),
        Part::Control(0, 1),
        Part::Control(32, 2),
        Part::Control(122, 4),
        Part::Control(124, 5),
        Part::Control(126, 6),
        Part::Note(60, 100),
    ];
    check(&rt, &octets, &left, alloc)?;
    let silent = [
        0xb0, 96, 1, 0xb0, 97, 1, 0xf6, 0xfe, 0xb0, 120, 1, 0xb0, 123, 0, 0xb0, 121, 0,
    ];
    check(&rt, &silent, &[], alloc)
}

/// Halves of values without a parameter, of two parameters, and of none since both halves of the number are 127.
#[test]
fn parameters_are_entered(rt: HostRuntime) -> Result<(), Fail> {
    let alloc = rt.alloc();
    let selection = Selection {
        nrpn: false,
        rpn_high: Some(D7::low(3)),
        rpn_low: None,
        nrpn_high: Some(D7::low(1)),
        nrpn_low: Some(D7::low(2)),
    };
    check(
        &rt,
        &[
            0xb0, 6, 1, 0xb0, 38, 2, 0xb0, 99, 1, 0xb0, 98, 2, 0xb0, 6, 3, 0xb0, 38, 4, 0xb0, 101,
            3, 0xb0, 6, 5,
        ],
        &[
            Part::Select(selection),
            Part::Param(true, 1, 2, Some(3), Some(4)),
        ],
        alloc,
    )?;
    let none = Selection {
        nrpn: false,
        rpn_high: Some(D7::low(127)),
        rpn_low: Some(D7::low(127)),
        nrpn_high: None,
        nrpn_low: None,
    };
    check(
        &rt,
        &[0xb0, 101, 127, 0xb0, 100, 127, 0xb0, 6, 1],
        &[Part::Select(none)],
        alloc,
    )
}

fn sequencer(running: bool, downbeat: bool, position: u32) -> Part {
    Part::Sequencer(SequencerPart {
        running,
        downbeat,
        position,
    })
}

/// Song, song position and time code.
#[test]
fn the_session_moves(rt: HostRuntime) -> Result<(), Fail> {
    let alloc = rt.alloc();
    check(
        &rt,
        &[0xf3, 5, 0xfa, 0xf8, 0xf8, 0xf2, 2, 0],
        &[Part::Song(5), sequencer(true, true, 12)],
        alloc,
    )?;
    check(
        &rt,
        &[0xfb, 0xfc, 0xf8],
        &[sequencer(false, false, 0)],
        alloc,
    )?;
    check(&rt, &[0xf8], &[sequencer(false, false, 0)], alloc)?;
    let code = TimePart {
        complete: None,
        partial: Some(0x5230_0000),
        backward: false,
        point: 2,
    };
    check(
        &rt,
        &[0xf1, 0x05, 0xf1, 0x12, 0xf1, 0x23],
        &[Part::Time(code)],
        alloc,
    )
}

/// Messages are counted from the last reset on. 09 02, which turns General MIDI off, is a plain message here.
#[test]
fn resets(rt: HostRuntime) -> Result<(), Fail> {
    let alloc = rt.alloc();
    check(&rt, &[0x90, 60, 100, 0xc0, 1, 0xff], &[], alloc)?;
    let mut octets = [0x90, 60, 100, 0xf0, 0x7e, 0x7f, 9, 1, 0xf7];
    check(&rt, &octets, &[], alloc)?;
    octets[5] = 0;
    octets[7] = 3;
    check(&rt, &octets, &[], alloc)?;
    octets[7] = 2;
    check(
        &rt,
        &octets,
        &[Part::Note(60, 100), Part::Messages(1)],
        alloc,
    )?;
    check(
        &rt,
        &[
            0xf0, 0x7d, 1, 0xf7, 0xf0, 0x7e, 0x7f, 9, 1, 0xf7, 0xf0, 0x7d, 2, 0xf7,
        ],
        &[Part::Messages(1)],
        alloc,
    )
}

/// The toggles count where the pedal goes up or down: 64 to 127 is down, and it begins up.
#[test]
fn pedals_are_counted(rt: HostRuntime) -> Result<(), Fail> {
    let alloc = rt.alloc();
    check(
        &rt,
        &[0xb0, 64, 127, 0xb0, 64, 0, 0xb0, 64, 127],
        &[Part::Control(64, 127), Part::Toggles(3)],
        alloc,
    )?;
    check(
        &rt,
        &[0xb0, 64, 127, 0xb0, 64, 64, 0xb0, 64, 63],
        &[Part::Control(64, 63), Part::Toggles(2)],
        alloc,
    )?;
    check(&rt, &[0xb0, 64, 63], &[Part::Control(64, 63)], alloc)?;
    check(
        &rt,
        &[0xb0, 64, 127, 0xb0, 121, 0, 0xb0, 64, 127],
        &[Part::Control(64, 127), Part::Toggles(1)],
        alloc,
    )?;
    check(&rt, &[0xb0, 64, 127, 0xff], &[], alloc)?;
    let channel = Channel::low(0);
    let mut state = State::new();
    for _ in 0..32 {
        state.apply(&Command::Control {
            channel,
            number: D7::low(64),
            value: D7::low(127),
        });
        state.apply(&Command::Control {
            channel,
            number: D7::low(64),
            value: D7::low(0),
        });
    }
    assert_eq!(rt; state.toggles(channel), 0);
    Ok(())
}
