use jm_cmds::{Channel, Command, D7, D14, Sysex};
use jm_state::*;
use std::alloc::Global;
use std::test::Fail;

/// The channel that the tests play in.
fn channel() -> Channel {
    Channel::low(3)
}

fn seven(value: u8) -> D7 {
    D7::low(value)
}

fn control(number: u8, value: u8) -> Command {
    Command::Control {
        channel: channel(),
        number: D7::low(number),
        value: D7::low(value),
    }
}

fn note_on(note: u8, velocity: u8) -> Command {
    Command::NoteOn {
        channel: channel(),
        note: D7::low(note),
        velocity: D7::low(velocity),
    }
}

/// Enters both halves of this registered parameter.
fn enter(state: &mut State, low: u8, value: u8) {
    state.apply(&control(101, 0));
    state.apply(&control(100, low));
    state.apply(&control(6, value));
    state.apply(&control(38, value));
}

fn halves(high: Option<u8>, low: Option<u8>) -> Halves {
    Halves {
        entry_high: match high {
            None => None,
            Some(value) => Some(D7::low(value)),
        },
        entry_low: match low {
            None => None,
            Some(value) => Some(D7::low(value)),
        },
    }
}

#[test]
fn two_modes_are_one_part(rt: HostRuntime) -> Result<(), Fail> {
    let mut state = State::new();
    state.apply(&control(124, 1));
    state.apply(&control(125, 2));
    assert_eq!(rt; state.control(channel(), seven(124)), None);
    assert_eq!(rt; state.control(channel(), seven(125)), Some(seven(2)));
    state.apply(&control(127, 3));
    state.apply(&control(126, 4));
    assert_eq!(rt; state.control(channel(), seven(127)), None);
    assert_eq!(rt; state.control(channel(), seven(126)), Some(seven(4)));
    state.set_control(channel(), seven(127), None);
    assert_eq!(rt; state.control(channel(), seven(126)), None);
    assert_eq!(rt; state.control(channel(), seven(125)), Some(seven(2)));
    Ok(())
}

#[test]
fn a_seventeenth_parameter_pushes_out_the_first(rt: HostRuntime) -> Result<(), Fail> {
    let mut state = State::new();
    for low in 0..16u8 {
        enter(&mut state, low, low);
    }
    enter(&mut state, 0, 77);
    enter(&mut state, 16, 16);
    let none = halves(None, None);
    assert_eq!(rt; state.param(channel(), false, seven(0), seven(1)), none);
    assert_eq!(rt;
        state.param(channel(), false, seven(0), seven(0)),
        halves(Some(77), Some(77))
    );
    assert_eq!(rt;
        state.param(channel(), false, seven(0), seven(16)),
        halves(Some(16), Some(16))
    );
    Ok(())
}

#[test]
fn a_half_that_is_dropped_leaves_the_order(rt: HostRuntime) -> Result<(), Fail> {
    let mut state = State::new();
    for low in 0..16u8 {
        enter(&mut state, low, low);
    }
    state.set_param_high(channel(), false, seven(0), seven(0), None);
    assert_eq!(rt;
        state.param(channel(), false, seven(0), seven(0)),
        halves(None, Some(0))
    );
    enter(&mut state, 16, 16);
    assert_eq!(rt;
        state.param(channel(), false, seven(0), seven(0)),
        halves(None, None)
    );
    assert_eq!(rt;
        state.param(channel(), false, seven(0), seven(1)),
        halves(Some(1), Some(1))
    );
    state.set_param_low(channel(), false, seven(0), seven(2), None);
    state.set_param_high(channel(), false, seven(0), seven(2), None);
    enter(&mut state, 17, 17);
    assert_eq!(rt;
        state.param(channel(), false, seven(0), seven(1)),
        halves(Some(1), Some(1))
    );
    Ok(())
}

#[test]
fn the_order_of_parameters_does_not_count(rt: HostRuntime) -> Result<(), Fail> {
    let mut one = State::new();
    let mut other = State::new();
    for low in 0..3u8 {
        one.set_param_high(channel(), true, seven(0), seven(low), Some(seven(low)));
        other.set_param_high(
            channel(),
            true,
            seven(0),
            seven(2 - low),
            Some(seven(2 - low)),
        );
    }
    assert!(rt; one.same(&other));
    other.set_param_low(channel(), true, seven(0), seven(1), Some(seven(1)));
    assert!(rt; !one.same(&other));
    Ok(())
}

#[test]
fn system_commands_set_their_parts(rt: HostRuntime) -> Result<(), Fail> {
    let mut state = State::new();
    state.apply(&Command::SongSelect { song: seven(12) });
    state.apply(&Command::SongPosition {
        value: D14::of(seven(2), seven(0)),
    });
    state.apply(&Command::Continue);
    state.apply(&Command::Clock);
    state.apply(&Command::Clock);
    state.apply(&Command::QuarterFrame { value: seven(5) });
    state.apply(&Command::TuneRequest);
    state.apply(&Command::ActiveSensing);
    assert_eq!(rt; state.song(), Some(seven(12)));
    let running = SequencerPart {
        running: true,
        downbeat: true,
        position: 13,
    };
    assert_eq!(rt; state.sequencer(), Some(running));
    let code = TimePart {
        complete: None,
        partial: Some(0x5000_0000),
        backward: false,
        point: 0,
    };
    assert_eq!(rt; state.time_code(), Some(code));
    let copied = state.copy();
    assert!(rt; copied.same(&state));
    state.apply(&Command::Start);
    assert!(rt; !copied.same(&state));
    state.apply(&Command::Stop);
    state.apply(&Command::SystemReset);
    assert!(rt; state.same(&State::new()));
    Ok(())
}

/// The number of messages behind one of these data octets.
fn counted(octets: &[u8], alloc: Global) -> Result<u8, Fail> {
    let mut state = State::new();
    state.set_sysex_count(255);
    state.apply(&Command::Sysex(Sysex::new(octets, alloc)?));
    Ok(state.sysex_count())
}

#[test]
fn messages_are_counted(rt: HostRuntime) -> Result<(), Fail> {
    assert_eq!(rt; counted(&[1; 254], rt.alloc())?, 0);
    assert_eq!(rt; counted(&[1; 255], rt.alloc())?, 255);
    let mut state = State::new();
    state.apply(&note_on(1, 1));
    state.set_sysex_count(7);
    state.apply(&Command::Sysex(Sysex::new(&[0x7e, 0x7f, 9, 1], rt.alloc())?));
    assert!(rt; state.same(&State::new()));
    Ok(())
}

/// A program without a bank.
fn plain_program() -> ProgramPart {
    ProgramPart {
        program: seven(1),
        bank: None,
    }
}

#[test]
fn parts_are_set_and_dropped(rt: HostRuntime) -> Result<(), Fail> {
    let mut state = State::new();
    state.set_program(channel(), Some(plain_program()));
    state.set_song(Some(seven(1)));
    state.set_sequencer(None);
    state.set_time_code(None);
    state.set_selection(channel(), None);
    state.set_wheel(channel(), None);
    state.set_pressure(channel(), Some(seven(3)));
    state.set_poly(channel(), seven(4), Some(seven(5)));
    state.set_note(channel(), seven(4), None);
    assert_eq!(rt; state.program(channel()), Some(plain_program()));
    assert_eq!(rt; state.pressure(channel()), Some(seven(3)));
    assert_eq!(rt; state.poly(channel(), seven(4)), Some(seven(5)));
    assert_eq!(rt; state.poly(Channel::low(4), seven(4)), None);
    state.apply(&Command::Wheel {
        channel: channel(),
        first: seven(1),
        second: seven(2),
    });
    assert_eq!(rt; state.wheel(channel()), Some((seven(1), seven(2))));
    state.apply(&control(99, 3));
    assert!(rt; state.selection(channel()).is_some());
    state.set_song(None);
    assert_eq!(rt; state.song(), None);
    Ok(())
}
