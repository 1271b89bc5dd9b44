// What no clause says: the numbers themselves, and the printed text.
use jm_book::Step;
use jm_cmds::{Channel, Command, D7};
use jm_jam::*;
use std::test::*;

fn note_on(note: u8, velocity: u8) -> Command {
    Command::NoteOn {
        channel: Channel::low(0),
        note: D7::low(note),
        velocity: D7::low(velocity),
    }
}

fn note_off(note: u8) -> Command {
    Command::NoteOff {
        channel: Channel::low(0),
        note: D7::low(note),
        velocity: D7::low(64),
    }
}

fn first_commands() -> [Command; 8] {
    [
        note_on(2, 1),
        note_on(103, 2),
        note_on(93, 3),
        note_on(11, 4),
        note_off(2),
        note_off(110),
        Command::Control {
            channel: Channel::low(0),
            number: D7::low(7),
            value: D7::low(107),
        },
        Command::Wheel {
            channel: Channel::low(0),
            first: D7::low(0),
            second: D7::low(60),
        },
    ]
}

#[test]
fn the_first_commands_of_player_0(rt: HostRuntime) -> Result<(), Fail> {
    let mut making = Generator::new(7, Channel::low(0));
    let mut good = true;
    for command in &first_commands() {
        good = good && making.command() == *command;
        if making.step() < 8 {
            making.go_on();
        }
    }
    assert!(rt; good);
    Ok(())
}

// A player's commands on a tape, one after another.
fn play_all(tape: &mut Vec<Step>, player: u8) -> Result<(), Fail> {
    let mut making = Generator::new(7, Channel::low(player));
    for _ in 0..8 {
        let command = making.command();
        tape.push(Step::Play {
            player,
            command,
            tick: 0,
        })?;
        if making.step() < 8 {
            making.go_on();
        }
    }
    Ok(())
}

#[test]
fn what_is_told_of_four_players(rt: HostRuntime) -> Result<(), Fail> {
    let mut tape = Vec::new(rt.alloc());
    tape.push(Step::Enter)?;
    play_all(&mut tape, 0)?;
    play_all(&mut tape, 1)?;
    tape.push(Step::Cut { tick: 0 })?;
    play_all(&mut tape, 2)?;
    play_all(&mut tape, 3)?;
    let text = summary(tape.as_slice(), rt.alloc())?;
    assert_eq!(rt;
        text.as_str(),
        "player 0 8 notes 3 volume 107 wheel 60\nplayer 1 8 notes 3 volume 20 wheel 99\nplayer 2 8 notes 3 volume 122 wheel 10\nplayer 3 8 notes 3 volume 35 wheel 49\ncommands 32\n"
    );
    Ok(())
}
