//! What is told of a tape.

ghost use Rattle.std.specs.Prelude.{◌≡◌, ◌≤◌, ◌++◌, ◌∷◌, [], length, OnOk, IfOk};
ghost use Rattle.std.specs.String.{string_bytes};
ghost use Rattle.jm_book.specs.Plays.{play_count};
ghost use Rattle.jm_state.specs.Parts.{wheel_of};
ghost use Rattle.jm_jam.specs.Summary.{plays_by, state_behind, sounding_below, wheel_second, told, told_or_dash, player_line, summary_text};

use itoa::Buffer;
use jm_book::Step;
use jm_cmds::{Channel, D7};
use jm_state::State;
use std::alloc::{AllocError, Global};

/// The text of a tape: for each of four players how many of its commands were accepted, and of the channel of its number how many
/// notes sound behind all commands, the volume and the second octet of the pitch wheel, with a dash for what is absent; then how
/// many commands there are.
#[tactic(auto, using(crate::proofs::Joining::joined_six), unfolding(crate::specs::Summary::summary_text))]
pub fn summary(tape: &[Step], alloc: Global) -> Result<String, AllocError>
    ensures { IfOk result (λ text. string_bytes text ≡ summary_text tape.now) }
{
    let state = state_behind(tape);
    let mut text = String::new(alloc);
    write_player(&mut text, tape, &state, Channel::low(0))?;
    write_player(&mut text, tape, &state, Channel::low(1))?;
    write_player(&mut text, tape, &state, Channel::low(2))?;
    write_player(&mut text, tape, &state, Channel::low(3))?;
    write(&mut text, "commands ", play_count(tape))?;
    text.push_str("\n")?;
    Ok(text)
}

// The state behind all commands.
fn state_behind(tape: &[Step]) -> State
    ensures { result ≡ state_behind tape.now }
{
    let mut state = State::new();
    for step in tape {
        if let Step::Play { command, .. } = step {
            state.apply(command);
        }
    }
    state
}

// How many commands there are.
fn play_count(tape: &[Step]) -> usize
    ensures value { result ≡ play_count tape.now }
    ensures bound { result ≤ length tape.now }
{
    let mut count = 0;
    for step in tape {
        if let Step::Play { .. } = step {
            count += 1;
        }
    }
    count
}

// How many commands of the player there are.
fn plays_by(tape: &[Step], player: u8) -> usize
    ensures value { result ≡ plays_by player tape.now }
    ensures bound { result ≤ length tape.now }
{
    let mut count = 0;
    for step in tape {
        if let Step::Play { player: by, .. } = step {
            if *by == player {
                count += 1;
            }
        }
    }
    count
}

// How many notes sound in the channel.
#[tactic(auto, using(crate::proofs::Sounding::sounding_none, crate::proofs::Sounding::sounding_more))]
fn sounding(state: &State, channel: Channel) -> usize
    ensures { result ≡ sounding_below state.now channel 128 }
{
    let mut count = 0;
    for note in 0..128u8 {
        if state.note(channel, D7::low(note)).is_some() {
            count += 1;
        }
    }
    count
}

// The line of a player.
#[tactic(auto, using(crate::proofs::Joining::joined_six), unfolding(crate::specs::Summary::player_line))]
fn write_player(
    text: &mut String,
    tape: &[Step],
    state: &State,
    channel: Channel,
) -> Result<(), AllocError>
    ensures { OnOk result (string_bytes text.new ≡ string_bytes text.old ++ player_line tape.now state.now channel) }
{
    let player = channel.get();
    write(text, "player ", usize::from(player))?;
    write(text, " ", plays_by(tape, player))?;
    write(text, " notes ", sounding(state, channel))?;
    write_if(text, " volume ", state.control(channel, D7::low(7)))?;
    write_if(text, " wheel ", wheel_second(state, channel))?;
    text.push_str("\n")?;
    Ok(())
}

// The second octet of the pitch wheel, if it is there.
fn wheel_second(state: &State, channel: Channel) -> Option<D7>
    ensures { result ≡ wheel_second (wheel_of state.now channel) }
{
    match state.wheel(channel) {
        None => None,
        Some((_, second)) => Some(second),
    }
}

// Words and a number.
fn write(text: &mut String, words: &str, number: usize) -> Result<(), AllocError>
    ensures { OnOk result (string_bytes text.new ≡ string_bytes text.old ++ told words.now number) }
{
    let mut buffer = Buffer::new();
    text.push_str(words)?;
    text.push_str(buffer.format(number))
}

// Words and a number, or a dash.
fn write_if(text: &mut String, words: &str, number: Option<D7>) -> Result<(), AllocError>
    ensures { OnOk result (string_bytes text.new ≡ string_bytes text.old ++ told_or_dash words.now number) }
{
    match number {
        Some(number) => write(text, words, usize::from(number.get())),
        None => {
            text.push_str(words)?;
            text.push_str("-")
        }
    }
}
