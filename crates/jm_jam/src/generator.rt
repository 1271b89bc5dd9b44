//! The commands of one player.

ghost use Rattle.std.specs.Prelude.{◌≡◌, ◌+◌, ◌*◌, ◌%◌, ◌<◌, ◌≤◌};
ghost use Rattle.jm_cmds.specs.declared.commands.Command.TheVariants.{NoteOff};
ghost use Rattle.jm_jam.specs.Made.{made, start_of, next_number};

use jm_cmds::{Channel, Command, D7};
use std::marker::Model;

/// The greatest seed.
pub const GREATEST_SEED: u32 = 999_999;

/// Makes a player's commands, step by step. Contracts see the player, the number that the first step is drawn from, and the
/// number of the step, counted from 0.
#[derive(Debug, Drop)]
pub struct Generator {
    channel: Channel,
    start: u32,
    step: u32,
    number: u32,
    // The note of the last step whose place among eight is the first.
    struck: D7,
}

impl Model for Generator {
    ghost use Rattle.std.specs.Prelude.{◌≡◌, ◌*◌, ◌/◌, ◌<◌};
    ghost use Rattle.jm_jam.specs.Made.{Making, number_at, note_at};

    ghost Value = { Making };

    ghost view = { λ g. record { player = g.channel; start = g.start; step = g.step } };

    ghost invariant = { λ g. (g.number ≡ number_at g.start g.step) × (g.number < 7875) × (g.struck ≡ note_at g.start (8 * (g.step / 8))) };
}

impl Generator {
    /// The commands of this player from a seed of at most 999,999. Its channel has the player's number.
    pub fn new(seed: u32, player: Channel) -> Generator
        requires { seed ≤ 999999 }
        ensures { result ≡ record { player = player; start = start_of seed player; step = 0 } }
    {
        let start = seed + 1000 * u32::from(player.get());
        let number = next(start);
        Generator {
            channel: player,
            start,
            step: 0,
            number,
            struck: note(number),
        }
    }

    /// The player's number.
    pub fn player(&self) -> Channel
        ensures { result ≡ self.now.player }
    {
        self.channel
    }

    /// The number of the step.
    pub fn step(&self) -> u32
        ensures { result ≡ self.now.step }
    {
        self.step
    }

    /// The command of the step.
    pub fn command(&self) -> Command
        ensures { result ≡ made self.now.player self.now.start self.now.step }
    {
        let channel = self.channel;
        let note = note(self.number);
        match self.step % 8 {
            0..=3 => Command::NoteOn {
                channel,
                note,
                velocity: D7::low((1 + self.step % 127) as u8),
            },
            4 => released(channel, self.struck),
            5 => released(channel, note),
            6 => Command::Control {
                channel,
                number: D7::low(7),
                value: note,
            },
            _ => Command::Wheel {
                channel,
                first: D7::low(0),
                second: note,
            },
        }
    }

    /// Goes on to the next step.
    pub fn go_on(&mut self)
        requires { self.old.step < 4294967295 }
        ensures { self.new ≡ record self.old { step = self.old.step + 1 } }
    {
        let step = self.step + 1;
        let number = next(self.number);
        if step % 8 == 0 {
            self.struck = note(number);
        }
        self.step = step;
        self.number = number;
    }
}

// A number drawn from the one before.
fn next(number: u32) -> u32
    requires { number ≤ 1014999 }
    ensures value { result ≡ next_number number }
    ensures bound { result < 7875 }
{
    (421 * number + 1663) % 7875
}

// Its low seven bits.
fn note(number: u32) -> D7
    ensures { result ≡ number % 128 }
{
    D7::low((number % 128) as u8)
}

// This note is released.
fn released(channel: Channel, note: D7) -> Command
    ensures { result ≡ NoteOff channel note 64 }
{
    Command::NoteOff {
        channel,
        note,
        velocity: D7::low(64),
    }
}
