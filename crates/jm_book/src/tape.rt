//! The tape: the steps that were taken. The commands of the plays stand in one slice, since the
//! chapters of the journal are asked of it; the tape weaves them together with the rest of the
//! steps again when it is handed out.

ghost use Rattle.std.specs.Prelude.{◌≡◌, ◌≤◌, ◌+◌, length, [], ◌∷◌, ◌++◌, IfOk, OnErr, OnOk, IsOk};
ghost use Rattle.jm_book.specs.Commands.{HaveCommands};
ghost use Rattle.jm_book.specs.Tape.{Taped, Grows, bare_step};

use crate::steps::Step;
use apple_msg::Message;
use apple_session::PortKind;
use jm_cmds::Sent;
use jm_edge::Addr;
use std::alloc::{AllocError, Global};
use std::marker::Model;

/// A step that brings no command.
#[derive(Debug, Drop)]
pub(crate) enum Bare {
    Enter,
    Cut {
        tick: u64,
    },
    Ack {
        ssrc: u32,
        seq: u16,
    },
    Join {
        ssrc: u32,
    },
    Leave {
        ssrc: u32,
    },
    Hear {
        ssrc: u32,
        seq: u16,
    },
    Feedback,
    Say {
        port: PortKind,
        from: Addr,
        message: Message,
        now: u64,
    },
}

impl Bare {
    fn step(&self) -> Step
        ensures { result ≡ bare_step self.now }
    {
        match self {
            Bare::Enter => Step::Enter,
            Bare::Cut { tick } => Step::Cut { tick: *tick },
            Bare::Ack { ssrc, seq } => Step::Ack {
                ssrc: *ssrc,
                seq: *seq,
            },
            Bare::Join { ssrc } => Step::Join { ssrc: *ssrc },
            Bare::Leave { ssrc } => Step::Leave { ssrc: *ssrc },
            Bare::Hear { ssrc, seq } => Step::Hear {
                ssrc: *ssrc,
                seq: *seq,
            },
            Bare::Feedback => Step::Feedback,
            Bare::Say {
                port,
                from,
                message,
                now,
            } => Step::Say {
                port: *port,
                from: *from,
                message: message.copy(),
                now: *now,
            },
        }
    }
}

/// A step without its command: that of the k-th play is the k-th command.
#[derive(Debug, Drop)]
pub(crate) enum Mark {
    Play { player: u8, tick: u64 },
    Other(Bare),
}

#[derive(Debug, Drop)]
pub(crate) struct Tape {
    marks: Vec<Mark>,
    commands: Vec<Sent>,
    steps: Vec<Step>,
}

impl Model for Tape {
    ghost use Rattle.std.specs.Prelude.{vec_capacity};
    ghost use Rattle.jm_book.specs.Tape.{Taped, taped, IsTape};

    ghost Value = { Taped };

    ghost view = { λ t. taped t.marks.items t.commands.items (vec_capacity t.marks) (vec_capacity t.commands) (vec_capacity t.steps) };

    ghost invariant = { λ t. IsTape t.marks.items t.commands.items t.steps.items (vec_capacity t.steps) };
}

impl Tape {
    pub(crate) fn new(alloc: Global) -> Tape
        ensures steps { result.steps ≡ [] }
        ensures commands { result.commands ≡ [] }
    {
        Tape {
            marks: Vec::new(alloc),
            commands: Vec::new(alloc),
            steps: Vec::new(alloc),
        }
    }

    /// Makes room for one more step at least, or leaves the tape as it was but for its room.
    pub(crate) fn reserve(&mut self) -> Result<(), AllocError>
        ensures steps { self.new.steps ≡ self.old.steps }
        ensures commands { self.new.commands ≡ self.old.commands }
        ensures room { OnOk result (1 ≤ self.new.spare) }
    {
        self.marks.reserve(1)?;
        self.commands.reserve(1)?;
        let behind = self.marks.len() + 1;
        self.steps.reserve(behind)?;
        Ok(())
    }

    /// Takes a step that brings no command.
    pub(crate) fn push(&mut self, bare: Bare)
        requires { 1 ≤ self.old.spare }
        ensures steps { Grows self.old self.new (bare_step bare) }
        ensures commands { self.new.commands ≡ self.old.commands }
    {
        self.marks.push_reserved(Mark::Other(bare));
    }

    /// Takes a play, which brings the command of `sent`.
    pub(crate) fn push_play(&mut self, player: u8, tick: u64, sent: Sent)
        requires { 1 ≤ self.old.spare }
        ensures steps { Grows self.old self.new (Step.Play player sent.command tick) }
        ensures commands { self.new.commands ≡ self.old.commands ++ sent ∷ [] }
    {
        // that a command has a size says that its numbers are within their bounds
        prove!(sent.command.size() <= 65538);
        self.marks.push_reserved(Mark::Play { player, tick });
        self.commands.push_reserved(sent);
    }

    /// The commands of all plays, in order.
    pub(crate) fn commands(&self) -> &[Sent]
        ensures { result.now ≡ self.now.commands }
    {
        self.commands.as_slice()
    }

    /// How many steps were taken.
    pub(crate) fn len(&self) -> usize
        ensures number { result ≡ length self.now.steps }
        ensures commands { HaveCommands self.now.steps }
    {
        self.marks.len()
    }

    /// Hands the steps out, in order. It takes no memory.
    pub(crate) fn finish(self) -> Vec<Step>
        ensures { result.items ≡ self.steps }
    {
        let Tape {
            marks,
            commands,
            mut steps,
        } = self;
        let mut left = commands.into_iter();
        for mark in &marks {
            match mark {
                Mark::Other(bare) => steps.push_reserved(bare.step()),
                Mark::Play { player, tick } => {
                    let Some(sent) = left.next() else {
                        unreachable!()
                    };
                    let Sent {
                        packet: _,
                        tick: _,
                        command,
                    } = sent;
                    steps.push_reserved(Step::Play {
                        player: *player,
                        command,
                        tick: *tick,
                    });
                }
            }
        }
        steps
    }
}
