// The workers that play.
ghost use Rattle.std.specs.Prelude.{◌≡◌, ◌≤◌, ◌<◌, ◌+◌, length};
ghost use Rattle.jm_desk.specs.Sharing.{IsOf};
ghost use Rattle.jm_jam.specs.Made.{made, start_of, tick_at};
ghost use Rattle.jm_jam.specs.Workers.{needs_cut, PlaysStep, PlaysSteps, Worked};
ghost use Rattle.jm_jam.specs.Working.{Tries};

use crate::calls::{cut_once, play_once};
use crate::generator::Generator;
use jm_book::{Cutted, PlayFault, Played};
use jm_desk::{Desk, Pass};
use jm_edge::Gate;
use jm_wire::Octets;
use std::sync::Wait;

// What one try to play came to.
pub(crate) enum Tried {
    // Nothing is left to do in this step.
    Settled,
    // A packet was cut first, and the command is to be played again.
    Again,
    // There was no memory.
    NoMemory,
}

// Whether a cut has to come first.
fn needs_cut(answer: &Played) -> bool
    ensures { result ≡ needs_cut answer.now }
{
    match answer {
        Played::Accepted { .. } => false,
        Played::Refused { why, .. } => match why {
            PlayFault::NeedsCut { .. } => true,
            _ => false,
        },
    }
}

// The tick of the generator's step.
fn tick_of(making: &Generator) -> u64
    ensures { result ≡ tick_at making.now.step }
{
    10 * u64::from(making.step())
}

// Plays the command of the step once, and cuts where that has to come first.
fn try_once<R: Wait, G: Gate>(
    rt: &R,
    desk: &Desk,
    pass: &mut Pass,
    making: &Generator,
    out: &mut Octets,
    gate: &G,
    call: &mut u32,
) -> Tried
    requires own { IsOf desk.now pass.old }
    requires room { 21100 ≤ out.old.spare + length out.old.octets }
    ensures own { IsOf desk.now pass.new }
    ensures room { 21100 ≤ out.new.spare + length out.new.octets }
    ensures tries { Tries making.now.player (made making.now.player making.now.start making.now.step) (tick_at making.now.step) result pass.old pass.new }
{
    let player = making.player().get();
    let tick = tick_of(making);
    match play_once(rt, desk, pass, player, making.command(), tick, gate, call) {
        Err(_) => Tried::NoMemory,
        Ok(turn) => {
            if !needs_cut(&turn.answer) {
                return Tried::Settled;
            }
            match cut_once(rt, desk, pass, out, tick, gate, player, call) {
                Err(_) => Tried::NoMemory,
                Ok(turn) => match turn.answer {
                    Cutted::Packet { .. } => Tried::Again,
                    Cutted::RecordFull { .. } => Tried::Settled,
                    Cutted::Behind { .. } => Tried::Settled,
                },
            }
        }
    }
}

// Makes one step, and says whether there was memory.
fn play_step<R: Wait, G: Gate>(
    rt: &R,
    desk: &Desk,
    pass: &mut Pass,
    making: &Generator,
    out: &mut Octets,
    gate: &G,
    call: &mut u32,
) -> bool
    requires own { IsOf desk.now pass.old }
    requires room { 21100 ≤ out.old.spare + length out.old.octets }
    ensures own { IsOf desk.now pass.new }
    ensures room { 21100 ≤ out.new.spare + length out.new.octets }
    ensures worked { Worked (PlaysStep making.now.player (made making.now.player making.now.start making.now.step) (tick_at making.now.step)) result pass.old pass.new }
{
    for _ in rt.forever() {
        match try_once(rt, desk, pass, making, out, gate, call) {
            Tried::Settled => return true,
            Tried::Again => {}
            Tried::NoMemory => return false,
        }
    }
    unreachable!()
}

// Makes so many steps, and says whether there was memory for all.
pub(crate) fn play_all<R: Wait, G: Gate>(
    rt: &R,
    desk: &Desk,
    pass: &mut Pass,
    mut making: Generator,
    count: u32,
    out: &mut Octets,
    gate: &G,
) -> bool
    requires own { IsOf desk.now pass.old }
    requires room { 21100 ≤ out.old.spare + length out.old.octets }
    requires first { making.step ≡ 0 }
    ensures own { IsOf desk.now pass.new }
    ensures worked { Worked (PlaysSteps making.player making.start count) result pass.old pass.new }
{
    let mut call = 0;
    for _step in 0..count {
        if !play_step(rt, desk, pass, &making, out, gate, &mut call) {
            return false;
        }
        making.go_on();
    }
    true
}
