// Single calls at a desk, round which a gate is called.
ghost use Rattle.std.specs.Prelude.{◌≡◌, ◌≤◌, ◌+◌, length};
ghost use Rattle.jm_desk.specs.Sharing.{IsOf, MakesTurn, outcome_of};

use jm_book::{Acked, AddrList, Cutted, Played, Step};
use jm_cmds::Command;
use jm_desk::{Desk, Outcome, Pass, Turned, Unplayed};
use jm_edge::Gate;
use jm_wire::Octets;
use std::alloc::AllocError;
use std::sync::Wait;

// Plays once. The player's number is that of its worker.
pub(crate) fn play_once<R: Wait, G: Gate>(
    rt: &R,
    desk: &Desk,
    pass: &mut Pass,
    player: u8,
    command: Command,
    tick: u64,
    gate: &G,
    call: &mut u32,
) -> Result<Turned<Played>, Unplayed>
    requires { IsOf desk.now pass.old }
    ensures own { IsOf desk.now pass.new }
    ensures turn { MakesTurn desk.now pass.old pass.new (Step.Play player command tick) (outcome_of Outcome.Played result) }
{
    gate.before(rt, player, *call);
    let came = desk.play(rt, pass, player, command, tick);
    gate.after(rt, player, *call);
    *call = call.wrapping_add(1);
    came
}

// Cuts once. `out` has room for 21,100 octets.
pub(crate) fn cut_once<R: Wait, G: Gate>(
    rt: &R,
    desk: &Desk,
    pass: &mut Pass,
    out: &mut Octets,
    tick: u64,
    gate: &G,
    worker: u8,
    call: &mut u32,
) -> Result<Turned<Cutted>, AllocError>
    requires own { IsOf desk.now pass.old }
    requires room { 21100 ≤ out.old.spare + length out.old.octets }
    ensures own { IsOf desk.now pass.new }
    ensures room { 21100 ≤ out.new.spare + length out.new.octets }
    ensures turn { MakesTurn desk.now pass.old pass.new (Step.Cut tick) (outcome_of Outcome.Cut result) }
{
    let mut to = AddrList::new();
    out.clear();
    gate.before(rt, worker, *call);
    let came = desk.cut(rt, pass, tick, out, &mut to);
    gate.after(rt, worker, *call);
    *call = call.wrapping_add(1);
    came
}

// Reports once.
pub(crate) fn ack_once<R: Wait, G: Gate>(
    rt: &R,
    desk: &Desk,
    pass: &mut Pass,
    ssrc: u32,
    seq: u16,
    gate: &G,
    worker: u8,
    call: &mut u32,
) -> Result<Turned<Acked>, AllocError>
    requires { IsOf desk.now pass.old }
    ensures own { IsOf desk.now pass.new }
    ensures turn { MakesTurn desk.now pass.old pass.new (Step.Ack ssrc seq) (outcome_of Outcome.Acked result) }
{
    gate.before(rt, worker, *call);
    let came = desk.ack(rt, pass, ssrc, seq);
    gate.after(rt, worker, *call);
    *call = call.wrapping_add(1);
    came
}
