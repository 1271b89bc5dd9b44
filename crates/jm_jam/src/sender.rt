// The worker that cuts.
ghost use Rattle.std.specs.Prelude.{◌≡◌, ◌≤◌, ◌+◌, length};
ghost use Rattle.jm_desk.specs.Sharing.{IsOf};
ghost use Rattle.jm_jam.specs.Workers.{Cuts, Worked};

use crate::calls::cut_once;
use jm_desk::{Desk, Pass};
use jm_edge::Gate;
use jm_wire::Octets;
use std::sync::Wait;

// The number that a gate is told of the sender.
const SENDER: u8 = 6;

// Makes so many cuts, and says whether there was memory for all.
pub(crate) fn cut_all<R: Wait, G: Gate>(
    rt: &R,
    desk: &Desk,
    pass: &mut Pass,
    count: u32,
    out: &mut Octets,
    gate: &G,
) -> bool
    requires own { IsOf desk.now pass.old }
    requires room { 21100 ≤ out.old.spare + length out.old.octets }
    ensures own { IsOf desk.now pass.new }
    ensures worked { Worked (Cuts count) result pass.old pass.new }
{
    let mut call = 0;
    for step in 0..count {
        let tick = 10 * u64::from(step);
        match cut_once(rt, desk, pass, out, tick, gate, SENDER, &mut call) {
            Err(_) => return false,
            Ok(_turn) => {}
        }
    }
    true
}
