//! One worker of a jam.
ghost use Rattle.std.specs.Prelude.{◌≡◌, ◌≤◌, ◌+◌, length};
ghost use Rattle.jm_desk.specs.Sharing.{IsOf};
ghost use Rattle.jm_jam.specs.Workers.{Program, GoesOn, Worked};

use crate::feedback::report_all;
use crate::generator::Generator;
use crate::job::Job;
use crate::player::play_all;
use crate::sender::cut_all;
use jm_desk::{Desk, Pass};
use jm_edge::Gate;
use jm_wire::Octets;
use std::alloc::Global;
use std::sync::Wait;

// Does all of this job, and says whether there was memory for it.
fn do_job<R: Wait, G: Gate>(
    rt: &R,
    desk: &Desk,
    pass: &mut Pass,
    job: Job,
    seed: u32,
    count: u32,
    gate: &G,
    out: &mut Octets,
) -> bool
    requires own { IsOf desk.now pass.old }
    requires seed { seed ≤ 999999 }
    requires room { 21100 ≤ out.old.spare + length out.old.octets }
    ensures own { IsOf desk.now pass.new }
    ensures worked { Worked (Program job seed count) result pass.old pass.new }
{
    match job {
        Job::Player(player) => {
            let making = Generator::new(seed, player);
            play_all(rt, desk, pass, making, count, out, gate)
        }
        Job::Feedback { worker, ssrc } => report_all(rt, desk, pass, ssrc, count, gate, worker),
        Job::Sender => cut_all(rt, desk, pass, count, out, gate),
    }
}

/// Does all of this job at a desk, and gives the pass back. The flag says whether there was memory for all: then the turns that the pass
/// made are just those of its program.
pub fn work<R: Wait, G: Gate>(
    rt: &R,
    desk: &Desk,
    mut pass: Pass,
    job: Job,
    seed: u32,
    count: u32,
    gate: &G,
    alloc: Global,
) -> (Pass, bool)
    requires own { IsOf desk.now pass }
    requires seed { seed ≤ 999999 }
    ensures own { IsOf desk.now result.0 }
    ensures rest { GoesOn pass result.0 }
    ensures worked { Worked (Program job seed count) result.1 pass result.0 }
{
    let Ok(mut out) = Octets::with_room(21_100, alloc) else {
        return (pass, false);
    };
    let done = do_job(rt, desk, &mut pass, job, seed, count, gate, &mut out);
    (pass, done)
}
