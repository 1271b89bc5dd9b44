//! Workers side by side, each in a thread of its own.
ghost use Rattle.std.specs.Prelude.{◌≡◌, ◌≤◌};
ghost use Rattle.jm_desk.specs.Sharing.{IsOf};
ghost use Rattle.jm_jam.specs.Crew.{Serves, ServesTwo, AreOf};

use crate::hand::Hand;
use crate::worker::work;
use jm_desk::{Desk, Pass};
use jm_edge::Gate;
use std::alloc::Global;
use std::sync::Wait;
use std::thread::{Threads, join};

// One worker.
fn one<R: Wait, G: Gate>(
    rt: &R,
    desk: &Desk,
    hand: Hand,
    seed: u32,
    count: u32,
    gate: &G,
    alloc: Global,
) -> (Pass, bool)
    requires own { IsOf desk.now hand.pass }
    requires seed { seed ≤ 999999 }
    ensures { Serves desk.now seed count hand result }
{
    let Hand { job, pass } = hand;
    work(rt, desk, pass, job, seed, count, gate, alloc)
}

// Two workers.
fn two<R: Threads + Wait + Sync, G: Gate + Sync>(
    rt: &R,
    desk: &Desk,
    hands: (Hand, Hand),
    seed: u32,
    count: u32,
    gate: &G,
    alloc: Global,
) -> ((Pass, bool), (Pass, bool))
    requires own { AreOf desk.now hands }
    requires seed { seed ≤ 999999 }
    ensures { ServesTwo desk.now seed count hands result }
{
    let (a, b) = hands;
    join(
        rt,
        move || -> (Pass, bool)
            requires { IsOf desk.now a.pass × (seed ≤ 999999) }
            ensures { Serves desk.entry.now seed count a result }
        { one(rt, desk, a, seed, count, gate, alloc) },
        move || -> (Pass, bool)
            requires { IsOf desk.now b.pass × (seed ≤ 999999) }
            ensures { Serves desk.entry.now seed count b result }
        { one(rt, desk, b, seed, count, gate, alloc) },
    )
}

// The four players.
fn four<R: Threads + Wait + Sync, G: Gate + Sync>(
    rt: &R,
    desk: &Desk,
    low: (Hand, Hand),
    high: (Hand, Hand),
    seed: u32,
    count: u32,
    gate: &G,
    alloc: Global,
) -> (((Pass, bool), (Pass, bool)), ((Pass, bool), (Pass, bool)))
    requires own { AreOf desk.now low × AreOf desk.now high }
    requires seed { seed ≤ 999999 }
    ensures low { ServesTwo desk.now seed count low result.0 }
    ensures high { ServesTwo desk.now seed count high result.1 }
{
    join(
        rt,
        move || -> ((Pass, bool), (Pass, bool))
            requires { AreOf desk.now low × (seed ≤ 999999) }
            ensures { ServesTwo desk.entry.now seed count low result }
        { two(rt, desk, low, seed, count, gate, alloc) },
        move || -> ((Pass, bool), (Pass, bool))
            requires { AreOf desk.now high × (seed ≤ 999999) }
            ensures { ServesTwo desk.entry.now seed count high result }
        { two(rt, desk, high, seed, count, gate, alloc) },
    )
}

// The two that report, and the sender.
fn three<R: Threads + Wait + Sync, G: Gate + Sync>(
    rt: &R,
    desk: &Desk,
    feedback: (Hand, Hand),
    sender: Hand,
    seed: u32,
    count: u32,
    gate: &G,
    alloc: Global,
) -> (((Pass, bool), (Pass, bool)), (Pass, bool))
    requires own { AreOf desk.now feedback × IsOf desk.now sender.pass }
    requires seed { seed ≤ 999999 }
    ensures feedback { ServesTwo desk.now seed count feedback result.0 }
    ensures sender { Serves desk.now seed count sender result.1 }
{
    join(
        rt,
        move || -> ((Pass, bool), (Pass, bool))
            requires { AreOf desk.now feedback × (seed ≤ 999999) }
            ensures { ServesTwo desk.entry.now seed count feedback result }
        { two(rt, desk, feedback, seed, count, gate, alloc) },
        move || -> (Pass, bool)
            requires { IsOf desk.now sender.pass × (seed ≤ 999999) }
            ensures { Serves desk.entry.now seed count sender result }
        { one(rt, desk, sender, seed, count, gate, alloc) },
    )
}

/// What came back of seven workers: each one's pass, and whether there was memory for all of its work.
#[derive(Drop)]
pub struct Backs {
    pub low: ((Pass, bool), (Pass, bool)),
    pub high: ((Pass, bool), (Pass, bool)),
    pub feedback: ((Pass, bool), (Pass, bool)),
    pub sender: (Pass, bool),
}

/// Seven workers at one desk, each in a thread of its own: each pass comes back with just the turns of its program, unless there was no
/// memory.
pub fn work_together<R: Threads + Wait + Sync, G: Gate + Sync>(
    rt: &R,
    desk: &Desk,
    low: (Hand, Hand),
    high: (Hand, Hand),
    feedback: (Hand, Hand),
    sender: Hand,
    seed: u32,
    count: u32,
    gate: &G,
    alloc: Global,
) -> Backs
    requires players { AreOf desk.now low × AreOf desk.now high }
    requires others { AreOf desk.now feedback × IsOf desk.now sender.pass }
    requires seed { seed ≤ 999999 }
    ensures low { ServesTwo desk.now seed count low result.low }
    ensures high { ServesTwo desk.now seed count high result.high }
    ensures feedback { ServesTwo desk.now seed count feedback result.feedback }
    ensures sender { Serves desk.now seed count sender result.sender }
{
    let ((low, high), (feedback, sender)) = join(
        rt,
        move || -> (((Pass, bool), (Pass, bool)), ((Pass, bool), (Pass, bool)))
            requires { AreOf desk.now low × AreOf desk.now high × (seed ≤ 999999) }
            ensures low { ServesTwo desk.entry.now seed count low result.0 }
            ensures high { ServesTwo desk.entry.now seed count high result.1 }
        { four(rt, desk, low, high, seed, count, gate, alloc) },
        move || -> (((Pass, bool), (Pass, bool)), (Pass, bool))
            requires { AreOf desk.now feedback × IsOf desk.now sender.pass × (seed ≤ 999999) }
            ensures feedback { ServesTwo desk.entry.now seed count feedback result.0 }
            ensures sender { Serves desk.entry.now seed count sender result.1 }
        { three(rt, desk, feedback, sender, seed, count, gate, alloc) },
    );
    Backs {
        low,
        high,
        feedback,
        sender,
    }
}
