//! A whole jam, from its desk to its tape.
ghost use Rattle.std.specs.Prelude.{◌≡◌, ◌≤◌, IfOk, IsTrue, codes};
ghost use Rattle.jm_turn.specs.Views.{newcomer};
ghost use Rattle.jm_book.specs.Legal.{IsLegal};
ghost use Rattle.jm_desk.specs.Sharing.{IsOf, config_of};
ghost use Rattle.jm_jam.specs.Whole.{jam_config, IsJamTape};
ghost use Rattle.jm_jam.specs.Parting.{IsAlone, IsFresh, Works, Makes};

use crate::crew::work_together;
use crate::opening::{cut_last, open_all};
use crate::parting::{Crew, gather, split_all};
use apple_msg::Name;
use jm_book::{Book, Config, Step};
use jm_desk::{Desk, Pass};
use jm_edge::Gate;
use std::alloc::{AllocError, Global};
use std::sync::Wait;
use std::thread::Threads;

/// What comes of a jam.
#[derive(Drop)]
pub struct Jammed {
    /// The steps of its session.
    pub tape: Vec<Step>,
    /// Whether there was memory for all of it.
    pub done: bool,
}

// The name that the host gives itself.
fn host_name() -> Name
    ensures { result ≡ codes "midi_host" }
{
    let Some(name) = Name::new(b"midi_host") else {
        unreachable!()
    };
    name
}

// A fresh desk.
fn new_desk(alloc: Global) -> Result<(Desk, Pass), AllocError>
    ensures own { IfOk result (λ t. IsOf t.0 t.1) }
    ensures config { IfOk result (λ t. config_of t.0 ≡ jam_config) }
    ensures view { IfOk result (λ t. t.1.view ≡ newcomer t.0.first) }
{
    let config = Config {
        ssrc: 0,
        events: 4_194_304,
        name: host_name(),
    };
    let book = Book::new(config, alloc)?;
    Desk::new(book, alloc)
}

// All workers work, and the caller cuts once more and takes in their passes. It says whether there was memory for all.
fn work_all<R: Threads + Wait + Sync, G: Gate + Sync>(
    rt: &R,
    desk: &Desk,
    pass: &mut Pass,
    seed: u32,
    count: u32,
    gate: &G,
    alloc: Global,
) -> bool
    requires own { IsOf desk.now pass.old }
    requires fresh { IsFresh pass.old }
    requires seed { seed ≤ 999999 }
    ensures own { IsOf desk.now pass.new }
    ensures alone { IsAlone pass.new }
    ensures works { IsTrue result → Works desk.now seed count pass.old.view.seen pass.new }
{
    let Crew {
        low,
        high,
        feedback,
        sender,
    } = split_all(desk, pass);
    let backs = work_together(
        rt, desk, low, high, feedback, sender, seed, count, gate, alloc,
    );
    let cut = cut_last(rt, desk, pass, count, alloc);
    let worked = gather(desk, pass, backs);
    cut && worked
}

// All turns of a jam, at a fresh desk.
fn make_all<R: Threads + Wait + Sync, G: Gate + Sync>(
    rt: &R,
    desk: &Desk,
    pass: &mut Pass,
    seed: u32,
    count: u32,
    gate: &G,
    alloc: Global,
) -> bool
    requires own { IsOf desk.now pass.old }
    requires view { pass.old.view ≡ newcomer desk.now.first }
    requires seed { seed ≤ 999999 }
    ensures own { IsOf desk.now pass.new }
    ensures alone { IsAlone pass.new }
    ensures makes { IsTrue result → Makes desk.now seed count pass.new }
{
    if !open_all(rt, desk, pass) {
        return false;
    }
    work_all(rt, desk, pass, seed, count, gate, alloc)
}

/// A whole jam, at a desk of its own: four players enter and two participants join; seven workers, each in a thread of its own, do
/// their jobs; then the caller cuts once more, at the tick behind all steps, and the desk is closed. The flag says whether there was
/// memory for all. The tape is legal in any case; where there was memory it has the steps of a history in which each turn is the
/// caller's or of one worker's program, by what the calls were answered.
///
/// The session has the SSRC 0 and room for 4,194,304 steps. `seed` is at most 999,999, and `count` says how many steps each worker
/// makes. A gate is called round each call of a worker, and not round those of the caller.
pub fn jam<R: Threads + Wait + Sync, G: Gate + Sync>(
    rt: &R,
    seed: u32,
    count: u32,
    gate: &G,
    alloc: Global,
) -> Jammed
    requires seed { seed ≤ 999999 }
    ensures legal { IsLegal jam_config result.tape.items }
    ensures played { IsTrue result.done → IsJamTape seed count result.tape.items }
{
    match new_desk(alloc) {
        Err(_) => Jammed {
            tape: Vec::new(alloc),
            done: false,
        },
        Ok((desk, pass)) => {
            let mut pass = pass;
            let done = make_all(rt, &desk, &mut pass, seed, count, gate, alloc);
            let tape = desk.close(pass);
            Jammed { tape, done }
        }
    }
}
