//! A served session, from its desk to its tape: two workers, each in a thread of its own.

ghost use Rattle.std.specs.Prelude.{◌≡◌, ◌≤◌, IfOk, OnErr, codes};
ghost use Rattle.jm_turn.specs.Views.{newcomer};
ghost use Rattle.jm_book.specs.Legal.{IsLegal};
ghost use Rattle.jm_desk.specs.Sharing.{IsOf, config_of};
ghost use Rattle.jm_serve.specs.Acts.{GoesOn};
ghost use Rattle.jm_serve.specs.ServedControl.{ServesControl};
ghost use Rattle.jm_serve.specs.ServedData.{ServesData};
ghost use Rattle.midi_host.specs.ServeWords.{AreWithin};
ghost use Rattle.midi_host.specs.ServedSession.{config_for, IsServed, AreUntouched};

use super::replay::host_name;
use super::serve_words::ServeWords;
use jm_book::{Book, Config, Step};
use jm_desk::{Desk, Pass};
use jm_edge::{Gate, Port, Ticker};
use jm_serve::{Worked, serve_control, serve_data};
use std::alloc::{AllocError, Global};
use std::sync::Wait;
use std::thread::{Threads, join_mut};

/// What comes of a served session.
#[derive(Drop)]
pub struct Served {
    /// The steps that were taken.
    pub tape: Vec<Step>,
    /// What the control port's worker came to.
    pub control: Worked,
    /// What the data port's worker came to.
    pub rtp: Worked,
}

// What both workers are told.
#[derive(Clone, Copy)]
struct Plan {
    turns: u32,
    alloc: Global,
}

/// The session that is asked for.
pub fn config_for(asked: &ServeWords) -> Config
    ensures { result ≡ config_for asked.now }
{
    Config {
        ssrc: asked.ssrc,
        events: asked.events,
        name: host_name(),
    }
}

// A fresh desk.
fn new_desk(asked: &ServeWords, alloc: Global) -> Result<(Desk, Pass), AllocError>
    requires { AreWithin asked.now }
    ensures own { IfOk result (λ t. IsOf t.0 t.1) }
    ensures config { IfOk result (λ t. config_of t.0 ≡ config_for asked.now) }
    ensures view { IfOk result (λ t. t.1.view ≡ newcomer t.0.first) }
{
    let book = Book::new(config_for(asked), alloc)?;
    Desk::new(book, alloc)
}

// Both workers work.
fn work_both<R: Threads + Wait + Sync, P: Port + Send, C: Ticker + Send, G: Gate + Sync>(
    rt: &R,
    desk: &Desk,
    control_pass: &mut Pass,
    data_pass: &mut Pass,
    control: &mut P,
    data_port: &mut P,
    control_ticks: &mut C,
    data_ticks: &mut C,
    gates: &G,
    plan: &Plan,
) -> (Worked, Worked)
    requires control { IsOf desk.now control_pass.old }
    requires plays { IsOf desk.now data_pass.old }
    ensures control_own { IsOf desk.now control_pass.new }
    ensures control_rest { GoesOn control_pass.old control_pass.new }
    ensures controls { ServesControl desk.now plan.now.turns result.0 control_pass.old control_pass.new (P.wire control.old) (P.wire control.new) (C.coming control_ticks.old) (C.coming control_ticks.new) }
    ensures data_own { IsOf desk.now data_pass.new }
    ensures data_rest { GoesOn data_pass.old data_pass.new }
    ensures plays { ServesData desk.now plan.now.turns result.1 data_pass.old data_pass.new (P.wire data_port.old) (P.wire data_port.new) (C.coming data_ticks.old) (C.coming data_ticks.new) }
{
    join_mut(
        rt,
        &mut || {
            serve_control(
                rt,
                desk,
                control_pass,
                control,
                control_ticks,
                gates,
                plan.turns,
                plan.alloc,
            )
        },
        &mut || {
            serve_data(
                rt, desk, data_pass, data_port, data_ticks, gates, plan.turns, plan.alloc,
            )
        },
    )
}

/// A served session, at a desk of its own: the control port's worker and that of the data port make their rounds side by side,
/// and the desk is closed. At `Err` there was no memory for the desk, and nothing was done.
///
/// Each worker makes as many rounds as are asked for, unless a receive fails, the tape is full or there is no memory. Nothing is
/// promised of delivery or time.
pub fn serve_session<R: Threads + Wait + Sync, P: Port + Send, C: Ticker + Send, G: Gate + Sync>(
    rt: &R,
    asked: &ServeWords,
    control: &mut P,
    data_port: &mut P,
    control_ticks: &mut C,
    data_ticks: &mut C,
    gates: &G,
    alloc: Global,
) -> Result<Served, AllocError>
    requires { AreWithin asked.now }
    ensures served { IfOk result (λ served. IsServed (config_for asked.now) asked.now.turns served.control served.rtp served.tape.items
        (record { control = record { wire = P.wire control.old; coming = C.coming control_ticks.old }; rtp = record { wire = P.wire data_port.old; coming = C.coming data_ticks.old } })
        (record { control = record { wire = P.wire control.new; coming = C.coming control_ticks.new }; rtp = record { wire = P.wire data_port.new; coming = C.coming data_ticks.new } })) }
    ensures legal { IfOk result (λ served. IsLegal (config_for asked.now) served.tape.items) }
    ensures none { OnErr result (AreUntouched
        (record { control = record { wire = P.wire control.old; coming = C.coming control_ticks.old }; rtp = record { wire = P.wire data_port.old; coming = C.coming data_ticks.old } })
        (record { control = record { wire = P.wire control.new; coming = C.coming control_ticks.new }; rtp = record { wire = P.wire data_port.new; coming = C.coming data_ticks.new } })) }
{
    let (desk, pass) = new_desk(asked, alloc)?;
    let mut pass = pass;
    let mut control_pass = pass.split(&desk);
    let mut data_pass = pass.split(&desk);
    let plan = Plan {
        turns: asked.turns,
        alloc,
    };
    let (control_worked, data_worked) = work_both(
        rt,
        &desk,
        &mut control_pass,
        &mut data_pass,
        control,
        data_port,
        control_ticks,
        data_ticks,
        gates,
        &plan,
    );
    // Each pass looks once more, so that it is known which places are its own.
    let _seen = desk.front(&mut control_pass);
    let _seen = desk.front(&mut data_pass);
    pass.join(&desk, control_pass);
    pass.join(&desk, data_pass);
    Ok(Served {
        tape: desk.close(pass),
        control: control_worked,
        rtp: data_worked,
    })
}
