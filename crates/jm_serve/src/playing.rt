//! The commands of a participant, played at the desk.

ghost use Rattle.std.specs.Prelude.{◌≡◌, ◌≤◌, ◌+◌, length};
ghost use Rattle.jm_desk.specs.Sharing.{IsOf};
ghost use Rattle.jm_serve.specs.Acts.{GoesOn};
ghost use Rattle.jm_serve.specs.Playing.{tried_of, needs_cut, course_of, pace_tried, pace_of, scene_of, pumped_came, PlaysOnce, PlaysLast, CutsAtOnce, Tries, PlaysCommand, PlaysList};

use crate::pumping::pump;
use crate::sender::{DATA_WORKER, Pumped, Sender};
use crate::worked::Rounded;
use jm_book::{PlayFault, Played};
use jm_cmds::Command;
use jm_desk::{Desk, Pass};
use jm_edge::{Gate, Port};
use jm_receiver::Heard;
use jm_wire::Octets;
use std::alloc::{AllocError, Global};
use std::sync::Wait;

// How many packets are cut at most so that one command can be played.
const MOST_CUTS: u32 = 34;

// What one play of a command came to.
#[derive(Clone, Copy, Debug, PartialEq, Eq)]
pub enum Tried {
    // It was accepted.
    Accepted,
    // A limit of the journal keeps it out.
    PassedOver,
    // A packet has to be cut first.
    NeedsCut,
    // Nobody has this player's number.
    UnknownPlayer,
    // The tape is full.
    RecordFull,
    // There was no memory.
    NoMemory,
}

// How it goes on behind commands that were played.
#[derive(Clone, Copy, Debug, PartialEq, Eq)]
pub enum Course {
    // With what comes next.
    Next,
    // The participant isn't there, and the rest of its packet is dropped.
    Dropped,
    // The tape is full.
    RecordFull,
    // There was no memory.
    NoMemory,
}

// What an answer comes to.
fn tried_of(answer: &Played) -> Tried
    ensures { result ≡ tried_of answer.now }
{
    match answer {
        Played::Accepted { .. } => Tried::Accepted,
        Played::Refused { why, .. } => match why {
            PlayFault::UnknownPlayer => Tried::UnknownPlayer,
            PlayFault::RecordFull { .. } => Tried::RecordFull,
            PlayFault::ParamsFull { .. } => Tried::PassedOver,
            PlayFault::PolyFull { .. } => Tried::PassedOver,
            PlayFault::SysexFull { .. } => Tried::PassedOver,
            PlayFault::NeedsCut { .. } => Tried::NeedsCut,
        },
    }
}

// Plays a command once.
fn play_once<R: Wait, G: Gate>(
    rt: &R,
    desk: &Desk,
    pass: &mut Pass,
    player: u8,
    command: &Command,
    now: u64,
    gate: &G,
    call: &mut u32,
    alloc: Global,
) -> Tried
    requires own { IsOf desk.now pass.old }
    ensures own { IsOf desk.now pass.new }
    ensures rest { GoesOn pass.old pass.new }
    ensures plays { PlaysOnce desk.now player command.now now result pass.old pass.new call.old call.new }
{
    let Ok(copied) = command.copy(alloc) else {
        return Tried::NoMemory;
    };
    gate.before(rt, DATA_WORKER, *call);
    let came = desk.play(rt, pass, player, copied, now);
    gate.after(rt, DATA_WORKER, *call);
    *call = call.wrapping_add(1);
    match came {
        Err(_unplayed) => Tried::NoMemory,
        Ok(turn) => tried_of(&turn.answer),
    }
}

// What the sender's answer comes to for its worker.
pub fn pumped_came(pumped: &Result<Pumped, AllocError>) -> Rounded
    ensures { result ≡ pumped_came pumped.now }
{
    match pumped {
        Err(_none) => Rounded::NoMemory,
        Ok(answer) => match answer {
            Pumped::RecordFull { .. } => Rounded::RecordFull,
            Pumped::Idle => Rounded::Whole,
            Pumped::Packet { .. } => Rounded::Whole,
            Pumped::Behind { .. } => Rounded::Whole,
        },
    }
}

// Asks the sender for a packet at once.
fn cut_at_once<R: Wait, P: Port, G: Gate>(
    rt: &R,
    desk: &Desk,
    pass: &mut Pass,
    port: &mut P,
    out: &mut Octets,
    now: u64,
    gate: &G,
    sender: &mut Sender,
) -> Rounded
    requires own { IsOf desk.now pass.old }
    requires room { 21100 ≤ out.old.spare + length out.old.octets }
    ensures own { IsOf desk.now pass.new }
    ensures rest { GoesOn pass.old pass.new }
    ensures room { 21100 ≤ out.new.spare + length out.new.octets }
    ensures cuts { CutsAtOnce desk.now now result (pace_of sender.old) (pace_of sender.new)
        (scene_of pass.old (P.wire port.old) sender.old) (scene_of pass.new (P.wire port.new) sender.new) }
{
    let pumped = pump(rt, desk, pass, port, out, now, gate, sender, true);
    pumped_came(&pumped)
}

// Whether a packet has to be cut first.
fn needs_cut(what: Tried) -> bool
    ensures { result ≡ needs_cut what }
{
    match what {
        Tried::NeedsCut => true,
        Tried::Accepted => false,
        Tried::PassedOver => false,
        Tried::UnknownPlayer => false,
        Tried::RecordFull => false,
        Tried::NoMemory => false,
    }
}

// How it goes on behind a play.
fn course_of(what: Tried) -> Course
    ensures { result ≡ course_of what }
{
    match what {
        Tried::Accepted => Course::Next,
        Tried::PassedOver => Course::Next,
        Tried::NeedsCut => Course::Next,
        Tried::UnknownPlayer => Course::Dropped,
        Tried::RecordFull => Course::RecordFull,
        Tried::NoMemory => Course::NoMemory,
    }
}

// A play that was accepted is owed to the peers.
fn owe(what: Tried, sender: &mut Sender)
    ensures owed { pace_of sender.new ≡ pace_tried what (pace_of sender.old) }
    ensures call { sender.new.call ≡ sender.old.call }
    ensures faults { sender.new.send_faults ≡ sender.old.send_faults }
{
    if what == Tried::Accepted {
        sender.owed = true;
    }
}

// Plays a command, and asks the sender for a packet where one has to be cut first. `None` where it is to be played again.
fn try_once<R: Wait, P: Port, G: Gate>(
    rt: &R,
    desk: &Desk,
    pass: &mut Pass,
    port: &mut P,
    out: &mut Octets,
    player: u8,
    command: &Command,
    now: u64,
    gate: &G,
    sender: &mut Sender,
    alloc: Global,
) -> Option<Course>
    requires own { IsOf desk.now pass.old }
    requires room { 21100 ≤ out.old.spare + length out.old.octets }
    ensures own { IsOf desk.now pass.new }
    ensures rest { GoesOn pass.old pass.new }
    ensures room { 21100 ≤ out.new.spare + length out.new.octets }
    ensures tries { Tries desk.now player command.now now result (pace_of sender.old) (pace_of sender.new)
        (scene_of pass.old (P.wire port.old) sender.old) (scene_of pass.new (P.wire port.new) sender.new) }
{
    let what = play_once(
        rt,
        desk,
        pass,
        player,
        command,
        now,
        gate,
        &mut sender.call,
        alloc,
    );
    if !needs_cut(what) {
        owe(what, sender);
        return Some(course_of(what));
    }
    match cut_at_once(rt, desk, pass, port, out, now, gate, sender) {
        Rounded::Whole => None,
        Rounded::RecordFull => Some(Course::RecordFull),
        Rounded::NoMemory => Some(Course::NoMemory),
    }
}

// Plays a command behind the last cut that is made for it.
fn play_last<R: Wait, P: Port, G: Gate>(
    rt: &R,
    desk: &Desk,
    pass: &mut Pass,
    port: &mut P,
    player: u8,
    command: &Command,
    now: u64,
    gate: &G,
    sender: &mut Sender,
    alloc: Global,
) -> Course
    requires own { IsOf desk.now pass.old }
    ensures own { IsOf desk.now pass.new }
    ensures rest { GoesOn pass.old pass.new }
    ensures ends { PlaysLast desk.now player command.now now 34 result (pace_of sender.old) (pace_of sender.new)
        (scene_of pass.old (P.wire port.old) sender.old) (scene_of pass.new (P.wire port.new) sender.new) }
{
    let what = play_once(
        rt,
        desk,
        pass,
        player,
        command,
        now,
        gate,
        &mut sender.call,
        alloc,
    );
    owe(what, sender);
    course_of(what)
}

// Plays a command, with at most 34 packets cut for it, and passes it over then.
fn play_command<R: Wait, P: Port, G: Gate>(
    rt: &R,
    desk: &Desk,
    pass: &mut Pass,
    port: &mut P,
    out: &mut Octets,
    player: u8,
    command: &Command,
    now: u64,
    gate: &G,
    sender: &mut Sender,
    alloc: Global,
) -> Course
    requires own { IsOf desk.now pass.old }
    requires room { 21100 ≤ out.old.spare + length out.old.octets }
    ensures own { IsOf desk.now pass.new }
    ensures rest { GoesOn pass.old pass.new }
    ensures room { 21100 ≤ out.new.spare + length out.new.octets }
    ensures plays { PlaysCommand desk.now player command.now now result (pace_of sender.old) (pace_of sender.new)
        (scene_of pass.old (P.wire port.old) sender.old) (scene_of pass.new (P.wire port.new) sender.new) }
{
    for _cut in 0..MOST_CUTS {
        match try_once(
            rt, desk, pass, port, out, player, command, now, gate, sender, alloc,
        ) {
            Some(course) => return course,
            None => {}
        }
    }
    play_last(
        rt, desk, pass, port, player, command, now, gate, sender, alloc,
    )
}

// Plays what was heard of a packet, in order.
pub fn play_each<R: Wait, P: Port, G: Gate>(
    rt: &R,
    desk: &Desk,
    pass: &mut Pass,
    port: &mut P,
    out: &mut Octets,
    player: u8,
    heard: &[Heard],
    now: u64,
    gate: &G,
    sender: &mut Sender,
    alloc: Global,
) -> Course
    requires own { IsOf desk.now pass.old }
    requires room { 21100 ≤ out.old.spare + length out.old.octets }
    ensures own { IsOf desk.now pass.new }
    ensures rest { GoesOn pass.old pass.new }
    ensures room { 21100 ≤ out.new.spare + length out.new.octets }
    ensures plays { PlaysList desk.now player heard.now now result (pace_of sender.old) (pace_of sender.new)
        (scene_of pass.old (P.wire port.old) sender.old) (scene_of pass.new (P.wire port.new) sender.new) }
{
    for one in heard {
        match play_command(
            rt,
            desk,
            pass,
            port,
            out,
            player,
            &one.command,
            now,
            gate,
            sender,
            alloc,
        ) {
            Course::Next => {}
            Course::Dropped => return Course::Dropped,
            Course::RecordFull => return Course::RecordFull,
            Course::NoMemory => return Course::NoMemory,
        }
    }
    Course::Next
}
