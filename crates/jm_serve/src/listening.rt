//! What is done for one session with a datagram of the data port.

ghost use Rattle.std.specs.Prelude.{◌≡◌, ◌≤◌, ◌<◌, ◌+◌, ◌%◌, length};
ghost use Rattle.jm_desk.specs.Sharing.{IsOf};
ghost use Rattle.jm_serve.specs.Acts.{GoesOn};
ghost use Rattle.jm_serve.specs.Messages.{told_came};
ghost use Rattle.jm_serve.specs.Rounds.{letter_of};
ghost use Rattle.jm_serve.specs.Playing.{pace_of, scene_of};
ghost use Rattle.jm_serve.specs.Listening.{newcomer_by, begins_as_message, came_by, slots_after, Welcomes, HearsOnce, HearsPacket, TellsOnce, TakesOnce, ListensOnce};

use crate::listener::Listener;
use crate::message_calls::{Told, tell};
use crate::playing::{Course, play_each};
use crate::receivers::{Came, Receivers};
use crate::sender::{DATA_WORKER, Sender};
use crate::worked::Rounded;
use apple_msg::{Message, read_message};
use apple_session::PortKind;
use jm_book::{Acted, Heard};
use jm_desk::{Desk, Pass, Turned};
use jm_edge::{Addr, Gate, Port};
use jm_wire::Octets;
use std::alloc::{AllocError, Global};
use std::sync::Wait;

// The player's number and the source of who joined by a message.
fn newcomer_by(message: &Message, what: Told) -> Option<(u8, u32)>
    ensures { result ≡ newcomer_by message.now what }
{
    match what {
        Told::RecordFull => None,
        Told::NoMemory => None,
        Told::Done(acted) => match acted {
            Acted::Joined {
                mark: _mark,
                player,
            } => match message {
                Message::Invite { ssrc, .. } => Some((player, *ssrc)),
                _ => None,
            },
            _ => None,
        },
    }
}

// What a round comes to by what a message came to.
fn told_came(what: Told) -> Rounded
    ensures { result ≡ told_came what }
{
    match what {
        Told::Done(_act) => Rounded::Whole,
        Told::RecordFull => Rounded::RecordFull,
        Told::NoMemory => Rounded::NoMemory,
    }
}

// Behind a message that the session was told: who joined by it gets a receiver.
fn welcome(receivers: &mut Receivers, message: &Message, what: Told, alloc: Global) -> Rounded
    ensures { Welcomes message.now what receivers.old result receivers.new }
{
    match newcomer_by(message, what) {
        None => told_came(what),
        Some((player, ssrc)) => match receivers.welcome(player, ssrc, alloc) {
            Ok(()) => told_came(what),
            Err(_none) => Rounded::NoMemory,
        },
    }
}

// Tells the session a message, and makes a receiver for who joins by it.
fn take_message<R: Wait, P: Port, G: Gate>(
    rt: &R,
    desk: &Desk,
    pass: &mut Pass,
    port: &mut P,
    out: &mut Octets,
    from: Addr,
    message: &Message,
    now: u64,
    gate: &G,
    listener: &mut Listener,
    alloc: Global,
) -> Rounded
    requires own { IsOf desk.now pass.old }
    requires room { 21100 ≤ out.old.spare + length out.old.octets }
    ensures own { IsOf desk.now pass.new }
    ensures rest { GoesOn pass.old pass.new }
    ensures room { 21100 ≤ out.new.spare + length out.new.octets }
    ensures tells { TellsOnce desk.now from message.now now result listener.old.receivers listener.new.receivers
        (scene_of pass.old (P.wire port.old) listener.old.sender) (scene_of pass.new (P.wire port.new) listener.new.sender) }
    ensures pace { pace_of listener.new.sender ≡ pace_of listener.old.sender }
    ensures begun { listener.new.has_begun ≡ listener.old.has_begun }
{
    let what = tell(
        rt,
        desk,
        pass,
        port,
        out,
        PortKind::Rtp,
        from,
        message,
        now,
        gate,
        DATA_WORKER,
        &mut listener.sender.call,
        &mut listener.sender.send_faults,
    );
    welcome(&mut listener.receivers, message, what, alloc)
}

// Tells the session that a packet with these low 16 bits of its number was heard.
fn hear_once<R: Wait, G: Gate>(
    rt: &R,
    desk: &Desk,
    pass: &mut Pass,
    ssrc: u32,
    number: u16,
    gate: &G,
    call: &mut u32,
) -> Result<Heard, AllocError>
    requires own { IsOf desk.now pass.old }
    ensures own { IsOf desk.now pass.new }
    ensures rest { GoesOn pass.old pass.new }
    ensures hears { HearsOnce desk.now ssrc number result pass.old pass.new call.old call.new }
{
    gate.before(rt, DATA_WORKER, *call);
    let came = desk.hear(rt, pass, ssrc, number);
    gate.after(rt, DATA_WORKER, *call);
    *call = call.wrapping_add(1);
    match came {
        Err(none) => Err(none),
        Ok(Turned { answer, .. }) => match answer {
            Heard::Noted => Ok(Heard::Noted),
            Heard::UnknownSsrc => Ok(Heard::UnknownSsrc),
            Heard::RecordFull { events } => Ok(Heard::RecordFull { events }),
        },
    }
}

// Tells the session that a packet was heard, and plays what was heard of it.
fn hear_packet<R: Wait, P: Port, G: Gate>(
    rt: &R,
    desk: &Desk,
    pass: &mut Pass,
    port: &mut P,
    out: &mut Octets,
    came: &Came,
    now: u64,
    gate: &G,
    sender: &mut Sender,
    alloc: Global,
) -> Course
    requires own { IsOf desk.now pass.old }
    requires room { 21100 ≤ out.old.spare + length out.old.octets }
    ensures own { IsOf desk.now pass.new }
    ensures rest { GoesOn pass.old pass.new }
    ensures room { 21100 ≤ out.new.spare + length out.new.octets }
    ensures hears { HearsPacket desk.now came.now now result (pace_of sender.old) (pace_of sender.new)
        (scene_of pass.old (P.wire port.old) sender.old) (scene_of pass.new (P.wire port.new) sender.new) }
{
    let number = (came.took.number % 65_536) as u16;
    match hear_once(rt, desk, pass, came.ssrc, number, gate, &mut sender.call) {
        Err(_none) => Course::NoMemory,
        Ok(answer) => match answer {
            Heard::UnknownSsrc => Course::Dropped,
            Heard::RecordFull { events: _events } => Course::RecordFull,
            Heard::Noted => play_each(
                rt,
                desk,
                pass,
                port,
                out,
                came.player,
                came.took.heard.as_slice(),
                now,
                gate,
                sender,
                alloc,
            ),
        },
    }
}

// What follows from how a packet was heard: a participant that isn't there any more is dropped.
fn settle(receivers: &mut Receivers, course: Course, place: usize) -> Rounded
    requires { place < length receivers.old }
    ensures came { result ≡ came_by course }
    ensures slots { receivers.new ≡ slots_after course place receivers.old }
{
    match course {
        Course::Next => Rounded::Whole,
        Course::Dropped => {
            receivers.remove(place);
            Rounded::Whole
        }
        Course::RecordFull => Rounded::RecordFull,
        Course::NoMemory => Rounded::NoMemory,
    }
}

// Gives a packet to the receiver of its stream, if there is one, and plays what that hears.
fn take_packet<R: Wait, P: Port, G: Gate>(
    rt: &R,
    desk: &Desk,
    pass: &mut Pass,
    port: &mut P,
    out: &mut Octets,
    octets: &[u8],
    now: u64,
    gate: &G,
    listener: &mut Listener,
    alloc: Global,
) -> Rounded
    requires own { IsOf desk.now pass.old }
    requires room { 21100 ≤ out.old.spare + length out.old.octets }
    ensures own { IsOf desk.now pass.new }
    ensures rest { GoesOn pass.old pass.new }
    ensures room { 21100 ≤ out.new.spare + length out.new.octets }
    ensures takes { TakesOnce desk.now octets.now now result listener.old.receivers listener.new.receivers (pace_of listener.old.sender) (pace_of listener.new.sender)
        (scene_of pass.old (P.wire port.old) listener.old.sender) (scene_of pass.new (P.wire port.new) listener.new.sender) }
    ensures begun { listener.new.has_begun ≡ listener.old.has_begun }
{
    match listener.receivers.take(octets) {
        Err(_none) => Rounded::NoMemory,
        Ok(taken) => match taken {
            None => Rounded::Whole,
            Some(came) => {
                let course = hear_packet(
                    rt,
                    desk,
                    pass,
                    port,
                    out,
                    &came,
                    now,
                    gate,
                    &mut listener.sender,
                    alloc,
                );
                settle(&mut listener.receivers, course, came.place)
            }
        },
    }
}

// Whether these octets begin as each message of the session protocol does.
fn begins_as_message(octets: &[u8]) -> bool
    ensures { result ≡ begins_as_message octets.now }
{
    match octets {
        [0xFF, 0xFF, ..] => true,
        _ => false,
    }
}

// Does for the session what a datagram of these octets asks, where one came: what begins as a message is told to it, or passed over
// where it isn't one, and any other is taken as a packet.
pub fn listen<R: Wait, P: Port, G: Gate>(
    rt: &R,
    desk: &Desk,
    pass: &mut Pass,
    port: &mut P,
    out: &mut Octets,
    from: Option<Addr>,
    octets: &[u8],
    now: u64,
    gate: &G,
    listener: &mut Listener,
    alloc: Global,
) -> Rounded
    requires own { IsOf desk.now pass.old }
    requires room { 21100 ≤ out.old.spare + length out.old.octets }
    ensures own { IsOf desk.now pass.new }
    ensures rest { GoesOn pass.old pass.new }
    ensures room { 21100 ≤ out.new.spare + length out.new.octets }
    ensures listens { ListensOnce desk.now (letter_of from octets.now) now result listener.old.receivers listener.new.receivers (pace_of listener.old.sender) (pace_of listener.new.sender)
        (scene_of pass.old (P.wire port.old) listener.old.sender) (scene_of pass.new (P.wire port.new) listener.new.sender) }
    ensures begun { listener.new.has_begun ≡ listener.old.has_begun }
{
    match from {
        None => Rounded::Whole,
        Some(from) => {
            if !begins_as_message(octets) {
                return take_packet(
                    rt, desk, pass, port, out, octets, now, gate, listener, alloc,
                );
            }
            match read_message(octets) {
                Err(_fault) => Rounded::Whole,
                Ok(message) => take_message(
                    rt, desk, pass, port, out, from, &message, now, gate, listener, alloc,
                ),
            }
        }
    }
}
