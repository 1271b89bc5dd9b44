// What no clause says: that the calls come to an end, with two threads as with one, and a worked session.
ghost use Rattle.std.specs.Prelude.{◌≡◌, ◌≤◌, [], IfOk};
ghost use Rattle.jm_desk.specs.Sharing.{IsOf};

use apple_msg::{Message, Name};
use apple_session::{PortKind, Why};
use jm_book::{
    Acked, Acted, AddrList, Book, Config, Cutted, Entered, FeedbackList, Given, Gone, Heard,
    Joined, Played, Said, Step,
};
use jm_cmds::{Channel, Command, D7};
use jm_desk::*;
use jm_edge::Addr;
use jm_wire::Octets;
use std::alloc::Global;
use std::sync::Wait;
use std::test::*;
use std::thread;
use std::thread::Threads;

// A call.
#[derive(Clone, Copy)]
enum Line {
    Enter,
    Join,
    Play,
    Cut,
    Ack,
    Hear,
    Feedback,
    Leave,
    Bye,
}

// What it answers; of a list how long it is, of a packet how many octets it has.
#[derive(Clone, Copy, Debug, PartialEq, Eq)]
enum Told {
    Entered(Entered),
    Joined(Joined),
    Accepted(u64),
    Refused,
    Cut(Cutted, usize, usize),
    Acked(Acked),
    Heard(Heard),
    Given(Given, usize),
    Gone(Gone),
    Said(bool, Acted),
    Full,
}

fn new_book(events: u32, alloc: Global) -> Result<Book, Fail>
    requires { (1 ≤ events) × (events ≤ 4194304) }
    ensures { IfOk result (λ b. b.steps ≡ []) }
{
    let name = Name::new(b"midi_host").ok_or("a name")?;
    let config = Config {
        ssrc: 0x1122_3344,
        events,
        name,
    };
    Ok(Book::new(config, alloc)?)
}

fn note() -> Result<Command, Fail> {
    Ok(Command::NoteOn {
        channel: Channel::new(0).ok_or("a channel")?,
        note: D7::new(60).ok_or("a note")?,
        velocity: D7::new(100).ok_or("a velocity")?,
    })
}

fn play<R: Wait>(rt: &R, desk: &Desk, pass: &mut Pass) -> Result<Turned<Told>, Fail>
    requires { IsOf desk.now pass.old }
    ensures own { IsOf desk.now pass.new }
    ensures same { (pass.new.view.kind ≡ pass.old.view.kind) × (pass.new.view.out ≡ pass.old.view.out) }
{
    let command = note()?;
    match desk.play(rt, pass, 0, command, 100) {
        Err(_) => Err(Fail::new("no memory")),
        Ok(Turned { answer, at }) => {
            let answer = match answer {
                Played::Accepted { serial, .. } => Told::Accepted(serial),
                Played::Refused { .. } => Told::Refused,
            };
            Ok(Turned { answer, at })
        }
    }
}

fn cut<R: Wait>(rt: &R, desk: &Desk, pass: &mut Pass, alloc: Global) -> Result<Turned<Told>, Fail>
    requires { IsOf desk.now pass.old }
    ensures own { IsOf desk.now pass.new }
    ensures same { (pass.new.view.kind ≡ pass.old.view.kind) × (pass.new.view.out ≡ pass.old.view.out) }
{
    let mut out = Octets::with_room(21_100, alloc)?;
    let mut to = AddrList::new();
    let Turned { answer, at } = desk.cut(rt, pass, 100, &mut out, &mut to)?;
    Ok(Turned {
        answer: Told::Cut(answer, out.as_slice().len(), to.as_slice().len()),
        at,
    })
}

fn feedback<R: Wait>(rt: &R, desk: &Desk, pass: &mut Pass) -> Result<Turned<Told>, Fail>
    requires { IsOf desk.now pass.old }
    ensures own { IsOf desk.now pass.new }
    ensures same { (pass.new.view.kind ≡ pass.old.view.kind) × (pass.new.view.out ≡ pass.old.view.out) }
{
    let mut list = FeedbackList::new();
    let Turned { answer, at } = desk.feedback(rt, pass, &mut list)?;
    Ok(Turned {
        answer: Told::Given(answer, list.as_slice().len()),
        at,
    })
}

fn bye<R: Wait>(rt: &R, desk: &Desk, pass: &mut Pass) -> Result<Turned<Told>, Fail>
    requires { IsOf desk.now pass.old }
    ensures own { IsOf desk.now pass.new }
    ensures same { (pass.new.view.kind ≡ pass.old.view.kind) × (pass.new.view.out ≡ pass.old.view.out) }
{
    let from = Addr {
        host: 0x7F00_0001,
        port: 5004,
    };
    let message = Message::Bye {
        token: 0x0102_0304,
        ssrc: 0x22,
    };
    let Turned { answer, at } = desk.say(rt, pass, PortKind::Ctl, from, &message, 70)?;
    let answer = match answer {
        Said::RecordFull { .. } => Told::Full,
        Said::Done { reply, act } => Told::Said(reply.is_some(), act),
    };
    Ok(Turned { answer, at })
}

fn call<R: Wait>(
    rt: &R,
    desk: &Desk,
    pass: &mut Pass,
    line: Line,
    alloc: Global,
) -> Result<Turned<Told>, Fail>
    requires { IsOf desk.now pass.old }
    ensures own { IsOf desk.now pass.new }
    ensures same { (pass.new.view.kind ≡ pass.old.view.kind) × (pass.new.view.out ≡ pass.old.view.out) }
{
    match line {
        Line::Enter => {
            let Turned { answer, at } = desk.enter(rt, pass)?;
            Ok(Turned {
                answer: Told::Entered(answer),
                at,
            })
        }
        Line::Join => {
            let Turned { answer, at } = desk.join(rt, pass, 0x22)?;
            Ok(Turned {
                answer: Told::Joined(answer),
                at,
            })
        }
        Line::Ack => {
            let Turned { answer, at } = desk.ack(rt, pass, 0x22, 0)?;
            Ok(Turned {
                answer: Told::Acked(answer),
                at,
            })
        }
        Line::Hear => {
            let Turned { answer, at } = desk.hear(rt, pass, 0x22, 5)?;
            Ok(Turned {
                answer: Told::Heard(answer),
                at,
            })
        }
        Line::Leave => {
            let Turned { answer, at } = desk.leave(rt, pass, 0x22)?;
            Ok(Turned {
                answer: Told::Gone(answer),
                at,
            })
        }
        Line::Play => play(rt, desk, pass),
        Line::Cut => cut(rt, desk, pass, alloc),
        Line::Feedback => feedback(rt, desk, pass),
        Line::Bye => bye(rt, desk, pass),
    }
}

// Makes these calls, and says whether each was answered so, at the next place.
fn made<R: Wait>(
    rt: &R,
    desk: &Desk,
    pass: &mut Pass,
    lines: &[(Line, Told)],
    alloc: Global,
) -> Result<bool, Fail>
    requires { IsOf desk.now pass.old }
    ensures own { IsOf desk.now pass.new }
    ensures same { (pass.new.view.kind ≡ pass.old.view.kind) × (pass.new.view.out ≡ pass.old.view.out) }
{
    let mut place = 0;
    let mut good = true;
    for (line, told) in lines {
        let Turned { answer, at } = call(rt, desk, pass, *line, alloc)?;
        good = good && answer == *told && at == place;
        place = at.wrapping_add(1);
    }
    Ok(good)
}

#[test]
fn a_session_by_two_passes(rt: HostRuntime) -> Result<(), Fail> {
    let (desk, mut opening) = Desk::new(new_book(8, rt.alloc())?, rt.alloc())?;
    assert_eq!(rt; desk.ssrc(), 0x1122_3344);
    let mut other = opening.split(&desk);
    let joined = Joined::At {
        mark: 0,
        player: 64,
    };
    let lines = [
        (Line::Enter, Told::Entered(Entered::Player(0))),
        (Line::Join, Told::Joined(joined)),
        (Line::Play, Told::Accepted(0)),
        (Line::Cut, Told::Cut(Cutted::Packet { number: 0 }, 16, 0)),
        (Line::Ack, Told::Acked(Acked::Old { mark: 0 })),
        (Line::Hear, Told::Heard(Heard::Noted)),
        (Line::Feedback, Told::Given(Given::Given, 0)),
        (Line::Leave, Told::Gone(Gone::Left)),
        (Line::Bye, Told::Said(false, Acted::Ignored(Why::Unknown))),
    ];
    let good = made(&rt, &desk, &mut opening, &lines, rt.alloc())?;
    assert!(rt; good);
    assert_eq!(rt; desk.front(&mut opening), 9);
    assert_eq!(rt; desk.front(&mut other), 9);
    other.meet(&desk, &mut opening);
    assert_eq!(rt; desk.front(&mut other), 9);
    opening.join(&desk, other);
    assert_eq!(rt; desk.close(opening).len(), 7);
    Ok(())
}

// How many notes each of two threads plays. No cut is needed for them all.
const EACH: u8 = 100;

fn struck(player: u8, note: u8) -> Command {
    Command::NoteOn {
        channel: Channel::low(player),
        note: D7::low(note),
        velocity: D7::low(1),
    }
}

// Whether a note was accepted.
fn strike<R: Wait>(rt: &R, desk: &Desk, pass: &mut Pass, player: u8, note: u8) -> bool
    requires { IsOf desk.now pass.old }
    ensures own { IsOf desk.now pass.new }
    ensures same { (pass.new.view.kind ≡ pass.old.view.kind) × (pass.new.view.out ≡ pass.old.view.out) }
{
    match desk.play(rt, pass, player, struck(player, note), 0) {
        Err(_) => false,
        Ok(turn) => match turn.answer {
            Played::Accepted { .. } => true,
            Played::Refused { .. } => false,
        },
    }
}

// The number of a player that enters.
fn enter<R: Wait>(rt: &R, desk: &Desk, pass: &mut Pass) -> Option<u8>
    requires { IsOf desk.now pass.old }
    ensures own { IsOf desk.now pass.new }
    ensures same { (pass.new.view.kind ≡ pass.old.view.kind) × (pass.new.view.out ≡ pass.old.view.out) }
{
    match desk.enter(rt, pass) {
        Err(_) => None,
        Ok(turn) => match turn.answer {
            Entered::Player(player) => Some(player),
            _ => None,
        },
    }
}

// A player enters and plays its notes. It says whether each was accepted.
fn play_notes<R: Wait>(rt: &R, desk: &Desk, mut pass: Pass) -> (Pass, bool)
    requires { IsOf desk.now pass }
    ensures own { IsOf desk.now result.0 }
    ensures same { (result.0.view.kind ≡ pass.view.kind) × (result.0.view.out ≡ pass.view.out) }
{
    let Some(player) = enter(rt, desk, &mut pass) else {
        return (pass, false);
    };
    let mut good = true;
    for note in 0..EACH {
        good = strike(rt, desk, &mut pass, player, note) && good;
    }
    (pass, good)
}

// Two threads, each with a pass.
fn two<R: Threads + Wait + Sync>(
    rt: &R,
    desk: &Desk,
    one: Pass,
    other: Pass,
) -> ((Pass, bool), (Pass, bool))
    requires { IsOf desk.now one × IsOf desk.now other }
    ensures own { IsOf desk.now result.0.0 × IsOf desk.now result.1.0 }
    ensures first { (result.0.0.view.kind ≡ one.view.kind) × (result.0.0.view.out ≡ one.view.out) }
    ensures second { (result.1.0.view.kind ≡ other.view.kind) × (result.1.0.view.out ≡ other.view.out) }
{
    thread::join(
        rt,
        move || -> (Pass, bool)
            requires { IsOf desk.now one }
            ensures { IsOf desk.entry.now result.0 × (result.0.view.kind ≡ one.view.kind) × (result.0.view.out ≡ one.view.out) }
        { play_notes(rt, desk, one) },
        move || -> (Pass, bool)
            requires { IsOf desk.now other }
            ensures { IsOf desk.entry.now result.0 × (result.0.view.kind ≡ other.view.kind) × (result.0.view.out ≡ other.view.out) }
        { play_notes(rt, desk, other) },
    )
}

// Whether a tape has just the notes of this player, in order.
fn has_notes(tape: &[Step], player: u8) -> bool {
    let mut next = 0u8;
    let mut good = true;
    for step in tape {
        if let Step::Play {
            player: by,
            command,
            ..
        } = step
        {
            if *by == player {
                good = good && *command == struck(player, next);
                next = next.wrapping_add(1);
            }
        }
    }
    good && next == EACH
}

#[test]
fn two_threads_at_a_desk(rt: HostRuntime) -> Result<(), Fail> {
    let (desk, mut opening) = Desk::new(new_book(202, rt.alloc())?, rt.alloc())?;
    let other = opening.split(&desk);
    let ((mut opening, first), (other, second)) = two(&rt, &desk, opening, other);
    assert!(rt; first && second);
    opening.join(&desk, other);
    let tape = desk.close(opening);
    assert_eq!(rt; tape.len(), 202);
    assert!(rt; has_notes(tape.as_slice(), 0) && has_notes(tape.as_slice(), 1));
    Ok(())
}
