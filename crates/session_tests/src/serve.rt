// What no clause says: a worked session over a port in memory.
ghost use Rattle.std.specs.Prelude.{◌≡◌, ◌≤◌, ◌+◌, [], length, IfOk};
ghost use Rattle.jm_turn.specs.declared.view.Kind.TheVariants.{Opening};
ghost use Rattle.jm_desk.specs.Sharing.{IsOf};

use apple_msg::{Message, Name};
use apple_session::PortKind;
use jm_book::{Book, Config};
use jm_cmds::{Channel, Command, D7};
use jm_desk::{Desk, Pass};
use jm_edge::{Addr, Datagram, FreeGate, MemPort, StepTicker};
use jm_serve::*;
use jm_wire::Octets;
use std::alloc::Global;
use std::sync::Wait;
use std::test::Fail;

const CONTROL: Addr = Addr {
    host: 0x7F00_0001,
    port: 5004,
};

const DATA: Addr = Addr {
    host: 0x7F00_0001,
    port: 5005,
};

const FIRST_PACKET: &[u8] = b"\x80\xE1\x00\x00\x00\x00\x00\x64\x11\x22\x33\x44\x03\x90\x3C\x64";

fn new_book(alloc: Global) -> Result<Book, Fail>
    ensures { IfOk result (λ b. b.steps ≡ []) }
{
    let name = Name::new(b"midi_host").ok_or("a name")?;
    let config = Config {
        ssrc: 0x1122_3344,
        events: 40_000,
        name,
    };
    Ok(Book::new(config, alloc)?)
}

fn new_sender() -> Sender {
    Sender {
        last_cut: 0,
        owed: false,
        call: 0,
        send_faults: 0,
    }
}

// A participant comes by its two invitations, and a player plays a note.
fn opened<R: Wait>(rt: &R, desk: &Desk, pass: &mut Pass) -> Result<(), Fail>
    requires { IsOf desk.now pass.old }
    ensures { IsOf desk.now pass.new }
{
    let invitation = Message::Invite {
        token: 0x0102_0304,
        ssrc: 0x22,
        name: Name::new(b"peer").ok_or("a name")?,
    };
    let _control = desk.say(rt, pass, PortKind::Ctl, CONTROL, &invitation, 0)?;
    let _data = desk.say(rt, pass, PortKind::Rtp, DATA, &invitation, 0)?;
    let _player = desk.enter(rt, pass)?;
    let note = Command::NoteOn {
        channel: Channel::new(0).ok_or("a channel")?,
        note: D7::new(60).ok_or("a note")?,
        velocity: D7::new(100).ok_or("a velocity")?,
    };
    match desk.play(rt, pass, 0, note, 100) {
        Ok(_) => Ok(()),
        Err(_) => Err(Fail::new("no memory")),
    }
}

#[test]
fn a_packet_when_it_is_due(rt: HostRuntime) -> Result<(), Fail> {
    let (desk, mut pass) = Desk::new(new_book(rt.alloc())?, rt.alloc())?;
    opened(&rt, &desk, &mut pass)?;
    let mut port = MemPort::new(rt.alloc(), Vec::new(rt.alloc()), 9, 900, &[], &[1])?;
    let mut out = Octets::with_room(21_100, rt.alloc())?;
    let mut sender = new_sender();
    sender.owed = true;
    let early = pump(
        &rt,
        &desk,
        &mut pass,
        &mut port,
        &mut out,
        99,
        &FreeGate,
        &mut sender,
        false,
    )?;
    assert_eq!(rt; early, Pumped::Idle);
    let due = pump(
        &rt,
        &desk,
        &mut pass,
        &mut port,
        &mut out,
        100,
        &FreeGate,
        &mut sender,
        false,
    )?;
    assert_eq!(rt; due, Pumped::Packet { number: 0 });
    let idle = pump(
        &rt,
        &desk,
        &mut pass,
        &mut port,
        &mut out,
        10_099,
        &FreeGate,
        &mut sender,
        false,
    )?;
    assert_eq!(rt; idle, Pumped::Idle);
    let lost = pump(
        &rt,
        &desk,
        &mut pass,
        &mut port,
        &mut out,
        10_100,
        &FreeGate,
        &mut sender,
        false,
    )?;
    assert_eq!(rt; lost, Pumped::Packet { number: 1 });
    assert!(rt; port.sent_at(0) == Some((DATA, FIRST_PACKET)));
    assert!(rt; port.sent_at(1) == None);
    assert_eq!(rt;
        sender,
        Sender {
            last_cut: 10_100,
            owed: false,
            call: 2,
            send_faults: 1
        }
    );
    Ok(())
}

const INVITATION: &[u8] =
    b"\xFF\xFF\x49\x4E\x00\x00\x00\x02\x01\x02\x03\x04\x00\x00\x00\x22\x61\x00";

const OK: &[u8] = b"\xFF\xFF\x4F\x4B\x00\x00\x00\x02\x01\x02\x03\x04\x11\x22\x33\x44midi_host\x00";

// A packet of the participant: its number 0, a note at 0.
const PLAYED: &[u8] = b"\x80\x61\x00\x00\x00\x00\x00\x00\x00\x00\x00\x22\x03\x90\x3C\x64";

// The host's packet with that note, which was played at 50.
const PASSED_ON: &[u8] = b"\x80\xE1\x00\x00\x00\x00\x00\x32\x11\x22\x33\x44\x03\x90\x3C\x64";

// A participant comes, and plays a note; what is no message and a packet that came before are passed over. The note goes out
// when 100 units have passed since the first round.
#[test]
fn what_a_participant_plays(rt: HostRuntime) -> Result<(), Fail> {
    let (desk, mut pass) = Desk::new(new_book(rt.alloc())?, rt.alloc())?;
    let invitation = Message::Invite {
        token: 0x0102_0304,
        ssrc: 0x22,
        name: Name::new(b"a").ok_or("a name")?,
    };
    let _control = desk.say(&rt, &mut pass, PortKind::Ctl, CONTROL, &invitation, 0)?;
    let mut arriving = Vec::new(rt.alloc());
    arriving.push(Datagram::new(rt.alloc(), DATA, INVITATION)?)?;
    arriving.push(Datagram::new(rt.alloc(), DATA, PLAYED)?)?;
    arriving.push(Datagram::new(rt.alloc(), DATA, b"\xFF\xFF\x80")?)?;
    arriving.push(Datagram::new(rt.alloc(), DATA, PLAYED)?)?;
    let mut port = MemPort::new(rt.alloc(), arriving, 9, 900, &[], &[])?;
    let mut ticks = StepTicker::new(0, 50);
    let worked = serve_data(
        &rt,
        &desk,
        &mut pass,
        &mut port,
        &mut ticks,
        &FreeGate,
        6,
        rt.alloc(),
    );
    assert!(rt; port.sent_at(0) == Some((DATA, OK)));
    assert!(rt; port.sent_at(1) == Some((DATA, PASSED_ON)));
    assert!(rt; port.sent_at(2) == None);
    assert_eq!(rt;
        worked,
        Worked {
            end: WorkEnd::Made,
            send_faults: 0
        }
    );
    assert_eq!(rt; desk.front(&mut pass), 5);
    Ok(())
}
