//! The top call of `invite`.

ghost use Rattle.std.specs.Prelude.{◌≡◌, ◌≢◌, ◌+◌, ◌<◌, ◌≤◌, ◌↔◌, length, None, OnOk, OnErr};
ghost use Rattle.jm_edge.specs.Faults.{Rose};
ghost use Rattle.midi_host.specs.Wrote.{Wrote, WrotePart};
ghost use Rattle.midi_host.specs.Ended.{ended_line};
ghost use Rattle.midi_host.specs.Invitation.{invitation_of};
ghost use Rattle.midi_host.specs.Invite.{Invites, InvitesBy};

use super::ended::write_ended;
use super::invitation::{Invitation, invitation_of};
use super::replay::host_name;
use super::status::Status;
use super::word::Word;
use super::writing::{WriteFailed, write_all};
use apple_call::{TurnsEnd, call_host};
use apple_invite::{Inviter, Phase};
use jm_edge::{LONGEST_DATAGRAM, Port, Sink, Ticker};
use jm_wire::Octets;
use std::alloc::Global;

/// The SSRC of the inviter.
const SSRC: u32 = 0x4D49_4455;

/// The number of its one invitation.
const TOKEN: u32 = 1;

/// The octets that the longest message and the longest line need.
const ROOM: usize = 80;

// Writes the line that a call ends with.
fn tell<K: Sink>(
    phase: Phase,
    clocks: u64,
    out: &mut Octets,
    sink: &mut K,
) -> Result<(), WriteFailed>
    requires { 80 ≤ out.old.spare + length out.old.octets }
    ensures ok { OnOk result (Wrote (K.written sink.old) (K.written sink.new) (ended_line phase clocks)) }
    ensures err { OnErr result (WrotePart (K.written sink.old) (K.written sink.new) (ended_line phase clocks)) }
    ensures counted { K.faults sink.old ≤ K.faults sink.new }
    ensures rose { OnErr result (Rose (K.faults sink.old) (K.faults sink.new)) }
{
    write_ended(phase, clocks, out);
    write_all(sink, out.as_slice())
}

// Calls a host, over room for a datagram that comes and for one that goes.
fn call<P: Port, C: Ticker, K: Sink>(
    invitation: Invitation,
    control: &mut P,
    data_port: &mut P,
    ticks: &mut C,
    sink: &mut K,
    buf: &mut [u8],
    out: &mut Octets,
) -> Status
    requires to { invitation.to.port < 65535 }
    requires buf { length buf.old ≡ 65536 }
    requires room { 80 ≤ out.old.spare + length out.old.octets }
    ensures ends { Invites result invitation
        (record { control = P.wire control.old; rtp = P.wire data_port.old; coming = C.coming ticks.old })
        (record { control = P.wire control.new; rtp = P.wire data_port.new; coming = C.coming ticks.new })
        (record { written = K.written sink.old; faults = K.faults sink.old })
        (record { written = K.written sink.new; faults = K.faults sink.new }) }
    ensures asked { result ≢ Status.Usage }
    ensures counted { K.faults sink.old ≤ K.faults sink.new }
{
    let inviter = Inviter::new(SSRC, TOKEN, host_name(), invitation.to);
    let called = call_host(
        inviter,
        invitation.to,
        invitation.turns,
        control,
        data_port,
        ticks,
        buf,
        out,
    );
    match called.end {
        TurnsEnd::Made => match tell(called.phase, called.clocks, out, sink) {
            Ok(()) => Status::Done,
            Err(_) => Status::WriteFault,
        },
        TurnsEnd::ControlFailed | TurnsEnd::DataFailed => {
            let _told = tell(called.phase, called.clocks, out, sink);
            Status::PortFault
        }
    }
}

/// Calls the host that the words name, over two ports and a clock, and writes one line that tells how that ended:
/// `ended PHASE clocks N`.
///
/// The words are `invite ADDR TURNS`. ADDR is that of the host's control port, eight hexadecimal digits, a colon and a port below
/// 65,535; its data port is the next one. TURNS is from 1 to 4,294,967,295. In each turn the clock is asked once and the moment
/// told to the inviter; then each port is received from once, control first, and what reads as a message is told to the inviter
/// with that moment. What the inviter gives is sent on its port, and a send that fails is passed over. Behind the turns the
/// inviter is closed. PHASE is what it had come to before that: `fresh`, `asking`, `open`, `closed no-answer`, `closed rejected`
/// or `closed bye`. N is how often the clocks were compared.
///
/// `Usage` comes exactly where the words aren't these, and then nothing is done. `PortFault` comes only where a receive failed
/// and that port's count of failed receives rose in this call; that ended the turns, and the close and the line came all the
/// same. `WriteFault` comes only where no receive failed and the sink's count of faults rose; a front of the line was written. At
/// `NoMemory` nothing was done.
pub fn run_invite<P: Port, C: Ticker, K: Sink>(
    words: &[Word],
    control: &mut P,
    data_port: &mut P,
    ticks: &mut C,
    sink: &mut K,
    alloc: Global,
) -> Status
    ensures usage { (result ≡ Status.Usage) ↔ (invitation_of words.now ≡ None) }
    ensures ends { InvitesBy (invitation_of words.now) result
        (record { control = P.wire control.old; rtp = P.wire data_port.old; coming = C.coming ticks.old })
        (record { control = P.wire control.new; rtp = P.wire data_port.new; coming = C.coming ticks.new })
        (record { written = K.written sink.old; faults = K.faults sink.old })
        (record { written = K.written sink.new; faults = K.faults sink.new }) }
    ensures writes_counted { K.faults sink.old ≤ K.faults sink.new }
{
    let Some(invitation) = invitation_of(words) else {
        return Status::Usage;
    };
    let Ok(mut buf) = vec![in alloc; 0u8; LONGEST_DATAGRAM] else {
        return Status::NoMemory;
    };
    let Ok(mut out) = Octets::with_room(ROOM, alloc) else {
        return Status::NoMemory;
    };
    call(
        invitation,
        control,
        data_port,
        ticks,
        sink,
        buf.as_mut_slice(),
        &mut out,
    )
}
