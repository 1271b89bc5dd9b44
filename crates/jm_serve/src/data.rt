//! The data port's worker: what it does in a round for one desk.

ghost use Rattle.std.specs.Prelude.{◌≡◌, ◌≤◌, ◌+◌, length, true};
ghost use Rattle.jm_desk.specs.Sharing.{IsOf, config_of};
ghost use Rattle.jm_serve.specs.Acts.{GoesOn};
ghost use Rattle.jm_serve.specs.Rounds.{letter_of, DoesRound};
ghost use Rattle.jm_serve.specs.Playing.{pace_of, scene_of};
ghost use Rattle.jm_serve.specs.Data.{pace_at, DataRound, SendsWhatIsDue};
ghost use Rattle.jm_serve.specs.ServedData.{ServesData};

use crate::listener::Listener;
use crate::listening::listen;
use crate::playing::pumped_came;
use crate::pumping::pump;
use crate::receivers::Receivers;
use crate::sender::Sender;
use crate::serving::{Worker, serve};
use crate::worked::{Rounded, Worked};
use jm_desk::{Desk, Pass};
use jm_edge::{Addr, Gate, Port, Ticker};
use jm_wire::Octets;
use std::alloc::Global;
use std::sync::Wait;

// In the first round: packets are counted from its moment.
fn begin(now: u64, listener: &mut Listener)
    ensures pace { pace_of listener.new.sender ≡ pace_at now listener.old }
    ensures begun { listener.new.has_begun ≡ true }
    ensures receivers { listener.new.receivers ≡ listener.old.receivers }
    ensures call { listener.new.sender.call ≡ listener.old.sender.call }
    ensures faults { listener.new.sender.send_faults ≡ listener.old.sender.send_faults }
{
    if !listener.has_begun {
        listener.has_begun = true;
        listener.sender.last_cut = now;
    }
}

// Sends what is due.
fn send_what_is_due<R: Wait, P: Port, G: Gate>(
    rt: &R,
    desk: &Desk,
    pass: &mut Pass,
    port: &mut P,
    out: &mut Octets,
    now: u64,
    gate: &G,
    sender: &mut Sender,
) -> Rounded
    requires own { IsOf desk.now pass.old }
    requires room { 21100 ≤ out.old.spare + length out.old.octets }
    ensures own { IsOf desk.now pass.new }
    ensures rest { GoesOn pass.old pass.new }
    ensures room { 21100 ≤ out.new.spare + length out.new.octets }
    ensures sends { SendsWhatIsDue desk.now now result (pace_of sender.old) (pace_of sender.new)
        (scene_of pass.old (P.wire port.old) sender.old) (scene_of pass.new (P.wire port.new) sender.new) }
{
    let pumped = pump(rt, desk, pass, port, out, now, gate, sender, false);
    pumped_came(&pumped)
}

/// What a round of the data port's worker does for one desk at the moment `now`, in units of 100 microseconds, with the
/// datagram of these octets that came from `from`, or with none.
///
/// A datagram that begins with FF FF and reads as a message is told to the session, and a reply goes to where it came from; who
/// joins by it has a fresh receiver from then on, and who had its number or its source before has none. One that begins so and
/// is no message is passed over. Any other datagram is a packet: the receiver of its stream takes it, the session is told that it was heard, and each command that was heard is played at this
/// moment. Where one has to wait for a packet, one is cut at once and the command is played again, with at most 34 packets for
/// one command, which is passed over then, as one is that a limit of the journal keeps out. Whose participant is gone is
/// dropped, and the rest of its packet with it. What no receiver takes is passed over.
///
/// Behind that, [`crate::pump()`] sends what is due. Packets are counted from the moment of the first round. A call that is
/// answered that the tape is full, and want of memory, end the round.
///
/// `out` has room for 21,100 octets.
pub fn data_round<R: Wait, P: Port, G: Gate>(
    rt: &R,
    desk: &Desk,
    pass: &mut Pass,
    port: &mut P,
    out: &mut Octets,
    from: Option<Addr>,
    octets: &[u8],
    now: u64,
    gate: &G,
    listener: &mut Listener,
    alloc: Global,
) -> Rounded
    requires own { IsOf desk.now pass.old }
    requires room { 21100 ≤ out.old.spare + length out.old.octets }
    ensures own { IsOf desk.now pass.new }
    ensures rest { GoesOn pass.old pass.new }
    ensures room { 21100 ≤ out.new.spare + length out.new.octets }
    ensures round { DoesRound (DataRound (config_of desk.now)) desk.now (letter_of from octets.now) now result listener.old listener.new
        (scene_of pass.old (P.wire port.old) listener.old.sender) (scene_of pass.new (P.wire port.new) listener.new.sender) }
{
    begin(now, listener);
    match listen(
        rt, desk, pass, port, out, from, octets, now, gate, listener, alloc,
    ) {
        Rounded::Whole => send_what_is_due(
            rt,
            desk,
            pass,
            port,
            out,
            now,
            gate,
            &mut listener.sender,
        ),
        Rounded::RecordFull => Rounded::RecordFull,
        Rounded::NoMemory => Rounded::NoMemory,
    }
}

impl Worker for Listener {
    ghost use Rattle.jm_serve.specs.Data.{DataRound};

    ghost does = { λ config old round new. DataRound config old round new };

    ghost call = { λ l. l.sender.call };

    ghost faults = { λ l. l.sender.send_faults };

    fn round<R: Wait, P: Port, G: Gate>(
        &mut self,
        rt: &R,
        desk: &Desk,
        pass: &mut Pass,
        port: &mut P,
        out: &mut Octets,
        from: Option<Addr>,
        octets: &[u8],
        now: u64,
        gate: &G,
        alloc: Global,
    ) -> Rounded {
        data_round(
            rt, desk, pass, port, out, from, octets, now, gate, self, alloc,
        )
    }
}

/// The data port's worker: it makes `turns` rounds, each of one receive, then, unless that failed, of one look at the
/// clock, whose moment holds for the whole round, and of what [`data_round`] does.
///
/// It ends earlier where a receive fails, where a call is answered that the tape is full, and where there is no memory.
pub fn serve_data<R: Wait, P: Port, C: Ticker, G: Gate>(
    rt: &R,
    desk: &Desk,
    pass: &mut Pass,
    port: &mut P,
    ticks: &mut C,
    gate: &G,
    turns: u32,
    alloc: Global,
) -> Worked
    requires own { IsOf desk.now pass.old }
    ensures own { IsOf desk.now pass.new }
    ensures rest { GoesOn pass.old pass.new }
    ensures serves { ServesData desk.now turns result pass.old pass.new (P.wire port.old) (P.wire port.new) (C.coming ticks.old) (C.coming ticks.new) }
{
    let mut listener = Listener {
        sender: Sender {
            last_cut: 0,
            owed: false,
            call: 0,
            send_faults: 0,
        },
        has_begun: false,
        receivers: Receivers::none(alloc),
    };
    let end = serve(
        &mut listener,
        rt,
        desk,
        pass,
        port,
        ticks,
        gate,
        turns,
        alloc,
    );
    Worked {
        end,
        send_faults: listener.sender.send_faults,
    }
}
