//! The table of Chapter C.

ghost use Rattle.std.specs.Prelude.{ℕ, ◌≡◌, ◌<◌, ◌≤◌, List, [], ◌∷◌, ◌++◌, length};
ghost use Rattle.std.specs.List.{list_any, AllByRecursion};
ghost use Rattle.jm_wire.specs.Octets.{Appends};
ghost use Rattle.jm_cmds.specs.declared.history.Sent.{Sent};
ghost use Rattle.jm_cmds.specs.Channels.{own_channel, IsForChannel};
ghost use Rattle.jm_cmds.specs.KeptItem.{kept_fresh};
ghost use Rattle.jm_cmds.specs.Pedal.{pedal_event, no_pedal};
ghost use Rattle.jm_cmds.specs.Sent.{packet_of};
ghost use Rattle.ch_control.specs.ChapterC.{chapter_c, fresh_c};
ghost use Rattle.ch_control.specs.ControlEvent.{control_event, IsWithin};
ghost use Rattle.ch_control.specs.Counts.{no_counts};
ghost use Rattle.ch_control.specs.ControlTable.{controls_kept, AreKeptUpTo, controls_noted, controls_cut, controls_text};

use crate::events::{ControlEvent, control_event};
use crate::latest::Latest;
use crate::session::Session;
use jm_cmds::{Command, PedalEvent, pedal_event, pedal_step};
use jm_wire::Octets;
use std::marker::Model;

/// What Chapter C needs of a channel's history since the checkpoint: the controllers that are coded; and of its whole
/// history: the counts and the pedal.
///
/// The plain functions of [`crate::c`] tell the same of a list of all commands. A table serves one channel, and takes
/// no memory. Each call takes the time of what it drops or writes, or constant time where it does neither.
#[derive(Debug, Drop)]
pub struct ControlTable {
    session: Session,
    latest: Latest,
}

impl Model for ControlTable {
    ghost use Rattle.std.specs.Prelude.{◌≡◌, false};
    ghost use Rattle.jm_recency.specs.Recency.{holds};
    ghost use Rattle.ch_control.specs.Counts.{IsSession};
    ghost use Rattle.ch_control.specs.ControlTable.{ControlsKept, controls_in};

    ghost Value = { ControlsKept };

    ghost view = { λ t. record {
      counts = t.session.counts;
      pedal = t.session.pedal;
      kept = controls_in t.latest.values t.latest.order;
    } };

    ghost invariant = { λ t. IsSession t.session × (holds 6 t.latest.order ≡ false) };
}

impl ControlTable {
    /// The table of no command, with checkpoint 0.
    pub fn new() -> Self
        ensures empty { result ≡ record { counts = no_counts; pedal = no_pedal; kept = [] } }
        ensures stands { (channel : ℕ) → result ≡ controls_kept channel 0 [] }
    {
        ControlTable {
            session: Session::none(),
            latest: Latest::none(),
        }
    }

    /// Notes one command more: it is of the table's channel or of none, and goes out in this packet, which
    /// isn't before the checkpoint nor before one that was noted. `tick` isn't looked at; each table takes it.
    pub fn note(&mut self, command: &Command, packet: u64, tick: u64)
        requires { AreKeptUpTo packet self.old.kept }
        ensures change { self.new ≡ controls_noted (control_event (own_channel command.now) command.now)
            (pedal_event (own_channel command.now) command.now) packet self.old }
        ensures stands { (channel from : ℕ) (sent : List Sent) → self.old ≡ controls_kept channel from sent
            → IsForChannel channel command.now → from ≤ packet
            → self.new ≡ controls_kept channel from (sent ++ record { packet = packet; tick = tick; command = command.now } ∷ []) }
        ensures order { (later : ℕ) → packet ≤ later → AreKeptUpTo later self.new.kept }
    {
        let _ = tick;
        let channel = command.own_channel();
        self.change(
            &control_event(command, channel),
            pedal_event(command, channel),
            packet,
        );
    }

    /// One event more.
    fn change(&mut self, event: &ControlEvent, pedal: PedalEvent, packet: u64)
        requires order { AreKeptUpTo packet self.old.kept }
        requires within { IsWithin event.now }
        ensures { self.new ≡ controls_noted event.now pedal packet self.old }
    {
        self.session.counts = self.session.counts.after(event);
        self.session.pedal = pedal_step(self.session.pedal, pedal);
        self.latest.note(event, packet);
    }

    /// Sets the checkpoint to this packet, which isn't before the present one.
    pub fn trim(&mut self, packet: u64)
        ensures change { self.new ≡ controls_cut packet self.old }
        ensures stands { (channel from : ℕ) (sent : List Sent) → self.old ≡ controls_kept channel from sent
            → from ≤ packet → self.new ≡ controls_kept channel packet sent }
        ensures order { (later : ℕ) → AreKeptUpTo later self.old.kept → AreKeptUpTo later self.new.kept }
    {
        self.cut(packet);
    }

    /// Lets go what is of a packet before this one.
    fn cut(&mut self, packet: u64)
        ensures { self.new ≡ controls_cut packet self.old }
    {
        self.latest.cut(packet);
    }

    /// The number of Chapter C's octets in the journal of this packet, which is past each noted one. It is 0 where no
    /// controller is coded.
    pub fn len(&self, packet: u64, tick: u64) -> usize
        ensures number { result ≡ length (controls_text packet self.now) }
        ensures bound { result ≤ 257 }
        ensures stands { (channel from : ℕ) (sent : List Sent) → self.now ≡ controls_kept channel from sent
            → AllByRecursion (λ place. packet_of place < packet) sent → result ≡ length (chapter_c channel from packet sent) }
    {
        let _ = tick;
        self.text_len(packet)
    }

    /// The number of the octets of what is kept.
    fn text_len(&self, packet: u64) -> usize
        ensures number { result ≡ length (controls_text packet self.now) }
        ensures bound { result ≤ 257 }
    {
        self.latest.tally(&self.session, packet).size()
    }

    /// Appends Chapter C for the journal of this packet, which is past each noted one. `out` has room for
    /// [`ControlTable::len`] octets.
    pub fn write(&self, packet: u64, tick: u64, out: &mut Octets)
        requires { length (controls_text packet self.now) ≤ out.old.spare }
        ensures text { Appends out.old out.new (controls_text packet self.now) }
        ensures stands { (channel from : ℕ) (sent : List Sent) → self.now ≡ controls_kept channel from sent
            → AllByRecursion (λ place. packet_of place < packet) sent → Appends out.old out.new (chapter_c channel from packet sent) }
    {
        let _ = tick;
        self.write_text(packet, out);
    }

    /// Appends the octets of what is kept.
    fn write_text(&self, packet: u64, out: &mut Octets)
        requires { length (controls_text packet self.now) ≤ out.old.spare }
        ensures { Appends out.old out.new (controls_text packet self.now) }
    {
        let tally = self.latest.tally(&self.session, packet);
        if tally.logs > 0 {
            out.push(tally.header());
            self.latest.write_logs(&self.session, packet, out);
        }
    }

    /// Whether an S bit of the chapter in the journal of this packet is 0.
    pub fn fresh(&self, packet: u64) -> bool
        ensures test { result ≡ list_any (kept_fresh packet) self.now.kept }
        ensures stands { (channel from : ℕ) (sent : List Sent) → self.now ≡ controls_kept channel from sent
            → AllByRecursion (λ place. packet_of place < packet) sent → result ≡ fresh_c channel from packet sent }
    {
        self.is_fresh(packet)
    }

    /// Whether something that is kept is of the packet before.
    fn is_fresh(&self, packet: u64) -> bool
        ensures { result ≡ list_any (kept_fresh packet) self.now.kept }
    {
        self.latest.tally(&self.session, packet).fresh
    }

    /// Makes the content that of `other`.
    pub fn copy_from(&mut self, other: &Self)
        ensures { self.new ≡ other.now }
    {
        self.session = other.session;
        self.latest.order.copy_from(&other.latest.order);
        self.latest.values = other.latest.values;
    }
}
