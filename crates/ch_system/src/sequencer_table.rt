//! The table of Chapter Q.

ghost use Rattle.std.specs.Prelude.{ℕ, ◌≡◌, ◌<◌, ◌≤◌, List, [], ◌∷◌, ◌++◌, length, None};
ghost use Rattle.std.specs.List.{list_any, AllByRecursion};
ghost use Rattle.jm_wire.specs.Octets.{Appends};
ghost use Rattle.jm_cmds.specs.declared.history.Sent.{Sent};
ghost use Rattle.jm_cmds.specs.KeptItem.{kept_fresh};
ghost use Rattle.jm_cmds.specs.Sent.{packet_of};
ghost use Rattle.ch_system.specs.ChapterQ.{chapter_q, fresh_q};
ghost use Rattle.ch_system.specs.Tables.{sequencer_kept, sequencer_noted, sequencer_cut, sequencer_text};

use crate::items::SystemItem;
use crate::kept::Latest;
use crate::q::write_position;
use jm_cmds::{Command, SequencerPart, is_packet_before, sequencer_event, sequencer_step};
use jm_wire::Octets;
use std::marker::Model;

/// What Chapter Q needs of the history since the checkpoint: the packet of the command that is coded; and of the whole
/// history: the song position.
///
/// The plain functions of [`crate::q`] tell the same of a list of all commands. Each call takes constant time and no
/// memory.
#[derive(Debug, Drop)]
pub struct SequencerTable {
    state: Option<SequencerPart>,
    latest: Latest,
}

impl Model for SequencerTable {
    ghost use Rattle.jm_cmds.specs.Sequencing.{IsSequencer};
    ghost use Rattle.ch_system.specs.Tables.{SequencerKept, latest_in};

    ghost Value = { SequencerKept };

    ghost view = { λ t. record { state = t.state; kept = latest_in t.latest } };

    ghost invariant = { λ t. IsSequencer t.state };
}

impl SequencerTable {
    /// The table of no command, with checkpoint 0.
    pub fn new() -> Self
        ensures empty { result ≡ record { state = None; kept = [] } }
        ensures stands { result ≡ sequencer_kept 0 [] }
    {
        SequencerTable {
            state: None,
            latest: Latest::none(),
        }
    }

    /// Notes one command more, which goes out in this packet, and this isn't before the checkpoint. `tick` isn't looked
    /// at; each table takes it.
    pub fn note(&mut self, command: &Command, packet: u64, tick: u64)
        ensures change { self.new ≡ sequencer_noted command.now packet self.old }
        ensures stands { (from : ℕ) (sent : List Sent) → self.old ≡ sequencer_kept from sent → from ≤ packet
            → self.new ≡ sequencer_kept from (sent ++ record { packet = packet; tick = tick; command = command.now } ∷ []) }
    {
        let _ = tick;
        self.change(command, packet);
    }

    /// One command more.
    fn change(&mut self, command: &Command, packet: u64)
        ensures { self.new ≡ sequencer_noted command.now packet self.old }
    {
        self.state = sequencer_step(self.state, sequencer_event(command));
        self.latest = self.latest.noted(SystemItem::Sequence, command, packet);
    }

    /// Sets the checkpoint to this packet, which isn't before the present one.
    pub fn trim(&mut self, packet: u64)
        ensures change { self.new ≡ sequencer_cut packet self.old }
        ensures stands { (from : ℕ) (sent : List Sent) → self.old ≡ sequencer_kept from sent → from ≤ packet
            → self.new ≡ sequencer_kept packet sent }
    {
        self.cut(packet);
    }

    /// Lets go what is of a packet before this one.
    fn cut(&mut self, packet: u64)
        ensures { self.new ≡ sequencer_cut packet self.old }
    {
        self.latest = self.latest.cut(packet);
    }

    /// The number of Chapter Q's octets in the journal of this packet, which is past each noted one. It is 0 where
    /// nothing is coded.
    pub fn len(&self, packet: u64, tick: u64) -> usize
        ensures number { result ≡ length (sequencer_text packet self.now) }
        ensures bound { result ≤ 3 }
        ensures stands { (from : ℕ) (sent : List Sent) → self.now ≡ sequencer_kept from sent
            → AllByRecursion (λ place. packet_of place < packet) sent → result ≡ length (chapter_q from packet sent) }
    {
        let _ = tick;
        self.text_len(packet)
    }

    /// The number of the octets of what is kept.
    fn text_len(&self, packet: u64) -> usize
        ensures number { result ≡ length (sequencer_text packet self.now) }
        ensures bound { result ≤ 3 }
    {
        let _ = packet;
        if self.latest.place.is_none() {
            return 0;
        }
        match self.state {
            None => 0,
            Some(state) => if state.position == 0 { 1 } else { 3 },
        }
    }

    /// Appends Chapter Q for the journal of this packet, which is past each noted one. `out` has room for
    /// [`SequencerTable::len`] octets.
    pub fn write(&self, packet: u64, tick: u64, out: &mut Octets)
        requires { length (sequencer_text packet self.now) ≤ out.old.spare }
        ensures text { Appends out.old out.new (sequencer_text packet self.now) }
        ensures stands { (from : ℕ) (sent : List Sent) → self.now ≡ sequencer_kept from sent
            → AllByRecursion (λ place. packet_of place < packet) sent → Appends out.old out.new (chapter_q from packet sent) }
    {
        let _ = tick;
        self.write_text(packet, out);
    }

    /// Appends the octets of what is kept.
    fn write_text(&self, packet: u64, out: &mut Octets)
        requires { length (sequencer_text packet self.now) ≤ out.old.spare }
        ensures { Appends out.old out.new (sequencer_text packet self.now) }
    {
        if let Some((sent_in, _)) = self.latest.place {
            if let Some(state) = self.state {
                write_position(is_packet_before(sent_in, packet), &state, out);
            }
        }
    }

    /// Whether the S bit of the chapter in the journal of this packet is 0.
    pub fn fresh(&self, packet: u64) -> bool
        ensures test { result ≡ list_any (kept_fresh packet) self.now.kept }
        ensures stands { (from : ℕ) (sent : List Sent) → self.now ≡ sequencer_kept from sent
            → AllByRecursion (λ place. packet_of place < packet) sent → result ≡ fresh_q from packet sent }
    {
        self.is_fresh(packet)
    }

    /// Whether something that is kept is of the packet before.
    fn is_fresh(&self, packet: u64) -> bool
        ensures { result ≡ list_any (kept_fresh packet) self.now.kept }
    {
        self.latest.is_fresh(packet)
    }

    /// Makes the content that of `other`.
    pub fn copy_from(&mut self, other: &Self)
        ensures { self.new ≡ other.now }
    {
        self.state = other.state;
        self.latest = other.latest;
    }
}
