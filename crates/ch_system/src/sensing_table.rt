//! The table of Chapter V.

ghost use Rattle.std.specs.Prelude.{ℕ, ◌≡◌, ◌<◌, ◌≤◌, List, [], ◌∷◌, ◌++◌, length};
ghost use Rattle.std.specs.List.{list_any, AllByRecursion};
ghost use Rattle.jm_wire.specs.Octets.{Appends};
ghost use Rattle.jm_cmds.specs.declared.history.Sent.{Sent};
ghost use Rattle.jm_cmds.specs.KeptItem.{kept_fresh};
ghost use Rattle.ch_system.specs.declared.items.SystemItem.TheVariants.{Sensing};
ghost use Rattle.jm_cmds.specs.Sent.{packet_of};
ghost use Rattle.ch_system.specs.ChapterV.{chapter_v, fresh_v};
ghost use Rattle.ch_system.specs.Tables.{none_counted, sensing_kept, counted_noted, counted_cut, counted_text};

use crate::items::SystemItem;
use crate::kept::Counted;
use jm_cmds::{Command, is_packet_before, s_of};
use jm_wire::Octets;
use std::marker::Model;

/// What Chapter V needs of the history since the checkpoint: the Active Sensing that is coded; and of the whole
/// history: how often it has one.
///
/// The plain functions of [`crate::v`] tell the same of a list of all commands. Each call takes constant time and no
/// memory.
#[derive(Debug, Drop)]
pub struct SensingTable {
    sensing: Counted,
}

impl Model for SensingTable {
    ghost use Rattle.std.specs.Prelude.{◌<◌};
    ghost use Rattle.ch_system.specs.Tables.{CountedKept, counted_in};

    ghost Value = { CountedKept };

    ghost view = { λ t. counted_in t.sensing };

    ghost invariant = { λ t. t.sensing.count < 128 };
}

impl SensingTable {
    /// The table of no command, with checkpoint 0.
    pub fn new() -> Self
        ensures empty { result ≡ none_counted }
        ensures stands { result ≡ sensing_kept 0 [] }
    {
        SensingTable {
            sensing: Counted::none(),
        }
    }

    /// Notes one command more, which goes out in this packet, and this isn't before the checkpoint. `tick` isn't looked
    /// at; each table takes it.
    pub fn note(&mut self, command: &Command, packet: u64, tick: u64)
        ensures change { self.new ≡ counted_noted Sensing command.now packet self.old }
        ensures stands { (from : ℕ) (sent : List Sent) → self.old ≡ sensing_kept from sent → from ≤ packet
            → self.new ≡ sensing_kept from (sent ++ record { packet = packet; tick = tick; command = command.now } ∷ []) }
    {
        let _ = tick;
        self.change(command, packet);
    }

    /// One command more.
    fn change(&mut self, command: &Command, packet: u64)
        ensures { self.new ≡ counted_noted Sensing command.now packet self.old }
    {
        self.sensing = self.sensing.noted(SystemItem::Sensing, command, packet);
    }

    /// Sets the checkpoint to this packet, which isn't before the present one.
    pub fn trim(&mut self, packet: u64)
        ensures change { self.new ≡ counted_cut packet self.old }
        ensures stands { (from : ℕ) (sent : List Sent) → self.old ≡ sensing_kept from sent → from ≤ packet
            → self.new ≡ sensing_kept packet sent }
    {
        self.cut(packet);
    }

    /// Lets go what is of a packet before this one.
    fn cut(&mut self, packet: u64)
        ensures { self.new ≡ counted_cut packet self.old }
    {
        self.sensing = self.sensing.cut(packet);
    }

    /// The number of Chapter V's octets in the journal of this packet, which is past each noted one. It is 0 where
    /// nothing is coded.
    pub fn len(&self, packet: u64, tick: u64) -> usize
        ensures number { result ≡ length (counted_text packet self.now) }
        ensures bound { result ≤ 1 }
        ensures stands { (from : ℕ) (sent : List Sent) → self.now ≡ sensing_kept from sent
            → AllByRecursion (λ place. packet_of place < packet) sent → result ≡ length (chapter_v from packet sent) }
    {
        let _ = tick;
        self.text_len(packet)
    }

    /// The number of the octets of what is kept.
    fn text_len(&self, packet: u64) -> usize
        ensures number { result ≡ length (counted_text packet self.now) }
        ensures bound { result ≤ 1 }
    {
        let _ = packet;
        match self.sensing.latest.place {
            None => 0,
            Some(_) => 1,
        }
    }

    /// Appends Chapter V for the journal of this packet, which is past each noted one. `out` has room for
    /// [`SensingTable::len`] octets.
    pub fn write(&self, packet: u64, tick: u64, out: &mut Octets)
        requires { length (counted_text packet self.now) ≤ out.old.spare }
        ensures text { Appends out.old out.new (counted_text packet self.now) }
        ensures stands { (from : ℕ) (sent : List Sent) → self.now ≡ sensing_kept from sent
            → AllByRecursion (λ place. packet_of place < packet) sent → Appends out.old out.new (chapter_v from packet sent) }
    {
        let _ = tick;
        self.write_text(packet, out);
    }

    /// Appends the octets of what is kept.
    fn write_text(&self, packet: u64, out: &mut Octets)
        requires { length (counted_text packet self.now) ≤ out.old.spare }
        ensures { Appends out.old out.new (counted_text packet self.now) }
    {
        if let Some((sent_in, _)) = self.sensing.latest.place {
            out.push(s_of(is_packet_before(sent_in, packet)) + self.sensing.count);
        }
    }

    /// Whether the S bit of the chapter in the journal of this packet is 0.
    pub fn fresh(&self, packet: u64) -> bool
        ensures test { result ≡ list_any (kept_fresh packet) self.now.kept }
        ensures stands { (from : ℕ) (sent : List Sent) → self.now ≡ sensing_kept from sent
            → AllByRecursion (λ place. packet_of place < packet) sent → result ≡ fresh_v from packet sent }
    {
        self.is_fresh(packet)
    }

    /// Whether something that is kept is of the packet before.
    fn is_fresh(&self, packet: u64) -> bool
        ensures { result ≡ list_any (kept_fresh packet) self.now.kept }
    {
        self.sensing.latest.is_fresh(packet)
    }

    /// Makes the content that of `other`.
    pub fn copy_from(&mut self, other: &Self)
        ensures { self.new ≡ other.now }
    {
        self.sensing = other.sensing;
    }
}
