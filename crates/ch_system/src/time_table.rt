//! The table of Chapter F.

ghost use Rattle.std.specs.Prelude.{ℕ, ◌≡◌, ◌<◌, ◌≤◌, List, [], ◌∷◌, ◌++◌, length, None};
ghost use Rattle.std.specs.List.{list_any, AllByRecursion};
ghost use Rattle.jm_wire.specs.Octets.{Appends};
ghost use Rattle.jm_cmds.specs.declared.history.Sent.{Sent};
ghost use Rattle.jm_cmds.specs.KeptItem.{kept_fresh};
ghost use Rattle.jm_cmds.specs.Sent.{packet_of};
ghost use Rattle.ch_system.specs.ChapterF.{chapter_f, fresh_f};
ghost use Rattle.ch_system.specs.Tables.{time_kept, time_noted, time_cut, time_text};

use crate::f::{word_len, write_code};
use crate::items::SystemItem;
use crate::kept::Latest;
use jm_cmds::{Command, TimePart, frame_event, is_packet_before, time_code_step};
use jm_wire::Octets;
use std::marker::Model;

/// What Chapter F needs of the history since the checkpoint: the packet of the quarter frame that is coded; and of the
/// whole history: the time code.
///
/// The plain functions of [`crate::f`] tell the same of a list of all commands. Each call takes constant time and no
/// memory.
#[derive(Debug, Drop)]
pub struct TimeTable {
    code: Option<TimePart>,
    latest: Latest,
}

impl Model for TimeTable {
    ghost use Rattle.jm_cmds.specs.Frames.{IsTimeCode};
    ghost use Rattle.ch_system.specs.Tables.{TimeKept, latest_in};

    ghost Value = { TimeKept };

    ghost view = { λ t. record { code = t.code; kept = latest_in t.latest } };

    ghost invariant = { λ t. IsTimeCode t.code };
}

impl TimeTable {
    /// The table of no command, with checkpoint 0.
    pub fn new() -> Self
        ensures empty { result ≡ record { code = None; kept = [] } }
        ensures stands { result ≡ time_kept 0 [] }
    {
        TimeTable {
            code: None,
            latest: Latest::none(),
        }
    }

    /// Notes one command more, which goes out in this packet, and this isn't before the checkpoint. `tick` isn't looked
    /// at; each table takes it.
    pub fn note(&mut self, command: &Command, packet: u64, tick: u64)
        ensures change { self.new ≡ time_noted command.now packet self.old }
        ensures stands { (from : ℕ) (sent : List Sent) → self.old ≡ time_kept from sent → from ≤ packet
            → self.new ≡ time_kept from (sent ++ record { packet = packet; tick = tick; command = command.now } ∷ []) }
    {
        let _ = tick;
        self.change(command, packet);
    }

    /// One command more.
    fn change(&mut self, command: &Command, packet: u64)
        ensures { self.new ≡ time_noted command.now packet self.old }
    {
        self.code = time_code_step(self.code, frame_event(command));
        self.latest = self.latest.noted(SystemItem::Frames, command, packet);
    }

    /// Sets the checkpoint to this packet, which isn't before the present one.
    pub fn trim(&mut self, packet: u64)
        ensures change { self.new ≡ time_cut packet self.old }
        ensures stands { (from : ℕ) (sent : List Sent) → self.old ≡ time_kept from sent → from ≤ packet
            → self.new ≡ time_kept packet sent }
    {
        self.cut(packet);
    }

    /// Lets go what is of a packet before this one.
    fn cut(&mut self, packet: u64)
        ensures { self.new ≡ time_cut packet self.old }
    {
        self.latest = self.latest.cut(packet);
    }

    /// The number of Chapter F's octets in the journal of this packet, which is past each noted one. It is 0 where
    /// nothing is coded.
    pub fn len(&self, packet: u64, tick: u64) -> usize
        ensures number { result ≡ length (time_text packet self.now) }
        ensures bound { result ≤ 9 }
        ensures stands { (from : ℕ) (sent : List Sent) → self.now ≡ time_kept from sent
            → AllByRecursion (λ place. packet_of place < packet) sent → result ≡ length (chapter_f from packet sent) }
    {
        let _ = tick;
        self.text_len(packet)
    }

    /// The number of the octets of what is kept.
    fn text_len(&self, packet: u64) -> usize
        ensures number { result ≡ length (time_text packet self.now) }
        ensures bound { result ≤ 9 }
    {
        let _ = packet;
        if self.latest.place.is_none() {
            return 0;
        }
        match self.code {
            None => 0,
            Some(code) => 1 + word_len(code.complete) + word_len(code.partial),
        }
    }

    /// Appends Chapter F for the journal of this packet, which is past each noted one. `out` has room for
    /// [`TimeTable::len`] octets.
    pub fn write(&self, packet: u64, tick: u64, out: &mut Octets)
        requires { length (time_text packet self.now) ≤ out.old.spare }
        ensures text { Appends out.old out.new (time_text packet self.now) }
        ensures stands { (from : ℕ) (sent : List Sent) → self.now ≡ time_kept from sent
            → AllByRecursion (λ place. packet_of place < packet) sent → Appends out.old out.new (chapter_f from packet sent) }
    {
        let _ = tick;
        self.write_text(packet, out);
    }

    /// Appends the octets of what is kept.
    fn write_text(&self, packet: u64, out: &mut Octets)
        requires { length (time_text packet self.now) ≤ out.old.spare }
        ensures { Appends out.old out.new (time_text packet self.now) }
    {
        if let Some((sent_in, _)) = self.latest.place {
            if let Some(code) = self.code {
                write_code(is_packet_before(sent_in, packet), &code, out);
            }
        }
    }

    /// Whether the S bit of the chapter in the journal of this packet is 0.
    pub fn fresh(&self, packet: u64) -> bool
        ensures test { result ≡ list_any (kept_fresh packet) self.now.kept }
        ensures stands { (from : ℕ) (sent : List Sent) → self.now ≡ time_kept from sent
            → AllByRecursion (λ place. packet_of place < packet) sent → result ≡ fresh_f from packet sent }
    {
        self.is_fresh(packet)
    }

    /// Whether something that is kept is of the packet before.
    fn is_fresh(&self, packet: u64) -> bool
        ensures { result ≡ list_any (kept_fresh packet) self.now.kept }
    {
        self.latest.is_fresh(packet)
    }

    /// Makes the content that of `other`.
    pub fn copy_from(&mut self, other: &Self)
        ensures { self.new ≡ other.now }
    {
        self.code = other.code;
        self.latest = other.latest;
    }
}
