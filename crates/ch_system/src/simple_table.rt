//! The table of Chapter D.

ghost use Rattle.std.specs.Prelude.{ℕ, ◌≡◌, ◌<◌, ◌≤◌, List, [], ◌∷◌, ◌++◌, length};
ghost use Rattle.std.specs.List.{list_any, AllByRecursion};
ghost use Rattle.jm_wire.specs.Octets.{Appends};
ghost use Rattle.jm_cmds.specs.declared.history.Sent.{Sent};
ghost use Rattle.jm_cmds.specs.KeptItem.{kept_fresh};
ghost use Rattle.ch_system.specs.Logs.{listed, logs_octets, logs_fresh};
ghost use Rattle.jm_cmds.specs.Sent.{packet_of};
ghost use Rattle.ch_system.specs.ChapterD.{chapter_d, fresh_d};
ghost use Rattle.ch_system.specs.Tables.{none_simple, simple_kept, simple_noted, simple_cut, simple_text, simple_fresh, song_text};

use crate::d::{Log, Logs};
use crate::items::SystemItem;
use crate::kept::{Counted, Latest};
use jm_cmds::{Command, is_packet_before, s_of};
use jm_wire::Octets;
use std::marker::Model;

/// What Chapter D needs of the history since the checkpoint: the reset, the tuning and the song that are coded; and of
/// the whole history: how often it has resets and tunings.
///
/// The plain functions of [`crate::d`] tell the same of a list of all commands. Each call takes constant time and no
/// memory.
#[derive(Debug, Drop)]
pub struct SimpleTable {
    reset: Counted,
    tune: Counted,
    song: Latest,
}

impl Model for SimpleTable {
    ghost use Rattle.std.specs.Prelude.{◌<◌};
    ghost use Rattle.ch_system.specs.Tables.{SimpleKept, counted_in, latest_in};

    ghost Value = { SimpleKept };

    ghost view = { λ t. record {
      reset = counted_in t.reset;
      tune = counted_in t.tune;
      song = latest_in t.song;
    } };

    ghost invariant = { λ t. (t.reset.count < 128) × (t.tune.count < 128) };
}

impl SimpleTable {
    /// The table of no command, with checkpoint 0.
    pub fn new() -> Self
        ensures empty { result ≡ none_simple }
        ensures stands { result ≡ simple_kept 0 [] }
    {
        SimpleTable {
            reset: Counted::none(),
            tune: Counted::none(),
            song: Latest::none(),
        }
    }

    /// Notes one command more, which goes out in this packet, and this isn't before the checkpoint. `tick` isn't looked
    /// at; each table takes it.
    pub fn note(&mut self, command: &Command, packet: u64, tick: u64)
        ensures change { self.new ≡ simple_noted command.now packet self.old }
        ensures stands { (from : ℕ) (sent : List Sent) → self.old ≡ simple_kept from sent → from ≤ packet
            → self.new ≡ simple_kept from (sent ++ record { packet = packet; tick = tick; command = command.now } ∷ []) }
    {
        let _ = tick;
        self.change(command, packet);
    }

    /// One command more.
    fn change(&mut self, command: &Command, packet: u64)
        ensures { self.new ≡ simple_noted command.now packet self.old }
    {
        self.reset = self.reset.noted(SystemItem::Reset, command, packet);
        self.tune = self.tune.noted(SystemItem::Tune, command, packet);
        self.song = self.song.noted(SystemItem::Song, command, packet);
    }

    /// Sets the checkpoint to this packet, which isn't before the present one.
    pub fn trim(&mut self, packet: u64)
        ensures change { self.new ≡ simple_cut packet self.old }
        ensures stands { (from : ℕ) (sent : List Sent) → self.old ≡ simple_kept from sent → from ≤ packet
            → self.new ≡ simple_kept packet sent }
    {
        self.cut(packet);
    }

    /// Lets go what is of a packet before this one.
    fn cut(&mut self, packet: u64)
        ensures { self.new ≡ simple_cut packet self.old }
    {
        self.reset = self.reset.cut(packet);
        self.tune = self.tune.cut(packet);
        self.song = self.song.cut(packet);
    }

    /// The log of the song in the journal of this packet.
    fn song_log(&self, packet: u64) -> Log
        ensures log { listed result.octet ≡ song_text packet self.now.song }
        ensures fresh { result.fresh ≡ list_any (kept_fresh packet) self.now.song }
    {
        let fresh = self.song.is_fresh(packet);
        match self.song.place {
            None => Log { octet: None, fresh },
            Some((sent_in, song)) => Log {
                octet: Some(s_of(is_packet_before(sent_in, packet)) + song.get()),
                fresh,
            },
        }
    }

    /// The logs in the journal of this packet.
    fn logs(&self, packet: u64) -> Logs
        ensures octets { logs_octets result ≡ simple_text packet self.now }
        ensures fresh { logs_fresh result ≡ simple_fresh packet self.now }
    {
        Logs {
            reset: self.reset.log(packet),
            tune: self.tune.log(packet),
            song: self.song_log(packet),
        }
    }

    /// The number of Chapter D's octets in the journal of this packet, which is past each noted one. It is 0 where
    /// nothing is coded.
    pub fn len(&self, packet: u64, tick: u64) -> usize
        ensures number { result ≡ length (simple_text packet self.now) }
        ensures bound { result ≤ 4 }
        ensures stands { (from : ℕ) (sent : List Sent) → self.now ≡ simple_kept from sent
            → AllByRecursion (λ place. packet_of place < packet) sent → result ≡ length (chapter_d from packet sent) }
    {
        let _ = tick;
        self.text_len(packet)
    }

    /// The number of the octets of what is kept.
    fn text_len(&self, packet: u64) -> usize
        ensures number { result ≡ length (simple_text packet self.now) }
        ensures bound { result ≤ 4 }
    {
        self.logs(packet).len()
    }

    /// Appends Chapter D for the journal of this packet, which is past each noted one. `out` has room for
    /// [`SimpleTable::len`] octets.
    pub fn write(&self, packet: u64, tick: u64, out: &mut Octets)
        requires { length (simple_text packet self.now) ≤ out.old.spare }
        ensures text { Appends out.old out.new (simple_text packet self.now) }
        ensures stands { (from : ℕ) (sent : List Sent) → self.now ≡ simple_kept from sent
            → AllByRecursion (λ place. packet_of place < packet) sent → Appends out.old out.new (chapter_d from packet sent) }
    {
        let _ = tick;
        self.write_text(packet, out);
    }

    /// Appends the octets of what is kept.
    fn write_text(&self, packet: u64, out: &mut Octets)
        requires { length (simple_text packet self.now) ≤ out.old.spare }
        ensures { Appends out.old out.new (simple_text packet self.now) }
    {
        self.logs(packet).write(out);
    }

    /// Whether the S bit of the chapter in the journal of this packet is 0.
    pub fn fresh(&self, packet: u64) -> bool
        ensures test { result ≡ simple_fresh packet self.now }
        ensures stands { (from : ℕ) (sent : List Sent) → self.now ≡ simple_kept from sent
            → AllByRecursion (λ place. packet_of place < packet) sent → result ≡ fresh_d from packet sent }
    {
        self.is_fresh(packet)
    }

    /// Whether something that is kept is of the packet before.
    fn is_fresh(&self, packet: u64) -> bool
        ensures { result ≡ simple_fresh packet self.now }
    {
        self.logs(packet).is_fresh()
    }

    /// Makes the content that of `other`.
    pub fn copy_from(&mut self, other: &Self)
        ensures { self.new ≡ other.now }
    {
        self.reset = other.reset;
        self.tune = other.tune;
        self.song = other.song;
    }
}
