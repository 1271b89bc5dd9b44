//! The table of Chapter N.

ghost use Rattle.std.specs.Prelude.{ℕ, ◌≡◌, ◌+◌, ◌<◌, ◌≤◌, List, [], ◌∷◌, ◌++◌, length};
ghost use Rattle.std.specs.List.{AllByRecursion};
ghost use Rattle.jm_wire.specs.Octets.{Appends};
ghost use Rattle.jm_cmds.specs.declared.history.Sent.{Sent};
ghost use Rattle.jm_cmds.specs.Channels.{own_channel, IsForChannel};
ghost use Rattle.jm_cmds.specs.KeptItem.{kept_since};
ghost use Rattle.jm_cmds.specs.Sent.{packet_of};
ghost use Rattle.ch_notes.specs.NoteEvent.{IsWithin, note_event};
ghost use Rattle.ch_notes.specs.Shape.{no_notes};
ghost use Rattle.ch_notes.specs.ChapterN.{chapter_n, fresh_n};
ghost use Rattle.ch_notes.specs.KeptRows.{RowsUpTo};
ghost use Rattle.ch_notes.specs.NoteTable.{NoteRow, notes_kept, note_noted, notes_text, rows_counted, RowsWithin};

use crate::events::{NoteEvent, note_event};
use crate::note_rows::{NoteRows, note_change, notes_shape, write_rows};
use jm_cmds::Command;
use jm_recency::Recency;
use jm_wire::Octets;
use std::marker::Model;

/// What Chapter N needs of a channel's history since the checkpoint: the latest command of each note that is
/// coded, in the order of these commands.
///
/// The plain functions of [`crate::n`] tell the same of a list of all commands. A table serves one channel, and
/// no call takes memory.
#[derive(Debug, Drop)]
pub struct NoteTable {
    recent: Recency<128>,
    rows: NoteRows,
}

impl Model for NoteTable {
    ghost use Rattle.std.specs.Prelude.{List, ℕ};
    ghost use Rattle.ch_notes.specs.NoteTable.{NoteRow, note_rows};

    ghost Value = { List (ℕ × NoteRow) };

    ghost view = { λ t. note_rows t.rows t.recent };
}

impl NoteTable {
    /// The table of no command, with checkpoint 0.
    pub fn new() -> Self
        ensures empty { result ≡ [] }
        ensures stands { (channel : ℕ) → result ≡ notes_kept channel 0 [] }
    {
        NoteTable {
            recent: Recency::new(),
            rows: NoteRows::new(),
        }
    }

    /// Notes one command more: it is of the table's channel or of none, and goes out in this packet, which
    /// isn't before the checkpoint, at this tick. It takes constant time.
    pub fn note(&mut self, command: &Command, packet: u64, tick: u64)
        requires { RowsUpTo packet self.old }
        ensures change { self.new ≡ note_noted (note_event (own_channel command.now) command.now) packet tick self.old }
        ensures order { (later : ℕ) → packet ≤ later → RowsUpTo later self.new }
        ensures stands { (channel from : ℕ) (sent : List Sent) → self.old ≡ notes_kept channel from sent
            → IsForChannel channel command.now → from ≤ packet
            → self.new ≡ notes_kept channel from (sent ++ record { packet = packet; tick = tick; command = command.now } ∷ []) }
    {
        self.change(&note_event(command, command.own_channel()), packet, tick);
    }

    /// One event more.
    fn change(&mut self, event: &NoteEvent, packet: u64, tick: u64)
        requires order { RowsUpTo packet self.old }
        requires within { IsWithin event.now }
        ensures { self.new ≡ note_noted event.now packet tick self.old }
    {
        note_change(&mut self.recent, &mut self.rows, event, packet, tick);
    }

    /// Sets the checkpoint to this packet, which isn't before the present one. It takes the time of what is no
    /// longer coded.
    pub fn trim(&mut self, packet: u64)
        ensures change { self.new ≡ kept_since packet self.old }
        ensures order { (later : ℕ) → RowsUpTo later self.old → RowsUpTo later self.new }
        ensures stands { (channel from : ℕ) (sent : List Sent) → self.old ≡ notes_kept channel from sent
            → from ≤ packet → self.new ≡ notes_kept channel packet sent }
    {
        self.cut(packet);
    }

    /// Lets go what is of a packet before this one.
    fn cut(&mut self, packet: u64)
        ensures { self.new ≡ kept_since packet self.old }
    {
        self.recent.trim(packet);
    }

    /// The number of Chapter N's octets in the journal of this packet, which is past each noted one: 0 where no
    /// note is coded. It takes the time of what is coded.
    pub fn len(&self, packet: u64, tick: u64) -> usize
        ensures number { result ≡ length (notes_text packet tick self.now) }
        ensures bound { result ≤ 270 }
        ensures stands { (channel from : ℕ) (sent : List Sent) → self.now ≡ notes_kept channel from sent
            → AllByRecursion (λ place. packet_of place < packet) sent → result ≡ length (chapter_n channel from packet tick sent) }
    {
        self.text_len(packet, tick)
    }

    /// The number of the octets of what is kept.
    fn text_len(&self, packet: u64, tick: u64) -> usize
        ensures number { result ≡ length (notes_text packet tick self.now) }
        ensures bound { result ≤ 270 }
        ensures within { RowsWithin self.now }
    {
        let _ = tick;
        notes_shape(&self.recent, &self.rows, packet).len()
    }

    /// Appends Chapter N for the journal of this packet, which is past each noted one. `tick` is the packet's.
    /// `out` has room for [`NoteTable::len`] octets. It takes the time of what is coded.
    pub fn write(&self, packet: u64, tick: u64, out: &mut Octets)
        requires { length (notes_text packet tick self.now) ≤ out.old.spare }
        ensures text { Appends out.old out.new (notes_text packet tick self.now) }
        ensures stands { (channel from : ℕ) (sent : List Sent) → self.now ≡ notes_kept channel from sent
            → AllByRecursion (λ place. packet_of place < packet) sent → Appends out.old out.new (chapter_n channel from packet tick sent) }
    {
        self.write_text(packet, tick, out);
    }

    /// Appends the octets of what is kept.
    fn write_text(&self, packet: u64, tick: u64, out: &mut Octets)
        requires { length (notes_text packet tick self.now) ≤ out.old.spare }
        ensures text { Appends out.old out.new (notes_text packet tick self.now) }
        ensures within { RowsWithin self.now }
    {
        let shape = notes_shape(&self.recent, &self.rows, packet);
        if !shape.is_bare() {
            write_rows(&shape, &self.recent, &self.rows, packet, tick, out);
        }
    }

    /// Whether an S bit or the B of the chapter in the journal of this packet is 0. It takes the time of what is
    /// coded.
    pub fn fresh(&self, packet: u64) -> bool
        ensures test { result ≡ (rows_counted packet no_notes self.now).fresh }
        ensures stands { (channel from : ℕ) (sent : List Sent) → self.now ≡ notes_kept channel from sent
            → AllByRecursion (λ place. packet_of place < packet) sent → result ≡ fresh_n channel from packet sent }
    {
        self.is_fresh(packet)
    }

    /// Whether something that is kept is of the packet before.
    fn is_fresh(&self, packet: u64) -> bool
        ensures { result ≡ (rows_counted packet no_notes self.now).fresh }
    {
        notes_shape(&self.recent, &self.rows, packet).fresh
    }

    /// Makes the content that of `other`. It takes constant time.
    pub fn copy_from(&mut self, other: &Self)
        ensures { self.new ≡ other.now }
    {
        self.recent.copy_from(&other.recent);
        self.rows.copy_from(&other.rows);
    }
}
