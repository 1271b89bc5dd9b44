//! The table of Chapter E.

ghost use Rattle.std.specs.Prelude.{ℕ, ◌≡◌, ◌+◌, ◌<◌, ◌≤◌, List, [], ◌∷◌, ◌++◌, length, replicate};
ghost use Rattle.std.specs.List.{AllByRecursion};
ghost use Rattle.jm_wire.specs.Octets.{Appends};
ghost use Rattle.jm_cmds.specs.declared.history.Sent.{Sent};
ghost use Rattle.jm_cmds.specs.Channels.{own_channel, IsForChannel};
ghost use Rattle.jm_cmds.specs.Sent.{packet_of};
ghost use Rattle.jm_chapter.specs.Logs.{logs_in};
ghost use Rattle.ch_notes.specs.NoteEvent.{IsWithin, note_event};
ghost use Rattle.ch_notes.specs.ChapterE.{chapter_e, fresh_e};
ghost use Rattle.ch_notes.specs.KeptRows.{RowsUpTo};
ghost use Rattle.ch_notes.specs.NoteTable.{NoteRow, RowsWithin, note_row_of, note_rows};
ghost use Rattle.ch_notes.specs.ExtraTable.{ExtraKept, extra_kept, counts_after, extra_noted, extra_cut, extra_row_logs, extra_text, extra_fresh};

use crate::e::{released_logs, struck_logs};
use crate::events::{NoteEvent, note_event};
use crate::key_logs::{KeyLogs, key_len, key_tally, key_write};
use crate::note_rows::{NoteRows, note_change};
use jm_chapter::PlaceLogs;
use jm_cmds::Command;
use jm_recency::Recency;
use jm_wire::Octets;
use std::marker::Model;

/// The latest command of each note, and the count of each.
#[derive(Debug, Drop)]
pub(crate) struct ExtraRows {
    notes: NoteRows,
    /// The reference counts.
    counts: [u8; 128],
}

impl KeyLogs for ExtraRows {
    ghost logs = { λ s key. extra_row_logs s.counts (note_row_of s.notes key) };

    ghost is_within = { λ s key. IsWithin (note_row_of s.notes key).event };

    fn logs_of(&self, key: u16) -> PlaceLogs {
        match self.notes.event(key) {
            NoteEvent::Struck { note, .. } => struck_logs(note, self.counts[note.get() as usize]),
            NoteEvent::Released { note, velocity } => {
                released_logs(note, velocity, self.counts[note.get() as usize])
            }
            NoteEvent::Cleared | NoteEvent::Other => PlaceLogs::Empty,
        }
    }
}

/// The counts behind one more event.
fn count_note(counts: &mut [u8; 128], event: &NoteEvent)
    requires { IsWithin event.now }
    ensures { counts.new ≡ counts_after event.now 0 counts.old }
{
    match event {
        NoteEvent::Struck { note, .. } => {
            let place = note.get() as usize;
            counts[place] = counts[place].min(126) + 1;
        }
        NoteEvent::Released { note, .. } => {
            let place = note.get() as usize;
            counts[place] = counts[place].saturating_sub(1);
        }
        NoteEvent::Cleared => *counts = [0; 128],
        NoteEvent::Other => {}
    }
}

/// What Chapter E needs of a channel's history since the checkpoint: the latest command of each note that is
/// coded, in the order of these commands; and of its whole history: the reference count of each note.
///
/// The plain functions of [`crate::e`] tell the same of a list of all commands. A table serves one channel, and
/// no call takes memory.
#[derive(Debug, Drop)]
pub struct ExtraTable {
    recent: Recency<128>,
    rows: ExtraRows,
}

impl Model for ExtraTable {
    ghost use Rattle.ch_notes.specs.NoteTable.{note_rows};
    ghost use Rattle.ch_notes.specs.ExtraTable.{ExtraKept};

    ghost Value = { ExtraKept };

    ghost view = { λ t. record { notes = note_rows t.rows.notes t.recent; counts = t.rows.counts } };
}

impl ExtraTable {
    /// The table of no command, with checkpoint 0.
    pub fn new() -> Self
        ensures empty { result ≡ record { notes = []; counts = replicate 128 0 } }
        ensures stands { (channel : ℕ) → result ≡ extra_kept channel 0 [] }
    {
        let counts = [0; 128];
        ExtraTable {
            recent: Recency::new(),
            rows: ExtraRows {
                notes: NoteRows::new(),
                counts,
            },
        }
    }

    /// Notes one command more: it is of the table's channel or of none, and goes out in this packet, which
    /// isn't before the checkpoint, at this tick. It takes constant time.
    pub fn note(&mut self, command: &Command, packet: u64, tick: u64)
        requires { RowsUpTo packet self.old.notes }
        ensures change { self.new ≡ extra_noted (note_event (own_channel command.now) command.now) packet tick self.old }
        ensures order { (later : ℕ) → packet ≤ later → RowsUpTo later self.new.notes }
        ensures stands { (channel from : ℕ) (sent : List Sent) → self.old ≡ extra_kept channel from sent
            → IsForChannel channel command.now → from ≤ packet
            → self.new ≡ extra_kept channel from (sent ++ record { packet = packet; tick = tick; command = command.now } ∷ []) }
    {
        self.change(&note_event(command, command.own_channel()), packet, tick);
    }

    /// One event more.
    fn change(&mut self, event: &NoteEvent, packet: u64, tick: u64)
        requires order { RowsUpTo packet self.old.notes }
        requires within { IsWithin event.now }
        ensures { self.new ≡ extra_noted event.now packet tick self.old }
    {
        note_change(&mut self.recent, &mut self.rows.notes, event, packet, tick);
        count_note(&mut self.rows.counts, event);
    }

    /// Sets the checkpoint to this packet, which isn't before the present one: it takes no count. It takes the
    /// time of what is no longer coded.
    pub fn trim(&mut self, packet: u64)
        ensures change { self.new ≡ extra_cut packet self.old }
        ensures order { (later : ℕ) → RowsUpTo later self.old.notes → RowsUpTo later self.new.notes }
        ensures stands { (channel from : ℕ) (sent : List Sent) → self.old ≡ extra_kept channel from sent
            → from ≤ packet → self.new ≡ extra_kept channel packet sent }
    {
        self.cut(packet);
    }

    /// Lets go the notes of packets before this one.
    fn cut(&mut self, packet: u64)
        ensures { self.new ≡ extra_cut packet self.old }
    {
        self.recent.trim(packet);
    }

    /// The number of Chapter E's octets in the journal of this packet, which is past each noted one: 0 where
    /// there is no log. It takes the time of what is coded.
    pub fn len(&self, packet: u64, tick: u64) -> usize
        ensures number { result ≡ length (extra_text packet self.now) }
        ensures bound { result ≤ 257 }
        ensures stands { (channel from : ℕ) (sent : List Sent) → self.now ≡ extra_kept channel from sent
            → AllByRecursion (λ place. packet_of place < packet) sent → result ≡ length (chapter_e channel from packet sent) }
    {
        let _ = tick;
        self.text_len(packet)
    }

    /// The number of the octets of what is kept.
    fn text_len(&self, packet: u64) -> usize
        ensures number { result ≡ length (extra_text packet self.now) }
        ensures bound { result ≤ 257 }
        ensures within { RowsWithin self.now.notes }
    {
        key_len(&self.rows, &self.recent, packet)
    }

    /// Appends Chapter E for the journal of this packet, which is past each noted one. `out` has room for
    /// [`ExtraTable::len`] octets. It takes the time of what is coded.
    pub fn write(&self, packet: u64, tick: u64, out: &mut Octets)
        requires { length (extra_text packet self.now) ≤ out.old.spare }
        ensures text { Appends out.old out.new (extra_text packet self.now) }
        ensures stands { (channel from : ℕ) (sent : List Sent) → self.now ≡ extra_kept channel from sent
            → AllByRecursion (λ place. packet_of place < packet) sent → Appends out.old out.new (chapter_e channel from packet sent) }
    {
        let _ = tick;
        self.write_text(packet, out);
    }

    /// Appends the octets of what is kept.
    fn write_text(&self, packet: u64, out: &mut Octets)
        requires { length (extra_text packet self.now) ≤ out.old.spare }
        ensures text { Appends out.old out.new (extra_text packet self.now) }
        ensures within { RowsWithin self.now.notes }
    {
        key_write(&self.rows, &self.recent, packet, out);
    }

    /// Whether an S bit of the chapter in the journal of this packet is 0. It takes the time of what is coded.
    pub fn fresh(&self, packet: u64) -> bool
        ensures test { result ≡ extra_fresh packet self.now }
        ensures stands { (channel from : ℕ) (sent : List Sent) → self.now ≡ extra_kept channel from sent
            → AllByRecursion (λ place. packet_of place < packet) sent → result ≡ fresh_e channel from packet sent }
    {
        self.is_fresh(packet)
    }

    /// Whether something that is kept is of the packet before.
    fn is_fresh(&self, packet: u64) -> bool
        ensures test { result ≡ extra_fresh packet self.now }
        ensures within { RowsWithin self.now.notes }
    {
        key_tally(&self.rows, &self.recent, packet).fresh
    }

    /// Makes the content that of `other`. It takes constant time.
    pub fn copy_from(&mut self, other: &Self)
        ensures { self.new ≡ other.now }
    {
        self.recent.copy_from(&other.recent);
        self.rows.notes.copy_from(&other.rows.notes);
        let counts = other.rows.counts;
        self.rows.counts = counts;
    }
}
