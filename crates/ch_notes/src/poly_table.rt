//! The table of Chapter A.

ghost use Rattle.std.specs.Prelude.{ℕ, ◌≡◌, ◌+◌, ◌*◌, ◌<◌, ◌≤◌, Bool, false, not, List, [], ◌∷◌, ◌++◌, ◌==◌, filter, length};
ghost use Rattle.std.specs.List.{list_any, AllByRecursion};
ghost use Rattle.jm_wire.specs.Octets.{Appends};
ghost use Rattle.jm_cmds.specs.declared.history.Sent.{Sent};
ghost use Rattle.jm_cmds.specs.Channels.{own_channel, IsForChannel};
ghost use Rattle.jm_cmds.specs.Control.{ends_notes};
ghost use Rattle.jm_cmds.specs.KeptItem.{kept_fresh, kept_since};
ghost use Rattle.jm_cmds.specs.Sent.{packet_of};
ghost use Rattle.jm_chapter.specs.Logs.{logs_in};
ghost use Rattle.ch_notes.specs.PolyEvent.{IsWithin, poly_event};
ghost use Rattle.ch_notes.specs.ChapterA.{chapter_a, fresh_a, poly_count, has_poly};
ghost use Rattle.ch_notes.specs.KeptRows.{RowsUpTo, row_fresh, rows_listed};
ghost use Rattle.ch_notes.specs.PolyTable.{PressRow, presses_kept, press_noted, mute, press_row_of, press_row_logs, has_press};

use crate::a::x_bit;
use crate::key_logs::{KeyLogs, key_len, key_tally, key_write};
use crate::presses::{PolyEvent, poly_event};
use jm_chapter::{Log, PlaceLogs};
use jm_cmds::{Command, D7};
use jm_recency::Recency;
use jm_wire::Octets;
use std::marker::Model;

/// The latest pressure on each key.
#[derive(Debug, Drop)]
pub(crate) struct PressRows {
    values: [D7; 128],
    /// Whether each is N-active: nothing ended the notes of the channel behind it.
    active: [bool; 128],
}

impl KeyLogs for PressRows {
    ghost logs = { λ s key. press_row_logs (press_row_of s key) };

    ghost is_within = { λ s key. Unit {0} };

    fn logs_of(&self, key: u16) -> PlaceLogs {
        let place = key as usize;
        let x = x_bit(!self.active[place]);
        let value = self.values[place];
        PlaceLogs::One(Log {
            number: D7::low(key as u8),
            field: x + value.get(),
        })
    }
}

/// What Chapter A needs of a channel's history since the checkpoint: the pressures on keys that are coded, in
/// the order of their latest commands.
///
/// The plain functions of [`crate::a`] tell the same of a list of all commands. A table serves one channel, and
/// no call takes memory.
#[derive(Debug, Drop)]
pub struct PolyTable {
    recent: Recency<128>,
    rows: PressRows,
}

impl Model for PolyTable {
    ghost use Rattle.std.specs.Prelude.{List, ℕ};
    ghost use Rattle.ch_notes.specs.PolyTable.{PressRow, press_rows};

    ghost Value = { List (ℕ × PressRow) };

    ghost view = { λ t. press_rows t.rows t.recent };
}

impl PolyTable {
    /// The table of no command, with checkpoint 0.
    pub fn new() -> Self
        ensures empty { result ≡ [] }
        ensures stands { (channel : ℕ) → result ≡ presses_kept channel 0 [] }
    {
        let values = [D7::low(0); 128];
        let active = [false; 128];
        PolyTable {
            recent: Recency::new(),
            rows: PressRows { values, active },
        }
    }

    /// Notes one command more: it is of the table's channel or of none, and goes out in this packet, which
    /// isn't before the checkpoint. `tick` isn't looked at; each table takes it. It takes constant time.
    pub fn note(&mut self, command: &Command, packet: u64, tick: u64)
        requires { RowsUpTo packet self.old }
        ensures change { self.new ≡ press_noted (ends_notes (own_channel command.now) command.now) (poly_event (own_channel command.now) command.now) packet self.old }
        ensures order { (later : ℕ) → packet ≤ later → RowsUpTo later self.new }
        ensures stands { (channel from : ℕ) (sent : List Sent) → self.old ≡ presses_kept channel from sent
            → IsForChannel channel command.now → from ≤ packet
            → self.new ≡ presses_kept channel from (sent ++ record { packet = packet; tick = tick; command = command.now } ∷ []) }
    {
        let _ = tick;
        let channel = command.own_channel();
        self.change(
            command.ends_notes(channel),
            &poly_event(command, channel),
            packet,
        );
    }

    /// One event more. `ends` says whether it ends the notes of the channel.
    fn change(&mut self, ends: bool, event: &PolyEvent, packet: u64)
        requires order { RowsUpTo packet self.old }
        requires within { IsWithin event.now }
        ensures { self.new ≡ press_noted ends event.now packet self.old }
    {
        self.mute(ends);
        match event {
            PolyEvent::Pressed { note, value } => self.press(*note, *value, packet),
            PolyEvent::Dropped => self.recent.clear(),
            PolyEvent::Other => {}
        }
    }

    /// No pressure is N-active any longer, where the notes of the channel end.
    fn mute(&mut self, ends: bool)
        ensures { self.new ≡ mute ends self.old }
    {
        if ends {
            let active = [false; 128];
            self.rows.active = active;
        }
    }

    /// The pressure on this key, which takes the place of an earlier one.
    fn press(&mut self, note: D7, value: D7, packet: u64)
        requires order { RowsUpTo packet self.old }
        requires within { note < 128 }
        ensures { self.new ≡ filter (λ r. not (r.1.note == note)) self.old
            ++ (packet, record { note = note; value = value; muted = false }) ∷ [] }
    {
        let key = u16::from(note.get());
        self.recent.touch(key, packet);
        let place = key as usize;
        self.rows.values[place] = value;
        self.rows.active[place] = true;
    }

    /// Sets the checkpoint to this packet, which isn't before the present one. It takes the time of what is no
    /// longer coded.
    pub fn trim(&mut self, packet: u64)
        ensures change { self.new ≡ kept_since packet self.old }
        ensures order { (later : ℕ) → RowsUpTo later self.old → RowsUpTo later self.new }
        ensures stands { (channel from : ℕ) (sent : List Sent) → self.old ≡ presses_kept channel from sent
            → from ≤ packet → self.new ≡ presses_kept channel packet sent }
    {
        self.cut(packet);
    }

    /// Lets go what is of a packet before this one.
    fn cut(&mut self, packet: u64)
        ensures { self.new ≡ kept_since packet self.old }
    {
        self.recent.trim(packet);
    }

    /// The number of Chapter A's octets in the journal of this packet, which is past each noted one: 0 where no
    /// pressure is coded. It takes the time of what is coded.
    pub fn len(&self, packet: u64, tick: u64) -> usize
        ensures number { result ≡ length (rows_listed press_row_logs packet self.now) }
        ensures bound { result ≤ 257 }
        ensures stands { (channel from : ℕ) (sent : List Sent) → self.now ≡ presses_kept channel from sent
            → AllByRecursion (λ place. packet_of place < packet) sent → result ≡ length (chapter_a channel from packet sent) }
    {
        let _ = tick;
        self.text_len(packet)
    }

    /// The number of the octets of what is kept.
    fn text_len(&self, packet: u64) -> usize
        ensures number { result ≡ length (rows_listed press_row_logs packet self.now) }
        ensures bound { result ≤ 257 }
    {
        key_len(&self.rows, &self.recent, packet)
    }

    /// Appends Chapter A for the journal of this packet, which is past each noted one. `out` has room for
    /// [`PolyTable::len`] octets. It takes the time of what is coded.
    pub fn write(&self, packet: u64, tick: u64, out: &mut Octets)
        requires { length (rows_listed press_row_logs packet self.now) ≤ out.old.spare }
        ensures text { Appends out.old out.new (rows_listed press_row_logs packet self.now) }
        ensures stands { (channel from : ℕ) (sent : List Sent) → self.now ≡ presses_kept channel from sent
            → AllByRecursion (λ place. packet_of place < packet) sent → Appends out.old out.new (chapter_a channel from packet sent) }
    {
        let _ = tick;
        self.write_text(packet, out);
    }

    /// Appends the octets of what is kept.
    fn write_text(&self, packet: u64, out: &mut Octets)
        requires { length (rows_listed press_row_logs packet self.now) ≤ out.old.spare }
        ensures { Appends out.old out.new (rows_listed press_row_logs packet self.now) }
    {
        key_write(&self.rows, &self.recent, packet, out);
    }

    /// Whether an S bit of the chapter in the journal of this packet is 0. It takes the time of what is coded.
    pub fn fresh(&self, packet: u64) -> bool
        ensures test { result ≡ row_fresh press_row_logs packet self.now }
        ensures stands { (channel from : ℕ) (sent : List Sent) → self.now ≡ presses_kept channel from sent
            → AllByRecursion (λ place. packet_of place < packet) sent → result ≡ fresh_a channel from packet sent }
    {
        self.is_fresh(packet)
    }

    /// Whether something that is kept is of the packet before.
    fn is_fresh(&self, packet: u64) -> bool
        ensures { result ≡ row_fresh press_row_logs packet self.now }
    {
        key_tally(&self.rows, &self.recent, packet).fresh
    }

    /// How many notes have a log. It takes constant time.
    pub fn notes(&self) -> usize
        ensures number { result ≡ length self.now }
        ensures bound { result ≤ 128 }
        ensures stands { (channel from : ℕ) (sent : List Sent) → self.now ≡ presses_kept channel from sent
            → result ≡ poly_count channel from sent }
    {
        self.count()
    }

    /// How many pressures are kept.
    fn count(&self) -> usize
        ensures number { result ≡ length self.now }
        ensures bound { result ≤ 128 }
    {
        self.recent.len()
    }

    /// Whether this note has a log. It takes constant time.
    pub fn has_note(&self, note: D7) -> bool
        ensures test { result ≡ has_press note self.now }
        ensures stands { (channel from : ℕ) (sent : List Sent) → self.now ≡ presses_kept channel from sent
            → result ≡ has_poly channel from note sent }
    {
        self.holds(note)
    }

    /// Whether a pressure on this key is kept.
    fn holds(&self, note: D7) -> bool
        ensures { result ≡ has_press note self.now }
    {
        self.recent.holds(u16::from(note.get()))
    }

    /// Makes the content that of `other`. It takes constant time.
    pub fn copy_from(&mut self, other: &Self)
        ensures { self.new ≡ other.now }
    {
        self.recent.copy_from(&other.recent);
        let values = other.rows.values;
        let active = other.rows.active;
        self.rows.values = values;
        self.rows.active = active;
    }
}
