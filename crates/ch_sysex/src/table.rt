//! The table of Chapter X.

ghost use Rattle.std.specs.Prelude.{ℕ, IsTrue, ◌≡◌, ◌+◌, ◌*◌, ◌<◌, ◌≤◌, true, false, List, [], ◌∷◌, ◌++◌, length, IfOk, drop};
ghost use Rattle.std.specs.List.{list_any, AllByRecursion};
ghost use Rattle.jm_wire.specs.Octets.{Appends};
ghost use Rattle.jm_cmds.specs.declared.history.Sent.{Sent};
ghost use Rattle.jm_cmds.specs.Data.{IsSysex};
ghost use Rattle.jm_cmds.specs.Sent.{packet_of};
ghost use Rattle.ch_sysex.specs.SysexEvent.{sysex_event, data_of, is_logged};
ghost use Rattle.ch_sysex.specs.ChapterX.{chapter_x, fresh_x, sysex_logs, sysex_octets};
ghost use Rattle.ch_sysex.specs.SysexTable.{none_kept, sysex_kept, AreLogsUpTo, HasRoom, sysex_noted, sysex_cut, logs_since, log_fresh, sysex_text, kept_octets};

use crate::events::{SysexEvent, data_of, sysex_event};
use crate::kept::{KeptMessage, is_any_fresh, kept_message, octets_of, push, write_messages};
use circular_buffer::HeapCircularBuffer;
use jm_cmds::Command;
use jm_wire::Octets;
use std::alloc::{AllocError, Global};
use std::marker::Model;

/// The most logs that the chapter has.
const MOST_LOGS: usize = 128;

/// What Chapter X needs of the history since the checkpoint: the messages that are coded; and of the whole history: how
/// many were kept since the last Reset State command.
///
/// The plain functions of [`crate::x`] tell the same of a list of all commands. Only [`Table::new`] takes memory. Each call
/// takes the time of what it drops or writes, or constant time where it does neither.
#[derive(Drop)]
pub struct Table {
    /// How many messages were kept since the last Reset State command, modulo 256.
    count: u8,
    /// The messages, oldest first, in a ring with room for 128.
    messages: HeapCircularBuffer<KeptMessage>,
}

impl Model for Table {
    ghost use Rattle.std.specs.Prelude.{◌≡◌};
    ghost use Rattle.jm_cmds.specs.History.{InOrder};
    ghost use Rattle.ch_sysex.specs.SysexTable.{SysexKept, logs_in, log_packet, AreShort};

    ghost Value = { SysexKept };

    ghost view = { λ t. record { count = t.count; logs = logs_in t.messages.items } };

    ghost invariant = { λ t. (t.messages.capacity ≡ 128) × AreShort t.messages.items × InOrder log_packet (logs_in t.messages.items) };
}

impl Table {
    /// The table of no command, with checkpoint 0.
    pub fn new(alloc: Global) -> Result<Self, AllocError>
        ensures empty { IfOk result (λ table. table ≡ none_kept) }
        ensures stands { IfOk result (λ table. table ≡ sysex_kept 0 []) }
    {
        let messages = HeapCircularBuffer::with_capacity(alloc, MOST_LOGS)?;
        Ok(Table { count: 0, messages })
    }

    /// Notes one command more, which goes out in this packet, and this is neither before the checkpoint nor before one that
    /// was noted. For a message that is kept there has to be room for one log more. `tick` isn't looked at; each table
    /// takes it.
    pub fn note(&mut self, command: &Command, packet: u64, tick: u64)
        requires order { AreLogsUpTo packet self.old.logs }
        requires room { HasRoom (sysex_event command.now) self.old.logs }
        ensures change { self.new ≡ sysex_noted (sysex_event command.now) (data_of command.now) packet self.old }
        ensures stands { (from : ℕ) (sent : List Sent) → self.old ≡ sysex_kept from sent → from ≤ packet
            → self.new ≡ sysex_kept from (sent ++ record { packet = packet; tick = tick; command = command.now } ∷ []) }
        ensures order { (later : ℕ) → packet ≤ later → AreLogsUpTo later self.new.logs }
    {
        let _ = tick;
        self.change(sysex_event(command), data_of(command), packet);
    }

    /// One event more, with its data octets.
    fn change(&mut self, event: SysexEvent, octets: &[u8], packet: u64)
        requires order { AreLogsUpTo packet self.old.logs }
        requires room { HasRoom event self.old.logs }
        requires data { IsSysex octets.now }
        requires short { is_logged event ≡ true → length octets.now ≤ 254 }
        ensures { self.new ≡ sysex_noted event octets.now packet self.old }
    {
        match event {
            SysexEvent::Kept => {
                let count = self.count.wrapping_add(1);
                self.count = count;
                push(&mut self.messages, kept_message(packet, count, octets));
            }
            SysexEvent::ResetMessage => {
                self.count = 0;
                self.messages.clear();
                push(&mut self.messages, kept_message(packet, 0, octets));
            }
            SysexEvent::Reset => {
                self.count = 0;
                self.messages.clear();
            }
            SysexEvent::Other => {}
        }
    }

    /// Sets the checkpoint to this packet, which isn't before the present one.
    pub fn trim(&mut self, packet: u64)
        ensures change { self.new ≡ sysex_cut packet self.old }
        ensures stands { (from : ℕ) (sent : List Sent) → self.old ≡ sysex_kept from sent → from ≤ packet
            → self.new ≡ sysex_kept packet sent }
        ensures order { (later : ℕ) → AreLogsUpTo later self.old.logs → AreLogsUpTo later self.new.logs }
    {
        self.cut(packet);
    }

    /// Lets go what is of a packet before this one.
    fn cut(&mut self, packet: u64)
        ensures { self.new ≡ sysex_cut packet self.old }
    {
        while self.is_first_before(packet) {
            self.drop_first();
        }
    }

    /// Whether the first log is of a packet before this one.
    fn is_first_before(&self, packet: u64) -> bool
        ensures early { result ≡ true → (logs_since packet (drop 1 self.now.logs) ≡ logs_since packet self.now.logs) × (0 < length self.now.logs) }
        ensures late { result ≡ false → logs_since packet self.now.logs ≡ self.now.logs }
    {
        match self.messages.front() {
            None => false,
            Some(first) => first.packet < packet,
        }
    }

    /// Lets go the first log.
    fn drop_first(&mut self)
        ensures count { self.new.count ≡ self.old.count }
        ensures logs { self.new.logs ≡ drop 1 self.old.logs }
    {
        self.messages.pop_front();
    }

    /// The number of the logs.
    pub fn logs(&self) -> usize
        ensures number { result ≡ length self.now.logs }
        ensures bound { result ≤ 128 }
        ensures stands { (from : ℕ) (sent : List Sent) → self.now ≡ sysex_kept from sent → result ≡ sysex_logs from sent }
    {
        self.count_logs()
    }

    /// The number of the logs that are kept.
    fn count_logs(&self) -> usize
        ensures number { result ≡ length self.now.logs }
        ensures bound { result ≤ 128 }
    {
        self.messages.len()
    }

    /// The number of the logs' octets.
    pub fn octets(&self) -> usize
        ensures number { result ≡ kept_octets self.now.logs }
        ensures stands { (from : ℕ) (sent : List Sent) → self.now ≡ sysex_kept from sent → result ≡ sysex_octets from sent }
    {
        self.total()
    }

    /// The number of the octets of what is kept.
    fn total(&self) -> usize
        ensures { result ≡ kept_octets self.now.logs }
    {
        // For the prover, which learns by this how many there are.
        let _ = self.messages.len();
        let (front, back) = self.messages.as_slices();
        octets_of(front) + octets_of(back)
    }

    /// The number of Chapter X's octets in the journal of this packet, which is past each noted one. It is 0 where no
    /// message is coded.
    pub fn len(&self, packet: u64, tick: u64) -> usize
        ensures number { result ≡ length (sysex_text packet self.now.logs) }
        ensures stands { (from : ℕ) (sent : List Sent) → self.now ≡ sysex_kept from sent
            → AllByRecursion (λ place. packet_of place < packet) sent → result ≡ length (chapter_x from packet sent) }
    {
        let _ = tick;
        self.text_len(packet)
    }

    /// The number of the octets of what is kept.
    fn text_len(&self, packet: u64) -> usize
        ensures { result ≡ length (sysex_text packet self.now.logs) }
    {
        let _ = packet;
        self.total()
    }

    /// Appends Chapter X for the journal of this packet, which is past each noted one. `out` has room for [`Table::len`]
    /// octets.
    pub fn write(&self, packet: u64, tick: u64, out: &mut Octets)
        requires { length (sysex_text packet self.now.logs) ≤ out.old.spare }
        ensures text { Appends out.old out.new (sysex_text packet self.now.logs) }
        ensures stands { (from : ℕ) (sent : List Sent) → self.now ≡ sysex_kept from sent
            → AllByRecursion (λ place. packet_of place < packet) sent → Appends out.old out.new (chapter_x from packet sent) }
    {
        let _ = tick;
        self.write_text(packet, out);
    }

    /// Appends the octets of what is kept.
    fn write_text(&self, packet: u64, out: &mut Octets)
        requires { length (sysex_text packet self.now.logs) ≤ out.old.spare }
        ensures { Appends out.old out.new (sysex_text packet self.now.logs) }
    {
        let (front, back) = self.messages.as_slices();
        write_messages(front, packet, out);
        write_messages(back, packet, out);
    }

    /// Whether an S bit of the chapter in the journal of this packet is 0.
    pub fn fresh(&self, packet: u64) -> bool
        ensures test { result ≡ list_any (log_fresh packet) self.now.logs }
        ensures stands { (from : ℕ) (sent : List Sent) → self.now ≡ sysex_kept from sent
            → AllByRecursion (λ place. packet_of place < packet) sent → result ≡ fresh_x from packet sent }
    {
        self.is_fresh(packet)
    }

    /// Whether something that is kept is of the packet before.
    fn is_fresh(&self, packet: u64) -> bool
        ensures { result ≡ list_any (log_fresh packet) self.now.logs }
    {
        let (front, back) = self.messages.as_slices();
        is_any_fresh(front, packet) || is_any_fresh(back, packet)
    }

    /// Makes the content that of `other`.
    pub fn copy_from(&mut self, other: &Self)
        ensures { self.new ≡ other.now }
    {
        // For the prover, which learns by this that all fit.
        let _ = other.messages.len();
        let (front, back) = other.messages.as_slices();
        self.count = other.count;
        self.messages.clear();
        self.messages.extend_from_slice(front);
        self.messages.extend_from_slice(back);
    }
}
