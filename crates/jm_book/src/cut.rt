//! Cutting packets: all pending commands become the next one, or one segment of a long command does.

ghost use Rattle.std.specs.Prelude.{◌≡◌, ◌+◌, ◌≤◌, ◌<◌, ◌^◌, true, false, [], ◌++◌, length, IsTrue, if◌then◌else◌};
ghost use Rattle.jm_wire.specs.Octets.{Appends};
ghost use Rattle.jm_cmds.specs.Sent.{packet_of as sent_packet};
ghost use Rattle.jm_cmds.specs.History.{InOrder, below};
ghost use Rattle.jm_journal.specs.Limits.{KeepsLimits};
ghost use Rattle.jm_book.specs.Participants.{checkpoint_at};
ghost use Rattle.jm_book.specs.Packet.{packet_text, header_of, journal_of, has_journal, HasShortJournal};
ghost use Rattle.jm_book.specs.Answers.{members_cut, is_packet};
ghost use Rattle.jm_book.specs.Core.{next_tick, next_list, left_pending, with_packet};

use crate::answers::Cutted;
use crate::keeper::Core;
use jm_cmds::Sent;
use jm_journal::{plain_len, plain_write};
use jm_packet::{Header, write_header};
use jm_section::{Place, segment_len, write_section_header, write_segment};
use jm_wire::Octets;

/// Whether the packet of this number has a journal: each but the first has.
fn has_journal(number: u64) -> bool
    ensures { result ≡ has_journal number }
{
    number > 0
}

/// The room that the journal of a packet takes, 0 where it has none.
#[tactic(auto, unfolding(crate::specs::Packet::journal_of))]
fn journal_len(sent: &[Sent], checkpoint: u64, number: u64, tick: u64) -> usize
    requires order { InOrder sent_packet sent.now }
    requires limits { KeepsLimits checkpoint (below sent_packet number sent.now) }
    ensures number { result ≡ length (journal_of checkpoint number tick sent.now) }
    ensures bound { result ≤ 16990 }
    ensures parts { HasShortJournal checkpoint number tick sent.now }
{
    if has_journal(number) {
        return plain_len(sent, checkpoint, number, tick);
    }
    0
}

/// Appends the journal of a packet, if it has one.
#[tactic(auto, unfolding(crate::specs::Packet::journal_of))]
fn write_journal(sent: &[Sent], checkpoint: u64, number: u64, tick: u64, out: &mut Octets)
    requires order { InOrder sent_packet sent.now }
    requires limits { KeepsLimits checkpoint (below sent_packet number sent.now) }
    requires spare { length (journal_of checkpoint number tick sent.now) ≤ out.old.spare }
    ensures { Appends out.old out.new (journal_of checkpoint number tick sent.now) }
{
    if has_journal(number) {
        plain_write(sent, checkpoint, number, tick, out);
    }
}

impl Core {
    /// The length of the MIDI list of the next packet.
    #[tactic(auto, using(crate::proofs::Holding::list_of_segment, crate::proofs::Holding::list_of_pending))]
    fn list_len(&self) -> usize
        ensures value { result ≡ length (next_list self.now) }
        ensures bound { result ≤ 4095 }
    {
        match self.unsent.next() {
            Some(segment) => segment_len(segment.kind, segment.octets),
            None => self.list.as_slice().len(),
        }
    }

    /// Appends the MIDI list of the next packet: the first segment that waits, or what is pending.
    #[tactic(auto, using(crate::proofs::Holding::list_of_segment, crate::proofs::Holding::list_of_pending))]
    fn write_list(&self, out: &mut Octets)
        requires { length (next_list self.now) ≤ out.old.spare }
        ensures { Appends out.old out.new (next_list self.now) }
    {
        match self.unsent.next() {
            Some(segment) => write_segment(segment.kind, segment.octets, out),
            None => out.push_slice(self.list.as_slice()),
        }
    }

    /// The header of the next packet.
    fn next_header(&self, tick: u64) -> Header
        ensures { result ≡ header_of self.now.config.ssrc self.now.packets (next_tick self.now tick) (next_list self.now) }
    {
        Header {
            number: (self.packets % 0x1_0000) as u16,
            tick: (self.next_tick(tick) % 0x1_0000_0000) as u32,
            ssrc: self.config.ssrc,
            marker: self.list_len() > 0,
        }
    }

    /// How many commands are pending after a cut: none, unless it sends a segment that isn't the last one.
    fn left_pending(&self) -> usize
        ensures number { result ≡ left_pending self.now }
        ensures bound { result ≤ 256 }
    {
        if self.unsent.len() <= 1 {
            return 0;
        }
        self.pending
    }

    /// Appends the next packet. `sent` are the commands of the packets before it.
    fn write_packet(&self, tick: u64, sent: &[Sent], out: &mut Octets)
        requires order { InOrder sent_packet sent.now }
        requires limits { KeepsLimits (checkpoint_at self.now.packets self.now.members.joined) (below sent_packet self.now.packets sent.now) }
        requires room { 21100 ≤ out.old.spare }
        ensures written { Appends out.old out.new (packet_text self.now.config.ssrc (checkpoint_at self.now.packets self.now.members.joined) self.now.packets (next_tick self.now tick) (next_list self.now) sent.now) }
        ensures bound { out.old.spare ≤ out.new.spare + 21099 }
        ensures parts { HasShortJournal (checkpoint_at self.now.packets self.now.members.joined) self.now.packets (next_tick self.now tick) sent.now }
    {
        let number = self.packets();
        let checkpoint = self.checkpoint();
        let latest = self.next_tick(tick);
        // The room is owed for the journal's length too, which is told first.
        let _len = journal_len(sent, checkpoint, number, latest);
        write_header(&self.next_header(tick), out);
        write_section_header(self.list_len(), has_journal(number), out);
        self.write_list(out);
        write_journal(sent, checkpoint, number, latest, out);
    }

    /// All that is pending becomes the next packet, or the first segment that waits does. Its octets are appended to `out`.
    /// `sent` are the commands of the packets before it.
    pub(crate) fn cut(&mut self, tick: u64, sent: &[Sent], out: &mut Octets, left: bool) -> Cutted
        requires few { self.old.packets < 2 ^ 62 }
        requires order { InOrder sent_packet sent.now }
        requires limits { KeepsLimits (checkpoint_at self.old.packets self.old.members.joined) (below sent_packet self.old.packets sent.now) }
        requires room { 21100 ≤ out.old.spare }
        ensures answer { result ≡ members_cut left self.old.config.events self.old.packets self.old.members }
        ensures after { self.new ≡ (if is_packet result then with_packet self.old tick else self.old) }
        ensures packet { IsTrue (is_packet result) → Appends out.old out.new (packet_text self.old.config.ssrc (checkpoint_at self.old.packets self.old.members.joined) self.old.packets (next_tick self.old tick) (next_list self.old) sent.now) }
        ensures refused { is_packet result ≡ false → out.new ≡ out.old }
        ensures bound { out.old.spare ≤ out.new.spare + 21099 }
        ensures parts { IsTrue (is_packet result) → HasShortJournal (checkpoint_at self.old.packets self.old.members.joined) self.old.packets (next_tick self.old tick) sent.now }
    {
        let room = self.room(left);
        let answer = self.roster.cutting(room, self.packets);
        if let Cutted::Packet { .. } = answer {
            self.write_packet(tick, sent, out);
            self.packets += 1;
            self.pending = self.left_pending();
            self.tick = self.tick.max(tick);
            self.list.clear();
            self.place = Place::First;
            self.unsent.take_off();
        }
        answer
    }
}
