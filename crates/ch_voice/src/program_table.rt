//! The table of Chapter P.

ghost use Rattle.std.specs.Prelude.{ℕ, ◌≡◌, ◌+◌, ◌<◌, ◌≤◌, List, [], ◌∷◌, ◌++◌, length};
ghost use Rattle.std.specs.List.{list_any, AllByRecursion};
ghost use Rattle.jm_wire.specs.Octets.{Appends};
ghost use Rattle.jm_cmds.specs.declared.history.Sent.{Sent};
ghost use Rattle.jm_cmds.specs.Channels.{own_channel, IsForChannel};
ghost use Rattle.jm_cmds.specs.KeptItem.{kept_fresh};
ghost use Rattle.jm_cmds.specs.Sent.{packet_of};
ghost use Rattle.ch_voice.specs.ProgramEvent.{program_event};
ghost use Rattle.ch_voice.specs.ChapterP.{chapter_p, fresh_p};
ghost use Rattle.ch_voice.specs.ProgramTable.{program_kept, program_noted, program_cut, programs_text};
ghost use Rattle.ch_voice.specs.Bank.{no_bank};

use crate::bank::Bank;
use crate::events::{ProgramEvent, program_event};
use crate::program::{ProgramChoice, choice_of};
use jm_cmds::{Command, is_packet_before};
use jm_wire::Octets;
use std::marker::Model;

/// What Chapter P needs of a channel's history since the checkpoint: the program that is coded, with its bank;
/// and of its whole history: the bank.
///
/// The plain functions of [`crate::p`] tell the same of a list of all commands. A table serves one channel;
/// each call takes constant time and no memory.
#[derive(Debug, Drop)]
pub struct ProgramTable {
    /// The bank that the whole session left.
    bank: Bank,
    /// The packet and the program.
    kept: Option<(u64, ProgramChoice)>,
}

impl Model for ProgramTable {
    ghost use Rattle.std.specs.Option.{option_to_list};
    ghost use Rattle.ch_voice.specs.ProgramTable.{ProgramsKept};

    ghost Value = { ProgramsKept };

    ghost view = { λ t. record { bank = t.bank; kept = option_to_list t.kept } };
}

impl ProgramTable {
    /// The table of no command, with checkpoint 0.
    pub fn new() -> Self
        ensures empty { result ≡ record { bank = no_bank; kept = [] } }
        ensures stands { (channel : ℕ) → result ≡ program_kept channel 0 [] }
    {
        ProgramTable {
            bank: Bank::none(),
            kept: None,
        }
    }

    /// Notes one command more: it is of the table's channel or of none, and goes out in this packet, which
    /// isn't before the checkpoint. `tick` isn't looked at; each table takes it.
    pub fn note(&mut self, command: &Command, packet: u64, tick: u64)
        ensures change { self.new ≡ program_noted (program_event (own_channel command.now) command.now) packet self.old }
        ensures stands { (channel from : ℕ) (sent : List Sent) → self.old ≡ program_kept channel from sent
            → IsForChannel channel command.now → from ≤ packet
            → self.new ≡ program_kept channel from (sent ++ record { packet = packet; tick = tick; command = command.now } ∷ []) }
    {
        let _ = tick;
        self.change(&program_event(command, command.own_channel()), packet);
    }

    /// One event more: a program goes with the bank before it.
    fn change(&mut self, event: &ProgramEvent, packet: u64)
        ensures { self.new ≡ program_noted event.now packet self.old }
    {
        match event {
            ProgramEvent::Chosen { program } => {
                self.kept = Some((packet, choice_of(&self.bank, *program)));
            }
            ProgramEvent::Reset => self.kept = None,
            ProgramEvent::BankHigh { .. }
            | ProgramEvent::BankLow { .. }
            | ProgramEvent::SetBack
            | ProgramEvent::Other => {}
        }
        self.bank.add(event);
    }

    /// Sets the checkpoint to this packet, which isn't before the present one.
    pub fn trim(&mut self, packet: u64)
        ensures change { self.new ≡ program_cut packet self.old }
        ensures stands { (channel from : ℕ) (sent : List Sent) → self.old ≡ program_kept channel from sent
            → from ≤ packet → self.new ≡ program_kept channel packet sent }
    {
        self.cut(packet);
    }

    /// Lets go what is of a packet before this one.
    fn cut(&mut self, packet: u64)
        ensures { self.new ≡ program_cut packet self.old }
    {
        if let Some((sent_in, _)) = self.kept {
            if sent_in < packet {
                self.kept = None;
            }
        }
    }

    /// The number of Chapter P's octets in the journal of this packet, which is past each noted one: 3, or 0
    /// where no program is coded.
    pub fn len(&self, packet: u64, tick: u64) -> usize
        ensures number { result ≡ length (programs_text packet self.now.kept) }
        ensures bound { result ≤ 3 }
        ensures stands { (channel from : ℕ) (sent : List Sent) → self.now ≡ program_kept channel from sent
            → AllByRecursion (λ place. packet_of place < packet) sent → result ≡ length (chapter_p channel from packet sent) }
    {
        let _ = tick;
        self.text_len(packet)
    }

    /// The number of the octets of what is kept.
    fn text_len(&self, packet: u64) -> usize
        ensures number { result ≡ length (programs_text packet self.now.kept) }
        ensures bound { result ≤ 3 }
    {
        let _ = packet;
        match self.kept {
            None => 0,
            Some(_) => 3,
        }
    }

    /// Appends Chapter P for the journal of this packet, which is past each noted one. `out` has room for
    /// [`ProgramTable::len`] octets.
    pub fn write(&self, packet: u64, tick: u64, out: &mut Octets)
        requires { length (programs_text packet self.now.kept) ≤ out.old.spare }
        ensures text { Appends out.old out.new (programs_text packet self.now.kept) }
        ensures stands { (channel from : ℕ) (sent : List Sent) → self.now ≡ program_kept channel from sent
            → AllByRecursion (λ place. packet_of place < packet) sent → Appends out.old out.new (chapter_p channel from packet sent) }
    {
        let _ = tick;
        self.write_text(packet, out);
    }

    /// Appends the octets of what is kept.
    fn write_text(&self, packet: u64, out: &mut Octets)
        requires { length (programs_text packet self.now.kept) ≤ out.old.spare }
        ensures { Appends out.old out.new (programs_text packet self.now.kept) }
    {
        if let Some((sent_in, choice)) = self.kept {
            choice.write(is_packet_before(sent_in, packet), out);
        }
    }

    /// Whether the S bit of the chapter in the journal of this packet is 0.
    pub fn fresh(&self, packet: u64) -> bool
        ensures test { result ≡ list_any (kept_fresh packet) self.now.kept }
        ensures stands { (channel from : ℕ) (sent : List Sent) → self.now ≡ program_kept channel from sent
            → AllByRecursion (λ place. packet_of place < packet) sent → result ≡ fresh_p channel from packet sent }
    {
        self.is_fresh(packet)
    }

    /// Whether what is kept is of the packet before.
    fn is_fresh(&self, packet: u64) -> bool
        ensures { result ≡ list_any (kept_fresh packet) self.now.kept }
    {
        match self.kept {
            None => false,
            Some((sent_in, _)) => is_packet_before(sent_in, packet),
        }
    }

    /// Makes the content that of `other`.
    pub fn copy_from(&mut self, other: &Self)
        ensures { self.new ≡ other.now }
    {
        self.bank.high = other.bank.high;
        self.bank.low = other.bank.low;
        self.bank.set_back = other.bank.set_back;
        self.kept = other.kept;
    }
}
