//! Chapter P: program and bank (RFC 6295, A.2).

ghost use Rattle.std.specs.Prelude.{◌≡◌, ◌≤◌, None, fold, length};
ghost use Rattle.jm_wire.specs.Octets.{Appends};
ghost use Rattle.jm_cmds.specs.History.{InOrder, below, scanned};
ghost use Rattle.jm_cmds.specs.Sent.{packet_of};
ghost use Rattle.ch_voice.specs.Bank.{no_bank, bank_step};
ghost use Rattle.ch_voice.specs.ChapterP.{chapter_p, fresh_p};
ghost use Rattle.ch_voice.specs.KeptProgram.{program_of, program_after, program_step, program_text, program_fresh};

use crate::bank::Bank;
use crate::events::{ProgramEvent, program_event};
use crate::program::ProgramLog;
use jm_cmds::{Channel, D7, Sent, first_place, session_history};
use jm_wire::Octets;

/// The log of a program with this bank before it, where it is of a packet from the checkpoint on.
fn program_of(bank: &Bank, program: D7, fresh: bool, recent: bool) -> Option<ProgramLog>
    ensures { result ≡ program_of bank.now program fresh recent }
{
    if recent {
        Some(ProgramLog {
            fresh,
            program,
            high: bank.high_octet(),
            low: bank.low_octet(),
        })
    } else {
        None
    }
}

/// What stands of the program behind this event, with this bank before it.
fn program_after(
    kept: Option<ProgramLog>,
    event: &ProgramEvent,
    bank: &Bank,
    fresh: bool,
    recent: bool,
) -> Option<ProgramLog>
    ensures { result ≡ program_after kept event.now bank.now fresh recent }
{
    match event {
        ProgramEvent::Chosen { program } => program_of(bank, *program, fresh, recent),
        ProgramEvent::Reset => None,
        ProgramEvent::BankHigh { .. }
        | ProgramEvent::BankLow { .. }
        | ProgramEvent::SetBack
        | ProgramEvent::Other => kept,
    }
}

/// What stands of the program behind these places, of packets from the checkpoint on. The bank is told
/// from all places.
fn kept_program(
    places: &[Sent],
    channel: Channel,
    checkpoint: u64,
    packet: u64,
) -> Option<ProgramLog>
    ensures { result ≡ fold (program_step channel checkpoint packet) None (scanned (bank_step channel) no_bank places.now) }
{
    let mut bank = Bank::none();
    let mut kept = None;
    let mut rest = places;
    while let Some((place, later)) = first_place(rest) {
        let event = program_event(&place.command, channel);
        kept = program_after(
            kept,
            &event,
            &bank,
            place.is_fresh(packet),
            checkpoint <= place.packet,
        );
        bank.add(&event);
        rest = later;
    }
    kept
}

/// The log of the chapter, if there is one.
fn program_log(list: &[Sent], channel: Channel, checkpoint: u64, packet: u64) -> Option<ProgramLog>
    requires { InOrder packet_of list.now }
    ensures octets { program_text result ≡ chapter_p channel checkpoint packet list.now }
    ensures fresh { program_fresh result ≡ fresh_p channel checkpoint packet list.now }
{
    kept_program(session_history(list, packet), channel, checkpoint, packet)
}

/// The number of Chapter P's octets in the journal of this packet: 3, or 0 where no program is coded.
///
/// The list is the session's history, and may go past the packet. `checkpoint` is the journal's.
pub fn plain_len(list: &[Sent], channel: Channel, checkpoint: u64, packet: u64, tick: u64) -> usize
    requires { InOrder packet_of list.now }
    ensures number { result ≡ length (chapter_p channel checkpoint packet list.now) }
    ensures bound { result ≤ 3 }
{
    let _ = tick;
    match program_log(list, channel, checkpoint, packet) {
        None => 0,
        Some(_) => 3,
    }
}

/// Appends Chapter P of this channel for the journal of this packet: the last Program of the packets from
/// the checkpoint on, where it is active, with the bank that the whole session left before it.
pub fn plain_write(
    list: &[Sent],
    channel: Channel,
    checkpoint: u64,
    packet: u64,
    tick: u64,
    out: &mut Octets,
)
    requires order { InOrder packet_of list.now }
    requires spare { length (chapter_p channel checkpoint packet list.now) ≤ out.old.spare }
    ensures { Appends out.old out.new (chapter_p channel checkpoint packet list.now) }
{
    let _ = tick;
    if let Some(log) = program_log(list, channel, checkpoint, packet) {
        log.write(out);
    }
}

/// Whether the S bit of the chapter is 0: its Program is of the packet before.
pub fn plain_fresh(list: &[Sent], channel: Channel, checkpoint: u64, packet: u64) -> bool
    requires { InOrder packet_of list.now }
    ensures { result ≡ fresh_p channel checkpoint packet list.now }
{
    match program_log(list, channel, checkpoint, packet) {
        None => false,
        Some(log) => log.fresh,
    }
}
