//! The table of Chapter X.

use crate::compare::{Moment, Tables, Told, check, compare_rounds, control, reset_message};
use ch_sysex::{Table, x};
use jm_cmds::{Command, Sent, Sysex, in_order, session_history};
use jm_wire::Octets;
use std::alloc::{AllocError, Global};
use std::marker::Model;
use std::process::Abort;
use std::test::Fail;

/// The table, with the packet of the last command that it has noted.
#[derive(Drop)]
struct Messages {
    last: u64,
    table: Table,
}

impl Model for Messages {
    ghost use Rattle.std.specs.Prelude.{ℕ, ◌≤◌};
    ghost use Rattle.ch_sysex.specs.SysexTable.{AreLogsUpTo};

    ghost Value = { ℕ };

    ghost view = { λ t. t.last };

    ghost invariant = { λ t. (later : ℕ) → t.last ≤ later → AreLogsUpTo later t.table.logs };
}

impl Messages {
    fn none(alloc: Global) -> Result<Messages, AllocError> {
        let table = Table::new(alloc)?;
        Ok(Messages { last: 0, table })
    }
}

impl Tables for Messages {
    fn note(&mut self, command: &Command, packet: u64, tick: u64) {
        if self.last <= packet && self.table.logs() < 128 {
            self.table.note(command, packet, tick);
            self.last = packet;
        }
    }

    fn trim(&mut self, packet: u64) {
        self.table.trim(packet);
    }

    fn copy_from(&mut self, other: &Self) {
        self.last = other.last;
        self.table.copy_from(&other.table);
    }

    fn told(&self, moment: &Moment, alloc: Global) -> Result<Told, Fail> {
        let Moment { packet, tick, .. } = *moment;
        let mut octets = Octets::with_room(self.table.len(packet, tick), alloc)?;
        self.table.write(packet, tick, &mut octets);
        Ok(Told {
            octets,
            fresh: [self.table.fresh(packet), false, false, false],
            numbers: [self.table.logs(), self.table.octets(), 0, 0],
        })
    }

    fn plain<R: Abort>(
        rt: &R,
        list: &[Sent],
        moment: &Moment,
        alloc: Global,
    ) -> Result<Told, Fail> {
        let Moment {
            checkpoint,
            packet,
            tick,
        } = *moment;
        assert!(rt; in_order(list));
        assert!(rt; x::plain_room(session_history(list, packet), checkpoint).1 <= 100_000);
        let room = x::plain_len(list, checkpoint, packet, tick);
        let mut octets = Octets::with_room(room, alloc)?;
        x::plain_write(list, checkpoint, packet, tick, &mut octets);
        let fresh = x::plain_fresh(list, checkpoint, packet);
        let (logs, length) = x::plain_room(list, checkpoint);
        Ok(Told {
            octets,
            fresh: [fresh, false, false, false],
            numbers: [logs, length, 0, 0],
        })
    }

    fn command(draw: [u8; 8], number: usize, alloc: Global) -> Result<Command, Fail> {
        let _ = number;
        Ok(match draw[0] {
            0..=47 => Command::Sysex(Sysex::new(&[draw[1] % 128, draw[2] % 128], alloc)?),
            48..=51 => Command::Sysex(Sysex::new(&[], alloc)?),
            52..=55 => Command::Sysex(Sysex::new(&[draw[1] % 128; 254], alloc)?),
            56..=59 => Command::Sysex(Sysex::new(&[draw[1] % 128; 255], alloc)?),
            60..=62 => reset_message(alloc)?,
            63 => Command::SystemReset,
            64.. => control(draw[1], draw[2]),
        })
    }
}

#[test]
fn examples(rt: HostRuntime) -> Result<(), Fail> {
    let alloc = rt.alloc();
    check(
        &rt,
        &mut Messages::none(alloc)?,
        &[&[0xf0, 0xf7]],
        [0, 1],
        &[0x27, 0x01],
        alloc,
    )?;
    let three = [
        0xf0, 0x7d, 1, 0xf7, 0xf0, 0x7e, 0x7f, 9, 1, 0xf7, 0xf0, 0x7d, 2, 0xf7,
    ];
    let two = [0x2f, 0x00, 0x7e, 0x7f, 0x09, 0x81, 0x2f, 0x01, 0x7d, 0x82];
    check(
        &rt,
        &mut Messages::none(alloc)?,
        &[&three],
        [0, 1],
        &two,
        alloc,
    )?;
    let later = [0x2f, 0x02, 0x7d, 0x83];
    check(
        &rt,
        &mut Messages::none(alloc)?,
        &[&three, &[0xf0, 0x7d, 3, 0xf7]],
        [1, 2],
        &later,
        alloc,
    )?;
    Ok(())
}

/// Three messages of 254 data octets, of which a log has 256 octets, and one of 255, which has none.
#[test]
fn long_messages(rt: HostRuntime) -> Result<(), Fail> {
    let alloc = rt.alloc();
    let mut messages = Messages::none(alloc)?;
    let long = Command::Sysex(Sysex::new(&[5; 254], alloc)?);
    for packet in 0..3u64 {
        messages.note(&long, packet, 0);
    }
    messages.note(&Command::Sysex(Sysex::new(&[6; 255], alloc)?), 3, 0);
    assert_eq!(rt; messages.table.logs(), 3);
    assert_eq!(rt; messages.table.octets(), 768);
    messages.trim(1);
    assert_eq!(rt; messages.table.octets(), 512);
    Ok(())
}

/// 10,000 commands.
#[test]
fn the_table_and_plain_functions_tell_the_same(rt: HostRuntime) -> Result<(), Fail> {
    let alloc = rt.alloc();
    let mut messages = Messages::none(alloc)?;
    let mut others = Messages::none(alloc)?;
    compare_rounds(&rt, &mut messages, &mut others, 50, alloc)
}
