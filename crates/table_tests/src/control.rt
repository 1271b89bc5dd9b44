//! The table of Chapter C.

use crate::compare::{Moment, Tables, Told, check, compare_rounds, control, reset_message};
use ch_control::{ControlTable, c};
use jm_cmds::{Channel, Command, Sent, in_order};
use jm_wire::Octets;
use std::alloc::Global;
use std::marker::Model;
use std::process::Abort;
use std::test::Fail;

/// The table, with the packet of the last command that it has noted.
#[derive(Drop)]
struct Controls {
    last: u64,
    table: ControlTable,
}

impl Model for Controls {
    ghost use Rattle.std.specs.Prelude.{ℕ, ◌≤◌};
    ghost use Rattle.ch_control.specs.ControlTable.{AreKeptUpTo};

    ghost Value = { ℕ };

    ghost view = { λ t. t.last };

    ghost invariant = { λ t. (later : ℕ) → t.last ≤ later → AreKeptUpTo later t.table.kept };
}

impl Controls {
    fn none() -> Controls {
        Controls {
            last: 0,
            table: ControlTable::new(),
        }
    }
}

impl Tables for Controls {
    fn note(&mut self, command: &Command, packet: u64, tick: u64) {
        if self.last <= packet {
            self.table.note(command, packet, tick);
            self.last = packet;
        }
    }

    fn trim(&mut self, packet: u64) {
        self.table.trim(packet);
    }

    fn copy_from(&mut self, other: &Self) {
        self.last = other.last;
        self.table.copy_from(&other.table);
    }

    fn told(&self, moment: &Moment, alloc: Global) -> Result<Told, Fail> {
        let Moment { packet, tick, .. } = *moment;
        let mut octets = Octets::with_room(self.table.len(packet, tick), alloc)?;
        self.table.write(packet, tick, &mut octets);
        Ok(Told {
            octets,
            fresh: [self.table.fresh(packet), false, false, false],
            numbers: [0; 4],
        })
    }

    fn plain<R: Abort>(
        rt: &R,
        list: &[Sent],
        moment: &Moment,
        alloc: Global,
    ) -> Result<Told, Fail> {
        let Moment {
            checkpoint,
            packet,
            tick,
        } = *moment;
        let channel = Channel::low(0);
        assert!(rt; in_order(list));
        let room = c::plain_len(list, channel, checkpoint, packet, tick);
        let mut octets = Octets::with_room(room, alloc)?;
        c::plain_write(list, channel, checkpoint, packet, tick, &mut octets);
        let fresh = c::plain_fresh(list, channel, checkpoint, packet);
        Ok(Told {
            octets,
            fresh: [fresh, false, false, false],
            numbers: [0; 4],
        })
    }

    fn command(draw: [u8; 8], number: usize, alloc: Global) -> Result<Command, Fail> {
        let _ = number;
        Ok(match draw[0] {
            0..=151 => control(draw[1], draw[2]),
            152..=191 => control(64, draw[2]),
            192..=241 => control(120 + draw[1] % 8, draw[2]),
            242..=247 => Command::Clock,
            248..=251 => Command::SystemReset,
            252.. => reset_message(alloc)?,
        })
    }
}

#[test]
fn examples(rt: HostRuntime) -> Result<(), Fail> {
    let alloc = rt.alloc();
    let bank = [0xb0, 0, 5, 0xb0, 121, 0, 0xc0, 7];
    check(
        &rt,
        &mut Controls::none(),
        &[&bank],
        [0, 1],
        &[0x01, 0, 5, 121, 0xc1],
        alloc,
    )?;
    let two = [0xb0, 7, 0x40, 0xb0, 1, 5];
    check(
        &rt,
        &mut Controls::none(),
        &[&two],
        [0, 1],
        &[0x01, 7, 0x40, 1, 5],
        alloc,
    )?;
    check(
        &rt,
        &mut Controls::none(),
        &[&two],
        [0, 2],
        &[0x81, 0x87, 0x40, 0x81, 5],
        alloc,
    )?;
    check(
        &rt,
        &mut Controls::none(),
        &[&[0xb0, 99, 1], &[0xb0, 98, 2, 0xb0, 6, 64]],
        [1, 2],
        &[0x00, 98, 2],
        alloc,
    )?;
    check(
        &rt,
        &mut Controls::none(),
        &[&[0xa0, 60, 80, 0xb0, 120, 0]],
        [0, 1],
        &[0x00, 120, 0xc1],
        alloc,
    )?;
    Ok(())
}

/// A count is of six bits, and starts anew behind 63.
#[test]
fn a_count_wraps(rt: HostRuntime) -> Result<(), Fail> {
    let alloc = rt.alloc();
    let mut octets = [0; 192];
    for place in 0..64usize {
        octets[3 * place] = 0xb0;
        octets[3 * place + 1] = 121;
    }
    check(
        &rt,
        &mut Controls::none(),
        &[&octets],
        [0, 1],
        &[0x00, 121, 0xc0],
        alloc,
    )?;
    Ok(())
}

/// 10,000 commands.
#[test]
fn the_table_and_plain_functions_tell_the_same(rt: HostRuntime) -> Result<(), Fail> {
    let alloc = rt.alloc();
    compare_rounds(&rt, &mut Controls::none(), &mut Controls::none(), 50, alloc)
}
