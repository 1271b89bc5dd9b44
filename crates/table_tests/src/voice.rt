//! The tables of Chapters P, W and T.

use crate::compare::{Moment, Tables, Told, check, compare_rounds, control, reset_message};
use ch_voice::{PressureTable, ProgramTable, WheelTable, p, t, w};
use jm_cmds::{Channel, Command, D7, Sent, in_order};
use jm_wire::Octets;
use std::alloc::Global;
use std::process::Abort;
use std::test::Fail;

#[derive(Drop)]
struct Voice {
    program: ProgramTable,
    wheel: WheelTable,
    pressure: PressureTable,
}

impl Voice {
    fn none() -> Voice {
        Voice {
            program: ProgramTable::new(),
            wheel: WheelTable::new(),
            pressure: PressureTable::new(),
        }
    }
}

impl Tables for Voice {
    fn note(&mut self, command: &Command, packet: u64, tick: u64) {
        self.program.note(command, packet, tick);
        self.wheel.note(command, packet, tick);
        self.pressure.note(command, packet, tick);
    }

    fn trim(&mut self, packet: u64) {
        self.program.trim(packet);
        self.wheel.trim(packet);
        self.pressure.trim(packet);
    }

    fn copy_from(&mut self, other: &Self) {
        self.program.copy_from(&other.program);
        self.wheel.copy_from(&other.wheel);
        self.pressure.copy_from(&other.pressure);
    }

    fn told(&self, moment: &Moment, alloc: Global) -> Result<Told, Fail> {
        let Moment { packet, tick, .. } = *moment;
        let room = self.program.len(packet, tick)
            + self.wheel.len(packet, tick)
            + self.pressure.len(packet, tick);
        let mut octets = Octets::with_room(room, alloc)?;
        self.program.write(packet, tick, &mut octets);
        self.wheel.write(packet, tick, &mut octets);
        self.pressure.write(packet, tick, &mut octets);
        let fresh = [
            self.program.fresh(packet),
            self.wheel.fresh(packet),
            self.pressure.fresh(packet),
            false,
        ];
        Ok(Told {
            octets,
            fresh,
            numbers: [0; 4],
        })
    }

    fn plain<R: Abort>(
        rt: &R,
        list: &[Sent],
        moment: &Moment,
        alloc: Global,
    ) -> Result<Told, Fail> {
        let Moment {
            checkpoint,
            packet,
            tick,
        } = *moment;
        let channel = Channel::low(0);
        assert!(rt; in_order(list));
        let room = p::plain_len(list, channel, checkpoint, packet, tick)
            + w::plain_len(list, channel, checkpoint, packet, tick)
            + t::plain_len(list, channel, checkpoint, packet, tick);
        let mut octets = Octets::with_room(room, alloc)?;
        p::plain_write(list, channel, checkpoint, packet, tick, &mut octets);
        w::plain_write(list, channel, checkpoint, packet, tick, &mut octets);
        t::plain_write(list, channel, checkpoint, packet, tick, &mut octets);
        let fresh = [
            p::plain_fresh(list, channel, checkpoint, packet),
            w::plain_fresh(list, channel, checkpoint, packet),
            t::plain_fresh(list, channel, checkpoint, packet),
            false,
        ];
        Ok(Told {
            octets,
            fresh,
            numbers: [0; 4],
        })
    }

    fn command(draw: [u8; 8], number: usize, alloc: Global) -> Result<Command, Fail> {
        let _ = number;
        let channel = Channel::low(0);
        Ok(match draw[0] {
            0..=47 => Command::Program {
                channel,
                program: D7::low(draw[1]),
            },
            48..=87 => Command::Wheel {
                channel,
                first: D7::low(draw[1]),
                second: D7::low(draw[2]),
            },
            88..=127 => Command::Pressure {
                channel,
                value: D7::low(draw[1]),
            },
            128..=167 => control(0, draw[1]),
            168..=207 => control(32, draw[1]),
            208..=227 => control(draw[1], draw[2]),
            228..=233 => control(121, 0),
            234..=241 => control(123, 0),
            242..=247 => Command::SystemReset,
            248..=251 => reset_message(alloc)?,
            252.. => Command::Clock,
        })
    }
}

#[test]
fn examples(rt: HostRuntime) -> Result<(), Fail> {
    let alloc = rt.alloc();
    let first = [0xb0, 0, 5, 0xb0, 121, 0, 0xc0, 7];
    check(
        &rt,
        &mut Voice::none(),
        &[&first],
        [0, 1],
        &[0x07, 0x85, 0x80],
        alloc,
    )?;
    check(
        &rt,
        &mut Voice::none(),
        &[&first],
        [0, 2],
        &[0x87, 0x85, 0x80],
        alloc,
    )?;
    check(&rt, &mut Voice::none(), &[&first], [1, 2], &[], alloc)?;
    check(
        &rt,
        &mut Voice::none(),
        &[&first, &[0xc0, 8]],
        [1, 2],
        &[0x08, 0x85, 0x80],
        alloc,
    )?;
    Ok(())
}

/// 10,000 commands.
#[test]
fn tables_and_plain_functions_tell_the_same(rt: HostRuntime) -> Result<(), Fail> {
    let alloc = rt.alloc();
    compare_rounds(&rt, &mut Voice::none(), &mut Voice::none(), 50, alloc)
}
