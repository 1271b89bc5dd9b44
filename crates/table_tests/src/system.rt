//! The tables of Chapters D, V, Q and F.

use crate::compare::{Moment, Tables, Told, check, compare_rounds, reset_message};
use ch_system::{SensingTable, SequencerTable, SimpleTable, TimeTable, d, f, q, v};
use jm_cmds::{Command, D7, D14, Sent, in_order};
use jm_wire::Octets;
use std::alloc::Global;
use std::process::Abort;
use std::test::Fail;

#[derive(Drop)]
struct System {
    simple: SimpleTable,
    sensing: SensingTable,
    sequencer: SequencerTable,
    time: TimeTable,
}

impl System {
    fn none() -> System {
        System {
            simple: SimpleTable::new(),
            sensing: SensingTable::new(),
            sequencer: SequencerTable::new(),
            time: TimeTable::new(),
        }
    }
}

/// A quarter frame: so many commands stand before it, and by that the frames go forward or backward.
fn frame(number: usize, value: u8) -> Command {
    let kind = if number / 128 % 2 == 0 {
        number % 8
    } else {
        7 - number % 8
    };
    Command::QuarterFrame {
        value: D7::low((kind as u8) * 16 + value % 16),
    }
}

impl Tables for System {
    fn note(&mut self, command: &Command, packet: u64, tick: u64) {
        self.simple.note(command, packet, tick);
        self.sensing.note(command, packet, tick);
        self.sequencer.note(command, packet, tick);
        self.time.note(command, packet, tick);
    }

    fn trim(&mut self, packet: u64) {
        self.simple.trim(packet);
        self.sensing.trim(packet);
        self.sequencer.trim(packet);
        self.time.trim(packet);
    }

    fn copy_from(&mut self, other: &Self) {
        self.simple.copy_from(&other.simple);
        self.sensing.copy_from(&other.sensing);
        self.sequencer.copy_from(&other.sequencer);
        self.time.copy_from(&other.time);
    }

    fn told(&self, moment: &Moment, alloc: Global) -> Result<Told, Fail> {
        let Moment { packet, tick, .. } = *moment;
        let room = self.simple.len(packet, tick)
            + self.sensing.len(packet, tick)
            + self.sequencer.len(packet, tick)
            + self.time.len(packet, tick);
        let mut octets = Octets::with_room(room, alloc)?;
        self.simple.write(packet, tick, &mut octets);
        self.sensing.write(packet, tick, &mut octets);
        self.sequencer.write(packet, tick, &mut octets);
        self.time.write(packet, tick, &mut octets);
        let fresh = [
            self.simple.fresh(packet),
            self.sensing.fresh(packet),
            self.sequencer.fresh(packet),
            self.time.fresh(packet),
        ];
        Ok(Told {
            octets,
            fresh,
            numbers: [0; 4],
        })
    }

    fn plain<R: Abort>(
        rt: &R,
        list: &[Sent],
        moment: &Moment,
        alloc: Global,
    ) -> Result<Told, Fail> {
        let Moment {
            checkpoint,
            packet,
            tick,
        } = *moment;
        assert!(rt; in_order(list));
        let room = d::plain_len(list, checkpoint, packet, tick)
            + v::plain_len(list, checkpoint, packet, tick)
            + q::plain_len(list, checkpoint, packet, tick)
            + f::plain_len(list, checkpoint, packet, tick);
        let mut octets = Octets::with_room(room, alloc)?;
        d::plain_write(list, checkpoint, packet, tick, &mut octets);
        v::plain_write(list, checkpoint, packet, tick, &mut octets);
        q::plain_write(list, checkpoint, packet, tick, &mut octets);
        f::plain_write(list, checkpoint, packet, tick, &mut octets);
        let fresh = [
            d::plain_fresh(list, checkpoint, packet),
            v::plain_fresh(list, checkpoint, packet),
            q::plain_fresh(list, checkpoint, packet),
            f::plain_fresh(list, checkpoint, packet),
        ];
        Ok(Told {
            octets,
            fresh,
            numbers: [0; 4],
        })
    }

    fn command(draw: [u8; 8], number: usize, alloc: Global) -> Result<Command, Fail> {
        if number / 64 % 2 == 0 && draw[0] < 248 {
            return Ok(frame(number, draw[1]));
        }
        Ok(match draw[0] % 64 {
            0..=15 => Command::Clock,
            16..=19 => Command::Start,
            20..=23 => Command::Stop,
            24..=27 => Command::Continue,
            28..=31 => Command::SongPosition {
                value: D14::of(D7::low(draw[1]), D7::low(draw[2])),
            },
            32..=37 => Command::SongSelect {
                song: D7::low(draw[1]),
            },
            38..=45 => Command::TuneRequest,
            46..=53 => Command::ActiveSensing,
            54..=58 => frame(number, draw[1]),
            59..=60 => Command::SystemReset,
            61 => reset_message(alloc)?,
            62.. => crate::compare::control(draw[1], draw[2]),
        })
    }
}

#[test]
fn examples(rt: HostRuntime) -> Result<(), Fail> {
    let alloc = rt.alloc();
    check(
        &rt,
        &mut System::none(),
        &[&[0xfa, 0xf8, 0xf8]],
        [0, 1],
        &[0x70, 0x00, 0x01],
        alloc,
    )?;
    check(
        &rt,
        &mut System::none(),
        &[&[0xf6, 0xf3, 5]],
        [0, 1],
        &[0x30, 0x01, 0x05],
        alloc,
    )?;
    check(&rt, &mut System::none(), &[&[0xfe]], [0, 1], &[0x01], alloc)?;
    check(
        &rt,
        &mut System::none(),
        &[&[0xf1, 0x12]],
        [0, 1],
        &[0x07],
        alloc,
    )?;
    let frames = [
        0xf1, 0x01, 0xf1, 0x12, 0xf1, 0x23, 0xf1, 0x34, 0xf1, 0x45, 0xf1, 0x56, 0xf1, 0x67, 0xf1,
        0x78,
    ];
    check(
        &rt,
        &mut System::none(),
        &[&frames],
        [0, 1],
        &[0x57, 0x12, 0x34, 0x56, 0x78],
        alloc,
    )?;
    check(&rt, &mut System::none(), &[&frames], [1, 2], &[], alloc)?;
    Ok(())
}

/// 10,000 commands.
#[test]
fn tables_and_plain_functions_tell_the_same(rt: HostRuntime) -> Result<(), Fail> {
    let alloc = rt.alloc();
    compare_rounds(&rt, &mut System::none(), &mut System::none(), 50, alloc)
}
