//! The table of Chapter M.

use crate::compare::{Moment, Tables, Told, check, compare_rounds, control, reset_message};
use ch_param::{ParamTable, m};
use jm_cmds::{Channel, Command, D7, Sent, in_order, session_history};
use jm_wire::Octets;
use std::alloc::Global;
use std::process::Abort;
use std::test::Fail;

#[derive(Drop)]
struct Params {
    table: ParamTable,
}

impl Params {
    fn none() -> Params {
        Params {
            table: ParamTable::new(),
        }
    }
}

/// A number for each selection.
fn selection_number(selected: Option<(bool, D7, D7)>) -> usize {
    match selected {
        None => 0,
        Some((nrpn, high, low)) => {
            let kind = if nrpn { 1usize } else { 2 };
            kind + 4 * (high.get() as usize) + 1024 * (low.get() as usize)
        }
    }
}

impl Tables for Params {
    fn note(&mut self, command: &Command, packet: u64, tick: u64) {
        if self.table.fits(command) {
            self.table.note(command, packet, tick);
        }
    }

    fn trim(&mut self, packet: u64) {
        self.table.trim(packet);
    }

    fn copy_from(&mut self, other: &Self) {
        self.table.copy_from(&other.table);
    }

    fn told(&self, moment: &Moment, alloc: Global) -> Result<Told, Fail> {
        let Moment { packet, tick, .. } = *moment;
        let mut octets = Octets::with_room(self.table.len(packet, tick), alloc)?;
        self.table.write(packet, tick, &mut octets);
        let has = [
            self.table.has_param(false, D7::low(0), D7::low(1)),
            self.table.has_param(true, D7::low(127), D7::low(0)),
            self.table.has_param(true, D7::low(0), D7::low(127)),
        ];
        Ok(Told {
            octets,
            fresh: [self.table.fresh(packet), has[0], has[1], has[2]],
            numbers: [
                self.table.params(),
                selection_number(self.table.selected()),
                0,
                0,
            ],
        })
    }

    fn plain<R: Abort>(
        rt: &R,
        list: &[Sent],
        moment: &Moment,
        alloc: Global,
    ) -> Result<Told, Fail> {
        let Moment {
            checkpoint,
            packet,
            tick,
        } = *moment;
        let channel = Channel::low(0);
        assert!(rt; in_order(list));
        assert!(rt; m::plain_params(session_history(list, packet), channel, checkpoint) <= 16);
        let room = m::plain_len(list, channel, checkpoint, packet, tick);
        let mut octets = Octets::with_room(room, alloc)?;
        m::plain_write(list, channel, checkpoint, packet, tick, &mut octets);
        let has = [
            m::plain_has_param(list, channel, checkpoint, false, D7::low(0), D7::low(1)),
            m::plain_has_param(list, channel, checkpoint, true, D7::low(127), D7::low(0)),
            m::plain_has_param(list, channel, checkpoint, true, D7::low(0), D7::low(127)),
        ];
        let fresh = m::plain_fresh(list, channel, checkpoint, packet);
        Ok(Told {
            octets,
            fresh: [fresh, has[0], has[1], has[2]],
            numbers: [
                m::plain_params(list, channel, checkpoint),
                selection_number(m::plain_selected(list, channel)),
                0,
                0,
            ],
        })
    }

    /// There are ten parameters to choose from.
    fn command(draw: [u8; 8], number: usize, alloc: Global) -> Result<Command, Fail> {
        let _ = number;
        let value = match draw[1] {
            0..=99 => 0,
            100..=199 => 1,
            200.. => 127,
        };
        let high = if value == 1 { 0 } else { value };
        Ok(match draw[0] {
            0..=31 => control(98, value),
            32..=63 => control(99, high),
            64..=95 => control(100, value),
            96..=127 => control(101, high),
            128..=187 => control(6, draw[2]),
            188..=227 => control(38, draw[2]),
            228..=235 => control(96, 0),
            236..=243 => control(121, 0),
            244..=247 => Command::Clock,
            248..=251 => Command::SystemReset,
            252.. => reset_message(alloc)?,
        })
    }
}

#[test]
fn an_entry_behind_the_checkpoint(rt: HostRuntime) -> Result<(), Fail> {
    let alloc = rt.alloc();
    let text = [0x00, 0x06, 0x02, 0x81, 0x82, 0x40];
    let packets: [&[u8]; 2] = [&[0xb0, 99, 1], &[0xb0, 98, 2, 0xb0, 6, 64]];
    check(&rt, &mut Params::none(), &packets, [0, 2], &text, alloc)?;
    check(&rt, &mut Params::none(), &packets, [1, 2], &text, alloc)?;
    check(&rt, &mut Params::none(), &packets, [2, 3], &[], alloc)?;
    Ok(())
}

/// The high half is let go by the checkpoint, and doesn't come back with the low one.
#[test]
fn a_half_before_the_checkpoint(rt: HostRuntime) -> Result<(), Fail> {
    let alloc = rt.alloc();
    let first = [0xb0, 101, 0, 0xb0, 100, 1, 0xb0, 6, 10];
    let packets: [&[u8]; 2] = [&first, &[0xb0, 38, 11]];
    let both = [0x00, 0x07, 0x01, 0x00, 0xc2, 0x0a, 0x0b];
    check(&rt, &mut Params::none(), &packets, [0, 2], &both, alloc)?;
    let low = [0x00, 0x06, 0x01, 0x00, 0x42, 0x0b];
    check(&rt, &mut Params::none(), &packets, [1, 2], &low, alloc)?;
    Ok(())
}

/// Sixteen parameters of packet 0, and a seventeenth that is selected.
#[test]
fn sixteen_parameters(rt: HostRuntime) -> Result<(), Fail> {
    let alloc = rt.alloc();
    let mut table = ParamTable::new();
    let nothing = control(101, 0);
    assert!(rt; table.fits(&nothing));
    table.note(&nothing, 0, 0);
    for low in 0..17u8 {
        let choice = control(100, low);
        if table.fits(&choice) {
            table.note(&choice, 0, 0);
        }
        let entry = control(6, 1);
        if low < 16 && table.fits(&entry) {
            table.note(&entry, 0, 0);
        }
    }
    let high = D7::low(0);
    assert_eq!(rt; table.params(), 16);
    assert_eq!(rt; table.len(1, 0), 66);
    assert!(rt; table.has_param(false, high, D7::low(15)));
    assert!(rt; !table.has_param(false, high, D7::low(16)));
    assert!(rt; table.selected() == Some((false, high, D7::low(16))));
    table.trim(1);
    assert_eq!(rt; table.params(), 0);
    assert!(rt; table.selected() == Some((false, high, D7::low(16))));
    let _ = alloc;
    Ok(())
}

/// 10,000 commands.
#[test]
fn the_table_and_plain_functions_tell_the_same(rt: HostRuntime) -> Result<(), Fail> {
    let alloc = rt.alloc();
    compare_rounds(&rt, &mut Params::none(), &mut Params::none(), 50, alloc)
}
