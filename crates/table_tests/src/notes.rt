//! The tables of Chapters N, E and A.

use crate::compare::{Moment, Tables, Told, check, compare_rounds, control, reset_message};
use ch_notes::{ExtraTable, NoteTable, PolyTable, a, e, n};
use jm_cmds::{Channel, Command, D7, Sent, in_order};
use jm_wire::Octets;
use std::alloc::Global;
use std::marker::Model;
use std::process::Abort;
use std::test::Fail;

/// The tables, with the packet of the last command that they have noted.
#[derive(Drop)]
struct Notes {
    last: u64,
    note: NoteTable,
    extra: ExtraTable,
    poly: PolyTable,
}

impl Model for Notes {
    ghost use Rattle.std.specs.Prelude.{ℕ, ◌≤◌};
    ghost use Rattle.ch_notes.specs.KeptRows.{RowsUpTo};

    ghost Value = { ℕ };

    ghost view = { λ t. t.last };

    ghost invariant = { λ t. (later : ℕ) → t.last ≤ later
        → RowsUpTo later t.note × RowsUpTo later t.extra.notes × RowsUpTo later t.poly };
}

impl Notes {
    fn none() -> Notes {
        Notes {
            last: 0,
            note: NoteTable::new(),
            extra: ExtraTable::new(),
            poly: PolyTable::new(),
        }
    }
}

/// Some note, more often one of eight.
fn note_of(draw: u8, few: u8) -> D7 {
    if few < 160 {
        return D7::low(draw % 8);
    }
    D7::low(draw)
}

impl Tables for Notes {
    fn note(&mut self, command: &Command, packet: u64, tick: u64) {
        if self.last <= packet {
            self.note.note(command, packet, tick);
            self.extra.note(command, packet, tick);
            self.poly.note(command, packet, tick);
            self.last = packet;
        }
    }

    fn trim(&mut self, packet: u64) {
        self.note.trim(packet);
        self.extra.trim(packet);
        self.poly.trim(packet);
    }

    fn copy_from(&mut self, other: &Self) {
        self.last = other.last;
        self.note.copy_from(&other.note);
        self.extra.copy_from(&other.extra);
        self.poly.copy_from(&other.poly);
    }

    fn told(&self, moment: &Moment, alloc: Global) -> Result<Told, Fail> {
        let Moment { packet, tick, .. } = *moment;
        let room = self.note.len(packet, tick)
            + self.extra.len(packet, tick)
            + self.poly.len(packet, tick);
        let mut octets = Octets::with_room(room, alloc)?;
        self.note.write(packet, tick, &mut octets);
        self.extra.write(packet, tick, &mut octets);
        self.poly.write(packet, tick, &mut octets);
        let fresh = [
            self.note.fresh(packet),
            self.extra.fresh(packet),
            self.poly.fresh(packet),
            self.poly.has_note(D7::low(1)),
        ];
        Ok(Told {
            octets,
            fresh,
            numbers: [self.poly.notes(), 0, 0, 0],
        })
    }

    fn plain<R: Abort>(
        rt: &R,
        list: &[Sent],
        moment: &Moment,
        alloc: Global,
    ) -> Result<Told, Fail> {
        let Moment {
            checkpoint,
            packet,
            tick,
        } = *moment;
        let channel = Channel::low(0);
        assert!(rt; in_order(list));
        let room = n::plain_len(list, channel, checkpoint, packet, tick)
            + e::plain_len(list, channel, checkpoint, packet, tick)
            + a::plain_len(list, channel, checkpoint, packet, tick);
        let mut octets = Octets::with_room(room, alloc)?;
        n::plain_write(list, channel, checkpoint, packet, tick, &mut octets);
        e::plain_write(list, channel, checkpoint, packet, tick, &mut octets);
        a::plain_write(list, channel, checkpoint, packet, tick, &mut octets);
        let fresh = [
            n::plain_fresh(list, channel, checkpoint, packet),
            e::plain_fresh(list, channel, checkpoint, packet),
            a::plain_fresh(list, channel, checkpoint, packet),
            a::plain_has_note(list, channel, checkpoint, D7::low(1)),
        ];
        let notes = a::plain_notes(list, channel, checkpoint);
        Ok(Told {
            octets,
            fresh,
            numbers: [notes, 0, 0, 0],
        })
    }

    fn command(draw: [u8; 8], number: usize, alloc: Global) -> Result<Command, Fail> {
        let _ = number;
        let channel = Channel::low(0);
        let note = note_of(draw[1], draw[3]);
        let velocity = D7::low(draw[2]);
        Ok(match draw[0] {
            0..=79 => Command::NoteOn {
                channel,
                note,
                velocity,
            },
            80..=127 => Command::NoteOff {
                channel,
                note,
                velocity,
            },
            128..=135 => Command::NoteOn {
                channel,
                note,
                velocity: D7::low(0),
            },
            136..=231 => Command::PolyPressure {
                channel,
                note,
                value: velocity,
            },
            232..=243 => control(draw[1], draw[2]),
            244..=246 => control(120, 0),
            247..=249 => control(121, 0),
            250..=252 => control(123, 0),
            253 => Command::SystemReset,
            254 => reset_message(alloc)?,
            255 => Command::Clock,
        })
    }
}

#[test]
fn examples(rt: HostRuntime) -> Result<(), Fail> {
    let alloc = rt.alloc();
    let struck = [0x90, 60, 100];
    check(
        &rt,
        &mut Notes::none(),
        &[&struck],
        [0, 1],
        &[0x81, 0xf0, 60, 0xe4],
        alloc,
    )?;
    check(
        &rt,
        &mut Notes::none(),
        &[&struck],
        [0, 2],
        &[0x81, 0xf0, 0xbc, 0xe4],
        alloc,
    )?;
    check(&rt, &mut Notes::none(), &[&struck], [1, 2], &[], alloc)?;
    let twice = [0x90, 60, 100, 0x90, 60, 100];
    let counted = [0x81, 0xf0, 60, 0xe4, 0x00, 60, 2];
    check(&rt, &mut Notes::none(), &[&twice], [0, 1], &counted, alloc)?;
    let released = [0x90, 60, 100, 0x80, 60, 32];
    let bits = [0x00, 0x77, 0x08, 0x00, 60, 0xa0];
    check(&rt, &mut Notes::none(), &[&released], [0, 1], &bits, alloc)?;
    let muted = [0xa0, 60, 80, 0xb0, 120, 0];
    check(
        &rt,
        &mut Notes::none(),
        &[&muted],
        [0, 1],
        &[0x00, 60, 0xd0],
        alloc,
    )?;
    Ok(())
}

/// Notes 0 to 127 are struck.
#[test]
fn all_notes(rt: HostRuntime) -> Result<(), Fail> {
    let alloc = rt.alloc();
    let mut list = [0; 384];
    let mut text = [0; 258];
    text[0] = 0xff;
    text[1] = 0xf0;
    for note in 0..128u8 {
        let place = note as usize;
        list[3 * place] = 0x90;
        list[3 * place + 1] = note;
        list[3 * place + 2] = 1;
        text[2 + 2 * place] = note;
        text[3 + 2 * place] = 0x81;
    }
    check(&rt, &mut Notes::none(), &[&list], [0, 1], &text, alloc)?;
    Ok(())
}

/// 10,000 commands.
#[test]
fn tables_and_plain_functions_tell_the_same(rt: HostRuntime) -> Result<(), Fail> {
    let alloc = rt.alloc();
    compare_rounds(&rt, &mut Notes::none(), &mut Notes::none(), 50, alloc)
}
