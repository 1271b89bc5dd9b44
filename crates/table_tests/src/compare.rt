//! Commands that go through the tables of a chapter crate, and what the crate's plain functions tell of their list.

use jm_cmds::{Channel, Command, D7, Sent, Sysex, read_command};
use jm_wire::Octets;
use std::alloc::Global;
use std::process::Abort;
use std::test::Fail;

/// How many commands stand between two comparisons.
const EACH: u32 = 100;

/// A journal: that of this packet, which is of this tick, with this checkpoint.
#[derive(Clone, Copy)]
pub(crate) struct Moment {
    pub(crate) checkpoint: u64,
    pub(crate) packet: u64,
    pub(crate) tick: u64,
}

/// What is told of the chapters of a crate for one journal.
#[derive(Drop)]
pub(crate) struct Told {
    /// The chapters, one behind the other.
    pub(crate) octets: Octets,
    /// Whether each of them is fresh.
    pub(crate) fresh: [bool; 4],
    /// What else the crate's calls tell.
    pub(crate) numbers: [usize; 4],
}

/// The tables of a chapter crate, all of channel 0 and of one checkpoint.
pub(crate) trait Tables {
    /// Notes one command more.
    fn note(&mut self, command: &Command, packet: u64, tick: u64);

    /// Sets the checkpoint.
    fn trim(&mut self, packet: u64);

    /// Makes the content that of `other`.
    fn copy_from(&mut self, other: &Self);

    /// What the tables tell.
    fn told(&self, moment: &Moment, alloc: Global) -> Result<Told, Fail>;

    /// What the plain functions tell of the list.
    fn plain<R: Abort>(rt: &R, list: &[Sent], moment: &Moment, alloc: Global) -> Result<Told, Fail>;

    /// A command of channel 0 or of none by these octets; `number` commands stand before it.
    fn command(draw: [u8; 8], number: usize, alloc: Global) -> Result<Command, Fail>;
}

/// Commands that were sent so far.
#[derive(Drop)]
pub(crate) struct Walk {
    list: Vec<Sent>,
    random: u64,
    packet: u64,
    tick: u64,
    checkpoint: u64,
}

impl Walk {
    /// None.
    fn none(alloc: Global) -> Walk {
        Walk {
            list: Vec::new(alloc),
            random: 1,
            packet: 0,
            tick: 0,
            checkpoint: 0,
        }
    }

    /// Eight octets more, by a linear congruence.
    fn draw(&mut self) -> [u8; 8] {
        self.random = self
            .random
            .wrapping_mul(6_364_136_223_846_793_005)
            .wrapping_add(1_442_695_040_888_963_407);
        (self.random ^ (self.random >> 33)).to_be_bytes()
    }

    /// Goes on in time, and now and then to another packet.
    fn go_on(&mut self, [packet, tick]: [u8; 2]) {
        if packet < 40 {
            self.packet = self.packet.saturating_add(1);
        }
        self.tick = self.tick.saturating_add(u64::from(tick));
    }

    /// Sets a checkpoint that is some packets behind and isn't before the present one.
    fn check_in(&mut self) {
        let behind = u64::from(self.draw()[0] % 64);
        self.checkpoint = self.checkpoint.max(self.packet.saturating_sub(behind));
    }
}

/// A control of channel 0.
pub(crate) fn control(number: u8, value: u8) -> Command {
    Command::Control {
        channel: Channel::low(0),
        number: D7::low(number),
        value: D7::low(value),
    }
}

/// The message that turns General MIDI on, which is a Reset State command.
pub(crate) fn reset_message(alloc: Global) -> Result<Command, Fail> {
    Ok(Command::Sysex(Sysex::new(&[0x7e, 0x7f, 9, 1], alloc)?))
}

/// Sends one command and notes it.
fn step<T: Tables>(walk: &mut Walk, table: &mut T, alloc: Global) -> Result<(), Fail> {
    let draw = walk.draw();
    walk.go_on([draw[6], draw[7]]);
    let command = T::command(draw, walk.list.len(), alloc)?;
    table.note(&command, walk.packet, walk.tick);
    walk.list.push(Sent {
        packet: walk.packet,
        tick: walk.tick,
        command,
    })?;
    Ok(())
}

/// Sends as many commands as stand between two comparisons.
fn steps<T: Tables>(walk: &mut Walk, table: &mut T, alloc: Global) -> Result<(), Fail> {
    for _ in 0..EACH {
        step(walk, table, alloc)?;
    }
    Ok(())
}

/// Compares what is told for a packet that is so many behind the last one.
fn compare<T: Tables, R: Abort>(
    rt: &R,
    walk: &Walk,
    table: &T,
    ahead: u64,
    alloc: Global,
) -> Result<(), Fail> {
    let moment = Moment {
        checkpoint: walk.checkpoint,
        packet: walk.packet.saturating_add(ahead),
        tick: walk.tick.saturating_add(ahead),
    };
    let told = table.told(&moment, alloc)?;
    let plain = T::plain(rt, &walk.list, &moment, alloc)?;
    assert_eq!(rt; told.octets.as_slice(), plain.octets.as_slice());
    assert_eq!(rt; (told.octets.spare(), plain.octets.spare()), (0, 0));
    assert_eq!(rt; told.fresh, plain.fresh);
    assert_eq!(rt; told.numbers, plain.numbers);
    Ok(())
}

/// Notes some commands, sets a checkpoint, and makes a copy.
fn round<T: Tables, R: Abort>(
    rt: &R,
    walk: &mut Walk,
    table: &mut T,
    copy: &mut T,
    alloc: Global,
) -> Result<(), Fail> {
    steps(walk, table, alloc)?;
    compare(rt, walk, table, 1, alloc)?;
    walk.check_in();
    table.trim(walk.checkpoint);
    compare(rt, walk, table, 2, alloc)?;
    copy.copy_from(table);
    compare(rt, walk, copy, 1, alloc)
}

/// Compares so many times two hundred commands. Each hundred goes on with the copy of the tables before.
pub(crate) fn compare_rounds<T: Tables, R: Abort>(
    rt: &R,
    table: &mut T,
    other: &mut T,
    rounds: u32,
    alloc: Global,
) -> Result<(), Fail> {
    let mut walk = Walk::none(alloc);
    for _ in 0..rounds {
        round(rt, &mut walk, table, other, alloc)?;
        round(rt, &mut walk, other, table, alloc)?;
    }
    Ok(())
}

/// Sends the commands that these octets spell one after the other, at tick 0, and notes them.
fn send<T: Tables>(
    list: &mut Vec<Sent>,
    table: &mut T,
    packet: u64,
    octets: &[u8],
    alloc: Global,
) -> Result<(), Fail> {
    let mut rest = octets;
    for _ in 0..256usize {
        if rest.is_empty() {
            break;
        }
        let (command, size) = read_command(rest, alloc)?;
        table.note(&command, packet, 0);
        list.push(Sent {
            packet,
            tick: 0,
            command,
        })?;
        rest = rest.get(size..).ok_or("no rest")?;
    }
    Ok(())
}

/// What empty tables tell for this packet's journal of tick 0, where the commands of each packet are these and this
/// checkpoint is set in the end. The plain functions have to tell the same.
pub(crate) fn check<T: Tables, R: Abort>(
    rt: &R,
    table: &mut T,
    packets: &[&[u8]],
    [checkpoint, packet]: [u64; 2],
    text: &[u8],
    alloc: Global,
) -> Result<Told, Fail> {
    let mut list = Vec::new(alloc);
    let mut number = 0u64;
    for octets in packets {
        send(&mut list, table, number, octets, alloc)?;
        number = number.saturating_add(1);
    }
    table.trim(checkpoint);
    let moment = Moment {
        checkpoint,
        packet,
        tick: 0,
    };
    let told = table.told(&moment, alloc)?;
    let plain = T::plain(rt, &list, &moment, alloc)?;
    assert_eq!(rt; told.octets.as_slice(), text);
    assert_eq!(rt; plain.octets.as_slice(), text);
    assert_eq!(rt; told.numbers, plain.numbers);
    Ok(told)
}
