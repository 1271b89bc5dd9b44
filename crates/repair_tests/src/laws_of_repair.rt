//! Repair by written journals: a history for each part, with a lost command of it, what clears it, and a reset, for each packet
//! from which on a receiver lost all and each checkpoint that it may be told.

ghost use Rattle.std.specs.Prelude.{IsTrue};
ghost use Rattle.jm_cmds.specs.History.{InOrder};
ghost use Rattle.jm_cmds.specs.Sent.{packet_of};
ghost use Rattle.jm_journal.specs.Limits.{KeepsLimits};

use ch_notes::a;
use ch_param::m;
use ch_sysex::x;
use jm_cmds::{Channel, D7, Selection, Sent, in_order, read_command, session_history};
use jm_journal::{plain_len, plain_write};
use jm_reader::read_journal;
use jm_receiver::repair_state;
use jm_state::State;
use jm_wire::Octets;
use std::alloc::Global;
use std::process::Abort;
use std::test::Fail;

/// Whether what is coded of these commands for this checkpoint keeps the limits.
fn keeps_limits(list: &[Sent], checkpoint: u64) -> bool
    requires { InOrder packet_of list.now }
    ensures { IsTrue result → KeepsLimits checkpoint list.now }
{
    for number in 0..16u8 {
        let channel = Channel::low(number);
        if m::plain_params(list, channel, checkpoint) > 16
            || a::plain_notes(list, channel, checkpoint) > 64
        {
            return false;
        }
    }
    let (logs, octets) = x::plain_room(list, checkpoint);
    logs <= 128 && octets <= 1000
}

/// The commands of these octets, one a packet, from packet 0 on.
fn history(texts: &[&[u8]], alloc: Global) -> Result<Vec<Sent>, Fail> {
    let mut list = Vec::new(alloc);
    let mut packet = 0;
    for text in texts {
        let (command, _size) = read_command(text, alloc)?;
        list.push(Sent {
            packet,
            tick: 0,
            command,
        })?;
        packet = packet.wrapping_add(1);
    }
    Ok(list)
}

/// The state behind the commands in packets before this one.
fn state_before(list: &[Sent], packet: u64) -> State {
    let mut state = State::new();
    for place in list {
        if place.packet < packet {
            state.apply(&place.command);
        }
    }
    state
}

/// The state behind the packets before `next`, repaired by the journal of this packet, or by its fresh logs alone.
fn repaired<R: Abort>(
    rt: &R,
    list: &[Sent],
    checkpoint: u64,
    next: u64,
    packet: u64,
    fresh: bool,
    alloc: Global,
) -> Result<State, Fail> {
    assert!(rt; in_order(list));
    let session = session_history(list, packet);
    assert!(rt; keeps_limits(session, checkpoint));
    let len = plain_len(list, checkpoint, packet, 0);
    let mut out = Octets::with_room(len, alloc)?;
    plain_write(list, checkpoint, packet, 0, &mut out);
    let mut report = read_journal(out.as_slice(), alloc)?;
    if fresh {
        report.logs.keep_fresh();
    }
    let mut state = state_before(list, next);
    repair_state(&mut state, report.logs.as_slice());
    Ok(state)
}

/// Checks the repair of the state behind the packets before `next`, by the journal of this packet.
fn check_one<R: Abort>(
    rt: &R,
    list: &[Sent],
    checkpoint: u64,
    next: u64,
    packet: u64,
    alloc: Global,
) -> Result<(), Fail> {
    let state = repaired(rt, list, checkpoint, next, packet, false, alloc)?;
    assert!(rt; state.same(&state_before(list, packet)));
    Ok(())
}

/// Checks repairs along these commands, one a packet: of the empty state at each packet, and by the last packet's journal where
/// all from each packet on was lost, with the earliest and the latest checkpoint.
fn check<R: Abort>(rt: &R, texts: &[&[u8]], alloc: Global) -> Result<(), Fail> {
    let list = history(texts, alloc)?;
    let end = list.len() as u64;
    for packet in 0..end {
        check_one(rt, &list, 0, 0, packet, alloc)?;
    }
    for next in 0..end {
        check_one(rt, &list, 0, next, end, alloc)?;
        check_one(rt, &list, next, next, end, alloc)?;
    }
    Ok(())
}

/// Programs with a whole bank, half of one and none, behind Control 121 and resets.
#[test]
fn programs(rt: HostRuntime) -> Result<(), Fail> {
    let alloc = rt.alloc();
    check(
        &rt,
        &[
            &[0xc0, 1],
            &[0xb0, 0x20, 9],
            &[0xb0, 0, 5],
            &[0xc0, 2],
            &[0xb0, 0x79, 0],
            &[0xc0, 3],
            &[0xff],
            &[0xc0, 4],
            &[0xb0, 0, 6],
            &[0xc0, 5],
            &[0xc1, 6],
        ],
        alloc,
    )
}

/// Plain and kept controls, two modes that are one part, the pedal, Control 121, what ends all notes, and a reset.
#[test]
fn controls(rt: HostRuntime) -> Result<(), Fail> {
    let alloc = rt.alloc();
    check(
        &rt,
        &[
            &[0xb0, 7, 0x40],
            &[0xb0, 0, 1],
            &[0xb0, 0x40, 0x7f],
            &[0xb0, 0x7c, 0],
            &[0xb0, 0x79, 0],
            &[0xb0, 7, 0x41],
            &[0xb0, 0x7d, 1],
            &[0xb0, 0x40, 0],
            &[0xb0, 0x7b, 0],
            &[0xff],
            &[0xb0, 0x7e, 1],
            &[0xb0, 0x40, 0x50],
        ],
        alloc,
    )
}

/// Moves, Control 121 of this and another channel, a System Reset, and a message that is one.
#[test]
fn wheels(rt: HostRuntime) -> Result<(), Fail> {
    let alloc = rt.alloc();
    check(
        &rt,
        &[
            &[0xe0, 1, 0x40],
            &[0xe1, 2, 0x41],
            &[0xb0, 0x79, 0],
            &[0xe0, 3, 0x42],
            &[0xff],
            &[0xe0, 4, 0x43],
            &[0xf0, 0x7e, 0x7f, 9, 1, 0xf7],
            &[0xe1, 5, 0x44],
        ],
        alloc,
    )
}

/// Struck and released notes, velocity 0, All Notes Off, a mode, and a reset.
#[test]
fn notes(rt: HostRuntime) -> Result<(), Fail> {
    let alloc = rt.alloc();
    check(
        &rt,
        &[
            &[0x90, 0x3c, 0x64],
            &[0x90, 0x3e, 0x50],
            &[0x80, 0x3c, 0x40],
            &[0xb0, 0x7b, 0],
            &[0x90, 0x3c, 0x63],
            &[0x90, 0x3c, 0],
            &[0x90, 0x40, 1],
            &[0xb0, 0x7e, 1],
            &[0x90, 0x3e, 0x62],
            &[0xff],
            &[0x90, 0x41, 0x61],
        ],
        alloc,
    )
}

/// Pressures of a channel and of keys; what ends all notes drops the first, Control 121 both.
#[test]
fn pressures(rt: HostRuntime) -> Result<(), Fail> {
    let alloc = rt.alloc();
    check(
        &rt,
        &[
            &[0xd0, 0x20],
            &[0xa0, 0x3c, 0x21],
            &[0xb0, 0x78, 0],
            &[0xd0, 0x22],
            &[0xa0, 0x3d, 0x23],
            &[0xb0, 0x79, 0],
            &[0xa0, 0x3c, 0x24],
            &[0xd0, 0x25],
            &[0xff],
            &[0xa0, 0x3c, 0x26],
        ],
        alloc,
    )
}

/// Songs, with a reset of each kind.
#[test]
fn songs(rt: HostRuntime) -> Result<(), Fail> {
    let alloc = rt.alloc();
    check(
        &rt,
        &[
            &[0xf3, 1],
            &[0xf3, 2],
            &[0xf0, 0x7e, 0, 9, 3, 0xf7],
            &[0xf3, 3],
            &[0xff],
            &[0xf6],
            &[0xf3, 4],
        ],
        alloc,
    )
}

/// The song position: started, moved by clocks, stopped, set and continued, with a reset of each kind.
#[test]
fn song_positions(rt: HostRuntime) -> Result<(), Fail> {
    let alloc = rt.alloc();
    check(
        &rt,
        &[
            &[0xfa],
            &[0xf8],
            &[0xf8],
            &[0xfc],
            &[0xf2, 5, 1],
            &[0xff],
            &[0xf8],
            &[0xfb],
            &[0xf0, 0x7e, 0, 9, 1, 0xf7],
            &[0xfe],
            &[0xf2, 1, 2],
        ],
        alloc,
    )
}

/// Quarter frames forward and backward, a word that is completed, and resets.
#[test]
fn time_codes(rt: HostRuntime) -> Result<(), Fail> {
    let alloc = rt.alloc();
    check(
        &rt,
        &[
            &[0xf1, 1],
            &[0xf1, 0x12],
            &[0xf1, 0x75],
            &[0xff],
            &[0xf1, 7],
            &[0xf1, 0x16],
            &[0xf1, 0x25],
            &[0xf1, 0x34],
            &[0xf1, 0x43],
            &[0xf1, 0x52],
            &[0xf1, 0x61],
            &[0xf1, 0x70],
            &[0xf0, 0x7e, 0, 9, 3, 0xf7],
            &[0xfe],
        ],
        alloc,
    )
}

/// The pedal up and down, moves to where it is, Control 121, another channel, and a reset: toggles are set, whatever they were.
#[test]
fn toggles(rt: HostRuntime) -> Result<(), Fail> {
    let alloc = rt.alloc();
    let list = history(
        &[
            &[0xb0, 0x40, 0x7f],
            &[0xb0, 0x40, 0x40],
            &[0xb0, 0x40, 0],
            &[0xb0, 0x40, 0x50],
            &[0xb0, 0x79, 0],
            &[0xb0, 0x40, 0x60],
            &[0xb1, 0x40, 0x60],
            &[0xb0, 0x40, 0x3f],
            &[0xff],
            &[0xb0, 0x40, 0x40],
        ],
        alloc,
    )?;
    let mut packet = 0u64;
    for count in [0u8, 1, 1, 2, 3, 0, 1, 1, 2, 0, 1] {
        let next = packet.saturating_sub(2);
        let first = repaired(&rt, &list, 0, 0, packet, false, alloc)?;
        assert!(rt; first.toggles(Channel::low(0)) == count);
        let later = repaired(&rt, &list, next, next, packet, false, alloc)?;
        assert!(rt; later.toggles(Channel::low(0)) == count);
        packet = packet.wrapping_add(1);
    }
    Ok(())
}

/// A half of a selection.
fn half(value: u8) -> Option<D7> {
    Some(D7::low(value))
}

/// Halves of both kinds, an entry, Control 121, another channel, and a reset.
#[test]
fn selections(rt: HostRuntime) -> Result<(), Fail> {
    let alloc = rt.alloc();
    let texts: [&[u8]; 11] = [
        &[0xb0, 0x63, 5],
        &[0xb0, 0x62, 6],
        &[0xb0, 6, 9],
        &[0xb0, 0x65, 1],
        &[0xb1, 0x64, 8],
        &[0xb0, 0x64, 2],
        &[0xb0, 0x62, 7],
        &[0xb0, 0x79, 0],
        &[0xb0, 0x64, 3],
        &[0xff],
        &[0xb0, 0x63, 4],
    ];
    check(&rt, &texts, alloc)?;
    let list = history(&texts, alloc)?;
    let both = repaired(&rt, &list, 1, 1, 7, false, alloc)?;
    let four = Selection {
        nrpn: true,
        rpn_high: half(1),
        rpn_low: half(2),
        nrpn_high: half(5),
        nrpn_low: half(7),
    };
    assert!(rt; both.selection(Channel::low(0)) == Some(four));
    let dropped = repaired(&rt, &list, 1, 1, 8, false, alloc)?;
    assert!(rt; dropped.selection(Channel::low(0)) == None);
    let one = repaired(&rt, &list, 4, 4, 9, false, alloc)?;
    let low = Selection {
        nrpn: false,
        rpn_high: None,
        rpn_low: half(3),
        nrpn_high: None,
        nrpn_low: None,
    };
    assert!(rt; one.selection(Channel::low(0)) == Some(low));
    Ok(())
}

/// One lost packet of each kind, by the fresh logs alone; an older released note is among them. After two lost packets they don't
/// repair, nor for a first packet.
#[test]
fn fresh_logs(rt: HostRuntime) -> Result<(), Fail> {
    let alloc = rt.alloc();
    let list = history(
        &[
            &[0x90, 0x3c, 0x64],
            &[0x80, 0x3c, 0x40],
            &[0x90, 0x3e, 0x50],
            &[0x80, 0x3e, 0x40],
            &[0x90, 0x3c, 0x63],
            &[0xb0, 0, 5],
            &[0xc0, 2],
            &[0xe0, 1, 0x40],
            &[0xb0, 0x40, 0x7f],
            &[0xd0, 0x20],
            &[0xa0, 0x3c, 0x21],
            &[0xb0, 0x62, 6],
            &[0xf3, 1],
            &[0xfa],
            &[0xf1, 1],
            &[0xb0, 0x7b, 0],
            &[0xff],
        ],
        alloc,
    )?;
    for last in 0..17u64 {
        let state = repaired(&rt, &list, 0, last, last + 1, true, alloc)?;
        assert!(rt; state.same(&state_before(&list, last + 1)));
    }
    let two_lost = repaired(&rt, &list, 0, 3, 5, true, alloc)?;
    assert!(rt; two_lost.note(Channel::low(0), D7::low(0x3e)) == Some(D7::low(0x50)));
    let first = repaired(&rt, &list, 0, 0, 8, true, alloc)?;
    assert!(rt; first.program(Channel::low(0)) == None);
    Ok(())
}

/// One more command, in this packet.
fn add(list: &mut Vec<Sent>, packet: u64, octets: &[u8], alloc: Global) -> Result<(), Fail> {
    let (command, _size) = read_command(octets, alloc)?;
    list.push(Sent {
        packet,
        tick: 0,
        command,
    })?;
    Ok(())
}

/// The state behind the packets before `next`, repaired by the journal of this packet, which makes it the sender's.
fn repaired_whole<R: Abort>(
    rt: &R,
    list: &[Sent],
    checkpoint: u64,
    next: u64,
    packet: u64,
    alloc: Global,
) -> Result<State, Fail> {
    let state = repaired(rt, list, checkpoint, next, packet, false, alloc)?;
    assert!(rt; state.same(&state_before(list, packet)));
    Ok(state)
}

/// Messages, more than an octet counts: 128 logs, of which the state has none, some and all but one; and behind a reset of each
/// kind, of which the later one stands alone.
#[test]
fn messages(rt: HostRuntime) -> Result<(), Fail> {
    let alloc = rt.alloc();
    let mut list = Vec::new(alloc);
    for message in 0..260u64 {
        add(&mut list, message / 20, &[0xf0, 0xf7], alloc)?;
    }
    add(&mut list, 13, &[0xff], alloc)?;
    add(&mut list, 13, &[0xf0, 1, 0xf7], alloc)?;
    add(&mut list, 14, &[0xf0, 0x7e, 5, 9, 3, 0xf7], alloc)?;
    add(&mut list, 15, &[0xf0, 0xf7], alloc)?;
    add(&mut list, 16, &[0xf0, 2, 0xf7], alloc)?;
    assert_eq!(rt;
        repaired_whole(&rt, &list, 0, 0, 6, alloc)?.sysex_count(),
        120
    );
    assert_eq!(rt;
        repaired_whole(&rt, &list, 7, 7, 13, alloc)?.sysex_count(),
        4
    );
    assert_eq!(rt;
        repaired_whole(&rt, &list, 7, 12, 13, alloc)?.sysex_count(),
        4
    );
    assert_eq!(rt;
        repaired_whole(&rt, &list, 7, 10, 17, alloc)?.sysex_count(),
        2
    );
    assert_eq!(rt;
        repaired_whole(&rt, &list, 15, 16, 17, alloc)?.sysex_count(),
        2
    );
    Ok(())
}

/// A parameter is selected, and both halves of its value are entered.
fn enter(
    list: &mut Vec<Sent>,
    packet: u64,
    nrpn: bool,
    number: u8,
    alloc: Global,
) -> Result<(), Fail> {
    let high = if nrpn { 0x63 } else { 0x65 };
    let low = if nrpn { 0x62 } else { 0x64 };
    add(list, packet, &[0xb0, high, 0], alloc)?;
    add(list, packet, &[0xb0, low, number], alloc)?;
    add(list, packet, &[0xb0, 6, number], alloc)?;
    add(
        list,
        packet,
        &[0xb0, 0x26, number.wrapping_add(0x10)],
        alloc,
    )
}

/// The halves of a parameter.
fn halves(state: &State, nrpn: bool, number: u8) -> (Option<u8>, Option<u8>) {
    let halves = state.param(Channel::low(0), nrpn, D7::low(0), D7::low(number));
    (
        halves.entry_high.map(|value| value.get()),
        halves.entry_low.map(|value| value.get()),
    )
}

/// Sixteen parameters of both kinds with equal numbers, of which one gets another low half; and behind a reset one more, of
/// which there is a high half alone.
#[test]
fn parameters(rt: HostRuntime) -> Result<(), Fail> {
    let alloc = rt.alloc();
    let mut list = Vec::new(alloc);
    for number in 0..8u8 {
        enter(&mut list, 2 * u64::from(number), false, number, alloc)?;
        enter(&mut list, 2 * u64::from(number) + 1, true, number, alloc)?;
    }
    add(&mut list, 16, &[0xb0, 0x62, 3], alloc)?;
    add(&mut list, 16, &[0xb0, 0x26, 0x7f], alloc)?;
    add(&mut list, 17, &[0xff], alloc)?;
    add(&mut list, 18, &[0xb0, 6, 0x55], alloc)?;
    add(&mut list, 18, &[0xb0, 0x65, 0], alloc)?;
    add(&mut list, 18, &[0xb0, 0x64, 9], alloc)?;
    add(&mut list, 18, &[0xb0, 6, 0x44], alloc)?;
    for next in [0u64, 9, 16] {
        let state = repaired_whole(&rt, &list, 0, next, 17, alloc)?;
        assert_eq!(rt; halves(&state, false, 0), (Some(0), Some(0x10)));
        assert_eq!(rt; halves(&state, false, 3), (Some(3), Some(0x13)));
        assert_eq!(rt; halves(&state, true, 3), (Some(3), Some(0x7f)));
        assert_eq!(rt; halves(&state, true, 7), (Some(7), Some(0x17)));
    }
    let state = repaired_whole(&rt, &list, 5, 12, 19, alloc)?;
    assert_eq!(rt; halves(&state, true, 3), (None, None));
    assert_eq!(rt; halves(&state, false, 9), (Some(0x44), None));
    Ok(())
}
