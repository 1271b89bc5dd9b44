use jm_wire::*;
use std::test::*;

/// The examples of variable-length numbers in the Standard MIDI Files specification.
#[test]
#[tactic(auto, unfolding(jm_wire::specs::Delta::delta))]
fn deltas(rt: HostRuntime) -> Result<(), Fail> {
    let mut out = Octets::with_room(8, rt.alloc())?;
    assert_eq!(rt; out.spare(), 8);
    write_delta(0x2000, &mut out);
    assert_eq!(rt; out.as_slice(), [0xC0, 0x00].as_slice());
    out.clear();
    write_delta(0x0FFF_FFFF, &mut out);
    assert_eq!(rt; out.as_slice(), [0xFF, 0xFF, 0xFF, 0x7F].as_slice());
    assert_eq!(rt; delta_len(0x0FFF_FFFF), 4);
    assert_eq!(rt; read_delta(&[0x81, 0x00, 0x90]), Ok((0x80, 2)));
    Ok(())
}

#[test]
fn numbers(rt: HostRuntime) -> Result<(), Fail> {
    let mut out = Octets::with_room(14, rt.alloc())?;
    out.push_u16(0x0102);
    out.push_u32(0x0304_0506);
    out.push_u64(0x0708_090A_0B0C_0D0E);
    assert_eq!(rt;
        out.as_slice(),
        [1, 2, 3, 4, 5, 6, 7, 8, 9, 10, 11, 12, 13, 14].as_slice()
    );
    assert_eq!(rt; extend16(0x1_FFF0, 0x000F), 0x2_000F);
    Ok(())
}

/// Each header of a journal with each of its fields: the octets that it packs, and the header that they unpack.
#[test]
fn heads(rt: HostRuntime) -> Result<(), Fail> {
    let journal = JournalHead {
        s: true,
        y: false,
        a: true,
        h: false,
        totchan: 5,
        checkpoint: 0x1234,
    };
    assert_eq!(rt; journal.pack(), [0xA5, 0x12, 0x34]);
    assert_eq!(rt; JournalHead::unpack([0xA5, 0x12, 0x34]), journal);
    let system = SystemHead {
        s: false,
        d: true,
        v: false,
        q: true,
        f: false,
        x: true,
        length: 0x3FB,
    };
    assert_eq!(rt; system.pack(), [0x57, 0xFB]);
    assert_eq!(rt; SystemHead::unpack([0x57, 0xFB]), system);
    let param = ParamHead {
        s: true,
        p: false,
        e: false,
        u: false,
        w: false,
        z: false,
        length: 6,
    };
    assert_eq!(rt; param.pack(), [0x80, 0x06]);
    assert_eq!(rt; ParamHead::unpack([0x80, 0x06]), param);
    Ok(())
}

#[test]
fn channel_and_chapter_heads(rt: HostRuntime) -> Result<(), Fail> {
    let channel = ChannelHead {
        s: false,
        chan: 9,
        h: false,
        length: 0x105,
        p: true,
        c: false,
        m: false,
        w: false,
        n: true,
        e: false,
        t: true,
        a: false,
    };
    assert_eq!(rt; channel.pack(), [0x49, 0x05, 0x8A]);
    assert_eq!(rt; ChannelHead::unpack([0x49, 0x05, 0x8A]), channel);
    let note = NoteHead {
        b: true,
        len: 3,
        low: 15,
        high: 1,
    };
    assert_eq!(rt; note.pack(), [0x83, 0xF1]);
    assert_eq!(rt; NoteHead::unpack([0x83, 0xF1]), note);
    let seq = SeqHead {
        s: false,
        n: true,
        d: true,
        c: true,
        t: false,
        top: 2,
    };
    assert_eq!(rt; seq.pack(), [0x72]);
    assert_eq!(rt; SeqHead::unpack([0x72]), seq);
    let time = TimeHead {
        s: false,
        c: true,
        p: false,
        q: true,
        d: false,
        point: 7,
    };
    assert_eq!(rt; time.pack(), [0x57]);
    assert_eq!(rt; TimeHead::unpack([0x57]), time);
    Ok(())
}

/// The examples of variable-length numbers in the Standard MIDI Files specification, each with its field.
#[test]
fn fields_of_numbers(rt: HostRuntime) {
    let cases: [(u32, &[u8]); 12] = [
        (0, &[0]),
        (0x40, &[0x40]),
        (0x7f, &[0x7f]),
        (0x80, &[0x81, 0]),
        (0x2000, &[0xc0, 0]),
        (0x3fff, &[0xff, 0x7f]),
        (0x4000, &[0x81, 0x80, 0]),
        (0x10_0000, &[0xc0, 0x80, 0]),
        (0x1f_ffff, &[0xff, 0xff, 0x7f]),
        (0x20_0000, &[0x81, 0x80, 0x80, 0]),
        (0x800_0000, &[0xc0, 0x80, 0x80, 0]),
        (0xfff_ffff, &[0xff, 0xff, 0xff, 0x7f]),
    ];
    for (value, field) in cases {
        assert_eq!(rt; read_delta(field), Ok((value, field.len())));
        assert_eq!(rt; delta_len(u64::from(value)), field.len());
    }
}

/// Fields without an end, and longer ones of a small number.
#[test]
fn odd_fields(rt: HostRuntime) {
    let cases: [(&[u8], Result<(u32, usize), DeltaFault>); 6] = [
        (&[], Err(DeltaFault::Short)),
        (&[0x80], Err(DeltaFault::Short)),
        (&[0x80, 0xff, 0x80], Err(DeltaFault::Short)),
        (&[0x80, 0x80, 0x80, 0x80], Err(DeltaFault::TooLong)),
        (&[0xff, 0xff, 0xff, 0xff, 0], Err(DeltaFault::TooLong)),
        (&[0x80, 0x80, 0x80, 1, 2], Ok((1, 4))),
    ];
    for (octets, field) in cases {
        assert_eq!(rt; read_delta(octets), field);
    }
}

/// The least number from one on with these low 16 bits, at both sides of each bound.
#[test]
fn numbers_are_extended(rt: HostRuntime) {
    let cases: [(u64, u16, u64); 6] = [
        (0, 0, 0),
        (0, 0xffff, 0xffff),
        (5, 5, 5),
        (5, 4, 0x1_0004),
        (0xffff, 0, 0x1_0000),
        (0x1_fff0, 0xffef, 0x2_ffef),
    ];
    for (near, low, number) in cases {
        assert_eq!(rt; extend16(near, low), number);
    }
}
