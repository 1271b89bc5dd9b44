//! What is written of a list.

use crate::files::{list_of, read, timed};
use jm_cmds::ReadError;
use jm_smf::{SmfFault, write_file};
use std::test::Fail;

/// The header of every file that is written: format 0, one track, 5,000 ticks for a quarter note.
const HEADER: &[u8] = b"MThd\x00\x00\x00\x06\x00\x00\x00\x01\x13\x88";

/// Lists, and what stands behind the header of their files.
const WRITTEN: [(&[(u64, &[u8])], &[u8]); 8] = [
    // no command
    (&[], b"\x4d\x54\x72\x6b\x00\x00\x00\x04\x00\xff\x2f\x00"),
    // a channel command
    (
        &[(0, b"\x90\x3c\x64")],
        b"\x4d\x54\x72\x6b\x00\x00\x00\x08\x00\x90\x3c\x64\x00\xff\x2f\x00",
    ),
    // the first one stands at 0
    (
        &[
            (5, b"\x90\x3c\x64"),
            (5, b"\xf0\x01\x02\xf7"),
            (135, b"\xfa"),
        ],
        b"\x4d\x54\x72\x6b\x00\x00\x00\x13\x00\x90\x3c\x64\x00\xf0\x03\x01\x02\xf7\x81\x02\xf7\x01\xfa\x00\xff\x2f\x00",
    ),
    // a message without data octets, and a program
    (
        &[(9, b"\xf0\xf7"), (10, b"\xc0\x05"), (10, b"\xc0\x06")],
        b"\x4d\x54\x72\x6b\x00\x00\x00\x0e\x00\xf0\x01\xf7\x01\xc0\x05\x00\xc0\x06\x00\xff\x2f\x00",
    ),
    // every command that is not for a channel
    (
        &[
            (1, b"\xf1\x0a"),
            (1, b"\xf2\x01\x40"),
            (1, b"\xf3\x03"),
            (1, b"\xf6"),
            (1, b"\xf8"),
            (2, b"\xfa"),
            (2, b"\xfb"),
            (2, b"\xfc"),
            (2, b"\xfe"),
            (2, b"\xff"),
        ],
        b"\x4d\x54\x72\x6b\x00\x00\x00\x30\x00\xf7\x02\xf1\x0a\x00\xf7\x03\xf2\x01\x40\x00\xf7\x02\xf3\x03\x00\xf7\x01\xf6\x00\xf7\x01\xf8\x01\xf7\x01\xfa\x00\xf7\x01\xfb\x00\xf7\x01\xfc\x00\xf7\x01\xfe\x00\xf7\x01\xff\x00\xff\x2f\x00",
    ),
    // the longest delta of two octets, and the next
    (
        &[(0, b"\xf8"), (16383, b"\xf8"), (32767, b"\xf8")],
        b"\x4d\x54\x72\x6b\x00\x00\x00\x13\x00\xf7\x01\xf8\xff\x7f\xf7\x01\xf8\x81\x80\x00\xf7\x01\xf8\x00\xff\x2f\x00",
    ),
    // the longest delta
    (
        &[(0, b"\xf8"), (268435455, b"\xfa")],
        b"\x4d\x54\x72\x6b\x00\x00\x00\x0f\x00\xf7\x01\xf8\xff\xff\xff\x7f\xf7\x01\xfa\x00\xff\x2f\x00",
    ),
    // the longest delta from the highest tick on
    (
        &[
            (18446744073441116160, b"\xf8"),
            (18446744073709551615, b"\xfa"),
        ],
        b"\x4d\x54\x72\x6b\x00\x00\x00\x0f\x00\xf7\x01\xf8\xff\xff\xff\x7f\xf7\x01\xfa\x00\xff\x2f\x00",
    ),
];

#[test]
fn files_of_lists(rt: HostRuntime) -> Result<(), Fail> {
    for (commands, track) in WRITTEN {
        let list = list_of(commands, rt.alloc())?;
        let mut expected = Vec::new(rt.alloc());
        expected.extend_from_slice(HEADER)?;
        expected.extend_from_slice(track)?;
        assert_eq!(rt; write_file(list.as_slice(), rt.alloc()), Ok(expected));
    }
    Ok(())
}

/// What was written is read again, with the first command at 0.
#[test]
fn read_again(rt: HostRuntime) -> Result<(), Fail> {
    for (commands, _) in WRITTEN {
        let mut list = list_of(commands, rt.alloc())?;
        let octets = write_file(list.as_slice(), rt.alloc())?;
        let read = read(octets.as_slice(), rt.alloc())?;
        let first = match commands {
            [] => 0,
            [(tick, _), ..] => *tick,
        };
        for item in &mut list {
            item.tick = item.tick.saturating_sub(first);
        }
        assert_eq!(rt; read, list);
    }
    Ok(())
}

#[test]
fn too_far(rt: HostRuntime) -> Result<(), Fail> {
    let one = list_of(&[(0, b"\xf8"), (0x1000_0000, b"\xfa")], rt.alloc())?;
    let fault = ReadError::Fault(SmfFault::TooFar { index: 1 });
    assert_eq!(rt; write_file(one.as_slice(), rt.alloc()), Err(fault));
    let two = list_of(
        &[
            (0, b"\xf8"),
            (9, b"\xf8"),
            (0x1000_0009, b"\xfa"),
            (0x3000_0009, b"\xfa"),
        ],
        rt.alloc(),
    )?;
    let fault = ReadError::Fault(SmfFault::TooFar { index: 2 });
    assert_eq!(rt; write_file(two.as_slice(), rt.alloc()), Err(fault));
    Ok(())
}
