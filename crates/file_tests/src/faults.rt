//! The first fault of a file, with its place.

use crate::files::{file_of, read};
use jm_cmds::ReadError;
use jm_smf::FileFault::{self, BadEvent, Division, Format, HeadLength, NoStatus, NotSmf, Short};
use std::test::Fail;

/// Whole files, with their first faults.
const FAULTS_OF_CHUNKS: [(&[u8], FileFault); 26] = [
    // nothing at all
    (b"", Short(0)),
    // a part of the name
    (b"\x4d\x54", Short(0)),
    // a part of another name
    (b"\x4d\x55", NotSmf),
    // another name
    (b"\x52\x49\x46\x46\x00\x00\x00\x00", NotSmf),
    // another name goes before a file that is too short
    (b"\x4d\x54\x68\x00", NotSmf),
    // no length
    (b"\x4d\x54\x68\x64\x00\x00\x00", Short(0)),
    // the header ends too early
    (
        b"\x4d\x54\x68\x64\x00\x00\x00\x06\x00\x00\x00\x01\x01",
        Short(0),
    ),
    // a header that ends too early goes before its format
    (
        b"\x4d\x54\x68\x64\x00\x00\x00\x06\x00\x01\x00\x01\x01",
        Short(0),
    ),
    // a header of 5 octets, whose format is 1 as well
    (
        b"\x4d\x54\x68\x64\x00\x00\x00\x05\x00\x01\x00\x01\x01",
        HeadLength(4),
    ),
    // a header of no octet
    (b"\x4d\x54\x68\x64\x00\x00\x00\x00", HeadLength(4)),
    // a header of 5 octets that are not there
    (b"\x4d\x54\x68\x64\x00\x00\x00\x05\x00\x01", Short(0)),
    // format 1
    (
        b"\x4d\x54\x68\x64\x00\x00\x00\x06\x00\x01\x00\x01\x01\xe0\x4d\x54\x72\x6b\x00\x00\x00\x04\x00\xff\x2f\x00",
        Format(1),
    ),
    // format 2, and a division of 0 behind it
    (
        b"\x4d\x54\x68\x64\x00\x00\x00\x06\x00\x02\x00\x01\x00\x00\x4d\x54\x72\x6b\x00\x00\x00\x04\x00\xff\x2f\x00",
        Format(2),
    ),
    // the highest format
    (
        b"\x4d\x54\x68\x64\x00\x00\x00\x06\xff\xff\x00\x01\x01\xe0",
        Format(65535),
    ),
    // a division of 0
    (
        b"\x4d\x54\x68\x64\x00\x00\x00\x06\x00\x00\x00\x01\x00\x00\x4d\x54\x72\x6b\x00\x00\x00\x04\x00\xff\x2f\x00",
        Division(0),
    ),
    // 25 frames a second
    (
        b"\x4d\x54\x68\x64\x00\x00\x00\x06\x00\x00\x00\x01\xe7\x28\x4d\x54\x72\x6b\x00\x00\x00\x04\x00\xff\x2f\x00",
        Division(59176),
    ),
    // the lowest division with the high bit
    (
        b"\x4d\x54\x68\x64\x00\x00\x00\x06\x00\x00\x00\x01\x80\x00\x4d\x54\x72\x6b\x00\x00\x00\x04\x00\xff\x2f\x00",
        Division(32768),
    ),
    // no track
    (
        b"\x4d\x54\x68\x64\x00\x00\x00\x06\x00\x00\x00\x01\x01\xe0",
        Short(14),
    ),
    // no track behind a longer header
    (
        b"\x4d\x54\x68\x64\x00\x00\x00\x08\x00\x00\x00\x01\x01\xe0\xff\xff",
        Short(16),
    ),
    // no track behind a chunk of another name
    (
        b"\x4d\x54\x68\x64\x00\x00\x00\x06\x00\x00\x00\x01\x01\xe0\x58\x58\x58\x58\x00\x00\x00\x01\x00",
        Short(23),
    ),
    // a chunk of another name ends too early
    (
        b"\x4d\x54\x68\x64\x00\x00\x00\x06\x00\x00\x00\x01\x01\xe0\x58\x58\x58\x58\x00\x00\x00\x02\x00",
        Short(14),
    ),
    // a track of which only the name is there
    (
        b"\x4d\x54\x68\x64\x00\x00\x00\x06\x00\x00\x00\x01\x01\xe0\x4d\x54\x72\x6b",
        Short(14),
    ),
    // a track ends too early, with a bad event in it
    (
        b"\x4d\x54\x68\x64\x00\x00\x00\x06\x00\x00\x00\x01\x01\xe0\x4d\x54\x72\x6b\x00\x00\x00\x05\x00\xf4\x00\xff",
        Short(14),
    ),
    // a length of 4,294,967,295 octets
    (
        b"\x4d\x54\x68\x64\x00\x00\x00\x06\x00\x00\x00\x01\x01\xe0\x4d\x54\x72\x6b\xff\xff\xff\xff\x00\xff\x2f\x00",
        Short(14),
    ),
    // a fault in a track behind another chunk
    (
        b"\x4d\x54\x68\x64\x00\x00\x00\x06\x00\x00\x00\x01\x01\xe0\x58\x58\x58\x58\x00\x00\x00\x01\x00\x4d\x54\x72\x6b\x00\x00\x00\x04\x00\xf8\x00\x00",
        BadEvent(31),
    ),
    // a second track does not help the first
    (
        b"\x4d\x54\x68\x64\x00\x00\x00\x06\x00\x00\x00\x01\x01\xe0\x4d\x54\x72\x6b\x00\x00\x00\x00\x4d\x54\x72\x6b\x00\x00\x00\x04\x00\xff\x2f\x00",
        Short(22),
    ),
];

/// Tracks behind a header of 14 octets, with their first faults.
const FAULTS_OF_EVENTS: [(&[u8], FileFault); 33] = [
    // a track of no octet
    (b"", Short(22)),
    // no end behind an event
    (b"\x00\x90\x3c\x64", Short(26)),
    // a delta of five octets
    (b"\x80\x80\x80\x80\x00", BadEvent(22)),
    // a delta of five octets, the last of which is none
    (b"\x80\x80\x80\x80", BadEvent(22)),
    // a delta ends too early
    (b"\x80\x80", Short(22)),
    // nothing behind a delta
    (b"\x00", Short(22)),
    // no status for a data octet
    (b"\x00\x3c\x64\x00\xff\x2f\x00", NoStatus(22)),
    // no status, even if the track ends there
    (b"\x00\x3c", NoStatus(22)),
    // a data octet that misses its status behind F0
    (
        b"\x00\x90\x3c\x64\x00\xf0\x03\x01\x02\xf7\x00\x3c\x64",
        NoStatus(32),
    ),
    // behind F7
    (
        b"\x00\x90\x3c\x64\x00\xf7\x01\xf8\x00\x3c\x64",
        NoStatus(30),
    ),
    // behind FF
    (
        b"\x00\x90\x3c\x64\x00\xff\x01\x00\x00\x3c\x64",
        NoStatus(30),
    ),
    // F1
    (b"\x00\x90\x3c\x64\x00\xf1\x0a", BadEvent(26)),
    // F6
    (b"\x00\xf6\x00\xff\x2f\x00", BadEvent(22)),
    // F8
    (b"\x00\xf8\x00\xff\x2f\x00", BadEvent(22)),
    // FE
    (b"\x0a\xfe\x00\xff\x2f\x00", BadEvent(22)),
    // a first data octet with the high bit
    (b"\x00\x90\x80", BadEvent(22)),
    // a second one, before the end
    (b"\x00\x90\x3c\x80", BadEvent(22)),
    // a second one in a command without a status
    (b"\x00\x90\x3c\x64\x81\x00\x3c\x80", BadEvent(26)),
    // a command ends too early
    (b"\x00\x90\x3c", Short(22)),
    // one without a status
    (b"\x00\x90\x3c\x64\x00\x3c", Short(26)),
    // one of one data octet
    (b"\x00\xc0", Short(22)),
    // a message with a data octet of the high bit
    (b"\x00\xf0\x03\x80\x01\xf7\x00\xff\x2f\x00", BadEvent(22)),
    // a message that ends too early, with such an octet
    (b"\x00\xf0\x04\x80\x01\xf7", Short(22)),
    // a message without a length
    (b"\x00\xf0", Short(22)),
    // a length of five octets
    (b"\x00\xf0\x80\x80\x80\x80\x01\xf7", BadEvent(22)),
    // an escape that ends too early
    (b"\x00\xf7\x02\xf8", Short(22)),
    // a length of five octets of an escape
    (b"\x00\xf7\x80\x80\x80\x80\x01\xf8", BadEvent(22)),
    // FF alone
    (b"\x00\xff", Short(22)),
    // a meta event without a length
    (b"\x00\xff\x01", Short(22)),
    // a length of five octets of a meta event
    (b"\x00\xff\x01\x80\x80\x80\x80\x01\x00", BadEvent(22)),
    // a meta event that ends too early
    (b"\x00\xff\x01\x02\x00", Short(22)),
    // the place is the delta, and counts what stands before
    (b"\x00\x90\x3c\x64\x81\x40\xf4", BadEvent(26)),
    // a message that is not ended, and no end of the track
    (b"\x00\xf0\x02\x01\x02", Short(27)),
];

#[test]
fn faults_of_chunks(rt: HostRuntime) -> Result<(), Fail> {
    for (octets, fault) in FAULTS_OF_CHUNKS {
        assert_eq!(rt; read(octets, rt.alloc()), Err(ReadError::Fault(fault)));
    }
    Ok(())
}

#[test]
fn faults_of_events(rt: HostRuntime) -> Result<(), Fail> {
    for (track, fault) in FAULTS_OF_EVENTS {
        let octets = file_of(track, rt.alloc())?;
        assert_eq!(rt;
            read(octets.as_slice(), rt.alloc()),
            Err(ReadError::Fault(fault))
        );
    }
    Ok(())
}
