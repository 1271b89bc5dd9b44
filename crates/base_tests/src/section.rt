use jm_cmds::{Channel, CmdFault, Command, D7, ReadError};
use jm_section::*;
use jm_wire::Octets;
use std::alloc::Global;
use std::test::*;

fn note_on(note: u8, velocity: u8) -> Command {
    Command::NoteOn {
        channel: Channel::low(2),
        note: D7::low(note),
        velocity: D7::low(velocity),
    }
}

#[test]
#[tactic(auto, unfolding(jm_section::specs::Section::header))]
fn writes_under_running_status(rt: HostRuntime) -> Result<(), Fail> {
    let mut out = Octets::with_room(8, rt.alloc())?;
    write_section_header(6, true, &mut out);
    let first = note_on(64, 100);
    assert!(rt; next_len(Place::First, 0, &first) <= out.spare());
    let place = write_next(Place::First, 0, &first, &mut out);
    let second = note_on(64, 0);
    assert!(rt; next_len(place, 5, &second) <= out.spare());
    let end = write_next(place, 5, &second, &mut out);
    assert_eq!(rt; out.as_slice(), [0x46, 0x92, 64, 100, 5, 64, 0].as_slice());
    assert_eq!(rt; end, Place::Later(Some(0x92)));
    Ok(())
}

/// What an entry is, to compare it: its delta, a code, and a size. The code of a whole command is its status octet, and the
/// size the number of its octets; a part has 1 to 4, for First, Middle, Last and Cancel, and the number of its data
/// octets; what is passed over has its first octet, and 0.
fn said(item: &Item) -> (u32, u8, usize) {
    match &item.what {
        What::Whole(command) => (item.delta, command.status(), command.size()),
        What::Part { kind, octets } => {
            let code = match kind {
                PartKind::First => 1,
                PartKind::Middle => 2,
                PartKind::Last => 3,
                PartKind::Cancel => 4,
            };
            (item.delta, code, octets.len())
        }
        What::Passed(octet) => (item.delta, *octet, 0),
    }
}

/// The entries of the section at the front of these octets.
fn entries_of(octets: &[u8], alloc: Global) -> Result<Vec<(u32, u8, usize)>, Fail> {
    let section = read_section(octets, alloc)?;
    let mut entries = Vec::new(alloc);
    for item in &section.items {
        entries.push(said(item))?;
    }
    Ok(entries)
}

/// The fault of these octets.
fn fault_of(octets: &[u8], alloc: Global) -> Option<SectionFault> {
    match read_section(octets, alloc) {
        Err(ReadError::Fault(fault)) => Some(fault),
        _ => None,
    }
}

#[test]
fn a_journal_may_follow(rt: HostRuntime) -> Result<(), Fail> {
    let section = read_section(&[0x46, 0x92, 64, 100, 5, 64, 0, 9], rt.alloc())?;
    assert_eq!(rt; (section.journal, section.used), (true, 7));
    let section = read_section(&[0x20, 3], rt.alloc())?;
    assert_eq!(rt; (section.journal, section.used), (false, 1));
    let section = read_section(&[0xc0, 1, 0xf8], rt.alloc())?;
    assert_eq!(rt; (section.journal, section.used), (true, 3));
    Ok(())
}

/// Deltas, running status, which system commands between don't end, and what is passed over.
#[test]
fn lists_of_commands(rt: HostRuntime) -> Result<(), Fail> {
    let cases: [(&[u8], &[(u32, u8, usize)]); 9] = [
        (&[0x00], &[]),
        (
            &[0x06, 0x92, 64, 100, 5, 64, 0],
            &[(0, 0x92, 3), (5, 0x92, 3)],
        ),
        (&[0x24, 3, 0x92, 64, 100], &[(3, 0x92, 3)]),
        (&[0x04, 0x92, 64, 100, 5], &[(0, 0x92, 3)]),
        (
            &[0x08, 0x92, 64, 100, 0, 0xf8, 0, 65, 100],
            &[(0, 0x92, 3), (0, 0xf8, 1), (0, 0x92, 3)],
        ),
        (
            &[0x08, 0x92, 64, 100, 0, 0xf9, 0, 65, 100],
            &[(0, 0x92, 3), (0, 0xf9, 0), (0, 0x92, 3)],
        ),
        (
            &[0x0a, 0xb0, 7, 127, 0, 0xc0, 1, 0, 127, 0, 0xf8],
            &[(0, 0xb0, 3), (0, 0xc0, 2), (0, 0xc0, 2), (0, 0xf8, 1)],
        ),
        (
            &[0x07, 0x92, 64, 100, 0x81, 0, 65, 0],
            &[(0, 0x92, 3), (128, 0x92, 3)],
        ),
        (&[0x03, 0xf0, 1, 0xf7], &[(0, 0xf0, 3)]),
    ];
    for (octets, entries) in cases {
        let found = entries_of(octets, rt.alloc())?;
        assert_eq!(rt; found.as_slice(), entries);
    }
    Ok(())
}

/// The segments of a System Exclusive command, by their first octet and their last.
#[test]
fn segments(rt: HostRuntime) -> Result<(), Fail> {
    let cases: [(&[u8], (u32, u8, usize)); 5] = [
        (&[0x04, 0xf0, 1, 2, 0xf0], (0, 1, 2)),
        (&[0x03, 0xf7, 1, 0xf0], (0, 2, 1)),
        (&[0x03, 0xf7, 1, 0xf7], (0, 3, 1)),
        (&[0x03, 0xf0, 1, 0xf4], (0, 4, 1)),
        (&[0x02, 0xf7, 0xf4], (0, 4, 0)),
    ];
    for (octets, entry) in cases {
        let found = entries_of(octets, rt.alloc())?;
        assert_eq!(rt; found.as_slice(), [entry].as_slice());
    }
    Ok(())
}

/// The data octets of segments, and a list in which segments and commands are written.
#[test]
#[tactic(auto, unfolding(jm_section::specs::Section::item_text, jm_section::specs::Section::what_text))]
fn segments_are_written(rt: HostRuntime) -> Result<(), Fail> {
    let kinds: [(PartKind, &[u8]); 3] = [
        (PartKind::First, &[0xf0, 1, 2, 0xf0]),
        (PartKind::Middle, &[0xf7, 1, 2, 0xf0]),
        (PartKind::Last, &[0xf7, 1, 2, 0xf7]),
    ];
    for (kind, text) in kinds {
        let mut out = Octets::with_room(4, rt.alloc())?;
        assert!(rt; segment_len(kind, &[1, 2]) <= out.spare());
        write_segment(kind, &[1, 2], &mut out);
        assert_eq!(rt; out.as_slice(), text);
    }
    Ok(())
}

/// Messages of 2,046 and of 2,047 data octets are commands. LEN has two octets.
#[test]
fn long_messages(rt: HostRuntime) -> Result<(), Fail> {
    let mut octets = [1u8; 2051];
    octets[0] = 0x88;
    octets[1] = 0;
    octets[2] = 0xf0;
    octets[2049] = 0xf7;
    let found = entries_of(&octets[..2050], rt.alloc())?;
    assert_eq!(rt; found.as_slice(), [(0, 0xf0, 2048)].as_slice());
    octets[1] = 1;
    octets[2049] = 1;
    octets[2050] = 0xf7;
    let found = entries_of(&octets, rt.alloc())?;
    assert_eq!(rt; found.as_slice(), [(0, 0xf0, 2049)].as_slice());
    Ok(())
}

/// Each kind of fault of the list, with its place.
#[test]
fn faults(rt: HostRuntime) {
    let cases: [(&[u8], SectionFault); 9] = [
        (&[], SectionFault::Short),
        (&[0x80], SectionFault::Short),
        (&[0x05, 0x92, 64], SectionFault::Short),
        (&[0x02, 64, 100], SectionFault::NoStatus(1)),
        (
            &[0x09, 0x92, 64, 100, 0, 0xf3, 1, 0, 65, 100],
            SectionFault::NoStatus(8),
        ),
        (
            &[0x07, 0x92, 64, 100, 0, 0xf4, 0, 65],
            SectionFault::NoStatus(7),
        ),
        (
            &[0x09, 0x92, 64, 100, 0, 0xf0, 0xf7, 0, 65, 100],
            SectionFault::NoStatus(8),
        ),
        (
            &[0x08, 0x92, 64, 100, 0x80, 0x80, 0x80, 0x80, 0],
            SectionFault::BadDelta(4),
        ),
        (
            &[0x06, 0x92, 64, 100, 0x80, 0x80, 0x80],
            SectionFault::BadDelta(4),
        ),
    ];
    for (octets, fault) in cases {
        assert_eq!(rt; fault_of(octets, rt.alloc()), Some(fault));
    }
}

/// Faults of commands, each with the place of the command and the place inside it.
#[test]
fn faults_of_commands(rt: HostRuntime) {
    let cases: [(&[u8], usize, CmdFault); 6] = [
        (&[0x03, 0xf0, 0x80, 0xf7], 1, CmdFault::BadData(1)),
        (&[0x04, 0xf7, 1, 0xf8, 0xf7], 1, CmdFault::BadData(2)),
        (&[0x03, 0xf0, 1, 2], 1, CmdFault::Short),
        (&[0x03, 0x92, 60, 0x80], 1, CmdFault::BadData(2)),
        (&[0x05, 0x92, 64, 100, 0, 0xc1], 5, CmdFault::Short),
        (
            &[0x07, 0xf3, 1, 0, 0x92, 64, 0x80, 0x80],
            4,
            CmdFault::BadData(2),
        ),
    ];
    for (octets, place, fault) in cases {
        let told = fault_of(octets, rt.alloc());
        assert_eq!(rt; told, Some(SectionFault::BadCommand(place, fault)));
    }
}
