//! Packets read, and a header written, by their octets.

use jm_cmds::ReadError;
use jm_packet::{HEADER_LEN, Header, PacketFault, read_packet, write_header};
use jm_section::SectionFault;
use jm_wire::Octets;
use std::alloc::Global;
use std::test::Fail;

/// The fault of these octets.
fn fault_of(octets: &[u8], alloc: Global) -> Option<PacketFault> {
    match read_packet(octets, alloc) {
        Err(ReadError::Fault(fault)) => Some(fault),
        _ => None,
    }
}

#[test]
fn a_packet_is_read(rt: HostRuntime) -> Result<(), Fail> {
    let octets = [
        0x80, 0x61, 0, 1, 0, 0, 0, 200, 0x11, 0x22, 0x33, 0x44, 0x40, 0xa0, 0, 0,
    ];
    let packet = read_packet(&octets, rt.alloc())?;
    assert_eq!(rt; packet.number, 1);
    assert_eq!(rt; packet.tick, 200);
    assert_eq!(rt; packet.ssrc, 0x1122_3344);
    assert_eq!(rt; packet.section.items.len(), 0);
    assert_eq!(rt; packet.journal, Some(13));
    Ok(())
}

#[test]
fn sources_are_skipped(rt: HostRuntime) -> Result<(), Fail> {
    let octets = [
        0x81, 0xff, 0, 1, 0, 0, 0, 200, 0x11, 0x22, 0x33, 0x44, 9, 9, 9, 9, 0x03, 0x90, 0x3c, 0x64,
    ];
    let packet = read_packet(&octets, rt.alloc())?;
    assert_eq!(rt; packet.section.items.len(), 1);
    assert_eq!(rt; packet.journal, None);
    assert_eq!(rt;
        fault_of(&octets[..15], rt.alloc()),
        Some(PacketFault::Short)
    );
    Ok(())
}

#[test]
fn the_first_fault_is_told(rt: HostRuntime) -> Result<(), Fail> {
    let alloc = rt.alloc();
    let mut octets = [0x70u8, 95, 0, 1, 0, 0, 0, 2, 0, 0, 0, 3];
    assert_eq!(rt; fault_of(&octets[..11], alloc), Some(PacketFault::Short));
    assert_eq!(rt; fault_of(&octets, alloc), Some(PacketFault::Version));
    octets[0] = 0xb1;
    assert_eq!(rt; fault_of(&octets, alloc), Some(PacketFault::Padding));
    octets[0] = 0x91;
    assert_eq!(rt; fault_of(&octets, alloc), Some(PacketFault::Extension));
    octets[0] = 0x81;
    assert_eq!(rt; fault_of(&octets, alloc), Some(PacketFault::PayloadType));
    octets[1] = 96;
    assert_eq!(rt; fault_of(&octets, alloc), Some(PacketFault::Short));
    octets[0] = 0x80;
    assert_eq!(rt;
        fault_of(&octets, alloc),
        Some(PacketFault::Section(SectionFault::Short))
    );
    Ok(())
}

/// Any payload type from 96 on is taken, with the marker and without it, and none below.
#[test]
fn payload_types(rt: HostRuntime) -> Result<(), Fail> {
    let cases: [(u8, Option<PacketFault>); 8] = [
        (0x60, None),
        (0xe0, None),
        (0x61, None),
        (0x7f, None),
        (0xff, None),
        (0x5f, Some(PacketFault::PayloadType)),
        (0xdf, Some(PacketFault::PayloadType)),
        (0x00, Some(PacketFault::PayloadType)),
    ];
    for (octet, fault) in cases {
        let octets = [0x80, octet, 0, 1, 0, 0, 0, 2, 0, 0, 0, 3, 0];
        assert_eq!(rt; fault_of(&octets, rt.alloc()), fault);
    }
    Ok(())
}

/// The octets before the section are twelve and four for each of at most fifteen contributing sources.
#[test]
fn fifteen_sources_are_skipped(rt: HostRuntime) -> Result<(), Fail> {
    let mut octets = [0xf7u8; 73];
    octets[0] = 0x8f;
    octets[1] = 0x61;
    octets[72] = 0x40;
    let packet = read_packet(&octets, rt.alloc())?;
    assert_eq!(rt; (packet.number, packet.ssrc), (0xf7f7, 0xf7f7_f7f7));
    assert_eq!(rt; packet.journal, Some(73));
    assert_eq!(rt;
        fault_of(&octets[..71], rt.alloc()),
        Some(PacketFault::Short)
    );
    Ok(())
}

#[test]
fn writes_the_twelve_octets(rt: HostRuntime) -> Result<(), Fail> {
    let mut out = Octets::with_room(HEADER_LEN, rt.alloc())?;
    if out.spare() < HEADER_LEN {
        return Ok(());
    }
    let header = Header {
        number: 0x0102,
        tick: 0x0304_0506,
        ssrc: 0x1122_3344,
        marker: true,
    };
    write_header(&header, &mut out);
    assert_eq!(rt;
        out.as_slice(),
        [0x80, 0xe1, 1, 2, 3, 4, 5, 6, 0x11, 0x22, 0x33, 0x44].as_slice()
    );
    Ok(())
}
