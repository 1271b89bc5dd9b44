//! System Exclusive messages that come in segments, by packets' octets.

ghost use Rattle.std.specs.Prelude.{◌≤◌};

use jm_cmds::Command;
use jm_receiver::{Receiver, Took};
use std::alloc::{AllocError, Global};
use std::test::Fail;

const SSRC: u32 = 0x1122_3344;

/// The first octet and the last one of a segment, or of a whole message (RFC 6295, section 3.2, Figure 5).
type Ends = (u8, u8);

const FIRST: Ends = (0xf0, 0xf0);

const MIDDLE: Ends = (0xf7, 0xf0);

const LAST: Ends = (0xf7, 0xf7);

const CANCEL: Ends = (0xf7, 0xf4);

const WHOLE: Ends = (0xf0, 0xf7);

/// This packet at this tick, with a segment of so many data octets, and no journal.
fn packet(
    number: u8,
    tick: u8,
    ends: Ends,
    len: usize,
    alloc: Global,
) -> Result<Vec<u8>, AllocError>
    requires { len ≤ 4000 }
{
    let mut octets = Vec::new(alloc);
    octets.extend_from_slice(&[0x80, 0x61, 0, number, 0, 0, 0, tick, 0x11, 0x22, 0x33, 0x44])?;
    octets.extend_from_slice(&[0x80 + ((len + 2) / 256) as u8, ((len + 2) % 256) as u8])?;
    octets.push(ends.0)?;
    for _ in 0..len {
        octets.push(1)?;
    }
    octets.push(ends.1)?;
    Ok(octets)
}

/// How many data octets the message has that alone is heard, at this tick. `None` where nothing is heard.
fn message_len(took: &Took, tick: u32) -> Result<Option<usize>, Fail> {
    match took.heard.as_slice() {
        [] => Ok(None),
        [heard] => match &heard.command {
            Command::Sysex(message) => {
                if heard.tick == tick {
                    Ok(Some(message.len()))
                } else {
                    Err("another tick")?
                }
            }
            _ => Err("another command")?,
        },
        _ => Err("too many commands")?,
    }
}

/// What a receiver hears of a packet, as above.
fn take(
    receiver: &mut Receiver,
    number: u8,
    tick: u8,
    ends: Ends,
    len: usize,
    alloc: Global,
) -> Result<Option<usize>, Fail>
    requires { len ≤ 4000 }
{
    let octets = packet(number, tick, ends, len, alloc)?;
    let took = receiver.accept(octets.as_slice())?;
    message_len(&took, u32::from(tick))
}

#[test]
fn a_message_in_segments_is_heard_with_its_last_one(rt: HostRuntime) -> Result<(), Fail> {
    let alloc = rt.alloc();
    let mut receiver = Receiver::new(SSRC, alloc)?;
    assert_eq!(rt; take(&mut receiver, 0, 10, FIRST, 2046, alloc)?, None);
    let clock = [
        0x80, 0x61, 0, 1, 0, 0, 0, 15, 0x11, 0x22, 0x33, 0x44, 0x01, 0xf8,
    ];
    assert_eq!(rt; receiver.accept(&clock)?.heard.len(), 1);
    assert_eq!(rt; take(&mut receiver, 2, 20, LAST, 1, alloc)?, Some(2047));
    assert_eq!(rt; take(&mut receiver, 3, 30, LAST, 1, alloc)?, None);
    Ok(())
}

#[test]
fn a_lost_packet_drops_an_unfinished_message(rt: HostRuntime) -> Result<(), Fail> {
    let alloc = rt.alloc();
    let mut receiver = Receiver::new(SSRC, alloc)?;
    assert_eq!(rt; take(&mut receiver, 0, 10, FIRST, 2046, alloc)?, None);
    assert_eq!(rt; take(&mut receiver, 2, 10, MIDDLE, 2046, alloc)?, None);
    assert_eq!(rt; take(&mut receiver, 3, 10, LAST, 1, alloc)?, None);
    Ok(())
}

#[test]
fn some_segments_and_messages_drop_an_unfinished_message(rt: HostRuntime) -> Result<(), Fail> {
    let alloc = rt.alloc();
    let mut receiver = Receiver::new(SSRC, alloc)?;
    assert_eq!(rt; take(&mut receiver, 0, 0, FIRST, 3, alloc)?, None);
    assert_eq!(rt; take(&mut receiver, 1, 0, CANCEL, 0, alloc)?, None);
    assert_eq!(rt; take(&mut receiver, 2, 0, LAST, 1, alloc)?, None);
    assert_eq!(rt; take(&mut receiver, 3, 0, FIRST, 3, alloc)?, None);
    assert_eq!(rt; take(&mut receiver, 4, 0, WHOLE, 2, alloc)?, Some(2));
    assert_eq!(rt; take(&mut receiver, 5, 0, LAST, 1, alloc)?, None);
    assert_eq!(rt; take(&mut receiver, 6, 0, FIRST, 3, alloc)?, None);
    assert_eq!(rt; take(&mut receiver, 7, 0, FIRST, 5, alloc)?, None);
    assert_eq!(rt; take(&mut receiver, 8, 0, MIDDLE, 7, alloc)?, None);
    assert_eq!(rt; take(&mut receiver, 9, 0, LAST, 0, alloc)?, Some(12));
    Ok(())
}

#[test]
fn a_message_has_65536_data_octets_at_most(rt: HostRuntime) -> Result<(), Fail> {
    let alloc = rt.alloc();
    for more in 64..66u8 {
        let mut receiver = Receiver::new(SSRC, alloc)?;
        assert_eq!(rt; take(&mut receiver, 0, 0, FIRST, 2046, alloc)?, None);
        for number in 1..32u8 {
            assert_eq!(rt; take(&mut receiver, number, 0, MIDDLE, 2046, alloc)?, None);
        }
        let heard = take(&mut receiver, 32, 0, LAST, usize::from(more), alloc)?;
        assert_eq!(rt; heard, if more == 64 { Some(65_536) } else { None });
        assert_eq!(rt; take(&mut receiver, 33, 0, LAST, 1, alloc)?, None);
    }
    Ok(())
}
