//! Where a packet stands after the last one.

ghost use Rattle.std.specs.Prelude.{◌≡◌, ◌%◌};
ghost use Rattle.jm_receiver.specs.Accept.{packets_ahead, used_after, placed_ahead, placed};

use crate::opening::AcceptFault;

/// What of a packet's journal is used.
#[derive(Clone, Copy, PartialEq, Eq, Debug)]
pub(crate) enum Uses {
    Nothing,
    /// The logs of what came in the packet before.
    Fresh,
    All,
}

/// Where a packet stands after the last one.
#[derive(Clone, Copy, Debug)]
pub(crate) struct Placed {
    /// The packet's number.
    pub(crate) number: u64,
    /// How many packets before it were missed.
    pub(crate) gap: u64,
    pub(crate) uses: Uses,
}

/// How many packets the one with these low 16 bits is ahead of the last, modulo 65,536.
fn packets_ahead(last: u64, number: u16) -> u64
    ensures { result ≡ packets_ahead last number }
{
    (u64::from(number) + 65_536 - last % 65_536) % 65_536
}

/// What of the journal is used after so many missed packets.
fn used_after(gap: u64) -> Uses
    ensures { result ≡ used_after gap }
{
    if gap == 0 {
        return Uses::Nothing;
    }
    if gap == 1 {
        return Uses::Fresh;
    }
    Uses::All
}

/// The place of a packet that is so many ahead of the last one. It is no newer where that is 0 or at least 32,768.
fn placed_ahead(last: u64, ahead: u64) -> Result<Placed, AcceptFault>
    ensures { result ≡ placed_ahead last ahead }
{
    if ahead == 0 || 32_768 <= ahead {
        return Err(AcceptFault::Older { last });
    }
    Ok(Placed {
        number: last.wrapping_add(ahead),
        gap: ahead - 1,
        uses: used_after(ahead - 1),
    })
}

/// The place of a packet with these low 16 bits of its number.
pub(crate) fn find_place(last: Option<u64>, number: u16) -> Result<Placed, AcceptFault>
    ensures { result ≡ placed last number }
{
    match last {
        None => Ok(Placed {
            number: u64::from(number),
            gap: 0,
            uses: Uses::All,
        }),
        Some(last) => placed_ahead(last, packets_ahead(last, number)),
    }
}
