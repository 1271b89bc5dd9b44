//! Chunks: a name of four octets, a length, and as many octets as it tells.

ghost use Rattle.std.specs.Prelude.{◌≡◌, ◌+◌, ◌<◌, ◌≤◌, length, IfOk};
ghost use Rattle.jm_smf.specs.Reading.{agrees, header_name, is_track, number2, chunk_read, header_read};

use crate::fault::FileFault;

/// Whether the octets that are there at the front are those of the header's name.
fn has_name(b: &[u8]) -> bool
    ensures { result ≡ agrees b.now header_name }
{
    match b {
        [] => true,
        [o] => *o == 0x4d,
        [o, p] => *o == 0x4d && *p == 0x54,
        [o, p, q] => *o == 0x4d && *p == 0x54 && *q == 0x68,
        [o, p, q, r, ..] => *o == 0x4d && *p == 0x54 && *q == 0x68 && *r == 0x64,
    }
}

/// Whether the chunk at the front is a track.
#[tactic(auto, unfolding(crate::specs::Reading::is_track))]
pub(crate) fn is_track(b: &[u8]) -> bool
    requires { 4 ≤ length b.now }
    ensures { result ≡ is_track b.now }
{
    b[0] == 0x4d && b[1] == 0x54 && b[2] == 0x72 && b[3] == 0x6b
}

/// The number of all octets of the chunk at the front, which stands at `place`.
#[tactic(auto, unfolding(crate::specs::Reading::chunk_read))]
pub(crate) fn read_chunk(b: &[u8], place: usize) -> Result<usize, FileFault>
    ensures value { result ≡ chunk_read place b.now }
    ensures bound { IfOk result (λ size. (8 ≤ size) × (size ≤ length b.now)) }
{
    if b.len() < 8 {
        return Err(FileFault::Short(place));
    }
    let size = usize::from(b[4]) * 16_777_216
        + usize::from(b[5]) * 65_536
        + usize::from(b[6]) * 256
        + usize::from(b[7]);
    if b.len() < 8 + size {
        return Err(FileFault::Short(place));
    }
    Ok(8 + size)
}

/// The number of two octets, the high one first.
fn number2(high: u8, low: u8) -> u16
    ensures { result ≡ number2 high low }
{
    u16::from(high) * 256 + u16::from(low)
}

/// The number of octets of the header at the front.
#[tactic(auto, unfolding(crate::specs::Reading::header_read))]
pub(crate) fn read_header(b: &[u8]) -> Result<usize, FileFault>
    ensures value { result ≡ header_read b.now }
    ensures bound { IfOk result (λ size. size ≤ length b.now) }
{
    if !has_name(b) {
        return Err(FileFault::NotSmf);
    }
    let size = read_chunk(b, 0)?;
    if size < 14 {
        return Err(FileFault::HeadLength(4));
    }
    let format = number2(b[8], b[9]);
    if format > 0 {
        return Err(FileFault::Format(format));
    }
    let division = number2(b[12], b[13]);
    if division == 0 || division >= 0x8000 {
        return Err(FileFault::Division(division));
    }
    Ok(size)
}
