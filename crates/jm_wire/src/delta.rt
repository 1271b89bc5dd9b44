//! The delta field of RFC 6295, section 3.1, Figure 4.

ghost use Rattle.std.specs.Prelude.{◌≡◌, ◌+◌, ◌<◌, ◌≤◌, ◌^◌, ◌↔◌, ℕ, List, ◌++◌, length, IfOk, Ok, Err};
ghost use Rattle.jm_wire.specs.Octets.{Appends};
ghost use Rattle.jm_wire.specs.Delta.{delta, delta_at, value, high_run, IsField, IsReadAs};

use crate::octets::Octets;
use thiserror::Error;

/// Appends the shortest spelling of `v`, one to four octets of seven bits, the high bit set on all
/// but the last.
#[tactic(auto, unfolding(crate::specs::Delta::delta))]
pub fn write_delta(v: u32, out: &mut Octets)
    requires range { v < 2 ^ 28 }
    requires room { length (delta v) ≤ out.old.spare }
    ensures { Appends out.old out.new (delta v) }
{
    let last = (v % 128) as u8;
    if v < 128 {
        out.push(last);
    } else if v < 16_384 {
        out.push_slice(&[128 + (v / 128) as u8, last]);
    } else if v < 2_097_152 {
        out.push_slice(&[128 + (v / 16_384) as u8, 128 + (v / 128 % 128) as u8, last]);
    } else {
        out.push_slice(&[
            128 + (v / 2_097_152) as u8,
            128 + (v / 16_384 % 128) as u8,
            128 + (v / 128 % 128) as u8,
            last,
        ]);
    }
}

/// How many octets [`write_delta`] needs for `v`; four where `v` is over 0x0FFFFFFF.
#[tactic(auto, unfolding(crate::specs::Delta::delta))]
pub fn delta_len(v: u64) -> usize
    ensures value { result ≡ length (delta v) }
    ensures bound { (1 ≤ result) × (result ≤ 4) }
{
    if v < 128 {
        1
    } else if v < 16_384 {
        2
    } else if v < 2_097_152 {
        3
    } else {
        4
    }
}

/// Why no delta field stands at the front of octets.
#[derive(Clone, Copy, PartialEq, Eq, Debug, Error)]
pub enum DeltaFault {
    /// The octets end before the last octet of the field, and are fewer than four.
    #[error("the octets end inside a delta field")]
    Short,
    /// The first four octets all have the high bit set.
    #[error("a delta field of more than four octets")]
    TooLong,
}

// The octets one by one, up to the first without the high bit.
#[tactic(auto, unfolding(crate::specs::Delta::delta_at))]
fn field_at(b: &[u8]) -> Result<(u32, usize), DeltaFault>
    ensures { result ≡ delta_at b.now }
{
    let mut value: u32 = 0;
    for i in 0..4usize {
        if i == b.len() {
            return Err(DeltaFault::Short);
        }
        let o = b[i];
        value = value * 128 + u32::from(o % 128);
        if o < 128 {
            return Ok((value, i + 1));
        }
    }
    Err(DeltaFault::TooLong)
}

/// The value of the delta field at the front of `b`, at most 0x0FFFFFFF, and how many octets it
/// has, one to four. Longer spellings of a small value are read too.
pub fn read_delta(b: &[u8]) -> Result<(u32, usize), DeltaFault>
    // What is read is a field at the front, and its value.
    ensures read { IfOk result (λ r. IsReadAs b.now r.0 r.1) }
    // A field at the front is read.
    ensures only { (text rest : List ℕ) → b.now ≡ text ++ rest → IsField text
        → result ≡ Ok (value text, length text) }

    ensures short { (result ≡ Err DeltaFault.Short)
        ↔ ((high_run b.now ≡ length b.now) × (length b.now < 4)) }
    ensures too_long { (result ≡ Err DeltaFault.TooLong) ↔ (4 ≤ high_run b.now) }

    ensures exact { result ≡ delta_at b.now }
{
    field_at(b)
}
