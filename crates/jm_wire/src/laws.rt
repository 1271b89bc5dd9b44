//! Laws over the definitions that the contracts of this crate cite.

ghost use Rattle.jm_wire.specs.Delta.{DeltasReadBack};
ghost use Rattle.jm_wire.specs.Heads.{HeadsReadBack};

/// The delta that is written for a number is a field of that number, no field of it is shorter, and
/// whatever follows, it is read again.
pub fn deltas_read_back()
    ensures { DeltasReadBack }
{}

/// Each bit header whose fields are within their widths is read back from its octets.
pub fn heads_read_back()
    ensures { HeadsReadBack }
{}
