//! What holds of the definitions that this crate's contracts cite. Each law is the contract of a function
//! that does nothing.

ghost use Rattle.jm_journal.specs.Laws.{KeepsWhatFits};

/// No commands keep the limits, one more that fits keeps them, and so does a later checkpoint. Where the octets of
/// Chapter X are a number of 64 bits, as they are within the limits, `plain_fits` answers `fit_of` as it is.
pub fn keeps_what_fits()
    ensures { KeepsWhatFits }
{}
