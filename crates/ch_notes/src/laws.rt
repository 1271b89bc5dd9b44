//! What holds of the definitions that this crate's contracts cite. Each law is the contract of a
//! function that does nothing.

ghost use Rattle.ch_notes.specs.Fresh.{FreshShows, ExtraShows, PressShows};
ghost use Rattle.ch_notes.specs.Muted.{XTellsActivity};
ghost use Rattle.ch_notes.specs.PolyLimits.{PolyLimits};

/// Chapter N is fresh exactly where its B or one of its S bits is 0.
pub fn fresh_shows()
    ensures { FreshShows }
{}

/// Chapter E is fresh exactly where the S bit of its header is 0, and exactly where that of one of its logs
/// is.
pub fn extra_shows()
    ensures { ExtraShows }
{}

/// Chapter A is fresh exactly where the S bit of its header is 0, and exactly where that of one of its logs
/// is.
pub fn press_shows()
    ensures { PressShows }
{}

/// X of Chapter A is 1 exactly where a later command ended the notes of the channel.
pub fn x_tells_activity()
    ensures { XTellsActivity }
{}

/// How the number of notes that Chapter A codes changes as commands are sent and the checkpoint grows.
pub fn poly_limits()
    ensures { PolyLimits }
{}
