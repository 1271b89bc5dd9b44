//! What holds of the definitions that this crate's contracts cite. Each law is the contract of a
//! function that does nothing.

ghost use Rattle.ch_control.specs.Fresh.{FreshShows};
ghost use Rattle.ch_control.specs.Activity.{EndsByActivity};

/// A chapter is fresh exactly where the S bit of its header is 0, and exactly where that of one of its
/// logs is.
pub fn fresh_shows()
    ensures { FreshShows }
{}

/// What ends a control is a later one of its item, or that it is no longer active, or no longer C-active
/// where Control 121 sets its controller back.
pub fn ends_by_activity()
    ensures { EndsByActivity }
{}
